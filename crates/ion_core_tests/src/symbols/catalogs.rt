//! Catalogues of shared tables.
ghost use Rattle.std.specs.Prelude.{◌+◌, ◌^◌, ◌<◌, ◌≤◌};
ghost use Rattle.ion_symbols.specs.Table.{catalog_cost, shared_cost};

use super::shared_tables::expect_table;
use crate::same::{holds, same};
use ion_meter::fault::{Fault, Reason};
use ion_meter::meter::Meter;
use ion_symbols::catalog::Catalog;
use ion_symbols::shared::SharedTable;
use std::alloc::Global;
use std::process::Abort;

/// A catalogue, and the meter of what it holds.
#[derive(Drop)]
struct Shelf {
    catalog: Catalog<Global>,
    meter: Meter<Global>,
}

/// A call on a catalogue, and what it answers. A table has a name, a version and slots.
#[derive(Clone, Copy)]
enum Step<'a> {
    /// Adds such a table.
    Add(&'a str, u32, &'a [Option<&'a str>]),
    /// Such a table may not stand there.
    Refused(&'a str, u32),
    /// There is such a table.
    Found(&'a str, u32, &'a [Option<&'a str>]),
    /// There is no such table.
    Missing(&'a str, u32),
    /// So many tables, and how much is held, which is the most so far.
    Counts(usize, u64),
}

impl Shelf {
    fn new(alloc: Global) -> Shelf
        ensures { catalog_cost result.catalog ≤ result.meter.held }
    {
        let meter = Meter::new(alloc);
        let catalog = Catalog::new(&meter);
        Shelf { catalog, meter }
    }

    // A table of this name and version, with these slots.
    #[tactic(auto, using(ion_symbols::proofs::Keeping::cost_push))]
    fn table(
        &mut self,
        rt: &impl Abort,
        name: &str,
        version: u32,
        slots: &[Option<&str>],
    ) -> SharedTable<Global>
        requires held { catalog_cost self.old.catalog ≤ self.old.meter.held }
        ensures held { catalog_cost self.new.catalog + shared_cost result ≤ self.new.meter.held }
    {
        self.expect_little(rt);
        holds(rt, name.len() < 100);
        let made = SharedTable::new(&mut self.meter, name, version);
        let mut table = made.expect(rt, "a table");
        for text in slots {
            self.push(rt, &mut table, *text);
        }
        table
    }

    // Pushes a slot.
    #[tactic(auto, using(ion_symbols::proofs::Keeping::cost_push))]
    fn push(&mut self, rt: &impl Abort, table: &mut SharedTable<Global>, text: Option<&str>)
        requires held { catalog_cost self.old.catalog + shared_cost table.old
            ≤ self.old.meter.held }
        ensures held { catalog_cost self.new.catalog + shared_cost table.new
            ≤ self.new.meter.held }
    {
        self.expect_little(rt);
        if let Some(text) = text {
            holds(rt, text.len() < 100);
        }
        same(rt, table.push(&mut self.meter, text), Ok(()));
    }

    // Asserts that the meter counts little, which a call that grows requires.
    fn expect_little(&self, rt: &impl Abort)
        ensures held { self.now.meter.held < 2 ^ 32 }
        ensures refused { self.now.meter.refused < 2 ^ 32 }
    {
        holds(rt, self.meter.held() < 1 << 32);
        holds(rt, self.meter.refused() < 1 << 32);
    }

    // Adds such a table.
    #[tactic(auto, using(crate::proofs::Shelves::cost_without))]
    fn add(&mut self, rt: &impl Abort, name: &str, version: u32, slots: &[Option<&str>])
        requires held { catalog_cost self.old.catalog ≤ self.old.meter.held }
        ensures held { catalog_cost self.new.catalog ≤ self.new.meter.held }
    {
        let table = self.table(rt, name, version, slots);
        self.expect_little(rt);
        let held = self.meter.held();
        self.catalog
            .add(&mut self.meter, table)
            .ok()
            .expect(rt, name);
        same(rt, self.meter.held(), held + 32);
    }

    // Asserts that such a table is handed back, and that nothing is changed.
    fn expect_refused(&mut self, rt: &impl Abort, name: &str, version: u32)
        requires held { catalog_cost self.old.catalog ≤ self.old.meter.held }
        ensures held { catalog_cost self.new.catalog ≤ self.new.meter.held }
    {
        let held = self.meter.held();
        let count = self.catalog.len();
        let table = self.table(rt, name, version, &[Some("new")]);
        self.expect_little(rt);
        let added = self.catalog.add(&mut self.meter, table);
        let (table, fault) = added.err().expect(rt, name);
        same(rt, fault, Fault::Refused(Reason::CatalogEntry, 0));
        expect_table(rt, &table, name, version, &[Some("new")]);
        table.release(&mut self.meter);
        let found = (self.catalog.len(), self.meter.held());
        same(rt, found, (count, held));
    }

    // Asserts that there is a table of this name and version, with these slots.
    fn expect_found(&self, rt: &impl Abort, name: &str, version: u32, slots: &[Option<&str>]) {
        let table = self.catalog.find(name, version).expect(rt, name);
        expect_table(rt, table, name, version, slots);
    }

    // Asserts what a call answers.
    fn expect(&mut self, rt: &impl Abort, step: Step)
        requires held { catalog_cost self.old.catalog ≤ self.old.meter.held }
        ensures held { catalog_cost self.new.catalog ≤ self.new.meter.held }
    {
        match step {
            Step::Add(name, version, slots) => self.add(rt, name, version, slots),
            Step::Refused(name, version) => self.expect_refused(rt, name, version),
            Step::Found(name, version, slots) => self.expect_found(rt, name, version, slots),
            Step::Missing(name, version) => {
                let there = self.catalog.find(name, version).is_some();
                same(rt, (name, version, there), (name, version, false));
            }
            Step::Counts(count, held) => {
                let found = (self.catalog.len(), self.catalog.is_empty());
                same(rt, found, (count, count == 0));
                same(rt, (self.meter.held(), self.meter.peak()), (held, held));
            }
        }
    }

    // Asserts what each call answers.
    fn expect_each(&mut self, rt: &impl Abort, steps: &[Step])
        requires held { catalog_cost self.old.catalog ≤ self.old.meter.held }
        ensures held { catalog_cost self.new.catalog ≤ self.new.meter.held }
    {
        for step in steps {
            self.expect(rt, *step);
        }
    }

    // Adds the table at a rank, which is found then and was not before.
    fn add_at(&mut self, rt: &impl Abort, rank: usize)
        requires held { catalog_cost self.old.catalog ≤ self.old.meter.held }
        ensures held { catalog_cost self.new.catalog ≤ self.new.meter.held }
    {
        let (name, version) = table_at(rt, rank);
        let slots = [Some(name)];
        let steps = [
            Step::Missing(name, version),
            Step::Add(name, version, &slots),
            Step::Found(name, version, &slots),
        ];
        self.expect_each(rt, &steps);
    }

    // Asserts that the table at a rank is found and may not be added again, and none between two versions.
    fn found_at(&mut self, rt: &impl Abort, rank: usize)
        requires held { catalog_cost self.old.catalog ≤ self.old.meter.held }
        ensures held { catalog_cost self.new.catalog ≤ self.new.meter.held }
    {
        let (name, version) = table_at(rt, rank);
        let slots = [Some(name)];
        let steps = [
            Step::Found(name, version, &slots),
            Step::Missing(name, version ^ 1),
            Step::Refused(name, version),
        ];
        self.expect_each(rt, &steps);
    }

    // Gives all back, after which nothing is held.
    fn finish(self, rt: &impl Abort)
        requires { catalog_cost self.catalog ≤ self.meter.held }
    {
        let Shelf { catalog, mut meter } = self;
        catalog.release(&mut meter);
        same(rt, meter.held(), 0);
    }
}

/// Asserts what each call answers, on a new catalogue, and gives all back.
fn follow(rt: &impl Abort, alloc: Global, steps: &[Step]) {
    let mut shelf = Shelf::new(alloc);
    shelf.expect_each(rt, steps);
    shelf.finish(rt);
}

// A table costs 32 more in a catalogue.
const COSTS: &[Step] = &[
    Step::Counts(0, 0),
    Step::Add("x", 1, &[Some("p"), None]),
    // 34 before it was added.
    Step::Counts(1, 66),
    Step::Found("x", 1, &[Some("p"), None]),
];

// Tables that may not stand are handed back.
const MAY_NOT_STAND: &[Step] = &[
    Step::Add("x", 1, &[Some("p"), Some("q")]),
    Step::Refused("x", 1),
    Step::Refused("", 1),
    Step::Refused("$ion", 1),
    Step::Refused("x", 0),
    Step::Refused("x", 2_147_483_648),
    Step::Refused("y", u32::MAX),
    Step::Found("x", 1, &[Some("p"), Some("q")]),
];

const BY_NAME_AND_VERSION: &[Step] = &[
    Step::Missing("x", 1),
    Step::Add("x", 1, &[Some("p"), Some("q")]),
    Step::Add("x", 3, &[Some("r"), Some("s"), Some("t")]),
    Step::Add("xy", 1, &[]),
    Step::Add("$ion_", 2_147_483_647, &[Some("u")]),
    Step::Found("x", 1, &[Some("p"), Some("q")]),
    Step::Found("x", 3, &[Some("r"), Some("s"), Some("t")]),
    Step::Found("xy", 1, &[]),
    Step::Found("$ion_", 2_147_483_647, &[Some("u")]),
    Step::Missing("x", 2),
    Step::Missing("x", 0),
    Step::Missing("xy", 3),
    Step::Missing("y", 1),
    Step::Missing("", 1),
    Step::Missing("X", 1),
    // Tables, names and slots.
    Step::Counts(4, 4 * 32 + 1 + 1 + 2 + 5 + 6 * (16 + 1)),
];

#[test]
fn a_table_is_found_by_name_and_version_or_handed_back(rt: HostRuntime) {
    follow(&rt, rt.alloc(), COSTS);
    follow(&rt, rt.alloc(), MAY_NOT_STAND);
    follow(&rt, rt.alloc(), BY_NAME_AND_VERSION);
}

/// Names in order of bytes.
const NAMES: [&str; 20] = [
    "$",
    "$ion_",
    "A",
    "B",
    "Z",
    "a",
    "aa",
    "aaa",
    "ab",
    "b",
    "ba",
    "bb",
    "c",
    "ca",
    "x",
    "xy",
    "xyz",
    "y",
    "\u{E9}",
    "\u{10000}",
];

/// How many tables there are, and how many of one name.
const MANY: usize = 300;

const OF_ONE_NAME: usize = 15;

/// In which order tables are added.
#[derive(Clone, Copy)]
enum Order {
    Ascending,
    Descending,
    Mixed,
}

/// The rank of the table that is added after so many.
fn rank_in(order: Order, number: usize) -> usize
    requires { number < MANY }
{
    match order {
        Order::Ascending => number,
        Order::Descending => MANY - 1 - number,
        // A factor that has no divisor with 300, so that each comes once, in no order.
        Order::Mixed => number * 77 % MANY,
    }
}

/// The name and the version at a rank. Versions are even.
fn table_at(rt: &impl Abort, rank: usize) -> (&'static str, u32) {
    let name = NAMES.get(rank / OF_ONE_NAME).expect(rt, "a rank");
    (*name, (rank % OF_ONE_NAME) as u32 * 2 + 2)
}

/// Asserts that many tables that are added in an order are found, and no others.
fn add_many(rt: &impl Abort, alloc: Global, order: Order) {
    let mut shelf = Shelf::new(alloc);
    for number in 0..MANY {
        shelf.add_at(rt, rank_in(order, number));
    }
    same(rt, shelf.catalog.len(), MANY);
    for rank in 0..MANY {
        shelf.found_at(rt, rank);
    }
    shelf.finish(rt);
}

#[test]
fn many_tables_are_found_in_whatever_order_they_were_added(rt: HostRuntime) {
    for order in [Order::Ascending, Order::Descending, Order::Mixed] {
        add_many(&rt, rt.alloc(), order);
    }
}
