//! Shared tables alone.
ghost use Rattle.std.specs.Prelude.{◌≤◌};
ghost use Rattle.ion_symbols.specs.Table.{shared_cost};

use crate::meter::counts_of;
use crate::same::{holds, same};
use ion_meter::fault::Fault;
use ion_meter::meter::Meter;
use ion_symbols::shared::SharedTable;
use std::alloc::{Allocator, Global};
use std::process::Abort;

/// A call that changes a table.
#[derive(Clone, Copy)]
enum Change<'a> {
    Push(Option<&'a str>),
    Rename(&'a str),
    Version(u32),
}

// Pushes a slot.
#[tactic(auto, using(ion_symbols::proofs::Keeping::cost_push))]
pub fn push<A: Allocator + Copy>(
    rt: &impl Abort,
    meter: &mut Meter<A>,
    table: &mut SharedTable<A>,
    slot: Option<&str>,
) -> Result<(), Fault>
    requires held { shared_cost table.old ≤ meter.old.held }
    ensures held { shared_cost table.new ≤ meter.new.held }
{
    counts_of(rt, meter);
    if let Some(text) = slot {
        holds(rt, text.len() < 100);
    }
    table.push(meter, slot)
}

// Makes the call.
fn make(rt: &impl Abort, meter: &mut Meter<Global>, table: &mut SharedTable<Global>, call: Change)
    requires held { shared_cost table.old ≤ meter.old.held }
    ensures held { shared_cost table.new ≤ meter.new.held }
{
    match call {
        Change::Push(text) => same(rt, push(rt, meter, table, text), Ok(())),
        Change::Rename(name) => {
            counts_of(rt, meter);
            holds(rt, name.len() < 100);
            same(rt, table.set_name(meter, name), Ok(()));
        }
        Change::Version(version) => table.set_version(version),
    }
}

// Asserts the name and the version of a table, and the text of each slot, none where there is none.
pub fn expect_table<A: Allocator + Copy>(
    rt: &impl Abort,
    table: &SharedTable<A>,
    name: &str,
    version: u32,
    slots: &[Option<&str>],
) {
    same(rt, table.name(), name.as_bytes());
    same(rt, (table.version(), table.len()), (version, slots.len()));
    same(rt, table.is_empty(), slots.is_empty());
    let mut place = 0;
    for slot in slots {
        let want = match slot {
            Some(text) => Some(text.as_bytes()),
            None => None,
        };
        same(rt, (place, table.get(place)), (place, want));
        holds(rt, place < 1_000);
        place += 1;
    }
    same(rt, table.get(place), None);
}

/// Changes a table, and asserts its name, its version and what is held after each call.
fn make_all(
    rt: &impl Abort,
    meter: &mut Meter<Global>,
    table: &mut SharedTable<Global>,
    calls: &[(Change, &str, u32, u64)],
)
    requires held { shared_cost table.old ≤ meter.old.held }
    ensures held { shared_cost table.new ≤ meter.new.held }
{
    for (call, name, version, held) in calls {
        make(rt, meter, table, *call);
        let found = (table.name(), table.version(), meter.held());
        same(rt, found, (name.as_bytes(), *version, *held));
    }
}

/// Changes a table of the name x and version 1, and asserts its name, its version and what is held after each call. In the end
/// it has these slots, is given back, and so much was held at most.
fn follow(
    rt: &impl Abort,
    alloc: Global,
    calls: &[(Change, &str, u32, u64)],
    slots: &[Option<&str>],
    peak: u64,
) {
    let mut meter = Meter::new(alloc);
    let mut table = SharedTable::new(&mut meter, "x", 1).expect(rt, "a table");
    expect_table(rt, &table, "x", 1, &[]);
    same(rt, meter.held(), 1);
    make_all(rt, &mut meter, &mut table, calls);
    expect_table(rt, &table, "x", 1, slots);
    table.release(&mut meter);
    same(rt, (meter.held(), meter.peak()), (0, peak));
}

const COSTS: &[(Change, &str, u32, u64)] = &[
    (Change::Push(Some("p")), "x", 1, 18),
    (Change::Push(None), "x", 1, 34),
    (Change::Rename("abc"), "abc", 1, 36),
    (Change::Rename("x"), "x", 1, 34),
];

// A version costs nothing.
const VERSIONS: &[(Change, &str, u32, u64)] = &[
    (Change::Version(2), "x", 2, 1),
    (Change::Version(1), "x", 1, 1),
];

const SLOTS: &[(Change, &str, u32, u64)] = &[
    (Change::Push(Some("p")), "x", 1, 1 + 16 + 1),
    (Change::Push(None), "x", 1, 1 + 2 * 16 + 1),
    (Change::Push(Some("")), "x", 1, 1 + 3 * 16 + 1),
    (Change::Push(Some("two")), "x", 1, 1 + 4 * 16 + 4),
];

const SLOTS_BY_PLACE: &[Option<&str>] = &[Some("p"), None, Some(""), Some("two")];

#[test]
fn a_table_costs_its_name_and_16_a_slot(rt: HostRuntime) {
    follow(&rt, rt.alloc(), COSTS, &[Some("p"), None], 36);
    follow(&rt, rt.alloc(), VERSIONS, &[], 1);
    follow(&rt, rt.alloc(), SLOTS, SLOTS_BY_PLACE, 69);
}
