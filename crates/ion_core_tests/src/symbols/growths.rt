//! Calls on tables that grow, each over an allocator that refuses it: alone, and with all after it.
ghost use Rattle.std.specs.Prelude.{◌≡◌, ◌+◌, ◌≤◌, MatchOption};
ghost use Rattle.ion_symbols.specs.Table.{catalog_cost, shared_cost};
ghost use Rattle.ion_symbols.specs.Output.{texts_cost};

use super::outputs::expect_since;
use super::shared_tables::{expect_table, push};
use crate::meter::{Counted, counts_of, is_refused};
use crate::same::{holds, same};
use ion_meter::fault::Fault;
use ion_meter::limits::Limits;
use ion_meter::meter::Meter;
use ion_symbols::catalog::Catalog;
use ion_symbols::output::OutSymbols;
use ion_symbols::shared::SharedTable;
use ion_test_support::refusing::Refusing;
use std::alloc::{Allocator, Global};
use std::process::Abort;

/// What is run over an allocator that refuses.
#[derive(Clone, Copy)]
enum Script {
    Table,
    Catalog,
    Texts,
    /// Texts that are put in order of bytes.
    OrderedTexts,
}

/// Limits that the texts keep.
const LIMITS: Limits = Limits {
    depth: 4,
    scalar: 64,
    symbols: 1_024,
    value: 64,
    input: 64,
};

/// The slots that a table gets.
const SLOTS: &[Option<&str>] = &[
    Some("p"),
    None,
    Some(""),
    Some("two"),
    Some("a text that is longer than those before it"),
];

/// Asserts that a table has the first of these slots, so many, and this name.
fn expect_first<A: Allocator + Copy>(
    rt: &impl Abort,
    table: &SharedTable<A>,
    name: &str,
    count: usize,
) {
    holds(rt, count <= SLOTS.len());
    expect_table(rt, table, name, 1, &SLOTS[..count]);
}

/// Asserts that a refusal was counted since then, that as much is held, and that no more was at any
/// moment than so much on top.
fn is_undone<A: Allocator + Copy>(rt: &impl Abort, meter: &Meter<A>, before: Counted, most: u64) {
    let after = counts_of(rt, meter);
    same(
        rt,
        (after.held, after.refused),
        (before.held, before.refused.saturating_add(1)),
    );
    holds(
        rt,
        after.peak <= before.peak.max(before.held.saturating_add(most)),
    );
}

/// Pushes a slot, and once more where that is refused; a table without it has so many slots. Whether
/// it was pushed.
fn push_again<A: Allocator + Copy>(
    rt: &impl Abort,
    meter: &mut Meter<A>,
    table: &mut SharedTable<A>,
    slot: Option<&str>,
    count: usize,
) -> bool
    requires held { shared_cost table.old ≤ meter.old.held }
    ensures held { shared_cost table.new ≤ meter.new.held }
{
    let before = counts_of(rt, meter);
    let pushed = push(rt, meter, table, slot);
    if pushed.is_ok() {
        return true;
    }
    same(rt, pushed, Err(Fault::Memory));
    is_undone(rt, meter, before, 16 + 100);
    expect_first(rt, table, "x", count);
    push(rt, meter, table, slot).is_ok()
}

/// A table of this name without slots, of which the first try may be refused; none, where the second
/// is too.
fn new_table<A: Allocator + Copy>(
    rt: &impl Abort,
    meter: &mut Meter<A>,
    name: &str,
) -> Option<SharedTable<A>>
    ensures held { MatchOption result (meter.new.held ≡ meter.old.held)
        (λ table. meter.new.held ≡ meter.old.held + shared_cost table) }
{
    holds(rt, name.len() < 100);
    let before = counts_of(rt, meter);
    match SharedTable::new(meter, name, 1) {
        Ok(table) => return Some(table),
        Err(fault) => same(rt, fault, Fault::Memory),
    }
    is_refused(rt, meter, before);
    match SharedTable::new(meter, name, 1) {
        Ok(table) => Some(table),
        Err(_) => None,
    }
}

/// A table and its slots, each of which may be refused. It gets all slots up to one that is refused
/// twice, and gives all back.
fn grow_table<A: Allocator + Copy>(rt: &impl Abort, meter: &mut Meter<A>) {
    let Some(mut table) = new_table(rt, meter, "x") else {
        return;
    };
    let count = push_all(rt, meter, &mut table);
    expect_first(rt, &table, "x", count);
    table.release(meter);
}

/// Pushes the slots up to one that is refused twice. How many there are then.
fn push_all<A: Allocator + Copy>(
    rt: &impl Abort,
    meter: &mut Meter<A>,
    table: &mut SharedTable<A>,
) -> usize
    requires held { shared_cost table.old ≤ meter.old.held }
    ensures held { shared_cost table.new ≤ meter.new.held }
{
    'slot: for (count, slot) in SLOTS.iter().enumerate() {
        if !push_again(rt, meter, table, *slot, count) {
            return count;
        }
    }
    SLOTS.len()
}

/// The names of the tables that a catalogue gets.
const NAMES: &[&str] = &["x", "y", "z", "u", "v"];

/// Adds a table of this name to a catalogue of so many, and once more where that is refused. Whether
/// it was added.
#[tactic(auto, using(crate::proofs::Shelves::cost_without))]
fn add_again<A: Allocator + Copy>(
    rt: &impl Abort,
    meter: &mut Meter<A>,
    catalog: &mut Catalog<A>,
    name: &str,
    count: usize,
) -> bool
    requires held { catalog_cost catalog.old ≤ meter.old.held }
    ensures held { catalog_cost catalog.new ≤ meter.new.held }
{
    let Some(table) = new_table(rt, meter, name) else {
        return false;
    };
    let before = counts_of(rt, meter);
    let Err((table, fault)) = catalog.add(meter, table) else {
        return true;
    };
    same(rt, fault, Fault::Memory);
    is_refused(rt, meter, before);
    expect_table(rt, &table, name, 1, &[]);
    same(rt, catalog.len(), count);
    holds(rt, catalog.find(name, 1).is_none());
    match catalog.add(meter, table) {
        Ok(()) => true,
        Err((table, _)) => {
            table.release(meter);
            false
        }
    }
}

/// A catalogue and its tables, each of which may be refused.
fn grow_catalog<A: Allocator + Copy>(rt: &impl Abort, meter: &mut Meter<A>) {
    let mut catalog = Catalog::new(meter);
    let count = add_all(rt, meter, &mut catalog);
    same(rt, catalog.len(), count);
    catalog.release(meter);
}

/// Adds the tables up to one that is refused twice. How many there are then.
fn add_all<A: Allocator + Copy>(
    rt: &impl Abort,
    meter: &mut Meter<A>,
    catalog: &mut Catalog<A>,
) -> usize
    requires held { catalog_cost catalog.old ≤ meter.old.held }
    ensures held { catalog_cost catalog.new ≤ meter.new.held }
{
    'name: for (count, name) in NAMES.iter().enumerate() {
        if !add_again(rt, meter, catalog, name, count) {
            return count;
        }
    }
    NAMES.len()
}

/// Texts in order of id.
const TEXTS: &[&str] = &[
    "b",
    "a",
    "c",
    "",
    "a longer text",
    "d",
    "e",
    "f",
    "g",
    "h",
    "i",
];

/// Asserts that the first of these texts, so many, have ids, and that nothing else is held.
fn expect_texts<A: Allocator + Copy>(
    rt: &impl Abort,
    meter: &Meter<A>,
    texts: &OutSymbols<A>,
    count: usize,
) {
    holds(rt, count <= TEXTS.len());
    expect_since(rt, texts, 10, &TEXTS[..count]);
    same(rt, meter.held(), texts.cost());
}

/// Asks for the id of a text, which is found by halving where texts are put in order.
pub fn give<A: Allocator + Copy>(
    rt: &impl Abort,
    meter: &mut Meter<A>,
    texts: &mut OutSymbols<A>,
    text: &str,
    in_order: bool,
) -> Result<Option<u32>, Fault>
    requires held { texts_cost texts.old.texts ≤ meter.old.held }
    ensures held { texts_cost texts.new.texts ≤ meter.new.held }
{
    counts_of(rt, meter);
    if in_order {
        return texts.id_of(meter, text.as_bytes());
    }
    texts.give_id(meter, text.as_bytes())
}

/// Asks for the id of a text after so many others, and once more where that is refused. Whether it
/// has one.
fn id_again<A: Allocator + Copy>(
    rt: &impl Abort,
    meter: &mut Meter<A>,
    texts: &mut OutSymbols<A>,
    text: &str,
    count: usize,
    in_order: bool,
) -> bool
    requires held { texts_cost texts.old.texts ≤ meter.old.held }
    ensures held { texts_cost texts.new.texts ≤ meter.new.held }
{
    holds(rt, count < 1_000);
    let want = Ok(Some(10 + count as u32));
    let before = counts_of(rt, meter);
    let given = give(rt, meter, texts, text, in_order);
    if given == want {
        return true;
    }
    same(rt, given, Err(Fault::Memory));
    is_undone(rt, meter, before, 16 + 100);
    expect_texts(rt, meter, texts, count);
    give(rt, meter, texts, text, in_order) == want
}

/// Texts, each of which may be refused an id.
fn grow_texts<A: Allocator + Copy>(rt: &impl Abort, meter: &mut Meter<A>, in_order: bool) {
    holds(rt, LIMITS.check());
    let mut texts = OutSymbols::new(meter, LIMITS);
    let count = give_all(rt, meter, &mut texts, in_order);
    expect_texts(rt, meter, &texts, count);
    texts.release(meter);
}

/// Asks for the ids of the texts up to one that is refused twice. How many have one then.
fn give_all<A: Allocator + Copy>(
    rt: &impl Abort,
    meter: &mut Meter<A>,
    texts: &mut OutSymbols<A>,
    in_order: bool,
) -> usize
    requires held { texts_cost texts.old.texts ≤ meter.old.held }
    ensures held { texts_cost texts.new.texts ≤ meter.new.held }
{
    'text: for (count, text) in TEXTS.iter().enumerate() {
        if !id_again(rt, meter, texts, text, count, in_order) {
            return count;
        }
    }
    TEXTS.len()
}

/// Runs a script over an allocator, after which nothing is held. How often it was refused.
fn run<A: Allocator + Copy>(rt: &impl Abort, inner: A, script: Script) -> u64 {
    let mut meter = Meter::new(inner);
    match script {
        Script::Table => grow_table(rt, &mut meter),
        Script::Catalog => grow_catalog(rt, &mut meter),
        Script::Texts => grow_texts(rt, &mut meter, false),
        Script::OrderedTexts => grow_texts(rt, &mut meter, true),
    }
    same(rt, meter.held(), 0);
    meter.refused()
}

/// How often a run is refused, which has met its nth growth or not.
fn refusals(is_met: bool, onward: bool) -> u64 {
    match (is_met, onward) {
        (false, _) => 0,
        (true, false) => 1,
        (true, true) => 2,
    }
}

/// Whether a script meets its nth growth, which is refused: alone, or with all after it. A call that
/// is refused is made again.
fn is_met(rt: &impl Abort, alloc: Global, script: Script, nth: u64, onward: bool) -> bool {
    let refusing = Refusing::new(alloc, 0);
    refusing.refuse(nth, onward);
    let refused = run(rt, &refusing, script);
    let is_met = refusing.has_refused();
    same(rt, (nth, refused), (nth, refusals(is_met, onward)));
    is_met
}

/// How many growths a script has. Each is refused once alone, and once with all after it.
fn refuse_each(rt: &impl Abort, alloc: Global, script: Script) -> u64 {
    for nth in 1..1_000 {
        let alone = is_met(rt, alloc, script, nth, false);
        same(
            rt,
            (nth, is_met(rt, alloc, script, nth, true)),
            (nth, alone),
        );
        if !alone {
            return nth - 1;
        }
    }
    panic!(rt; "each run met a refusal")
}

#[test]
fn tables_grow_past_each_refusal(rt: HostRuntime) {
    let table = refuse_each(&rt, rt.alloc(), Script::Table);
    let catalog = refuse_each(&rt, rt.alloc(), Script::Catalog);
    let texts = refuse_each(&rt, rt.alloc(), Script::Texts);
    let ordered_texts = refuse_each(&rt, rt.alloc(), Script::OrderedTexts);
    assert!(rt; table >= 3 && catalog >= 6 && texts >= 6 && ordered_texts >= 6);
}
