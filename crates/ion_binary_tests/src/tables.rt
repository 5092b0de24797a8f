//! Rows of octets and of what is read of them.
ghost use Rattle.std.specs.Prelude.{◌≤◌};
ghost use Rattle.ion_symbols.specs.Table.{shared_cost};

use crate::hex::{MARKER, octets};
use crate::limits::LIMITS;
use crate::reading::{expect_little, read_each_way};
use crate::same::holds;
use crate::{containers, declarations, imports, scalars, streams, wrappers};
use ion_meter::meter::Meter;
use ion_symbols::catalog::Catalog;
use ion_symbols::shared::SharedTable;
use ion_test_support::fields::{Fields, is_row};
use std::alloc::Global;
use std::process::Abort;

// The octets before those of a row, the words before its words, and how many versions of a shared
// table there are, where user values are read.
type Form = (&'static [u8], &'static str, Option<usize>);

// Raw items of whole streams.
const STREAMS: Form = (b"", "", None);

// Raw items after a version marker.
const ITEMS: Form = (MARKER, "0/0 marker; ", None);

// User values without shared tables.
const USERS: Form = (MARKER, "", Some(0));

// User values where there is version 1 of the shared table x, with p and q.
const FIRST: Form = (MARKER, "", Some(1));

// User values where there is also version 3 of it, with r, s and t.
const BOTH: Form = (MARKER, "", Some(2));

/// The tables of raw items after a version marker, under the usual limits: octets, and the words of
/// what is read of them.
pub const RAW: [&str; 14] = [
    scalars::NULLS_AND_BOOLS,
    scalars::INTS,
    scalars::DECIMALS,
    scalars::DATES,
    scalars::TIMES,
    scalars::FRACTIONS,
    scalars::SYMBOLS,
    scalars::TEXTS_AND_LOBS,
    containers::LISTS,
    containers::STRUCTS,
    containers::NOP_PADS,
    wrappers::ANNOTATED,
    wrappers::HEADS,
    wrappers::INSIDES,
];

// All others. After the words may be limits.
const OTHERS: [(Form, &[&str]); 5] = [
    (
        ITEMS,
        &[scalars::LIMITED, containers::LIMITED, wrappers::LIMITED],
    ),
    (STREAMS, &[streams::ROWS]),
    (
        USERS,
        &[
            declarations::DECLARED,
            declarations::PLAIN,
            declarations::REFUSED,
            declarations::LIMITED,
            imports::NOT_FOUND,
        ],
    ),
    (
        FIRST,
        &[
            imports::FOUND,
            imports::IGNORED,
            imports::DOUBLED,
            imports::LIMITED,
        ],
    ),
    (BOTH, &[imports::GREATEST]),
];

// The versions of the shared table x, and their texts.
const VERSIONS: [(u32, &[&str]); 2] = [(1, &["p", "q"]), (3, &["r", "s", "t"])];

// Adds a text.
#[tactic(auto, using(ion_symbols::proofs::Keeping::cost_push))]
fn push(rt: &impl Abort, meter: &mut Meter<Global>, table: &mut SharedTable<Global>, text: &str)
    requires held { shared_cost table.old ≤ meter.old.held }
    ensures held { shared_cost table.new ≤ meter.new.held }
{
    expect_little(rt, meter);
    holds(rt, text.len() < 100);
    let pushed = table.push(meter, Some(text));
    holds(rt, pushed.is_ok());
}

// This version of the shared table x.
fn table_of(rt: &impl Abort, alloc: Global, version: u32, texts: &[&str]) -> SharedTable<Global> {
    let mut meter = Meter::new(alloc);
    let mut table = SharedTable::new(&mut meter, "x", version).expect(rt, "memory");
    for text in texts {
        push(rt, &mut meter, &mut table, text);
    }
    table
}

/// A catalogue of so many versions of the shared table x.
pub fn catalog_of(rt: &impl Abort, alloc: Global, versions: usize) -> Catalog<Global> {
    let mut meter = Meter::new(alloc);
    let mut catalog = Catalog::new(&meter);
    for (version, texts) in VERSIONS.iter().take(versions) {
        let table = table_of(rt, alloc, *version, texts);
        expect_little(rt, &meter);
        let added = catalog.add(&mut meter, table);
        holds(rt, added.is_ok());
    }
    catalog
}

// Asserts what is read of a row, in whatever pieces it comes.
fn expect_row(
    rt: &impl Abort,
    alloc: Global,
    form: Form,
    catalog: Option<&Catalog<Global>>,
    row: &str,
) {
    let (front, before, _) = form;
    let mut fields = Fields::of(row);
    let octets = octets(rt, alloc, front, fields.text());
    let words = fields.text();
    let limits = fields.limits(LIMITS);
    holds(rt, fields.is_read());
    let all = read_each_way(rt, alloc, limits, catalog, octets.as_slice());
    all.expect(rt, alloc, before, words);
}

// Asserts what is read of each row of a table.
fn expect_rows(
    rt: &impl Abort,
    alloc: Global,
    form: Form,
    catalog: Option<&Catalog<Global>>,
    table: &str,
) {
    let mut is_met = false;
    for row in table.split('\n') {
        if is_row(row) {
            expect_row(rt, alloc, form, catalog, row);
            is_met = true;
        }
    }
    holds(rt, is_met);
}

// Asserts what is read of the rows of tables.
fn expect_tables(rt: &impl Abort, alloc: Global, form: Form, tables: &[&str]) {
    let (_, _, versions) = form;
    let catalog = versions.map(|n| catalog_of(rt, alloc, n));
    for table in tables {
        expect_rows(rt, alloc, form, catalog.as_ref(), table);
    }
}

#[test]
fn rows_are_read(rt: HostRuntime) {
    expect_tables(&rt, rt.alloc(), ITEMS, &RAW);
    for (form, tables) in OTHERS {
        expect_tables(&rt, rt.alloc(), form, tables);
    }
}
