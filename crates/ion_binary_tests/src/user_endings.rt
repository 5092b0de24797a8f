//! How a reader of user values ends beside the raw one, and what it gives back then.

use crate::declarations::{APPENDED, DECLARED, PLAIN, REFUSED};
use crate::hex::{MARKER, octets, row_octets};
use crate::imports::{FOUND, NOT_FOUND};
use crate::limits::LIMITS;
use crate::pieces::{Pieces, in_pieces, whole};
use crate::reading::{Outcome, read, read_each_way};
use crate::same::{holds, same};
use crate::tables::catalog_of;
use ion_meter::fault::Fault;
use ion_meter::limits::Limits;
use ion_symbols::catalog::Catalog;
use ion_test_support::fields::{Fields, is_row};
use std::alloc::Global;
use std::process::Abort;

// Tables of rows, each with the number of shared tables that are there.
const TABLES: [(&str, usize); 5] = [
    (DECLARED, 0),
    (PLAIN, 0),
    (REFUSED, 0),
    (NOT_FOUND, 0),
    (FOUND, 1),
];

// Asserts that a prefix of a stream gives a prefix of its items, and ends as the raw reader does
// unless it has the fault of the whole.
fn expect_prefix(
    rt: &impl Abort,
    alloc: Global,
    catalog: &Catalog<Global>,
    octets: &[u8],
    all: &Outcome,
) {
    let prefix = read(rt, alloc, LIMITS, Some(catalog), whole(octets));
    let raw = read(rt, alloc, LIMITS, None, whole(octets));
    let begins = all.items.as_str().starts_with(prefix.items.as_str());
    let ends = prefix.ending == raw.ending || prefix.is_same(all);
    same(rt, (octets, begins, ends), (octets, true, true));
}

fn expect_prefixes(rt: &impl Abort, alloc: Global, catalog: &Catalog<Global>, octets: &[u8]) {
    let all = read(rt, alloc, LIMITS, Some(catalog), whole(octets));
    for length in 0..octets.len() {
        expect_prefix(rt, alloc, catalog, &octets[..length], &all);
    }
}

#[test]
fn a_prefix_of_a_stream_gives_a_prefix_of_its_items(rt: HostRuntime) {
    for (table, versions) in TABLES {
        let catalog = catalog_of(&rt, rt.alloc(), versions);
        for row in table.split('\n') {
            if is_row(row) {
                let octets = row_octets(&rt, rt.alloc(), MARKER, row);
                expect_prefixes(&rt, rt.alloc(), &catalog, octets.as_slice());
            }
        }
    }
}

// Asserts how a part of a stream ends, beside the raw reader, and whether that is well.
fn expect_ending(
    rt: &impl Abort,
    alloc: Global,
    catalog: &Catalog<Global>,
    octets: &[u8],
    is_well: bool,
) {
    let prefix = read_each_way(rt, alloc, LIMITS, Some(catalog), octets);
    let raw = read(rt, alloc, LIMITS, None, whole(octets));
    let given = (octets, prefix.ending, prefix.ending.is_ok());
    same(rt, given, (octets, raw.ending, is_well));
}

// The raw reader's answer at each place of the stream is the only one that there is.
#[test]
fn a_cut_stream_ends_as_the_raw_one_does(rt: HostRuntime) {
    let catalog = catalog_of(&rt, rt.alloc(), 0);
    let octets = octets(&rt, rt.alloc(), MARKER, APPENDED);
    let octets = octets.as_slice();
    for length in 0..octets.len() {
        let between = [0, 4, 15, 26, 28].as_slice().contains(&length);
        expect_ending(&rt, rt.alloc(), &catalog, &octets[..length], between);
    }
}

// Asserts that this fault cuts the reading of these pieces.
fn expect_cut(
    rt: &impl Abort,
    alloc: Global,
    limits: Limits,
    catalog: &Catalog<Global>,
    input: Pieces<'_>,
    fault: Fault,
    all: &Outcome,
) {
    let cut = read(rt, alloc, limits, Some(catalog), input);
    let is_cut = cut.is_cut_by(fault, all);
    let row = (input.sound, limits.input, fault);
    same(rt, (row, is_cut), (row, true));
}

#[test]
fn a_read_that_fails_ends_a_declaration(rt: HostRuntime) {
    let catalog = catalog_of(&rt, rt.alloc(), 0);
    let octets = octets(&rt, rt.alloc(), MARKER, APPENDED);
    let input = in_pieces(octets.as_slice(), 1, 1);
    let all = read(&rt, rt.alloc(), LIMITS, Some(&catalog), input);
    for sound in 0..30u32 {
        let failing = Pieces { sound, ..input };
        expect_cut(
            &rt,
            rt.alloc(),
            LIMITS,
            &catalog,
            failing,
            Fault::ReadFault,
            &all,
        );
        let limits = Limits {
            input: sound as u64,
            ..LIMITS
        };
        expect_cut(
            &rt,
            rt.alloc(),
            limits,
            &catalog,
            input,
            Fault::InputLimit,
            &all,
        );
    }
}

// Asserts what a symbol table cost, and that the raw reader held what it holds alone.
fn expect_costs(rt: &impl Abort, told: &Outcome, raw: &Outcome, cost: u64) {
    holds(rt, told.held == told.raw_held.saturating_add(cost));
    holds(rt, raw.raw_held == told.raw_held || told.ending.is_err());
}

// Octets, what their symbol table costs, and their words.
const COSTS: &str = "
|0|end|
71 04|0|4/4 symbol 'name'@4; end|
EA 81 83 D7 87 B2 81 61 86 71 03 EA 81 83 D7 87 B2 81 62 86 71 03 71 0A 71 0B|34|26/26 symbol 'a'@26; 28/28 symbol 'b'@28; end|
EE 94 81 83 DE 90 86 BA D9 84 81 78 85 21 01 88 21 02 87 B2 81 61|49|end|
E7 81 83 D4 87 B2 81 61 E0 01 00 EA|0|end|
E7 81 83 D4 87 B2 81 61 E3 81 83 D0|0|end|
# What is held of a declaration that is refused is given back at once.
E7 81 83 D4 87 B2 81 61 EC 81 83 D9 87 B2 81 62 87 B2 81 63 20|17|BadTable at 20|
";

// Asserts that the symbol table of a row is given back, and then what the raw reader holds.
fn expect_given_back(rt: &impl Abort, alloc: Global, catalog: &Catalog<Global>, row: &str) {
    let mut fields = Fields::of(row);
    let octets = octets(rt, alloc, MARKER, fields.text());
    let cost = fields.number();
    let input = whole(octets.as_slice());
    let told = read(rt, alloc, LIMITS, Some(catalog), input);
    told.expect(rt, alloc, "", fields.text());
    holds(rt, fields.is_read());
    let raw = read(rt, alloc, LIMITS, None, input);
    expect_costs(rt, &told, &raw, cost);
}

#[test]
fn a_reader_gives_its_table_back(rt: HostRuntime) {
    let catalog = catalog_of(&rt, rt.alloc(), 1);
    for row in COSTS.split('\n') {
        if is_row(row) {
            expect_given_back(&rt, rt.alloc(), &catalog, row);
        }
    }
}
