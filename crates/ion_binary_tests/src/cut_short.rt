//! Streams that are cut short, and small limits.

use crate::hex::{MARKER, row_octets};
use crate::limits::LIMITS;
use crate::pieces::whole;
use crate::reading::{Outcome, read, read_each_way};
use crate::same::{holds, same};
use crate::streams;
use crate::tables::RAW;
use ion_meter::fault::{Fault, Reason};
use ion_meter::limits::Limits;
use ion_test_support::fields::is_row;
use std::alloc::Global;
use std::process::Abort;

// Asserts that a prefix of a stream gives a prefix of its items, and ends well only between values
// at top level. Where such a value begins it ends well; else it is cut, or has the fault of the
// stream.
fn expect_prefix(rt: &impl Abort, prefix: &Outcome, length: u64, all: &Outcome) {
    let is_prefix = all.items.as_str().starts_with(prefix.items.as_str());
    let begins = all.tops.as_slice().contains(&length);
    let fits = match prefix.ending {
        Ok(()) => {
            same(rt, prefix.open, 0);
            match all.tops.as_slice().get(prefix.tops.len()) {
                Some(top) => *top >= length,
                None => true,
            }
        }
        Err(Fault::Refused(Reason::Truncated, place)) => !begins && place <= length,
        fault => !begins && fault == all.ending,
    };
    same(rt, (length, is_prefix, fits), (length, true, true));
}

/// Asserts what each prefix of these octets gives, in whatever pieces it comes.
pub fn expect_prefixes(rt: &impl Abort, alloc: Global, limits: Limits, octets: &[u8]) {
    let all = read(rt, alloc, limits, None, whole(octets));
    for length in 0..octets.len() {
        let prefix = read_each_way(rt, alloc, limits, None, &octets[..length]);
        expect_prefix(rt, &prefix, length as u64, &all);
    }
}

// Asserts what each prefix of the rows of a table gives, after some octets.
fn expect_prefixes_of(rt: &impl Abort, alloc: Global, front: &[u8], table: &str) {
    for row in table.split('\n') {
        if is_row(row) {
            let octets = row_octets(rt, alloc, front, row);
            expect_prefixes(rt, alloc, LIMITS, octets.as_slice());
        }
    }
}

#[test]
fn streams_cut_short(rt: HostRuntime) {
    for table in RAW {
        expect_prefixes_of(&rt, rt.alloc(), MARKER, table);
    }
    expect_prefixes_of(&rt, rt.alloc(), b"", streams::ROWS);
}

const DEPTHS_AND_SCALARS: [(u32, u64); 6] = [(0, 0), (0, 15), (1, 1), (1, 16), (2, 17), (2, 33)];

// The reasons of the limits of depth and of scalars.
const OF_LIMITS: [Reason; 3] = [
    Reason::DepthLimit,
    Reason::ScalarLimit,
    Reason::AnnotationLimit,
];

// Asserts that small limits only cut the reading short.
fn expect_narrower(rt: &impl Abort, narrow: &Outcome, all: &Outcome) {
    let is_cut = match narrow.ending {
        Err(Fault::Refused(reason, _)) => OF_LIMITS.as_slice().contains(&reason),
        _ => false,
    };
    let begins = all.items.as_str().starts_with(narrow.items.as_str());
    holds(rt, begins && (is_cut || narrow.is_same(all)));
}

// Asserts that small limits only cut the reading of these octets short.
fn expect_cut_short(rt: &impl Abort, alloc: Global, octets: &[u8]) {
    let all = read(rt, alloc, LIMITS, None, whole(octets));
    for (depth, scalar) in DEPTHS_AND_SCALARS {
        let limits = Limits {
            depth,
            scalar,
            ..LIMITS
        };
        let narrow = read_each_way(rt, alloc, limits, None, octets);
        expect_narrower(rt, &narrow, &all);
    }
}

#[test]
fn small_limits_only_cut_short(rt: HostRuntime) {
    for table in RAW {
        for row in table.split('\n') {
            if is_row(row) {
                let octets = row_octets(&rt, rt.alloc(), MARKER, row);
                expect_cut_short(&rt, rt.alloc(), octets.as_slice());
            }
        }
    }
}
