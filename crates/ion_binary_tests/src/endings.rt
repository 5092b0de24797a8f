//! What stands after an ending, and endings that are no fault of the stream.

use crate::hex::{MARKER, octets, row_octets};
use crate::limits::LIMITS;
use crate::pieces::{Pieces, in_pieces, whole};
use crate::reading::{Outcome, read, read_to};
use crate::same::{holds, same};
use crate::tables::RAW;
use ion_meter::fault::Fault;
use ion_meter::limits::Limits;
use ion_test_support::fields::is_row;
use std::alloc::Global;
use std::process::Abort;

// Streams without a fault.
const STREAMS: [&str; 6] = [
    "",
    "E0 01 00 EA",
    "E0 01 00 EA D5 80 01 FF 84 11",
    "E0 01 00 EA 6B 43 E0 0F DB 82 94 93 9E BB C3 64",
    "E0 01 00 EA E7 81 84 B4 E3 81 85 11 0E 83 FF FF FF BE 83 82 C3 A9",
    "E0 01 00 EA EC 81 83 D9 86 71 03 87 B4 83 61 20 62 71 0A",
];

// Reads these pieces to the end, and asserts that the ending is answered again and again when the
// next item is asked for, and that the device is not read again.
fn read_past_end(rt: &impl Abort, alloc: Global, limits: Limits, input: Pieces<'_>) -> Outcome {
    let mut once = Outcome::new(alloc, 0, 0);
    read_to(rt, alloc, limits, None, input, &mut once);
    let again = read(rt, alloc, limits, None, input);
    holds(rt, again.is_same(&once));
    same(rt, (again.left, again.reads), (once.left, once.reads));
    again
}

#[test]
fn an_ending_is_answered_from_then_on(rt: HostRuntime) {
    for table in RAW {
        for row in table.split('\n') {
            if is_row(row) {
                let octets = row_octets(&rt, rt.alloc(), MARKER, row);
                let input = in_pieces(octets.as_slice(), 1, 1);
                let _told = read_past_end(&rt, rt.alloc(), LIMITS, input);
            }
        }
    }
}

// Asserts that these pieces are cut by a read that fails, the last one.
fn expect_failing_read(rt: &impl Abort, alloc: Global, input: Pieces<'_>, all: &Outcome) {
    let cut = read_past_end(rt, alloc, LIMITS, input);
    let is_cut = cut.is_cut_by(Fault::ReadFault, all);
    let reads = input.sound.saturating_add(1);
    same(
        rt,
        (input.sound, is_cut, cut.reads),
        (input.sound, true, reads),
    );
}

// Asserts that a stream that is read an octet a read is cut by each read that fails, and only by
// these.
fn expect_failing_reads(rt: &impl Abort, alloc: Global, octets: &[u8]) {
    let input = in_pieces(octets, 1, 1);
    let all = read_past_end(rt, alloc, LIMITS, input);
    same(rt, all.ending, Ok(()));
    for sound in 0..all.reads {
        expect_failing_read(rt, alloc, Pieces { sound, ..input }, &all);
    }
    let late = Pieces {
        sound: all.reads,
        ..input
    };
    holds(rt, read_past_end(rt, alloc, LIMITS, late).is_same(&all));
}

#[test]
fn a_read_that_fails_is_no_end(rt: HostRuntime) {
    for digits in STREAMS {
        let octets = octets(&rt, rt.alloc(), b"", digits);
        expect_failing_reads(&rt, rt.alloc(), octets.as_slice());
    }
}

// Asserts that these pieces are cut by this limit of the input, or read as the whole was.
fn expect_limit(rt: &impl Abort, alloc: Global, input: Pieces<'_>, most: usize, all: &Outcome) {
    let limits = Limits {
        input: most as u64,
        ..LIMITS
    };
    let cut = read_past_end(rt, alloc, limits, input);
    let fits = if most < input.left.len() {
        cut.is_cut_by(Fault::InputLimit, all)
    } else {
        cut.is_same(all)
    };
    same(rt, (most, input.left, fits), (most, input.left, true));
}

// Asserts what each limit of the input does to a stream, in pieces of each size.
fn expect_limits(rt: &impl Abort, alloc: Global, octets: &[u8]) {
    let length = octets.len();
    let all = read(rt, alloc, LIMITS, None, whole(octets));
    for size in 1..=length.max(1) {
        let input = in_pieces(octets, size, size);
        for most in 0..=length {
            expect_limit(rt, alloc, input, most, &all);
        }
    }
}

#[test]
fn the_input_has_a_limit(rt: HostRuntime) {
    for digits in STREAMS {
        let octets = octets(&rt, rt.alloc(), b"", digits);
        expect_limits(&rt, rt.alloc(), octets.as_slice());
    }
}
