//! Streams that are longer than a window, long declarations, and many of them.

use crate::hex::{MARKER, add, octets};
use crate::limits::LIMITS;
use crate::pieces::{Pieces, in_pieces, whole};
use crate::reading::{Outcome, read, read_to};
use crate::same::{holds, same};
use crate::tables::catalog_of;
use ion_meter::limits::Limits;
use ion_value::var::var_uint_write;
use std::alloc::Global;
use std::fmt::Write;
use std::process::Abort;

const SIZES: [usize; 6] = [1, 1_000, 4_095, 4_096, 4_097, 100_000];

// Octets, octets that are repeated after them so many times, those at the end, and what is read.
type Long = (&'static str, &'static [u8], u32, &'static str, &'static str);

// Bodies of 10,001 octets, most of which are zeros at the front of a number.
const LONG_NUMBERS: [Long; 5] = [
    (
        "2E 4E 91",
        b"\0",
        10_000,
        "07 11",
        "0/0 marker; 4/4 int 7; 10008/10008 true; end",
    ),
    (
        "3E 4E 91",
        b"\0",
        10_000,
        "07 11",
        "0/0 marker; 4/4 int -7; 10008/10008 true; end",
    ),
    (
        "5E 4E 91 C1",
        b"\0",
        9_999,
        "0F 11",
        "0/0 marker; 4/4 decimal 15d-1; 10008/10008 true; end",
    ),
    (
        "6E 4E 91 80 0F D0 81 81 80 80 80 C1",
        b"\0",
        9_991,
        "05 11",
        "0/0 marker; 4/4 timestamp fraction(1) 2000 1 1 0 0 0 5 0; 10008/10008 true; end",
    ),
    (
        "7E 4E 91",
        b"\0",
        10_000,
        "0A 11",
        "0/0 marker; 4/4 symbol 10@4; 10008/10008 true; end",
    ),
];

// A NOP pad of 8,388,608 octets.
const NOP_PAD: Long = ("0E 04 00 00 80", b"\0", 8_388_608, "", "0/0 marker; end");

// A declaration with a field without a meaning that is a list of 100,000 numbers, and a symbol.
const IGNORED: Long = (
    "EE 0C 1A CF 81 83 DE 0C 1A C9 84 BE 0C 1A C0",
    b"\x21\x05",
    100_000,
    "87 B2 81 61 71 0A",
    "200023/200023 symbol 'a'@200023; end",
);

// The octets after a version marker.
fn long_octets(rt: &impl Abort, alloc: Global, long: Long) -> Vec<u8> {
    let (front, again, times, after, _) = long;
    let mut stream = octets(rt, alloc, MARKER, front);
    for _ in 0..times {
        add(rt, &mut stream, again);
    }
    octets(rt, alloc, stream.as_slice(), after)
}

// Asserts what is read in pieces of each size.
fn expect_sizes(rt: &impl Abort, alloc: Global, stream: &[u8], words: &str) {
    for size in SIZES {
        let input = in_pieces(stream, size, size);
        read(rt, alloc, LIMITS, None, input).expect(rt, alloc, "", words);
    }
}

#[test]
fn long_numbers_are_read(rt: HostRuntime) {
    for long in LONG_NUMBERS {
        let stream = long_octets(&rt, rt.alloc(), long);
        expect_sizes(&rt, rt.alloc(), stream.as_slice(), long.4);
    }
}

#[test]
fn a_nop_pad_is_not_held(rt: HostRuntime) {
    let stream = long_octets(&rt, rt.alloc(), NOP_PAD);
    let limits = Limits {
        scalar: 1,
        ..LIMITS
    };
    for size in [4_095, 10_000_000] {
        let input = in_pieces(stream.as_slice(), size, size);
        let told = read(&rt, rt.alloc(), limits, None, input);
        told.expect(&rt, rt.alloc(), "", NOP_PAD.4);
        same(&rt, told.peak, 4_096);
    }
}

#[test]
fn what_is_ignored_is_not_held(rt: HostRuntime) {
    let stream = long_octets(&rt, rt.alloc(), IGNORED);
    let limits = Limits {
        depth: 4,
        scalar: 64,
        symbols: 1_024,
        value: 0,
        ..LIMITS
    };
    let catalog = catalog_of(&rt, rt.alloc(), 0);
    let input = whole(stream.as_slice());
    let told = read(&rt, rt.alloc(), limits, Some(&catalog), input);
    told.expect(&rt, rt.alloc(), "", IGNORED.4);
    assert!(rt; told.peak <= 4_096 + 16 * 4 + 3 * 64 + 2 * 1_024);
}

// Octets of a long blob.
const BLOB: u32 = 10_000;

// A blob of them, and true.
fn blob_octets(rt: &impl Abort, alloc: Global) -> Vec<u8> {
    let mut stream = octets(rt, alloc, MARKER, "AE 4E 90");
    let mut octet = 0;
    for _ in 0..BLOB {
        add(rt, &mut stream, &[octet]);
        octet = after(octet);
    }
    add(rt, &mut stream, &[0x11]);
    stream
}

// The octet after this one of a blob: they go from 0 to 250 and begin anew.
fn after(octet: u8) -> u8 {
    if octet < 250 { octet + 1 } else { 0 }
}

fn add_words(rt: &impl Abort, words: &mut String, more: &str) {
    holds(rt, words.push_str(more).is_ok());
}

fn add_octet(rt: &impl Abort, words: &mut String, octet: u8) {
    holds(rt, write!(words, " {octet:02X}").is_ok());
}

fn blob_words(rt: &impl Abort, alloc: Global) -> String {
    let mut words = String::new(alloc);
    add_words(rt, &mut words, "0/0 marker; 4/4 blob");
    let mut octet = 0;
    for _ in 0..BLOB {
        add_octet(rt, &mut words, octet);
        octet = after(octet);
    }
    add_words(rt, &mut words, "; 10007/10007 true; end");
    words
}

#[test]
fn a_long_blob_is_read(rt: HostRuntime) {
    let stream = blob_octets(&rt, rt.alloc());
    let words = blob_words(&rt, rt.alloc());
    expect_sizes(&rt, rt.alloc(), stream.as_slice(), words.as_str());
}

// 64 lists, each of which has the next and nothing else.
fn nested_lists(rt: &impl Abort, alloc: Global) -> Vec<u8> {
    let mut stream = octets(rt, alloc, MARKER, "");
    let mut length = 192u8;
    for _ in 0..64u32 {
        length = length.saturating_sub(3);
        let header = [0xBE, u8::from(length >= 128), length | 0x80];
        add(rt, &mut stream, &header);
    }
    stream
}

// Asserts what is held of them at most under a limit of depth, and how they end, in pieces of a size.
fn expect_peak(
    rt: &impl Abort,
    alloc: Global,
    limits: Limits,
    input: Pieces<'_>,
    row: (u64, &str),
) {
    let (peak, ending) = row;
    let told = read(rt, alloc, limits, None, input);
    told.expect_end(rt, alloc, ending);
    same(rt, (limits.depth, told.peak), (limits.depth, peak));
}

#[test]
fn an_open_container_counts_16(rt: HostRuntime) {
    let stream = nested_lists(&rt, rt.alloc());
    for (depth, peak, ending) in [
        (65, 5_120, "end"),
        (64, 5_120, "end"),
        (63, 5_104, "DepthLimit at 193"),
    ] {
        let limits = Limits {
            depth,
            scalar: 0,
            ..LIMITS
        };
        for size in [1, 200] {
            let input = in_pieces(stream.as_slice(), size, size);
            expect_peak(&rt, rt.alloc(), limits, input, (peak, ending));
        }
    }
}

// Streams whose parts are many.
const DENSE: [&str; 7] = [
    "E0 01 00 EA DA 00 00 00 00 00 00 00 00 84 11",
    "E0 01 00 EA EE 00 92 83 04 84 8A D1 00 00 8A 84 2E 00 82 02 01 85 82 C3 A9 11",
    "E0 01 00 EA 6B 43 E0 0F DB 82 94 93 9E BB C3 64 56 47 7F 7F 7F FF 01",
    "E0 01 00 EA 0E 83 FF FF FF 8E 83 E2 82 AC 7A 00 00 00 00 00 00 00 00 00 0A",
    "E0 01 00 EA EC 81 83 D9 86 71 03 87 B4 83 61 20 62 71 0A",
    "E0 01 00 EA E6 81 84 E3 81 84 11",
    "E0 01 00 EA D3 8A 82 C3",
];

const ZEROS: [u8; 4_089] = [0; 4_089];

// Asserts that a stream is read to these words after a version marker and a NOP pad of these octets
// that lie before it.
fn expect_late(rt: &impl Abort, alloc: Global, zeros: &[u8], stream: &[u8], words: &str) {
    let mut late = octets(rt, alloc, MARKER, "0E");
    add(rt, &mut late, var_uint_write(zeros.len() as u64).as_slice());
    add(rt, &mut late, zeros);
    let place = late.len() as u64;
    add(rt, &mut late, stream);
    for size in [1, 100_000] {
        let mut told = Outcome::new(alloc, place, 2);
        let input = in_pieces(late.as_slice(), size, size);
        read_to(rt, alloc, LIMITS, None, input, &mut told);
        told.expect(rt, alloc, "0/0 marker; ", words);
    }
}

// Asserts that a stream is read to the same words at each place of the first window's end.
fn expect_in_two_windows(rt: &impl Abort, alloc: Global, stream: &[u8]) {
    holds(rt, stream.len() <= 1_000);
    let words = read(rt, alloc, LIMITS, None, whole(stream)).words(rt, alloc);
    for before in 0..=stream.len() {
        expect_late(rt, alloc, &ZEROS[before..], stream, words.as_str());
    }
}

#[test]
fn a_part_may_lie_in_two_windows(rt: HostRuntime) {
    for digits in DENSE {
        let stream = octets(&rt, rt.alloc(), b"", digits);
        expect_in_two_windows(&rt, rt.alloc(), stream.as_slice());
    }
}

// Adds the declarations of the texts t000 to t999, each of which keeps those before it.
fn add_declarations(rt: &impl Abort, stream: &mut Vec<u8>) {
    for hundreds in b"0123456789" {
        for tens in b"0123456789" {
            for ones in b"0123456789" {
                add(rt, stream, b"\xED\x81\x83\xDA\x87\xB5\x84t");
                add(rt, stream, &[*hundreds, *tens, *ones, 0x86, 0x71, 0x03]);
            }
        }
    }
}

#[test]
fn a_thousand_declarations_add_up(rt: HostRuntime) {
    let mut stream = octets(&rt, rt.alloc(), MARKER, "");
    add_declarations(&rt, &mut stream);
    let stream = octets(&rt, rt.alloc(), stream.as_slice(), "71 0A 72 03 F1");
    // Each text costs 16 and its length.
    let cost = 1_000 * (16 + 4);
    let limits = Limits {
        symbols: cost,
        ..LIMITS
    };
    let catalog = catalog_of(&rt, rt.alloc(), 0);
    let input = in_pieces(stream.as_slice(), 1_000, 1_000);
    let told = read(&rt, rt.alloc(), limits, Some(&catalog), input);
    assert!(rt; told.held == told.raw_held.saturating_add(cost));
    let words = "14004/14004 symbol 't000'@14004; 14006/14006 symbol 't999'@14006; end";
    told.expect(&rt, rt.alloc(), "", words);
}
