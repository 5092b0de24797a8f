//! Sentences of the format, each with inputs that are accepted and that are refused, through whole
//! runs: as they are, in two pieces cut at each place, a byte a read, cut short, and with a byte replaced.
//!
//! The tables are written by tests/vectors/make.py. What must come of an input is there taken from a
//! program that shares nothing with the crates.

mod binary_containers;
mod binary_heads;
mod binary_scalars;
mod binary_timestamps;
mod catalogues;
mod endings;
mod floats_binary;
mod floats_text;
mod symbols_binary;
mod symbols_imports;
mod symbols_text;
mod text_containers;
mod text_lobs;
mod text_numbers;
mod text_strings;
mod text_symbols;
mod text_timestamps;
mod text_tokens;

use super::devices;
use super::devices::Giving;
use super::rows::{Verdict, next_bytes, next_checksum, next_verdict};
use super::runs::{LIMITS, refused, text};
use super::same::{same, same_at};
use ion_meter::fault::{Fault, Reason};
use ion_meter::limits::Limits;
use ion_meter::meter::Meter;
use ion_meter::profile::Profile;
use ion_meter::stream::{FromRead, ToWrite};
use ion_test_support::fields::{Fields, is_row};
use ion_transcode::load::load_catalog;
use ion_transcode::run::run_with;
use ion_transcode::to::{Form, Summary, To};
use std::alloc::Global;
use std::process::Abort;

/// An input of a sentence.
#[derive(Clone, Copy)]
struct Vector<'a> {
    sentence: &'a str,
    /// The row of the table.
    row: &'a str,
    input: &'a [u8],
    verdict: Verdict,
    /// What is written of it as text, and as binary.
    shown: &'a [u8],
    converted: &'a [u8],
    /// The checksum over the answers to all mangled inputs.
    whole: u64,
    /// For each place the checksum of the answers to the input cut short there and with each of `OTHERS` there, cut
    /// to a character.
    marks: &'a [u8],
}

/// What may stand in the place of a byte.
const OTHERS: [u8; 4] = [0x00, 0x7F, 0x80, 0xFF];

/// The targets of each input, in their order in a checksum.
const TARGETS: [To; 3] = [To::Text, To::Nothing, To::Binary];

/// Checksums are FNV-1a of 64 bits.
const SEED: u64 = 0xCBF2_9CE4_8422_2325;

/// The checksum of some bytes after those of this one.
fn put(sum: u64, bytes: &[u8]) -> u64 {
    let mut sum = sum;
    for byte in bytes {
        sum = (sum ^ u64::from(*byte)).wrapping_mul(0x100_0000_01B3);
    }
    sum
}

/// What a run answers: its verdict, and what it wrote.
type Answer = (Result<Summary, Fault>, Vec<u8>);

/// The checksum with an answer: a code, a place or how many values, and the output with its length.
fn put_answer(sum: u64, answer: &Answer) -> u64 {
    let (code, number) = match answer.0 {
        Ok(summary) => (
            if summary.form == Form::Text { 0 } else { 255 },
            summary.values,
        ),
        Err(Fault::Refused(reason, place)) => (reason.number(), place),
        Err(_) => (254, 0),
    };
    let output = answer.1.as_slice();
    let sum = put(put(sum, &[code]), &number.to_le_bytes());
    put(put(sum, &(output.len() as u64).to_le_bytes()), output)
}

/// What is the same in each run of a table.
#[derive(Clone, Copy)]
enum Beside<'a> {
    /// The inputs are streams, read with this catalogue.
    Catalogue(&'a [u8]),
    /// The inputs are streams, read with no catalogue, in which all floats are read.
    Floats,
    /// The inputs are catalogues, with which this stream is read.
    Stream(&'a [u8]),
}

/// What a run answers of a stream with a catalogue; where the catalogue is refused, its fault. All
/// memory has to be given back.
fn answer_with(
    rt: &impl Abort,
    alloc: Global,
    profile: Profile,
    catalogue: Giving<'_>,
    stream: Giving<'_>,
    to: To,
) -> Answer {
    assert!(rt; LIMITS.check());
    let mut kept = Meter::new(alloc);
    let (loaded, _input) = load_catalog(&mut kept, LIMITS, FromRead::new(catalogue));
    let catalog = match loaded {
        Ok(catalog) => catalog,
        Err(fault) => return (Err(fault), Vec::new(alloc)),
    };
    let mut meter = Meter::new(alloc);
    let input = FromRead::new(stream);
    let output = ToWrite::new(Vec::new(alloc));
    let (outcome, _input, output) = run_with(
        &mut meter, &catalog, LIMITS, profile, to, input, output,
    );
    same(rt, meter.held(), 0);
    catalog.release(&mut kept);
    same(rt, kept.held(), 0);
    (outcome, output.into_inner())
}

/// What a run answers of an input.
fn answer(rt: &impl Abort, alloc: Global, beside: Beside<'_>, input: Giving<'_>, to: To) -> Answer {
    let (profile, catalogue, stream) = match beside {
        Beside::Catalogue(bytes) => (Profile::strict(), Giving::all(bytes, bytes.len()), input),
        Beside::Floats => (Profile::floats(), Giving::all(b"", 0), input),
        Beside::Stream(bytes) => (Profile::strict(), input, Giving::all(bytes, bytes.len())),
    };
    answer_with(rt, alloc, profile, catalogue, stream, to)
}

/// What is wanted of a whole input, where it is not written as pretty text.
fn wanted<'a>(
    beside: Beside<'_>,
    vector: Vector<'a>,
    to: To,
) -> (Result<Summary, Fault>, &'a [u8]) {
    let form = match beside {
        Beside::Catalogue(_) | Beside::Floats if vector.input.starts_with(b"\xE0") => Form::Binary,
        _ => Form::Text,
    };
    let written = match (to, form) {
        (To::Nothing, _) => b"".as_slice(),
        (To::Binary, Form::Binary) => {
            return (Err(Fault::Refused(Reason::SameForm, 0)), b"");
        }
        (To::Text, _) | (To::Other, Form::Binary) => vector.shown,
        _ => vector.converted,
    };
    match vector.verdict {
        Ok(values) => (Ok(Summary { form, values }), written),
        Err(fault) => (Err(fault), written),
    }
}

/// Asserts what comes of an input in these pieces.
fn expect_pieces(
    rt: &impl Abort,
    alloc: Global,
    beside: Beside<'_>,
    vector: Vector<'_>,
    at: usize,
    pieces: Giving<'_>,
) {
    for to in [To::Text, To::Nothing, To::Binary, To::Other] {
        let (outcome, output) = answer(rt, alloc, beside, pieces, to);
        let want = wanted(beside, vector, to);
        let given = (outcome, output.as_slice());
        same_at(rt, vector.sentence, vector.row, at, given, want);
    }
}

/// Asserts that an input has its verdict where it is written as pretty text, and that this shows the same if
/// it is accepted.
fn expect_pretty(rt: &impl Abort, alloc: Global, beside: Beside<'_>, vector: Vector<'_>) {
    let input = Giving::all(vector.input, vector.input.len());
    let (outcome, pretty) = answer(rt, alloc, beside, input, To::Pretty);
    let (want, shown) = wanted(beside, vector, To::Text);
    same_at(rt, vector.sentence, vector.row, 0, outcome, want);
    if outcome.is_err() {
        return;
    }
    if let Beside::Stream(_) = beside {
        return;
    }
    let again = Giving::all(pretty.as_slice(), pretty.len());
    let (_outcome, output) = answer(rt, alloc, beside, again, To::Text);
    same_at(rt, vector.sentence, vector.row, 0, output.as_slice(), shown);
}

/// Asserts what comes of a whole input, a byte a read, and in one piece or two.
fn expect_whole(rt: &impl Abort, alloc: Global, beside: Beside<'_>, vector: Vector<'_>) {
    let input = vector.input;
    expect_pretty(rt, alloc, beside, vector);
    expect_pieces(rt, alloc, beside, vector, 0, Giving::all(input, 1));
    for at in 0..=input.len() {
        expect_pieces(rt, alloc, beside, vector, at, Giving::cut(input, at));
    }
}

/// The checksum of what comes of an input with each target.
fn sum_of(rt: &impl Abort, alloc: Global, beside: Beside<'_>, input: &[u8]) -> u64 {
    let mut sum = SEED;
    for to in TARGETS {
        let answer = answer(rt, alloc, beside, Giving::all(input, input.len()), to);
        sum = put_answer(sum, &answer);
    }
    sum
}

/// The checksum over some checksums.
fn folded(sums: &[u64]) -> u64 {
    let mut whole = SEED;
    for sum in sums {
        whole = put(whole, &sum.to_le_bytes());
    }
    whole
}

/// The checksums of what comes of some octets when they are cut short at a place, and when they have
/// each of `OTHERS` there.
fn sums_at(
    rt: &impl Abort,
    alloc: Global,
    beside: Beside<'_>,
    octets: &mut [u8],
    place: usize,
) -> [u64; 5] {
    assert!(rt; place < octets.len());
    let octet = octets[place];
    let mut sums = [0; 5];
    sums[0] = sum_of(rt, alloc, beside, &octets[..place]);
    for other in 0..4 {
        octets[place] = OTHERS[other];
        sums[other + 1] = sum_of(rt, alloc, beside, octets);
    }
    octets[place] = octet;
    sums
}

/// Asserts what comes of an input, of which these are the octets, when it is cut short or has another one.
fn expect_mangled(
    rt: &impl Abort,
    alloc: Global,
    beside: Beside<'_>,
    vector: Vector<'_>,
    octets: &mut [u8],
) {
    let mut places = SEED;
    for place in 0..vector.input.len() {
        let sums = sums_at(rt, alloc, beside, octets, place);
        let sum = folded(&sums);
        let mark = b'#' + (sum % 57) as u8;
        let want = (vector.marks.get(place), sums);
        same_at(
            rt,
            vector.sentence,
            vector.row,
            place,
            (Some(&mark), sums),
            want,
        );
        places = put(places, &sum.to_le_bytes());
    }
    let length = vector.input.len();
    same_at(
        rt,
        vector.sentence,
        vector.row,
        length,
        places,
        vector.whole,
    );
}

/// Asserts what comes of the input of a row, whole and mangled.
fn expect_row(rt: &impl Abort, alloc: Global, beside: Beside<'_>, sentence: &str, row: &str) {
    let mut fields = Fields::of(row);
    let input = next_bytes(rt, alloc, &mut fields);
    let verdict = next_verdict(rt, &mut fields);
    let shown = next_bytes(rt, alloc, &mut fields);
    let converted = next_bytes(rt, alloc, &mut fields);
    let whole = next_checksum(rt, &mut fields);
    let marks = fields.text().as_bytes();
    assert!(rt; fields.is_read());
    let vector = Vector {
        sentence,
        row,
        input: input.as_slice(),
        verdict,
        shown: shown.as_slice(),
        converted: converted.as_slice(),
        whole,
        marks,
    };
    expect_whole(rt, alloc, beside, vector);
    let mut octets = next_bytes(rt, alloc, &mut Fields::of(row));
    expect_mangled(rt, alloc, beside, vector, octets.as_mut_slice());
}

/// Asserts what comes of the inputs of a sentence.
fn expect_sentence(rt: &impl Abort, alloc: Global, beside: Beside<'_>, sentence: &str, rows: &str) {
    let mut is_met = false;
    for row in rows.split('\n') {
        if is_row(row) {
            expect_row(rt, alloc, beside, sentence, row);
            is_met = true;
        }
    }
    assert!(rt; is_met);
}

/// Asserts what comes of the inputs of a table. A sentence has `~` before it, and its inputs are the rows after it.
fn expect_rows(rt: &impl Abort, alloc: Global, beside: Beside<'_>, table: &str) {
    for part in table.split('~') {
        match part.split_once('\n') {
            Some((sentence, rows)) if !sentence.is_empty() => {
                expect_sentence(rt, alloc, beside, sentence, rows);
            }
            _ => {}
        }
    }
}

#[test]
fn binary_sentences(rt: HostRuntime) {
    let beside = Beside::Catalogue(b"");
    expect_rows(&rt, rt.alloc(), beside, binary_heads::ROWS);
    expect_rows(&rt, rt.alloc(), beside, binary_scalars::ROWS);
    expect_rows(&rt, rt.alloc(), beside, binary_containers::ROWS);
    expect_rows(&rt, rt.alloc(), beside, binary_timestamps::ROWS);
    expect_rows(&rt, rt.alloc(), beside, endings::ROWS);
}

#[test]
fn tokens_of_text(rt: HostRuntime) {
    let beside = Beside::Catalogue(b"");
    expect_rows(&rt, rt.alloc(), beside, text_tokens::ROWS);
}

#[test]
fn numbers_of_text(rt: HostRuntime) {
    let beside = Beside::Catalogue(b"");
    expect_rows(&rt, rt.alloc(), beside, text_numbers::ROWS);
}

#[test]
fn floats_of_both_forms(rt: HostRuntime) {
    expect_rows(&rt, rt.alloc(), Beside::Floats, floats_text::ROWS);
    expect_rows(&rt, rt.alloc(), Beside::Floats, floats_binary::ROWS);
}

#[test]
fn timestamps_of_text(rt: HostRuntime) {
    let beside = Beside::Catalogue(b"");
    expect_rows(&rt, rt.alloc(), beside, text_timestamps::ROWS);
}

#[test]
fn strings_of_text(rt: HostRuntime) {
    let beside = Beside::Catalogue(b"");
    expect_rows(&rt, rt.alloc(), beside, text_strings::ROWS);
}

#[test]
fn symbols_of_text(rt: HostRuntime) {
    let beside = Beside::Catalogue(b"");
    expect_rows(&rt, rt.alloc(), beside, text_symbols::ROWS);
}

#[test]
fn containers_of_text(rt: HostRuntime) {
    let beside = Beside::Catalogue(b"");
    expect_rows(&rt, rt.alloc(), beside, text_containers::ROWS);
}

#[test]
fn lobs_of_text(rt: HostRuntime) {
    let beside = Beside::Catalogue(b"");
    expect_rows(&rt, rt.alloc(), beside, text_lobs::ROWS);
}

#[test]
fn symbol_sentences(rt: HostRuntime) {
    let beside = Beside::Catalogue(symbols_text::CATALOGUE.as_bytes());
    expect_rows(&rt, rt.alloc(), beside, symbols_text::ROWS);
    expect_rows(&rt, rt.alloc(), beside, symbols_imports::ROWS);
    expect_rows(&rt, rt.alloc(), beside, symbols_binary::ROWS);
    let beside = Beside::Stream(catalogues::STREAM.as_bytes());
    expect_rows(&rt, rt.alloc(), beside, catalogues::ROWS);
}

/// Octets of a pad, and bytes of a comment.
const OCTETS: [u8; 4_096] = [0xE0; 4_096];

// 8,388,608 octets of a pad or of a comment are passed over; a scalar of so many is refused by its
// length.
#[test]
fn long_inputs(rt: HostRuntime) {
    let limits = Limits {
        scalar: 1,
        ..LIMITS
    };
    let pad = b"\xE0\x01\x00\xEA\x0E\x04\x00\x00\x80";
    let clob = b"\xE0\x01\x00\xEA\x9E\x04\x00\x00\x80";
    let form = Form::Binary;
    let rows = [
        (
            pad.as_slice(),
            b"".as_slice(),
            Ok(Summary { form, values: 0 }),
            b"".as_slice(),
        ),
        (pad, b"\x20", Ok(Summary { form, values: 1 }), b"0\n"),
        (clob, b"", refused(Reason::ScalarLimit, 4), b""),
        (b"/*", b"*/7", text(1), b"7\n"),
        (b"//", b"\n7", text(1), b"7\n"),
    ];
    for (first, last, want, shown) in rows {
        let reader = Giving {
            again: &OCTETS,
            times: 2_048,
            last,
            ..Giving::all(first, 4_096)
        };
        for (to, written) in [(To::Text, shown), (To::Nothing, b"")] {
            let output = Vec::new(rt.alloc());
            let (outcome, output) = devices::answer(&rt, rt.alloc(), limits, to, reader, output);
            let given = (first, outcome, output.as_slice());
            same(&rt, given, (first, want, written));
        }
    }
}
