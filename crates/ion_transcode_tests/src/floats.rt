//! Runs by the profile that reads floats, and by the one that does not.

use super::devices::Giving;
use super::runs::{LIMITS, binary, refused, text};
use super::same::{same, same_at};
use ion_meter::fault::{Fault, Reason};
use ion_meter::meter::Meter;
use ion_meter::profile::Profile;
use ion_meter::stream::{FromRead, ToWrite};
use ion_symbols::catalog::Catalog;
use ion_transcode::run::run_with;
use ion_transcode::to::{Summary, To};
use std::alloc::Global;
use std::process::Abort;

/// A text whose first value has a float at a place, how many values it has, and its canonical text and
/// binary.
struct Row<'a> {
    input: &'a str,
    place: u64,
    values: u64,
    shown: &'a str,
    octets: &'a [u8],
}

const ROWS: &[Row<'static>] = &[
    Row {
        input: "0e0 -0.0E+5",
        place: 0,
        values: 2,
        shown: "0e0\n-0e0\n",
        octets: b"\xE0\x01\x00\xEA\x40\x44\x80\x00\x00\x00",
    },
    Row {
        input: "[ 1_0.5_0e-1, nan, +inf,-inf]",
        place: 2,
        values: 1,
        shown: "[1.05e0,nan,+inf,-inf]\n",
        octets: b"\xE0\x01\x00\xEA\xBE\x98\x48\x3F\xF0\xCC\xCC\xCC\xCC\xCC\xCD\x44\x7F\xC0\x00\x00\x44\x7F\x80\x00\x00\x44\xFF\x80\x00\x00",
    },
    Row {
        input: "(5e-324 1.7976931348623157e308)",
        place: 1,
        values: 1,
        shown: "(5e-324 1.7976931348623157e308)\n",
        octets: b"\xE0\x01\x00\xEA\xCE\x92\x48\x00\x00\x00\x00\x00\x00\x00\x01\x48\x7F\xEF\xFF\xFF\xFF\xFF\xFF\xFF",
    },
    Row {
        input: "{name:6.02214076e23} 1.5",
        place: 6,
        values: 2,
        shown: "{name:6.02214076e23}\n1.5\n",
        octets: b"\xE0\x01\x00\xEA\xDA\x84\x48\x44\xDF\xE1\x85\xCA\x57\xC5\x17\x52\xC1\x0F",
    },
];

/// What a run answers of an input in pieces of so many bytes, and what it writes. All memory has to be
/// given back.
fn answer(
    rt: &impl Abort,
    alloc: Global,
    profile: Profile,
    to: To,
    input: &[u8],
    most: usize,
) -> (Result<Summary, Fault>, Vec<u8>) {
    assert!(rt; LIMITS.check());
    let mut meter = Meter::new(alloc);
    let catalog = Catalog::new(&meter);
    let reader = FromRead::new(Giving::all(input, most));
    let writer = ToWrite::new(Vec::new(alloc));
    let (outcome, _input, output) = run_with(
        &mut meter, &catalog, LIMITS, profile, to, reader, writer,
    );
    same(rt, meter.held(), 0);
    (outcome, output.into_inner())
}

#[test]
fn floats_are_read_and_written(rt: HostRuntime) {
    let alloc = rt.alloc();
    let floats = Profile::floats();
    for row in ROWS {
        let input = row.input.as_bytes();
        for most in [1, 4096] {
            let (outcome, out) = answer(&rt, alloc, floats, To::Text, input, most);
            let want = (text(row.values), row.shown.as_bytes());
            same_at(
                &rt,
                "shown",
                row.input,
                most,
                (outcome, out.as_slice()),
                want,
            );
            let (outcome, out) = answer(&rt, alloc, floats, To::Binary, input, most);
            let want = (text(row.values), row.octets);
            same_at(
                &rt,
                "converted",
                row.input,
                most,
                (outcome, out.as_slice()),
                want,
            );
            let (outcome, out) = answer(&rt, alloc, floats, To::Text, row.octets, most);
            let want = (binary(row.values), row.shown.as_bytes());
            same_at(
                &rt,
                "shown from binary",
                row.input,
                most,
                (outcome, out.as_slice()),
                want,
            );
        }
    }
}

#[test]
fn floats_are_refused_strictly(rt: HostRuntime) {
    let alloc = rt.alloc();
    for row in ROWS {
        let input = row.input.as_bytes();
        let (outcome, out) = answer(&rt, alloc, Profile::strict(), To::Nothing, input, 4096);
        let want = (refused(Reason::Float, row.place), b"".as_slice());
        same_at(
            &rt,
            "refused",
            row.input,
            0,
            (outcome, out.as_slice()),
            want,
        );
    }
}

#[test]
fn no_float_is_past_the_greatest(rt: HostRuntime) {
    let alloc = rt.alloc();
    let input = b"1 1.7976931348623159e308";
    let (outcome, out) = answer(&rt, alloc, Profile::floats(), To::Text, input, 1);
    same(&rt, outcome, refused(Reason::Range, 2));
    same(&rt, out.as_slice(), b"1\n".as_slice());
    let input = b"\xE0\x01\x00\xEA\x42\x3F\x80";
    let (outcome, out) = answer(&rt, alloc, Profile::floats(), To::Text, input, 1);
    same(&rt, outcome, refused(Reason::BadDescriptor, 4));
    same(&rt, out.as_slice(), b"".as_slice());
}
