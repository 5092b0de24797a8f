//! Runs over streams in parts, wherever they are cut, against runs over the whole.

use super::rows::next_bytes;
use super::runs::{Case, LIMITS, text};
use super::same::same_at;
use ion_meter::fault::Fault;
use ion_meter::meter::Meter;
use ion_meter::profile::Profile;
use ion_meter::stream::ToWrite;
use ion_symbols::catalog::Catalog;
use ion_test_support::fields::{Fields, is_row};
use ion_transcode::in_parts::{Part, Taken, run_part};
use ion_transcode::to::To;
use std::alloc::Global;
use std::process::Abort;
use std::test::Fail;

/// What is known of a stream between two calls.
#[derive(Drop)]
struct Progress<'c> {
    catalog: &'c Catalog<Global>,
    kept: Vec<u8>,
    /// How many bytes were taken, and how many values.
    taken: usize,
    values: u64,
    written: Vec<u8>,
}

/// Runs a part, and answers what it took.
fn call(
    rt: &impl Abort,
    alloc: Global,
    case: &Case,
    to: To,
    now: &mut Progress<'_>,
    until: usize,
    last: bool,
) -> Result<u64, Fault> {
    assert!(rt; case.limits.check());
    assert!(rt; now.taken <= until && until <= case.input.len());
    let part = Part {
        bytes: &case.input[now.taken..until],
        last,
    };
    let mut meter = Meter::new(alloc);
    let output = ToWrite::new(Vec::new(alloc));
    let (outcome, output) = run_part(
        &mut meter,
        now.catalog,
        case.limits,
        Profile::strict(),
        to,
        now.kept.as_slice(),
        part,
        output,
    );
    assert!(rt; meter.held() == 0);
    let written = output.into_inner();
    assert!(rt; now.written.extend_from_slice(written.as_slice()).is_ok());
    match outcome {
        Err(Fault::Refused(reason, place)) => {
            Err(Fault::Refused(reason, place.saturating_add(now.taken as u64)))
        }
        Err(fault) => Err(fault),
        Ok(
            Taken {
                bytes,
                values,
                stays,
                more,
            },
        ) => {
            if !stays {
                now.kept.clear();
            }
            assert!(rt; now.kept.extend_from_slice(more).is_ok());
            now.taken = now.taken.saturating_add(bytes as usize);
            now.values = now.values.saturating_add(values);
            Ok(bytes)
        }
    }
}

/// Takes all that can be taken of the first bytes of a stream, before its last part.
fn take_all(
    rt: &impl Abort,
    alloc: Global,
    case: &Case,
    to: To,
    now: &mut Progress<'_>,
    until: usize,
) -> Result<(), Fault> {
    for _ in 0..case.input.len() {
        match call(rt, alloc, case, to, now, until, false) {
            Err(fault) => return Err(fault),
            Ok(0) => return Ok(()),
            Ok(_) => {}
        }
    }
    Ok(())
}

/// Runs a stream whose bytes come in these pieces, as far as it goes.
fn run_pieces(
    rt: &impl Abort,
    alloc: Global,
    case: &Case,
    to: To,
    ends: &[usize],
    now: &mut Progress<'_>,
) -> Result<u64, Fault> {
    for end in ends {
        take_all(rt, alloc, case, to, now, *end)?;
    }
    call(rt, alloc, case, to, now, case.input.len(), true)?;
    Ok(now.values)
}

/// Asserts that the pieces have the verdict and the output of the whole.
fn expect_pieces(
    rt: &impl Abort,
    alloc: Global,
    case: Case,
    to: To,
    at: usize,
    ends: &[usize],
    shown: &[u8],
) -> usize {
    let catalog = Catalog::new(&Meter::new(alloc));
    let mut now = Progress {
        catalog: &catalog,
        kept: Vec::new(alloc),
        taken: 0,
        values: 0,
        written: Vec::new(alloc),
    };
    let outcome = run_pieces(rt, alloc, &case, to, ends, &mut now);
    let want = case.want.map(|summary| summary.values);
    let given = (outcome, now.written.as_slice());
    same_at(rt, "in parts", case.row, at, given, (want, shown));
    now.kept.len()
}

/// Asserts that a stream in parts has the verdict and the output of the whole, wherever it is cut, and if it
/// comes byte by byte.
pub fn expect_parts(rt: &impl Abort, alloc: Global, case: Case, to: To, shown: &[u8]) {
    let mut ends = Vec::new(alloc);
    for at in 0..case.input.len() {
        expect_pieces(rt, alloc, case, to, at, &[at], shown);
        assert!(rt; ends.push(at).is_ok());
    }
    expect_pieces(rt, alloc, case, to, 0, ends.as_slice(), shown);
}

/// Asserts that all of a binary stream is taken before its last part.
pub fn expect_all_taken(rt: &impl Abort, alloc: Global, case: Case) {
    let catalog = Catalog::new(&Meter::new(alloc));
    let mut now = Progress {
        catalog: &catalog,
        kept: Vec::new(alloc),
        taken: 0,
        values: 0,
        written: Vec::new(alloc),
    };
    let end = case.input.len();
    let _ = take_all(rt, alloc, &case, To::Text, &mut now, end);
    same_at(rt, "all taken", case.row, 0, now.taken, end);
}

/// Texts, what is taken of them before their last part, and what is kept then.
const TEXTS: &str = r#"
1%0A2%0A3|1%0A2%0A|%0A|
1%0A2%0A|1%0A2%0A|%0A|
[%0A1,%0A2]%0A[|[%0A1,%0A2]%0A|%0A|
"a"%0A|||
"a"%0A"b"|"a"%0A|%0A|
"a"%0A 'b'|||
$ion_symbol_table::{symbols:["a"]}%0A$10%0A[$10]%0A|$ion_symbol_table::{symbols:["a"]}%0A$10%0A[$10]%0A|$ion_symbol_table::{symbols:["a"]}%0A|
$ion_1_0%0A$ion_symbol_table::{symbols:["a"]}%0A[$10]%0A$ion_1_0%0A[1]%0A|$ion_1_0%0A$ion_symbol_table::{symbols:["a"]}%0A[$10]%0A$ion_1_0%0A[1]%0A|%0A|
$ion_symbol_table::{symbols:["a"]} [$10]%0A[1]%0A|||
  1%0A  2%0A|  1%0A  2%0A|%0A|
'''a%0A''' 1%0A|'''a%0A''' 1%0A|%0A|
1 /*%0A*/ 2%0A|1 /*%0A*/ 2%0A|%0A|
// a%0A1%0A|// a%0A1%0A|%0A|
1%0A// a%0A|1%0A// a%0A|%0A|
// a%0A$ion_symbol_table::{symbols:["a"]}%0A[$10]%0A|// a%0A$ion_symbol_table::{symbols:["a"]}%0A[$10]%0A|%0A$ion_symbol_table::{symbols:["a"]}%0A|
$3::{symbols:["a"]}%0A[$10]%0A|$3::{symbols:["a"]}%0A[$10]%0A|$3::{symbols:["a"]}%0A|
$ion_symbol_table::{symbols:["$ion_symbol_table"]}%0A$10::{symbols:["b"]}%0A[$10]%0A|$ion_symbol_table::{symbols:["$ion_symbol_table"]}%0A$10::{symbols:["b"]}%0A[$10]%0A|$ion_symbol_table::{symbols:["$ion_symbol_table"]}%0A$10::{symbols:["b"]}%0A|
"#;

/// Asserts what is taken of a text before its last part, and what is kept.
fn expect_taken(rt: &impl Abort, alloc: Global, row: &str) {
    let mut fields = Fields::of(row);
    let input = next_bytes(rt, alloc, &mut fields);
    let taken = next_bytes(rt, alloc, &mut fields);
    let kept = next_bytes(rt, alloc, &mut fields);
    let catalog = Catalog::new(&Meter::new(alloc));
    let mut now = Progress {
        catalog: &catalog,
        kept: Vec::new(alloc),
        taken: 0,
        values: 0,
        written: Vec::new(alloc),
    };
    let case = Case {
        row,
        limits: LIMITS,
        input: input.as_slice(),
        want: text(0),
    };
    let end = case.input.len();
    let _ = take_all(rt, alloc, &case, To::Text, &mut now, end);
    same_at(rt, "taken", row, 0, now.taken, taken.len());
    same_at(rt, "kept", row, 0, now.kept.as_slice(), kept.as_slice());
}

#[test]
fn texts_are_taken_by_lines(rt: HostRuntime) {
    for row in TEXTS.split('\n') {
        if is_row(row) {
            expect_taken(&rt, rt.alloc(), row);
        }
    }
}

/// Asserts that one call takes so many bytes of a text that is not the last part.
fn expect_one_call(rt: &impl Abort, alloc: Global, input: &[u8], taken: u64) {
    let catalog = Catalog::new(&Meter::new(alloc));
    let mut now = Progress {
        catalog: &catalog,
        kept: Vec::new(alloc),
        taken: 0,
        values: 0,
        written: Vec::new(alloc),
    };
    let case = Case {
        row: "many lines",
        limits: LIMITS,
        input,
        want: text(0),
    };
    let outcome = call(rt, alloc, &case, To::Text, &mut now, input.len(), false);
    assert!(rt; outcome == Ok(taken));
}

#[test]
fn many_lines_are_taken_by_one_call(rt: HostRuntime) {
    let alloc = rt.alloc();
    let mut strings = Vec::new(alloc);
    let mut lists = Vec::new(alloc);
    for _ in 0..100u32 {
        assert!(&rt; strings.extend_from_slice(b"\"a\"\n").is_ok());
        assert!(&rt; lists.extend_from_slice(b"[a]\n").is_ok());
    }
    // The last string may go on.
    expect_one_call(&rt, alloc, strings.as_slice(), 396);
    expect_one_call(&rt, alloc, lists.as_slice(), 400);
}
