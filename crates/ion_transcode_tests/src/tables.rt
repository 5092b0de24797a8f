//! Tables of streams, and how each of their rows is run.

use super::catalogs::expect_load;
use super::pretty::expect_pretty;
use super::round_trip::{expect_by, expect_round_trip};
use super::rows::{answer_of, next_bytes, next_verdict};
use super::runs::{Case, LIMITS, expect_octets, expect_text};
use super::to_binary::{expect_converted, expect_rewritten};
use ion_test_support::fields::{Fields, is_row};
use std::alloc::Global;
use std::process::Abort;

/// How the rows of a table are run, and which fields they have. After them may be limits.
#[derive(Clone, Copy)]
pub enum Kind {
    /// Texts, their verdicts, and what is shown of them.
    Texts,
    /// Texts that are shown as they stand, and their verdicts.
    Canonical,
    /// Binary, its verdicts, and what is shown of it.
    Octets,
    /// Texts, their verdicts, and what is written of them as binary.
    Converted,
    /// Binary, its verdicts, and what is written of it as binary.
    Rewritten,
    /// Streams, their verdicts, and their pretty text.
    Pretty,
    /// Streams that are read by the catalogue of one table, their verdicts, and what is shown of them.
    Imports,
    /// Catalogues, and their verdicts.
    Catalogues,
    /// Streams that go there and back, and their verdicts.
    RoundTrips,
}

/// Asserts what comes of the stream of a row.
fn expect_row(rt: &impl Abort, alloc: Global, kind: Kind, row: &str) {
    let mut fields = Fields::of(row);
    let input = next_bytes(rt, alloc, &mut fields);
    let verdict = next_verdict(rt, &mut fields);
    let output = match kind {
        Kind::Canonical | Kind::Catalogues | Kind::RoundTrips => {
            next_bytes(rt, alloc, &mut Fields::of(row))
        }
        _ => next_bytes(rt, alloc, &mut fields),
    };
    let case = Case {
        row,
        limits: fields.limits(LIMITS),
        input: input.as_slice(),
        want: answer_of(input.as_slice(), verdict),
    };
    assert!(rt; fields.is_read());
    expect(rt, alloc, kind, case, output.as_slice());
}

/// Asserts what comes of a stream.
fn expect(rt: &impl Abort, alloc: Global, kind: Kind, case: Case, output: &[u8]) {
    match kind {
        Kind::Texts | Kind::Canonical => expect_text(rt, alloc, case, output),
        Kind::Octets => expect_octets(rt, alloc, case, output),
        Kind::Converted => expect_converted(rt, alloc, case, output),
        Kind::Rewritten => expect_rewritten(rt, alloc, case, output),
        Kind::Pretty => expect_pretty(rt, alloc, case, output),
        Kind::Imports => expect_by(rt, alloc, case, output),
        Kind::Catalogues => expect_load(rt, alloc, case),
        Kind::RoundTrips => expect_round_trip(rt, alloc, case),
    }
}

/// Asserts what comes of the streams of a table.
pub fn expect_rows(rt: &impl Abort, alloc: Global, kind: Kind, table: &str) {
    let mut is_met = false;
    for row in table.split('\n') {
        if is_row(row) {
            expect_row(rt, alloc, kind, row);
            is_met = true;
        }
    }
    assert!(rt; is_met);
}
