//! Runs over devices that move one byte a call, and fail at one of their calls.
ghost use Rattle.std.specs.Prelude.{◌≡◌};

use super::rows::{Verdict, answer_of};
use super::runs::{LIMITS, text};
use super::same::same;
use ion_meter::device::{Broken, Input, Output};
use ion_meter::fault::{Fault, Reason};
use ion_meter::limits::Limits;
use ion_meter::meter::Meter;
use ion_symbols::catalog::Catalog;
use ion_transcode::run::run;
use ion_transcode::to::{Summary, To};
use std::alloc::Global;
use std::cell::Cell;
use std::process::Abort;
use std::test::Fail;

/// An input that gives one byte a call, or many, and fails at one call.
#[derive(Drop)]
struct Drip<'a> {
    left: &'a [u8],
    /// The most that it gives a call.
    most: usize,
    calls: usize,
    fails_at: usize,
    failures: u64,
    /// How many bytes the output has taken, and how many it had taken before the last call.
    written: &'a Cell<usize>,
    written_before: usize,
}

impl<'a> Drip<'a> {
    /// It gives a byte a call, and fails at this call, counted from 1 on, and at none where this is 0.
    fn new(left: &'a [u8], fails_at: usize, written: &'a Cell<usize>) -> Drip<'a>
        ensures { result.failures ≡ 0 }
    {
        Drip {
            left,
            most: 1,
            calls: 0,
            fails_at,
            failures: 0,
            written,
            written_before: 0,
        }
    }

    /// It gives as much as is asked for, and fails at no call.
    fn whole(left: &'a [u8], written: &'a Cell<usize>) -> Drip<'a>
        ensures { result.failures ≡ 0 }
    {
        Drip {
            most: usize::MAX,
            ..Drip::new(left, 0, written)
        }
    }
}

impl Input for Drip<'_> {
    ghost rest = { λ d. d.left.now };

    ghost failure_count = { λ d. d.failures };

    ghost observable = { λ _. Unit {0} };

    ghost yields = { λ _ _ _. Unit {0} };

    fn read(&mut self, into: &mut [u8]) -> Result<usize, Broken> {
        self.calls = self.calls.saturating_add(1);
        self.written_before = self.written.get();
        if self.calls == self.fails_at {
            self.failures += 1;
            return Err(Broken);
        }
        let n = self.left.len().min(self.most.max(1)).min(into.len());
        into[..n].copy_from_slice(&self.left[..n]);
        self.left = &self.left[n..];
        Ok(n)
    }

    fn failures(&self) -> u64 {
        self.failures
    }
}

/// How an output fails.
#[derive(Clone, Copy)]
enum Failing {
    ByErr,
    ByTakingNothing,
}

/// An output that takes one byte a call, and fails at one call.
#[derive(Drop)]
struct Narrow<'a> {
    taken: Vec<u8>,
    calls: usize,
    fails_at: usize,
    failing: Failing,
    failures: u64,
    /// How many bytes it has taken.
    written: &'a Cell<usize>,
}

impl<'a> Narrow<'a> {
    /// It fails at this call, counted from 1 on, and at none where this is 0.
    fn new(alloc: Global, fails_at: usize, failing: Failing, written: &'a Cell<usize>) -> Narrow<'a>
        ensures { result.failures ≡ 0 }
    {
        Narrow {
            taken: Vec::new(alloc),
            calls: 0,
            fails_at,
            failing,
            failures: 0,
            written,
        }
    }
}

impl Output for Narrow<'_> {
    ghost written = { λ d. d.taken.items };

    ghost failure_count = { λ d. d.failures };

    ghost observable = { λ _. Unit {0} };

    fn write(&mut self, bytes: &[u8]) -> Result<usize, Broken> {
        if bytes.is_empty() {
            return Ok(0);
        }
        self.calls = self.calls.saturating_add(1);
        if self.calls == self.fails_at {
            self.failures += 1;
            return match self.failing {
                Failing::ByErr => Err(Broken),
                Failing::ByTakingNothing => Ok(0),
            };
        }
        if self.taken.push(bytes[0]).is_err() {
            self.failures += 1;
            return Err(Broken);
        }
        self.written.set(self.taken.len());
        Ok(1)
    }

    fn failures(&self) -> u64 {
        self.failures
    }
}

/// A stream, how it is written, and what a run over the whole of it answers and writes.
#[derive(Clone, Copy)]
struct Row<'a> {
    input: &'a [u8],
    to: To,
    answer: Result<Summary, Fault>,
    output: &'a [u8],
}

/// What a run answers, and the devices. All memory has to be given back.
fn run_on<'a, 'b>(
    rt: &impl Abort,
    alloc: Global,
    limits: Limits,
    to: To,
    input: Drip<'a>,
    output: Narrow<'b>,
) -> (Result<Summary, Fault>, Drip<'a>, Narrow<'b>)
    requires reads { input.failures ≡ 0 }
    requires writes { output.failures ≡ 0 }
{
    assert!(rt; limits.check());
    let mut meter = Meter::new(alloc);
    let catalog = Catalog::new(&meter);
    let (answer, input, output) = run(&mut meter, &catalog, limits, to, input, output);
    same(rt, meter.held(), 0);
    same(rt, meter.refused(), 0);
    (answer, input, output)
}

/// Whether a run meets this call of its input, which fails. Nothing is written then, and no device is called again.
fn fails_reading(rt: &impl Abort, alloc: Global, row: Row, call: usize) -> bool {
    let written = Cell::new(0);
    let input = Drip::new(row.input, call, &written);
    let output = Narrow::new(alloc, 0, Failing::ByErr, &written);
    let (answer, input, output) = run_on(rt, alloc, LIMITS, row.to, input, output);
    let taken = output.taken.as_slice();
    same(rt, output.failures, 0);
    if input.failures == 0 {
        same(rt, (row.input, answer), (row.input, row.answer));
        same(rt, taken, row.output);
        return false;
    }
    same(rt, (input.calls, input.failures), (call, 1));
    same(rt, (row.input, answer), (row.input, Err(Fault::ReadFault)));
    assert!(rt; row.output.starts_with(taken));
    same(rt, taken.len(), input.written_before);
    true
}

/// Whether a run over the whole input meets this call of its output, which fails. What was taken are
/// the first bytes of all that would be, and no device is called again.
fn fails_writing(
    rt: &impl Abort,
    alloc: Global,
    row: Row,
    most: usize,
    call: usize,
    failing: Failing,
) -> bool {
    let written = Cell::new(0);
    let input = Drip {
        most,
        ..Drip::new(row.input, 0, &written)
    };
    let output = Narrow::new(alloc, call, failing, &written);
    let (answer, input, output) = run_on(rt, alloc, LIMITS, row.to, input, output);
    let taken = output.taken.as_slice();
    same(rt, input.failures, 0);
    if output.failures == 0 {
        same(rt, (row.input, answer), (row.input, row.answer));
        same(rt, taken, row.output);
        return false;
    }
    same(rt, (output.calls, output.failures), (call, 1));
    same(rt, (row.input, answer), (row.input, Err(Fault::WriteFault)));
    assert!(rt; row.output.starts_with(taken));
    same(rt, taken.len(), call.saturating_sub(1));
    true
}

/// How many calls of the input of a run fail, where the first one does, then the second, and so on.
fn count_reads(rt: &impl Abort, alloc: Global, row: Row) -> usize {
    for call in 1..10_000 {
        if !fails_reading(rt, alloc, row, call) {
            return call - 1;
        }
    }
    panic!(rt; "each run met a failure")
}

/// How many calls of the output of a run fail, where the first one does, then the second, and so
/// on.
fn count_writes(rt: &impl Abort, alloc: Global, row: Row, most: usize, failing: Failing) -> usize {
    for call in 1..10_000 {
        if !fails_writing(rt, alloc, row, most, call, failing) {
            return call - 1;
        }
    }
    panic!(rt; "each run met a failure")
}

/// Fails each call of each device of a run. There is a write for each byte, and a read for each and
/// one for the end.
fn fail_each(rt: &impl Abort, alloc: Global, row: Row) {
    same(
        rt,
        count_reads(rt, alloc, row),
        row.input.len().saturating_add(1),
    );
    for most in [1, usize::MAX] {
        for failing in [Failing::ByErr, Failing::ByTakingNothing] {
            let writes = count_writes(rt, alloc, row, most, failing);
            same(rt, writes, row.output.len());
        }
    }
}

/// Streams, how many values they have, or why and where they are refused, what is shown of them, and
/// what is written of them in the other form.
const ROWS: &[(&[u8], Verdict, &[u8], &[u8])] = &[
    (
        b"null.int 5 -0 'a b'",
        Ok(4),
        b"null.int\n5\n0\n'a b'\n",
        b"\xE0\x01\x00\xEA\x2F\x21\x05\x20\xEC\x81\x83\xD9\x86\x71\x03\x87\xB4\x83a b\x71\x0A",
    ),
    (
        b"\xE0\x01\x00\xEA\xEA\x81\x83\xD7\x87\xB2\x81a\x86\x71\x03\
            \xEA\x81\x83\xD7\x87\xB2\x81b\x86\x71\x03\x71\x0A\x71\x0B",
        Ok(2),
        b"a\nb\n",
        b"a\nb\n",
    ),
    (
        b"\xE0\x01\x00\xEA\x21\x05\x82a",
        Err(Fault::Refused(Reason::Truncated, 6)),
        b"5\n",
        b"5\n",
    ),
    (
        b"[1,{a:",
        Err(Fault::Refused(Reason::Truncated, 6)),
        b"[1,{",
        b"\xE0\x01\x00\xEA",
    ),
];

#[test]
fn each_call_of_a_device_fails(rt: HostRuntime) {
    for (input, verdict, shown, converted) in ROWS {
        let answer = answer_of(input, *verdict);
        for (to, output) in [
            (To::Text, *shown),
            (To::Other, *converted),
            (To::Nothing, b"".as_slice()),
        ] {
            let row = Row {
                input: *input,
                to,
                answer,
                output,
            };
            fail_each(&rt, rt.alloc(), row);
        }
    }
}

/// The beginning of a stream of 4,096 bytes, the byte that it has between, its end, what is shown of it, and its answer.
type Filled = (&'static [u8], u8, &'static [u8], Verdict, &'static [u8]);

/// Streams that fill a window, of which no value at top level is whole before their end is read.
const FILLED: &[Filled] = &[
    (b"", b' ', b"340", Ok(1), b"340\n"),
    (
        b"\xE0\x01\x00\xEA\x0E\x1F\xF4",
        0,
        b"\xB5\x21\x05\x82a",
        Err(Fault::Refused(Reason::Truncated, 4_094)),
        b"[5",
    ),
];

/// A stream of 4,096 bytes.
fn filled(alloc: Global, begin: &[u8], fill: u8, end: &[u8]) -> Result<Vec<u8>, Fail> {
    let mut input = Vec::from_slice(alloc, begin)?;
    for _ in begin.len().saturating_add(end.len())..4_096 {
        input.push(fill)?;
    }
    input.extend_from_slice(end)?;
    Ok(input)
}

// A failure takes the place of the answer, also where all of the input was read.
#[test]
fn the_last_flush_fails(rt: HostRuntime) -> Result<(), Fail> {
    for (begin, fill, end, verdict, output) in FILLED {
        let input = filled(rt.alloc(), begin, *fill, end)?;
        let row = Row {
            input: input.as_slice(),
            to: To::Text,
            answer: answer_of(input.as_slice(), *verdict),
            output: *output,
        };
        expect_late(&rt, rt.alloc(), row);
        for failing in [Failing::ByErr, Failing::ByTakingNothing] {
            let writes = count_writes(&rt, rt.alloc(), row, usize::MAX, failing);
            same(&rt, writes, output.len());
        }
    }
    Ok(())
}

/// Asserts that nothing of a stream is written before its end is read.
fn expect_late(rt: &impl Abort, alloc: Global, row: Row) {
    let written = Cell::new(0);
    let input = Drip::whole(row.input, &written);
    let output = Narrow::new(alloc, 0, Failing::ByErr, &written);
    let (answer, input, output) = run_on(rt, alloc, LIMITS, row.to, input, output);
    same(rt, answer, row.answer);
    same(rt, (input.calls, input.written_before), (2, 0));
    same(rt, output.taken.as_slice(), row.output);
}

// What was written is a prefix of what the whole values before the fault are shown as.
#[test]
fn an_input_is_cut_off(rt: HostRuntime) {
    let rows = [
        (b"1 2 3".as_slice(), 5, 0, text(3), "1\n2\n3\n"),
        (b"1 2 3".as_slice(), 4, 0, Err(Fault::InputLimit), "1\n2\n"),
        (b"12".as_slice(), 1, 0, Err(Fault::InputLimit), ""),
        (b"12".as_slice(), 2, 2, Err(Fault::ReadFault), ""),
    ];
    for (bytes, most, fails_at, want, whole) in rows {
        let written = Cell::new(0);
        let input = Drip::new(bytes, fails_at, &written);
        let output = Narrow::new(rt.alloc(), 0, Failing::ByErr, &written);
        let limits = Limits {
            input: most,
            ..LIMITS
        };
        let (answer, input, output) = run_on(&rt, rt.alloc(), limits, To::Text, input, output);
        same(&rt, answer, want);
        assert!(rt; whole.as_bytes().starts_with(output.taken.as_slice()));
        let taken = if answer.is_ok() {
            whole.len()
        } else {
            input.written_before
        };
        same(&rt, output.taken.len(), taken);
    }
}
