// Windows over devices that move one byte a call, and fail at one of their calls.
ghost use Rattle.std.specs.Prelude.{◌≡◌, ◌≤◌};

use super::{LIMITS, counts_of, many_bytes};
use crate::same::{holds, same};
use ion_meter::device::{Broken, Input, Output};
use ion_meter::fault::Fault;
use ion_meter::limits::Limits;
use ion_meter::meter::Meter;
use ion_meter::sink::Sink;
use ion_meter::source::Source;
use ion_meter::stream::{FromRead, ToWrite};
use std::alloc::{Allocator, Global};
use std::process::Abort;
use std::test::Fail;

const TEXT: &[u8] = b"0123456789";

/// An input that gives one byte a call, and fails at one call.
#[derive(Drop)]
struct Drip {
    text: &'static [u8],
    calls: usize,
    fails_at: usize,
    failures: u64,
}

impl Drip {
    /// It fails at this call, counted from 1 on, and at none where this is 0.
    fn new(text: &'static [u8], fails_at: usize) -> Drip
        ensures { result.failures ≡ 0 }
    {
        Drip {
            text,
            calls: 0,
            fails_at,
            failures: 0,
        }
    }
}

impl Input for Drip {
    ghost rest = { λ d. d.text.now };

    ghost failure_count = { λ d. d.failures };

    ghost observable = { λ _. Unit {0} };

    ghost yields = { λ _ _ _. Unit {0} };

    #[tactic(auto, using(ion_meter::proofs::Written::one_given))]
    fn read(&mut self, into: &mut [u8]) -> Result<usize, Broken> {
        self.calls = self.calls.saturating_add(1);
        if self.calls == self.fails_at {
            self.failures += 1;
            return Err(Broken);
        }
        if into.is_empty() || self.text.is_empty() {
            return Ok(0);
        }
        into[0] = self.text[0];
        self.text = &self.text[1..];
        Ok(1)
    }

    fn failures(&self) -> u64 {
        self.failures
    }
}

/// How an output fails.
#[derive(Clone, Copy)]
enum Failing {
    ByErr,
    ByTakingNothing,
}

/// An output that takes one byte a call, and fails at one call.
#[derive(Drop)]
struct Narrow {
    taken: Vec<u8>,
    calls: usize,
    fails_at: usize,
    failing: Failing,
    failures: u64,
}

impl Narrow {
    /// It fails at this call, counted from 1 on, and at none where this is 0.
    fn new(alloc: Global, fails_at: usize, failing: Failing) -> Narrow
        ensures { result.failures ≡ 0 }
    {
        Narrow {
            taken: Vec::new(alloc),
            calls: 0,
            fails_at,
            failing,
            failures: 0,
        }
    }
}

impl Output for Narrow {
    ghost written = { λ d. d.taken.items };

    ghost failure_count = { λ d. d.failures };

    ghost observable = { λ _. Unit {0} };

    fn write(&mut self, bytes: &[u8]) -> Result<usize, Broken> {
        if bytes.is_empty() {
            return Ok(0);
        }
        self.calls = self.calls.saturating_add(1);
        if self.calls == self.fails_at {
            self.failures += 1;
            return match self.failing {
                Failing::ByErr => Err(Broken),
                Failing::ByTakingNothing => Ok(0),
            };
        }
        if self.taken.push(bytes[0]).is_err() {
            self.failures += 1;
            return Err(Broken);
        }
        Ok(1)
    }

    fn failures(&self) -> u64 {
        self.failures
    }
}

/// A window on this input.
pub fn source_on<I: Input + Drop, A: Allocator + Copy>(
    rt: &impl Abort,
    meter: &mut Meter<A>,
    limits: Limits,
    device: I,
) -> Source<I, A>
    requires failures { I.failure_count device ≡ 0 }
    ensures { 4096 ≤ meter.new.held }
{
    counts_of(rt, meter);
    holds(rt, limits.check());
    Source::new(meter, limits, device).ok().expect(rt, "memory")
}

/// A window on this output.
pub fn sink_on<O: Output + Drop, A: Allocator + Copy>(
    rt: &impl Abort,
    meter: &mut Meter<A>,
    device: O,
) -> Sink<O, A>
    requires failures { O.failure_count device ≡ 0 }
    ensures { 4096 ≤ meter.new.held }
{
    counts_of(rt, meter);
    Sink::new(meter, device).ok().expect(rt, "memory")
}

/// Passes over the next byte, which has to be this one.
fn pass<I: Input, A: Allocator + Copy>(rt: &impl Abort, source: &mut Source<I, A>, byte: u8) {
    let peeked = source.peek(0).expect(rt, "an input");
    same(rt, peeked.expect(rt, "an input that has not ended"), byte);
    source.advance();
}

/// What is asked of a window on an input, and what it answers.
#[derive(Clone, Copy)]
enum Ask<'a> {
    /// The byte so far ahead.
    Peek(usize, Result<Option<u8>, Fault>),
    /// What the window lends.
    Lent(&'a [u8]),
    /// Passes over this byte.
    Pass(u8),
    /// How many bytes were passed over.
    Place(u64),
}

/// Asserts what a window on an input answers.
fn answers<I: Input, A: Allocator + Copy>(rt: &impl Abort, source: &mut Source<I, A>, ask: Ask) {
    match ask {
        Ask::Peek(ahead, want) => {
            holds(rt, ahead < 16);
            same(rt, source.peek(ahead), want);
        }
        Ask::Lent(bytes) => same(rt, source.buffer(), bytes),
        Ask::Pass(byte) => pass(rt, source, byte),
        Ask::Place(place) => same(rt, source.place(), place),
    }
}

/// Passes over these bytes of an input of at most so many, and asks. The input is handed out.
fn read_on<I: Input + Drop>(
    rt: &impl Abort,
    alloc: Global,
    input: u64,
    device: I,
    passed: &[u8],
    asks: &[Ask],
) -> I
    requires failures { I.failure_count device ≡ 0 }
{
    let mut meter = Meter::new(alloc);
    let limits = Limits { input, ..LIMITS };
    let mut source = source_on(rt, &mut meter, limits, device);
    for byte in passed {
        pass(rt, &mut source, *byte);
    }
    for ask in asks {
        answers(rt, &mut source, *ask);
    }
    source.release(&mut meter)
}

/// Reads the text by a device of which each call gives one byte and one call fails. In the end
/// there were so many calls and failures.
fn read_drip(
    rt: &impl Abort,
    alloc: Global,
    fails_at: usize,
    passed: &[u8],
    asks: &[Ask],
    calls: usize,
    failures: u64,
) {
    let device = read_on(rt, alloc, 100, Drip::new(TEXT, fails_at), passed, asks);
    same(rt, device.calls, calls);
    same(rt, device.failures(), failures);
}

const READ_FAULTS: &[Ask] = &[
    Ask::Peek(0, Err(Fault::ReadFault)),
    Ask::Lent(b""),
    Ask::Peek(1, Err(Fault::ReadFault)),
    Ask::Lent(b""),
    Ask::Peek(2, Err(Fault::ReadFault)),
    Ask::Lent(b""),
];

#[test]
fn a_read_that_fails_is_answered_from_then_on(rt: HostRuntime) {
    for before in 0..=TEXT.len() {
        let fails_at = before + 1;
        read_drip(
            &rt,
            rt.alloc(),
            fails_at,
            &TEXT[..before],
            READ_FAULTS,
            fails_at,
            1,
        );
    }
}

const END_AT_10: &[Ask] = &[
    Ask::Place(10),
    Ask::Peek(0, Ok(None)),
    Ask::Peek(0, Ok(None)),
];

const AHEAD: &[Ask] = &[
    Ask::Peek(3, Ok(Some(b'3'))),
    Ask::Lent(b"0123"),
    Ask::Peek(1, Ok(Some(b'1'))),
    Ask::Pass(b'0'),
    Ask::Peek(3, Ok(Some(b'4'))),
    Ask::Lent(b"1234"),
    Ask::Peek(15, Ok(None)),
    Ask::Peek(8, Ok(Some(b'9'))),
    Ask::Peek(9, Ok(None)),
];

#[test]
fn a_reader_that_never_fails_is_read_to_its_end_and_no_further_than_needed(rt: HostRuntime) {
    read_drip(&rt, rt.alloc(), 12, TEXT, END_AT_10, 11, 0);
    read_drip(&rt, rt.alloc(), 0, b"", AHEAD, 11, 0);
}

const END: &[Ask] = &[Ask::Peek(0, Ok(None)), Ask::Peek(0, Ok(None))];

const PAST: &[Ask] = &[
    Ask::Peek(0, Ok(Some(b'a'))),
    Ask::Lent(b"ab"),
    Ask::Pass(b'a'),
    Ask::Pass(b'b'),
    Ask::Lent(b""),
    Ask::Peek(0, Err(Fault::InputLimit)),
    Ask::Peek(0, Err(Fault::InputLimit)),
];

#[test]
fn an_input_may_be_as_long_as_its_limit_and_no_longer(rt: HostRuntime) {
    for (input, passed, asks) in [(3, b"abc".as_slice(), END), (2, b"".as_slice(), PAST)] {
        let text = FromRead::new(b"abc".as_slice());
        let device = read_on(&rt, rt.alloc(), input, text, passed, asks);
        same(&rt, device.failures(), 0);
    }
}

/// Asserts that the input has not ended.
pub fn has_more<I: Input, A: Allocator + Copy>(rt: &impl Abort, source: &mut Source<I, A>) {
    holds(rt, matches!(source.peek(0), Ok(Some(_))));
}

/// A call on a window on an output, and what it answers.
#[derive(Clone, Copy)]
pub enum Call<'a> {
    Put(&'a [u8], Result<(), Fault>),
    Flush(Result<(), Fault>),
    /// Puts a byte and then these, for which the window has room. After them it has room for so many.
    Within(&'a [u8], usize),
}

/// Asserts what a window on an output answers.
pub fn make<O: Output, A: Allocator + Copy>(rt: &impl Abort, sink: &mut Sink<O, A>, call: Call) {
    match call {
        Call::Put(bytes, want) => same(rt, sink.put(bytes), want),
        Call::Flush(want) => same(rt, sink.flush(), want),
        Call::Within(bytes, room) => {
            holds(rt, bytes.len() < sink.room());
            sink.put_byte(b'>');
            sink.put_within(bytes);
            same(rt, sink.room(), room);
        }
    }
}

/// Makes the calls on a window on this output. The output is handed out.
fn write_on<O: Output + Drop>(rt: &impl Abort, alloc: Global, device: O, calls: &[Call]) -> O
    requires failures { O.failure_count device ≡ 0 }
{
    let mut meter = Meter::new(alloc);
    let mut sink = sink_on(rt, &mut meter, device);
    for call in calls {
        make(rt, &mut sink, *call);
    }
    sink.release(&mut meter)
}

const ROOM: &[Call] = &[
    Call::Within(b"ab", 4_093),
    Call::Within(b"", 4_092),
    Call::Put(b"c", Ok(())),
    Call::Flush(Ok(())),
    Call::Within(b"d", 4_094),
    Call::Flush(Ok(())),
];

#[test]
fn bytes_are_put_where_the_window_has_room(rt: HostRuntime) {
    let device = write_on(&rt, rt.alloc(), ToWrite::new(Vec::new(rt.alloc())), ROOM);
    same(&rt, device.into_inner().as_slice(), b">ab>c>d".as_slice());
}

/// Asserts what such an output has taken, and its calls and failures.
fn has_taken(rt: &impl Abort, device: Narrow, taken: &[u8], calls: usize, failures: u64) {
    same(rt, device.taken.as_slice(), taken);
    same(rt, device.calls, calls);
    same(rt, device.failures(), failures);
}

const WRITE_FAULT: Result<(), Fault> = Err(Fault::WriteFault);

/// Puts the text and flushes it, where the output fails after fewer bytes, then puts and flushes more.
const WRITE_FAULTS: &[Call] = &[
    Call::Put(TEXT, Ok(())),
    Call::Flush(WRITE_FAULT),
    Call::Put(b"a", WRITE_FAULT),
    Call::Put(b"", WRITE_FAULT),
    Call::Flush(WRITE_FAULT),
    Call::Put(b"a", WRITE_FAULT),
    Call::Put(b"", WRITE_FAULT),
];

#[test]
fn a_write_that_fails_is_answered_from_then_on(rt: HostRuntime) {
    for before in 0..TEXT.len() {
        for failing in [Failing::ByErr, Failing::ByTakingNothing] {
            let output = Narrow::new(rt.alloc(), before + 1, failing);
            let device = write_on(&rt, rt.alloc(), output, WRITE_FAULTS);
            has_taken(&rt, device, &TEXT[..before], before + 1, 1);
        }
    }
}

const ALL: &[Call] = &[
    Call::Put(TEXT, Ok(())),
    Call::Flush(Ok(())),
    Call::Flush(Ok(())),
];

#[test]
fn a_writer_that_never_fails_gets_all(rt: HostRuntime) {
    let output = Narrow::new(rt.alloc(), 11, Failing::ByErr);
    let device = write_on(&rt, rt.alloc(), output, ALL);
    has_taken(&rt, device, TEXT, 10, 0);
}

#[test]
fn a_put_into_a_full_window_may_fail(rt: HostRuntime) -> Result<(), Fail> {
    let bytes = many_bytes(rt.alloc(), 4_097)?;
    let calls = [
        Call::Put(bytes.as_slice(), WRITE_FAULT),
        Call::Put(b"a", WRITE_FAULT),
        Call::Flush(WRITE_FAULT),
    ];
    let output = Narrow::new(rt.alloc(), 3, Failing::ByErr);
    let device = write_on(&rt, rt.alloc(), output, &calls);
    has_taken(&rt, device, &[0, 1], 3, 1);
    Ok(())
}
