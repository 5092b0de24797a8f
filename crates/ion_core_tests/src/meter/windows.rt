// Windows over an allocator that refuses them at first.
ghost use Rattle.std.specs.Prelude.{◌≡◌};

use super::devices::{Call, make, sink_on, source_on};
use super::{LIMITS, counts_of, is_refused};
use crate::same::{holds, same};
use ion_meter::device::{Input, Output};
use ion_meter::meter::Meter;
use ion_meter::sink::Sink;
use ion_meter::source::Source;
use ion_meter::stream::{FromRead, ToWrite};
use ion_test_support::refusing::Refusing;
use std::alloc::Allocator;
use std::process::Abort;

/// Reads by a window on an input, which is handed back where the window is refused.
fn read_byte<I: Input + Drop, A: Allocator + Copy>(rt: &impl Abort, inner: A, device: I)
    requires failures { I.failure_count device ≡ 0 }
{
    let mut meter = Meter::new(inner);
    let before = counts_of(rt, &meter);
    holds(rt, LIMITS.check());
    let made = Source::new(&mut meter, LIMITS, device);
    let device = made.err().expect(rt, "a refusal");
    is_refused(rt, &meter, before);
    let mut source = source_on(rt, &mut meter, LIMITS, device);
    same(rt, (meter.held(), source.peek(0)), (4096, Ok(Some(b'a'))));
    source.release(&mut meter);
    same(rt, (meter.held(), meter.refused()), (0, 1));
}

/// Puts bytes by a window on an output, which is handed back where the window is refused, and then handed out.
fn put_bytes<O: Output + Drop, A: Allocator + Copy>(rt: &impl Abort, inner: A, device: O) -> O
    requires failures { O.failure_count device ≡ 0 }
{
    let mut meter = Meter::new(inner);
    let before = counts_of(rt, &meter);
    let device = Sink::new(&mut meter, device).err().expect(rt, "a refusal");
    is_refused(rt, &meter, before);
    let mut sink = sink_on(rt, &mut meter, device);
    make(rt, &mut sink, Call::Put(b"ab", Ok(())));
    make(rt, &mut sink, Call::Flush(Ok(())));
    same(rt, meter.held(), 4096);
    let device = sink.release(&mut meter);
    same(rt, (meter.held(), meter.refused()), (0, 1));
    device
}

#[test]
fn what_is_refused_is_handed_back(rt: HostRuntime) {
    let refusing = Refusing::new(rt.alloc(), 1);
    read_byte(&rt, &refusing, FromRead::new(b"ab".as_slice()));
    refusing.refuse(1, false);
    let output = ToWrite::new(Vec::new(rt.alloc()));
    let output = put_bytes(&rt, &refusing, output);
    same(&rt, output.into_inner().as_slice(), b"ab".as_slice());
}
