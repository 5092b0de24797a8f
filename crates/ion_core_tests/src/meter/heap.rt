// Windows that follow one another, in pieces to the output, and a buffer, in a heap of fixed size.
ghost use Rattle.std.specs.Prelude.{◌≡◌};

use super::devices::{has_more, sink_on, source_on};
use super::{LIMITS, counts_of, many_bytes};
use crate::same::{holds, same};
use ion_meter::buf::Buf;
use ion_meter::device::{Input, Output};
use ion_meter::limits::Limits;
use ion_meter::meter::Meter;
use ion_meter::sink::Sink;
use ion_meter::source::Source;
use ion_meter::stream::{FromRead, ToWrite};
use linked_list_allocator::LocalHeap;
use std::alloc::{Allocator, Global};
use std::process::Abort;
use std::test::Fail;

/// Puts pieces of the bytes.
fn put_each<O: Output, A: Allocator + Copy>(rt: &impl Abort, sink: &mut Sink<O, A>, bytes: &[u8]) {
    for piece in bytes.chunks(700) {
        same(rt, sink.put(piece), Ok(()));
    }
}

/// Copies a window's bytes, so many, to the output through the buffer.
fn copy_window<I: Input, O: Output, A: Allocator + Copy>(
    rt: &impl Abort,
    meter: &mut Meter<A>,
    source: &mut Source<I, A>,
    buf: &mut Buf<A>,
    sink: &mut Sink<O, A>,
    length: usize,
) {
    counts_of(rt, meter);
    let lent = source.buffer();
    let count = lent.len();
    same(rt, count, length);
    holds(rt, count <= 4_096);
    holds(rt, buf.extend(meter, lent).is_ok());
    source.consume(count);
    put_each(rt, sink, buf.as_slice());
    holds(rt, buf.as_slice().len() as u64 <= meter.held());
    buf.clear(meter);
}

/// Copies an input of 10,000 bytes to an output, window by window.
fn copy_all<I: Input, O: Output, A: Allocator + Copy>(
    rt: &impl Abort,
    meter: &mut Meter<A>,
    source: &mut Source<I, A>,
    sink: &mut Sink<O, A>,
) {
    let mut buf = Buf::new(meter);
    for length in [4_096, 4_096, 1_808] {
        has_more(rt, source);
        copy_window(rt, meter, source, &mut buf, sink, length);
    }
    same(rt, (source.peek(0), source.place()), (Ok(None), 10_000));
    same(rt, sink.flush(), Ok(()));
    holds(rt, buf.as_slice().is_empty());
    buf.release(meter);
    same(rt, meter.peak(), 12_288);
}

/// Copies one device to the other by windows and a buffer of this allocator, and hands both out. In the end it holds nothing.
fn copy_between<I: Input + Drop, O: Output + Drop, A: Allocator + Copy>(
    rt: &impl Abort,
    inner: A,
    input: I,
    output: O,
) -> (I, O)
    requires reads { I.failure_count input ≡ 0 }
    requires writes { O.failure_count output ≡ 0 }
{
    let mut meter = Meter::new(inner);
    let limits = Limits {
        input: 10_000,
        ..LIMITS
    };
    let mut source = source_on(rt, &mut meter, limits, input);
    let mut sink = sink_on(rt, &mut meter, output);
    copy_all(rt, &mut meter, &mut source, &mut sink);
    holds(rt, meter.held() == 8_192);
    let input = source.release(&mut meter);
    same(rt, meter.held(), 4_096);
    let output = sink.release(&mut meter);
    same(rt, (meter.held(), meter.refused()), (0, 0));
    (input, output)
}

/// Copies these bytes.
fn copy_in<A: Allocator + Copy>(rt: &impl Abort, inner: A, alloc: Global, text: &[u8]) {
    let output = ToWrite::new(Vec::new(alloc));
    let (input, output) = copy_between(rt, inner, FromRead::new(text), output);
    same(rt, input.into_inner().len(), 0);
    same(rt, output.into_inner().as_slice(), text);
}

#[test]
fn a_copy_fits_into_a_heap(rt: HostRuntime) -> Result<(), Fail> {
    let text = many_bytes(rt.alloc(), 10_000)?;
    let heap = LocalHeap::new(rt.alloc(), 65_536)?;
    copy_in(&rt, &heap, rt.alloc(), text.as_slice());
    same(&rt, heap.used(), 0);
    Ok(())
}

/// Grows a buffer by these bytes, 1,000, and then by single ones to 1,500.
fn grow_to_1500<A: Allocator + Copy>(rt: &impl Abort, inner: A, bytes: &[u8]) {
    let mut meter = Meter::new(inner);
    let mut buf = Buf::new(&meter);
    holds(rt, bytes.len() == 1_000);
    holds(rt, buf.extend(&mut meter, bytes).is_ok());
    for _ in 0..500 {
        counts_of(rt, &meter);
        same(rt, buf.push(&mut meter, 7), Ok(()));
    }
    same(rt, (buf.as_slice().len(), meter.held()), (1_500, 1_500));
    holds(rt, buf.as_slice().len() as u64 <= meter.held());
    buf.release(&mut meter);
    same(rt, meter.held(), 0);
}

// At most 1,000 and 2,000 bytes are asked for, and held at once while they are moved.
#[test]
fn a_buffer_grows_in_a_heap_of_4096(rt: HostRuntime) -> Result<(), Fail> {
    let bytes = many_bytes(rt.alloc(), 1_000)?;
    let heap = LocalHeap::new(rt.alloc(), 4_096)?;
    grow_to_1500(&rt, &heap, bytes.as_slice());
    same(&rt, heap.used(), 0);
    Ok(())
}
