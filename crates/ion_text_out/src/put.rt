//! Bytes that are put in parts.
ghost use Rattle.std.specs.Prelude.{◌≡◌, ◌+◌, ◌*◌, ◌≤◌, ◌++◌, ◌∷◌, [], None, length, replicate};
ghost use Rattle.ion_meter.specs.Sinks.{IsPut};
ghost use Rattle.ion_text_out.specs.Layout.{new_line};
ghost use Rattle.ion_text_out.specs.Steps.{PutsUnlessFailed};
ghost use Rattle.ion_text_out.specs.Writing.{byte_in, gap_text};

use crate::layout::{Gap, LEVELS};
use ion_meter::device::Output;
use ion_meter::fault::Fault;
use ion_meter::sink::Sink;
use std::alloc::Allocator;

/// Puts these bytes.
#[inline(always)]
pub fn put<O: Output, A: Allocator + Copy>(sink: &mut Sink<O, A>, bytes: &[u8]) -> Result<(), Fault>
    requires well { sink.old.fault ≡ None }
    ensures { IsPut O.Output sink.old sink.new result bytes.now }
{
    sink.put(bytes)
}

/// Puts a mark of one byte, or none. As its length is told apart here, no call copies it.
#[inline(always)]
pub fn put_mark<O: Output, A: Allocator + Copy>(
    sink: &mut Sink<O, A>,
    mark: &[u8],
) -> Result<(), Fault>
    ensures { PutsUnlessFailed O.Output sink.old sink.new result mark.now }
{
    match mark {
        [] => sink.put(b""),
        [byte] => sink.put(&[*byte]),
        _ => sink.put(mark),
    }
}

/// Two blanks for each of so many containers.
static BLANKS: [u8; 256] = [b' '; 256];

/// Puts a new line with so many containers open.
#[inline(never)]
fn put_line<O: Output, A: Allocator + Copy>(
    sink: &mut Sink<O, A>,
    depth: usize,
) -> Result<(), Fault>
    requires well { sink.old.fault ≡ None }
    ensures { IsPut O.Output sink.old sink.new result (new_line depth) }
{
    if let Err(fault) = put(sink, b"\n") {
        return Err(fault);
    }
    put_blanks(sink, depth)
}

// Puts two blanks for each of so many containers.
fn put_blanks<O: Output, A: Allocator + Copy>(
    sink: &mut Sink<O, A>,
    depth: usize,
) -> Result<(), Fault>
    requires well { sink.old.fault ≡ None }
    ensures { IsPut O.Output sink.old sink.new result (replicate (2 * depth) 32) }
{
    let mut left = depth;
    'levels: while left > LEVELS {
        if let Err(fault) = put(sink, &BLANKS) {
            return Err(fault);
        }
        left -= LEVELS;
    }
    put(sink, &BLANKS[..2 * left])
}

// Puts a byte, or nothing. Where the sink had failed before, its fault is passed on.
#[inline(always)]
fn put_byte_in<O: Output, A: Allocator + Copy>(
    sink: &mut Sink<O, A>,
    mark: Option<u8>,
) -> Result<(), Fault>
    ensures { PutsUnlessFailed O.Output sink.old sink.new result (byte_in mark) }
{
    match mark {
        Some(byte) => sink.put(&[byte]),
        None => sink.put(b""),
    }
}

/// Puts what stands between two parts. Where the sink had failed before, its fault is passed on.
#[inline(always)]
pub fn put_gap<O: Output, A: Allocator + Copy>(sink: &mut Sink<O, A>, gap: Gap) -> Result<(), Fault>
    ensures { PutsUnlessFailed O.Output sink.old sink.new result (gap_text gap) }
{
    if let Err(fault) = put_byte_in(sink, gap.mark) {
        return Err(fault);
    }
    match gap.line {
        Some(depth) => put_line(sink, depth),
        None => Ok(()),
    }
}

/// Puts what stands between two parts, for which the window has room, and whose blanks are one copy.
/// Its mark and the end of the line are one copy too.
#[inline(always)]
pub fn put_gap_within<O: Output, A: Allocator + Copy>(sink: &mut Sink<O, A>, gap: Gap)
    requires room { length sink.old.pending + length (gap_text gap) ≤ 4096 }
    requires short { length (gap_text gap) ≤ 258 }
    ensures { sink.new ≡ record sink.old { pending = sink.old.pending ++ gap_text gap } }
{
    match gap.line {
        None => put_byte_within(sink, gap.mark),
        Some(depth) => {
            put_line_within(sink, gap.mark);
            sink.put_within(&BLANKS[..2 * depth]);
        }
    }
}

// Puts a byte, for which the window has room, or nothing.
#[inline(always)]
fn put_byte_within<O: Output, A: Allocator + Copy>(sink: &mut Sink<O, A>, mark: Option<u8>)
    requires { length sink.old.pending + length (byte_in mark) ≤ 4096 }
    ensures { sink.new ≡ record sink.old { pending = sink.old.pending ++ byte_in mark } }
{
    if let Some(byte) = mark {
        sink.put_byte(byte);
    }
}

// Puts a byte or nothing, and the end of a line, for which the window has room.
#[inline(always)]
fn put_line_within<O: Output, A: Allocator + Copy>(sink: &mut Sink<O, A>, mark: Option<u8>)
    requires { length sink.old.pending + length (byte_in mark) + 1 ≤ 4096 }
    ensures { sink.new ≡ record sink.old {
      pending = sink.old.pending ++ (byte_in mark ++ 10 ∷ []);
    } }
{
    match mark {
        Some(byte) => sink.put_within(&[byte, b'\n']),
        None => sink.put_byte(b'\n'),
    }
}
