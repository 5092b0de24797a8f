//! What stands between quotes in a lane: the names of fields, and symbols as values and as annotations.
ghost use Rattle.std.specs.Prelude.{◌≡◌, ◌≤◌, None, length, IfSome};
ghost use Rattle.ion_text_in.specs.Feeding.{lane, BeginsAs, CanFeed, IsNext, IsStart, Turns};
ghost use Rattle.ion_text_in.specs.Token.{a_quoted};

use super::any::{Turned, any_value, rare};
use super::copies::{bounds_for_call, spot_for_call, start_for_call};
use super::forward::forward;
use super::heads::quoted_head;
use super::names::quoted_start;
use super::noted::quoted_noted;
use super::spot::{Bounds, Next, Spot, Start, place_after, to_member};
use ion_meter::device::Output;
use ion_meter::meter::Meter;
use ion_meter::sink::Sink;
use ion_meter::stack::Stack;
use ion_value::ion_type::Kind;
use ion_value::writer::ValueWriter;
use std::alloc::Allocator;

/// Hands on one member whose name stands between quotes, after the comma that must come before it, and says
/// whether it did.
#[inline(never)]
pub(super) fn quoted_turn<'a, W: ValueWriter<O, A>, O: Output, A: Allocator + Copy>(
    at: &mut Spot<'a>,
    bounds: Bounds,
    kinds: &mut Stack<Kind, A>,
    meter: &mut Meter<A>,
    writer: &mut W,
    sink: &mut Sink<O, A>,
) -> bool
    requires { CanFeed W.ValueWriter bounds
        (lane kinds.old at.old writer.old sink.old meter.old) }
    ensures { Turns W.ValueWriter bounds result
        (lane kinds.old at.old writer.old sink.old meter.old)
        (lane kinds.new at.new writer.new sink.new meter.new) }
{
    let next = to_member(at);
    match to_quoted(*at, next, bounds) {
        Some(start) => rare(at, start, bounds, kinds, meter, writer, sink),
        None => false,
    }
}

// What the value begins with after the name between quotes that stands here, where a name must come.
#[inline(always)]
fn to_quoted<'a>(spot: Spot<'a>, next: Next<'a>, bounds: Bounds) -> Option<Start<'a>>
    requires next { IsNext spot.rest.now next }
    requires within { length spot.rest.now ≤ bounds.end }
    ensures { IfSome result (IsStart bounds spot.entry) }
{
    if spot.separator || next.rest.is_empty() {
        return None;
    }
    match spot.kind {
        Kind::Struct => quoted_start(next, bounds.limits, place_after(bounds, spot, next)),
        Kind::List | Kind::Sexp => None,
    }
}

/// Hands on the symbol in quotes that stands here, or the value after it where it is an annotation,
/// by a call, over a copy of where the lane stands.
#[inline(always)]
pub(super) fn quoted_value<'a, W: ValueWriter<O, A>, O: Output, A: Allocator + Copy>(
    at: &mut Spot<'a>,
    start: Start<'a>,
    bounds: Bounds,
    kinds: &mut Stack<Kind, A>,
    meter: &mut Meter<A>,
    writer: &mut W,
    sink: &mut Sink<O, A>,
) -> bool
    requires can { CanFeed W.ValueWriter bounds
        (lane kinds.old at.old writer.old sink.old meter.old) }
    requires start { IsStart bounds at.old start }
    requires bare { start.note ≡ None }
    requires begins { BeginsAs a_quoted start.next.rest.now }
    ensures { Turns W.ValueWriter bounds result
        (lane kinds.old at.old writer.old sink.old meter.old)
        (lane kinds.new at.new writer.new sink.new meter.new) }
{
    let turned = any_quoted(
        spot_for_call(*at),
        start_for_call(start),
        bounds_for_call(bounds),
        kinds,
        meter,
        writer,
        sink,
    );
    *at = spot_for_call(turned.spot);
    turned.more
}

// Hands on a symbol in quotes, or the value after it where it is an annotation, from a copy of the
// spot.
#[inline(never)]
fn any_quoted<'a, W: ValueWriter<O, A>, O: Output, A: Allocator + Copy>(
    spot: Spot<'a>,
    start: Start<'a>,
    bounds: Bounds,
    kinds: &mut Stack<Kind, A>,
    meter: &mut Meter<A>,
    writer: &mut W,
    sink: &mut Sink<O, A>,
) -> Turned<'a>
    requires can { CanFeed W.ValueWriter bounds
        (lane kinds.old spot writer.old sink.old meter.old) }
    requires start { IsStart bounds spot start }
    requires bare { start.note ≡ None }
    requires begins { BeginsAs a_quoted start.next.rest.now }
    ensures { Turns W.ValueWriter bounds result.more
        (lane kinds.old spot.entry writer.old sink.old meter.old)
        (lane kinds.new result.spot writer.new sink.new meter.new) }
{
    let place = bounds.end - start.next.rest.len() as u64;
    if let Some(found) = quoted_head(bounds.limits, place, start.next.rest) {
        let mut at = spot;
        let more = forward(&mut at, start, found, bounds, kinds, meter, writer, sink);
        return Turned { spot: at, more };
    }
    match quoted_noted(start, bounds.limits, bounds.limits.scalar, place) {
        Some(start) => any_value(spot, start, bounds, kinds, meter, writer, sink),
        None => Turned { spot, more: false },
    }
}
