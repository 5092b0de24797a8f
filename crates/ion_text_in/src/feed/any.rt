//! Values of any kind in a lane, after two annotations at most.
ghost use Rattle.ion_text_in.specs.Feeding.{lane, BeginsAs, CanFeed, IsStart, Turns};
ghost use Rattle.ion_text_in.specs.Token.{a_run};

use super::copies::{bounds_for_call, spot_for_call, start_for_call};
use super::forward::{forward, forward_any};
use super::heads::{run_head, scan_head};
use super::noted::with_second;
use super::spot::{Bounds, Spot, Start};
use ion_meter::device::Output;
use ion_meter::meter::Meter;
use ion_meter::sink::Sink;
use ion_meter::stack::Stack;
use ion_value::ion_type::Kind;
use ion_value::writer::ValueWriter;
use std::alloc::Allocator;

/// Where the lane stands after a turn, and whether it goes on.
#[derive(Clone, Copy)]
pub(super) struct Turned<'a> {
    pub(super) spot: Spot<'a>,
    pub(super) more: bool,
}

/// Hands on the value that begins here, whatever it is, after its field's name and its annotation.
/// A second annotation may stand here first.
#[inline(never)]
pub(super) fn any_value<'a, W: ValueWriter<O, A>, O: Output, A: Allocator + Copy>(
    spot: Spot<'a>,
    start: Start<'a>,
    bounds: Bounds,
    kinds: &mut Stack<Kind, A>,
    meter: &mut Meter<A>,
    writer: &mut W,
    sink: &mut Sink<O, A>,
) -> Turned<'a>
    requires can { CanFeed W.ValueWriter bounds
        (lane kinds.old spot writer.old sink.old meter.old) }
    requires start { IsStart bounds spot start }
    ensures { Turns W.ValueWriter bounds result.more
        (lane kinds.old spot.entry writer.old sink.old meter.old)
        (lane kinds.new result.spot writer.new sink.new meter.new) }
{
    let further = with_second(start, bounds);
    let next = further.start.next;
    let Some(found) = scan_head(bounds.limits, bounds.end - next.rest.len() as u64, next) else {
        return Turned { spot, more: false };
    };
    let mut at = spot;
    let more = forward_any(&mut at, further, found, bounds, kinds, meter, writer, sink);
    Turned { spot: at, more }
}

// Hands on the number or timestamp that begins here, after its field's name.
#[inline(never)]
fn any_number<'a, W: ValueWriter<O, A>, O: Output, A: Allocator + Copy>(
    spot: Spot<'a>,
    start: Start<'a>,
    bounds: Bounds,
    kinds: &mut Stack<Kind, A>,
    meter: &mut Meter<A>,
    writer: &mut W,
    sink: &mut Sink<O, A>,
) -> Turned<'a>
    requires can { CanFeed W.ValueWriter bounds
        (lane kinds.old spot writer.old sink.old meter.old) }
    requires start { IsStart bounds spot start }
    requires begins { BeginsAs a_run start.next.rest.now }
    ensures { Turns W.ValueWriter bounds result.more
        (lane kinds.old spot.entry writer.old sink.old meter.old)
        (lane kinds.new result.spot writer.new sink.new meter.new) }
{
    let place = bounds.end - start.next.rest.len() as u64;
    let Some(found) = run_head(bounds.limits, place, start.next.rest) else {
        return Turned { spot, more: false };
    };
    let mut at = spot;
    let more = forward(&mut at, start, found, bounds, kinds, meter, writer, sink);
    Turned { spot: at, more }
}

/// Hands on a value of a rare kind: it is a call, over a copy of where the lane stands.
#[inline(always)]
pub(super) fn rare<'a, W: ValueWriter<O, A>, O: Output, A: Allocator + Copy>(
    at: &mut Spot<'a>,
    start: Start<'a>,
    bounds: Bounds,
    kinds: &mut Stack<Kind, A>,
    meter: &mut Meter<A>,
    writer: &mut W,
    sink: &mut Sink<O, A>,
) -> bool
    requires can { CanFeed W.ValueWriter bounds
        (lane kinds.old at.old writer.old sink.old meter.old) }
    requires start { IsStart bounds at.old start }
    ensures { Turns W.ValueWriter bounds result
        (lane kinds.old at.old writer.old sink.old meter.old)
        (lane kinds.new at.new writer.new sink.new meter.new) }
{
    let turned = any_value(
        spot_for_call(*at),
        start_for_call(start),
        bounds_for_call(bounds),
        kinds,
        meter,
        writer,
        sink,
    );
    *at = spot_for_call(turned.spot);
    turned.more
}

/// Hands on a number that is no short int or decimal, as `rare` does a value of a rare kind.
#[inline(always)]
pub(super) fn rare_number<'a, W: ValueWriter<O, A>, O: Output, A: Allocator + Copy>(
    at: &mut Spot<'a>,
    start: Start<'a>,
    bounds: Bounds,
    kinds: &mut Stack<Kind, A>,
    meter: &mut Meter<A>,
    writer: &mut W,
    sink: &mut Sink<O, A>,
) -> bool
    requires can { CanFeed W.ValueWriter bounds
        (lane kinds.old at.old writer.old sink.old meter.old) }
    requires start { IsStart bounds at.old start }
    requires begins { BeginsAs a_run start.next.rest.now }
    ensures { Turns W.ValueWriter bounds result
        (lane kinds.old at.old writer.old sink.old meter.old)
        (lane kinds.new at.new writer.new sink.new meter.new) }
{
    let turned = any_number(
        spot_for_call(*at),
        start_for_call(start),
        bounds_for_call(bounds),
        kinds,
        meter,
        writer,
        sink,
    );
    *at = spot_for_call(turned.spot);
    turned.more
}
