//! Ends of containers in a lane.
ghost use Rattle.std.specs.Prelude.{◌≡◌, ◌<◌};
ghost use Rattle.ion_text_in.specs.Feeding.{lane, CanFeed, IsNext, Turns};
ghost use Rattle.ion_text_in.specs.Firsts.{numbered};
ghost use Rattle.ion_text_in.specs.Token.{an_end};

use super::spot::{Bounds, Next, Spot, innermost, pass_value};
use crate::expected::{is_same, member_kind};
use crate::slice::after;
use ion_meter::device::Output;
use ion_meter::meter::Meter;
use ion_meter::sink::Sink;
use ion_meter::stack::Stack;
use ion_value::ion_type::Kind;
use ion_value::item::Head;
use ion_value::plain_item::PlainItem;
use ion_value::writer::ValueWriter;
use std::alloc::Allocator;

/// Hands on the end of the innermost container, and says whether it did.
#[inline(always)]
pub(super) fn close<'a, W: ValueWriter<O, A>, O: Output, A: Allocator + Copy>(
    at: &mut Spot<'a>,
    next: Next<'a>,
    kind: Kind,
    bounds: Bounds,
    kinds: &mut Stack<Kind, A>,
    meter: &mut Meter<A>,
    writer: &mut W,
    sink: &mut Sink<O, A>,
) -> bool
    requires can { CanFeed W.ValueWriter bounds
        (lane kinds.old at.old writer.old sink.old meter.old) }
    requires next { IsNext at.old.rest.now next }
    requires told { (0 < next.told) × (numbered next.told ≡ an_end kind) }
    ensures { Turns W.ValueWriter bounds result
        (lane kinds.old at.old writer.old sink.old meter.old)
        (lane kinds.new at.new writer.new sink.new meter.new) }
{
    let Some(inner) = innermost(kinds) else {
        return false;
    };
    if !is_same(inner, kind) {
        return false;
    }
    let item = PlainItem {
        field: None,
        annotation: None,
        second: None,
        head: Head::End,
        spelled: None,
        place: bounds.end - next.rest.len() as u64,
        top: at.top,
    };
    if !writer.take_plain(meter, sink, item) {
        return false;
    }
    let _closed = kinds.pop(meter);
    let outer = innermost(kinds);
    at.kind = member_kind(outer);
    pass_value(at, after(1, next.rest), at.top, outer);
    true
}
