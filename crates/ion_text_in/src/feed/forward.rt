//! Items that go from a lane to the writer.
ghost use Rattle.std.specs.Prelude.{◌≡◌, ◌+◌, ◌*◌, ◌-◌, ◌^◌, ◌<◌, ◌≤◌, ℕ, List, Option, None, Some, true, false, length, IfSome};
ghost use Rattle.ion_meter.specs.Counts.{Shrinks};
ghost use Rattle.ion_value.specs.declared.ion_type.Kind as kind_of;
ghost use Rattle.ion_value.specs.Items.{raw_head};
ghost use Rattle.ion_value.specs.PlainItems.{IsTextOf, IsWrittenAs};
ghost use Rattle.ion_value.specs.Value.{Head as ReadHead, SymbolAt};
ghost use Rattle.ion_text_in.specs.Feeding.{begun, begun_cost, lane, passed, place_in, with_begun, CanFeed, IsFound, IsFoundBy, IsFoundRead, IsStart, IsStartBy, IsStartRead, Opens, Turns, TurnsBy};
ghost use Rattle.ion_text_in.specs.Positions.{innermost};

use super::spot::{Bounds, Found, Further, Spot, Start, innermost, pass_value, top_at};
use ion_meter::device::Output;
use ion_meter::meter::Meter;
use ion_meter::sink::Sink;
use ion_meter::stack::Stack;
use ion_value::ion_type::Kind;
use ion_value::item::Head;
use ion_value::plain_item::PlainItem;
use ion_value::quoting::{NameText, bare};
use ion_value::writer::ValueWriter;
use std::alloc::Allocator;

// The kind of container that a head begins, if it does.
#[inline(always)]
fn begun(head: Head<'_>) -> Option<Kind>
    ensures { result ≡ begun (raw_head head.entry) }
{
    match head {
        Head::Begin(kind) => Some(kind),
        _ => None,
    }
}

// Opens a container that begins, and says whether one may: where none begins there is nothing to do.
#[inline(always)]
fn open_begun<A: Allocator + Copy>(
    begun: Option<Kind>,
    depth: u32,
    kinds: &mut Stack<Kind, A>,
    meter: &mut Meter<A>,
) -> bool
    requires room { meter.old.held + 16 < 2 ^ 63 }
    requires few { length kinds.old ≤ depth }
    ensures opens { result ≡ true
        → Opens depth begun kinds.old kinds.new meter.old meter.new }
    ensures declines { result ≡ false → (kinds.new ≡ kinds.old) × (meter.new ≡ meter.old) }
{
    let Some(kind) = begun else {
        return true;
    };
    if u64::from(depth) <= kinds.as_slice().len() as u64 {
        return false;
    }
    kinds.push_within(meter, kind)
}

// Takes the container off again that was opened last, if one was.
#[inline(always)]
fn close_begun<A: Allocator + Copy>(
    begun: Option<Kind>,
    kinds: &mut Stack<Kind, A>,
    meter: &mut Meter<A>,
)
    requires { 16 * length kinds.old ≤ meter.old.held }
    ensures { (before : List kind_of.Kind) → kinds.old ≡ with_begun before begun
        → (kinds.new ≡ before) × Shrinks meter.old meter.new (begun_cost begun) }
{
    match begun {
        Some(_) => {
            let _opened = kinds.pop(meter);
        }
        None => {}
    }
}

// After an item: at the first member of the container that it begins, or after its value.
#[inline(always)]
fn pass_item<'a>(
    at: &mut Spot<'a>,
    found: Found<'a>,
    top: u64,
    inner: Option<Kind>,
    begun: Option<Kind>,
)
    requires few { at.old.values < 2 ^ 63 }
    requires inside { (kind : kind_of.Kind) → inner ≡ Some kind → top ≡ at.old.top }
    ensures { (opened : List kind_of.Kind) → innermost opened ≡ inner
        → at.new ≡ passed begun opened at.old found.entry top }
{
    at.rest = found.rest;
    if let Some(kind) = begun {
        at.top = top;
        at.separator = false;
        at.kind = kind;
        return;
    }
    pass_value(at, found.rest, top, inner);
}

// A text that is written as it stands, if there is one.
#[inline(always)]
fn as_bare(text: Option<&[u8]>) -> Option<NameText<'_>>
    ensures { (head : ReadHead SymbolAt) → IfSome text.entry (λ t. IsTextOf t.now head)
        → IfSome result (λ t. IsWrittenAs t.quoting t.text.now head) }
{
    match text {
        Some(text) => Some(bare(text)),
        None => None,
    }
}

/// Hands on an item, whose name or which itself may be an id, and says whether it did.
#[inline(always)]
pub(super) fn forward_any<'a, W: ValueWriter<O, A>, O: Output, A: Allocator + Copy>(
    at: &mut Spot<'a>,
    further: Further<'a>,
    found: Found<'a>,
    bounds: Bounds,
    kinds: &mut Stack<Kind, A>,
    meter: &mut Meter<A>,
    writer: &mut W,
    sink: &mut Sink<O, A>,
) -> bool
    requires can { CanFeed W.ValueWriter bounds
        (lane kinds.old at.old writer.old sink.old meter.old) }
    requires start { IsStartRead further.second bounds at.old further.start }
    requires found { IsFoundRead bounds.limits (place_in bounds further.start.next.rest.now)
        further.start.next.rest.now found }
    ensures { (texts : ℕ → Option (List ℕ))
        → IsStartBy texts further.entry.second bounds at.old further.entry.start
        → IsFoundBy texts bounds.limits (place_in bounds further.entry.start.next.rest.now)
        further.entry.start.next.rest.now found.entry
        → TurnsBy W.ValueWriter bounds texts result
        (lane kinds.old at.old writer.old sink.old meter.old)
        (lane kinds.new at.new writer.new sink.new meter.new) }
{
    let Further { start, second } = further;
    let inner = innermost(kinds);
    let place = bounds.end - start.next.rest.len() as u64;
    let top = top_at(at.top, inner, start.note, place);
    let begins = begun(found.head);
    if !open_begun(begins, bounds.limits.depth, kinds, meter) {
        return false;
    }
    let item = PlainItem {
        field: start.field,
        annotation: start.note,
        second,
        head: found.head,
        spelled: as_bare(found.spelled),
        place,
        top,
    };
    if !writer.take_plain(meter, sink, item) {
        close_begun(begins, kinds, meter);
        return false;
    }
    pass_item(at, found, top, inner, begins);
    true
}

/// Hands on an item that has no second annotation, whose name and which itself are no ids, and says
/// whether it did.
#[inline(always)]
pub(super) fn forward<'a, W: ValueWriter<O, A>, O: Output, A: Allocator + Copy>(
    at: &mut Spot<'a>,
    start: Start<'a>,
    found: Found<'a>,
    bounds: Bounds,
    kinds: &mut Stack<Kind, A>,
    meter: &mut Meter<A>,
    writer: &mut W,
    sink: &mut Sink<O, A>,
) -> bool
    requires can { CanFeed W.ValueWriter bounds
        (lane kinds.old at.old writer.old sink.old meter.old) }
    requires start { IsStart bounds at.old start }
    requires found { IsFound bounds.limits (place_in bounds start.next.rest.now)
        start.next.rest.now found }
    ensures { Turns W.ValueWriter bounds result
        (lane kinds.old at.old writer.old sink.old meter.old)
        (lane kinds.new at.new writer.new sink.new meter.new) }
{
    let further = Further {
        start,
        second: None,
    };
    forward_any(at, further, found, bounds, kinds, meter, writer, sink)
}
