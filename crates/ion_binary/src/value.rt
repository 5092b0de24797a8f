//! A value after its field, with its annotations.
ghost use Rattle.std.specs.Prelude.{◌≡◌, ◌≢◌, ◌+◌, ◌*◌, ◌-◌, ◌<◌, ◌≤◌, ℕ, List, [], length, Option, None, false, Ok, OnOk};
ghost use Rattle.ion_value.specs.Value.{SymbolAt};
ghost use Rattle.ion_value.specs.Standing.{InRange};
ghost use Rattle.ion_value.specs.declared.ion_type.Kind as kinds;
ghost use Rattle.ion_binary.specs.Positions.{Frame};
ghost use Rattle.ion_binary.specs.Reading.{a_marker, a_nop_pad, region_of, inner_at, value_at};
ghost use Rattle.ion_binary.specs.Bodies.{as_scalar};
ghost use Rattle.ion_binary.specs.Finds.{as_typed_value};
ghost use Rattle.ion_binary.specs.Scanned.{IsRegion, WasFound, is_wrapper, noted_at, pad_at, region_in, rest_at, version_at};
ghost use Rattle.ion_meter.specs.Sources.{cursor, Stands};
ghost use Rattle.ion_value.specs.Calls.{AnswersBy, CanRead, Reads, ReadsInto, passed_over};
ghost use Rattle.ion_value.specs.Shares.{GrowsWithin};
ghost use Rattle.ion_binary.specs.Calls.{ReadsValue};
ghost use Rattle.ion_binary.specs.Wrappers.{as_annotations, as_wrapped};
ghost use Rattle.ion_binary.specs.Values.{GivesStep};

use crate::body::{Body, next_body, pass_over};
use crate::scan::{Found, Region, Within};
use crate::window::next_part;
use crate::wrapper::{Wrapper, next_annotations, next_wrapper};
use ion_meter::buf::Buf;
use ion_meter::device::Input;
use ion_meter::fault::{Fault, Reason};
use ion_meter::meter::Meter;
use ion_meter::profile::Rules;
use ion_meter::source::Source;
use ion_meter::stack::Stack;
use ion_value::ion_type::Kind;
use ion_value::item::Annotation;
use std::alloc::Allocator;

/// What a part is. A scalar stands in a body beside it.
#[derive(Clone, Copy)]
pub(crate) enum TypedValue {
    /// A NOP pad: octets that are ignored.
    NopPad,
    /// A version marker.
    Marker,
    /// A scalar.
    Scalar,
    /// A container's beginning, and the place of its end.
    Container(Kind, u64),
}

// The three octets of a version marker after its first, in a part that begins at a place.
fn next_version<I: Input, A: Allocator + Copy>(
    source: &mut Source<I, A>,
    place: u64,
) -> Result<TypedValue, Fault>
    requires stands { Stands source.old }
    ensures gives { AnswersBy I.Input (λ _. a_marker) source.old source.new place result
        version_at }
    ensures marker { (found : TypedValue) → result ≡ Ok found → found ≡ TypedValue.Marker }
    ensures reads { Reads I.Input source.old source.new result }
{
    match source.peek(2) {
        Err(fault) => return Err(fault),
        Ok(None) => return Err(Fault::Refused(Reason::Truncated, place)),
        Ok(Some(_)) => {}
    }
    if source.buffer()[..3] != [0x01, 0x00, 0xEA] {
        return Err(Fault::Refused(Reason::BadVersion, place));
    }
    source.consume(3);
    Ok(TypedValue::Marker)
}

// So many octets of a NOP pad, in a part that begins at a place, which are passed over.
fn next_nop_pad<I: Input, A: Allocator + Copy>(
    source: &mut Source<I, A>,
    count: u64,
    place: u64,
) -> Result<TypedValue, Fault>
    requires stands { Stands source.old }
    ensures gives { AnswersBy I.Input (λ _. a_nop_pad) source.old source.new place result
        (pad_at count) }
    ensures pad { (found : TypedValue) → result ≡ Ok found → found ≡ TypedValue.NopPad }
    ensures reads { Reads I.Input source.old source.new result }
{
    match pass_over(source, count) {
        Err(fault) => Err(fault),
        Ok(false) => Err(Fault::Refused(Reason::Truncated, place)),
        Ok(true) => Ok(TypedValue::NopPad),
    }
}

// What follows a descriptor and its length, in a part that begins at a place: the octets of a NOP pad or
// of a version marker, or the body of a scalar.
#[tactic(auto, unfolding(crate::specs::Scanned::rest_at))]
#[inline(always)]
fn next_rest<I: Input, A: Allocator + Copy>(
    source: &mut Source<I, A>,
    text: &mut Buf<A>,
    body: &mut Body,
    found: Found,
    limits: Rules,
    place: u64,
    meter: &mut Meter<A>,
) -> Result<TypedValue, Fault>
    requires can_read { CanRead limits limits.scalar source.old text.old meter.old }
    requires found { WasFound limits found }
    ensures gives { AnswersBy I.Input (as_typed_value text.new body.new)
        source.old source.new place result (rest_at limits found) }
    ensures range { result ≡ Ok TypedValue.Scalar → InRange (as_scalar text.new body.new) }
    ensures begins { (kind : kinds.Kind) (end : ℕ) → result ≡ Ok (TypedValue.Container kind end)
        → found ≡ Found.Begin kind end }
    ensures marker { result ≡ Ok TypedValue.Marker → found ≡ Found.Marker }
    ensures reads { ReadsInto I.Input source.old source.new meter.old meter.new
        (length text.old) (length text.new) limits.scalar result }
    ensures goes { GrowsWithin meter.old meter.new (length text.old) (length text.new)
        (16 * passed_over source.old source.new) }
{
    match found {
        Found::NopPad(count) => next_nop_pad(source, count, place),
        Found::Marker => next_version(source, place),
        Found::Null(of) => {
            *body = Body::Null(of);
            Ok(TypedValue::Scalar)
        }
        Found::Bool(truth) => {
            *body = Body::Bool(truth);
            Ok(TypedValue::Scalar)
        }
        Found::Body(type_code, count) => {
            match next_body(source, text, body, type_code, count, limits, place, meter) {
                Err(fault) => Err(fault),
                Ok(()) => Ok(TypedValue::Scalar),
            }
        }
        Found::Begin(kind, end) => Ok(TypedValue::Container(kind, end)),
        // no wrapper stands in another
        Found::Wrapper(_) => Err(Fault::Refused(Reason::BadAnnotation, place)),
    }
}

// The value in a wrapper that ends at a place.
fn next_inner<I: Input, A: Allocator + Copy>(
    source: &mut Source<I, A>,
    text: &mut Buf<A>,
    body: &mut Body,
    end: u64,
    depth: u32,
    limits: Rules,
    meter: &mut Meter<A>,
) -> Result<(TypedValue, u64), Fault>
    requires can_read { CanRead limits limits.scalar source.old text.old meter.old }
    ensures gives { I.observable source.old.device → (frames : List Frame) (top : ℕ)
        (f : Option SymbolAt) (annotations : List SymbolAt) → length frames ≡ depth
        → GivesStep frames top f annotations text.new body.new result (cursor I.Input source.new)
        (inner_at limits frames top f annotations end (cursor I.Input source.old)) }
    ensures range { (place : ℕ) → result ≡ Ok (TypedValue.Scalar, place)
        → InRange (as_scalar text.new body.new) }
    ensures deep { (kind : kinds.Kind) (last place : ℕ)
        → result ≡ Ok (TypedValue.Container kind last, place) → depth < limits.depth }
    ensures no_marker { (place : ℕ) → result ≢ Ok (TypedValue.Marker, place) }
    ensures further { OnOk result (source.old.place < source.new.place) }
    ensures reads { ReadsInto I.Input source.old source.new meter.old meter.new
        (length text.old) (length text.new) limits.scalar result }
    ensures goes { GrowsWithin meter.old meter.new (length text.old) (length text.new)
        (16 * passed_over source.old source.new) }
{
    let region = Region {
        within: Within::Wrapper,
        end,
        depth,
    };
    let place = source.place();
    let part = match next_part(source, region, limits, place) {
        Err(fault) => return Err(fault),
        Ok(part) => part,
    };
    match next_rest(source, text, body, part, limits, place, meter) {
        Err(fault) => Err(fault),
        Ok(found) => Ok((found, place)),
    }
}

// The annotations of a wrapper and the value in it.
fn next_annotated<I: Input, A: Allocator + Copy>(
    source: &mut Source<I, A>,
    annotations: &mut Stack<Annotation, A>,
    text: &mut Buf<A>,
    body: &mut Body,
    wrapper: Wrapper,
    depth: u32,
    limits: Rules,
    meter: &mut Meter<A>,
) -> Result<(TypedValue, u64), Fault>
    requires can_read { CanRead limits (2 * limits.scalar) source.old text.old meter.old }
    requires none { annotations.old ≡ [] }
    ensures gives { I.observable source.old.device → (frames : List Frame) (top : ℕ)
        (f : Option SymbolAt) → length frames ≡ depth
        → GivesStep frames top f (as_annotations annotations.new) text.new body.new result
        (cursor I.Input source.new)
        (noted_at limits frames top f (as_wrapped wrapper) (cursor I.Input source.old)) }
    ensures range { (place : ℕ) → result ≡ Ok (TypedValue.Scalar, place)
        → InRange (as_scalar text.new body.new) }
    ensures deep { (kind : kinds.Kind) (last place : ℕ)
        → result ≡ Ok (TypedValue.Container kind last, place) → depth < limits.depth }
    ensures no_marker { (place : ℕ) → result ≢ Ok (TypedValue.Marker, place) }
    ensures reads { ReadsValue I.Input limits source.old source.new meter.old meter.new
        text.old text.new annotations.new result }
    ensures goes { GrowsWithin meter.old meter.new (length text.old)
        (16 * length annotations.new + length text.new)
        (16 * passed_over source.old source.new) }
{
    if let Err(fault) = next_annotations(source, annotations, wrapper.ids, limits, meter) {
        return Err(fault);
    }
    next_inner(source, text, body, wrapper.end, depth, limits, meter)
}

/// A value after its field: what it is, and the place of its first octet after its annotations.
///
/// Its annotations are put into `annotations`, a scalar into `body`, and the bytes of a string or
/// lob into `text`.
#[inline(always)]
pub(crate) fn next_value<I: Input, A: Allocator + Copy>(
    source: &mut Source<I, A>,
    annotations: &mut Stack<Annotation, A>,
    text: &mut Buf<A>,
    body: &mut Body,
    region: Region,
    limits: Rules,
    meter: &mut Meter<A>,
) -> Result<(TypedValue, u64), Fault>
    requires can_read { CanRead limits (2 * limits.scalar) source.old text.old meter.old }
    requires region { IsRegion region }
    requires plain { is_wrapper region.within ≡ false }
    requires none { annotations.old ≡ [] }
    ensures gives { I.observable source.old.device → (frames : List Frame) (top : ℕ)
        (f : Option SymbolAt) → region_of frames ≡ region_in region.within region.end
        → length frames ≡ region.depth
        → GivesStep frames top f (as_annotations annotations.new) text.new body.new result
        (cursor I.Input source.new)
        (value_at limits frames top f (cursor I.Input source.old)) }
    ensures range { (place : ℕ) → result ≡ Ok (TypedValue.Scalar, place)
        → InRange (as_scalar text.new body.new) }
    ensures deep { (kind : kinds.Kind) (last place : ℕ)
        → result ≡ Ok (TypedValue.Container kind last, place) → region.depth < limits.depth }
    ensures marker { (place : ℕ) → result ≡ Ok (TypedValue.Marker, place)
        → (region_in region.within region.end ≡ None) × (annotations.new ≡ []) }
    ensures reads { ReadsValue I.Input limits source.old source.new meter.old meter.new
        text.old text.new annotations.new result }
    ensures goes { GrowsWithin meter.old meter.new (length text.old)
        (16 * length annotations.new + length text.new)
        (16 * passed_over source.old source.new) }
    ensures spare { OnOk result (16 * length annotations.new + length text.new + 16
        ≤ length text.old + 16 * passed_over source.old source.new) }
{
    let place = source.place();
    let part = match next_part(source, region, limits, place) {
        Err(fault) => return Err(fault),
        Ok(part) => part,
    };
    if let Some(count) = part.wrapped() {
        let wrapper = match next_wrapper(source, count, region, place) {
            Err(fault) => return Err(fault),
            Ok(wrapper) => wrapper,
        };
        let depth = region.depth;
        return next_annotated(
            source,
            annotations,
            text,
            body,
            wrapper,
            depth,
            limits,
            meter,
        );
    }
    match next_rest(source, text, body, part, limits, place, meter) {
        Err(fault) => Err(fault),
        Ok(found) => Ok((found, place)),
    }
}
