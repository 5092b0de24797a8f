//! What stands before a value: a field in a struct, and an annotation wrapper (binary encoding,
//! "13: struct" and "14: Annotations").
ghost use Rattle.std.specs.Prelude.{◌≡◌, ◌||◌, nat_lt, nat_eq, nat_le, map, ◌+◌, ◌*◌, ◌-◌, ◌^◌, ◌<◌, ◌≤◌, [], length, Ok, Err, IfOk, OnOk, MatchResult, is_some};
ghost use Rattle.ion_value.specs.Standing.{in_struct};
ghost use Rattle.ion_binary.specs.Descriptor.{Region as region};
ghost use Rattle.ion_binary.specs.Reading.{ids_at, field_at};
ghost use Rattle.ion_binary.specs.Scanned.{EndsAt, IsRegion, region_in, wrapper_after, wrapper_by};
ghost use Rattle.ion_meter.specs.Sources.{cursor, Stands};
ghost use Rattle.ion_value.specs.Answers.{AnswersAt};
ghost use Rattle.ion_value.specs.Calls.{AnswersBy, CanRead, Reads, ReadsInto, passed_over};
ghost use Rattle.ion_value.specs.Shares.{GrowsWithin};
ghost use Rattle.ion_binary.specs.Wrappers.{as_wrapped, as_annotations, as_field, innermost};

use crate::body::id_of;
use crate::scan::Region;
use crate::window::next_var_uint;
use ion_meter::device::Input;
use ion_meter::fault::{Fault, Reason};
use ion_meter::meter::Meter;
use ion_meter::profile::Rules;
use ion_meter::source::Source;
use ion_meter::stack::Stack;
use ion_value::ion_type::Kind;
use ion_value::item::Annotation;
use std::alloc::Allocator;

/// An open container.
#[derive(Clone, Copy)]
pub(crate) struct Frame {
    /// Its kind.
    pub(crate) kind: Kind,
    /// The place of its end.
    pub(crate) end: u64,
}

/// The field of a struct's member.
#[derive(Clone, Copy)]
pub(crate) struct Field {
    /// Its id, where 2^31 stands for every id above 2^31 - 1.
    pub(crate) id: u32,
    /// The place of its first octet.
    pub(crate) place: u64,
}

/// An annotation wrapper, known by two places.
#[derive(Clone, Copy)]
pub(crate) struct Wrapper {
    /// Where its annotations end and its value begins.
    pub(crate) ids: u64,
    /// Where it ends.
    pub(crate) end: u64,
}

/// The field that stands before the next member of the innermost open container: none outside
/// structs.
#[inline(always)]
pub(crate) fn next_field<I: Input, A: Allocator + Copy>(
    source: &mut Source<I, A>,
    frame: Option<Frame>,
) -> Result<Option<Field>, Fault>
    requires stands { Stands source.old }
    ensures gives { AnswersBy I.Input as_field source.old source.new source.old.place result
        (field_at (innermost frame)) }
    ensures reads { Reads I.Input source.old source.new result }
    ensures struct_alone { IfOk result
        (λ field. is_some field ≡ in_struct (map (λ f. f.kind) (innermost frame))) }
{
    let Some(frame) = frame else {
        return Ok(None);
    };
    if frame.kind != Kind::Struct {
        return Ok(None);
    }
    let place = source.place();
    match next_var_uint(source, frame.end, place) {
        Err(fault) => Err(fault),
        Ok(id) => Ok(Some(Field {
            id: id_of(id),
            place,
        })),
    }
}

// Whether a wrapper of these lengths may not be: it has fewer than three octets, no annotation, or
// no octet for a value. `after` is the place after the length of its annotations.
#[inline]
fn is_no_wrapper(count: u64, ids: u64, after: u64, end: u64) -> bool
    requires { after + ids < 2 ^ 64 }
    ensures { result ≡ (nat_lt count 3 || nat_eq ids 0 || nat_le end (after + ids)) }
{
    count < 3 || ids == 0 || end <= after + ids
}

/// A wrapper of so many octets from a place on, in a region that ends at another, whose annotations have
/// so many octets from a third place on.
///
/// It is `Overrun` where it passes the region, and `BadAnnotation` where it has fewer than three octets,
/// no annotation, or no octet for a value.
#[inline(always)]
pub(crate) fn wrapper_of(
    here: u64,
    count: u64,
    after: u64,
    ids: u64,
    region_end: u64,
) -> Result<Wrapper, Reason>
    requires whole { here + count < 2 ^ 64 - 1 }
    requires ids { after + ids < 2 ^ 64 }
    ensures made { (r : region) → EndsAt r region_end → MatchResult result
        (λ w. wrapper_by r here count after ids ≡ Ok (as_wrapped w))
        (λ reason. wrapper_by r here count after ids ≡ Err reason) }
    ensures ids { IfOk result (λ w. w.ids ≡ after + ids) }
    ensures room { OnOk result (after + ids < here + count) }
    ensures within { OnOk result (here + count ≤ region_end) }
{
    let end = here + count;
    if region_end < end {
        return Err(Reason::Overrun);
    }
    if is_no_wrapper(count, ids, after, end) {
        return Err(Reason::BadAnnotation);
    }
    Ok(Wrapper {
        ids: after + ids,
        end,
    })
}

/// A wrapper that has so many octets more, in a part that begins at a place.
///
/// The octets of its annotations' length come first, within the wrapper.
pub(crate) fn next_wrapper<I: Input, A: Allocator + Copy>(
    source: &mut Source<I, A>,
    count: u64,
    around: Region,
    place: u64,
) -> Result<Wrapper, Fault>
    requires stands { Stands source.old }
    requires small { count < 2 ^ 63 }
    requires around { IsRegion around }
    ensures gives { AnswersBy I.Input as_wrapped source.old source.new place result
        (wrapper_after (region_in around.within around.end) count) }
    ensures reads { Reads I.Input source.old source.new result }
{
    let here = source.place();
    let ids = match next_var_uint(source, here + count, place) {
        Err(fault) => return Err(fault),
        Ok(ids) => ids,
    };
    match wrapper_of(here, count, source.place(), ids, around.end) {
        Err(reason) => Err(Fault::Refused(reason, place)),
        Ok(wrapper) => Ok(wrapper),
    }
}

/// The annotations of a wrapper, up to the place where they end.
///
/// Each annotation is a part by itself. It answers `AnnotationLimit` at the one that passes the
/// limit, each counting 16, and so never holds more than `limits.scalar`.
pub(crate) fn next_annotations<I: Input, A: Allocator + Copy>(
    source: &mut Source<I, A>,
    annotations: &mut Stack<Annotation, A>,
    end: u64,
    limits: Rules,
    meter: &mut Meter<A>,
) -> Result<(), Fault>
    requires can_read { CanRead limits limits.scalar source.old [] meter.old }
    requires none { annotations.old ≡ [] }
    ensures gives { I.observable source.old.device
        → AnswersAt (λ _. as_annotations annotations.new) result
        (cursor I.Input source.new) (ids_at end limits end 0 (cursor I.Input source.old)) }
    ensures reads { ReadsInto I.Input source.old source.new meter.old meter.new
        0 (16 * length annotations.new) limits.scalar result }
    ensures goes { GrowsWithin meter.old meter.new 0 (16 * length annotations.new)
        (16 * passed_over source.old source.new) }
{
    while source.place() < end {
        let place = source.place();
        let id = match next_var_uint(source, end, place) {
            Err(fault) => return Err(fault),
            Ok(id) => id_of(id),
        };
        if limits.scalar < 16 * (annotations.as_slice().len() as u64 + 1) {
            return Err(Fault::Refused(Reason::AnnotationLimit, place));
        }
        if let Err((_, fault)) = annotations.push(meter, Annotation::Id { id, place }) {
            return Err(fault);
        }
    }
    Ok(())
}
