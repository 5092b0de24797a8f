//! What stands in front of the head of an item that lies whole in the window.
ghost use Rattle.std.specs.Prelude.{◌≡◌, ◌+◌, ◌^◌, ◌<◌, ◌≤◌, length, false, true, Option, Some, None, IfSome};
ghost use Rattle.ion_binary.specs.Lane.{EndsHere, GoesOn, IsAround, IsNote, IsSecondNote, ShowsField, ShowsFront, frame_in, kind_around};
ghost use Rattle.ion_binary.specs.Descriptor.{Region as region};
ghost use Rattle.ion_binary.specs.Reading.{region_of};
ghost use Rattle.ion_binary.specs.Scanned.{EndsAt, IsRegion, as_around};
ghost use Rattle.ion_binary.specs.Shown.{ShowsNote, ShowsSecond, around_after};
ghost use Rattle.ion_binary.specs.Wrappers.{as_frames, innermost};
ghost use Rattle.ion_value.specs.Value.{whole};

use super::texts::{begins_with_dollar, shown_text};
use crate::body::id_of;
use crate::descriptor::Shape;
use crate::scan::{Region, TOP, Within, few_length, few_var};
use crate::wrapper::{Frame, wrapper_of};
use ion_meter::profile::Rules;
use ion_value::ion_type::Kind;
use ion_value::names::Names;
use ion_value::plain_item::TextAt;
use ion_value::quoting::BARE;

// What is around a member: a container of some kind, or nothing at top level. It is one octet, where an
// optional kind would be two.
#[derive(Clone, Copy)]
pub(crate) enum Level {
    List,
    Sexp,
    Struct,
    Top,
}

// Where a member stands: what is around it and the place of its end; or at top level, which goes as far as
// all places.
#[derive(Clone, Copy)]
pub(crate) struct Around {
    pub(super) level: Level,
    pub(super) end: u64,
}

// Where the members of the innermost container stand.
#[inline(always)]
pub(super) fn around_in(frames: &[Frame]) -> Around
    ensures { IsAround (as_frames frames.now) result }
{
    match frames.last().copied() {
        None => Around {
            level: Level::Top,
            end: TOP,
        },
        Some(frame) => inside(frame),
    }
}

// Where the members of this container stand.
#[inline(always)]
pub(super) fn inside(frame: Frame) -> Around
    ensures { (kind_around result.level ≡ Some frame.kind) × (result.end ≡ frame.end) }
{
    let level = match frame.kind {
        Kind::List => Level::List,
        Kind::Sexp => Level::Sexp,
        Kind::Struct => Level::Struct,
    };
    Around {
        level,
        end: frame.end,
    }
}

// The name of a field that stands before a member, and how many octets its id has; none outside
// structs. It answers none where the window does not show an id whose text is written as it stands, or
// any text where `any` says so.
#[inline(always)]
pub(super) fn shown_field<'n, N: Names>(
    octets: &[u8],
    here: u64,
    around: Around,
    names: &'n N,
    any: bool,
) -> Option<(Option<TextAt<'n>>, usize)>
    ensures { IfSome result (λ r. ShowsField (N.text names.entry.now) octets.now here
        (innermost (frame_in around)) r.0 r.1) }
{
    match around.level {
        Level::Top | Level::List | Level::Sexp => Some((None, 0)),
        Level::Struct => {
            let Some((id, after)) = few_var(octets, 0) else {
                return None;
            };
            let Some(name) = shown_text(id_of(id), here, names, any) else {
                return None;
            };
            Some((Some(name), after))
        }
    }
}

// Whether the innermost container ends at a place.
#[inline(always)]
pub(super) fn ends_here(around: Around, place: u64) -> bool
    requires top { kind_around around.level ≡ None → place < around.end }
    ensures ends { result ≡ true → EndsHere (frame_in around) place }
    ensures goes_on { result ≡ false → GoesOn (frame_in around) place }
{
    around.end <= place
}

// What stands in front of the head of an item that is shown: a field's name, an annotation and a second one,
// the offsets of what comes after the field's id and of the head, and where a wrapper around it ends.
#[derive(Clone, Copy)]
pub(crate) struct Front<'n> {
    pub(super) field: Option<TextAt<'n>>,
    pub(super) annotation: Option<TextAt<'n>>,
    pub(super) second: Option<TextAt<'n>>,
    pub(super) at: usize,
    pub(super) head: usize,
    pub(super) wrapper: Option<u64>,
}

// The front of an item with no annotation.
#[inline(always)]
pub(super) fn bare_front<'n>(field: Option<TextAt<'n>>, at: usize) -> Front<'n>
    ensures { result ≡ record {
      field = field.entry;
      annotation = None;
      second = None;
      at = at;
      head = at;
      wrapper = None;
    } }
{
    Front {
        field,
        annotation: None,
        second: None,
        at,
        head: at,
        wrapper: None,
    }
}

// An annotation wrapper that is shown, with one annotation or two.
#[derive(Clone, Copy)]
pub(super) struct ShownNote {
    // The number that its first id spells.
    pub(super) id: u64,
    // The offset of that id among the octets.
    pub(super) from: usize,
    // The number that the second spells, if there is one, and its offset.
    pub(super) second: Option<(u64, usize)>,
    // Where its value stands among them.
    pub(super) inner: usize,
    // The place of its end in the stream.
    pub(super) end: u64,
}

// The second id of a wrapper, from an offset on, unless its ids end there; and their end.
#[inline(always)]
fn shown_second(octets: &[u8], at: usize, end: u64) -> Option<(Option<(u64, usize)>, usize)>
    requires { at ≤ length octets.now }
    ensures shows { IfSome result (λ r. ShowsSecond octets.now at r.0 r.1) }
    ensures ends { IfSome result (λ r. r.1 ≡ end) }
{
    if end == at as u64 {
        return Some((None, at));
    }
    match few_var(octets, at) {
        Some((id, inner)) if inner as u64 == end => Some((Some((id, at)), inner)),
        _ => None,
    }
}

// The annotation wrapper whose descriptor stands at an offset of these octets, of which the first stands
// at `here` in the stream, where it has one annotation or two.
#[inline(always)]
fn shown_note(octets: &[u8], here: u64, at: usize, most: u64, limits: Rules) -> Option<ShownNote>
    requires small { here + length octets.now < 2 ^ 63 }
    requires within { at < length octets.now }
    ensures { IfSome result (λ n. (r : region) → EndsAt r most
        → ShowsNote limits octets.entry.now here r at n) }
{
    let Shape::Wrapper(length_code) = Shape::of(octets[at]) else {
        return None;
    };
    let Some((count, after)) = few_length(octets, at + 1, length_code) else {
        return None;
    };
    let Some((ids, from)) = few_var(octets, after) else {
        return None;
    };
    let Some((id, first)) = few_var(octets, from) else {
        return None;
    };
    let Some((second, inner)) = shown_second(octets, first, from as u64 + ids) else {
        return None;
    };
    match wrapper_of(here + after as u64, count, here + from as u64, ids, most) {
        Ok(wrapper) if limits.scalar >= 32 => Some(ShownNote {
            id,
            from,
            second,
            inner,
            end: wrapper.end,
        }),
        _ => None,
    }
}

// The front of an item in the annotation wrapper that begins at an offset, after a field. It answers none
// where the window does not show one with an annotation or two, each a text with no dollar sign in front.
#[inline(always)]
pub(super) fn noted_front<'n, N: Names>(
    octets: &[u8],
    here: u64,
    around: Around,
    field: Option<TextAt<'n>>,
    at: usize,
    limits: Rules,
    names: &'n N,
) -> Option<Front<'n>>
    requires small { here + length octets.now < 2 ^ 63 }
    requires ends { EndsAt (region_of (innermost (frame_in around))) around.end }
    requires field { ShowsField (N.text names.now) octets.now here
        (innermost (frame_in around)) field at }
    ensures { IfSome result (λ f. ShowsFront (N.text names.entry.now) limits octets.now here
        (innermost (frame_in around)) f) }
{
    if at >= octets.len() {
        return None;
    }
    let Some(note) = shown_note(octets, here, at, around.end, limits) else {
        return None;
    };
    let Some(first) = noted_text(note.id, here + note.from as u64, names) else {
        return None;
    };
    let Some(second) = second_text(note.second, here, names) else {
        return None;
    };
    Some(Front {
        field,
        annotation: Some(first),
        second,
        at,
        head: note.inner,
        wrapper: Some(note.end),
    })
}

// The text of an annotation's id, where it has one with no dollar sign in front.
#[inline(always)]
fn noted_text<'n, N: Names>(id: u64, place: u64, names: &'n N) -> Option<TextAt<'n>>
    ensures { IfSome result (IsNote (N.text names.entry.now) id place) }
{
    let Some(text) = shown_text(id_of(id), place, names, true) else {
        return None;
    };
    if begins_with_dollar(text) {
        return None;
    }
    Some(text)
}

// The text of the id of a second annotation, if there is one.
#[inline(always)]
fn second_text<'n, N: Names>(
    second: Option<(u64, usize)>,
    here: u64,
    names: &'n N,
) -> Option<Option<TextAt<'n>>>
    requires { IfSome second (λ s. here + s.1 < 2 ^ 64) }
    ensures { IfSome result (IsSecondNote (N.text names.entry.now) here second) }
{
    let Some((id, at)) = second else {
        return Some(None);
    };
    match noted_text(id, here + at as u64, names) {
        Some(text) => Some(Some(text)),
        None => None,
    }
}

// Whether a name, where there is one, is known to be written as it stands.
#[inline(always)]
fn is_bare(name: Option<TextAt<'_>>) -> bool {
    match name {
        Some(name) => name.code == BARE,
        None => true,
    }
}

// Whether the value at an offset is a float.
#[inline(always)]
fn begins_float(octets: &[u8], at: usize) -> bool {
    match octets.get(at) {
        Some(descriptor) => matches!(Shape::of(*descriptor), Shape::Float(_)),
        None => false,
    }
}

// Whether the loop over most is over a value with this name, which begins at an offset.
#[inline(always)]
pub(super) fn is_frequent(name: Option<TextAt<'_>>, octets: &[u8], at: usize) -> bool {
    is_bare(name) && !begins_float(octets, at)
}

// Where a value stands after a front, so many containers being open.
#[inline(always)]
pub(super) fn region_after(front: Front<'_>, around: Around, depth: u32) -> Region
    requires { EndsAt (region_of (innermost (frame_in around))) around.end }
    ensures is { as_around result ≡ around_after front.entry.wrapper
        (region_of (innermost (frame_in around))) depth }
    ensures region { IsRegion result }
{
    let (within, end) = match (front.wrapper, around.level) {
        (Some(end), _) => (Within::Wrapper, end),
        (None, Level::Top) => (Within::Top, around.end),
        (None, Level::List | Level::Sexp | Level::Struct) => (Within::Container, around.end),
    };
    Region { within, end, depth }
}
