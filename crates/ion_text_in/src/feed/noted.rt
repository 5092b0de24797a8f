//! Annotations in a lane.
ghost use Rattle.std.specs.Prelude.{◌≡◌, ◌==◌, ◌-◌, ◌≤◌, true, Some, length, sum_by, IfSome};
ghost use Rattle.ion_value.specs.Digits.{first_is};
ghost use Rattle.ion_text_in.specs.Feeding.{notes, Begins, BeginsAs, IsAfterColons, IsAfterNote, IsNoted, IsSimpleWord, LeadsFurther};
ghost use Rattle.ion_text_in.specs.Reading.{cost};
ghost use Rattle.ion_text_in.specs.Token.{a_quoted, a_word, two_colons};

use super::spot::{Bounds, Further, Next, Start, WORD, next_told};
use super::texts::{quoted_text, text_between};
use crate::quoted::Quote;
use crate::slice::{after, front};
use crate::word::simple_word;
use ion_meter::profile::Rules;
use ion_value::plain_item::TextAt;
use ion_value::quoting::BARE;

/// After the word that stands here and begins at a place, as an annotation: where two colons follow,
/// and a value begins after them. `room` is what an annotation before it leaves of the limit on
/// scalars.
#[inline(always)]
pub(super) fn noted<'a>(start: Start<'a>, room: u64, place: u64, count: usize) -> Option<Start<'a>>
    requires begins { BeginsAs a_word start.next.rest.now }
    requires some { count ≤ length start.next.rest.now }
    ensures { (limits : Rules) → IsSimpleWord limits.scalar start.entry.next.rest.now count
        → room ≡ limits.scalar - sum_by cost (notes start.entry.note)
        → IfSome result (IsNoted limits place start.entry) }
{
    let note = TextAt {
        text: front(count, start.next.rest),
        code: BARE,
        place,
    };
    after_note(start, note, after(count, start.next.rest), room)
}

/// After an annotation in quotes of plain bytes alone that does not begin with a dollar sign: where
/// two colons follow, and a value begins after them.
#[inline(never)]
pub(super) fn quoted_noted<'a>(
    start: Start<'a>,
    limits: Rules,
    room: u64,
    place: u64,
) -> Option<Start<'a>>
    requires room { room ≡ limits.scalar - sum_by cost (notes start.note) }
    requires begins { BeginsAs a_quoted start.next.rest.now }
    ensures { IfSome result (IsNoted limits place start.entry) }
{
    let Some(note) = text_between(Quote::Symbol, limits.scalar, start.next.rest) else {
        return None;
    };
    if begins_dollar(note.text) {
        return None;
    }
    after_note(start, quoted_text(note.text, place), note.rest, room)
}

// What is left of the limit on scalars after an annotation.
#[inline(always)]
fn room_after(note: TextAt<'_>, limits: Rules) -> u64
    ensures { result ≡ limits.scalar - sum_by cost (notes (Some note.entry)) }
{
    limits.scalar.saturating_sub(16 + note.text.len() as u64)
}

// After an annotation: where two colons stand here, there is room for its bytes, and a value begins
// after them.
#[inline(always)]
fn after_note<'a>(
    start: Start<'a>,
    note: TextAt<'a>,
    colons: &'a [u8],
    room: u64,
) -> Option<Start<'a>>
    ensures { (limits : Rules) → room ≡ limits.scalar - sum_by cost (notes start.entry.note)
        → IfSome result (IsAfterNote limits start.entry note.entry colons.now) }
{
    if room < 16 + note.text.len() as u64 {
        return None;
    }
    let Some(value) = after_colons(colons) else {
        return None;
    };
    Some(Start {
        field: start.field,
        note: Some(note),
        next: value,
    })
}

// What a value begins with after two colons, where these stand here.
#[inline(always)]
fn after_colons(colons: &[u8]) -> Option<Next<'_>>
    ensures { IfSome result (IsAfterColons colons.now) }
{
    if !shows_colons(colons) {
        return None;
    }
    let value = next_told(after(2, colons));
    if value.rest.is_empty() {
        return None;
    }
    Some(value)
}

/// After the simple word that stands here as a second annotation, or else where the value began.
#[inline(always)]
pub(super) fn with_second<'a>(start: Start<'a>, bounds: Bounds) -> Further<'a>
    requires within { length start.next.rest.now ≤ bounds.end }
    requires begins { Begins start.next }
    ensures { LeadsFurther bounds start.entry result }
{
    let single = Further {
        start,
        second: None,
    };
    let Some(first) = start.note else {
        return single;
    };
    if start.next.told != WORD {
        return single;
    }
    let Some(count) = simple_word(bounds.limits.scalar, start.next.rest) else {
        return single;
    };
    let place = bounds.end - start.next.rest.len() as u64;
    let room = room_after(first, bounds.limits);
    let Some(after) = noted(start, room, place, count) else {
        return single;
    };
    Further {
        start: Start {
            field: start.field,
            note: start.note,
            next: after.next,
        },
        second: after.note,
    }
}

// Whether two colons stand here.
#[inline(always)]
fn shows_colons(bytes: &[u8]) -> bool
    ensures some { result ≡ true → 2 ≤ length bytes.now }
    ensures begins { result ≡ true → BeginsAs two_colons bytes.now }
{
    if bytes.len() < 2 || bytes[0] != b':' || bytes[1] != b':' {
        return false;
    }
    true
}

/// Whether these bytes begin with a dollar sign.
#[inline(always)]
pub(super) fn begins_dollar(bytes: &[u8]) -> bool
    ensures { result ≡ first_is (λ b. b == 36) bytes.now }
{
    matches!(bytes, [b'$', ..])
}
