//! The names of fields in a lane, and where a value begins.
ghost use Rattle.std.specs.Prelude.{◌≡◌, ◌<◌, ◌≤◌, length, None, IfSome};
ghost use Rattle.ion_text_in.specs.Feeding.{Begins, BeginsText, IsAfterName, IsNamed, IsNext, IsStart, ToColon};

use super::heads::token;
use super::spot::{Bounds, Next, Spot, Start, WORD, next_told, place_after, value_start};
use super::texts::{quoted_text, text_between};
use crate::comments::after_blanks;
use crate::first::{First, shows_colon};
use crate::quoted::Quote;
use crate::slice::{after, front};
use crate::word::simple_word;
use ion_meter::profile::Rules;
use ion_value::ion_type::Kind;
use ion_value::plain_item::TextAt;
use ion_value::quoting::BARE;

/// What the value begins with that may begin here, after the name of its field where one must come, which
/// stands without quotes.
#[inline(always)]
pub(super) fn to_start<'a>(spot: Spot<'a>, next: Next<'a>, bounds: Bounds) -> Option<Start<'a>>
    requires next { IsNext spot.rest.now next }
    requires within { length spot.rest.now ≤ bounds.end }
    ensures start { IfSome result (IsStart bounds spot.entry) }
    ensures bare { IfSome result (λ s. s.note ≡ None) }
{
    if spot.separator {
        return None;
    }
    match spot.kind {
        Kind::Struct => field_start(next, bounds.limits, place_after(bounds, spot, next)),
        Kind::List | Kind::Sexp => value_start(next),
    }
}

// What the value begins with after the name that must come, and that begins at a place: none after a
// name between quotes, so that of those here it is known, and asked of none, that they are simple.
#[inline(always)]
fn field_start<'a>(next: Next<'a>, limits: Rules, place: u64) -> Option<Start<'a>>
    requires { 0 < next.told → Begins next }
    ensures { IfSome result (IsNamed limits place next.entry.rest.now) }
{
    if next.told != WORD {
        return None;
    }
    let Some(count) = simple_word(limits.scalar, next.rest) else {
        return None;
    };
    let name = TextAt {
        text: front(count, next.rest),
        code: BARE,
        place,
    };
    after_name(name, after(count, next.rest))
}

/// What the value begins with after a field's name between quotes.
#[inline(always)]
pub(super) fn quoted_start<'a>(next: Next<'a>, limits: Rules, place: u64) -> Option<Start<'a>>
    requires { Begins next }
    ensures { IfSome result (IsNamed limits place next.entry.rest.now) }
{
    match token(next) {
        Some(First::QuotedSymbol) => text_start(Quote::Symbol, limits, place, next.rest),
        Some(First::String) => text_start(Quote::Short, limits, place, next.rest),
        _ => None,
    }
}

// What the value begins with after a field's name of plain bytes alone between such quotes.
#[inline(always)]
fn text_start<'a>(quote: Quote, limits: Rules, place: u64, bytes: &'a [u8]) -> Option<Start<'a>>
    requires { BeginsText quote bytes.now }
    ensures { IfSome result (IsNamed limits place bytes.now) }
{
    let Some(name) = text_between(quote, limits.scalar, bytes) else {
        return None;
    };
    after_name(quoted_text(name.text, place), name.rest)
}

/// What the value begins with after a name, where a colon stands after that.
#[inline(always)]
pub(super) fn after_name<'a>(name: TextAt<'a>, bytes: &'a [u8]) -> Option<Start<'a>>
    ensures { IfSome result (IsAfterName name.entry bytes.now) }
{
    let Some(colon) = to_colon(bytes) else {
        return None;
    };
    let value = next_told(after(1, colon));
    if value.rest.is_empty() {
        return None;
    }
    Some(Start {
        field: Some(name),
        note: None,
        next: value,
    })
}

// At the colon after blanks, where it stands there.
#[inline(always)]
fn to_colon(bytes: &[u8]) -> Option<&[u8]>
    ensures { IfSome result (λ rest. ToColon bytes.now rest.now) }
{
    if shows_colon(bytes) {
        return Some(bytes);
    }
    let rest = after_blanks(bytes);
    if !shows_colon(rest) {
        return None;
    }
    Some(rest)
}
