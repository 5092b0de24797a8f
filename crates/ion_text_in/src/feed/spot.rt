//! Where a lane stands, and what it finds there.
ghost use Rattle.std.specs.Prelude.{◌≡◌, ◌+◌, ◌^◌, ◌<◌, ◌≤◌, ℕ, Bool, List, ◌++◌, length, reverse, true, None, Some, IfSome};
ghost use Rattle.ion_value.specs.declared.ion_type.Kind as kind_of;
ghost use Rattle.ion_text_in.specs.Expecting.{is_separated};
ghost use Rattle.ion_text_in.specs.Feeding.{notes, place_in, IsNext, PassesBlanks, PassesComma};
ghost use Rattle.ion_text_in.specs.Firsts.{numbered};
ghost use Rattle.ion_text_in.specs.Positions.{innermost};
ghost use Rattle.ion_value.specs.Outcome.{one_if_closed};
ghost use Rattle.ion_text_in.specs.Reading.{top_of};
ghost use Rattle.ion_text_in.specs.Token.{a_comma, an_end, first_at};

use crate::comments::after_blanks;
use crate::expected::is_separated;
use crate::first::told_first;
use crate::slice::after;
use ion_meter::profile::Rules;
use ion_meter::stack::Stack;
use ion_value::ion_type::Kind;
use ion_value::item::Head;
use ion_value::plain_item::TextAt;
use std::alloc::Allocator;

/// Where a lane stands between two items.
#[derive(Clone, Copy)]
pub(crate) struct Spot<'a> {
    /// The bytes to come of the window.
    pub(crate) rest: &'a [u8],
    /// The place of the top-level value that is open.
    pub(crate) top: u64,
    /// How many values at top level have ended.
    pub(crate) values: u64,
    /// Whether a comma must come, or the end of the container.
    pub(crate) separator: bool,
    /// The kind of the innermost open container. Where none is open values stand as in a sexp.
    pub(crate) kind: Kind,
}

/// How far a lane may go.
#[derive(Clone, Copy)]
pub(crate) struct Bounds {
    /// The limits of the run.
    pub(crate) limits: Rules,
    /// The place where the window ends.
    pub(crate) end: u64,
}

/// What the next token is after blanks.
#[derive(Clone, Copy)]
pub(crate) struct Next<'a> {
    /// The number of its kind, where its first byte or two tell it; 0 where that is not known.
    pub(super) told: u64,
    /// The bytes from there on; none where they show no end of the blanks.
    pub(super) rest: &'a [u8],
}

/// Where a value begins, after the name of its field.
#[derive(Clone, Copy)]
pub(crate) struct Start<'a> {
    /// The name.
    pub(super) field: Option<TextAt<'a>>,
    /// The annotation, if there is one, or the first of two.
    pub(super) note: Option<TextAt<'a>>,
    /// What the value begins with.
    pub(super) next: Next<'a>,
}

/// Where a value begins after its annotations. The second is none in the frequent loop.
#[derive(Clone, Copy)]
pub(crate) struct Further<'a> {
    /// The beginning after both.
    pub(super) start: Start<'a>,
    /// The second annotation, if there are two.
    pub(super) second: Option<TextAt<'a>>,
}

/// The head of an item.
#[derive(Clone, Copy)]
pub(crate) struct Found<'a> {
    /// The head.
    pub(super) head: Head<'a>,
    /// Its canonical text, where that is known.
    pub(super) spelled: Option<&'a [u8]>,
    /// The bytes after it.
    pub(super) rest: &'a [u8],
}

/// The number of a word among those of tokens that a byte tells alone.
pub(super) const WORD: u64 = 1;

// The number of a comma.
const COMMA: u64 = 4;

/// What the next token is after blanks.
#[inline(always)]
pub(super) fn next_told(bytes: &[u8]) -> Next<'_>
    ensures { IsNext bytes.now result }
{
    let told = told_first(bytes);
    if told > 0 {
        return Next { told, rest: bytes };
    }
    let rest = after_blanks(bytes);
    Next {
        told: told_first(rest),
        rest,
    }
}

/// Passes over the comma that must come; what the next token is after it, and after blanks.
#[inline(always)]
pub(super) fn to_member<'a>(at: &mut Spot<'a>) -> Next<'a>
    ensures comma { PassesComma at.old at.new }
    ensures next { IsNext at.new.rest.now result }
{
    let next = next_told(at.rest);
    if next.told != COMMA {
        return next;
    }
    if !at.separator {
        return Next { told: 0, rest: &[] };
    }
    after_separator(at, next.rest)
}

// Passes over the comma that stands here, and looks after it.
#[inline(always)]
fn after_separator<'a>(at: &mut Spot<'a>, rest: &'a [u8]) -> Next<'a>
    requires separator { at.old.separator ≡ true }
    requires passes { PassesBlanks at.old.rest.now rest.now }
    requires some { 0 < length rest.now }
    requires comma { (in_sexp : Bool) (more : List ℕ)
        → first_at in_sexp (rest.now ++ more) ≡ a_comma }
    ensures comma { PassesComma at.old at.new }
    ensures next { IsNext at.new.rest.now result }
{
    at.rest = after(1, rest);
    at.separator = false;
    next_told(at.rest)
}

/// The place of the next token after blanks. It is counted from the spot on, whose place is at hand.
#[inline(always)]
pub(super) fn place_after(bounds: Bounds, spot: Spot<'_>, next: Next<'_>) -> u64
    requires next { IsNext spot.rest.now next }
    requires within { length spot.rest.now ≤ bounds.end }
    ensures { result ≡ place_in bounds next.entry.rest.now }
{
    let place = bounds.end - spot.rest.len() as u64;
    place + spot.rest.len().saturating_sub(next.rest.len()) as u64
}

/// What a value begins with where no name must come before it.
#[inline(always)]
pub(super) fn value_start<'a>(next: Next<'a>) -> Option<Start<'a>>
    ensures field { IfSome result (λ s. s.field ≡ None) }
    ensures note { IfSome result (λ s. s.note ≡ None) }
    ensures next { IfSome result (λ s. s.next ≡ next.entry) }
    ensures some { IfSome result (λ s. 0 < length next.entry.rest.now) }
{
    if next.rest.is_empty() {
        return None;
    }
    Some(Start {
        field: None,
        note: None,
        next,
    })
}

/// The kind of container that a token ends, by its number.
#[inline(always)]
pub(super) fn ended_kind(told: u64) -> Option<Kind>
    ensures { IfSome result (λ k. (0 < told) × (numbered told ≡ an_end k)) }
{
    match told {
        7 => Some(Kind::Struct),
        8 => Some(Kind::List),
        9 => Some(Kind::Sexp),
        _ => None,
    }
}

/// The kind of the innermost open container.
#[inline(always)]
pub(crate) fn innermost<A: Allocator + Copy>(kinds: &Stack<Kind, A>) -> Option<Kind>
    ensures { result ≡ innermost (reverse kinds.now) }
{
    kinds.as_slice().last().copied()
}

/// Where the top-level value begins that an item is in whose head begins at a place.
#[inline(always)]
pub(super) fn top_at(top: u64, inner: Option<Kind>, note: Option<TextAt<'_>>, place: u64) -> u64
    ensures is { (opened : List kind_of.Kind) → innermost opened ≡ inner
        → result ≡ top_of opened top (notes note.entry) place }
    ensures inside { (kind : kind_of.Kind) → inner ≡ Some kind → result ≡ top }
{
    match (inner, note) {
        (None, None) => place,
        (None, Some(note)) => note.place,
        (Some(_), _) => top,
    }
}

/// After a value: where no container is open, one more has ended. It is told by a jump, since
/// that is rare.
#[inline(always)]
pub(super) fn pass_value<'a>(at: &mut Spot<'a>, rest: &'a [u8], top: u64, inner: Option<Kind>)
    requires few { at.old.values < 2 ^ 63 }
    requires inside { (kind : kind_of.Kind) → inner ≡ Some kind → top ≡ at.old.top }
    ensures { (opened : List kind_of.Kind) → innermost opened ≡ inner
        → at.new ≡ record at.old {
          rest = rest.entry;
          top = top;
          values = at.old.values + one_if_closed opened;
          separator = is_separated at.old.kind;
        } }
{
    at.rest = rest;
    at.separator = is_separated(at.kind);
    match inner {
        Some(_) => {}
        None => {
            at.top = top;
            at.values += 1;
        }
    }
}
