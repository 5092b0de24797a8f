//! Members in a lane that have an id: their name is one, or they are one.
ghost use Rattle.std.specs.Prelude.{◌≡◌, ◌<◌, ◌≤◌, ◌==◌, None, true, length, IfSome};
ghost use Rattle.ion_value.specs.declared.quoting.Quoting.TheVariants as Quoting;
ghost use Rattle.ion_value.specs.Digits.{first_is};
ghost use Rattle.ion_text_in.specs.Feeding.{lane, place_in, Begins, CanFeed, IsFoundBy, IsIdOf, IsNamedBy, IsNext, IsStartBy, MovedBy, TurnsBy};

use super::forward::forward_any;
use super::heads::{scan_head, zero_head};
use super::names::{after_name, to_start};
use super::noted::begins_dollar;
use super::spot::{Bounds, Found, Further, Next, Spot, Start, next_told, place_after, to_member};
use crate::blank::run_without;
use crate::scanned::Scanned;
use crate::slice::after;
use crate::word::{Word, scan_word};
use ion_meter::device::Output;
use ion_meter::meter::Meter;
use ion_meter::profile::Rules;
use ion_meter::sink::Sink;
use ion_meter::stack::Stack;
use ion_value::ion_type::Kind;
use ion_value::item::{Head, Sym, SymAt};
use ion_value::names::Names;
use ion_value::plain_item::TextAt;
use ion_value::quoting::{BARE, NameText, Quoting};
use ion_value::writer::ValueWriter;
use std::alloc::Allocator;

// An id at the front of some bytes: its text, which is simple, and how many bytes it has.
#[derive(Clone, Copy)]
struct IdText<'a> {
    text: &'a [u8],
    count: usize,
}

// How many bytes are looked at for a dollar sign: most names have fewer.
const NEAR: usize = 64;

/// Whether a dollar sign stands near the front of these bytes: it tells with no call that most members
/// have no id, and one that stands further on is left to `next`.
#[inline(always)]
pub(super) fn is_dollar_near(bytes: &[u8]) -> bool {
    let near = &bytes[..bytes.len().min(NEAR)];
    run_without(b'$', b'$', near) < near.len()
}

/// Hands on members that have an id each, as many as come one after the other.
#[inline(never)]
pub(super) fn id_turns<'a, N: Names, W: ValueWriter<O, A>, O: Output, A: Allocator + Copy>(
    spot: Spot<'a>,
    names: &'a N,
    bounds: Bounds,
    kinds: &mut Stack<Kind, A>,
    meter: &mut Meter<A>,
    writer: &mut W,
    sink: &mut Sink<O, A>,
) -> Spot<'a>
    requires { CanFeed W.ValueWriter bounds
        (lane kinds.old spot writer.old sink.old meter.old) }
    ensures { MovedBy W.ValueWriter bounds (N.text names.now)
        (lane kinds.old spot.entry writer.old sink.old meter.old)
        (lane kinds.new result writer.new sink.new meter.new) }
{
    let mut at = spot;
    'items: loop {
        if !id_turn(&mut at, names, bounds, kinds, meter, writer, sink) {
            return at;
        }
    }
}

// Hands on one, after the comma that must come before it, and says whether it did.
#[inline(always)]
fn id_turn<'a, N: Names, W: ValueWriter<O, A>, O: Output, A: Allocator + Copy>(
    at: &mut Spot<'a>,
    names: &'a N,
    bounds: Bounds,
    kinds: &mut Stack<Kind, A>,
    meter: &mut Meter<A>,
    writer: &mut W,
    sink: &mut Sink<O, A>,
) -> bool
    requires { CanFeed W.ValueWriter bounds
        (lane kinds.old at.old writer.old sink.old meter.old) }
    ensures { TurnsBy W.ValueWriter bounds (N.text names.now) result
        (lane kinds.old at.old writer.old sink.old meter.old)
        (lane kinds.new at.new writer.new sink.new meter.new) }
{
    let next = to_member(at);
    let Some(start) = id_start(*at, next, names, bounds) else {
        return false;
    };
    let Some(found) = id_found(next.rest, start.next, names, bounds) else {
        return false;
    };
    let further = Further {
        start,
        second: None,
    };
    forward_any(at, further, found, bounds, kinds, meter, writer, sink)
}

// What the value begins with that may begin here, after the name of its field where one must come: an id,
// or a simple word.
#[inline(always)]
fn id_start<'a, N: Names>(
    spot: Spot<'a>,
    next: Next<'a>,
    names: &'a N,
    bounds: Bounds,
) -> Option<Start<'a>>
    requires next { IsNext spot.rest.now next }
    requires within { length spot.rest.now ≤ bounds.end }
    ensures { IfSome result (IsStartBy (N.text names.now) None bounds spot.entry) }
{
    match spot.kind {
        Kind::Struct if !spot.separator && begins_dollar(next.rest) => {
            id_name(
                next.rest,
                names,
                bounds.limits,
                place_after(bounds, spot, next),
            )
        }
        _ => to_start(spot, next, bounds),
    }
}

// What the value begins with after a field's name that is an id.
#[inline(always)]
fn id_name<'a, N: Names>(
    bytes: &'a [u8],
    names: &'a N,
    limits: Rules,
    place: u64,
) -> Option<Start<'a>>
    requires { first_is (λ b. b == 36) bytes.now ≡ true }
    ensures { IfSome result (IsNamedBy (N.text names.now) limits place bytes.now) }
{
    let Some(id) = id_text(bytes, names, limits.scalar) else {
        return None;
    };
    let name = TextAt {
        text: id.text,
        code: BARE,
        place,
    };
    after_name(name, after(id.count, bytes))
}

// The id at the front of these bytes, where it has a simple text.
#[inline(always)]
fn id_text<'a, N: Names>(bytes: &[u8], names: &'a N, limit: u64) -> Option<IdText<'a>>
    requires { 0 < length bytes.now }
    ensures { IfSome result
        (λ id. IsIdOf (N.text names.now) limit bytes.now id.text.now id.count) }
{
    match scan_word(limit, bytes) {
        Scanned::Whole(Word::Id(id), count) => match names.name_text(id) {
            Some(name) => match bare_text(name) {
                Some(text) => Some(IdText { text, count }),
                None => None,
            },
            None => None,
        },
        _ => None,
    }
}

// A symbol's text, where it is written as it stands.
#[inline(always)]
fn bare_text(name: NameText<'_>) -> Option<&[u8]>
    ensures text { IfSome result (λ t. t.now ≡ name.entry.text.now) }
    ensures bare { IfSome result (λ _. name.entry.quoting ≡ Quoting.Bare) }
{
    match name.quoting {
        Quoting::Bare => Some(name.text),
        _ => None,
    }
}

// The head that stands here, where it is an id, or the name before it, at the front of these bytes, is one.
#[inline(always)]
fn id_found<'a, N: Names>(
    name: &[u8],
    next: Next<'a>,
    names: &'a N,
    bounds: Bounds,
) -> Option<Found<'a>>
    requires begins { Begins next }
    requires within { length next.rest.now ≤ bounds.end }
    ensures { IfSome result (IsFoundBy (N.text names.now) bounds.limits
        (place_in bounds next.entry.rest.now) next.entry.rest.now) }
{
    let place = bounds.end - next.rest.len() as u64;
    if let Some(found) = zero_head(bounds.limits, place, next.rest) {
        return Some(found);
    }
    if begins_dollar(next.rest) {
        return id_head(next.rest, names, bounds.limits, place);
    }
    if begins_dollar(name) {
        return scan_head(bounds.limits, place, next);
    }
    None
}

// A symbol that is an id, where a token is told after it that is no two colons.
#[inline(always)]
fn id_head<'a, N: Names>(
    bytes: &'a [u8],
    names: &'a N,
    limits: Rules,
    place: u64,
) -> Option<Found<'a>>
    requires { first_is (λ b. b == 36) bytes.now ≡ true }
    ensures { IfSome result (IsFoundBy (N.text names.now) limits place bytes.now) }
{
    let Some(id) = id_text(bytes, names, limits.scalar) else {
        return None;
    };
    let rest = after(id.count, bytes);
    if next_told(rest).told == 0 {
        return None;
    }
    let name = SymAt {
        sym: Sym::Text(id.text),
        place,
    };
    Some(Found {
        head: Head::Symbol(name),
        spelled: Some(id.text),
        rest,
    })
}
