//! Names and annotations of plain items, which are put where the window on the output has room.
ghost use Rattle.std.specs.Prelude.{◌≡◌, Bool, ◌+◌, ◌≤◌, ◌++◌, ◌∷◌, ◌&&◌, [], true, length, codes, if◌then◌else◌, IfSome};
ghost use Rattle.ion_value.specs.PlainItems.{IsRightlyQuoted, StandsAfter};
ghost use Rattle.ion_value.specs.Value.{Known};
ghost use Rattle.ion_text_out.specs.Lane.{is_bare_in, plain_front, symbol_in, symbols_in, text_in};
ghost use Rattle.ion_text_out.specs.Text.{before_item, symbol_text};
ghost use Rattle.ion_text_out.specs.Writing.{shown};

use crate::bare::is_bare;
use crate::layout::Layout;
use crate::quote::stands_in_symbol;
use arrayvec::ArrayVec;
use ion_meter::device::Output;
use ion_meter::sink::Sink;
use ion_value::ion_type::Kind;
use ion_value::plain_item::TextAt;
use ion_value::quoting::{BARE, QUOTED};
use std::alloc::Allocator;

/// The text of a symbol that may be there, empty where there is none, and whether it is written as
/// it stands, as is said of none too. Both come of one branch.
#[inline(always)]
pub fn text_in(at: Option<TextAt<'_>>) -> (&[u8], bool)
    ensures text { result.0.now ≡ text_in at.entry }
    ensures bare { result.1 ≡ is_bare_in at.entry }
{
    match at {
        Some(at) => (at.text, at.code == BARE),
        None => (b"", true),
    }
}

/// Whether all of these are so, told as one, so that one way goes on where they are not.
#[inline(always)]
pub fn all(name: bool, note: bool, alone: bool) -> bool
    ensures { result ≡ (name && (note && alone)) }
{
    name && note && alone
}

/// Whether what stands before a value is short, and there is room for it, a name and annotations, so
/// many bytes, and a mark of a byte.
#[inline(always)]
pub fn has_room<L: Layout, O: Output, A: Allocator + Copy>(
    sink: &Sink<O, A>,
    kinds: &[Kind],
    name: &[u8],
    note: &[u8],
    more: usize,
) -> bool
    ensures room { result ≡ true → (empty : Bool) → length sink.now.pending
        + length (before_item L.layout (shown kinds.now empty))
        + length (plain_front L.layout name.now note.now) + more + 1 ≤ 4096 }
    ensures short { result ≡ true → (empty : Bool)
        → length (before_item L.layout (shown kinds.now empty)) ≤ 258 }
{
    let room = sink.room();
    let texts = name.len() + note.len();
    if room < texts {
        return false;
    }
    let left = room - texts;
    more <= left && L::has_room(kinds.len(), left - more)
}

/// Puts a mark of one byte, or none.
#[inline(always)]
pub fn put_mark<O: Output, A: Allocator + Copy>(sink: &mut Sink<O, A>, mark: &[u8])
    requires room { length sink.old.pending + length mark.now ≤ 4096 }
    requires short { length mark.now ≤ 1 }
    ensures { sink.new ≡ record sink.old { pending = sink.old.pending ++ mark.now } }
{
    if let [byte, ..] = mark {
        sink.put_byte(*byte);
    }
}

/// Puts a name and what stands after it, and annotations and two colons, where there are such.
#[inline(always)]
pub fn put_front<L: Layout, O: Output, A: Allocator + Copy>(
    sink: &mut Sink<O, A>,
    name: &[u8],
    note: &[u8],
)
    requires { length sink.old.pending + length (plain_front L.layout name.now note.now) ≤ 4096 }
    ensures { sink.new ≡ record sink.old {
      pending = sink.old.pending ++ plain_front L.layout name.now note.now;
    } }
{
    if !name.is_empty() {
        sink.put_within(name);
        put_few(sink, L::after_name());
    }
    if !note.is_empty() {
        sink.put_within(note);
        put_colons(sink);
    }
}

// Puts two colons, one after the other: with one more copy in line, callers would be too large to be
// put in line themselves.
#[inline(always)]
fn put_colons<O: Output, A: Allocator + Copy>(sink: &mut Sink<O, A>)
    requires { length sink.old.pending + 2 ≤ 4096 }
    ensures { sink.new ≡ record sink.old { pending = sink.old.pending ++ codes "::" } }
{
    sink.put_byte(b':');
    sink.put_byte(b':');
}

// Puts a few bytes. As the length of one is told apart here, no call copies it.
#[inline(always)]
fn put_few<O: Output, A: Allocator + Copy>(sink: &mut Sink<O, A>, bytes: &[u8])
    requires { length sink.old.pending + length bytes.now ≤ 4096 }
    ensures { sink.new ≡ record sink.old { pending = sink.old.pending ++ bytes.now } }
{
    match bytes {
        [byte] => sink.put_byte(*byte),
        _ => sink.put_within(bytes),
    }
}

// The quotes around a symbol of this quoting, or none where it has escapes.
#[inline(always)]
fn quotes_of(at: TextAt<'_>) -> Option<&'static [u8]>
    requires { IsRightlyQuoted at }
    ensures { IfSome result (λ quote. quote.now ++ (at.entry.text.now ++ quote.now)
        ≡ symbol_text (Known at.entry.text.now)) }
{
    if at.code == BARE {
        return Some(b"");
    }
    if at.code == QUOTED {
        return Some(b"'");
    }
    quotes_around(at.text)
}

// The quotes around a symbol of this text, or none where it has escapes.
fn quotes_around(text: &[u8]) -> Option<&'static [u8]>
    ensures { IfSome result (λ quote. quote.now ++ (text.now ++ quote.now)
        ≡ symbol_text (Known text.now)) }
{
    if is_bare(text) {
        return Some(b"");
    }
    if !stands_in_symbol(text) {
        return None;
    }
    Some(b"'")
}

/// Adds a symbol that may be there as it is written, where there is room and it has no escapes.
#[inline(always)]
pub fn spell(front: &mut ArrayVec<u8, 128>, at: Option<TextAt<'_>>) -> bool
    requires { IfSome at IsRightlyQuoted }
    ensures { result ≡ true → front.new.items ≡ front.old.items ++ symbol_in at.entry }
{
    let Some(at) = at else {
        return true;
    };
    let Some(quote) = quotes_of(at) else {
        return false;
    };
    if !add(front, quote) {
        return false;
    }
    if !add(front, at.text) {
        return false;
    }
    add(front, quote)
}

// Adds these bytes, where there is room for all. No call copies a single one.
#[inline(always)]
fn add(front: &mut ArrayVec<u8, 128>, bytes: &[u8]) -> bool
    ensures { result ≡ true → front.new.items ≡ front.old.items ++ bytes.now }
{
    match bytes {
        [] => true,
        [byte] => front.try_push(*byte).is_ok(),
        _ => front.try_extend_from_slice(bytes).is_ok(),
    }
}

/// Adds annotations with two colons between two of them, as `spell` does.
#[inline(always)]
pub fn spell_notes(
    front: &mut ArrayVec<u8, 128>,
    annotation: Option<TextAt<'_>>,
    second: Option<TextAt<'_>>,
) -> bool
    requires first { IfSome annotation IsRightlyQuoted }
    requires second { IfSome second (StandsAfter annotation) }
    ensures { result ≡ true
        → front.new.items ≡ front.old.items ++ symbols_in annotation.entry second.entry }
{
    if !spell(front, annotation) {
        return false;
    }
    if second.is_none() {
        return true;
    }
    if !add(front, b"::") {
        return false;
    }
    spell(front, second)
}
