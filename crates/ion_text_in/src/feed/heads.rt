//! The heads of items in a lane.
ghost use Rattle.std.specs.Prelude.{◌≡◌, take, true, None, Some, IfSome};
ghost use Rattle.ion_text_in.specs.Feeding.{Begins, BeginsAs, IsFound, IsSimpleWord};
ghost use Rattle.ion_text_in.specs.Firsts.{first_of};
ghost use Rattle.ion_text_in.specs.declared.scanned.Scanned.TheVariants as Scanned;
ghost use Rattle.ion_text_in.specs.Quick.{as_quick, AreSpelled};
ghost use Rattle.ion_text_in.specs.Scanners.{Shows};
ghost use Rattle.ion_text_in.specs.Token.{a_begin, a_quoted, a_run, a_short, a_word, token_of};
ghost use Rattle.ion_text_in.specs.Views.{as_number, word_token_of};
ghost use Rattle.ion_value.specs.Items.{raw_head};
ghost use Rattle.ion_value.specs.PlainItems.{IsTextOf};
ghost use Rattle.ion_value.specs.Value.{whole};

use super::spot::{Found, Next, next_told};
use super::texts::text_between;
use crate::first::First;
use crate::number::{Number, Numeral, scan_number};
use crate::quick::{Quick, scaled, scan_quick, signed_int};
use crate::quick_float::scan_quick_float;
use crate::quoted::Quote;
use crate::scanned::Scanned;
use crate::slice::{after, front};
use crate::word::{Word, is_zero_id, scan_simple};
use ion_meter::profile::Rules;
use ion_value::ion_type::Kind;
use ion_value::item::{Head, Sym, SymAt};

/// The head of the item that begins so, where it lies whole in the bytes and is a frequent one.
#[inline(always)]
pub(super) fn scan_head<'a>(limits: Rules, place: u64, next: Next<'a>) -> Option<Found<'a>>
    requires { Begins next }
    ensures { IfSome result (IsFound limits place next.entry.rest.now) }
{
    match token(next) {
        Some(First::Word) => word_head(limits, place, next.rest),
        Some(First::Number) => number_head(limits, place, next.rest),
        Some(First::String) => string_head(limits, place, next.rest),
        Some(First::QuotedSymbol) => quoted_head(limits, place, next.rest),
        Some(First::Begin(kind)) => Some(begin_head(limits, place, kind, next.rest)),
        _ => None,
    }
}

// A head whose canonical text is not known.
#[inline(always)]
fn found_as<'a>(head: Head<'a>, rest: &'a [u8]) -> Found<'a>
    ensures { result ≡ record { head = head.entry; spelled = None; rest = rest.entry } }
{
    Found {
        head,
        spelled: None,
        rest,
    }
}

/// A container's beginning.
#[inline(always)]
pub(super) fn begin_head<'a>(limits: Rules, place: u64, kind: Kind, bytes: &'a [u8]) -> Found<'a>
    requires { BeginsAs (a_begin kind) bytes.now }
    ensures { IsFound limits place bytes.now result }
{
    found_as(Head::Begin(kind), after(1, bytes))
}

/// An int that was read in one pass, as a head.
#[inline(always)]
pub(super) fn int_head<'a>(quick: Quick) -> Head<'a>
    requires { quick.exponent ≡ None }
    ensures { raw_head result ≡ whole (as_number (as_quick quick)) }
{
    Head::Int(signed_int(quick.negative, quick.number))
}

/// A decimal that was read in one pass, as a head.
#[inline(always)]
pub(super) fn decimal_head<'a>(quick: Quick, exponent: i32) -> Head<'a>
    requires { quick.exponent ≡ Some exponent }
    ensures { raw_head result ≡ whole (as_number (as_quick quick)) }
{
    Head::Decimal(scaled(quick.negative, quick.number, exponent))
}

/// The text of a number that was read in one pass, where it is the canonical one.
#[inline(always)]
pub(super) fn spelled_quick(quick: Quick, text: &[u8]) -> Option<&[u8]>
    requires { AreSpelled text.now quick }
    ensures { IfSome result (λ t. IsTextOf t.now (whole (as_number (as_quick quick)))) }
{
    if quick.canonical { Some(text) } else { None }
}

// A number that was read in one pass, as a head.
#[inline(always)]
fn quick_head<'a>(quick: Quick) -> Head<'a>
    ensures { raw_head result ≡ whole (as_number (as_quick quick)) }
{
    match quick.exponent {
        Some(exponent) => decimal_head(quick, exponent),
        None => int_head(quick),
    }
}

// A number or a timestamp, as a head.
#[inline(always)]
fn head_of<'a>(number: Number) -> Head<'a>
    ensures { raw_head result ≡ whole (as_number number) }
{
    match number {
        Number::Int(int) => Head::Int(int),
        Number::Decimal(decimal) => Head::Decimal(decimal),
        Number::Timestamp(timestamp) => Head::Timestamp(timestamp),
    }
}

/// Any number or timestamp, and a float where floats are read.
#[inline(never)]
pub(super) fn run_head<'a>(limits: Rules, place: u64, bytes: &'a [u8]) -> Option<Found<'a>>
    requires { BeginsAs a_run bytes.now }
    ensures { IfSome result (IsFound limits place bytes.now) }
{
    if limits.floats {
        if let Some((float, count)) = scan_quick_float(limits.scalar, bytes) {
            return Some(found_as(Head::Float(float), after(count, bytes)));
        }
    }
    match scan_number(limits.scalar, bytes) {
        Scanned::Whole(Numeral::Number(number), count) => {
            Some(found_as(head_of(number), after(count, bytes)))
        }
        Scanned::Whole(Numeral::Float(Some(float)), count) if limits.floats => {
            Some(found_as(Head::Float(float), after(count, bytes)))
        }
        _ => None,
    }
}

// A number: an int or a decimal is mostly read in one pass.
#[inline(always)]
fn number_head<'a>(limits: Rules, place: u64, bytes: &'a [u8]) -> Option<Found<'a>>
    requires { BeginsAs a_run bytes.now }
    ensures { IfSome result (IsFound limits place bytes.now) }
{
    let Some(quick) = scan_quick(limits.scalar, bytes) else {
        return run_head(limits, place, bytes);
    };
    Some(Found {
        head: quick_head(quick),
        spelled: spelled_quick(quick, front(quick.count, bytes)),
        rest: after(quick.count, bytes),
    })
}

/// A string of plain bytes alone.
#[inline(always)]
pub(super) fn string_head<'a>(limits: Rules, place: u64, bytes: &'a [u8]) -> Option<Found<'a>>
    requires { BeginsAs a_short bytes.now }
    ensures { IfSome result (IsFound limits place bytes.now) }
{
    let Some(string) = text_between(Quote::Short, limits.scalar, bytes) else {
        return None;
    };
    Some(found_as(Head::String(string.text), string.rest))
}

// A word: a null, a bool, or a symbol after which no two colons come.
#[inline(always)]
fn word_head<'a>(limits: Rules, place: u64, bytes: &'a [u8]) -> Option<Found<'a>>
    requires { BeginsAs a_word bytes.now }
    ensures { IfSome result (IsFound limits place bytes.now) }
{
    match scan_simple(limits.scalar, bytes) {
        Scanned::Whole(Word::Name, count) => symbol_head(limits, place, count, bytes),
        Scanned::Whole(word, count) => keyword_head(limits, place, word, count, bytes),
        _ => zero_head(limits, place, bytes),
    }
}

/// A null or a bool that has so many bytes.
#[inline(always)]
pub(super) fn keyword_head<'a>(
    limits: Rules,
    place: u64,
    word: Word,
    count: usize,
    bytes: &'a [u8],
) -> Option<Found<'a>>
    requires begins { BeginsAs a_word bytes.now }
    requires shows { Shows (word_token_of (take count bytes.now)) bytes.now
        (Scanned.Whole word count) (token_of (Some limits.scalar) a_word) }
    ensures { IfSome result (IsFound limits place bytes.now) }
{
    let rest = after(count, bytes);
    match word {
        Word::Null(ion_type) => Some(found_as(Head::Null(ion_type), rest)),
        Word::Bool(truth) => Some(found_as(Head::Bool(truth), rest)),
        _ => None,
    }
}

/// A symbol that has so many bytes, where a token is told after it that is no two colons.
#[inline(always)]
pub(super) fn symbol_head<'a>(
    limits: Rules,
    place: u64,
    count: usize,
    bytes: &'a [u8],
) -> Option<Found<'a>>
    requires begins { BeginsAs a_word bytes.now }
    requires word { IsSimpleWord limits.scalar bytes.now count }
    ensures { IfSome result (IsFound limits place bytes.now) }
{
    let rest = after(count, bytes);
    if next_told(rest).told == 0 {
        return None;
    }
    let text = front(count, bytes);
    let name = SymAt {
        sym: Sym::Text(text),
        place,
    };
    Some(Found {
        head: Head::Symbol(name),
        spelled: Some(text),
        rest,
    })
}

/// A symbol in quotes of plain bytes alone, where a token is told after it that is no two colons.
#[inline(never)]
pub(super) fn quoted_head<'a>(limits: Rules, place: u64, bytes: &'a [u8]) -> Option<Found<'a>>
    requires { BeginsAs a_quoted bytes.now }
    ensures { IfSome result (IsFound limits place bytes.now) }
{
    let Some(symbol) = text_between(Quote::Symbol, limits.scalar, bytes) else {
        return None;
    };
    if next_told(symbol.rest).told == 0 {
        return None;
    }
    let name = SymAt {
        sym: Sym::Text(symbol.text),
        place,
    };
    Some(found_as(Head::Symbol(name), symbol.rest))
}

/// The symbol `$0`, where a token is told after it that is no two colons.
#[inline(always)]
pub(super) fn zero_head<'a>(limits: Rules, place: u64, bytes: &'a [u8]) -> Option<Found<'a>>
    ensures { IfSome result (IsFound limits place bytes.now) }
{
    if !is_zero_id(limits.scalar, bytes) {
        return None;
    }
    let rest = after(2, bytes);
    if next_told(rest).told == 0 {
        return None;
    }
    let zero = SymAt {
        sym: Sym::Id(0),
        place,
    };
    Some(found_as(Head::Symbol(zero), rest))
}

/// The kind of token that begins so, where it begins an item that may be handed on.
#[inline(always)]
pub(super) fn token(next: Next<'_>) -> Option<First>
    requires { Begins next }
    ensures { IfSome result (λ f. BeginsAs (first_of f) next.entry.rest.now) }
{
    match next.told {
        1 => Some(First::Word),
        2 => Some(First::Number),
        3 => Some(First::String),
        5 => Some(First::Begin(Kind::List)),
        6 => Some(First::Begin(Kind::Sexp)),
        10 => Some(First::Begin(Kind::Struct)),
        _ if begins_quoted(next.rest) => Some(First::QuotedSymbol),
        _ => None,
    }
}

// Whether a symbol in quotes that has a byte begins at the front of these bytes.
#[tactic(auto, unfolding(crate::specs::Token::first_at, crate::specs::Blanks::blanks_at))]
#[inline(always)]
fn begins_quoted(bytes: &[u8]) -> bool
    ensures { result ≡ true → BeginsAs a_quoted bytes.now }
{
    match bytes {
        [b'\'', next, ..] => *next != b'\'',
        _ => false,
    }
}
