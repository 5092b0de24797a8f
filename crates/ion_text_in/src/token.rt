//! Tokens, each read by the kind that its first bytes tell (Ion specification, "Text Encoding").
ghost use Rattle.std.specs.Prelude.{◌≡◌, ◌<◌, ◌≤◌, ◌+◌, ◌-◌, ◌*◌, ◌^◌, ℕ, List, None, Some, length, OnErr, OnOk, IfErr, IfOk};
ghost use Rattle.ion_meter.specs.Counts.{IsRefused};
ghost use Rattle.ion_meter.specs.Sources.{cursor, skip, Stands};
ghost use Rattle.ion_meter.specs.Windows.{lent, IsPassed};
ghost use Rattle.ion_value.specs.Calls.{CanRead, passed_over};
ghost use Rattle.ion_value.specs.Standing.{InRange};
ghost use Rattle.ion_value.specs.Shares.{GrowsWithin};
ghost use Rattle.ion_value.specs.Items.{raw_field, symbol_at};
ghost use Rattle.ion_text_in.specs.Positions.{at};
ghost use Rattle.ion_text_in.specs.Symbols.{as_field, prepaid, prepaid_word, GrowsBy, IsKept};
ghost use Rattle.ion_text_in.specs.Firsts.{first_of, width};
ghost use Rattle.ion_text_in.specs.Token.{token_of};
ghost use Rattle.ion_text_in.specs.Tokens.{as_scalar, as_symbol, overrun_of, token_view, BodyInRange, ReadsToken, TokenGives, TokenInRange};
ghost use Rattle.ion_text_in.specs.Views.{NumeralInRange, as_number, numeral_token, word_token_of};

use crate::first::First;
use crate::lob::next_lob;
use crate::number::{Number, Numeral, next_infinity, next_number, next_operator};
use crate::quoted::Quote;
use crate::text::{next_long_text, next_short_text};
use crate::word::{Word, next_word};
use ion_meter::buf::Buf;
use ion_meter::device::Input;
use ion_meter::fault::{Fault, Reason};
use ion_meter::meter::Meter;
use ion_meter::profile::Rules;
use ion_meter::source::Source;
use ion_value::decimal::Decimal;
use ion_value::float::Float64;
use ion_value::int::Int;
use ion_value::ion_type::{IonType, Kind};
use ion_value::item::{Annotation, Sym, SymAt};
use ion_value::timestamp::Timestamp;
use std::alloc::Allocator;

/// A symbol. The bytes of a text stand beside it.
#[derive(Clone, Copy)]
pub(crate) enum Symbol {
    Text,
    /// An id, where 2^31 stands for every id above 2^31 - 1.
    Id(u32),
}

/// The name of a field, whose bytes stand beside it, and the place of its first byte.
#[derive(Clone, Copy)]
pub(crate) struct FieldName {
    pub(crate) symbol: Symbol,
    pub(crate) place: u64,
}

/// A scalar. The bytes of a symbol's text, a string, a clob or a blob stand beside it.
#[derive(Clone, Copy)]
pub(crate) enum Body {
    Null(IonType),
    Bool(bool),
    Int(Int),
    Float(Float64),
    Decimal(Decimal),
    /// A timestamp in local time.
    Timestamp(Timestamp),
    Symbol(Symbol),
    String,
    Clob,
    Blob,
}

/// A token. The bytes of a symbol's text, a string, a lob or an operator stand beside it.
#[derive(Clone, Copy)]
pub(crate) enum Token {
    /// A scalar that is neither a symbol nor a string.
    Plain(Body),
    /// A symbol, and whether it stands in quotes.
    Symbol(Symbol, bool),
    /// A string. After a long one blanks were passed over: `Some` is the place where a comment
    /// begins among them that does not end.
    String(Option<u64>),
    Operator,
    /// A float, or none where its digits round to infinity.
    Float(Option<Float64>),
    Begin(Kind),
    End(Kind),
    /// `,`
    Comma,
    /// `:`
    Colon,
    /// `::`
    Colons,
}

/// Reads the token whose kind was told by its first bytes, which stand in the window. The bytes of
/// a text, a lob or an operator are copied to `text`.
///
/// Each fault stands at the token's first byte.
pub(crate) fn next_token<I: Input, A: Allocator + Copy>(
    source: &mut Source<I, A>,
    text: &mut Buf<A>,
    first: First,
    limits: Rules,
    meter: &mut Meter<A>,
) -> Result<Token, Fault>
    requires can_read { CanRead limits limits.scalar source.old text.old meter.old }
    requires there { width (first_of first) ≤ length (lent source.old) }
    ensures gives { I.observable source.old.device → TokenGives text.new source.old.place result
        (cursor I.Input source.new)
        (token_of (Some limits.scalar) (first_of first) (cursor I.Input source.old)) }
    ensures reads { ReadsToken I.Input limits source.old source.new meter.old meter.new
        text.old text.new result }
    ensures goes { GrowsWithin meter.old meter.new (length text.old) (length text.new)
        (16 * passed_over source.old source.new) }
    ensures paid { IfOk result (λ token. length text.new + prepaid text.new token
        ≤ length text.old + 16 * passed_over source.old source.new) }
{
    let place = source.place();
    match first {
        First::Word => Ok(word_token(next_word(source, text, limits, meter)?)),
        First::Number => Ok(numeral_token(next_number(source, text, limits, meter)?)),
        First::Lob => Ok(Token::Plain(next_lob(source, text, limits, meter)?)),
        First::LongString => {
            source.consume(3);
            Ok(Token::String(next_long_text(source, text, Quote::Long, place, limits, meter)?))
        }
        First::String => {
            source.advance();
            next_short_text(source, text, Quote::Short, place, limits, meter)?;
            Ok(Token::String(None))
        }
        First::QuotedSymbol => {
            source.advance();
            next_short_text(source, text, Quote::Symbol, place, limits, meter)?;
            Ok(Token::Symbol(Symbol::Text, true))
        }
        First::Operator => {
            next_operator(source, text, limits, meter)?;
            Ok(Token::Operator)
        }
        First::Infinity => {
            let infinity = next_infinity(source, limits)?;
            Ok(Token::Float(Some(infinity)))
        }
        First::Begin(kind) => Ok(pass(source, 1, Token::Begin(kind))),
        First::End(kind) => Ok(pass(source, 1, Token::End(kind))),
        First::Comma => Ok(pass(source, 1, Token::Comma)),
        First::Colon => Ok(pass(source, 1, Token::Colon)),
        First::Colons => Ok(pass(source, 2, Token::Colons)),
        First::Nothing => Err(Fault::Refused(Reason::BadToken, place)),
    }
}

// Passes over a mark of so many bytes, which stand in the window.
#[inline(always)]
fn pass<I: Input, A: Allocator + Copy>(
    source: &mut Source<I, A>,
    count: usize,
    mark: Token,
) -> Token
    requires stands { Stands source.old }
    requires there { count ≤ length (lent source.old) }
    ensures same { result ≡ mark }
    ensures passed { IsPassed source.old source.new count }
    ensures cursor { cursor I.Input source.new ≡ skip count (cursor I.Input source.old) }
{
    source.consume(count);
    mark
}

#[inline(always)]
fn word_token(word: Word) -> Token
    ensures is { (text : List ℕ) (place : ℕ)
        → token_view text place result ≡ word_token_of text word }
    ensures range { TokenInRange result }
    ensures alone { overrun_of result ≡ None }
    ensures paid { (text : List ℕ) → prepaid text result ≡ prepaid_word text word }
{
    match word {
        Word::Name => Token::Symbol(Symbol::Text, false),
        Word::Id(id) => Token::Symbol(Symbol::Id(id), false),
        Word::Null(ion_type) => Token::Plain(Body::Null(ion_type)),
        Word::Bool(truth) => Token::Plain(Body::Bool(truth)),
        Word::Nan => Token::Float(Some(Float64::nan())),
    }
}

#[inline(always)]
fn numeral_token(numeral: Numeral) -> Token
    ensures is { (text : List ℕ) (place : ℕ)
        → token_view text place result ≡ numeral_token numeral }
    ensures range { NumeralInRange numeral → TokenInRange result }
    ensures alone { overrun_of result ≡ None }
    ensures paid { (text : List ℕ) → prepaid text result ≡ 0 }
{
    match numeral {
        Numeral::Number(number) => Token::Plain(number_body(number)),
        Numeral::Float(float) => Token::Float(float),
    }
}

#[inline(always)]
fn number_body(number: Number) -> Body
    ensures is { (text : List ℕ) (place : ℕ) → as_scalar text place result ≡ as_number number }
    ensures range { InRange (as_number number) → BodyInRange result }
{
    match number {
        Number::Int(int) => Body::Int(int),
        Number::Decimal(decimal) => Body::Decimal(decimal),
        Number::Timestamp(timestamp) => Body::Timestamp(timestamp),
    }
}

// Puts the text of an annotation after those before it.
#[inline]
pub(crate) fn keep_text<A: Allocator + Copy>(
    texts: &mut Buf<A>,
    text: &[u8],
    symbol: Symbol,
    place: u64,
    meter: &mut Meter<A>,
) -> Result<Annotation, Fault>
    requires room { meter.old.held + length text.now < 2 ^ 63 }
    requires countable { meter.old.refused < 2 ^ 64 - 1 }
    ensures kept { IfOk result (IsKept texts.old texts.new text.now symbol place) }
    ensures cost { OnOk result (GrowsBy meter.old meter.new text.now symbol) }
    ensures memory { IfErr result (λ fault. fault ≡ Fault.Memory) }
    ensures err { OnErr result (texts.new ≡ texts.old) }
    ensures refused { OnErr result (IsRefused meter.old meter.new) }
{
    let from = texts.as_slice().len();
    match symbol {
        Symbol::Id(id) => Ok(Annotation::Id { id, place }),
        Symbol::Text => {
            texts.extend(meter, text)?;
            let to = texts.as_slice().len();
            Ok(Annotation::Text { from, to, place })
        }
    }
}

// A symbol and its place, its text being lent.
#[inline]
pub(crate) fn lent_symbol(text: &[u8], symbol: Symbol, place: u64) -> SymAt<'_>
    ensures { symbol_at result ≡ at (as_symbol text.now symbol) place }
{
    match symbol {
        Symbol::Text => SymAt {
            sym: Sym::Text(text),
            place,
        },
        Symbol::Id(id) => SymAt {
            sym: Sym::Id(id),
            place,
        },
    }
}

// The field of an item, its text being lent.
#[inline]
pub(crate) fn lent_field(name: &[u8], field: Option<FieldName>) -> Option<SymAt<'_>>
    ensures { raw_field result ≡ as_field name.now field }
{
    match field {
        None => None,
        Some(field) => Some(lent_symbol(name, field.symbol, field.place)),
    }
}
