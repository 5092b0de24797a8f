//! Words: keywords, ids and symbols without quotes (Ion specification, "Text Encoding").
ghost use Rattle.std.specs.Prelude.{◌≡◌, ◌&&◌, ◌==◌, ◌≤◌, ◌<◌, ◌*◌, codes, length, Some, None, Ok, Err, true, false, IfOk, IfSome, MatchResult, OnOk};
ghost use Rattle.std.specs.Str.{bytes_eq};
ghost use Rattle.ion_meter.specs.Windows.{lent};
ghost use Rattle.ion_value.specs.Calls.{AnswersBy, CanRead, ReadsInto, passed_over};
ghost use Rattle.ion_value.specs.Digits.{first_is};
ghost use Rattle.ion_text_in.specs.Runs.{CanAppend};
ghost use Rattle.ion_value.specs.Name.{type_named};
ghost use Rattle.ion_text_in.specs.Scanners.{Shows};
ghost use Rattle.ion_text_in.specs.Token.{a_word, token_of, word_of, word_token};
ghost use Rattle.ion_text_in.specs.Feeding.{IfName, IsBegun, IsSimpleWord, IsZeroId};
ghost use Rattle.ion_value.specs.Shares.{GrowsWithin};
ghost use Rattle.ion_text_in.specs.Symbols.{prepaid_word};
ghost use Rattle.ion_text_in.specs.Views.{AreShown, IsWithin, id_in, may_be_keyword, shown_text, spelled, with_name, word_token_of};

use crate::gather::{append, copy, gather, gather_token};
use crate::run::{CLASSES, Run, word_run};
use crate::scanned::Scanned;
use ion_meter::buf::Buf;
use ion_meter::device::Input;
use ion_meter::fault::{Fault, Reason};
use ion_meter::meter::Meter;
use ion_meter::profile::Rules;
use ion_meter::source::Source;
use ion_value::ion_type::IonType;
use ion_value::name::{is_false, is_identifier_byte, is_nan, is_null, is_true};
use std::alloc::Allocator;

/// A word. The bytes of a symbol stand beside it.
#[derive(Clone, Copy)]
pub(crate) enum Word {
    /// The null of a type.
    Null(IonType),
    /// A truth value.
    Bool(bool),
    /// `nan`.
    Nan,
    /// A symbol's id, where 2^31 stands for every id above 2^31 - 1.
    Id(u32),
    /// A symbol by its text.
    Name,
}

/// What a slice shows of the word that begins at the front of it.
///
/// Its bytes are those at the front of the slice. Answers `ScalarLimit` where it has more than the
/// limit, and then `BadToken` where no type's name stands after `null.`.
#[inline(never)]
pub(crate) fn scan_word(limit: u64, bytes: &[u8]) -> Scanned<Word>
    ensures shows { Shows (word_token_of (shown_text bytes.now result)) bytes.now result
        (token_of (Some limit) a_word) }
    ensures within { IsWithin limit result }
{
    let Some(count) = word_extent(bytes) else {
        return Scanned::Cut;
    };
    if limit < count as u64 {
        return Scanned::Fault(Reason::ScalarLimit);
    }
    match word_by(&bytes[..count]) {
        Ok(word) => Scanned::Whole(word, count),
        Err(reason) => Scanned::Fault(reason),
    }
}

/// How many bytes the word has that begins at the front of a slice, where the slice shows it, it has
/// no more than the limit, and it is a symbol that does not begin with a dollar sign.
#[inline(always)]
pub(crate) fn simple_word(limit: u64, bytes: &[u8]) -> Option<usize>
    ensures { IfSome result (IsSimpleWord limit bytes.now) }
{
    match scan_simple(limit, bytes) {
        Scanned::Whole(Word::Name, count) => Some(count),
        _ => None,
    }
}

/// What a slice shows of the word that begins at the front of it, where that is a symbol that does
/// not begin with a dollar sign, or a keyword, and has no more bytes than the limit.
#[inline(always)]
pub(crate) fn scan_simple(limit: u64, bytes: &[u8]) -> Scanned<Word>
    ensures shows { Shows (word_token_of (shown_text bytes.now result)) bytes.now result
        (token_of (Some limit) a_word) }
    ensures name { IfName (IsSimpleWord limit bytes.now) result }
{
    let Some(count) = begun_word(limit, bytes) else {
        return Scanned::Cut;
    };
    if !may_be_keyword(bytes) {
        return Scanned::Whole(Word::Name, count);
    }
    let word = &bytes[..count];
    if has_type(word, &bytes[count..]) {
        return typed_null(limit, bytes);
    }
    match keyword_or_name(word) {
        Ok(word) => Scanned::Whole(word, count),
        Err(_) => Scanned::Cut,
    }
}

/// Whether a slice shows the word `$0` at the front of it, which has no more bytes than the limit.
#[inline(always)]
pub(crate) fn is_zero_id(limit: u64, bytes: &[u8]) -> bool
    ensures { result ≡ true → IsZeroId limit bytes.now }
{
    match bytes {
        [b'$', b'0', next, ..] => limit >= 2 && !is_identifier_byte(*next),
        _ => false,
    }
}

// How many bytes stand at the front of a slice that are a word without a type after it, where the
// slice shows them, they are no more than the limit, and begin as a symbol does, but for `$`.
#[inline(always)]
fn begun_word(limit: u64, bytes: &[u8]) -> Option<usize>
    ensures { IfSome result (IsBegun limit bytes.now) }
{
    let [first, others @ ..] = bytes else {
        return None;
    };
    if CLASSES[*first as usize] < 3 {
        return None;
    }
    let extent = word_run(others);
    if !extent.ended {
        return None;
    }
    let count = 1 + extent.len;
    if limit < count as u64 {
        return None;
    }
    Some(count)
}

// What a slice shows of a null with the name of a type. `scan_word` is a call, whose result has a place
// in memory: here in line, so that only this path clears it, and not each word.
#[inline(always)]
fn typed_null(limit: u64, bytes: &[u8]) -> Scanned<Word>
    ensures shows { Shows (word_token_of (shown_text bytes.now result)) bytes.now result
        (token_of (Some limit) a_word) }
    ensures name { IfName (IsSimpleWord limit bytes.now) result }
{
    match scan_word(limit, bytes) {
        Scanned::Whole(Word::Null(ion_type), count) => {
            Scanned::Whole(Word::Null(ion_type), count)
        }
        _ => Scanned::Cut,
    }
}

/// The word that begins here: the bytes of a symbol are copied to `text`.
///
/// Answers `ScalarLimit` where it has more bytes than the limit, and then `BadToken` where no type's
/// name stands after `null.`, each at the place of its first byte.
#[inline(always)]
pub(crate) fn next_word<I: Input, A: Allocator + Copy>(
    source: &mut Source<I, A>,
    text: &mut Buf<A>,
    limits: Rules,
    meter: &mut Meter<A>,
) -> Result<Word, Fault>
    requires can_read { CanRead limits limits.scalar source.old text.old meter.old }
    requires there { 1 ≤ length (lent source.old) }
    ensures gives { AnswersBy I.Input (word_token_of text.new) source.old source.new
        source.old.place result (token_of (Some limits.scalar) a_word) }
    ensures further { OnOk result (source.old.place < source.new.place) }
    ensures reads { ReadsInto I.Input source.old source.new meter.old meter.new
        (length text.old) (length text.new) limits.scalar result }
    ensures goes { GrowsWithin meter.old meter.new (length text.old) (length text.new)
        (8 * passed_over source.old source.new) }
    ensures fresh { IfOk result
        (λ word. prepaid_word text.new word ≤ 8 * passed_over source.old source.new) }
{
    match scan_word(limits.scalar, source.buffer()) {
        Scanned::Whole(word, count) => match word {
            Word::Name => {
                copy(source, text, count, limits, meter)?;
                Ok(Word::Name)
            }
            _ => {
                source.consume(count);
                Ok(word)
            }
        },
        Scanned::Fault(reason) => Err(Fault::Refused(reason, source.place())),
        Scanned::Cut => gather_word(source, text, limits, meter),
    }
}

// The word that begins here, where the window's end cuts it.
#[cold]
#[inline(never)]
fn gather_word<I: Input, A: Allocator + Copy>(
    source: &mut Source<I, A>,
    text: &mut Buf<A>,
    limits: Rules,
    meter: &mut Meter<A>,
) -> Result<Word, Fault>
    requires can_read { CanRead limits limits.scalar source.old text.old meter.old }
    requires there { 1 ≤ length (lent source.old) }
    ensures gives { AnswersBy I.Input (word_token_of text.new) source.old source.new
        source.old.place result (token_of (Some limits.scalar) a_word) }
    ensures further { OnOk result (source.old.place < source.new.place) }
    ensures reads { ReadsInto I.Input source.old source.new meter.old meter.new
        (length text.old) (length text.new) limits.scalar result }
    ensures goes { GrowsWithin meter.old meter.new (length text.old) (length text.new)
        (8 * passed_over source.old source.new) }
    ensures fresh { IfOk result
        (λ word. prepaid_word text.new word ≤ 8 * passed_over source.old source.new) }
{
    let place = source.place();
    gather_typed(source, text, limits, meter)?;
    match word_by(text.as_slice()) {
        Ok(word) => Ok(word),
        Err(reason) => Err(Fault::Refused(reason, place)),
    }
}

// Gathers the bytes of a word, with the name of a type where one belongs to it.
fn gather_typed<I: Input, A: Allocator + Copy>(
    source: &mut Source<I, A>,
    text: &mut Buf<A>,
    limits: Rules,
    meter: &mut Meter<A>,
) -> Result<(), Fault>
    requires can_read { CanRead limits limits.scalar source.old text.old meter.old }
    requires there { 1 ≤ length (lent source.old) }
    ensures gives { AnswersBy I.Input (λ _. text.new) source.old source.new source.old.place result
        (spelled word_of (Some limits.scalar)) }
    ensures further { OnOk result (source.old.place < source.new.place) }
    ensures reads { ReadsInto I.Input source.old source.new meter.old meter.new
        (length text.old) (length text.new) limits.scalar result }
    ensures goes { GrowsWithin meter.old meter.new (length text.old) (length text.new)
        (8 * passed_over source.old source.new) }
    ensures fresh { OnOk result (length text.new ≤ 8 * passed_over source.old source.new) }
{
    let place = source.place();
    gather_token(source, text, Run::Word, limits, meter)?;
    if !is_text(text.as_slice(), b"null") {
        return Ok(());
    }
    gather_type(source, text, limits, place, meter)
}

// Adds a point and the name of a type to `null`, in a word that begins at a place.
fn gather_type<I: Input, A: Allocator + Copy>(
    source: &mut Source<I, A>,
    text: &mut Buf<A>,
    limits: Rules,
    place: u64,
    meter: &mut Meter<A>,
) -> Result<(), Fault>
    requires can_append { CanAppend limits source.old text.old meter.old }
    ensures gives { AnswersBy I.Input (λ _. text.new) source.old source.new place result
        (with_name (Some limits.scalar) text.old) }
    ensures reads { ReadsInto I.Input source.old source.new meter.old meter.new
        (length text.old) (length text.new) limits.scalar result }
    ensures goes { GrowsWithin meter.old meter.new (length text.old) (length text.new)
        (8 * passed_over source.old source.new) }
{
    let Some(b'.') = source.peek(0)? else {
        return Ok(());
    };
    append(source, text, 1, limits, place, meter)?;
    gather(source, text, Run::Word, limits, place, meter)
}

// How many bytes the word has that begins at the front of a slice, where the slice shows it.
#[inline(always)]
fn word_extent(bytes: &[u8]) -> Option<usize>
    ensures { IfSome result (AreShown word_of bytes.now) }
{
    let [_, others @ ..] = bytes else {
        return None;
    };
    let extent = word_run(others);
    if !extent.ended {
        return None;
    }
    let count = 1 + extent.len;
    if !has_type(&bytes[..count], &bytes[count..]) {
        return Some(count);
    }
    let name = word_run(&bytes[count + 1..]);
    if !name.ended {
        return None;
    }
    Some(count + 1 + name.len)
}

// Whether the name of a type belongs to a word, with these bytes after it.
#[inline(always)]
fn has_type(word: &[u8], after: &[u8]) -> bool
    ensures { result ≡ (bytes_eq (codes "null") word.now && first_is (λ b. b == 46) after.now) }
{
    is_null(word) && matches!(after, [b'.', ..])
}

// Whether these bytes are a text.
#[inline(always)]
fn is_text(bytes: &[u8], text: &[u8]) -> bool
    ensures { result ≡ bytes_eq text.now bytes.now }
{
    bytes == text
}

// The word of these bytes.
#[inline(always)]
fn word_by(word: &[u8]) -> Result<Word, Reason>
    ensures { MatchResult result (λ w. word_token word.now ≡ Ok (word_token_of word.now w))
        (λ reason. word_token word.now ≡ Err reason) }
{
    if may_be_keyword(word) {
        return keyword_or_name(word);
    }
    let [b'$', digits @ ..] = word else {
        return Ok(Word::Name);
    };
    match id_of(digits) {
        Some(id) => Ok(Word::Id(id)),
        None => Ok(Word::Name),
    }
}

// Whether a word begins as a keyword does.
#[inline(always)]
fn may_be_keyword(word: &[u8]) -> bool
    ensures { result ≡ may_be_keyword word.now }
{
    match word {
        [first, ..] => CLASSES[*first as usize] > 3,
        [] => false,
    }
}

// What a word is that begins as a keyword does.
#[tactic(auto, unfolding(crate::specs::Token::word_token))]
#[inline(always)]
fn keyword_or_name(word: &[u8]) -> Result<Word, Reason>
    requires { first_is (λ b. b == 36) word.now ≡ false }
    ensures { MatchResult result (λ w. word_token word.now ≡ Ok (word_token_of word.now w))
        (λ reason. word_token word.now ≡ Err reason) }
{
    if is_null(word) {
        return Ok(Word::Null(IonType::Null));
    }
    if let [b'n', b'u', b'l', b'l', b'.', name @ ..] = word {
        return match type_named(name) {
            Some(ion_type) => Ok(Word::Null(ion_type)),
            None => Err(Reason::BadToken),
        };
    }
    if is_true(word) {
        return Ok(Word::Bool(true));
    }
    if is_false(word) {
        return Ok(Word::Bool(false));
    }
    if is_nan(word) {
        return Ok(Word::Nan);
    }
    Ok(Word::Name)
}

// The type of a name.
fn type_named(name: &[u8]) -> Option<IonType>
    ensures { result ≡ type_named name.now }
{
    if is_text(name, b"null") {
        Some(IonType::Null)
    } else if is_text(name, b"bool") {
        Some(IonType::Bool)
    } else if is_text(name, b"int") {
        Some(IonType::Int)
    } else if is_text(name, b"float") {
        Some(IonType::Float)
    } else if is_text(name, b"decimal") {
        Some(IonType::Decimal)
    } else if is_text(name, b"timestamp") {
        Some(IonType::Timestamp)
    } else if is_text(name, b"symbol") {
        Some(IonType::Symbol)
    } else if is_text(name, b"string") {
        Some(IonType::String)
    } else if is_text(name, b"clob") {
        Some(IonType::Clob)
    } else if is_text(name, b"blob") {
        Some(IonType::Blob)
    } else if is_text(name, b"list") {
        Some(IonType::List)
    } else if is_text(name, b"sexp") {
        Some(IonType::Sexp)
    } else if is_text(name, b"struct") {
        Some(IonType::Struct)
    } else {
        None
    }
}

// The number of these digits, where 2^31 stands for every greater one; none where there is no digit,
// or another byte.
#[inline]
fn id_of(digits: &[u8]) -> Option<u32>
    ensures { result ≡ id_in digits.now }
{
    if digits.is_empty() {
        return None;
    }
    let mut id = 0;
    'digits: for byte in digits {
        if !byte.is_ascii_digit() {
            return None;
        }
        id = (id * 10 + u64::from(*byte - b'0')).min(1 << 31);
    }
    Some(id as u32)
}
