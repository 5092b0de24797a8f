//! Which kind of token begins at a place (Ion specification, "Text Encoding").
ghost use Rattle.std.specs.Prelude.{◌≡◌, ◌≢◌, ℕ, List, [], ◌+◌, ◌++◌, ◌∷◌, ◌<◌, ◌≤◌, length, slice_index, Bool, true, false, Ok, Err, ◌⊎◌, IfOk, IfSome, IsSome, MatchOption};
ghost use Rattle.ion_meter.specs.Sources.{cursor, Stands};
ghost use Rattle.ion_meter.specs.Windows.{lent};
ghost use Rattle.ion_value.specs.Calls.{Reads};
ghost use Rattle.ion_text_in.specs.Firsts.{first_of, is_inf, is_told_alone, numbered, width, IsAhead};
ghost use Rattle.ion_text_in.specs.Blanks.{blanks};
ghost use Rattle.ion_text_in.specs.Meaning.{at};
ghost use Rattle.ion_text_in.specs.Overrun.{EndsWhite};
ghost use Rattle.ion_text_in.specs.Token.{a_colon, first_at};

use crate::blank::pass_blanks;
use crate::run::is_operator_byte;
use ion_meter::device::Input;
use ion_meter::fault::{Fault, Reason};
use ion_meter::source::Source;
use ion_value::ion_type::Kind;
use ion_value::name::is_identifier_byte;
use std::alloc::Allocator;

/// A kind of token.
#[derive(Clone, Copy)]
pub(crate) enum First {
    /// A number or a timestamp: a digit, or a minus and a digit.
    Number,
    /// A word: a letter, `_` or `$`.
    Word,
    /// A symbol in quotes: `'`.
    QuotedSymbol,
    /// A string: `"`.
    String,
    /// A long string: `'''`.
    LongString,
    /// A blob or a clob: `{{`.
    Lob,
    /// An operator, which stands in sexps alone.
    Operator,
    /// `+inf` or `-inf`.
    Infinity,
    /// A container begins: `{`, `[` or `(`.
    Begin(Kind),
    /// A container ends: `}`, `]` or `)`.
    End(Kind),
    /// `,`
    Comma,
    /// `:`
    Colon,
    /// `::`
    Colons,
    /// No token.
    Nothing,
}

/// What comes after blanks.
#[derive(Clone, Copy)]
pub(crate) struct Ahead {
    /// The token that begins there, or none at the input's end.
    pub(crate) first: Option<First>,
    /// Where a comment begins that does not end: it takes the rest of the input.
    pub(crate) unfinished: Option<u64>,
}

/// Which kind of token begins at the front of a slice, where the slice shows it: it does where it
/// has five bytes.
#[tactic(auto, unfolding(crate::specs::Token::first_at))]
#[inline(always)]
pub(crate) fn scan_first(in_sexp: bool, bytes: &[u8]) -> Option<First>
    ensures shows { IfSome result (λ f. (more : List ℕ)
        → first_at in_sexp (bytes.now ++ more) ≡ first_of f) }
    ensures wide { IfSome result (λ f. width (first_of f) ≤ length bytes.now) }
    ensures known { 5 ≤ length bytes.now → IsSome result }
{
    match bytes {
        [] => None,
        [byte, others @ ..] => match *byte {
            b'0'..=b'9' => Some(First::Number),
            b'a'..=b'z' | b'A'..=b'Z' | b'_' | b'$' => Some(First::Word),
            b'"' => Some(First::String),
            b'\'' => match others {
                [] | [b'\''] => None,
                [b'\'', b'\'', ..] => Some(First::LongString),
                _ => Some(First::QuotedSymbol),
            },
            b'{' => match others {
                [] => None,
                [b'{', ..] => Some(First::Lob),
                _ => Some(First::Begin(Kind::Struct)),
            },
            b':' => match others {
                [] => None,
                [b':', ..] => Some(First::Colons),
                _ => Some(First::Colon),
            },
            b'+' | b'-' => sign(in_sexp, *byte, others),
            byte => Some(mark(in_sexp, byte)),
        },
    }
}

/// The number of the kind of token that begins at the front of these bytes, where the first of them
/// tells it, or the first two; or 0. Of two bytes or more, 0 says that no such kind begins there.
#[tactic(auto, unfolding(crate::specs::Token::first_at, crate::specs::Blanks::blanks_at))]
#[inline(always)]
pub(crate) fn told_first(bytes: &[u8]) -> u64
    ensures some { 0 < result → 1 ≤ length bytes.now }
    ensures bare { 0 < result → (place : ℕ) (more : List ℕ)
        → blanks (at place (bytes.now ++ more)) ≡ Ok (at place (bytes.now ++ more)) }
    ensures tells { 0 < result → (in_sexp : Bool) (more : List ℕ)
        → first_at in_sexp (bytes.now ++ more) ≡ numbered result }
    ensures known { 2 ≤ length bytes.now → result ≡ 0 → (in_sexp : Bool) (more : List ℕ) (n : ℕ)
        → first_at in_sexp (bytes.now ++ more) ≢ numbered n }
{
    let [byte, ..] = bytes else {
        return 0;
    };
    let told = FIRST_BYTES[*byte as usize] as u64;
    if told > 0 {
        return told;
    }
    match bytes {
        [b'{', next, ..] if *next != b'{' => 10,
        [b'-', b'0'..=b'9', ..] => 2,
        _ => 0,
    }
}

/// Whether a colon stands at the front of these bytes, and one more byte that is none.
#[tactic(auto, unfolding(crate::specs::Token::first_at, crate::specs::Blanks::blanks_at))]
#[inline(always)]
pub(crate) fn shows_colon(bytes: &[u8]) -> bool
    ensures some { result ≡ true → 1 ≤ length bytes.now }
    ensures bare { result ≡ true → (place : ℕ) (more : List ℕ)
        → blanks (at place (bytes.now ++ more)) ≡ Ok (at place (bytes.now ++ more)) }
    ensures first { result ≡ true → (more : List ℕ)
        → first_at false (bytes.now ++ more) ≡ a_colon }
{
    match bytes {
        [b':', next, ..] => *next != b':',
        _ => false,
    }
}

// The numbers of the kinds that bytes tell alone: 1 for a word, 2 for a number, 3 for a string, 4 for
// a comma, 5 and 6 for the beginnings of a list and a sexp, 7 to 9 for the ends of a struct, a list
// and a sexp. That of a struct's beginning is 10.
static FIRST_BYTES: [u8; 256] = [
    0, 0, 0, 0, 0, 0, 0, 0, 0, 0, 0, 0, 0, 0, 0, 0, 0, 0, 0, 0, 0, 0, 0, 0, 0, 0, 0, 0, 0, 0, 0, 0,
    0, 0, 3, 0, 1, 0, 0, 0, 6, 9, 0, 0, 4, 0, 0, 0, 2, 2, 2, 2, 2, 2, 2, 2, 2, 2, 0, 0, 0, 0, 0, 0,
    0, 1, 1, 1, 1, 1, 1, 1, 1, 1, 1, 1, 1, 1, 1, 1, 1, 1, 1, 1, 1, 1, 1, 1, 1, 1, 1, 5, 0, 8, 0, 1,
    0, 1, 1, 1, 1, 1, 1, 1, 1, 1, 1, 1, 1, 1, 1, 1, 1, 1, 1, 1, 1, 1, 1, 1, 1, 1, 1, 0, 0, 7, 0, 0,
    0, 0, 0, 0, 0, 0, 0, 0, 0, 0, 0, 0, 0, 0, 0, 0, 0, 0, 0, 0, 0, 0, 0, 0, 0, 0, 0, 0, 0, 0, 0, 0,
    0, 0, 0, 0, 0, 0, 0, 0, 0, 0, 0, 0, 0, 0, 0, 0, 0, 0, 0, 0, 0, 0, 0, 0, 0, 0, 0, 0, 0, 0, 0, 0,
    0, 0, 0, 0, 0, 0, 0, 0, 0, 0, 0, 0, 0, 0, 0, 0, 0, 0, 0, 0, 0, 0, 0, 0, 0, 0, 0, 0, 0, 0, 0, 0,
    0, 0, 0, 0, 0, 0, 0, 0, 0, 0, 0, 0, 0, 0, 0, 0, 0, 0, 0, 0, 0, 0, 0, 0, 0, 0, 0, 0, 0, 0, 0, 0,
];

/// Passes over blanks, and tells what comes after them.
///
/// No byte is waited for but those that tell it, and they stand in the window then.
pub(crate) fn next_ahead<I: Input, A: Allocator + Copy>(
    source: &mut Source<I, A>,
    in_sexp: bool,
) -> Result<Ahead, Fault>
    requires stands { Stands source.old }
    ensures ahead { I.observable source.old.device → IfOk result
        (IsAhead in_sexp (cursor I.Input source.old) (cursor I.Input source.new)) }
    ensures wide { IfOk result (λ ahead. IfSome ahead.first
        (λ f. width (first_of f) ≤ length (lent source.new))) }
    ensures shown { (n : ℕ) → EndsWhite (lent source.old) n → n + 5 ≤ length (lent source.old)
        → source.new.device ≡ source.old.device }
    ensures plain { (r : Reason) (p : ℕ) → result ≢ Err (Fault.Refused r p) }
    ensures reads { Reads I.Input source.old source.new result }
{
    let unfinished = pass_blanks(source)?;
    'more: loop {
        let bytes = source.buffer();
        let shown = bytes.len();
        if let Some(first) = scan_first(in_sexp, bytes) {
            let first = Some(first);
            return Ok(Ahead { first, unfinished });
        }
        let Some(_) = source.peek(shown)? else {
            let first = ended_first(in_sexp, source.buffer());
            return Ok(Ahead { first, unfinished });
        };
    }
}

// What begins at the front of a slice where the input ends after it, or none where there is no
// byte. A byte that goes on with no token changes nothing.
#[cold]
fn ended_first(in_sexp: bool, bytes: &[u8]) -> Option<First>
    ensures first { MatchOption result (bytes.now ≡ [])
        (λ f. first_at in_sexp bytes.now ≡ first_of f) }
    ensures wide { IfSome result (λ f. width (first_of f) ≤ length bytes.now) }
{
    let [byte, ..] = bytes else {
        return None;
    };
    if let Some(first) = scan_first(in_sexp, bytes) {
        return Some(first);
    }
    let padded = [
        *byte,
        byte_at(bytes, 1),
        byte_at(bytes, 2),
        byte_at(bytes, 3),
        0,
    ];
    scan_first(in_sexp, &padded)
}

// The byte at an index, or 0 after the last.
fn byte_at(bytes: &[u8], index: usize) -> u8
    ensures { result ≡ slice_index bytes.now index }
{
    if index < bytes.len() { bytes[index] } else { 0 }
}

// What begins with a sign.
#[tactic(auto, unfolding(crate::specs::Token::first_at))]
#[inline(always)]
fn sign(in_sexp: bool, sign: u8, others: &[u8]) -> Option<First>
    requires { (sign ≡ 43) ⊎ (sign ≡ 45) }
    ensures shows { IfSome result (λ f. (more : List ℕ)
        → first_at in_sexp (sign ∷ (others.now ++ more)) ≡ first_of f) }
    ensures wide { IfSome result (λ f. width (first_of f) ≤ 1 + length others.now) }
    ensures known { 4 ≤ length others.now → IsSome result }
{
    if sign == b'-' && matches!(others, [b'0'..=b'9', ..]) {
        return Some(First::Number);
    }
    match is_infinity(others)? {
        true => Some(First::Infinity),
        false if in_sexp => Some(First::Operator),
        false => Some(First::Nothing),
    }
}

// Whether `inf` stands after a sign, and no identifier goes on after it.
#[inline(always)]
fn is_infinity(others: &[u8]) -> Option<bool>
    ensures shows { IfSome result (λ is. (more : List ℕ) → is_inf (others.now ++ more) ≡ is) }
    ensures some { IfSome result (λ _. 1 ≤ length others.now) }
    ensures wide { IfSome result (λ is. is ≡ true → 3 ≤ length others.now) }
    ensures known { 4 ≤ length others.now → IsSome result }
{
    match others {
        [] | [b'i'] | [b'i', b'n'] | [b'i', b'n', b'f'] => None,
        [b'i', b'n', b'f', next, ..] => Some(!is_identifier_byte(*next)),
        _ => Some(false),
    }
}

// What begins with another byte.
#[tactic(auto, unfolding(crate::specs::Token::first_at))]
#[inline(always)]
fn mark(in_sexp: bool, byte: u8) -> First
    requires { is_told_alone byte ≡ true }
    ensures shows { (more : List ℕ) → first_at in_sexp (byte ∷ more) ≡ first_of result }
    ensures wide { width (first_of result) ≡ 1 }
{
    match byte {
        b'[' => First::Begin(Kind::List),
        b'(' => First::Begin(Kind::Sexp),
        b'}' => First::End(Kind::Struct),
        b']' => First::End(Kind::List),
        b')' => First::End(Kind::Sexp),
        b',' => First::Comma,
        _ if in_sexp && is_operator_byte(byte) => First::Operator,
        _ => First::Nothing,
    }
}
