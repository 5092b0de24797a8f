//! How far numbers, timestamps, words and operators go (Ion specification, "Text Encoding").
ghost use Rattle.std.specs.Prelude.{◌≡◌, ℕ, List, ◌++◌, ◌||◌, false, not, codes, map, IfSome, MatchOption};
ghost use Rattle.std.specs.Simd.Lanes.{mask_l};
ghost use Rattle.ion_value.specs.Digits.{first_is};
ghost use Rattle.ion_value.specs.Name.{is_identifier_byte, is_one_of, is_operator_byte};
ghost use Rattle.ion_text_in.specs.Blanks.{is_white};
ghost use Rattle.ion_text_in.specs.Token.{bytes_of};
ghost use Rattle.ion_text_in.specs.Views.{AreShown};
ghost use Rattle.ion_text_in.specs.Runs.{goes_on, stays, is_sure_in_number, IsExtent, IsOpen};

use ion_value::name::is_identifier_byte;
use std::simd::prelude::*;

/// A token that goes on byte by byte.
#[derive(Clone, Copy)]
pub(crate) enum Run {
    /// A number or a timestamp, which goes on up to punctuation, a quote, white space or a comment.
    Number,
    /// A word, which has letters, digits, `_` and `$`.
    Word,
    /// An operator, which goes on up to a comment or a byte that is none of an operator.
    Operator,
}

/// How far a token goes on in a slice.
#[derive(Clone, Copy)]
pub(crate) struct Extent {
    /// How many bytes at the front of the slice go on with it.
    pub(crate) len: usize,
    /// Whether the slice shows that no more do. A slash as its last byte does not show it, where a
    /// comment may begin with that.
    pub(crate) ended: bool,
}

/// How far a token goes on in a slice that begins after the first byte of the token.
#[inline(always)]
pub(crate) fn run_extent(run: Run, bytes: &[u8]) -> Extent
    ensures { IsExtent run bytes.now result }
{
    match run {
        Run::Number => number_run(bytes),
        Run::Word => word_run(bytes),
        Run::Operator => run_by_byte(run, bytes),
    }
}

// How far a token goes on in a slice, looked at byte by byte.
#[inline(always)]
fn run_by_byte(run: Run, bytes: &[u8]) -> Extent
    ensures { IsExtent run bytes.now result }
{
    'bytes: for (len, byte) in bytes.iter().enumerate() {
        if stays(run, *byte) {
            continue;
        }
        match ends(run, &bytes[len..]) {
            Some(false) => {}
            Some(true) => return Extent { len, ended: true },
            None => return Extent { len, ended: false },
        }
    }
    let len = bytes.len();
    Extent { len, ended: false }
}

/// How far a word goes on in a slice that begins after its first byte. Most words are so short
/// that sixteen bytes, looked at together, show where they end, and most others end in the next
/// sixteen. A longer one is looked at byte by byte: a loop here costs every short word a register.
#[inline(always)]
pub(crate) fn word_run(bytes: &[u8]) -> Extent
    ensures { IsExtent Run.Word bytes.now result }
{
    if bytes.len() >= 16 {
        let stops = word_stops(u8x16::from_slice(bytes));
        if stops != 0 {
            let len = stops.trailing_zeros() as usize;
            return Extent { len, ended: true };
        }
        if bytes.len() >= 32 {
            let stops = word_stops(u8x16::from_slice(&bytes[16..]));
            if stops != 0 {
                let len = 16 + stops.trailing_zeros() as usize;
                return Extent { len, ended: true };
            }
        }
    }
    run_by_byte(Run::Word, bytes)
}

// Which of these bytes cannot stand in an identifier: a bit for each, the lowest for the first.
#[inline(always)]
fn word_stops(bytes: u8x16) -> u64
    ensures { result ≡ mask_l (map (λ b. not (is_identifier_byte b)) bytes) }
{
    let lower = bytes | u8x16::splat(0x20);
    let no_letter = lower.simd_lt(u8x16::splat(b'a')) | lower.simd_gt(u8x16::splat(b'z'));
    let no_digit = bytes.simd_lt(u8x16::splat(b'0')) | bytes.simd_gt(u8x16::splat(b'9'));
    let no_mark = bytes.simd_ne(u8x16::splat(b'_')) & bytes.simd_ne(u8x16::splat(b'$'));
    (no_letter & no_digit & no_mark).to_bitmask()
}

// How far a number or a timestamp goes on in a slice that begins after its first byte. Most are
// so short that 32 bytes, looked at together, show where they end; others, and those with bytes
// that may end them or not, are looked at byte by byte.
#[inline(always)]
fn number_run(bytes: &[u8]) -> Extent
    ensures { IsExtent Run.Number bytes.now result }
{
    if bytes.len() >= 32 {
        let stops = number_stops(u8x32::from_slice(bytes));
        if stops != 0 {
            let len = stops.trailing_zeros() as usize;
            if stops_number(bytes[len]) {
                return Extent { len, ended: true };
            }
        }
    }
    run_by_byte(Run::Number, bytes)
}

// Which of these bytes may end a number or a timestamp, or stand in few of them: a bit for each, the
// lowest for the first.
#[inline(always)]
fn number_stops(bytes: u8x32) -> u64
    ensures { result ≡ mask_l (map (λ b. not (is_sure_in_number b)) bytes) }
{
    let lower = bytes | u8x32::splat(0x20);
    let brackets = lower.simd_eq(u8x32::splat(b'{')) | lower.simd_eq(u8x32::splat(b'}'));
    let marks = bytes.simd_eq(u8x32::splat(b',')) | bytes.simd_eq(u8x32::splat(b'/'));
    (brackets | marks | bytes.simd_lt(u8x32::splat(b'+'))).to_bitmask()
}

/// How many bytes the token has that begins at the front of a slice, where the slice shows it.
#[inline(always)]
pub(crate) fn token_extent(run: Run, bytes: &[u8]) -> Option<usize>
    ensures { IfSome result (AreShown (bytes_of (goes_on run)) bytes.now) }
{
    let [_, others @ ..] = bytes else {
        return None;
    };
    let extent = run_extent(run, others);
    if !extent.ended {
        return None;
    }
    Some(1 + extent.len)
}

// Classes of bytes: 1 for those that end a number or a timestamp, whatever follows them, 2 for those of
// operators, 3 for those that begin an identifier, but for `$`, and 4 where they begin a keyword too.
pub(crate) static CLASSES: [u8; 256] = [
    0, 0, 0, 0, 0, 0, 0, 0, 0, 1, 1, 1, 1, 1, 0, 0, 0, 0, 0, 0, 0, 0, 0, 0, 0, 0, 0, 0, 0, 0, 0, 0,
    1, 2, 1, 2, 0, 2, 2, 1, 1, 1, 2, 2, 1, 2, 2, 2, 0, 0, 0, 0, 0, 0, 0, 0, 0, 0, 0, 2, 2, 2, 2, 2,
    2, 3, 3, 3, 3, 3, 3, 3, 3, 3, 3, 3, 3, 3, 3, 3, 3, 3, 3, 3, 3, 3, 3, 3, 3, 3, 3, 1, 0, 1, 2, 3,
    2, 3, 3, 3, 3, 3, 4, 3, 3, 3, 3, 3, 3, 3, 4, 3, 3, 3, 3, 3, 4, 3, 3, 3, 3, 3, 3, 1, 2, 1, 2, 0,
    0, 0, 0, 0, 0, 0, 0, 0, 0, 0, 0, 0, 0, 0, 0, 0, 0, 0, 0, 0, 0, 0, 0, 0, 0, 0, 0, 0, 0, 0, 0, 0,
    0, 0, 0, 0, 0, 0, 0, 0, 0, 0, 0, 0, 0, 0, 0, 0, 0, 0, 0, 0, 0, 0, 0, 0, 0, 0, 0, 0, 0, 0, 0, 0,
    0, 0, 0, 0, 0, 0, 0, 0, 0, 0, 0, 0, 0, 0, 0, 0, 0, 0, 0, 0, 0, 0, 0, 0, 0, 0, 0, 0, 0, 0, 0, 0,
    0, 0, 0, 0, 0, 0, 0, 0, 0, 0, 0, 0, 0, 0, 0, 0, 0, 0, 0, 0, 0, 0, 0, 0, 0, 0, 0, 0, 0, 0, 0, 0,
];

// Whether a byte goes on with a token, whatever follows it.
#[inline(always)]
fn stays(run: Run, byte: u8) -> bool
    ensures { result ≡ stays run byte }
{
    match run {
        Run::Number => !stops_number(byte) && byte != b'/',
        Run::Word => is_identifier_byte(byte),
        Run::Operator => is_operator_byte(byte) && byte != b'/',
    }
}

/// Whether this byte ends a number or a timestamp, whatever follows it.
#[inline(always)]
pub(crate) fn stops_number(byte: u8) -> bool
    ensures { result ≡ (is_one_of (codes "{}[](),\"'") byte || is_white byte) }
{
    CLASSES[byte as usize] == 1
}

/// Whether this byte can stand in an operator.
#[inline(always)]
pub(crate) fn is_operator_byte(byte: u8) -> bool
    ensures { result ≡ is_operator_byte byte }
{
    CLASSES[byte as usize] == 2
}

// Whether a token ends before these bytes, of which the first does not go on whatever follows it.
#[inline(always)]
fn ends(run: Run, rest: &[u8]) -> Option<bool>
    requires { first_is (stays run) rest.now ≡ false }
    ensures { MatchOption result (IsOpen run rest.now)
        (λ over. (more : List ℕ) → goes_on run (rest.now ++ more) ≡ not over) }
{
    match rest {
        [] => None,
        [b'/', others @ ..] if !matches!(run, Run::Word) => match others {
            [] => None,
            [next, ..] => Some(*next == b'/' || *next == b'*'),
        },
        _ => Some(true),
    }
}
