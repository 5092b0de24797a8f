//! Quotes, and the plain bytes between them (Ion specification, "Strings", "Symbols" and "Clobs").
ghost use Rattle.std.specs.Prelude.{◌≡◌, ◌<◌, ◌≤◌, ◌↔◌, ◌&&◌, ◌||◌, ◌==◌, nat_le, not, [], ◌∷◌, true, false, Some, map, length, take, drop, IsTrue, IsUtf8};
ghost use Rattle.std.specs.Simd.Lanes.{mask_l};
ghost use Rattle.ion_value.specs.Name.{is_one_of};
ghost use Rattle.ion_value.specs.Digits.{first_is, all_are};
ghost use Rattle.ion_text_in.specs.Quotes.{quote_of, mark_of, is_sure, IsWithin, StopsBefore};
ghost use Rattle.ion_text_in.specs.Quoted.{text_at};
ghost use Rattle.ion_text_in.specs.Scanners.{Shows};
ghost use Rattle.ion_text_in.specs.Scanning.{is_plain_byte};

use crate::scanned::Scanned;
use ion_meter::fault::Reason;
use std::simd::prelude::*;

/// The quotes that a text stands between.
#[derive(Clone, Copy)]
pub(crate) enum Quote {
    /// `'`, around a symbol.
    Symbol,
    /// `"`, around a string.
    Short,
    /// `"`, around the text of a clob.
    ShortClob,
    /// `'''`, around a segment of a long string.
    Long,
    /// `'''`, around a segment of a long clob.
    LongClob,
}

impl Quote {
    /// The byte that the quotes are made of.
    #[inline(always)]
    pub(crate) fn mark(self) -> u8
        ensures { result ≡ mark_of self }
    {
        match self {
            Quote::Short | Quote::ShortClob => b'"',
            _ => b'\'',
        }
    }

    /// Whether there are three of it, so that lines may end in the text and segments follow.
    #[inline(always)]
    pub(crate) fn is_long(self) -> bool
        ensures { result ≡ (quote_of self).is_long }
    {
        matches!(self, Quote::Long | Quote::LongClob)
    }

    #[inline(always)]
    pub(crate) fn in_clob(self) -> bool
        ensures { result ≡ (quote_of self).in_clob }
    {
        matches!(self, Quote::ShortClob | Quote::LongClob)
    }
}

/// A text of plain bytes alone, whose closing quote stands in these bytes: how many there are.
///
/// `Cut` where the bytes end before, where something else stands in the text, and for long quotes.
/// Answers `ScalarLimit` for more bytes than the limit allows, and then `BadText` for bytes that
/// are no UTF-8, but in a clob.
#[inline(always)]
pub(crate) fn scan_text(quote: Quote, limit: u64, bytes: &[u8]) -> Scanned<usize>
    ensures shows { Shows (λ n. take n bytes.now) bytes.now result
        (λ c. text_at (quote_of quote) (Some limit) c) }
    ensures within { IsWithin limit result }
    ensures known { result ≡ Scanned.Cut → (quote_of quote).is_long ≡ false
        → StopsBefore quote bytes.now }
{
    if !quote.is_long() && bytes.len() >= BLOCK {
        // Bytes that are plain in a clob are ASCII, so they need no test for UTF-8.
        let suspects = suspects(quote.mark(), true, u8x32::from_slice(bytes));
        let near = suspects.trailing_zeros() as usize;
        if suspects != 0 && bytes[near] == quote.mark() && near as u64 <= limit {
            return Scanned::Whole(near, near + 1);
        }
    }
    let plain = plain_length(quote, bytes);
    if quote.is_long() || plain == bytes.len() || bytes[plain] != quote.mark() {
        return Scanned::Cut;
    }
    if limit < plain as u64 {
        return Scanned::Fault(Reason::ScalarLimit);
    }
    if !quote.in_clob() && !is_text(&bytes[..plain]) {
        return Scanned::Fault(Reason::BadText);
    }
    Scanned::Whole(plain, plain + 1)
}

#[inline(always)]
pub(crate) fn is_text(bytes: &[u8]) -> bool
    ensures { IsTrue result ↔ IsUtf8 bytes.now }
{
    simdutf8::basic::from_utf8(bytes).is_ok()
}

// How many bytes are looked at together.
const BLOCK: usize = 32;

/// How many bytes at the front of these stand for themselves between the quotes, whatever follows
/// them.
#[inline(always)]
pub(crate) fn plain_length(quote: Quote, bytes: &[u8]) -> usize
    ensures within { result ≤ length bytes.now }
    ensures plain { all_are (is_plain_byte (quote_of quote)) (take result bytes.now) ≡ true }
    ensures ends { first_is (is_plain_byte (quote_of quote)) (drop result bytes.now) ≡ false }
{
    let mark = quote.mark();
    let in_clob = quote.in_clob();
    let mut at = 0;
    'skip: while bytes.len() - at >= BLOCK {
        let suspects = suspects(mark, in_clob, u8x32::from_slice(&bytes[at..]));
        if suspects == 0 {
            at += BLOCK;
        } else {
            let next = at + suspects.trailing_zeros() as usize;
            let byte = bytes[next];
            // Of those that are suspect only bytes below the space may stand for themselves.
            if byte >= b' ' || !is_plain_alone(quote, byte) {
                return next;
            }
            at = next + 1;
        }
    }
    'few: while at < bytes.len() && is_plain_alone(quote, bytes[at]) {
        at += 1;
    }
    at
}

// Which of these bytes may stand for something else than themselves: a bit for each, the lowest for
// the first. Those are the mark, a backslash, bytes below the space and, in a clob, bytes that are no
// ASCII; of those below the space a few stand for themselves all the same. Counted round from the
// space, bytes that are no ASCII come after those that are, and those below the space last, so that
// one comparison tells both.
#[inline(always)]
fn suspects(mark: u8, in_clob: bool, bytes: u8x32) -> u64
    ensures { result ≡ mask_l (map (λ b. not (is_sure mark in_clob b)) bytes) }
{
    let others = if in_clob { 96 } else { 224 };
    let is_mark = u8x32::splat(mark).simd_eq(bytes);
    let is_escape = bytes.simd_eq(u8x32::splat(b'\\'));
    let is_other = (bytes - u8x32::splat(b' ')).simd_ge(u8x32::splat(others));
    (is_mark | is_escape | is_other).to_bitmask()
}

// Whether a byte stands for itself between such quotes, whatever follows it.
#[tactic(auto, using(crate::proofs::Quotes::plain_mark))]
#[inline(always)]
fn is_plain_alone(quote: Quote, byte: u8) -> bool
    ensures { result ≡ is_plain_byte (quote_of quote) byte }
{
    let written = is_written(byte) && (!quote.in_clob() || byte < 128);
    byte != quote.mark() && (written || quote.is_long() && byte == b'\n')
}

// Which bytes stand for themselves between quotes of another sort, where the text is no clob's.
static WRITTEN_BYTES: [u8; 256] = [
    0, 0, 0, 0, 0, 0, 0, 0, 0, 1, 0, 1, 1, 0, 0, 0, 0, 0, 0, 0, 0, 0, 0, 0, 0, 0, 0, 0, 0, 0, 0, 0,
    1, 1, 1, 1, 1, 1, 1, 1, 1, 1, 1, 1, 1, 1, 1, 1, 1, 1, 1, 1, 1, 1, 1, 1, 1, 1, 1, 1, 1, 1, 1, 1,
    1, 1, 1, 1, 1, 1, 1, 1, 1, 1, 1, 1, 1, 1, 1, 1, 1, 1, 1, 1, 1, 1, 1, 1, 1, 1, 1, 1, 0, 1, 1, 1,
    1, 1, 1, 1, 1, 1, 1, 1, 1, 1, 1, 1, 1, 1, 1, 1, 1, 1, 1, 1, 1, 1, 1, 1, 1, 1, 1, 1, 1, 1, 1, 1,
    1, 1, 1, 1, 1, 1, 1, 1, 1, 1, 1, 1, 1, 1, 1, 1, 1, 1, 1, 1, 1, 1, 1, 1, 1, 1, 1, 1, 1, 1, 1, 1,
    1, 1, 1, 1, 1, 1, 1, 1, 1, 1, 1, 1, 1, 1, 1, 1, 1, 1, 1, 1, 1, 1, 1, 1, 1, 1, 1, 1, 1, 1, 1, 1,
    1, 1, 1, 1, 1, 1, 1, 1, 1, 1, 1, 1, 1, 1, 1, 1, 1, 1, 1, 1, 1, 1, 1, 1, 1, 1, 1, 1, 1, 1, 1, 1,
    1, 1, 1, 1, 1, 1, 1, 1, 1, 1, 1, 1, 1, 1, 1, 1, 1, 1, 1, 1, 1, 1, 1, 1, 1, 1, 1, 1, 1, 1, 1, 1,
];

// Whether a byte is one of these.
#[inline(always)]
fn is_written(byte: u8) -> bool
    ensures { result ≡ (not (byte == 92)
        && (nat_le 32 byte || is_one_of (9 ∷ 11 ∷ 12 ∷ []) byte)) }
{
    WRITTEN_BYTES[byte as usize] > 0
}
