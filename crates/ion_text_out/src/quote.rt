//! Bytes between quotes.
ghost use Rattle.std.specs.Prelude.{◌≡◌, ◌<◌, ◌≤◌, ◌-◌, ◌++◌, not, true, false, None, map, length, take, drop};
ghost use Rattle.std.specs.List.{flat_map};
ghost use Rattle.std.specs.Simd.Lanes.{mask_l};
ghost use Rattle.ion_text_out.specs.Escape.{hex_digit, letter, is_shown, escaped, byte_text, between_quotes};
ghost use Rattle.ion_meter.specs.Sinks.{IsPut};
ghost use Rattle.ion_value.specs.Digits.{first_is, all_are};

use crate::put::put;
use ion_meter::device::Output;
use ion_meter::fault::Fault;
use ion_meter::sink::Sink;
use std::alloc::Allocator;
use std::simd::prelude::*;

/// Puts these bytes between two quotes, with escapes for those that do not stand for themselves.
pub fn put_quoted<O: Output, A: Allocator + Copy>(
    sink: &mut Sink<O, A>,
    quote: u8,
    top: u16,
    bytes: &[u8],
) -> Result<(), Fault>
    requires well { sink.old.fault ≡ None }
    ensures { IsPut O.Output sink.old sink.new result (between_quotes quote top bytes.now) }
{
    if let Err(fault) = put(sink, &[quote]) {
        return Err(fault);
    }
    if let Err(fault) = put_inside(sink, quote, top, bytes) {
        return Err(fault);
    }
    put(sink, &[quote])
}

// Puts these bytes as they stand between quotes: each run of those that stand for themselves at
// once, and the escapes between the runs.
fn put_inside<O: Output, A: Allocator + Copy>(
    sink: &mut Sink<O, A>,
    quote: u8,
    top: u16,
    bytes: &[u8],
) -> Result<(), Fault>
    requires well { sink.old.fault ≡ None }
    ensures { IsPut O.Output sink.old sink.new result (flat_map (byte_text quote top) bytes.now) }
{
    let mut rest = bytes;
    'runs: loop {
        let (run, others) = rest.split_at(shown_run(quote, top, rest));
        if let Err(fault) = put(sink, run) {
            return Err(fault);
        }
        let Some((byte, tail)) = others.split_first() else {
            return Ok(());
        };
        if let Err(fault) = put_escape(sink, quote, *byte) {
            return Err(fault);
        }
        rest = tail;
    }
}

// How many bytes are looked at together.
const BLOCK: usize = 16;

// Half of them: texts that are shorter are looked at byte by byte.
const HALF: usize = 8;

// How many bytes at the front of these stand for themselves.
#[inline]
fn shown_run(quote: u8, top: u16, bytes: &[u8]) -> usize
    ensures within { result ≤ length bytes.now }
    ensures shown { all_are (is_shown quote top) (take result bytes.now) ≡ true }
    ensures ends { first_is (is_shown quote top) (drop result bytes.now) ≡ false }
{
    let mut at = 0;
    'skip: while bytes.len() - at >= BLOCK {
        let hidden = hidden(quote, top, u8x16::from_slice(&bytes[at..]));
        if hidden != 0 {
            return at + hidden.trailing_zeros() as usize;
        }
        at += BLOCK;
    }
    at + few_shown(quote, top, &bytes[at..])
}

// Which of these bytes do not stand for themselves: a bit for each, the lowest for the first. Counted
// round from the space, those from `top` on come after those below it, and those below the space
// last, so that one comparison tells both.
#[inline(always)]
fn hidden(quote: u8, top: u16, bytes: u8x16) -> u64
    ensures { result ≡ mask_l (map (λ b. not (is_shown quote top b)) bytes) }
{
    let others = if top < 256 {
        (top as u8).saturating_sub(b' ')
    } else {
        224
    };
    let is_mark = bytes.simd_eq(u8x16::splat(quote)) | bytes.simd_eq(u8x16::splat(b'\\'));
    let is_other = (bytes - u8x16::splat(b' ')).simd_ge(u8x16::splat(others));
    let is_delete = bytes.simd_eq(u8x16::splat(127));
    (is_mark | is_other | is_delete).to_bitmask()
}

/// Whether the bytes of a string stand for themselves: it has no escape.
#[inline]
pub fn stands_in_string(bytes: &[u8]) -> bool
    ensures { result ≡ all_are (is_shown 34 256) bytes.now }
{
    if bytes.len() < HALF {
        return few_in_string(bytes);
    }
    stand_between(b'"', bytes)
}

/// Whether those of a symbol between quotes do.
#[inline]
pub fn stands_in_symbol(bytes: &[u8]) -> bool
    ensures { result ≡ all_are (is_shown 39 256) bytes.now }
{
    if bytes.len() < HALF {
        return few_in_symbol(bytes);
    }
    stand_between(b'\'', bytes)
}

// Whether bytes, half a block of them or more, stand for themselves between these quotes.
#[inline(always)]
fn stand_between(quote: u8, bytes: &[u8]) -> bool
    requires { HALF ≤ length bytes.now }
    ensures { result ≡ all_are (is_shown quote 256) bytes.now }
{
    if bytes.len() < BLOCK {
        return hidden(quote, 256, u8x16::from_slice(&both_ends(bytes))) == 0;
    }
    blocks_stand(quote, bytes)
}

// The first bytes and the last ones, half a block of each, which may lie partly over each other.
#[inline(always)]
fn both_ends(bytes: &[u8]) -> [u8; BLOCK]
    requires { HALF ≤ length bytes.now }
    ensures { result ≡ take HALF bytes.now ++ drop (length bytes.now - HALF) bytes.now }
{
    let mut block = [0; BLOCK];
    block[..HALF].copy_from_slice(&bytes[..HALF]);
    block[HALF..].copy_from_slice(&bytes[bytes.len() - HALF..]);
    block
}

// Whether bytes, a block of them or more, stand for themselves between these quotes. The last block is
// looked at first, and may lie partly over the one before it.
#[inline(always)]
fn blocks_stand(quote: u8, bytes: &[u8]) -> bool
    requires { BLOCK ≤ length bytes.now }
    ensures { result ≡ all_are (is_shown quote 256) bytes.now }
{
    let last = bytes.len() - BLOCK;
    let hidden_last = hidden(quote, 256, u8x16::from_slice(&bytes[last..]));
    if hidden_last != 0 {
        return false;
    }
    let mut at = 0;
    'over: while at < last {
        if hidden(quote, 256, u8x16::from_slice(&bytes[at..])) != 0 {
            return false;
        }
        at += BLOCK;
    }
    true
}

// Whether each of a few bytes stands for itself in a string.
#[inline(always)]
fn few_in_string(bytes: &[u8]) -> bool
    ensures { result ≡ all_are (is_shown 34 256) bytes.now }
{
    'bytes: for byte in bytes {
        if !is_string_byte(*byte) {
            return false;
        }
    }
    true
}

// Which bytes stand for themselves in a string.
static STRING_BYTES: [u8; 256] = [
    0, 0, 0, 0, 0, 0, 0, 0, 0, 0, 0, 0, 0, 0, 0, 0, 0, 0, 0, 0, 0, 0, 0, 0, 0, 0, 0, 0, 0, 0, 0, 0,
    1, 1, 0, 1, 1, 1, 1, 1, 1, 1, 1, 1, 1, 1, 1, 1, 1, 1, 1, 1, 1, 1, 1, 1, 1, 1, 1, 1, 1, 1, 1, 1,
    1, 1, 1, 1, 1, 1, 1, 1, 1, 1, 1, 1, 1, 1, 1, 1, 1, 1, 1, 1, 1, 1, 1, 1, 1, 1, 1, 1, 0, 1, 1, 1,
    1, 1, 1, 1, 1, 1, 1, 1, 1, 1, 1, 1, 1, 1, 1, 1, 1, 1, 1, 1, 1, 1, 1, 1, 1, 1, 1, 1, 1, 1, 1, 0,
    1, 1, 1, 1, 1, 1, 1, 1, 1, 1, 1, 1, 1, 1, 1, 1, 1, 1, 1, 1, 1, 1, 1, 1, 1, 1, 1, 1, 1, 1, 1, 1,
    1, 1, 1, 1, 1, 1, 1, 1, 1, 1, 1, 1, 1, 1, 1, 1, 1, 1, 1, 1, 1, 1, 1, 1, 1, 1, 1, 1, 1, 1, 1, 1,
    1, 1, 1, 1, 1, 1, 1, 1, 1, 1, 1, 1, 1, 1, 1, 1, 1, 1, 1, 1, 1, 1, 1, 1, 1, 1, 1, 1, 1, 1, 1, 1,
    1, 1, 1, 1, 1, 1, 1, 1, 1, 1, 1, 1, 1, 1, 1, 1, 1, 1, 1, 1, 1, 1, 1, 1, 1, 1, 1, 1, 1, 1, 1, 1,
];

// Whether this byte stands for itself in a string.
#[inline(always)]
fn is_string_byte(byte: u8) -> bool
    ensures { result ≡ is_shown 34 256 byte }
{
    STRING_BYTES[byte as usize] > 0
}

// Whether each of a few bytes stands for itself in a symbol between quotes.
#[inline(always)]
fn few_in_symbol(bytes: &[u8]) -> bool
    ensures { result ≡ all_are (is_shown 39 256) bytes.now }
{
    'bytes: for byte in bytes {
        if !is_symbol_byte(*byte) {
            return false;
        }
    }
    true
}

// Which bytes stand for themselves in a symbol between quotes.
static SYMBOL_BYTES: [u8; 256] = [
    0, 0, 0, 0, 0, 0, 0, 0, 0, 0, 0, 0, 0, 0, 0, 0, 0, 0, 0, 0, 0, 0, 0, 0, 0, 0, 0, 0, 0, 0, 0, 0,
    1, 1, 1, 1, 1, 1, 1, 0, 1, 1, 1, 1, 1, 1, 1, 1, 1, 1, 1, 1, 1, 1, 1, 1, 1, 1, 1, 1, 1, 1, 1, 1,
    1, 1, 1, 1, 1, 1, 1, 1, 1, 1, 1, 1, 1, 1, 1, 1, 1, 1, 1, 1, 1, 1, 1, 1, 1, 1, 1, 1, 0, 1, 1, 1,
    1, 1, 1, 1, 1, 1, 1, 1, 1, 1, 1, 1, 1, 1, 1, 1, 1, 1, 1, 1, 1, 1, 1, 1, 1, 1, 1, 1, 1, 1, 1, 0,
    1, 1, 1, 1, 1, 1, 1, 1, 1, 1, 1, 1, 1, 1, 1, 1, 1, 1, 1, 1, 1, 1, 1, 1, 1, 1, 1, 1, 1, 1, 1, 1,
    1, 1, 1, 1, 1, 1, 1, 1, 1, 1, 1, 1, 1, 1, 1, 1, 1, 1, 1, 1, 1, 1, 1, 1, 1, 1, 1, 1, 1, 1, 1, 1,
    1, 1, 1, 1, 1, 1, 1, 1, 1, 1, 1, 1, 1, 1, 1, 1, 1, 1, 1, 1, 1, 1, 1, 1, 1, 1, 1, 1, 1, 1, 1, 1,
    1, 1, 1, 1, 1, 1, 1, 1, 1, 1, 1, 1, 1, 1, 1, 1, 1, 1, 1, 1, 1, 1, 1, 1, 1, 1, 1, 1, 1, 1, 1, 1,
];

// Whether this byte does.
#[inline(always)]
fn is_symbol_byte(byte: u8) -> bool
    ensures { result ≡ is_shown 39 256 byte }
{
    SYMBOL_BYTES[byte as usize] > 0
}

// How many bytes at the front of these stand for themselves, one after the other.
#[inline]
fn few_shown(quote: u8, top: u16, bytes: &[u8]) -> usize
    ensures within { result ≤ length bytes.now }
    ensures shown { all_are (is_shown quote top) (take result bytes.now) ≡ true }
    ensures ends { first_is (is_shown quote top) (drop result bytes.now) ≡ false }
{
    for (i, byte) in bytes.iter().enumerate() {
        if !is_shown(quote, top, *byte) {
            return i;
        }
    }
    bytes.len()
}

// Whether a byte stands for itself between these quotes.
#[inline]
fn is_shown(quote: u8, top: u16, byte: u8) -> bool
    ensures { result ≡ is_shown quote top byte }
{
    byte >= b' ' && (byte as u16) < top && byte != 127 && byte != quote && byte != b'\\'
}

// Puts the escape of a byte.
#[cold]
#[inline(never)]
fn put_escape<O: Output, A: Allocator + Copy>(
    sink: &mut Sink<O, A>,
    quote: u8,
    byte: u8,
) -> Result<(), Fault>
    requires well { sink.old.fault ≡ None }
    ensures { IsPut O.Output sink.old sink.new result (escaped quote byte) }
{
    if byte == quote {
        return put(sink, &[b'\\', byte]);
    }
    match letter(byte) {
        Some(letter) => put(sink, &[b'\\', letter]),
        None => put(
            sink,
            &[b'\\', b'x', hex_digit(byte / 16), hex_digit(byte % 16)],
        ),
    }
}

// The letter of a byte's escape, where it has one.
fn letter(byte: u8) -> Option<u8>
    ensures { result ≡ letter byte }
{
    match byte {
        7 => Some(b'a'),
        8 => Some(b'b'),
        9 => Some(b't'),
        10 => Some(b'n'),
        12 => Some(b'f'),
        13 => Some(b'r'),
        11 => Some(b'v'),
        92 => Some(b'\\'),
        _ => None,
    }
}

// A digit in base sixteen, in lower case.
fn hex_digit(digit: u8) -> u8
    requires { digit < 16 }
    ensures { result ≡ hex_digit digit }
{
    if digit < 10 {
        b'0' + digit
    } else {
        b'a' - 10 + digit
    }
}
