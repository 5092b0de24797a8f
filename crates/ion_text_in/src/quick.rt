//! Ints and decimals of few digits, without underscores and bases, read in one pass
//! (Ion specification, "Integers" and "Real Numbers").
ghost use Rattle.std.specs.Prelude.{◌≡◌, pos, ◌-ℤ◌, ◌+◌, ◌*◌, ◌-◌, ◌^◌, ◌<◌, ◌≤◌, ◌&&◌, ◌||◌, ◌==◌, true, not, map, length, drop, take, get_or, IfSome};
ghost use Rattle.std.specs.Simd.Lanes.{mask_l};
ghost use Rattle.ion_value.specs.Digits.{all_are, first_is, is_digit};
ghost use Rattle.ion_value.specs.Number.{signed};
ghost use Rattle.ion_value.specs.Standing.{InRange};
ghost use Rattle.ion_text_in.specs.Overrun.{IsRun};
ghost use Rattle.ion_text_in.specs.Quick.{as_quick, number_after, scaled, signed_int, signed_text, stops, AreSpelled, AreWhole, IsMantissa, IsPointed, IsPower, IsQuick};
ghost use Rattle.ion_text_in.specs.declared.scanned.Scanned.TheVariants.{Whole};
ghost use Rattle.ion_text_in.specs.Scanners.{Shows};
ghost use Rattle.ion_text_in.specs.Token.{a_run, token_of};
ghost use Rattle.ion_text_in.specs.Views.{as_number, number_token};

use crate::run::stops_number;
use ion_value::decimal::Decimal;
use ion_value::int::Int;
use std::simd::prelude::*;

/// An int or a decimal by its sign, digits and exponent.
#[derive(Clone, Copy)]
pub(crate) struct Quick {
    /// Whether there is a minus in front.
    pub(crate) negative: bool,
    /// What the digits spell.
    pub(crate) number: u128,
    /// The exponent of a decimal; none for an int.
    pub(crate) exponent: Option<i32>,
    /// How many bytes it has.
    pub(crate) count: usize,
    /// Whether they are its canonical text, as those of an int are.
    pub(crate) canonical: bool,
}

/// The int or decimal at the front of these bytes, where it has no more than the limit.
///
/// There is an answer where it is a minus or none and at most 38 digits, or at most 19 with a point
/// among them, which may have a `d` and an exponent of at most three digits after them, and where
/// punctuation, a quote or white space ends it within the bytes. There is none where it is `-0`.
#[inline(always)]
pub(crate) fn scan_quick(limit: u64, bytes: &[u8]) -> Option<Quick>
    ensures shows { IfSome result (λ x. Shows number_token bytes.now
        (Whole (as_quick x) x.count) (token_of (Some limit) a_run)) }
    ensures range { IfSome result (λ x. InRange (as_number (as_quick x))) }
    ensures some { IfSome result (λ x. 0 < x.count) }
    ensures spelled { IfSome result (λ x. AreSpelled (take x.count bytes.now) x) }
{
    let (negative, digits) = sign(bytes);
    let quick = quick_digits(negative, digits)?;
    let count = quick.count + usize::from(negative);
    if limit < count as u64 {
        return None;
    }
    Some(Quick { count, ..quick })
}

/// Whether there is a minus in front, and what stands after it.
#[inline(always)]
pub(crate) fn sign(bytes: &[u8]) -> (bool, &[u8])
    ensures { signed_text result.0 result.1.now ≡ bytes.now }
{
    match bytes {
        [b'-', digits @ ..] => (true, digits),
        _ => (false, bytes),
    }
}

// The int or decimal that these digits begin, which stand after its sign.
#[inline(always)]
fn quick_digits(negative: bool, digits: &[u8]) -> Option<Quick>
    ensures { IfSome result (λ x. IsQuick negative digits.now x) }
{
    let count = digit_run(digits);
    if count == 0 || count > WIDE || count >= digits.len() || begins_zeros(negative, digits) {
        return None;
    }
    let next = digits[count];
    if stops_number(next) {
        return Some(Quick {
            negative,
            number: number_by(&digits[..count]),
            exponent: None,
            count,
            canonical: true,
        });
    }
    quick_mantissa(negative, count, digits)
}

// The decimal of so many digits, with a point or an exponent after them. It stands apart so that
// the answers of its calls have no place in memory where a number is an int.
#[inline(always)]
fn quick_mantissa(negative: bool, count: usize, digits: &[u8]) -> Option<Quick>
    requires whole { AreWhole digits.now count }
    requires few { count ≤ 38 }
    ensures { IfSome result (λ x. IsQuick negative digits.now x) }
{
    let next = digits[count];
    if next == b'.' {
        return quick_decimal(negative, count, digits);
    }
    if next == b'd' {
        return quick_whole(negative, count, digits);
    }
    None
}

/// The int of a sign and digits, of which zero has no sign.
#[inline(always)]
pub(crate) fn signed_int(negative: bool, magnitude: u128) -> Int
    ensures { result ≡ signed_int negative magnitude }
{
    Int {
        negative: negative && magnitude > 0,
        magnitude,
    }
}

/// Whether a zero stands before another digit or an underscore, or alone after a minus.
#[inline(always)]
pub(crate) fn begins_zeros(negative: bool, digits: &[u8]) -> bool
    ensures { result ≡ (first_is (λ b. b == 48) digits.now
        && (first_is (λ b. is_digit b || b == 95) (drop 1 digits.now)
        || (negative && first_is stops (drop 1 digits.now)))) }
{
    match digits {
        [b'0', b'0'..=b'9' | b'_', ..] => true,
        [b'0', next, ..] => negative && stops_number(*next),
        _ => false,
    }
}

// The most digits of which 128 bits hold what they spell, whatever they are.
const WIDE: usize = 38;

/// The most digits of which 64 bits do.
pub(crate) const NARROW: usize = 19;

/// Digits, of which some may stand after a point.
#[derive(Clone, Copy)]
pub(crate) struct Mantissa {
    /// What the digits spell.
    pub(crate) number: u64,
    /// How many of them stand after the point.
    pub(crate) places: usize,
    /// Where they end.
    pub(crate) end: usize,
}

/// Digits with a point after so many of them and digits after it, where there are no more than 64
/// bits hold and another byte stands after them.
#[inline(always)]
pub(crate) fn pointed(count: usize, digits: &[u8]) -> Option<Mantissa>
    requires whole { AreWhole digits.now count }
    requires point { get_or digits.now count 0 ≡ 46 }
    ensures { IfSome result (λ x. IsPointed digits.now count x) }
{
    let fraction = &digits[count + 1..];
    let places = digit_run(fraction);
    let end = count + 1 + places;
    if places == 0 || count + places > NARROW || end >= digits.len() {
        return None;
    }
    let whole = number_after(0, &digits[..count]);
    Some(Mantissa {
        number: number_after(whole, &fraction[..places]),
        places,
        end,
    })
}

// The decimal of so many digits with a point after them.
#[inline(never)]
fn quick_decimal(negative: bool, count: usize, digits: &[u8]) -> Option<Quick>
    requires whole { AreWhole digits.now count }
    requires point { get_or digits.now count 0 ≡ 46 }
    ensures { IfSome result (λ x. IsQuick negative digits.now x) }
{
    let Mantissa {
        number,
        places,
        end,
    } = pointed(count, digits)?;
    if stops_number(digits[end]) {
        return Some(Quick {
            negative,
            number: number as u128,
            exponent: Some(exponent_of(true, places as u64, 0)),
            count: end,
            canonical: true,
        });
    }
    if digits[end] == b'd' {
        return quick_power(negative, number as u128, places, end, digits);
    }
    None
}

// The decimal of so many digits with a `d` after them.
#[inline(never)]
fn quick_whole(negative: bool, count: usize, digits: &[u8]) -> Option<Quick>
    requires whole { AreWhole digits.now count }
    requires few { count ≤ 38 }
    requires mark { get_or digits.now count 0 ≡ 100 }
    ensures { IfSome result (λ x. IsQuick negative digits.now x) }
{
    quick_power(negative, number_by(&digits[..count]), 0, count, digits)
}

// The decimal of a coefficient, of which so many digits stand after a point, that ends at a place
// with a `d` and an exponent after it.
#[inline(never)]
fn quick_power(
    negative: bool,
    coefficient: u128,
    places: usize,
    end: usize,
    digits: &[u8],
) -> Option<Quick>
    requires mantissa { IsMantissa digits.now coefficient places end }
    requires mark { get_or digits.now end 0 ≡ 100 }
    ensures { IfSome result (λ x. IsQuick negative digits.now x) }
{
    let power = power_after(end, digits)?;
    Some(Quick {
        negative,
        number: coefficient,
        exponent: Some(exponent_of(power.below, power.magnitude, places)),
        count: power.end,
        canonical: false,
    })
}

/// An exponent as it is written.
#[derive(Clone, Copy)]
pub(crate) struct Power {
    /// Whether there is a minus in front.
    pub(crate) below: bool,
    /// What the digits spell.
    pub(crate) magnitude: u64,
    /// Where they end.
    pub(crate) end: usize,
}

/// The exponent after its mark, which stands at a place: a minus or none and at most three digits,
/// where punctuation, a quote or white space ends it within the bytes.
#[inline(always)]
pub(crate) fn power_after(mark: usize, digits: &[u8]) -> Option<Power>
    requires { mark < length digits.now }
    ensures { IfSome result (λ x. IsPower digits.now mark x) }
{
    let (below, power) = sign(&digits[mark + 1..]);
    let n = few_digits(power);
    if n == 0 || n > 3 {
        return None;
    }
    let magnitude = few_after(0, &power[..n]);
    let end = if below { mark + 2 + n } else { mark + 1 + n };
    if end >= digits.len() || !stops_number(digits[end]) {
        return None;
    }
    Some(Power {
        below,
        magnitude,
        end,
    })
}

/// The exponent of this sign and magnitude, less so many digits after a point.
#[inline(always)]
pub(crate) fn exponent_of(below: bool, magnitude: u64, places: usize) -> i32
    requires small { magnitude < 1000 }
    requires few { places ≤ 19 }
    ensures { result ≡ signed below magnitude -ℤ pos places }
{
    if below {
        -(magnitude as i32) - places as i32
    } else {
        magnitude as i32 - places as i32
    }
}

/// The decimal of a sign, digits and an exponent.
#[inline(always)]
pub(crate) fn scaled(negative: bool, coefficient: u128, exponent: i32) -> Decimal
    ensures { result ≡ scaled negative coefficient exponent }
{
    Decimal {
        negative,
        coefficient,
        exponent,
    }
}

// The number that these digits spell.
#[inline(always)]
fn number_by(digits: &[u8]) -> u128
    requires digits { all_are is_digit digits.now ≡ true }
    requires few { length digits.now ≤ 38 }
    ensures { result ≡ number_after 0 digits.now }
{
    if digits.len() <= NARROW {
        return number_after(0, digits) as u128;
    }
    let front = number_after(0, &digits[..NARROW]);
    let rest = &digits[NARROW..];
    front as u128 * 10_u128.pow(rest.len() as u32) + number_after(0, rest) as u128
}

/// The number that these digits spell after another: read by fours, and then those that are left.
#[inline(always)]
pub(crate) fn number_after(start: u64, digits: &[u8]) -> u64
    requires digits { all_are is_digit digits.now ≡ true }
    requires room { (start + 1) * 10 ^ length digits.now ≤ 2 ^ 64 }
    ensures { result ≡ number_after start digits.now }
{
    let mut number = start;
    let mut rest = digits;
    while let [a, b, c, d, others @ ..] = rest {
        let front = pair(*a, *b);
        let back = pair(*c, *d);
        number = number * 10_000 + (front * 100 + back);
        rest = others;
    }
    few_after(number, rest)
}

// The number that fewer than four digits spell after another.
#[inline(always)]
fn few_after(start: u64, digits: &[u8]) -> u64
    requires digits { all_are is_digit digits.now ≡ true }
    requires few { length digits.now < 4 }
    requires room { (start + 1) * 10 ^ length digits.now ≤ 2 ^ 64 }
    ensures { result ≡ number_after start digits.now }
{
    match digits {
        [a] => start * 10 + digit(*a),
        [a, b] => start * 100 + pair(*a, *b),
        [a, b, c] => start * 1_000 + (pair(*a, *b) * 10 + digit(*c)),
        _ => start,
    }
}

// What two digits spell.
#[inline(always)]
fn pair(tens: u8, ones: u8) -> u64
    requires tens { is_digit tens ≡ true }
    requires ones { is_digit ones ≡ true }
    ensures is { result ≡ (tens - 48) * 10 + (ones - 48) }
    ensures small { result < 100 }
{
    digit(tens) * 10 + digit(ones)
}

// What a digit counts.
#[inline(always)]
fn digit(byte: u8) -> u64
    requires digit { is_digit byte ≡ true }
    ensures is { result ≡ byte - 48 }
    ensures small { result < 10 }
{
    u64::from(byte) - 48
}

// How many bytes are looked at together.
const BLOCK: usize = 16;

/// How many digits stand at the front of these bytes. Most numbers are so short that the first
/// block shows where their digits end.
#[inline(always)]
pub(crate) fn digit_run(bytes: &[u8]) -> usize
    ensures { IsRun is_digit bytes.now result }
{
    if bytes.len() >= BLOCK {
        let others = no_digits(u8x16::from_slice(bytes));
        if others != 0 {
            return others.trailing_zeros() as usize;
        }
    }
    let mut at = 0;
    'skip: while bytes.len() - at >= BLOCK {
        let others = no_digits(u8x16::from_slice(&bytes[at..]));
        if others != 0 {
            return at + others.trailing_zeros() as usize;
        }
        at += BLOCK;
    }
    at + few_digits(&bytes[at..])
}

// Which of these bytes are no digits: a bit for each, the lowest for the first.
#[inline(always)]
fn no_digits(bytes: u8x16) -> u64
    ensures { result ≡ mask_l (map (λ b. not (is_digit b)) bytes) }
{
    (bytes.simd_lt(u8x16::splat(b'0')) | bytes.simd_gt(u8x16::splat(b'9'))).to_bitmask()
}

// How many digits stand at the front of these bytes, one after the other.
#[inline(always)]
fn few_digits(bytes: &[u8]) -> usize
    ensures { IsRun is_digit bytes.now result }
{
    for (i, byte) in bytes.iter().enumerate() {
        if !byte.is_ascii_digit() {
            return i;
        }
    }
    bytes.len()
}
