//! Decimals in text.
ghost use Rattle.std.specs.Prelude.{◌≡◌, ◌⊎◌, ◌-ℤ◌, ◌^◌, ◌<◌, ◌≤◌, ℕ, ℤ, pos, [], ◌∷◌, ◌++◌, drop, decimal, ◌==◌, if◌then◌else◌, IfOk, IfErr};
ghost use Rattle.ion_value.specs.Number.{signed};
ghost use Rattle.ion_value.specs.Digits.{first_is};
ghost use Rattle.ion_value.specs.Decimal.{IsDecimal, has_sign, decimal_in_range, decimal_of_text, decimal_text, magnitude_text, pointed_text, power_text};
ghost use Rattle.arrayvec.specs.ArrayString.{array_string_len};
ghost use Rattle.ion_value.specs.DigitReading.{in_128, read_fraction, Answers, ReadsMantissa, ReadsExponent, GivesExponent, ReadsPower};

use crate::decimal::Decimal;
use crate::digit_text::{push_byte, push_digits, push_fraction};
use crate::digits::{Digits, digits_after, sign, whole_digits};
use arrayvec::ArrayString;
use ion_meter::fault::Reason;
use itoa::Buffer;

// The largest exponent of a decimal; the least is as far below zero.
const LARGEST: u128 = i32::MAX as u128;

// A number in text up to the mark of its exponent.
#[derive(Clone, Copy)]
struct Mantissa<'a> {
    // All digits as one number, where 128 bits hold it.
    coefficient: Option<u128>,
    // Whether there is a point.
    pointed: bool,
    // How many digits stand after the point.
    places: usize,
    // The bytes from the mark on.
    power: &'a [u8],
}

// An exponent as it is written.
#[derive(Clone, Copy)]
struct Exponent {
    // Whether there is a minus.
    below: bool,
    // The exponent without its sign, where 128 bits hold it.
    magnitude: Option<u128>,
}

/// Reads a decimal in text: digits with a point among or after them, or with an exponent after
/// `d`, or with both, after a minus or none (Ion specification, "Real Numbers"). A first zero
/// stands alone before the point, and single underscores may stand between two digits, but not in
/// the exponent. Precision and the sign of zero are kept.
///
/// What has an exponent after `e` is a `Float`. A coefficient past 128 bits, or an exponent that is
/// not within 2^31 - 1 once the digits after the point are taken off, is out of `Range`, and every
/// other run a `BadToken`.
#[inline]
pub fn decimal_from_text(run: &[u8]) -> Result<Decimal, Reason>
    ensures read { result ≡ decimal_of_text run.now }
    ensures valid { IfOk result IsDecimal }
    ensures refused { IfErr result (λ e. (e ≡ Reason.BadToken)
        ⊎ (e ≡ Reason.Float) ⊎ (e ≡ Reason.Range)) }
{
    let (negative, bytes) = sign(run);
    let Some(mantissa) = read_mantissa(bytes) else {
        return Err(Reason::BadToken);
    };
    match exponent_after(mantissa) {
        Ok(exponent) => in_range(negative, mantissa.coefficient, exponent),
        Err(reason) => Err(reason),
    }
}

// The digits and the point at the front of these bytes.
#[inline]
fn read_mantissa(bytes: &[u8]) -> Option<Mantissa<'_>>
    ensures { ReadsMantissa bytes.now result }
{
    let Some(whole) = whole_digits(bytes) else {
        return None;
    };
    match whole.rest {
        [b'.', after @ ..] => match fraction(whole.number, after) {
            Some(fraction) => Some(Mantissa {
                coefficient: fraction.number,
                pointed: true,
                places: fraction.count,
                power: fraction.rest,
            }),
            None => None,
        },
        rest => Some(Mantissa {
            coefficient: whole.number,
            pointed: false,
            places: 0,
            power: rest,
        }),
    }
}

// The digits after a point, where there are any, and after the number before it.
#[inline]
fn fraction(whole: Option<u128>, bytes: &[u8]) -> Option<Digits<'_>>
    ensures { (n : ℕ) → whole ≡ in_128 n → Answers (read_fraction n bytes.now) result }
{
    match bytes {
        [b'0'..=b'9', ..] => digits_after::<10>(whole, bytes),
        _ => Some(Digits {
            number: whole,
            count: 0,
            rest: bytes,
        }),
    }
}

// The exponent after a mantissa less the number of digits after the point, where it is within its
// range, or why what stands there makes no decimal.
#[inline]
fn exponent_after(mantissa: Mantissa<'_>) -> Result<Option<i32>, Reason>
    ensures { ReadsPower mantissa.entry.places mantissa.entry.pointed mantissa.entry.power.now
        result }
{
    let [mark, after @ ..] = mantissa.power else {
        return without_power(mantissa.pointed, mantissa.places);
    };
    let Some(exponent) = read_exponent(after) else {
        return Err(Reason::BadToken);
    };
    match *mark {
        b'd' | b'D' => Ok(less_places(exponent, mantissa.places)),
        b'e' | b'E' => Err(Reason::Float),
        _ => Err(Reason::BadToken),
    }
}

// The exponent of a mantissa without one: less the number of digits after the point.
#[inline]
fn without_power(pointed: bool, places: usize) -> Result<Option<i32>, Reason>
    ensures { ReadsPower places pointed [] result }
{
    if !pointed {
        return Err(Reason::BadToken);
    }
    let none = Exponent {
        below: false,
        magnitude: Some(0),
    };
    Ok(less_places(none, places))
}

// The exponent after its mark: digits alone, after a sign or none.
#[inline]
fn read_exponent(bytes: &[u8]) -> Option<Exponent>
    ensures { ReadsExponent bytes.now result }
{
    let (below, digits) = exponent_sign(bytes);
    let Some(read) = digits_after::<10>(Some(0), digits) else {
        return None;
    };
    // An underscore, or another byte after the digits, leaves fewer digits than bytes.
    if read.count != digits.len() {
        return None;
    }
    Some(Exponent {
        below,
        magnitude: read.number,
    })
}

// Whether there is a minus in front of an exponent, and the bytes after its sign.
#[inline]
fn exponent_sign(bytes: &[u8]) -> (bool, &[u8])
    ensures below { result.0 ≡ first_is (λ b. b == 45) bytes.now }
    ensures digits { result.1.now ≡ (if has_sign bytes.now then drop 1 bytes.now else bytes.now) }
{
    match bytes {
        [b'-', digits @ ..] => (true, digits),
        [b'+', digits @ ..] => (false, digits),
        _ => (false, bytes),
    }
}

// The exponent that is written less the number of digits after the point.
#[inline]
fn less_places(exponent: Exponent, places: usize) -> Option<i32>
    ensures { (m : ℕ) → exponent.magnitude ≡ in_128 m
        → GivesExponent (signed exponent.below m -ℤ pos places) result }
{
    let Some(magnitude) = exponent.magnitude else {
        return None;
    };
    let places = places as u128;
    if exponent.below {
        signed_exponent(true, magnitude.saturating_add(places))
    } else if magnitude < places {
        signed_exponent(true, places - magnitude)
    } else {
        signed_exponent(false, magnitude - places)
    }
}

// The exponent of this sign and magnitude, where it is within its range.
#[inline]
fn signed_exponent(below: bool, magnitude: u128) -> Option<i32>
    ensures { GivesExponent (signed below magnitude) result }
{
    if magnitude > LARGEST {
        return None;
    }
    let exponent = magnitude as i32;
    Some(if below { -exponent } else { exponent })
}

// The decimal of this sign, coefficient and exponent, where these are within their ranges.
#[inline]
fn in_range(
    negative: bool,
    coefficient: Option<u128>,
    exponent: Option<i32>,
) -> Result<Decimal, Reason>
    ensures { (n : ℕ) (e : ℤ) → coefficient ≡ in_128 n → GivesExponent e exponent
        → result ≡ decimal_in_range negative n e }
{
    match (coefficient, exponent) {
        (Some(coefficient), Some(exponent)) => Ok(Decimal {
            negative,
            coefficient,
            exponent,
        }),
        _ => Err(Reason::Range),
    }
}

/// The text of a decimal, after a minus where it has one (Ion specification, "Real Numbers").
///
/// With an exponent from 0 down to -38 it has a point, and as many digits after it as the exponent
/// says: `15.`, `1.5`, `0.015`. With any other it is the coefficient's digits, `d` and the exponent:
/// `15d1`, `1d-39`. Zeros after the point and the sign of zero are kept.
pub fn decimal_to_text(decimal: Decimal) -> ArrayString<64>
    requires { IsDecimal decimal }
    ensures { result.bytes ≡ decimal_text decimal }
{
    let mut text = ArrayString::new();
    if decimal.negative {
        push_byte(&mut text, b'-');
    }
    push_magnitude(&mut text, decimal.coefficient, decimal.exponent);
    text
}

// Adds a coefficient with its exponent.
#[inline]
fn push_magnitude(text: &mut ArrayString<64>, number: u128, exponent: i32)
    requires room { array_string_len text.old ≤ 1 }
    ensures { text.new.bytes ≡ text.old.bytes ++ magnitude_text number exponent }
{
    if exponent == 0 {
        push_whole(text, number);
    } else if exponent < 0 && exponent >= -38 {
        push_pointed(text, number, exponent.unsigned_abs() as u8);
    } else {
        push_power(text, number, exponent);
    }
}

// Adds a number and a point.
#[inline]
fn push_whole(text: &mut ArrayString<64>, number: u128)
    requires room { array_string_len text.old ≤ 1 }
    ensures { text.new.bytes ≡ text.old.bytes ++ (decimal number ++ (46 ∷ [])) }
{
    let mut buffer = Buffer::new();
    text.push_str(buffer.format(number));
    push_byte(text, b'.');
}

// Adds a number with a point before its last digits.
#[inline]
fn push_pointed(text: &mut ArrayString<64>, number: u128, places: u8)
    requires room { array_string_len text.old ≤ 1 }
    requires some { 1 ≤ places }
    requires few { places ≤ 38 }
    ensures { text.new.bytes ≡ text.old.bytes ++ pointed_text number places }
{
    if number <= u64::MAX as u128 && places <= 19 {
        push_short(text, number as u64, places);
    } else {
        push_long(text, number, places);
    }
}

// Adds a number of 64 bits with a point before its last digits.
#[inline]
fn push_short(text: &mut ArrayString<64>, number: u64, places: u8)
    requires room { array_string_len text.old ≤ 1 }
    requires some { 1 ≤ places }
    requires few { places ≤ 19 }
    ensures { text.new.bytes ≡ text.old.bytes ++ pointed_text number places }
{
    let power = 10u64.pow(u32::from(places));
    let mut buffer = Buffer::new();
    text.push_str(buffer.format(number / power));
    push_byte(text, b'.');
    push_digits(text, places, number % power);
}

// Adds a number of 128 bits with a point before its last digits.
#[cold]
#[inline(never)]
fn push_long(text: &mut ArrayString<64>, number: u128, places: u8)
    requires room { array_string_len text.old ≤ 1 }
    requires some { 1 ≤ places }
    requires few { places ≤ 38 }
    ensures { text.new.bytes ≡ text.old.bytes ++ pointed_text number places }
{
    let power = 10u128.pow(u32::from(places));
    let mut buffer = Buffer::new();
    text.push_str(buffer.format(number / power));
    push_byte(text, b'.');
    push_fraction(text, places, number % power);
}

// Adds a number, a `d` and an exponent.
#[inline]
fn push_power(text: &mut ArrayString<64>, number: u128, exponent: i32)
    requires room { array_string_len text.old ≤ 1 }
    ensures { text.new.bytes ≡ text.old.bytes ++ power_text number exponent }
{
    let mut buffer = Buffer::new();
    text.push_str(buffer.format(number));
    push_byte(text, b'd');
    text.push_str(buffer.format(exponent));
}
