//! Floats in text.
ghost use Rattle.std.specs.Prelude.{◌≡◌, ◌+◌, ◌*◌, ◌%◌, ◌^◌, ◌<◌, ◌≤◌, ◌-ℤ◌, ◌≤ℤ◌, neg_ℤ, pos, ◌∷◌, ◌++◌, length, IsAscii, from_bits};
ghost use Rattle.std.specs.Float.{binary64};
ghost use Rattle.arrayvec.specs.ArrayString.{array_string_len};
ghost use Rattle.ion_value.specs.Decimal.{integer_text};
ghost use Rattle.ion_value.specs.Float.{value_of};
ghost use Rattle.ion_value.specs.FloatText.{pointed, exponent_of, digits_text, float_text};

use crate::shortest::{Digits, shortest};
pub use crate::text_reading::nearest_float;
use arrayvec::ArrayString;
use ion_value::float::Float64;
use itoa::Buffer;

/// The bits of infinity.
const INFINITY: u64 = 0x7FF0_0000_0000_0000;

/// The sign's bit.
const SIGN: u64 = 1 << 63;

/// The text of a float (Ion specification, "Real Numbers"): `nan`, `+inf` or `-inf`, or a minus where
/// there is one, digits with a point after the first where there are more, `e` and an exponent.
///
/// The digits are the fewest that read as the float, and of these the nearest to it: `1e0`,
/// `6.02214076e23`, `5e-324`. The sign of zero is kept.
pub fn float_to_text(float: Float64) -> ArrayString<24>
    ensures { result.bytes ≡ float_text (value_of float) }
{
    let mut text = ArrayString::new();
    let bits = float.bits();
    if bits % SIGN < INFINITY {
        push_finite(&mut text, bits);
    } else if bits == INFINITY {
        text.push_str("+inf");
    } else if bits == SIGN + INFINITY {
        text.push_str("-inf");
    } else {
        text.push_str("nan");
    }
    text
}

// Adds the text of the finite float with these bits.
#[inline]
fn push_finite(text: &mut ArrayString<24>, bits: u64)
    requires finite { bits % 2 ^ 63 < 2047 * 2 ^ 52 }
    requires room { array_string_len text.old ≡ 0 }
    ensures { text.new.bytes ≡ text.old.bytes ++ float_text (from_bits binary64 bits) }
{
    if bits < SIGN {
        push_magnitude(text, bits);
    } else {
        text.push('-');
        push_magnitude(text, bits - SIGN);
    }
}

// Adds the text of the finite float with these bits, which is not below zero.
#[inline]
fn push_magnitude(text: &mut ArrayString<24>, bits: u64)
    requires finite { bits < 2047 * 2 ^ 52 }
    requires room { array_string_len text.old ≤ 1 }
    ensures { text.new.bytes ≡ text.old.bytes ++ float_text (from_bits binary64 bits) }
{
    if bits == 0 {
        text.push_str("0e0");
    } else {
        push_number(text, shortest(bits));
    }
}

// Adds a number: its digits, `e` and the exponent.
#[inline]
fn push_number(text: &mut ArrayString<24>, number: Digits)
    requires room { array_string_len text.old ≤ 1 }
    requires few { number.digits < 10 ^ 17 }
    requires row { number.row < 651 }
    ensures { text.new.bytes ≡ text.old.bytes ++ digits_text (number.digits, number.row) }
{
    let mut buffer = Buffer::new();
    let digits = buffer.format(number.digits);
    push_pointed(text, digits);
    // With the point after the first digit.
    push_exponent(text, number.row + (digits.len() - 1) as u32);
}

// Adds an `e` and the exponent of a row, which is less by 342.
#[inline]
fn push_exponent(text: &mut ArrayString<24>, row: u32)
    requires room { array_string_len text.old ≤ 19 }
    requires most { row ≤ 667 }
    ensures { text.new.bytes ≡ text.old.bytes ++ (101 ∷ integer_text (pos row -ℤ pos 342)) }
{
    text.push('e');
    // Most have one digit.
    let above = row.wrapping_sub(342);
    let below = 342_u32.wrapping_sub(row);
    if above < 10 {
        text.push((b'0' + above as u8) as char);
    } else if below < 10 {
        text.push('-');
        text.push((b'0' + below as u8) as char);
    } else {
        push_long_exponent(text, row as i32 - 342);
    }
}

// Adds an exponent of any length.
#[inline(never)]
fn push_long_exponent(text: &mut ArrayString<24>, exponent: i32)
    requires room { array_string_len text.old ≤ 20 }
    requires least { neg_ℤ (pos 342) ≤ℤ exponent }
    requires most { exponent ≤ℤ pos 325 }
    ensures { text.new.bytes ≡ text.old.bytes ++ integer_text exponent }
{
    let mut buffer = Buffer::new();
    text.push_str(buffer.format(exponent));
}

// Adds digits, and a point after the first where there are more.
#[inline]
fn push_pointed(text: &mut ArrayString<24>, digits: &str)
    requires ascii { IsAscii digits.now }
    requires some { 1 ≤ length digits.now }
    requires room { array_string_len text.old + length digits.now ≤ 23 }
    ensures text { text.new.bytes ≡ text.old.bytes ++ pointed digits.now }
    ensures len { array_string_len text.new ≤ array_string_len text.old + length digits.now + 1 }
{
    text.push_str(&digits[..1]);
    if digits.len() > 1 {
        text.push('.');
        text.push_str(&digits[1..]);
    }
}
