//! Floats of few digits, without underscores, read in one pass (Ion specification, "Real Numbers").
ghost use Rattle.std.specs.Prelude.{◌≡◌, ◌≤◌, true, Some, IfSome, get_or};
ghost use Rattle.ion_value.specs.Float.{IsFloat, value_of};
ghost use Rattle.ion_value.specs.FloatText.{is_float_mark};
ghost use Rattle.ion_text_in.specs.declared.number.Numeral.TheVariants as numerals;
ghost use Rattle.ion_text_in.specs.declared.scanned.Scanned.TheVariants.{Whole};
ghost use Rattle.ion_text_in.specs.Quick.{AreWhole, IsMantissa, IsQuickFloat};
ghost use Rattle.ion_text_in.specs.Scanners.{Shows};
ghost use Rattle.ion_text_in.specs.Token.{a_run, token_of};
ghost use Rattle.ion_text_in.specs.Views.{numeral_token};

use crate::quick::{
    Mantissa, NARROW, begins_zeros, digit_run, exponent_of, number_after, pointed, power_after,
    sign,
};
use fast_float::from_parts;
use ion_value::float::Float64;

/// The float at the front of these bytes, where it has no more than the limit, and how many it has.
///
/// There is an answer where it is a minus or none, at most 19 digits, which may have a point among
/// them, an `e` or `E`, and an exponent of at most three digits, where punctuation, a quote or
/// white space ends it within the bytes, and where the float is finite.
#[inline(always)]
pub(crate) fn scan_quick_float(limit: u64, bytes: &[u8]) -> Option<(Float64, usize)>
    ensures shows { IfSome result (λ x. Shows numeral_token bytes.now
        (Whole (numerals.Float (Some x.0)) x.1) (token_of (Some limit) a_run)) }
    ensures range { IfSome result (λ x. IsFloat (value_of x.0)) }
{
    let (negative, digits) = sign(bytes);
    let (float, count) = quick_float(negative, digits)?;
    let count = count + usize::from(negative);
    if limit < count as u64 {
        return None;
    }
    Some((float, count))
}

// The float that these digits begin, which stand after its sign, and how many bytes it has.
#[inline(always)]
fn quick_float(negative: bool, digits: &[u8]) -> Option<(Float64, usize)>
    ensures { IfSome result (λ x. IsQuickFloat negative digits.now x.0 x.1) }
{
    let count = digit_run(digits);
    if count == 0 || count > NARROW || count >= digits.len() || begins_zeros(negative, digits) {
        return None;
    }
    let mantissa = mantissa(count, digits)?;
    match digits[mantissa.end] {
        b'e' | b'E' => float_of(negative, mantissa, digits),
        _ => None,
    }
}

// So many digits, with those after a point where there is one.
#[inline(always)]
fn mantissa(count: usize, digits: &[u8]) -> Option<Mantissa>
    requires whole { AreWhole digits.now count }
    requires few { count ≤ 19 }
    ensures { IfSome result (λ x. IsMantissa digits.now x.number x.places x.end) }
{
    if digits[count] == b'.' {
        return pointed(count, digits);
    }
    Some(Mantissa {
        number: number_after(0, &digits[..count]),
        places: 0,
        end: count,
    })
}

// The float of a mantissa with a mark after it, where it is finite, and how many bytes it has.
#[inline(always)]
fn float_of(negative: bool, mantissa: Mantissa, digits: &[u8]) -> Option<(Float64, usize)>
    requires mantissa { IsMantissa digits.now mantissa.number mantissa.places mantissa.end }
    requires mark { is_float_mark (get_or digits.now mantissa.end 0) ≡ true }
    ensures { IfSome result (λ x. IsQuickFloat negative digits.now x.0 x.1) }
{
    let power = power_after(mantissa.end, digits)?;
    let exponent = exponent_of(power.below, power.magnitude, mantissa.places);
    let value: f64 = from_parts(negative, mantissa.number, i64::from(exponent));
    if !value.is_finite() {
        return None;
    }
    Some((Float64::from_number(value), power.end))
}
