//! Decimals: a sign, a coefficient and an exponent.
ghost use Rattle.std.specs.Prelude.{◌≡◌, ◌^◌, ◌<◌, ◌≤◌, ◌⊎◌, ◌++◌, All, length, IfOk, IfErr};
ghost use Rattle.ion_value.specs.Number.{int_negative, int_magnitude, signed};
ghost use Rattle.ion_value.specs.Decimal.{IsExponent, IsDecimal, decimal_in_range, decimal_of_bytes, exponent_octets, is_nothing, decimal_body};

pub use crate::decimal_text::{decimal_from_text, decimal_to_text};
use crate::int_field::{coefficient_write, int_field_read};
use crate::var::{Signed, var_int_read, var_int_write};
use arrayvec::ArrayVec;
use ion_meter::fault::Reason;

/// The largest exponent, and without its sign the least.
const LARGEST_EXPONENT: u64 = 0x7FFF_FFFF;

/// A value of Ion's type `decimal` (Ion specification, "Real Numbers"): the coefficient times ten to
/// the exponent.
///
/// Decimals keep their precision and the sign of zero, so that `1.0`, `1.00` and `-0.` differ from
/// `1`, `1.0` and `0.`.
#[derive(Clone, Copy, Debug, PartialEq, Eq)]
pub struct Decimal {
    /// Whether there is a minus, which zero may have too.
    pub negative: bool,
    /// The digits as one number.
    pub coefficient: u128,
    /// How often the coefficient is multiplied by ten, within 2^31 - 1 in both directions.
    pub exponent: i32,
}

/// Reads the body of a decimal: its exponent as a VarInt, and after it its coefficient as an Int, of
/// which no octets are positive zero; no octets at all are `0d0` (binary encoding, "5: decimal").
///
/// Zeros at the front of the coefficient are allowed, in any number. It is a `BadVar` where the
/// exponent is not ended by the end of the body or by the ninth octet, and out of `Range` where the
/// coefficient has more than 128 bits or the exponent is outside 2^31 - 1.
#[inline(never)]
pub fn decimal_from_bytes(body: &[u8]) -> Result<Decimal, Reason>
    ensures read { result ≡ decimal_of_bytes body.now }
    ensures valid { IfOk result IsDecimal }
    ensures refused { IfErr result (λ e. (e ≡ Reason.BadVar) ⊎ (e ≡ Reason.Range)) }
{
    if body.is_empty() {
        return Ok(Decimal {
            negative: false,
            coefficient: 0,
            exponent: 0,
        });
    }
    match var_int_read(body) {
        Ok((exponent, count)) => parts_read(exponent, &body[count..]),
        Err(reason) => Err(reason),
    }
}

// The decimal of an exponent and of the octets of a coefficient.
#[inline]
fn parts_read(exponent: Signed, coefficient: &[u8]) -> Result<Decimal, Reason>
    ensures { result ≡ decimal_in_range (int_negative coefficient.now)
        (int_magnitude coefficient.now)
        (signed exponent.negative exponent.magnitude) }
{
    if exponent.magnitude > LARGEST_EXPONENT {
        return Err(Reason::Range);
    }
    match int_field_read(coefficient) {
        Some((negative, coefficient)) => Ok(Decimal {
            negative,
            coefficient,
            exponent: exponent_value(exponent),
        }),
        None => Err(Reason::Range),
    }
}

// An exponent as one number.
#[inline]
fn exponent_value(exponent: Signed) -> i32
    requires { exponent.magnitude < 2 ^ 31 }
    ensures { result ≡ signed exponent.negative exponent.magnitude }
{
    let magnitude = exponent.magnitude as i32;
    if exponent.negative {
        -magnitude
    } else {
        magnitude
    }
}

/// The shortest body of a decimal, so no octets for `0d0` (binary encoding, "5: decimal").
#[inline]
pub fn decimal_to_bytes(decimal: Decimal) -> ArrayVec<u8, 22>
    requires { IsDecimal decimal }
    ensures spelled { result.items ≡ decimal_body decimal }
    ensures octets { All (λ octet. octet < 256) result.items }
{
    if is_plain_zero(decimal) {
        return ArrayVec::new();
    }
    let exponent = exponent_write(decimal.exponent);
    let coefficient = coefficient_write(decimal.negative, decimal.coefficient);
    joined(exponent.as_slice(), coefficient.as_slice())
}

// Whether this is `0d0`.
#[inline]
fn is_plain_zero(decimal: Decimal) -> bool
    ensures { result ≡ is_nothing decimal }
{
    !decimal.negative && decimal.coefficient == 0 && decimal.exponent == 0
}

// The shortest VarInt of an exponent.
#[inline]
fn exponent_write(exponent: i32) -> ArrayVec<u8, 9>
    requires { IsExponent exponent }
    ensures spelled { result.items ≡ exponent_octets exponent }
    ensures short { length result.items ≤ 5 }
{
    var_int_write(Signed {
        negative: exponent < 0,
        magnitude: exponent.unsigned_abs() as u64,
    })
}

// The octets of an exponent, and after them those of a coefficient.
#[inline]
fn joined(exponent: &[u8], coefficient: &[u8]) -> ArrayVec<u8, 22>
    requires exponent { length exponent.now ≤ 5 }
    requires coefficient { length coefficient.now ≤ 17 }
    ensures { result.items ≡ exponent.now ++ coefficient.now }
{
    let mut octets = ArrayVec::new();
    octets.try_extend_from_slice(exponent).unwrap();
    octets.try_extend_from_slice(coefficient).unwrap();
    octets
}
