//! How floats are made, and what is read of them.
ghost use Rattle.std.specs.Prelude.{◌≡◌, to_bits, from_bits, is_nan};
ghost use Rattle.std.specs.Float.{binary64, nan, inf, NotNan};
ghost use Rattle.ion_value.specs.Float.{IsFloat, value_of};

use super::Float64;

/// The bits of infinity, above which the bits of a magnitude are no number's.
const INFINITY: u64 = 0x7FF0_0000_0000_0000;

/// The bits that stand for all that is no number.
const NAN: u64 = 0x7FF8_0000_0000_0000;

/// The sign's bit.
const SIGN: u64 = 1 << 63;

impl Float64 {
    /// The float with these bits (IEEE 754, binary64).
    #[inline]
    pub fn from_bits(bits: u64) -> Float64
        ensures { value_of result ≡ from_bits binary64 bits }
    {
        Float64 { bits: kept(bits) }
    }

    /// The float of a number.
    #[inline]
    pub fn from_number(number: f64) -> Float64
        requires { NotNan number }
        ensures { value_of result ≡ number }
    {
        Float64::from_bits(number.to_bits())
    }

    /// The float that stands for all that is no number.
    #[inline]
    pub fn nan() -> Float64
        ensures { value_of result ≡ nan }
    {
        Float64 { bits: NAN }
    }

    /// The infinity above zero, or the one below it.
    #[inline]
    pub fn infinite(negative: bool) -> Float64
        ensures { value_of result ≡ inf negative }
    {
        if negative {
            Float64::from_bits(SIGN + INFINITY)
        } else {
            Float64::from_bits(INFINITY)
        }
    }

    /// Whether it is `nan`.
    #[inline]
    pub fn is_nan(self) -> bool
        ensures { result ≡ is_nan (value_of self) }
    {
        self.bits == NAN
    }

    /// Its bits (IEEE 754, binary64), 7FF8000000000000 of `nan`.
    #[inline]
    pub fn bits(self) -> u64
        ensures bits { result ≡ to_bits binary64 (value_of self) }
        ensures value { from_bits binary64 result ≡ value_of self }
        ensures float { IsFloat (value_of self) }
    {
        self.bits
    }
}

// These bits, or those that stand for all bits of no number.
#[inline]
fn kept(bits: u64) -> u64
    ensures value { from_bits binary64 result ≡ from_bits binary64 bits }
    ensures bits { to_bits binary64 (from_bits binary64 bits) ≡ result }
{
    if bits % SIGN > INFINITY { NAN } else { bits }
}
