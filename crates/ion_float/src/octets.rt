//! Floats in octets.
ghost use Rattle.std.specs.Prelude.{◌≡◌, ◌<◌, ◌≤◌, All, IfSome, length, Some, None, option_map, if◌then◌else◌, take, to_bits, from_bits};
ghost use Rattle.std.specs.Float.{binary32};
ghost use lib.Ieee.{fits};
ghost use Rattle.ion_value.specs.Float.{IsFloat, value_of};
ghost use Rattle.ion_value.specs.FloatOctets.{float_of_octets, float_octets};

use ion_value::float::Float64;
use std::marker::Model;
use std::num::nearest_f64_to_f32;

/// The bits of binary32's infinity, above which the bits of a magnitude are no number's.
const INFINITY: u32 = 0x7F80_0000;

/// The bits of binary32 that are written where there is no number.
const NAN: u32 = 0x7FC0_0000;

/// The sign's bit in binary32.
const SIGN: u32 = 1 << 31;

/// The last bit of a double that a binary32 has.
const LAST: u64 = 1 << 29;

/// Reads the body of a float: no octets are `0e0`, four are a binary32 and eight a binary64, the
/// first octet counting most (binary encoding, "4: float"). There is none of any other length.
#[inline]
pub fn float_from_octets(body: &[u8]) -> Option<Float64>
    ensures read { option_map value_of result ≡ float_of_octets body.now }
    ensures valid { IfSome result (λ x. IsFloat (value_of x)) }
{
    match body {
        [] => Some(Float64::from_bits(0)),
        [a, b, c, d] => Some(widened(u32::from_be_bytes([*a, *b, *c, *d]))),
        [a, b, c, d, e, f, g, h] => {
            let octets = [*a, *b, *c, *d, *e, *f, *g, *h];
            Some(Float64::from_bits(u64::from_be_bytes(octets)))
        }
        _ => None,
    }
}

// The float with these bits of binary32.
#[inline]
fn widened(bits: u32) -> Float64
    ensures { value_of result ≡ from_bits binary32 bits }
{
    if bits % SIGN > INFINITY {
        return Float64::nan();
    }
    Float64::from_number(f32::from_bits(bits) as f64)
}

/// The octets of a float. A clause sees the list of them.
#[derive(Drop)]
pub struct FloatOctets {
    // The first octet counts most, and those that follow are no part of it.
    word: u64,
    count: usize,
}

impl Model for FloatOctets {
    ghost use Rattle.std.specs.Prelude.{◌≤◌, List, ℕ, take};
    ghost use Rattle.std.specs.Int.{to_be_bytes, w64};

    ghost Value = { List ℕ };

    ghost view = { λ f. take f.count (to_be_bytes w64 f.word) };

    ghost invariant = { λ f. f.count ≤ 8 };
}

impl FloatOctets {
    /// How many octets there are.
    #[inline(always)]
    pub fn len(&self) -> usize
        ensures len { result ≡ length self.now }
        ensures few { result ≤ 8 }
    {
        self.count
    }

    /// A block that begins with the octets.
    #[inline(always)]
    pub fn block(&self) -> [u8; 8]
        ensures { take (length self.now) result ≡ self.now }
    {
        self.word.to_be_bytes()
    }
}

/// The fewest octets of a float: none of `0e0`, four where a binary32 has the value, and eight
/// elsewhere (binary encoding, "4: float").
#[inline(always)]
pub fn float_to_octets(float: Float64) -> FloatOctets
    ensures spelled { result ≡ float_octets (value_of float) }
    ensures octets { All (λ octet. octet < 256) result }
{
    if float.bits() == 0 {
        return FloatOctets { word: 0, count: 0 };
    }
    let Some(bits) = narrowed(float) else {
        return FloatOctets {
            word: float.bits(),
            count: 8,
        };
    };
    FloatOctets {
        word: u64::from(bits) << 32,
        count: 4,
    }
}

// The bits of binary32 of a float, where it has the value. Most that have none are told by their last bits,
// without rounding, which takes many instructions.
#[inline]
fn narrowed(float: Float64) -> Option<u32>
    ensures { result ≡ (if fits binary32 (value_of float)
        then Some (to_bits binary32 (value_of float)) else None) }
{
    if float.bits() % LAST != 0 {
        return None;
    }
    if float.is_nan() {
        return Some(NAN);
    }
    let wide = f64::from_bits(float.bits());
    let narrow = nearest_f64_to_f32(wide);
    if (narrow as f64).to_bits() == float.bits() {
        Some(narrow.to_bits())
    } else {
        None
    }
}
