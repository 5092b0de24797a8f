//! Int fields of the binary encoding, as decimals and the fractions of timestamps have them.
ghost use Rattle.std.specs.Prelude.{◌≡◌, ◌^◌, ◌≤◌, ◌<◌, ◌↔◌, ◌∷◌, length, IfSome, IsNone};
ghost use Rattle.ion_value.specs.Number.{number, uint, int_negative, int_magnitude, with_sign, coefficient_octets};

use crate::int::{Int, int_to_bytes, uint_value, without_zeros};
use arrayvec::ArrayVec;

/// The sign and the magnitude of an Int, of which no octets spell zero, and minus zero differs from
/// it (binary encoding, "UInt and Int Fields"), or `None` where the magnitude has more than 128 bits.
///
/// Zeros at the front of the magnitude are allowed, in any number.
#[inline]
pub(crate) fn int_field_read(octets: &[u8]) -> Option<(bool, u128)>
    ensures read { IfSome result (λ r. (r.0 ≡ int_negative octets.now)
        × (r.1 ≡ int_magnitude octets.now)) }
    ensures range { IsNone result ↔ (2 ^ 128 ≤ int_magnitude octets.now) }
{
    match octets {
        [] => Some((false, 0)),
        [first, rest @ ..] => match magnitude_read(*first % 128, rest) {
            Some(magnitude) => Some((*first >= 128, magnitude)),
            None => None,
        },
    }
}

// The number that these seven bits and the octets after them spell, where it has at most 128 bits.
#[inline]
fn magnitude_read(high: u8, rest: &[u8]) -> Option<u128>
    requires { high < 128 }
    ensures read { IfSome result (λ magnitude. magnitude ≡ number 256 (high ∷ rest.now)) }
    ensures range { IsNone result ↔ (2 ^ 128 ≤ number 256 (high ∷ rest.now)) }
{
    if high == 0 {
        return uint_read(rest);
    }
    if rest.len() > 15 {
        return None;
    }
    Some(((high as u128) << (8 * rest.len())) + uint_value(rest))
}

// The number that these octets spell, where it has at most 128 bits.
#[inline]
fn uint_read(octets: &[u8]) -> Option<u128>
    ensures read { IfSome result (λ magnitude. magnitude ≡ uint octets.now) }
    ensures range { IsNone result ↔ (2 ^ 128 ≤ uint octets.now) }
{
    let significant = without_zeros(octets);
    if significant.len() > 16 {
        return None;
    }
    Some(uint_value(significant))
}

/// The shortest Int of a sign and a magnitude, so no octets for positive zero and one for minus zero
/// (binary encoding, "UInt and Int Fields").
#[inline]
pub(crate) fn coefficient_write(negative: bool, magnitude: u128) -> ArrayVec<u8, 17>
    ensures { result.items ≡ coefficient_octets negative magnitude }
{
    if magnitude == 0 && !negative {
        return ArrayVec::new();
    }
    let int = Int {
        negative: false,
        magnitude,
    };
    with_sign_bit(negative, int_to_bytes(int).as_slice())
}

// These octets with a sign in the high bit of the first, or in an octet before them where the first
// has that bit already.
#[inline]
fn with_sign_bit(negative: bool, octets: &[u8]) -> ArrayVec<u8, 17>
    requires { length octets.now ≤ 16 }
    ensures { result.items ≡ with_sign 128 negative octets.now }
{
    let sign = if negative { 128 } else { 0 };
    match octets {
        [first, rest @ ..] if *first < 128 => joined(*first + sign, rest),
        _ => joined(sign, octets),
    }
}

// One octet and those after it.
#[inline]
fn joined(first: u8, rest: &[u8]) -> ArrayVec<u8, 17>
    requires { length rest.now ≤ 16 }
    ensures { result.items ≡ first ∷ rest.now }
{
    let mut octets = ArrayVec::new();
    octets.push(first);
    octets.try_extend_from_slice(rest).unwrap();
    octets
}
