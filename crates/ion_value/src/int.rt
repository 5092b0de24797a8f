//! Ints: a sign and a magnitude of up to 128 bits.
ghost use Rattle.std.specs.Prelude.{◌≡◌, ℕ, ◌^◌, ◌≤◌, ◌↔◌, ◌⊎◌, true, ◌<◌, List, All, length, Err, IfOk, IfErr};
ghost use Rattle.ion_value.specs.Number.{uint, uint_octets};
ghost use Rattle.ion_value.specs.Int.{IsInt, int_of_bytes, int_text};

pub use crate::int_text::int_from_text;
use arrayvec::{ArrayString, ArrayVec};
use ion_meter::fault::Reason;
use itoa::Buffer;

/// A value of Ion's type `int` (Ion specification, "Integers"), whose magnitude has at most 128 bits.
#[derive(Clone, Copy, Debug, PartialEq, Eq)]
pub struct Int {
    /// Whether the int is below zero.
    pub negative: bool,
    /// The int without its sign.
    pub magnitude: u128,
}

// These octets without the zeros at their front.
#[inline]
pub(crate) fn without_zeros(bytes: &[u8]) -> &[u8]
    ensures same { uint result.now ≡ uint bytes.now }
    ensures large { 16 < length result.now → 2 ^ 128 ≤ uint bytes.now }
{
    let mut rest = bytes;
    while let [0, tail @ ..] = rest {
        rest = tail;
    }
    rest
}

// The number that these octets spell, the first counting most.
#[inline]
pub(crate) fn uint_value(bytes: &[u8]) -> u128
    requires { length bytes.now ≤ 16 }
    ensures { result ≡ uint bytes.now }
{
    let mut value: u128 = 0;
    for byte in bytes {
        value = value * 256 + *byte as u128;
    }
    value
}

/// Reads the body of an int: its sign is the type descriptor's, and its magnitude is a UInt
/// (binary encoding, "2 and 3: int" and "UInt and Int Fields").
///
/// Zeros at the front of the magnitude are allowed, in any number. A magnitude past 128 bits is
/// out of `Range`, and a negative zero is a `BadNumber`.
#[inline(always)]
pub fn int_from_bytes(negative: bool, magnitude: &[u8]) -> Result<Int, Reason>
    ensures is { result ≡ int_of_bytes negative magnitude.now }
    ensures read { IfOk result (λ i. (i.negative ≡ negative) × (i.magnitude ≡ uint magnitude.now)) }
    ensures valid { IfOk result IsInt }
    ensures range { (result ≡ Err Reason.Range) ↔ (2 ^ 128 ≤ uint magnitude.now) }
    ensures zero { (result ≡ Err Reason.BadNumber)
        ↔ ((negative ≡ true) × (uint magnitude.now ≡ 0)) }
    ensures refused { IfErr result (λ e. (e ≡ Reason.Range) ⊎ (e ≡ Reason.BadNumber)) }
{
    let significant = without_zeros(magnitude);
    if significant.len() > 16 {
        return Err(Reason::Range);
    }
    let magnitude = uint_value(significant);
    if negative && magnitude == 0 {
        return Err(Reason::BadNumber);
    }
    Ok(Int {
        negative,
        magnitude,
    })
}

/// The magnitude of an int as a UInt without zeros at its front, so no octets for 0
/// (binary encoding, "2 and 3: int" and "UInt and Int Fields").
#[inline]
pub fn int_to_bytes(int: Int) -> ArrayVec<u8, 16>
    requires { IsInt int }
    ensures spelled { result.items ≡ uint_octets int.magnitude }
    ensures value { uint result.items ≡ int.magnitude }
    ensures octets { All (λ octet. octet < 256) result.items }

    // No other octets that spell the magnitude are fewer.
    ensures shortest { (b : List ℕ) → All (λ octet. octet < 256) b → uint b ≡ int.magnitude
        → length result.items ≤ length b }
{
    let octets = int.magnitude.to_be_bytes();
    let zeros = int.magnitude.leading_zeros() as usize / 8;
    ArrayVec::try_from(&octets[zeros..]).unwrap()
}

/// The text of an int: its decimal digits, after a minus where it is negative (Ion specification,
/// "Integers").
#[inline(always)]
pub fn int_to_text(int: Int) -> ArrayString<40>
    requires { IsInt int }
    ensures { result.bytes ≡ int_text int }
{
    let mut text = ArrayString::new();
    if int.negative {
        text.push_str("-");
    }
    text.push_str(Buffer::new().format(int.magnitude));
    text
}
