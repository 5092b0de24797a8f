//! Variable-length fields of the binary encoding.
ghost use Rattle.std.specs.Prelude.{◌≡◌, ℕ, ◌+◌, ◌-◌, ◌*◌, ◌^◌, ◌<◌, ◌≤◌, List, All, length, take, IfOk, IfErr};
ghost use Rattle.ion_value.specs.Number.{IsVar, var_uint, VarUInt, VarInt, var_uint_octets, var_int_octets};

use arrayvec::ArrayVec;
use ion_meter::fault::Reason;

/// The most octets that a VarUInt may have: nine of seven bits each are below 2^63.
const LONGEST: usize = 9;

/// A sign and a magnitude, where minus zero differs from zero: the value of a VarInt
/// (binary encoding, "VarUInt and VarInt Fields").
#[derive(Clone, Copy, Debug, PartialEq, Eq)]
pub struct Signed {
    /// Whether there is a minus.
    pub negative: bool,
    /// The number without its sign.
    pub magnitude: u64,
}

/// Reads the VarUInt at the front of these bytes, and says how many octets it has
/// (binary encoding, "VarUInt and VarInt Fields").
///
/// It is a `BadVar` where none of the first nine octets ends one, or none of all where there are
/// fewer.
#[inline]
pub fn var_uint_read(bytes: &[u8]) -> Result<(u64, usize), Reason>
    ensures read { IfOk result (λ r. (r.1 ≤ length bytes.now) × VarUInt r.0 (take r.1 bytes.now)) }
    ensures refused { IfErr result (λ r. (r ≡ Reason.BadVar)
        × ((n k : ℕ) → VarUInt n (take k bytes.now) → ⊥)) }
{
    let prefix = &bytes[..bytes.len().min(LONGEST)];
    let mut value: u64 = 0;
    for (i, byte) in prefix.iter().enumerate() {
        if *byte >= 128 {
            return Ok((value * 128 + (*byte - 128) as u64, i + 1));
        }
        value = value * 128 + *byte as u64;
    }
    Err(Reason::BadVar)
}

/// Reads the VarInt at the front of these bytes, and says how many octets it has
/// (binary encoding, "VarUInt and VarInt Fields").
///
/// It is a `BadVar` where none of the first nine octets ends one, or none of all where there are
/// fewer.
#[inline]
pub fn var_int_read(bytes: &[u8]) -> Result<(Signed, usize), Reason>
    ensures read { IfOk result (λ r. (r.1 ≤ length bytes.now) × VarInt r.0 (take r.1 bytes.now)) }
    ensures refused { IfErr result (λ r. (r ≡ Reason.BadVar)
        × ((z : Signed) (k : ℕ) → VarInt z (take k bytes.now) → ⊥)) }
{
    let (value, count) = var_uint_read(bytes)?;
    let sign = sign_bit(count);
    let negative = value >= sign;
    let magnitude = if negative { value - sign } else { value };
    let signed = Signed {
        negative,
        magnitude,
    };
    Ok((signed, count))
}

/// The fewest octets that are a VarUInt and spell this number
/// (binary encoding, "VarUInt and VarInt Fields").
#[inline]
pub fn var_uint_write(n: u64) -> ArrayVec<u8, 9>
    requires { n < 2 ^ 63 }
    ensures spelled { result.items ≡ var_uint_octets n }
    ensures value { VarUInt n result.items }
    ensures shortest { (b : List ℕ) → VarUInt n b → length result.items ≤ length b }
{
    octets(n, octet_count(n.max(1)))
}

/// The fewest octets that are a VarInt and spell this sign and magnitude
/// (binary encoding, "VarUInt and VarInt Fields").
#[inline]
pub fn var_int_write(z: Signed) -> ArrayVec<u8, 9>
    requires { z.magnitude < 2 ^ 62 }
    ensures spelled { result.items ≡ var_int_octets z.negative z.magnitude }
    ensures value { VarInt z result.items }
    ensures shortest { (b : List ℕ) → VarInt z b → length result.items ≤ length b }
{
    let count = octet_count(2 * z.magnitude + 1);
    let sign = if z.negative { sign_bit(count) } else { 0 };
    octets(z.magnitude + sign, count)
}

// How many octets of seven bits each hold this number.
#[inline]
fn octet_count(n: u64) -> usize
    requires positive { 0 < n }
    requires in_range { n < 2 ^ 63 }
    ensures some { 0 < result }
    ensures short { result ≤ LONGEST }
    ensures enough { n < 128 ^ result }
    ensures least { 128 ^ (result - 1) ≤ n }
{
    // 64 less the zeros at its front is how many bits it has, and the rest rounds up.
    (70 - n.leading_zeros() as usize) / 7
}

// What the sign of a VarInt of this many octets adds to the number that its octets spell as a
// VarUInt: bit 6 of the first octet.
#[inline]
fn sign_bit(count: usize) -> u64
    requires some { 0 < count }
    requires short { count ≤ LONGEST }
    ensures { result ≡ 64 * 128 ^ (count - 1) }
{
    64 << (7 * (count - 1))
}

// This number in this many octets of seven bits each, the high bit set on the last alone.
#[inline]
fn octets(n: u64, count: usize) -> ArrayVec<u8, 9>
    requires some { 0 < count }
    requires short { count ≤ LONGEST }
    requires fits { n < 128 ^ count }
    ensures len { length result.items ≡ count }
    ensures octets { All (λ octet. octet < 256) result.items }
    ensures ends { IsVar result.items }
    ensures value { var_uint result.items ≡ n }
{
    let mut octets = ArrayVec::new();
    for i in (1..count).rev() {
        octets.push(((n >> (7 * i)) % 128) as u8);
    }
    octets.push((n % 128) as u8 + 128);
    octets
}
