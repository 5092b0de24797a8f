//! Exact comparison of a double with the multiples of a power of ten.
//!
//! Natural numbers stand in limbs of 64 bits on the stack, the lowest first.
ghost use Rattle.std.specs.Prelude.{◌≡◌, ◌+◌, ◌*◌, ◌^◌, ◌<◌, ◌≤◌, ◌↔◌, false, from_bits, length, slice_index, IsTrue};
ghost use Rattle.std.specs.Ordering.{nat_cmp};
ghost use Rattle.std.specs.Float.{binary64};
ghost use lib.Ieee.Exact.{HasValue};
ghost use lib.Ieee.Nearest.{closest};
ghost use Rattle.ion_float.specs.Limbs.{value};
ghost use Rattle.ion_value.specs.Shortest.{IsAboveZero, near};

use arrayvec::ArrayVec;
use std::cmp::Ordering;
use std::marker::Model;

// They hold 2,176 bits, and the greatest number that occurs is below 2^54 · 2^971 · 10^342.
const LIMBS: usize = 34;

// The limb at this index, or 0 after the last.
#[inline]
fn limb_at(limbs: &[u64], index: usize) -> u64
    ensures { result ≡ slice_index limbs.now index }
{
    if index < limbs.len() { limbs[index] } else { 0 }
}

// Multiplies the number in these limbs, and returns what passes the last of them.
#[inline]
fn multiply(limbs: &mut [u64], factor: u64) -> u64
    ensures { value limbs.new + result * 2 ^ (64 * length limbs.old) ≡ value limbs.old * factor }
{
    let mut carry = 0;
    for limb in limbs.iter_mut() {
        let product = *limb as u128 * factor as u128 + carry as u128;
        *limb = (product & 0xffff_ffff_ffff_ffff) as u64;
        carry = (product >> 64) as u64;
    }
    carry
}

// How a multiple of the number in `limbs` compares with the number in `others`. The product goes by
// limb for limb, and the last limbs that differ decide.
#[inline]
fn compare_multiple(limbs: &[u64], factor: u64, others: &[u64]) -> Ordering
    ensures { result ≡ nat_cmp (value limbs.now * factor) (value others.now) }
{
    let mut order = Ordering::Equal;
    let mut carry = 0;
    for index in 0..others.len().max(limbs.len() + 1) {
        let product = limb_at(limbs, index) as u128 * factor as u128 + carry as u128;
        let limb = (product & 0xffff_ffff_ffff_ffff) as u64;
        carry = (product >> 64) as u64;
        order = limb.cmp(&limb_at(others, index)).then(order);
    }
    order
}

/// A natural number below 2^2176.
#[derive(Drop)]
pub(crate) struct Natural {
    limbs: ArrayVec<u64, LIMBS>,
}

impl Model for Natural {
    ghost use Rattle.std.specs.Prelude.{ℕ};
    ghost use Rattle.ion_float.specs.Limbs.{value};

    ghost Value = { ℕ };

    ghost view = { λ n. value n.limbs.items };
}

impl Natural {
    /// number · 2^power.
    pub(crate) fn new(number: u64, power: u32) -> Natural
        requires { power < 2048 }
        ensures { result ≡ number * 2 ^ power }
    {
        let mut limbs = ArrayVec::new();
        for _ in 0..power / 64 {
            limbs.push(0);
        }
        let wide = (number as u128) << (power % 64);
        limbs.push((wide & 0xffff_ffff_ffff_ffff) as u64);
        let high = (wide >> 64) as u64;
        if high > 0 {
            limbs.push(high);
        }
        Natural { limbs }
    }

    /// Multiplies by a number of one limb.
    pub(crate) fn multiply(&mut self, factor: u64)
        requires { self.old * factor < 2 ^ 2176 }
        ensures { self.new ≡ self.old * factor }
    {
        let carry = multiply(self.limbs.as_mut_slice(), factor);
        if carry > 0 {
            self.limbs.push(carry);
        }
    }

    /// Multiplies by 10^power.
    pub(crate) fn times_ten_to(&mut self, power: u32)
        requires { self.old * 10 ^ power < 2 ^ 2176 }
        ensures { self.new ≡ self.old * 10 ^ power }
    {
        let mut left = power;
        while left >= 19 {
            self.multiply(10_000_000_000_000_000_000);
            left -= 19;
        }
        if left > 0 {
            self.multiply(10_u64.pow(left));
        }
    }

    /// How a multiple of this number compares with another.
    pub(crate) fn compare_multiple(&self, factor: u64, other: &Natural) -> Ordering
        ensures { result ≡ nat_cmp (self.now * factor) other.now }
    {
        compare_multiple(self.limbs.as_slice(), factor, other.limbs.as_slice())
    }
}

/// The significand and the exponent of a finite double above zero, which is
/// significand · 2^exponent / 2^1074.
#[inline]
pub(crate) fn parts_of(bits: u64) -> (u64, u32)
    requires { IsAboveZero bits }
    ensures fits { (result.0 < 2 ^ 53) × (result.1 < 2046) }
    ensures value { HasValue (from_bits binary64 bits) false (result.0 * 2 ^ result.1) (2 ^ 1074) }
{
    let field = bits >> 52;
    let rest = bits & 0x000f_ffff_ffff_ffff;
    if field == 0 {
        (rest, 0)
    } else {
        (rest + (1 << 52), field as u32 - 1)
    }
}

/// A finite double above zero in units of a power of ten: `twice` over `unit` is twice the double
/// over the power.
#[derive(Drop)]
pub(crate) struct Ratio {
    pub(crate) twice: Natural,
    pub(crate) unit: Natural,
    ghost some: { 0 < unit },
}

impl Ratio {
    /// The double with these bits in units of 10^(row - 342).
    pub(crate) fn new(bits: u64, row: u32) -> Ratio
        requires above_zero { IsAboveZero bits }
        requires row { row < 651 }
        ensures { closest result.twice (2 * result.unit) ≡ near (from_bits binary64 bits) row }
    {
        let (significand, exponent) = parts_of(bits);
        let mut twice = Natural::new(2 * significand, exponent.saturating_sub(1074));
        let mut unit = Natural::new(1, 1074_u32.saturating_sub(exponent));
        twice.times_ten_to(342_u32.saturating_sub(row));
        unit.times_ten_to(row.saturating_sub(342));
        Ratio { twice, unit }
    }

    /// Whether the multiple nearest to the double, the even one of two, is at least this one.
    pub(crate) fn reaches(&self, digits: u64) -> bool
        requires { digits < 2 ^ 63 }
        ensures { IsTrue result ↔ (digits ≤ closest self.now.twice (2 * self.now.unit)) }
    {
        if digits == 0 {
            return true;
        }
        match self.unit.compare_multiple(2 * digits - 1, &self.twice) {
            Ordering::Less => true,
            Ordering::Equal => digits % 2 == 0,
            Ordering::Greater => false,
        }
    }

    /// The multiple nearest to the double, the even one of two.
    pub(crate) fn nearest(&self) -> u64
        requires { closest self.now.twice (2 * self.now.unit) < 10 ^ 17 }
        ensures { result ≡ closest self.now.twice (2 * self.now.unit) }
    {
        let mut low = 0;
        let mut high = 100_000_000_000_000_000;
        while high - low > 1 {
            let middle = low + (high - low) / 2;
            if self.reaches(middle) {
                low = middle;
            } else {
                high = middle;
            }
        }
        low
    }
}
