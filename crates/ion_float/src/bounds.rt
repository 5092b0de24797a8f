//! A first look at whether a decimal is the shortest of a double, by 128 bits of its power of ten.
ghost use Rattle.std.specs.Prelude.{◌≡◌, ◌+◌, ◌-◌, ◌*◌, ◌/◌, ◌^◌, ◌<◌, ◌≤◌, IsTrue, from_bits};
ghost use Rattle.std.specs.Float.{binary64};
ghost use Rattle.ion_value.specs.Shortest.{IsAboveZero, NoneAbove, near, reads};

use crate::exact::parts_of;
use fast_float::power_of_ten;

/// Whether bounds on the power of ten show that this is the shortest decimal of the double: it
/// reads as it, no multiple of the next power does, and it is the multiple nearest to the double.
///
/// They do for nearly all that are, and not for powers of two and doubles below the normal ones.
#[inline]
pub(crate) fn is_surely_shortest(digits: u64, row: u32, bits: u64) -> bool
    requires above_zero { IsAboveZero bits }
    requires sizes { (digits < 10 ^ 17) × (row < 651) }
    ensures read { IsTrue result → reads digits row bits }
    ensures last { IsTrue result → NoneAbove row bits }
    ensures nearest { IsTrue result → near (from_bits binary64 bits) row ≡ digits }
{
    let field = bits >> 52;
    let fraction = bits & 0x000f_ffff_ffff_ffff;
    // The gap below a power of two is half of the one above.
    if field == 0 || fraction == 0 {
        return false;
    }
    let power = power_of_ten(row as u64);
    // 10^(row - 342) is power · 2^(scale - 1266), cut off, where the scale is that of the table of
    // powers. In units 2^72 times as large, twice the gap to the next double is 2^shift, of which
    // twice the double is a multiple.
    let scale = (row * 217_706 + 58_980) / 65_536 + 2;
    let shift = (field as u32 + 120).wrapping_sub(scale);
    // Of digits that read, twice the double has from 56 to 114 bits.
    if shift.wrapping_sub(1) >= 61 {
        return false;
    }
    let gap = 1_u64 << shift;
    lies_clear(
        upper_product(2 * digits, power) >> 8,
        (fraction + (1 << 52)) as u128 * gap as u128,
        gap / 2,
        (power >> 72) as u64,
        digits % 10,
    )
}

// Whether a decimal is the nearest of its row to a double, less than half a gap off it, and no
// multiple of ten in that row is. `decimal` and `double` are twice these, `unit` is that of the
// decimal's last digit, which is `rest`. The decimal and the unit are cut off.
#[inline(always)]
fn lies_clear(decimal: u128, double: u128, half: u64, unit: u64, rest: u64) -> bool
    requires wide { (decimal < 2 ^ 127) × (double < 2 ^ 127) }
    requires gap { (1 ≤ half) × (half ≤ 2 ^ 61) }
    requires unit { (1 ≤ unit) × (unit < 2 ^ 56) × (rest < 10) }
    ensures near { IsTrue result → (double < decimal + unit) × (decimal + 2 ≤ double + unit) }
    ensures read { IsTrue result → (double < decimal + half) × (decimal + 2 ≤ double + half) }
    ensures below { IsTrue result → decimal + 2 + half ≤ double + 2 * rest * unit }
    ensures above { IsTrue result → double + half < decimal + (20 - 2 * rest) * unit }
{
    let reach = half.min(unit);
    let offset = (decimal + (reach - 1) as u128).wrapping_sub(double);
    if offset >= (2 * reach - 2) as u128 {
        return false;
    }
    let offset = offset as u64;
    let front = 2 * rest * unit;
    offset + half + 3 <= front + reach && half + reach + front <= offset + 20 * unit
}

/// Whether bounds on the power of ten show that these digits are the multiple nearest to the double.
///
/// They do for nearly all that are, and not where the double lies about halfway between two multiples.
#[inline]
pub(crate) fn is_surely_nearest(digits: u64, row: u32, bits: u64) -> bool
    requires above_zero { IsAboveZero bits }
    requires sizes { (digits < 10 ^ 17) × (row < 651) }
    ensures { IsTrue result → near (from_bits binary64 bits) row ≡ digits }
{
    let (significand, exponent) = parts_of(bits);
    let power = power_of_ten(row as u64);
    // As above, without the factor 2^72: twice the double is significand · 2^shift.
    let scale = (row * 217_706 + 58_980) / 65_536 + 2;
    let shift = (exponent + 193).saturating_sub(scale);
    // Of digits that read, significand · 2^shift has from 128 to 186 bits.
    if shift < 64 || shift > 138 {
        return false;
    }
    let middle = (significand as u128) << (shift - 64);
    let below = upper_product((2 * digits).saturating_sub(1), power);
    let above = upper_product(2 * digits + 1, power);
    below + 1 < middle && middle < above
}

// The product without its 64 low bits.
#[inline]
fn upper_product(factor: u64, power: u128) -> u128
    requires { factor < 2 ^ 60 }
    ensures { result ≡ factor * power / 2 ^ 64 }
{
    let low = factor as u128 * (power & 0xffff_ffff_ffff_ffff);
    factor as u128 * (power >> 64) + (low >> 64)
}
