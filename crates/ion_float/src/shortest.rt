//! The shortest decimal that reads as a double.
ghost use Rattle.std.specs.Prelude.{◌≡◌, ◌<◌, ◌≤◌, ◌^◌, ◌↔◌, IsTrue};
ghost use Rattle.ion_value.specs.Shortest.{IsAboveZero, IsTaken, NoneAbove, reads, shortest};

use crate::bounds::{is_surely_nearest, is_surely_shortest};
use crate::exact::Ratio;
use crate::guess::guess;
use fast_float::nearest_bits;

/// The decimal digits · 10^(row - 342), below 10^17 · 10^308.
#[derive(Clone, Copy, Debug, PartialEq, Eq)]
pub struct Digits {
    /// The digits as a number below 10^17, whose last is not 0.
    pub digits: u64,
    /// The power of ten and 342, below 651.
    pub row: u32,
}

// Digits are below this.
const MOST: u64 = 100_000_000_000_000_000;

/// The shortest decimal that reads as a finite double above zero: the greatest power of ten at which
/// the nearest multiple reads as it, or the one above, and that multiple.
pub fn shortest(bits: u64) -> Digits
    requires { IsAboveZero bits }
    ensures exact { (result.digits, result.row) ≡ shortest bits }
    ensures some { 1 ≤ result.digits }
    ensures few { result.digits < 10 ^ 17 }
    ensures row { result.row < 651 }
{
    let found = guess(bits);
    if is_shortest(found, bits) {
        found
    } else {
        search_down(bits)
    }
}

// Whether tests show that this is the shortest decimal.
#[inline]
fn is_shortest(found: Digits, bits: u64) -> bool
    requires above_zero { IsAboveZero bits }
    ensures exact { IsTrue result ↔ ((found.digits, found.row) ≡ shortest bits) }
    ensures few { IsTrue result → found.digits < 10 ^ 17 }
    ensures row { IsTrue result → found.row < 651 }
{
    let Digits { digits, row } = found;
    if digits >= MOST || row > 650 {
        return false;
    }
    if is_surely_shortest(digits, row, bits) {
        return true;
    }
    is_shortest_exactly(digits, row, bits)
}

// The answer by tests that leave nothing open, which few decimals need.
#[cold]
#[inline(never)]
fn is_shortest_exactly(digits: u64, row: u32, bits: u64) -> bool
    requires above_zero { IsAboveZero bits }
    requires sizes { (digits < 10 ^ 17) × (row < 651) }
    ensures { IsTrue result ↔ ((digits, row) ≡ shortest bits) }
{
    if !reads_back(digits, row, bits) || !is_last_row(digits, row, bits) {
        return false;
    }
    is_taken(digits, row, bits)
}

// Whether this decimal reads as the double with these bits.
#[inline]
fn reads_back(digits: u64, row: u32, bits: u64) -> bool
    requires above_zero { IsAboveZero bits }
    requires row { row < 651 }
    ensures { IsTrue result ↔ reads digits row bits }
{
    digits > 0 && nearest_bits::<f64>(digits, row as u64) == bits
}

// Whether no multiple of the next power of ten reads as the double, as these digits do.
#[inline]
fn is_last_row(digits: u64, row: u32, bits: u64) -> bool
    requires above_zero { IsAboveZero bits }
    requires row { row < 651 }
    requires read { reads digits row bits }
    ensures { IsTrue result ↔ NoneAbove row bits }
{
    // In row 651 all are above the greatest double.
    if row == 650 {
        return true;
    }
    let front = digits / 10;
    !reads_back(front, row + 1, bits) && !reads_back(front + 1, row + 1, bits)
}

// Whether the definition takes these digits, which read, in this row: they are the nearest multiple,
// or the one above it where that doesn't read, as in some powers of two.
#[inline]
fn is_taken(digits: u64, row: u32, bits: u64) -> bool
    requires above_zero { IsAboveZero bits }
    requires sizes { (digits < 10 ^ 17) × (row < 651) }
    requires read { reads digits row bits }
    ensures { IsTrue result ↔ IsTaken digits row bits }
{
    if is_surely_nearest(digits, row, bits) {
        return true;
    }
    is_taken_exactly(digits, row, bits)
}

// The answer by exact comparison. It stands apart since a function pays at its start for the arrays
// that it has.
#[cold]
#[inline(never)]
fn is_taken_exactly(digits: u64, row: u32, bits: u64) -> bool
    requires above_zero { IsAboveZero bits }
    requires sizes { (digits < 10 ^ 17) × (row < 651) }
    requires read { reads digits row bits }
    ensures { IsTrue result ↔ IsTaken digits row bits }
{
    let ratio = Ratio::new(bits, row);
    if ratio.reaches(digits) {
        return !ratio.reaches(digits + 1);
    }
    let below = digits - 1;
    ratio.reaches(below) && !reads_back(below, row, bits)
}

// Tries each row from the greatest down. This is slow, about a millisecond.
#[cold]
#[inline(never)]
fn search_down(bits: u64) -> Digits
    requires { IsAboveZero bits }
    ensures exact { (result.digits, result.row) ≡ shortest bits }
    ensures few { result.digits < 10 ^ 17 }
    ensures row { result.row < 651 }
{
    let mut row = 651;
    loop {
        row -= 1;
        let digits = Ratio::new(bits, row).nearest();
        // In row 0 they read: 10^-342 is far below the gap between two doubles.
        if row == 0 || reads_back(digits, row, bits) {
            return Digits { digits, row };
        }
        if reads_back(digits + 1, row, bits) {
            return Digits {
                digits: digits + 1,
                row,
            };
        }
    }
}
