//! A guess at the shortest decimal of a double: the digits that ryu writes.
//!
//! Nothing is proved of what is read here, since `is_shortest` tests the decimal.
ghost use Rattle.ion_value.specs.Shortest.{IsAboveZero};

use crate::shortest::Digits;
use ryu::raw;
use std::simd::prelude::*;

// The bits of 1e-5, 1 and 1e16: from the first on and below the last ryu writes no exponent.
const LEAST: u64 = 0x3ee4_f8b5_88e3_68f1;

const ONE: u64 = 0x3ff0_0000_0000_0000;

const GREAT: u64 = 0x4341_c379_37e0_8000;

const TEN_TO_16: u64 = 10_000_000_000_000_000;

// The inverses of the powers of five, from 5^0 on, among the numbers below 2^64.
static INVERSES: [u64; 32] = [
    0x0000000000000001,
    0xcccccccccccccccd,
    0x8f5c28f5c28f5c29,
    0x1cac083126e978d5,
    0xd288ce703afb7e91,
    0x5d4e8fb00bcbe61d,
    0x790fb65668c26139,
    0xe5032477ae8d46a5,
    0xc767074b22e90e21,
    0x8e47ce423a2e9c6d,
    0x4fa7f60d3ed61f49,
    0x0fee64690c913975,
    0x3662e0e1cf503eb1,
    0xa47a2cf9f6433fbd,
    0x54186f653140a659,
    0x7738164770402145,
    0xe4a4d1417cd9a041,
    0xc75429d9e5c5200d,
    0xc1773b91fac10669,
    0x26b172506559ce15,
    0xd489e3a9addec2d1,
    0x90e860bb892c8d5d,
    0x502e79bf1b6f4f79,
    0xdcd618596be30fe5,
    0x2c2ad1ab7bfa3661,
    0x08d55d224bfed7ad,
    0x01c445d3a8cc9189,
    0xcd27412a54f5b6b5,
    0x8f6e403baa978af1,
    0xe97c733f221e4efd,
    0x2eb27d7306d2dc99,
    0x6fbd4c4a34909285,
];

/// The decimal that ryu writes for the double. It is the shortest as a rule, which its contract does
/// not say: test it.
#[inline]
pub(crate) fn guess(bits: u64) -> Digits
    requires { IsAboveZero bits }
{
    // Where it writes no exponent, seventeen digits stand in the array, whatever the text's length.
    let mut text = [b'0'; raw::LEN];
    let length = raw::format(f64::from_bits(bits), &mut text);
    let (first, others, row) = if bits.wrapping_sub(ONE) < GREAT - ONE {
        from_one(&text)
    } else if bits.wrapping_sub(LEAST) < ONE - LEAST {
        below_one(&text)
    } else {
        with_exponent(&text, length)
    };
    decimal(first, others, row)
}

// The digits in a text as `12.34` or `1200.0`, and the row of the last of them. This and the next
// two give the first of seventeen digits and the others.
#[inline]
fn from_one(text: &[u8; raw::LEN]) -> (u8, u8x16, u32) {
    let before = u8x16::from_slice(&text[1..]);
    let point = before
        .simd_eq(u8x16::splat(b'.'))
        .to_bitmask()
        .trailing_zeros();
    let others = lanes(point as u8).select(before, u8x16::from_slice(&text[2..]));
    (text[0], others, point + 326)
}

// Those in a text as `0.00012`: from the first on that is not 0.
#[inline]
fn below_one(text: &[u8; raw::LEN]) -> (u8, u8x16, u32) {
    let some = u8x16::from_slice(text).simd_gt(u8x16::splat(b'0'));
    let first = some.to_bitmask().trailing_zeros() & 7;
    let from = first as usize;
    (
        text[from],
        u8x16::from_slice(&text[from + 1..]),
        327 - first,
    )
}

// Those in a text as `1.2e-7` or `1e30`: before the `e`, with zeros after them.
#[inline]
fn with_exponent(text: &[u8; raw::LEN], length: usize) -> (u8, u8x16, u32) {
    let marks = u8x32::from_slice(text)
        .simd_eq(u8x32::splat(b'e'))
        .to_bitmask();
    let mark = marks.trailing_zeros() & 31;
    let after = u8x16::from_slice(&text[2..]);
    let others = lanes(mark.saturating_sub(2) as u8).select(after, u8x16::splat(b'0'));
    let exponent = match text.get(mark as usize + 1..length) {
        Some(exponent) => signed(exponent),
        None => 0,
    };
    (text[0], others, exponent.wrapping_add(326))
}

// So many lanes.
#[inline]
fn lanes(count: u8) -> mask8x16 {
    let indices = u8x16::from_array([0, 1, 2, 3, 4, 5, 6, 7, 8, 9, 10, 11, 12, 13, 14, 15]);
    indices.simd_lt(u8x16::splat(count))
}

// Seventeen digits as a decimal, whose zeros at the end go to the row. The row is that of all.
#[inline]
fn decimal(first: u8, others: u8x16, row: u32) -> Digits {
    let first = first.wrapping_sub(b'0') as u64;
    let others = others - u8x16::splat(b'0');
    let digits = first.wrapping_mul(TEN_TO_16).wrapping_add(sixteen(others));
    let some = others.simd_ne(u8x16::splat(0)).to_bitmask();
    let zeros = some.leading_zeros().wrapping_sub(48) & 31;
    // Over a power of ten that leaves no rest, by a shift and the inverse of a power of five.
    Digits {
        digits: (digits >> zeros).wrapping_mul(INVERSES[zeros as usize]),
        row: row.wrapping_add(zeros),
    }
}

// The number of sixteen digits, of which two are put together in each lane, then four, then eight.
// A lane's lower half, times the weight, comes to its upper half, and is added to it there.
#[inline]
fn sixteen(digits: u8x16) -> u64 {
    let ones = u16x8::from_le_bytes(digits);
    let twos = (ones * u16x8::splat((10 << 8) + 1)) >> u16x8::splat(8);
    let twos = u32x4::from_le_bytes(twos.to_le_bytes());
    let fours = (twos * u32x4::splat((100 << 16) + 1)) >> u32x4::splat(16);
    let fours = u64x2::from_le_bytes(fours.to_le_bytes());
    let low = fours & u64x2::splat(0xffff_ffff);
    let eights = (low * u64x2::splat(10_000) + (fours >> u64x2::splat(32))).to_array();
    eights[0].wrapping_mul(100_000_000).wrapping_add(eights[1])
}

// A signed number of at most three digits as 32 bits, which are its two's complement.
fn signed(text: &[u8]) -> u32 {
    match text {
        [b'-', size @ ..] => number(size).wrapping_neg(),
        _ => number(text),
    }
}

// A number of at most three digits.
fn number(text: &[u8]) -> u32 {
    let mut number = 0_u32;
    for digit in text {
        number = number
            .wrapping_mul(10)
            .wrapping_add(digit.wrapping_sub(b'0') as u32);
    }
    number
}
