//! Decimals in octets and as text, and that texts spell.
ghost use Rattle.std.specs.Prelude.{◌≡◌};

use crate::same::{holds, same};
use arrayvec::ArrayVec;
use ion_meter::fault::Reason;
use ion_value::decimal::{
    Decimal, decimal_from_bytes, decimal_from_text, decimal_to_bytes, decimal_to_text,
};
use std::process::Abort;

/// A decimal.
fn decimal(negative: bool, coefficient: u128, exponent: i32) -> Decimal
    ensures sign { result.negative ≡ negative }
    ensures coefficient { result.coefficient ≡ coefficient }
    ensures exponent { result.exponent ≡ exponent }
{
    Decimal {
        negative,
        coefficient,
        exponent,
    }
}

// The decimal of a body, written again where there is one.
fn again(body: &[u8]) -> ArrayVec<u8, 22> {
    match decimal_from_bytes(body) {
        Ok(decimal) => decimal_to_bytes(decimal),
        Err(_) => ArrayVec::new(),
    }
}

/// A call, and what it answers.
#[derive(Clone, Copy)]
enum Call<'a> {
    /// A body, and the sign, coefficient and exponent of its decimal.
    Read(&'a [u8], bool, u128, i32),
    /// A body that tells no decimal, and why.
    Refused(&'a [u8], Reason),
    /// A body, and what is written for its decimal.
    Again(&'a [u8], &'a [u8]),
    /// A sign and a coefficient, and the body of their decimal with the exponent -1.
    Written(bool, u128, &'a [u8]),
    /// A text, and the sign, coefficient and exponent of its decimal.
    Spelled(&'a [u8], bool, u128, i32),
    /// A run that spells no decimal, and why.
    NoText(&'a [u8], Reason),
    /// A sign, a coefficient and an exponent, and the text of this decimal, of which it is read again.
    Text(bool, u128, i32, &'a str),
}

// Asserts what the call answers.
fn expect(rt: &impl Abort, call: Call) {
    match call {
        Call::Read(body, negative, coefficient, exponent) => {
            let want = decimal(negative, coefficient, exponent);
            same(rt, decimal_from_bytes(body), Ok(want));
        }
        Call::Refused(body, reason) => same(rt, decimal_from_bytes(body), Err(reason)),
        Call::Again(body, want) => same(rt, again(body).as_slice(), want),
        Call::Written(negative, coefficient, want) => {
            let body = decimal_to_bytes(decimal(negative, coefficient, -1));
            same(rt, body.as_slice(), want);
        }
        Call::Spelled(run, negative, coefficient, exponent) => {
            let want = decimal(negative, coefficient, exponent);
            same(rt, decimal_from_text(run), Ok(want));
        }
        Call::NoText(run, reason) => same(rt, decimal_from_text(run), Err(reason)),
        Call::Text(negative, coefficient, exponent, want) => {
            holds(rt, exponent > i32::MIN);
            let value = decimal(negative, coefficient, exponent);
            same(rt, decimal_to_text(value).as_str(), want);
            same(rt, decimal_from_text(want.as_bytes()), Ok(value));
        }
    }
}

/// The largest coefficient below zero, after the exponent -1.
const LARGEST: [u8; 18] = [
    0xC1, 0x80, 0xFF, 0xFF, 0xFF, 0xFF, 0xFF, 0xFF, 0xFF, 0xFF, 0xFF, 0xFF, 0xFF, 0xFF, 0xFF, 0xFF,
    0xFF, 0xFF,
];

const BODIES: &[Call] = &[
    Call::Read(&[], false, 0, 0),
    Call::Read(&[0x80], false, 0, 0),
    Call::Read(&[0xC0], false, 0, 0),
    Call::Read(&[0xC2], false, 0, -2),
    Call::Read(&[0x80, 0x80], true, 0, 0),
    Call::Read(&[0xC1, 0x0F], false, 15, -1),
    Call::Read(&[0xC1, 0x8F], true, 15, -1),
    Call::Read(&[0x80, 0x00, 0x00, 0x05], false, 5, 0),
    Call::Read(&[0x07, 0x7F, 0x7F, 0x7F, 0xFF, 0x01], false, 1, 0x7FFF_FFFF),
    Call::Read(
        &[0x47, 0x7F, 0x7F, 0x7F, 0xFF, 0x01],
        false,
        1,
        -0x7FFF_FFFF,
    ),
    // The largest coefficient.
    Call::Read(&MOST, true, u128::MAX, 0),
    Call::Again(&MOST, &MOST),
    // Bodies that tell no decimal.
    Call::Refused(&[0x41, 0x0F], Reason::BadVar),
    Call::Refused(&[0, 0, 0, 0, 0, 0, 0, 0, 0, 0x81], Reason::BadVar),
    Call::Refused(&[0x08, 0x00, 0x00, 0x00, 0x80], Reason::Range),
    Call::Refused(&[0x48, 0x00, 0x00, 0x00, 0x80], Reason::Range),
    Call::Refused(
        &[0x80, 0x01, 0, 0, 0, 0, 0, 0, 0, 0, 0, 0, 0, 0, 0, 0, 0, 0],
        Reason::Range,
    ),
    Call::Refused(
        &[0x80, 0x81, 0, 0, 0, 0, 0, 0, 0, 0, 0, 0, 0, 0, 0, 0, 0, 0],
        Reason::Range,
    ),
    // What is written again.
    Call::Again(&[], &[]),
    Call::Again(&[0x80], &[]),
    Call::Again(&[0xC0, 0x00], &[]),
    Call::Again(&[0xC2, 0x00], &[0xC2]),
    Call::Again(&[0x80, 0x80], &[0x80, 0x80]),
    Call::Again(&[0xC0, 0x80, 0x00], &[0x80, 0x80]),
    Call::Again(&[0xC1, 0x0F], &[0xC1, 0x0F]),
    Call::Again(&[0x80, 0x00, 0x00, 0x05], &[0x80, 0x05]),
    Call::Again(&[0xC1, 0x80, 0x80], &[0xC1, 0x80, 0x80]),
    Call::Again(
        &[0x47, 0x7F, 0x7F, 0x7F, 0xFF, 0x01],
        &[0x47, 0x7F, 0x7F, 0x7F, 0xFF, 0x01],
    ),
    // Coefficients, with the exponent -1.
    Call::Read(&[0xC1], false, 0, -1),
    Call::Read(&[0xC1, 0x80], true, 0, -1),
    Call::Read(&[0xC1, 0x0F], false, 15, -1),
    Call::Read(&[0xC1, 0x81, 0x02], true, 258, -1),
    Call::Read(&[0xC1, 0x80, 0x00, 0x00, 0x05], true, 5, -1),
    Call::Read(&LARGEST, true, u128::MAX, -1),
    Call::Refused(
        &[
            0xC1, 0x01, 0xFF, 0xFF, 0xFF, 0xFF, 0xFF, 0xFF, 0xFF, 0xFF, 0xFF, 0xFF, 0xFF, 0xFF,
            0xFF, 0xFF, 0xFF, 0xFF,
        ],
        Reason::Range,
    ),
    Call::Read(
        &[
            0xC1, 0x01, 0xFF, 0xFF, 0xFF, 0xFF, 0xFF, 0xFF, 0xFF, 0xFF, 0xFF, 0xFF, 0xFF, 0xFF,
            0xFF, 0xFF, 0xFF,
        ],
        false,
        (1 << 120) + u128::MAX / 256,
        -1,
    ),
    Call::Written(false, 0, &[0xC1]),
    Call::Written(true, 0, &[0xC1, 0x80]),
    Call::Written(true, 127, &[0xC1, 0xFF]),
    Call::Written(false, 128, &[0xC1, 0x00, 0x80]),
    Call::Written(true, 258, &[0xC1, 0x81, 0x02]),
    Call::Written(true, u128::MAX, &LARGEST),
];

/// The greatest coefficient after the exponent 0.
const MOST: [u8; 18] = [
    0x80, 0x80, 0xFF, 0xFF, 0xFF, 0xFF, 0xFF, 0xFF, 0xFF, 0xFF, 0xFF, 0xFF, 0xFF, 0xFF, 0xFF, 0xFF,
    0xFF, 0xFF,
];

const TEXTS: &[Call] = &[
    Call::Spelled(b"-0.", true, 0, 0),
    Call::Spelled(b"0d0", false, 0, 0),
    Call::Spelled(b"1.5", false, 15, -1),
    Call::Spelled(b"1.0", false, 10, -1),
    Call::Spelled(b"1.00", false, 100, -2),
    Call::Spelled(b"0.001", false, 1, -3),
    Call::Spelled(b"15d-1", false, 15, -1),
    Call::Spelled(b"1_0.0_0D+3", false, 1000, 1),
    Call::Spelled(b"1.d5", false, 1, 5),
    Call::Spelled(b"1d000000000000000000001", false, 1, 1),
    Call::Spelled(
        b"1d00000000000000000000000000000000000000000000000001",
        false,
        1,
        1,
    ),
    Call::Spelled(
        b"-340282366920938463463374607431768211455.d0",
        true,
        u128::MAX,
        0,
    ),
    Call::Spelled(
        b"3402823669209384634.63374607431768211455",
        false,
        u128::MAX,
        -20,
    ),
    Call::Spelled(b"1.0d2147483648", false, 10, 2147483647),
    Call::Spelled(b"1.0d-2147483646", false, 10, -2147483647),
    // Runs that spell no decimal.
    // Out of range.
    Call::NoText(b"1d2147483648", Reason::Range),
    Call::NoText(b"1d-2147483648", Reason::Range),
    Call::NoText(b"1.0d-2147483647", Reason::Range),
    Call::NoText(b"340282366920938463463374607431768211456.", Reason::Range),
    Call::NoText(b"34028236692093846346337460743176821145.6", Reason::Range),
    Call::NoText(
        b"1d99999999999999999999999999999999999999999999",
        Reason::Range,
    ),
    // Floats.
    Call::NoText(b"1e0", Reason::Float),
    Call::NoText(b"1.5E-3", Reason::Float),
    Call::NoText(b"1.e5", Reason::Float),
    Call::NoText(b"340282366920938463463374607431768211456e0", Reason::Float),
    // Others.
    Call::NoText(b"", Reason::BadToken),
    Call::NoText(b"15", Reason::BadToken),
    Call::NoText(b"1_.0", Reason::BadToken),
    Call::NoText(b"1._0", Reason::BadToken),
    Call::NoText(b"1.0_", Reason::BadToken),
    Call::NoText(b"1d", Reason::BadToken),
    Call::NoText(b"1d+", Reason::BadToken),
    Call::NoText(b"1d1_0", Reason::BadToken),
    Call::NoText(b"1d+-1", Reason::BadToken),
    Call::NoText(b"1e1d1", Reason::BadToken),
    Call::NoText(b"1ex", Reason::BadToken),
    Call::NoText(b".5", Reason::BadToken),
    Call::NoText(b"1.5.5", Reason::BadToken),
    Call::NoText(b"01.5", Reason::BadToken),
    Call::NoText(b"1d1d1", Reason::BadToken),
    Call::NoText(b"1d1.5", Reason::BadToken),
    Call::NoText(b"0x1.5", Reason::BadToken),
    Call::NoText(
        b"99999999999999999999999999999999999999999999d1x",
        Reason::BadToken,
    ),
    Call::NoText(
        b"9999999999999999999999999999999999999999_d1",
        Reason::BadToken,
    ),
    // What is written.
    Call::Text(true, 0, 0, "-0."),
    Call::Text(false, 15, 0, "15."),
    Call::Text(false, 15, -1, "1.5"),
    Call::Text(false, 5, -3, "0.005"),
    Call::Text(true, 5, -1, "-0.5"),
    Call::Text(false, 0, -2, "0.00"),
    Call::Text(false, 15, 1, "15d1"),
    Call::Text(false, 1, -38, "0.00000000000000000000000000000000000001"),
    Call::Text(false, 1, -39, "1d-39"),
    Call::Text(
        false,
        10_000_000_000_000_000_000,
        -19,
        "1.0000000000000000000",
    ),
    Call::Text(
        false,
        18_446_744_073_709_551_616,
        -19,
        "1.8446744073709551616",
    ),
    Call::Text(false, 7, -20, "0.00000000000000000007"),
    Call::Text(
        false,
        u128::MAX,
        -38,
        "3.40282366920938463463374607431768211455",
    ),
    Call::Text(
        false,
        u128::MAX,
        -2147483647,
        "340282366920938463463374607431768211455d-2147483647",
    ),
    Call::Text(
        true,
        u128::MAX,
        2147483647,
        "-340282366920938463463374607431768211455d2147483647",
    ),
];

// Asserts what each call answers.
fn expect_all(rt: &impl Abort, calls: &[Call]) {
    for call in calls {
        expect(rt, *call);
    }
}

#[test]
fn decimals_are_read_and_written(rt: HostRuntime) {
    expect_all(&rt, BODIES);
    expect_all(&rt, TEXTS);
    assert_ne!(rt; decimal_from_bytes(&[0x80, 0x80]), Ok(decimal(false, 0, 0)));
}

#[test]
fn reads_the_decimals_that_it_writes(rt: HostRuntime) {
    for coefficient in [0, 1, 127, 128, 255, 256, u128::MAX / 2, u128::MAX] {
        for exponent in [0, 1, -1, 63, 64, -64, 0x7FFF_FFFF, -0x7FFF_FFFF] {
            assert!(rt; exponent > i32::MIN);
            for negative in [false, true] {
                let d = decimal(negative, coefficient, exponent);
                let body = decimal_to_bytes(d);
                same(&rt, decimal_from_bytes(body.as_slice()), Ok(d));
            }
        }
    }
}
