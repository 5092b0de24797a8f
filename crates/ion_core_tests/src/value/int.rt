//! Ints in octets and as text, and that texts spell.

use crate::same::{holds, same};
use ion_meter::fault::Reason;
use ion_value::int::{Int, int_from_bytes, int_from_text, int_to_bytes, int_to_text};
use std::process::Abort;

/// A call, and what it answers.
#[derive(Clone, Copy)]
enum Call<'a> {
    /// A sign and octets, and the int that they tell.
    Read(bool, &'a [u8], Result<Int, Reason>),
    /// A text, and the sign and magnitude of the int that it spells.
    Spelled(&'a [u8], bool, u128),
    /// A run that spells no int, and why.
    Refused(&'a [u8], Reason),
    /// A sign and magnitude, and their text.
    Text(bool, u128, &'a str),
    /// A magnitude, and its octets, of which it is read again.
    Octets(u128, &'a [u8]),
}

// Asserts what the call answers.
fn expect(rt: &impl Abort, call: Call) {
    match call {
        Call::Read(negative, octets, want) => same(rt, int_from_bytes(negative, octets), want),
        Call::Spelled(run, negative, magnitude) => {
            let int = Int {
                negative,
                magnitude,
            };
            same(rt, int_from_text(run), Ok(int));
        }
        Call::Refused(run, reason) => same(rt, int_from_text(run), Err(reason)),
        Call::Text(negative, magnitude, text) => {
            holds(rt, !negative || magnitude > 0);
            let int = Int {
                negative,
                magnitude,
            };
            same(rt, int_to_text(int).as_str(), text);
        }
        Call::Octets(magnitude, octets) => {
            let int = Int {
                negative: false,
                magnitude,
            };
            same(rt, int_to_bytes(int).as_slice(), octets);
            same(rt, int_from_bytes(false, octets), Ok(int));
        }
    }
}

const SEVEN: Int = Int {
    negative: true,
    magnitude: 7,
};

const ZERO: Int = Int {
    negative: false,
    magnitude: 0,
};

const LARGEST: Int = Int {
    negative: false,
    magnitude: u128::MAX,
};

const CALLS: &[Call] = &[
    Call::Read(true, &[7], Ok(SEVEN)),
    Call::Read(true, &[0, 0, 7], Ok(SEVEN)),
    Call::Read(false, &[], Ok(ZERO)),
    Call::Read(false, &[0], Ok(ZERO)),
    Call::Read(true, &[], Err(Reason::BadNumber)),
    Call::Read(true, &[0, 0], Err(Reason::BadNumber)),
    Call::Read(
        true,
        &[1, 2, 3, 4, 5, 6],
        Ok(Int {
            negative: true,
            magnitude: 0x0102_0304_0506,
        }),
    ),
    // Long magnitudes.
    Call::Read(false, &[0xFF; 16], Ok(LARGEST)),
    Call::Read(
        false,
        &[
            0, 0xFF, 0xFF, 0xFF, 0xFF, 0xFF, 0xFF, 0xFF, 0xFF, 0xFF, 0xFF, 0xFF, 0xFF, 0xFF, 0xFF,
            0xFF, 0xFF,
        ],
        Ok(LARGEST),
    ),
    Call::Read(
        false,
        &[
            1, 0xFF, 0xFF, 0xFF, 0xFF, 0xFF, 0xFF, 0xFF, 0xFF, 0xFF, 0xFF, 0xFF, 0xFF, 0xFF, 0xFF,
            0xFF, 0xFF,
        ],
        Err(Reason::Range),
    ),
    Call::Read(
        true,
        &[1, 0, 0, 0, 0, 0, 0, 0, 0, 0, 0, 0, 0, 0, 0, 0, 0],
        Err(Reason::Range),
    ),
    Call::Text(false, 0, "0"),
    Call::Text(false, 7, "7"),
    Call::Text(false, 1234567890, "1234567890"),
    Call::Text(false, u128::MAX, "340282366920938463463374607431768211455"),
    Call::Text(true, 7, "-7"),
    Call::Text(true, u128::MAX, "-340282366920938463463374607431768211455"),
    Call::Octets(0, &[]),
    Call::Octets(255, &[0xFF]),
    Call::Octets(256, &[0x01, 0x00]),
    Call::Octets(0x0102_0304_0506, &[1, 2, 3, 4, 5, 6]),
    Call::Octets(u128::MAX, &[0xFF; 16]),
    // Texts in base ten, sixteen and two.
    Call::Spelled(b"0", false, 0),
    Call::Spelled(b"-0", false, 0),
    Call::Spelled(b"7", false, 7),
    Call::Spelled(b"-7", true, 7),
    Call::Spelled(b"1_000", false, 1000),
    Call::Spelled(b"18446744073709551616", false, 18446744073709551616),
    Call::Spelled(b"340282366920938463463374607431768211455", false, u128::MAX),
    Call::Spelled(b"0xFf_0", false, 0xFF0),
    Call::Spelled(b"0XaBcDeF", false, 0xABCDEF),
    Call::Spelled(b"-0B101", true, 5),
    Call::Spelled(b"-0x0", false, 0),
    Call::Spelled(b"0x0000000000000000000000000000000000001", false, 1),
    Call::Spelled(b"0xffffffffffffffffffffffffffffffff", false, u128::MAX),
    Call::Spelled(BITS_128, false, u128::MAX),
    // Runs that spell no int.
    Call::Refused(b"340282366920938463463374607431768211456", Reason::Range),
    Call::Refused(b"-340282366920938463463374607431768211456", Reason::Range),
    Call::Refused(b"1_0000000000000000000000000000000000000000", Reason::Range),
    Call::Refused(b"0x100000000000000000000000000000000", Reason::Range),
    Call::Refused(b"", Reason::BadToken),
    Call::Refused(b"-", Reason::BadToken),
    Call::Refused(b"--1", Reason::BadToken),
    Call::Refused(b"+1", Reason::BadToken),
    Call::Refused(b"012", Reason::BadToken),
    Call::Refused(b"0_1", Reason::BadToken),
    Call::Refused(b"1_", Reason::BadToken),
    Call::Refused(b"_1", Reason::BadToken),
    Call::Refused(b"1__0", Reason::BadToken),
    Call::Refused(b"0x", Reason::BadToken),
    Call::Refused(b"0x_1", Reason::BadToken),
    Call::Refused(b"0x1_", Reason::BadToken),
    Call::Refused(b"0b2", Reason::BadToken),
    Call::Refused(b"0xg", Reason::BadToken),
    Call::Refused(b"1.", Reason::BadToken),
    Call::Refused(b"1e0", Reason::BadToken),
    Call::Refused(b"1a", Reason::BadToken),
    Call::Refused(b"2007T", Reason::BadToken),
    Call::Refused(
        b"9999999999999999999999999999999999999999_",
        Reason::BadToken,
    ),
    Call::Refused(b"99999999999999999999x", Reason::BadToken),
    Call::Refused(BITS_129, Reason::Range),
];

const BITS_128: &[u8] = b"0b\
1111111111111111111111111111111111111111111111111111111111111111\
1111111111111111111111111111111111111111111111111111111111111111";

const BITS_129: &[u8] = b"0b1\
0000000000000000000000000000000000000000000000000000000000000000\
0000000000000000000000000000000000000000000000000000000000000000";

#[test]
fn ints_are_read_and_written(rt: HostRuntime) {
    for call in CALLS {
        expect(&rt, *call);
    }
}
