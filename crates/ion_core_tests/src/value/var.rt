//! VarUInts and VarInts.
ghost use Rattle.std.specs.Prelude.{◌≡◌};

use crate::same::{holds, same};
use ion_meter::fault::Reason;
use ion_value::var::{Signed, var_int_read, var_int_write, var_uint_read, var_uint_write};
use std::process::Abort;

/// The largest, in nine octets, or ten with one after it.
const UINT_9: [u8; 9] = [0x7F, 0x7F, 0x7F, 0x7F, 0x7F, 0x7F, 0x7F, 0x7F, 0xFF];

const UINT_10: [u8; 10] = [0x7F, 0x7F, 0x7F, 0x7F, 0x7F, 0x7F, 0x7F, 0x7F, 0xFF, 0x7F];

fn signed(negative: bool, magnitude: u64) -> Signed
    ensures sign { result.negative ≡ negative }
    ensures magnitude { result.magnitude ≡ magnitude }
{
    Signed {
        negative,
        magnitude,
    }
}

/// A call, and what it answers.
#[derive(Clone, Copy)]
enum Call<'a> {
    /// Octets, and what is read at their front: a number, and how many octets it has.
    UInt(&'a [u8], Result<(u64, usize), Reason>),
    /// A number, and its octets, of which it is read again.
    WrittenUInt(u64, &'a [u8]),
    /// Octets, and what is read at their front: a sign, a magnitude, and how many octets they have.
    Int(&'a [u8], bool, u64, usize),
    /// Octets of a number with a sign that does not end.
    Endless(&'a [u8]),
    /// A sign and a magnitude, and their octets.
    WrittenInt(bool, u64, &'a [u8]),
    /// A sign and a magnitude, and how many octets they have, of which they are read again.
    Again(bool, u64, usize),
}

// Asserts what the call answers.
fn expect(rt: &impl Abort, call: Call) {
    match call {
        Call::UInt(octets, want) => same(rt, var_uint_read(octets), want),
        Call::WrittenUInt(n, want) => {
            holds(rt, n < 0x8000_0000_0000_0000);
            same(rt, var_uint_write(n).as_slice(), want);
            same(rt, var_uint_read(want), Ok((n, want.len())));
        }
        Call::Int(octets, negative, magnitude, count) => {
            let want = (signed(negative, magnitude), count);
            same(rt, var_int_read(octets), Ok(want));
        }
        Call::Endless(octets) => same(rt, var_int_read(octets), Err(Reason::BadVar)),
        Call::WrittenInt(negative, magnitude, want) => {
            holds(rt, magnitude < 0x4000_0000_0000_0000);
            let octets = var_int_write(signed(negative, magnitude));
            same(rt, octets.as_slice(), want);
        }
        Call::Again(negative, magnitude, count) => {
            holds(rt, magnitude < 0x4000_0000_0000_0000);
            let z = signed(negative, magnitude);
            let octets = var_int_write(z);
            same(rt, var_int_read(octets.as_slice()), Ok((z, count)));
        }
    }
}

const CALLS: &[Call] = &[
    Call::UInt(&[0x80], Ok((0, 1))),
    Call::UInt(&[0x0E, 0x90], Ok((0x710, 2))),
    Call::UInt(&[0x0E, 0x90, 0x81], Ok((0x710, 2))),
    Call::UInt(&[0x00, 0x00, 0x81], Ok((1, 3))),
    Call::UInt(&UINT_10, Ok((0x7FFF_FFFF_FFFF_FFFF, 9))),
    // Those that do not end.
    Call::UInt(&[], Err(Reason::BadVar)),
    Call::UInt(&[0x01, 0x7F], Err(Reason::BadVar)),
    Call::UInt(&[0; 9], Err(Reason::BadVar)),
    Call::UInt(&[0, 0, 0, 0, 0, 0, 0, 0, 0, 0x81], Err(Reason::BadVar)),
    Call::WrittenUInt(0, &[0x80]),
    Call::WrittenUInt(127, &[0xFF]),
    Call::WrittenUInt(128, &[0x01, 0x80]),
    Call::WrittenUInt(0x710, &[0x0E, 0x90]),
    Call::WrittenUInt(16383, &[0x7F, 0xFF]),
    Call::WrittenUInt(16384, &[0x01, 0x00, 0x80]),
    Call::WrittenUInt(0x7FFF_FFFF_FFFF_FFFF, &UINT_9),
    Call::Int(&[0x80], false, 0, 1),
    Call::Int(&[0xC0], true, 0, 1),
    Call::Int(&[0xBF], false, 63, 1),
    Call::Int(&[0xFF], true, 63, 1),
    Call::Int(&[0x00, 0xC0], false, 64, 2),
    Call::Int(&[0x40, 0xC0], true, 64, 2),
    Call::Int(&[0x7F, 0x81], true, 8065, 2),
    Call::Int(&[0x41, 0x00, 0x85, 0x80], true, 16389, 3),
    Call::Int(&UINT_9, true, 0x3FFF_FFFF_FFFF_FFFF, 9),
    Call::Int(
        &[0x3F, 0x7F, 0x7F, 0x7F, 0x7F, 0x7F, 0x7F, 0x7F, 0xFF],
        false,
        0x3FFF_FFFF_FFFF_FFFF,
        9,
    ),
    Call::Endless(&[]),
    Call::Endless(&[0x7F]),
    Call::Endless(&[0x7F; 9]),
    Call::Endless(&[0x7F, 0x7F, 0x7F, 0x7F, 0x7F, 0x7F, 0x7F, 0x7F, 0x7F, 0xFF]),
    Call::WrittenInt(false, 0, &[0x80]),
    Call::WrittenInt(true, 0, &[0xC0]),
    Call::WrittenInt(false, 63, &[0xBF]),
    Call::WrittenInt(false, 64, &[0x00, 0xC0]),
    Call::WrittenInt(true, 64, &[0x40, 0xC0]),
    Call::WrittenInt(true, 0x3FFF_FFFF_FFFF_FFFF, &UINT_9),
    Call::Again(false, 0, 1),
    Call::Again(false, 63, 1),
    Call::Again(false, 64, 2),
    Call::Again(false, 8191, 2),
    Call::Again(false, 8192, 3),
    Call::Again(false, 0x3FFF_FFFF_FFFF_FFFF, 9),
    Call::Again(true, 0, 1),
    Call::Again(true, 63, 1),
    Call::Again(true, 64, 2),
    Call::Again(true, 8191, 2),
    Call::Again(true, 8192, 3),
    Call::Again(true, 0x3FFF_FFFF_FFFF_FFFF, 9),
];

#[test]
fn var_uints_and_var_ints_are_read_and_written(rt: HostRuntime) {
    for call in CALLS {
        expect(&rt, *call);
    }
    assert_ne!(rt; var_int_read(&[0xC0]), Ok((signed(false, 0), 1)));
}
