//! The headers of values that are written.
ghost use Rattle.std.specs.Prelude.{◌≡◌, ◌^◌, ◌<◌};
ghost use Rattle.ion_binary.specs.Canonical.{header};

use arrayvec::ArrayVec;
use ion_value::var::var_uint_write;

/// The shortest header of a body of n octets.
#[inline]
pub(crate) fn header(code: u8, n: u64) -> ArrayVec<u8, 10>
    requires code { code < 16 }
    requires short { n < 2 ^ 63 }
    ensures { result.items ≡ header code n }
{
    let mut octets = ArrayVec::new();
    if n < 14 {
        octets.push(16 * code + n as u8);
        return octets;
    }
    octets.push(16 * code + 14);
    if n < 128 {
        octets.push(128 + n as u8);
        return octets;
    }
    let length = var_uint_write(n);
    let _fits = octets.try_extend_from_slice(length.as_slice());
    octets
}
