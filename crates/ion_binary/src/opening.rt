//! What values begin with.
ghost use Rattle.std.specs.Prelude.{◌≡◌, ◌+◌, ◌++◌, ◌^◌, ◌<◌, ◌≤◌, length};
ghost use Rattle.ion_binary.specs.ItemOctets.{opening};
ghost use Rattle.ion_binary.specs.Opening.{wrapper_octets};

use crate::header::header;
use arrayvec::ArrayVec;
use ion_value::var::var_uint_write;

/// The most octets of a header and of what may stand after it.
pub(crate) const LONGEST: usize = 36;

/// The type code of annotations.
pub(crate) const WRAPPER: u8 = 14;

/// The header of a body that begins with these octets and has so many more, and these octets.
#[inline]
pub(crate) fn opening(code: u8, inside: &[u8], more: u64) -> ArrayVec<u8, LONGEST>
    requires code { code < 16 }
    requires inside { length inside.now ≤ 26 }
    requires more { length inside.now + more < 2 ^ 63 }
    ensures octets { result.items ≡ opening code inside.now more }
    ensures few { length result.items ≤ 10 + length inside.now }
{
    joined(header(code, inside.len() as u64 + more).as_slice(), inside)
}

/// Octets, and others after them.
#[inline]
pub(crate) fn joined(first: &[u8], second: &[u8]) -> ArrayVec<u8, LONGEST>
    requires { length first.now + length second.now ≤ LONGEST }
    ensures { result.items ≡ first.now ++ second.now }
{
    let mut octets = ArrayVec::new();
    octets.try_extend_from_slice(first).unwrap();
    octets.try_extend_from_slice(second).unwrap();
    octets
}

/// What stands before the ids of annotations of so many octets and a value of so many: the header of
/// all of it, and the length of the ids. Where there are none, nothing does.
pub(crate) fn wrapper(ids: u64, value: u64) -> ArrayVec<u8, LONGEST>
    requires ids { ids ≤ 2 ^ 32 }
    requires value { value ≤ 2 ^ 32 }
    ensures octets { result.items ≡ wrapper_octets ids value }
    ensures few { length result.items ≤ 20 }
{
    if ids == 0 {
        return ArrayVec::new();
    }
    opening(WRAPPER, var_uint_write(ids).as_slice(), ids + value)
}
