//! Digits written in text, with zeros in front of them.
ghost use Rattle.std.specs.Prelude.{◌≡◌, ◌+◌, ◌^◌, ◌<◌, ◌≤◌, [], ◌∷◌, ◌++◌};
ghost use Rattle.ion_value.specs.Digits.{fixed_digits};
ghost use Rattle.arrayvec.specs.ArrayString.{array_string_len};

use arrayvec::ArrayString;
use itoa::Buffer;

/// Below it are the numbers of nineteen digits, which 64 bits hold.
const TEN_TO_19: u128 = 10_000_000_000_000_000_000;

/// Adds a byte of ASCII.
#[inline]
pub(crate) fn push_byte(text: &mut ArrayString<64>, byte: u8)
    requires ascii { byte < 128 }
    requires room { array_string_len text.old < 64 }
    ensures text { text.new.bytes ≡ text.old.bytes ++ byte ∷ [] }
    ensures len { array_string_len text.new ≡ array_string_len text.old + 1 }
{
    text.push(byte as char);
}

/// Adds the digits after a point, of which there are so many.
#[inline]
pub(crate) fn push_fraction(text: &mut ArrayString<64>, count: u8, fraction: u128)
    requires some { 1 ≤ count }
    requires few { count ≤ 38 }
    requires small { fraction < 10 ^ count }
    requires room { array_string_len text.old + count ≤ 64 }
    ensures text { text.new.bytes ≡ text.old.bytes ++ fixed_digits count fraction }
    ensures len { array_string_len text.new ≡ array_string_len text.old + count }
{
    if fraction < TEN_TO_19 {
        push_digits(text, count, fraction as u64);
    } else {
        push_digits(text, count - 19, (fraction / TEN_TO_19) as u64);
        push_digits(text, 19, (fraction % TEN_TO_19) as u64);
    }
}

/// Adds so many digits of a number that 64 bits hold.
#[inline]
pub(crate) fn push_digits(text: &mut ArrayString<64>, count: u8, number: u64)
    requires some { 1 ≤ count }
    requires small { number < 10 ^ count }
    requires room { array_string_len text.old + count ≤ 64 }
    ensures text { text.new.bytes ≡ text.old.bytes ++ fixed_digits count number }
    ensures len { array_string_len text.new ≡ array_string_len text.old + count }
{
    let mut buffer = Buffer::new();
    let digits = buffer.format(number);
    'zeros: for _ in digits.len()..count as usize {
        push_byte(text, b'0');
    }
    text.push_str(digits);
}
