//! Whether texts are the same.
ghost use Rattle.std.specs.Prelude.{◌≡◌, ◌≤◌, length};
ghost use Rattle.std.specs.Str.{bytes_eq};

use crate::hash::{eight, few, four};

/// The most bytes of a text that is compared without a call.
pub(crate) const SHORT: usize = 32;

/// Whether two texts are the same; most that are not differ in their lengths.
#[inline(always)]
pub(crate) fn is_same(text: &[u8], other: &[u8]) -> bool
    ensures { result ≡ bytes_eq text.now other.now }
{
    if text.len() != other.len() {
        return false;
    }
    if other.len() <= SHORT {
        return is_same_short(text, other);
    }
    text == other
}

/// Whether a text is this one, which is short.
#[inline(always)]
pub(crate) fn is_same_short(text: &[u8], other: &[u8]) -> bool
    requires { length other.now ≤ SHORT }
    ensures { result ≡ bytes_eq text.now other.now }
{
    if text.len() != other.len() {
        false
    } else if text.len() > 16 {
        are_same_sixteens(text, other)
    } else if text.len() >= 8 {
        are_same_eights(text, other)
    } else if text.len() >= 4 {
        are_same_fours(text, other)
    } else {
        few(text) == few(other)
    }
}

// Whether two texts of 8 to 16 bytes, equally long, are the same: by the first eight and the last.
#[inline(always)]
fn are_same_eights(text: &[u8], other: &[u8]) -> bool
    requires same { length text.now ≡ length other.now }
    requires least { 8 ≤ length text.now }
    requires most { length text.now ≤ 16 }
    ensures { result ≡ bytes_eq text.now other.now }
{
    let last = text.len() - 8;
    if eight(text, 0) != eight(other, 0) {
        return false;
    }
    eight(text, last) == eight(other, last)
}

// Whether two texts of 17 to 32 bytes, equally long, are the same: by the first sixteen and the
// last.
#[inline(always)]
fn are_same_sixteens(text: &[u8], other: &[u8]) -> bool
    requires same { length text.now ≡ length other.now }
    requires least { 16 ≤ length text.now }
    requires most { length text.now ≤ 32 }
    ensures { result ≡ bytes_eq text.now other.now }
{
    let last = text.len() - 16;
    if are_same_eights(&text[..16], &other[..16]) {
        are_same_eights(&text[last..], &other[last..])
    } else {
        false
    }
}

// Whether two texts of 4 to 8 bytes, equally long, are the same: by the first four and the last.
#[inline(always)]
fn are_same_fours(text: &[u8], other: &[u8]) -> bool
    requires same { length text.now ≡ length other.now }
    requires least { 4 ≤ length text.now }
    requires most { length text.now ≤ 8 }
    ensures { result ≡ bytes_eq text.now other.now }
{
    let last = text.len() - 4;
    if four(text, 0) != four(other, 0) {
        return false;
    }
    four(text, last) == four(other, last)
}
