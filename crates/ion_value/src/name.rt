//! Identifiers, and which texts of symbols are written without quotes (Ion specification,
//! "Symbols").
ghost use Rattle.std.specs.Prelude.{◌≡◌, ◌==◌, ◌&&◌, true, not, drop, is_none, codes};
ghost use Rattle.std.specs.Str.{bytes_eq};
ghost use Rattle.ion_value.specs.Digits.{all_are, cut_at, first_is, is_digit};
ghost use Rattle.ion_value.specs.Name.{quoting_of, is_id, is_identifier, is_identifier_byte, is_identifier_start, is_number, is_own_in_quotes, is_plain, is_simple, is_version, keyword, version_word};

use crate::quoting::Quoting;

/// Whether a text is written as a symbol without quotes: an identifier that means nothing else.
#[inline]
pub fn is_plain(name: &[u8]) -> bool
    ensures { result ≡ is_plain name.now }
{
    is_identifier(name) && !is_keyword(name) && !is_id(name) && !is_version(name)
}

/// Whether such a text does not begin with a dollar sign, as all texts do that mean something to
/// symbol tables.
#[inline]
pub fn is_simple(name: &[u8]) -> bool
    ensures { result ≡ is_simple name.now }
{
    is_plain(name) && !begins_with_dollar(name)
}

/// How a text is written as a symbol. Of one that begins with a dollar sign, or has an escape between
/// quotes, nothing is said.
pub fn quoting_of(name: &[u8]) -> Quoting
    ensures { result ≡ quoting_of name.now }
{
    if is_simple(name) {
        return Quoting::Bare;
    }
    if is_plain(name) || !stands_in_quotes(name) {
        return Quoting::Any;
    }
    Quoting::Quoted
}

// Whether each byte stands for itself between the quotes of a symbol.
fn stands_in_quotes(name: &[u8]) -> bool
    ensures { result ≡ all_are is_own_in_quotes name.now }
{
    'bytes: for byte in name {
        if *byte < b' ' || *byte == 127 || *byte == b'\'' || *byte == b'\\' {
            return false;
        }
    }
    true
}

// Whether the first byte is a dollar sign.
#[inline]
fn begins_with_dollar(name: &[u8]) -> bool
    ensures { result ≡ first_is (λ b. b == 36) name.now }
{
    match name {
        [first, ..] => *first == b'$',
        [] => false,
    }
}

// Whether a text is an identifier.
#[inline]
fn is_identifier(name: &[u8]) -> bool
    ensures { result ≡ is_identifier name.now }
{
    match name {
        [first, others @ ..] => is_identifier_start(*first) && all_identifier_bytes(others),
        [] => false,
    }
}

// Whether an identifier begins with this byte.
#[inline(always)]
fn is_identifier_start(byte: u8) -> bool
    ensures { result ≡ is_identifier_start byte }
{
    byte.is_ascii_alphabetic() || byte == b'_' || byte == b'$'
}

// Which bytes can stand in an identifier.
static IDENTIFIER_BYTES: [u8; 256] = [
    0, 0, 0, 0, 0, 0, 0, 0, 0, 0, 0, 0, 0, 0, 0, 0, 0, 0, 0, 0, 0, 0, 0, 0, 0, 0, 0, 0, 0, 0, 0, 0,
    0, 0, 0, 0, 1, 0, 0, 0, 0, 0, 0, 0, 0, 0, 0, 0, 1, 1, 1, 1, 1, 1, 1, 1, 1, 1, 0, 0, 0, 0, 0, 0,
    0, 1, 1, 1, 1, 1, 1, 1, 1, 1, 1, 1, 1, 1, 1, 1, 1, 1, 1, 1, 1, 1, 1, 1, 1, 1, 1, 0, 0, 0, 0, 1,
    0, 1, 1, 1, 1, 1, 1, 1, 1, 1, 1, 1, 1, 1, 1, 1, 1, 1, 1, 1, 1, 1, 1, 1, 1, 1, 1, 0, 0, 0, 0, 0,
    0, 0, 0, 0, 0, 0, 0, 0, 0, 0, 0, 0, 0, 0, 0, 0, 0, 0, 0, 0, 0, 0, 0, 0, 0, 0, 0, 0, 0, 0, 0, 0,
    0, 0, 0, 0, 0, 0, 0, 0, 0, 0, 0, 0, 0, 0, 0, 0, 0, 0, 0, 0, 0, 0, 0, 0, 0, 0, 0, 0, 0, 0, 0, 0,
    0, 0, 0, 0, 0, 0, 0, 0, 0, 0, 0, 0, 0, 0, 0, 0, 0, 0, 0, 0, 0, 0, 0, 0, 0, 0, 0, 0, 0, 0, 0, 0,
    0, 0, 0, 0, 0, 0, 0, 0, 0, 0, 0, 0, 0, 0, 0, 0, 0, 0, 0, 0, 0, 0, 0, 0, 0, 0, 0, 0, 0, 0, 0, 0,
];

/// Whether this byte can stand in an identifier: an ASCII letter, a digit, a dollar sign or an
/// underscore (Ion specification, "Symbols").
#[inline(always)]
pub fn is_identifier_byte(byte: u8) -> bool
    ensures { result ≡ is_identifier_byte byte }
{
    IDENTIFIER_BYTES[byte as usize] > 0
}

/// Whether each of these bytes can stand in an identifier.
#[inline(always)]
pub fn all_identifier_bytes(bytes: &[u8]) -> bool
    ensures { result ≡ all_are is_identifier_byte bytes.now }
{
    'bytes: for byte in bytes {
        if !is_identifier_byte(*byte) {
            return false;
        }
    }
    true
}

// Whether an identifier is a word that is a value and never a symbol.
#[inline]
fn is_keyword(name: &[u8]) -> bool
    requires { all_are is_identifier_byte name.now ≡ true }
    ensures { result ≡ not (is_none (keyword name.now)) }
{
    is_null(name) || is_true(name) || is_false(name) || is_nan(name)
}

/// Whether a word is `null` (Ion specification, "Null Values").
#[inline(always)]
pub fn is_null(word: &[u8]) -> bool
    ensures { result ≡ bytes_eq (codes "null") word.now }
{
    matches!(word, [b'n', b'u', b'l', b'l'])
}

/// Whether a word is `true` (Ion specification, "Booleans").
#[inline(always)]
pub fn is_true(word: &[u8]) -> bool
    ensures { result ≡ bytes_eq (codes "true") word.now }
{
    matches!(word, [b't', b'r', b'u', b'e'])
}

/// Whether a word is `false` (Ion specification, "Booleans").
#[inline(always)]
pub fn is_false(word: &[u8]) -> bool
    ensures { result ≡ bytes_eq (codes "false") word.now }
{
    matches!(word, [b'f', b'a', b'l', b's', b'e'])
}

/// Whether a word is `nan` (Ion specification, "Real Numbers").
#[inline(always)]
pub fn is_nan(word: &[u8]) -> bool
    ensures { result ≡ bytes_eq (codes "nan") word.now }
{
    matches!(word, [b'n', b'a', b'n'])
}

// Whether a word is an id: a dollar sign and digits alone.
#[inline]
fn is_id(word: &[u8]) -> bool
    ensures { result ≡ is_id word.now }
{
    match word {
        [b'$', digits @ ..] => is_number(digits),
        _ => false,
    }
}

/// Whether a word is that of the one version that is read, `$ion_1_0`.
#[inline]
pub fn is_version_word(word: &[u8]) -> bool
    ensures { result ≡ bytes_eq version_word word.now }
{
    word == b"$ion_1_0".as_slice()
}

/// Whether a word is that of a version: `$ion_`, the digits of its major version, `_` and those of
/// its minor version (Ion specification, "Ion Version Markers").
#[inline]
pub fn is_version(word: &[u8]) -> bool
    ensures { result ≡ is_version word.now }
{
    match word {
        [b'$', b'i', b'o', b'n', b'_', numbers @ ..] => are_two_numbers(numbers),
        _ => false,
    }
}

// Whether these bytes are digits, an underscore and digits.
fn are_two_numbers(bytes: &[u8]) -> bool
    ensures { result ≡ (is_number (cut_at (λ b. b == 95) bytes.now).0
        && is_number (drop 1 (cut_at (λ b. b == 95) bytes.now).1)) }
{
    let (major, after) = cut_at_underscore(bytes);
    match after {
        [_, minor @ ..] => is_number(major) && is_number(minor),
        [] => false,
    }
}

// The bytes before the first underscore, and those from it on.
fn cut_at_underscore(bytes: &[u8]) -> (&[u8], &[u8])
    ensures { (result.0.now, result.1.now) ≡ cut_at (λ b. b == 95) bytes.now }
{
    'bytes: for (i, byte) in bytes.iter().enumerate() {
        if *byte == b'_' {
            return bytes.split_at(i);
        }
    }
    (bytes, &[])
}

// Whether these bytes are digits, one or more.
#[inline]
fn is_number(bytes: &[u8]) -> bool
    ensures { result ≡ is_number bytes.now }
{
    !bytes.is_empty() && all_digits(bytes)
}

// Whether all of these bytes are digits.
#[inline]
fn all_digits(bytes: &[u8]) -> bool
    ensures { result ≡ all_are is_digit bytes.now }
{
    'bytes: for byte in bytes {
        if !byte.is_ascii_digit() {
            return false;
        }
    }
    true
}
