//! Digits at the front of text, with single underscores between two of them.
ghost use Rattle.std.specs.Prelude.{◌≡◌, ℕ, ◌+◌, ◌*◌, ◌^◌, ◌<◌, ◌≤◌, true, false, nat_lt, length, MatchOption};
ghost use Rattle.ion_value.specs.Digits.{is_hex_digit, digit_value, has_minus, without_minus};
ghost use Rattle.ion_value.specs.DigitReading.{IsBase, is_digit_of, in_128, read_end, read_digits, read_whole, Answers};

/// The digits at the front of some bytes.
#[derive(Clone, Copy)]
pub(crate) struct Digits<'a> {
    /// The number that they spell after the one that was read before them, where 128 bits hold it.
    pub(crate) number: Option<u128>,
    /// How many they are, underscores apart.
    pub(crate) count: usize,
    /// The bytes after them.
    pub(crate) rest: &'a [u8],
}

/// Reads the digits of this base at the front of these bytes, after a number that was read before
/// them, where 128 bits hold that. There is no answer where there is no digit, or where an
/// underscore does not stand alone and between two digits.
#[inline(always)]
pub(crate) fn digits_after<const BASE: u64>(
    number: Option<u128>,
    bytes: &[u8],
) -> Option<Digits<'_>>
    requires { IsBase BASE }
    ensures { (n : ℕ) → number ≡ in_128 n → Answers (read_digits BASE n false 0 bytes.now) result }
{
    match number {
        Some(narrow) if narrow <= u64::MAX as u128 => short::<BASE>(narrow as u64, bytes),
        _ => go_on::<BASE>(number, false, 0, bytes),
    }
}

// Reads digits, in 64 bits as long as these hold the number.
#[inline(always)]
fn short<const BASE: u64>(start: u64, bytes: &[u8]) -> Option<Digits<'_>>
    requires { IsBase BASE }
    ensures { Answers (read_digits BASE start false 0 bytes.now) result }
{
    let mut number = start;
    let mut after = false;
    let mut count = 0;
    let mut rest = bytes;
    while let [byte, tail @ ..] = rest {
        match digit::<BASE>(*byte) {
            Some(value) => {
                if number >= u64::MAX / BASE {
                    return go_on::<BASE>(Some(number as u128), after, count, rest);
                }
                number = number * BASE + value;
                count += 1;
                after = true;
            }
            None if *byte == b'_' && after => after = false,
            None => break,
        }
        rest = tail;
    }
    ended(Some(number as u128), after, count, rest)
}

// Goes on with `long`. Its answer is taken apart, so that the caller keeps what it reads in
// registers; this function and those that call it are inlined for the same end.
#[inline(always)]
fn go_on<const BASE: u64>(
    number: Option<u128>,
    after: bool,
    count: usize,
    bytes: &[u8],
) -> Option<Digits<'_>>
    requires base { IsBase BASE }
    requires room { count + length bytes.now < 2 ^ 64 }
    ensures { (n : ℕ) → number ≡ in_128 n
        → Answers (read_digits BASE n after count bytes.now) result }
{
    let Some(read) = long::<BASE>(number, after, count, bytes) else {
        return None;
    };
    Some(Digits {
        number: read.number,
        count: read.count,
        rest: read.rest,
    })
}

// Reads digits after so many that were read before, and after the number that these spell, where
// 128 bits hold it.
#[cold]
fn long<const BASE: u64>(
    start: Option<u128>,
    after: bool,
    count: usize,
    bytes: &[u8],
) -> Option<Digits<'_>>
    requires base { IsBase BASE }
    requires room { count + length bytes.now < 2 ^ 64 }
    ensures { (n : ℕ) → start ≡ in_128 n
        → Answers (read_digits BASE n after count bytes.now) result }
{
    let mut number = start;
    let mut after = after;
    let mut count = count;
    let mut rest = bytes;
    while let [byte, tail @ ..] = rest {
        match digit::<BASE>(*byte) {
            Some(value) => {
                number = appended::<BASE>(number, value);
                count += 1;
                after = true;
            }
            None if *byte == b'_' && after => after = false,
            None => break,
        }
        rest = tail;
    }
    ended(number, after, count, rest)
}

// What was read where no digit follows, and no underscore that may stand there.
#[inline]
fn ended(number: Option<u128>, after: bool, count: usize, rest: &[u8]) -> Option<Digits<'_>>
    ensures { (n : ℕ) → number ≡ in_128 n → Answers (read_end n after count rest.now) result }
{
    if after {
        Some(Digits {
            number,
            count,
            rest,
        })
    } else {
        None
    }
}

// The number with one digit more, where 128 bits hold it.
#[inline]
fn appended<const BASE: u64>(number: Option<u128>, digit: u64) -> Option<u128>
    requires { IsBase BASE }
    ensures { (n : ℕ) → number ≡ in_128 n → result ≡ in_128 (n * BASE + digit) }
{
    match number {
        Some(number) => match number.checked_mul(BASE as u128) {
            Some(whole) => whole.checked_add(digit as u128),
            None => None,
        },
        None => None,
    }
}

// What the bytes from `0` to `f` count as digits in base sixteen, and 99 for those that are none.
static VALUES: [u8; 55] = [
    0, 1, 2, 3, 4, 5, 6, 7, 8, 9, 99, 99, 99, 99, 99, 99, 99, 10, 11, 12, 13, 14, 15, 99, 99, 99,
    99, 99, 99, 99, 99, 99, 99, 99, 99, 99, 99, 99, 99, 99, 99, 99, 99, 99, 99, 99, 99, 99, 99, 10,
    11, 12, 13, 14, 15,
];

// What this byte counts, where it is a digit of the base.
#[inline]
fn digit<const BASE: u64>(byte: u8) -> Option<u64>
    requires { IsBase BASE }
    ensures { MatchOption result (is_digit_of BASE byte ≡ false)
        (λ value. (is_digit_of BASE byte ≡ true) × (value ≡ digit_value byte) × (value < BASE)) }
{
    let value = if BASE <= 10 {
        byte.wrapping_sub(b'0')
    } else {
        hex_value(byte)
    };
    if (value as u64) < BASE {
        Some(value as u64)
    } else {
        None
    }
}

// What this byte counts as a digit in base sixteen, and sixteen or more for one that is none.
#[inline]
fn hex_value(byte: u8) -> u8
    ensures digit { is_hex_digit byte ≡ nat_lt result 16 }
    ensures value { result < 16 → result ≡ digit_value byte }
{
    let place = byte.wrapping_sub(b'0') as usize;
    if place < VALUES.len() {
        VALUES[place]
    } else {
        99
    }
}

/// Whether there is a minus in front, and what stands after it.
#[inline]
pub(crate) fn sign(run: &[u8]) -> (bool, &[u8])
    ensures negative { result.0 ≡ has_minus run.now }
    ensures bytes { result.1.now ≡ without_minus run.now }
{
    match run {
        [b'-', bytes @ ..] => (true, bytes),
        _ => (false, run),
    }
}

/// Reads the digits in base ten at the front of these bytes, of which a first zero stands alone.
#[inline]
pub(crate) fn whole_digits(bytes: &[u8]) -> Option<Digits<'_>>
    ensures { Answers (read_whole bytes.now) result }
{
    match bytes {
        [b'0', b'0'..=b'9' | b'_', ..] => None,
        _ => short::<10>(0, bytes),
    }
}
