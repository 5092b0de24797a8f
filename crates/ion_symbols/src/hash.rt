//! The hash of a text.
ghost use Rattle.std.specs.Prelude.{◌≡◌, ◌+◌, ◌-◌, ◌<◌, ◌≤◌, length, replicate};
ghost use Rattle.ion_symbols.specs.Hash.{back_of, bucket_in, digits_in, eight_at, few_of, four_at, front_of, hash_of, middle_of, sum_of};

/// How many buckets there are.
pub(crate) const BUCKETS: usize = 512;

// Odd numbers without a pattern, by which parts of a text are multiplied.
const FRONT: u64 = 0x9E37_79B9_7F4A_7C15;

const BACK: u64 = 0xD6E8_FEB8_6659_FD93;

const MIDDLE: u64 = 0xA076_1D64_78BD_642F;

/// Buckets without texts.
#[inline]
pub(crate) fn no_buckets() -> [u32; BUCKETS]
    ensures { result ≡ replicate BUCKETS 0 }
{
    [0; BUCKETS]
}

/// The hash of a text: texts that are the same have the same one. It reads at most 32 bytes.
#[inline]
pub(crate) fn hash(text: &[u8]) -> u64
    ensures { result ≡ hash_of text.now }
{
    let sum = sum(text);
    sum.wrapping_add(sum / 4_294_967_296).wrapping_mul(FRONT)
}

// The sum of the parts of a text and its length, each times an odd number.
#[inline(always)]
fn sum(text: &[u8]) -> u64
    ensures { result ≡ sum_of text.now }
{
    let last = back(text).wrapping_add(text.len() as u64);
    let ends = front(text)
        .wrapping_mul(FRONT)
        .wrapping_add(last.wrapping_mul(BACK));
    if text.len() > 16 {
        ends.wrapping_add(middle(text).wrapping_mul(MIDDLE))
    } else {
        ends
    }
}

/// The bucket of a hash: its highest binary digits.
#[inline]
pub(crate) fn bucket(hash: u64) -> usize
    ensures of { result ≡ bucket_in hash }
    ensures within { result < BUCKETS }
{
    (hash / 36_028_797_018_963_968) as usize
}

/// The binary digits of a hash by which the texts of its bucket are told apart, the last first.
#[inline]
pub(crate) fn digits(hash: u64) -> u64
    ensures { result ≡ digits_in hash }
{
    hash / 8_388_608
}

// The first eight bytes of a text, or of a shorter one four, or what `few` reads.
#[inline]
fn front(text: &[u8]) -> u64
    ensures { result ≡ front_of text.now }
{
    if text.len() >= 8 {
        eight(text, 0)
    } else if text.len() >= 4 {
        four(text, 0)
    } else {
        few(text)
    }
}

// The last eight bytes of a text, or of a shorter one four, or none.
#[inline]
fn back(text: &[u8]) -> u64
    ensures { result ≡ back_of text.now }
{
    if text.len() >= 8 {
        eight(text, text.len() - 8)
    } else if text.len() >= 4 {
        four(text, text.len() - 4)
    } else {
        0
    }
}

// Of a text of more than 16 bytes eight after the first eight and eight before the last eight.
#[inline]
fn middle(text: &[u8]) -> u64
    requires { 16 < length text.now }
    ensures { result ≡ middle_of text.now }
{
    eight(text, 8)
        .wrapping_mul(FRONT)
        .wrapping_add(eight(text, text.len() - 16))
}

// The first byte of a text below four bytes, the one in the middle, and the last.
#[inline]
pub(crate) fn few(text: &[u8]) -> u64
    ensures { result ≡ few_of text.now }
{
    if text.is_empty() {
        return 0;
    }
    let middle = text[text.len() / 2] as u64 * 256;
    text[0] as u64 + middle + text[text.len() - 1] as u64 * 65_536
}

// Eight bytes of a text from a place on, as a number.
#[inline]
pub(crate) fn eight(text: &[u8], at: usize) -> u64
    requires { at + 8 ≤ length text.now }
    ensures { result ≡ eight_at text.now at }
{
    u64::from_le_bytes([
        text[at],
        text[at + 1],
        text[at + 2],
        text[at + 3],
        text[at + 4],
        text[at + 5],
        text[at + 6],
        text[at + 7],
    ])
}

// Four bytes of a text from a place on, as a number.
#[inline]
pub(crate) fn four(text: &[u8], at: usize) -> u64
    requires { at + 4 ≤ length text.now }
    ensures { result ≡ four_at text.now at }
{
    u32::from_le_bytes([text[at], text[at + 1], text[at + 2], text[at + 3]]) as u64
}
