//! Ints in text.
ghost use Rattle.std.specs.Prelude.{◌≡◌, ◌⊎◌, ℕ, IfOk, IfErr};
ghost use Rattle.ion_value.specs.DigitReading.{in_128, read_int, Answers};
ghost use Rattle.ion_value.specs.Int.{IsInt, int_in_range, int_of_text};

use crate::digits::{Digits, digits_after, sign, whole_digits};
use crate::int::Int;
use ion_meter::fault::Reason;

/// Reads an int in text: digits in base ten, of which a first zero stands alone, sixteen after
/// `0x` or two after `0b`, with single underscores between two digits, after a minus or
/// none (Ion specification, "Integers"). `-0` is 0.
///
/// A magnitude past 128 bits is out of `Range`, and every other run a `BadToken`.
#[inline]
pub fn int_from_text(run: &[u8]) -> Result<Int, Reason>
    ensures read { result ≡ int_of_text run.now }
    ensures valid { IfOk result IsInt }
    ensures refused { IfErr result (λ e. (e ≡ Reason.BadToken) ⊎ (e ≡ Reason.Range)) }
{
    let (negative, bytes) = sign(run);
    let Some(digits) = int_digits(bytes) else {
        return Err(Reason::BadToken);
    };
    if !digits.rest.is_empty() {
        return Err(Reason::BadToken);
    }
    int_in_128(negative, digits.number)
}

// The digits of an int after its sign and the mark of its base.
#[inline]
fn int_digits(bytes: &[u8]) -> Option<Digits<'_>>
    ensures { Answers (read_int bytes.now) result }
{
    match bytes {
        [b'0', b'x' | b'X', digits @ ..] => digits_after::<16>(Some(0), digits),
        [b'0', b'b' | b'B', digits @ ..] => digits_after::<2>(Some(0), digits),
        _ => whole_digits(bytes),
    }
}

// The int of this sign and magnitude, where 128 bits hold the magnitude.
#[inline]
fn int_in_128(negative: bool, number: Option<u128>) -> Result<Int, Reason>
    ensures { (n : ℕ) → number ≡ in_128 n → result ≡ int_in_range negative n }
{
    match number {
        Some(magnitude) => Ok(Int {
            negative: negative && magnitude > 0,
            magnitude,
        }),
        None => Err(Reason::Range),
    }
}
