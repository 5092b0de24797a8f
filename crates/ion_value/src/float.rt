//! Floats as their bits.
ghost use Rattle.std.specs.Prelude.{◌≡◌, to_bits, from_bits};
ghost use Rattle.std.specs.Float.{binary64};

mod made;

/// A value of Ion's type `float` (Ion specification, "Real Numbers"): a double, of which all that
/// are no number are one value.
///
/// Two floats are equal where they are one value of Ion: `nan` is equal to itself, and `0e0` is not
/// `-0e0`.
#[derive(Clone, Copy, Debug, PartialEq, Eq)]
pub struct Float64 {
    bits: u64,
    ghost kept: { to_bits binary64 (from_bits binary64 bits) ≡ bits },
}
