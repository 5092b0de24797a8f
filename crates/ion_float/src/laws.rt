//! Laws of the definitions that the contracts cite, each the contract of a function that does
//! nothing.
ghost use Rattle.std.specs.Prelude.{◌≡◌, ◌↔◌, ℕ, ◌<◌, ◌≤◌, ◌≢◌, ◌%◌, ◌^◌};
ghost use Rattle.ion_float.specs.Laws.{distance, HasNoMoreDigits, IsShortest, FloatOctetsAreRead, FloatOctetsAreFewest, FloatTextIsRead, FloatTextIsUnique, FloatShapeIsRefused};
ghost use Rattle.ion_value.specs.Shortest.{IsAboveZero, reads, shortest};

/// The shortest decimal of a finite double above zero reads as it.
pub fn shortest_reads_back()
    ensures { (bits : ℕ) → IsAboveZero bits → reads (shortest bits).0 (shortest bits).1 bits }
{}

/// No multiple of a greater power of ten reads as it.
pub fn shortest_has_the_greatest_power()
    ensures { (bits row digits : ℕ) → IsAboveZero bits → (shortest bits).1 < row
        → ¬ (reads digits row bits) }
{}

/// No decimal with fewer digits reads as it.
pub fn shortest_has_the_fewest_digits()
    ensures { (bits row digits power : ℕ) → IsAboveZero bits → digits < 10 ^ power
        → 10 ^ power ≤ (shortest bits).0 → ¬ (reads digits row bits) }
{}

/// Of the decimals with no more digits that read as it, none is nearer to it.
pub fn shortest_is_the_nearest()
    ensures { (bits row digits : ℕ) → IsAboveZero bits → reads digits row bits
        → HasNoMoreDigits digits (shortest bits).0
        → distance (shortest bits).0 (shortest bits).1 bits ≤ distance digits row bits }
{}

/// A decimal is the shortest exactly where the words for it fit: it has the fewest digits that
/// read as the double, and of those it is the nearest, the even one of two.
pub fn what_the_shortest_is()
    ensures { (bits digits row : ℕ) → IsAboveZero bits
        → (shortest bits ≡ (digits, row)) ↔ IsShortest digits row bits }
{}

/// Its digits do not end in 0.
pub fn shortest_ends_in_no_zero()
    ensures { (bits : ℕ) → IsAboveZero bits → (shortest bits).0 % 10 ≢ 0 }
{}

/// Reading the octets of a float gives the float.
pub fn float_octets_are_read()
    ensures { FloatOctetsAreRead }
{}

/// No other octets that are read to a float are fewer than those that are written for it.
pub fn float_octets_are_fewest()
    ensures { FloatOctetsAreFewest }
{}

/// Reading the text of a float gives the float.
pub fn float_text_is_read()
    ensures { FloatTextIsRead }
{}

/// Floats with the same text are the same.
pub fn float_text_is_unique()
    ensures { FloatTextIsUnique }
{}

/// A run of text has the shape of a float exactly where it is refused as a decimal for that.
pub fn float_shape_is_refused()
    ensures { FloatShapeIsRefused }
{}
