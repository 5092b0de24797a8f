//! Texts in order of id, lent.
ghost use Rattle.std.specs.Prelude.{◌≡◌, length, slice_get, Some, None, MatchOption};
ghost use Rattle.ion_value.specs.Items.{is_none_left};
ghost use Rattle.ion_symbols.specs.Ordered.{From, texts_in};

use crate::ordered::Place;
use std::marker::Model;

/// Texts in order of id, lent.
#[derive(Drop)]
pub struct Texts<'a> {
    bytes: &'a [u8],
    places: &'a [Place],
}

impl<'a> Model for Texts<'a> {
    ghost use Rattle.std.specs.Prelude.{List, ℕ};
    ghost use Rattle.ion_symbols.specs.Ordered.{From, texts_in};

    ghost Value = { List (List ℕ) };

    ghost view = { λ s. texts_in s.bytes.now s.places.now };

    ghost invariant = { λ s. From s.bytes.now s.places.now };
}

impl<'a> Texts<'a> {
    // The texts at places among bytes.
    pub(crate) fn new(bytes: &'a [u8], places: &'a [Place]) -> Texts<'a>
        requires { From bytes.now places.now }
        ensures { result ≡ texts_in bytes.now places.now }
    {
        Texts { bytes, places }
    }

    /// How many texts there are.
    pub fn len(&self) -> usize
        ensures { result ≡ length self.now }
    {
        self.places.len()
    }

    /// Whether there is none.
    pub fn is_empty(&self) -> bool
        ensures { result ≡ is_none_left self.now }
    {
        self.places.is_empty()
    }

    /// The text at a place of the list, counted from 0, or none past its end.
    pub fn get(&self, index: usize) -> Option<&'a [u8]>
        ensures { MatchOption result (slice_get self.now index ≡ None)
            (λ text. slice_get self.now index ≡ Some text.now) }
    {
        let place = self.places.get(index)?;
        Some(&self.bytes[place.from as usize..place.to as usize])
    }
}
