//! Texts in order of their bytes, seen by comparing one at a time.
ghost use Rattle.std.specs.Prelude.{◌≡◌, ◌+◌, ◌-◌, ◌^◌, ◌<◌, length, slice_get, MatchOption};
ghost use Rattle.ion_value.specs.Items.{is_none_left};
ghost use Rattle.ion_symbols.specs.Output.{Ascend, text_cmp};
ghost use Rattle.ion_symbols.specs.Ordered.{Ordered, ordered_texts};

use std::cmp::Ordering;
use std::marker::Model;

/// Where a text stands among bytes, and a link to another text.
#[derive(Clone, Copy)]
pub(crate) struct Place {
    /// Where its first byte stands.
    pub(crate) from: u32,
    /// Where the byte after its last one stands.
    pub(crate) to: u32,
    /// The first of its links: one more than the number of another text of its bucket, or 0.
    pub(crate) next: u32,
}

/// Texts in order of their bytes, no two alike, each compared at the cost of one probe.
///
/// Outside of its module it offers the number of texts, comparisons, and their number: a search
/// sees the texts by `compare` alone. A clause sees the list of the texts, in that order, and the
/// number of probes.
#[derive(Drop)]
pub struct Search<'a> {
    bytes: &'a [u8],
    // Where each text stands, in order of id, and which of them each is in order of bytes.
    places: &'a [Place],
    order: &'a [u32],
    probes: u32,
}

impl<'a> Model for Search<'a> {
    ghost use Rattle.ion_symbols.specs.Output.{Searched};
    ghost use Rattle.ion_symbols.specs.Ordered.{Ordered, ordered_texts};

    ghost Value = { Searched };

    ghost view = { λ s. record {
      texts = ordered_texts s.bytes.now s.places.now s.order.now;
      probes = s.probes;
    } };

    ghost invariant = { λ s. Ordered s.bytes.now s.places.now s.order.now };
}

impl<'a> Search<'a> {
    // A search of these texts, without probes.
    pub(crate) fn new(bytes: &'a [u8], places: &'a [Place], order: &'a [u32]) -> Search<'a>
        requires { Ordered bytes.now places.now order.now }
        ensures texts { result.texts ≡ ordered_texts bytes.now places.now order.now }
        ensures probes { result.probes ≡ 0 }
    {
        Search {
            bytes,
            places,
            order,
            probes: 0,
        }
    }

    /// How many texts there are: fewer than 2^31.
    pub fn len(&self) -> u32
        ensures { (result ≡ length self.now.texts) × (result < 2 ^ 31) }
    {
        self.order.len() as u32
    }

    /// Whether there is none.
    pub fn is_empty(&self) -> bool
        ensures { result ≡ is_none_left self.now.texts }
    {
        self.order.is_empty()
    }

    /// How often a text was compared.
    pub fn probes(&self) -> u32
        ensures { result ≡ self.now.probes }
    {
        self.probes
    }

    /// The order of the text at a place, counted from 0, against another text, by their bytes. It is
    /// counted as one probe.
    pub fn compare(&mut self, place: u32, text: &[u8]) -> Ordering
        requires within { place < length self.old.texts }
        requires countable { self.old.probes < 2 ^ 32 - 1 }
        ensures ascend { Ascend self.old.texts }
        ensures order { MatchOption (slice_get self.old.texts place) ⊥
            (λ kept. result ≡ text_cmp kept text.now) }
        ensures texts { self.new.texts ≡ self.old.texts }
        ensures probes { self.new.probes ≡ self.old.probes + 1 }
    {
        self.probes += 1;
        let found = self.places[self.order[place as usize] as usize];
        self.bytes[found.from as usize..found.to as usize].cmp(text)
    }
}
