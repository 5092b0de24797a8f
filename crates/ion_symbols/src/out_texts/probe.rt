//! The texts of an output, seen by comparing one at a time.
ghost use Rattle.std.specs.Prelude.{◌≡◌, ◌+◌, ◌-◌, ◌^◌, ◌<◌, ◌≤◌, [], length, slice_index, slice_index_or, true, false, None, Some, IfOk, IfErr};
ghost use Rattle.std.specs.Str.{bytes_eq};
ghost use Rattle.ion_symbols.specs.Output.{binary_digits, position};
ghost use Rattle.ion_symbols.specs.OutTexts.{AreKept, IsSpot, firsts, link_of, texts_of};

use super::{OutTexts, Spot};
use crate::hash::BUCKETS;
use crate::same::is_same;
use crate::search::place_of;
use std::alloc::Allocator;

/// The texts of an output, among which one is looked for: each that it is compared with is counted.
///
/// Outside of its module it offers links, comparisons, and their number: who looks for a text sees
/// the others by `is_same` and `halve` alone.
#[derive(Drop)]
pub(crate) struct Probe<'a, A: Allocator + Copy> {
    kept: &'a OutTexts<A>,
    probes: u32,
}

impl<'a, A: Allocator + Copy> Probe<'a, A> {
    // A search of these texts, in which none was compared.
    #[inline(always)]
    pub(super) fn new(kept: &'a OutTexts<A>) -> Probe<'a, A>
        ensures of { result.kept.now ≡ kept.now }
        ensures probes { result.probes ≡ 0 }
    {
        Probe { kept, probes: 0 }
    }

    /// With how many texts another was compared.
    #[inline(always)]
    pub fn probes(&self) -> u32
        ensures { result ≡ self.now.probes }
    {
        self.probes
    }

    /// Whether the texts are in order.
    #[inline(always)]
    pub fn is_ordered(&self) -> bool
        ensures { result ≡ self.now.kept.now.is_ordered }
    {
        self.kept.is_ordered
    }

    /// One more than the number of the first text of a bucket, or 0.
    #[inline(always)]
    pub fn front(&self, bucket: usize) -> u32
        requires kept { AreKept self.now.kept.now }
        requires within { bucket < BUCKETS }
        ensures front { result ≡ slice_index self.now.kept.now.buckets bucket }
        ensures within { result ≤ length (texts_of self.now.kept.now) }
    {
        self.kept.buckets[bucket]
    }

    /// The link of a text that the last of these digits says: one more than a number, or 0.
    #[inline(always)]
    pub fn link(&self, number: u32, digits: u64) -> u32
        requires kept { AreKept self.now.kept.now }
        requires linked { self.now.kept.now.is_ordered ≡ false }
        requires within { number < length (texts_of self.now.kept.now) }
        ensures link { result ≡ link_of
            (firsts self.now.kept.now.places.items) self.now.kept.now.ids.items number digits }
        ensures within { result ≤ length (texts_of self.now.kept.now) }
    {
        self.kept.link(number, digits)
    }

    /// Whether the text of a number is this one. It is counted as one probe.
    #[inline(always)]
    pub fn is_same(&mut self, number: u32, text: &[u8]) -> bool
        requires kept { AreKept self.old.kept.now }
        requires within { number < length (texts_of self.old.kept.now) }
        requires countable { self.old.probes < 2 ^ 32 - 1 }
        ensures same { result
            ≡ bytes_eq (slice_index_or (texts_of self.old.kept.now) number []) text.now }
        ensures counted { self.new ≡ record self.old { probes = self.old.probes + 1 } }
    {
        self.probes += 1;
        is_same(self.kept.text(number), text)
    }

    /// The number of a text, or the spot where it comes to stand, by halving. Each text that it is
    /// compared with is counted.
    #[cold]
    #[inline(never)]
    pub fn halve(&mut self, text: &[u8]) -> Result<u32, Spot>
        requires kept { AreKept self.old.kept.now }
        requires ordered { self.old.kept.now.is_ordered ≡ true }
        requires countable { self.old.probes < 2 ^ 31 }
        ensures there { IfOk result (λ number.
            position (texts_of self.old.kept.now) text.now ≡ Some number) }
        ensures new { IfErr result (λ spot.
            (position (texts_of self.old.kept.now) text.now ≡ None)
            × IsSpot self.old.kept.now text.now spot) }
        ensures same { self.new ≡ record self.old { probes = self.new.probes } }
        ensures probes { self.new.probes
            ≤ self.old.probes + binary_digits (length (texts_of self.old.kept.now)) }
    {
        let mut search = self.kept.search();
        let found = place_of(&mut search, text);
        self.probes += search.probes();
        match found {
            Ok(place) => Ok(self.kept.number_at(place)),
            Err(place) => Err(Spot::InOrder(place)),
        }
    }
}

impl<A: Allocator + Copy> OutTexts<A> {
    // The text of a number.
    #[inline(always)]
    fn text(&self, number: u32) -> &[u8]
        requires kept { AreKept self.now }
        requires within { number < length (texts_of self.now) }
        ensures { result.now ≡ slice_index_or (texts_of self.now) number [] }
    {
        let place = self.places.as_slice()[number as usize];
        &self.bytes.as_slice()[place.from as usize..place.to as usize]
    }

    // The link of a text that the last of these digits says: one more than a number, or 0.
    #[inline(always)]
    fn link(&self, number: u32, digits: u64) -> u32
        requires kept { AreKept self.now }
        requires linked { self.now.is_ordered ≡ false }
        requires within { number < length (texts_of self.now) }
        ensures link { result
            ≡ link_of (firsts self.now.places.items) self.now.ids.items number digits }
        ensures within { result ≤ length (texts_of self.now) }
    {
        let first = self.places.as_slice()[number as usize].next;
        let second = self.ids.as_slice()[number as usize];
        if digits % 2 == 0 { first } else { second }
    }
}
