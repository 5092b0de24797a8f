//! The texts of an output, as they are kept and found.
ghost use Rattle.std.specs.Prelude.{◌≡◌, ◌+◌, ◌^◌, ◌<◌, ◌≤◌, ◌++◌, ◌∷◌, [], length, take, drop, slice_index, slice_index_or, true, false, Some, None, IfOk, IfErr, OnOk};
ghost use Rattle.ion_meter.specs.Additions.{added_cost};
ghost use Rattle.ion_meter.specs.Counts.{Grows, Shrinks};
ghost use Rattle.ion_meter.specs.declared.fault.Fault.TheVariants.{Memory};
ghost use Rattle.ion_value.specs.Shares.{Charges};
ghost use Rattle.ion_symbols.specs.Output.{Belongs, CanAdd, IsNew, binary_digits, position, system_id, texts_cost};
ghost use Rattle.ion_symbols.specs.Ordered.{Orders, in_order};
ghost use Rattle.ion_symbols.specs.OutTexts.{AreDistinct, AreKept, CanLink, IsSpot, Links, entry_at, texts_of};

pub(crate) mod probe;

use crate::hash::{BUCKETS, bucket, hash, no_buckets};
use crate::lookup::seek;
use crate::ordered::{Place, Search};
use crate::search::place_of;
use crate::texts::Texts;
use ion_meter::buf::{Added, Buf};
use ion_meter::fault::Fault;
use ion_meter::meter::Meter;
use ion_meter::table::Table;
use probe::Probe;
use std::alloc::Allocator;

/// The cost of a place, in counted bytes.
const PLACE_COST: u64 = 12;

/// The cost of an id, or of a link, in counted bytes.
const ID_COST: u64 = 4;

/// Texts, no two alike and none of the system table, in order of id.
///
/// While they are linked, the texts of a bucket are a tree: each links to two others, and which of
/// them leads to a text is told by a binary digit of that text's hash. Where so many share their
/// digits that the way would be long, and where a search by halving asks for it, they are put in
/// order of bytes, and stay so until all are taken away.
#[derive(Drop)]
pub(crate) struct OutTexts<A: Allocator + Copy> {
    // Their bytes in order of id.
    bytes: Buf<A>,
    // Where each stands among the bytes, and the first of its links.
    places: Table<Place, A>,
    // While they are linked the second link of each, and else their numbers in order of bytes.
    ids: Table<u32, A>,
    // One more than the number of the first text of each bucket, or 0. They do not grow.
    buckets: [u32; BUCKETS],
    // Whether they are in order.
    is_ordered: bool,
}

/// Where a text that is new comes to stand.
#[derive(Clone, Copy)]
pub(crate) enum Spot {
    /// At this place in order of bytes.
    InOrder(u32),
    /// First in its bucket.
    First,
    /// After the text of this number, where the last of these digits says.
    After(u32, u64),
}

/// What becomes of looking for a text by the links.
#[derive(Clone, Copy)]
pub(crate) enum Sought {
    /// It has this number.
    At(u32),
    /// It is new, and this spot is free.
    Free(Spot),
    /// It is new, and the way to it would be too long.
    TooFar,
}

impl Spot {
    // Where the id of a text of this number comes to stand among the others, and the id: the
    // number, or no link.
    fn entry(self, number: u32) -> (usize, u32)
        ensures { result ≡ entry_at self number }
    {
        match self {
            Spot::InOrder(place) => (place as usize, number),
            Spot::First | Spot::After(_, _) => (number as usize, 0),
        }
    }
}

impl<A: Allocator + Copy> OutTexts<A> {
    /// No texts. It takes no memory.
    pub fn new(meter: &Meter<A>) -> OutTexts<A>
        ensures kept { AreKept result }
        ensures nothing { texts_of result ≡ [] }
        ensures linked { result.is_ordered ≡ false }
    {
        OutTexts {
            bytes: Buf::new(meter),
            places: Table::new(meter, PLACE_COST),
            ids: Table::new(meter, ID_COST),
            buckets: no_buckets(),
            is_ordered: false,
        }
    }

    /// How many texts there are.
    pub fn len(&self) -> usize
        requires kept { AreKept self.now }
        ensures { (result ≡ length (texts_of self.now)) × (result < 2 ^ 31) }
    {
        self.places.as_slice().len()
    }

    /// What they cost: 16 each, and their lengths, in counted bytes.
    pub fn cost(&self) -> u64
        requires kept { AreKept self.now }
        ensures { result ≡ texts_cost (texts_of self.now) }
    {
        16 * self.places.as_slice().len() as u64 + self.bytes.as_slice().len() as u64
    }

    /// Whether they are in order.
    #[inline]
    pub fn is_ordered(&self) -> bool
        ensures { result ≡ self.now.is_ordered }
    {
        self.is_ordered
    }

    /// The number of the text at a place in order of bytes.
    pub fn number_at(&self, place: u32) -> u32
        requires within { place < length self.now.ids.items }
        ensures { result ≡ slice_index self.now.ids.items place }
    {
        self.ids.as_slice()[place as usize]
    }

    /// The texts of this number and of greater ones, in order of id.
    pub fn since(&self, first: usize) -> Texts<'_>
        requires kept { AreKept self.now }
        ensures { result ≡ drop first (texts_of self.now) }
    {
        let places = self.places.as_slice();
        Texts::new(self.bytes.as_slice(), &places[first.min(places.len())..])
    }

    /// The texts, among which one is looked for.
    #[inline(always)]
    pub fn probe(&self) -> Probe<'_, A>
        ensures of { result.kept.now ≡ self.now }
        ensures probes { result.probes ≡ 0 }
    {
        Probe::new(self)
    }

    /// A search of the texts, which are in order.
    pub fn search(&self) -> Search<'_>
        requires kept { AreKept self.now }
        requires ordered { self.now.is_ordered ≡ true }
        ensures texts { result.texts ≡ in_order (texts_of self.now) self.now.ids.items }
        ensures probes { result.probes ≡ 0 }
    {
        Search::new(
            self.bytes.as_slice(),
            self.places.as_slice(),
            self.ids.as_slice(),
        )
    }

    /// The number of a text, or the spot where it comes to stand, and with how many others it was
    /// compared. Where the way to it would be too long, the texts are put in order.
    pub fn spot(&mut self, text: &[u8], probes: &mut u32) -> Result<u32, Spot>
        requires kept { AreKept self.old }
        ensures kept { AreKept self.new }
        ensures texts { self.new ≡ record self.old {
          ids = self.new.ids;
          is_ordered = self.new.is_ordered;
        } }
        ensures there { IfOk result (λ number.
            position (texts_of self.old) text.now ≡ Some number) }
        ensures new { IfErr result (λ spot. (position (texts_of self.old) text.now ≡ None)
            × IsSpot self.new text.now spot) }
        ensures ordered { self.old.is_ordered ≡ true → self.new.is_ordered ≡ true }
        ensures probes { probes.new ≤ 32 + binary_digits (length (texts_of self.old)) }
    {
        *probes = 0;
        if self.is_ordered {
            return self.halve(text, probes);
        }
        let mut probe = self.probe();
        let sought = seek(&mut probe, text, hash(text));
        *probes = probe.probes();
        match sought {
            Sought::At(number) => Ok(number),
            Sought::Free(spot) => Err(spot),
            Sought::TooFar => {
                self.put_in_order();
                self.halve(text, probes)
            }
        }
    }

    // The number of a text, or its spot, by halving where they are in order. What it is compared
    // with is counted on top.
    fn halve(&self, text: &[u8], probes: &mut u32) -> Result<u32, Spot>
        requires kept { AreKept self.now }
        requires ordered { self.now.is_ordered ≡ true }
        requires few { probes.old ≤ 32 }
        ensures there { IfOk result (λ number.
            position (texts_of self.now) text.now ≡ Some number) }
        ensures new { IfErr result (λ spot. (position (texts_of self.now) text.now ≡ None)
            × IsSpot self.now text.now spot) }
        ensures probes { probes.new
            ≤ probes.old + binary_digits (length (texts_of self.now)) }
    {
        let mut probe = self.probe();
        let found = probe.halve(text);
        *probes += probe.probes();
        found
    }

    /// Puts the texts in order of bytes. It takes no memory.
    #[cold]
    #[inline(never)]
    pub fn put_in_order(&mut self)
        requires kept { AreKept self.old }
        ensures kept { AreKept self.new }
        ensures ordered { self.new.is_ordered ≡ true }
        ensures texts { self.new ≡ record self.old {
          ids = self.new.ids;
          is_ordered = self.new.is_ordered;
        } }
    {
        if self.is_ordered {
            return;
        }
        let mut count = 0;
        while count < self.places.as_slice().len() {
            let place = self.place_among(count);
            self.ids.shift_in(place, count, count as u32);
            count += 1;
        }
        self.is_ordered = true;
    }

    // The place of a text among those before it, of which the first ids are the order.
    fn place_among(&self, count: usize) -> usize
        requires texts { AreDistinct self.now.bytes self.now.places.items }
        requires within { count < length self.now.places.items }
        requires order { Orders (take count (texts_of self.now)) (take count self.now.ids.items) }
        ensures { Belongs
            (in_order (take count (texts_of self.now)) (take count self.now.ids.items))
            (slice_index_or (texts_of self.now) count []) result }
    {
        let places = self.places.as_slice();
        let bytes = self.bytes.as_slice();
        let place = places[count];
        let text = &bytes[place.from as usize..place.to as usize];
        let mut search = Search::new(bytes, &places[..count], &self.ids.as_slice()[..count]);
        match place_of(&mut search, text) {
            Ok(_) => unreachable!(),
            Err(found) => found as usize,
        }
    }

    /// Adds a text that is new at its spot. Where memory is refused, it answers `Memory`, and all
    /// stays as it was.
    pub fn add(&mut self, meter: &mut Meter<A>, spot: Spot, text: &[u8]) -> Result<(), Fault>
        requires kept { AreKept self.old }
        requires new { IsNew (texts_of self.old) text.now }
        requires spot { IsSpot self.old text.now spot }
        requires can_add { CanAdd (texts_of self.old) meter.old }
        requires small { texts_cost (texts_of self.old) + (16 + length text.now) ≤ 2 ^ 30 }
        ensures kept { AreKept self.new }
        ensures added { OnOk result (texts_of self.new ≡ texts_of self.old ++ text.now ∷ []) }
        ensures grows { OnOk result (Grows meter.old meter.new (16 + length text.now)) }
        ensures memory { IfErr result (λ fault. (fault ≡ Memory)
            × (texts_of self.new ≡ texts_of self.old)
            × (meter.new.refused ≡ meter.old.refused + 1)) }
        ensures charges { Charges meter.old meter.new
            (texts_cost (texts_of self.old)) (texts_cost (texts_of self.new))
            (texts_cost (texts_of self.old) + (16 + length text.now)) }
        ensures order { self.new.is_ordered ≡ self.old.is_ordered }
    {
        let from = self.bytes.as_slice().len();
        let number = self.places.as_slice().len();
        self.bytes.extend(meter, text)?;
        let stands = Place {
            from: from as u32,
            to: (from + text.len()) as u32,
            next: 0,
        };
        let (at, id) = spot.entry(number as u32);
        if let Err(failed) = self
            .places
            .push_and_insert(&mut self.ids, meter, stands, at, id)
        {
            self.bytes.truncate(meter, from);
            return Err(failed.1);
        }
        self.link_last(spot, text);
        Ok(())
    }

    /// Adds a text, and octets to others, where it is new, there is room for all of it without a growth,
    /// and the way to it is not too long. Else it answers false, and nothing is changed.
    pub fn add_with(&mut self, octets: &mut Buf<A>, meter: &mut Meter<A>, added: Added<'_>) -> bool
        requires kept { AreKept self.old }
        requires no_system { system_id added.bytes.now ≡ None }
        requires small { texts_cost (texts_of self.old) + (16 + length added.bytes.now) ≤ 2 ^ 30 }
        requires room { meter.old.held + (16 + added_cost added) < 2 ^ 63 }
        ensures kept { AreKept self.new }
        ensures new { result ≡ true → position (texts_of self.old) added.entry.bytes.now ≡ None }
        ensures added { result ≡ true
            → texts_of self.new ≡ texts_of self.old ++ added.entry.bytes.now ∷ [] }
        ensures octets { result ≡ true
            → octets.new ≡ octets.old ++ (added.entry.front.now ++ added.entry.rest.now) }
        ensures grows { result ≡ true → Grows meter.old meter.new (16 + added_cost added.entry) }
        ensures order { self.new.is_ordered ≡ self.old.is_ordered }
        ensures declines { result ≡ false → (self.new ≡ self.old) × (octets.new ≡ octets.old)
            × (meter.new ≡ meter.old) }
    {
        if self.is_ordered {
            return false;
        }
        let mut probe = self.probe();
        let Sought::Free(spot) = seek(&mut probe, added.bytes, hash(added.bytes)) else {
            return false;
        };
        let from = self.bytes.as_slice().len();
        let stands = Place {
            from: from as u32,
            to: (from + added.bytes.len()) as u32,
            next: 0,
        };
        if !self.places.push_together(
            &mut self.ids,
            &mut self.bytes,
            octets,
            meter,
            stands,
            0,
            added,
        ) {
            return false;
        }
        self.link_last(spot, added.bytes);
        true
    }

    // Links the last text, which was put at this spot.
    fn link_last(&mut self, spot: Spot, text: &[u8])
        requires { CanLink self.old text.now spot }
        ensures kept { AreKept self.new }
        ensures texts { texts_of self.new ≡ texts_of self.old }
        ensures order { self.new.is_ordered ≡ self.old.is_ordered }
    {
        let last = self.places.as_slice().len() as u32;
        if let Spot::After(number, digits) = spot {
            self.link_after(number, digits, last);
            return;
        }
        let of = bucket(hash(text));
        if self.buckets[of] > 0 {
            return; // They are in order, and another stands in front.
        }
        self.buckets[of] = last;
    }

    // Links a text to the last one.
    fn link_after(&mut self, number: u32, digits: u64, last: u32)
        requires within { number < length self.old.places.items }
        requires long { length self.old.ids.items ≡ length self.old.places.items }
        ensures { Links self.old self.new number digits last }
    {
        if digits % 2 == 1 {
            self.ids.set(number as usize, last);
            return;
        }
        let stands = self.places.as_slice()[number as usize];
        let linked = Place {
            from: stands.from,
            to: stands.to,
            next: last,
        };
        self.places.set(number as usize, linked);
    }

    /// Takes all texts away. It takes no memory.
    pub fn clear(&mut self, meter: &mut Meter<A>)
        requires kept { AreKept self.old }
        requires held { texts_cost (texts_of self.old) ≤ meter.old.held }
        ensures kept { AreKept self.new }
        ensures nothing { texts_of self.new ≡ [] }
        ensures linked { self.new.is_ordered ≡ false }
        ensures cost { Shrinks meter.old meter.new (texts_cost (texts_of self.old)) }
    {
        self.bytes.clear(meter);
        self.places.clear(meter);
        self.ids.clear(meter);
        self.buckets = no_buckets();
        self.is_ordered = false;
    }

    /// Gives all back.
    pub fn release(self, meter: &mut Meter<A>)
        requires kept { AreKept self }
        requires held { texts_cost (texts_of self) ≤ meter.old.held }
        ensures { Shrinks meter.old meter.new (texts_cost (texts_of self)) }
    {
        let OutTexts {
            bytes,
            places,
            ids,
            buckets: _,
            is_ordered: _,
        } = self;
        bytes.release(meter);
        places.release(meter);
        ids.release(meter);
    }
}
