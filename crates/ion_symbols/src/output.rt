//! The symbol table of an output.
ghost use Rattle.std.specs.Prelude.{◌≡◌, ℕ, ◌+◌, ◌-◌, ◌^◌, ◌<◌, ◌≤◌, ◌++◌, ◌∷◌, [], List, length, drop, slice_get, Option, Some, None, Ok, MatchOption, IfSome, IfOk, IfErr, OnOk, true, false};
ghost use Rattle.ion_meter.specs.Additions.{added_cost};
ghost use Rattle.ion_meter.specs.declared.fault.Fault.TheVariants.{Memory};
ghost use Rattle.ion_meter.specs.Limits.{AreChecked};
ghost use Rattle.ion_meter.specs.Counts.{Grows, Shrinks};
ghost use Rattle.ion_value.specs.Shares.{Charges};
ghost use Rattle.ion_value.specs.Items.{is_none_left};
ghost use Rattle.ion_symbols.specs.Output.{CanAdd, IsNew, IsSorted, binary_digits, id_given, known_id, probes_for, system_id, texts_cost};
ghost use Rattle.ion_symbols.specs.OutTexts.{AreKept, IsSpot, texts_of};

use crate::lookup::find;
use crate::ordered::Search;
use crate::out_texts::{OutTexts, Spot};
use crate::search::place_of;
use crate::system::system_id;
pub use crate::texts::Texts;
use ion_meter::buf::{Added, Buf};
use ion_meter::fault::Fault;
use ion_meter::limits::Limits;
use ion_meter::meter::Meter;
use std::alloc::Allocator;
use std::marker::Model;

/// The first id after the system table's.
const FIRST_ID: u32 = 10;

/// The texts of an output that have been given ids, from 10 on, each once since all of them were
/// last taken away.
///
/// It holds 16 counted bytes a text and the text's length, and never more than the limit on symbol
/// tables. A clause sees the texts in order of id, the limit, the probes of the last search, and
/// whether the texts are in order of their bytes too, so that `search` has them.
#[derive(Drop)]
pub struct OutSymbols<A: Allocator + Copy> {
    kept: OutTexts<A>,
    limit: u64,
    probes: u32,
}

impl<A: Allocator + Copy> Model for OutSymbols<A> {
    ghost use Rattle.std.specs.Prelude.{◌^◌, ◌≤◌};
    ghost use Rattle.ion_symbols.specs.Output.{Output, texts_cost};
    ghost use Rattle.ion_symbols.specs.OutTexts.{AreKept, texts_of};

    ghost Value = { Output };

    ghost view = { λ s. record {
      texts = texts_of s.kept;
      limit = s.limit;
      probes = s.probes;
      is_ordered = s.kept.is_ordered;
    } };

    ghost invariant = { λ s. AreKept s.kept × (texts_cost (texts_of s.kept) ≤ s.limit)
        × (s.limit ≤ 2 ^ 30) };
}

impl<A: Allocator + Copy> OutSymbols<A> {
    /// No texts. It takes no memory.
    pub fn new(meter: &Meter<A>, limits: Limits) -> OutSymbols<A>
        requires { AreChecked limits }
        ensures { result ≡ record {
          texts = [];
          limit = limits.symbols;
          probes = 0;
          is_ordered = false;
        } }
    {
        OutSymbols {
            kept: OutTexts::new(meter),
            limit: limits.symbols,
            probes: 0,
        }
    }

    /// The id of a text: that of the system table, or else 10 and its place among the texts that were
    /// given one. A text that is new is added; where its cost would pass the limit, it is not, and
    /// there is no id.
    ///
    /// The text is looked for by halving, and the texts are put in order of bytes first where they are
    /// not: those that `give_id` added. Then each text that is new moves, until all are taken away, what
    /// stands after it in that order.
    ///
    /// Where memory is refused, it answers `Memory` and the texts stay as they were. A text that has an
    /// id asks for none.
    pub fn id_of(&mut self, meter: &mut Meter<A>, text: &[u8]) -> Result<Option<u32>, Fault>
        requires room { meter.old.held ≤ 2 ^ 62 + 2 ^ 31 }
        requires held { texts_cost self.old.texts ≤ meter.old.held }
        requires countable { meter.old.refused < 2 ^ 64 - 1 }
        ensures gives { IfOk result
            (λ id. (id, self.new.texts) ≡ id_given self.old.limit self.old.texts text.now) }
        ensures found { (id : ℕ) → known_id self.old.texts text.now ≡ Some id
            → (result ≡ Ok (Some id)) × (self.new.texts ≡ self.old.texts)
            × (meter.new ≡ meter.old) }
        ensures over { known_id self.old.texts text.now ≡ None
            → self.old.limit < texts_cost self.old.texts + (16 + length text.now)
            → (result ≡ Ok None) × (meter.new ≡ meter.old) }
        ensures grows { (id : ℕ) → known_id self.old.texts text.now ≡ None
            → result ≡ Ok (Some id) → Grows meter.old meter.new (16 + length text.now) }
        ensures limit { self.new.limit ≡ self.old.limit }
        ensures probes { self.new.probes ≤ binary_digits (length self.old.texts) }
        ensures system { (id : ℕ) → system_id text.now ≡ Some id → self.new.probes ≡ 0 }
        ensures searched { (sorted : List (List ℕ)) → IsSorted sorted self.old.texts
            → system_id text.now ≡ None → self.new.probes ≡ probes_for sorted text.now }
        ensures ordered { system_id text.now ≡ None → self.new.is_ordered ≡ true }
        ensures stays { (id : ℕ) → system_id text.now ≡ Some id
            → self.new.is_ordered ≡ self.old.is_ordered }
        ensures memory { IfErr result (λ fault. (fault ≡ Memory)
            × (self.new.texts ≡ self.old.texts) × (meter.new.refused ≡ meter.old.refused + 1)) }
        ensures counted { OnOk result (meter.new.refused ≡ meter.old.refused) }
        ensures charges { Charges meter.old meter.new
            (texts_cost self.old.texts) (texts_cost self.new.texts) self.old.limit }
    {
        self.probes = 0;
        if let Some(id) = system_id(text) {
            return Ok(Some(id));
        }
        self.kept.put_in_order();
        let mut search = self.kept.search();
        let found = place_of(&mut search, text);
        self.probes = search.probes();
        match found {
            Ok(place) => Ok(Some(FIRST_ID + self.kept.number_at(place))),
            Err(place) => add(
                &mut self.kept,
                meter,
                self.limit,
                Spot::InOrder(place),
                text,
            ),
        }
    }

    /// The id of a text, as `id_of` gives it, where it has one. It is found by a hash of at most 32 of its
    /// bytes and a few comparisons, or by halving where the texts are in order. Nothing is changed.
    #[inline]
    pub fn known(&self, text: &[u8]) -> Option<u32>
        ensures { result ≡ known_id self.now.texts text.now }
    {
        self.known_probes(text).0
    }

    /// As `known`, and the comparisons that were counted: at most 32 and as many as the number of texts
    /// has binary digits. The contract says this bound alone; that each comparison is counted is kept
    /// by the private fields of what the texts are reached by.
    #[inline]
    pub fn known_probes(&self, text: &[u8]) -> (Option<u32>, u32)
        ensures known { result.0 ≡ known_id self.now.texts text.now }
        ensures probes { result.1 ≤ 32 + binary_digits (length self.now.texts) }
    {
        let mut probe = self.kept.probe();
        let found = find(&mut probe, text);
        let probes = probe.probes();
        match found {
            Some(number) => (Some(FIRST_ID + number), probes),
            None => (system_id(text), probes),
        }
    }

    /// As `id_of`, but found as by `known`, and what `last_probes` says is left as it was.
    #[inline]
    pub fn give_id(&mut self, meter: &mut Meter<A>, text: &[u8]) -> Result<Option<u32>, Fault>
        requires room { meter.old.held ≤ 2 ^ 62 + 2 ^ 31 }
        requires held { texts_cost self.old.texts ≤ meter.old.held }
        requires countable { meter.old.refused < 2 ^ 64 - 1 }
        ensures gives { IfOk result
            (λ id. (id, self.new.texts) ≡ id_given self.old.limit self.old.texts text.now) }
        ensures found { (id : ℕ) → known_id self.old.texts text.now ≡ Some id
            → (result ≡ Ok (Some id)) × (self.new.texts ≡ self.old.texts)
            × (meter.new ≡ meter.old) }
        ensures over { known_id self.old.texts text.now ≡ None
            → self.old.limit < texts_cost self.old.texts + (16 + length text.now)
            → (result ≡ Ok None) × (meter.new ≡ meter.old) }
        ensures grows { (id : ℕ) → known_id self.old.texts text.now ≡ None
            → result ≡ Ok (Some id) → Grows meter.old meter.new (16 + length text.now) }
        ensures limit { self.new.limit ≡ self.old.limit }
        ensures probes { self.new.probes ≡ self.old.probes }
        ensures ordered { self.old.is_ordered ≡ true → self.new.is_ordered ≡ true }
        ensures memory { IfErr result (λ fault. (fault ≡ Memory)
            × (self.new.texts ≡ self.old.texts) × (meter.new.refused ≡ meter.old.refused + 1)) }
        ensures counted { OnOk result (meter.new.refused ≡ meter.old.refused) }
        ensures charges { Charges meter.old meter.new
            (texts_cost self.old.texts) (texts_cost self.new.texts) self.old.limit }
    {
        let limit = self.limit;
        if let Some(id) = system_id(text) {
            return Ok(Some(id));
        }
        let mut probes = 0;
        match self.kept.spot(text, &mut probes) {
            Ok(number) => Ok(Some(FIRST_ID + number)),
            Err(spot) => add(&mut self.kept, meter, limit, spot, text),
        }
    }

    /// The id that the next text that is new gets.
    #[inline]
    pub fn next_id(&self) -> u32
        ensures { result ≡ 10 + length self.now.texts }
    {
        FIRST_ID + self.kept.len() as u32
    }

    /// Gives a text the next id, and adds octets to others, where the text has none, the texts are not in
    /// order, the way to it is not too long, there is room for all of it without a growth, and the limit
    /// allows it. Else it answers false, and nothing is changed.
    pub fn give_next(&mut self, octets: &mut Buf<A>, meter: &mut Meter<A>, added: Added<'_>) -> bool
        requires room { meter.old.held ≤ 2 ^ 62 + 2 ^ 31 }
        requires short { length added.front.now + length added.rest.now ≤ 2 ^ 32 }
        ensures new { result ≡ true → known_id self.old.texts added.entry.bytes.now ≡ None }
        ensures texts { result ≡ true
            → self.new.texts ≡ self.old.texts ++ added.entry.bytes.now ∷ [] }
        ensures octets { result ≡ true
            → octets.new ≡ octets.old ++ (added.entry.front.now ++ added.entry.rest.now) }
        ensures within { result ≡ true → texts_cost self.new.texts ≤ self.old.limit }
        ensures grows { result ≡ true → Grows meter.old meter.new (16 + added_cost added.entry) }
        ensures limit { self.new.limit ≡ self.old.limit }
        ensures probes { self.new.probes ≡ self.old.probes }
        ensures ordered { self.new.is_ordered ≡ self.old.is_ordered }
        ensures declines { result ≡ false → (self.new ≡ self.old) × (octets.new ≡ octets.old)
            × (meter.new ≡ meter.old) }
    {
        if is_over(self.kept.cost(), added.bytes, self.limit) {
            return false;
        }
        if system_id(added.bytes).is_some() {
            return false;
        }
        self.kept.add_with(octets, meter, added)
    }

    /// The texts from an id on, in order of id.
    pub fn new_since(&self, id: u32) -> Texts<'_>
        ensures { result ≡ drop (id - 10) self.now.texts }
    {
        self.kept.since(id.saturating_sub(FIRST_ID) as usize)
    }

    /// What the texts cost: 16 each, and their lengths, in counted bytes.
    pub fn cost(&self) -> u64
        ensures { result ≡ texts_cost self.now.texts }
    {
        self.kept.cost()
    }

    /// Puts the texts in order of bytes, where they are not, as `id_of` does. It takes no memory.
    pub fn put_in_order(&mut self)
        ensures { self.new ≡ record self.old { is_ordered = true } }
    {
        self.kept.put_in_order(); // Ids and probes stay as they are.
    }

    /// A search of the texts, without probes, where they are in order of bytes: from `put_in_order` on, or
    /// from `id_of` of a text that is not of the system table, until all are taken away. Else there is
    /// none, but where `give_id` had to put them in order.
    pub fn search(&self) -> Option<Search<'_>>
        ensures none { result ≡ None → self.now.is_ordered ≡ false }
        ensures some { IfSome result (λ _. self.now.is_ordered ≡ true) }
        ensures texts { IfSome result (λ search. IsSorted search.texts self.now.texts) }
        ensures probes { IfSome result (λ search. search.probes ≡ 0) }
    {
        if !self.kept.is_ordered() {
            return None;
        }
        Some(self.kept.search())
    }

    /// The probes of the last search of `id_of`, 0 before any; a system text is found without one.
    pub fn last_probes(&self) -> u32
        ensures { result ≡ self.now.probes }
    {
        self.probes
    }

    /// Takes all texts away, so that ids begin at 10 again. It takes no memory.
    pub fn clear(&mut self, meter: &mut Meter<A>)
        requires { texts_cost self.old.texts ≤ meter.old.held }
        ensures cleared { self.new ≡ record {
          texts = [];
          limit = self.old.limit;
          probes = 0;
          is_ordered = false;
        } }
        ensures cost { Shrinks meter.old meter.new (texts_cost self.old.texts) }
    {
        self.kept.clear(meter);
        self.probes = 0; // No search of these texts is left.
    }

    /// Gives all back.
    pub fn release(self, meter: &mut Meter<A>)
        requires { texts_cost self.texts ≤ meter.old.held }
        ensures { Shrinks meter.old meter.new (texts_cost self.texts) }
    {
        let OutSymbols {
            kept,
            limit: _,
            probes: _,
        } = self;
        kept.release(meter);
    }
}

// Adds a text that is new and not of the system table, where the limit allows it.
fn add<A: Allocator + Copy>(
    kept: &mut OutTexts<A>,
    meter: &mut Meter<A>,
    limit: u64,
    spot: Spot,
    text: &[u8],
) -> Result<Option<u32>, Fault>
    requires kept { AreKept kept.old }
    requires new { IsNew (texts_of kept.old) text.now }
    requires spot { IsSpot kept.old text.now spot }
    requires can_add { CanAdd (texts_of kept.old) meter.old }
    requires share { texts_cost (texts_of kept.old) ≤ limit }
    requires small { limit ≤ 2 ^ 30 }
    ensures kept { AreKept kept.new }
    ensures share { texts_cost (texts_of kept.new) ≤ limit }
    ensures gives { IfOk result
        (λ id. (id, texts_of kept.new) ≡ id_given limit (texts_of kept.old) text.now) }
    ensures memory { IfErr result (λ fault. (fault ≡ Memory)
        × (texts_of kept.new ≡ texts_of kept.old)
        × (meter.new.refused ≡ meter.old.refused + 1)) }
    ensures counted { OnOk result (meter.new.refused ≡ meter.old.refused) }
    ensures charges { Charges meter.old meter.new
        (texts_cost (texts_of kept.old)) (texts_cost (texts_of kept.new)) limit }
    ensures over { limit < texts_cost (texts_of kept.old) + (16 + length text.now)
        → (result ≡ Ok None) × (meter.new ≡ meter.old) }
    ensures grows { (id : ℕ) → result ≡ Ok (Some id)
        → Grows meter.old meter.new (16 + length text.now) }
    ensures order { kept.new.is_ordered ≡ kept.old.is_ordered }
{
    if is_over(kept.cost(), text, limit) {
        return Ok(None);
    }
    let id = FIRST_ID + kept.len() as u32;
    match kept.add(meter, spot, text) {
        Ok(()) => Ok(Some(id)),
        Err(fault) => Err(fault),
    }
}

// Whether texts of this cost with one more would pass the limit.
fn is_over(cost: u64, text: &[u8], limit: u64) -> bool
    requires within { cost ≤ limit }
    requires small { limit ≤ 2 ^ 30 }
    ensures fits { result ≡ false → cost + (16 + length text.now) ≤ limit }
    ensures over { result ≡ true → limit < cost + (16 + length text.now) }
{
    let length = text.len() as u64;
    if length > limit {
        return true;
    }
    cost + 16 + length > limit
}
