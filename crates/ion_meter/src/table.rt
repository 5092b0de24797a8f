//! Entries whose every growth is counted, at a fixed cost each.
ghost use Rattle.std.specs.Prelude.{◌≡◌, ◌+◌, ◌*◌, ◌-◌, ◌^◌, ◌<◌, ◌≤◌, ◌++◌, ◌∷◌, [], true, false, length, take, drop, slice_set, OnOk, OnErr, IfErr, MatchOption};
ghost use Rattle.std.specs.List.{insert};
ghost use Rattle.ion_meter.specs.Counts.{Grows, Shrinks, IsRefused};
ghost use Rattle.ion_meter.specs.Entries.{Entries, cost_of};
ghost use Rattle.ion_meter.specs.Additions.{added_cost};

use crate::buf::{Added, Buf};
use crate::fault::Fault;
use crate::meter::Meter;
use std::alloc::Allocator;
use std::marker::Model;

/// Counted entries. A clause sees the list of them, and the cost of each.
///
/// A growth that the allocator refuses answers `Memory` and changes nothing but the meter's
/// `refused`. One that is dropped without `release` leaves the meter's `held` as it was.
#[derive(Drop)]
pub struct Table<T, A: Allocator + Copy> {
    items: Vec<T, A>,
    cost: u64,
}

impl<T, A: Allocator + Copy> Model for Table<T, A> {
    ghost use Rattle.ion_meter.specs.Entries.{Entries};

    ghost Value = { Entries T };

    ghost view = { λ t. record { items = t.items.items; cost = t.cost } };
}

impl<T, A: Allocator + Copy> Table<T, A> {
    /// No entries, at this cost each, in counted bytes. It takes no memory.
    pub fn new(meter: &Meter<A>, cost: u64) -> Table<T, A>
        ensures items { result.items ≡ [] }
        ensures cost { result.cost ≡ cost }
    {
        Table {
            items: Vec::new(meter.alloc()),
            cost,
        }
    }

    /// The entries.
    pub fn as_slice(&self) -> &[T]
        ensures { result.now ≡ self.now.items }
    {
        self.items.as_slice()
    }

    /// Adds an entry, or hands it back where there is no memory.
    pub fn push(&mut self, meter: &mut Meter<A>, entry: T) -> Result<(), (T, Fault)>
        requires room { meter.old.held + self.old.cost < 2 ^ 63 }
        requires countable { meter.old.refused < 2 ^ 64 - 1 }
        ensures ok { OnOk result (self.new.items ≡ self.old.items ++ entry ∷ []) }
        ensures cost { OnOk result (Grows meter.old meter.new self.old.cost) }
        ensures same_cost { self.new.cost ≡ self.old.cost }
        ensures returned { IfErr result (λ e. (e.0 ≡ entry) × (e.1 ≡ Fault.Memory)) }
        ensures err { OnErr result (self.new ≡ self.old) }
        ensures refused { OnErr result (IsRefused meter.old meter.new) }
    {
        if let Err(failed) = self.items.push(entry) {
            meter.refuse();
            return Err((failed.value, Fault::Memory));
        }
        meter.add(self.cost);
        Ok(())
    }

    /// Adds an entry, and bytes to others, where there is room for both. Else it answers false, and
    /// nothing is changed.
    #[inline(always)]
    pub fn push_with(
        &mut self,
        others: &mut Buf<A>,
        meter: &mut Meter<A>,
        entry: T,
        bytes: &[u8],
    ) -> bool
    where
        T: Copy,
        requires { meter.old.held + self.old.cost + length bytes.now < 2 ^ 63 }
        ensures items { result ≡ true → self.new.items ≡ self.old.items ++ entry ∷ [] }
        ensures bytes { result ≡ true → others.new ≡ others.old ++ bytes.now }
        ensures cost { result ≡ true
            → Grows meter.old meter.new (self.old.cost + length bytes.now) }
        ensures same_cost { self.new.cost ≡ self.old.cost }
        ensures declines { result ≡ false → (self.new ≡ self.old) × (others.new ≡ others.old)
            × (meter.new ≡ meter.old) }
    {
        if self.items.len() >= self.items.capacity() {
            return false;
        }
        if !others.extend_if_room(meter, bytes, &[]) {
            return false;
        }
        self.items.push_reserved(entry);
        meter.add(self.cost);
        true
    }

    /// Adds an entry where there is room for it without a growth. False where there is none, and then
    /// nothing is changed.
    #[inline(always)]
    pub fn push_within(&mut self, meter: &mut Meter<A>, entry: T) -> bool
    where
        T: Copy,
        requires room { meter.old.held + self.old.cost < 2 ^ 63 }
        ensures ok { result ≡ true → self.new.items ≡ self.old.items ++ entry ∷ [] }
        ensures cost { result ≡ true → Grows meter.old meter.new self.old.cost }
        ensures same_cost { self.new.cost ≡ self.old.cost }
        ensures declines { result ≡ false → (self.new ≡ self.old) × (meter.new ≡ meter.old) }
    {
        if self.items.len() >= self.items.capacity() {
            return false;
        }
        self.items.push_reserved(entry);
        meter.add(self.cost);
        true
    }

    /// Adds copies of these entries at the end.
    pub fn extend(&mut self, meter: &mut Meter<A>, entries: &[T]) -> Result<(), Fault>
    where
        T: Copy,
        requires room { meter.old.held + self.old.cost * length entries.now < 2 ^ 63 }
        requires countable { meter.old.refused < 2 ^ 64 - 1 }
        ensures ok { OnOk result (self.new.items ≡ self.old.items ++ entries.now) }
        ensures cost { OnOk result (Grows meter.old meter.new
            (self.old.cost * length entries.now)) }
        ensures same_cost { self.new.cost ≡ self.old.cost }
        ensures memory { IfErr result (λ e. e ≡ Fault.Memory) }
        ensures err { OnErr result (self.new ≡ self.old) }
        ensures refused { OnErr result (IsRefused meter.old meter.new) }
    {
        if self.items.extend_from_slice(entries).is_err() {
            meter.refuse();
            return Err(Fault::Memory);
        }
        meter.add_each(self.cost, entries.len());
        Ok(())
    }

    /// Puts an entry in at a place, counted from 0, or hands it back where there is no memory.
    pub fn insert(&mut self, meter: &mut Meter<A>, place: usize, entry: T) -> Result<(), (T, Fault)>
        requires within { place ≤ length self.old.items }
        requires room { meter.old.held + self.old.cost < 2 ^ 63 }
        requires countable { meter.old.refused < 2 ^ 64 - 1 }
        ensures ok { OnOk result (self.new.items ≡ insert self.old.items place entry) }
        ensures cost { OnOk result (Grows meter.old meter.new self.old.cost) }
        ensures same_cost { self.new.cost ≡ self.old.cost }
        ensures returned { IfErr result (λ e. (e.0 ≡ entry) × (e.1 ≡ Fault.Memory)) }
        ensures err { OnErr result (self.new ≡ self.old) }
        ensures refused { OnErr result (IsRefused meter.old meter.new) }
    {
        if let Err(failed) = self.items.insert(place, entry) {
            meter.refuse();
            return Err((failed.value, Fault::Memory));
        }
        meter.add(self.cost);
        Ok(())
    }

    /// Adds an entry here, and puts one in at a place of others, counted from 0. Where there is no
    /// memory for one of them it does neither, and hands the first back.
    pub fn push_and_insert<U>(
        &mut self,
        others: &mut Table<U, A>,
        meter: &mut Meter<A>,
        entry: T,
        place: usize,
        other: U,
    ) -> Result<(), (T, Fault)>
    where
        U: Copy,
        requires within { place ≤ length others.old.items }
        requires room { meter.old.held + (self.old.cost + others.old.cost) < 2 ^ 63 }
        requires countable { meter.old.refused < 2 ^ 64 - 1 }
        ensures added { OnOk result (self.new.items ≡ self.old.items ++ entry ∷ []) }
        ensures inserted { OnOk result (others.new.items ≡ insert others.old.items place other) }
        ensures cost { OnOk result (Grows meter.old meter.new (self.old.cost + others.old.cost)) }
        ensures same_cost { self.new.cost ≡ self.old.cost }
        ensures same_other_cost { others.new.cost ≡ others.old.cost }
        ensures returned { IfErr result (λ e. (e.0 ≡ entry) × (e.1 ≡ Fault.Memory)) }
        ensures err { OnErr result ((self.new ≡ self.old) × (others.new ≡ others.old)) }
        ensures refused { OnErr result (IsRefused meter.old meter.new) }
    {
        if self.items.reserve(1).is_err() || others.items.push(other).is_err() {
            meter.refuse();
            return Err((entry, Fault::Memory));
        }
        // One move, by places that a compiler knows; of `Vec::insert` it may make a loop.
        let after = &mut others.items[place..];
        let moved = after.len() - 1;
        after.copy_within(0..moved, 1);
        after[0] = other;
        self.items.push_reserved(entry);
        meter.add(self.cost + others.cost);
        Ok(())
    }

    /// Adds an entry, another to a second table, and bytes to two lists, where there is room for all of
    /// them. Else it answers false, and nothing is changed.
    #[inline]
    pub fn push_together<U>(
        &mut self,
        others: &mut Table<U, A>,
        bytes: &mut Buf<A>,
        octets: &mut Buf<A>,
        meter: &mut Meter<A>,
        entry: T,
        other: U,
        added: Added<'_>,
    ) -> bool
    where
        T: Copy,
        U: Copy,
        requires { meter.old.held + (self.old.cost + others.old.cost + added_cost added) < 2 ^ 63 }
        ensures items { result ≡ true → self.new.items ≡ self.old.items ++ entry ∷ [] }
        ensures others { result ≡ true → others.new.items ≡ others.old.items ++ other ∷ [] }
        ensures bytes { result ≡ true → bytes.new ≡ bytes.old ++ added.entry.bytes.now }
        ensures octets { result ≡ true → octets.new
            ≡ octets.old ++ (added.entry.front.now ++ added.entry.rest.now) }
        ensures cost { result ≡ true → Grows meter.old meter.new
            (self.old.cost + others.old.cost + added_cost added.entry) }
        ensures same_cost { self.new.cost ≡ self.old.cost }
        ensures same_other_cost { others.new.cost ≡ others.old.cost }
        ensures declines { result ≡ false → (self.new ≡ self.old) × (others.new ≡ others.old)
            × (bytes.new ≡ bytes.old) × (octets.new ≡ octets.old) × (meter.new ≡ meter.old) }
    {
        if self.items.len() >= self.items.capacity() {
            return false;
        }
        if others.items.len() >= others.items.capacity() {
            return false;
        }
        if !bytes.extend_both_if_room(octets, meter, added) {
            return false;
        }
        self.items.push_reserved(entry);
        others.items.push_reserved(other);
        meter.add(others.cost + self.cost);
        true
    }

    /// Puts an entry in at a place among the first entries, up to an end, each counted from 0: those from
    /// the place on move after it, and the one at the end goes.
    pub fn shift_in(&mut self, place: usize, end: usize, entry: T)
    where
        T: Copy,
        requires order { place ≤ end }
        requires within { end < length self.old.items }
        ensures items { take (end + 1) self.new.items
            ≡ insert (take end self.old.items) place entry }
        ensures after { drop (end + 1) self.new.items ≡ drop (end + 1) self.old.items }
        ensures len { length self.new.items ≡ length self.old.items }
        ensures cost { self.new.cost ≡ self.old.cost }
    {
        let after = &mut self.items[place..end + 1];
        let moved = after.len() - 1;
        after.copy_within(0..moved, 1);
        after[0] = entry;
    }

    /// Writes an entry over the one at a place, counted from 0.
    pub fn set(&mut self, place: usize, entry: T)
    where
        T: Drop,
        requires { place < length self.old.items }
        ensures items { self.new.items ≡ slice_set self.old.items place entry }
        ensures cost { self.new.cost ≡ self.old.cost }
    {
        self.items[place] = entry;
    }

    /// Takes the last entry off and hands it out.
    pub fn pop(&mut self, meter: &mut Meter<A>) -> Option<T>
        requires { cost_of self.old ≤ meter.old.held }
        ensures items { MatchOption result ((self.old.items ≡ []) × (self.new.items ≡ []))
            (λ entry. self.old.items ≡ self.new.items ++ entry ∷ []) }
        ensures cost { MatchOption result (meter.new ≡ meter.old)
            (λ _. Shrinks meter.old meter.new self.old.cost) }
        ensures same_cost { self.new.cost ≡ self.old.cost }
    {
        let last = self.items.pop()?;
        meter.give_back(self.cost);
        Some(last)
    }

    /// Keeps the first `len` entries.
    pub fn truncate(&mut self, meter: &mut Meter<A>, len: usize)
    where
        T: Drop,
        requires { self.old.cost * (length self.old.items - len) ≤ meter.old.held }
        ensures items { self.new.items ≡ take len self.old.items }
        ensures cost { Shrinks meter.old meter.new (self.old.cost * (length self.old.items - len)) }
        ensures same_cost { self.new.cost ≡ self.old.cost }
    {
        meter.give_back_each(self.cost, self.items.len().saturating_sub(len));
        self.items.truncate(len);
    }

    /// Keeps no entry.
    pub fn clear(&mut self, meter: &mut Meter<A>)
    where
        T: Drop,
        requires { cost_of self.old ≤ meter.old.held }
        ensures items { self.new.items ≡ [] }
        ensures cost { Shrinks meter.old meter.new (cost_of self.old) }
        ensures same_cost { self.new.cost ≡ self.old.cost }
    {
        self.truncate(meter, 0);
    }

    /// Gives all back.
    pub fn release(self, meter: &mut Meter<A>)
    where
        T: Drop,
        requires { cost_of self ≤ meter.old.held }
        ensures { Shrinks meter.old meter.new (cost_of self) }
    {
        meter.give_back_each(self.cost, self.items.len());
    }
}
