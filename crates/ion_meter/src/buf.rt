//! Bytes whose every growth is counted.
ghost use Rattle.std.specs.Prelude.{◌≡◌, true, false, ◌+◌, ◌-◌, ◌^◌, ◌<◌, ◌≤◌, ◌++◌, ◌∷◌, [], length, take, drop, replicate, slice_set, OnOk, OnErr, IfErr, MatchOption};
ghost use Rattle.std.specs.List.{insert};
ghost use Rattle.ion_meter.specs.Counts.{Grows, Shrinks, IsRefused};
ghost use Rattle.ion_meter.specs.Additions.{added_cost};

use crate::fault::Fault;
use crate::meter::Meter;
use crate::roomy::Roomy;
use std::alloc::Allocator;
use std::marker::Model;

/// Counted bytes, at a cost of 1 each. A clause sees the list of them.
///
/// A growth that the allocator refuses answers `Memory` and changes nothing but the meter's
/// `refused`. One that is dropped without `release` leaves the meter's `held` as it was.
#[derive(Drop)]
pub struct Buf<A: Allocator + Copy> {
    roomy: Roomy<A>,
}

/// Bytes that are added to a list, and others, in two parts, that are added to a second one.
#[derive(Clone, Copy)]
pub struct Added<'a> {
    /// Those of the first.
    pub bytes: &'a [u8],
    /// Those of the second.
    pub front: &'a [u8],
    /// And what stands after them.
    pub rest: &'a [u8],
}

impl<A: Allocator + Copy> Model for Buf<A> {
    ghost use Rattle.std.specs.Prelude.{List, ℕ};

    ghost Value = { List ℕ };

    ghost view = { λ b. b.roomy.bytes };
}

impl<A: Allocator + Copy> Buf<A> {
    /// No bytes. It takes no memory.
    pub fn new(meter: &Meter<A>) -> Buf<A>
        ensures { result ≡ [] }
    {
        Buf {
            roomy: Roomy::new(meter),
        }
    }

    /// The bytes.
    #[inline(always)]
    pub fn as_slice(&self) -> &[u8]
        ensures { result.now ≡ self.now }
    {
        self.roomy.as_slice()
    }

    /// Adds a byte at the end.
    pub fn push(&mut self, meter: &mut Meter<A>, byte: u8) -> Result<(), Fault>
        requires room { meter.old.held + 1 < 2 ^ 63 }
        requires countable { meter.old.refused < 2 ^ 64 - 1 }
        ensures ok { OnOk result (self.new ≡ self.old ++ byte ∷ []) }
        ensures cost { OnOk result (Grows meter.old meter.new 1) }
        ensures memory { IfErr result (λ e. e ≡ Fault.Memory) }
        ensures err { OnErr result (self.new ≡ self.old) }
        ensures refused { OnErr result (IsRefused meter.old meter.new) }
    {
        if !self.roomy.make_room(1) {
            meter.refuse();
            return Err(Fault::Memory);
        }
        self.roomy.put_byte(byte);
        meter.add(1);
        Ok(())
    }

    /// Adds these bytes at the end.
    pub fn extend(&mut self, meter: &mut Meter<A>, bytes: &[u8]) -> Result<(), Fault>
        requires room { meter.old.held + length bytes.now < 2 ^ 63 }
        requires countable { meter.old.refused < 2 ^ 64 - 1 }
        ensures ok { OnOk result (self.new ≡ self.old ++ bytes.now) }
        ensures cost { OnOk result (Grows meter.old meter.new (length bytes.now)) }
        ensures memory { IfErr result (λ e. e ≡ Fault.Memory) }
        ensures err { OnErr result (self.new ≡ self.old) }
        ensures refused { OnErr result (IsRefused meter.old meter.new) }
    {
        if !self.roomy.make_room(bytes.len()) {
            meter.refuse();
            return Err(Fault::Memory);
        }
        self.roomy.put(bytes);
        meter.add(bytes.len() as u64);
        Ok(())
    }

    /// Adds so many zeros at the end.
    pub fn extend_zeros(&mut self, meter: &mut Meter<A>, count: usize) -> Result<(), Fault>
        requires room { meter.old.held + count < 2 ^ 63 }
        requires countable { meter.old.refused < 2 ^ 64 - 1 }
        ensures ok { OnOk result (self.new ≡ self.old ++ replicate count 0) }
        ensures cost { OnOk result (Grows meter.old meter.new count) }
        ensures memory { IfErr result (λ e. e ≡ Fault.Memory) }
        ensures err { OnErr result (self.new ≡ self.old) }
        ensures refused { OnErr result (IsRefused meter.old meter.new) }
    {
        if !self.roomy.make_room(count) {
            meter.refuse();
            return Err(Fault::Memory);
        }
        self.roomy.put_zeros(count);
        meter.add(count as u64);
        Ok(())
    }

    /// Adds these bytes at the end, and more after them, where there is room for all. Else it
    /// answers false, and nothing is changed.
    #[inline(always)]
    pub fn extend_if_room(&mut self, meter: &mut Meter<A>, bytes: &[u8], more: &[u8]) -> bool
        requires { meter.old.held + (length bytes.now + length more.now) < 2 ^ 63 }
        ensures bytes { result ≡ true → self.new ≡ self.old ++ (bytes.now ++ more.now) }
        ensures cost { result ≡ true
            → Grows meter.old meter.new (length bytes.now + length more.now) }
        ensures declines { result ≡ false → (self.new ≡ self.old) × (meter.new ≡ meter.old) }
    {
        let room = self.roomy.room();
        if room < bytes.len() || room - bytes.len() < more.len() {
            return false;
        }
        self.roomy.put(bytes);
        self.roomy.put(more);
        meter.add((bytes.len() + more.len()) as u64);
        true
    }

    /// Adds bytes to these and to others, where there is room for all. Else it answers false, and nothing
    /// is changed.
    #[inline(always)]
    pub(crate) fn extend_both_if_room(
        &mut self,
        others: &mut Buf<A>,
        meter: &mut Meter<A>,
        added: Added<'_>,
    ) -> bool
        requires { meter.old.held + added_cost added < 2 ^ 63 }
        ensures bytes { result ≡ true → self.new ≡ self.old ++ added.entry.bytes.now }
        ensures others { result ≡ true
            → others.new ≡ others.old ++ (added.entry.front.now ++ added.entry.rest.now) }
        ensures cost { result ≡ true → Grows meter.old meter.new (added_cost added.entry) }
        ensures declines { result ≡ false → (self.new ≡ self.old) × (others.new ≡ others.old)
            × (meter.new ≡ meter.old) }
    {
        if self.roomy.room() < added.bytes.len() {
            return false;
        }
        if !others.extend_if_room(meter, added.front, added.rest) {
            return false;
        }
        self.roomy.put(added.bytes);
        meter.add(added.bytes.len() as u64);
        true
    }

    /// Adds the first bytes of a block at the end, so many, and more after them, where there is
    /// room for the whole block and the others. Else it answers false, and nothing is changed.
    #[inline(always)]
    pub fn extend_block_if_room(
        &mut self,
        meter: &mut Meter<A>,
        block: [u8; 8],
        count: usize,
        more: &[u8],
    ) -> bool
        requires within { count ≤ 8 }
        requires room { meter.old.held + (count + length more.now) < 2 ^ 63 }
        ensures bytes { result ≡ true → self.new ≡ self.old ++ (take count block ++ more.now) }
        ensures cost { result ≡ true → Grows meter.old meter.new (count + length more.now) }
        ensures declines { result ≡ false → (self.new ≡ self.old) × (meter.new ≡ meter.old) }
    {
        let room = self.roomy.room();
        if room < 8 || room - 8 < more.len() {
            return false;
        }
        self.roomy.put_block(block, count);
        self.roomy.put(more);
        meter.add((count + more.len()) as u64);
        true
    }

    /// Adds the first bytes of two blocks at the end, where there is room for both whole blocks.
    #[inline(always)]
    pub fn extend_blocks_if_room(
        &mut self,
        meter: &mut Meter<A>,
        block: [u8; 8],
        count: usize,
        other: [u8; 8],
        others: usize,
    ) -> bool
        requires within { count ≤ 8 }
        requires others_within { others ≤ 8 }
        requires room { meter.old.held + 16 < 2 ^ 63 }
        ensures bytes { result ≡ true
            → self.new ≡ self.old ++ (take count block ++ take others other) }
        ensures cost { result ≡ true → Grows meter.old meter.new (count + others) }
        ensures declines { result ≡ false → (self.new ≡ self.old) × (meter.new ≡ meter.old) }
    {
        if self.roomy.room() < 16 {
            return false;
        }
        self.roomy.put_block(block, count);
        self.roomy.put_block(other, others);
        meter.add((count + others) as u64);
        true
    }

    /// Puts these bytes in at a place, counted from 0, where there is room for them. Else it answers
    /// false, and nothing is changed.
    #[inline(always)]
    pub fn insert_if_room(&mut self, meter: &mut Meter<A>, place: usize, bytes: &[u8]) -> bool
        requires within { place ≤ length self.old }
        requires room { meter.old.held + length bytes.now < 2 ^ 63 }
        ensures bytes { result ≡ true → self.new
            ≡ take place self.old ++ (bytes.now ++ drop place self.old) }
        ensures cost { result ≡ true → Grows meter.old meter.new (length bytes.now) }
        ensures declines { result ≡ false → (self.new ≡ self.old) × (meter.new ≡ meter.old) }
    {
        if self.roomy.room() < bytes.len() {
            return false;
        }
        self.roomy.put_at(place, bytes);
        meter.add(bytes.len() as u64);
        true
    }

    /// Puts a byte in at a place, counted from 0.
    pub fn insert(&mut self, meter: &mut Meter<A>, place: usize, byte: u8) -> Result<(), Fault>
        requires within { place ≤ length self.old }
        requires room { meter.old.held + 1 < 2 ^ 63 }
        requires countable { meter.old.refused < 2 ^ 64 - 1 }
        ensures ok { OnOk result (self.new ≡ insert self.old place byte) }
        ensures cost { OnOk result (Grows meter.old meter.new 1) }
        ensures memory { IfErr result (λ e. e ≡ Fault.Memory) }
        ensures err { OnErr result (self.new ≡ self.old) }
        ensures refused { OnErr result (IsRefused meter.old meter.new) }
    {
        if !self.roomy.make_room(1) {
            meter.refuse();
            return Err(Fault::Memory);
        }
        self.roomy.put_at(place, &[byte]);
        meter.add(1);
        Ok(())
    }

    /// Puts these bytes in at a place, counted from 0: what stood from there on moves once.
    pub fn insert_slice(
        &mut self,
        meter: &mut Meter<A>,
        place: usize,
        bytes: &[u8],
    ) -> Result<(), Fault>
        requires within { place ≤ length self.old }
        requires room { meter.old.held + length bytes.now < 2 ^ 63 }
        requires countable { meter.old.refused < 2 ^ 64 - 1 }
        ensures ok { OnOk result (self.new
            ≡ take place self.old ++ (bytes.now ++ drop place self.old)) }
        ensures cost { OnOk result (Grows meter.old meter.new (length bytes.now)) }
        ensures memory { IfErr result (λ e. e ≡ Fault.Memory) }
        ensures err { OnErr result (self.new ≡ self.old) }
        ensures refused { OnErr result (IsRefused meter.old meter.new) }
    {
        if !self.roomy.make_room(bytes.len()) {
            meter.refuse();
            return Err(Fault::Memory);
        }
        self.roomy.put_at(place, bytes);
        meter.add(bytes.len() as u64);
        Ok(())
    }

    /// Moves the bytes from a place up to an end, counted from 0, by a gap that stands after them, and
    /// writes these bytes right before where they come to stand.
    pub fn move_after(&mut self, place: usize, end: usize, gap: usize, bytes: &[u8])
        requires order { place ≤ end }
        requires within { end + gap ≤ length self.old }
        requires short { length bytes.now ≤ gap }
        ensures { self.new ≡ take (place + gap - length bytes.now) self.old ++ (bytes.now
            ++ (take (end - place) (drop place self.old) ++ drop (end + gap) self.old)) }
    {
        self.roomy.move_after(place, end, gap, bytes);
    }

    /// Writes a byte over the one at a place, counted from 0.
    pub fn set(&mut self, place: usize, byte: u8)
        requires { place < length self.old }
        ensures { self.new ≡ slice_set self.old place byte }
    {
        self.roomy.set(place, byte);
    }

    /// Takes the last byte off and hands it out.
    pub fn pop(&mut self, meter: &mut Meter<A>) -> Option<u8>
        requires { length self.old ≤ meter.old.held }
        ensures bytes { MatchOption result ((self.old ≡ []) × (self.new ≡ []))
            (λ byte. self.old ≡ self.new ++ byte ∷ []) }
        ensures cost { MatchOption result (meter.new ≡ meter.old)
            (λ _. Shrinks meter.old meter.new 1) }
    {
        let bytes = self.roomy.as_slice();
        let Some(last) = bytes.last().copied() else {
            return None;
        };
        let left = bytes.len() - 1;
        self.roomy.truncate(left);
        meter.give_back(1);
        Some(last)
    }

    /// Keeps the first `len` bytes.
    pub fn truncate(&mut self, meter: &mut Meter<A>, len: usize)
        requires { length self.old - len ≤ meter.old.held }
        ensures bytes { self.new ≡ take len self.old }
        ensures cost { Shrinks meter.old meter.new (length self.old - len) }
    {
        let before = self.roomy.len();
        self.roomy.truncate(len);
        meter.give_back((before - self.roomy.len()) as u64);
    }

    /// Keeps no byte.
    pub fn clear(&mut self, meter: &mut Meter<A>)
        requires { length self.old ≤ meter.old.held }
        ensures bytes { self.new ≡ [] }
        ensures cost { Shrinks meter.old meter.new (length self.old) }
    {
        self.truncate(meter, 0);
    }

    /// Gives all back.
    pub fn release(self, meter: &mut Meter<A>)
        requires { length self ≤ meter.old.held }
        ensures { Shrinks meter.old meter.new (length self) }
    {
        meter.give_back(self.roomy.len() as u64);
    }
}
