//! Entries whose every growth is counted, at a cost of 16 each.
ghost use Rattle.std.specs.Prelude.{◌≡◌, ◌+◌, ◌*◌, ◌-◌, ◌^◌, ◌<◌, ◌≤◌, ◌++◌, ◌∷◌, [], true, false, length, take, slice_set, OnOk, OnErr, IfErr, MatchOption};
ghost use Rattle.std.specs.List.{insert};
ghost use Rattle.ion_meter.specs.Counts.{Grows, Shrinks, IsRefused};

use crate::fault::Fault;
use crate::meter::Meter;
use crate::table::Table;
use std::alloc::Allocator;
use std::marker::Model;

/// The cost of an entry, in counted bytes.
const ENTRY_COST: u64 = 16;

/// Counted entries, at a cost of 16 each. A clause sees the list of them.
///
/// A growth that the allocator refuses answers `Memory` and changes nothing but the meter's
/// `refused`. One that is dropped without `release` leaves the meter's `held` as it was.
#[derive(Drop)]
pub struct Stack<T, A: Allocator + Copy> {
    table: Table<T, A>,
}

impl<T, A: Allocator + Copy> Model for Stack<T, A> {
    ghost use Rattle.std.specs.Prelude.{◌≡◌, List};

    ghost Value = { List T };

    ghost view = { λ s. s.table.items };

    ghost invariant = { λ s. s.table.cost ≡ 16 };
}

impl<T, A: Allocator + Copy> Stack<T, A> {
    /// No entries. It takes no memory.
    pub fn new(meter: &Meter<A>) -> Stack<T, A>
        ensures { result ≡ [] }
    {
        Stack {
            table: Table::new(meter, ENTRY_COST),
        }
    }

    /// The entries.
    pub fn as_slice(&self) -> &[T]
        ensures { result.now ≡ self.now }
    {
        self.table.as_slice()
    }

    /// Adds an entry, or hands it back where there is no memory.
    pub fn push(&mut self, meter: &mut Meter<A>, entry: T) -> Result<(), (T, Fault)>
        requires room { meter.old.held + 16 < 2 ^ 63 }
        requires countable { meter.old.refused < 2 ^ 64 - 1 }
        ensures ok { OnOk result (self.new ≡ self.old ++ entry ∷ []) }
        ensures cost { OnOk result (Grows meter.old meter.new 16) }
        ensures returned { IfErr result (λ e. (e.0 ≡ entry) × (e.1 ≡ Fault.Memory)) }
        ensures err { OnErr result (self.new ≡ self.old) }
        ensures refused { OnErr result (IsRefused meter.old meter.new) }
    {
        self.table.push(meter, entry)
    }

    /// Adds an entry where there is room for it without a growth. False where there is none, and then
    /// nothing is changed.
    #[inline(always)]
    pub fn push_within(&mut self, meter: &mut Meter<A>, entry: T) -> bool
    where
        T: Copy,
        requires room { meter.old.held + 16 < 2 ^ 63 }
        ensures ok { result ≡ true → self.new ≡ self.old ++ entry ∷ [] }
        ensures cost { result ≡ true → Grows meter.old meter.new 16 }
        ensures declines { result ≡ false → (self.new ≡ self.old) × (meter.new ≡ meter.old) }
    {
        self.table.push_within(meter, entry)
    }

    /// Adds copies of these entries at the end.
    pub fn extend(&mut self, meter: &mut Meter<A>, entries: &[T]) -> Result<(), Fault>
    where
        T: Copy,
        requires room { meter.old.held + 16 * length entries.now < 2 ^ 63 }
        requires countable { meter.old.refused < 2 ^ 64 - 1 }
        ensures ok { OnOk result (self.new ≡ self.old ++ entries.now) }
        ensures cost { OnOk result (Grows meter.old meter.new (16 * length entries.now)) }
        ensures memory { IfErr result (λ e. e ≡ Fault.Memory) }
        ensures err { OnErr result (self.new ≡ self.old) }
        ensures refused { OnErr result (IsRefused meter.old meter.new) }
    {
        self.table.extend(meter, entries)
    }

    /// Puts an entry in at a place, counted from 0, or hands it back where there is no memory.
    pub fn insert(&mut self, meter: &mut Meter<A>, place: usize, entry: T) -> Result<(), (T, Fault)>
        requires within { place ≤ length self.old }
        requires room { meter.old.held + 16 < 2 ^ 63 }
        requires countable { meter.old.refused < 2 ^ 64 - 1 }
        ensures ok { OnOk result (self.new ≡ insert self.old place entry) }
        ensures cost { OnOk result (Grows meter.old meter.new 16) }
        ensures returned { IfErr result (λ e. (e.0 ≡ entry) × (e.1 ≡ Fault.Memory)) }
        ensures err { OnErr result (self.new ≡ self.old) }
        ensures refused { OnErr result (IsRefused meter.old meter.new) }
    {
        self.table.insert(meter, place, entry)
    }

    /// Writes an entry over the one at a place, counted from 0.
    pub fn set(&mut self, place: usize, entry: T)
    where
        T: Drop,
        requires { place < length self.old }
        ensures { self.new ≡ slice_set self.old place entry }
    {
        self.table.set(place, entry);
    }

    /// Keeps the first `len` entries.
    pub fn truncate(&mut self, meter: &mut Meter<A>, len: usize)
    where
        T: Drop,
        requires { 16 * (length self.old - len) ≤ meter.old.held }
        ensures items { self.new ≡ take len self.old }
        ensures cost { Shrinks meter.old meter.new (16 * (length self.old - len)) }
    {
        self.table.truncate(meter, len);
    }

    /// Keeps no entry.
    pub fn clear(&mut self, meter: &mut Meter<A>)
    where
        T: Drop,
        requires { 16 * length self.old ≤ meter.old.held }
        ensures items { self.new ≡ [] }
        ensures cost { Shrinks meter.old meter.new (16 * length self.old) }
    {
        self.table.clear(meter);
    }

    /// Takes the last entry off and hands it out.
    pub fn pop(&mut self, meter: &mut Meter<A>) -> Option<T>
        requires { 16 * length self.old ≤ meter.old.held }
        ensures items { MatchOption result ((self.old ≡ []) × (self.new ≡ []))
            (λ entry. self.old ≡ self.new ++ entry ∷ []) }
        ensures cost { MatchOption result (meter.new ≡ meter.old)
            (λ _. Shrinks meter.old meter.new 16) }
    {
        self.table.pop(meter)
    }

    /// Gives all back.
    pub fn release(self, meter: &mut Meter<A>)
    where
        T: Drop,
        requires { 16 * length self ≤ meter.old.held }
        ensures { Shrinks meter.old meter.new (16 * length self) }
    {
        let Stack { table } = self;
        table.release(meter);
    }
}
