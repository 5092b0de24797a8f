//! The headers of open containers, which go in as the containers end.
ghost use Rattle.std.specs.Prelude.{◌≡◌, ◌+◌, ◌*◌, ◌-◌, ◌^◌, ◌<◌, ◌≤◌, ◌∷◌, ◌++◌, [], true, false, length, drop, slice_get, OnOk, OnErr, IfErr, IfSome, MatchOption};
ghost use Rattle.ion_meter.specs.Counts.{Grows, Shrinks, IsRefused};
ghost use Rattle.ion_binary.specs.Counting.{place_around};

use ion_meter::buf::Buf;
use ion_meter::fault::Fault;
use ion_meter::meter::Meter;
use ion_meter::table::Table;
use std::alloc::Allocator;
use std::marker::Model;

/// The cost of a header, in counted bytes: a container has two of them at most.
const ENTRY_COST: u64 = 8;

/// Where a header goes in, which is one of all that stands after the place, and its type code.
#[derive(Clone, Copy, Drop)]
pub(crate) struct HeaderPlace {
    pub place: u32,
    pub code: u8,
}

/// Headers that are missing, at 8 counted bytes each. A clause sees the list of them, the innermost
/// first.
#[derive(Drop)]
pub(crate) struct Headers<A: Allocator + Copy> {
    // The outermost first.
    table: Table<HeaderPlace, A>,
}

impl<A: Allocator + Copy> Model for Headers<A> {
    ghost use Rattle.std.specs.Prelude.{◌≡◌, List, reverse};
    ghost use Rattle.ion_binary.specs.declared.headers.HeaderPlace.{HeaderPlace};

    ghost Value = { List HeaderPlace };

    ghost view = { λ s. reverse s.table.items };

    ghost invariant = { λ s. s.table.cost ≡ 8 };
}

impl<A: Allocator + Copy> Headers<A> {
    /// No headers. It takes no memory.
    pub fn new(meter: &Meter<A>) -> Headers<A>
        ensures { result ≡ [] }
    {
        Headers {
            table: Table::new(meter, ENTRY_COST),
        }
    }

    /// How many there are.
    pub fn len(&self) -> usize
        ensures { result ≡ length self.now }
    {
        self.table.as_slice().len()
    }

    /// The place of the header that `k` others are around.
    pub fn place(&self, k: usize) -> u32
        requires { k < length self.now }
        ensures { result ≡ place_around self.now k }
    {
        self.table.as_slice()[k].place
    }

    /// The innermost.
    pub fn innermost(&self) -> Option<HeaderPlace>
        ensures { result ≡ slice_get self.now 0 }
    {
        self.table.as_slice().last().copied()
    }

    /// The one header that there is, where there is one alone.
    pub fn only(&self) -> Option<HeaderPlace>
        ensures { IfSome result (λ header. self.now ≡ header ∷ []) }
    {
        let headers = self.table.as_slice();
        if headers.len() != 1 {
            return None;
        }
        Some(headers[0])
    }

    /// The innermost, and the one around it.
    pub fn two(&self) -> Option<(HeaderPlace, HeaderPlace)>
        ensures { IfSome result (λ two. self.now ≡ two.0 ∷ (two.1 ∷ drop 2 self.now)) }
    {
        let headers = self.table.as_slice();
        let n = headers.len();
        if n < 2 {
            return None;
        }
        Some((headers[n - 1], headers[n - 2]))
    }

    /// Adds an innermost header, and octets to others, where there is room for both. Else it answers
    /// false, and nothing is changed.
    #[inline(always)]
    pub fn push_with(
        &mut self,
        others: &mut Buf<A>,
        meter: &mut Meter<A>,
        header: HeaderPlace,
        octets: &[u8],
    ) -> bool
        requires { meter.old.held + 8 + length octets.now < 2 ^ 63 }
        ensures headers { result ≡ true → self.new ≡ header ∷ self.old }
        ensures octets { result ≡ true → others.new ≡ others.old ++ octets.now }
        ensures cost { result ≡ true → Grows meter.old meter.new (8 + length octets.now) }
        ensures declines { result ≡ false → (self.new ≡ self.old) × (others.new ≡ others.old)
            × (meter.new ≡ meter.old) }
    {
        self.table.push_with(others, meter, header, octets)
    }

    /// Adds an innermost header.
    pub fn push(&mut self, meter: &mut Meter<A>, header: HeaderPlace) -> Result<(), Fault>
        requires room { meter.old.held + 8 < 2 ^ 63 }
        requires countable { meter.old.refused < 2 ^ 64 - 1 }
        ensures ok { OnOk result (self.new ≡ header ∷ self.old) }
        ensures cost { OnOk result (Grows meter.old meter.new 8) }
        ensures memory { IfErr result (λ e. e ≡ Fault.Memory) }
        ensures err { OnErr result (self.new ≡ self.old) }
        ensures refused { OnErr result (IsRefused meter.old meter.new) }
    {
        match self.table.push(meter, header) {
            Ok(()) => Ok(()),
            Err((_, fault)) => Err(fault),
        }
    }

    /// Takes the innermost off and hands it out.
    pub fn pop(&mut self, meter: &mut Meter<A>) -> Option<HeaderPlace>
        requires { 8 * length self.old ≤ meter.old.held }
        ensures items { MatchOption result ((self.old ≡ []) × (self.new ≡ []))
            (λ header. self.old ≡ header ∷ self.new) }
        ensures cost { MatchOption result (meter.new ≡ meter.old)
            (λ _. Shrinks meter.old meter.new 8) }
    {
        self.table.pop(meter)
    }

    /// Gives all back.
    pub fn release(self, meter: &mut Meter<A>)
        requires { 8 * length self ≤ meter.old.held }
        ensures { Shrinks meter.old meter.new (8 * length self) }
    {
        let Headers { table } = self;
        table.release(meter);
    }
}
