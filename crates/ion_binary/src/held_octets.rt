//! Octets of an open value, from which headers of containers that have ended may be missing.
ghost use Rattle.std.specs.Prelude.{◌≡◌, ◌+◌, ◌*◌, ◌-◌, ◌^◌, ◌<◌, ◌≤◌, ◌++◌, ◌∷◌, [], ℕ, true, false, length, take, drop, max, None, OnOk, OnErr, IfErr, IfSome};
ghost use Rattle.std.specs.List.{insert};
ghost use Rattle.ion_meter.specs.Additions.{added_cost};
ghost use Rattle.ion_meter.specs.Counts.{Grows, Shrinks, IsRefused};
ghost use Rattle.ion_meter.specs.Sinks.{IsPut};
ghost use Rattle.ion_symbols.specs.Output.{known_id, texts_cost};
ghost use Rattle.ion_value.specs.Shares.{fault_of};
ghost use Rattle.ion_binary.specs.Canonical.{header};
ghost use Rattle.ion_binary.specs.Held.{put_at};
ghost use Rattle.ion_binary.specs.Late.{AreLate, CanPutAt, CanPutHeader, FitsAt, Moved, PutsAt, PutsHeader, appended, late_octets, missing_of, nothing, spread};

use crate::header::header;
use crate::headers::{HeaderPlace, Headers};
use crate::put::put;
use arrayvec::ArrayVec;
use ion_meter::buf::{Added, Buf};
use ion_meter::device::Output;
use ion_meter::fault::Fault;
use ion_meter::meter::Meter;
use ion_meter::sink::Sink;
use ion_meter::table::Table;
use ion_symbols::output::OutSymbols;
use std::alloc::Allocator;
use std::marker::Model;

/// The cost of a late header, in counted bytes. It pays for the header's octets too.
const LATE_COST: u64 = 16;

/// From so many octets on a container's header is late: it would move all of them where it goes in.
pub(crate) const LONG: usize = 4096;

/// A header that is late: the offset where it goes in among the octets that are there, and how many
/// octets it is of.
#[derive(Clone, Copy, Drop)]
pub(crate) struct LateHeader {
    pub offset: u32,
    pub inside: u32,
    pub code: u8,
}

/// Octets, of which those of late headers are not there yet. A clause sees all of them, how many
/// headers are late, and the cost in counted bytes.
#[derive(Drop)]
pub(crate) struct HeldOctets<A: Allocator + Copy> {
    there: Buf<A>,
    // The last of the stream first. So each goes in at its offset after those that come first.
    late: Table<LateHeader, A>,
    // How many octets they have.
    missing: usize,
}

impl<A: Allocator + Copy> Model for HeldOctets<A> {
    ghost use Rattle.std.specs.Prelude.{◌≡◌, ◌+◌, ◌*◌, length};
    ghost use Rattle.ion_binary.specs.Late.{AreLate, Content, missing_of, spread};

    ghost Value = { Content };

    ghost view = { λ s. record {
      all = spread s.late.items s.there;
      late = length s.late.items;
      cost = length s.there + 16 * length s.late.items;
    } };

    ghost invariant = { λ s. (s.late.cost ≡ 16) × (s.missing ≡ missing_of s.late.items)
        × AreLate (length s.there) s.late.items };
}

impl<A: Allocator + Copy> HeldOctets<A> {
    /// No octets. It takes no memory.
    pub fn new(meter: &Meter<A>) -> HeldOctets<A>
        ensures { result ≡ nothing }
    {
        HeldOctets {
            there: Buf::new(meter),
            late: Table::new(meter, LATE_COST),
            missing: 0,
        }
    }

    /// How many there are.
    #[inline(always)]
    pub fn len(&self) -> usize
        requires { length self.now.all ≤ 2 ^ 32 }
        ensures { result ≡ length self.now.all }
    {
        self.there.as_slice().len() + self.missing
    }

    /// How many are there: the others are of late headers, which have six at most.
    #[inline(always)]
    pub fn there(&self) -> usize
        ensures least { length self.now.all ≤ result + 6 * self.now.late }
        ensures most { result ≤ length self.now.all }
    {
        self.there.as_slice().len()
    }

    /// How many headers are late.
    #[inline(always)]
    pub fn late(&self) -> usize
        ensures { result ≡ self.now.late }
    {
        self.late.as_slice().len()
    }

    /// Whether a header is late.
    #[inline(always)]
    pub fn is_late(&self) -> bool
        ensures { result ≡ false → self.now.late ≡ 0 }
    {
        if self.missing > 0 {
            return true;
        }
        false
    }

    /// All of them, where no header is late.
    #[inline(always)]
    pub fn all(&self) -> Option<&[u8]>
        ensures octets { IfSome result (λ octets. octets.now ≡ self.now.all) }
        ensures none { IfSome result (λ _. self.now.late ≡ 0) }
    {
        if self.missing > 0 {
            return None;
        }
        Some(self.there.as_slice())
    }

    /// Adds these octets at the end.
    pub fn extend(&mut self, meter: &mut Meter<A>, octets: &[u8]) -> Result<(), Fault>
        requires room { meter.old.held + length octets.now < 2 ^ 63 }
        requires countable { meter.old.refused < 2 ^ 64 - 1 }
        ensures ok { OnOk result (self.new ≡ appended self.old octets.now) }
        ensures cost { OnOk result (Grows meter.old meter.new (length octets.now)) }
        ensures memory { IfErr result (λ e. e ≡ Fault.Memory) }
        ensures err { OnErr result (self.new ≡ self.old) }
        ensures refused { OnErr result (IsRefused meter.old meter.new) }
    {
        self.there.extend(meter, octets)
    }

    /// Adds these octets at the end, and more after them, where there is room for all. Else it
    /// answers false, and nothing is changed.
    #[inline(always)]
    pub fn extend_if_room(&mut self, meter: &mut Meter<A>, octets: &[u8], more: &[u8]) -> bool
        requires { meter.old.held + (length octets.now + length more.now) < 2 ^ 63 }
        ensures octets { result ≡ true → self.new ≡ appended self.old (octets.now ++ more.now) }
        ensures cost { result ≡ true
            → Grows meter.old meter.new (length octets.now + length more.now) }
        ensures declines { result ≡ false → (self.new ≡ self.old) × (meter.new ≡ meter.old) }
    {
        self.there.extend_if_room(meter, octets, more)
    }

    /// Adds the first octets of a block, so many, as `Buf` does.
    #[inline(always)]
    pub fn extend_block_if_room(
        &mut self,
        meter: &mut Meter<A>,
        block: [u8; 8],
        count: usize,
        more: &[u8],
    ) -> bool
        requires within { count ≤ 8 }
        requires room { meter.old.held + (count + length more.now) < 2 ^ 63 }
        ensures octets { result ≡ true
            → self.new ≡ appended self.old (take count block ++ more.now) }
        ensures cost { result ≡ true → Grows meter.old meter.new (count + length more.now) }
        ensures declines { result ≡ false → (self.new ≡ self.old) × (meter.new ≡ meter.old) }
    {
        self.there.extend_block_if_room(meter, block, count, more)
    }

    /// Adds the first octets of two blocks, as `Buf` does.
    #[inline(always)]
    pub fn extend_blocks_if_room(
        &mut self,
        meter: &mut Meter<A>,
        block: [u8; 8],
        count: usize,
        other: [u8; 8],
        others: usize,
    ) -> bool
        requires within { count ≤ 8 }
        requires others_within { others ≤ 8 }
        requires room { meter.old.held + 16 < 2 ^ 63 }
        ensures octets { result ≡ true
            → self.new ≡ appended self.old (take count block ++ take others other) }
        ensures cost { result ≡ true → Grows meter.old meter.new (count + others) }
        ensures declines { result ≡ false → (self.new ≡ self.old) × (meter.new ≡ meter.old) }
    {
        self.there
            .extend_blocks_if_room(meter, block, count, other, others)
    }

    /// Adds octets at the end and an innermost header to others, as `Headers` does.
    #[inline(always)]
    pub fn extend_with(
        &mut self,
        headers: &mut Headers<A>,
        meter: &mut Meter<A>,
        header: HeaderPlace,
        octets: &[u8],
    ) -> bool
        requires { meter.old.held + 8 + length octets.now < 2 ^ 63 }
        ensures headers { result ≡ true → headers.new ≡ header ∷ headers.old }
        ensures octets { result ≡ true → self.new ≡ appended self.old octets.now }
        ensures cost { result ≡ true → Grows meter.old meter.new (8 + length octets.now) }
        ensures declines { result ≡ false → (headers.new ≡ headers.old) × (self.new ≡ self.old)
            × (meter.new ≡ meter.old) }
    {
        headers.push_with(&mut self.there, meter, header, octets)
    }

    /// Adds octets at the end and gives a text the next id, as `OutSymbols` does.
    #[inline(always)]
    pub fn give_next(
        &mut self,
        symbols: &mut OutSymbols<A>,
        meter: &mut Meter<A>,
        added: Added<'_>,
    ) -> bool
        requires room { meter.old.held ≤ 2 ^ 62 + 2 ^ 31 }
        requires short { length added.front.now + length added.rest.now ≤ 2 ^ 32 }
        ensures new { result ≡ true → known_id symbols.old.texts added.entry.bytes.now ≡ None }
        ensures texts { result ≡ true
            → symbols.new.texts ≡ symbols.old.texts ++ added.entry.bytes.now ∷ [] }
        ensures octets { result ≡ true → self.new
            ≡ appended self.old (added.entry.front.now ++ added.entry.rest.now) }
        ensures within { result ≡ true → texts_cost symbols.new.texts ≤ symbols.old.limit }
        ensures grows { result ≡ true → Grows meter.old meter.new (16 + added_cost added.entry) }
        ensures limit { symbols.new.limit ≡ symbols.old.limit }
        ensures probes { symbols.new.probes ≡ symbols.old.probes }
        ensures ordered { symbols.new.is_ordered ≡ symbols.old.is_ordered }
        ensures declines { result ≡ false → (symbols.new ≡ symbols.old) × (self.new ≡ self.old)
            × (meter.new ≡ meter.old) }
    {
        symbols.give_next(&mut self.there, meter, added)
    }

    /// Puts octets in at an offset.
    pub fn insert(
        &mut self,
        meter: &mut Meter<A>,
        offset: usize,
        octets: &[u8],
    ) -> Result<(), Fault>
        requires { CanPutAt self.old meter.old offset octets.now }
        ensures { PutsAt offset octets.now self.old self.new meter.old meter.new result }
    {
        match after_late(self.late.as_slice(), self.missing, offset) {
            Some(there) => self.there.insert_slice(meter, there, octets),
            None => self.settle_and_insert(meter, offset, octets),
        }
    }

    /// Puts the header in of all from an offset on, or lets it be late where that is long and fewer
    /// headers are than the most.
    pub fn head(
        &mut self,
        meter: &mut Meter<A>,
        most: usize,
        offset: usize,
        code: u8,
    ) -> Result<(), Fault>
        requires code { code < 16 }
        requires within { offset ≤ length self.old.all }
        requires short { length self.old.all < 2 ^ 32 }
        requires room { meter.old.held + (length self.old.all + 16) < 2 ^ 63 }
        requires held { self.old.cost ≤ meter.old.held }
        requires countable { meter.old.refused < 2 ^ 64 - 1 }
        ensures ok { OnOk result (self.new.all
            ≡ put_at offset (header code (length self.old.all - offset)) self.old.all) }
        ensures err { OnErr result (self.new.all ≡ self.old.all) }
        ensures late { self.new.late ≤ max self.old.late most }
        ensures moved { Moved self.old self.new meter.old meter.new (length self.old.all
            + length (header code (length self.old.all - offset))
            + 16 * max self.old.late most) (fault_of result) }
    {
        let inside = self.there.as_slice().len() + self.missing - offset;
        match waits(self.late.as_slice(), self.missing, most, offset, inside) {
            Some((after, there)) => {
                let late = LateHeader {
                    offset: there as u32,
                    inside: inside as u32,
                    code,
                };
                wait(&mut self.late, &mut self.missing, meter, after, late)
            }
            None => self.insert_head(meter, offset, code, inside),
        }
    }

    // Puts the header in of all from an offset on, so many.
    fn insert_head(
        &mut self,
        meter: &mut Meter<A>,
        offset: usize,
        code: u8,
        inside: usize,
    ) -> Result<(), Fault>
        requires code { code < 16 }
        requires inside { inside ≡ length self.old.all - offset }
        requires within { offset ≤ length self.old.all }
        requires short { length self.old.all < 2 ^ 32 }
        requires room { meter.old.held + (length self.old.all + 16) < 2 ^ 63 }
        requires held { self.old.cost ≤ meter.old.held }
        requires countable { meter.old.refused < 2 ^ 64 - 1 }
        ensures { PutsAt offset (header code (length self.old.all - offset))
            self.old self.new meter.old meter.new result }
    {
        let octets = header(code, inside as u64);
        self.insert(meter, offset, octets.as_slice())
    }

    /// Puts the header in of all from an offset on, where that is not long, no header after the offset
    /// is late, and there is room. Else it answers false, and nothing is changed.
    #[inline(always)]
    pub fn head_if_room(&mut self, meter: &mut Meter<A>, offset: usize, code: u8) -> bool
        requires code { code < 16 }
        requires within { offset ≤ length self.old.all }
        requires short { length self.old.all ≤ 2 ^ 32 }
        requires room { meter.old.held + 10 < 2 ^ 63 }
        ensures octets { result ≡ true → self.new.all
            ≡ put_at offset (header code (length self.old.all - offset)) self.old.all }
        ensures late { result ≡ true → self.new.late ≡ self.old.late }
        ensures costs { result ≡ true → self.new.cost
            ≡ self.old.cost + length (header code (length self.old.all - offset)) }
        ensures cost { result ≡ true → Grows meter.old meter.new
            (length (header code (length self.old.all - offset))) }
        ensures declines { result ≡ false → (self.new ≡ self.old) × (meter.new ≡ meter.old) }
    {
        let inside = self.there.as_slice().len() + self.missing - offset;
        if inside >= LONG {
            return false;
        }
        let Some(there) = after_late(self.late.as_slice(), self.missing, offset) else {
            return false;
        };
        insert_header(&mut self.there, meter, code, there, inside)
    }

    /// Puts all of them.
    pub fn put<O: Output>(&self, sink: &mut Sink<O, A>) -> Result<(), Fault>
        requires well { sink.old.fault ≡ None }
        ensures { IsPut O.Output sink.old sink.new result self.now.all }
    {
        put_pieces(sink, self.late.as_slice(), self.there.as_slice())
    }

    /// Puts the late headers in: what stands after the first of them moves once.
    #[inline(never)]
    pub fn settle(&mut self, meter: &mut Meter<A>) -> Result<(), Fault>
        requires short { length self.old.all ≤ 2 ^ 32 }
        requires room { meter.old.held + length self.old.all < 2 ^ 63 }
        requires held { self.old.cost ≤ meter.old.held }
        requires countable { meter.old.refused < 2 ^ 64 - 1 }
        ensures all { self.new.all ≡ self.old.all }
        ensures none { OnOk result (self.new.late ≡ 0) }
        ensures late { self.new.late ≤ self.old.late }
        ensures moved { Moved self.old self.new meter.old meter.new
            (length self.old.all + 16 * self.old.late) (fault_of result) }
    {
        let end = self.there.as_slice().len();
        if let Err(fault) = self.there.extend_zeros(meter, self.missing) {
            return Err(fault);
        }
        fill(&mut self.there, self.late.as_slice(), end, self.missing);
        self.late.clear(meter);
        self.missing = 0;
        Ok(())
    }

    /// Keeps none.
    #[inline(always)]
    pub fn clear(&mut self, meter: &mut Meter<A>)
        requires { self.old.cost ≤ meter.old.held }
        ensures nothing { self.new ≡ nothing }
        ensures cost { Shrinks meter.old meter.new self.old.cost }
    {
        self.there.clear(meter);
        if self.missing == 0 {
            return;
        }
        self.late.clear(meter);
        self.missing = 0;
    }

    /// Keeps none, where no header is late.
    #[inline(always)]
    pub fn clear_settled(&mut self, meter: &mut Meter<A>)
        requires none { self.old.late ≡ 0 }
        requires held { self.old.cost ≤ meter.old.held }
        ensures nothing { self.new ≡ nothing }
        ensures cost { Shrinks meter.old meter.new self.old.cost }
    {
        self.there.clear(meter);
    }

    /// Gives all back.
    pub fn release(self, meter: &mut Meter<A>)
        requires { self.cost ≤ meter.old.held }
        ensures { Shrinks meter.old meter.new self.cost }
    {
        let HeldOctets {
            there,
            late,
            missing: _,
        } = self;
        there.release(meter);
        late.release(meter);
    }

    // Puts octets in at an offset where late headers are after it.
    #[cold]
    #[inline(never)]
    fn settle_and_insert(
        &mut self,
        meter: &mut Meter<A>,
        offset: usize,
        octets: &[u8],
    ) -> Result<(), Fault>
        requires { CanPutAt self.old meter.old offset octets.now }
        ensures { PutsAt offset octets.now self.old self.new meter.old meter.new result }
    {
        if let Err(fault) = self.settle(meter) {
            return Err(fault);
        }
        self.insert_settled(meter, offset, octets)
    }

    // Puts octets in where no header is late.
    fn insert_settled(
        &mut self,
        meter: &mut Meter<A>,
        offset: usize,
        octets: &[u8],
    ) -> Result<(), Fault>
        requires none { self.old.late ≡ 0 }
        requires within { offset ≤ length self.old.all }
        requires room { meter.old.held + length octets.now < 2 ^ 63 }
        requires countable { meter.old.refused < 2 ^ 64 - 1 }
        ensures ok { OnOk result (self.new.all ≡ put_at offset octets.now self.old.all) }
        ensures none { self.new.late ≡ 0 }
        ensures cost { OnOk result (Grows meter.old meter.new (length octets.now)) }
        ensures costs { OnOk result (self.new.cost ≡ self.old.cost + length octets.now) }
        ensures memory { IfErr result (λ e. e ≡ Fault.Memory) }
        ensures err { OnErr result (self.new ≡ self.old) }
        ensures refused { OnErr result (IsRefused meter.old meter.new) }
    {
        match self.there.insert_slice(meter, offset, octets) {
            Ok(()) => Ok(()),
            Err(fault) => Err(fault),
        }
    }
}

// Lets a header be late, after which so many others are.
fn wait<A: Allocator + Copy>(
    late: &mut Table<LateHeader, A>,
    missing: &mut usize,
    meter: &mut Meter<A>,
    after: usize,
    header: LateHeader,
) -> Result<(), Fault>
    requires code { header.code < 16 }
    requires few { missing.old ≤ 2 ^ 32 }
    requires cost { late.old.cost ≡ 16 }
    requires within { after ≤ length late.old.items }
    requires room { meter.old.held + 16 < 2 ^ 63 }
    requires countable { meter.old.refused < 2 ^ 64 - 1 }
    ensures late { OnOk result (late.new.items ≡ insert late.old.items after header) }
    ensures missing { OnOk result (missing.new ≡ missing.old + length (late_octets header)) }
    ensures grows { OnOk result (Grows meter.old meter.new 16) }
    ensures cost { late.new.cost ≡ 16 }
    ensures memory { IfErr result (λ e. e ≡ Fault.Memory) }
    ensures err { OnErr result ((late.new ≡ late.old) × (missing.new ≡ missing.old)) }
    ensures refused { OnErr result (IsRefused meter.old meter.new) }
{
    let octets = headed(header).len();
    match late.insert(meter, after, header) {
        Ok(()) => {
            *missing += octets;
            Ok(())
        }
        Err((_, fault)) => Err(fault),
    }
}

// The octets of a late header.
fn headed(late: LateHeader) -> ArrayVec<u8, 10>
    requires { late.code < 16 }
    ensures { result.items ≡ late_octets late }
{
    header(late.code, u64::from(late.inside))
}

// The offset among the octets that are there of one among all, where each late header is before it.
#[inline(always)]
fn after_late(late: &[LateHeader], missing: usize, offset: usize) -> Option<usize>
    requires few { missing ≤ 2 ^ 32 }
    requires missing { missing ≡ missing_of late.now }
    requires late { (n : ℕ) × AreLate n late.now }
    ensures offset { IfSome result (λ there. there + missing ≡ offset) }
    ensures late { IfSome result (λ there. AreLate there late.now) }
{
    if late.is_empty() {
        return Some(offset);
    }
    if offset < missing + late[0].offset as usize {
        return None;
    }
    Some(offset - missing)
}

// How many late headers are after that of the octets from an offset on, so many, and its offset among
// those that are there, where it should be late.
fn waits(
    late: &[LateHeader],
    missing: usize,
    most: usize,
    offset: usize,
    inside: usize,
) -> Option<(usize, usize)>
    requires few { missing ≤ 2 ^ 32 }
    requires missing { missing ≡ missing_of late.now }
    requires late { (n : ℕ) × AreLate n late.now }
    ensures most { IfSome result (λ _. length late.now < most) }
    ensures offset { IfSome result (λ at. at.1 + missing_of (drop at.0 late.now) ≡ offset) }
    ensures fits { (n : ℕ) → AreLate n late.now → offset ≤ n + missing
        → IfSome result (λ at. FitsAt n at.1 at.0 late.now) }
{
    if inside < LONG || late.len() >= most {
        return None;
    }
    match after_late(late, missing, offset) {
        Some(there) => Some((0, there)),
        None => find(late, offset),
    }
}

// How many late headers are after an offset among all octets, and the offset among those that are
// there. None within a late header.
fn find(late: &[LateHeader], offset: usize) -> Option<(usize, usize)>
    requires late { (n : ℕ) × AreLate n late.now }
    ensures offset { IfSome result (λ at. at.1 + missing_of (drop at.0 late.now) ≡ offset) }
    ensures fits { (n : ℕ) → AreLate n late.now → offset ≤ n + missing_of late.now
        → IfSome result (λ at. FitsAt n at.1 at.0 late.now) }
{
    let (mut after, mut there) = (late.len(), offset);
    while after > 0 {
        let next = late[after - 1];
        if there <= next.offset as usize {
            return Some((after, there));
        }
        let octets = headed(next).len();
        if there < next.offset as usize + octets {
            return None;
        }
        there -= octets;
        after -= 1;
    }
    Some((0, there))
}

// Puts octets and the late headers between them.
fn put_pieces<O: Output, A: Allocator + Copy>(
    sink: &mut Sink<O, A>,
    late: &[LateHeader],
    octets: &[u8],
) -> Result<(), Fault>
    requires well { sink.old.fault ≡ None }
    requires late { AreLate (length octets.now) late.now }
    ensures { IsPut O.Output sink.old sink.new result (spread late.now octets.now) }
{
    let (mut left, mut from) = (late.len(), 0);
    while left > 0 {
        let next = late[left - 1];
        let offset = next.offset as usize;
        if let Err(fault) = put(sink, &octets[from..offset]) {
            return Err(fault);
        }
        let octets = headed(next);
        if let Err(fault) = put(sink, octets.as_slice()) {
            return Err(fault);
        }
        from = offset;
        left -= 1;
    }
    put(sink, &octets[from..])
}

// Moves octets, so many, before a gap apart, and puts the late headers between them, which fill it.
fn fill<A: Allocator + Copy>(octets: &mut Buf<A>, late: &[LateHeader], there: usize, gap: usize)
    requires late { AreLate there late.now }
    requires whole { length octets.old ≡ there + gap }
    requires gap { gap ≡ missing_of late.now }
    ensures { octets.new ≡ spread late.now (take there octets.old) }
{
    let (mut end, mut left) = (there, gap);
    for i in 0..late.len() {
        let next = late[i];
        let offset = next.offset as usize;
        let header = headed(next);
        octets.move_after(offset, end, left, header.as_slice());
        end = offset;
        left -= header.len();
    }
}

// Puts the header of a body of so many octets in at a place, where there is room for it. Else it
// answers false, and nothing is changed.
#[inline(always)]
fn insert_header<A: Allocator + Copy>(
    octets: &mut Buf<A>,
    meter: &mut Meter<A>,
    code: u8,
    place: usize,
    inside: usize,
) -> bool
    requires { CanPutHeader octets.old meter.old code place inside }
    ensures { PutsHeader code place inside octets.old octets.new meter.old meter.new result }
{
    if inside < 14 {
        let one = [16 * code + inside as u8];
        return octets.insert_if_room(meter, place, &one);
    }
    if inside < 128 {
        let two = [16 * code + 14, 128 + inside as u8];
        return octets.insert_if_room(meter, place, &two);
    }
    insert_long_header(octets, meter, code, place, inside)
}

// Puts any header of a body of so many octets in at a place, where there is room for it.
#[inline(never)]
fn insert_long_header<A: Allocator + Copy>(
    octets: &mut Buf<A>,
    meter: &mut Meter<A>,
    code: u8,
    place: usize,
    inside: usize,
) -> bool
    requires { CanPutHeader octets.old meter.old code place inside }
    ensures { PutsHeader code place inside octets.old octets.new meter.old meter.new result }
{
    let all = header(code, inside as u64);
    octets.insert_if_room(meter, place, all.as_slice())
}
