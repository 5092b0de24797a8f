//! The value at top level that is being written.
ghost use Rattle.std.specs.Prelude.{◌≡◌, ◌≢◌, ◌+◌, ◌-◌, ◌*◌, ◌^◌, ◌<◌, ◌≤◌, ℕ, List, true, false, [], ◌++◌, length, drop, slice_index, take, Ok, OnOk, OnErr, IfErr, None};
ghost use Rattle.ion_meter.specs.Counts.{IsRefused, Shrinks};
ghost use Rattle.ion_meter.specs.declared.limits.Limits.{Limits};
ghost use Rattle.ion_value.specs.Items.{raw_head};
ghost use Rattle.ion_value.specs.Shares.{fault_of};
ghost use Rattle.ion_value.specs.Value.{UserSymbol};
ghost use Rattle.ion_binary.specs.Counting.{IsCounted, IsCountedTo, AreReached, content_around, counted_length, cut, sizes_from};
ghost use Rattle.ion_binary.specs.Canonical.{header};
ghost use Rattle.ion_binary.specs.Grammar.{type_code};
ghost use Rattle.ion_binary.specs.Held.{begun_at, begun_headers, closed_in, headers_around, innermost_in, moved_headers, moved_octets, size_of, whole_at, wrapper_headers};
ghost use Rattle.ion_binary.specs.ItemOctets.{head_name, user_head};
ghost use Rattle.ion_binary.specs.Late.{CanPutAt, IsCosted, PutsAt, appended, nothing};
ghost use Rattle.ion_meter.specs.Limits.{AreChecked};
ghost use Rattle.ion_binary.specs.Opening.{AddsOctets, Begins, CanAdd, CanStep, HasRoom, IsOpen, IsOpenTo, IsWithin, MayFollow, Raises, Stepped, both_octets, name_octets, open_cost};

mod plain;

use crate::front::Front;
use crate::headers::{HeaderPlace, Headers};
use crate::held_octets::HeldOctets;
use crate::opening::{WRAPPER, wrapper};
use crate::scalar::{Octets, spell};
use ion_meter::fault::Fault;
use ion_meter::limits::Limits;
use ion_meter::meter::Meter;
use ion_value::ion_type::Kind;
use ion_value::item::Head;
use ion_value::var::var_uint_write;
use std::alloc::Allocator;

/// From so many octets on a header has two octets, three, four, five and six.
const THRESHOLDS: [u64; 5] = [14, 128, 16_384, 2_097_152, 268_435_456];

/// So many headers are late at most: to find one among them has to cost little.
const MOST_LATE: usize = 4096;

/// More than six octets for each of the most headers that are missing.
const HEADERS_MOST: u64 = 1 << 20;

/// The value at top level that is open: its octets without the headers of its open containers, and
/// these headers.
///
/// A header is of all that stands after its place, so the outermost are the longest: it is enough
/// to count how many of them have two octets or more, three or more, and so on.
#[derive(Drop)]
pub(crate) struct OpenValue<A: Allocator + Copy> {
    pub octets: HeldOctets<A>,
    pub headers: Headers<A>,
    pub counts: [u32; 5],
    // How many octets may be there for the value to be surely within its limit beside the headers that
    // are missing, and `HEADERS_MOST` more. It may be too low.
    pub room: u64,
}

impl<A: Allocator + Copy> OpenValue<A> {
    /// Nothing is open. It takes no memory.
    pub fn new(meter: &Meter<A>, limits: Limits) -> OpenValue<A>
        requires checked { AreChecked limits }
        ensures room { HasRoom limits result }
        ensures nothing { (result.octets ≡ nothing) × (result.headers ≡ []) }
        ensures open { IsOpen limits result }
    {
        OpenValue {
            octets: HeldOctets::new(meter),
            headers: Headers::new(meter),
            counts: [0; 5],
            room: limits.value + HEADERS_MOST,
        }
    }

    /// Gives all back.
    pub fn release(self, meter: &mut Meter<A>)
        requires { open_cost self ≤ meter.old.held }
        ensures { Shrinks meter.old meter.new (open_cost self) }
    {
        let OpenValue {
            octets,
            headers,
            counts: _,
            room: _,
        } = self;
        octets.release(meter);
        headers.release(meter);
    }

    // The octets of the headers that `k` or more others are around.
    fn sizes_from(&self, k: usize) -> u64
        requires few { length self.now.headers ≤ 2 ^ 31 }
        ensures sizes { result ≡ sizes_from self.now.counts (length self.now.headers) k }
        ensures small { result ≤ 2 ^ 35 }
    {
        let mut sizes = self.headers.len().saturating_sub(k) as u64;
        for count in &self.counts {
            sizes += (*count as usize).saturating_sub(k) as u64;
        }
        sizes
    }

    // The number of octets that the header is of that `k` others are around, where `n` octets are
    // there.
    fn content(&self, k: usize, n: u64) -> u64
        requires few { length self.now.headers ≤ 2 ^ 31 }
        requires some { k < length self.now.headers }
        requires short { n ≤ 2 ^ 32 }
        ensures { result ≡ content_around self.now.counts n self.now.headers k }
    {
        n.saturating_sub(self.headers.place(k) as u64) + self.sizes_from(k + 1)
    }

    // Counts the headers that reach a threshold where `n` octets are there.
    fn raise(&mut self, level: usize, n: u64)
        requires level { level < 5 }
        requires counted { IsCountedTo level self.old.counts n self.old.headers }
        requires few { length self.old.headers ≤ 2 ^ 31 }
        requires short { n ≤ 2 ^ 32 }
        ensures counted { IsCountedTo (level + 1) self.new.counts n self.new.headers }
        ensures headers { self.new.headers ≡ self.old.headers }
        ensures octets { self.new.octets ≡ self.old.octets }
        ensures room { self.new.room ≡ self.old.room }
    {
        let most = match level.checked_sub(1) {
            None => self.headers.len() as u32,
            Some(before) => self.counts[before],
        };
        'raising: while self.counts[level] < most {
            if self.content(self.counts[level] as usize, n) < THRESHOLDS[level] {
                return;
            }
            self.counts[level] += 1;
        }
    }

    // The closed size where `n` octets are there, by which headers may be longer.
    fn closed_size(&mut self, n: u64) -> u64
        requires reached { AreReached self.old.counts n self.old.headers }
        requires few { length self.old.headers ≤ 2 ^ 31 }
        requires short { n ≤ 2 ^ 32 }
        ensures counted { IsCounted self.new.counts n self.new.headers }
        ensures size { result ≡ counted_length self.new.counts n self.new.headers }
        ensures headers { self.new.headers ≡ self.old.headers }
        ensures octets { self.new.octets ≡ self.old.octets }
        ensures room { self.new.room ≡ self.old.room }
    {
        if self.headers.len() == 0 {
            return n;
        }
        for level in 0..5 {
            self.raise(level, n);
        }
        n + self.sizes_from(0)
    }

    // No more headers are counted than there are.
    fn cut(&mut self)
        requires few { length self.old.headers ≤ 2 ^ 31 }
        requires descend { (b c : ℕ) → b < c
            → slice_index self.old.counts c ≤ slice_index self.old.counts b }
        ensures counts { self.new.counts ≡ cut (length self.old.headers) self.old.counts }
        ensures headers { self.new.headers ≡ self.old.headers }
        ensures octets { self.new.octets ≡ self.old.octets }
        ensures room { self.new.room ≡ self.old.room }
    {
        let total = self.headers.len() as u32;
        // The first is the highest, and mostly it is low enough.
        if self.counts[0] <= total {
            return;
        }
        for count in &mut self.counts {
            *count = (*count).min(total);
        }
    }

    // How many headers may be late beside those of open containers.
    fn most_late(&self, limits: Limits) -> usize
        requires checked { AreChecked limits }
        requires few { length self.now.headers ≤ 2 * limits.depth }
        ensures { length self.now.headers + 2 * result ≤ 2 * limits.depth }
    {
        let share = 2 * limits.depth as usize - self.headers.len();
        MOST_LATE.min(share / 2)
    }

    // Puts the innermost header in, if any is missing.
    fn put_innermost(&mut self, meter: &mut Meter<A>, limits: Limits) -> Result<(), Fault>
        requires can_step { CanStep limits self.old meter.old }
        requires open { IsOpen limits self.old }
        ensures octets { OnOk result
            (self.new.octets.all ≡ innermost_in self.old.octets.all self.old.headers) }
        ensures headers { OnOk result (self.new.headers ≡ drop 1 self.old.headers) }
        ensures open { OnOk result (IsOpen limits self.new) }
        ensures stepped { Stepped limits self.old self.new meter.old meter.new (fault_of result) }
    {
        let Some(innermost) = self.headers.pop(meter) else {
            return Ok(());
        };
        let place = innermost.place as usize;
        let most = self.most_late(limits);
        match self.octets.head(meter, most, place, innermost.code) {
            Ok(()) => {
                self.cut();
                self.room = room_of(limits, self.headers.len() + self.octets.late());
                Ok(())
            }
            Err(fault) => {
                self.room = room_of(limits, self.headers.len() + self.octets.late());
                Err(fault)
            }
        }
    }

    /// Closes the innermost container: its header goes in, and its wrapper's.
    pub fn end(&mut self, meter: &mut Meter<A>, limits: Limits) -> Result<(), Fault>
        requires can_step { CanStep limits self.old meter.old }
        requires open { IsOpen limits self.old }
        ensures octets { OnOk result
            (self.new.octets.all ≡ closed_in self.old.octets.all self.old.headers) }
        ensures headers { OnOk result (self.new.headers ≡ headers_around self.old.headers) }
        ensures open { OnOk result (IsOpen limits self.new) }
        ensures stepped { Stepped limits self.old self.new meter.old meter.new (fault_of result) }
    {
        if let Err(fault) = self.put_innermost(meter, limits) {
            return Err(fault);
        }
        match self.headers.innermost() {
            Some(header) if header.code == WRAPPER => self.put_innermost(meter, limits),
            _ => Ok(()),
        }
    }

    /// Puts a scalar after what comes first of its item, the ids of whose annotations begin at a
    /// place. It answers false where the value would be too long.
    pub fn whole(
        &mut self,
        meter: &mut Meter<A>,
        limits: Limits,
        place: usize,
        scalar: &Octets<'_>,
    ) -> Result<bool, Fault>
        requires can_step { CanStep limits self.old meter.old }
        requires open { IsOpenTo self.old place }
        ensures octets { result ≡ Ok true
            → self.new.octets.all ≡ whole_at place self.old.octets.all (both_octets scalar.now) }
        ensures headers { self.new.headers ≡ self.old.headers }
        ensures open { result ≡ Ok true → IsOpen limits self.new }
        ensures over { result ≡ Ok false → limits.value
            < size_of (whole_at place self.old.octets.all (both_octets scalar.now))
            self.old.headers }
        ensures stepped { Stepped limits self.old self.new meter.old meter.new (fault_of result) }
    {
        let length = scalar.len();
        if length > limits.value {
            return Ok(false);
        }
        let octets = self.octets.len();
        let front = wrapper((octets - place) as u64, length);
        if self.closed_size(octets as u64 + front.len() as u64 + length) > limits.value {
            return Ok(false);
        }
        insert_some(&mut self.octets, meter, place, front.as_slice())?;
        self.octets.extend(meter, scalar.front)?;
        extend_some(&mut self.octets, meter, scalar.rest)?;
        Ok(true)
    }

    /// Begins a container after what comes first of its item, the ids of whose annotations begin at
    /// a place. It answers false where the value would be too long.
    pub fn begin(
        &mut self,
        meter: &mut Meter<A>,
        limits: Limits,
        place: usize,
        kind: Kind,
    ) -> Result<bool, Fault>
        requires can_step { CanStep limits self.old meter.old }
        requires open { IsOpenTo self.old place }
        requires deep { length self.old.headers + 2 ≤ 2 * limits.depth }
        ensures octets { result ≡ Ok true → self.new.octets.all
            ≡ begun_at place self.old.octets.all }
        ensures headers { result ≡ Ok true
            → self.new.headers ≡ begun_headers place self.old.octets.all kind self.old.headers }
        ensures open { result ≡ Ok true → IsOpen limits self.new }
        ensures over { result ≡ Ok false → limits.value
            < size_of (begun_at place self.old.octets.all)
            (begun_headers place self.old.octets.all kind self.old.headers) }
        ensures stepped { Stepped limits self.old self.new meter.old meter.new (fault_of result) }
    {
        if let Err(fault) = self.spare(meter, limits) {
            return Err(fault);
        }
        self.begin_spared(meter, limits, place, kind)
    }

    // Puts the late headers in where two more headers would cost too much beside them.
    fn spare(&mut self, meter: &mut Meter<A>, limits: Limits) -> Result<(), Fault>
        requires can_step { CanStep limits self.old meter.old }
        requires deep { length self.old.headers + 2 ≤ 2 * limits.depth }
        ensures octets { self.new.octets.all ≡ self.old.octets.all }
        ensures headers { self.new.headers ≡ self.old.headers }
        ensures counts { self.new.counts ≡ self.old.counts }
        ensures spared { OnOk result
            (length self.new.headers + 2 * self.new.octets.late + 2 ≤ 2 * limits.depth) }
        ensures stepped { Stepped limits self.old self.new meter.old meter.new (fault_of result) }
    {
        if self.spares(limits, 2) {
            return Ok(());
        }
        self.octets.settle(meter)
    }

    // Whether so many headers more cost no more than they may, beside those that are late.
    #[inline(always)]
    fn spares(&self, limits: Limits, headers: usize) -> bool
        requires within { IsWithin limits self.now }
        requires checked { AreChecked limits }
        requires few { headers ≤ 2 }
        ensures { result ≡ true → length self.now.headers + 2 * self.now.octets.late + headers
            ≤ 2 * limits.depth }
    {
        self.headers.len() + 2 * self.octets.late() + headers <= 2 * limits.depth as usize
    }

    // Begins a container for the headers of which there is a share.
    fn begin_spared(
        &mut self,
        meter: &mut Meter<A>,
        limits: Limits,
        place: usize,
        kind: Kind,
    ) -> Result<bool, Fault>
        requires can_step { CanStep limits self.old meter.old }
        requires open { IsOpenTo self.old place }
        requires spared { length self.old.headers + 2 * self.old.octets.late + 2
            ≤ 2 * limits.depth }
        ensures octets { result ≡ Ok true → self.new.octets.all
            ≡ begun_at place self.old.octets.all }
        ensures headers { result ≡ Ok true
            → self.new.headers ≡ begun_headers place self.old.octets.all kind self.old.headers }
        ensures open { result ≡ Ok true → IsOpen limits self.new }
        ensures over { result ≡ Ok false → limits.value
            < size_of (begun_at place self.old.octets.all)
            (begun_headers place self.old.octets.all kind self.old.headers) }
        ensures stepped { Stepped limits self.old self.new meter.old meter.new (fault_of result) }
    {
        if !self.begin_wrapper(meter, limits, place)? {
            return Ok(false);
        }
        let header = HeaderPlace {
            place: self.octets.len() as u32,
            code: type_code(kind),
        };
        self.headers.push(meter, header)?;
        self.room = room_of(limits, self.headers.len() + self.octets.late());
        let octets = self.octets.len() as u64;
        if self.closed_size(octets) > limits.value {
            return Ok(false);
        }
        Ok(true)
    }

    /// Puts what is left of an item after what comes first of it. It answers false where the value
    /// would be too long.
    pub fn take(
        &mut self,
        meter: &mut Meter<A>,
        limits: Limits,
        front: Front,
        head: Head<'_>,
    ) -> Result<bool, Fault>
        requires can_step { CanStep limits self.old meter.old }
        requires may_follow { MayFollow limits self.old front.ids (raw_head head) }
        ensures octets { (ids : UserSymbol → ℕ) → front.name ≡ head_name ids (user_head head.entry)
            → result ≡ Ok true → self.new.octets.all ≡ moved_octets front.ids
            self.old.octets.all self.old.headers ids (user_head head.entry) }
        ensures headers { result ≡ Ok true → self.new.headers
            ≡ moved_headers front.ids self.old.octets.all self.old.headers (user_head head.entry) }
        ensures open { result ≡ Ok true → IsOpen limits self.new }
        ensures over { (ids : UserSymbol → ℕ) → front.name ≡ head_name ids (user_head head.entry)
            → result ≡ Ok false → limits.value < size_of
            (moved_octets front.ids self.old.octets.all self.old.headers ids
            (user_head head.entry))
            (moved_headers front.ids self.old.octets.all self.old.headers
            (user_head head.entry)) }
        ensures stepped { Stepped limits self.old self.new meter.old meter.new (fault_of result) }
    {
        match head {
            Head::Begin(kind) => self.begin(meter, limits, front.ids, kind),
            Head::End => match self.end(meter, limits) {
                Ok(()) => Ok(true),
                Err(fault) => Err(fault),
            },
            Head::Marker => Ok(true),
            scalar => self.whole(
                meter,
                limits,
                front.ids,
                &spell(scalar, front.name).octets(),
            ),
        }
    }

    /// Whether so many octets and headers more surely keep the value within its limit: a header has six
    /// octets at most.
    #[inline(always)]
    pub fn surely_fits(&self, limits: Limits, octets: usize, headers: usize) -> bool
        requires checked { AreChecked limits }
        requires within { IsWithin limits self.now }
        requires more { headers ≤ 2 }
        ensures fits { result ≡ true → length self.now.octets.all
            + (octets + 6 * (length self.now.headers + headers)) ≤ limits.value }
        ensures room { result ≡ true → 2 ^ 20 ≤ self.now.room }
    {
        if octets as u64 > limits.value {
            return false;
        }
        self.has_room(limits, octets, headers)
    }

    /// Whether few octets and headers more surely do.
    #[inline(always)]
    pub fn has_room(&self, limits: Limits, octets: usize, headers: usize) -> bool
        requires checked { AreChecked limits }
        requires within { IsWithin limits self.now }
        requires few { octets ≤ 2 ^ 32 }
        requires more { headers ≤ 2 }
        ensures fits { result ≡ true → length self.now.octets.all
            + (octets + 6 * (length self.now.headers + headers)) ≤ limits.value }
        ensures room { result ≡ true → 2 ^ 20 ≤ self.now.room }
    {
        let _limits = limits;
        let there = self.octets.there() as u64;
        there + octets as u64 + (HEADERS_MOST + 6 * headers as u64) <= self.room
    }

    /// Adds octets after the others, where there is room for them and the value surely keeps within
    /// its limit. Else it answers false, and nothing is changed.
    #[inline(always)]
    pub fn extend_if_room(
        &mut self,
        meter: &mut Meter<A>,
        limits: Limits,
        octets: &Octets<'_>,
    ) -> bool
        requires { CanAdd limits self.old meter.old }
        ensures { AddsOctets limits (both_octets octets.now)
            self.old self.new meter.old meter.new result }
    {
        if !self.surely_fits(limits, octets.front.len() + octets.rest.len(), 0) {
            return false;
        }
        self.octets.extend_if_room(meter, octets.front, octets.rest)
    }

    /// Begins a container after the id of its field, if any, as `begin_if_room` does.
    #[inline(never)]
    pub fn begin_member(
        &mut self,
        meter: &mut Meter<A>,
        limits: &Limits,
        name: u32,
        kind: Kind,
    ) -> bool
        requires can_add { CanAdd limits.now self.old meter.old }
        requires deep { length self.old.headers + 1 ≤ 2 * limits.now.depth }
        ensures { Begins limits.now (name_octets name) kind
            self.old self.new meter.old meter.new result }
    {
        if name == 0 {
            return self.begin_if_room(meter, *limits, &[], kind);
        }
        if name < 128 {
            return self.begin_if_room(meter, *limits, &[128 + name as u8], kind);
        }
        self.begin_after_long(meter, limits, name, kind)
    }

    // Begins such a container after a long id.
    #[inline(never)]
    fn begin_after_long(
        &mut self,
        meter: &mut Meter<A>,
        limits: &Limits,
        name: u32,
        kind: Kind,
    ) -> bool
        requires can_add { CanAdd limits.now self.old meter.old }
        requires deep { length self.old.headers + 1 ≤ 2 * limits.now.depth }
        requires some { name ≢ 0 }
        ensures { Begins limits.now (name_octets name) kind
            self.old self.new meter.old meter.new result }
    {
        let front = var_uint_write(u64::from(name));
        self.begin_if_room(meter, *limits, front.as_slice(), kind)
    }

    /// Begins a container after octets that come first of its item, where there is room for all and
    /// the value surely keeps within its limit. Else it answers false, and nothing is changed.
    #[inline(always)]
    pub fn begin_if_room(
        &mut self,
        meter: &mut Meter<A>,
        limits: Limits,
        front: &[u8],
        kind: Kind,
    ) -> bool
        requires can_add { CanAdd limits self.old meter.old }
        requires deep { length self.old.headers + 1 ≤ 2 * limits.depth }
        ensures { Begins limits front.now kind self.old self.new meter.old meter.new result }
    {
        if !self.surely_fits(limits, front.len(), 1) {
            return false;
        }
        if self.octets.is_late() && !self.spares(limits, 1) {
            return false;
        }
        let header = HeaderPlace {
            place: (self.octets.len() + front.len()) as u32,
            code: type_code(kind),
        };
        if !self
            .octets
            .extend_with(&mut self.headers, meter, header, front)
        {
            return false;
        }
        self.room -= 6;
        true
    }

    /// Closes the innermost container, where it has no wrapper, stands in another, is not long, and
    /// there is room for its header. Else it answers false, and nothing is changed.
    #[inline(never)]
    pub fn end_if_room(&mut self, meter: &mut Meter<A>, limits: Limits) -> bool
        requires can_step { CanStep limits self.old meter.old }
        requires open { IsOpen limits self.old }
        ensures octets { result ≡ true
            → self.new.octets.all ≡ closed_in self.old.octets.all self.old.headers }
        ensures headers { result ≡ true → self.new.headers ≡ headers_around self.old.headers }
        ensures inside { result ≡ true → (0 < length self.old.headers)
            × (0 < length self.new.headers) }
        ensures open { result ≡ true → IsOpen limits self.new }
        ensures declines { result ≡ false → (self.new ≡ self.old) × (meter.new ≡ meter.old) }
        ensures stepped { Stepped limits self.old self.new meter.old meter.new None }
    {
        let Some((innermost, around)) = self.headers.two() else {
            return false;
        };
        let place = innermost.place as usize;
        if around.code == WRAPPER {
            return false;
        }
        if !self.octets.head_if_room(meter, place, innermost.code) {
            return false;
        }
        let _innermost = self.headers.pop(meter);
        self.cut();
        self.room += 6;
        true
    }

    /// Nothing is open any more: the last header and the octets are given back.
    #[inline(always)]
    pub fn clear(&mut self, meter: &mut Meter<A>, limits: Limits)
        requires can_step { CanStep limits self.old meter.old }
        requires one { length self.old.headers ≡ 1 }
        requires none { self.old.octets.late ≡ 0 }
        ensures nothing { (self.new.octets ≡ nothing) × (self.new.headers ≡ []) }
        ensures open { IsOpen limits self.new }
        ensures stepped { Stepped limits self.old self.new meter.old meter.new None }
    {
        let _last = self.headers.pop(meter);
        self.octets.clear_settled(meter);
        self.counts = [0; 5];
        self.room += 6;
    }

    // Puts the length of annotations before their ids, where there are any, which begin at a place.
    fn begin_wrapper(
        &mut self,
        meter: &mut Meter<A>,
        limits: Limits,
        place: usize,
    ) -> Result<bool, Fault>
        requires can_step { CanStep limits self.old meter.old }
        requires open { IsOpenTo self.old place }
        requires spared { length self.old.headers + 2 * self.old.octets.late + 2
            ≤ 2 * limits.depth }
        ensures octets { result ≡ Ok true → self.new.octets.all
            ≡ begun_at place self.old.octets.all }
        ensures headers { result ≡ Ok true → self.new.headers
            ≡ wrapper_headers (drop place self.old.octets.all) place ++ self.old.headers }
        ensures counts { self.new.counts ≡ self.old.counts }
        ensures late { self.new.octets.late ≤ self.old.octets.late }
        ensures over { result ≡ Ok false
            → limits.value < length (begun_at place self.old.octets.all) }
        ensures stepped { Stepped limits self.old self.new meter.old meter.new (fault_of result) }
    {
        let octets = self.octets.len();
        if octets == place {
            return Ok(true);
        }
        let length = var_uint_write((octets - place) as u64);
        if octets as u64 + length.len() as u64 > limits.value {
            return Ok(false);
        }
        let header = HeaderPlace {
            place: place as u32,
            code: WRAPPER,
        };
        self.octets.insert(meter, place, length.as_slice())?;
        self.headers.push(meter, header)?;
        self.room = room_of(limits, self.headers.len() + self.octets.late());
        Ok(true)
    }
}

// The room beside so many headers that are missing.
fn room_of(limits: Limits, headers: usize) -> u64
    requires checked { AreChecked limits }
    requires few { headers ≤ 2 * limits.depth }
    ensures { result + 6 * headers ≡ limits.value + 2 ^ 20 }
{
    limits.value + HEADERS_MOST - 6 * headers as u64
}

// Puts octets in at a place, of which there are mostly none.
#[inline(always)]
fn insert_some<A: Allocator + Copy>(
    octets: &mut HeldOctets<A>,
    meter: &mut Meter<A>,
    place: usize,
    more: &[u8],
) -> Result<(), Fault>
    requires can_put { CanPutAt octets.old meter.old place more.now }
    requires costed { IsCosted octets.old }
    ensures { PutsAt place more.now octets.old octets.new meter.old meter.new result }
{
    if more.is_empty() {
        return Ok(());
    }
    octets.insert(meter, place, more)
}

// Puts octets after others, if there are any.
#[inline(always)]
fn extend_some<A: Allocator + Copy>(
    octets: &mut HeldOctets<A>,
    meter: &mut Meter<A>,
    more: &[u8],
) -> Result<(), Fault>
    requires room { meter.old.held + length more.now < 2 ^ 63 }
    requires countable { meter.old.refused < 2 ^ 64 - 1 }
    ensures ok { OnOk result (octets.new ≡ appended octets.old more.now) }
    ensures cost { OnOk result (Raises meter.old meter.new (length more.now)) }
    ensures memory { IfErr result (λ e. e ≡ Fault.Memory) }
    ensures err { OnErr result (octets.new ≡ octets.old) }
    ensures refused { OnErr result (IsRefused meter.old meter.new) }
{
    if more.is_empty() {
        return Ok(());
    }
    octets.extend(meter, more)
}

// The type code of a container.
fn type_code(kind: Kind) -> u8
    ensures { result ≡ type_code kind }
{
    match kind {
        Kind::List => 11,
        Kind::Sexp => 12,
        Kind::Struct => 13,
    }
}
