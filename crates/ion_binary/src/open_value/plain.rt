//! Plain scalars, which are put where there is room for them, the octets before a body as one block.
ghost use Rattle.std.specs.Prelude.{◌≡◌, ℕ, ◌≤◌, ◌++◌, false, length, take};
ghost use Rattle.ion_value.specs.Items.{raw_head};
ghost use Rattle.ion_value.specs.Standing.{HeadInRange};
ghost use Rattle.ion_value.specs.Value.{UserSymbol};
ghost use Rattle.ion_binary.specs.Canonical.{headed};
ghost use Rattle.ion_binary.specs.ItemOctets.{head_name, head_octets, user_head};
ghost use Rattle.ion_binary.specs.Opening.{AddsOctets, CanAdd, both_octets, noted, noted_by};

use super::OpenValue;
use crate::few::{FewNumber, few_header, noted_front};
use crate::header::header;
use crate::noted::noted_scalar;
use crate::scalar::{Octets, spell};
use ion_meter::limits::Limits;
use ion_meter::meter::Meter;
use ion_value::item::Head;
use ion_value::var::var_uint_write;
use std::alloc::Allocator;

impl<A: Allocator + Copy> OpenValue<A> {
    /// Adds a scalar after the ids of its field and of its annotation, each 0 where there is none, as
    /// `extend_if_room` adds octets.
    #[inline(never)]
    pub fn put_octets(
        &mut self,
        meter: &mut Meter<A>,
        limits: &Limits,
        name: u32,
        note: u32,
        scalar: &Octets<'_>,
    ) -> bool
        requires { CanAdd limits.now self.old meter.old }
        ensures { AddsOctets limits.now (noted name note (both_octets scalar.now))
            self.old self.new meter.old meter.new result }
    {
        if note == 0 {
            return self.put_after(meter, limits, name, &[], scalar);
        }
        let notes = var_uint_write(u64::from(note));
        self.put_after(meter, limits, name, notes.as_slice(), scalar)
    }

    /// Adds a scalar after the id of its field, 0 where there is none, and the octets of the ids of
    /// its annotations, as `extend_if_room` adds octets.
    #[inline(always)]
    pub fn put_after(
        &mut self,
        meter: &mut Meter<A>,
        limits: &Limits,
        name: u32,
        notes: &[u8],
        scalar: &Octets<'_>,
    ) -> bool
        requires can_add { CanAdd limits.now self.old meter.old }
        requires few { length notes.now ≤ 20 }
        ensures { AddsOctets limits.now (noted_by name notes.now (both_octets scalar.now))
            self.old self.new meter.old meter.new result }
    {
        let Some(front) = noted_scalar(limits, name, notes, scalar) else {
            return false;
        };
        let octets = Octets {
            front: front.as_slice(),
            rest: scalar.rest,
        };
        self.extend_if_room(meter, *limits, &octets)
    }

    /// Adds a scalar of any kind, where a symbol has this id.
    #[inline(never)]
    pub fn put_spelled(
        &mut self,
        meter: &mut Meter<A>,
        limits: &Limits,
        name: u32,
        note: u32,
        head: Head<'_>,
        symbol: u32,
    ) -> bool
        requires can_add { CanAdd limits.now self.old meter.old }
        requires range { HeadInRange (raw_head head) }
        ensures { (ids : UserSymbol → ℕ) → symbol ≡ head_name ids (user_head head.entry)
            → AddsOctets limits.now (noted name note (head_octets ids (user_head head.entry)))
            self.old self.new meter.old meter.new result }
    {
        let spelled = spell(head, symbol);
        let octets = spelled.octets();
        self.put_octets(meter, limits, name, note, &octets)
    }

    /// Adds a string.
    #[inline(never)]
    pub fn put_text(
        &mut self,
        meter: &mut Meter<A>,
        limits: &Limits,
        name: u32,
        note: u32,
        text: &[u8],
    ) -> bool
        requires { CanAdd limits.now self.old meter.old }
        ensures { AddsOctets limits.now (noted name note (headed 8 text.now))
            self.old self.new meter.old meter.new result }
    {
        let Some(header) = few_header(8, text.len()) else {
            return self.put_long(meter, limits, name, note, text);
        };
        let Some(front) = noted_front(&header, text.len(), name, note) else {
            return self.put_long(meter, limits, name, note, text);
        };
        if !self.surely_fits(*limits, front.len() + text.len(), 0) {
            return false;
        }
        self.octets
            .extend_block_if_room(meter, front.block(), front.len(), text)
    }

    // Adds a string that is long, or stands after long ids.
    #[cold]
    #[inline(never)]
    fn put_long(
        &mut self,
        meter: &mut Meter<A>,
        limits: &Limits,
        name: u32,
        note: u32,
        text: &[u8],
    ) -> bool
        requires { CanAdd limits.now self.old meter.old }
        ensures { AddsOctets limits.now (noted name note (headed 8 text.now))
            self.old self.new meter.old meter.new result }
    {
        let before = header(8, text.len() as u64);
        let octets = Octets {
            front: before.as_slice(),
            rest: text,
        };
        self.put_octets(meter, limits, name, note, &octets)
    }

    /// Adds a scalar of few octets.
    #[inline(always)]
    pub fn put_few(
        &mut self,
        meter: &mut Meter<A>,
        limits: &Limits,
        name: u32,
        note: u32,
        number: &FewNumber,
    ) -> bool
        requires { CanAdd limits.now self.old meter.old }
        ensures { AddsOctets limits.now
            (noted name note (number.now.first ++ take number.now.size number.now.body))
            self.old self.new meter.old meter.new result }
    {
        let Some(front) = noted_front(&number.first, number.size, name, note) else {
            return self.put_after_long(meter, limits, name, note, number);
        };
        if !self.has_room(*limits, 16, 0) {
            return false;
        }
        self.octets.extend_blocks_if_room(
            meter,
            front.block(),
            front.len(),
            number.body,
            number.size,
        )
    }

    // Adds such a scalar after long ids.
    #[cold]
    #[inline(never)]
    fn put_after_long(
        &mut self,
        meter: &mut Meter<A>,
        limits: &Limits,
        name: u32,
        note: u32,
        number: &FewNumber,
    ) -> bool
        requires { CanAdd limits.now self.old meter.old }
        ensures { AddsOctets limits.now
            (noted name note (number.now.first ++ take number.now.size number.now.body))
            self.old self.new meter.old meter.new result }
    {
        let first = number.first.block();
        let octets = Octets {
            front: &first[..number.first.len()],
            rest: &number.body[..number.size],
        };
        self.put_octets(meter, limits, name, note, &octets)
    }
}
