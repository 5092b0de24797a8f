//! Shared tables.
ghost use Rattle.std.specs.Prelude.{◌≡◌, ℕ, ◌+◌, ◌-◌, ◌*◌, ◌^◌, ◌<◌, ◌≤◌, ◌++◌, ◌∷◌, [], Some, None, length, max, option_map, slice_get, OnOk, OnErr, IfOk, IfErr, MatchOption};
ghost use Rattle.ion_meter.specs.declared.fault.Fault.TheVariants.{Memory};
ghost use Rattle.ion_meter.specs.Counts.{Grows, Shrinks};
ghost use Rattle.ion_value.specs.Items.{is_none_left};
ghost use Rattle.ion_symbols.specs.Table.{shared_cost, text_length};
ghost use Rattle.ion_symbols.specs.Kept.{IsNameText, IsUndone, Renames, text_in};
ghost use Rattle.ion_symbols.specs.CatalogItems.{blank};
ghost use Rattle.ion_symbols.specs.UserValues.{SlotsAreText};

use crate::slots::Slots;
use ion_meter::buf::Buf;
use ion_meter::fault::Fault;
use ion_meter::meter::Meter;
use ion_value::quoting::NameText;
use std::alloc::Allocator;
use std::marker::Model;

/// A shared symbol table (Ion specification, "Shared Symbol Tables"): its name, its version, and its
/// slots in order, each with or without a text.
///
/// It holds the length of its name, and 16 a slot and the length of its text. One that is dropped
/// without `release` leaves the meter's `held` as it was. A clause sees its name, version and slots.
#[derive(Drop)]
pub struct SharedTable<A: Allocator + Copy> {
    name: Buf<A>,
    version: u32,
    slots: Slots<A>,
}

impl<A: Allocator + Copy> Model for SharedTable<A> {
    ghost use Rattle.ion_symbols.specs.Table.{Shared};

    ghost Value = { Shared };

    ghost view = { λ s. record { name = s.name; version = s.version; slots = s.slots } };
}

impl<A: Allocator + Copy> SharedTable<A> {
    /// A table without slots.
    pub fn new(meter: &mut Meter<A>, name: &str, version: u32) -> Result<SharedTable<A>, Fault>
        requires room { meter.old.held + length name.now < 2 ^ 63 }
        requires countable { meter.old.refused < 2 ^ 64 - 1 }
        ensures table { IfOk result
            (λ table. table ≡ record { name = name.now; version = version; slots = [] }) }
        ensures cost { OnOk result (Grows meter.old meter.new (length name.now)) }
        ensures memory { IfErr result (λ fault. fault ≡ Memory) }
        ensures undone { OnErr result (IsUndone meter.old meter.new (length name.now)) }
    {
        let mut bytes = Buf::new(meter);
        bytes.extend(meter, name.as_bytes())?;
        Ok(SharedTable {
            name: bytes,
            version,
            slots: Slots::new(meter),
        })
    }

    /// A table without a name, with version 1 and without slots. It takes no memory.
    pub(crate) fn blank(meter: &Meter<A>) -> SharedTable<A>
        ensures { result ≡ blank }
    {
        SharedTable {
            name: Buf::new(meter),
            version: 1,
            slots: Slots::new(meter),
        }
    }

    /// Adds a slot with this text, or without one. Where memory is refused, the table stays as it was.
    pub fn push(&mut self, meter: &mut Meter<A>, text: Option<&str>) -> Result<(), Fault>
        requires room { meter.old.held
            + (16 + text_length (option_map (λ t. t.now) text)) < 2 ^ 63 }
        requires held { shared_cost self.old ≤ meter.old.held }
        requires countable { meter.old.refused < 2 ^ 64 - 1 }
        ensures ok { OnOk result (self.new ≡ record self.old {
          slots = self.old.slots ++ option_map (λ t. t.now) text.entry ∷ [];
        }) }
        ensures is_text { SlotsAreText self.old.slots → SlotsAreText self.new.slots }
        ensures cost { OnOk result (Grows meter.old meter.new
            (16 + text_length (option_map (λ t. t.now) text.entry))) }
        ensures memory { IfErr result (λ fault. fault ≡ Memory) }
        ensures err { OnErr result (self.new ≡ self.old) }
        ensures undone { OnErr result (IsUndone meter.old meter.new
            (16 + text_length (option_map (λ t. t.now) text.entry))) }
    {
        match text {
            Some(text) => self.push_bytes(meter, Some(text.as_bytes())),
            None => self.push_bytes(meter, None),
        }
    }

    /// Adds a slot with this text, whose bytes are UTF-8, or without one.
    pub(crate) fn push_bytes(
        &mut self,
        meter: &mut Meter<A>,
        text: Option<&[u8]>,
    ) -> Result<(), Fault>
        requires room { meter.old.held
            + (16 + text_length (option_map (λ t. t.now) text)) < 2 ^ 63 }
        requires held { shared_cost self.old ≤ meter.old.held }
        requires countable { meter.old.refused < 2 ^ 64 - 1 }
        ensures ok { OnOk result (self.new ≡ record self.old {
          slots = self.old.slots ++ option_map (λ t. t.now) text.entry ∷ [];
        }) }
        ensures cost { OnOk result (Grows meter.old meter.new
            (16 + text_length (option_map (λ t. t.now) text.entry))) }
        ensures memory { IfErr result (λ fault. fault ≡ Memory) }
        ensures err { OnErr result (self.new ≡ self.old) }
        ensures undone { OnErr result (IsUndone meter.old meter.new
            (16 + text_length (option_map (λ t. t.now) text.entry))) }
    {
        match text {
            Some(text) => self.slots.push_text(meter, text),
            None => self.slots.push_none(meter),
        }
    }

    /// Puts another name in place of its own. It never holds both; where memory is refused, the table
    /// stays as it was.
    pub fn set_name(&mut self, meter: &mut Meter<A>, name: &str) -> Result<(), Fault>
        requires room { meter.old.held + length name.now < 2 ^ 63 }
        requires held { shared_cost self.old ≤ meter.old.held }
        requires countable { meter.old.refused < 2 ^ 64 - 1 }
        ensures ok { OnOk result (self.new ≡ record self.old { name = name.now }) }
        ensures cost { OnOk result
            (Renames meter.old meter.new (length self.old.name) (length name.now)) }
        ensures memory { IfErr result (λ fault. fault ≡ Memory) }
        ensures err { OnErr result (self.new ≡ self.old) }
        ensures undone { OnErr result
            (IsUndone meter.old meter.new (length name.now - length self.old.name)) }
    {
        self.put_name(meter, name.as_bytes())
    }

    /// Puts a name, whose bytes are UTF-8, in place of its own.
    pub(crate) fn put_name(&mut self, meter: &mut Meter<A>, bytes: &[u8]) -> Result<(), Fault>
        requires room { meter.old.held + length bytes.now < 2 ^ 63 }
        requires held { shared_cost self.old ≤ meter.old.held }
        requires countable { meter.old.refused < 2 ^ 64 - 1 }
        ensures ok { OnOk result (self.new ≡ record self.old { name = bytes.now }) }
        ensures cost { OnOk result
            (Renames meter.old meter.new (length self.old.name) (length bytes.now)) }
        ensures memory { IfErr result (λ fault. fault ≡ Memory) }
        ensures err { OnErr result (self.new ≡ self.old) }
        ensures undone { OnErr result
            (IsUndone meter.old meter.new (length bytes.now - length self.old.name)) }
    {
        let had = self.name.as_slice().len();
        if had < bytes.len() {
            self.name.extend(meter, &bytes[had..])?;
        } else {
            self.name.truncate(meter, bytes.len());
        }
        overwrite(&mut self.name, bytes);
        Ok(())
    }

    /// Puts another version in place of its own.
    pub fn set_version(&mut self, version: u32)
        ensures { self.new ≡ record self.old { version = version } }
    {
        self.version = version;
    }

    /// The name's bytes.
    pub fn name(&self) -> &[u8]
        ensures { result.now ≡ self.now.name }
    {
        self.name.as_slice()
    }

    /// The version.
    pub fn version(&self) -> u32
        ensures { result ≡ self.now.version }
    {
        self.version
    }

    /// How many slots there are.
    pub fn len(&self) -> usize
        ensures { result ≡ length self.now.slots }
    {
        self.slots.len()
    }

    /// Whether there is none.
    pub fn is_empty(&self) -> bool
        ensures { result ≡ is_none_left self.now.slots }
    {
        self.slots.len() == 0
    }

    /// The text of the slot at a place, counted from 0; none where it has none, or past the end.
    pub fn get(&self, place: usize) -> Option<&[u8]>
        ensures { MatchOption result (text_in (slice_get self.now.slots place) ≡ None)
            (λ text. text_in (slice_get self.now.slots place) ≡ Some text.now) }
    {
        Some(self.name_text(place)?.text)
    }

    /// That text and how it is written.
    pub(crate) fn name_text(&self, place: usize) -> Option<NameText<'_>>
        ensures { IsNameText result (text_in (slice_get self.now.slots place)) }
    {
        self.slots.name_text(place)
    }

    /// Gives all back.
    pub fn release(self, meter: &mut Meter<A>)
        requires { shared_cost self ≤ meter.old.held }
        ensures { Shrinks meter.old meter.new (shared_cost self) }
    {
        let SharedTable {
            name,
            version: _,
            slots,
        } = self;
        name.release(meter);
        slots.release(meter);
    }
}

// Writes bytes over as many others.
fn overwrite<A: Allocator + Copy>(buf: &mut Buf<A>, bytes: &[u8])
    requires { length buf.old ≡ length bytes.now }
    ensures { buf.new ≡ bytes.now }
{
    let mut i = 0;
    while i < bytes.len() {
        buf.set(i, bytes[i]);
        i += 1;
    }
}
