//! Slots of symbol tables.
ghost use Rattle.std.specs.Prelude.{◌≡◌, ℕ, ◌+◌, ◌-◌, ◌*◌, ◌^◌, ◌<◌, ◌≤◌, ◌++◌, ◌∷◌, [], Some, None, length, take, drop, map, slice_get, OnOk, OnErr, IfErr};
ghost use Rattle.ion_meter.specs.declared.fault.Fault.TheVariants.{Memory};
ghost use Rattle.ion_meter.specs.Counts.{Grows, Shrinks};
ghost use Rattle.ion_symbols.specs.Table.{slots_cost};
ghost use Rattle.ion_symbols.specs.Kept.{CanGrow, IsNameText, IsUndone, Tiles, moved, text_in};

use ion_meter::buf::Buf;
use ion_meter::fault::Fault;
use ion_meter::meter::Meter;
use ion_meter::stack::Stack;
use ion_value::name::quoting_of;
use ion_value::quoting::{NameText, Quoting, bare};
use std::alloc::Allocator;
use std::marker::Model;

/// The most slots after the system ones: the greatest id is 2^31 - 1.
pub(crate) const MOST_SLOTS: u64 = 2_147_483_638;

/// Where a slot's text stands among bytes, and whether it has one.
#[derive(Clone, Copy)]
pub(crate) struct Part {
    /// Where its first byte stands.
    pub(crate) from: usize,
    /// Where the byte after its last one stands.
    pub(crate) to: usize,
    /// Whether it has a text.
    pub(crate) known: bool,
    /// How that is written, as far as it is known.
    pub(crate) quoting: Quoting,
}

/// Slots in order, at a cost of 16 each and the length of its text. A clause sees the list of them, a
/// slot without text being none.
#[derive(Drop)]
pub(crate) struct Slots<A: Allocator + Copy> {
    texts: Buf<A>,
    parts: Stack<Part, A>,
}

impl<A: Allocator + Copy> Model for Slots<A> {
    ghost use Rattle.std.specs.Prelude.{length};
    ghost use Rattle.ion_symbols.specs.Table as tables;
    ghost use Rattle.ion_symbols.specs.Kept.{kept_slots, AreMarked, Tiles};

    ghost Value = { tables.Slots };

    ghost view = { λ s. kept_slots s.texts s.parts };

    ghost invariant = { λ s. Tiles 0 s.parts (length s.texts) × AreMarked s.texts s.parts };
}

impl<A: Allocator + Copy> Slots<A> {
    /// No slots. It takes no memory.
    pub(crate) fn new(meter: &Meter<A>) -> Slots<A>
        ensures { result ≡ [] }
    {
        Slots {
            texts: Buf::new(meter),
            parts: Stack::new(meter),
        }
    }

    /// How many slots there are.
    pub(crate) fn len(&self) -> usize
        ensures { result ≡ length self.now }
    {
        self.parts.as_slice().len()
    }

    /// What they cost, in counted bytes.
    pub(crate) fn cost(&self) -> u64
        requires { slots_cost self.now ≤ 2 ^ 62 }
        ensures { result ≡ slots_cost self.now }
    {
        16 * self.parts.as_slice().len() as u64 + self.texts.as_slice().len() as u64
    }

    /// The text of the slot at an index and how it is written; none where it has none, or past the end.
    #[inline(always)]
    pub(crate) fn name_text(&self, i: usize) -> Option<NameText<'_>>
        ensures { IsNameText result (text_in (slice_get self.now i)) }
    {
        let parts = self.parts.as_slice();
        if i >= parts.len() {
            return None;
        }
        let part = parts[i];
        match part.quoting {
            Quoting::Bare => Some(bare(between(self.texts.as_slice(), part.from, part.to))),
            quoting if part.known => Some(NameText {
                text: between(self.texts.as_slice(), part.from, part.to),
                quoting,
            }),
            _ => None,
        }
    }

    /// Adds a slot with a text.
    pub(crate) fn push_text(&mut self, meter: &mut Meter<A>, text: &[u8]) -> Result<(), Fault>
        requires can_grow { CanGrow (16 + length text.now) meter.old }
        requires held { slots_cost self.old ≤ meter.old.held }
        ensures ok { OnOk result (self.new ≡ self.old ++ Some text.now ∷ []) }
        ensures cost { OnOk result (Grows meter.old meter.new (16 + length text.now)) }
        ensures memory { IfErr result (λ e. e ≡ Memory) }
        ensures err { OnErr result (self.new ≡ self.old) }
        ensures undone { OnErr result (IsUndone meter.old meter.new (16 + length text.now)) }
    {
        let from = self.texts.as_slice().len();
        let to = from + text.len();
        if let Err(failed) = self.parts.push(
            meter,
            Part {
                from,
                to,
                known: true,
                quoting: quoting_of(text),
            },
        ) {
            return Err(failed.1);
        }
        if let Err(fault) = self.texts.extend(meter, text) {
            let _last = self.parts.pop(meter);
            return Err(fault);
        }
        Ok(())
    }

    /// Adds a slot without a text.
    pub(crate) fn push_none(&mut self, meter: &mut Meter<A>) -> Result<(), Fault>
        requires can_grow { CanGrow 16 meter.old }
        ensures ok { OnOk result (self.new ≡ self.old ++ None ∷ []) }
        ensures cost { OnOk result (Grows meter.old meter.new 16) }
        ensures memory { IfErr result (λ e. e ≡ Memory) }
        ensures err { OnErr result (self.new ≡ self.old) }
        ensures undone { OnErr result (IsUndone meter.old meter.new 16) }
    {
        let end = self.texts.as_slice().len();
        if let Err(failed) = self.parts.push(
            meter,
            Part {
                from: end,
                to: end,
                known: false,
                quoting: Quoting::Any,
            },
        ) {
            return Err(failed.1);
        }
        Ok(())
    }

    /// Adds all slots of another; where memory is refused, none.
    pub(crate) fn append(&mut self, meter: &mut Meter<A>, more: &Slots<A>) -> Result<(), Fault>
        requires can_grow { CanGrow (slots_cost more.now) meter.old }
        requires held { slots_cost self.old ≤ meter.old.held }
        ensures ok { OnOk result (self.new ≡ self.old ++ more.now) }
        ensures cost { OnOk result (Grows meter.old meter.new (slots_cost more.now)) }
        ensures memory { IfErr result (λ e. e ≡ Memory) }
        ensures err { OnErr result (self.new ≡ self.old) }
        ensures undone { OnErr result (IsUndone meter.old meter.new (slots_cost more.now)) }
    {
        let base = self.texts.as_slice().len();
        self.texts.extend(meter, more.texts.as_slice())?;
        if let Err(fault) = push_moved(&mut self.parts, meter, base, more.parts.as_slice()) {
            self.texts.truncate(meter, base);
            return Err(fault);
        }
        Ok(())
    }

    /// Keeps no slot.
    pub(crate) fn clear(&mut self, meter: &mut Meter<A>)
        requires held { slots_cost self.old ≤ meter.old.held }
        ensures items { self.new ≡ [] }
        ensures cost { Shrinks meter.old meter.new (slots_cost self.old) }
    {
        self.parts.clear(meter);
        self.texts.clear(meter);
    }

    /// Gives all back.
    pub(crate) fn release(self, meter: &mut Meter<A>)
        requires held { slots_cost self ≤ meter.old.held }
        ensures cost { Shrinks meter.old meter.new (slots_cost self) }
    {
        let Slots { texts, parts } = self;
        texts.release(meter);
        parts.release(meter);
    }
}

// Adds these parts, moved by so many bytes; where memory is refused, none.
fn push_moved<A: Allocator + Copy>(
    parts: &mut Stack<Part, A>,
    meter: &mut Meter<A>,
    base: usize,
    more: &[Part],
) -> Result<(), Fault>
    requires can_grow { CanGrow (16 * length more.now) meter.old }
    requires peak { meter.old.held ≤ meter.old.peak }
    requires fits { (end : ℕ) × (Tiles 0 more.now end × (base + end < 2 ^ 64)) }
    ensures ok { OnOk result (parts.new ≡ parts.old ++ map (moved base) more.now) }
    ensures cost { OnOk result (Grows meter.old meter.new (16 * length more.now)) }
    ensures memory { IfErr result (λ e. e ≡ Memory) }
    ensures err { OnErr result (parts.new ≡ parts.old) }
    ensures undone { OnErr result (IsUndone meter.old meter.new (16 * length more.now)) }
{
    let had = parts.as_slice().len();
    for part in more {
        let moved = Part {
            from: base + part.from,
            to: base + part.to,
            known: part.known,
            quoting: part.quoting,
        };
        if let Err(failed) = parts.push(meter, moved) {
            parts.truncate(meter, had);
            return Err(failed.1);
        }
    }
    Ok(())
}

// The bytes from one place to another.
#[inline]
fn between(bytes: &[u8], from: usize, to: usize) -> &[u8]
    requires { (from ≤ to) × (to ≤ length bytes.now) }
    ensures { result.now ≡ take (to - from) (drop from bytes.now) }
{
    &bytes[from..to]
}
