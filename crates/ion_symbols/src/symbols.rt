//! The local symbol table of a stream at a place.
ghost use Rattle.std.specs.Prelude.{◌≡◌, ℕ, ◌+◌, ◌-◌, ◌*◌, ◌^◌, ◌<◌, ◌≤◌, None, length, slice_get, MatchOption, IfErr, OnOk, OnErr};
ghost use Rattle.ion_meter.specs.declared.fault.Fault.TheVariants.{Memory};
ghost use Rattle.ion_meter.specs.Counts.{Grows, Shrinks};
ghost use Rattle.ion_symbols.specs.Table.{count_of, import_count, most_slots, slot_of, slots_cost, system, system_slots, table_cost, text_at};
ghost use Rattle.ion_symbols.specs.Present.{IsKept, Starts, kept_table, as_slot, slots_at, with_locals};
ghost use Rattle.ion_symbols.specs.Kept.{CanGrow, IsNameText, IsUndone, text_in};

use crate::catalog::Catalog;
use crate::slots::Slots;
use ion_meter::fault::Fault;
use ion_meter::meter::Meter;
use ion_meter::table::Table;
use ion_value::names::Names;
use ion_value::quoting::{NameText, Quoting, bare};
use std::alloc::Allocator;
use std::marker::Model;
use std::mem;

/// The cost of an import, in counted bytes, whatever its number of slots.
pub(crate) const IMPORT_COST: u64 = 32;

/// An import: the place in the catalogue of the shared table that it found, its first slot after
/// the system ones, and its number of slots.
#[derive(Clone, Copy)]
pub(crate) struct FoundImport {
    /// Where the table stands, if one was found.
    pub(crate) table: Option<usize>,
    /// Its first slot, counted from 0 after the system ones.
    pub(crate) start: u64,
    /// How many slots it has.
    pub(crate) count: u64,
}

/// What an id stands for in a symbol table (Ion specification, "Symbols").
#[derive(Clone, Copy, Debug, PartialEq, Eq)]
pub enum Slot<'a> {
    /// A text, in UTF-8.
    Known(&'a [u8]),
    /// A symbol of unknown text: `$0`, or a local slot without text.
    Unknown,
    /// A slot of an import that has no text.
    Gap,
    /// Nothing: the table ends before this id.
    Above,
}

/// The local symbol table of a stream at a place: the system table, then imports, then local slots.
///
/// It holds 32 an import, whose texts stay in the catalogue, and 16 a local slot and the length of
/// its text. A clause sees the table and the catalogue.
#[derive(Drop)]
pub struct Symbols<'c, A: Allocator + Copy> {
    catalog: &'c Catalog<A>,
    imports: Table<FoundImport, A>,
    // How many slots the imports have.
    import_slots: u64,
    slots: Slots<A>,
}

impl<'c, A: Allocator + Copy> Model for Symbols<'c, A> {
    ghost use Rattle.ion_symbols.specs.Present.{Present, IsKept, imports_in};

    ghost Value = { Present };

    ghost view = { λ s. record {
      table = record { imports = imports_in s.catalog.now s.imports.items; locals = s.slots };
      catalog = s.catalog.now;
    } };

    ghost invariant = { λ s. IsKept s.imports.items s.imports.cost s.import_slots s.slots };
}

// A text of whose quoting nothing is known.
#[inline(always)]
fn any(text: &[u8]) -> NameText<'_>
    ensures text { result.text.now ≡ text.now }
    ensures quoting { result.quoting ≡ Quoting.Any }
{
    NameText {
        text,
        quoting: Quoting::Any,
    }
}

// The text of an id of the system table.
fn system_text(id: u32) -> Option<NameText<'static>>
    requires { id < 10 }
    ensures { IsNameText result (text_in (slice_get system_slots id)) }
{
    match id {
        0 => None,
        1 => Some(any(b"$ion")),
        2 => Some(any(b"$ion_1_0")),
        3 => Some(any(b"$ion_symbol_table")),
        4 => Some(bare(b"name")),
        5 => Some(bare(b"version")),
        6 => Some(bare(b"imports")),
        7 => Some(bare(b"symbols")),
        8 => Some(bare(b"max_id")),
        _ => Some(any(b"$ion_shared_symbol_table")),
    }
}

// The text of the slot at an index of a shared table that was found.
fn shared<A: Allocator + Copy>(
    catalog: &Catalog<A>,
    table: Option<usize>,
    place: u64,
) -> Option<NameText<'_>>
    ensures { IsNameText result (text_in (slice_get (slots_at catalog.now table) place)) }
{
    catalog.get(table?)?.name_text(place as usize)
}

// The import that a slot stands in: the last that begins at it or before.
fn import_at(imports: &[FoundImport], place: u64) -> usize
    requires { (end : ℕ) × (Starts 0 imports.now end × (place < end)) }
    ensures { MatchOption (slice_get imports.now result) ⊥
        (λ f. (f.start ≤ place) × (place < f.start + f.count)) }
{
    let mut low = 0;
    let mut high = imports.len();
    while high - low > 1 {
        let middle = low + (high - low) / 2;
        if imports[middle].start <= place {
            low = middle;
        } else {
            high = middle;
        }
    }
    low
}

impl<'c, A: Allocator + Copy> Symbols<'c, A> {
    /// The system table alone, in front of imports from this catalogue. It takes no memory.
    pub fn new(meter: &Meter<A>, catalog: &'c Catalog<A>) -> Self
        ensures table { result.table ≡ system }
        ensures catalog { result.catalog ≡ catalog.now }
    {
        Symbols {
            catalog,
            imports: Table::new(meter, IMPORT_COST),
            import_slots: 0,
            slots: Slots::new(meter),
        }
    }

    /// What an id stands for.
    #[inline(always)]
    pub fn text(&self, id: u32) -> Slot<'_>
        ensures { as_slot result ≡ slot_of self.now.table id }
    {
        match self.name_text(id) {
            Some(quoted) => Slot::Known(quoted.text),
            None => self.missing(id),
        }
    }

    // What an id without a text stands for.
    fn missing(&self, id: u32) -> Slot<'_>
        requires { text_at self.now.table id ≡ None }
        ensures { as_slot result ≡ slot_of self.now.table id }
    {
        if id < 10 {
            return Slot::Unknown;
        }
        let place = (id - 10) as u64;
        if place < self.import_slots {
            return Slot::Gap;
        }
        if place - self.import_slots < self.slots.len() as u64 {
            return Slot::Unknown;
        }
        Slot::Above
    }

    // The text of an id of the system table or of an import. What the call returns is built anew: so it
    // has its place in memory here, and not where none is called.
    #[inline(always)]
    fn early(&self, id: u32) -> Option<NameText<'_>>
        requires { id < 10 + import_count self.now.table.imports }
        ensures { IsNameText result (text_at self.now.table id) }
    {
        match self.early_text(id) {
            Some(text) => Some(text),
            None => None,
        }
    }

    // That text, by a call that is not in line.
    #[inline(never)]
    fn early_text(&self, id: u32) -> Option<NameText<'_>>
        requires { id < 10 + import_count self.now.table.imports }
        ensures { IsNameText result (text_at self.now.table id) }
    {
        if id < 10 {
            return system_text(id);
        }
        let place = (id - 10) as u64;
        let imports = self.imports.as_slice();
        let found = imports[import_at(imports, place)];
        shared(self.catalog, found.table, place - found.start)
    }

    // The catalogue.
    pub(crate) fn catalog(&self) -> &'c Catalog<A>
        ensures { result.now ≡ self.now.catalog }
    {
        self.catalog
    }

    // What the table costs, in counted bytes.
    pub(crate) fn cost(&self) -> u64
        requires { table_cost self.now.table ≤ 2 ^ 30 }
        ensures { result ≡ table_cost self.now.table }
    {
        IMPORT_COST * self.imports.as_slice().len() as u64 + self.slots.cost()
    }

    // How many slots the table has after the system ones.
    pub(crate) fn count(&self) -> u64
        ensures { result ≡ count_of self.now.table }
    {
        self.import_slots + self.slots.len() as u64
    }

    // The system table again.
    pub(crate) fn reset(&mut self, meter: &mut Meter<A>)
        requires { table_cost self.old.table ≤ meter.old.held }
        ensures table { self.new.table ≡ system }
        ensures catalog { self.new.catalog ≡ self.old.catalog }
        ensures cost { Shrinks meter.old meter.new (table_cost self.old.table) }
    {
        self.imports.clear(meter);
        self.import_slots = 0;
        self.slots.clear(meter);
    }

    // Local slots after those that are there; where memory is refused, none.
    pub(crate) fn append(&mut self, meter: &mut Meter<A>, more: &Slots<A>) -> Result<(), Fault>
        requires can_grow { CanGrow (slots_cost more.now) meter.old }
        requires held { table_cost self.old.table ≤ meter.old.held }
        requires few { count_of self.old.table + length more.now ≤ most_slots }
        ensures ok { OnOk result (self.new ≡ with_locals self.old more.now) }
        ensures cost { OnOk result (Grows meter.old meter.new (slots_cost more.now)) }
        ensures memory { IfErr result (λ e. e ≡ Memory) }
        ensures err { OnErr result (self.new ≡ self.old) }
        ensures undone { OnErr result (IsUndone meter.old meter.new (slots_cost more.now)) }
    {
        self.slots.append(meter, more)
    }

    // Other imports and local slots in place of its own, which are given back.
    pub(crate) fn replace(
        &mut self,
        meter: &mut Meter<A>,
        imports: Table<FoundImport, A>,
        import_slots: u64,
        slots: Slots<A>,
    )
        requires kept { IsKept imports.items imports.cost import_slots slots }
        requires held { table_cost self.old.table ≤ meter.old.held }
        ensures table { self.new
            ≡ record self.old { table = kept_table self.old.catalog imports.items slots } }
        ensures cost { Shrinks meter.old meter.new (table_cost self.old.table) }
    {
        let mut imports = imports;
        let mut slots = slots;
        mem::swap(&mut self.imports, &mut imports);
        mem::swap(&mut self.slots, &mut slots);
        self.import_slots = import_slots;
        imports.release(meter);
        slots.release(meter);
    }

    /// Gives all back.
    pub fn release(self, meter: &mut Meter<A>)
        requires { table_cost self.table ≤ meter.old.held }
        ensures { Shrinks meter.old meter.new (table_cost self.entry.table) }
    {
        let Symbols {
            catalog: _,
            imports,
            import_slots: _,
            slots,
        } = self;
        imports.release(meter);
        slots.release(meter);
    }
}

impl<'c, A: Allocator + Copy> Names for Symbols<'c, A> {
    ghost use Rattle.std.proofs.Common.{refl};
    ghost use Rattle.ion_symbols.specs.Table.{text_at};

    ghost text = { λ s. text_at s.table };

    ghost zero = { λ s. refl };

    #[inline(always)]
    fn text_of(&self, id: u32) -> Option<&[u8]> {
        Some(self.name_text(id)?.text)
    }

    #[inline(always)]
    fn name_text(&self, id: u32) -> Option<NameText<'_>> {
        let first = 10 + self.import_slots;
        let place = id as u64;
        if place < first {
            return self.early(id);
        }
        self.slots.name_text((place - first) as usize)
    }
}
