//! A catalogue, built from the items of its user values.
ghost use Rattle.std.specs.Prelude.{◌≡◌, ◌+◌, ◌<◌, ◌≤◌, ◌^◌, [], nat_le};
ghost use Rattle.std.proofs.Common.{refl};
ghost use Rattle.ion_meter.specs.Counts.{Shrinks};
ghost use Rattle.ion_meter.specs.Limits.{AreChecked};
ghost use Rattle.ion_value.specs.Value.{user_item};
ghost use Rattle.ion_value.specs.Items.{item_of};
ghost use Rattle.ion_symbols.specs.Table.{shared_cost};
ghost use Rattle.ion_symbols.specs.declared.known_text.Word.TheVariants as words;
ghost use Rattle.ion_symbols.specs.Buffer.{field_value_of};
ghost use Rattle.ion_symbols.specs.CatalogItems.{catalog_refusal, element_step, entry_step, field_step, fields_step, load_step, passed};
ghost use Rattle.ion_symbols.specs.Declaration.{ends};
ghost use Rattle.ion_symbols.specs.Building.{building-within, Builds, CanBuild, HasRead, IsBuilding, IsFresh, Keeps, StepAs, draft_of, held_by, loading_of, most_of, view_of};

use crate::buffer::SLOT_COST;
use crate::catalog::{Catalog, MAX_VERSION, TABLE_COST};
use crate::entry_view::{EntryView, view};
use crate::item_view::FieldValue;
use crate::known_text::Word;
use crate::shared::SharedTable;
use ion_meter::device::Output;
use ion_meter::fault::{Fault, Reason};
use ion_meter::limits::Limits;
use ion_meter::meter::Meter;
use ion_meter::sink::Sink;
use ion_value::ion_type::Kind;
use ion_value::item::Item;
use ion_value::names::Names;
use ion_value::plain_item::PlainItem;
use ion_value::writer::ValueWriter;
use std::alloc::Allocator;
use std::mem;

/// What is being read of a catalogue.
#[derive(Clone, Copy)]
pub(crate) enum Stage {
    /// Nothing: no value is open.
    Outside,
    /// The fields of a table.
    Fields,
    /// Its list `symbols`.
    Symbols,
}

/// Builds a catalogue from user values, each of which is a shared table (Ion specification, "Shared
/// Symbol Tables"): as a writer that puts nothing.
///
/// It refuses a value that is no shared table, or one whose name and version came before, with
/// `CatalogEntry` at the value's first byte; and what passes the limit on symbol tables with
/// `SymbolLimit`, at the name or the element of `symbols`. It holds what the catalogue costs, and of
/// the table that is being read its name and its slots.
#[derive(Drop)]
pub struct CatalogBuilder<A: Allocator + Copy> {
    limits: Limits,
    // What is being read, and how many containers are open in it that mean nothing.
    stage: Stage,
    inside: u32,
    catalog: Catalog<A>,
    // The table that is being read, and which of its fields have shown themselves.
    table: SharedTable<A>,
    has_version: bool,
    has_symbols: bool,
    // What is counted of the catalogue, with that table.
    cost: u64,
    failed: Option<Fault>,
}

impl<A: Allocator + Copy> CatalogBuilder<A> {
    /// A catalogue of which nothing was read. It takes no memory.
    pub fn new(meter: &Meter<A>, limits: Limits) -> CatalogBuilder<A>
        requires checked { AreChecked limits }
        ensures fresh { IsFresh limits result }
        ensures own { held_by result ≡ 0 }
    {
        CatalogBuilder {
            limits,
            stage: Stage::Outside,
            inside: 0,
            catalog: Catalog::new(meter),
            table: SharedTable::blank(meter),
            has_version: false,
            has_symbols: false,
            cost: 0,
            failed: None,
        }
    }

    /// The tables that are whole; what there is of another one is given back.
    pub fn into_catalog(self, meter: &mut Meter<A>) -> Catalog<A>
        requires held { held_by self ≤ meter.old.held }
        ensures tables { result ≡ (draft_of self).tables }
        ensures cost { Shrinks meter.old meter.new (shared_cost (draft_of self).table) }
    {
        let CatalogBuilder {
            limits: _,
            stage: _,
            inside: _,
            catalog,
            table,
            has_version: _,
            has_symbols: _,
            cost: _,
            failed: _,
        } = self;
        table.release(meter);
        catalog
    }

    /// Gives all back.
    pub fn release(self, meter: &mut Meter<A>)
        requires held { held_by self ≤ meter.old.held }
        ensures cost { Shrinks meter.old meter.new (held_by self) }
    {
        self.into_catalog(meter).release(meter);
    }

    // Whether so much more may be counted.
    fn fits(&self, base: u64, length: u64) -> bool
        requires building { IsBuilding self.now }
        requires base { base ≤ 32 }
        ensures { result ≡ nat_le (self.now.cost + (base + length)) self.now.limits.symbols }
    {
        length <= self.limits.symbols && self.cost + base + length <= self.limits.symbols
    }

    // What means nothing is passed over.
    fn pass(&mut self, what: FieldValue<'_>)
        requires { self.old.inside < 2 ^ 31 }
        ensures gives { loading_of self.new
            ≡ passed (field_value_of what.entry) (loading_of self.old) }
        ensures kept { self.new ≡ record self.old { inside = self.new.inside } }
    {
        match what {
            FieldValue::Begins(_) => self.inside += 1,
            FieldValue::Ends => self.inside = self.inside.saturating_sub(1),
            _ => {}
        }
    }

    // A value at top level begins.
    fn begin_table(&mut self, entry: &EntryView<'_>) -> Result<(), Fault>
        requires inside { self.old.inside ≡ 0 }
        ensures gives { StepAs (entry_step (view_of entry.now) (draft_of self.old))
            result (loading_of self.new) }
        ensures kept { Keeps self.old self.new result }
    {
        if !(entry.shared && entry.begins_struct()) {
            return Err(entry.refusal());
        }
        self.stage = Stage::Fields;
        Ok(())
    }

    // A field `name`.
    fn name(&mut self, meter: &mut Meter<A>, entry: &EntryView<'_>) -> Result<(), Fault>
        requires can_build { CanBuild self.old meter.old }
        requires at { (self.old.stage ≡ Stage.Fields) × (self.old.inside ≡ 0) }
        ensures gives { StepAs (field_step self.old.limits.symbols (view_of entry.now)
            (draft_of self.old) words.Name) result (loading_of self.new) }
        ensures built { Builds self.old self.new meter.old meter.new result }
    {
        let FieldValue::Text(name) = entry.what else {
            return Err(entry.refusal());
        };
        if !self.table.name().is_empty() || name.is_empty() || name == b"$ion".as_slice() {
            return Err(entry.refusal());
        }
        let length = name.len() as u64;
        if !self.fits(TABLE_COST, length) {
            return Err(Fault::Refused(Reason::SymbolLimit, entry.place));
        }
        self.table.put_name(meter, name)?;
        self.cost += TABLE_COST + length;
        Ok(())
    }

    // A field `version`.
    fn version(&mut self, entry: &EntryView<'_>) -> Result<(), Fault>
        requires at { (self.old.stage ≡ Stage.Fields) × (self.old.inside ≡ 0) }
        ensures gives { StepAs (field_step self.old.limits.symbols (view_of entry.now)
            (draft_of self.old) words.Version) result (loading_of self.new) }
        ensures kept { Keeps self.old self.new result }
    {
        let version = entry.version();
        if self.has_version || version > MAX_VERSION as u128 {
            return Err(entry.refusal());
        }
        self.has_version = true;
        self.table.set_version(version as u32);
        self.pass(entry.what);
        Ok(())
    }

    // A field `symbols`.
    fn symbols(&mut self, entry: &EntryView<'_>) -> Result<(), Fault>
        requires at { (self.old.stage ≡ Stage.Fields) × (self.old.inside ≡ 0) }
        ensures gives { StepAs (field_step self.old.limits.symbols (view_of entry.now)
            (draft_of self.old) words.Symbols) result (loading_of self.new) }
        ensures kept { Keeps self.old self.new result }
    {
        if self.has_symbols {
            return Err(entry.refusal());
        }
        self.has_symbols = true;
        match entry.what {
            FieldValue::Begins(Kind::List) => self.stage = Stage::Symbols,
            _ => self.pass(entry.what),
        }
        Ok(())
    }

    // An element of `symbols`.
    fn element(&mut self, meter: &mut Meter<A>, entry: &EntryView<'_>) -> Result<(), Fault>
        requires can_build { CanBuild self.old meter.old }
        requires at { (self.old.stage ≡ Stage.Symbols) × (self.old.inside ≡ 0) }
        ensures gives { StepAs (element_step self.old.limits.symbols (view_of entry.now)
            (draft_of self.old)) result (loading_of self.new) }
        ensures built { Builds self.old self.new meter.old meter.new result }
    {
        let length = entry.length();
        if !self.fits(SLOT_COST, length) {
            return Err(Fault::Refused(Reason::SymbolLimit, entry.place));
        }
        self.table.push_bytes(meter, entry.text())?;
        self.cost += SLOT_COST + length;
        self.pass(entry.what);
        Ok(())
    }

    // A table's struct ends.
    fn end_table(&mut self, meter: &mut Meter<A>, entry: &EntryView<'_>) -> Result<(), Fault>
        requires can_build { CanBuild self.old meter.old }
        requires at { (self.old.stage ≡ Stage.Fields) × (self.old.inside ≡ 0) }
        requires ends { (view_of entry.now).what ≡ ends }
        ensures gives { StepAs (fields_step self.old.limits.symbols (view_of entry.now)
            (draft_of self.old)) result (loading_of self.new) }
        ensures built { Builds self.old self.new meter.old meter.new result }
    {
        let table = mem::replace(&mut self.table, SharedTable::blank(meter));
        if let Err((table, fault)) = self.catalog.add(meter, table) {
            self.table = table;
            return Err(match fault {
                Fault::Refused(..) => entry.refusal(),
                fault => fault,
            });
        }
        self.stage = Stage::Outside;
        self.has_version = false;
        self.has_symbols = false;
        Ok(())
    }

    // A field of a table, or its end.
    fn field(&mut self, meter: &mut Meter<A>, entry: &EntryView<'_>) -> Result<(), Fault>
        requires can_build { CanBuild self.old meter.old }
        requires at { (self.old.stage ≡ Stage.Fields) × (self.old.inside ≡ 0) }
        ensures gives { StepAs (fields_step self.old.limits.symbols (view_of entry.now)
            (draft_of self.old)) result (loading_of self.new) }
        ensures built { Builds self.old self.new meter.old meter.new result }
    {
        if entry.ends() {
            return self.end_table(meter, entry);
        }
        match entry.field {
            Word::Name => self.name(meter, entry),
            Word::Version => self.version(entry),
            Word::Symbols => self.symbols(entry),
            Word::Imports => Err(entry.refusal()),
            _ => {
                self.pass(entry.what);
                Ok(())
            }
        }
    }

    // Takes the next item.
    fn take(&mut self, meter: &mut Meter<A>, entry: &EntryView<'_>) -> Result<(), Fault>
        requires can_build { CanBuild self.old meter.old }
        requires inside { self.old.inside < 2 ^ 31 }
        ensures gives { StepAs (load_step self.old.limits.symbols (loading_of self.old)
            (view_of entry.now)) result (loading_of self.new) }
        ensures built { Builds self.old self.new meter.old meter.new result }
    {
        if self.inside > 0 {
            self.pass(entry.what);
            return Ok(());
        }
        let ends = entry.ends();
        match self.stage {
            Stage::Outside => self.begin_table(entry),
            Stage::Fields => self.field(meter, entry),
            Stage::Symbols if ends => {
                self.stage = Stage::Fields;
                Ok(())
            }
            Stage::Symbols => self.element(meter, entry),
        }
    }
}

impl<O: Output, A: Allocator + Copy> ValueWriter<O, A> for CatalogBuilder<A> {
    ghost puts = { λ limits path. [] };

    ghost adds = { λ limits path item. [] };

    ghost refusal = { catalog_refusal };

    ghost limits = { λ b. b.limits };

    ghost is_new = { λ b. IsFresh b.limits b };

    ghost stands = { HasRead };

    ghost failed = { λ b. b.failed };

    ghost own = { held_by };

    ghost most = { most_of };

    ghost sound = { IsBuilding };

    fn begin(&mut self, sink: &mut Sink<O, A>) -> Result<(), Fault> {
        let outcome = sink.put(b"");
        if let Err(fault) = outcome {
            self.failed = Some(fault);
        }
        outcome
    }

    fn item<N: Names>(
        &mut self,
        meter: &mut Meter<A>,
        _sink: &mut Sink<O, A>,
        item: &Item<'_, N>,
    ) -> Result<(), Fault> {
        if let Some(fault) = self.failed {
            return Err(fault);
        }
        let outcome = self.take(meter, &view(item));
        if let Err(fault) = outcome {
            self.failed = Some(fault);
        }
        outcome
    }

    #[inline(always)]
    fn take_plain(
        &mut self,
        _meter: &mut Meter<A>,
        _sink: &mut Sink<O, A>,
        _item: PlainItem<'_, '_>,
    ) -> bool {
        false
    }

    ghost grows = { λ limits path item none. refl };

    ghost silent = { λ limits path item why e. refl };

    ghost within = { λ b sound. building-within b sound };
}
