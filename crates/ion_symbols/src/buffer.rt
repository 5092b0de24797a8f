//! One declaration of a symbol table, item by item.
ghost use Rattle.std.specs.Prelude.{◌≡◌, ◌≢◌, ◌&&◌, ◌*◌, ◌+◌, ◌-◌, ◌<◌, ◌≤◌, ◌^◌, ◌↔◌, ◌∷◌, ℕ, [], IfErr, List, None, OnErr, OnOk, Option, Err, Ok, false, length, nat_le, true};
ghost use Rattle.ion_meter.specs.Counts.{Shrinks};
ghost use Rattle.ion_meter.specs.declared.fault.Fault.TheVariants.{Memory, Refused};
ghost use Rattle.ion_meter.specs.declared.fault.Reason.{Reason};
ghost use Rattle.ion_value.specs.declared.ion_type.Kind.TheVariants as kinds;
ghost use Rattle.ion_value.specs.Items.{raw_item};
ghost use Rattle.ion_value.specs.Reading.{Finished, Stopped};
ghost use Rattle.ion_value.specs.Shares.{Charges, ReadCauses, fault_of};
ghost use Rattle.ion_symbols.specs.Table as tables;
ghost use Rattle.ion_symbols.specs.Table.{Shared, most_slots, table_cost, text_at};
ghost use Rattle.ion_symbols.specs.Declaration.{area_turn, at, element_turn, head_view, then_turn, imports_turn, keeping, with_import_name, next, on, part_turn, skip_ignored, start, item_view, turn};
ghost use Rattle.ion_symbols.specs.Buffer.{CanInstall, CanTake, HoldsSame, IsPending, Takes, TurnGives, declaring_in, declaring_of, ground_in, import_end_turn, own_of, pending_in, pending_of, table_left, item_view_of, field_value_of};
ghost use Rattle.ion_symbols.specs.Steps.{CanGather, CanRead, GatherGives, Gathered, LeavesReader, LeavesTable, coming_after, coming_inside};

use crate::catalog::Import;
use crate::checks::check_item;
use crate::item_view::{FieldValue, ItemView, view};
use crate::known_text::{Area, Word};
use crate::slots::{MOST_SLOTS, Slots};
use crate::symbols::{FoundImport, IMPORT_COST, Symbols};
use ion_meter::buf::Buf;
use ion_meter::fault::{Fault, Reason};
use ion_meter::limits::Limits;
use ion_meter::meter::Meter;
use ion_meter::table::Table;
use ion_value::ion_type::Kind;
use ion_value::item::{Head, Item};
use ion_value::names::NoNames;
use ion_value::reader::RawReader;
use std::alloc::Allocator;

/// The cost of a slot besides its text, in counted bytes.
pub(crate) const SLOT_COST: u64 = 16;

/// The import that is being read, but for its name.
#[derive(Clone, Copy)]
pub(crate) struct Entry {
    pub(crate) has_name: bool,
    pub(crate) has_version: bool,
    pub(crate) has_max: bool,
    pub(crate) version: u128,
    pub(crate) max_id: Option<u128>,
    pub(crate) place: u64,
}

/// A declaration that is being read (Ion specification, "Local Symbol Tables"): what was met of it,
/// and its slots and imports so far. Nothing else of it is held but the name of the import being
/// read.
///
/// It holds 16 a slot and the length of its text, 32 an import, and the length of that name.
#[derive(Drop)]
pub struct SymbolBuffer<A: Allocator + Copy> {
    // What is being read, and how many containers are open in it that are ignored.
    pub(crate) area: Area,
    pub(crate) inside: u32,
    pub(crate) has_imports: bool,
    pub(crate) has_symbols: bool,
    // The present table is kept.
    pub(crate) keeps: bool,
    pub(crate) imports: Table<FoundImport, A>,
    pub(crate) import_slots: u64,
    pub(crate) slots: Slots<A>,
    // What is counted, and how many slots there are, both with those of the kept table.
    pub(crate) cost: u64,
    pub(crate) count: u64,
    pub(crate) entry: Entry,
    pub(crate) name: Buf<A>,
}

impl Entry {
    // An import of which nothing was read, whose struct begins at a place.
    fn new(place: u64) -> Entry
        ensures { result ≡ record {
          has_name = false;
          has_version = false;
          has_max = false;
          version = 1;
          max_id = None;
          place = place;
        } }
    {
        Entry {
            has_name: false,
            has_version: false,
            has_max: false,
            version: 1,
            max_id: None,
            place,
        }
    }
}

impl<A: Allocator + Copy> SymbolBuffer<A> {
    /// Reads a declaration whose beginning the raw reader has taken, and puts the table that it
    /// leaves in place of the present one.
    ///
    /// It answers false where the reader ends inside of the declaration. It refuses an id above the
    /// present table with `BadSymbol`, a field that stands twice and a shared table that is not there
    /// with `BadTable`, and what passes the limit on symbol tables with `SymbolLimit`; the reader's
    /// faults are passed on. Where it does not answer true, the present table stays, and what was
    /// read of the other is given back. At no moment do the two hold more than twice the limit.
    pub fn read<R: RawReader<A>>(
        meter: &mut Meter<A>,
        limits: Limits,
        raw: &mut R,
        symbols: &mut Symbols<'_, A>,
    ) -> Result<bool, Fault>
        requires can_read { CanRead R.RawReader limits symbols.old raw.old meter.old }
        requires level { R.opened raw.old ≡ kinds.Struct ∷ [] }
        ensures gives { R.observable raw.old → result ≡ Ok true
            → coming_inside symbols.old limits.symbols start (R.reading raw.old)
            ≡ coming_after symbols.old limits.symbols symbols.new.table (R.reading raw.new) }
        ensures ends { R.observable raw.old → result ≡ Ok false
            → (coming_inside symbols.old limits.symbols start (R.reading raw.old) ≡ Finished)
            × (R.reading raw.new ≡ Finished) }
        ensures refuses { R.observable raw.old → R.failed raw.old ≡ None
            → (r : Reason) (p : ℕ) → result ≡ Err (Refused r p)
            → coming_inside symbols.old limits.symbols start (R.reading raw.old) ≡ Stopped r p }
        ensures level { result ≡ Ok true → R.opened raw.new ≡ [] }
        ensures table { LeavesTable limits.symbols symbols.old symbols.new result }
        ensures leaves { LeavesReader R.RawReader raw.old raw.new result }
        ensures causes { R.failed raw.old ≡ None → ReadCauses (fault_of result) meter.old meter.new
            (R.failures raw.old) (R.failures raw.new) (R.exceeds raw.old) }
        ensures charges { Charges meter.old meter.new (R.own raw.old + table_cost symbols.old.table)
            (R.own raw.new + table_cost symbols.new.table) (R.most raw.old + 2 * limits.symbols) }
    {
        let mut buffer = SymbolBuffer::new(meter);
        let outcome = gather(meter, limits.symbols, raw, symbols, &mut buffer);
        if let Ok(true) = outcome {
            buffer.install(meter, limits.symbols, symbols)?;
            return Ok(true);
        }
        buffer.release(meter);
        outcome
    }

    // A declaration of which nothing was read. It takes no memory.
    fn new(meter: &Meter<A>) -> Self
        ensures pending { (limit : ℕ) (old : tables.Table) → IsPending limit old result }
        ensures start { (catalog : List Shared) → declaring_of catalog result ≡ start }
        ensures own { own_of result ≡ 0 }
    {
        SymbolBuffer {
            area: Area::Fields,
            inside: 0,
            has_imports: false,
            has_symbols: false,
            keeps: false,
            imports: Table::new(meter, IMPORT_COST),
            import_slots: 0,
            slots: Slots::new(meter),
            cost: 0,
            count: 0,
            entry: Entry::new(0),
            name: Buf::new(meter),
        }
    }

    // Whether so much may be counted.
    fn fits(&self, limit: u64, cost: u64, count: u64) -> bool
        requires { limit ≤ 2 ^ 30 }
        ensures { result
            ≡ nat_le (self.now.cost + cost) limit && nat_le (self.now.count + count) most_slots }
    {
        self.cost.saturating_add(cost) <= limit && self.count.saturating_add(count) <= MOST_SLOTS
    }

    // What is ignored is passed over.
    fn pass(&mut self, what: FieldValue<'_>)
        requires { self.old.inside < 2 ^ 31 }
        ensures gives { (catalog : List Shared) → declaring_of catalog self.new
            ≡ skip_ignored (field_value_of what.entry) (declaring_of catalog self.old) }
        ensures kept { self.new ≡ record self.old { inside = self.new.inside } }
    {
        match what {
            FieldValue::Begins(_) => self.inside += 1,
            FieldValue::Ends => self.inside = self.inside.saturating_sub(1),
            _ => {}
        }
    }

    // An element of `symbols`.
    #[tactic(auto, using(crate::proofs::Keeping::cost_push))]
    fn element(
        &mut self,
        meter: &mut Meter<A>,
        limit: u64,
        symbols: &Symbols<'_, A>,
        item_view: &ItemView<'_>,
    ) -> Result<bool, Fault>
        requires can_take { CanTake limit symbols.now self.old meter.old }
        requires within { (self.old.area ≡ Area.Symbols) × (self.old.inside ≡ 0) }
        ensures pending { OnOk result (IsPending limit symbols.now.table self.new) }
        ensures turn { TurnGives symbols.now (element_turn (ground_in symbols.now limit)
            (item_view_of item_view.now) (pending_in symbols.now self.old)) result self.new }
        ensures takes { Takes limit self.old self.new meter.old meter.new result }
    {
        let length = match item_view.what {
            FieldValue::Text(text) => text.len() as u64,
            _ => 0,
        };
        if length > limit || !self.fits(limit, SLOT_COST + length, 1) {
            return Err(Fault::Refused(Reason::SymbolLimit, item_view.place));
        }
        match item_view.what {
            FieldValue::Text(text) => self.slots.push_text(meter, text)?,
            _ => self.slots.push_none(meter)?,
        }
        self.cost += SLOT_COST + length;
        self.count += 1;
        self.pass(item_view.what);
        Ok(false)
    }

    // The present table is kept, and counted.
    fn keep(&mut self, limit: u64, symbols: &Symbols<'_, A>, place: u64) -> Result<bool, Fault>
        requires limit { (limit ≤ 2 ^ 30) × (table_cost symbols.now.table ≤ limit) }
        requires within { (self.old.area ≡ Area.Fields)
            × ((self.old.inside ≡ 0) × (self.old.has_imports ≡ true)) }
        requires alone { (self.old.imports.items ≡ []) × (self.old.keeps ≡ false) }
        requires pending { IsPending limit symbols.now.table self.old }
        ensures pending { OnOk result (IsPending limit symbols.now.table self.new) }
        ensures turn { TurnGives symbols.now (then_turn
            (keeping (ground_in symbols.now limit) place (pending_in symbols.now self.old))
            (λ p. on (at Area.Fields p))) result self.new }
        ensures same { HoldsSame self.old self.new result }
    {
        let cost = symbols.cost();
        let count = symbols.count();
        if !self.fits(limit, cost, count) {
            return Err(Fault::Refused(Reason::SymbolLimit, place));
        }
        self.keeps = true;
        self.cost += cost;
        self.count += count;
        Ok(false)
    }

    // A field of the declaration, or its end.
    fn field(
        &mut self,
        limit: u64,
        symbols: &Symbols<'_, A>,
        item_view: &ItemView<'_>,
    ) -> Result<bool, Fault>
        requires limit { (limit ≤ 2 ^ 30) × (table_cost symbols.now.table ≤ limit) }
        requires within { (self.old.area ≡ Area.Fields) × (self.old.inside ≡ 0) }
        requires pending { IsPending limit symbols.now.table self.old }
        ensures pending { OnOk result (IsPending limit symbols.now.table self.new) }
        ensures turn { TurnGives symbols.now (area_turn (ground_in symbols.now limit)
            (item_view_of item_view.now) (pending_in symbols.now self.old)
            Area.Fields) result self.new }
        ensures same { HoldsSame self.old self.new result }
    {
        if let FieldValue::Ends = item_view.what {
            return Ok(true);
        }
        match item_view.field {
            Word::Imports => {
                if self.has_imports {
                    return Err(Fault::Refused(Reason::BadTable, item_view.field_place));
                }
                self.has_imports = true;
                match item_view.what {
                    FieldValue::Begins(Kind::List) => self.area = Area::Imports,
                    FieldValue::Names(Word::Declaration) => return self.keep(
                        limit,
                        symbols,
                        item_view.place,
                    ),
                    _ => self.pass(item_view.what),
                }
            }
            Word::Symbols => {
                if self.has_symbols {
                    return Err(Fault::Refused(Reason::BadTable, item_view.field_place));
                }
                self.has_symbols = true;
                match item_view.what {
                    FieldValue::Begins(Kind::List) => self.area = Area::Symbols,
                    _ => self.pass(item_view.what),
                }
            }
            _ => self.pass(item_view.what),
        }
        Ok(false)
    }

    // An element of `imports`, or the end of the list.
    fn import(&mut self, item_view: &ItemView<'_>)
        requires within { (self.old.area ≡ Area.Imports) × (self.old.inside ≡ 0) }
        requires nameless { self.old.name ≡ [] }
        ensures turn { (catalog : List Shared)
            → imports_turn (item_view_of item_view.now) (pending_of catalog
            self.old) (field_value_of item_view.now.what)
            ≡ on (declaring_of catalog self.new) }
        ensures kept { self.new
            ≡ record self.old {
              area = self.new.area;
              inside = self.new.inside;
              entry = self.new.entry;
            } }
        ensures pending { (limit : ℕ) (old : tables.Table)
            → IsPending limit old self.old → IsPending limit old self.new }
    {
        match item_view.what {
            FieldValue::Ends => self.area = Area::Fields,
            FieldValue::Begins(Kind::Struct) => {
                self.area = Area::Import;
                self.entry = Entry::new(item_view.place);
            }
            _ => self.pass(item_view.what),
        }
    }

    // The name of an import, which is counted until the import ends.
    fn take_name(
        &mut self,
        meter: &mut Meter<A>,
        limit: u64,
        symbols: &Symbols<'_, A>,
        text: &[u8],
        place: u64,
    ) -> Result<bool, Fault>
        requires can_take { CanTake limit symbols.now self.old meter.old }
        requires within { (self.old.area ≡ Area.Import)
            × ((self.old.inside ≡ 0) × (self.old.entry.has_name ≡ true)) }
        requires nameless { self.old.name ≡ [] }
        ensures pending { OnOk result (IsPending limit symbols.now.table self.new) }
        ensures turn { TurnGives symbols.now (then_turn
            (with_import_name (ground_in symbols.now limit) place text.now
            (pending_in symbols.now self.old))
            (λ p. on (at Area.Import p))) result self.new }
        ensures takes { Takes limit self.old self.new meter.old meter.new result }
    {
        let length = text.len() as u64;
        if !self.fits(limit, length, 0) {
            return Err(Fault::Refused(Reason::SymbolLimit, place));
        }
        self.name.extend(meter, text)?;
        self.cost += length;
        Ok(false)
    }

    // A field of an import.
    fn part(
        &mut self,
        meter: &mut Meter<A>,
        limit: u64,
        symbols: &Symbols<'_, A>,
        item_view: &ItemView<'_>,
    ) -> Result<bool, Fault>
        requires can_take { CanTake limit symbols.now self.old meter.old }
        requires within { (self.old.area ≡ Area.Import) × (self.old.inside ≡ 0) }
        ensures pending { OnOk result (IsPending limit symbols.now.table self.new) }
        ensures turn { TurnGives symbols.now (part_turn (ground_in symbols.now limit)
            (item_view_of item_view.now) (pending_in symbols.now self.old)) result self.new }
        ensures takes { Takes limit self.old self.new meter.old meter.new result }
    {
        match item_view.field {
            Word::Name => {
                if self.entry.has_name {
                    return Err(Fault::Refused(Reason::BadTable, item_view.field_place));
                }
                self.entry.has_name = true;
                if let FieldValue::Text(text) = item_view.what {
                    return self.take_name(meter, limit, symbols, text, item_view.place);
                }
                self.pass(item_view.what);
            }
            Word::Version => {
                if self.entry.has_version {
                    return Err(Fault::Refused(Reason::BadTable, item_view.field_place));
                }
                self.entry.has_version = true;
                self.entry.version = match item_view.what {
                    FieldValue::Int(false, number) => number.max(1),
                    _ => 1,
                };
                self.pass(item_view.what);
            }
            Word::MaxId => {
                if self.entry.has_max {
                    return Err(Fault::Refused(Reason::BadTable, item_view.field_place));
                }
                self.entry.has_max = true;
                self.entry.max_id = match item_view.what {
                    FieldValue::Int(false, number) => Some(number),
                    _ => None,
                };
                self.pass(item_view.what);
            }
            _ => self.pass(item_view.what),
        }
        Ok(false)
    }

    // An import's struct ends: its name is given back, and what it found is kept.
    fn end_import(
        &mut self,
        meter: &mut Meter<A>,
        limit: u64,
        symbols: &Symbols<'_, A>,
    ) -> Result<bool, Fault>
        requires can_take { CanTake limit symbols.now self.old meter.old }
        requires within { (self.old.area ≡ Area.Import) × (self.old.inside ≡ 0) }
        ensures pending { OnOk result (IsPending limit symbols.now.table self.new) }
        ensures turn { TurnGives symbols.now (import_end_turn (ground_in symbols.now limit)
            (pending_in symbols.now self.old)) result self.new }
        ensures takes { Takes limit self.old self.new meter.old meter.new result }
    {
        self.area = Area::Imports;
        let length = self.name.as_slice().len() as u64;
        let found = symbols.catalog().find_import(
            self.name.as_slice(),
            self.entry.version,
            self.entry.max_id,
        );
        self.name.clear(meter);
        self.cost -= length;
        let (table, count) = match found {
            Import::Ignored => return Ok(false),
            Import::Missing => return Err(Fault::Refused(Reason::BadTable, self.entry.place)),
            Import::Slots(table, count) => (table, count),
        };
        if !self.fits(limit, IMPORT_COST, count) {
            return Err(Fault::Refused(Reason::SymbolLimit, self.entry.place));
        }
        let start = self.import_slots;
        if let Err(failed) = self.imports.push(
            meter,
            FoundImport {
                table,
                start,
                count,
            },
        ) {
            return Err(failed.1);
        }
        self.import_slots += count;
        self.cost += IMPORT_COST;
        self.count += count;
        Ok(false)
    }

    // Takes the next item of the declaration in; true as it ends.
    fn take(
        &mut self,
        meter: &mut Meter<A>,
        limit: u64,
        symbols: &Symbols<'_, A>,
        item: &Item<'_, NoNames>,
    ) -> Result<bool, Fault>
        requires can_take { CanTake limit symbols.now self.old meter.old }
        requires kept { table_cost symbols.now.table ≤ limit }
        requires inside { self.old.inside < 2 ^ 31 }
        ensures pending { OnOk result (IsPending limit symbols.now.table self.new) }
        ensures nameless { result ≡ Ok true → self.new.name ≡ [] }
        ensures turn { TurnGives symbols.now
            (turn (ground_in symbols.now limit) (declaring_in symbols.now self.old)
            (item_view (text_at symbols.now.table) (raw_item item.now))) result self.new }
        ensures takes { Takes limit self.old self.new meter.old meter.new result }
    {
        if self.inside > 0 {
            self.pass_item(item);
            return Ok(false);
        }
        let item_view = view(symbols, item);
        let ends = item_view.ends();
        match self.area {
            Area::Fields => self.field(limit, symbols, &item_view),
            Area::Imports => {
                self.import(&item_view);
                Ok(false)
            }
            Area::Symbols if ends => {
                self.area = Area::Fields;
                Ok(false)
            }
            Area::Symbols => self.element(meter, limit, symbols, &item_view),
            Area::Import if ends => self.end_import(meter, limit, symbols),
            Area::Import => self.part(meter, limit, symbols, &item_view),
        }
    }

    // An item inside of what is ignored.
    #[inline]
    fn pass_item(&mut self, item: &Item<'_, NoNames>)
        requires { self.old.inside < 2 ^ 31 }
        ensures gives { (catalog : List Shared) (texts : ℕ → Option (List ℕ))
            → declaring_of catalog self.new
            ≡ skip_ignored (head_view texts (raw_item item.now).head)
            (declaring_of catalog self.old) }
        ensures kept { self.new ≡ record self.old { inside = self.new.inside } }
    {
        match item.head() {
            Head::Begin(_) => self.inside += 1,
            Head::End => self.inside = self.inside.saturating_sub(1),
            _ => {}
        }
    }

    // Puts the table that was read after the present one where that is kept, else in its place.
    // Where memory is refused, that one stays; this one is given back.
    fn install(
        self,
        meter: &mut Meter<A>,
        limit: u64,
        symbols: &mut Symbols<'_, A>,
    ) -> Result<(), Fault>
        requires can_install { CanInstall limit symbols.old self meter.old }
        ensures table { OnOk result (symbols.new.table ≡ table_left symbols.old self) }
        ensures cheap { table_cost symbols.new.table ≤ limit }
        ensures err { OnErr result (symbols.new ≡ symbols.old) }
        ensures catalog { symbols.new.catalog ≡ symbols.old.catalog }
        ensures memory { IfErr result
            (λ fault. (fault ≡ Memory) × (meter.old.refused < meter.new.refused)) }
        ensures counted { OnOk result (meter.new.refused ≡ meter.old.refused) }
        ensures charges { Charges meter.old meter.new (table_cost symbols.old.table + own_of self)
            (table_cost symbols.new.table) (2 * limit) }
    {
        let SymbolBuffer {
            area: _,
            inside: _,
            has_imports: _,
            has_symbols: _,
            keeps,
            imports,
            import_slots,
            slots,
            cost: _,
            count: _,
            entry: _,
            name,
        } = self;
        name.release(meter);
        if !keeps {
            symbols.replace(meter, imports, import_slots, slots);
            return Ok(());
        }
        let outcome = symbols.append(meter, &slots);
        imports.release(meter);
        slots.release(meter);
        outcome
    }

    // Gives all back.
    fn release(self, meter: &mut Meter<A>)
        requires { own_of self ≤ meter.old.held }
        ensures { Shrinks meter.old meter.new (own_of self) }
    {
        let SymbolBuffer {
            area: _,
            inside: _,
            has_imports: _,
            has_symbols: _,
            keeps: _,
            imports,
            import_slots: _,
            slots,
            cost: _,
            count: _,
            entry: _,
            name,
        } = self;
        imports.release(meter);
        slots.release(meter);
        name.release(meter);
    }
}

// Takes the items of a declaration in up to its end; false where the reader ends inside of it.
fn gather<R: RawReader<A>, A: Allocator + Copy>(
    meter: &mut Meter<A>,
    limit: u64,
    raw: &mut R,
    symbols: &Symbols<'_, A>,
    buffer: &mut SymbolBuffer<A>,
) -> Result<bool, Fault>
    requires can_gather { CanGather R.RawReader limit symbols.now raw.old buffer.old meter.old }
    ensures gives { GatherGives R.RawReader limit symbols.now buffer.old buffer.new
        raw.old raw.new result }
    ensures gathered { Gathered R.RawReader limit symbols.now buffer.new raw.new
        meter.old meter.new result }
    ensures leaves { LeavesReader R.RawReader raw.old raw.new result }
    ensures causes { R.failed raw.old ≡ None → ReadCauses (fault_of result) meter.old meter.new
        (R.failures raw.old) (R.failures raw.new) (R.exceeds raw.old) }
    ensures charges { Charges meter.old meter.new (R.own raw.old + own_of buffer.old)
        (R.own raw.new + own_of buffer.new) (R.most raw.old + limit) }
{
    'items: while raw.next(meter)? {
        let item = raw.item();
        if let Err(fault) = check_item(symbols, false, &item) {
            return Err(fault);
        }
        match buffer.take(meter, limit, symbols, &item) {
            Ok(false) => {}
            Ok(true) => return Ok(true),
            Err(fault) => return Err(fault),
        }
    }
    Ok(false)
}
