//! The catalogue of shared tables.
ghost use Rattle.std.specs.Prelude.{◌≡◌, ℕ, ◌+◌, ◌-◌, ◌*◌, ◌^◌, ◌<◌, ◌≤◌, ◌++◌, ◌∷◌, [], List, Some, None, length, slice_get, OnOk, OnErr, IfErr, MatchOption, nat_lt, true, false};
ghost use Rattle.ion_meter.specs.declared.fault.Reason.{Reason};
ghost use Rattle.ion_meter.specs.declared.fault.Reason.TheVariants.{CatalogEntry};
ghost use Rattle.ion_meter.specs.declared.fault.Fault.{Fault};
ghost use Rattle.ion_meter.specs.declared.fault.Fault.TheVariants.{Refused, Memory};
ghost use Rattle.ion_meter.specs.Counts.{Grows, IsRefused, Shrinks};
ghost use Rattle.ion_value.specs.Items.{is_none_left};
ghost use Rattle.ion_symbols.specs.Table.{catalog_cost, find, greatest, may_stand};
ghost use Rattle.ion_symbols.specs.Present.{slots_at};
ghost use Rattle.ion_symbols.specs.Declaration.{import_of, is_ignored};
ghost use Rattle.ion_symbols.specs.UserValues.{CatalogIsText, SlotsAreText};
ghost use Rattle.ion_symbols.specs.Catalogue.{FoundAs, Points, WhyNotAdded};

use crate::ranks::rank_of;
use crate::shared::SharedTable;
use crate::slots::MOST_SLOTS;
use ion_meter::fault::{Fault, Reason};
use ion_meter::meter::Meter;
use ion_meter::table::Table;
use std::alloc::Allocator;
use std::marker::Model;

/// The cost of a table in a catalogue besides its own, in counted bytes: its entry and its place.
pub(crate) const TABLE_COST: u64 = 32;

// The cost of its entry among the tables.
const ENTRY_COST: u64 = 24;

// The cost of its place in the order.
const PLACE_COST: u64 = 8;

/// The greatest version that a table may have.
pub(crate) const MAX_VERSION: u32 = 2_147_483_647;

// What an import found.
#[derive(Clone, Copy)]
pub(crate) enum Import {
    // It is ignored.
    Ignored,
    // It asks for a table that is not there.
    Missing,
    // The place of a table, if there is one, and a number of slots; more than there are ids stand
    // for all such numbers.
    Slots(Option<usize>, u64),
}

/// Shared tables, of which no two have the same name and version.
///
/// It holds 32 a table and what the table holds. One that is dropped without `release` leaves the
/// meter's `held` as it was. A clause sees the list of the tables.
#[derive(Drop)]
pub struct Catalog<A: Allocator + Copy> {
    tables: Table<SharedTable<A>, A>,
    // The tables' places in order of name and version.
    order: Table<usize, A>,
}

impl<A: Allocator + Copy> Model for Catalog<A> {
    ghost use Rattle.std.specs.Prelude.{◌≡◌, List};
    ghost use Rattle.ion_symbols.specs.Table.{Shared};
    ghost use Rattle.ion_symbols.specs.Ranks.{IsRanked};

    ghost Value = { List Shared };

    ghost view = { λ c. c.tables.items };

    ghost invariant = { λ c. IsRanked c.tables.items c.order.items c.tables.cost c.order.cost };
}

impl<A: Allocator + Copy> Catalog<A> {
    /// A catalogue without tables. It takes no memory.
    pub fn new(meter: &Meter<A>) -> Catalog<A>
        ensures { result ≡ [] }
    {
        Catalog {
            tables: Table::new(meter, ENTRY_COST),
            order: Table::new(meter, PLACE_COST),
        }
    }

    /// Adds a table.
    ///
    /// A table whose name is empty or `$ion`, whose version is 0 or above 2^31 - 1, or whose name and
    /// version are there already, is handed back with `CatalogEntry` at place 0; and where memory is
    /// refused, with `Memory`. The catalogue is then as it was.
    pub fn add(
        &mut self,
        meter: &mut Meter<A>,
        table: SharedTable<A>,
    ) -> Result<(), (SharedTable<A>, Fault)>
        requires room { meter.old.held + 32 < 2 ^ 63 }
        requires countable { meter.old.refused < 2 ^ 64 - 1 }
        ensures ok { OnOk result ((self.new ≡ self.old ++ table ∷ [])
            × (may_stand self.old table ≡ true)) }
        ensures is_text { SlotsAreText table.slots → CatalogIsText self.old
            → CatalogIsText self.new }
        ensures cost { OnOk result (Grows meter.old meter.new 32) }
        ensures returned { IfErr result (λ failed. failed.0 ≡ table) }
        ensures err { OnErr result (self.new ≡ self.old) }
        ensures why { IfErr result
            (λ failed. WhyNotAdded self.old table meter.old meter.new failed.1) }
    {
        if !self.may_take(&table) {
            return Err((table, Fault::Refused(Reason::CatalogEntry, 0)));
        }
        let (tables, order) = (self.tables.as_slice(), self.order.as_slice());
        let Err(rank) = rank_of(tables, order, table.name(), table.version() as u128) else {
            return Err((table, Fault::Refused(Reason::CatalogEntry, 0)));
        };
        let place = tables.len();
        let order = &mut self.order;
        if let Err(failed) = self
            .tables
            .push_and_insert(order, meter, table, rank, place)
        {
            return Err(failed);
        }
        Ok(())
    }

    // Whether a table may be added.
    fn may_take(&self, table: &SharedTable<A>) -> bool
        ensures { result ≡ may_stand self.now table.now }
    {
        let name = table.name();
        let version = table.version();
        if name.is_empty() || name == b"$ion".as_slice() || version == 0 || version > MAX_VERSION {
            return false;
        }
        self.place_of(name, version as u128).is_none()
    }

    /// The table of this name and version, if there is one.
    pub fn find(&self, name: &str, version: u32) -> Option<&SharedTable<A>>
        ensures { MatchOption result (find self.now name.now version ≡ None)
            (λ table. find self.now name.now version ≡ Some table.now) }
    {
        let place = self.place_of(name.as_bytes(), version as u128)?;
        self.get(place)
    }

    /// How many tables there are.
    pub fn len(&self) -> usize
        ensures { result ≡ length self.now }
    {
        self.tables.as_slice().len()
    }

    /// Whether there is none.
    pub fn is_empty(&self) -> bool
        ensures { result ≡ is_none_left self.now }
    {
        self.tables.as_slice().is_empty()
    }

    // Where the table of this name and version stands.
    pub(crate) fn place_of(&self, name: &[u8], version: u128) -> Option<usize>
        ensures { Points self.now (find self.now name.now version) result }
    {
        let order = self.order.as_slice();
        match rank_of(self.tables.as_slice(), order, name, version) {
            Ok(rank) => Some(order[rank]),
            Err(_) => None,
        }
    }

    // Where the table of this name with the greatest version stands.
    pub(crate) fn greatest(&self, name: &[u8]) -> Option<usize>
        ensures { Points self.now (greatest self.now name.now) result }
    {
        let (tables, order) = (self.tables.as_slice(), self.order.as_slice());
        let past = match rank_of(tables, order, name, MAX_VERSION as u128 + 1) {
            Ok(_) => return None,
            Err(rank) => rank,
        };
        if past == 0 {
            return None;
        }
        let place = order[past - 1];
        if tables[place].name() == name {
            Some(place)
        } else {
            None
        }
    }

    // The table at a place, if there is one.
    #[inline]
    pub(crate) fn get(&self, place: usize) -> Option<&SharedTable<A>>
        ensures { MatchOption result (slice_get self.now place ≡ None)
            (λ table. slice_get self.now place ≡ Some table.now) }
    {
        self.tables.as_slice().get(place)
    }

    // How many slots the table at a place has, 0 where there is none.
    pub(crate) fn count_at(&self, place: usize) -> u64
        ensures { result ≡ length (slots_at self.now (Some place)) }
    {
        match self.get(place) {
            None => 0,
            Some(table) => table.len() as u64,
        }
    }

    // What an import of this name, version and greatest id finds.
    pub(crate) fn find_import(&self, name: &[u8], version: u128, max_id: Option<u128>) -> Import
        ensures { FoundAs self.now (is_ignored name.now)
            (import_of self.now name.now version max_id) result }
    {
        if name.is_empty() || name == b"$ion".as_slice() {
            return Import::Ignored;
        }
        let exact = self.place_of(name, version);
        match max_id {
            None => match exact {
                None => Import::Missing,
                Some(place) => Import::Slots(exact, self.count_at(place)),
            },
            Some(most) => {
                let count = most.min(MOST_SLOTS as u128 + 1) as u64;
                match exact {
                    Some(_) => Import::Slots(exact, count),
                    None => Import::Slots(self.greatest(name), count),
                }
            }
        }
    }

    /// Gives all back.
    pub fn release(self, meter: &mut Meter<A>)
        requires { catalog_cost self ≤ meter.old.held }
        ensures { Shrinks meter.old meter.new (catalog_cost self) }
    {
        let Catalog { mut tables, order } = self;
        order.release(meter);
        while let Some(table) = tables.pop(meter) {
            table.release(meter);
        }
        tables.release(meter);
    }
}
