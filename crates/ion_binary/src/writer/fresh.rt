//! Plain scalars with a text that is new, added at once to a value that is open.
ghost use Rattle.std.specs.Prelude.{◌≡◌, option_map, IfSome};
ghost use Rattle.ion_value.specs.PlainItems.{placed_text};
ghost use Rattle.ion_value.specs.Value.{user_symbol_at};
ghost use Rattle.ion_value.specs.Writable.{field_symbols};
ghost use Rattle.ion_binary.specs.Canonical.{field_octets, id_in};
ghost use Rattle.ion_binary.specs.Fresh.{AreFresh, CanPutFresh, MayBeFresh};
ghost use Rattle.ion_binary.specs.Opening.{MayCome, both_octets, name_octets};
ghost use Rattle.ion_binary.specs.Plain.{AddsPlain, HaveIds, TakesPlain, as_item};
ghost use Rattle.ion_binary.specs.Writer.{CanTake};

use super::BinWriter;
use super::single::{SingleItem, is_scalar};
use crate::few::{few_of, noted_front};
use crate::noted::{id_octets, noted_scalar};
use crate::scalar::{Octets, spell};
use ion_meter::buf::Added;
use ion_meter::device::Output;
use ion_meter::meter::Meter;
use ion_meter::sink::Sink;
use ion_value::item::{Head, Sym};
use std::alloc::Allocator;

// The one text of a scalar and its field that has no id yet, and the ids of its field and of itself with
// it: each 0 where there is none.
#[derive(Clone, Copy)]
pub(super) struct Fresh<'n> {
    pub(super) text: &'n [u8],
    pub(super) name: u32,
    pub(super) symbol: u32,
}

impl<A: Allocator + Copy> BinWriter<A> {
    // Adds a scalar where the text of its field, or its own, has no id yet and gets the next one, and
    // all is there that it needs. Puts one at top level. Else it answers false.
    #[inline(never)]
    pub(super) fn add_fresh<O: Output>(
        &mut self,
        meter: &mut Meter<A>,
        sink: &mut Sink<O, A>,
        item: SingleItem<'_, '_>,
    ) -> bool
        requires can_take { CanTake self.old meter.old }
        requires comes { MayCome self.old.limits self.old.open_value (as_item item) }
        ensures { TakesPlain self.old self.new meter.old meter.new
            sink.old sink.new (as_item item.entry) result }
    {
        if !is_scalar(item.head) {
            return false;
        }
        if self.open_value.headers.len() == 0 {
            return self.put_whole(sink, &item);
        }
        let Some(note) = self.text_id(item.annotation) else {
            return false;
        };
        match self.fresh_of(&item) {
            Some(fresh) => self.put_fresh(meter, &item, fresh, note),
            None => false,
        }
    }

    // Puts it, after the ids of its field and of its annotation.
    #[inline(always)]
    fn put_fresh(
        &mut self,
        meter: &mut Meter<A>,
        item: &SingleItem<'_, '_>,
        fresh: Fresh<'_>,
        note: u32,
    ) -> bool
        requires can_put { CanPutFresh self.old meter.old (as_item item.now) fresh note }
        ensures { AddsPlain self.old self.new meter.old meter.new (as_item item.now) result }
    {
        let Some(number) = few_of(item.head, fresh.symbol) else {
            return self.put_spelled(meter, item, fresh, note);
        };
        let Some(front) = noted_front(&number.first, number.size, fresh.name, note) else {
            return self.put_spelled(meter, item, fresh, note);
        };
        let block = front.block();
        let octets = Octets {
            front: &block[..front.len()],
            rest: &number.body[..number.size],
        };
        self.give_fresh(meter, item, fresh, note, &octets)
    }

    // Puts a scalar of any kind after the ids of its field and of its annotation.
    #[inline(never)]
    fn put_spelled(
        &mut self,
        meter: &mut Meter<A>,
        item: &SingleItem<'_, '_>,
        fresh: Fresh<'_>,
        note: u32,
    ) -> bool
        requires can_put { CanPutFresh self.old meter.old (as_item item.now) fresh note }
        ensures { AddsPlain self.old self.new meter.old meter.new (as_item item.now) result }
    {
        let spelled = spell(item.head, fresh.symbol);
        let scalar = spelled.octets();
        let notes = id_octets(note);
        let Some(front) = noted_scalar(&self.limits, fresh.name, notes.as_slice(), &scalar) else {
            return false;
        };
        let octets = Octets {
            front: front.as_slice(),
            rest: scalar.rest,
        };
        self.give_fresh(meter, item, fresh, note, &octets)
    }

    // Gives the text that is new the next id, and puts the octets with it.
    #[inline(always)]
    fn give_fresh<'x>(
        &mut self,
        meter: &mut Meter<A>,
        item: &SingleItem<'_, '_>,
        fresh: Fresh<'x>,
        note: u32,
        octets: &Octets<'x>,
    ) -> bool
        requires can_put { CanPutFresh self.old meter.old (as_item item.now) fresh note }
        requires octets { AreFresh self.old.symbols.texts (as_item item.now) fresh note
            (both_octets octets.now) }
        ensures { AddsPlain self.old self.new meter.old meter.new (as_item item.now) result }
    {
        let _item = item;
        let _note = note;
        let count = octets.front.len() + octets.rest.len();
        if !self.open_value.surely_fits(self.limits, count, 0) {
            return false;
        }
        let added = Added {
            bytes: fresh.text,
            front: octets.front,
            rest: octets.rest,
        };
        self.open_value
            .octets
            .give_next(&mut self.symbols, meter, added)
    }

    // The text that is new, if one is and no other: that of the field, or where this has an id that of a
    // symbol value.
    fn fresh_of<'n>(&self, item: &SingleItem<'n, 'n>) -> Option<Fresh<'n>>
        ensures { IfSome result (λ fresh.
            MayBeFresh self.now.symbols.texts (as_item item.now) fresh) }
    {
        let Head::Symbol(_) = item.head else {
            return self.fresh_field(item);
        };
        match self.text_id(item.field) {
            Some(name) => self.fresh_symbol(item, name),
            None => self.fresh_field(item),
        }
    }

    // The text of a symbol value, after the id of its field.
    fn fresh_symbol<'n>(&self, item: &SingleItem<'n, 'n>, name: u32) -> Option<Fresh<'n>>
        requires known { HaveIds self.now.symbols.texts
            (field_symbols (option_map placed_text item.now.field)) }
        requires octets { name_octets name ≡ field_octets (id_in self.now.symbols.texts)
            (option_map user_symbol_at (option_map placed_text item.now.field)) }
        ensures { IfSome result (λ fresh.
            MayBeFresh self.now.symbols.texts (as_item item.now) fresh) }
    {
        let Head::Symbol(at) = item.head else {
            return None;
        };
        let Sym::Text(text) = at.sym else {
            return None;
        };
        Some(Fresh {
            text,
            name,
            symbol: self.symbols.next_id(),
        })
    }

    // The text of a field, before a scalar that needs no other.
    fn fresh_field<'n>(&self, item: &SingleItem<'n, 'n>) -> Option<Fresh<'n>>
        ensures { IfSome result (λ fresh.
            MayBeFresh self.now.symbols.texts (as_item item.now) fresh) }
    {
        let Some(at) = item.field else {
            return None;
        };
        let Some(symbol) = self.name_of(item.head) else {
            return None;
        };
        Some(Fresh {
            text: at.text,
            name: self.symbols.next_id(),
            symbol,
        })
    }
}
