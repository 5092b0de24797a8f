//! Plain items, added at once to a value that is open, or put where they are whole.
ghost use Rattle.std.specs.Prelude.{◌≡◌, true, false};
ghost use Rattle.ion_value.specs.Items.{raw_head};
ghost use Rattle.ion_value.specs.Value.{begin, end, string, whole};
ghost use Rattle.ion_binary.specs.Opening.{MayCome};
ghost use Rattle.ion_binary.specs.Plain.{AddsPlain, IsWhole, TakesPlain, as_item, as_pair};
ghost use Rattle.ion_binary.specs.Writer.{CanTake};

use super::BinWriter;
use super::single::{SingleItem, is_scalar};
use crate::declaration::FIRST_ID;
use crate::few::few_of;
use crate::header::header;
use ion_meter::device::Output;
use ion_meter::meter::Meter;
use ion_meter::sink::Sink;
use ion_value::ion_type::Kind;
use ion_value::item::Head;
use ion_value::plain_item::TextAt;
use std::alloc::Allocator;

impl<A: Allocator + Copy> BinWriter<A> {
    // Takes an item, where all is there that it needs: ids of its texts, or in a container of a scalar with
    // one annotation at most of all but one, and room. Else it answers false. The sink is for a scalar at
    // top level, which `add_fresh` puts, so that no item in a container is asked where it stands.
    #[inline(always)]
    pub(super) fn add_plain<O: Output>(
        &mut self,
        meter: &mut Meter<A>,
        sink: &mut Sink<O, A>,
        item: SingleItem<'_, '_>,
        second: Option<TextAt<'_>>,
    ) -> bool
        requires can_take { CanTake self.old meter.old }
        requires comes { MayCome self.old.limits self.old.open_value (as_pair item second) }
        ensures { TakesPlain self.old self.new meter.old meter.new
            sink.old sink.new (as_pair item.entry second.entry) result }
    {
        if let Some(second) = second {
            if !is_scalar(item.head) {
                return false;
            }
            return self.add_pair(meter, &item, second.text, second.place);
        }
        match item.head {
            Head::Begin(kind) => self.begin_plain(meter, &item, kind),
            Head::End => self.end_plain(meter, &item),
            Head::Marker => false,
            Head::String(text) => self.add_string(meter, sink, &item, text),
            _ => self.add_scalar(meter, sink, &item),
        }
    }

    // Begins a container that has no annotation, in another or at top level where no text is forgotten.
    #[inline(always)]
    fn begin_plain(&mut self, meter: &mut Meter<A>, item: &SingleItem<'_, '_>, kind: Kind) -> bool
        requires can_take { CanTake self.old meter.old }
        requires comes { MayCome self.old.limits self.old.open_value (as_item item.now) }
        requires head { raw_head item.now.head ≡ begin kind }
        ensures { AddsPlain self.old self.new meter.old meter.new (as_item item.now) result }
    {
        let begins = self.open_value.headers.len() == 0;
        if begins && self.symbols.cost() > self.limits.symbols / 2 {
            return false;
        }
        if item.annotation.is_some() {
            return false;
        }
        let Some(name) = self.text_id(item.field) else {
            return false;
        };
        self.open_value
            .begin_member(meter, &self.limits, name, kind)
    }

    // Ends a container that stands in another.
    #[inline(always)]
    fn end_plain(&mut self, meter: &mut Meter<A>, item: &SingleItem<'_, '_>) -> bool
        requires can_take { CanTake self.old meter.old }
        requires comes { MayCome self.old.limits self.old.open_value (as_item item.now) }
        requires head { raw_head item.now.head ≡ end }
        ensures { AddsPlain self.old self.new meter.old meter.new (as_item item.now) result }
    {
        let _item = item;
        self.open_value.end_if_room(meter, self.limits)
    }

    // Ends the value at top level and puts it, where all is there that it needs: it has no wrapper, its
    // texts have been declared, no version marker is due, and the sink has room for it. Else it
    // answers false.
    #[inline(never)]
    pub(super) fn end_whole<O: Output>(
        &mut self,
        meter: &mut Meter<A>,
        sink: &mut Sink<O, A>,
        item: &SingleItem<'_, '_>,
    ) -> bool
        requires can_take { CanTake self.old meter.old }
        requires comes { MayCome self.old.limits self.old.open_value (as_item item.now) }
        requires head { raw_head item.now.head ≡ end }
        ensures { TakesPlain self.old self.new meter.old meter.new
            sink.old sink.new (as_item item.now) result }
    {
        let _item = item;
        let Some(outermost) = self.open_value.headers.only() else {
            return false;
        };
        if self.due || outermost.place != 0 {
            return false;
        }
        if self.symbols.new_since(FIRST_ID).len() != self.declared as usize {
            return false;
        }
        let Some(octets) = self.open_value.octets.all() else {
            return false;
        };
        let before = header(outermost.code, octets.len() as u64);
        if sink.room() < before.len() + octets.len() {
            return false;
        }
        sink.put_within(before.as_slice());
        sink.put_within(octets);
        self.open_value.clear(meter, self.limits);
        true
    }

    // Adds a scalar that is no string.
    #[inline(always)]
    fn add_scalar<O: Output>(
        &mut self,
        meter: &mut Meter<A>,
        sink: &mut Sink<O, A>,
        item: &SingleItem<'_, '_>,
    ) -> bool
        requires can_take { CanTake self.old meter.old }
        requires comes { MayCome self.old.limits self.old.open_value (as_item item.now) }
        requires whole { IsWhole (raw_head item.now.head) }
        ensures { TakesPlain self.old self.new meter.old meter.new
            sink.old sink.new (as_item item.now) result }
    {
        let Some(symbol) = self.name_of(item.head) else {
            return self.add_fresh(meter, sink, *item);
        };
        let Some(ids) = self.ids_of(item) else {
            return self.add_fresh(meter, sink, *item);
        };
        match few_of(item.head, symbol) {
            Some(number) => {
                self.open_value
                    .put_few(meter, &self.limits, ids.name, ids.note, &number)
            }
            None => self
                .open_value
                .put_spelled(meter, &self.limits, ids.name, ids.note, item.head, symbol),
        }
    }

    // Adds a string.
    #[inline(always)]
    fn add_string<O: Output>(
        &mut self,
        meter: &mut Meter<A>,
        sink: &mut Sink<O, A>,
        item: &SingleItem<'_, '_>,
        text: &[u8],
    ) -> bool
        requires can_take { CanTake self.old meter.old }
        requires comes { MayCome self.old.limits self.old.open_value (as_item item.now) }
        requires head { raw_head item.now.head ≡ whole (string text.now) }
        ensures { TakesPlain self.old self.new meter.old meter.new
            sink.old sink.new (as_item item.now) result }
    {
        let Some(ids) = self.ids_of(item) else {
            return self.add_fresh(meter, sink, *item);
        };
        self.open_value
            .put_text(meter, &self.limits, ids.name, ids.note, text)
    }
}
