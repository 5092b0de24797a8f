//! Plain scalars at top level, put at once.
ghost use Rattle.std.specs.Prelude.{◌≡◌, true};
ghost use Rattle.ion_value.specs.Items.{raw_head};
ghost use Rattle.ion_value.specs.Value.{string, whole};
ghost use Rattle.ion_binary.specs.Canonical.{id_in};
ghost use Rattle.ion_binary.specs.ItemOctets.{head_name, head_octets, user_head};
ghost use Rattle.ion_binary.specs.Opening.{MayCome, both_octets};
ghost use Rattle.ion_binary.specs.Plain.{HaveIds, IsBare, IsSettled, IsWhole, PutsWhole, as_item};
ghost use Rattle.ion_binary.specs.Writer.{IsSound};
ghost use Rattle.ion_binary.specs.Writing.{head_symbols};

use super::BinWriter;
use super::single::SingleItem;
use crate::declaration::FIRST_ID;
use crate::few::{few_header, few_of};
use crate::scalar::{Octets, spell};
use ion_meter::device::Output;
use ion_meter::sink::Sink;
use ion_value::item::Head;
use std::alloc::Allocator;

impl<A: Allocator + Copy> BinWriter<A> {
    // Puts a scalar at top level that has no annotation, where nothing stands before it and the sink has
    // room. Else it answers false.
    #[inline(never)]
    pub(super) fn put_whole<O: Output>(
        &self,
        sink: &mut Sink<O, A>,
        item: &SingleItem<'_, '_>,
    ) -> bool
        requires sound { IsSound self.now }
        requires comes { MayCome self.now.limits self.now.open_value (as_item item.now) }
        requires whole { IsWhole (raw_head item.now.head) }
        ensures { PutsWhole self.now sink.old sink.new (as_item item.now) result }
    {
        if !is_bare(item) || !self.is_settled() {
            return false;
        }
        let Some(symbol) = self.name_of(item.head) else {
            return false;
        };
        if let Head::String(text) = item.head {
            return self.put_text_whole(sink, item, text);
        }
        let Some(number) = few_of(item.head, symbol) else {
            return self.put_spelled_whole(sink, item, symbol);
        };
        let block = number.first.block();
        let octets = Octets {
            front: &block[..number.first.len()],
            rest: &number.body[..number.size],
        };
        self.put_octets_whole(sink, item, &octets)
    }

    // Puts a string.
    #[inline(always)]
    fn put_text_whole<O: Output>(
        &self,
        sink: &mut Sink<O, A>,
        item: &SingleItem<'_, '_>,
        text: &[u8],
    ) -> bool
        requires sound { IsSound self.now }
        requires comes { MayCome self.now.limits self.now.open_value (as_item item.now) }
        requires settled { IsSettled self.now }
        requires bare { IsBare (as_item item.now) }
        requires head { raw_head item.now.head ≡ whole (string text.now) }
        ensures { PutsWhole self.now sink.old sink.new (as_item item.now) result }
    {
        let Some(front) = few_header(8, text.len()) else {
            return self.put_spelled_whole(sink, item, 0);
        };
        let block = front.block();
        let octets = Octets {
            front: &block[..front.len()],
            rest: text,
        };
        self.put_octets_whole(sink, item, &octets)
    }

    // Puts one of any kind, where a symbol has this id.
    #[inline(never)]
    fn put_spelled_whole<O: Output>(
        &self,
        sink: &mut Sink<O, A>,
        item: &SingleItem<'_, '_>,
        symbol: u32,
    ) -> bool
        requires sound { IsSound self.now }
        requires comes { MayCome self.now.limits self.now.open_value (as_item item.now) }
        requires settled { IsSettled self.now }
        requires bare { IsBare (as_item item.now) }
        requires whole { IsWhole (raw_head item.now.head) }
        requires known { HaveIds self.now.symbols.texts (head_symbols (raw_head item.now.head)) }
        requires name { symbol
            ≡ head_name (id_in self.now.symbols.texts) (user_head item.now.head) }
        ensures { PutsWhole self.now sink.old sink.new (as_item item.now) result }
    {
        let spelled = spell(item.head, symbol);
        let octets = spelled.octets();
        self.put_octets_whole(sink, item, &octets)
    }

    // Puts one of these octets.
    #[inline(always)]
    fn put_octets_whole<O: Output>(
        &self,
        sink: &mut Sink<O, A>,
        item: &SingleItem<'_, '_>,
        scalar: &Octets<'_>,
    ) -> bool
        requires settled { IsSettled self.now }
        requires sound { IsSound self.now }
        requires bare { IsBare (as_item item.now) }
        requires whole { IsWhole (raw_head item.now.head) }
        requires known { HaveIds self.now.symbols.texts (head_symbols (raw_head item.now.head)) }
        requires octets { both_octets scalar.now
            ≡ head_octets (id_in self.now.symbols.texts) (user_head item.now.head) }
        ensures { PutsWhole self.now sink.old sink.new (as_item item.now) result }
    {
        let _item = item;
        let count = scalar.len();
        if count > self.limits.value || count > sink.room() as u64 {
            return false;
        }
        sink.put_within(scalar.front);
        sink.put_within(scalar.rest);
        true
    }

    // Whether nothing stands before the next value: no version marker is due, all texts have been
    // declared, and none is forgotten.
    #[inline(always)]
    fn is_settled(&self) -> bool
        requires { IsSound self.now }
        ensures { result ≡ true → IsSettled self.now }
    {
        if self.due || self.symbols.cost() > self.limits.symbols / 2 {
            return false;
        }
        let Some(octets) = self.open_value.octets.all() else {
            return false;
        };
        if self.open_value.headers.len() > 0 || !octets.is_empty() {
            return false;
        }
        self.symbols.new_since(FIRST_ID).len() == self.declared as usize
    }
}

// Whether an item has neither a field nor an annotation.
#[inline(always)]
fn is_bare(item: &SingleItem<'_, '_>) -> bool
    ensures { result ≡ true → IsBare (as_item item.now) }
{
    item.field.is_none() && item.annotation.is_none()
}
