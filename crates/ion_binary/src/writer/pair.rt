//! Plain scalars with two annotations, added at once to a value that is open.
ghost use Rattle.std.specs.Prelude.{◌≡◌, ◌≤◌, ℕ, length, map, IfSome};
ghost use Rattle.ion_value.specs.Items.{raw_head};
ghost use Rattle.ion_value.specs.Value.{user_symbol_at};
ghost use Rattle.ion_binary.specs.Canonical.{id_in, id_octets};
ghost use Rattle.ion_binary.specs.Opening.{MayCome};
ghost use Rattle.ion_binary.specs.Plain.{AddsPlain, HaveIds, IsWhole, as_item, with_note};
ghost use Rattle.ion_binary.specs.Writer.{CanTake};

use super::BinWriter;
use super::single::SingleItem;
use crate::opening::{LONGEST, joined};
use crate::scalar::spell;
use arrayvec::ArrayVec;
use ion_meter::meter::Meter;
use ion_value::var::var_uint_write;
use std::alloc::Allocator;

impl<A: Allocator + Copy> BinWriter<A> {
    // Adds a scalar after a second annotation of this text, where a container is open, all texts have
    // ids, and there is room. Else it answers false.
    #[inline(never)]
    pub(super) fn add_pair(
        &mut self,
        meter: &mut Meter<A>,
        item: &SingleItem<'_, '_>,
        second: &[u8],
        place: u64,
    ) -> bool
        requires can_take { CanTake self.old meter.old }
        requires comes { MayCome self.old.limits self.old.open_value
            (with_note (as_item item.now) second.now place) }
        requires whole { IsWhole (raw_head item.now.head) }
        ensures { AddsPlain self.old self.new meter.old meter.new
            (with_note (as_item item.now) second.now place) result }
    {
        let _place = place;
        if self.open_value.headers.len() == 0 {
            return false;
        }
        let Some(name) = self.text_id(item.field) else {
            return false;
        };
        let Some(notes) = self.pair_ids(item, second) else {
            return false;
        };
        let Some(symbol) = self.name_of(item.head) else {
            return false;
        };
        let spelled = spell(item.head, symbol);
        let scalar = spelled.octets();
        self.open_value
            .put_after(meter, &self.limits, name, notes.as_slice(), &scalar)
    }

    // The octets of the ids of both annotations, where their texts have ids, wherever the second
    // stands.
    #[inline(always)]
    fn pair_ids(&self, item: &SingleItem<'_, '_>, second: &[u8]) -> Option<ArrayVec<u8, LONGEST>>
        ensures known { IfSome result (λ _. (place : ℕ) → HaveIds self.now.symbols.texts
            (with_note (as_item item.now) second.now place).annotations) }
        ensures octets { IfSome result (λ notes. (place : ℕ) → notes.items
            ≡ id_octets (id_in self.now.symbols.texts) (map user_symbol_at
            (with_note (as_item item.now) second.now place).annotations)) }
        ensures few { IfSome result (λ notes. length notes.items ≤ 20) }
    {
        let Some(at) = item.annotation else {
            return None;
        };
        let Some(first) = self.symbols.known(at.text) else {
            return None;
        };
        let Some(other) = self.symbols.known(second) else {
            return None;
        };
        let one = var_uint_write(u64::from(first));
        let two = var_uint_write(u64::from(other));
        Some(joined(one.as_slice(), two.as_slice()))
    }
}
