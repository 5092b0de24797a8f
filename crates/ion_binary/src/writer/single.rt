//! Plain items with one annotation at most, and the ids of their texts.
ghost use Rattle.std.specs.Prelude.{◌≡◌, ◌<◌, length, true, map, option_map, IfSome};
ghost use Rattle.ion_value.specs.Items.{raw_head, symbol_of};
ghost use Rattle.ion_value.specs.PlainItems.{listed, placed_text};
ghost use Rattle.ion_value.specs.Writable.{field_symbols};
ghost use Rattle.ion_value.specs.Value.{symbol, user_symbol, user_symbol_at};
ghost use Rattle.ion_binary.specs.Canonical.{annotation_octets, field_octets, id_in, with_symbol};
ghost use Rattle.ion_binary.specs.Held.{counted_ids};
ghost use Rattle.ion_binary.specs.ItemOctets.{head_name, user_head};
ghost use Rattle.ion_binary.specs.Opening.{name_octets};
ghost use Rattle.ion_binary.specs.Plain.{HaveIds, IsWhole};
ghost use Rattle.ion_binary.specs.Writing.{head_symbols};

use super::BinWriter;
use ion_value::item::{Head, Sym};
use ion_value::plain_item::{PlainItem, TextAt};
use std::alloc::Allocator;

/// A plain item that has one annotation at most. It goes to calls by memory, and a second annotation
/// with it would be copied for each item.
#[derive(Clone, Copy)]
pub(super) struct SingleItem<'n, 'h> {
    pub(super) field: Option<TextAt<'n>>,
    pub(super) annotation: Option<TextAt<'n>>,
    pub(super) head: Head<'h>,
    pub(super) place: u64,
    pub(super) top: u64,
}

/// The item without its second annotation.
#[inline(always)]
pub(super) fn single_of<'n, 'h>(item: PlainItem<'n, 'h>) -> SingleItem<'n, 'h>
    ensures { result ≡ record {
      field = item.entry.field;
      annotation = item.entry.annotation;
      head = item.entry.head;
      place = item.entry.place;
      top = item.entry.top;
    } }
{
    SingleItem {
        field: item.field,
        annotation: item.annotation,
        head: item.head,
        place: item.place,
        top: item.top,
    }
}

// The ids of an item's field and of its annotation, each 0 where there is none.
#[derive(Drop)]
pub(super) struct Ids {
    pub(super) name: u32,
    pub(super) note: u32,
}

/// Whether a head is a scalar.
#[inline(always)]
pub(super) fn is_scalar(head: Head<'_>) -> bool
    ensures { result ≡ true → IsWhole (raw_head head.entry) }
{
    !matches!(head, Head::Begin(_) | Head::End | Head::Marker)
}

impl<A: Allocator + Copy> BinWriter<A> {
    // The ids of an item's field and of its annotation, where a container is open and their texts have
    // ids.
    #[inline(always)]
    pub(super) fn ids_of(&self, item: &SingleItem<'_, '_>) -> Option<Ids>
        ensures open { IfSome result (λ _. 0 < length self.now.open_value.headers) }
        ensures field_known { IfSome result (λ _. HaveIds self.now.symbols.texts
            (field_symbols (option_map placed_text item.now.field))) }
        ensures note_known { IfSome result (λ _. HaveIds self.now.symbols.texts
            (listed (option_map placed_text item.now.annotation))) }
        ensures field { IfSome result (λ ids. name_octets ids.name
            ≡ field_octets (id_in self.now.symbols.texts)
            (option_map user_symbol_at (option_map placed_text item.now.field))) }
        ensures note { IfSome result (λ ids. counted_ids (name_octets ids.note)
            ≡ annotation_octets (id_in self.now.symbols.texts)
            (map user_symbol_at (listed (option_map placed_text item.now.annotation)))) }
    {
        if self.open_value.headers.len() == 0 {
            return None;
        }
        let Some(name) = self.text_id(item.field) else {
            return None;
        };
        match self.text_id(item.annotation) {
            Some(note) => Some(Ids { name, note }),
            None => None,
        }
    }

    // The id of a field or of an annotation, where its text has one, and 0 where there is none.
    #[inline(always)]
    pub(super) fn text_id(&self, text: Option<TextAt<'_>>) -> Option<u32>
        ensures field_known { IfSome result (λ _. HaveIds self.now.symbols.texts
            (field_symbols (option_map placed_text text.entry))) }
        ensures note_known { IfSome result (λ _. HaveIds self.now.symbols.texts
            (listed (option_map placed_text text.entry))) }
        ensures field { IfSome result (λ name. name_octets name
            ≡ field_octets (id_in self.now.symbols.texts)
            (option_map user_symbol_at (option_map placed_text text.entry))) }
        ensures note { IfSome result (λ note. counted_ids (name_octets note)
            ≡ annotation_octets (id_in self.now.symbols.texts)
            (map user_symbol_at (listed (option_map placed_text text.entry)))) }
    {
        match text {
            Some(at) => self.symbols.known(at.text),
            None => Some(0),
        }
    }

    // The id of a symbol value, where its text has one, and 0 of other heads.
    pub(super) fn name_of(&self, head: Head<'_>) -> Option<u32>
        ensures known { IfSome result (λ _. HaveIds self.now.symbols.texts
            (head_symbols (raw_head head.entry))) }
        ensures name { IfSome result (λ name. name
            ≡ head_name (id_in self.now.symbols.texts) (user_head head.entry)) }
    {
        match head {
            Head::Symbol(at) => self.symbol_id(at.sym),
            _ => Some(0),
        }
    }

    // The id of a symbol, where its text has one, and 0 of one without a text.
    #[inline(always)]
    pub(super) fn symbol_id(&self, sym: Sym<'_>) -> Option<u32>
        ensures known { IfSome result (λ _. with_symbol self.now.symbols.texts
            (user_symbol (symbol_of sym.entry)) ≡ self.now.symbols.texts) }
        ensures id { IfSome result (λ id. id
            ≡ id_in self.now.symbols.texts (user_symbol (symbol_of sym.entry))) }
    {
        match sym {
            Sym::Text(text) => self.symbols.known(text),
            Sym::Id(_) => Some(0),
        }
    }
}
