//! What a declaration looks at in an item.
ghost use Rattle.std.specs.Prelude.{◌≡◌};
ghost use Rattle.ion_value.specs.Items.{raw_field, raw_head, raw_item, symbol_of};
ghost use Rattle.ion_symbols.specs.Table.{text_at};
ghost use Rattle.ion_symbols.specs.Declaration.{field_word, head_view, is_end, place_in, item_view, word_in};
ghost use Rattle.ion_symbols.specs.Buffer.{item_view_of, field_value_of};

use crate::known_text::Word;
use crate::symbols::{Slot, Symbols};
use ion_value::ion_type::Kind;
use ion_value::item::{Head, Item, Sym, SymAt};
use ion_value::names::NoNames;
use std::alloc::Allocator;

/// What an item is to a declaration.
#[derive(Clone, Copy)]
pub(crate) enum FieldValue<'a> {
    /// The beginning of a container.
    Begins(Kind),
    /// The end of one.
    Ends,
    /// A value that is ignored.
    Other,
    /// A string.
    Text(&'a [u8]),
    /// An int: whether it is below zero, and its magnitude.
    Int(bool, u128),
    /// A symbol.
    Names(Word),
}

/// What a declaration looks at in an item.
#[derive(Clone, Copy)]
pub(crate) struct ItemView<'a> {
    /// The field's name.
    pub(crate) field: Word,
    /// The place of the field, 0 where there is none.
    pub(crate) field_place: u64,
    /// The value.
    pub(crate) what: FieldValue<'a>,
    /// Its place.
    pub(crate) place: u64,
}

impl<'a> ItemView<'a> {
    /// Whether it is an end.
    #[inline]
    pub(crate) fn ends(&self) -> bool
        ensures { result ≡ is_end (field_value_of self.now.what) }
    {
        matches!(self.what, FieldValue::Ends)
    }
}

// The word that a symbol is.
pub(crate) fn word_in<A: Allocator + Copy>(symbols: &Symbols<'_, A>, sym: Sym<'_>) -> Word
    ensures { result ≡ word_in (text_at symbols.now.table) (symbol_of sym.entry) }
{
    match sym {
        Sym::Text(text) => Word::of(text),
        Sym::Id(id) => match symbols.text(id) {
            Slot::Known(text) => Word::of(text),
            _ => Word::Other,
        },
    }
}

// The word that a field is, and its place.
#[inline]
fn field_in<A: Allocator + Copy>(symbols: &Symbols<'_, A>, field: Option<SymAt<'_>>) -> (Word, u64)
    ensures word { result.0 ≡ field_word (text_at symbols.now.table) (raw_field field.entry) }
    ensures place { result.1 ≡ place_in (raw_field field.entry) }
{
    match field {
        Some(at) => (word_in(symbols, at.sym), at.place),
        None => (Word::Other, 0),
    }
}

// What a head is to a declaration.
#[inline]
fn field_value_in<'a, A: Allocator + Copy>(
    symbols: &Symbols<'_, A>,
    head: Head<'a>,
) -> FieldValue<'a>
    ensures { field_value_of result ≡ head_view (text_at symbols.now.table) (raw_head head.entry) }
{
    match head {
        Head::Int(int) => FieldValue::Int(int.negative, int.magnitude),
        Head::Symbol(at) => FieldValue::Names(word_in(symbols, at.sym)),
        Head::String(text) => FieldValue::Text(text),
        Head::Begin(kind) => FieldValue::Begins(kind),
        Head::End => FieldValue::Ends,
        _ => FieldValue::Other,
    }
}

/// What a declaration looks at in an item, by the table before it.
#[tactic(auto, using(crate::proofs::Viewing::field_unnamed, crate::proofs::Viewing::head_unnamed))]
pub(crate) fn view<'a, A: Allocator + Copy>(
    symbols: &Symbols<'_, A>,
    item: &Item<'a, NoNames>,
) -> ItemView<'a>
    ensures { item_view_of result ≡ item_view (text_at symbols.now.table) (raw_item item.now) }
{
    let (field, field_place) = field_in(symbols, item.field());
    ItemView {
        field,
        field_place,
        what: field_value_in(symbols, item.head()),
        place: item.place(),
    }
}
