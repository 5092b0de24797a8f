//! What a catalogue looks at in an item.
ghost use Rattle.std.specs.Prelude.{◌≡◌, option_map};
ghost use Rattle.ion_meter.specs.declared.fault.Reason.TheVariants as reasons;
ghost use Rattle.ion_meter.specs.declared.fault.Fault.TheVariants as faults;
ghost use Rattle.ion_value.specs.Value.{map_head, user_item, user_symbol_at};
ghost use Rattle.ion_value.specs.Items.{item_of, raw_field, raw_head, symbol_at};
ghost use Rattle.ion_symbols.specs.Table.{text_length};
ghost use Rattle.ion_symbols.specs.Declaration.{is_end, string_in, version_in};
ghost use Rattle.ion_symbols.specs.Buffer.{field_value_of};
ghost use Rattle.ion_symbols.specs.CatalogItems.{entry_view, head_seen, is_struct, user_field, user_word};
ghost use Rattle.ion_symbols.specs.Building.{names_first, view_of};

use crate::item_view::FieldValue;
use crate::known_text::Word;
use ion_meter::fault::{Fault, Reason};
use ion_value::ion_type::Kind;
use ion_value::item::{Head, Item, Sym, SymAt};
use ion_value::names::Names;

/// What an item is to a catalogue.
#[derive(Clone, Copy)]
pub(crate) struct EntryView<'a> {
    /// Whether the first annotation is `$ion_shared_symbol_table`.
    pub(crate) shared: bool,
    /// The field's name.
    pub(crate) field: Word,
    /// The value.
    pub(crate) what: FieldValue<'a>,
    /// Its place.
    pub(crate) place: u64,
    /// The place of the value at top level that it is in.
    pub(crate) top: u64,
}

impl<'a> EntryView<'a> {
    /// Whether it is an end.
    #[inline]
    pub(crate) fn ends(&self) -> bool
        ensures { result ≡ is_end (field_value_of self.now.what) }
    {
        matches!(self.what, FieldValue::Ends)
    }

    /// Whether a struct begins.
    #[inline]
    pub(crate) fn begins_struct(&self) -> bool
        ensures { result ≡ is_struct (field_value_of self.now.what) }
    {
        matches!(self.what, FieldValue::Begins(Kind::Struct))
    }

    /// The text of a string.
    #[inline]
    pub(crate) fn text(&self) -> Option<&'a [u8]>
        ensures { option_map (λ t. t.now) result ≡ string_in (field_value_of self.now.what) }
    {
        match self.what {
            FieldValue::Text(text) => Some(text),
            _ => None,
        }
    }

    /// The length of a string's text, 0 for anything else.
    #[inline]
    pub(crate) fn length(&self) -> u64
        ensures { result ≡ text_length (string_in (field_value_of self.now.what)) }
    {
        match self.what {
            FieldValue::Text(text) => text.len() as u64,
            _ => 0,
        }
    }

    /// The version that it stands for: an int above 0, or else 1.
    #[inline]
    pub(crate) fn version(&self) -> u128
        ensures { result ≡ version_in (field_value_of self.now.what) }
    {
        match self.what {
            FieldValue::Int(false, number) => number.max(1),
            _ => 1,
        }
    }

    /// The refusal of a value at top level that is no table of a catalogue.
    #[inline]
    pub(crate) fn refusal(&self) -> Fault
        ensures { result ≡ faults.Refused reasons.CatalogEntry self.now.top }
    {
        Fault::Refused(Reason::CatalogEntry, self.top)
    }
}

// The word that a symbol is.
fn word_of(at: SymAt<'_>) -> Word
    ensures { result ≡ user_word (user_symbol_at (symbol_at at.entry)) }
{
    match at.sym {
        Sym::Text(text) => Word::of(text),
        Sym::Id(_) => Word::Other,
    }
}

// The word that a field is.
fn field_in(field: Option<SymAt<'_>>) -> Word
    ensures { result ≡ user_field (option_map user_symbol_at (raw_field field.entry)) }
{
    match field {
        Some(at) => word_of(at),
        None => Word::Other,
    }
}

// Whether the first annotation is that of shared tables.
fn is_shared(first: Option<SymAt<'_>>) -> bool
    ensures { result ≡ names_first (option_map user_symbol_at (raw_field first.entry)) }
{
    match first {
        Some(
            SymAt {
                sym: Sym::Text(text),
                place: _,
            },
        ) => text == b"$ion_shared_symbol_table".as_slice(),
        _ => false,
    }
}

// What a head is to a catalogue.
fn seen<'a>(head: Head<'a>) -> FieldValue<'a>
    ensures { field_value_of result ≡ head_seen (map_head user_symbol_at (raw_head head.entry)) }
{
    match head {
        Head::Int(int) => FieldValue::Int(int.negative, int.magnitude),
        Head::String(text) => FieldValue::Text(text),
        Head::Begin(kind) => FieldValue::Begins(kind),
        Head::End => FieldValue::Ends,
        _ => FieldValue::Other,
    }
}

/// What a catalogue looks at in an item.
#[tactic(auto, using(crate::proofs::CatalogViews::shared_first))]
pub(crate) fn view<'a, N: Names>(item: &Item<'a, N>) -> EntryView<'a>
    ensures { view_of result ≡ entry_view (user_item (item_of N.text item.now)) }
{
    EntryView {
        shared: is_shared(item.annotations().get(0)),
        field: field_in(item.field()),
        what: seen(item.head()),
        place: item.place(),
        top: item.top(),
    }
}
