//! Items whose names and annotations are texts, with two annotations at most: what most items are, and
//! what is copied with the fewest steps.

use crate::item::Head;
use crate::quoting::NameText;

/// The text of a name or an annotation, and the place of its first byte in the input, counted from 0.
#[derive(Clone, Copy, Debug, PartialEq, Eq)]
pub struct TextAt<'a> {
    /// The bytes of the text in UTF-8.
    pub text: &'a [u8],
    /// The code of how it is written (`code_of`).
    pub code: u64,
    /// The place of its first byte.
    pub place: u64,
}

/// An item of a user value that has two annotations at most. Its name and its annotations are texts,
/// and no ids; so is its head where that is a symbol, but for `$0`, which no symbol table gives a text.
/// No annotation begins with a dollar sign, so that no such item begins a declaration. Names have a
/// lifetime of their own, since they may stand in a symbol table.
#[derive(Clone, Copy)]
pub struct PlainItem<'n, 'h> {
    /// The field's name, inside a struct.
    pub field: Option<TextAt<'n>>,
    /// The annotation, if there is one, or the first of two.
    pub annotation: Option<TextAt<'n>>,
    /// The second annotation, if there are two.
    pub second: Option<TextAt<'n>>,
    /// What the item is.
    pub head: Head<'h>,
    /// The canonical text of the head, where a reader has it: of an int, a decimal, a timestamp or a
    /// symbol, each as it stands, or that of a symbol without its quotes.
    pub spelled: Option<NameText<'h>>,
    /// The place of the head's first byte in the input.
    pub place: u64,
    /// The place of the first byte of the value at top level that the item belongs to.
    pub top: u64,
}
