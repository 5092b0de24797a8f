//! Items: what readers give and writers take, one at a time.
ghost use Rattle.std.specs.Prelude.{◌≡◌, ⊤, map, length, slice_get, slice_range};
ghost use Rattle.ion_value.specs.Items.{symbol_at, named_at, raw_field, raw_head, raw_annotation, raw_annotations, raw_item, named_item, annotations_of, item_names, item_of, names_of, is_none_left};

use crate::decimal::Decimal;
use crate::float::Float64;
use crate::int::Int;
use crate::ion_type::{IonType, Kind};
use crate::names::{Names, NoNames};
use crate::timestamp::Timestamp;
use std::alloc::AllocError;

/// A symbol: its text, or its id in a symbol table (Ion specification, "Symbols").
#[derive(Clone, Copy, Debug, PartialEq, Eq)]
pub enum Sym<'a> {
    /// The bytes of its text in UTF-8.
    Text(&'a [u8]),
    /// Its id, where 2^31 stands for every id above 2^31 - 1, which no table has.
    Id(u32),
}

/// A symbol and the place of its first byte in the input, counted from 0.
#[derive(Clone, Copy, Debug, PartialEq, Eq)]
pub struct SymAt<'a> {
    /// The symbol.
    pub sym: Sym<'a>,
    /// The place of its first byte.
    pub place: u64,
}

/// An annotation as a reader keeps it: a range of the texts that stand beside it, or an id, and
/// the place of its first byte in the input.
#[derive(Clone, Copy, Debug, PartialEq, Eq)]
pub enum Annotation {
    /// The text from one place of the texts to another.
    Text {
        /// Where the text begins.
        from: usize,
        /// Where it ends.
        to: usize,
        /// The place of its first byte in the input.
        place: u64,
    },
    /// An id, as in `Sym`.
    Id {
        /// The id.
        id: u32,
        /// The place of its first byte in the input.
        place: u64,
    },
}

/// What an item is: a value without members, the beginning or the end of a container, or a version
/// marker.
#[derive(Clone, Copy, Debug, PartialEq, Eq)]
pub enum Head<'a> {
    /// The null of a type.
    Null(IonType),
    /// A truth value.
    Bool(bool),
    /// An int.
    Int(Int),
    /// A float.
    Float(Float64),
    /// A decimal.
    Decimal(Decimal),
    /// A timestamp in local time.
    Timestamp(Timestamp),
    /// A symbol as a value.
    Symbol(SymAt<'a>),
    /// A text in UTF-8.
    String(&'a [u8]),
    /// A clob's bytes.
    Clob(&'a [u8]),
    /// A blob's bytes.
    Blob(&'a [u8]),
    /// The beginning of a container.
    Begin(Kind),
    /// The end of the innermost container.
    End,
    /// A version marker.
    Marker,
}

/// The annotations of an item, in order, lent until the next call.
pub struct Annotations<'a, N: Names> {
    entries: &'a [Annotation],
    texts: &'a [u8],
    names: &'a N,
}

/// An item of a stream, lent until the next call.
///
/// A scalar or a container's beginning has the annotations of its value, and inside a struct a
/// field. Symbols that are ids are given as the text that the item's names have for them, if any.
pub struct Item<'a, N: Names> {
    field: Option<SymAt<'a>>,
    annotations: Annotations<'a, N>,
    head: Head<'a>,
    place: u64,
    top: u64,
}

// A symbol, an id being the text that the names have for it.
#[inline]
fn resolved<'a, N: Names>(names: &'a N, at: SymAt<'a>) -> SymAt<'a>
    ensures { symbol_at result ≡ named_at (N.text names.now) (symbol_at at.entry) }
{
    let Sym::Id(id) = at.sym else {
        return at;
    };
    match names.text_of(id) {
        Some(text) => SymAt {
            sym: Sym::Text(text),
            place: at.place,
        },
        None => at,
    }
}

// The bytes from one place to another, as far as there are such.
#[inline]
fn part(bytes: &[u8], from: usize, to: usize) -> &[u8]
    ensures { result.now ≡ slice_range bytes.now from to }
{
    let to = to.min(bytes.len());
    &bytes[from.min(to)..to]
}

impl<'a, N: Names> Annotations<'a, N> {
    /// The annotations of these entries, whose ranges are those of `texts`.
    #[inline]
    pub fn new(entries: &'a [Annotation], texts: &'a [u8], names: &'a N) -> Annotations<'a, N>
        ensures entries { raw_annotations result ≡ map (raw_annotation texts.now) entries.now }
        ensures names { names_of result ≡ names.now }
    {
        Annotations {
            entries,
            texts,
            names,
        }
    }

    /// How many annotations there are.
    #[inline]
    pub fn len(&self) -> usize
        ensures { result ≡ length (annotations_of N.text self.now) }
    {
        self.entries.len()
    }

    /// Whether there is none.
    #[inline]
    pub fn is_empty(&self) -> bool
        ensures { result ≡ is_none_left (annotations_of N.text self.now) }
    {
        self.entries.is_empty()
    }

    /// The annotation at a place of the list, counted from 0, or none past its end.
    #[inline]
    pub fn get(&self, index: usize) -> Option<SymAt<'a>>
        ensures { raw_field result ≡ slice_get (annotations_of N.text self.now) index }
    {
        if index >= self.entries.len() {
            return None;
        }
        let entry = self.entries[index];
        Some(self.symbol(entry))
    }

    // The symbol of an entry.
    #[inline]
    fn symbol(&self, entry: Annotation) -> SymAt<'a>
        ensures { symbol_at result ≡ named_at (N.text self.now.names.now)
            (raw_annotation self.now.texts.now entry) }
    {
        let at = match entry {
            Annotation::Text { from, to, place } => SymAt {
                sym: Sym::Text(part(self.texts, from, to)),
                place,
            },
            Annotation::Id { id, place } => SymAt {
                sym: Sym::Id(id),
                place,
            },
        };
        resolved(self.names, at)
    }
}

impl<'a, N: Names> Item<'a, N> {
    /// An item of these parts. A field stands exactly at a struct's member, and the places are those
    /// of the head's first byte and of the top-level value's.
    #[inline]
    pub fn new(
        field: Option<SymAt<'a>>,
        annotations: Annotations<'a, N>,
        head: Head<'a>,
        place: u64,
        top: u64,
    ) -> Item<'a, N>
        ensures item { raw_item result ≡ record {
          field = raw_field field.entry;
          annotations = raw_annotations annotations.entry;
          head = raw_head head.entry;
          place = place;
          top = top;
        } }
        ensures names { item_names result ≡ names_of annotations.entry }
    {
        Item {
            field,
            annotations,
            head,
            place,
            top,
        }
    }

    /// The field's name, inside a struct.
    #[inline]
    pub fn field(&self) -> Option<SymAt<'a>>
        ensures { raw_field result ≡ (item_of N.text self.now).field }
    {
        let at = self.field?;
        Some(resolved(self.annotations.names, at))
    }

    /// The annotations, in order.
    #[inline]
    pub fn annotations(&self) -> Annotations<'a, N>
        ensures { annotations_of N.text result ≡ (item_of N.text self.now).annotations }
    {
        self.annotations
    }

    /// What the item is.
    #[inline]
    pub fn head(&self) -> Head<'a>
        ensures { raw_head result ≡ (item_of N.text self.now).head }
    {
        match self.head {
            Head::Symbol(at) => Head::Symbol(resolved(self.annotations.names, at)),
            head => head,
        }
    }

    /// The place of the head's first byte in the input, counted from 0.
    #[inline]
    pub fn place(&self) -> u64
        ensures { result ≡ (item_of N.text self.now).place }
    {
        self.place
    }

    /// The place of the first byte of the value at top level that the item belongs to.
    #[inline]
    pub fn top(&self) -> u64
        ensures { result ≡ (item_of N.text self.now).top }
    {
        self.top
    }
}

impl<'a> Item<'a, NoNames> {
    /// This item, whose ids have the texts that these names have for them.
    #[inline]
    pub fn with_names<N: Names>(self, names: &'a N) -> Item<'a, N>
        ensures { item_of N.text result ≡ named_item (N.text names.now) (raw_item self.entry) }
    {
        Item {
            field: self.field,
            annotations: Annotations {
                entries: self.annotations.entries,
                texts: self.annotations.texts,
                names,
            },
            head: self.head,
            place: self.place,
            top: self.top,
        }
    }
}

impl<'a, N: Names> Clone for Annotations<'a, N> {
    ghost is_clone = { λ a b. b ≡ a };

    ghost is_infallible = { λ _. ⊤ };

    fn clone(&self) -> Result<Self, AllocError> {
        Ok(*self)
    }
}

impl<'a, N: Names> Copy for Annotations<'a, N> {}

impl<'a, N: Names> Clone for Item<'a, N> {
    ghost is_clone = { λ a b. b ≡ a };

    ghost is_infallible = { λ _. ⊤ };

    fn clone(&self) -> Result<Self, AllocError> {
        Ok(*self)
    }
}

impl<'a, N: Names> Copy for Item<'a, N> {}
