//! The texts that mean something in a declaration, and its parts.
ghost use Rattle.std.specs.Prelude.{◌≡◌};
ghost use Rattle.ion_symbols.specs.Table.{word_of};

/// A text that means something in a declaration.
#[derive(Clone, Copy)]
pub(crate) enum Word {
    /// `name`.
    Name,
    /// `version`.
    Version,
    /// `max_id`.
    MaxId,
    /// `imports`.
    Imports,
    /// `symbols`.
    Symbols,
    /// `$ion_symbol_table`.
    Declaration,
    /// Any other text, or none.
    Other,
}

/// What of a declaration is being read.
#[derive(Clone, Copy)]
pub(crate) enum Area {
    /// Its fields.
    Fields,
    /// The list `imports`.
    Imports,
    /// The list `symbols`.
    Symbols,
    /// A struct of the list `imports`.
    Import,
}

impl Word {
    /// The word that a text is.
    pub(crate) fn of(text: &[u8]) -> Word
        ensures { result ≡ word_of text.now }
    {
        if text == b"name".as_slice() {
            Word::Name
        } else if text == b"version".as_slice() {
            Word::Version
        } else if text == b"max_id".as_slice() {
            Word::MaxId
        } else if text == b"imports".as_slice() {
            Word::Imports
        } else if text == b"symbols".as_slice() {
            Word::Symbols
        } else if text == b"$ion_symbol_table".as_slice() {
            Word::Declaration
        } else {
            Word::Other
        }
    }
}
