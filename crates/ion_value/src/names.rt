//! The texts that ids stand for.
ghost use Rattle.std.proofs.Common.{refl};
ghost use Rattle.std.specs.Prelude.{◌≡◌, ℕ, List, Option, Some, None, MatchOption};
ghost use Rattle.ion_value.specs.Name.{IsQuotedAs};

use crate::quoting::NameText;

/// A symbol table as items see it: which ids have a text.
pub trait Names {
    /// The text of an id, where it has one.
    ghost text: { Self → ℕ → Option (List ℕ) };

    /// Id 0 has none: `$0` is a symbol of unknown text by each symbol table.
    ghost zero: { (s : Self) → text s 0 ≡ None };

    /// The text of an id, or none where it has none.
    fn text_of(&self, id: u32) -> Option<&[u8]>
        ensures { MatchOption result (text self.now id ≡ None)
            (λ t. text self.now id ≡ Some t.now) };

    /// The text of an id and how it is written, or none where it has none.
    fn name_text(&self, id: u32) -> Option<NameText<'_>>
        ensures { MatchOption result (text self.now id ≡ None)
            (λ t. (text self.now id ≡ Some t.text.now) × IsQuotedAs t.quoting t.text.now) };
}

/// No id has a text, so that ids stay ids.
#[derive(Clone, Copy, Debug, PartialEq, Eq)]
pub struct NoNames;

impl Names for NoNames {
    ghost text = { λ _ _. None };

    ghost zero = { λ _. refl };

    fn text_of(&self, _id: u32) -> Option<&[u8]> {
        None
    }

    fn name_text(&self, _id: u32) -> Option<NameText<'_>> {
        None
    }
}
