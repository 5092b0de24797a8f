//! How symbols are written in canonical text.
ghost use Rattle.std.specs.Prelude.{◌≡◌};
ghost use Rattle.ion_value.specs.Name.{coded};

/// How the text of a symbol is written in canonical text, as far as that is known.
#[derive(Clone, Copy, Debug, PartialEq, Eq)]
pub enum Quoting {
    /// As it stands: an identifier that means nothing else and does not begin with a dollar sign.
    Bare,
    /// As it stands between quotes: no identifier that means nothing else, and no byte has an escape.
    Quoted,
    /// Nothing is known.
    Any,
}

/// The code of `Bare` in a `TextAt`.
pub const BARE: u64 = 0;

/// The code of `Quoted`.
pub const QUOTED: u64 = 1;

// The code of `Any`. Each other number means it too.
const ANY: u64 = 2;

/// The code of a quoting. A record that has a code has no bytes between its fields, as one with a
/// `Quoting` would: each copy of it clears and copies these too.
#[inline(always)]
pub fn code_of(quoting: Quoting) -> u64
    ensures { coded result ≡ quoting }
{
    match quoting {
        Quoting::Bare => BARE,
        Quoting::Quoted => QUOTED,
        Quoting::Any => ANY,
    }
}

/// A text and how it is written.
#[derive(Clone, Copy, Debug, PartialEq, Eq)]
pub struct NameText<'a> {
    /// The bytes of the text in UTF-8.
    pub text: &'a [u8],
    /// How it is written.
    pub quoting: Quoting,
}

/// A text that is written as it stands.
#[inline(always)]
pub fn bare(text: &[u8]) -> NameText<'_>
    ensures text { result.text.now ≡ text.now }
    ensures quoting { result.quoting ≡ Quoting.Bare }
{
    NameText {
        text,
        quoting: Quoting::Bare,
    }
}
