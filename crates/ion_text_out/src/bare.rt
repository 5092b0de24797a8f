//! Which texts of symbols stand without quotes.
ghost use Rattle.std.specs.Prelude.{◌≡◌};
ghost use Rattle.ion_value.specs.Name.{is_plain};

use ion_value::name::{all_identifier_bytes, is_plain};

/// Whether a text stands without quotes. Most that do not are told by a byte that no identifier has.
#[inline(always)]
pub fn is_bare(text: &[u8]) -> bool
    ensures { result ≡ is_plain text.now }
{
    all_identifier_bytes(text) && is_plain(text)
}
