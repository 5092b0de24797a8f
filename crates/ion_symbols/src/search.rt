//! The search for a text among the texts of an output.
ghost use Rattle.std.specs.Prelude.{◌≡◌, ◌≤◌, length, slice_get, Some, IfOk, IfErr};
ghost use Rattle.ion_symbols.specs.Output.{Belongs, binary_digits, probes_for};

pub use crate::ordered::Search;
use std::cmp::Ordering;

/// The place where a text stands among those of a search, or the place where it belongs: the texts
/// before it are less, and those from it on greater.
///
/// It compares the text at most as often as the number of texts has binary digits, and takes no
/// memory.
pub fn place_of(search: &mut Search<'_>, text: &[u8]) -> Result<u32, u32>
    requires { search.old.probes ≡ 0 }
    ensures found { IfOk result (λ place. slice_get search.old.texts place ≡ Some text.now) }
    ensures belongs { IfErr result (λ place. Belongs search.old.texts text.now place) }
    ensures texts { search.new.texts ≡ search.old.texts }
    ensures probes { search.new.probes ≤ binary_digits (length search.old.texts) }
    ensures exact { search.new.probes ≡ probes_for search.old.texts text.now }
{
    let mut low = 0;
    let mut high = search.len();
    while low < high {
        let middle = low + (high - low) / 2;
        match search.compare(middle, text) {
            Ordering::Less => low = middle + 1,
            Ordering::Greater => high = middle,
            Ordering::Equal => return Ok(middle),
        }
    }
    Err(low)
}
