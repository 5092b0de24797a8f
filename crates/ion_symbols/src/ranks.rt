//! Shared tables in order of name and version.
ghost use Rattle.std.specs.Prelude.{◌≡◌, slice_get, Some, IfOk, IfErr};
ghost use Rattle.ion_symbols.specs.Output.{Belongs, text_cmp};
ghost use Rattle.ion_symbols.specs.Ordered.{Orders, in_order};
ghost use Rattle.ion_symbols.specs.Ranks.{key, key_of, keys};

use crate::shared::SharedTable;
use std::alloc::Allocator;
use std::cmp::Ordering;

/// The rank of the table of this name and version, or the rank where one belongs, by halving: the
/// order has the tables' places in order of name and version.
pub(crate) fn rank_of<A: Allocator + Copy>(
    tables: &[SharedTable<A>],
    order: &[usize],
    name: &[u8],
    version: u128,
) -> Result<usize, usize>
    requires { Orders (keys tables.now) order.now }
    ensures found { IfOk result (λ rank.
        slice_get (in_order (keys tables.now) order.now) rank ≡ Some (key_of name.now version)) }
    ensures belongs { IfErr result (λ rank.
        Belongs (in_order (keys tables.now) order.now) (key_of name.now version) rank) }
{
    let mut low = 0;
    let mut high = order.len();
    while low < high {
        let middle = low + (high - low) / 2;
        match compare(&tables[order[middle]], name, version) {
            Ordering::Less => low = middle + 1,
            Ordering::Greater => high = middle,
            Ordering::Equal => return Ok(middle),
        }
    }
    Err(low)
}

// The order of a table against a name and a version.
fn compare<A: Allocator + Copy>(table: &SharedTable<A>, name: &[u8], version: u128) -> Ordering
    ensures { result ≡ text_cmp (key table.now) (key_of name.now version) }
{
    match table.name().cmp(name) {
        Ordering::Less => Ordering::Less,
        Ordering::Greater => Ordering::Greater,
        Ordering::Equal => (table.version() as u128).cmp(&version),
    }
}
