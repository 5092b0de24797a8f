//! The texts of the system symbol table.
ghost use Rattle.std.specs.Prelude.{◌≡◌};
ghost use Rattle.ion_symbols.specs.Output.{system_id};

/// The id of a text of the system symbol table, if it is one.
#[inline(never)]
pub(crate) fn system_id(text: &[u8]) -> Option<u32>
    ensures { result ≡ system_id text.now }
{
    if text == b"$ion".as_slice() {
        Some(1)
    } else if text == b"$ion_1_0".as_slice() {
        Some(2)
    } else if text == b"$ion_symbol_table".as_slice() {
        Some(3)
    } else if text == b"name".as_slice() {
        Some(4)
    } else if text == b"version".as_slice() {
        Some(5)
    } else if text == b"imports".as_slice() {
        Some(6)
    } else if text == b"symbols".as_slice() {
        Some(7)
    } else if text == b"max_id".as_slice() {
        Some(8)
    } else if text == b"$ion_shared_symbol_table".as_slice() {
        Some(9)
    } else {
        None
    }
}
