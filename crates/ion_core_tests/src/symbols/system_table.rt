//! The system table.

use crate::same::same;
use ion_meter::meter::Meter;
use ion_symbols::catalog::Catalog;
use ion_symbols::symbols::{Slot, Symbols};
use ion_value::names::Names;
use ion_value::quoting::{NameText, Quoting};
use std::alloc::Global;
use std::process::Abort;

/// Ids, the text of each, and how it is written as far as that is known.
const TEXTS: &[(u32, &[u8], Quoting)] = &[
    (1, b"$ion", Quoting::Any),
    (2, b"$ion_1_0", Quoting::Any),
    (3, b"$ion_symbol_table", Quoting::Any),
    (4, b"name", Quoting::Bare),
    (5, b"version", Quoting::Bare),
    (6, b"imports", Quoting::Bare),
    (7, b"symbols", Quoting::Bare),
    (8, b"max_id", Quoting::Bare),
    (9, b"$ion_shared_symbol_table", Quoting::Any),
];

// Asserts what an id without a text is.
fn expect_none(rt: &impl Abort, symbols: &Symbols<Global>, id: u32, slot: Slot<'_>) {
    same(rt, (id, symbols.text(id)), (id, slot));
    same(rt, (id, symbols.text_of(id)), (id, None));
    same(rt, (id, symbols.name_text(id)), (id, None));
}

#[test]
fn ids_1_to_9_have_texts_and_no_others(rt: HostRuntime) {
    let mut meter = Meter::new(rt.alloc());
    let catalog = Catalog::new(&meter);
    let symbols = Symbols::new(&meter, &catalog);
    for (id, text, quoting) in TEXTS {
        let quoted = NameText {
            text,
            quoting: *quoting,
        };
        same(&rt, (*id, symbols.text(*id)), (*id, Slot::Known(text)));
        same(&rt, (*id, symbols.text_of(*id)), (*id, Some(*text)));
        same(&rt, (*id, symbols.name_text(*id)), (*id, Some(quoted)));
    }
    expect_none(&rt, &symbols, 0, Slot::Unknown);
    for id in [10, 11, 2_147_483_648, u32::MAX] {
        expect_none(&rt, &symbols, id, Slot::Above);
    }
    symbols.release(&mut meter);
    same(&rt, meter.held(), 0);
}
