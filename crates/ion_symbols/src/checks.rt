//! The symbols of an item, one after the other.
ghost use Rattle.std.specs.Prelude.{◌≡◌};
ghost use Rattle.ion_value.specs.Items.{raw_annotations, raw_field, raw_head, raw_item, symbol_at};
ghost use Rattle.ion_symbols.specs.Users.{at_checked, checked, field_checked, head_checked, annotations_checked};
ghost use Rattle.ion_symbols.specs.User.{CheckedAs};

use crate::symbols::{Slot, Symbols};
use ion_meter::fault::{Fault, Reason};
use ion_value::item::{Annotations, Head, Item, Sym, SymAt};
use ion_value::names::NoNames;
use std::alloc::Allocator;

// Refuses a symbol whose id is above the table, and in a user value an import slot without text.
#[inline(always)]
fn check_symbol<A: Allocator + Copy>(
    symbols: &Symbols<'_, A>,
    user: bool,
    at: SymAt<'_>,
) -> Result<(), Fault>
    ensures { CheckedAs (at_checked symbols.now.table user (symbol_at at.entry)) result }
{
    let Sym::Id(id) = at.sym else {
        return Ok(());
    };
    match symbols.text(id) {
        Slot::Above => Err(Fault::Refused(Reason::BadSymbol, at.place)),
        Slot::Gap if user => Err(Fault::Refused(Reason::UnknownSymbol, at.place)),
        _ => Ok(()),
    }
}

// Checks a field.
#[inline(always)]
fn check_field<A: Allocator + Copy>(
    symbols: &Symbols<'_, A>,
    user: bool,
    field: Option<SymAt<'_>>,
) -> Result<(), Fault>
    ensures { CheckedAs (field_checked symbols.now.table user (raw_field field.entry)) result }
{
    match field {
        Some(at) => check_symbol(symbols, user, at),
        None => Ok(()),
    }
}

// Checks each annotation.
#[inline(always)]
fn check_annotations<A: Allocator + Copy>(
    symbols: &Symbols<'_, A>,
    user: bool,
    annotations: Annotations<'_, NoNames>,
) -> Result<(), Fault>
    ensures { CheckedAs
        (annotations_checked symbols.now.table user (raw_annotations annotations.entry)) result }
{
    let mut i = 0;
    while let Some(at) = annotations.get(i) {
        check_symbol(symbols, user, at)?;
        i += 1;
    }
    Ok(())
}

// Checks the symbol that an item is.
#[inline(always)]
fn check_head<A: Allocator + Copy>(
    symbols: &Symbols<'_, A>,
    user: bool,
    head: Head<'_>,
) -> Result<(), Fault>
    ensures { CheckedAs (head_checked symbols.now.table user (raw_head head.entry)) result }
{
    match head {
        Head::Symbol(at) => check_symbol(symbols, user, at),
        _ => Ok(()),
    }
}

// Checks the symbols of an item in order of place: its field, its annotations, and the symbol that it
// is.
#[inline(always)]
pub(crate) fn check_item<A: Allocator + Copy>(
    symbols: &Symbols<'_, A>,
    user: bool,
    item: &Item<'_, NoNames>,
) -> Result<(), Fault>
    ensures { CheckedAs (checked symbols.now.table user (raw_item item.now)) result }
{
    check_field(symbols, user, item.field())?;
    check_annotations(symbols, user, item.annotations())?;
    check_head(symbols, user, item.head())
}
