//! What stands before a value: the id of its field, and those of its annotations.
ghost use Rattle.std.specs.Prelude.{◌≡◌, ◌≤◌, ◌<◌, ◌+◌, ◌-◌, ◌^◌, [], ◌∷◌, true, length, IfErr, IfOk, OnOk};
ghost use Rattle.ion_meter.specs.declared.fault.Fault.TheVariants.{Memory};
ghost use Rattle.ion_value.specs.Items.{annotations_of, item_of, raw_field, raw_head, symbol_at};
ghost use Rattle.ion_value.specs.Number.{var_uint_octets};
ghost use Rattle.ion_value.specs.Shares.{Charges, MemoryCauses, fault_of};
ghost use Rattle.ion_value.specs.Value.{user_item, user_symbol_at};
ghost use Rattle.ion_value.specs.Writable.{field_symbols};
ghost use Rattle.ion_symbols.specs.Output.{CanAdd, texts_cost};
ghost use Rattle.ion_binary.specs.Canonical.{id_in, id_octets, with_symbols};
ghost use Rattle.ion_binary.specs.ItemOctets.{head_name, user_head};
ghost use Rattle.ion_binary.specs.Late.{Adds};
ghost use Rattle.ion_binary.specs.Numbering.{CanNumber, IsFront, Numbers, PutsWithin, numbering, users};
ghost use Rattle.ion_binary.specs.Writing.{head_symbols, item_symbols};

use crate::held_octets::HeldOctets;
use ion_meter::fault::{Fault, Reason};
use ion_meter::meter::Meter;
use ion_symbols::output::OutSymbols;
use ion_value::item::{Annotations, Head, Item, Sym, SymAt};
use ion_value::names::Names;
use ion_value::var::var_uint_write;
use std::alloc::Allocator;

/// What stands before an item's own octets.
#[derive(Clone, Copy)]
pub(crate) struct Front {
    /// Where the ids of its annotations begin among the octets that are held.
    pub(crate) ids: usize,
    /// The id of a symbol value, 0 for other heads.
    pub(crate) name: u32,
    /// Whether all of it was put; where not, it would pass the limit on values.
    pub(crate) fits: bool,
}

/// Gives the symbols of an item with such a head their ids, and puts the field's and the
/// annotations' after the octets that are held, as long as these are at most so many.
///
/// It answers `SymbolLimit` at the symbol with which the texts cost too much.
pub(crate) fn put_front<A: Allocator + Copy, N: Names>(
    symbols: &mut OutSymbols<A>,
    buffer: &mut HeldOctets<A>,
    meter: &mut Meter<A>,
    item: &Item<'_, N>,
    head: Head<'_>,
    most: u64,
) -> Result<Front, Fault>
    requires can_number { CanNumber most (numbering symbols.old buffer.old.all meter.old) }
    requires head { raw_head head ≡ (item_of N.text item.now).head }
    ensures numbers { Numbers most (numbering symbols.old buffer.old.all meter.old)
        (numbering symbols.new buffer.new.all meter.new) result
        (item_symbols (item_of N.text item.now)) }
    ensures texts { OnOk result (symbols.new.texts
        ≡ with_symbols symbols.old.texts (item_symbols (user_item (item_of N.text item.now)))) }
    ensures adds { Adds buffer.old buffer.new }
    ensures front { IfOk result (IsFront most (id_in symbols.new.texts)
        buffer.old.all buffer.new.all (user_item (item_of N.text item.now))) }
{
    let there = match put_field(symbols, buffer, meter, item.field(), most) {
        Ok(there) => there,
        Err(fault) => return Err(fault),
    };
    let ids = buffer.len();
    let annotations = item.annotations();
    let fits = match put_annotations(symbols, buffer, meter, &annotations, most, there) {
        Ok(fits) => fits,
        Err(fault) => return Err(fault),
    };
    let name = match name_of(symbols, meter, head) {
        Ok(name) => name,
        Err(fault) => return Err(fault),
    };
    Ok(Front { ids, name, fits })
}

// Puts the id of a field, and says whether it fits.
#[inline]
fn put_field<A: Allocator + Copy>(
    symbols: &mut OutSymbols<A>,
    buffer: &mut HeldOctets<A>,
    meter: &mut Meter<A>,
    field: Option<SymAt<'_>>,
    most: u64,
) -> Result<bool, Fault>
    requires can_number { CanNumber most (numbering symbols.old buffer.old.all meter.old) }
    ensures numbers { Numbers most (numbering symbols.old buffer.old.all meter.old)
        (numbering symbols.new buffer.new.all meter.new) result
        (field_symbols (raw_field field.entry)) }
    ensures adds { Adds buffer.old buffer.new }
    ensures puts { IfOk result (λ there. PutsWithin most true there buffer.old.all buffer.new.all
        (id_octets (id_in symbols.new.texts) (users (field_symbols (raw_field field.entry))))) }
{
    match field {
        Some(at) => put_symbol(symbols, buffer, meter, at, most, true),
        None => Ok(true),
    }
}

// Puts the ids of annotations, as long as all before them are there and they fit too.
fn put_annotations<A: Allocator + Copy, N: Names>(
    symbols: &mut OutSymbols<A>,
    buffer: &mut HeldOctets<A>,
    meter: &mut Meter<A>,
    annotations: &Annotations<'_, N>,
    most: u64,
    there: bool,
) -> Result<bool, Fault>
    requires can_number { CanNumber most (numbering symbols.old buffer.old.all meter.old) }
    ensures numbers { Numbers most (numbering symbols.old buffer.old.all meter.old)
        (numbering symbols.new buffer.new.all meter.new) result
        (annotations_of N.text annotations.now) }
    ensures adds { Adds buffer.old buffer.new }
    ensures puts { IfOk result (λ fits. PutsWithin most there fits buffer.old.all buffer.new.all
        (id_octets (id_in symbols.new.texts) (users (annotations_of N.text annotations.now)))) }
{
    let mut fits = there;
    let mut index = 0;
    while let Some(at) = annotations.get(index) {
        fits = match put_symbol(symbols, buffer, meter, at, most, fits) {
            Ok(fits) => fits,
            Err(fault) => return Err(fault),
        };
        index += 1;
    }
    Ok(fits)
}

// Puts the id of a symbol, as long as all before it are there and it fits too.
#[inline]
fn put_symbol<A: Allocator + Copy>(
    symbols: &mut OutSymbols<A>,
    buffer: &mut HeldOctets<A>,
    meter: &mut Meter<A>,
    at: SymAt<'_>,
    most: u64,
    there: bool,
) -> Result<bool, Fault>
    requires can_number { CanNumber most (numbering symbols.old buffer.old.all meter.old) }
    ensures numbers { Numbers most (numbering symbols.old buffer.old.all meter.old)
        (numbering symbols.new buffer.new.all meter.new) result (symbol_at at.entry ∷ []) }
    ensures adds { Adds buffer.old buffer.new }
    ensures puts { IfOk result (λ fits. PutsWithin most there fits buffer.old.all buffer.new.all
        (id_octets (id_in symbols.new.texts) (users (symbol_at at.entry ∷ [])))) }
{
    let id = match id_of(symbols, meter, at) {
        Ok(id) => id,
        Err(fault) => return Err(fault),
    };
    put_id(buffer, meter, id, most, there)
}

// Puts an id, as long as all before it are there and it fits too.
#[inline]
fn put_id<A: Allocator + Copy>(
    buffer: &mut HeldOctets<A>,
    meter: &mut Meter<A>,
    id: u32,
    most: u64,
    there: bool,
) -> Result<bool, Fault>
    requires within { length buffer.old.all ≤ most }
    requires bound { most ≤ 2 ^ 30 }
    requires room { meter.old.held ≤ 2 ^ 62 + 2 ^ 31 }
    requires held { length buffer.old.all ≤ meter.old.held }
    requires countable { meter.old.refused < 2 ^ 64 - 1 }
    ensures adds { Adds buffer.old buffer.new }
    ensures puts { IfOk result (λ fits. PutsWithin most there fits buffer.old.all buffer.new.all
        (var_uint_octets id)) }
    ensures memory { IfErr result (λ fault. fault ≡ Memory) }
    ensures charges { Charges meter.old meter.new
        (length buffer.old.all) (length buffer.new.all) most }
    ensures causes { MemoryCauses (fault_of result) meter.old meter.new }
{
    let octets = var_uint_write(id as u64);
    if !there || most < (buffer.len() + octets.len()) as u64 {
        return Ok(false);
    }
    match buffer.extend(meter, octets.as_slice()) {
        Ok(()) => Ok(true),
        Err(fault) => Err(fault),
    }
}

// The id of a symbol value, and 0 of other heads.
#[inline]
fn name_of<A: Allocator + Copy>(
    symbols: &mut OutSymbols<A>,
    meter: &mut Meter<A>,
    head: Head<'_>,
) -> Result<u32, Fault>
    requires can_add { CanAdd symbols.old.texts meter.old }
    requires share { texts_cost symbols.old.texts ≤ symbols.old.limit }
    ensures numbers { Numbers 0 (numbering symbols.old [] meter.old)
        (numbering symbols.new [] meter.new) result (head_symbols (raw_head head.entry)) }
    ensures name { IfOk result
        (λ name. name ≡ head_name (id_in symbols.new.texts) (user_head head.entry)) }
{
    match head {
        Head::Symbol(at) => id_of(symbols, meter, at),
        _ => Ok(0),
    }
}

// The id of a symbol: that of its text, which is given one where it is new, or 0 where the text is
// unknown.
#[inline]
fn id_of<A: Allocator + Copy>(
    symbols: &mut OutSymbols<A>,
    meter: &mut Meter<A>,
    at: SymAt<'_>,
) -> Result<u32, Fault>
    requires can_add { CanAdd symbols.old.texts meter.old }
    requires share { texts_cost symbols.old.texts ≤ symbols.old.limit }
    ensures numbers { Numbers 0 (numbering symbols.old [] meter.old)
        (numbering symbols.new [] meter.new) result (symbol_at at.entry ∷ []) }
    ensures id { IfOk result
        (λ id. id ≡ id_in symbols.new.texts (user_symbol_at (symbol_at at.entry))) }
{
    let Sym::Text(text) = at.sym else {
        return Ok(0);
    };
    match symbols.give_id(meter, text) {
        Ok(Some(id)) => Ok(id),
        Ok(None) => Err(Fault::Refused(Reason::SymbolLimit, at.place)),
        Err(fault) => Err(fault),
    }
}
