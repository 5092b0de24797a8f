//! A declaration that is read by itself.
ghost use Rattle.std.specs.Prelude.{◌≡◌, ◌+◌, ◌∷◌, ◌≤◌, [], Ok, true};
ghost use Rattle.ion_value.specs.declared.ion_type.Kind.TheVariants as kinds;
ghost use Rattle.ion_symbols.specs.Table.{table_cost};

use crate::hex::octets;
use crate::limits::LIMITS;
use crate::pieces::whole;
use crate::reading::expect_little;
use crate::same::{holds, same};
use ion_binary::reader::BinReader;
use ion_meter::fault::Fault;
use ion_meter::meter::Meter;
use ion_meter::source::Source;
use ion_meter::stream::FromRead;
use ion_symbols::buffer::SymbolBuffer;
use ion_symbols::catalog::Catalog;
use ion_symbols::symbols::{Slot, Symbols};
use ion_test_support::refusing::Refusing;
use ion_value::ion_type::Kind;
use ion_value::item::Head;
use ion_value::reader::RawReader;
use std::alloc::{Allocator, Global};
use std::process::Abort;

// Takes the next item, which begins a struct.
fn begin_struct<R: RawReader<A>, A: Allocator + Copy>(
    rt: &impl Abort,
    meter: &mut Meter<A>,
    raw: &mut R,
)
    requires sound { R.sound raw.old }
    requires held { R.own raw.old ≤ meter.old.held }
    requires level { R.opened raw.old ≡ [] }
    ensures sound { R.sound raw.new }
    ensures held { R.own raw.new ≤ meter.new.held }
    ensures rest { meter.new.held + R.own raw.old ≡ meter.old.held + R.own raw.new }
    ensures level { R.opened raw.new ≡ kinds.Struct ∷ [] }
{
    expect_little(rt, meter);
    assert_eq!(rt; raw.next(meter), Ok(true));
    let Head::Begin(Kind::Struct) = raw.item().head() else {
        panic!(rt; "the item begins no struct")
    };
}

// The text `a` is declared, then others are appended to it.
const APPENDED: &str = "E7 81 83 D4 87 B2 81 61 EE 8E 81 83 DB 87 B6 81 62 81 63 81 64 86 71 03";

// The text `a` is declared, then a table of one import that is not there.
const IMPORTED: &str = "E7 81 83 D4 87 B2 81 61 EC 81 83 D9 86 B7 D6 84 81 78 88 21 01";

// Reads a declaration, after which its table is the present one. Its nth growth is refused, alone or
// with all after it; none where that is 0.
fn declare<R: RawReader<A>, A: Allocator + Copy>(
    rt: &impl Abort,
    meter: &mut Meter<A>,
    raw: &mut R,
    symbols: &mut Symbols<'_, A>,
    refusing: &Refusing<Global>,
    nth: u64,
    onward: bool,
) -> Result<bool, Fault>
    requires sound { R.sound raw.old }
    requires held { R.own raw.old + table_cost symbols.old.table ≤ meter.old.held }
    requires cheap { table_cost symbols.old.table ≤ 1_048_576 }
    requires level { R.opened raw.old ≡ [] }
    ensures sound { R.sound raw.new }
    ensures held { R.own raw.new + table_cost symbols.new.table ≤ meter.new.held }
    ensures cheap { table_cost symbols.new.table ≤ 1_048_576 }
    ensures level { result ≡ Ok true → R.opened raw.new ≡ [] }
{
    begin_struct(rt, meter, raw);
    expect_little(rt, meter);
    refusing.refuse(nth, onward);
    SymbolBuffer::read(meter, LIMITS, raw, symbols)
}

// Reads a declaration of the text `a` by itself.
fn declare_first<R: RawReader<A>, A: Allocator + Copy>(
    rt: &impl Abort,
    meter: &mut Meter<A>,
    raw: &mut R,
    symbols: &mut Symbols<'_, A>,
    refusing: &Refusing<Global>,
)
    requires sound { R.sound raw.old }
    requires held { R.own raw.old + table_cost symbols.old.table ≤ meter.old.held }
    requires cheap { table_cost symbols.old.table ≤ 1_048_576 }
    requires level { R.opened raw.old ≡ [] }
    ensures sound { R.sound raw.new }
    ensures held { R.own raw.new + table_cost symbols.new.table ≤ meter.new.held }
    ensures cheap { table_cost symbols.new.table ≤ 1_048_576 }
    ensures level { R.opened raw.new ≡ [] }
{
    let Ok(true) = declare(rt, meter, raw, symbols, refusing, 0, false) else {
        panic!(rt; "no declaration")
    };
    let slots = (symbols.text(10), symbols.text(11));
    same(rt, slots, (Slot::Known(b"a"), Slot::Above));
}

// Asserts how the second declaration ended. Whether its nth growth was refused; the present table
// stays then.
fn expect_kept<A: Allocator + Copy>(
    rt: &impl Abort,
    meter: &Meter<A>,
    symbols: &Symbols<'_, A>,
    refusing: &Refusing<Global>,
    nth: u64,
    answer: Result<bool, Fault>,
) -> bool {
    let is_met = refusing.has_refused();
    let want = if is_met { Err(Fault::Memory) } else { Ok(true) };
    same(rt, (nth, answer), (nth, want));
    same(rt, (nth, meter.refused() > 0), (nth, is_met));
    let is_kept = symbols.text(10) == Slot::Known(b"a") && symbols.text(11) == Slot::Above;
    same(rt, (nth, is_kept), (nth, is_met));
    is_met
}

// Reads a declaration of the text `a`, then another one whose nth growth is refused. Whether it met
// that.
fn is_met<R: RawReader<A>, A: Allocator + Copy>(
    rt: &impl Abort,
    meter: &mut Meter<A>,
    raw: &mut R,
    refusing: &Refusing<Global>,
    nth: u64,
    onward: bool,
) -> bool
    requires sound { R.sound raw.old }
    requires held { R.own raw.old ≤ meter.old.held }
    requires level { R.opened raw.old ≡ [] }
    ensures held { R.own raw.new ≤ meter.new.held }
{
    let catalog = Catalog::new(meter);
    let mut symbols = Symbols::new(meter, &catalog);
    declare_first(rt, meter, raw, &mut symbols, refusing);
    let answer = declare(rt, meter, raw, &mut symbols, refusing, nth, onward);
    let is_met = expect_kept(rt, meter, &symbols, refusing, nth, answer);
    symbols.release(meter);
    is_met
}

// Whether the second declaration has an nth growth.
fn has_growth(
    rt: &impl Abort,
    refusing: &Refusing<Global>,
    octets: &[u8],
    nth: u64,
    onward: bool,
) -> bool {
    refusing.refuse(0, false);
    holds(rt, LIMITS.check());
    let mut meter = Meter::new(refusing);
    let source = Source::new(&mut meter, LIMITS, FromRead::new(whole(octets)));
    let source = source.ok().expect(rt, "memory for the window");
    let mut raw = BinReader::new(&meter, LIMITS, source);
    let is_met = is_met(rt, &mut meter, &mut raw, refusing, nth, onward);
    let _device = raw.release(&mut meter);
    same(rt, meter.held(), 0);
    is_met
}

// How many growths the second declaration has. Each is refused alone, and with all after it.
fn count_growths(rt: &impl Abort, alloc: Global, octets: &[u8]) -> u64 {
    let refusing = Refusing::new(alloc, 0);
    for nth in 1..1_000 {
        let alone = has_growth(rt, &refusing, octets, nth, false);
        let onward = has_growth(rt, &refusing, octets, nth, true);
        same(rt, (nth, onward), (nth, alone));
        if !alone {
            return nth - 1;
        }
    }
    panic!(rt; "each run met a refusal")
}

#[test]
fn the_present_table_stays_where_memory_is_refused(rt: HostRuntime) {
    let appended = octets(&rt, rt.alloc(), b"", APPENDED);
    let appended = count_growths(&rt, rt.alloc(), appended.as_slice());
    let imported = octets(&rt, rt.alloc(), b"", IMPORTED);
    let imported = count_growths(&rt, rt.alloc(), imported.as_slice());
    assert!(rt; appended >= 2 && imported >= 2);
}
