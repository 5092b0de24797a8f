//! What the writer puts for items, whole and as long as containers are open.
ghost use Rattle.std.specs.Prelude.{◌≡◌, ◌+◌, ◌^◌, ◌<◌, List, [], true, false, OnOk, IfSome};
ghost use Rattle.ion_value.specs.Items.{item_of, raw_head};
ghost use Rattle.ion_value.specs.Standing.{open_after, open_after_all, is_marker, Fits, HeadInRange};
ghost use Rattle.ion_value.specs.Value.{PlacedItem};

mod containers;
mod devices;
mod laws;
mod scalars;

use ion_float::octets::float_from_octets;
use ion_meter::device::Output;
use ion_meter::fault::Fault;
use ion_meter::limits::Limits;
use ion_meter::meter::Meter;
use ion_meter::sink::Sink;
use ion_meter::stream::ToWrite;
use ion_text_out::layout::{Canonical, Layout, Pretty};
use ion_text_out::writer::LaidOut;
use ion_value::decimal::decimal_from_text;
use ion_value::int::int_from_text;
use ion_value::ion_type::{IonType, Kind};
use ion_value::item::{Annotation, Annotations, Head, Item, Sym, SymAt};
use ion_value::names::{Names, NoNames};
use ion_value::timestamp::timestamp_from_text;
use ion_value::writer::ValueWriter;
use std::alloc::Global;
use std::io::Write;
use std::process::Abort;

const LIMITS: Limits = Limits {
    depth: 3,
    scalar: 64,
    symbols: 64,
    value: 64,
    input: 64,
};

/// The texts that the annotations of a test are ranges of.
const TEXTS: &[u8] = b"ab c";

/// A head, of which an int, a decimal or a timestamp is given as a text that spells it, and a float by
/// octets.
#[derive(Clone, Copy)]
enum Part<'a> {
    Null(IonType),
    Bool(bool),
    Int(&'a [u8]),
    Float(&'a [u8]),
    Decimal(&'a [u8]),
    Timestamp(&'a [u8]),
    Symbol(&'a [u8]),
    Unknown,
    Text(&'a [u8]),
    Clob(&'a [u8]),
    Blob(&'a [u8]),
    Begin(Kind),
    End,
}

/// A field's name, annotations and a head.
type Step<'a> = (Option<&'a [u8]>, &'a [Annotation], Part<'a>);

/// The head of a test, where there is one.
fn head_of<'a>(part: Part<'a>) -> Option<Head<'a>>
    ensures { IfSome result (λ h. HeadInRange (raw_head h)) }
{
    Some(match part {
        Part::Null(of) => Head::Null(of),
        Part::Bool(truth) => Head::Bool(truth),
        Part::Int(text) => Head::Int(int_from_text(text).ok()?),
        Part::Float(octets) => Head::Float(float_from_octets(octets)?),
        Part::Decimal(text) => Head::Decimal(decimal_from_text(text).ok()?),
        Part::Timestamp(text) => Head::Timestamp(timestamp_from_text(text).ok()?),
        Part::Symbol(text) => Head::Symbol(symbol(text)),
        Part::Unknown => Head::Symbol(SymAt {
            sym: Sym::Id(0),
            place: 0,
        }),
        Part::Text(text) => Head::String(text),
        Part::Clob(bytes) => Head::Clob(bytes),
        Part::Blob(bytes) => Head::Blob(bytes),
        Part::Begin(kind) => Head::Begin(kind),
        Part::End => Head::End,
    })
}

/// A symbol of this text.
fn symbol(text: &[u8]) -> SymAt<'_> {
    SymAt {
        sym: Sym::Text(text),
        place: 0,
    }
}

/// Whether an item may stand where these containers are open, the innermost first.
fn may_stand<N: Names>(depth: u32, kinds: &[Kind], item: &Item<'_, N>) -> bool
    requires range { HeadInRange (item_of N.text item.now).head }
    ensures fits { result ≡ true → Fits depth kinds.now (item_of N.text item.now) }
    ensures value { result ≡ true → is_marker (item_of N.text item.now).head ≡ false }
{
    let field = item.field().is_some();
    let in_struct = matches!(kinds, [Kind::Struct, ..]);
    match item.head() {
        Head::Marker => false,
        Head::End => !kinds.is_empty() && !field && item.annotations().is_empty(),
        Head::Begin(_) => kinds.len() < depth as usize && field == in_struct,
        _ => field == in_struct,
    }
}

/// Which containers are open after a head.
fn go_on(rt: &impl Abort, kinds: &mut Vec<Kind>, head: &Head<'_>)
    ensures { kinds.new.items ≡ open_after kinds.old.items (raw_head head.now) }
{
    match *head {
        Head::Begin(kind) => {
            if kinds.insert(0, kind).is_err() {
                panic!(rt; "no memory")
            }
        }
        Head::End => {
            if !kinds.is_empty() {
                kinds.remove(0);
            }
        }
        _ => {}
    }
}

/// Asserts that little is counted.
fn expect_little(rt: &impl Abort, meter: &Meter<Global>)
    ensures held { meter.now.held < 2 ^ 32 }
    ensures refused { meter.now.refused < 2 ^ 32 }
{
    assert!(rt; meter.held() < 1 << 32);
    assert!(rt; meter.refused() < 1 << 32);
}

/// Puts an item. A fault has to be answered again.
fn put_one<W: ValueWriter<O, Global>, O: Output, N: Names>(
    rt: &impl Abort,
    meter: &mut Meter<Global>,
    sink: &mut Sink<O, Global>,
    writer: &mut W,
    kinds: &mut Vec<Kind>,
    item: &Item<'_, N>,
) -> Result<(), Fault>
    requires sound { W.sound writer.old }
    requires stands { (path : List PlacedItem) × W.stands writer.old path
        × (open_after_all [] path ≡ kinds.old.items) }
    requires depth { (W.limits writer.old).depth ≡ 3 }
    requires held { meter.old.held ≡ 4096 + W.own writer.old }
    requires range { HeadInRange (item_of N.text item.now).head }
    ensures sound { W.sound writer.new }
    ensures stands { OnOk result ((path : List PlacedItem) × W.stands writer.new path
        × (open_after_all [] path ≡ kinds.new.items)) }
    ensures depth { (W.limits writer.new).depth ≡ 3 }
    ensures held { meter.new.held ≡ 4096 + W.own writer.new }
{
    expect_little(rt, meter);
    assert!(rt; may_stand(3, kinds.as_slice(), item));
    if let Err(fault) = writer.item(meter, sink, item) {
        expect_little(rt, meter);
        assert_eq!(rt; writer.item(meter, sink, item), Err(fault));
        return Err(fault);
    }
    let head = item.head();
    go_on(rt, kinds, &head);
    Ok(())
}

/// Puts items, up to the first fault.
fn put_all<W: ValueWriter<O, Global>, O: Output>(
    rt: &impl Abort,
    alloc: Global,
    meter: &mut Meter<Global>,
    sink: &mut Sink<O, Global>,
    writer: &mut W,
    steps: &[Step<'_>],
) -> Result<(), Fault>
    requires sound { W.sound writer.old }
    requires fresh { W.is_new writer.old }
    requires depth { (W.limits writer.old).depth ≡ 3 }
    requires held { meter.old.held ≡ 4096 + W.own writer.old }
    ensures held { meter.new.held ≡ 4096 + W.own writer.new }
{
    if let Err(fault) = writer.begin(sink) {
        return Err(fault);
    }
    let mut kinds = Vec::new(alloc);
    'steps: for (field, annotations, part) in steps {
        let Some(head) = head_of(*part) else {
            panic!(rt; "no value")
        };
        let field = match field {
            Some(text) => Some(symbol(text)),
            None => None,
        };
        let annotations = Annotations::new(annotations, TEXTS, &NoNames);
        let item = Item::new(field, annotations, head, 0, 0);
        if let Err(fault) = put_one(rt, meter, sink, writer, &mut kinds, &item) {
            return Err(fault);
        }
    }
    Ok(())
}

/// Puts items by a layout to a device with this outcome, gives all memory back, and hands the device
/// out.
fn put_to<L: Layout, D: Write + Drop>(
    rt: &impl Abort,
    alloc: Global,
    device: D,
    steps: &[Step<'_>],
    want: Result<(), Fault>,
) -> D {
    let mut meter = Meter::new(alloc);
    let Ok(mut sink) = Sink::new(&mut meter, ToWrite::new(device)) else {
        panic!(rt; "no window")
    };
    let mut writer = LaidOut::<L, Global>::new(&meter, LIMITS);
    let mut outcome = put_all(rt, alloc, &mut meter, &mut sink, &mut writer, steps);
    if outcome.is_ok() {
        outcome = sink.flush();
    }
    assert_eq!(rt; outcome, want);
    writer.release(&mut meter);
    let device = sink.release(&mut meter).into_inner();
    assert_eq!(rt; meter.held(), 0);
    device
}

/// Puts items as canonical text, and compares what was written.
fn expect_text(rt: &impl Abort, alloc: Global, steps: &[Step<'_>], want: &[u8]) {
    let out = put_to::<Canonical, Vec<u8>>(rt, alloc, Vec::new(alloc), steps, Ok(()));
    assert_eq!(rt; out.as_slice(), want);
}

/// Puts items as pretty text, and compares what was written.
fn expect_pretty(rt: &impl Abort, alloc: Global, steps: &[Step<'_>], want: &[u8]) {
    let out = put_to::<Pretty, Vec<u8>>(rt, alloc, Vec::new(alloc), steps, Ok(()));
    assert_eq!(rt; out.as_slice(), want);
}

#[test]
fn puts_rows(rt: HostRuntime) {
    for rows in [
        scalars::NULLS_AND_BOOLS,
        scalars::NUMBERS,
        scalars::TIMESTAMPS,
        scalars::SYMBOLS,
        scalars::TEXTS,
        scalars::LOBS,
    ] {
        for (part, line) in rows {
            expect_text(&rt, rt.alloc(), &[(None, &[], *part)], line);
        }
    }
    for rows in [
        containers::ANNOTATED,
        containers::CONTAINERS,
        containers::OPEN,
    ] {
        for (steps, text) in rows {
            expect_text(&rt, rt.alloc(), steps, text);
        }
    }
}

#[test]
fn puts_pretty_rows(rt: HostRuntime) {
    for (steps, text) in containers::PRETTY {
        expect_pretty(&rt, rt.alloc(), steps, text);
    }
}
