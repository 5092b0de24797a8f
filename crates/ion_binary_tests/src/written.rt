//! Items that are put as binary, one after the other.
ghost use Rattle.std.specs.Prelude.{◌≡◌, ◌+◌, List, [], true, false, None, OnOk, IfSome};
ghost use Rattle.ion_meter.specs.Limits.{AreChecked};
ghost use Rattle.ion_value.specs.Items.{item_of, raw_head};
ghost use Rattle.ion_value.specs.PlainItems.{IsPlainItem, IsSpelled, SaysRightly, placed_item};
ghost use Rattle.ion_value.specs.Standing.{open_after, open_after_all, is_marker, Fits, HeadInRange};
ghost use Rattle.ion_value.specs.Value.{PlacedItem};

use crate::plainly::{is_put, plain_of};
use crate::reading::expect_little;
use crate::same::{holds, same};
use ion_binary::writer::BinWriter;
use ion_float::octets::float_from_octets;
use ion_meter::device::Output;
use ion_meter::fault::Fault;
use ion_meter::limits::Limits;
use ion_meter::meter::Meter;
use ion_meter::sink::Sink;
use ion_meter::stream::ToWrite;
use ion_value::decimal::decimal_from_text;
use ion_value::int::int_from_text;
use ion_value::ion_type::{IonType, Kind};
use ion_value::item::{Annotation, Annotations, Head, Item, Sym, SymAt};
use ion_value::names::{Names, NoNames};
use ion_value::plain_item::PlainItem;
use ion_value::timestamp::timestamp_from_text;
use ion_value::writer::ValueWriter;
use std::alloc::Global;
use std::io::Write;
use std::process::Abort;

/// The texts that the annotations of a test are ranges of.
pub const TEXTS: &[u8] = b"nameversion";

/// The place of a field is its item's and this.
pub const FIELDS: u64 = 100;

/// A head, of which an int, a decimal or a timestamp is given as a text that spells it, and a float by
/// octets.
#[derive(Clone, Copy)]
pub enum Part<'a> {
    /// A null.
    Null(IonType),
    /// A truth.
    Bool(bool),
    /// An int.
    Int(&'a [u8]),
    /// A float.
    Float(&'a [u8]),
    /// A decimal.
    Decimal(&'a [u8]),
    /// A timestamp.
    Timestamp(&'a [u8]),
    /// A symbol.
    Symbol(&'a [u8]),
    /// The symbol of this id.
    Unknown(u32),
    /// A string.
    Text(&'a [u8]),
    /// A clob.
    Clob(&'a [u8]),
    /// A blob.
    Blob(&'a [u8]),
    /// The begin of a container.
    Begin(Kind),
    /// Its end.
    End,
}

/// A field's name, annotations and a head.
pub type Step<'a> = (Option<&'a [u8]>, &'a [Annotation], Part<'a>);

/// The head of a test, where there is one.
fn head_of<'a>(part: Part<'a>, place: u64) -> Option<Head<'a>>
    ensures { IfSome result (λ h. HeadInRange (raw_head h)) }
{
    Some(match part {
        Part::Null(of) => Head::Null(of),
        Part::Bool(truth) => Head::Bool(truth),
        Part::Int(text) => Head::Int(int_from_text(text).ok()?),
        Part::Float(octets) => Head::Float(float_from_octets(octets)?),
        Part::Decimal(text) => Head::Decimal(decimal_from_text(text).ok()?),
        Part::Timestamp(text) => Head::Timestamp(timestamp_from_text(text).ok()?),
        Part::Symbol(text) => Head::Symbol(symbol(text, place)),
        Part::Unknown(id) => Head::Symbol(SymAt {
            sym: Sym::Id(id),
            place,
        }),
        Part::Text(text) => Head::String(text),
        Part::Clob(octets) => Head::Clob(octets),
        Part::Blob(octets) => Head::Blob(octets),
        Part::Begin(kind) => Head::Begin(kind),
        Part::End => Head::End,
    })
}

/// A symbol of this text.
fn symbol(text: &[u8], place: u64) -> SymAt<'_> {
    SymAt {
        sym: Sym::Text(text),
        place,
    }
}

/// Whether an item may stand where these containers are open, the innermost first.
fn may_stand<N: Names>(depth: u32, kinds: &[Kind], item: &Item<'_, N>) -> bool
    requires range { HeadInRange (item_of N.text item.now).head }
    ensures fits { result ≡ true → Fits depth kinds.now (item_of N.text item.now) }
    ensures value { result ≡ true → is_marker (item_of N.text item.now).head ≡ false }
{
    let field = item.field().is_some();
    let in_struct = matches!(kinds, [Kind::Struct, ..]);
    match item.head() {
        Head::Marker => false,
        Head::End => !kinds.is_empty() && !field && item.annotations().is_empty(),
        Head::Begin(_) => kinds.len() < depth as usize && field == in_struct,
        _ => field == in_struct,
    }
}

/// Which containers are open after a head.
pub fn go_on(rt: &impl Abort, kinds: &mut Vec<Kind>, head: &Head<'_>)
    ensures { kinds.new.items ≡ open_after kinds.old.items (raw_head head.now) }
{
    match *head {
        Head::Begin(kind) => {
            if kinds.insert(0, kind).is_err() {
                panic!(rt; "no memory")
            }
        }
        Head::End => {
            if !kinds.is_empty() {
                kinds.remove(0);
            }
        }
        _ => {}
    }
}

/// Puts an item, one that is plain by `take_plain` if the writer takes it so.
fn put_step<W: ValueWriter<O, Global>, O: Output, N: Names>(
    rt: &impl Abort,
    meter: &mut Meter<Global>,
    sink: &mut Sink<O, Global>,
    writer: &mut W,
    kinds: &mut Vec<Kind>,
    depth: u32,
    item: &Item<'_, N>,
    plain: Option<PlainItem<'_, '_>>,
) -> Result<(), Fault>
    requires sound { W.sound writer.old }
    requires well { W.failed writer.old ≡ None }
    requires sink { sink.old.fault ≡ None }
    requires stands { (path : List PlacedItem) × W.stands writer.old path
        × (open_after_all [] path ≡ kinds.old.items) }
    requires depth { (W.limits writer.old).depth ≡ depth }
    requires held { meter.old.held ≡ 4096 + W.own writer.old }
    requires range { HeadInRange (item_of N.text item.now).head }
    requires plain_range { IfSome plain (λ i. HeadInRange (raw_head i.head)) }
    requires plain { IfSome plain (λ i. IsPlainItem (placed_item i)) }
    requires simple { IfSome plain SaysRightly }
    requires spelled { IfSome plain IsSpelled }
    requires single { IfSome plain (λ i. i.second ≡ None) }
    ensures sound { W.sound writer.new }
    ensures well { OnOk result (W.failed writer.new ≡ None) }
    ensures sink { OnOk result (sink.new.fault ≡ None) }
    ensures stands { OnOk result ((path : List PlacedItem) × W.stands writer.new path
        × (open_after_all [] path ≡ kinds.new.items)) }
    ensures depth { (W.limits writer.new).depth ≡ depth }
    ensures held { meter.new.held ≡ 4096 + W.own writer.new }
{
    let Some(plain) = plain else {
        return put_one(rt, meter, sink, writer, kinds, depth, item);
    };
    if is_put(rt, meter, sink, writer, kinds, depth, plain) {
        return Ok(());
    }
    put_one(rt, meter, sink, writer, kinds, depth, item)
}

/// Puts an item. A fault has to be answered again.
fn put_one<W: ValueWriter<O, Global>, O: Output, N: Names>(
    rt: &impl Abort,
    meter: &mut Meter<Global>,
    sink: &mut Sink<O, Global>,
    writer: &mut W,
    kinds: &mut Vec<Kind>,
    depth: u32,
    item: &Item<'_, N>,
) -> Result<(), Fault>
    requires sound { W.sound writer.old }
    requires well { W.failed writer.old ≡ None }
    requires sink { sink.old.fault ≡ None }
    requires stands { (path : List PlacedItem) × W.stands writer.old path
        × (open_after_all [] path ≡ kinds.old.items) }
    requires depth { (W.limits writer.old).depth ≡ depth }
    requires held { meter.old.held ≡ 4096 + W.own writer.old }
    requires range { HeadInRange (item_of N.text item.now).head }
    ensures sound { W.sound writer.new }
    ensures well { OnOk result (W.failed writer.new ≡ None) }
    ensures sink { OnOk result (sink.new.fault ≡ None) }
    ensures stands { OnOk result ((path : List PlacedItem) × W.stands writer.new path
        × (open_after_all [] path ≡ kinds.new.items)) }
    ensures depth { (W.limits writer.new).depth ≡ depth }
    ensures held { meter.new.held ≡ 4096 + W.own writer.new }
{
    expect_little(rt, meter);
    holds(rt, may_stand(depth, kinds.as_slice(), item));
    if let Err(fault) = writer.item(meter, sink, item) {
        expect_little(rt, meter);
        same(rt, writer.item(meter, sink, item), Err(fault));
        return Err(fault);
    }
    let head = item.head();
    go_on(rt, kinds, &head);
    Ok(())
}

/// Steps, and whether those that are plain are put by `take_plain`, if the writer takes them so.
#[derive(Clone, Copy)]
struct Way<'a> {
    steps: &'a [Step<'a>],
    plainly: bool,
}

/// Puts items, up to the first fault. An item's place is its number, and a value's that of its first
/// item.
fn put_all<W: ValueWriter<O, Global>, O: Output>(
    rt: &impl Abort,
    alloc: Global,
    meter: &mut Meter<Global>,
    sink: &mut Sink<O, Global>,
    writer: &mut W,
    depth: u32,
    way: Way<'_>,
) -> Result<(), Fault>
    requires sound { W.sound writer.old }
    requires fresh { W.is_new writer.old }
    requires depth { (W.limits writer.old).depth ≡ depth }
    requires held { meter.old.held ≡ 4096 + W.own writer.old }
    ensures held { meter.new.held ≡ 4096 + W.own writer.new }
{
    if let Err(fault) = writer.begin(sink) {
        return Err(fault);
    }
    let mut kinds = Vec::new(alloc);
    let mut top = 0;
    'steps: for (place, step) in way.steps.iter().enumerate() {
        let (field, annotations, part) = *step;
        let place = place as u64;
        let head = head_of(part, place).expect(rt, "a value");
        let field = match field {
            Some(text) => Some(symbol(text, place.saturating_add(FIELDS))),
            None => None,
        };
        if kinds.is_empty() {
            top = place;
        }
        let plain = plain_of(way.plainly, *step, head, place, top);
        let annotations = Annotations::new(annotations, TEXTS, &NoNames);
        let item = Item::new(field, annotations, head, place, top);
        if let Err(fault) = put_step(rt, meter, sink, writer, &mut kinds, depth, &item, plain) {
            return Err(fault);
        }
    }
    Ok(())
}

/// Puts items to a device, which is handed out. The answer has to be this, the writer gives all
/// memory back, and never held more than it may.
pub fn put<D: Write + Drop>(
    rt: &impl Abort,
    alloc: Global,
    limits: Limits,
    steps: &[Step<'_>],
    want: Result<(), Fault>,
    device: D,
) -> D {
    let way = Way {
        steps,
        plainly: false,
    };
    put_so(rt, alloc, limits, way, want, device)
}

/// Puts items to a device, plain ones by `take_plain` where the writer takes them so.
pub fn put_plainly<D: Write + Drop>(
    rt: &impl Abort,
    alloc: Global,
    limits: Limits,
    steps: &[Step<'_>],
    want: Result<(), Fault>,
    device: D,
) -> D {
    let way = Way {
        steps,
        plainly: true,
    };
    put_so(rt, alloc, limits, way, want, device)
}

/// Puts items to a device in one of these ways.
fn put_so<D: Write + Drop>(
    rt: &impl Abort,
    alloc: Global,
    limits: Limits,
    way: Way<'_>,
    want: Result<(), Fault>,
    device: D,
) -> D {
    holds(rt, limits.check());
    let mut meter = Meter::new(alloc);
    let sink = Sink::new(&mut meter, ToWrite::new(device));
    let mut sink = sink.ok().expect(rt, "a window");
    let mut writer = BinWriter::new(&meter, limits);
    let depth = limits.depth;
    let answer = put_all(rt, alloc, &mut meter, &mut sink, &mut writer, depth, way);
    let flushed = sink.flush().is_ok();
    same(
        rt,
        (answer, flushed),
        (want, want != Err(Fault::WriteFault)),
    );
    writer.release(&mut meter);
    let most = 4096 + 16 * limits.depth as u64 + limits.value + limits.symbols;
    holds(rt, meter.peak() <= most);
    let device = sink.release(&mut meter).into_inner();
    same(rt, meter.held(), 0);
    device
}
