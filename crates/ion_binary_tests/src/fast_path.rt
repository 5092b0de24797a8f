//! Which items a run hands on from its window, and which it puts one at a time.
//!
//! No clause says that `feed` hands on anything, that `take_plain` takes anything, or that
//! `name_text` knows a quoting, and without them a run gives what it gives with them, in many times
//! the time. So a table says of each kind of item how many are put one at a time today.
ghost use Rattle.std.specs.Prelude.{◌≡◌, ◌+◌, ◌≤◌, [], None, true};
ghost use Rattle.ion_meter.specs.Limits.{AreChecked};
ghost use Rattle.ion_meter.specs.Sources.{Stands};
ghost use Rattle.ion_symbols.specs.User.{IsReady, answered_by, owned_by, raw_of};
ghost use Rattle.ion_value.specs.Feeding.{CanTake};

use crate::hex::{MARKER, add, add_digits, octets};
use crate::limits::LIMITS;
use crate::reading::expect_little;
use crate::same::{holds, same};
use ion_binary::reader::BinReader;
use ion_binary::writer::BinWriter;
use ion_meter::device::{Input, Output};
use ion_meter::limits::Limits;
use ion_meter::meter::Meter;
use ion_meter::sink::Sink;
use ion_meter::source::Source;
use ion_meter::stream::{FromRead, ToWrite};
use ion_symbols::catalog::Catalog;
use ion_symbols::user::UserReader;
use ion_test_support::fields::{Fields, is_row};
use ion_text_in::reader::TextReader;
use ion_text_out::writer::TextWriter;
use ion_value::reader::RawReader;
use ion_value::writer::ValueWriter;
use std::alloc::Global;
use std::process::Abort;

// More items than any stream here has.
const MANY: u64 = 1_000;

// Puts the next item, and hands on those after it that lie in the window, as a run does. False at the
// end.
fn turn<R: RawReader<Global>, W: ValueWriter<O, Global>, O: Output>(
    rt: &impl Abort,
    meter: &mut Meter<Global>,
    reader: &mut UserReader<'_, R, Global>,
    writer: &mut W,
    sink: &mut Sink<O, Global>,
) -> bool
    requires ready { IsReady R.sound R.opened R.failed R.ended reader.old }
    requires going { answered_by reader.old ≡ None }
    requires writer { CanTake W.ValueWriter (R.depth (raw_of reader.old))
        (R.opened (raw_of reader.old)) writer.old sink.old }
    requires held { owned_by R.own reader.old + W.own writer.old ≤ meter.old.held }
    ensures ready { IsReady R.sound R.opened R.failed R.ended reader.new }
    ensures going { result ≡ true → answered_by reader.new ≡ None }
    ensures writer { result ≡ true → CanTake W.ValueWriter (R.depth (raw_of reader.new))
        (R.opened (raw_of reader.new)) writer.new sink.new }
    ensures held { owned_by R.own reader.new + W.own writer.new ≤ meter.new.held }
{
    expect_little(rt, meter);
    match reader.next(meter) {
        Ok(true) => {}
        ending => {
            same(rt, ending, Ok(false));
            return false;
        }
    }
    expect_little(rt, meter);
    let item = reader.item();
    if let Err(_fault) = writer.item(meter, sink, &item) {
        panic!(rt; "an item is refused")
    }
    expect_little(rt, meter);
    let _fed = reader.feed(meter, writer, sink);
    true
}

// Begins to write.
fn begin<W: ValueWriter<O, Global>, O: Output>(
    rt: &impl Abort,
    writer: &mut W,
    sink: &mut Sink<O, Global>,
)
    requires sound { W.sound writer.old }
    requires fresh { W.is_new writer.old }
    ensures writer { CanTake W.ValueWriter (W.limits writer.old).depth [] writer.new sink.new }
    ensures own { W.own writer.new ≡ W.own writer.old }
{
    if let Err(_fault) = writer.begin(sink) {
        panic!(rt; "nothing is written")
    }
}

// How many items of a raw reader are put one at a time by a writer.
fn turns_by<R: RawReader<Global> + Drop, W: ValueWriter<O, Global>, O: Output>(
    rt: &impl Abort,
    meter: &mut Meter<Global>,
    limits: Limits,
    raw: R,
    writer: &mut W,
    sink: &mut Sink<O, Global>,
) -> u64
    requires checked { AreChecked limits }
    requires reader { R.sound raw }
    requires level { R.opened raw ≡ [] }
    requires well { R.failed raw ≡ None }
    requires sound { W.sound writer.old }
    requires fresh { W.is_new writer.old }
    requires depth { (W.limits writer.old).depth ≡ R.depth raw }
    requires held { R.own raw + W.own writer.old ≤ meter.old.held }
{
    begin(rt, writer, sink);
    let catalog = Catalog::new(meter);
    let mut reader = UserReader::new(meter, limits, raw, &catalog);
    'items: for n in 0..MANY {
        if !turn(rt, meter, &mut reader, writer, sink) {
            let _raw = reader.release(meter);
            return n;
        }
    }
    panic!(rt; "the stream has no end")
}

// What items are written as.
#[derive(Clone, Copy)]
enum Target {
    Text,
    Binary,
}

// How many items of a raw reader are put one at a time.
fn turns_to<R: RawReader<Global> + Drop, O: Output>(
    rt: &impl Abort,
    meter: &mut Meter<Global>,
    limits: Limits,
    raw: R,
    target: Target,
    sink: &mut Sink<O, Global>,
) -> u64
    requires checked { AreChecked limits }
    requires reader { R.sound raw }
    requires level { R.opened raw ≡ [] }
    requires well { R.failed raw ≡ None }
    requires depth { R.depth raw ≡ limits.depth }
    requires held { R.own raw ≤ meter.old.held }
{
    match target {
        Target::Text => {
            let mut writer = TextWriter::new(meter, limits);
            turns_by(rt, meter, limits, raw, &mut writer, sink)
        }
        Target::Binary => {
            let mut writer = BinWriter::new(meter, limits);
            turns_by(rt, meter, limits, raw, &mut writer, sink)
        }
    }
}

// How many items of a source are put one at a time.
fn turns_of<I: Input + Drop, O: Output>(
    rt: &impl Abort,
    meter: &mut Meter<Global>,
    limits: Limits,
    is_binary: bool,
    source: Source<I, Global>,
    target: Target,
    sink: &mut Sink<O, Global>,
) -> u64
    requires checked { AreChecked limits }
    requires stands { Stands source }
    requires held { 4096 ≤ meter.old.held }
{
    if is_binary {
        let raw = BinReader::new(meter, limits, source);
        turns_to(rt, meter, limits, raw, target, sink)
    } else {
        let raw = TextReader::new(meter, limits, source);
        turns_to(rt, meter, limits, raw, target, sink)
    }
}

// How many items of a stream that lies whole in the window are put one at a time.
fn count(rt: &impl Abort, alloc: Global, stream: &[u8], target: Target) -> u64 {
    holds(rt, LIMITS.check());
    let mut meter = Meter::new(alloc);
    let source = Source::new(&mut meter, LIMITS, FromRead::new(stream));
    let source = source.ok().expect(rt, "a window");
    let sink = Sink::new(&mut meter, ToWrite::new(Vec::new(alloc)));
    let mut sink = sink.ok().expect(rt, "a window");
    let is_binary = stream.starts_with(MARKER);
    turns_of(rt, &mut meter, LIMITS, is_binary, source, target, &mut sink)
}

// What stands before each text: a value for which the writer of binary makes more room than a row
// needs, since it takes nothing from the window for which it would have to make room.
const FRONT: &[u8] = b"[\"0123456789abcdef0123456789abcdef0123456789abcdef0123456789abcdef\
    0123456789abcdef0123456789abcdef0123456789abcdef0123456789abcdef\"]\n";

// Texts, and how many of their items are put one at a time as text and as binary; a `~` ends a line.
// Where all items of a row are handed on it is one as text, the first of all, and two as binary, with
// the string for which room is made. As binary each end of a value with a new text is one more, and each
// scalar at top level with an annotation or a new text.
const TEXTS: &str = r#"
# Ints: small, of 19 and 20 digits, of 38 and 39, and in other spellings.
[0,1,-7,255]|1|2|
[1234567890123456789,-1234567890123456789]|1|2|
[18446744073709551615,18446744073709551616]|1|2|
[12345678901234567890123456789012345678]|1|2|
[340282366920938463463374607431768211455]|2|2|
[0xFF,0b101,1_000,-0]|1|2|
# Decimals.
[0.,1.5,-1.50,0.001]|1|2|
[-0.,0.00,15d2,1d-39,1D4]|1|2|
[12345678901234567890.12345,0.12345678901234567890123456789012345678]|1|2|
# Timestamps of each precision.
[2007T,2007-02T,2007-02-03,2007-02-03T]|1|2|
[2007-02-03T04:05Z,2007-02-03T04:05:06Z,2007-02-03T04:05:06.123Z]|1|2|
[2007-02-03T04:05+01:30,2007-02-03T04:05:06-00:00,2007-02-03T04:05:06.123456789-08:00]|1|2|
# Bools and nulls.
[true,false]|1|2|
[null,null.null]|1|2|
[null.bool,null.int,null.float,null.decimal,null.timestamp,null.symbol,null.string]|1|2|
[null.clob,null.blob,null.list,null.sexp,null.struct]|1|2|
# Strings.
["","a","it's","é","😀"]|1|2|
["abcdefghijklmnopqrstuvwxyzabcdefghijklmnopqrstuvwxyzabcdefghijklmnopqrstuvwxyz"]|1|2|
["a\nb","\u00e9"]|3|4|
['''a''','''a''' '''b''']|3|4|
# Symbols.
[name,version]|1|2|
[a,b,a]|1|4|
['name','null','$4','a b','+','é']|1|5|
['']|2|4|
['it\'s']|2|4|
[$4]|1|2|
[$0]|1|2|
[$0,name::$0] {name:$0} {"name":$0} {$4:$0}|1|2|
[$00]|2|3|
# Annotations.
[name::1,a::1]|1|4|
['name'::1,'a b'::1]|1|4|
[name::"s",name::name,name::2007T,name::1.5,name::null,name::true]|1|2|
name::[1] name::{} [name::(1)] {name:name::{}}|1|10|
[name::version::1]|1|2|
name::version::[1]|1|4|
[name::version::name::1]|2|3|
[$4::1]|2|3|
[name :: 1]|2|3|
# Fields.
{name:1,version:2}|1|2|
{a:1,b:2}|1|4|
{a:1} {a:2}|1|4|
{"name":1,"a b":2,"a b":3}|1|4|
{'name':1,'a b':2,'null':3}|1|4|
{"a\n":1}|2|4|
{'''name''':1}|2|3|
{$4:1}|1|2|
{name:name::1,version:name::version::1}|1|2|
# Containers.
[] [[]] [[[[1]]]]|1|2|
() (1 2) (name "b" [1])|1|2|
{} {name:{}} {name:[1,(2)]}|1|2|
[1,] {name:1,}|1|2|
(-1 -2)|1|2|
(+ 1)|2|4|
(name.name)|3|5|
# Lobs.
[{{YQ==}}]|2|3|
[{{"a"}}]|2|3|
# White space and comments.
[ 1 , 2 ] { name : 1 }|1|2|
[1]~[2]~~[3]~|1|2|
[1] /*x*/ [2] //x~[3]|1|2|
[/*x*/1/*x*/,/*x*/2] {/*x*/name/*x*/:/*x*/1}|1|2|
# At top level.
0 1.5 2007T true null "a" 0|1|2|
name name 0|1|2|
name::1 name::version::1 'a b' 0|1|5|
# Declarations and version markers.
$3::{symbols:["a","b c"]} [$10,$10] {$10:1}|2|5|
$3::{symbols:["a","b c"]} [$11] {$11:1}|4|6|
[0] $ion_1_0 [0] [0]|2|3|
"#;

// Octets between two other values, and how many of their items are put one at a time as text: one, the
// first of all, where all items of a row are handed on.
const OCTETS: &str = "
# Ints of up to eight octets; of more, and with a length that need not be, one is put by itself.
20 21 01 31 07 22 01 00 28 01 02 03 04 05 06 07 08|1|
29 01 02 03 04 05 06 07 08 09|2|
2E 90 FF FF FF FF FF FF FF FF FF FF FF FF FF FF FF FF|2|
2E 83 01 02 03|2|
# Decimals.
50 51 C0 52 C1 0F 52 81 0F 52 80 80 56 C5 01 02 03 04 05|1|
5D C5 01 02 03 04 05 06 07 08 09 0A 0B 0C|1|
# Timestamps of each precision.
63 C0 0F D7 64 C0 0F D7 82 65 C0 0F D7 82 83|1|
67 80 0F D7 82 83 84 85 68 80 0F D7 82 83 84 85 86 6A 80 0F D7 82 83 84 85 86 C3 05|1|
67 BC 0F D7 82 83 84 85 68 C0 0F D7 82 83 84 85 86|1|
# Bools and nulls.
10 11|1|
0F 1F 2F 3F 4F 5F 6F 7F 8F 9F AF BF CF DF|1|
# Strings.
80 81 61 82 C3 A9|1|
8E 8E 61 62 63 64 65 66 67 68 69 6A 6B 6C 6D 6E|1|
81 0A|2|
# Symbols.
71 04 71 05|1|
70 71 00 E3 81 84 70|1|
EA 81 83 D7 87 B2 81 61 86 71 03 71 0A 71 0A|2|
EC 81 83 D9 86 71 03 87 B4 83 61 20 62 71 0A 71 0A|2|
# Annotations.
E3 81 84 20 E4 81 84 71 04|1|
E3 81 84 B0 E4 81 84 B1 20 E3 81 84 D0|1|
B4 E3 81 84 20 D5 84 E3 81 84 20|1|
E4 82 84 85 20 E5 82 84 85 71 04|1|
E5 83 84 85 84 20|2|
# Containers.
B0 B1 20 B3 B2 B1 20|1|
C0 C1 20 C3 C2 71 04|1|
D0 D2 84 20 D4 84 20 85 20 D3 84 B1 20|1|
BE 81 20 DE 82 84 20|1|
D1 82 84 20|2|
EC 81 83 D9 86 71 03 87 B4 81 61 81 62 D4 8A 20 8B 20|2|
# Lobs.
A0 A1 00|3|
90 91 61|3|
# NOP pads and version markers.
00 20 01 FF 20|3|
B2 00 20|2|
20 E0 01 00 EA 20|2|
";

// The lines of a text, between two values.
fn lines(rt: &impl Abort, alloc: Global, text: &str) -> Vec<u8> {
    let mut lines = Vec::new(alloc);
    add(rt, &mut lines, FRONT);
    for line in text.split('~') {
        add(rt, &mut lines, line.as_bytes());
        add(rt, &mut lines, b"\n");
    }
    add(rt, &mut lines, b"[]\n");
    lines
}

// Asserts how many items of a text are put one at a time.
fn expect_text(rt: &impl Abort, alloc: Global, row: &str) {
    let mut fields = Fields::of(row);
    let stream = lines(rt, alloc, fields.text());
    let text = count(rt, alloc, stream.as_slice(), Target::Text);
    same(rt, (row, text), (row, fields.number()));
    let binary = count(rt, alloc, stream.as_slice(), Target::Binary);
    same(rt, (row, binary), (row, fields.number()));
    holds(rt, fields.is_read());
}

// Asserts how many items of octets are put one at a time.
fn expect_octets(rt: &impl Abort, alloc: Global, row: &str) {
    let mut fields = Fields::of(row);
    let mut stream = octets(rt, alloc, MARKER, "B1 20");
    add_digits(rt, &mut stream, fields.text());
    add(rt, &mut stream, b"\x20");
    let text = count(rt, alloc, stream.as_slice(), Target::Text);
    same(rt, (row, text), (row, fields.number()));
    holds(rt, fields.is_read());
}

#[test]
fn items_are_handed_on(rt: HostRuntime) {
    for row in TEXTS.split('\n') {
        if is_row(row) {
            expect_text(&rt, rt.alloc(), row);
        }
    }
    for row in OCTETS.split('\n') {
        if is_row(row) {
            expect_octets(&rt, rt.alloc(), row);
        }
    }
}
