//! Binary streams that are read and written again.
ghost use Rattle.std.specs.Prelude.{◌≡◌, ◌+◌, ◌≤◌, List, [], None, Ok, true};
ghost use Rattle.ion_meter.specs.Sources.{Stands};
ghost use Rattle.ion_symbols.specs.User.{IsReady, owned_by, raw_of};
ghost use Rattle.ion_value.specs.Standing.{open_after_all};
ghost use Rattle.ion_value.specs.Value.{PlacedItem};

use crate::hex::{MARKER, add, add_digits, octets};
use crate::limits::LIMITS;
use crate::pieces::{Pieces, in_pieces, whole};
use crate::reading::{MANY, Outcome, expect_little};
use crate::same::{holds, same};
use crate::tables::catalog_of;
use crate::written_rows::{DRAWN, SPELLINGS, SYMBOLS, TIMESTAMPS, UNKNOWN};
use ion_binary::reader::BinReader;
use ion_binary::writer::BinWriter;
use ion_meter::device::Output;
use ion_meter::fault::{Fault, Reason};
use ion_meter::meter::Meter;
use ion_meter::sink::Sink;
use ion_meter::source::Source;
use ion_meter::stream::{FromRead, ToWrite};
use ion_symbols::catalog::Catalog;
use ion_symbols::user::UserReader;
use ion_test_support::fields::{Fields, is_row};
use ion_test_support::refusing::Refusing;
use ion_value::reader::RawReader;
use ion_value::writer::ValueWriter;
use std::alloc::{Allocator, Global};
use std::io;
use std::io::{Read, Write};
use std::process::Abort;

/// Puts the next item, and adds it to those told. An ending has to be answered again.
fn copy_one<R: RawReader<A>, W: ValueWriter<O, A>, O: Output, A: Allocator + Copy>(
    rt: &impl Abort,
    meter: &mut Meter<A>,
    reader: &mut UserReader<'_, R, A>,
    writer: &mut W,
    sink: &mut Sink<O, A>,
    told: &mut Outcome,
) -> Result<bool, Fault>
    requires ready { IsReady R.sound R.opened R.failed R.ended reader.old }
    requires sound { W.sound writer.old }
    requires stands { (path : List PlacedItem) × W.stands writer.old path
        × (open_after_all [] path ≡ R.opened (raw_of reader.old)) }
    requires depth { (W.limits writer.old).depth ≡ R.depth (raw_of reader.old) }
    requires held { 4096 + owned_by R.own reader.old + W.own writer.old ≤ meter.old.held }
    ensures ready { IsReady R.sound R.opened R.failed R.ended reader.new }
    ensures sound { W.sound writer.new }
    ensures stands { result ≡ Ok true → (path : List PlacedItem) × W.stands writer.new path
        × (open_after_all [] path ≡ R.opened (raw_of reader.new)) }
    ensures depth { (W.limits writer.new).depth ≡ R.depth (raw_of reader.new) }
    ensures held { 4096 + owned_by R.own reader.new + W.own writer.new ≤ meter.new.held }
{
    expect_little(rt, meter);
    match reader.next(meter) {
        Ok(true) => {}
        ending => {
            expect_little(rt, meter);
            same(rt, reader.next(meter), ending);
            return ending;
        }
    }
    expect_little(rt, meter);
    let item = reader.item();
    if let Err(fault) = writer.item(meter, sink, &item) {
        expect_little(rt, meter);
        same(rt, writer.item(meter, sink, &item), Err(fault));
        return Err(fault);
    }
    told.add(rt, &item);
    Ok(true)
}

/// Puts all items, and adds those to what is told that were put.
fn copy_all<R: RawReader<A>, W: ValueWriter<O, A>, O: Output, A: Allocator + Copy>(
    rt: &impl Abort,
    meter: &mut Meter<A>,
    reader: &mut UserReader<'_, R, A>,
    writer: &mut W,
    sink: &mut Sink<O, A>,
    told: &mut Outcome,
) -> Result<(), Fault>
    requires ready { IsReady R.sound R.opened R.failed R.ended reader.old }
    requires level { R.opened (raw_of reader.old) ≡ [] }
    requires sound { W.sound writer.old }
    requires fresh { W.is_new writer.old }
    requires depth { (W.limits writer.old).depth ≡ R.depth (raw_of reader.old) }
    requires held { 4096 + owned_by R.own reader.old + W.own writer.old ≤ meter.old.held }
    ensures held { 4096 + owned_by R.own reader.new + W.own writer.new ≤ meter.new.held }
{
    if let Err(fault) = writer.begin(sink) {
        return Err(fault);
    }
    'items: for _ in 0..MANY {
        match copy_one(rt, meter, reader, writer, sink, told) {
            Ok(true) => {}
            Ok(false) => return Ok(()),
            Err(fault) => return Err(fault),
        }
    }
    panic!(rt; "the stream has no end")
}

/// Puts all user values of a raw reader, which is handed out, and writes what was put. A failure of
/// that has to be answered again.
fn copy_stream<R: RawReader<A>, W: ValueWriter<O, A>, O: Output, A: Allocator + Copy>(
    rt: &impl Abort,
    meter: &mut Meter<A>,
    catalog: &Catalog<A>,
    raw: R,
    writer: &mut W,
    sink: &mut Sink<O, A>,
    told: &mut Outcome,
) -> R
    requires reader { R.sound raw }
    requires level { R.opened raw ≡ [] }
    requires well { R.failed raw ≡ None }
    requires sound { W.sound writer.old }
    requires fresh { W.is_new writer.old }
    requires depth { (W.limits writer.old).depth ≡ R.depth raw }
    requires held { 4096 + R.own raw + W.own writer.old ≤ meter.old.held }
    ensures held { 4096 + R.own result + W.own writer.new ≤ meter.new.held }
{
    holds(rt, LIMITS.check());
    let mut reader = UserReader::new(meter, LIMITS, raw, catalog);
    let answer = copy_all(rt, meter, &mut reader, writer, sink, told);
    let flushed = sink.flush();
    same(rt, sink.flush(), flushed);
    told.ending = answer.and(flushed);
    reader.release(meter)
}

/// Writes what is read of a source to a sink, whose device is handed out. All memory has to be given
/// back.
fn write_between<P: Read + Drop, Q: Write + Drop, A: Allocator + Copy>(
    rt: &impl Abort,
    meter: &mut Meter<A>,
    catalog: &Catalog<A>,
    source: Source<FromRead<P>, A>,
    mut sink: Sink<ToWrite<Q>, A>,
    told: &mut Outcome,
) -> Q
    requires stands { Stands source }
    requires held { 8192 ≤ meter.old.held }
{
    holds(rt, LIMITS.check());
    let raw = BinReader::new(meter, LIMITS, source);
    let mut writer = BinWriter::new(meter, LIMITS);
    let raw = copy_stream(rt, meter, catalog, raw, &mut writer, &mut sink, told);
    writer.release(meter);
    let _input = raw.release(meter);
    let output = sink.release(meter).into_inner();
    same(rt, meter.held(), 0);
    output
}

/// Writes what is read of a source to a device, which is handed out.
fn write_source<P: Read + Drop, Q: Write + Drop, A: Allocator + Copy>(
    rt: &impl Abort,
    meter: &mut Meter<A>,
    catalog: &Catalog<A>,
    source: Source<FromRead<P>, A>,
    output: Q,
    told: &mut Outcome,
) -> Q
    requires stands { Stands source }
    requires held { 4096 ≤ meter.old.held }
{
    expect_little(rt, meter);
    match Sink::new(meter, ToWrite::new(output)) {
        Ok(sink) => write_between(rt, meter, catalog, source, sink, told),
        Err(device) => {
            let _input = source.release(meter);
            same(rt, meter.held(), 0);
            device.into_inner()
        }
    }
}

/// Writes what is read of one device to another, which is handed out. The items that were put are
/// told, without their places.
fn write_again<P: Read + Drop, Q: Write + Drop, A: Allocator + Copy>(
    rt: &impl Abort,
    meter: &mut Meter<A>,
    catalog: &Catalog<A>,
    input: P,
    output: Q,
    told: &mut Outcome,
) -> Q {
    holds(rt, LIMITS.check());
    expect_little(rt, meter);
    told.ending = Err(Fault::Memory);
    match Source::new(meter, LIMITS, FromRead::new(input)) {
        Ok(source) => write_source(rt, meter, catalog, source, output, told),
        Err(_) => output,
    }
}

/// Nothing that was put yet.
fn nothing_told(alloc: Global) -> Outcome {
    Outcome::new(alloc, u64::MAX, 0)
}

/// What is written of these pieces, where there are these shared tables.
fn written_of(
    rt: &impl Abort,
    alloc: Global,
    catalog: &Catalog<Global>,
    input: Pieces<'_>,
    told: &mut Outcome,
) -> Vec<u8> {
    let mut meter = Meter::new(alloc);
    write_again(rt, &mut meter, catalog, input, Vec::new(alloc), told)
}

/// Asserts what a stream is written as, where there are so many shared tables. The answer has its
/// items.
fn expect_written(
    rt: &impl Abort,
    alloc: Global,
    versions: usize,
    input: &str,
    want: &str,
) -> Outcome {
    let input = octets(rt, alloc, MARKER, input);
    let want = octets(rt, alloc, MARKER, want);
    let catalog = catalog_of(rt, alloc, versions);
    let mut told = nothing_told(alloc);
    let written = written_of(rt, alloc, &catalog, whole(input.as_slice()), &mut told);
    let given = (told.ending, written.as_slice());
    same(rt, given, (Ok(()), want.as_slice()));
    told
}

/// Asserts what a row is written as, and that this is written as it is and has the same items, where
/// they are known, and else as many.
fn expect_row(rt: &impl Abort, alloc: Global, row: &str, known: bool) {
    let mut fields = Fields::of(row);
    let input = fields.text();
    let want = fields.text();
    holds(rt, fields.is_read());
    let told = expect_written(rt, alloc, 1, input, want);
    let again = expect_written(rt, alloc, 0, want, want);
    same(rt, (input, again.tops.len()), (input, told.tops.len()));
    let fits = !known || again.is_same(&told);
    same(rt, (input, fits), (input, true));
}

// What is written of a row is written as it is, and has the same items; where there are symbols of
// unknown text it has as many.
#[test]
fn streams_are_written_again(rt: HostRuntime) {
    for (rows, known) in [
        (SYMBOLS, true),
        (SPELLINGS, true),
        (TIMESTAMPS, true),
        (DRAWN, true),
        (UNKNOWN, false),
    ] {
        for row in rows.split('\n') {
            if is_row(row) {
                expect_row(&rt, rt.alloc(), row, known);
            }
        }
    }
}

/// A device that takes so many bytes, fails once, and takes all that it is given from then on.
#[derive(Drop)]
pub struct FailingOnce {
    /// The bytes that it took.
    pub taken: Vec<u8>,
    /// How many more it takes.
    pub room: usize,
}

impl Write for FailingOnce {
    fn write(&mut self, bytes: &[u8]) -> io::Result<usize> {
        let n = bytes.len().min(self.room);
        if n == 0 || self.taken.extend_from_slice(&bytes[..n]).is_err() {
            self.room = usize::MAX;
            return Err(io::ErrorKind::Other.into());
        }
        self.room -= n;
        Ok(n)
    }

    fn flush(&mut self) -> io::Result<()> {
        Ok(())
    }
}

/// A stream that is written as it is, and how many items it has.
const PLAIN: &str = "EE 8E 81 83 DB 86 71 03 87 B6 81 61 81 62 81 63 D6 8A E4 81 8B 71 0C \
     B8 C7 E6 82 84 84 D2 85 B0 82 C3 A9 EA 81 83 D7 86 71 03 87 B2 81 64 71 0D A3 00 01 02";

const ITEMS: usize = 14;

/// Asserts what a device gets that fails after so many bytes, and how many items were put.
fn expect_failing(rt: &impl Abort, alloc: Global, octets: &[u8], room: usize, items: usize) {
    let mut meter = Meter::new(alloc);
    let catalog = Catalog::new(&meter);
    let mut told = nothing_told(alloc);
    let device = FailingOnce {
        taken: Vec::new(alloc),
        room,
    };
    let device = write_again(rt, &mut meter, &catalog, whole(octets), device, &mut told);
    let want = if room < octets.len() {
        Err(Fault::WriteFault)
    } else {
        Ok(())
    };
    let given = (room, told.ending, told.tops.len(), device.taken.len());
    same(rt, given, (room, want, items, room));
    holds(rt, octets.starts_with(device.taken.as_slice()));
}

/// Rooms of a device, each with how many of three long strings were put.
const ROOMS: [(usize, usize); 9] = [
    (0, 1),
    (1, 1),
    (4_095, 1),
    (4_096, 2),
    (4_097, 2),
    (8_191, 2),
    (8_192, 3),
    (9_012, 3),
    (9_013, 3),
];

/// Three strings of 3,000 letters: what was put is written each time that it is 4,096 bytes.
fn long_strings(rt: &impl Abort, alloc: Global) -> Vec<u8> {
    let mut long = octets(rt, alloc, MARKER, "");
    for _ in 0..3u32 {
        add(rt, &mut long, b"\x8E\x17\xB8");
        add(rt, &mut long, &[b'a'; 3_000]);
    }
    long
}

#[test]
fn a_device_that_fails_has_the_bytes_before(rt: HostRuntime) {
    let short = octets(&rt, rt.alloc(), MARKER, PLAIN);
    for room in 0..=short.len() {
        expect_failing(&rt, rt.alloc(), short.as_slice(), room, ITEMS);
    }
    let long = long_strings(&rt, rt.alloc());
    for (room, items) in ROOMS {
        expect_failing(&rt, rt.alloc(), long.as_slice(), room, items);
    }
}

/// Asserts how a run ends that has met a refusal, or has not, and what is written.
fn expect_refused(rt: &impl Abort, told: &Outcome, octets: &[u8], output: &[u8], is_met: bool) {
    holds(rt, octets.starts_with(output));
    if is_met {
        same(rt, told.ending, Err(Fault::Memory));
    } else {
        same(rt, (told.ending, output.len()), (Ok(()), octets.len()));
    }
}

/// Writes a stream again while its nth allocation is refused. The answer is whether that was met.
fn is_refused(rt: &impl Abort, alloc: Global, octets: &[u8], nth: u64) -> bool {
    let refusing = Refusing::new(alloc, nth);
    let mut meter = Meter::new(&refusing);
    let catalog = Catalog::new(&meter);
    let mut told = nothing_told(alloc);
    let output = Vec::new(alloc);
    let output = write_again(rt, &mut meter, &catalog, whole(octets), output, &mut told);
    let is_met = refusing.has_refused();
    same(rt, (nth, meter.refused()), (nth, u64::from(is_met)));
    expect_refused(rt, &told, octets, output.as_slice(), is_met);
    is_met
}

/// The first number of an allocation that no run over these octets makes. Each one before it is
/// refused alone.
fn first_unmet(rt: &impl Abort, alloc: Global, octets: &[u8]) -> u64 {
    for nth in 1..1_000 {
        if !is_refused(rt, alloc, octets, nth) {
            return nth;
        }
    }
    panic!(rt; "each run met a refusal")
}

/// A list of a long list and an int, in another one.
fn late_headers(rt: &impl Abort, alloc: Global) -> Vec<u8> {
    let mut late = octets(rt, alloc, MARKER, "BE 27 93 BE 27 8F BE 27 8B 8E 27 88");
    add(rt, &mut late, &[b'a'; 5_000]);
    add_digits(rt, &mut late, "11 11");
    late
}

// The first growth is refused, then the second alone, and so on until none is.
#[test]
fn each_growth_refused(rt: HostRuntime) {
    let plain = octets(&rt, rt.alloc(), MARKER, PLAIN);
    same(&rt, first_unmet(&rt, rt.alloc(), plain.as_slice()), 18);
    // Headers that are late take a growth too.
    let late = late_headers(&rt, rt.alloc());
    holds(&rt, first_unmet(&rt, rt.alloc(), late.as_slice()) > 4);
}

/// The parts of a stream, and what is written when each was read.
const PARTS: &str = "
E0 01 00 EA||
21 05|21 05|
E9 81 83 D6 87 B4 81 61 81 62||
B4 71 0B 71 0A|EC 81 83 D9 86 71 03 87 B4 81 62 81 61 B4 71 0A 71 0B|
03 00 00 00||
B8 C7 E6 82 84 84 D2 85 B0|B8 C7 E6 82 84 84 D2 85 B0|
E0 01 00 EA||
E7 81 83 D4 87 B2 81 62||
71 0A|71 0A|
E5 81 84 A2 00 01|E5 81 84 A2 00 01|
";

/// How a stream ends, of which this has to be written.
fn ending_of(rt: &impl Abort, alloc: Global, input: Pieces<'_>, want: &[u8]) -> Result<(), Fault> {
    let catalog = catalog_of(rt, alloc, 0);
    let mut told = nothing_told(alloc);
    let written = written_of(rt, alloc, &catalog, input, &mut told);
    same(rt, written.as_slice(), want);
    told.ending
}

// Asserts that this is written of a stream that breaks off at each place from this one on, where
// alone it may end.
fn expect_broken(rt: &impl Abort, alloc: Global, input: &[u8], before: usize, want: &[u8]) {
    for place in before..input.len() {
        let failing = Pieces {
            sound: u32::try_from(place).unwrap_or(u32::MAX),
            ..in_pieces(input, 1, 1)
        };
        let ending = ending_of(rt, alloc, failing, want);
        same(rt, (place, ending), (place, Err(Fault::ReadFault)));
        let fits = match ending_of(rt, alloc, whole(&input[..place]), want) {
            Ok(()) => place == before,
            Err(Fault::Refused(Reason::Truncated, _)) => place > before,
            Err(_) => false,
        };
        same(rt, (place, fits), (place, true));
    }
}

#[test]
fn a_stream_that_breaks_off_has_its_whole_values(rt: HostRuntime) {
    let mut input = Vec::new(rt.alloc());
    let mut want = octets(&rt, rt.alloc(), MARKER, "");
    for row in PARTS.split('\n') {
        if is_row(row) {
            let mut fields = Fields::of(row);
            let before = input.len();
            add_digits(&rt, &mut input, fields.text());
            expect_broken(&rt, rt.alloc(), input.as_slice(), before, want.as_slice());
            add_digits(&rt, &mut want, fields.text());
            assert!(&rt; fields.is_read());
        }
    }
    let ending = ending_of(&rt, rt.alloc(), whole(input.as_slice()), want.as_slice());
    same(&rt, ending, Ok(()));
}
