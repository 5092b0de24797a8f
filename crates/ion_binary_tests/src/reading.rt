//! Streams read to their ends.
ghost use Rattle.std.specs.Prelude.{◌≡◌, ◌+◌, ◌^◌, ◌<◌, ◌≤◌, [], None};
ghost use Rattle.ion_meter.specs.Limits.{AreChecked};
ghost use Rattle.ion_symbols.specs.User.{IsReady, owned_by};

use crate::pieces::{Pieces, in_pieces, whole};
use crate::same::{holds, same};
use crate::telling::tell_item;
use ion_binary::reader::BinReader;
use ion_meter::fault::Fault;
use ion_meter::limits::Limits;
use ion_meter::meter::Meter;
use ion_meter::source::Source;
use ion_meter::stream::FromRead;
use ion_symbols::catalog::Catalog;
use ion_symbols::user::UserReader;
use ion_value::item::{Head, Item};
use ion_value::names::Names;
use ion_value::reader::RawReader;
use std::alloc::{AllocError, Allocator, Global};
use std::process::Abort;

/// More items than any stream here has.
pub const MANY: u32 = 10_000;

/// What a reader gave of a stream, and how it ended.
#[derive(Drop)]
pub struct Outcome {
    // The place that places are told from.
    from: u64,
    // How often an ending is asked for again.
    again: u32,
    // How often it was answered.
    ends: u32,
    /// The words of each item, with "; " after them.
    pub items: String,
    /// The place of each item's top-level value.
    pub tops: Vec<u64>,
    /// How many containers stand open at the end.
    pub open: usize,
    /// The end, or the fault.
    pub ending: Result<(), Fault>,
    /// What is held at the end.
    pub held: u64,
    /// What the raw reader holds of it.
    pub raw_held: u64,
    /// The most that was held at once.
    pub peak: u64,
    /// How often the device was read.
    pub reads: u32,
    /// How many bytes it has not given.
    pub left: usize,
}

impl Outcome {
    /// Nothing yet, where places are told from this one, and those before it as 0.
    pub fn new(alloc: Global, from: u64, again: u32) -> Outcome {
        Outcome {
            from,
            again,
            ends: 0,
            items: String::new(alloc),
            tops: Vec::new(alloc),
            open: 0,
            ending: Ok(()),
            held: 0,
            raw_held: 0,
            peak: 0,
            reads: 0,
            left: 0,
        }
    }

    /// Adds an item.
    pub fn add<N: Names>(&mut self, rt: &impl Abort, item: &Item<'_, N>) {
        holds(rt, self.ends == 0);
        holds(rt, tell_item(&mut self.items, item, self.from).is_ok());
        holds(rt, self.tops.push(item.top()).is_ok());
        match item.head() {
            Head::Begin(_) => self.open = self.open.saturating_add(1),
            Head::End => self.open = self.open.saturating_sub(1),
            _ => {}
        }
    }

    // Takes an ending, with what is held then. It has to be the one before, where there is one. The
    // answer is whether it was asked for often enough.
    fn end(&mut self, rt: &impl Abort, ending: Result<(), Fault>, held: u64) -> bool {
        if self.ends == 0 {
            self.ending = ending;
            self.held = held;
        }
        same(rt, (self.ending, self.held), (ending, held));
        self.ends = self.ends.saturating_add(1);
        self.ends > self.again
    }

    // The words of the items and of the ending, where there is memory.
    fn told(&self, alloc: Global) -> Result<String, AllocError> {
        let items = self.items.as_str();
        match self.ending {
            Ok(()) => format!(in alloc; "{items}end"),
            Err(Fault::Refused(reason, place)) => {
                let name = reason.name();
                let place = place.saturating_sub(self.from);
                format!(in alloc; "{items}{name} at {place}")
            }
            Err(fault) => format!(in alloc; "{items}{fault}"),
        }
    }

    /// The words of the items and of the ending: "end", or a reason and a place.
    pub fn words(&self, rt: &impl Abort, alloc: Global) -> String {
        self.told(alloc).expect(rt, "memory")
    }

    /// Asserts the words, after those before.
    pub fn expect(&self, rt: &impl Abort, alloc: Global, before: &str, words: &str) {
        let told = self.words(rt, alloc);
        same(rt, told.as_str().strip_prefix(before), Some(words));
    }

    /// Asserts the words at the end.
    pub fn expect_end(&self, rt: &impl Abort, alloc: Global, ending: &str) {
        let told = self.words(rt, alloc);
        expect_that(rt, told.as_str(), told.as_str().ends_with(ending));
    }

    /// Whether this is a beginning of the other one, and ends by this fault.
    pub fn is_cut_by(&self, fault: Fault, other: &Outcome) -> bool {
        self.ending == Err(fault) && other.items.as_str().starts_with(self.items.as_str())
    }

    /// Whether the other one has the same items and ending.
    pub fn is_same(&self, other: &Outcome) -> bool {
        self.items.as_str() == other.items.as_str() && self.ending == other.ending
    }
}

// Asserts that this holds of these words.
fn expect_that(rt: &impl Abort, words: &str, holds: bool) {
    assert!(rt; holds, "{words}");
}

/// Asserts that little is counted.
pub fn expect_little<A: Allocator + Copy>(rt: &impl Abort, meter: &Meter<A>)
    ensures held { meter.now.held < 2 ^ 32 }
    ensures refused { meter.now.refused < 2 ^ 32 }
{
    holds(rt, meter.held() < 1 << 32);
    holds(rt, meter.refused() < 1 << 32);
}

// Reads raw items to the end.
fn read_raw<R: RawReader<Global>>(
    rt: &impl Abort,
    meter: &mut Meter<Global>,
    reader: &mut R,
    told: &mut Outcome,
)
    requires sound { R.sound reader.old }
    requires held { R.own reader.old ≤ meter.old.held }
    ensures held { R.own reader.new ≤ meter.new.held }
{
    'items: for _ in 0..MANY {
        expect_little(rt, meter);
        let ending = match reader.next(meter) {
            Ok(true) => {
                told.add(rt, &reader.item());
                continue 'items;
            }
            Ok(false) => Ok(()),
            Err(fault) => Err(fault),
        };
        if told.end(rt, ending, meter.held()) {
            return;
        }
    }
    panic!(rt; "the stream has no end")
}

// Reads the items of user values to the end.
fn read_users<R: RawReader<Global>>(
    rt: &impl Abort,
    meter: &mut Meter<Global>,
    reader: &mut UserReader<'_, R, Global>,
    told: &mut Outcome,
)
    requires ready { IsReady R.sound R.opened R.failed R.ended reader.old }
    requires held { owned_by R.own reader.old ≤ meter.old.held }
    ensures held { owned_by R.own reader.new ≤ meter.new.held }
{
    'items: for _ in 0..MANY {
        expect_little(rt, meter);
        let ending = match reader.next(meter) {
            Ok(true) => {
                told.add(rt, &reader.item());
                continue 'items;
            }
            Ok(false) => Ok(()),
            Err(fault) => Err(fault),
        };
        if told.end(rt, ending, meter.held()) {
            return;
        }
    }
    panic!(rt; "the stream has no end")
}

// Reads to the end: user values, where there is a catalogue of shared tables, and else raw items.
fn read_by<R: RawReader<Global>>(
    rt: &impl Abort,
    meter: &mut Meter<Global>,
    limits: Limits,
    catalog: Option<&Catalog<Global>>,
    mut raw: R,
    told: &mut Outcome,
) -> R
    requires checked { AreChecked limits }
    requires sound { R.sound raw }
    requires level { R.opened raw ≡ [] }
    requires fresh { R.failed raw ≡ None }
    requires held { R.own raw ≤ meter.old.held }
    ensures held { R.own result ≤ meter.new.held }
{
    match catalog {
        None => {
            read_raw(rt, meter, &mut raw, told);
            raw
        }
        Some(catalog) => {
            let mut reader = UserReader::new(meter, limits, raw, catalog);
            read_users(rt, meter, &mut reader, told);
            reader.release(meter)
        }
    }
}

/// Reads these pieces to the end. At no moment is more held than a reader may hold, and all of it is
/// given back.
pub fn read_to(
    rt: &impl Abort,
    alloc: Global,
    limits: Limits,
    catalog: Option<&Catalog<Global>>,
    input: Pieces<'_>,
    told: &mut Outcome,
) {
    holds(rt, limits.check());
    let mut meter = Meter::new(alloc);
    let made = Source::new(&mut meter, limits, FromRead::new(input));
    let source = made.ok().expect(rt, "memory for the window");
    let raw = BinReader::new(&meter, limits, source);
    let raw = read_by(rt, &mut meter, limits, catalog, raw, told);
    told.raw_held = meter.held();
    told.peak = meter.peak();
    let symbols = if catalog.is_some() { limits.symbols } else { 0 };
    let most = 4096 + 16 * limits.depth as u64 + 3 * limits.scalar;
    holds(
        rt,
        told.peak <= most.saturating_add(symbols.saturating_mul(2)),
    );
    let device = raw.release(&mut meter).into_inner();
    same(rt, meter.held(), 0);
    told.reads = device.reads;
    told.left = device.left.len();
}

/// Reads these pieces to the end, whose answer is then given again and again.
pub fn read(
    rt: &impl Abort,
    alloc: Global,
    limits: Limits,
    catalog: Option<&Catalog<Global>>,
    input: Pieces<'_>,
) -> Outcome {
    let mut told = Outcome::new(alloc, 0, 2);
    read_to(rt, alloc, limits, catalog, input, &mut told);
    told
}

/// Reads these octets whole, one octet a read, and cut at each place, which has to be the same.
pub fn read_each_way(
    rt: &impl Abort,
    alloc: Global,
    limits: Limits,
    catalog: Option<&Catalog<Global>>,
    octets: &[u8],
) -> Outcome {
    let all = read(rt, alloc, limits, catalog, whole(octets));
    expect_alike(rt, alloc, limits, catalog, in_pieces(octets, 1, 1), &all);
    for place in 1..octets.len() {
        let input = in_pieces(octets, place, octets.len());
        expect_alike(rt, alloc, limits, catalog, input, &all);
    }
    all
}

// Asserts that these pieces give what others of the same octets gave.
fn expect_alike(
    rt: &impl Abort,
    alloc: Global,
    limits: Limits,
    catalog: Option<&Catalog<Global>>,
    input: Pieces<'_>,
    all: &Outcome,
) {
    let told = read(rt, alloc, limits, catalog, input);
    let is_same = told.is_same(all);
    let pieces = (input.left, input.next, input.later);
    same(rt, (pieces, is_same), (pieces, true));
}
