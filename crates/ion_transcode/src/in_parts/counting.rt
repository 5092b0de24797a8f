//! How many items bytes have, and how many of them are items of user values.
ghost use Rattle.std.specs.Prelude.{◌≡◌, ℕ, ◌+◌, ◌*◌, ◌^◌, ◌∷◌, ◌++◌, [], List, length, None, Ok, Err};
ghost use Rattle.ion_meter.specs.declared.fault.Fault.TheVariants.{Refused};
ghost use Rattle.ion_meter.specs.declared.fault.Reason.{Reason};
ghost use Rattle.ion_meter.specs.Limits.{AreChecked};
ghost use Rattle.ion_value.specs.Items.{raw_head};
ghost use Rattle.ion_value.specs.Reading.{Stopped};
ghost use Rattle.ion_value.specs.ReadingLaws.{ending_of};
ghost use Rattle.ion_value.specs.Shares.{Charges, MemoryCauses, fault_of};
ghost use Rattle.ion_value.specs.Value.{PlacedItem};
ghost use Rattle.ion_symbols.specs.Users.{at_start, users};
ghost use Rattle.ion_transcode.specs.declared.in_parts.counting.Counted as code;
ghost use Rattle.ion_transcode.specs.Bound.{share_as};
ghost use Rattle.ion_transcode.specs.Calls.{HasRoom, IsFresh};
ghost use Rattle.ion_transcode.specs.Forms.{reading_of};
ghost use Rattle.ion_transcode.specs.PartCalls.{IsCounted, HasCount, GivesAllBack, marker_at, own_reading};

use super::counter::{Counter, OneName};
use super::pieces::Pieces;
use crate::copy_stream::copy_stream;
use crate::nothing::NoOutput;
use crate::to::Form;
use ion_binary::reader::BinReader;
use ion_meter::fault::Fault;
use ion_meter::limits::Limits;
use ion_meter::meter::Meter;
use ion_meter::profile::Profile;
use ion_meter::sink::Sink;
use ion_meter::source::Source;
use ion_symbols::catalog::Catalog;
use ion_text_in::reader::TextReader;
use ion_value::item::Head;
use ion_value::reader::RawReader;
use std::alloc::Allocator;

/// How bytes are read.
#[derive(Clone, Copy)]
pub(crate) struct Reads {
    pub(crate) limits: Limits,
    pub(crate) profile: Profile,
    pub(crate) form: Form,
}

/// What is known of items.
#[derive(Clone, Copy)]
pub(crate) struct Counted {
    /// How many there are.
    pub(crate) items: u64,
    /// Whether the last of them ends firmly, where there is one.
    pub(crate) is_firm: bool,
    /// Whether that at a place in them is a version marker.
    pub(crate) is_marked: bool,
}

/// Whether the item at the place `at` is a version marker, where that was known of those before one that
/// stands at a place.
fn marked(was: bool, place: u64, at: u64, head: &Head<'_>) -> bool
    ensures { (path : List PlacedItem) (item : PlacedItem) → item.head ≡ raw_head head.now
        → place ≡ length path → was ≡ marker_at at path
        → result ≡ marker_at at (path ++ item ∷ []) }
{
    let is_there = place == at;
    if is_there {
        matches!(*head, Head::Marker)
    } else {
        was
    }
}

/// Counts the items of a raw reader to its end, or answers `InputLimit` where they are too many.
fn count_items<R: RawReader<A>, A: Allocator + Copy>(
    meter: &mut Meter<A>,
    limits: Limits,
    raw: &mut R,
    at: u64,
    sink: &mut Sink<NoOutput, A>,
) -> Result<Counted, Fault>
    requires room { HasRoom (2 ^ 59) (R.own raw.old) meter.old }
    requires reader { IsFresh R.RawReader limits raw.old }
    requires sink { sink.old.fault ≡ None }
    ensures counts { R.observable raw.old → (c : code.Counted) → result ≡ Ok c
        → IsCounted at (R.reading raw.old) c }
    ensures causes { MemoryCauses (fault_of result) meter.old meter.new }
    ensures charges { Charges meter.old meter.new (R.own raw.old) (R.own raw.new)
        (R.most raw.old) }
{
    let mut counter = Counter::new(limits);
    let mut is_marked = false;
    'items: while raw.next(meter)? {
        let place = match counter.taken() {
            Err(fault) => return Err(fault),
            Ok(items) => items,
        };
        let what = raw.item().head();
        is_marked = marked(is_marked, place, at, &what);
        counter.count(&what);
        raw.feed(meter, &OneName, &mut counter, sink);
    }
    counter.counted(is_marked)
}

/// Counts the items of user values of a raw reader, or answers `InputLimit` where they are too many,
/// and hands the reader out.
fn count_users<R: RawReader<A>, A: Allocator + Copy>(
    meter: &mut Meter<A>,
    catalog: &Catalog<A>,
    limits: Limits,
    raw: R,
    sink: &mut Sink<NoOutput, A>,
) -> (Result<u64, Fault>, R)
    requires room { HasRoom (2 ^ 59) (R.own raw) meter.old }
    requires reader { IsFresh R.RawReader limits raw }
    requires sink { sink.old.fault ≡ None }
    ensures counts { R.observable raw → (n : ℕ) → result.0 ≡ Ok n
        → HasCount (users catalog.now limits.symbols at_start (R.reading raw)) n }
    ensures refuses { R.observable raw → (r : Reason) (p : ℕ) → result.0 ≡ Err (Refused r p)
        → ending_of (users catalog.now limits.symbols at_start (R.reading raw)) ≡ Stopped r p }
    ensures causes { MemoryCauses (fault_of result.0) meter.old meter.new }
    ensures charges { Charges meter.old meter.new (R.own raw) (R.own result.1)
        (R.most raw + 2 * limits.symbols) }
{
    let mut counter = Counter::new(limits);
    let (outcome, raw) = copy_stream(meter, catalog, limits, raw, &mut counter, sink);
    match outcome {
        Err(fault) => (Err(fault), raw),
        Ok(_) => (counter.taken(), raw),
    }
}

/// Counts the items of these bytes, with a window on an output that takes nothing.
fn count_in_form<A: Allocator + Copy>(
    meter: &mut Meter<A>,
    reads: Reads,
    at: u64,
    input: Pieces<'_>,
    sink: &mut Sink<NoOutput, A>,
) -> Result<Counted, Fault>
    requires checked { AreChecked reads.limits }
    requires room { HasRoom (2 ^ 49) 0 meter.old }
    requires sink { sink.old.fault ≡ None }
    ensures counts { (c : code.Counted) → result ≡ Ok c
        → IsCounted at (reading_of reads.profile reads.form reads.limits input.entry) c }
    ensures gives_back { GivesAllBack (4096 + share_as reads.limits None) result
        meter.old meter.new }
{
    let source = match Source::new(meter, reads.limits, input) {
        Ok(source) => source,
        Err(_) => return Err(Fault::Memory),
    };
    match reads.form {
        Form::Binary => {
            let mut raw = BinReader::with_profile(meter, reads.limits, reads.profile, source);
            let outcome = count_items(meter, reads.limits, &mut raw, at, sink);
            raw.release(meter);
            outcome
        }
        Form::Text => {
            let mut raw = TextReader::with_profile(meter, reads.limits, reads.profile, source);
            let outcome = count_items(meter, reads.limits, &mut raw, at, sink);
            raw.release(meter);
            outcome
        }
    }
}

/// Counts the items of user values in these bytes, with such a window.
fn count_own_in_form<A: Allocator + Copy>(
    meter: &mut Meter<A>,
    catalog: &Catalog<A>,
    reads: Reads,
    input: Pieces<'_>,
    sink: &mut Sink<NoOutput, A>,
) -> Result<u64, Fault>
    requires checked { AreChecked reads.limits }
    requires room { HasRoom (2 ^ 49) 0 meter.old }
    requires sink { sink.old.fault ≡ None }
    ensures counts { (n : ℕ) → result ≡ Ok n
        → HasCount (own_reading reads.profile catalog.now reads.limits reads.form input.entry) n }
    ensures refuses { (r : Reason) (p : ℕ) → result ≡ Err (Refused r p)
        → ending_of (own_reading reads.profile catalog.now reads.limits reads.form input.entry)
        ≡ Stopped r p }
    ensures gives_back { GivesAllBack (4096 + share_as reads.limits None) result
        meter.old meter.new }
{
    let source = match Source::new(meter, reads.limits, input) {
        Ok(source) => source,
        Err(_) => return Err(Fault::Memory),
    };
    match reads.form {
        Form::Binary => {
            let raw = BinReader::with_profile(meter, reads.limits, reads.profile, source);
            let (outcome, raw) = count_users(meter, catalog, reads.limits, raw, sink);
            raw.release(meter);
            outcome
        }
        Form::Text => {
            let raw = TextReader::with_profile(meter, reads.limits, reads.profile, source);
            let (outcome, raw) = count_users(meter, catalog, reads.limits, raw, sink);
            raw.release(meter);
            outcome
        }
    }
}

/// Counts the items of these bytes. Where they are more than can be counted, it answers `InputLimit`.
pub(crate) fn count<A: Allocator + Copy>(
    meter: &mut Meter<A>,
    reads: Reads,
    at: u64,
    input: Pieces<'_>,
) -> Result<Counted, Fault>
    requires checked { AreChecked reads.limits }
    requires room { HasRoom (2 ^ 48) 0 meter.old }
    ensures counts { (c : code.Counted) → result ≡ Ok c
        → IsCounted at (reading_of reads.profile reads.form reads.limits input.entry) c }
    ensures gives_back { GivesAllBack (8192 + share_as reads.limits None) result
        meter.old meter.new }
{
    let mut sink = match Sink::new(meter, NoOutput) {
        Ok(sink) => sink,
        Err(_) => return Err(Fault::Memory),
    };
    let outcome = count_in_form(meter, reads, at, input, &mut sink);
    sink.release(meter);
    outcome
}

/// Counts the items of user values in these bytes. Where they are more than can be counted, it answers
/// `InputLimit`.
pub(crate) fn count_own_items<A: Allocator + Copy>(
    meter: &mut Meter<A>,
    catalog: &Catalog<A>,
    reads: Reads,
    input: Pieces<'_>,
) -> Result<u64, Fault>
    requires checked { AreChecked reads.limits }
    requires room { HasRoom (2 ^ 48) 0 meter.old }
    ensures counts { (n : ℕ) → result ≡ Ok n
        → HasCount (own_reading reads.profile catalog.now reads.limits reads.form input.entry) n }
    ensures refuses { (r : Reason) (p : ℕ) → result ≡ Err (Refused r p)
        → ending_of (own_reading reads.profile catalog.now reads.limits reads.form input.entry)
        ≡ Stopped r p }
    ensures gives_back { GivesAllBack (8192 + share_as reads.limits None) result
        meter.old meter.new }
{
    let mut sink = match Sink::new(meter, NoOutput) {
        Ok(sink) => sink,
        Err(_) => return Err(Fault::Memory),
    };
    let outcome = count_own_in_form(meter, catalog, reads, input, &mut sink);
    sink.release(meter);
    outcome
}
