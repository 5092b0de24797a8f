//! A stream that is run in parts, by calls that keep nothing in the library.
ghost use Rattle.std.specs.Prelude.{◌≡◌, ◌≢◌, ℕ, ◌+◌, ◌-◌, ◌*◌, ◌^◌, ◌<◌, ◌≤◌, ◌↔◌, ◌⊎◌, ◌++◌, true, false, [], List, length, max, None, Ok, Err, IfErr};
ghost use Rattle.ion_meter.specs.declared.fault.Reason.{Reason};
ghost use Rattle.ion_meter.specs.declared.fault.Fault.{Fault};
ghost use Rattle.ion_meter.specs.declared.fault.Fault.TheVariants.{Refused, Memory, ReadFault, WriteFault, InputLimit};
ghost use Rattle.ion_meter.specs.Limits.{AreChecked};
ghost use Rattle.ion_meter.specs.Windows.{HasPrefix};
ghost use Rattle.ion_value.specs.Items.{is_none_left};
ghost use Rattle.ion_value.specs.Outcome.{Accepted, Rejected};
ghost use Rattle.ion_value.specs.Value.{PlacedItem};
ghost use Rattle.ion_transcode.specs.declared.in_parts.Stretch.TheVariants as stretches;
ghost use Rattle.ion_transcode.specs.declared.in_parts.Stretch.{Stretch};
ghost use Rattle.ion_transcode.specs.declared.in_parts.Chosen as chosen;
ghost use Rattle.ion_transcode.specs.declared.in_parts.Taken as code;
ghost use Rattle.ion_transcode.specs.declared.to.Form.TheVariants as form;
ghost use Rattle.ion_transcode.specs.Bound.{bound, share_as};
ghost use Rattle.ion_transcode.specs.Calls.{HasRoom};
ghost use Rattle.ion_transcode.specs.Forms.{form_of, reading_of};
ghost use Rattle.ion_transcode.specs.PartCalls.{IsKept, Takes, TakesAll, IsRefused, GivesAllBack, Runs, IsStretch, CountsAs, HasCount, IsChosen, IsShort, beginning, kept_by, then_kept};
ghost use Rattle.ion_transcode.specs.Verdict.{IsWrittenWith};

mod counter;
mod counting;
mod cuts;
mod finding;
mod pieces;

use self::counting::{Counted, Reads, count, count_own_items};
use self::cuts::is_cut;
use self::finding::find;
use self::pieces::Pieces;
use crate::laws::stretches_of_parts;
use crate::run::run_with;
use crate::to::{Form, To};
use ion_meter::device::Output;
use ion_meter::fault::Fault;
use ion_meter::limits::Limits;
use ion_meter::meter::Meter;
use ion_meter::profile::Profile;
use ion_symbols::catalog::Catalog;
use std::alloc::Allocator;

/// Bytes of a stream: those that the last call did not take, and more.
#[derive(Clone, Copy)]
pub struct Part<'p> {
    /// The bytes.
    pub bytes: &'p [u8],
    /// None follow.
    pub last: bool,
}

/// What was taken of a part, and what is kept behind it.
#[derive(Clone, Copy)]
pub struct Taken<'p> {
    /// How many bytes were taken.
    pub bytes: u64,
    /// How many user values at top level they have.
    pub values: u64,
    /// Whether what was kept stays.
    pub stays: bool,
    /// What is kept behind that, or in its place: bytes of the part, or a version marker.
    pub more: &'p [u8],
}

/// What a stretch of a part is, and so what is kept behind it.
#[derive(Clone, Copy, PartialEq, Eq)]
pub(crate) enum Stretch {
    /// Each item is one of a user value: what was kept stays.
    Values,
    /// A version marker, and then items of user values alone: a marker is kept.
    Marked,
    /// No item is one of a user value: all bytes are kept.
    Declared,
    /// It is refused.
    Refused,
    /// It is none of these, or may not be cut off.
    Other,
}

/// A stretch of so many bytes, from the first of a part on.
#[derive(Clone, Copy)]
pub(crate) struct Chosen {
    pub(crate) cut: usize,
    pub(crate) stretch: Stretch,
}

/// What is kept behind a version marker: in binary another one; in text a line feed, so that what is
/// kept is text.
fn beginning(form: Form) -> &'static [u8]
    ensures { result.now ≡ beginning form }
{
    match form {
        Form::Binary => &[0xE0, 0x01, 0x00, 0xEA],
        Form::Text => &[0x0A],
    }
}

/// What a stretch is, by how many items stand before it, whether it begins a stream, what all items are,
/// and how many of them are those of user values.
fn stretch_of(form: Form, before: u64, begins: bool, all: Counted, own: u64) -> Stretch
    ensures { CountsAs form before begins all own result }
{
    if all.items < own {
        return Stretch::Other;
    }
    let none = all.items - own;
    if none == before && (!begins || form == Form::Text) {
        return Stretch::Values;
    }
    if none > before && none - before == 1 && all.is_marked {
        return Stretch::Marked;
    }
    if own == 0 && (form == Form::Binary || all.is_firm) {
        return Stretch::Declared;
    }
    Stretch::Other
}

/// Nothing is known of a stretch that could not be read, unless it was for want of memory.
fn unknown(fault: Fault) -> Result<Stretch, Fault>
    ensures memory { result ≡ Err Memory ↔ fault ≡ Memory }
    ensures other { (what : Stretch) → result ≡ Ok what → what ≡ stretches.Other }
    ensures only_memory { IfErr result (λ f. f ≡ Memory) }
{
    match fault {
        Fault::Memory => Err(Fault::Memory),
        _ => Ok(Stretch::Other),
    }
}

/// What bytes are behind kept ones, whose items were counted, where others follow.
fn judge_behind<A: Allocator + Copy>(
    meter: &mut Meter<A>,
    catalog: &Catalog<A>,
    reads: Reads,
    kept: &[u8],
    part: &[u8],
    next: &[u8],
    before: u64,
) -> Result<Stretch, Fault>
    requires checked { AreChecked reads.limits }
    requires room { HasRoom (2 ^ 48) 0 meter.old }
    requires some { is_none_left part.now ≡ false }
    requires before { HasCount (reading_of reads.profile reads.form reads.limits kept.now) before }
    ensures stretch { (what : Stretch) → result ≡ Ok what
        → IsStretch reads.profile catalog.now reads.limits reads.form kept.now part.now next.now
        what }
    ensures gives_back { GivesAllBack (8192 + share_as reads.limits None) result
        meter.old meter.new }
    ensures only_memory { IfErr result (λ f. f ≡ Memory) }
{
    let all = match count(meter, reads, before, Pieces::new(kept, part)) {
        Ok(counted) => counted,
        Err(fault) => return unknown(fault),
    };
    if !is_cut(reads.form, all.is_firm, part, next) {
        return Ok(Stretch::Other);
    }
    match count_own_items(meter, catalog, reads, Pieces::new(kept, part)) {
        Ok(own) => Ok(stretch_of(reads.form, before, kept.is_empty(), all, own)),
        Err(Fault::Refused(..)) => Ok(Stretch::Refused),
        Err(fault) => unknown(fault),
    }
}

/// What bytes are behind kept ones, where others follow.
fn judge_part<A: Allocator + Copy>(
    meter: &mut Meter<A>,
    catalog: &Catalog<A>,
    reads: Reads,
    kept: &[u8],
    part: &[u8],
    next: &[u8],
) -> Result<Stretch, Fault>
    requires checked { AreChecked reads.limits }
    requires room { HasRoom (2 ^ 48) 0 meter.old }
    requires some { is_none_left part.now ≡ false }
    ensures stretch { (what : Stretch) → result ≡ Ok what
        → IsStretch reads.profile catalog.now reads.limits reads.form kept.now part.now next.now
        what }
    ensures gives_back { GivesAllBack (8192 + share_as reads.limits None) result
        meter.old meter.new }
    ensures only_memory { IfErr result (λ f. f ≡ Memory) }
{
    match count(meter, reads, 0, Pieces::new(kept, &[])) {
        Err(fault) => unknown(fault),
        Ok(counted) => judge_behind(meter, catalog, reads, kept, part, next, counted.items),
    }
}

/// What some bytes of a part are.
fn judge<A: Allocator + Copy>(
    meter: &mut Meter<A>,
    catalog: &Catalog<A>,
    reads: Reads,
    kept: &[u8],
    bytes: &[u8],
    cut: usize,
) -> Result<Chosen, Fault>
    requires checked { AreChecked reads.limits }
    requires room { HasRoom (2 ^ 48) 0 meter.old }
    ensures chosen { (c : chosen.Chosen) → result ≡ Ok c
        → IsChosen reads.profile catalog.now reads.limits reads.form kept.now bytes.now
        c.cut c.stretch }
    ensures gives_back { GivesAllBack (8192 + share_as reads.limits None) result
        meter.old meter.new }
    ensures only_memory { IfErr result (λ f. f ≡ Memory) }
{
    let (part, next) = bytes.split_at(cut.min(bytes.len()));
    if part.is_empty() {
        return Ok(Chosen {
            cut: 0,
            stretch: Stretch::Other,
        });
    }
    match judge_part(meter, catalog, reads, kept, part, next) {
        Err(fault) => Err(fault),
        Ok(stretch) => Ok(Chosen {
            cut: part.len(),
            stretch,
        }),
    }
}

/// What is taken of a part: the longest stretch that is found. Where that is none, one within half of
/// its bytes is tried, and so on, so that all tries together read the part a few times.
fn choose<A: Allocator + Copy>(
    meter: &mut Meter<A>,
    catalog: &Catalog<A>,
    reads: Reads,
    kept: &[u8],
    bytes: &[u8],
) -> Result<Chosen, Fault>
    requires checked { AreChecked reads.limits }
    requires room { HasRoom (2 ^ 48) 0 meter.old }
    ensures chosen { (c : chosen.Chosen) → result ≡ Ok c
        → IsChosen reads.profile catalog.now reads.limits reads.form kept.now bytes.now
        c.cut c.stretch }
    ensures gives_back { GivesAllBack (8192 + share_as reads.limits None) result
        meter.old meter.new }
    ensures only_memory { IfErr result (λ f. f ≡ Memory) }
{
    let mut most = bytes.len();
    'tries: loop {
        let cut = match find(meter, reads, kept, bytes, most) {
            Ok(cut) => cut,
            Err(fault) => return Err(fault),
        };
        let chosen = match judge(meter, catalog, reads, kept, bytes, cut) {
            Ok(chosen) => chosen,
            Err(fault) => return Err(fault),
        };
        if chosen.stretch != Stretch::Other || cut == 0 || cut > most {
            return Ok(chosen);
        }
        most = cut / 2;
    }
}

/// What is taken with a stretch that has so many values.
fn taken_of<'p>(form: Form, stretch: Stretch, kept: &[u8], part: &'p [u8], values: u64) -> Taken<'p>
    ensures bytes { result.bytes ≡ length part.now }
    ensures values { result.values ≡ values }
    ensures keeps { kept_by result.stays kept.now result.more.now
        ≡ then_kept form stretch kept.now part.now }
{
    let (stays, more): (bool, &'p [u8]) = match stretch {
        Stretch::Marked => (false, beginning(form)),
        Stretch::Declared => (true, part),
        Stretch::Values if kept.is_empty() => (false, beginning(form)),
        Stretch::Values | Stretch::Refused | Stretch::Other => (true, &[]),
    };
    Taken {
        bytes: part.len() as u64,
        values,
        stays,
        more,
    }
}

/// So many bytes are taken, with so many values, and what was kept stays.
fn taking<'p>(bytes: u64, values: u64) -> Taken<'p>
    ensures bytes { result.bytes ≡ bytes }
    ensures values { result.values ≡ values }
    ensures stays { (result.stays ≡ true) × (result.more.now ≡ []) }
{
    Taken {
        bytes,
        values,
        stays: true,
        more: &[],
    }
}

/// A fault whose place is counted from the first byte behind kept ones.
fn behind(fault: Fault, kept: usize) -> Fault
    ensures refused { (r : Reason) (p : ℕ) → result ≡ Refused r p
        → (q : ℕ) × (fault ≡ Refused r q) × (p ≡ q - kept) }
    ensures same { ((r : Reason) (p : ℕ) → fault ≢ Refused r p) → result ≡ fault }
    ensures from { ((r : Reason) (p : ℕ) → result ≢ Refused r p) → fault ≡ result }
{
    match fault {
        Fault::Refused(reason, place) => Fault::Refused(reason, place.saturating_sub(kept as u64)),
        fault => fault,
    }
}

/// Runs some bytes of a part behind kept ones, and answers how many values they have.
fn run_behind<O: Output, A: Allocator + Copy>(
    meter: &mut Meter<A>,
    catalog: &Catalog<A>,
    reads: Reads,
    to: To,
    kept: &[u8],
    part: &[u8],
    output: O,
) -> (Result<u64, Fault>, O)
    requires checked { AreChecked reads.limits }
    requires held { meter.old.held ≤ 2 ^ 48 }
    requires countable { meter.old.refused < 2 ^ 64 - 1 }
    requires writes { O.failure_count output < 2 ^ 64 - 1 }
    ensures accepted { (n : ℕ) → result.0 ≡ Ok n
        → IsWrittenWith reads.profile catalog.now reads.limits to (kept.now ++ part.now)
        (Accepted n) (O.observable output) (O.written output) (O.written result.1) }
    ensures refused { (r : Reason) (p : ℕ) → result.0 ≡ Err (Refused r p)
        → (q : ℕ) × (p ≡ q - length kept.now)
        × IsWrittenWith reads.profile catalog.now reads.limits to (kept.now ++ part.now)
        (Rejected r q) (O.observable output) (O.written output) (O.written result.1) }
    ensures runs { Runs (bound reads.limits form.Text to) result.0 meter.old meter.new
        O.Output output result.1 }
    ensures limit { result.0 ≡ Err InputLimit
        → reads.limits.input < length (kept.now ++ part.now) }
{
    let input = Pieces::new(kept, part);
    let (outcome, _, output) = run_with(
        meter,
        catalog,
        reads.limits,
        reads.profile,
        to,
        input,
        output,
    );
    match outcome {
        Err(fault) => (Err(behind(fault, kept.len())), output),
        Ok(summary) => (Ok(summary.values), output),
    }
}

/// Takes a stretch of a part.
fn take<'p, O: Output, A: Allocator + Copy>(
    meter: &mut Meter<A>,
    catalog: &Catalog<A>,
    reads: Reads,
    to: To,
    kept: &[u8],
    part: &'p [u8],
    stretch: Stretch,
    output: O,
) -> (Result<Taken<'p>, Fault>, O)
    requires checked { AreChecked reads.limits }
    requires held { meter.old.held ≤ 2 ^ 48 }
    requires countable { meter.old.refused < 2 ^ 64 - 1 }
    requires writes { O.failure_count output < 2 ^ 64 - 1 }
    requires form { reads.form ≡ form_of (kept.now ++ part.now) }
    requires some { is_none_left part.now ≡ false }
    requires stretch { stretch ≢ stretches.Other }
    ensures bytes { (t : code.Taken) → result.0 ≡ Ok t → t.bytes ≡ length part.now }
    ensures short { (t : code.Taken) → result.0 ≡ Ok t
        → IsShort t.stays kept.now t.more.now t.bytes }
    ensures taken { (next : List ℕ)
        → IsStretch reads.profile catalog.now reads.limits reads.form kept.now part.now next stretch
        → IsKept reads.profile catalog.now reads.limits kept.now
        → (t : code.Taken) → result.0 ≡ Ok t
        → TakesAll reads.profile catalog.now reads.limits to kept.now part.now next t.values
        (kept_by t.stays kept.now t.more.now)
        (O.observable output) (O.written output) (O.written result.1) }
    ensures refused { (next : List ℕ)
        → IsStretch reads.profile catalog.now reads.limits reads.form kept.now part.now next stretch
        → (r : Reason) (p : ℕ) → result.0 ≡ Err (Refused r p)
        → IsRefused reads.profile catalog.now reads.limits to kept.now (part.now ++ next)
        false r p (O.observable output) (O.written output) (O.written result.1) }
    ensures runs { Runs (bound reads.limits form.Text to) result.0 meter.old meter.new
        O.Output output result.1 }
    ensures limit { result.0 ≡ Err InputLimit
        → reads.limits.input < length (kept.now ++ part.now) }
{
    stretches_of_parts();
    let (outcome, output) = run_behind(meter, catalog, reads, to, kept, part, output);
    match outcome {
        Err(fault) => (Err(fault), output),
        Ok(values) => (
            Ok(taken_of(reads.form, stretch, kept, part, values)),
            output,
        ),
    }
}

/// Runs what can be taken of a part that is not the last.
fn run_some<'p, O: Output, A: Allocator + Copy>(
    meter: &mut Meter<A>,
    catalog: &Catalog<A>,
    reads: Reads,
    to: To,
    kept: &[u8],
    bytes: &'p [u8],
    output: O,
) -> (Result<Taken<'p>, Fault>, O)
    requires checked { AreChecked reads.limits }
    requires held { meter.old.held ≤ 2 ^ 48 }
    requires countable { meter.old.refused < 2 ^ 64 - 1 }
    requires writes { O.failure_count output < 2 ^ 64 - 1 }
    requires form { reads.form ≡ form_of (kept.now ++ bytes.now) }
    ensures taken { IsKept reads.profile catalog.now reads.limits kept.now
        → (t : code.Taken) → result.0 ≡ Ok t → 0 < t.bytes
        → Takes reads.profile catalog.now reads.limits to kept.now bytes.now t.bytes t.values
        (kept_by t.stays kept.now t.more.now)
        (O.observable output) (O.written output) (O.written result.1) }
    ensures nothing { (t : code.Taken) → result.0 ≡ Ok t → t.bytes ≡ 0
        → (t.values ≡ 0) × (t.stays ≡ true) × (t.more.now ≡ []) × (result.1 ≡ output) }
    ensures short { (t : code.Taken) → result.0 ≡ Ok t
        → IsShort t.stays kept.now t.more.now t.bytes }
    ensures refused { (r : Reason) (p : ℕ) → result.0 ≡ Err (Refused r p)
        → IsRefused reads.profile catalog.now reads.limits to kept.now bytes.now
        false r p (O.observable output) (O.written output) (O.written result.1) }
    ensures runs { Runs (bound reads.limits form.Text to) result.0 meter.old meter.new
        O.Output output result.1 }
    ensures limit { result.0 ≡ Err InputLimit
        → reads.limits.input < length (kept.now ++ bytes.now) }
{
    let chosen = match choose(meter, catalog, reads, kept, bytes) {
        Ok(chosen) => chosen,
        Err(fault) => return (Err(fault), output),
    };
    if chosen.stretch == Stretch::Other {
        return (Ok(taking(0, 0)), output);
    }
    let part = &bytes[..chosen.cut];
    take(
        meter,
        catalog,
        reads,
        to,
        kept,
        part,
        chosen.stretch,
        output,
    )
}

/// Runs the last part.
fn run_last<'p, O: Output, A: Allocator + Copy>(
    meter: &mut Meter<A>,
    catalog: &Catalog<A>,
    reads: Reads,
    to: To,
    kept: &[u8],
    part: &'p [u8],
    output: O,
) -> (Result<Taken<'p>, Fault>, O)
    requires checked { AreChecked reads.limits }
    requires held { meter.old.held ≤ 2 ^ 48 }
    requires countable { meter.old.refused < 2 ^ 64 - 1 }
    requires writes { O.failure_count output < 2 ^ 64 - 1 }
    ensures whole { (t : code.Taken) → result.0 ≡ Ok t → (t.bytes ≡ length part.now)
        × IsWrittenWith reads.profile catalog.now reads.limits to (kept.now ++ part.now)
        (Accepted t.values) (O.observable output) (O.written output) (O.written result.1) }
    ensures stays { (t : code.Taken) → result.0 ≡ Ok t → (t.stays ≡ true) × (t.more.now ≡ []) }
    ensures refused { (r : Reason) (p : ℕ) → result.0 ≡ Err (Refused r p)
        → IsRefused reads.profile catalog.now reads.limits to kept.now part.now
        true r p (O.observable output) (O.written output) (O.written result.1) }
    ensures runs { Runs (bound reads.limits form.Text to) result.0 meter.old meter.new
        O.Output output result.1 }
    ensures limit { result.0 ≡ Err InputLimit
        → reads.limits.input < length (kept.now ++ part.now) }
{
    stretches_of_parts();
    let (outcome, output) = run_behind(meter, catalog, reads, to, kept, part, output);
    match outcome {
        Err(fault) => (Err(fault), output),
        Ok(values) => (Ok(taking(part.len() as u64, values)), output),
    }
}

/// Runs a part of a stream behind what is kept of the parts before it.
///
/// Of a part that is not the last it takes the first bytes: user values, or declarations, which have no
/// output; or none. [`Taken`] says how many they are, and what is kept then. The next call is given the
/// bytes behind them, and more; where it takes none, nothing is written, and more bytes are needed. No
/// clause says how many it takes. The last part is run to its end.
///
/// A stream begins with nothing kept. Between two calls the caller keeps these bytes alone, those of
/// declarations and version markers, and never reads them. No call keeps memory.
///
/// All parts together have the verdict and the output of the whole stream (the law `parts_are_the_whole`),
/// and where a text is written as binary, their outputs together show what the text shows
/// (`parts_of_binary_show_the_whole`).
pub fn run_part<'p, O: Output, A: Allocator + Copy>(
    meter: &mut Meter<A>,
    catalog: &Catalog<A>,
    limits: Limits,
    profile: Profile,
    to: To,
    kept: &[u8],
    part: Part<'p>,
    output: O,
) -> (Result<Taken<'p>, Fault>, O)
    // Limits within their maxima, and room for the counts.
    requires checked { AreChecked limits }
    requires held { meter.old.held ≤ 2 ^ 48 }
    requires countable { meter.old.refused < 2 ^ 64 - 1 }
    requires writes { O.failure_count output < 2 ^ 64 - 1 }

    // What is taken of a part that is not the last, where what was kept is nothing, or what a call left:
    // the first bytes, which are accepted, and their output is written after what was there. What is kept
    // then stands for all bytes so far. Where no bytes are taken, nothing else is done.
    ensures taken { part.entry.last ≡ false → IsKept profile catalog.now limits kept.now
        → (t : code.Taken) → result.0 ≡ Ok t → 0 < t.bytes
        → Takes profile catalog.now limits to kept.now part.entry.bytes.now t.bytes t.values
        (kept_by t.stays kept.now t.more.now)
        (O.observable output) (O.written output) (O.written result.1) }
    ensures nothing { part.entry.last ≡ false → (t : code.Taken) → result.0 ≡ Ok t → t.bytes ≡ 0
        → (t.values ≡ 0) × (result.1 ≡ output) }
    ensures stays { (t : code.Taken) → result.0 ≡ Ok t → (part.entry.last ≡ true) ⊎ (t.bytes ≡ 0)
        → (t.stays ≡ true) × (t.more.now ≡ []) }
    ensures short { (t : code.Taken) → result.0 ≡ Ok t
        → IsShort t.stays kept.now t.more.now t.bytes }

    // The verdict on the last part is that on all of it behind what was kept.
    ensures whole { part.entry.last ≡ true → (t : code.Taken) → result.0 ≡ Ok t
        → (t.bytes ≡ length part.entry.bytes.now)
        × IsWrittenWith profile catalog.now limits to (kept.now ++ part.entry.bytes.now)
        (Accepted t.values) (O.observable output) (O.written output) (O.written result.1) }

    // A refusal stands whatever follows, and its place is counted from the first byte of the part.
    ensures refused { (r : Reason) (p : ℕ) → result.0 ≡ Err (Refused r p)
        → IsRefused profile catalog.now limits to kept.now part.entry.bytes.now part.entry.last r p
        (O.observable output) (O.written output) (O.written result.1) }

    // Faults, only where they occurred.
    ensures memory { result.0 ≡ Err Memory → meter.old.refused < meter.new.refused }
    ensures counted { result.0 ≢ Err Memory → meter.new.refused ≡ meter.old.refused }
    ensures no_reads { result.0 ≢ Err ReadFault }
    ensures write { result.0 ≡ Err WriteFault
        → O.failure_count result.1 ≡ O.failure_count output + 1 }
    ensures steady { result.0 ≢ Err WriteFault
        → O.failure_count result.1 ≡ O.failure_count output }
    ensures still_observable { O.observable result.1 ↔ O.observable output }
    ensures grown { O.observable output → HasPrefix (O.written result.1) (O.written output) }
    ensures limit { result.0 ≡ Err InputLimit
        → limits.input < length (kept.now ++ part.entry.bytes.now) }

    // Memory: all of it is given back, and no more was held than the bound of a run.
    ensures held { meter.new.held ≡ meter.old.held }
    ensures peak { meter.new.peak
        ≤ max meter.old.peak (meter.old.held + bound limits form.Text to) }
{
    let form = Pieces::new(kept, part.bytes).form();
    let reads = Reads {
        limits,
        profile,
        form,
    };
    if part.last {
        return run_last(meter, catalog, reads, to, kept, part.bytes, output);
    }
    run_some(meter, catalog, reads, to, kept, part.bytes, output)
}
