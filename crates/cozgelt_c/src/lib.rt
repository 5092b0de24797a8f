//! The calls of the C library: a stream in the caller's memory, as text, as binary, or checked.
//!
//! `bindings/c/cozgelt.h` declares them, and says what a caller has to keep that no contract can say.
#![tactic(auto)]

ghost use Rattle.std.specs.Prelude.{◌≡◌, ◌≢◌, ◌≤◌, ◌<◌, ◌-◌, ◌^◌, ◌++◌, length, drop, None, IfSome, IfOk, IfErr, OnOk};
ghost use Rattle.std.specs.Prelude.{ℕ, [], Ok, Err};
ghost use Rattle.ion_meter.specs.Limits.{AreChecked};
ghost use Rattle.ion_meter.specs.Reasons.{number_of};
ghost use Rattle.ion_meter.specs.declared.fault.Reason.{Reason};
ghost use Rattle.ion_meter.specs.declared.fault.Fault.TheVariants.{Refused, Memory, WriteFault, InputLimit};
ghost use Rattle.ion_value.specs.Outcome.{Accepted, Rejected};
ghost use Rattle.ion_transcode.specs.declared.to.Summary as code;
ghost use Rattle.ion_transcode.specs.Verdict.{HasVerdictWith};
ghost use Rattle.ion_transcode.specs.declared.to.To.TheVariants as to;
ghost use Rattle.ion_transcode.specs.declared.to.Form.TheVariants as form;
ghost use Rattle.ion_transcode.specs.Bound.{bound};
ghost use Rattle.ion_transcode.specs.Catalogues.{IsCatalog, LoadCharges};
ghost use Rattle.cozgelt_c.specs.Calls.{Answers, AnswersAt, AnswersBy, AnswersWith, WhyNotLoaded};
ghost use Rattle.cozgelt_c.specs.Calls.{AreValid, limits_of, profile_of};
ghost use Rattle.cozgelt_c.specs.Memory.{HoldsAtMost, call_bound, cost_of, room_bound};

use crate::buffer::Bounded;
use ion_meter::fault::{Fault, Reason};
use ion_meter::limits::Limits;
use ion_meter::meter::Meter;
use ion_meter::profile::Profile;
use ion_meter::stream::FromRead;
use ion_symbols::catalog::Catalog;
use ion_transcode::load::load_catalog;
use ion_transcode::run::run_with;
use ion_transcode::to::{Summary, To};
use std::alloc::Global;

mod buffer;
mod handle;
mod loaded;
mod loose;
mod parts;
mod written;

/// The limits of a call.
#[repr(C)]
pub struct CozgeltLimits {
    /// The size of this struct in bytes: 40.
    pub size: u32,
    /// The greatest number of open containers: at most 65,535.
    pub depth: u32,
    /// The greatest length of one scalar, in bytes, and the greatest cost of one value's
    /// annotations: at most 2^30.
    pub scalar: u64,
    /// The greatest cost of one symbol table, and of the catalogue, in bytes: at most 2^30.
    pub symbols: u64,
    /// The greatest length of one encoded top-level value, in bytes: at most 2^30.
    pub value: u64,
    /// The greatest length of the stream, and of the catalogue, in bytes: at most 2^48.
    pub input: u64,
}

/// What a call answers beside its status.
#[repr(C)]
pub struct CozgeltAnswer {
    /// The size of this struct in bytes: 32. No call changes it.
    pub size: u32,
    /// Of a stream or a catalogue that is refused: the reason's number.
    pub reason: u32,
    /// Of a stream or a catalogue that is refused: the first byte of the faulty part, counted from 0.
    pub place: u64,
    /// Of an accepted stream: how many user values it has at top level.
    pub values: u64,
    /// Of a stream that is accepted or refused: how many bytes the output has.
    pub needed: u64,
}

// What a call returns.
const ACCEPTED: u32 = 0;

const REFUSED: u32 = 1;

const NO_MEMORY: u32 = 2;

const INPUT_LIMIT: u32 = 3;

const NO_OUTPUT_MEMORY: u32 = 4;

const INVALID: u32 = 5;

const CATALOG_REFUSED: u32 = 6;

// The numbers of the profiles.
const STRICT: u32 = 0;

const FLOATS: u32 = 1;

// The longest room that is counted: 2^47 bytes, for which a process of an x86-64 has no addresses.
const MOST_ROOM: usize = 0x8000_0000_0000;

/// What is done with a stream: by which profile it is read, and as what it is written.
#[derive(Clone, Copy)]
struct Task {
    profile: Profile,
    to: To,
}

/// The profile that a caller's number names, if it names one.
fn profile_of(number: u32) -> Option<Profile>
    ensures { result ≡ profile_of number }
{
    match number {
        STRICT => Some(Profile::strict()),
        FLOATS => Some(Profile::floats()),
        _ => None,
    }
}

/// The limits that a caller gives, if they are valid and the answer is.
fn checked(limits: &CozgeltLimits, answer: &CozgeltAnswer) -> Option<Limits>
    ensures some { IfSome result (λ l. (l ≡ limits_of limits.now)
        × AreValid limits.now answer.now) }
    ensures none { result ≡ None → AreValid limits.now answer.now → ⊥ }
{
    let given = Limits {
        depth: limits.depth,
        scalar: limits.scalar,
        symbols: limits.symbols,
        value: limits.value,
        input: limits.input,
    };
    if limits.size == 40 && answer.size == 32 && given.check() {
        Some(given)
    } else {
        None
    }
}

/// Tells why and where something is refused.
fn refuse(reason: Reason, place: u64, answer: &mut CozgeltAnswer)
    ensures { answer.new ≡ record answer.old { reason = number_of reason; place = place } }
{
    answer.reason = u32::from(reason.number());
    answer.place = place;
}

/// Tells how long the output is, and copies it to the front of the room if it fits.
fn leave(output: &Bounded, room: &mut [u8], answer: &mut CozgeltAnswer)
    requires well { output.now.failures ≡ 0 }
    requires room { output.now.most ≡ length room.old }
    ensures told { answer.new ≡ record answer.old { needed = length output.now.put } }
    ensures fits { length output.now.put ≤ length room.old
        → room.new ≡ output.now.put ++ drop (length output.now.put) room.old }
    ensures does_not_fit { length room.old < length output.now.put → room.new ≡ room.old }
{
    let n = output.len();
    answer.needed = n;
    if n <= room.len() as u64 {
        output.copy_to(room);
    }
}

/// A run from memory to a buffer of the library's own, which it hands back.
fn run_within(
    meter: &mut Meter<Global>,
    tables: &Catalog<Global>,
    limits: Limits,
    task: Task,
    stream: &[u8],
    output: Bounded,
) -> (Result<Summary, Fault>, Bounded)
    requires checked { AreChecked limits }
    requires held { meter.old.held ≤ 2 ^ 48 }
    requires countable { meter.old.refused < 2 ^ 64 - 1 }
    requires empty { output.put ≡ [] }
    requires well { output.failures ≡ 0 }
    ensures accepted { (s : code.Summary) → result.0 ≡ Ok s
        → HasVerdictWith task.profile tables.now limits task.to stream.now (Accepted s.values)
        result.1.put }
    ensures refused { (r : Reason) (p : ℕ) → result.0 ≡ Err (Refused r p)
        → HasVerdictWith task.profile tables.now limits task.to stream.now (Rejected r p)
        result.1.put }
    ensures limit { result.0 ≡ Err InputLimit → limits.input < length stream.now }
    ensures well { result.0 ≢ Err WriteFault → result.1.failures ≡ 0 }
    ensures same_room { result.1.most ≡ output.most }
    ensures counted { result.0 ≢ Err Memory → meter.new.refused ≡ meter.old.refused }
    ensures memory { HoldsAtMost (bound limits form.Text task.to) meter.old meter.new }
{
    let Task { profile, to } = task;
    let reader = FromRead::new(stream);
    let (outcome, _, output) = run_with(meter, tables, limits, profile, to, reader, output);
    (outcome, output)
}

/// Converts a stream, its imports from these tables.
fn convert_with(
    alloc: Global,
    meter: &mut Meter<Global>,
    tables: &Catalog<Global>,
    limits: Limits,
    task: Task,
    stream: &[u8],
    room: &mut [u8],
    answer: &mut CozgeltAnswer,
) -> u32
    requires checked { AreChecked limits }
    requires held { meter.old.held ≤ 2 ^ 47 }
    requires countable { meter.old.refused < 2 ^ 64 - 1 }
    ensures answers { AnswersWith task.profile tables.now limits task.to stream.now
        result answer.old answer.new room.old room.new }
    ensures memory { HoldsAtMost (room_bound limits task.to (length room.old)) meter.old meter.new }
    ensures counted { result ≢ 2 → meter.new.refused ≡ meter.old.refused }
{
    if room.len() > MOST_ROOM {
        return NO_OUTPUT_MEMORY;
    }
    let Some(output) = Bounded::new(meter, alloc, room.len()) else {
        return NO_MEMORY;
    };
    let (outcome, output) = run_within(meter, tables, limits, task, stream, output);
    match outcome {
        Ok(summary) => {
            answer.values = summary.values;
            leave(&output, room, answer);
            output.release(meter);
            ACCEPTED
        }
        Err(Fault::Refused(reason, place)) => {
            refuse(reason, place, answer);
            leave(&output, room, answer);
            output.release(meter);
            REFUSED
        }
        Err(Fault::Memory | Fault::ReadFault) => {
            output.release(meter);
            NO_MEMORY
        }
        Err(Fault::InputLimit) => {
            output.release(meter);
            INPUT_LIMIT
        }
        Err(Fault::WriteFault) => {
            output.release(meter);
            NO_OUTPUT_MEMORY
        }
    }
}

/// Loads a catalogue, or tells by a status why there is none.
fn load(
    meter: &mut Meter<Global>,
    limits: Limits,
    catalog: &[u8],
    answer: &mut CozgeltAnswer,
) -> Result<Catalog<Global>, u32>
    requires checked { AreChecked limits }
    requires held { meter.old.held ≤ 2 ^ 46 }
    requires countable { meter.old.refused < 2 ^ 64 - 1 }
    ensures loaded { IfOk result (λ tables. IsCatalog limits catalog.now tables) }
    ensures told { OnOk result (answer.new ≡ answer.old) }
    ensures why { IfErr result (λ status.
        WhyNotLoaded limits catalog.now status answer.old answer.new) }
    ensures counted { OnOk result (meter.new.refused ≡ meter.old.refused) }
    ensures charges { LoadCharges limits (cost_of result) meter.old meter.new }
{
    let (loaded, _) = load_catalog(meter, limits, FromRead::new(catalog));
    match loaded {
        Ok(tables) => Ok(tables),
        Err(Fault::Refused(reason, place)) => {
            refuse(reason, place, answer);
            Err(CATALOG_REFUSED)
        }
        Err(Fault::InputLimit) => Err(INPUT_LIMIT),
        Err(Fault::Memory | Fault::ReadFault | Fault::WriteFault) => Err(NO_MEMORY),
    }
}

/// Converts a stream, its imports from a catalogue.
fn convert_by(
    alloc: Global,
    meter: &mut Meter<Global>,
    limits: &CozgeltLimits,
    task: Task,
    catalog: &[u8],
    stream: &[u8],
    room: &mut [u8],
    answer: &mut CozgeltAnswer,
) -> u32
    requires held { meter.old.held ≤ 2 ^ 46 }
    requires countable { meter.old.refused < 2 ^ 64 - 1 }
    ensures answers { AnswersBy task.profile limits.now task.to catalog.now stream.now result
        answer.old answer.new room.old room.new }
    ensures memory { HoldsAtMost (call_bound (limits_of limits.now) task.to (length room.old))
        meter.old meter.new }
{
    let Some(limits) = checked(limits, answer) else {
        return INVALID;
    };
    match load(meter, limits, catalog, answer) {
        Ok(tables) => {
            let status = convert_with(alloc, meter, &tables, limits, task, stream, room, answer);
            tables.release(meter);
            status
        }
        Err(status) => status,
    }
}

/// Converts a stream by the profile that a number names.
fn convert(
    alloc: Global,
    profile: u32,
    limits: &CozgeltLimits,
    to: To,
    catalog: &[u8],
    stream: &[u8],
    room: &mut [u8],
    answer: &mut CozgeltAnswer,
) -> u32
    ensures { AnswersAt profile limits.now to catalog.now stream.now result
        answer.old answer.new room.old room.new }
{
    match profile_of(profile) {
        Some(profile) => {
            let task = Task { profile, to };
            let mut meter = Meter::new(alloc);
            convert_by(
                alloc, &mut meter, limits, task, catalog, stream, room, answer,
            )
        }
        None => INVALID,
    }
}

/// The version of this library: 10,000 times its first number, 100 times the second, and the third.
#[unsafe(no_mangle)]
pub extern "C" fn cozgelt_version() -> u32
    ensures { result ≡ 200 }
{
    200
}

/// The stream as canonical text.
#[unsafe(no_mangle)]
pub extern "C" fn cozgelt_to_text(
    alloc: Global,
    limits: &CozgeltLimits,
    catalog: &[u8],
    stream: &[u8],
    room: &mut [u8],
    answer: &mut CozgeltAnswer,
) -> u32
    ensures { Answers limits.now to.Text catalog.now stream.now result
        answer.old answer.new room.old room.new }
{
    cozgelt_to_text_with(alloc, STRICT, limits, catalog, stream, room, answer)
}

/// The stream, a text, as canonical binary; one that is binary is refused as `SameForm` at 0.
#[unsafe(no_mangle)]
pub extern "C" fn cozgelt_to_binary(
    alloc: Global,
    limits: &CozgeltLimits,
    catalog: &[u8],
    stream: &[u8],
    room: &mut [u8],
    answer: &mut CozgeltAnswer,
) -> u32
    ensures { Answers limits.now to.Binary catalog.now stream.now result
        answer.old answer.new room.old room.new }
{
    cozgelt_to_binary_with(alloc, STRICT, limits, catalog, stream, room, answer)
}

/// The stream's verdict alone: its output is empty, and the room stays as it is.
#[unsafe(no_mangle)]
pub extern "C" fn cozgelt_check(
    alloc: Global,
    limits: &CozgeltLimits,
    catalog: &[u8],
    stream: &[u8],
    room: &mut [u8],
    answer: &mut CozgeltAnswer,
) -> u32
    ensures { Answers limits.now to.Nothing catalog.now stream.now result
        answer.old answer.new room.old room.new }
{
    cozgelt_check_with(alloc, STRICT, limits, catalog, stream, room, answer)
}

/// The stream as canonical text, where it is read by the profile that a number names.
#[unsafe(no_mangle)]
pub extern "C" fn cozgelt_to_text_with(
    alloc: Global,
    profile: u32,
    limits: &CozgeltLimits,
    catalog: &[u8],
    stream: &[u8],
    room: &mut [u8],
    answer: &mut CozgeltAnswer,
) -> u32
    ensures { AnswersAt profile limits.now to.Text catalog.now stream.now result
        answer.old answer.new room.old room.new }
{
    let to = To::Text;
    convert(alloc, profile, limits, to, catalog, stream, room, answer)
}

/// The stream as pretty text, where it is read by the profile that a number names.
#[unsafe(no_mangle)]
pub extern "C" fn cozgelt_to_pretty_with(
    alloc: Global,
    profile: u32,
    limits: &CozgeltLimits,
    catalog: &[u8],
    stream: &[u8],
    room: &mut [u8],
    answer: &mut CozgeltAnswer,
) -> u32
    ensures { AnswersAt profile limits.now to.Pretty catalog.now stream.now result
        answer.old answer.new room.old room.new }
{
    let to = To::Pretty;
    convert(alloc, profile, limits, to, catalog, stream, room, answer)
}

/// The stream, a text, as canonical binary, where it is read by the profile that a number names.
#[unsafe(no_mangle)]
pub extern "C" fn cozgelt_to_binary_with(
    alloc: Global,
    profile: u32,
    limits: &CozgeltLimits,
    catalog: &[u8],
    stream: &[u8],
    room: &mut [u8],
    answer: &mut CozgeltAnswer,
) -> u32
    ensures { AnswersAt profile limits.now to.Binary catalog.now stream.now result
        answer.old answer.new room.old room.new }
{
    let to = To::Binary;
    convert(alloc, profile, limits, to, catalog, stream, room, answer)
}

/// The stream, text or binary, as canonical binary, where it is read by the profile that a number names.
#[unsafe(no_mangle)]
pub extern "C" fn cozgelt_rewrite_with(
    alloc: Global,
    profile: u32,
    limits: &CozgeltLimits,
    catalog: &[u8],
    stream: &[u8],
    room: &mut [u8],
    answer: &mut CozgeltAnswer,
) -> u32
    ensures { AnswersAt profile limits.now to.Rewritten catalog.now stream.now result
        answer.old answer.new room.old room.new }
{
    let to = To::Rewritten;
    convert(alloc, profile, limits, to, catalog, stream, room, answer)
}

/// The stream's verdict alone, where it is read by the profile that a number names.
#[unsafe(no_mangle)]
pub extern "C" fn cozgelt_check_with(
    alloc: Global,
    profile: u32,
    limits: &CozgeltLimits,
    catalog: &[u8],
    stream: &[u8],
    room: &mut [u8],
    answer: &mut CozgeltAnswer,
) -> u32
    ensures { AnswersAt profile limits.now to.Nothing catalog.now stream.now result
        answer.old answer.new room.old room.new }
{
    let to = To::Nothing;
    convert(alloc, profile, limits, to, catalog, stream, room, answer)
}
