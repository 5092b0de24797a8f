//! The call that runs a stream in parts, and keeps nothing between two calls.
#![tactic(auto)]

ghost use Rattle.std.specs.Prelude.{Bool, ◌≡◌, ◌≢◌, ◌≤◌, ◌<◌, ◌+◌, ◌-◌, ◌^◌, ◌++◌, ℕ, [], length, take, drop, None, Ok, Err, IfSome};
ghost use Rattle.ion_meter.specs.Limits.{AreChecked};
ghost use Rattle.ion_meter.specs.declared.fault.Reason.{Reason};
ghost use Rattle.ion_meter.specs.declared.fault.Fault.TheVariants.{Refused, Memory, WriteFault, InputLimit};
ghost use Rattle.ion_meter.specs.declared.profile.Profile.{Profile};
ghost use Rattle.ion_transcode.specs.declared.in_parts.Taken as code;
ghost use Rattle.ion_transcode.specs.declared.to.Form.TheVariants as form;
ghost use Rattle.ion_transcode.specs.declared.to.To.{To};
ghost use Rattle.ion_transcode.specs.Bound.{bound};
ghost use Rattle.ion_transcode.specs.PartCalls.{IsRefused, kept_by};
ghost use Rattle.cozgelt_c.specs.Calls.{limits_of};
ghost use Rattle.cozgelt_c.specs.Memory.{HoldsAtMost, room_bound};
ghost use Rattle.cozgelt_c.specs.PartAnswers.{AnswersPart, AnswersRun, ComesTo, HasNoRoom, IsAsked, IsHandedOut, StandsIn, last_of, to_of};

use crate::buffer::Bounded;
use crate::handle::CozgeltCatalog;
use crate::{
    ACCEPTED, CozgeltAnswer, CozgeltLimits, INPUT_LIMIT, INVALID, MOST_ROOM, NO_MEMORY,
    NO_OUTPUT_MEMORY, REFUSED, Task, checked, leave, profile_of, refuse,
};
use ion_meter::fault::Fault;
use ion_meter::limits::Limits;
use ion_meter::meter::Meter;
use ion_symbols::catalog::Catalog;
use ion_transcode::in_parts::{Part, Taken, run_part};
use ion_transcode::to::To;
use std::alloc::Global;

/// What a call is asked of a part of a stream, and what it says of what it took.
#[repr(C)]
pub struct CozgeltPart {
    /// The size of this struct in bytes: 40. No call changes it.
    pub size: u32,
    /// The number of the profile. No call changes it.
    pub profile: u32,
    /// As what the stream is written: 0 as canonical text, 1 as pretty text, 2 as canonical binary if
    /// it is a text, 3 as canonical binary, 4 not at all. No call changes it.
    pub to: u32,
    /// 1 where no bytes follow these, and else 0. No call changes it.
    pub last: u32,
    /// How many bytes are kept: they stand at the front of their room.
    pub kept: u64,
    /// Of a part that is taken: how many of its bytes were.
    pub taken: u64,
    /// Of a part that is taken, or for which there is no room: how many bytes are kept then.
    pub keeps: u64,
}

// What a call returns beside what the others do: no room for the output, or for what is kept then.
const NO_ROOM: u32 = 7;

/// What a caller asks for.
#[derive(Clone, Copy)]
struct Call<'p> {
    limits: Limits,
    task: Task,
    part: Part<'p>,
}

/// As what a stream is written, by a caller's number.
fn to_of(number: u32) -> Option<To>
    ensures { result ≡ to_of number }
{
    match number {
        0 => Some(To::Text),
        1 => Some(To::Pretty),
        2 => Some(To::Binary),
        3 => Some(To::Rewritten),
        4 => Some(To::Nothing),
        _ => None,
    }
}

/// Whether no bytes follow, by a caller's number.
fn last_of(number: u32) -> Option<bool>
    ensures { result ≡ last_of number }
{
    match number {
        0 => Some(false),
        1 => Some(true),
        _ => None,
    }
}

/// What a caller asks for, if all of it is valid.
fn asked<'p>(
    limits: &CozgeltLimits,
    part: &CozgeltPart,
    bytes: &'p [u8],
    most_kept: usize,
    answer: &CozgeltAnswer,
) -> Option<Call<'p>>
    ensures asked { IfSome result (λ c. IsAsked limits.now part.now most_kept answer.now
        c.task.profile c.task.to c.part.last) }
    ensures limits { IfSome result (λ c. c.limits ≡ limits_of limits.now) }
    ensures bytes { IfSome result (λ c. c.part.bytes.now ≡ bytes.now) }
    ensures none { result ≡ None → (profile : Profile) (to : To) (last : Bool)
        → IsAsked limits.now part.now most_kept answer.now profile to last → ⊥ }
{
    let Some(limits) = checked(limits, answer) else {
        return None;
    };
    let Some(profile) = profile_of(part.profile) else {
        return None;
    };
    let Some(to) = to_of(part.to) else {
        return None;
    };
    let Some(last) = last_of(part.last) else {
        return None;
    };
    if part.size != 40 || part.kept > most_kept as u64 {
        return None;
    }
    Some(Call {
        limits,
        task: Task { profile, to },
        part: Part { bytes, last },
    })
}

/// A run of a part to a buffer of the library's own, which it hands back.
fn run_part_within<'p>(
    meter: &mut Meter<Global>,
    tables: &Catalog<Global>,
    call: Call<'p>,
    kept: &[u8],
    output: Bounded,
) -> (Result<Taken<'p>, Fault>, Bounded)
    requires checked { AreChecked call.limits }
    requires held { meter.old.held ≤ 2 ^ 48 }
    requires countable { meter.old.refused < 2 ^ 64 - 1 }
    requires empty { output.put ≡ [] }
    requires well { output.failures ≡ 0 }
    ensures comes { (t : code.Taken) → result.0 ≡ Ok t
        → ComesTo call.entry.task.profile tables.now call.entry.limits call.entry.task.to
        call.entry.part.last kept.now call.entry.part.bytes.now t.bytes t.values
        (kept_by t.stays kept.now t.more.now) result.1.put }
    ensures refused { (r : Reason) (p : ℕ) → result.0 ≡ Err (Refused r p)
        → IsRefused call.entry.task.profile tables.now call.entry.limits call.entry.task.to
        kept.now call.entry.part.bytes.now call.entry.part.last r p (Unit {0}) [] result.1.put }
    ensures limit { result.0 ≡ Err InputLimit
        → call.entry.limits.input < length (kept.now ++ call.entry.part.bytes.now) }
    ensures well { result.0 ≢ Err WriteFault → result.1.failures ≡ 0 }
    ensures same_room { result.1.most ≡ output.most }
    ensures counted { result.0 ≢ Err Memory → meter.new.refused ≡ meter.old.refused }
    ensures memory { HoldsAtMost (bound call.entry.limits form.Text call.entry.task.to)
        meter.old meter.new }
{
    let Call { limits, task, part } = call;
    let Task { profile, to } = task;
    run_part(meter, tables, limits, profile, to, kept, part, output)
}

/// How many bytes are kept then, if that is a number.
fn count_kept(stays: bool, kept: &[u8], more: &[u8]) -> Option<u64>
    ensures { IfSome result (λ n. n ≡ length (kept_by stays kept.now more.now)) }
{
    if stays {
        (kept.len() as u64).checked_add(more.len() as u64)
    } else {
        Some(more.len() as u64)
    }
}

/// Copies bytes behind so many of a room.
fn copy_behind(room: &mut [u8], at: usize, bytes: &[u8])
    requires { at + length bytes.now ≤ length room.old }
    ensures { room.new ≡ (take at room.old ++ bytes.now)
        ++ drop (length (take at room.old ++ bytes.now)) room.old }
{
    let end = at + bytes.len();
    room[at..end].copy_from_slice(bytes);
}

/// Puts what is kept then into its room, where so many bytes are kept.
fn keep(stays: bool, more: &[u8], len: usize, kept: &mut [u8])
    requires within { len ≤ length kept.old }
    requires fits { length (kept_by stays (take len kept.old) more.now) ≤ length kept.old }
    ensures { StandsIn (kept_by stays (take len kept.old) more.now) kept.old kept.new }
{
    if stays {
        copy_behind(kept, len, more);
    } else {
        copy_behind(kept, 0, more);
    }
}

/// Hands out what was taken, if there is room for all of it; else it tells how much that takes. More
/// than 2^64 - 1 bytes to keep, which no process has, count as no memory.
fn give(
    taken: Taken<'_>,
    output: &Bounded,
    part: &mut CozgeltPart,
    kept: &mut [u8],
    room: &mut [u8],
    answer: &mut CozgeltAnswer,
) -> u32
    requires well { output.now.failures ≡ 0 }
    requires room { output.now.most ≡ length room.old }
    requires within { part.old.kept ≤ length kept.old }
    ensures given { result ≡ 0 → IsHandedOut output.now.put
        (kept_by taken.entry.stays (take part.old.kept kept.old) taken.entry.more.now)
        (record { part = part.old; kept = kept.old; room = room.old; answer = answer.old })
        (record { part = part.new; kept = kept.new; room = room.new; answer = answer.new }) }
    ensures taken { result ≡ 0 → (part.new.taken ≡ taken.entry.bytes)
        × (answer.new.values ≡ taken.entry.values) }
    ensures no_room { result ≡ 7 → HasNoRoom output.now.put
        (kept_by taken.entry.stays (take part.old.kept kept.old) taken.entry.more.now)
        (record { part = part.old; kept = kept.old; room = room.old; answer = answer.old })
        (record { part = part.new; kept = kept.new; room = room.new; answer = answer.new }) }
    ensures others { result ≢ 0 → result ≢ 7 → (result ≡ 4) × (part.new ≡ part.old)
        × (kept.new ≡ kept.old) × (room.new ≡ room.old) × (answer.new ≡ answer.old) }
{
    let len = part.kept as usize;
    let Some(keeps) = count_kept(taken.stays, &kept[..len], taken.more) else {
        return NO_OUTPUT_MEMORY;
    };
    part.keeps = keeps;
    answer.needed = output.len();
    if keeps > kept.len() as u64 || output.len() > room.len() as u64 {
        return NO_ROOM;
    }
    keep(taken.stays, taken.more, len, kept);
    output.copy_to(room);
    part.kept = keeps;
    part.taken = taken.bytes;
    answer.values = taken.values;
    ACCEPTED
}

/// Runs a part with these tables.
fn run_one(
    alloc: Global,
    meter: &mut Meter<Global>,
    tables: &Catalog<Global>,
    call: Call<'_>,
    part: &mut CozgeltPart,
    kept: &mut [u8],
    room: &mut [u8],
    answer: &mut CozgeltAnswer,
) -> u32
    requires checked { AreChecked call.limits }
    requires held { meter.old.held ≤ 2 ^ 47 }
    requires countable { meter.old.refused < 2 ^ 64 - 1 }
    requires within { part.old.kept ≤ length kept.old }
    ensures answers { AnswersRun call.entry.task.profile tables.now call.entry.limits
        call.entry.task.to call.entry.part.last call.entry.part.bytes.now result
        (record { part = part.old; kept = kept.old; room = room.old; answer = answer.old })
        (record { part = part.new; kept = kept.new; room = room.new; answer = answer.new }) }
    ensures memory { HoldsAtMost (room_bound call.entry.limits call.entry.task.to (length room.old))
        meter.old meter.new }
    ensures counted { result ≢ 2 → meter.new.refused ≡ meter.old.refused }
{
    if room.len() > MOST_ROOM {
        return NO_OUTPUT_MEMORY;
    }
    let Some(output) = Bounded::new(meter, alloc, room.len()) else {
        return NO_MEMORY;
    };
    let len = part.kept as usize;
    let (outcome, output) = run_part_within(meter, tables, call, &kept[..len], output);
    match outcome {
        Ok(taken) => {
            let status = give(taken, &output, part, kept, room, answer);
            output.release(meter);
            status
        }
        Err(Fault::Refused(reason, place)) => {
            refuse(reason, place, answer);
            leave(&output, room, answer);
            output.release(meter);
            REFUSED
        }
        Err(Fault::Memory | Fault::ReadFault) => {
            output.release(meter);
            NO_MEMORY
        }
        Err(Fault::InputLimit) => {
            output.release(meter);
            INPUT_LIMIT
        }
        Err(Fault::WriteFault) => {
            output.release(meter);
            NO_OUTPUT_MEMORY
        }
    }
}

/// A part of a stream behind what is kept of the parts before it, run as `run_part` does. What is kept
/// then stands at the front of its room, and the library keeps nothing.
#[unsafe(no_mangle)]
pub extern "C" fn cozgelt_part(
    alloc: Global,
    limits: &CozgeltLimits,
    loaded: &mut CozgeltCatalog,
    part: &mut CozgeltPart,
    bytes: &[u8],
    kept: &mut [u8],
    room: &mut [u8],
    answer: &mut CozgeltAnswer,
) -> u32
    ensures answers { AnswersPart limits.now loaded.old.tables bytes.now result
        (record { part = part.old; kept = kept.old; room = room.old; answer = answer.old })
        (record { part = part.new; kept = kept.new; room = room.new; answer = answer.new }) }
    ensures kept { loaded.new.tables ≡ loaded.old.tables }
{
    let Some(call) = asked(limits, part, bytes, kept.len(), answer) else {
        return INVALID;
    };
    let mut meter = Meter::new(alloc);
    match loaded.take(alloc) {
        None => {
            let none = Catalog::new(&meter);
            let status = run_one(alloc, &mut meter, &none, call, part, kept, room, answer);
            none.release(&mut meter);
            status
        }
        Some(tables) => {
            let status = run_one(alloc, &mut meter, &tables, call, part, kept, room, answer);
            loaded.put(alloc, tables);
            status
        }
    }
}
