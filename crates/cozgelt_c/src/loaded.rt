//! The calls that load a catalogue once, share and free it, and those that convert with it.
#![tactic(auto)]

ghost use Rattle.std.specs.Prelude.{◌≡◌, ◌≢◌, ◌≤◌, ◌<◌, ◌-◌, ◌^◌, [], length};
ghost use Rattle.std.specs.Arc.{arc_value};
ghost use Rattle.ion_transcode.specs.declared.to.To.TheVariants as to;
ghost use Rattle.cozgelt_c.specs.Calls.{AnswersFrom, AnswersLoaded, Loads, limits_of};
ghost use Rattle.cozgelt_c.specs.Memory.{HoldsAtMost, room_bound};

use crate::handle::CozgeltCatalog;
use crate::{
    ACCEPTED, CozgeltAnswer, CozgeltLimits, INVALID, NO_MEMORY, Task, checked, convert_with, load,
    profile_of,
};
use ion_meter::meter::Meter;
use ion_symbols::catalog::Catalog;
use ion_transcode::to::To;
use std::alloc::Global;
use std::sync::Arc;

/// Puts one more owner of some tables behind a handle, whose former ones are given back.
fn keep(alloc: Global, owner: Arc<Catalog<Global>>, handle: &mut CozgeltCatalog) -> u32
    ensures kept { result ≡ 0 → handle.new.tables ≡ arc_value owner }
    ensures failed { result ≢ 0 → handle.new.tables ≡ handle.old.tables }
    ensures known { result ≢ 0 → result ≡ 2 }
{
    let Ok(owner) = Box::new(alloc, owner) else {
        return NO_MEMORY;
    };
    handle.put(alloc, owner);
    ACCEPTED
}

/// Loads a catalogue, for the calls that are given the handle. Those tables that the handle had are
/// given back.
#[unsafe(no_mangle)]
pub extern "C" fn cozgelt_catalog_load(
    alloc: Global,
    limits: &CozgeltLimits,
    catalog: &[u8],
    loaded: &mut CozgeltCatalog,
    answer: &mut CozgeltAnswer,
) -> u32
    ensures { Loads limits.now catalog.now result loaded.old.tables loaded.new.tables
        answer.old answer.new }
{
    let Some(limits) = checked(limits, answer) else {
        return INVALID;
    };
    let mut meter = Meter::new(alloc);
    match load(&mut meter, limits, catalog, answer) {
        Ok(tables) => match Arc::new(alloc, tables) {
            Ok(owner) => keep(alloc, owner, loaded),
            Err(_) => NO_MEMORY,
        },
        Err(status) => status,
    }
}

/// Lets another handle have the tables of one too, as for another thread. Those that it had are given
/// back.
#[unsafe(no_mangle)]
pub extern "C" fn cozgelt_catalog_share(
    alloc: Global,
    loaded: &mut CozgeltCatalog,
    other: &mut CozgeltCatalog,
) -> u32
    ensures shared { result ≡ 0 → other.new.tables ≡ loaded.old.tables }
    ensures not_shared { result ≢ 0 → other.new.tables ≡ other.old.tables }
    ensures known { result ≢ 0 → result ≡ 2 }
    ensures kept { loaded.new.tables ≡ loaded.old.tables }
{
    match loaded.take(alloc) {
        None => {
            let _former = other.take(alloc);
            ACCEPTED
        }
        Some(owner) => {
            let status = match Arc::try_clone(&owner) {
                Ok(again) => keep(alloc, again, other),
                Err(_) => NO_MEMORY,
            };
            loaded.put(alloc, owner);
            status
        }
    }
}

/// Gives the tables of a handle back; it has none then. What they take is freed with the last handle
/// that has them.
#[unsafe(no_mangle)]
pub extern "C" fn cozgelt_catalog_free(alloc: Global, loaded: &mut CozgeltCatalog)
    ensures { loaded.new.tables ≡ [] }
{
    let _former = loaded.take(alloc);
}

/// Converts a stream, its imports from tables that were loaded before.
fn convert_from(
    alloc: Global,
    meter: &mut Meter<Global>,
    tables: &Catalog<Global>,
    limits: &CozgeltLimits,
    task: Task,
    stream: &[u8],
    room: &mut [u8],
    answer: &mut CozgeltAnswer,
) -> u32
    requires held { meter.old.held ≤ 2 ^ 47 }
    requires countable { meter.old.refused < 2 ^ 64 - 1 }
    ensures answers { AnswersFrom task.profile limits.now task.to tables.now stream.now result
        answer.old answer.new room.old room.new }
    ensures memory { HoldsAtMost (room_bound (limits_of limits.now) task.to (length room.old))
        meter.old meter.new }
{
    let Some(limits) = checked(limits, answer) else {
        return INVALID;
    };
    convert_with(alloc, meter, tables, limits, task, stream, room, answer)
}

/// Converts a stream by the profile that a number names, its imports from the tables of a handle.
fn convert_loaded(
    alloc: Global,
    profile: u32,
    limits: &CozgeltLimits,
    to: To,
    loaded: &mut CozgeltCatalog,
    stream: &[u8],
    room: &mut [u8],
    answer: &mut CozgeltAnswer,
) -> u32
    ensures answers { AnswersLoaded profile limits.now to loaded.old.tables stream.now result
        answer.old answer.new room.old room.new }
    ensures kept { loaded.new.tables ≡ loaded.old.tables }
{
    let Some(profile) = profile_of(profile) else {
        return INVALID;
    };
    let task = Task { profile, to };
    let mut meter = Meter::new(alloc);
    match loaded.take(alloc) {
        None => {
            let none = Catalog::new(&meter);
            let status = convert_from(alloc, &mut meter, &none, limits, task, stream, room, answer);
            none.release(&mut meter);
            status
        }
        Some(tables) => {
            let status = convert_from(
                alloc, &mut meter, &tables, limits, task, stream, room, answer,
            );
            loaded.put(alloc, tables);
            status
        }
    }
}

/// The stream as canonical text, with a catalogue that was loaded.
#[unsafe(no_mangle)]
pub extern "C" fn cozgelt_to_text_loaded(
    alloc: Global,
    profile: u32,
    limits: &CozgeltLimits,
    loaded: &mut CozgeltCatalog,
    stream: &[u8],
    room: &mut [u8],
    answer: &mut CozgeltAnswer,
) -> u32
    ensures answers { AnswersLoaded profile limits.now to.Text loaded.old.tables stream.now result
        answer.old answer.new room.old room.new }
    ensures kept { loaded.new.tables ≡ loaded.old.tables }
{
    let to = To::Text;
    convert_loaded(alloc, profile, limits, to, loaded, stream, room, answer)
}

/// The stream as pretty text, with a catalogue that was loaded.
#[unsafe(no_mangle)]
pub extern "C" fn cozgelt_to_pretty_loaded(
    alloc: Global,
    profile: u32,
    limits: &CozgeltLimits,
    loaded: &mut CozgeltCatalog,
    stream: &[u8],
    room: &mut [u8],
    answer: &mut CozgeltAnswer,
) -> u32
    ensures answers { AnswersLoaded profile limits.now to.Pretty loaded.old.tables stream.now result
        answer.old answer.new room.old room.new }
    ensures kept { loaded.new.tables ≡ loaded.old.tables }
{
    let to = To::Pretty;
    convert_loaded(alloc, profile, limits, to, loaded, stream, room, answer)
}

/// The stream, a text, as canonical binary, with a catalogue that was loaded.
#[unsafe(no_mangle)]
pub extern "C" fn cozgelt_to_binary_loaded(
    alloc: Global,
    profile: u32,
    limits: &CozgeltLimits,
    loaded: &mut CozgeltCatalog,
    stream: &[u8],
    room: &mut [u8],
    answer: &mut CozgeltAnswer,
) -> u32
    ensures answers { AnswersLoaded profile limits.now to.Binary loaded.old.tables stream.now result
        answer.old answer.new room.old room.new }
    ensures kept { loaded.new.tables ≡ loaded.old.tables }
{
    let to = To::Binary;
    convert_loaded(alloc, profile, limits, to, loaded, stream, room, answer)
}

/// The stream, text or binary, as canonical binary, with a catalogue that was loaded.
#[unsafe(no_mangle)]
pub extern "C" fn cozgelt_rewrite_loaded(
    alloc: Global,
    profile: u32,
    limits: &CozgeltLimits,
    loaded: &mut CozgeltCatalog,
    stream: &[u8],
    room: &mut [u8],
    answer: &mut CozgeltAnswer,
) -> u32
    ensures answers { AnswersLoaded profile limits.now to.Rewritten loaded.old.tables stream.now
        result answer.old answer.new room.old room.new }
    ensures kept { loaded.new.tables ≡ loaded.old.tables }
{
    let to = To::Rewritten;
    convert_loaded(alloc, profile, limits, to, loaded, stream, room, answer)
}

/// The stream's verdict alone, with a catalogue that was loaded.
#[unsafe(no_mangle)]
pub extern "C" fn cozgelt_check_loaded(
    alloc: Global,
    profile: u32,
    limits: &CozgeltLimits,
    loaded: &mut CozgeltCatalog,
    stream: &[u8],
    room: &mut [u8],
    answer: &mut CozgeltAnswer,
) -> u32
    ensures answers { AnswersLoaded profile limits.now to.Nothing loaded.old.tables stream.now
        result answer.old answer.new room.old room.new }
    ensures kept { loaded.new.tables ≡ loaded.old.tables }
{
    let to = To::Nothing;
    convert_loaded(alloc, profile, limits, to, loaded, stream, room, answer)
}
