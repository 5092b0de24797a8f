//! The output of a call: kept while it may fit into the caller's room, and only counted beyond.
ghost use Rattle.std.specs.Prelude.{◌≡◌, ◌⊎◌, ◌+◌, ◌-◌, ◌^◌, ◌<◌, ◌≤◌, [], ◌∷◌, ◌++◌, length, drop, true};
ghost use Rattle.std.specs.Prelude.{vec_capacity, IfSome, MatchOption};
ghost use Rattle.ion_meter.specs.Counts.{Grows, Shrinks, IsRefused};

use crate::written::Written;
use ion_meter::device::{Broken, Output};
use ion_meter::meter::Meter;
use ion_meter::table::Table;
use std::alloc::Global;
use std::marker::Model;

// The first growth of a buffer: a window's length.
const LEAST: usize = 4096;

/// An output in memory that keeps at most so many bytes. What is put past them is counted, and
/// then none is kept.
///
/// The meter counts all that it may take from its making to its release, as the one entry of a
/// table: from outside `ion_meter` nothing else moves a meter. A write fails where there is no
/// memory, and where the count would pass 2^64 - 1.
///
/// What is kept stands in two buffers. One that grows may be copied, and so stands beside the longer
/// one for a moment: the first grows while both together are not too long, and what it leaves of the
/// size is taken for the second, which never grows.
#[derive(Drop)]
pub(crate) struct Bounded {
    alloc: Global,
    charge: Table<(), Global>,
    front: Vec<u8>,
    rest: Vec<u8>,
    most: usize,
    count: u64,
    failures: u64,
    put: Written,
}

impl Model for Bounded {
    ghost use Rattle.std.specs.Prelude.{◌+◌, ◌++◌, vec_capacity};
    ghost use Rattle.ion_meter.specs.Entries.{cost_of};
    ghost use Rattle.cozgelt_c.specs.Memory.{Filling, IsBounded};

    ghost Value = { Filling };

    ghost view = { λ b. record { put = b.put.bytes; most = b.most; failures = b.failures } };

    ghost invariant = { λ b. IsBounded (record { put = b.put.bytes; most = b.most; failures = b.failures })
        b.count (b.front.items ++ b.rest.items) (vec_capacity b.front + vec_capacity b.rest)
        (cost_of b.charge) };
}

impl Bounded {
    /// One that keeps at most so many bytes, if the meter can count them. For these it takes no memory
    /// yet.
    pub(crate) fn new(meter: &mut Meter<Global>, alloc: Global, most: usize) -> Option<Bounded>
        requires room { meter.old.held + most < 2 ^ 63 }
        requires countable { meter.old.refused < 2 ^ 64 - 1 }
        ensures empty { IfSome result (λ b. b ≡ record { put = []; most = most; failures = 0 }) }
        ensures cost { MatchOption result (IsRefused meter.old meter.new)
            (λ _. Grows meter.old meter.new most) }
    {
        let mut charge = Table::new(meter, most as u64);
        if charge.push(meter, ()).is_err() {
            return None;
        }
        Some(Bounded {
            alloc,
            charge,
            front: Vec::new(alloc),
            rest: Vec::new(alloc),
            most,
            count: 0,
            failures: 0,
            put: Written::new(),
        })
    }

    /// How many bytes were put.
    pub(crate) fn len(&self) -> u64
        ensures { result ≡ length self.now.put }
    {
        self.count
    }

    /// Copies all that was put to the front of the room, where it was kept.
    pub(crate) fn copy_to(&self, room: &mut [u8])
        requires well { self.now.failures ≡ 0 }
        requires kept { length self.now.put ≤ self.now.most }
        requires fits { length self.now.put ≤ length room.old }
        ensures { room.new ≡ self.now.put ++ drop (length self.now.put) room.old }
    {
        copy_both(room, self.front.as_slice(), self.rest.as_slice());
    }

    /// Gives all back.
    pub(crate) fn release(self, meter: &mut Meter<Global>)
        requires { self.most ≤ meter.old.held }
        ensures { Shrinks meter.old meter.new self.most }
    {
        let Bounded {
            alloc: _,
            charge,
            front: _,
            rest: _,
            most: _,
            count: _,
            failures: _,
            put: _,
        } = self;
        charge.release(meter);
    }
}

impl Output for Bounded {
    // The size stands before what was put. So a run, which says what is written after what was there,
    // says of the device that it hands back which size that has.
    ghost written = { λ b. b.most ∷ b.put };

    ghost failure_count = { λ b. b.failures };

    ghost observable = { λ _. Unit {0} };

    fn write(&mut self, bytes: &[u8]) -> Result<usize, Broken> {
        let n = bytes.len() as u64;
        if n > u64::MAX - self.count {
            self.failures += 1;
            return Err(Broken);
        }
        let all = self.count + n;
        if !keep(
            &mut self.front,
            &mut self.rest,
            self.alloc,
            self.most,
            all,
            bytes,
        ) {
            self.failures += 1;
            return Err(Broken);
        }
        self.count = all;
        self.put = Written::then(&self.put, bytes);
        Ok(bytes.len())
    }

    fn failures(&self) -> u64 {
        self.failures
    }
}

/// Copies one slice and then the other to the front of the room.
fn copy_both(room: &mut [u8], first: &[u8], second: &[u8])
    requires { length first.now + length second.now ≤ length room.old }
    ensures { room.new ≡ (first.now ++ second.now)
        ++ drop (length (first.now ++ second.now)) room.old }
{
    let at = first.len();
    let end = at + second.len();
    room[..at].copy_from_slice(first);
    room[at..end].copy_from_slice(second);
}

/// Adds bytes to those that are kept, where all that was put, these too, is not too much; else it
/// keeps none, and gives their memory back. It answers false where there is no memory.
#[tactic(auto, using(crate::proofs::Kept::in_two))]
fn keep(
    front: &mut Vec<u8>,
    rest: &mut Vec<u8>,
    alloc: Global,
    most: usize,
    all: u64,
    bytes: &[u8],
) -> bool
    requires { vec_capacity front.old + vec_capacity rest.old ≤ most }
    ensures within { vec_capacity front.new + vec_capacity rest.new ≤ most }
    ensures keeps { result ≡ true → all ≤ most
        → front.new.items ++ rest.new.items ≡ (front.old.items ++ rest.old.items) ++ bytes.now }
{
    if all > most as u64 {
        *front = Vec::new(alloc);
        *rest = Vec::new(alloc);
        return true;
    }
    let n = make_room(front, rest, most, bytes.len());
    let held = front.capacity();
    if !append(front, alloc, held, &bytes[..n]) {
        return false;
    }
    append(rest, alloc, most - held, &bytes[n..])
}

/// Lets the first buffer grow for so many bytes, if it may. It answers how many of them go into that:
/// none once there is a second one.
fn make_room(front: &mut Vec<u8>, rest: &Vec<u8>, most: usize, count: usize) -> usize
    requires { vec_capacity front.old + vec_capacity rest.now ≤ most }
    ensures within { vec_capacity front.new + vec_capacity rest.now ≤ most }
    ensures items { front.new.items ≡ front.old.items }
    ensures count { result ≤ count }
    ensures order { (result ≡ 0) ⊎ (rest.now.items ≡ []) }
{
    if rest.capacity() > 0 {
        return 0;
    }
    grow(front, most, count);
    count.min(front.capacity() - front.len())
}

/// Gives a buffer room for so many more bytes, and more, if the longer buffer and the one that it has
/// now are together not too long, and there is memory.
fn grow(front: &mut Vec<u8>, most: usize, count: usize)
    requires { vec_capacity front.old ≤ most }
    ensures within { vec_capacity front.new ≤ most }
    ensures items { front.new.items ≡ front.old.items }
{
    let held = front.capacity();
    let len = front.len();
    if count <= held - len {
        return;
    }
    let more = count.max(held).max(LEAST);
    let free = most - held;
    if free < len {
        return;
    }
    if free - len < more {
        return;
    }
    // Where there is no memory, all of it is asked for the second buffer.
    let _ = front.try_reserve_exact(more);
}

/// Adds bytes to a buffer of at most this capacity. It answers false where there is no memory, or they
/// do not fit.
fn append(kept: &mut Vec<u8>, alloc: Global, most: usize, bytes: &[u8]) -> bool
    requires { vec_capacity kept.old ≤ most }
    ensures within { vec_capacity kept.new ≤ most }
    ensures adds { result ≡ true → kept.new.items ≡ kept.old.items ++ bytes.now }
{
    if bytes.is_empty() {
        return true;
    }
    let room = most - kept.len();
    if bytes.len() > room {
        return false;
    }
    if kept.try_reserve_exact(room).is_err() {
        return false;
    }
    let is_added = kept.extend_from_slice(bytes).is_ok();
    // No contract of std says that a `Vec` with room for what is added keeps its capacity.
    if kept.capacity() > most {
        *kept = Vec::new(alloc);
        return false;
    }
    is_added
}
