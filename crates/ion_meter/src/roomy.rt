//! Bytes with room for more.
ghost use Rattle.std.specs.Prelude.{◌≡◌, ◌+◌, ◌-◌, ◌<◌, ◌≤◌, ◌++◌, ◌∷◌, [], length, take, drop, replicate, slice_set, true, false};

use crate::copy::copy;
use crate::meter::Meter;
use std::alloc::Allocator;
use std::marker::Model;

// How many bytes are moved as one block.
const BLOCK: usize = 16;

// For how many bytes room is made at least. Calls that add only where there is room ask for that of whole
// blocks: a buffer that grew to the few bytes of short values would turn each of them away.
const LEAST: usize = 64;

/// Bytes, and after them others that mean nothing. A clause sees the list of the bytes, and how many
/// more there is room for.
#[derive(Drop)]
pub(crate) struct Roomy<A: Allocator + Copy> {
    bytes: Vec<u8, A>,
    len: usize,
}

impl<A: Allocator + Copy> Model for Roomy<A> {
    ghost use Rattle.std.specs.Prelude.{◌-◌, ◌≤◌, length, take};
    ghost use Rattle.ion_meter.specs.Room.{WithRoom};

    ghost Value = { WithRoom };

    ghost view = { λ b. record {
      bytes = take b.len b.bytes.items;
      room = length b.bytes.items - b.len;
    } };

    ghost invariant = { λ b. b.len ≤ length b.bytes.items };
}

impl<A: Allocator + Copy> Roomy<A> {
    /// No bytes, and no room. It takes no memory.
    pub fn new(meter: &Meter<A>) -> Roomy<A>
        ensures { result ≡ record { bytes = []; room = 0 } }
    {
        Roomy {
            bytes: Vec::new(meter.alloc()),
            len: 0,
        }
    }

    /// The bytes.
    #[inline(always)]
    pub fn as_slice(&self) -> &[u8]
        ensures { result.now ≡ self.now.bytes }
    {
        &self.bytes.as_slice()[..self.len]
    }

    /// How many bytes there are.
    #[inline(always)]
    pub fn len(&self) -> usize
        ensures { result ≡ length self.now.bytes }
    {
        self.len
    }

    /// How many more bytes there is room for.
    #[inline(always)]
    pub fn room(&self) -> usize
        ensures { result ≡ self.now.room }
    {
        self.bytes.len() - self.len
    }

    /// Makes room for so many more bytes. It answers false where memory was refused.
    #[inline(always)]
    pub fn make_room(&mut self, count: usize) -> bool
        ensures bytes { self.new.bytes ≡ self.old.bytes }
        ensures room { result ≡ true → count ≤ self.new.room }
        ensures same { result ≡ false → self.new ≡ self.old }
    {
        if count <= self.bytes.len() - self.len {
            return true;
        }
        self.grow(count)
    }

    // Makes room, where there is not enough.
    #[cold]
    #[inline(never)]
    fn grow(&mut self, count: usize) -> bool
        ensures bytes { self.new.bytes ≡ self.old.bytes }
        ensures room { result ≡ true → count ≤ self.new.room }
        ensures same { result ≡ false → self.new ≡ self.old }
    {
        if self.bytes.reserve(count.max(LEAST)).is_err() {
            return false;
        }
        // All of the capacity, so that each byte of it is written once. It takes no memory.
        let capacity = self.bytes.capacity();
        if self.bytes.resize(capacity, 0).is_err() {
            unreachable!();
        }
        true
    }

    /// Puts a byte for which there is room.
    #[inline(always)]
    pub fn put_byte(&mut self, byte: u8)
        requires { 1 ≤ self.old.room }
        ensures { self.new.bytes ≡ self.old.bytes ++ byte ∷ [] }
    {
        self.bytes[self.len] = byte;
        self.len += 1;
    }

    /// Puts bytes for which there is room.
    #[inline(always)]
    pub fn put(&mut self, bytes: &[u8])
        requires { length bytes.now ≤ self.old.room }
        ensures bytes { self.new.bytes ≡ self.old.bytes ++ bytes.now }
        ensures room { self.new.room + length bytes.now ≡ self.old.room }
    {
        let end = self.len + bytes.len();
        copy(&mut self.bytes[self.len..end], bytes);
        self.len = end;
    }

    /// Puts the first `count` of these bytes: there is room for all of them.
    #[inline(always)]
    pub fn put_block(&mut self, block: [u8; 8], count: usize)
        requires room { 8 ≤ self.old.room }
        requires within { count ≤ 8 }
        ensures bytes { self.new.bytes ≡ self.old.bytes ++ take count block }
        ensures room { self.new.room + count ≡ self.old.room }
    {
        let at = self.len;
        write_first(&mut self.bytes, at, block, count);
        self.len = at + count;
    }

    /// Puts so many zeros for which there is room.
    pub fn put_zeros(&mut self, count: usize)
        requires { count ≤ self.old.room }
        ensures bytes { self.new.bytes ≡ self.old.bytes ++ replicate count 0 }
    {
        let end = self.len + count;
        self.bytes[self.len..end].fill(0);
        self.len = end;
    }

    /// Puts these bytes in at a place, counted from 0, for which there is room: what stood from there
    /// on moves once.
    #[inline(always)]
    pub fn put_at(&mut self, place: usize, bytes: &[u8])
        requires within { place ≤ length self.old.bytes }
        requires room { length bytes.now ≤ self.old.room }
        ensures bytes { self.new.bytes
            ≡ take place self.old.bytes ++ (bytes.now ++ drop place self.old.bytes) }
    {
        let end = self.len;
        put_between(&mut self.bytes, place, end, bytes);
        self.len = end + bytes.len();
    }

    /// Moves the bytes from a place up to an end, counted from 0, by a gap that stands after them, and
    /// writes these bytes right before where they come to stand.
    pub fn move_after(&mut self, place: usize, end: usize, gap: usize, bytes: &[u8])
        requires order { place ≤ end }
        requires within { end + gap ≤ length self.old.bytes }
        requires short { length bytes.now ≤ gap }
        ensures { self.new.bytes ≡ take (place + gap - length bytes.now) self.old.bytes
            ++ (bytes.now ++ (take (end - place) (drop place self.old.bytes)
            ++ drop (end + gap) self.old.bytes)) }
    {
        move_up(&mut self.bytes[0..self.len], place, end, gap, bytes);
    }

    /// Writes a byte over the one at a place, counted from 0.
    pub fn set(&mut self, place: usize, byte: u8)
        requires { place < length self.old.bytes }
        ensures { self.new.bytes ≡ slice_set self.old.bytes place byte }
    {
        self.bytes[place] = byte;
    }

    /// Keeps the first `len` bytes.
    #[inline(always)]
    pub fn truncate(&mut self, len: usize)
        ensures { self.new.bytes ≡ take len self.old.bytes }
    {
        if len < self.len {
            self.len = len;
        }
    }
}

// Writes a block from a place on, the first `count` bytes of which are those that mean something.
#[inline(always)]
fn write_first(all: &mut [u8], at: usize, block: [u8; 8], count: usize)
    requires room { at + 8 ≤ length all.old }
    requires within { count ≤ 8 }
    ensures { take (at + count) all.new ≡ take at all.old ++ take count block }
{
    let _count = count;
    all[at..at + 8].copy_from_slice(&block);
}

// Puts bytes in at a place among the first bytes: what stood from there on moves after them.
#[inline(always)]
fn put_between(all: &mut [u8], place: usize, end: usize, bytes: &[u8])
    requires within { place ≤ end }
    requires room { end + length bytes.now ≤ length all.old }
    ensures { take (end + length bytes.now) all.new
        ≡ take place (take end all.old) ++ (bytes.now ++ drop place (take end all.old)) }
{
    let after = place + bytes.len();
    open_gap(all, place, end, after);
    copy(&mut all[place..after], bytes);
}

// Moves the bytes from a place up to an end to a place after: at most 16 of them as a block of as
// many, without a call.
#[inline(always)]
fn open_gap(all: &mut [u8], place: usize, end: usize, after: usize)
    requires order { place ≤ end }
    requires upward { place ≤ after }
    requires room { end + (after - place) ≤ length all.old }
    ensures len { length all.new ≡ length all.old }
    ensures moved { take (end + (after - place)) all.new
        ≡ take after all.old ++ take (end - place) (drop place all.old) }
{
    if end - place <= BLOCK && all.len() - after >= BLOCK {
        let mut moved = [0; BLOCK];
        moved.copy_from_slice(&all[place..place + BLOCK]);
        all[after..after + BLOCK].copy_from_slice(&moved);
        return;
    }
    all.copy_within(place..end, after);
}

// Moves bytes from a place up to an end by a gap after them, and writes these right before them.
fn move_up(all: &mut [u8], place: usize, end: usize, gap: usize, bytes: &[u8])
    requires order { place ≤ end }
    requires within { end + gap ≤ length all.old }
    requires short { length bytes.now ≤ gap }
    ensures { all.new ≡ take (place + gap - length bytes.now) all.old ++ (bytes.now
        ++ (take (end - place) (drop place all.old) ++ drop (end + gap) all.old)) }
{
    let moved = place + gap;
    all.copy_within(place..end, moved);
    all[moved - bytes.len()..moved].copy_from_slice(bytes);
}
