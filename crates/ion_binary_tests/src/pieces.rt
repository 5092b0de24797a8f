//! A device that gives its bytes in pieces.

use std::io;
use std::io::Read;

/// A reader that gives at most so many bytes at its next read and at most so many at each later
/// one, and that fails at the read before which it was read so often.
#[derive(Clone, Copy, Drop)]
pub struct Pieces<'a> {
    /// The bytes that it has not given.
    pub left: &'a [u8],
    /// How often it was read.
    pub reads: u32,
    /// How many bytes the next read gives at most.
    pub next: usize,
    /// And each later one.
    pub later: usize,
    /// How many reads come before the one that fails.
    pub sound: u32,
}

/// The bytes in pieces of these sizes: the first, and each later one.
pub fn in_pieces(left: &[u8], next: usize, later: usize) -> Pieces<'_> {
    Pieces {
        left,
        reads: 0,
        next,
        later,
        sound: u32::MAX,
    }
}

/// The bytes whole.
pub fn whole(bytes: &[u8]) -> Pieces<'_> {
    in_pieces(bytes, bytes.len(), bytes.len())
}

impl Read for Pieces<'_> {
    fn read(&mut self, into: &mut [u8]) -> io::Result<usize> {
        let before = self.reads;
        self.reads = before.saturating_add(1);
        if before == self.sound {
            return Err(io::ErrorKind::Other.into());
        }
        let most = self.next.min(into.len());
        self.next = self.later;
        self.left.read(&mut into[..most])
    }
}
