//! A device that gives its bytes in pieces.

use std::io;
use std::io::Read;

/// A reader that gives at most so many bytes at its first read and at most so many at each later
/// one, and that fails once it has been read so often, where there is a count to that.
#[derive(Clone, Copy, Drop)]
pub struct Pieces<'a> {
    // The bytes that it has not given.
    left: &'a [u8],
    // How often it was read.
    reads: u32,
    first: usize,
    later: usize,
    /// After how many reads it fails.
    pub fails_at: Option<u32>,
}

impl<'a> Pieces<'a> {
    /// The bytes in pieces, the first of which has one length and the later ones another.
    pub fn new(left: &'a [u8], first: usize, later: usize) -> Pieces<'a> {
        Pieces {
            left,
            reads: 0,
            first,
            later,
            fails_at: None,
        }
    }
}

impl Read for Pieces<'_> {
    fn read(&mut self, into: &mut [u8]) -> io::Result<usize> {
        let fails = self.fails_at == Some(self.reads);
        let most = if self.reads == 0 {
            self.first
        } else {
            self.later
        };
        self.reads = self.reads.saturating_add(1);
        if fails {
            return Err(io::ErrorKind::Other.into());
        }
        let n = self.left.len().min(most).min(into.len());
        into[..n].copy_from_slice(&self.left[..n]);
        self.left = &self.left[n..];
        Ok(n)
    }
}
