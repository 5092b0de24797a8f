//! Devices in memory, and runs over them.
ghost use Rattle.std.specs.Prelude.{◌≤◌, length};

use super::same::same;
use ion_meter::fault::Fault;
use ion_meter::limits::Limits;
use ion_meter::meter::Meter;
use ion_meter::stream::{FromRead, ToWrite};
use ion_symbols::catalog::Catalog;
use ion_transcode::run::{bound, run};
use ion_transcode::to::{Form, Summary, To};
use std::alloc::Global;
use std::cell::Cell;
use std::io;
use std::io::{Read, Write};
use std::process::Abort;

/// A reader that gives its first bytes, then others so many times, then its last ones, at most so
/// many bytes a read, and that then ends or fails.
#[derive(Clone, Copy, Drop)]
pub struct Giving<'a> {
    /// The bytes that it has not given.
    pub left: &'a [u8],
    /// The bytes that it gives after these.
    pub again: &'a [u8],
    /// How often it gives them.
    pub times: u32,
    /// The bytes that it gives after all of these.
    pub last: &'a [u8],
    /// The most that it gives a read.
    pub most: usize,
    /// Whether it fails where its bytes end.
    pub fails: bool,
}

impl Read for Giving<'_> {
    fn read(&mut self, into: &mut [u8]) -> io::Result<usize> {
        if self.left.is_empty() && self.times > 0 {
            self.times -= 1;
            self.left = self.again;
        }
        if self.left.is_empty() {
            self.left = self.last;
            self.last = &[];
        }
        if self.left.is_empty() && self.fails {
            return Err(io::ErrorKind::Other.into());
        }
        let n = self.left.len().min(self.most).min(into.len());
        into[..n].copy_from_slice(&self.left[..n]);
        self.left = &self.left[n..];
        Ok(n)
    }
}

impl<'a> Giving<'a> {
    /// A reader that gives these bytes, at most so many a read.
    pub fn all(left: &'a [u8], most: usize) -> Giving<'a> {
        Giving {
            left,
            again: &[],
            times: 0,
            last: &[],
            most,
            fails: false,
        }
    }

    /// A reader that gives these bytes in two pieces, of which the first has so many.
    pub fn cut(bytes: &'a [u8], at: usize) -> Giving<'a>
        requires { at ≤ length bytes.now }
    {
        Giving {
            last: &bytes[at..],
            ..Giving::all(&bytes[..at], bytes.len())
        }
    }
}

/// A reader that gives a piece a read, and fails where not just so many bytes were written before it
/// as stand beside the piece. It ends after them.
#[derive(Drop)]
pub struct Waiting<'a> {
    /// The pieces that it has not given.
    pub pieces: &'a [(&'a [u8], usize)],
    /// How many bytes were written.
    pub written: &'a Cell<usize>,
}

impl Read for Waiting<'_> {
    fn read(&mut self, into: &mut [u8]) -> io::Result<usize> {
        let [(piece, written), others @ ..] = self.pieces else {
            return Ok(0);
        };
        if self.written.get() != *written {
            return Err(io::ErrorKind::Other.into());
        }
        let n = piece.len().min(into.len());
        into[..n].copy_from_slice(&piece[..n]);
        self.pieces = others;
        Ok(n)
    }
}

/// A writer that keeps the bytes that it takes, and tells a reader how many they are.
#[derive(Drop)]
pub struct Telling<'a> {
    /// The bytes that it has taken.
    pub taken: Vec<u8>,
    /// How many they are.
    pub written: &'a Cell<usize>,
}

impl Write for Telling<'_> {
    fn write(&mut self, bytes: &[u8]) -> io::Result<usize> {
        if self.taken.extend_from_slice(bytes).is_err() {
            return Err(io::ErrorKind::Other.into());
        }
        self.written.set(self.taken.len());
        Ok(bytes.len())
    }

    fn flush(&mut self) -> io::Result<()> {
        Ok(())
    }
}

/// A writer that takes a byte a call and so many in all, and fails from then on.
#[derive(Drop)]
pub struct Taking {
    /// The bytes that it has taken.
    pub taken: Vec<u8>,
    /// How many it takes yet.
    pub room: usize,
}

impl Write for Taking {
    fn write(&mut self, bytes: &[u8]) -> io::Result<usize> {
        let n = bytes.len().min(self.room).min(1);
        if n == 0 || self.taken.extend_from_slice(&bytes[..n]).is_err() {
            return Err(io::ErrorKind::Other.into());
        }
        self.room -= n;
        Ok(n)
    }

    fn flush(&mut self) -> io::Result<()> {
        Ok(())
    }
}

/// What a run answers, and the writer. All memory has to be given back, and no more be held at any
/// moment than the bound.
pub fn answer<R: Read + Drop, W: Write + Drop>(
    rt: &impl Abort,
    alloc: Global,
    limits: Limits,
    to: To,
    reader: R,
    writer: W,
) -> (Result<Summary, Fault>, W) {
    let catalog = Catalog::new(&Meter::new(alloc));
    answer_by(rt, alloc, &catalog, limits, to, reader, writer)
}

/// What a run by a catalogue answers, and the writer.
pub fn answer_by<R: Read + Drop, W: Write + Drop>(
    rt: &impl Abort,
    alloc: Global,
    catalog: &Catalog<Global>,
    limits: Limits,
    to: To,
    reader: R,
    writer: W,
) -> (Result<Summary, Fault>, W) {
    assert!(rt; limits.check());
    let mut meter = Meter::new(alloc);
    let input = FromRead::new(reader);
    let output = ToWrite::new(writer);
    let (outcome, _input, output) = run(&mut meter, catalog, limits, to, input, output);
    same(rt, meter.held(), 0);
    let form = outcome.map_or(Form::Text, |summary| summary.form);
    assert!(rt; meter.peak() <= bound(limits, form, to));
    (outcome, output.into_inner())
}
