//! What stands between the program and the streams of the system.

ghost use Rattle.std.specs.Prelude.{◌≤◌, length};

use crate::lines::escape;
use std::alloc::Global;
use std::cell::Cell;
use std::io;
use std::io::{ErrorKind, Read, Write};

/// A reader or a writer whose calls are made again where a signal interrupts them.
#[derive(Drop)]
pub struct Retried<D> {
    device: D,
}

impl<D> Retried<D> {
    /// This reader or writer.
    pub fn new(device: D) -> Retried<D> {
        Retried { device }
    }
}

impl<D: Read> Read for Retried<D> {
    // A `for` has a measure, which a loop that signals can keep up has not.
    fn read(&mut self, into: &mut [u8]) -> io::Result<usize> {
        for _ in 0..u64::MAX {
            match self.device.read(into) {
                Ok(count) => return Ok(count),
                Err(error) => {
                    if error.kind() != ErrorKind::Interrupted {
                        return Err(error);
                    }
                }
            }
        }
        self.device.read(into)
    }
}

impl<D: Write> Write for Retried<D> {
    fn write(&mut self, bytes: &[u8]) -> io::Result<usize> {
        for _ in 0..u64::MAX {
            match self.device.write(bytes) {
                Ok(count) => return Ok(count),
                Err(error) => {
                    if error.kind() != ErrorKind::Interrupted {
                        return Err(error);
                    }
                }
            }
        }
        self.device.write(bytes)
    }

    fn flush(&mut self) -> io::Result<()> {
        self.device.flush()
    }
}

/// A writer to which control characters, but for ends of lines, go by their escapes, as `\x1b`,
/// where it has lines with names: on a terminal they would be followed. Names and wrong words come
/// without them; this keeps them from all else. Such a line is held until its end, since what other
/// processes write at the same time would stand between its parts.
#[derive(Drop)]
pub struct Escaped<W> {
    writer: W,
    has_names: bool,
    held: Vec<u8>,
}

impl<W> Escaped<W> {
    /// This writer, which takes memory for a line from this allocator.
    pub fn new(alloc: Global, writer: W, has_names: bool) -> Escaped<W> {
        Escaped {
            writer,
            has_names,
            held: Vec::new(alloc),
        }
    }
}

/// How many bytes the control character takes that these begin with, if they do. The end of a line
/// is none here.
fn control_length(bytes: &[u8]) -> usize
    ensures { result ≤ length bytes.now }
{
    match bytes {
        [b'\n', ..] => 0,
        [0xC2, 0x80..=0x9F, ..] => 2,
        [byte, ..] if byte.is_ascii_control() => 1,
        _ => 0,
    }
}

/// How many bytes go as they are before the first that does not.
fn plain_length(bytes: &[u8]) -> usize
    ensures { result ≤ length bytes.now }
{
    for at in 0..bytes.len() {
        if control_length(&bytes[at..]) > 0 {
            return at;
        }
    }
    bytes.len()
}

impl<W: Write> Escaped<W> {
    // Writes what is held.
    fn put_held(&mut self) -> io::Result<()> {
        let done = self.writer.write_all(self.held.as_slice());
        self.held.clear();
        done
    }

    // Holds a part of a line, or writes it where there is no memory for it.
    fn hold(&mut self, part: &[u8]) -> io::Result<()> {
        if self.held.extend_from_slice(part).is_err() {
            self.put_held()?;
            self.writer.write_all(part)?;
        }
        Ok(())
    }
}

impl<W: Write> Write for Escaped<W> {
    fn write(&mut self, bytes: &[u8]) -> io::Result<usize> {
        if !self.has_names {
            return self.writer.write(bytes);
        }
        let plain = plain_length(bytes);
        if plain > 0 || bytes.is_empty() {
            self.hold(&bytes[..plain])?;
            if bytes[..plain].ends_with(b"\n") {
                self.put_held()?;
            }
            return Ok(plain);
        }
        let length = control_length(bytes);
        for byte in &bytes[..length] {
            self.hold(escape(*byte).as_slice())?;
        }
        Ok(length)
    }

    fn flush(&mut self) -> io::Result<()> {
        self.put_held()?;
        self.writer.flush()
    }
}

/// The output on a terminal, of which it is kept whether its last line is open.
#[derive(Drop)]
pub struct Lines<'a, W> {
    writer: W,
    is_open: &'a Cell<bool>,
}

impl<'a, W> Lines<'a, W> {
    /// This writer, which says there whether its last line is open.
    pub fn new(writer: W, is_open: &'a Cell<bool>) -> Lines<'a, W> {
        Lines { writer, is_open }
    }
}

impl<'a, W: Write> Write for Lines<'a, W> {
    fn write(&mut self, bytes: &[u8]) -> io::Result<usize> {
        let count = self.writer.write(bytes)?;
        if count > 0 {
            self.is_open.set(bytes.get(count - 1) != Some(&b'\n'));
        }
        Ok(count)
    }

    fn flush(&mut self) -> io::Result<()> {
        self.writer.flush()
    }
}

/// Messages, which begin a line of their own where the output on the same terminal left one open.
#[derive(Drop)]
pub struct OwnLine<'a, W> {
    writer: W,
    is_open: Option<&'a Cell<bool>>,
}

impl<'a, W> OwnLine<'a, W> {
    /// This writer, and where it stands whether the output's last line is open, if both are terminals.
    pub fn new(writer: W, is_open: Option<&'a Cell<bool>>) -> OwnLine<'a, W> {
        OwnLine { writer, is_open }
    }
}

impl<'a, W: Write> Write for OwnLine<'a, W> {
    fn write(&mut self, bytes: &[u8]) -> io::Result<usize> {
        if let Some(is_open) = self.is_open {
            if is_open.replace(false) {
                self.writer.write_all(b"\n")?;
            }
        }
        self.writer.write(bytes)
    }

    fn flush(&mut self) -> io::Result<()> {
        self.writer.flush()
    }
}
