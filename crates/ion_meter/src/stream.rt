//! Devices made of std's readers and writers.
ghost use Rattle.std.specs.Prelude.{◌≡◌, [], IsSome, unwrap_or};
ghost use Rattle.ion_meter.specs.Devices.{Counted};

use crate::device::{Broken, Input, Output};
use std::io::{Read, Write};
use std::marker::Model;

/// A reader as an input. Its bytes are observable exactly where the reader's are: where every
/// value of it says what is left to read.
#[derive(Drop)]
pub struct FromRead<R: Read> {
    reader: R,
    failures: u64,
}

impl<R: Read> Model for FromRead<R> {
    ghost use Rattle.ion_meter.specs.Devices.{Counted};

    ghost Value = { Counted R };

    ghost view = { λ d. record { inner = d.reader; failures = d.failures } };
}

impl<R: Read> FromRead<R> {
    /// This reader as an input that has not failed.
    pub fn new(reader: R) -> FromRead<R>
        ensures { result ≡ record { inner = reader; failures = 0 } }
    {
        FromRead {
            reader,
            failures: 0,
        }
    }

    /// The reader, handed out.
    pub fn into_inner(self) -> R
        ensures { result ≡ self.inner }
    {
        let FromRead {
            reader,
            failures: _,
        } = self;
        reader
    }
}

impl<R: Read> Input for FromRead<R> {
    ghost rest = { λ d. unwrap_or (R.remaining d.inner) [] };

    ghost failure_count = { λ d. d.failures };

    ghost observable = { λ _. (r : R) → IsSome (R.remaining r) };

    ghost yields = { λ _ _ _. Unit {0} };

    fn read(&mut self, into: &mut [u8]) -> Result<usize, Broken> {
        match self.reader.read(into) {
            Ok(n) => Ok(n),
            Err(_) => {
                self.failures += 1;
                Err(Broken)
            }
        }
    }

    fn failures(&self) -> u64 {
        self.failures
    }
}

/// A writer as an output. Its bytes are observable exactly where the writer's are: where every
/// value of it says what was written.
#[derive(Drop)]
pub struct ToWrite<W: Write> {
    writer: W,
    failures: u64,
}

impl<W: Write> Model for ToWrite<W> {
    ghost use Rattle.ion_meter.specs.Devices.{Counted};

    ghost Value = { Counted W };

    ghost view = { λ d. record { inner = d.writer; failures = d.failures } };
}

impl<W: Write> ToWrite<W> {
    /// This writer as an output that has not failed.
    pub fn new(writer: W) -> ToWrite<W>
        ensures { result ≡ record { inner = writer; failures = 0 } }
    {
        ToWrite {
            writer,
            failures: 0,
        }
    }

    /// The writer, handed out.
    pub fn into_inner(self) -> W
        ensures { result ≡ self.inner }
    {
        let ToWrite {
            writer,
            failures: _,
        } = self;
        writer
    }
}

impl<W: Write> Output for ToWrite<W> {
    ghost written = { λ d. unwrap_or (W.contents d.inner) [] };

    ghost failure_count = { λ d. d.failures };

    ghost observable = { λ _. (w : W) → IsSome (W.contents w) };

    fn write(&mut self, bytes: &[u8]) -> Result<usize, Broken> {
        match self.writer.write(bytes) {
            Ok(n) if n > 0 || bytes.is_empty() => Ok(n),
            Ok(n) => {
                self.failures += 1;
                Ok(n)
            }
            Err(_) => {
                self.failures += 1;
                Err(Broken)
            }
        }
    }

    fn failures(&self) -> u64 {
        self.failures
    }
}
