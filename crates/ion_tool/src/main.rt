//! The command `ion`.
#![tactic(auto)]

ghost use Rattle.std.specs.Prelude.{⊤};

mod act;
mod counter;
mod files;
mod lines;
mod marks;
mod serve;
mod streams;
mod words;

use files::{FileSource, UsedFile};
use ion_meter::fault::Fault;
use ion_meter::meter::Meter;
use ion_meter::stream::{FromRead, ToWrite};
use lines::report;
use serve::{give_usage, serve};
use std::alloc::{AllocError, Global};
use std::cell::Cell;
use std::fs::File;
use std::io::{BufReader, IsTerminal};
use std::process::ExitCode;
use std::rt::Files;
use std::{env, fs, io};
use streams::{Escaped, Lines, OwnLine, Retried};

/// How many bytes are read at a time, where there is memory for so many.
const AHEAD: usize = 65_536;

/// Opens a file of the system.
fn open(rt: &HostRuntime, name: &str) -> io::Result<BufReader<Retried<File>>> {
    let file = Retried::new(fs::open(rt, name)?);
    if let Ok(file) = BufReader::with_capacity(rt.alloc(), AHEAD, file) {
        return Ok(file);
    }
    let file = Retried::new(fs::open(rt, name)?);
    BufReader::with_capacity(rt.alloc(), 0, file)
}

/// The words of the system for an error, where there is memory for them.
fn reason_of(alloc: Global, error: &io::Error) -> Result<String, AllocError> {
    let text = error.to_string(alloc)?;
    match text.as_str().split_once(" (os error ") {
        Some((words, _)) => String::from_str(alloc, words),
        None => Ok(text),
    }
}

/// The files of the system.
#[derive(Drop)]
struct RealFiles {
    rt: HostRuntime,
}

impl FileSource for RealFiles {
    type File = BufReader<Retried<File>>;

    ghost gives = { λ files name found after. ⊤ };

    ghost closes = { λ files file after. ⊤ };

    fn open_named(&mut self, name: &str) -> Result<BufReader<Retried<File>>, String> {
        match open(&self.rt, name) {
            Ok(file) => Ok(file),
            Err(error) => match reason_of(self.rt.alloc(), &error) {
                Ok(reason) => Err(reason),
                Err(AllocError) => Err(String::new(self.rt.alloc())),
            },
        }
    }

    fn close(&mut self, _file: UsedFile<BufReader<Retried<File>>>)
        ensures { ⊤ }
    {}
}

/// Whether the words ask for a count of values, which stands on a line with the file's name.
fn is_check(words: &[String]) -> bool {
    match words {
        [word, ..] => word.as_str() == "check",
        [] => false,
    }
}

fn main(rt: HostRuntime) -> io::Result<ExitCode> {
    let alloc = rt.alloc();
    let input = match BufReader::with_capacity(alloc, AHEAD, Retried::new(rt.stdin())) {
        Ok(input) => FromRead::new(input),
        Err(_) => FromRead::new(BufReader::with_capacity(alloc, 0, Retried::new(rt.stdin()))?),
    };
    let is_open = Cell::new(false);
    let shared = rt.stdout().is_terminal() && rt.stderr().is_terminal();
    let messages = OwnLine::new(Retried::new(rt.stderr()), shared.then_some(&is_open));
    let mut err = ToWrite::new(Escaped::new(alloc, messages, true));
    let words: Option<Vec<String>> = match env::args(&rt) {
        Ok(mut words) => {
            let _program = words.next();
            words.collect(alloc).ok()
        }
        Err(error) if error.kind() == io::ErrorKind::InvalidData => {
            let text = b"error: a word on the command line is not UTF-8\n";
            return Ok(ExitCode::from(give_usage(text, &mut err)));
        }
        Err(_) => None,
    };
    let Some(words) = words else {
        return Ok(ExitCode::from(report(Err(Fault::Memory), &mut err)));
    };
    let lines = Lines::new(Retried::new(rt.stdout()), &is_open);
    let out = ToWrite::new(Escaped::new(alloc, lines, is_check(words.as_slice())));
    let mut meter = Meter::new(alloc);
    let mut tables = Meter::new(alloc);
    let mut files = RealFiles { rt };
    let served = serve(
        alloc,
        &mut meter,
        &mut tables,
        words,
        &mut files,
        input,
        out,
        err,
    );
    let (status, _, _, _) = served;
    Ok(ExitCode::from(status))
}
