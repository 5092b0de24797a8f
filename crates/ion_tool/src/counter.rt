//! An input whose lines are counted as it is read.
ghost use Rattle.std.specs.Prelude.{◌≡◌, ◌≢◌, ◌+◌, ◌-◌, ◌^◌, ◌<◌, ◌≤◌, true, false, Err, IsSome, OnOk, IfOk, IfErr, IfSome, MatchOption, MatchResult};
ghost use Rattle.ion_meter.specs.Counts.{Shrinks};
ghost use Rattle.ion_meter.specs.Devices.{IsReadOn};
ghost use Rattle.ion_meter.specs.declared.fault.Fault.TheVariants.{ReadFault};
ghost use Rattle.ion_value.specs.Shares.{Charges};
ghost use Rattle.ion_tool.specs.Counting.{counter_input, CountsOn, IsLocated, IsReached, Places, StartsCount};
ghost use Rattle.ion_tool.specs.Serving.{marks_cost, IsWanted};

use crate::marks::{LineMarks, Position};
use ion_meter::device::{Broken, Input};
use ion_meter::fault::Fault;
use ion_meter::meter::Meter;
use ion_transcode::to::Summary;
use std::alloc::Global;
use std::marker::Model;

/// An input, of which the lines are counted as it is read if that was asked for.
#[derive(Drop)]
pub struct LineCounter<I: Input> {
    device: I,
    marks: Option<LineMarks>,
}

impl<I: Input> Model for LineCounter<I> {
    ghost use Rattle.ion_tool.specs.Counting.{Counting};

    ghost Value = { Counting I };

    ghost view = { λ c. record { device = c.device; marks = c.marks } };
}

impl<I: Input> LineCounter<I> {
    /// This input, with its lines counted or not, or the input back where there is no memory for that.
    pub fn new(meter: &mut Meter<Global>, lines: bool, device: I) -> Result<LineCounter<I>, I>
        requires room { meter.old.held ≤ 2 ^ 48 }
        requires countable { meter.old.refused < 2 ^ 64 - 1 }
        ensures ok { IfOk result (λ c. (c.device ≡ device) × StartsCount lines c.marks) }
        ensures err { IfErr result (λ d. d ≡ device) }
        ensures charges { MatchResult result
            (λ _. Charges meter.old meter.new 0 (marks_cost lines) (marks_cost lines))
            (λ _. Charges meter.old meter.new 0 0 (marks_cost lines)) }
        ensures refused { IfOk result (λ _. meter.new.refused ≡ meter.old.refused) }
        ensures wanted { IfErr result (λ _. IsWanted lines meter.old meter.new) }
        ensures room { IfOk result (λ _. meter.new.held ≤ 2 ^ 48) }
    {
        if !lines {
            return Ok(LineCounter {
                device,
                marks: None,
            });
        }
        match LineMarks::new(meter) {
            Some(marks) => Ok(LineCounter {
                device,
                marks: Some(marks),
            }),
            None => Err(device),
        }
    }

    /// Whether bytes are counted, and fewer than so many were.
    fn is_short_of(&self, place: u64) -> bool
        ensures counted { result ≡ true → IsSome self.now.marks }
        ensures yes { result ≡ true → IfSome self.now.marks (λ m. m.count < place) }
        ensures no { result ≡ false → IfSome self.now.marks (λ m. place ≤ m.count) }
    {
        match &self.marks {
            Some(marks) => marks.count() < place,
            None => false,
        }
    }

    /// Reads on until so many bytes were counted, or the input has ended.
    fn read_to(&mut self, place: u64) -> Result<(), Broken>
        requires { I.failure_count self.old.device < 2 ^ 64 - 1 }
        ensures reads { IsReadOn (counter_input I.Input) self.old self.new }
        ensures count { MatchResult result
            (λ _. I.failure_count self.new.device ≡ I.failure_count self.old.device)
            (λ _. I.failure_count self.new.device ≡ I.failure_count self.old.device + 1) }
        ensures reached { OnOk result (IsReached I.Input place self.new.device self.new.marks) }
    {
        let mut into = [0; 512];
        while self.is_short_of(place) {
            match self.read(&mut into) {
                Ok(0) => return Ok(()),
                Ok(_) => {}
                Err(Broken) => return Err(Broken),
            }
        }
        Ok(())
    }

    /// The position of a place, where it is known, after the input was read so far. Of the first byte
    /// it is known whether the stream is a text.
    fn locate(&mut self, place: u64) -> Result<Option<Position>, Broken>
        requires { I.failure_count self.old.device < 2 ^ 64 - 1 }
        ensures reads { IsReadOn (counter_input I.Input) self.old self.new }
        ensures count { MatchResult result
            (λ _. I.failure_count self.new.device ≡ I.failure_count self.old.device)
            (λ _. I.failure_count self.new.device ≡ I.failure_count self.old.device + 1) }
        ensures found { IfOk result (IsLocated I.Input place self.new) }
    {
        match self.read_to(place.max(1)) {
            Ok(()) => {}
            Err(Broken) => return Err(Broken),
        }
        match &self.marks {
            Some(marks) => Ok(marks.find(place)),
            None => Ok(None),
        }
    }

    /// An answer of a run over this input, and the position of the place that it blames, where it is
    /// known. An input that has to be read further for that and fails is to blame itself.
    pub fn place(
        &mut self,
        answer: Result<Summary, Fault>,
    ) -> (Result<Summary, Fault>, Option<Position>)
        requires { answer ≢ Err ReadFault → I.failure_count self.old.device < 2 ^ 64 - 1 }
        ensures { Places I.Input self.old self.new answer result.0 result.1 }
    {
        let Err(Fault::Refused(_, place)) = answer else {
            return (answer, None);
        };
        match self.locate(place) {
            Ok(position) => (answer, position),
            Err(Broken) => (Err(Fault::ReadFault), None),
        }
    }

    /// The input, handed out.
    pub fn release(self, meter: &mut Meter<Global>) -> I
        requires { IfSome self.marks (λ _. 524288 ≤ meter.old.held) }
        ensures device { result ≡ self.device }
        ensures cost { MatchOption self.marks (meter.new ≡ meter.old)
            (λ _. Shrinks meter.old meter.new 524288) }
    {
        let LineCounter { device, marks } = self;
        if let Some(marks) = marks {
            marks.release(meter);
        }
        device
    }
}

impl<I: Input> Input for LineCounter<I> {
    ghost rest = { λ c. I.rest c.device };

    ghost failure_count = { λ c. I.failure_count c.device };

    ghost observable = { λ c. I.observable c.device };

    ghost yields = { λ old more new.
        I.yields old.device more new.device × CountsOn old.marks more new.marks };

    fn read(&mut self, into: &mut [u8]) -> Result<usize, Broken> {
        let count = match self.device.read(into) {
            Ok(count) => count,
            Err(Broken) => return Err(Broken),
        };
        if let Some(marks) = &mut self.marks {
            marks.note(&into[..count]);
        }
        Ok(count)
    }

    fn failures(&self) -> u64 {
        self.device.failures()
    }
}
