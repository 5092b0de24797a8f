//! A window of 4,096 bytes on an input.
ghost use Rattle.std.specs.Prelude.{◌≡◌, ◌+◌, ◌-◌, ◌^◌, ◌<◌, ◌≤◌, ◌⊎◌, [], length, take, drop, None, Some, Ok, Err, false, true, slice_get, OnOk, OnErr, IfOk, IfErr, IfSome, IfNone, MatchResult};
ghost use Rattle.ion_meter.specs.Counts.{Grows, Shrinks, IsRefused};
ghost use Rattle.ion_meter.specs.Sources.{Reads};
ghost use Rattle.ion_meter.specs.Windows.{left, lent, AreBytes, IsGiven, CanPass, IsPassed, Extends, failures_in};
ghost use Rattle.ion_meter.specs.Limits.{AreChecked};

use crate::device::Input;
use crate::fault::Fault;
use crate::limits::Limits;
use crate::meter::Meter;
use std::alloc::Allocator;
use std::marker::Model;

/// The length of a window, in bytes.
pub const WINDOW: usize = 4096;

/// A window on an input, which gives its bytes in order.
///
/// It holds 4,096 counted bytes from its making to its release. Once it has answered a fault it
/// answers that fault again and reads no more.
#[derive(Drop)]
pub struct Source<I: Input, A: Allocator + Copy> {
    device: I,
    window: Box<[u8; WINDOW], A>,
    // `window[start..end]` was read and not passed over.
    start: usize,
    end: usize,
    // `window[start..stop]` may be given; 0 after a fault, so that one test finds both.
    stop: usize,
    ended: bool,
    // How many bytes the device has given in all.
    read: u64,
    limit: u64,
    fault: Option<Fault>,
}

impl<I: Input, A: Allocator + Copy> Model for Source<I, A> {
    ghost use Rattle.std.specs.Prelude.{◌≡◌, ◌+◌, ◌-◌, ◌^◌, ◌<◌, ◌≤◌, [], None, true, length, take, drop, min, IfSome};
    ghost use Rattle.ion_meter.specs.Windows.{Incoming};

    ghost Value = { Incoming I };

    ghost view = { λ s. record {
      device = s.device;
      buffered = drop s.start (take s.end s.window.value);
      ended = s.ended;
      place = s.read - (s.end - s.start);
      limit = s.limit;
      fault = s.fault;
    } };

    ghost invariant = { λ s. (length s.window.value ≡ 4096) × (s.start ≤ s.end) × (s.end ≤ 4096)
        × (s.end ≤ s.read + s.start) × (s.read + s.start ≤ s.limit + s.end) × (s.limit ≤ 2 ^ 48)
        × (s.fault ≡ None → s.stop ≡ min s.end (s.limit + s.end - s.read))
        × IfSome s.fault (λ _. s.stop ≡ 0)
        × (s.fault ≡ None → I.failure_count s.device < 2 ^ 64 - 1)
        × (s.ended ≡ true → I.observable s.device → I.rest s.device ≡ []) };
}

// What a slice of bytes has is bytes: this does nothing, and brings that to a proof.
#[inline(always)]
fn are_bytes(bytes: &[u8])
    ensures { AreBytes bytes.now }
{}

impl<I: Input, A: Allocator + Copy> Source<I, A> {
    /// A window on this input, or the device back where there is no memory for it.
    pub fn new(meter: &mut Meter<A>, limits: Limits, device: I) -> Result<Source<I, A>, I>
        requires room { meter.old.held + WINDOW < 2 ^ 63 }
        requires countable { meter.old.refused < 2 ^ 64 - 1 }
        requires checked { AreChecked limits }
        requires failures { I.failure_count device < 2 ^ 64 - 1 }
        ensures ok { IfOk result (λ s. s ≡ record {
          device = device;
          buffered = [];
          ended = false;
          place = 0;
          limit = limits.input;
          fault = None;
        }) }
        ensures cost { OnOk result (Grows meter.old meter.new WINDOW) }
        ensures err { IfErr result (λ d. d ≡ device) }
        ensures refused { OnErr result (IsRefused meter.old meter.new) }
    {
        let Ok(window) = Box::new(meter.alloc(), [0; WINDOW]) else {
            meter.refuse();
            return Err(device);
        };
        meter.add(WINDOW as u64);
        Ok(Source {
            device,
            window,
            start: 0,
            end: 0,
            stop: 0,
            ended: false,
            read: 0,
            limit: limits.input,
            fault: None,
        })
    }

    /// Reads once more into the window.
    fn fill(&mut self) -> Result<(), Fault>
        requires well { self.old.fault ≡ None }
        requires open { self.old.ended ≡ false }
        requires short { length self.old.buffered < 16 }
        ensures kept { Extends I.Input self.old self.new }
        ensures ok { OnOk result (self.new.fault ≡ None) }
        ensures err { IfErr result (λ f. (f ≡ Fault.ReadFault) × (self.new.fault ≡ Some f)) }
        ensures count { MatchResult result
            (λ _. I.failure_count self.new.device ≡ I.failure_count self.old.device)
            (λ _. I.failure_count self.new.device ≡ I.failure_count self.old.device + 1) }
        ensures more { OnOk result (self.new.ended ≡ false
            → length self.old.buffered < length self.new.buffered) }
        ensures lost { OnErr result (self.new.buffered ≡ self.old.buffered) }
    {
        let live = self.end - self.start;
        self.window.copy_within(self.start..self.end, 0);
        self.start = 0;
        self.end = live;
        let Ok(n) = self.device.read(&mut self.window[live..]) else {
            self.stop = 0;
            self.fault = Some(Fault::ReadFault);
            return Err(Fault::ReadFault);
        };
        self.end = live + n;
        self.read += n as u64;
        let most = self.limit + self.end as u64 - self.read;
        self.stop = (self.end as u64).min(most) as usize;
        self.ended = n == 0;
        Ok(())
    }

    /// Reads until the byte so far ahead is in the window, or the input has ended.
    fn reach(&mut self, ahead: usize) -> Result<(), Fault>
        requires well { self.old.fault ≡ None }
        requires near { ahead < 16 }
        ensures kept { Extends I.Input self.old self.new }
        ensures ok { OnOk result (self.new.fault ≡ None) }
        ensures stays { self.old.ended ≡ true → self.new ≡ self.old }
        ensures reached { OnOk result ((ahead < length self.new.buffered)
            ⊎ (self.new.ended ≡ true)) }
        ensures needed { OnErr result (length self.new.buffered ≤ ahead) }
        ensures err { IfErr result (λ f. (f ≡ Fault.ReadFault) × (self.new.fault ≡ Some f)) }
        ensures count { MatchResult result
            (λ _. I.failure_count self.new.device ≡ I.failure_count self.old.device)
            (λ _. I.failure_count self.new.device ≡ I.failure_count self.old.device + 1) }
    {
        while self.end - self.start <= ahead && !self.ended {
            self.fill()?;
        }
        Ok(())
    }

    /// `peek` where the byte may not be in the window yet.
    #[cold]
    #[inline(never)]
    fn peek_slowly(&mut self, ahead: usize) -> Result<Option<u8>, Fault>
        requires { ahead < 16 }
        ensures byte { IfOk result (λ found. IfSome found
            (λ byte. IsGiven self.new ahead × (slice_get self.new.buffered ahead ≡ Some byte))) }
        ensures gives { I.observable self.old.device
            → IfOk result (λ found. found ≡ slice_get (left I.rest self.old) ahead) }
        ensures ended { IfOk result (λ found. IfNone found (self.new.ended ≡ true)) }
        ensures stays { self.old.ended ≡ true
            → (self.new.buffered ≡ self.old.buffered) × (self.new.device ≡ self.old.device)
            × (self.new.ended ≡ true) }
        ensures reads { Reads I.Input self.old self.new result }
        ensures limit { self.old.fault ≡ None → result ≡ Err Fault.InputLimit
            → (self.old.limit ≤ self.old.place + ahead)
            × (I.observable self.old.device
            → self.old.limit < self.old.place + length (left I.rest self.old)) }
        ensures past { self.old.fault ≡ None → result ≡ Err Fault.InputLimit
            → ahead < length self.new.buffered }
        ensures needed { self.old.fault ≡ None → result ≡ Err Fault.ReadFault
            → length self.new.buffered ≤ ahead }
    {
        if let Some(fault) = self.fault {
            return Err(fault);
        }
        self.reach(ahead)?;
        let index = self.start + ahead;
        if index < self.stop {
            return Ok(Some(self.window[index]));
        }
        if self.end <= index {
            return Ok(None);
        }
        self.stop = 0;
        self.fault = Some(Fault::InputLimit);
        Err(Fault::InputLimit)
    }

    /// The byte so far ahead of the present place, or none past the end of the input.
    ///
    /// A byte that is in the window is given from there, and the device is read only where it is not.
    /// Answers `InputLimit` where the byte is there and its place is not below `Limits::input`, and
    /// `ReadFault` where the device fails.
    #[inline]
    pub fn peek(&mut self, ahead: usize) -> Result<Option<u8>, Fault>
        requires { ahead < 16 }
        ensures byte { IfOk result (λ found. IfSome found
            (λ byte. IsGiven self.new ahead × (slice_get self.new.buffered ahead ≡ Some byte))) }
        ensures there { self.old.fault ≡ None → IsGiven self.old ahead
            → (result ≡ Ok (slice_get self.old.buffered ahead)) × (self.new ≡ self.old) }
        ensures gives { I.observable self.old.device
            → IfOk result (λ found. found ≡ slice_get (left I.rest self.old) ahead) }
        ensures limits { (self.new.place ≤ self.new.limit) × (self.new.limit ≤ 2 ^ 48) }
        ensures ended { IfOk result (λ found. IfNone found (self.new.ended ≡ true)) }
        ensures stays { self.old.ended ≡ true
            → (self.new.buffered ≡ self.old.buffered) × (self.new.device ≡ self.old.device)
            × (self.new.ended ≡ true) }
        ensures kept { Extends I.Input self.old self.new }
        ensures well { OnOk result ((self.old.fault ≡ None) × (self.new.fault ≡ None)) }
        ensures fault { IfErr result (λ f. self.new.fault ≡ Some f) }
        ensures again { IfSome self.old.fault (λ f. (result ≡ Err f) × (self.new ≡ self.old)) }
        ensures cause { IfErr result (λ f. self.old.fault ≡ None
            → (f ≡ Fault.ReadFault) ⊎ (f ≡ Fault.InputLimit)) }
        ensures count { I.failure_count self.new.device
            ≡ I.failure_count self.old.device + failures_in self.old.fault result }
        ensures limit { self.old.fault ≡ None → result ≡ Err Fault.InputLimit
            → (self.old.limit ≤ self.old.place + ahead)
            × (I.observable self.old.device
            → self.old.limit < self.old.place + length (left I.rest self.old)) }
        ensures past { self.old.fault ≡ None → result ≡ Err Fault.InputLimit
            → ahead < length self.new.buffered }
        ensures needed { self.old.fault ≡ None → result ≡ Err Fault.ReadFault
            → length self.new.buffered ≤ ahead }
    {
        let at = self.start + ahead;
        if at < self.stop {
            return Ok(Some(self.window[at]));
        }
        self.peek_slowly(ahead)
    }

    /// The bytes from the present place on that are in the window and within the limit.
    ///
    /// It reads nothing: after a `peek(0)` that gave a byte there is at least that one. A window
    /// that has failed lends none.
    #[inline]
    pub fn buffer(&self) -> &[u8]
        ensures { result.now ≡ lent self.now }
    {
        if self.stop < self.start {
            return &[];
        }
        &self.window[self.start..self.stop]
    }

    /// Passes over n bytes of those that are in the window.
    #[inline]
    pub fn consume(&mut self, count: usize)
        requires { CanPass self.old count }
        ensures { IsPassed self.old self.new count }
    {
        are_bytes(&*self.window);
        self.start += count;
    }

    /// Passes over the byte at the present place, which `peek(0)` gave.
    #[inline]
    pub fn advance(&mut self)
        requires { IsGiven self.old 0 }
        ensures { IsPassed self.old self.new 1 }
    {
        self.consume(1);
    }

    /// How many bytes were passed over: the place of the next one, counted from 0.
    #[inline]
    pub fn place(&self) -> u64
        ensures { result ≡ self.now.place }
    {
        self.read - (self.end - self.start) as u64
    }

    /// Gives the window back, and hands out the device.
    pub fn release(self, meter: &mut Meter<A>) -> I
        requires { WINDOW ≤ meter.old.held }
        ensures device { result ≡ self.device }
        ensures cost { Shrinks meter.old meter.new WINDOW }
    {
        let Source {
            device,
            window: _,
            start: _,
            end: _,
            stop: _,
            ended: _,
            read: _,
            limit: _,
            fault: _,
        } = self;
        meter.give_back(WINDOW as u64);
        device
    }
}
