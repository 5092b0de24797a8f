//! A window of 4,096 bytes on an output.
ghost use Rattle.std.specs.Prelude.{◌≡◌, ◌+◌, ◌-◌, ◌^◌, ◌<◌, ◌≤◌, ◌++◌, ◌∷◌, [], length, take, min, None, Some, Ok, Err, OnOk, OnErr, IfOk, IfErr, IfSome, MatchResult};
ghost use Rattle.ion_meter.specs.Counts.{Grows, Shrinks, IsRefused};
ghost use Rattle.ion_meter.specs.Windows.{Outgoing, so_far, Puts, write_failures_in};

use crate::copy::copy;
use crate::device::{Output, write_all};
use crate::fault::Fault;
use crate::meter::Meter;
use crate::source::WINDOW;
use std::alloc::Allocator;
use std::marker::Model;

/// A window on an output, which takes bytes and writes them in order.
///
/// It holds 4,096 counted bytes from its making to its release. Once it has answered a fault, which
/// is `WriteFault`, it answers that fault again and writes no more.
#[derive(Drop)]
pub struct Sink<O: Output, A: Allocator + Copy> {
    device: O,
    window: Box<[u8; WINDOW], A>,
    len: usize,
    fault: Option<Fault>,
}

impl<O: Output, A: Allocator + Copy> Model for Sink<O, A> {
    ghost use Rattle.std.specs.Prelude.{◌≡◌, ◌-◌, ◌^◌, ◌<◌, ◌≤◌, None, length, take, IfSome};
    ghost use Rattle.ion_meter.specs.declared.fault.Fault.TheVariants.{WriteFault};
    ghost use Rattle.ion_meter.specs.Windows.{Outgoing};

    ghost Value = { Outgoing O };

    ghost view = { λ s. record {
      device = s.device;
      pending = take s.len s.window.value;
      fault = s.fault;
    } };

    ghost invariant = { λ s. (length s.window.value ≡ 4096) × (s.len ≤ 4096)
        × (s.fault ≡ None → O.failure_count s.device < 2 ^ 64 - 1)
        × IfSome s.fault (λ f. f ≡ WriteFault) };
}

impl<O: Output, A: Allocator + Copy> Sink<O, A> {
    /// A window on this output, or the device back where there is no memory for it.
    pub fn new(meter: &mut Meter<A>, device: O) -> Result<Sink<O, A>, O>
        requires room { meter.old.held + WINDOW < 2 ^ 63 }
        requires countable { meter.old.refused < 2 ^ 64 - 1 }
        requires failures { O.failure_count device < 2 ^ 64 - 1 }
        ensures ok { IfOk result (λ s. s ≡ record { device = device; pending = []; fault = None }) }
        ensures cost { OnOk result (Grows meter.old meter.new WINDOW) }
        ensures err { IfErr result (λ d. d ≡ device) }
        ensures refused { OnErr result (IsRefused meter.old meter.new) }
    {
        let Ok(window) = Box::new(meter.alloc(), [0; WINDOW]) else {
            meter.refuse();
            return Err(device);
        };
        meter.add(WINDOW as u64);
        Ok(Sink {
            device,
            window,
            len: 0,
            fault: None,
        })
    }

    /// Takes a prefix of these bytes, as much as there is room for.
    #[inline]
    fn take(&mut self, bytes: &[u8]) -> usize
        ensures count { result ≡ min (WINDOW - length self.old.pending) (length bytes.now) }
        ensures pending { self.new.pending ≡ self.old.pending ++ take result bytes.now }
        ensures device { self.new.device ≡ self.old.device }
        ensures fault { self.new.fault ≡ self.old.fault }
    {
        let n = (WINDOW - self.len).min(bytes.len());
        self.window[self.len..self.len + n].copy_from_slice(&bytes[..n]);
        self.len += n;
        n
    }

    /// Writes what was put where the window is full.
    fn make_room(&mut self) -> Result<(), Fault>
        requires { self.old.fault ≡ None }
        ensures puts { Puts O.written O.observable self.old self.new [] }
        ensures room { OnOk result (length self.new.pending < WINDOW) }
        ensures ok { OnOk result (O.observable self.old.device
            → so_far O.written self.new ≡ so_far O.written self.old) }
        ensures well { OnOk result (self.new.fault ≡ None) }
        ensures err { IfErr result (λ f. (f ≡ Fault.WriteFault) × (self.new.fault ≡ Some f)) }
        ensures count { MatchResult result
            (λ _. O.failure_count self.new.device ≡ O.failure_count self.old.device)
            (λ _. O.failure_count self.new.device ≡ O.failure_count self.old.device + 1) }
    {
        if self.len < WINDOW {
            return Ok(());
        }
        self.flush()
    }

    /// `put` of bytes that the window has no room for, or after a fault.
    #[cold]
    #[inline(never)]
    fn put_slowly(&mut self, bytes: &[u8]) -> Result<(), Fault>
        ensures puts { self.old.fault ≡ None
            → Puts O.written O.observable self.old self.new bytes.now }
        ensures ok { OnOk result (O.observable self.old.device
            → so_far O.written self.new ≡ so_far O.written self.old ++ bytes.now) }
        ensures well { OnOk result ((self.old.fault ≡ None) × (self.new.fault ≡ None)) }
        ensures fault { IfErr result (λ f. self.new.fault ≡ Some f) }
        ensures again { IfSome self.old.fault (λ f. (result ≡ Err f) × (self.new ≡ self.old)) }
        ensures cause { IfErr result (λ f. f ≡ Fault.WriteFault) }
        ensures count { O.failure_count self.new.device
            ≡ O.failure_count self.old.device + write_failures_in self.old.fault result }
    {
        if let Some(fault) = self.fault {
            return Err(fault);
        }
        let mut at = 0;
        while at < bytes.len() {
            self.make_room()?;
            at += self.take(&bytes[at..]);
        }
        Ok(())
    }

    /// `put_slowly`, in line. What that answers is built anew, so that the memory by which it comes belongs
    /// to this way alone: `put` would clear it for all that it puts.
    #[inline(always)]
    fn put_otherwise(&mut self, bytes: &[u8]) -> Result<(), Fault>
        ensures puts { self.old.fault ≡ None
            → Puts O.written O.observable self.old self.new bytes.now }
        ensures ok { OnOk result (O.observable self.old.device
            → so_far O.written self.new ≡ so_far O.written self.old ++ bytes.now) }
        ensures well { OnOk result ((self.old.fault ≡ None) × (self.new.fault ≡ None)) }
        ensures fault { IfErr result (λ f. self.new.fault ≡ Some f) }
        ensures again { IfSome self.old.fault (λ f. (result ≡ Err f) × (self.new ≡ self.old)) }
        ensures cause { IfErr result (λ f. f ≡ Fault.WriteFault) }
        ensures count { O.failure_count self.new.device
            ≡ O.failure_count self.old.device + write_failures_in self.old.fault result }
    {
        match self.put_slowly(bytes) {
            Ok(()) => Ok(()),
            Err(fault) => Err(fault),
        }
    }

    /// Puts these bytes after what was put before.
    ///
    /// They are copied into the window, which is written out where it has no room for all of them.
    /// Answers `WriteFault` where the device fails, or takes nothing of bytes that it was given.
    #[inline]
    pub fn put(&mut self, bytes: &[u8]) -> Result<(), Fault>
        ensures within { self.old.fault ≡ None
            → length self.old.pending + length bytes.now ≤ WINDOW
            → (result ≡ Ok tt)
            × (self.new ≡ record self.old { pending = self.old.pending ++ bytes.now }) }
        ensures puts { self.old.fault ≡ None
            → Puts O.written O.observable self.old self.new bytes.now }
        ensures ok { OnOk result (O.observable self.old.device
            → so_far O.written self.new ≡ so_far O.written self.old ++ bytes.now) }
        ensures well { OnOk result ((self.old.fault ≡ None) × (self.new.fault ≡ None)) }
        ensures fault { IfErr result (λ f. self.new.fault ≡ Some f) }
        ensures again { IfSome self.old.fault (λ f. (result ≡ Err f) × (self.new ≡ self.old)) }
        ensures cause { IfErr result (λ f. f ≡ Fault.WriteFault) }
        ensures count { O.failure_count self.new.device
            ≡ O.failure_count self.old.device + write_failures_in self.old.fault result }
    {
        if self.fault.is_none() && bytes.len() <= WINDOW - self.len {
            self.take(bytes);
            return Ok(());
        }
        self.put_otherwise(bytes)
    }

    /// How many bytes the window has room for.
    #[inline(always)]
    pub fn room(&self) -> usize
        ensures { result + length self.now.pending ≡ WINDOW }
    {
        WINDOW - self.len
    }

    /// Puts these bytes, for which the window has room.
    #[inline(always)]
    pub fn put_within(&mut self, bytes: &[u8])
        requires { length self.old.pending + length bytes.now ≤ WINDOW }
        ensures { self.new ≡ record self.old { pending = self.old.pending ++ bytes.now } }
    {
        let from = self.len;
        let to = from + bytes.len();
        copy(&mut self.window[from..to], bytes);
        self.len = to;
    }

    /// Puts a byte, for which the window has room.
    #[inline(always)]
    pub fn put_byte(&mut self, byte: u8)
        requires { length self.old.pending < WINDOW }
        ensures { self.new ≡ record self.old { pending = self.old.pending ++ byte ∷ [] } }
    {
        self.window[self.len] = byte;
        self.len += 1;
    }

    /// Writes all that was put; where that is nothing, the device is not called.
    ///
    /// Answers `WriteFault` where the device fails: what was written is then a prefix of what was
    /// put.
    pub fn flush(&mut self) -> Result<(), Fault>
        ensures puts { self.old.fault ≡ None → Puts O.written O.observable self.old self.new [] }
        ensures nothing { self.old.fault ≡ None → self.old.pending ≡ []
            → (result ≡ Ok tt) × (self.new ≡ self.old) }
        ensures ok { OnOk result (self.new.pending ≡ []) }
        ensures all { OnOk result (O.observable self.old.device
            → O.written self.new.device ≡ so_far O.written self.old) }
        ensures well { OnOk result ((self.old.fault ≡ None) × (self.new.fault ≡ None)) }
        ensures fault { IfErr result (λ f. self.new.fault ≡ Some f) }
        ensures again { IfSome self.old.fault (λ f. (result ≡ Err f) × (self.new ≡ self.old)) }
        ensures cause { IfErr result (λ f. f ≡ Fault.WriteFault) }
        ensures count { O.failure_count self.new.device
            ≡ O.failure_count self.old.device + write_failures_in self.old.fault result }
    {
        if let Some(fault) = self.fault {
            return Err(fault);
        }
        if write_all(&mut self.device, &self.window[..self.len]).is_err() {
            self.fault = Some(Fault::WriteFault);
            return Err(Fault::WriteFault);
        }
        self.len = 0;
        Ok(())
    }

    /// Gives the window back, and hands out the device.
    pub fn release(self, meter: &mut Meter<A>) -> O
        requires { WINDOW ≤ meter.old.held }
        ensures device { result ≡ self.device }
        ensures cost { Shrinks meter.old meter.new WINDOW }
    {
        let Sink {
            device,
            window: _,
            len: _,
            fault: _,
        } = self;
        meter.give_back(WINDOW as u64);
        device
    }
}
