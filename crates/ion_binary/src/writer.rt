//! The writer of binary.
ghost use Rattle.std.specs.Prelude.{◌≡◌, ℕ, ◌+◌, ◌<◌, ◌≤◌, true, false, [], None, Some, Ok, Err, OnOk, OnErr, IfErr, ◌≢◌};
ghost use Rattle.ion_meter.specs.Counts.{Shrinks};
ghost use Rattle.ion_meter.specs.Limits.{AreChecked};
ghost use Rattle.ion_meter.specs.Sinks.{IsPut};
ghost use Rattle.ion_meter.specs.declared.fault.Fault.{Fault};
ghost use Rattle.ion_meter.specs.declared.fault.Fault.TheVariants.{Refused, WriteFault};
ghost use Rattle.ion_meter.specs.declared.fault.Reason.{Reason};
ghost use Rattle.ion_value.specs.Items.{item_of, raw_head};
ghost use Rattle.ion_value.specs.Shares.{WriteCauses, fault_of};
ghost use Rattle.ion_binary.specs.Canonical.{is_over, marker_if};
ghost use Rattle.ion_binary.specs.Held.{texts_forgotten, value_held, value_put};
ghost use Rattle.ion_binary.specs.Opening.{IsOpen, MayCome};
ghost use Rattle.ion_binary.specs.Writer.{CanPut, CanTake, ComesAt, Follows, IsNew, IsSound, PutsOctets, Stands, Taken, added, adds_at, failed_of, held_in, item_refusal, limits_of, most_of, own_of};
ghost use Rattle.ion_binary.specs.Writing.{Written, binary_adds, binary_puts, binary_refusal};
ghost use Rattle.ion_binary.specs.ItemPuts.{binary_grows, binary_silent};
ghost use Rattle.ion_binary.specs.WriterWithin.{binary-within};

mod fresh;
mod pair;
mod plain;
mod single;
mod whole;

use crate::declaration::{FIRST_ID, put_declaration};
use crate::front::put_front;
use crate::open_value::OpenValue;
use ion_meter::device::Output;
use ion_meter::fault::{Fault, Reason};
use ion_meter::limits::Limits;
use ion_meter::meter::Meter;
use ion_meter::sink::Sink;
use ion_symbols::output::OutSymbols;
use ion_value::item::{Head, Item};
use ion_value::names::Names;
use ion_value::plain_item::PlainItem;
use ion_value::writer::ValueWriter;
use single::single_of;
use std::alloc::Allocator;

/// The version marker of Ion 1.0.
const MARKER: [u8; 4] = [0xE0, 0x01, 0x00, 0xEA];

/// Writes values in the canonical binary form: a version marker, and each value after a declaration
/// of those of its texts that are new.
///
/// A value is put when it is whole. Where the texts cost more than half of the limit on symbol tables,
/// the next value begins without them, after another version marker.
///
/// It holds the open value, 16 counted bytes for each open container, and the texts, each within
/// its limit.
#[derive(Drop)]
pub struct BinWriter<A: Allocator + Copy> {
    limits: Limits,
    symbols: OutSymbols<A>,
    // How many of the texts have been declared, and whether a version marker stands before the next
    // value.
    declared: u32,
    due: bool,
    open_value: OpenValue<A>,
    failed: Option<Fault>,
}

impl<A: Allocator + Copy> BinWriter<A> {
    /// A writer that has put nothing. It takes no memory.
    pub fn new(meter: &Meter<A>, limits: Limits) -> BinWriter<A>
        requires checked { AreChecked limits }
        ensures limits { limits_of result ≡ limits }
        ensures fresh { IsNew result }
        ensures sound { IsSound result }
    {
        BinWriter {
            limits,
            symbols: OutSymbols::new(meter, limits),
            declared: 0,
            due: false,
            open_value: OpenValue::new(meter, limits),
            failed: None,
        }
    }

    /// Gives back what it holds.
    pub fn release(self, meter: &mut Meter<A>)
        requires { own_of self ≤ meter.old.held }
        ensures { Shrinks meter.old meter.new (own_of self) }
    {
        let BinWriter {
            limits: _,
            symbols,
            declared: _,
            due: _,
            open_value,
            failed: _,
        } = self;
        symbols.release(meter);
        open_value.release(meter);
    }

    // Forgets the texts where a value at top level begins and they cost too much.
    fn forget(&mut self, meter: &mut Meter<A>)
        requires can_take { CanTake self.old meter.old }
        ensures held { held_in self.new ≡ texts_forgotten (held_in self.old)
            self.old.open_value.headers
            (is_over self.old.limits.symbols self.old.symbols.texts) }
        ensures open_value { self.new.open_value ≡ self.old.open_value }
        ensures can_take { CanTake self.new meter.new }
        ensures taken { Taken self.old self.new meter.old meter.new None }
    {
        let begins = self.open_value.headers.len() == 0;
        if begins && self.symbols.cost() > self.limits.symbols / 2 {
            self.symbols.clear(meter);
            self.declared = 0;
            self.due = true;
        }
    }

    // Adds an item of this head to the open value.
    fn add<N: Names>(
        &mut self,
        meter: &mut Meter<A>,
        item: &Item<'_, N>,
        head: Head<'_>,
    ) -> Result<(), Fault>
        requires can_take { CanTake self.old meter.old }
        requires head { raw_head head ≡ (item_of N.text item.now).head }
        requires comes { MayCome self.old.limits self.old.open_value (item_of N.text item.now) }
        ensures held { OnOk result
            (held_in self.new ≡ added (held_in self.old) (item_of N.text item.now)) }
        ensures open { OnOk result (IsOpen self.new.limits self.new.open_value) }
        ensures passes { OnOk result
            (item_refusal self.old.limits (held_in self.old) (item_of N.text item.now) ≡ None) }
        ensures refuses { (r : Reason) (p : ℕ) → result ≡ Err (Refused r p)
            → item_refusal self.old.limits (held_in self.old) (item_of N.text item.now)
            ≡ Some (r, p) }
        ensures no_device { (n : ℕ) → WriteCauses (fault_of result) n n }
        ensures taken { Taken self.old self.new meter.old meter.new (fault_of result) }
    {
        let front = match put_front(
            &mut self.symbols,
            &mut self.open_value.octets,
            meter,
            item,
            head,
            self.limits.value,
        ) {
            Ok(front) => front,
            Err(fault) => return Err(fault),
        };
        if !front.fits {
            return Err(Fault::Refused(Reason::ValueLimit, item.top()));
        }
        match self.open_value.take(meter, self.limits, front, head) {
            Ok(true) => Ok(()),
            Ok(false) => Err(Fault::Refused(Reason::ValueLimit, item.top())),
            Err(fault) => Err(fault),
        }
    }

    // Puts the value, after what it needs.
    fn put_value<O: Output>(&self, sink: &mut Sink<O, A>) -> Result<(), Fault>
        requires sound { IsSound self.now }
        requires whole { self.now.open_value.headers ≡ [] }
        ensures puts { PutsOctets O.Output sink.old sink.new result
            (value_put (held_in self.now) [] self.now.open_value.octets.all) }
        ensures cause { IfErr result (λ fault. fault ≡ WriteFault) }
        ensures causes { sink.old.fault ≡ None → WriteCauses (fault_of result)
            (O.failure_count sink.old.device) (O.failure_count sink.new.device) }
    {
        if let Err(fault) = put_marker(sink, self.due) {
            return Err(fault);
        }
        let texts = self.symbols.new_since(FIRST_ID + self.declared);
        if let Err(fault) = put_declaration(sink, &texts) {
            return Err(fault);
        }
        self.open_value.octets.put(sink)
    }

    // Puts the value where it is whole.
    fn put_out<O: Output>(
        &mut self,
        meter: &mut Meter<A>,
        sink: &mut Sink<O, A>,
    ) -> Result<(), Fault>
        requires can_put { CanPut self.old meter.old }
        requires open { IsOpen self.old.limits self.old.open_value }
        ensures held { OnOk result (held_in self.new ≡ value_held (held_in self.old)
            self.old.open_value.headers self.old.open_value.octets.all) }
        ensures open { OnOk result (IsOpen self.new.limits self.new.open_value) }
        ensures puts { PutsOctets O.Output sink.old sink.new result (value_put (held_in self.old)
            self.old.open_value.headers self.old.open_value.octets.all) }
        ensures cause { IfErr result (λ fault. fault ≡ WriteFault) }
        ensures causes { sink.old.fault ≡ None → WriteCauses (fault_of result)
            (O.failure_count sink.old.device) (O.failure_count sink.new.device) }
        ensures taken { Taken self.old self.new meter.old meter.new (fault_of result) }
    {
        let is_open = self.open_value.headers.len() > 0;
        if is_open {
            return Ok(());
        }
        if let Err(fault) = self.put_value(sink) {
            return Err(fault);
        }
        self.open_value.octets.clear(meter);
        self.declared = self.symbols.new_since(FIRST_ID).len() as u32;
        self.due = false;
        Ok(())
    }

    // Takes an item, and puts the value where it is whole.
    fn step<O: Output, N: Names>(
        &mut self,
        meter: &mut Meter<A>,
        sink: &mut Sink<O, A>,
        item: &Item<'_, N>,
    ) -> Result<(), Fault>
        requires can_take { CanTake self.old meter.old }
        requires comes { (s : Written) × ComesAt self.old s (item_of N.text item.now) }
        ensures follows { (s : Written) → ComesAt self.old s (item_of N.text item.now)
            → Follows self.old self.new s (item_of N.text item.now) result }
        ensures puts { (s : Written) → ComesAt self.old s (item_of N.text item.now)
            → PutsOctets O.Output sink.old sink.new result
            (adds_at self.old.limits s (item_of N.text item.now)) }
        ensures still { result ≢ Err WriteFault → OnErr result (sink.new ≡ sink.old) }
        ensures causes { sink.old.fault ≡ None → WriteCauses (fault_of result)
            (O.failure_count sink.old.device) (O.failure_count sink.new.device) }
        ensures taken { Taken self.old self.new meter.old meter.new (fault_of result) }
    {
        self.forget(meter);
        if let Err(fault) = self.add(meter, item, item.head()) {
            return Err(fault);
        }
        self.put_out(meter, sink)
    }
}

impl<O: Output, A: Allocator + Copy> ValueWriter<O, A> for BinWriter<A> {
    ghost puts = { binary_puts };

    ghost adds = { binary_adds };

    ghost refusal = { binary_refusal };

    ghost limits = { limits_of };

    ghost is_new = { λ w. IsNew w };

    ghost stands = { λ w path. Stands w path };

    ghost failed = { failed_of };

    ghost own = { own_of };

    ghost most = { λ w. most_of (limits_of w) };

    ghost sound = { λ w. IsSound w };

    fn begin(&mut self, sink: &mut Sink<O, A>) -> Result<(), Fault> {
        let outcome = sink.put(&MARKER);
        if let Err(fault) = outcome {
            self.failed = Some(fault);
        }
        outcome
    }

    fn item<N: Names>(
        &mut self,
        meter: &mut Meter<A>,
        sink: &mut Sink<O, A>,
        item: &Item<'_, N>,
    ) -> Result<(), Fault> {
        if let Some(fault) = self.failed {
            return Err(fault);
        }
        match self.step(meter, sink, item) {
            Ok(()) => Ok(()),
            Err(fault) => {
                self.failed = Some(fault);
                Err(fault)
            }
        }
    }

    #[inline(always)]
    fn take_plain(
        &mut self,
        meter: &mut Meter<A>,
        sink: &mut Sink<O, A>,
        item: PlainItem<'_, '_>,
    ) -> bool {
        let single = single_of(item);
        if let Head::End = single.head {
            if self.open_value.headers.len() == 1 {
                return self.end_whole(meter, sink, &single);
            }
        }
        self.add_plain(meter, sink, single, item.second)
    }

    ghost grows = { binary_grows };

    ghost silent = { binary_silent };

    ghost within = { binary-within };
}

// Puts a version marker where one is due.
fn put_marker<O: Output, A: Allocator + Copy>(sink: &mut Sink<O, A>, due: bool) -> Result<(), Fault>
    ensures put { sink.old.fault ≡ None
        → IsPut O.Output sink.old sink.new result (marker_if due) }
    ensures well { OnOk result (sink.old.fault ≡ None) }
    ensures cause { IfErr result (λ fault. fault ≡ WriteFault) }
    ensures passed { (f : Fault) → sink.old.fault ≡ Some f → sink.new ≡ sink.old }
{
    if due {
        sink.put(&MARKER)
    } else {
        sink.put(&[])
    }
}
