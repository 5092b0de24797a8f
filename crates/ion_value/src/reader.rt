//! What reads items.
ghost use Rattle.std.specs.Prelude.{◌≡◌, ℕ, ◌+◌, ◌*◌, ◌-◌, ◌^◌, ◌<◌, ◌≤◌, ◌↔◌, ◌≢◌, List, length, Option, Some, None, Ok, Err, true, false, IfErr};
ghost use Rattle.ion_meter.specs.declared.fault.Reason.{Reason};
ghost use Rattle.ion_meter.specs.declared.fault.Fault.{Fault};
ghost use Rattle.ion_meter.specs.declared.fault.Fault.TheVariants.{Refused};
ghost use Rattle.ion_value.specs.declared.ion_type.Kind.{Kind};
ghost use Rattle.ion_value.specs.Value.{PlacedItem};
ghost use Rattle.ion_value.specs.Items.{named_item, raw_item};
ghost use Rattle.ion_value.specs.Feeding.{CanTake, Feeds, StaysWell};
ghost use Rattle.ion_value.specs.Reading.{Reading, Finished, Stopped, More};
ghost use Rattle.ion_value.specs.Shares.{Charges, GoesWithReading, ReadCauses, fault_of};
ghost use Rattle.ion_value.specs.Standing.{Fits, open_after, ReadsWithin};

use crate::item::Item;
use crate::names::{Names, NoNames};
use crate::writer::ValueWriter;
use ion_meter::device::Output;
use ion_meter::fault::Fault;
use ion_meter::meter::Meter;
use ion_meter::sink::Sink;
use std::alloc::Allocator;

/// What a call of `feed` did.
#[derive(Clone, Copy)]
pub struct Fed {
    /// How many values at top level ended.
    pub values: u64,
    /// How many containers are open after the items.
    pub level: u32,
}

/// What reads a stream one item at a time, symbols as the stream has them.
///
/// `next` takes the next item and `item` lends it; `feed` hands items on to a writer. At the end `next`
/// answers false, and from then on. After a fault each call of `next` answers it again and changes
/// nothing.
///
/// What the laws say of the items holds where the device's bytes are observable. All else, that is
/// which items may stand where, the causes of faults and the memory that is held, holds always.
pub trait RawReader<A: Allocator + Copy> {
    /// Its device's bytes are observable.
    ghost observable: { Self → Type 0 };

    /// Its device was read on, or not at all.
    ghost read_on: { Self → Self → Type 0 };

    /// The items to come, and how they end.
    ghost reading: { Self → Reading };

    /// An item is lent.
    ghost lends: { Self → Type 0 };

    /// The item that is lent.
    ghost current: { Self → PlacedItem };

    /// The fault that it answered.
    ghost failed: { Self → Option Fault };

    /// It has answered the end.
    ghost ended: { Self → Type 0 };

    /// The kinds of the open containers, the innermost first.
    ghost opened: { Self → List Kind };

    /// How many containers may be open.
    ghost depth: { Self → ℕ };

    /// The counted bytes that it holds, its window's too.
    ghost own: { Self → ℕ };

    /// The most that it may hold.
    ghost most: { Self → ℕ };

    /// How often its device has failed.
    ghost failures: { Self → ℕ };

    /// The input is longer than it may be.
    ghost exceeds: { Self → Type 0 };

    /// What is left of the input is bytes, where its bytes are observable.
    ghost bytes_left: { Self → Type 0 };

    /// It falls with each item, and memory goes with it.
    ghost left: { Self → ℕ };

    /// What holds of every reader between calls.
    ghost sound: { Self → Type 0 };

    /// Whether there is a next item, which `item` then lends; false at the end, and from then on.
    ///
    /// It refuses what the stream may not have at this place, and answers `Memory` where a growth
    /// was refused, `ReadFault` where the device failed, and `InputLimit` where the input is longer
    /// than it may be.
    fn next(&mut self, meter: &mut Meter<A>) -> Result<bool, Fault>
        requires room { meter.old.held ≤ 2 ^ 62 }
        requires held { own self.old ≤ meter.old.held }
        requires countable { meter.old.refused < 2 ^ 64 - 1 }
        requires sound { sound self.old }
        ensures sound { sound self.new }
        ensures observable { observable self.new ↔ observable self.old }
        ensures read_on { read_on self.old self.new }

        // The items, and how they end.
        ensures gives { observable self.old → result ≡ Ok true
            → reading self.old ≡ More (current self.new) (reading self.new) }
        ensures ends { observable self.old → result ≡ Ok false
            → (reading self.old ≡ Finished) × (reading self.new ≡ Finished) }
        ensures refuses { observable self.old → failed self.old ≡ None → (r : Reason) (p : ℕ)
            → result ≡ Err (Refused r p) → reading self.old ≡ Stopped r p }
        ensures lends { result ≡ Ok true → lends self.new }

        // Each step, whether the device's bytes are observable or not.
        ensures fits { result ≡ Ok true
            → Fits (depth self.old) (opened self.old) (current self.new) }
        ensures opens { result ≡ Ok true
            → opened self.new ≡ open_after (opened self.old) (current self.new).head }
        ensures stays_open { result ≢ Ok true → opened self.new ≡ opened self.old }
        ensures falls { result ≡ Ok true → left self.new < left self.old }
        ensures depth { depth self.new ≡ depth self.old }

        // The end and faults.
        ensures ended { result ≡ Ok false → ended self.new }
        ensures stays { ended self.old → (result ≡ Ok false) × (self.new ≡ self.old)
            × (meter.new ≡ meter.old) }
        ensures failed { failed self.new ≡ fault_of result }
        ensures again { (f : Fault) → failed self.old ≡ Some f
            → (result ≡ Err f) × (self.new ≡ self.old) × (meter.new ≡ meter.old) }
        ensures causes { failed self.old ≡ None
            → ReadCauses (fault_of result) meter.old meter.new
            (failures self.old) (failures self.new) (exceeds self.old) }
        ensures exceeds { exceeds self.new ↔ exceeds self.old }
        ensures bytes_left { bytes_left self.new → bytes_left self.old }

        // Memory, on every exit.
        ensures charges { Charges meter.old meter.new
            (own self.old) (own self.new) (most self.old) }
        ensures goes { GoesWithReading meter.old meter.new
            (own self.old) (own self.new) (left self.old) (left self.new) }
        ensures most { most self.new ≡ most self.old };

    /// The item that the last call of `next` took, its ids as the stream has them.
    fn item(&self) -> Item<'_, NoNames>
        requires { lends self.now }
        ensures { raw_item result ≡ current self.now };

    /// Hands items to a writer, as many of those that lie whole in the window as both can take
    /// without a device and without a fault: plain items, by the names that are given
    /// (`PlainItem`). The items after them are for `next`. No clause says how many there are, nor
    /// whether `item` may be called before `next` is.
    fn feed<N: Names, W: ValueWriter<O, A>, O: Output>(
        &mut self,
        meter: &mut Meter<A>,
        names: &N,
        writer: &mut W,
        sink: &mut Sink<O, A>,
    ) -> Fed
        requires room { meter.old.held ≤ 2 ^ 61 }
        requires held { own self.old + W.own writer.old ≤ meter.old.held }
        requires countable { meter.old.refused < 2 ^ 64 - 1 }
        requires sound { sound self.old }
        requires fresh { failed self.old ≡ None }
        requires writer { CanTake W.ValueWriter (depth self.old) (opened self.old)
            writer.old sink.old }
        ensures sound { sound self.new }
        ensures observable { observable self.new ↔ observable self.old }
        ensures read_on { read_on self.old self.new }

        // The items.
        ensures feeds { Feeds W.ValueWriter (named_item (N.text names.now)) (observable self.old)
            (record {
              coming = reading self.old;
              opened = opened self.old;
              writer = writer.old;
              pending = sink.old.pending;
              values = 0;
            })
            (record {
              coming = reading self.new;
              opened = opened self.new;
              writer = writer.new;
              pending = sink.new.pending;
              values = result.values;
            }) }
        ensures level { result.level ≡ length (opened self.new) }
        ensures falls { result.values + left self.new ≤ left self.old }

        // What stays, and memory.
        ensures same { (failed self.new ≡ failed self.old) × (depth self.new ≡ depth self.old)
            × (most self.new ≡ most self.old) × (failures self.new ≡ failures self.old) }
        ensures ended { ended self.old → ended self.new }
        ensures exceeds { exceeds self.new ↔ exceeds self.old }
        ensures bytes_left { bytes_left self.new → bytes_left self.old }
        ensures writer { StaysWell W.ValueWriter writer.old writer.new sink.old sink.new
            meter.old meter.new }
        ensures charges { Charges meter.old meter.new (own self.old + W.own writer.old)
            (own self.new + W.own writer.new) (most self.old + W.most writer.old) }
        ensures goes { own self.new ≤ own self.old + 16 * (left self.old - left self.new) };

    /// Whether the next call of `next` may read from the device, and so may have to wait. What was put
    /// of the items so far is best written before that.
    ///
    /// It may be true of a call that reads nothing. Nothing is proved of the answer.
    fn may_wait(&self) -> bool;

    /// What holds of the memory, the depth and the items to come of every reader.
    ghost within: { (s : Self) → sound s
        → ReadsWithin (own s) (most s) (depth s) (length (opened s)) (left s) };

    /// A reader that has answered the end has not failed.
    ghost one_ending: { (s : Self) → sound s → ended s → failed s ≡ None };

    /// What is left at the end, which is nothing, is bytes.
    ghost none_left: { (s : Self) → sound s → ended s → bytes_left s };

    /// A reader that stays reads nothing of its device.
    ghost not_read: { (s : Self) → read_on s s };

    /// What two calls read is read on.
    ghost read_more: { (a b c : Self) → read_on a b → read_on b c → read_on a c };
}
