//! What writes items.
ghost use Rattle.std.specs.Prelude.{◌≡◌, true, false, ℕ, ◌+◌, ◌-◌, ◌^◌, ◌<◌, ◌≤◌, ◌↔◌, ◌≢◌, ◌∷◌, ◌++◌, List, [], Option, Some, None, Err, OnErr, OnOk};
ghost use Rattle.ion_meter.specs.declared.fault.Reason.{Reason};
ghost use Rattle.ion_meter.specs.declared.fault.Fault.{Fault};
ghost use Rattle.ion_meter.specs.declared.fault.Fault.TheVariants.{Refused, Memory, WriteFault};
ghost use Rattle.ion_meter.specs.declared.limits.Limits.{Limits};
ghost use Rattle.ion_meter.specs.Windows.{so_far, Puts, PutsPart};
ghost use Rattle.ion_value.specs.Value.{PlacedItem};
ghost use Rattle.ion_value.specs.Items.{item_of};
ghost use Rattle.ion_value.specs.PlainItems.{IsPlainItem, IsSpelled, SaysRightly, placed_item};
ghost use Rattle.ion_value.specs.Shares.{Charges, MemoryCauses, WriteCauses, fault_of};
ghost use Rattle.ion_value.specs.Standing.{Continues, WritesWithin};

use crate::item::Item;
use crate::names::Names;
use crate::plain_item::PlainItem;
use ion_meter::device::Output;
use ion_meter::fault::Fault;
use ion_meter::meter::Meter;
use ion_meter::sink::Sink;
use std::alloc::Allocator;

/// What writes user values one item at a time, an id being a symbol of unknown text. `item` takes each
/// item, and `take_plain` may take a plain one in fewer steps.
///
/// `begin` is called once, before all items. After a fault each call of `item` answers it again and
/// changes nothing. Where the sink had failed before, `begin` passes its fault on, and neither call
/// changes it.
pub trait ValueWriter<O: Output, A: Allocator + Copy> {
    /// What is put for a list of items.
    ghost puts: { Limits → List PlacedItem → List ℕ };

    /// What an item after them adds.
    ghost adds: { Limits → List PlacedItem → PlacedItem → List ℕ };

    /// The reason and the place of the refusal of an item after them, where it is refused.
    ghost refusal: { Limits → List PlacedItem → PlacedItem → Option (Reason × ℕ) };

    ghost limits: { Self → Limits };

    /// `begin` was not called.
    ghost is_new: { Self → Type 0 };

    /// It is where these items lead.
    ghost stands: { Self → List PlacedItem → Type 0 };

    /// The fault that it answered.
    ghost failed: { Self → Option Fault };

    /// The counted bytes that it holds.
    ghost own: { Self → ℕ };

    /// The most that it may hold.
    ghost most: { Self → ℕ };

    /// What holds of every writer between calls.
    ghost sound: { Self → Type 0 };

    /// Puts what stands before all values. It fails by `WriteFault` alone.
    fn begin(&mut self, sink: &mut Sink<O, A>) -> Result<(), Fault>
        requires fresh { is_new self.old }
        requires sound { sound self.old }
        ensures sound { sound self.new }
        ensures stands { OnOk result (stands self.new [] × (sink.old.fault ≡ None)
            × (sink.new.fault ≡ None)) }
        ensures puts { OnOk result (O.observable sink.old.device
            → so_far O.written sink.new ≡ so_far O.written sink.old ++ puts (limits self.old) []) }
        ensures part { sink.old.fault ≡ None
            → Puts O.written O.observable sink.old sink.new (puts (limits self.old) []) }
        ensures device { sink.old.fault ≡ None
            → OnErr result ((result ≡ Err WriteFault)
            × (O.failure_count sink.new.device ≡ O.failure_count sink.old.device + 1)) }
        ensures steady { OnOk result (O.failure_count sink.new.device
            ≡ O.failure_count sink.old.device) }
        ensures passed { (f : Fault) → sink.old.fault ≡ Some f
            → (result ≡ Err f) × (sink.new ≡ sink.old) }
        ensures failed { failed self.new ≡ fault_of result }
        ensures limits { limits self.new ≡ limits self.old }
        ensures own { own self.new ≡ own self.old }
        ensures most { most self.new ≡ most self.old };

    /// Takes an item that is no version marker and may stand after those taken before, and puts
    /// what is whole by it.
    ///
    /// It refuses what its limits do not allow, before anything of the item is put, and answers
    /// `Memory` where a growth was refused and `WriteFault` where the device failed. After `Memory` a
    /// prefix of what it puts was put.
    fn item<N: Names>(
        &mut self,
        meter: &mut Meter<A>,
        sink: &mut Sink<O, A>,
        item: &Item<'_, N>,
    ) -> Result<(), Fault>
        requires room { meter.old.held ≤ 2 ^ 62 }
        requires held { own self.old ≤ meter.old.held }
        requires countable { meter.old.refused < 2 ^ 64 - 1 }
        requires sound { sound self.old }
        requires path { failed self.old ≡ None
            → (path : List PlacedItem) × stands self.old path
            × Continues (limits self.old) path (item_of N.text item.now) }
        ensures sound { sound self.new }

        // What is put, for whatever items the writer stands after.
        ensures stands { (path : List PlacedItem) → stands self.old path
            → Continues (limits self.old) path (item_of N.text item.now)
            → OnOk result (stands self.new (path ++ item_of N.text item.now ∷ [])
            × (refusal (limits self.old) path (item_of N.text item.now) ≡ None)) }
        ensures puts { (path : List PlacedItem) → stands self.old path
            → Continues (limits self.old) path (item_of N.text item.now)
            → OnOk result (O.observable sink.old.device → so_far O.written sink.new
            ≡ so_far O.written sink.old ++ adds (limits self.old) path (item_of N.text item.now)) }
        ensures part { sink.old.fault ≡ None → (path : List PlacedItem) → stands self.old path
            → Continues (limits self.old) path (item_of N.text item.now)
            → Puts O.written O.observable sink.old sink.new
            (adds (limits self.old) path (item_of N.text item.now)) }
        ensures cut { sink.old.fault ≡ None → (path : List PlacedItem) → stands self.old path
            → Continues (limits self.old) path (item_of N.text item.now) → result ≡ Err Memory
            → PutsPart O.written O.observable sink.old sink.new
            (adds (limits self.old) path (item_of N.text item.now)) }
        ensures refuses { failed self.old ≡ None → sink.old.fault ≡ None → (path : List PlacedItem)
            → stands self.old path → Continues (limits self.old) path (item_of N.text item.now)
            → (r : Reason) (p : ℕ) → result ≡ Err (Refused r p)
            → refusal (limits self.old) path (item_of N.text item.now) ≡ Some (r, p) }
        ensures quiet { sink.old.fault ≡ None → (r : Reason) (p : ℕ) → result ≡ Err (Refused r p)
            → sink.new ≡ sink.old }
        ensures well { OnOk result (sink.old.fault ≡ None → sink.new.fault ≡ None) }

        // Faults.
        ensures failed { failed self.new ≡ fault_of result }
        ensures again { (f : Fault) → failed self.old ≡ Some f
            → (result ≡ Err f) × (self.new ≡ self.old) × (sink.new ≡ sink.old)
            × (meter.new ≡ meter.old) }
        ensures memory { failed self.old ≡ None
            → MemoryCauses (fault_of result) meter.old meter.new }
        ensures causes { failed self.old ≡ None → sink.old.fault ≡ None
            → WriteCauses (fault_of result)
            (O.failure_count sink.old.device) (O.failure_count sink.new.device) }
        ensures passed { (f : Fault) → sink.old.fault ≡ Some f → sink.new ≡ sink.old }
        ensures limits { limits self.new ≡ limits self.old }

        // Memory, on every exit.
        ensures charges { Charges meter.old meter.new
            (own self.old) (own self.new) (most self.old) }
        ensures most { most self.new ≡ most self.old };

    /// Takes a plain item as `item` takes items, or declines it: then it answers false, and nothing
    /// is changed. Nothing fails, and no device is used. No clause says which items it takes.
    ///
    /// It is called where neither the writer nor its sink has failed. What the item says of its parts
    /// is so: a name or an annotation is written as its quoting says, and the text that it comes with
    /// (`spelled`) is that of its head.
    fn take_plain(
        &mut self,
        meter: &mut Meter<A>,
        sink: &mut Sink<O, A>,
        item: PlainItem<'_, '_>,
    ) -> bool
        requires room { meter.old.held ≤ 2 ^ 62 }
        requires held { own self.old ≤ meter.old.held }
        requires countable { meter.old.refused < 2 ^ 64 - 1 }
        requires sound { sound self.old }
        requires fresh { failed self.old ≡ None }
        requires well { sink.old.fault ≡ None }
        requires plain { IsPlainItem (placed_item item) }
        requires simple { SaysRightly item }
        requires spelled { IsSpelled item }
        requires path { (path : List PlacedItem) × stands self.old path
            × Continues (limits self.old) path (placed_item item) }
        ensures sound { sound self.new }

        // What is put, for whatever items the writer stands after.
        ensures stands { result ≡ true → (path : List PlacedItem) → stands self.old path
            → Continues (limits self.old) path (placed_item item.entry)
            → stands self.new (path ++ placed_item item.entry ∷ [])
            × (refusal (limits self.old) path (placed_item item.entry) ≡ None) }
        ensures puts { result ≡ true → (path : List PlacedItem) → stands self.old path
            → Continues (limits self.old) path (placed_item item.entry)
            → sink.new.pending
            ≡ sink.old.pending ++ adds (limits self.old) path (placed_item item.entry) }
        ensures declines { result ≡ false
            → (self.new ≡ self.old) × (sink.new ≡ sink.old) × (meter.new ≡ meter.old) }

        // What stays.
        ensures same { (failed self.new ≡ failed self.old) × (limits self.new ≡ limits self.old)
            × (most self.new ≡ most self.old) }
        ensures device { (sink.new.device ≡ sink.old.device)
            × (sink.new.fault ≡ sink.old.fault) }
        ensures counted { meter.new.refused ≡ meter.old.refused }
        ensures charges { Charges meter.old meter.new
            (own self.old) (own self.new) (most self.old) };

    /// What is put for one item more.
    ghost grows: { (limits : Limits) (path : List PlacedItem) (item : PlacedItem)
        → refusal limits path item ≡ None
        → puts limits (path ++ item ∷ []) ≡ puts limits path ++ adds limits path item };

    /// Nothing is put for an item that is refused.
    ghost silent: { (limits : Limits) (path : List PlacedItem) (item : PlacedItem)
        (why : Reason × ℕ)
        → refusal limits path item ≡ Some why → adds limits path item ≡ [] };

    /// What holds of the memory of every writer.
    ghost within: { (s : Self) → sound s → WritesWithin (own s) (most s) };
}
