//! What counts items, as a writer that puts nothing of them.
ghost use Rattle.std.specs.Prelude.{if◌then◌else◌, ◌≡◌, ◌==◌, ◌||◌, ◌-◌, ◌^◌, ◌<◌, ◌∷◌, ◌++◌, [], List, ℕ, Some, None, Ok, IfOk, IfErr, ⊤};
ghost use Rattle.ion_meter.specs.declared.fault.Fault.TheVariants.{InputLimit};
ghost use Rattle.ion_meter.specs.Limits.{AreChecked};
ghost use Rattle.ion_value.specs.Items.{raw_head};
ghost use Rattle.ion_value.specs.Value.{PlacedItem};
ghost use Rattle.ion_text_in.specs.Firm.{is_firm};
ghost use Rattle.ion_transcode.specs.declared.in_parts.counting.Counted as code;
ghost use Rattle.ion_transcode.specs.PartCalls.{AreCounted, HasTaken, marker_at};
ghost use Rattle.std.proofs.Common.{arith, refl};

use super::counting::Counted;
use crate::nothing::NoWriter;
use ion_meter::device::Output;
use ion_meter::fault::Fault;
use ion_meter::limits::Limits;
use ion_meter::meter::Meter;
use ion_meter::sink::Sink;
use ion_value::item::{Head, Item};
use ion_value::names::Names;
use ion_value::plain_item::PlainItem;
use ion_value::quoting::{NameText, bare};
use ion_value::writer::ValueWriter;
use std::alloc::Allocator;

/// One text for all ids but those of `$0` and of `$ion_symbol_table`: a reader hands items on whose
/// symbols are ids, where their texts do not matter, but for declarations.
#[derive(Clone, Copy)]
pub(crate) struct OneName;

impl Names for OneName {
    ghost text = { λ _ id. if (id == 0 || id == 3) then None else Some (97 ∷ []) };

    ghost zero = { λ _. refl };

    #[inline]
    fn text_of(&self, id: u32) -> Option<&[u8]> {
        if id == 0 || id == 3 {
            return None;
        }
        Some(b"a")
    }

    #[inline]
    fn name_text(&self, id: u32) -> Option<NameText<'_>> {
        if id == 0 || id == 3 {
            return None;
        }
        Some(bare(b"a"))
    }
}

/// Whether an item ends with its last token, whatever follows.
#[inline]
pub(crate) fn is_firm(head: &Head<'_>) -> bool
    ensures { result ≡ is_firm (raw_head head.now) }
{
    !matches!(*head, Head::Symbol(_) | Head::String(_) | Head::Marker)
}

/// Counts the items that it takes, and puts nothing of them. It refuses nothing.
#[derive(Drop)]
pub(crate) struct Counter {
    writer: NoWriter,
    // How many items were taken. Where they are more than this can count, it stays at the most.
    items: u64,
    // Whether the last of them ends firmly, where there is one.
    is_firm: bool,
}

impl Counter {
    /// No item is counted.
    pub(crate) fn new(limits: Limits) -> Counter
        requires checked { AreChecked limits }
        ensures limits { result.writer.limits ≡ limits }
        ensures well { result.writer.failed ≡ None }
        ensures nothing { HasTaken [] result.items result.is_firm }
    {
        Counter {
            writer: NoWriter::new(limits),
            items: 0,
            is_firm: true,
        }
    }

    /// Counts an item, which may be a version marker too.
    #[inline(always)]
    pub(crate) fn count(&mut self, head: &Head<'_>)
        ensures writer { self.new.writer ≡ self.old.writer }
        ensures counts { (path : List PlacedItem) (item : PlacedItem) → item.head ≡ raw_head head.now
            → HasTaken path self.old.items self.old.is_firm
            → HasTaken (path ++ item ∷ []) self.new.items self.new.is_firm }
    {
        self.items = self.items.saturating_add(1);
        self.is_firm = is_firm(head);
    }

    /// How many items were taken, or `InputLimit` where they are more than can be counted.
    pub(crate) fn taken(&self) -> Result<u64, Fault>
        ensures items { IfOk result (λ n. (n ≡ self.now.items) × (n < 2 ^ 64 - 1)) }
        ensures full { IfErr result (λ f. f ≡ InputLimit) }
    {
        if self.items == u64::MAX {
            return Err(Fault::InputLimit);
        }
        Ok(self.items)
    }

    /// What is known of them, with what is known of version markers among them.
    pub(crate) fn counted(&self, is_marked: bool) -> Result<Counted, Fault>
        ensures counts { (c : code.Counted) → result ≡ Ok c → (path : List PlacedItem)
            → HasTaken path self.now.items self.now.is_firm → (at : ℕ)
            → is_marked ≡ marker_at at path → AreCounted at path c }
        ensures full { IfErr result (λ f. f ≡ InputLimit) }
    {
        match self.taken() {
            Err(fault) => Err(fault),
            Ok(items) => Ok(Counted {
                items,
                is_firm: self.is_firm,
                is_marked,
            }),
        }
    }
}

impl<O: Output, A: Allocator + Copy> ValueWriter<O, A> for Counter {
    ghost puts = { λ limits path. [] };

    ghost adds = { λ limits path item. [] };

    ghost refusal = { λ limits path item. None };

    ghost limits = { λ w. w.writer.limits };

    ghost is_new = { λ w. (w.writer.failed ≡ None) × HasTaken [] w.items w.is_firm };

    ghost stands = { λ w path. (w.writer.failed ≡ None) × HasTaken path w.items w.is_firm };

    ghost failed = { λ w. w.writer.failed };

    ghost own = { λ w. 0 };

    ghost most = { λ w. 0 };

    ghost sound = { λ w. ⊤ };

    fn begin(&mut self, sink: &mut Sink<O, A>) -> Result<(), Fault> {
        self.writer.begin(sink)
    }

    fn item<N: Names>(
        &mut self,
        meter: &mut Meter<A>,
        sink: &mut Sink<O, A>,
        item: &Item<'_, N>,
    ) -> Result<(), Fault> {
        match self.writer.item(meter, sink, item) {
            Err(fault) => Err(fault),
            Ok(()) => {
                self.count(&item.head());
                Ok(())
            }
        }
    }

    #[inline(always)]
    fn take_plain(
        &mut self,
        _meter: &mut Meter<A>,
        _sink: &mut Sink<O, A>,
        item: PlainItem<'_, '_>,
    ) -> bool {
        self.count(&item.head);
        true
    }

    ghost grows = { λ limits path item none. refl };

    ghost silent = { λ limits path item why e. absurd (Prim.cc e) };

    ghost within = { λ s sound. record { share = Prim.omega arith; small = Prim.omega arith } };
}
