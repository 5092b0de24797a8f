//! The writer of nothing, and a device for what writes nothing.
ghost use Rattle.std.specs.Prelude.{◌≡◌, [], None, ⊤};
ghost use Rattle.ion_meter.specs.Limits.{AreChecked};
ghost use Rattle.std.proofs.Common.{arith, refl};

use ion_meter::device::{Broken, Output};
use ion_meter::fault::Fault;
use ion_meter::limits::Limits;
use ion_meter::meter::Meter;
use ion_meter::sink::Sink;
use ion_value::item::Item;
use ion_value::names::Names;
use ion_value::plain_item::PlainItem;
use ion_value::writer::ValueWriter;
use std::alloc::Allocator;

/// Puts nothing of any item. It holds nothing and refuses nothing.
#[derive(Drop)]
pub struct NoWriter {
    limits: Limits,
    failed: Option<Fault>,
}

impl NoWriter {
    pub fn new(limits: Limits) -> NoWriter
        requires checked { AreChecked limits }
        ensures limits { result.limits ≡ limits }
        ensures failed { result.failed ≡ None }
    {
        NoWriter {
            limits,
            failed: None,
        }
    }
}

impl<O: Output, A: Allocator + Copy> ValueWriter<O, A> for NoWriter {
    ghost puts = { λ limits path. [] };

    ghost adds = { λ limits path item. [] };

    ghost refusal = { λ limits path item. None };

    ghost limits = { λ w. w.limits };

    ghost is_new = { λ w. w.failed ≡ None };

    ghost stands = { λ w path. w.failed ≡ None };

    ghost failed = { λ w. w.failed };

    ghost own = { λ w. 0 };

    ghost most = { λ w. 0 };

    ghost sound = { λ w. ⊤ };

    fn begin(&mut self, sink: &mut Sink<O, A>) -> Result<(), Fault> {
        let outcome = sink.put(b"");
        if let Err(fault) = outcome {
            self.failed = Some(fault);
        }
        outcome
    }

    fn item<N: Names>(
        &mut self,
        _meter: &mut Meter<A>,
        sink: &mut Sink<O, A>,
        _item: &Item<'_, N>,
    ) -> Result<(), Fault> {
        if let Some(fault) = self.failed {
            return Err(fault);
        }
        let outcome = sink.put(b"");
        if let Err(fault) = outcome {
            self.failed = Some(fault);
        }
        outcome
    }

    #[inline(always)]
    fn take_plain(
        &mut self,
        _meter: &mut Meter<A>,
        _sink: &mut Sink<O, A>,
        _item: PlainItem<'_, '_>,
    ) -> bool {
        true
    }

    ghost grows = { λ limits path item none. refl };

    ghost silent = { λ limits path item why e. absurd (Prim.cc e) };

    ghost within = { λ s sound. record { share = Prim.omega arith; small = Prim.omega arith } };
}

/// A device that takes all bytes and keeps none.
#[derive(Drop)]
pub(crate) struct NoOutput;

impl Output for NoOutput {
    ghost written = { λ _. [] };

    ghost failure_count = { λ _. 0 };

    ghost observable = { λ _. ⊥ };

    fn write(&mut self, bytes: &[u8]) -> Result<usize, Broken> {
        Ok(bytes.len())
    }

    fn failures(&self) -> u64 {
        0
    }
}
