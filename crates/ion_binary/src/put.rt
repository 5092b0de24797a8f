//! Octets that are put in parts.
ghost use Rattle.std.specs.Prelude.{◌≡◌, None};
ghost use Rattle.ion_meter.specs.Sinks.{IsPut};

use ion_meter::device::Output;
use ion_meter::fault::Fault;
use ion_meter::sink::Sink;
use std::alloc::Allocator;

/// Puts these octets.
#[inline(always)]
pub(crate) fn put<O: Output, A: Allocator + Copy>(
    sink: &mut Sink<O, A>,
    octets: &[u8],
) -> Result<(), Fault>
    requires well { sink.old.fault ≡ None }
    ensures { IsPut O.Output sink.old sink.new result octets.now }
{
    sink.put(octets)
}
