//! Parts taken from the window of a source: where it does not show one whole, it is filled, and the part
//! is scanned again.
ghost use Rattle.std.specs.Prelude.{◌^◌, ◌<◌, length, Some, OnOk, IfOk};
ghost use Rattle.ion_binary.specs.Descriptor.{var_uint_at};
ghost use Rattle.ion_binary.specs.Scanned.{IsFound, IsRegion, Refills, as_around, itself_found, part_at};
ghost use Rattle.ion_meter.specs.Sources.{Stands};
ghost use Rattle.ion_meter.specs.Windows.{lent};
ghost use Rattle.ion_value.specs.Answers.{itself};
ghost use Rattle.ion_value.specs.Calls.{AnswersBy, Reads};

use crate::scan::{Found, Region, Scanned, scan_part, scan_var};
use ion_meter::device::Input;
use ion_meter::fault::{Fault, Reason};
use ion_meter::profile::Rules;
use ion_meter::source::Source;
use std::alloc::Allocator;

// Reads until the window has an octet more than now, in a part that begins at a place.
#[cold]
#[inline(never)]
fn refill<I: Input, A: Allocator + Copy>(source: &mut Source<I, A>, place: u64) -> Result<(), Fault>
    requires stands { Stands source.old }
    requires short { length (lent source.old) < 16 }
    ensures { Refills I.Input source.old source.new place result }
{
    match source.peek(source.buffer().len()) {
        Err(fault) => Err(fault),
        Ok(None) => Err(Fault::Refused(Reason::Truncated, place)),
        Ok(Some(_)) => Ok(()),
    }
}

/// The VarUInt here, in a part that begins at a place, where the region ends at another.
pub(crate) fn next_var_uint<I: Input, A: Allocator + Copy>(
    source: &mut Source<I, A>,
    end: u64,
    place: u64,
) -> Result<u64, Fault>
    requires stands { Stands source.old }
    ensures gives { AnswersBy I.Input itself source.old source.new place result
        (var_uint_at (Some end)) }
    ensures fits { IfOk result (λ n. n < 2 ^ 63) }
    ensures taken { OnOk result (source.old.place < source.new.place) }
    ensures reads { Reads I.Input source.old source.new result }
{
    'scans: loop {
        match scan_var(source.buffer(), source.place(), end) {
            Scanned::Fault(reason) => return Err(Fault::Refused(reason, place)),
            Scanned::Whole(number, count) => {
                source.consume(count);
                return Ok(number);
            }
            Scanned::Cut => {
                if let Err(fault) = refill(source, place) {
                    return Err(fault);
                }
            }
        }
    }
}

/// What the descriptor here and the length after it begin.
#[inline(always)]
pub(crate) fn next_part<I: Input, A: Allocator + Copy>(
    source: &mut Source<I, A>,
    region: Region,
    limits: Rules,
    place: u64,
) -> Result<Found, Fault>
    requires stands { Stands source.old }
    requires region { IsRegion region }
    ensures gives { AnswersBy I.Input itself_found source.old source.new place result
        (part_at limits (as_around region)) }
    ensures found { IfOk result (IsFound limits (as_around region)) }
    ensures taken { OnOk result (source.old.place < source.new.place) }
    ensures reads { Reads I.Input source.old source.new result }
{
    'scans: loop {
        match scan_part(source.buffer(), source.place(), region, limits) {
            Scanned::Fault(reason) => return Err(Fault::Refused(reason, place)),
            Scanned::Whole(found, count) => {
                source.consume(count);
                return Ok(found);
            }
            Scanned::Cut => {
                if let Err(fault) = refill(source, place) {
                    return Err(fault);
                }
            }
        }
    }
}
