//! A raw reader's user values, put by a writer and flushed.
ghost use Rattle.std.specs.Prelude.{◌≡◌, ◌≢◌, ◌⊎◌, ◌↔◌, ℕ, ◌+◌, ◌*◌, ◌^◌, List, [], Err, OnOk};
ghost use Rattle.ion_meter.specs.declared.fault.Fault.TheVariants.{WriteFault};
ghost use Rattle.ion_meter.specs.Windows.{so_far, HasPrefix};
ghost use Rattle.ion_value.specs.Reading.{items_of};
ghost use Rattle.ion_value.specs.Shares.{Charges};
ghost use Rattle.ion_value.specs.Outcome.{verdict_after, output_after};
ghost use Rattle.ion_symbols.specs.Users.{at_start, users};
ghost use Rattle.ion_transcode.specs.Calls.{Causes, HasRoom, IsFresh, MayWrite, PassesOn};
ghost use Rattle.ion_transcode.specs.Calls.{PutsOutput, SaysVerdict, StaysSound, StaysWell, WritesOutput};

use crate::copy_items::copy_items;
use ion_meter::device::Output;
use ion_meter::fault::Fault;
use ion_meter::limits::Limits;
use ion_meter::meter::Meter;
use ion_meter::sink::Sink;
use ion_symbols::catalog::Catalog;
use ion_symbols::user::UserReader;
use ion_value::reader::RawReader;
use ion_value::writer::ValueWriter;
use std::alloc::Allocator;

/// Writes all that was put where the stream was accepted or refused; a failure of that takes the
/// place of the outcome.
fn finish<O: Output, A: Allocator + Copy>(
    sink: &mut Sink<O, A>,
    outcome: Result<u64, Fault>,
) -> Result<u64, Fault>
    requires well { StaysWell outcome sink.old.fault }
    ensures passes { PassesOn outcome result }
    ensures writes { O.observable sink.old.device → (due before : List ℕ)
        → PutsOutput due outcome before (so_far O.written sink.old) (O.written sink.old.device)
        → WritesOutput due result before (O.written sink.new.device) }
    ensures write { result ≡ Err WriteFault
        → ((outcome ≡ Err WriteFault)
        × (O.failure_count sink.new.device ≡ O.failure_count sink.old.device))
        ⊎ ((outcome ≢ Err WriteFault)
        × (O.failure_count sink.new.device ≡ O.failure_count sink.old.device + 1)) }
    ensures steady { result ≢ Err WriteFault
        → O.failure_count sink.new.device ≡ O.failure_count sink.old.device }
    ensures still_observable { O.observable sink.new.device ↔ O.observable sink.old.device }
    ensures grown { O.observable sink.old.device
        → HasPrefix (O.written sink.new.device) (O.written sink.old.device) }
{
    match outcome {
        Ok(_) | Err(Fault::Refused(..)) => {
            if let Err(fault) = sink.flush() {
                return Err(fault);
            }
            outcome
        }
        Err(_) => outcome,
    }
}

/// Puts all user values that a raw reader gives, writes what was put where the stream was accepted
/// or refused, and hands the raw reader out.
pub fn copy_stream<R: RawReader<A>, W: ValueWriter<O, A>, O: Output, A: Allocator + Copy>(
    meter: &mut Meter<A>,
    catalog: &Catalog<A>,
    limits: Limits,
    raw: R,
    writer: &mut W,
    sink: &mut Sink<O, A>,
) -> (Result<u64, Fault>, R)
    requires room { HasRoom (2 ^ 59) (R.own raw + W.own writer.old) meter.old }
    requires reader { IsFresh R.RawReader limits raw }
    requires writer { MayWrite W.ValueWriter (R.depth raw) writer.old sink.old }
    ensures says { R.observable raw
        → SaysVerdict (verdict_after (W.refusal (W.limits writer.old)) []
        (users catalog.now limits.symbols at_start (R.reading raw))) result.0 }
    ensures writes { R.observable raw → O.observable sink.old.device
        → WritesOutput (output_after (W.puts (W.limits writer.old))
        (W.refusal (W.limits writer.old)) []
        (users catalog.now limits.symbols at_start (R.reading raw))) result.0
        (so_far O.written sink.old) (O.written sink.new.device) }
    ensures causes { Causes result.0 meter.old meter.new (R.failures raw) (R.failures result.1)
        (R.exceeds raw) O.Output sink.old.device sink.new.device }
    ensures bytes { OnOk result.0 (R.bytes_left raw) }
    ensures input { R.observable result.1 ↔ R.observable raw }
    ensures taken { R.read_on raw result.1 }
    ensures stands { R.observable raw → OnOk result.0 (W.stands writer.new
        (items_of (users catalog.now limits.symbols at_start (R.reading raw)))) }
    ensures writer { StaysSound W.ValueWriter writer.old writer.new }
    ensures charges { Charges meter.old meter.new (R.own raw + W.own writer.old)
        (R.own result.1 + W.own writer.new)
        (R.most raw + 2 * limits.symbols + W.most writer.old) }
{
    let mut reader = UserReader::new(meter, limits, raw, catalog);
    let outcome = copy_items(meter, &mut reader, writer, sink);
    let outcome = finish(sink, outcome);
    let raw = reader.release(meter);
    (outcome, raw)
}
