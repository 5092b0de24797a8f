//! A catalogue, loaded from a stream of shared tables.
ghost use Rattle.std.specs.Prelude.{◌≡◌, ◌≢◌, ◌↔◌, ◌+◌, ◌-◌, ◌*◌, ◌^◌, ◌<◌, ◌≤◌, ℕ, max, length, None, Err, IfOk, OnOk};
ghost use Rattle.ion_meter.specs.declared.fault.Reason.{Reason};
ghost use Rattle.ion_meter.specs.declared.fault.Fault.TheVariants.{Refused, Memory, ReadFault, WriteFault, InputLimit};
ghost use Rattle.ion_meter.specs.Devices.{IsReadOn};
ghost use Rattle.ion_meter.specs.Limits.{AreChecked};
ghost use Rattle.ion_meter.specs.Sources.{BytesAreLeft};
ghost use Rattle.ion_meter.specs.Windows.{left, AreBytes};
ghost use Rattle.ion_value.specs.Outcome.{Rejected};
ghost use Rattle.ion_value.specs.Shares.{Charges};
ghost use Rattle.ion_symbols.specs.Table.{catalog_cost};
ghost use Rattle.ion_symbols.specs.UserValues.{CatalogIsText};
ghost use Rattle.ion_transcode.specs.declared.to.Form.TheVariants as form;
ghost use Rattle.ion_transcode.specs.declared.to.To.TheVariants as to;
ghost use Rattle.ion_transcode.specs.Bound.{share};
ghost use Rattle.ion_transcode.specs.Calls.{Begins, HasRoom, IsFresh};
ghost use Rattle.ion_transcode.specs.Catalogues.{HasCatalogVerdict, IsCatalog, LoadCauses, LoadCharges, SaysCatalog, catalog_reading, kept_in, load_bound};

use crate::copy_stream::copy_stream;
use crate::laws::{catalog_verdicts_are_read, catalogs_are_loaded, catalogs_are_text};
use crate::nothing::NoOutput;
use crate::to::{Form, form_by_first};
use ion_binary::reader::BinReader;
use ion_meter::device::Input;
use ion_meter::fault::Fault;
use ion_meter::limits::Limits;
use ion_meter::meter::Meter;
use ion_meter::sink::Sink;
use ion_meter::source::Source;
use ion_symbols::catalog::Catalog;
use ion_symbols::catalog_builder::CatalogBuilder;
use ion_text_in::reader::TextReader;
use ion_value::reader::RawReader;
use std::alloc::Allocator;

/// Reads a raw reader to its end or its fault and builds a catalogue from its user values. It hands
/// the raw reader back.
fn build<R: RawReader<A>, A: Allocator + Copy>(
    meter: &mut Meter<A>,
    limits: Limits,
    raw: R,
    sink: &mut Sink<NoOutput, A>,
) -> (Result<Catalog<A>, Fault>, R)
    requires room { HasRoom (2 ^ 59) (R.own raw) meter.old }
    requires reader { IsFresh R.RawReader limits raw }
    requires sink { sink.old.fault ≡ None }
    ensures says { R.observable raw → SaysCatalog limits (R.reading raw) result.0 }
    ensures causes { LoadCauses result.0 meter.old meter.new (R.failures raw) (R.failures result.1)
        (R.exceeds raw) }
    ensures bytes { OnOk result.0 (R.bytes_left raw) }
    ensures input { R.observable result.1 ↔ R.observable raw }
    ensures taken { R.read_on raw result.1 }
    ensures cheap { kept_in result.0 ≤ limits.symbols }
    ensures charges { Charges meter.old meter.new (R.own raw) (R.own result.1 + kept_in result.0)
        (R.most raw + 3 * limits.symbols) }
{
    let empty = Catalog::new(meter);
    let mut builder = CatalogBuilder::new(meter, limits);
    let (outcome, raw) = copy_stream(meter, &empty, limits, raw, &mut builder, sink);
    empty.release(meter);
    match outcome {
        Ok(_) => (Ok(builder.into_catalog(meter)), raw),
        Err(fault) => {
            builder.release(meter);
            (Err(fault), raw)
        }
    }
}

/// A catalogue from a stream whose windows are made.
fn load_buffered<I: Input, A: Allocator + Copy>(
    meter: &mut Meter<A>,
    limits: Limits,
    mut source: Source<I, A>,
    sink: &mut Sink<NoOutput, A>,
) -> (Result<Catalog<A>, Fault>, I)
    requires room { HasRoom (2 ^ 49) 4096 meter.old }
    requires source { Begins limits source }
    requires sink { sink.old.fault ≡ None }
    ensures says { I.observable source.device
        → SaysCatalog limits (catalog_reading limits (left I.rest source)) result.0 }
    ensures causes { LoadCauses result.0 meter.old meter.new
        (I.failure_count source.device) (I.failure_count result.1)
        (I.observable source.device → limits.input < length (left I.rest source)) }
    ensures bytes { OnOk result.0 (BytesAreLeft I.Input source) }
    ensures input { I.observable result.1 ↔ I.observable source.device }
    ensures taken { IsReadOn I.Input source.device result.1 }
    ensures cheap { kept_in result.0 ≤ limits.symbols }
    ensures charges { Charges meter.old meter.new 4096 (kept_in result.0)
        (4096 + (share limits form.Text to.Nothing + limits.symbols)) }
{
    let form = match source.peek(0) {
        Err(fault) => return (Err(fault), source.release(meter)),
        Ok(first) => form_by_first(first),
    };
    match form {
        Form::Binary => {
            let raw = BinReader::new(meter, limits, source);
            let (outcome, raw) = build(meter, limits, raw, sink);
            (outcome, raw.release(meter))
        }
        Form::Text => {
            let raw = TextReader::new(meter, limits, source);
            let (outcome, raw) = build(meter, limits, raw, sink);
            (outcome, raw.release(meter))
        }
    }
}

/// A catalogue, with what the reading of items says of it.
fn load<I: Input, A: Allocator + Copy>(
    meter: &mut Meter<A>,
    limits: Limits,
    input: I,
) -> (Result<Catalog<A>, Fault>, I)
    requires checked { AreChecked limits }
    requires room { HasRoom (2 ^ 48) 0 meter.old }
    requires device { I.failure_count input < 2 ^ 64 - 1 }
    ensures says { I.observable input
        → SaysCatalog limits (catalog_reading limits (I.rest input)) result.0 }
    ensures causes { LoadCauses result.0 meter.old meter.new
        (I.failure_count input) (I.failure_count result.1)
        (I.observable input → limits.input < length (I.rest input)) }
    ensures bytes { I.observable input → OnOk result.0 (AreBytes (I.rest input)) }
    ensures input { I.observable result.1 ↔ I.observable input }
    ensures taken { IsReadOn I.Input input result.1 }
    ensures charges { LoadCharges limits (kept_in result.0) meter.old meter.new }
{
    let source = match Source::new(meter, limits, input) {
        Ok(source) => source,
        Err(input) => return (Err(Fault::Memory), input),
    };
    let mut sink = match Sink::new(meter, NoOutput) {
        Ok(sink) => sink,
        Err(_) => return (Err(Fault::Memory), source.release(meter)),
    };
    let (outcome, input) = load_buffered(meter, limits, source, &mut sink);
    sink.release(meter);
    (outcome, input)
}

/// Loads a catalogue from a stream, in text or in binary, whose user values are shared tables (Ion
/// specification, "Shared Symbol Tables"), and hands the device back.
///
/// A table is a struct whose first annotation is `$ion_shared_symbol_table`. Its `name` is a string
/// other than the empty one and `$ion`; its `version` is an int from 1 to 2^31 - 1, and 1 where
/// there is none, or what there is is no int or below 1; each element of its list `symbols` is a
/// slot, with a text where it is a string. `name`, `version` and `symbols` stand once at most, and
/// `imports` not at all. A value that is no table, or whose name and version came before, is
/// refused with `CatalogEntry` at its first byte.
///
/// The catalogue costs 32 a table, 16 a slot, and the lengths of names and texts; it is refused with
/// `SymbolLimit` at the name or the element with which that passes `limits.symbols`. All else is
/// refused as by a run that writes nothing, under the empty catalogue. After a fault nothing is
/// held.
pub fn load_catalog<I: Input, A: Allocator + Copy>(
    meter: &mut Meter<A>,
    limits: Limits,
    input: I,
) -> (Result<Catalog<A>, Fault>, I)
    requires checked { AreChecked limits }
    requires held { meter.old.held ≤ 2 ^ 48 }
    requires countable { meter.old.refused < 2 ^ 64 - 1 }
    requires reads { I.failure_count input < 2 ^ 64 - 1 }

    // The catalogue, whose texts are UTF-8, or why there is none; of a catalogue each byte was
    // read, so that all of the input are numbers below 256.
    ensures loaded { I.observable input
        → IfOk result.0 (λ catalog. IsCatalog limits (I.rest input) catalog) }
    ensures bytes { I.observable input → OnOk result.0 (AreBytes (I.rest input)) }
    ensures text { I.observable input → IfOk result.0 (λ catalog. CatalogIsText catalog) }
    ensures refused { I.observable input → (r : Reason) (p : ℕ) → result.0 ≡ Err (Refused r p)
        → HasCatalogVerdict limits (I.rest input) (Rejected r p) }

    // The device that is handed back is the one that was given, after reads alone.
    ensures taken { IsReadOn I.Input input result.1 }

    // Faults, only where they occurred.
    ensures memory { result.0 ≡ Err Memory → meter.old.refused < meter.new.refused }
    ensures counted { result.0 ≢ Err Memory → meter.new.refused ≡ meter.old.refused }
    ensures read { result.0 ≡ Err ReadFault
        → I.failure_count result.1 ≡ I.failure_count input + 1 }
    ensures reads_steady { result.0 ≢ Err ReadFault
        → I.failure_count result.1 ≡ I.failure_count input }
    ensures no_writes { result.0 ≢ Err WriteFault }
    ensures still_observable { I.observable result.1 ↔ I.observable input }
    ensures limit { I.observable input → result.0 ≡ Err InputLimit
        → limits.input < length (I.rest input) }

    // Memory: what the catalogue costs is held, and no more was held than the bound.
    ensures held { meter.new.held ≡ meter.old.held + kept_in result.0 }
    ensures cheap { IfOk result.0 (λ catalog. catalog_cost catalog ≤ limits.symbols) }
    ensures peak { meter.new.peak ≤ max meter.old.peak (meter.old.held + load_bound limits) }
{
    catalog_verdicts_are_read();
    catalogs_are_loaded();
    catalogs_are_text();
    load(meter, limits, input)
}
