//! Runs of which each growth is refused in turn: alone, and with all after it.
ghost use Rattle.std.specs.Prelude.{◌≤◌};
ghost use Rattle.ion_symbols.specs.Table.{catalog_cost};

use super::devices::answer;
use super::growth_rows::{CATALOGS, IMPORTS, LIMITED, OCTETS, TEXTS};
use super::rows::{Verdict, answer_of, form_of, next_bytes, next_verdict};
use super::runs::LIMITS;
use super::same::same;
use super::to_binary::{NESTED, nested_strings};
use ion_meter::fault::Fault;
use ion_meter::limits::Limits;
use ion_meter::meter::Meter;
use ion_meter::stream::{FromRead, ToWrite};
use ion_symbols::catalog::Catalog;
use ion_test_support::fields::{Fields, is_row};
use ion_test_support::refusing::Refusing;
use ion_transcode::load::load_catalog;
use ion_transcode::run::{bound, run};
use ion_transcode::to::{Form, Summary, To};
use linked_list_allocator::LocalHeap;
use std::alloc::{Allocator, Global};
use std::process::Abort;
use std::test::Fail;

/// A run, and what it answers and writes where no growth is refused.
#[derive(Clone, Copy)]
struct Case<'a> {
    catalog: &'a str,
    input: &'a [u8],
    limits: Limits,
    to: To,
    verdict: Verdict,
    output: &'a [u8],
}

/// A stream, with what is shown of it and what is written of it as binary.
#[derive(Clone, Copy)]
struct Row<'a> {
    catalog: &'a str,
    input: &'a [u8],
    limits: Limits,
    verdict: Verdict,
    shown: &'a [u8],
    verdict_to_binary: Verdict,
    octets: &'a [u8],
}

/// A catalogue that is loaded while no growth is refused.
fn load<A: Allocator + Copy>(rt: &impl Abort, meter: &mut Meter<A>, text: &str) -> Catalog<A>
    ensures held { catalog_cost result ≤ meter.new.held }
{
    assert!(rt; LIMITS.check());
    assert!(rt; meter.held() == 0 && meter.refused() == 0);
    let (outcome, _input) = load_catalog(meter, LIMITS, FromRead::new(text.as_bytes()));
    let Ok(catalog) = outcome else {
        panic!(rt; "no catalogue")
    };
    catalog
}

/// What a run answers and writes. All memory has to be given back, and no more be held at any moment
/// than the bound.
fn run_case<A: Allocator + Copy>(
    rt: &impl Abort,
    alloc: Global,
    meter: &mut Meter<A>,
    catalog: &Catalog<A>,
    case: Case,
) -> (Result<Summary, Fault>, Vec<u8>)
    requires held { catalog_cost catalog.now ≤ meter.old.held }
    ensures held { catalog_cost catalog.now ≤ meter.new.held }
{
    assert!(rt; case.limits.check());
    let (held, peak) = (meter.held(), meter.peak());
    assert!(rt; held < 1 << 32 && meter.refused() == 0);
    let input = FromRead::new(case.input);
    let output = ToWrite::new(Vec::new(alloc));
    let (answer, _input, output) = run(meter, catalog, case.limits, case.to, input, output);
    same(rt, meter.held(), held);
    let most = held.saturating_add(bound(case.limits, form_of(case.input), case.to));
    assert!(rt; meter.peak() <= peak.max(most));
    (answer, output.into_inner())
}

/// Asserts what a run answers and writes where growths were refused, or where none was.
fn expect(
    rt: &impl Abort,
    case: Case,
    refused: u64,
    answer: Result<Summary, Fault>,
    output: &[u8],
) {
    let want = if refused == 0 {
        answer_of(case.input, case.verdict)
    } else {
        Err(Fault::Memory)
    };
    same(rt, (case.input, answer), (case.input, want));
    assert!(rt; case.output.starts_with(output));
    assert!(rt; refused > 0 || output.len() == case.output.len());
}

/// Whether a run meets its nth growth, which is refused: alone, or with all after it.
fn is_refused(
    rt: &impl Abort,
    alloc: Global,
    refusing: &Refusing<&LocalHeap>,
    case: Case,
    nth: u64,
    onward: bool,
) -> bool {
    let mut meter = Meter::new(refusing);
    refusing.refuse(0, false);
    let catalog = load(rt, &mut meter, case.catalog);
    refusing.refuse(nth, onward);
    let (answer, output) = run_case(rt, alloc, &mut meter, &catalog, case);
    expect(rt, case, meter.refused(), answer, output.as_slice());
    catalog.release(&mut meter);
    same(rt, meter.held(), 0);
    same(rt, meter.refused() > 0, refusing.has_refused());
    assert!(rt; onward || meter.refused() <= 1);
    refusing.has_refused()
}

/// Refuses the first growth of a run, then the second, and so on until a run meets none; how many
/// were refused. The heap gets all back.
fn refuse_each(rt: &impl Abort, alloc: Global, heap: &LocalHeap, case: Case) -> u64 {
    let refusing = Refusing::new(heap, 0);
    for nth in 1..1_000 {
        let alone = is_refused(rt, alloc, &refusing, case, nth, false);
        let onward = is_refused(rt, alloc, &refusing, case, nth, true);
        same(rt, heap.used(), 0);
        same(rt, (nth, onward), (nth, alone));
        if !alone {
            // The two windows at least.
            assert!(rt; nth > 2);
            return nth - 1;
        }
    }
    panic!(rt; "each run met a refusal")
}

/// Refuses each growth in turn of a stream that is shown, checked and written as binary.
fn refuse_each_way(rt: &impl Abort, alloc: Global, heap: &LocalHeap, row: Row) -> u64 {
    let mut refused: u64 = 0;
    for (to, verdict, output) in [
        (To::Text, row.verdict, row.shown),
        (To::Nothing, row.verdict, b"".as_slice()),
        (To::Binary, row.verdict_to_binary, row.octets),
    ] {
        let case = Case {
            catalog: row.catalog,
            input: row.input,
            limits: row.limits,
            to,
            verdict,
            output,
        };
        refused = refused.saturating_add(refuse_each(rt, alloc, heap, case));
    }
    refused
}

/// Refuses each growth in turn of the stream of a row.
fn refuse_stream(rt: &impl Abort, alloc: Global, heap: &LocalHeap, row: &str) -> u64 {
    let mut fields = Fields::of(row);
    let input = next_bytes(rt, alloc, &mut fields);
    let verdict = next_verdict(rt, &mut fields);
    let shown = next_bytes(rt, alloc, &mut fields);
    let verdict_to_binary = next_verdict(rt, &mut fields);
    let octets = next_bytes(rt, alloc, &mut fields);
    let row = Row {
        catalog: fields.text(),
        input: input.as_slice(),
        limits: fields.limits(LIMITS),
        verdict,
        shown: shown.as_slice(),
        verdict_to_binary,
        octets: octets.as_slice(),
    };
    assert!(rt; fields.is_read());
    refuse_each_way(rt, alloc, heap, row)
}

/// What stands in the rows of a table.
#[derive(Clone, Copy)]
enum Kind {
    Streams,
    Catalogues,
}

/// Refuses each growth in turn of each row of a table.
fn refuse_rows(rt: &impl Abort, alloc: Global, kind: Kind, table: &str) -> Result<u64, Fail> {
    let heap = LocalHeap::new(alloc, 1 << 20)?;
    let mut refused: u64 = 0;
    for row in table.split('\n') {
        if is_row(row) {
            let now = match kind {
                Kind::Streams => refuse_stream(rt, alloc, &heap, row),
                Kind::Catalogues => refuse_catalogue(rt, &heap, row),
            };
            refused = refused.saturating_add(now);
        }
    }
    Ok(refused)
}

#[test]
fn texts(rt: HostRuntime) -> Result<(), Fail> {
    let refused = refuse_rows(&rt, rt.alloc(), Kind::Streams, TEXTS)?;
    assert!(rt; refused > 300);
    Ok(())
}

#[test]
fn limited_texts(rt: HostRuntime) -> Result<(), Fail> {
    let limited = refuse_rows(&rt, rt.alloc(), Kind::Streams, LIMITED)?;
    let importing = refuse_rows(&rt, rt.alloc(), Kind::Streams, IMPORTS)?;
    assert!(rt; limited.saturating_add(importing) > 110);
    Ok(())
}

#[test]
fn octet_streams(rt: HostRuntime) -> Result<(), Fail> {
    let refused = refuse_rows(&rt, rt.alloc(), Kind::Streams, OCTETS)?;
    assert!(rt; refused > 250);
    Ok(())
}

#[test]
fn catalogues(rt: HostRuntime) -> Result<(), Fail> {
    let refused = refuse_rows(&rt, rt.alloc(), Kind::Catalogues, CATALOGS)?;
    assert!(rt; refused > 15);
    Ok(())
}

#[test]
fn a_long_value(rt: HostRuntime) -> Result<(), Fail> {
    let heap = LocalHeap::new(rt.alloc(), 1 << 20)?;
    let mut refused: u64 = 0;
    let input = nested_strings(rt.alloc())?;
    let input = input.as_slice();
    for (to, length) in [(To::Text, 93_840), (To::Binary, 92_484), (To::Nothing, 0)] {
        let (_, output) = answer(&rt, rt.alloc(), NESTED, to, input, Vec::new(rt.alloc()));
        same(&rt, output.len(), length);
        let case = Case {
            catalog: "",
            input,
            limits: NESTED,
            to,
            verdict: Ok(1),
            output: output.as_slice(),
        };
        refused = refused.saturating_add(refuse_each(&rt, rt.alloc(), &heap, case));
    }
    assert!(rt; refused > 20);
    Ok(())
}

/// Whether the loading of a catalogue meets its nth growth, which is refused: alone, or with all
/// after it.
fn is_load_refused(
    rt: &impl Abort,
    refusing: &Refusing<&LocalHeap>,
    text: &str,
    verdict: Verdict,
    nth: u64,
    onward: bool,
) -> bool {
    let mut meter = Meter::new(refusing);
    refusing.refuse(nth, onward);
    assert!(rt; LIMITS.check());
    let (outcome, _input) = load_catalog(&mut meter, LIMITS, FromRead::new(text.as_bytes()));
    let is_met = refusing.has_refused();
    assert!(rt; meter.peak() <= bound(LIMITS, Form::Text, To::Nothing) + LIMITS.symbols);
    let answer = match outcome {
        Ok(catalog) => {
            let held = meter.held();
            catalog.release(&mut meter);
            Ok(held)
        }
        Err(fault) => Err(fault),
    };
    same(rt, meter.held(), 0);
    let want = if is_met { Err(Fault::Memory) } else { verdict };
    same(rt, (text, answer), (text, want));
    same(rt, meter.refused() > 0, is_met);
    assert!(rt; onward || meter.refused() <= 1);
    is_met
}

/// Refuses the first growth of a loading, then the second, and so on until one meets none; how many
/// were refused. The heap gets all back.
fn refuse_each_of_load(rt: &impl Abort, heap: &LocalHeap, text: &str, verdict: Verdict) -> u64 {
    let refusing = Refusing::new(heap, 0);
    for nth in 1..1_000 {
        let alone = is_load_refused(rt, &refusing, text, verdict, nth, false);
        let onward = is_load_refused(rt, &refusing, text, verdict, nth, true);
        same(rt, heap.used(), 0);
        same(rt, (nth, onward), (nth, alone));
        if !alone {
            assert!(rt; nth > 2);
            return nth - 1;
        }
    }
    panic!(rt; "each run met a refusal")
}

/// Refuses each growth in turn of the loading of a row's catalogue.
fn refuse_catalogue(rt: &impl Abort, heap: &LocalHeap, row: &str) -> u64 {
    let mut fields = Fields::of(row);
    let text = fields.text();
    let verdict = next_verdict(rt, &mut fields);
    assert!(rt; fields.is_read());
    refuse_each_of_load(rt, heap, text, verdict)
}
