//! Which catalogues are loaded, in whatever pieces they come, and which are refused.

use super::devices::Giving;
use super::runs::{Case, LIMITS, text};
use super::same::{same, same_at};
use super::tables::{Kind, expect_rows};
use ion_meter::fault::Fault;
use ion_meter::limits::Limits;
use ion_meter::meter::Meter;
use ion_meter::stream::{FromRead, ToWrite};
use ion_symbols::catalog::Catalog;
use ion_transcode::load::load_catalog;
use ion_transcode::run::{bound, run};
use ion_transcode::to::{Form, To};
use std::alloc::Global;
use std::fmt::Write;
use std::io::Read;
use std::process::Abort;
use std::test::Fail;

/// What a catalogue of one table x, version 1, with the texts p and q costs.
const COST: u64 = 67;

/// Asserts that a catalogue has that one table and no other.
fn expect_table(rt: &impl Abort, catalog: &Catalog<Global>) {
    same(rt, catalog.len(), 1);
    match catalog.find("x", 1) {
        None => panic!(rt; "the table is not there"),
        Some(table) => {
            same(rt, table.len(), 2);
            same(rt, table.get(0), Some(b"p".as_slice()));
            same(rt, table.get(1), Some(b"q".as_slice()));
        }
    }
}

/// Loads a catalogue: the fault, or none where it has that one table and no other. What it costs is
/// held, after a fault nothing, and at no moment more than the bound.
fn fault_of<R: Read + Drop>(
    rt: &impl Abort,
    alloc: Global,
    limits: Limits,
    reader: R,
) -> Option<Fault> {
    assert!(rt; limits.check());
    let mut meter = Meter::new(alloc);
    let (outcome, _input) = load_catalog(&mut meter, limits, FromRead::new(reader));
    assert!(rt; meter.peak() <= bound(limits, Form::Text, To::Nothing) + limits.symbols);
    let fault = match outcome {
        Ok(catalog) => {
            same(rt, meter.held(), COST);
            expect_table(rt, &catalog);
            catalog.release(&mut meter);
            None
        }
        Err(fault) => Some(fault),
    };
    same(rt, meter.held(), 0);
    fault
}

/// Asserts why and where a catalogue is refused, in one piece or a byte a read, or that it is loaded and has
/// one table.
pub fn expect_load(rt: &impl Abort, alloc: Global, case: Case) {
    let want = case.want.err();
    let whole = fault_of(rt, alloc, case.limits, case.input);
    same_at(rt, "at once", case.row, 0, whole, want);
    let pieces = fault_of(rt, alloc, case.limits, Giving::all(case.input, 1));
    same_at(rt, "a byte a read", case.row, 0, pieces, want);
}

/// The table with its name first.
pub const NAME_FIRST: &str =
    "$ion_shared_symbol_table::{name:\"x\",version:1,symbols:[\"p\",\"q\"]}";

/// Texts of that table alone.
pub const ONE_TABLE: &str = r#"
$ion_shared_symbol_table::{name:"x",version:1,symbols:["p","q"]}|1|
$ion_shared_symbol_table::{symbols:["p","q"],version:1,name:"x"}|1|
'$ion_shared_symbol_table'::b::{max_id:5,symbols:[a::"p","q"],name:c::"x"}|1|
$9::{version:-3,a:[{name:1}],symbols:["p","q"],name:'''x'''} // all|1|
$ion_symbol_table::{symbols:["name"]} $9::{$10:"x",version:[2],symbols:["p","q"]}|1|
"#;

#[test]
fn one_table(rt: HostRuntime) {
    expect_rows(&rt, rt.alloc(), Kind::Catalogues, ONE_TABLE);
    let binary = "%E0%01%00%EA%EE%8F%81%89%DC%84%81x%85!%01%87%B4%81p%81q|1|";
    expect_rows(&rt, rt.alloc(), Kind::Catalogues, binary);
}

#[test]
fn no_tables(rt: HostRuntime) -> Result<(), Fail> {
    let alloc = rt.alloc();
    for octets in [
        b"".as_slice(),
        b"\xE0\x01\x00\xEA",
        b"$ion_1_0 /**/".as_slice(),
    ] {
        let mut meter = Meter::new(alloc);
        let (outcome, _input) = load_catalog(&mut meter, LIMITS, FromRead::new(octets));
        match outcome {
            Ok(catalog) => assert!(rt; catalog.is_empty()),
            Err(_) => panic!(rt; "no catalogue"),
        }
        same(&rt, meter.held(), 0);
    }
    Ok(())
}

/// Catalogues that are refused.
const REFUSED: &str = r#"
5|CatalogEntry 0|
{name:"x"}|CatalogEntry 0|
b::$9::{name:"x"}|CatalogEntry 0|
$9::null.struct|CatalogEntry 0|
 $9::[]|CatalogEntry 1|
$9::{}|CatalogEntry 0|
# Found at the field, before what is after it is read.
$9::{name:"","|CatalogEntry 0|
$9::{name:"$ion","|CatalogEntry 0|
$9::{name:x,"|CatalogEntry 0|
$9::{name:"x",name:"x","|CatalogEntry 0|
$9::{name:"x",version:2147483648,"|CatalogEntry 0|
$9::{version:null,version:1,"|CatalogEntry 0|
$9::{symbols:5,symbols:["|CatalogEntry 0|
$9::{imports:["|CatalogEntry 0|
$ion_shared_symbol_table::{name:"x",version:1} $ion_shared_symbol_table::{name:"x"}|CatalogEntry 47|
$9::{name:"x",version:2147483647} []|CatalogEntry 34|
# All else is refused as by a run.
$9::{name:"x"|Truncated 13|
$9::{name:"x",$10:1}|BadSymbol 14|
$ion_symbol_table::{imports:[{name:"x"}]}|BadTable 29|
%E0%01%00%EA!%05|CatalogEntry 4|
"#;

#[test]
fn refused_catalogues(rt: HostRuntime) {
    expect_rows(&rt, rt.alloc(), Kind::Catalogues, REFUSED);
}

/// Catalogues under limits. The name's 32 are counted with it.
const LIMITED: &str = r#"
$ion_shared_symbol_table::{name:"x",version:1,symbols:["p","q"]}|SymbolLimit 59|symbols=66|
$ion_shared_symbol_table::{name:"x",version:1,symbols:["p","q"]}|SymbolLimit 55|symbols=49|
$ion_shared_symbol_table::{name:"x",version:1,symbols:["p","q"]}|SymbolLimit 32|symbols=32|
$ion_shared_symbol_table::{symbols:["p","q"],version:1,name:"x"}|SymbolLimit 60|symbols=66|
$ion_shared_symbol_table::{symbols:["p","q"],version:1,name:"x"}|SymbolLimit 40|symbols=33|
$ion_shared_symbol_table::{symbols:["p","q"],version:1,name:"x"}|SymbolLimit 36|symbols=16|
$ion_shared_symbol_table::{name:"x",version:1,symbols:["p","q"]}|1|symbols=67|input=64|
$ion_shared_symbol_table::{name:"x",version:1,symbols:["p","q"]}|InputLimit|input=63|
"#;

#[test]
fn limits(rt: HostRuntime) {
    expect_rows(&rt, rt.alloc(), Kind::Catalogues, LIMITED);
}

#[test]
fn faults(rt: HostRuntime) -> Result<(), Fail> {
    let reader = Giving {
        fails: true,
        ..Giving::all(NAME_FIRST.as_bytes(), 5)
    };
    same(
        &rt,
        fault_of(&rt, rt.alloc(), LIMITS, reader),
        Some(Fault::ReadFault),
    );
    Ok(())
}

/// Names in order of bytes, of which each has 30 versions in `many_tables`: 2, 4 and so on.
const NAMES: [&str; 10] = ["$", "A", "a", "aa", "ab", "b", "x", "xy", "y", "\u{E9}"];

/// A catalogue of 300 tables, each with one text, its name and version.
fn many_tables(rt: &impl Abort, alloc: Global) -> Result<String, Fail> {
    let mut tables = String::new(alloc);
    for number in 0..300_usize {
        // A factor that has no divisor with 300, so that each comes once, in no order.
        let rank = number * 77 % 300;
        let Some(name) = NAMES.get(rank / 30) else {
            panic!(rt; "no rank {rank}")
        };
        let version = rank % 30 * 2 + 2;
        write!(tables, "$9::{{name:\"{name}\",version:{version},")?;
        write!(tables, "symbols:[\"{name} {version}\"]}}")?;
    }
    Ok(tables)
}

/// Asserts that an import of a name and a version stands for the text of the version that is wanted.
fn expect_import(
    rt: &impl Abort,
    alloc: Global,
    catalog: &Catalog<Global>,
    name: &str,
    version: u32,
    want: u32,
) -> Result<(), Fail> {
    let declared = format!(in alloc; "name:\"{name}\",version:{version},max_id:1")?;
    let stream = format!(in alloc; "$3::{{imports:[{{{declared}}}]}} $10")?;
    let written = format!(in alloc; "'{name} {want}'\n")?;
    let mut meter = Meter::new(alloc);
    let input = FromRead::new(stream.as_bytes());
    let output = ToWrite::new(Vec::new(alloc));
    let (outcome, _input, output) = run(&mut meter, catalog, LIMITS, To::Text, input, output);
    same(rt, outcome, text(1));
    let output = output.into_inner();
    same(rt, output.as_slice(), written.as_bytes());
    Ok(())
}

/// Versions that are asked for, and which are taken: where one is not there, the greatest.
const TAKEN: [(u32, u32); 8] = [
    (2, 2),
    (30, 30),
    (60, 60),
    (1, 60),
    (3, 60),
    (59, 60),
    (61, 60),
    (2_147_483_648, 60),
];

#[test]
fn an_import_takes_its_version_or_the_greatest(rt: HostRuntime) -> Result<(), Fail> {
    let alloc = rt.alloc();
    let tables = many_tables(&rt, alloc)?;
    let mut meter = Meter::new(alloc);
    let input = FromRead::new(tables.as_bytes());
    let (outcome, _input) = load_catalog(&mut meter, LIMITS, input);
    match outcome {
        Err(_) => panic!(rt; "no catalogue"),
        Ok(catalog) => {
            same(&rt, catalog.len(), 300);
            for name in NAMES {
                for (version, want) in TAKEN {
                    expect_import(&rt, alloc, &catalog, name, version, want)?;
                }
            }
            catalog.release(&mut meter);
            same(&rt, meter.held(), 0);
        }
    }
    Ok(())
}
