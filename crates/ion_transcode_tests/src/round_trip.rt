//! What is written of a stream, as text and as binary, shows what the stream shows.

use super::catalogs::{NAME_FIRST, ONE_TABLE};
use super::devices::{answer, answer_by};
use super::runs::{Case, LIMITS, binary, text};
use super::same::same_at;
use super::tables::{Kind, expect_rows};
use ion_meter::limits::Limits;
use ion_meter::meter::Meter;
use ion_meter::stream::FromRead;
use ion_transcode::load::load_catalog;
use ion_transcode::to::{Form, Summary, To};
use std::alloc::Global;
use std::process::Abort;
use std::test::Fail;

/// What a run writes of a stream that it accepts.
fn written(rt: &impl Abort, alloc: Global, case: Case, to: To) -> Vec<u8> {
    let (outcome, out) = answer(rt, alloc, case.limits, to, case.input, Vec::new(alloc));
    same_at(
        rt,
        "there and back",
        case.row,
        0,
        (to, outcome),
        (to, case.want),
    );
    out
}

/// Asserts that binary shows this, is accepted when it is only checked, and is written again as it stands.
fn expect_back<'a>(rt: &impl Abort, alloc: Global, case: Case<'a>, shown: &'a [u8]) {
    for (to, want) in [
        (To::Text, shown),
        (To::Other, shown),
        (To::Nothing, b""),
        (To::Rewritten, case.input),
    ] {
        let back = written(rt, alloc, case, to);
        same_at(rt, "back", case.row, 0, (to, back.as_slice()), (to, want));
    }
}

/// Asserts that a text is written as binary that shows this.
fn expect_there(rt: &impl Abort, alloc: Global, case: Case, values: u64, shown: &[u8]) {
    let octets = written(rt, alloc, case, To::Binary);
    let back = Case {
        input: octets.as_slice(),
        want: binary(values),
        ..case
    };
    expect_back(rt, alloc, back, shown);
}

/// Asserts that what was shown is shown again, and is written as binary that shows it.
fn expect_again(rt: &impl Abort, alloc: Global, case: Case, values: u64) {
    let again = written(rt, alloc, case, To::Text);
    same_at(rt, "shown again", case.row, 0, again.as_slice(), case.input);
    expect_there(rt, alloc, case, values, case.input);
}

/// Asserts that a stream's pretty text shows what the stream shows, that it is its own pretty text, and that
/// it is that of what is shown too.
fn expect_pretty(rt: &impl Abort, alloc: Global, case: Case, values: u64, shown: &[u8]) {
    let pretty = written(rt, alloc, case, To::Pretty);
    let want = text(values);
    for (input, to, output) in [
        (pretty.as_slice(), To::Text, shown),
        (pretty.as_slice(), To::Pretty, pretty.as_slice()),
        (shown, To::Pretty, pretty.as_slice()),
    ] {
        let again = Case {
            input,
            want,
            ..case
        };
        let back = written(rt, alloc, again, to);
        same_at(
            rt,
            "pretty",
            case.row,
            0,
            (to, back.as_slice()),
            (to, output),
        );
    }
}

/// Asserts that a stream goes there and back, if it is accepted: what is shown of it is shown again, and so is
/// its pretty text; and what is written as binary of that, and of the stream itself if it is a text, shows the
/// same.
pub fn expect_round_trip(rt: &impl Abort, alloc: Global, case: Case) {
    if let Ok(Summary { form, values }) = case.want {
        // What is written may be longer than what was read.
        let limits = Limits {
            input: LIMITS.input,
            ..case.limits
        };
        let case = Case { limits, ..case };
        let shown = written(rt, alloc, case, To::Text);
        let again = Case {
            input: shown.as_slice(),
            want: text(values),
            ..case
        };
        expect_again(rt, alloc, again, values);
        expect_pretty(rt, alloc, case, values, shown.as_slice());
        if form == Form::Text {
            expect_there(rt, alloc, case, values, shown.as_slice());
        }
    }
}

/// Texts that are shown as they stand, and how many values they have.
const CANONICAL: &str = r#"
null%0Atrue%0Afalse%0A|3|
[null.bool,null.int,null.float,null.decimal,null.timestamp,null.symbol]%0A|1|
(null.string null.clob null.blob null.list null.sexp null.struct)%0A|1|
# Ints.
340282366920938463463374607431768211455%0A-340282366920938463463374607431768211455%0A|2|
[0,1,-1,255,-256,18446744073709551615,-18446744073709551616]%0A|1|
# Decimals.
[0.,-0.,0d1,-0d1,0.0,-0.00,0d-39,-0d-39]%0A|1|
[1.,-0.1,15d2,1d-39,-1d-39]%0A|1|
[0.00000000000000000000000000000000000001,-0.00000000000000000000000000000000000000]%0A|1|
3.40282366920938463463374607431768211455%0A|1|
-340282366920938463463374607431768211455d-39%0A|1|
[1d2147483647,-1d-2147483647]%0A|1|
# Timestamps.
[0001T,9999T,2007-02T,2004-02-29]%0A|1|
2007-02-03T04:05Z%0A2007-02-03T04:05-00:00%0A|2|
[2007-12-31T23:59:59+00:01,2008-01-01T00:00:00-08:00,2000-01-01T00:00:00.0Z]%0A|1|
[0001-01-01T23:59+23:59,9999-12-31T00:00-23:59]%0A|1|
2000-02-29T00:00:00.00000000000000000000000000000000000000-00:00%0A|1|
9999-12-31T00:00:59.99999999999999999999999999999999999999-23:59%0A|1|
# Symbols.
''%0A$%0A_%0Aa%0A'--'%0A'+inf'%0A'a b'%0A'1'%0A'a.b'%0A|9|
['null','true','false','nan','$ion_1_0','$ion_1_1','$4','$0',$0,name,$4a]%0A|1|
('+' '--' a '.' 'null' ';' '--'::'-' b::('/'))%0A|1|
'\'"\\/?\a\b\t\n\v\f\r\x00\x1f\x7f%C3%A9%F0%9F%98%80'%0A|1|
# Strings.
"'\"\\/?\a\b\t\n\v\f\r\x00\x1f\x7f%C3%A9%F0%9F%98%80"%0A|1|
"\x01\x06\x0e\x1b%C2%80%DF%BF%E0%A0%80%EF%BF%BF%F0%90%80%80%F4%8F%BF%BF"%0A|1|
["","'''","//","abcdefghijklm","abcdefghijklmn"]%0A|1|
# Clobs and blobs.
{{""}}%0A{{"\x00 '/\"\\\x7f\x80\xff"}}%0A|2|
[{{}},{{AA==}},{{AAA=}},{{AAAA}},{{//79}}]%0A|1|
# Annotations.
a::'b c'::$0::'$0'::'null'::''::name::a::1%0A|1|
a::[b::[],c::(),d::{e:f::g::h}]%0Aa::null.list%0A|2|
# What looks like a version marker or a declaration, and is a value.
a::'$ion_1_0'%0A'$ion_1_1'::5%0A'$ion_1_0'%0A{'$ion_1_0':1}%0A|4|
a::$ion_symbol_table::{symbols:["b"]}%0A$ion_symbol_table::null.struct%0A|2|
$ion_symbol_table%0A$ion_symbol_table::[$ion_symbol_table::{symbols:["a"]}]%0A|2|
$ion_shared_symbol_table::{name:"x",version:1,symbols:["a"]}%0A|1|
# Containers.
{'a b':1,'':2,$0:3,'null':4,a:5,a:6,name:7}%0A|1|
[]%0A()%0A{}%0A[[],(),{}]%0A([()] {a:[{}]})%0A|5|
[[[[[[[[[[[[[[[[[[[[[[[[[[[[[[[[[[[[[[[[[[[[[[[[[[[[[[[[[[[[[[[[]]]]]]]]]]]]]]]]]]]]]]]]]]]]]]]]]]]]]]]]]]]]]]]]]]]]]]]]]]]]]]]]%0A|1|
"#;

/// Other texts, how many values they have, and what is shown of them.
const TEXTS: &str = r#"
null.null [-0,0xFF,-0x80,0b101,1_000]|2|null%0A[0,255,-128,5,1000]%0A|
[1d1,1d0,-1d-1,1.5d3,1.0d2147483648]|1|[1d1,1.,-0.1,15d2,10d2147483647]%0A|
2007-02-03T 2007-02-03T04:05+00:00|2|2007-02-03%0A2007-02-03T04:05Z%0A|
('a' a.b '$4' $4 -- a::+ 'b'::(/))|1|(a a '.' b '$4' name '--' a::'+' b::('/'))%0A|
'\'\"\\\/\?\a\b\t\n\v\f\r\0\x7f\xe9\U0001F600'|1|'\'"\\/?\a\b\t\n\v\f\r\x00\x7f%C3%A9%F0%9F%98%80'%0A|
"\'\"\\\/\?\0\x80\u07FF\uFFFF\uDBFF\uDFFFa\%0Ab"|1|"'\"\\/?\x00%C2%80%DF%BF%EF%BF%BF%F4%8F%BF%BFab"%0A|
'''''' '''a\'b%0A''c''' /**/ '''d"\n''' 'e'|2|"a'b\n''cd\"\n"%0Ae%0A|
{{"\0\x41\/"}} {{'''a"''' '''\'b%0A'''}} {{ A A A A }}|3|{{"\x00A/"}}%0A{{"a\"'b\n"}}%0A{{AAAA}}%0A|
{"b":$0::$4::'c'::7,'''d''':8}|1|{b:$0::name::c::7,d:8}%0A|
'a b':: /* c */ d::1 a:: // c%0A 'b c'::2 a:: /**/ b::3|3|'a b'::d::1%0Aa::'b c'::2%0Aa::b::3%0A|
a::$ion_1_0 [$ion_1_0] $ion_1_1::5 $2 $ion_1_0|4|a::'$ion_1_0'%0A['$ion_1_0']%0A'$ion_1_1'::5%0A'$ion_1_0'%0A|
# Declarations.
$3::{imports:[{name:"x",max_id:1}],symbols:["a",5,"null"]} $11 $12::$13|2|a%0A$0::'null'%0A|
$3::{symbols:["a"]} $10 $3::{imports:$3,symbols:["b"]} $11::$10|2|a%0Ab::a%0A|
b $ion_1_0 $3::{symbols:["c"]} $10 $3::{symbols:[""]} {$10:b}|3|b%0Ac%0A{'':b}%0A|
"#;

#[test]
fn texts(rt: HostRuntime) {
    expect_rows(&rt, rt.alloc(), Kind::Canonical, CANONICAL);
    expect_rows(&rt, rt.alloc(), Kind::Texts, TEXTS);
}

/// Texts whose binary has several tables under a limit on them, how many values they have, and what is shown of
/// them.
const TABLES: &str = r#"
a b '' name a $0 b::[b,b]|7|a%0Ab%0A''%0Aname%0Aa%0A$0%0Ab::[b,b]%0A|symbols=17|
{a:1} {b:a} {b:c} c::b a|5|{a:1}%0A{b:a}%0A{b:c}%0Ac::b%0Aa%0A|symbols=34|
a b a c b [a] (c c)|7|a%0Ab%0Aa%0Ac%0Ab%0A[a]%0A(c c)%0A|symbols=40|
a::b 5 name::c {c:[a]} d|5|a::b%0A5%0Aname::c%0A{c:[a]}%0Ad%0A|symbols=40|
$3::{symbols:["a","b"]} $10::$11 c $10|3|a::b%0Ac%0Aa%0A|symbols=40|
"#;

// The binary is accepted under the same limit, since a version marker ends what was declared before.
#[test]
fn several_tables(rt: HostRuntime) {
    expect_rows(&rt, rt.alloc(), Kind::Texts, TABLES);
}

/// Streams, how many values they have, and what is shown of them.
const OCTETS: &str = r#"
%E0%01%00%EA%0F%1F%2F%3F%4F%5F%6F%7F%8F%9F%AF%BF%CF%DF|14|null%0Anull.bool%0Anull.int%0Anull.int%0Anull.float%0Anull.decimal%0Anull.timestamp%0Anull.symbol%0Anull.string%0Anull.clob%0Anull.blob%0Anull.list%0Anull.sexp%0Anull.struct%0A|
# Lengths and ids with leading zeros.
%E0%01%00%EA%22%00%05%72%00%04%2E%00%81%05%8E%81%61%BE%80%D3%00%84%11|6|5%0Aname%0A5%0A"a"%0A[]%0A{name:true}%0A|
# Decimals.
%E0%01%00%EA%50%51%80%52%C0%01%52%80%81%51%E6%56%07%7F%7F%7F%FF%01%56%47%7F%7F%7F%FF%81|7|0.%0A0.%0A1.%0A-1.%0A0.00000000000000000000000000000000000000%0A1d2147483647%0A-1d-2147483647%0A|
# Timestamps.
%E0%01%00%EA%63%C0%0F%D7%64%0B%9F%0F%D7%64%80%0F%D7%82%65%C0%0F%D7%82%83%67%C0%0F%D7%82%83%84%85|5|2007T%0A2007T%0A2007-02T%0A2007-02-03%0A2007-02-03T04:05-00:00%0A|
%E0%01%00%EA%67%BC%0F%D7%82%83%84%85%67%FC%0F%D7%82%83%84%85%68%0B%9F%0F%D7%82%83%84%85|3|2007-02-03T05:05+01:00%0A2007-02-03T03:05-01:00%0A2007-02-04T04:04+23:59%0A|
%E0%01%00%EA%68%80%0F%D7%82%83%84%85%86%6A%80%0F%D7%82%83%84%85%86%C1%80%6A%C0%0F%D7%82%83%84%85%86%C3%05|3|2007-02-03T04:05:06Z%0A2007-02-03T04:05:06.0Z%0A2007-02-03T04:05:06.005-00:00%0A|
# NOP pads, and a struct that is marked as sorted.
%E0%01%00%EA%00%D7%84%11%80%00%85%21%05%D1%85%84%11%85%21%05%B3%01%FF%11|3|{name:true,version:5}%0A{name:true,version:5}%0A[true]%0A|
# What looks like a version marker or a declaration, and is a value.
%E0%01%00%EA%E3%81%83%DF%E3%81%83%B0%E4%82%84%83%D0%E4%82%83%84%D0%71%02%71%03%70|6|$ion_symbol_table::null.struct%0A$ion_symbol_table::[]%0Aname::$ion_symbol_table::{}%0A'$ion_1_0'%0A$ion_symbol_table%0A$0%0A|
%E0%01%00%EA%EE%8F%81%89%DC%84%81%78%85%21%01%87%B4%81%70%81%71|1|$ion_shared_symbol_table::{name:"x",version:1,symbols:["p","q"]}%0A|
# Texts that have to be in quotes.
%E0%01%00%EA%EE%90%81%83%DD%87%BB%84%6E%75%6C%6C%82%24%34%80%21%05%71%0A%71%0D%E5%82%8B%80%71%0C%D6%8C%E4%81%8A%71%0B|4|'null'%0A$0%0A'$4'::$0::''%0A{'':'null'::'$4'}%0A|
"#;

#[test]
fn octets(rt: HostRuntime) {
    expect_rows(&rt, rt.alloc(), Kind::Octets, OCTETS);
}

/// A stream of one lob with the octets 0 to 255, and this octet before its length.
fn lob(alloc: Global, first: u8) -> Result<Vec<u8>, Fail> {
    let mut octets = Vec::from_slice(alloc, b"\xE0\x01\x00\xEA")?;
    octets.extend_from_slice(&[first, 0x02, 0x80])?;
    for octet in 0..=255 {
        octets.push(octet)?;
    }
    Ok(octets)
}

#[test]
fn lobs(rt: HostRuntime) -> Result<(), Fail> {
    for first in [0x9E, 0xAE] {
        let octets = lob(rt.alloc(), first)?;
        let case = Case {
            row: "a lob",
            limits: LIMITS,
            input: octets.as_slice(),
            want: binary(1),
        };
        expect_round_trip(&rt, rt.alloc(), case);
    }
    Ok(())
}

/// What a run by the catalogue of one table x, version 1, with the texts p and q writes of a stream that it
/// accepts.
fn written_by(rt: &impl Abort, alloc: Global, case: Case, to: To) -> Vec<u8> {
    let mut meter = Meter::new(alloc);
    let tables = FromRead::new(NAME_FIRST.as_bytes());
    let (loaded, _tables) = load_catalog(&mut meter, LIMITS, tables);
    let Ok(catalog) = loaded else {
        panic!(rt; "no catalogue")
    };
    let output = Vec::new(alloc);
    let (outcome, out) = answer_by(rt, alloc, &catalog, LIMITS, to, case.input, output);
    catalog.release(&mut meter);
    same_at(
        rt,
        "by a catalogue",
        case.row,
        0,
        (to, outcome),
        (to, case.want),
    );
    out
}

/// Asserts what a run by the catalogue shows of a stream, and that it goes there and back without the
/// catalogue.
pub fn expect_by(rt: &impl Abort, alloc: Global, case: Case, shown: &[u8]) {
    let Ok(Summary { form, values }) = case.want else {
        panic!(rt; "refused: {}", case.row)
    };
    let out = written_by(rt, alloc, case, To::Text);
    same_at(rt, "by a catalogue", case.row, 0, out.as_slice(), shown);
    let again = Case {
        input: shown,
        want: text(values),
        ..case
    };
    expect_again(rt, alloc, again, values);
    if form == Form::Text {
        let out = written_by(rt, alloc, case, To::Binary);
        let back = Case {
            input: out.as_slice(),
            want: binary(values),
            ..case
        };
        expect_back(rt, alloc, back, shown);
    }
}

/// Streams that import the table, how many values they have, and what is shown of them.
const IMPORTS: &str = r#"
$3::{imports:[{name:"x",version:1}]} $10 $11::$10|2|p%0Aq::p%0A|
$3::{imports:[{name:"x",version:7,max_id:3}],symbols:["a"]} {$11:$13} p|2|{q:a}%0Ap%0A|
$3::{imports:[{name:"x",max_id:1}]} $3::{imports:$3,symbols:[5,"q"]} [$10] $11::$12|2|[p]%0A$0::q%0A|
%E0%01%00%EA%EE%8F%81%83%DC%86%BA%D9%84%81x%85!%01%88!%02q%0A%E4%81%8Bq%0A|2|p%0Aq::p%0A|
"#;

#[test]
fn imports(rt: HostRuntime) {
    expect_rows(&rt, rt.alloc(), Kind::Imports, IMPORTS);
}

// The values of catalogues.
#[test]
fn catalogues(rt: HostRuntime) {
    expect_rows(&rt, rt.alloc(), Kind::RoundTrips, ONE_TABLE);
}
