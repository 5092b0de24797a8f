//! What runs write of worked streams, in whatever pieces they come, and how they end.

use super::devices::{Giving, Taking, Telling, Waiting, answer};
use super::heaps::{LITTLE, fives, ignored};
use super::parts::{expect_all_taken, expect_parts};
use super::round_trip::expect_round_trip;
use super::same::{same, same_at};
use super::tables::{Kind, expect_rows};
use ion_meter::fault::{Fault, Reason};
use ion_meter::limits::Limits;
use ion_transcode::run::bound;
use ion_transcode::to::{Form, Summary, To};
use std::alloc::Global;
use std::cell::Cell;
use std::process::Abort;
use std::test::Fail;

/// The limits of a run where nothing else is said.
pub const LIMITS: Limits = Limits {
    depth: 64,
    scalar: 1_048_576,
    symbols: 1_048_576,
    value: 16_777_216,
    input: 281_474_976_710_656,
};

/// A stream, its limits, and its verdict.
#[derive(Clone, Copy)]
pub struct Case<'a> {
    /// The row of a table that it stands in.
    pub row: &'a str,
    pub limits: Limits,
    pub input: &'a [u8],
    pub want: Result<Summary, Fault>,
}

/// So many values of a binary stream.
pub fn binary(values: u64) -> Result<Summary, Fault> {
    Ok(Summary {
        form: Form::Binary,
        values,
    })
}

/// So many values of a text.
pub fn text(values: u64) -> Result<Summary, Fault> {
    Ok(Summary {
        form: Form::Text,
        values,
    })
}

/// A refusal.
pub fn refused(reason: Reason, place: u64) -> Result<Summary, Fault> {
    Err(Fault::Refused(reason, place))
}

/// Asserts the verdict on a stream, in one piece or a byte a read, and that this is written of it, at
/// once or a byte a call.
pub fn expect(rt: &impl Abort, alloc: Global, case: Case, to: To, output: &[u8]) {
    let want = (case.want, output);
    let (outcome, out) = answer(rt, alloc, case.limits, to, case.input, Vec::new(alloc));
    same_at(rt, "at once", case.row, 0, (outcome, out.as_slice()), want);
    let reader = Giving::all(case.input, 1);
    let writer = Taking {
        taken: Vec::new(alloc),
        room: output.len(),
    };
    let (outcome, writer) = answer(rt, alloc, case.limits, to, reader, writer);
    let given = (outcome, writer.taken.as_slice());
    same_at(rt, "a byte a call", case.row, 0, given, want);
}

/// Asserts the verdict on binary, as text, checked alone, and as the form that it does not have, that it is not
/// written as binary again, and that what is accepted goes there and back.
pub fn expect_octets(rt: &impl Abort, alloc: Global, case: Case, shown: &[u8]) {
    expect(rt, alloc, case, To::Text, shown);
    expect(rt, alloc, case, To::Other, shown);
    expect(rt, alloc, case, To::Nothing, b"");
    expect_parts(rt, alloc, case, To::Text, shown);
    if case.want.is_ok() {
        expect_all_taken(rt, alloc, case);
    }
    let want = refused(Reason::SameForm, 0);
    expect(rt, alloc, Case { want, ..case }, To::Binary, b"");
    expect_round_trip(rt, alloc, case);
}

/// Streams, and what is shown of them.
const BINARY_STREAMS: &str = r#"
%E0%01%00%EA|0||
%E0%01%00%EA%0F%11%21%05%31%07%2F%10|6|null%0Atrue%0A5%0A-7%0Anull.int%0Afalse%0A|
%E0%01%00%EA%21%00|1|0%0A|
%E0%01%00%EA%52%80%80|1|-0.%0A|
%E0%01%00%EA%52%C1%0F|1|1.5%0A|
%E0%01%00%EA%52%C3%05|1|0.005%0A|
%E0%01%00%EA%51%C2|1|0.00%0A|
%E0%01%00%EA%52%81%0F|1|15d1%0A|
%E0%01%00%EA%52%E7%01|1|1d-39%0A|
%E0%01%00%EA%5E%92%E6%00%FF%FF%FF%FF%FF%FF%FF%FF%FF%FF%FF%FF%FF%FF%FF%FF|1|3.40282366920938463463374607431768211455%0A|
%E0%01%00%EA%C8%52%80%0F%52%80%80%71%04|1|(15. -0. name)%0A|
%E0%01%00%EA%70|1|$0%0A|
%E0%01%00%EA%69%80%0F%D0%81%81%80%80%80%80|1|2000-01-01T00:00:00Z%0A|
%E0%01%00%EA%69%80%0F%D0%81%81%80%80%80%C1|1|2000-01-01T00:00:00.0Z%0A|
# A field id before a NOP pad names nothing.
%E0%01%00%EA%D5%80%01%FF%84%11|1|{name:true}%0A|
%E0%01%00%EA%D5%FE%01%FF%84%11|1|{name:true}%0A|
# Declarations are no values.
%E0%01%00%EA%EA%81%83%D7%87%B2%81%61%86%71%03%EA%81%83%D7%87%B2%81%62%86%71%03%71%0A%71%0B|2|a%0Ab%0A|
%E0%01%00%EA%B5%21%05%B2%11%10%E4%81%84%21%05|2|[5,[true,false]]%0Aname::5%0A|
# Version markers are no values, wherever they stand at top level.
%E0%01%00%EA%E0%01%00%EA|0||
%E0%01%00%EA%21%05%E0%01%00%EA%E0%01%00%EA%11|2|5%0Atrue%0A|
%E0%01%00%EA%B1%11%E0%01%00%EA|1|[true]%0A|
"#;

#[test]
fn binary_streams(rt: HostRuntime) {
    expect_rows(&rt, rt.alloc(), Kind::Octets, BINARY_STREAMS);
}

/// Streams that are refused, and what is shown of them.
const REFUSED_STREAMS: &str = r#"
%E0%01%00%EA%21%05%82%61|Truncated 6|5%0A|
%E0%01%00%EA%21%05%82%61%FF|BadText 6|5%0A|
%E0%01%00%EA%E6%81%84%E3%81%84%11|BadAnnotation 7||
%E0%01%00%EA%E4%81%84%01%00|BadAnnotation 7||
%E0%01%00%EA%40|Float 4||
%E0%01%00%EA%31%00|BadNumber 4||
%E0%01%00%EA%71%0A|BadSymbol 4||
%E0%01%00%EA%B1%21%05|Overrun 5|[|
%E0%01%00%EA%D1%80|BadDescriptor 4||
# A marker stands at top level alone, and ends what was declared.
%E0%01%00%EA%B4%E0%01%00%EA|BadDescriptor 5|[|
%E0%01%00%EA%21%05%E0%02%00%EA|BadVersion 6|5%0A|
%E0%01%00%EA%21%05%E0%01|Truncated 6|5%0A|
%E0%01%00%EA%EA%81%83%D7%87%B2%81%61%86%71%03%71%0A%E0%01%00%EA%71%0A|BadSymbol 21|a%0A|
# What is open stays open.
%E0%01%00%EA%B2%11|Truncated 6|[true|
%E0%01%00%EA%B5%21%01%D3|Overrun 7|[1|
%E0%01%00%EA%11%D6%84%B4%21%01%21|Truncated 10|true%0A{name:[1|
# Containers that are open at once.
%E0%01%00%EA%B1%B0|DepthLimit 5|[|depth=1|
"#;

#[test]
fn refused_streams(rt: HostRuntime) {
    expect_rows(&rt, rt.alloc(), Kind::Octets, REFUSED_STREAMS);
}

/// Asserts the verdict on a text and what is written of it, in whichever two pieces it comes.
fn expect_cut(rt: &impl Abort, alloc: Global, case: Case, shown: &[u8]) {
    for at in 0..case.input.len() {
        let reader = Giving::cut(case.input, at);
        let (outcome, out) = answer(rt, alloc, case.limits, To::Text, reader, Vec::new(alloc));
        let given = (outcome, out.as_slice());
        same_at(rt, "cut", case.row, at, given, (case.want, shown));
    }
}

/// Asserts the verdict on a text, and what is written of it as text, and that what is accepted goes there and
/// back.
pub fn expect_text(rt: &impl Abort, alloc: Global, case: Case, shown: &[u8]) {
    expect(rt, alloc, case, To::Text, shown);
    expect(rt, alloc, case, To::Nothing, b"");
    expect_cut(rt, alloc, case, shown);
    expect_parts(rt, alloc, case, To::Text, shown);
    expect_round_trip(rt, alloc, case);
}

/// Texts, and what is shown of them.
const TEXTS: &str = r#"
[1/*x*/,2]|1|[1,2]%0A|
a /*x*/ :: /*y*/ b|1|a::b%0A|
$ion_1_0 a $ion_1_0|1|a%0A|
[1/2]|BadToken 1|[|
null.nul|BadToken 0||
(1_ a)|BadToken 1|(|
a::|Truncated 3||
[1 "a|BadToken 3|[1|
{nan:1}|BadToken 1|{|
2000-02-30T|BadTimestamp 0||
# The item is given before the comment after it is refused.
a /*|Truncated 2|a%0A|
'''a''' '''b|Truncated 0||
# Declarations are no values.
$ion_symbol_table::{symbols:["a"]} $10 $11|BadSymbol 39|a%0A|
# Containers that are open at once.
[[|DepthLimit 1|[|depth=1|
"#;

#[test]
fn texts(rt: HostRuntime) {
    expect_rows(&rt, rt.alloc(), Kind::Texts, TEXTS);
}

/// Tokens, and what they mean.
const TOKENS: &str = r#"
'''a''' /*x*/ '''b'''|1|"ab"%0A|
(--1 a.b -2 /*c*/ +)|1|('--' 1 a '.' b -2 '+')%0A|
-0.|1|-0.%0A|
15d-1 1.50 5d-3|3|1.5%0A1.50%0A0.005%0A|
340282366920938463463374607431768211455|1|340282366920938463463374607431768211455%0A|
340282366920938463463374607431768211456|Range 0||
1e0|Float 0||
{{aGVsbG8=}}|1|{{aGVsbG8=}}%0A|
# Bits of the last character that belong to no byte have to be zero.
{{aGVsbG9=}}|BadLob 0||
{{}}|1|{{}}%0A|
"\xe9"|1|"%C3%A9"%0A|
"\uD83D\uDE00"|1|"%F0%9F%98%80"%0A|
"\uD83D"|BadText 0||
"ab |Truncated 0||
2007T 2007-01-02T|2|2007T%0A2007-01-02%0A|
2007-13T|BadTimestamp 0||
# A byte-order mark, and octets of the binary form without its marker.
%EF%BB%BF5|BadToken 0||
!%05|BadToken 0||
"#;

#[test]
fn tokens_of_texts(rt: HostRuntime) {
    expect_rows(&rt, rt.alloc(), Kind::Texts, TOKENS);
}

/// Items, in the order of their faults.
const ITEMS: &str = r#"
[1,{a:|Truncated 6|[1,{|
[1,]|1|[1]%0A|
[1 2]|BadToken 3|[1|
[,]|BadToken 1|[|
{a::1}|BadToken 2|{|
# A token of the item is refused before one of its symbols.
{$99:1}|BadSymbol 1|{|
{$99:1_}|BadToken 5|{|
$ion_1_1 5|BadVersion 0||
# In quotes it is a symbol as any other.
'$ion_1_0'|1|'$ion_1_0'%0A|
# Containers that are open at once.
[[]]|DepthLimit 1|[|depth=1|
"#;

#[test]
fn items_of_texts(rt: HostRuntime) {
    expect_rows(&rt, rt.alloc(), Kind::Texts, ITEMS);
}

/// An input of as many bytes as the limit is read.
const INPUT_LIMITS: &str = r#"
1 2 3|3|1%0A2%0A3%0A|input=5|
12|InputLimit||input=1|
"#;

#[test]
fn input_limits(rt: HostRuntime) {
    expect_rows(&rt, rt.alloc(), Kind::Texts, INPUT_LIMITS);
}

#[test]
fn first_bytes(rt: HostRuntime) {
    let texts = "|0||\n5|1|5%0A|\n%E1%01%00%EA|BadToken 0||";
    expect_rows(&rt, rt.alloc(), Kind::Texts, texts);
    let converted =
        "|0|%E0%01%00%EA|\n5|1|%E0%01%00%EA%21%05|\n%E1%01%00%EA|BadToken 0|%E0%01%00%EA|";
    expect_rows(&rt, rt.alloc(), Kind::Converted, converted);
    let markers = "%E0%01|Truncated 0||\n%E0%01%01%EA|BadVersion 0||";
    expect_rows(&rt, rt.alloc(), Kind::Octets, markers);
}

// What was written then is a prefix of the whole stream's output.
#[test]
fn faults(rt: HostRuntime) {
    let alloc = rt.alloc();
    expect_rows(
        &rt,
        alloc,
        Kind::Octets,
        "%E0%01%00%EA%21%05%11|InputLimit||input=3|",
    );
    let octets = b"\xE0\x01\x00\xEA\x21\x05\x11".as_slice();
    let reader = Giving {
        fails: true,
        ..Giving::all(octets, 2)
    };
    let (outcome, out) = answer(&rt, alloc, LIMITS, To::Text, reader, Vec::new(alloc));
    same(&rt, outcome, Err(Fault::ReadFault));
    assert!(rt; b"5\ntrue\n".starts_with(out.as_slice()));
    let empty: [u8; 0] = [];
    for (input, to, want) in [
        (octets, To::Text, b"5\nt".as_slice()),
        (empty.as_slice(), To::Binary, b"\xE0\x01"),
    ] {
        let writer = Taking {
            taken: Vec::new(alloc),
            room: want.len(),
        };
        let (outcome, writer) = answer(&rt, alloc, LIMITS, to, input, writer);
        same(&rt, outcome, Err(Fault::WriteFault));
        same(&rt, writer.taken.as_slice(), want);
    }
}

#[test]
fn bounds(rt: HostRuntime) -> Result<(), Fail> {
    for to in [To::Text, To::Pretty, To::Binary, To::Nothing, To::Other] {
        same(&rt, bound(LIMITS, Form::Binary, to), 5_253_120);
    }
    for (to, want) in [
        (To::Text, 5_253_120),
        (To::Pretty, 5_253_120),
        (To::Nothing, 5_253_120),
        (To::Binary, 23_078_912),
        (To::Rewritten, 23_078_912),
        (To::Other, 23_078_912),
    ] {
        same(&rt, bound(LIMITS, Form::Text, to), want);
    }
    same(&rt, bound(LIMITS, Form::Binary, To::Rewritten), 23_078_912);
    Ok(())
}

/// Ints of one octet.
const ZEROS: [u8; 4_096] = [0x20; 4_096];

// A declaration with 4,194,304 ints in a field that is ignored.
#[test]
fn what_is_ignored_is_not_held(rt: HostRuntime) {
    let alloc = rt.alloc();
    let first = b"\xE0\x01\x00\xEA\xEE\x02\x00\x00\x8D\x81\x83\
        \xDE\x02\x00\x00\x86\x84\xBE\x02\x00\x00\x80";
    let reader = Giving {
        again: &ZEROS,
        times: 1_024,
        ..Giving::all(first, 4_096)
    };
    same(&rt, bound(LITTLE, Form::Binary, To::Nothing), 10_560);
    let (outcome, out) = answer(&rt, alloc, LITTLE, To::Nothing, reader, Vec::new(alloc));
    same(&rt, outcome, binary(0));
    assert!(rt; out.is_empty());
}

// As text a declaration with as many ints in a field that is ignored.
#[test]
fn what_text_ignores_is_not_held(rt: HostRuntime) -> Result<(), Fail> {
    let alloc = rt.alloc();
    let ints = fives(alloc)?;
    let reader = ignored(ints.as_slice());
    let (outcome, out) = answer(&rt, alloc, LITTLE, To::Nothing, reader, Vec::new(alloc));
    same(&rt, outcome, text(1));
    assert!(rt; out.is_empty());
    Ok(())
}

/// Asserts that a stream in pieces goes there and back.
fn expect_joined(
    rt: &impl Abort,
    alloc: Global,
    pieces: &[(&[u8], usize)],
    want: Result<Summary, Fault>,
) -> Result<(), Fail> {
    let mut octets = Vec::new(alloc);
    for (piece, _) in pieces {
        octets.extend_from_slice(piece)?;
    }
    let case = Case {
        row: "in pieces",
        limits: LIMITS,
        input: octets.as_slice(),
        want,
    };
    expect_round_trip(rt, alloc, case);
    Ok(())
}

/// Asserts that of a stream whose pieces come one by one just so much is written before each of them, and
/// this text in all.
fn expect_live(
    rt: &impl Abort,
    alloc: Global,
    pieces: &[(&[u8], usize)],
    want: Result<Summary, Fault>,
    shown: &str,
) {
    let written = Cell::new(0);
    let reader = Waiting {
        pieces,
        written: &written,
    };
    let writer = Telling {
        taken: Vec::new(alloc),
        written: &written,
    };
    let (outcome, writer) = answer(rt, alloc, LIMITS, To::Text, reader, writer);
    let given = (outcome, writer.taken.as_slice());
    same_at(rt, "in pieces", shown, 0, given, (want, shown.as_bytes()));
}

/// Blanks that fill a window after one byte.
const BLANKS: [u8; 4_095] = [b' '; 4_095];

/// Pieces of a text, each with how many bytes are written before it is read; how many values there are;
/// and what is written in all.
const LIVE_TEXTS: &[(&[(&[u8], usize)], u64, &str)] = &[
    (
        &[
            (b"1 ", 0),
            (b"2 ", 2),
            (b"\"a\"", 4),
            (b"[2]", 8),
            (b"", 12),
        ],
        4,
        "1\n2\n\"a\"\n[2]\n",
    ),
    // After a symbol two colons may come.
    (
        &[(b"1 a", 0), (b"::", 2), (b"b ", 2), (b"4 ", 2), (b"", 9)],
        3,
        "1\na::b\n4\n",
    ),
    // A number may go on, and so may a long string.
    (&[(b"1 2", 0), (b"3 ", 2), (b"", 5)], 2, "1\n23\n"),
    (
        &[(b"1 '''a''' ", 0), (b"'''b''' 2 ", 2), (b"", 9)],
        3,
        "1\n\"ab\"\n2\n",
    ),
    // What is whole of an open value is written with the value before it.
    (
        &[(b"5 [1,", 0), (b"{a", 4), (b":2}] ", 4), (b"", 12)],
        2,
        "5\n[1,{a:2}]\n",
    ),
    (&[(b"1 /* ", 0), (b"*/ 2 ", 2), (b"", 4)], 2, "1\n2\n"),
    (
        &[(b"1 {{aGVsbG8", 0), (b"=}", 2), (b"} ", 2), (b"", 15)],
        2,
        "1\n{{aGVsbG8=}}\n",
    ),
    // So may a word, before two colons.
    (
        &[(b"1 a ", 0), (b"::b ", 2), (b"2 ", 2), (b"", 9)],
        3,
        "1\na::b\n2\n",
    ),
    (
        &[(b"1 'a", 0), (b"b' ", 2), (b"2 ", 2), (b"", 7)],
        3,
        "1\nab\n2\n",
    ),
    (
        &[(b"1 /* * x/ 7 ", 0), (b"*/ 2 ", 2), (b"", 4)],
        2,
        "1\n2\n",
    ),
    (
        &[(b"1 \"a\\\" ", 0), (b"b\" ", 2), (b"", 10)],
        2,
        "1\n\"a\\\" b\"\n",
    ),
    (
        &[(b"1 {{aGVsbG8=}", 0), (b"} ", 2), (b"", 15)],
        2,
        "1\n{{aGVsbG8=}}\n",
    ),
    (
        &[
            (b"1 '$ion_symbol_table'::{", 0),
            (b"symbols:[\"a\"]} ", 2),
            (b"$10 2 ", 2),
            (b"", 6),
        ],
        3,
        "1\na\n2\n",
    ),
    // Blanks fill the window, so that no read gave less than was asked for.
    (
        &[(b"1 2", 0), (&BLANKS, 2), (b"3 ", 4), (b"", 6)],
        3,
        "1\n2\n3\n",
    ),
    // A declaration is no value, and is read with the value after it.
    (
        &[
            (b"1 $ion_symbol_table::{symbols:[", 0),
            (b"\"a\"]} ", 2),
            (b"$10 2 ", 2),
            (b"", 6),
        ],
        3,
        "1\na\n2\n",
    ),
];

// Values that are whole are written before a read that may have to wait.
#[test]
fn texts_are_written_as_they_come(rt: HostRuntime) -> Result<(), Fail> {
    for (pieces, values, shown) in LIVE_TEXTS {
        expect_live(&rt, rt.alloc(), pieces, text(*values), shown);
        expect_joined(&rt, rt.alloc(), pieces, text(*values))?;
    }
    Ok(())
}

/// Pieces of a binary stream, each with how many bytes are written before it is read; how many values there are;
/// and what is written in all.
const LIVE_OCTETS: &[(&[(&[u8], usize)], u64, &str)] = &[
    (
        &[
            (b"\xE0\x01\x00\xEA\x21\x05", 0),
            (b"\x21\x06\x21", 2),
            (b"\x07\xB2\x21", 4),
            (b"\x08", 7),
            (b"\x82\x61", 10),
            (b"\x62", 10),
            (b"\xE0\x01\x00\xEA", 15),
            (b"", 15),
        ],
        5,
        "5\n6\n7\n[8]\n\"ab\"\n",
    ),
    // A field, and a value with an annotation.
    (
        &[
            (b"\xE0\x01\x00\xEA\x11\xD3\x84", 0),
            (b"\x21", 6),
            (b"\x05\xE4\x81\x84", 6),
            (b"\x21\x05", 14),
            (b"", 22),
        ],
        3,
        "true\n{name:5}\nname::5\n",
    ),
    // A declaration, which is read with the value after it.
    (
        &[
            (b"\xE0\x01\x00\xEA\x11\xE7\x81\x83\xD4", 0),
            (b"\x87\xB2\x81\x61", 5),
            (b"\x71\x0A", 5),
            (b"", 7),
        ],
        2,
        "true\na\n",
    ),
];

#[test]
fn octets_are_written_as_they_come(rt: HostRuntime) -> Result<(), Fail> {
    for (pieces, values, shown) in LIVE_OCTETS {
        expect_live(&rt, rt.alloc(), pieces, binary(*values), shown);
        expect_joined(&rt, rt.alloc(), pieces, binary(*values))?;
    }
    Ok(())
}
