//! Texts that are written as binary.

use super::devices::answer;
use super::round_trip::expect_round_trip;
use super::runs::{Case, expect, text};
use super::same::same;
use super::tables::{Kind, expect_rows};
use ion_meter::limits::Limits;
use ion_transcode::run::bound;
use ion_transcode::to::{Form, To};
use std::alloc::Global;
use std::process::Abort;
use std::test::Fail;

/// Asserts the verdict on a text that is written as binary, and what is written of it, and that what is
/// accepted goes there and back.
pub fn expect_converted(rt: &impl Abort, alloc: Global, case: Case, output: &[u8]) {
    expect(rt, alloc, case, To::Binary, output);
    expect(rt, alloc, case, To::Other, output);
    expect(rt, alloc, case, To::Rewritten, output);
    expect_round_trip(rt, alloc, case);
}

/// Asserts the verdict on binary that is written as binary again, and what is written of it, and that what is
/// accepted goes there and back.
pub fn expect_rewritten(rt: &impl Abort, alloc: Global, case: Case, output: &[u8]) {
    expect(rt, alloc, case, To::Rewritten, output);
    expect_round_trip(rt, alloc, case);
}

/// Binary that is written again: NOP pads, order of fields, lengths and declarations as this project writes them.
const REWRITTEN: &str = r#"
%E0%01%00%EA|0|%E0%01%00%EA|
%E0%01%00%EA%0F%00%01%FF%21%05|2|%E0%01%00%EA%0F%21%05|
%E0%01%00%EA%22%00%05%72%00%04%2E%00%81%05%8E%81%61%BE%80|5|%E0%01%00%EA%21%05%71%04%21%05%81%61%B0|
%E0%01%00%EA%D5%80%01%FF%84%11%D1%82%84%11|2|%E0%01%00%EA%D2%84%11%D2%84%11|
%E0%01%00%EA%E0%01%00%EA%21%05%E0%01%00%EA%11|2|%E0%01%00%EA%21%05%11|
%E0%01%00%EA%EA%81%83%D7%87%B2%81%61%86%71%03%71%0A%71%0A|2|%E0%01%00%EA%EA%81%83%D7%86%71%03%87%B2%81%61%71%0A%71%0A|
# A declared text that is not used is not declared again, and ids count from 10.
%E0%01%00%EA%E9%81%83%D6%87%B4%81%61%81%62%71%0B|1|%E0%01%00%EA%EA%81%83%D7%86%71%03%87%B2%81%62%71%0A|
# What is refused, and what stands before it.
%E0%01%00%EA%21%05%31%00|BadNumber 6|%E0%01%00%EA%21%05|
%E0%01%00%EA%21%05%B2%11|Truncated 8|%E0%01%00%EA%21%05|
%E0%01%00%EA%71%0A|BadSymbol 4|%E0%01%00%EA|
%E0%01%00%EA%11%21%05|ValueLimit 5|%E0%01%00%EA%11|value=1|
"#;

#[test]
fn rewritten(rt: HostRuntime) {
    expect_rows(&rt, rt.alloc(), Kind::Rewritten, REWRITTEN);
}

/// Numbers and timestamps.
const NUMBERS: &str = r#"
|0|%E0%01%00%EA|
-0.|1|%E0%01%00%EA%52%80%80|
340282366920938463463374607431768211455|1|%E0%01%00%EA%2E%90%FF%FF%FF%FF%FF%FF%FF%FF%FF%FF%FF%FF%FF%FF%FF%FF|
340282366920938463463374607431768211456|Range 0|%E0%01%00%EA|
1e0|Float 0|%E0%01%00%EA|
2011-02-20T11:30:59.100-08:00|1|%E0%01%00%EA%6B%43%E0%0F%DB%82%94%93%9E%BB%C3%64|
2007T 2007-01-02T|2|%E0%01%00%EA%63%C0%0F%D7%65%C0%0F%D7%81%82|
2007-13T|BadTimestamp 0|%E0%01%00%EA|
"#;

#[test]
fn numbers_and_timestamps(rt: HostRuntime) {
    expect_rows(&rt, rt.alloc(), Kind::Converted, NUMBERS);
}

/// Strings and lobs.
const STRINGS: &str = r#"
"\xe9"|1|%E0%01%00%EA%82%C3%A9|
"\uD83D\uDE00"|1|%E0%01%00%EA%84%F0%9F%98%80|
"\uD83D"|BadText 0|%E0%01%00%EA|
"ab |Truncated 0|%E0%01%00%EA|
{{aGVsbG8=}}|1|%E0%01%00%EA%A5%68%65%6C%6C%6F|
{{aGVsbG9=}}|BadLob 0|%E0%01%00%EA|
{{}}|1|%E0%01%00%EA%A0|
"abcdefghijklmn"|1|%E0%01%00%EA%8E%8E%61%62%63%64%65%66%67%68%69%6A%6B%6C%6D%6E|value=16|scalar=14|
"abcdefghijklmn"|ValueLimit 0|%E0%01%00%EA|value=15|scalar=14|
"abcdefghijklmn"|ScalarLimit 0|%E0%01%00%EA|value=16|scalar=13|
"#;

#[test]
fn strings_and_lobs(rt: HostRuntime) {
    expect_rows(&rt, rt.alloc(), Kind::Converted, STRINGS);
}

/// Each text is declared just before the first value that needs it, and texts of the system never.
const SYMBOLS: &str = r#"
null.int 5 -0 'a b'|4|%E0%01%00%EA%2F%21%05%20%EC%81%83%D9%86%71%03%87%B4%83%61%20%62%71%0A|
{name:[1,2]}|1|%E0%01%00%EA%D6%84%B4%21%01%21%02|
'$ion_1_0'|1|%E0%01%00%EA%71%02|
$ion_1_1 5|BadVersion 0|%E0%01%00%EA|
# What is open is not written, and its texts are not declared.
a [b,|Truncated 5|%E0%01%00%EA%EA%81%83%D7%86%71%03%87%B2%81%61%71%0A|
{$99:1}|BadSymbol 1|%E0%01%00%EA|
"#;

#[test]
fn symbols(rt: HostRuntime) {
    expect_rows(&rt, rt.alloc(), Kind::Converted, SYMBOLS);
}

/// The texts that have ids are forgotten where they cost more than half of what they may.
const SYMBOL_LIMITS: &str = r#"
a b|2|%E0%01%00%EA%EA%81%83%D7%86%71%03%87%B2%81%61%71%0A%E0%01%00%EA%EA%81%83%D7%86%71%03%87%B2%81%62%71%0A|symbols=17|
[a,b]|SymbolLimit 3|%E0%01%00%EA|symbols=33|
[a,b]|1|%E0%01%00%EA%EC%81%83%D9%86%71%03%87%B4%81%61%81%62%B4%71%0A%71%0B|symbols=34|
a b a|3|%E0%01%00%EA%EA%81%83%D7%86%71%03%87%B2%81%61%71%0A%EA%81%83%D7%86%71%03%87%B2%81%62%71%0B%E0%01%00%EA%EA%81%83%D7%86%71%03%87%B2%81%61%71%0A|symbols=40|
# Neither after the last value nor before one that is refused.
a|1|%E0%01%00%EA%EA%81%83%D7%86%71%03%87%B2%81%61%71%0A|symbols=17|
a bc|SymbolLimit 2|%E0%01%00%EA%EA%81%83%D7%86%71%03%87%B2%81%61%71%0A|symbols=17|
"#;

#[test]
fn limits_of_symbols(rt: HostRuntime) {
    expect_rows(&rt, rt.alloc(), Kind::Converted, SYMBOL_LIMITS);
}

/// A value that is too long is refused at its first byte, as soon as it is.
const VALUE_LIMITS: &str = r#"
[[["x"|ValueLimit 0|%E0%01%00%EA|value=4|
[[["x"|Truncated 6|%E0%01%00%EA|value=5|
[[true,true,true,true,true,true,true,true,true,true,true,true,true]]|1|%E0%01%00%EA%BE%8E%BD%11%11%11%11%11%11%11%11%11%11%11%11%11|value=16|
[[true,true,true,true,true,true,true,true,true,true,true,true,true]]|ValueLimit 0|%E0%01%00%EA|value=15|
"#;

#[test]
fn limits_of_values(rt: HostRuntime) {
    expect_rows(&rt, rt.alloc(), Kind::Converted, VALUE_LIMITS);
}

/// Twenty lists around 1,400 strings of 64 letters.
pub fn nested_strings(alloc: Global) -> Result<Vec<u8>, Fail> {
    let mut input = Vec::from_slice(alloc, b"[[[[[[[[[[[[[[[[[[[[")?;
    for _ in 0..1_400 {
        input.extend_from_slice(
            b"\"abcdefghijklmnopqrstuvwxyzabcdefghijklmnopqrstuvwxyzabcdefghijkl\",",
        )?;
    }
    input.extend_from_slice(b"]]]]]]]]]]]]]]]]]]]]")?;
    Ok(input)
}

/// Limits that they keep.
pub const NESTED: Limits = Limits {
    depth: 32,
    scalar: 64,
    symbols: 64,
    value: 100_000,
    input: 281_474_976_710_656,
};

// One copy of a value is held.
#[test]
fn one_value_is_held(rt: HostRuntime) -> Result<(), Fail> {
    let alloc = rt.alloc();
    let input = nested_strings(alloc)?;
    same(&rt, bound(NESTED, Form::Text, To::Binary), 109_600);
    let (outcome, out) = answer(
        &rt,
        alloc,
        NESTED,
        To::Binary,
        input.as_slice(),
        Vec::new(alloc),
    );
    same(&rt, outcome, text(1));
    same(&rt, out.len(), 92_484);
    Ok(())
}
