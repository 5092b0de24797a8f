//! Streams drawn at random, each refused for what the reader itself refuses.

use crate::cut_short::expect_prefixes;
use crate::hex::octets;
use crate::limits::LIMITS;
use crate::reading::read_each_way;
use crate::same::holds;
use ion_test_support::fields::{Fields, is_row};
use std::alloc::Global;
use std::process::Abort;

// Streams, how each ends, and limits.
const ROWS: &str = "
E0 FF 00|Truncated at 0|
E0 01 00 EA D9|Truncated at 5|
E0 01 00 EA 5E 85 63 62|Truncated at 4|
E0 01 00 EA EE 00 99 81 83 D1 00 00 93 00 06|Truncated at 13|
E0 01 00 EA 11 16|BadDescriptor at 5|
E0 01 00 EA F3 3F D1|BadDescriptor at 4|
E0 01 00 EA C2 E0 01 00 EA C2 81 61|BadDescriptor at 5|depth=3|
E0 01 00 EA F3 9E 84 E0 01 00 EA 84 21 D3 E0 01 00 EA 1F 45 DE 81 5E 00 81 A5 DE 8E|BadDescriptor at 4|
E0 01 00 EA 52 7F 7F|BadVar at 4|scalar=2|
E0 01 00 EA 53 00 00 00|BadVar at 4|
E0 01 00 EA 52 82 23 6E 00 84 F5 D0 01 20|BadVar at 7|
E0 01 00 EA 68 00 BC 82 00 8C 9C 00 0C 11|BadVar at 4|scalar=13|
E0 01 00 EA E3 81 84 87|Overrun at 7|
E0 01 00 EA D1 88 04 E6 00 80 80 22 00 01|Overrun at 11|
E0 01 00 EA EC 81 83 D9 00 06 0D 9F 01 80 87 B0 84|Overrun at 17|
E0 01 00 EA E3 81 83 DF EE AA 83 89 00 85 BE 23 E5 82 82 85 71 02 35 1F|Overrun at 14|
E0 01 61 00 EA|BadVersion at 0|
E0 01 00 EC 71 08 E0 01 00|BadVersion at 0|
E0 01 31 EA 0E 00 82 80 00 71 0A|BadVersion at 0|
E0 01 00 EA E0 01 58 EA E6 81 83 D3 86 71 03 E3 81 80 11 71 07|BadVersion at 4|
E0 01 00 EA E4 80 84 11|BadAnnotation at 4|
E0 01 00 EA E3 91 81 83 D0 71 0A E3 81 84 11|BadAnnotation at 4|
E0 01 00 EA E4 81 83 71 03 01 00 EA E4 81 83 71 03|BadAnnotation at 11|
E0 01 00 EA E7 81 83 D4 86 72 00 03 E8 00 00 80 8F C3 7E 81 05|BadAnnotation at 12|
E0 01 00 EA E6 83 00 00 89 31 00|BadNumber at 9|
E0 01 00 EA 6E 82 40 80|BadTimestamp at 4|
E0 01 00 EA B8 C7 65 40 80 80 81 81 11|BadTimestamp at 6|
E0 01 00 EA 69 0B 9F 4E 8F 8C 9F 80 81 80|BadTimestamp at 4|
E0 01 00 EA 6D 0B A0 40 00 00 00 00 00 00 00 80 00 8D|BadTimestamp at 4|
E0 01 00 EA 5B 60 00 00 00 00 00 00 00 80 00 80|Range at 4|
E0 01 00 EA 6E 8F C0 81 81 9C 97 9E 00 BB 60 00 00 00 00 80 09|Range at 4|
E0 01 00 EA 5E 00 97 47 7F 7F 7F FF 80 01 00 00 00 00 00 00 00 00 00 00 00 00 00 00 00 00|Range at 4|depth=2|
E0 01 00 EA EE 97 00 81 80 3E 92 00 01 00 00 00 00 00 00 00 00 00 00 00 00 00 00 00 00 11|Range at 9|
E0 01 00 EA 83 0E 00 83|BadText at 4|
E0 01 00 EA 0F 81 AC 82 81 F5 33 83|BadText at 5|scalar=36|
E0 01 00 EA 81 D5 00 80 00 84 D0 0F 20 56 F7 AE 00 82 21 05|BadText at 4|scalar=10|
E0 01 00 EA 87 F0 1F 98 80 C2 80 7A E0 01 00 EA 34 80 00 00 00|BadText at 4|
E0 01 00 EA D1 82 85 40 84 11 11|Float at 7|
E0 01 00 EA D2 87 5F 91 EA|DepthLimit at 4|depth=0|
E0 01 00 EA C9 53 40 C0 80 A4 7F 29 E0 42|DepthLimit at 4|depth=0|scalar=36|
E0 01 00 EA CE 8E ED 82 00 84 39 01 00 00 00 00 00 00 00 00|DepthLimit at 4|depth=0|scalar=32|
E0 01 00 EA EA 81 83 D7 87 B2 81 63 86 71 03 70 BE 00 84 71 0A 71 0A|DepthLimit at 9|depth=1|scalar=20|
E0 01 00 EA 68 40 80 4E 8F 81 9C 80 80 11|ScalarLimit at 4|scalar=6|
E0 01 00 EA 6A C0 4E 90 80 9C 80 00 BB BB 80 11|ScalarLimit at 4|scalar=3|
E0 01 00 EA 71 01 C0 6E 89 BF 02 DF 83 82 93 00 A6 AB|ScalarLimit at 4|scalar=0|
E0 01 00 EA DE 90 8F 55 41 8C 80 01 00 88 67 C0 4E 8F 00 82 00 86|ScalarLimit at 7|scalar=3|
E0 01 00 EA E3 81 84 86 7F|AnnotationLimit at 6|scalar=10|
E0 01 00 EA EC 83 84 D1 86 04 D1 83 04 51 01 11|AnnotationLimit at 6|scalar=0|
E0 01 00 EA EC 00 82 84 85 C7 D1 85 84 63 C0 0E EC 11|AnnotationLimit at 7|scalar=12|
E0 01 00 EA DE 00 95 87 CE 92 EE 90 81 80 6D 40 80 4E 8F 8C 00 9C 8C 00 9E 00 80 C2|AnnotationLimit at 13|depth=2|scalar=4|
";

// Asserts how a stream ends, in whatever pieces it comes, and cut short at each place.
fn expect_refused(rt: &impl Abort, alloc: Global, row: &str) {
    let mut fields = Fields::of(row);
    let octets = octets(rt, alloc, b"", fields.text());
    let ending = fields.text();
    let limits = fields.limits(LIMITS);
    holds(rt, fields.is_read());
    let all = read_each_way(rt, alloc, limits, None, octets.as_slice());
    all.expect_end(rt, alloc, ending);
    expect_prefixes(rt, alloc, limits, octets.as_slice());
}

#[test]
fn drawn_streams_are_refused(rt: HostRuntime) {
    for row in ROWS.split('\n') {
        if is_row(row) {
            expect_refused(&rt, rt.alloc(), row);
        }
    }
}
