//! Values without members, each row after a version marker.

pub const NULLS_AND_BOOLS: &str = "
0F 1F 2F 3F 4F 5F 6F|4/4 null.null; 5/5 null.bool; 6/6 null.int; 7/7 null.int; 8/8 null.float; 9/9 null.decimal; 10/10 null.timestamp; end|
7F 8F 9F AF BF CF DF|4/4 null.symbol; 5/5 null.string; 6/6 null.clob; 7/7 null.blob; 8/8 null.list; 9/9 null.sexp; 10/10 null.struct; end|
0F 11 21 05 31 07 2F 10|4/4 null.null; 5/5 true; 6/6 int 5; 8/8 int -7; 10/10 null.int; 11/11 false; end|
12|BadDescriptor at 4|
1E 80|BadDescriptor at 4|
40|Float at 4|
44 00 00 00 00|Float at 4|
4E 80|Float at 4|
F0|BadDescriptor at 4|
FF|BadDescriptor at 4|
";

pub const INTS: &str = "
20 21 00 2E 80|4/4 int 0; 5/5 int 0; 7/7 int 0; end|
2F 21 05 20|4/4 null.int; 5/5 int 5; 7/7 int 0; end|
31 00|BadNumber at 4|
30|BadNumber at 4|
33 00 00 00|BadNumber at 4|
33 00 00 01|4/4 int -1; end|
2E 90 FF FF FF FF FF FF FF FF FF FF FF FF FF FF FF FF|4/4 int 340282366920938463463374607431768211455; end|
3E 91 00 FF FF FF FF FF FF FF FF FF FF FF FF FF FF FF FF|4/4 int -340282366920938463463374607431768211455; end|
2E 91 01 FF FF FF FF FF FF FF FF FF FF FF FF FF FF FF FF|Range at 4|
3E 91 01 00 00 00 00 00 00 00 00 00 00 00 00 00 00 00 00|Range at 4|
2E 91 00 00 00 00 00 00 00 00 00 00 00 00 00 00 00 00 05|4/4 int 5; end|
21|Truncated at 4|
2E|Truncated at 4|
2E 01|Truncated at 4|
2E 00 82 02 01|4/4 int 513; end|
";

pub const DECIMALS: &str = "
52 C1 0F|4/4 decimal 15d-1; end|
52 80 80|4/4 decimal -0d0; end|
50 51 80 51 C2|4/4 decimal 0d0; 5/5 decimal 0d0; 7/7 decimal 0d-2; end|
53 80 00 05|4/4 decimal 5d0; end|
53 C1 80 0F|4/4 decimal -15d-1; end|
51 01|BadVar at 4|
52 41 0F|BadVar at 4|
5A 00 00 00 00 00 00 00 00 00 80|BadVar at 4|
59 00 00 00 00 00 00 00 00 80|4/4 decimal 0d0; end|
56 07 7F 7F 7F FF 01 56 47 7F 7F 7F FF 01|4/4 decimal 1d2147483647; 11/11 decimal 1d-2147483647; end|
55 08 00 00 00 80|Range at 4|
55 48 00 00 00 80|Range at 4|
5E 92 80 01 00 00 00 00 00 00 00 00 00 00 00 00 00 00 00 00|Range at 4|
5E 92 80 80 FF FF FF FF FF FF FF FF FF FF FF FF FF FF FF FF|4/4 decimal -340282366920938463463374607431768211455d0; end|
";

pub const DATES: &str = "
63 C0 0F D7 65 C0 0F D7 81 82|4/4 timestamp year 2007 1 1 0 0 0 0 none; 8/8 timestamp day 2007 1 2 0 0 0 0 none; end|
64 C0 0F D7 8C|4/4 timestamp month 2007 12 1 0 0 0 0 none; end|
64 C0 0F D7 8D|BadTimestamp at 4|
64 C0 0F D7 80|BadTimestamp at 4|
65 C0 0F D1 82 9D|BadTimestamp at 4|
65 C0 0F D0 82 9D|4/4 timestamp day 2000 2 29 0 0 0 0 none; end|
65 C0 0E EC 82 9D|BadTimestamp at 4|
65 C0 0F D7 81 80|BadTimestamp at 4|
60|BadTimestamp at 4|
61 C0|BadTimestamp at 4|
62 80 80|BadTimestamp at 4|
63 80 4E 8F|4/4 timestamp year 9999 1 1 0 0 0 0 none; end|
63 80 4E 90|BadTimestamp at 4|
62 80 0F|BadVar at 4|
64 80 0F D7 0D|BadVar at 4|
62 40 0F|BadVar at 4|
6A 00 00 00 00 00 00 00 00 00 80|BadVar at 4|
64 0B A0 0F D7|4/4 timestamp year 2007 1 1 0 0 0 0 none; end|
65 0B A0 0F D7 81|4/4 timestamp month 2007 1 1 0 0 0 0 none; end|
66 4B A0 0F D7 81 82|4/4 timestamp day 2007 1 2 0 0 0 0 none; end|
";

pub const TIMES: &str = "
67 80 0F D0 81 81 98 80|BadTimestamp at 4|
67 80 0F D0 81 81 80 BC|BadTimestamp at 4|
68 80 0F D0 81 81 80 80 BC|BadTimestamp at 4|
66 80 0F D0 81 81 80|BadTimestamp at 4|
67 80 0F D0 81 81 97 BB|4/4 timestamp minute 2000 1 1 23 59 0 0 0; end|
67 C0 0F D0 81 81 81 82|4/4 timestamp minute 2000 1 1 1 2 0 0 none; end|
68 0B A0 0F D0 81 81 80 80|BadTimestamp at 4|
68 4B A0 0F D0 81 81 80 80|BadTimestamp at 4|
68 0B 9F 0F D0 81 81 80 80|4/4 timestamp minute 2000 1 1 23 59 0 0 1439; end|
68 4B 9F 0F D0 81 81 80 80|4/4 timestamp minute 1999 12 31 0 1 0 0 -1439; end|
67 80 4E 8F 8C 9F 97 BB|4/4 timestamp minute 9999 12 31 23 59 0 0 0; end|
67 81 4E 8F 8C 9F 97 BB|BadTimestamp at 4|
66 C1 81 81 81 80 80|BadTimestamp at 4|
";

pub const FRACTIONS: &str = "
69 80 0F D0 81 81 80 80 80 80|4/4 timestamp second 2000 1 1 0 0 0 0 0; end|
69 80 0F D0 81 81 80 80 80 C1|4/4 timestamp fraction(1) 2000 1 1 0 0 0 0 0; end|
69 80 0F D0 81 81 80 80 80 E6|4/4 timestamp fraction(38) 2000 1 1 0 0 0 0 0; end|
69 80 0F D0 81 81 80 80 80 E7|Range at 4|
69 80 0F D0 8D 81 80 80 80 E7|Range at 4|
69 80 0F D0 8D 81 80 80 80 41|BadVar at 4|
6E 9A 80 0F D0 8D 81 80 80 80 C1 01 00 00 00 00 00 00 00 00 00 00 00 00 00 00 00 00|Range at 4|
6B 43 E0 0F DB 82 94 93 9E BB C3 64|4/4 timestamp fraction(3) 2011 2 20 11 30 59 100 -480; end|
6A 80 0F D0 81 81 80 80 80 C1 09|4/4 timestamp fraction(1) 2000 1 1 0 0 0 9 0; end|
6A 80 0F D0 81 81 80 80 80 C1 0A|BadTimestamp at 4|
6A 80 0F D0 81 81 80 80 80 80 01|BadTimestamp at 4|
6A 80 0F D0 81 81 80 80 80 C1 81|BadTimestamp at 4|
6A 80 0F D0 81 81 80 80 80 C1 80|4/4 timestamp fraction(1) 2000 1 1 0 0 0 0 0; end|
6A 80 0F D0 81 81 80 80 80 81 80|4/4 timestamp second 2000 1 1 0 0 0 0 0; end|
";

pub const SYMBOLS: &str = "
71 0A|4/4 symbol 10@4; end|
70|4/4 symbol 0@4; end|
71 02|4/4 symbol 2@4; end|
74 7F FF FF FF 74 80 00 00 00|4/4 symbol 2147483647@4; 9/9 symbol 2147483648@9; end|
7A FF FF FF FF FF FF FF FF FF FF|4/4 symbol 2147483648@4; end|
7A 00 00 00 00 00 00 00 00 00 0A|4/4 symbol 10@4; end|
72 0A|Truncated at 4|
";

pub const TEXTS_AND_LOBS: &str = "
82 C3 A9|4/4 string C3 A9; end|
84 F0 9F 98 80|4/4 string F0 9F 98 80; end|
80 90 A0|4/4 string; 5/5 clob; 6/6 blob; end|
8E 8E 61 62 63 64 65 66 67 68 69 6A 6B 6C 6D 6E|4/4 string 61 62 63 64 65 66 67 68 69 6A 6B 6C 6D 6E; end|
A5 68 65 6C 6C 6F|4/4 blob 68 65 6C 6C 6F; end|
91 80 A1 FF|4/4 clob 80; 6/6 blob FF; end|
82 C3 28|BadText at 4|
81 C3|BadText at 4|
82 C0 80|BadText at 4|
83 ED A0 80|BadText at 4|
84 F4 90 80 80|BadText at 4|
21 05 82 61|4/4 int 5; Truncated at 6|
82 C3|Truncated at 4|
8E 7F 7F 7F 7F 7F 7F 7F 7F FF|ScalarLimit at 4|
8E 7F 7F 7F 7F 7F 7F 7F 7F 7F|BadVar at 4|
";

/// Scalars that are too long, or not.
pub const LIMITED: &str = "
8E 8E 61 62 63 64 65 66 67 68 69 6A 6B 6C 6D 6E|4/4 string 61 62 63 64 65 66 67 68 69 6A 6B 6C 6D 6E; end|scalar=14|
8E 8E 61 62 63 64 65 66 67 68 69 6A 6B 6C 6D 6E|ScalarLimit at 4|scalar=13|
2E 91 00 FF FF FF FF FF FF FF FF FF FF FF FF FF FF FF FF|ScalarLimit at 4|scalar=16|
";
