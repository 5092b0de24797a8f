//! Streams from their first octet on.

/// Whole streams.
pub const ROWS: &str = "
|end|
E0 01 00 EA|0/0 marker; end|
E0 01 01 EA|BadVersion at 0|
E0 01 00 EB|BadVersion at 0|
E0 00 00 EA|BadVersion at 0|
E0 01|Truncated at 0|
E0 02 00|Truncated at 0|
E0|Truncated at 0|
E0 01 00 EA 11 E0 01 00 EA 10|0/0 marker; 4/4 true; 5/5 marker; 9/9 false; end|
E0 01 00 EA 11 E0 01 01 EA 10|0/0 marker; 4/4 true; BadVersion at 5|
E0 01 00 EA 11 E0 01|0/0 marker; 4/4 true; Truncated at 5|
# An int, a zero, and a symbol after the declaration of its text.
E0 01 00 EA 2F 21 05 20 EC 81 83 D9 86 71 03 87 B4 83 61 20 62 71 0A|0/0 marker; 4/4 null.int; 5/5 int 5; 7/7 int 0; 11/8 3@10:: begin struct; 13/8 6@12: symbol 3@13; 16/8 7@15: begin list; 17/8 string 61 20 62; 21/8 end; 21/8 end; 21/21 symbol 10@21; end|
# A declaration of one text, and its symbol.
E0 01 00 EA EA 81 83 D7 86 71 03 87 B2 81 61 71 0A|0/0 marker; 7/4 3@6:: begin struct; 9/4 6@8: symbol 3@9; 12/4 7@11: begin list; 13/4 string 61; 15/4 end; 15/4 end; 15/15 symbol 10@15; end|
# Two declarations whose symbols stand before their imports.
E0 01 00 EA EA 81 83 D7 87 B2 81 61 86 71 03 EA 81 83 D7 87 B2 81 62 86 71 03 71 0A 71 0B|0/0 marker; 7/4 3@6:: begin struct; 9/4 7@8: begin list; 10/4 string 61; 12/4 end; 13/4 6@12: symbol 3@13; 15/4 end; 18/15 3@17:: begin struct; 20/15 7@19: begin list; 21/15 string 62; 23/15 end; 24/15 6@23: symbol 3@24; 26/15 end; 26/26 symbol 10@26; 28/28 symbol 11@28; end|
";
