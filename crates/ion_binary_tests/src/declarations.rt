//! Declarations of local symbols, each row after a version marker.

/// Two declarations, the second of which keeps the table of the first, and a symbol of each.
pub const APPENDED: &str =
    "EA 81 83 D7 87 B2 81 61 86 71 03 EA 81 83 D7 87 B2 81 62 86 71 03 71 0A 71 0B";

/// Symbols of declarations.
pub const DECLARED: &str = "
EA 81 83 D7 87 B2 81 61 86 71 03 EA 81 83 D7 87 B2 81 62 86 71 03 71 0A 71 0B|26/26 symbol 'a'@26; 28/28 symbol 'b'@28; end|
# The table before is not kept: there is one symbol then.
E7 81 83 D4 87 B2 81 61 E7 81 83 D4 87 B2 81 62 71 0A 71 0B|20/20 symbol 'b'@20; BadSymbol at 22|
# An element that is no string is a symbol of unknown text.
EA 81 83 D7 86 71 03 87 B2 21 05 71 0A|15/15 symbol 10@15; end|
E8 81 83 D5 87 B3 8F 81 61 71 0A 71 0B|13/13 symbol 10@13; 15/15 symbol 'a'@15; end|
# A container too, and what stands in it is ignored.
EE 90 81 83 DD 87 BB B8 21 01 81 63 D3 84 21 02 81 64 71 0A 71 0B 71 0C|22/22 symbol 10@22; 24/24 symbol 'd'@24; BadSymbol at 26|
# Annotations of an element are ignored.
EA 81 83 D7 87 B5 E4 81 84 81 62 71 0A|15/15 symbol 'b'@15; end|
# A list that is ignored, in a field that does not.
EE 8F 81 83 DC 84 B6 21 05 B3 B1 11 10 87 B2 81 61 71 0A|21/21 symbol 'a'@21; end|
# Fields without a meaning, or without a list, declare nothing, however often they stand.
EE 8E 81 83 DB 84 21 05 84 21 06 87 71 03 86 10 71 0A|BadSymbol at 20|
E3 81 83 D0 70 71 0A|8/8 symbol 0@8; BadSymbol at 9|
# The texts of fields and annotations, and no ids, are what counts.
EE A2 81 83 DE 9E 87 BE 9B 87 73 79 6D 62 6F 6C 73 8E 91 24 69 6F 6E 5F 73 79 6D 62 6F 6C 5F 74 61 62 6C 65 E7 81 8B D4 8A B2 81 61 71 0A|48/48 symbol 'a'@48; end|
";

/// What is no declaration.
pub const PLAIN: &str = "
|end|
71 0A|BadSymbol at 4|
70|4/4 symbol 0@4; end|
71 01 71 09|4/4 symbol '$ion'@4; 6/6 symbol '$ion_shared_symbol_table'@6; end|
# A field id before a NOP pad names nothing.
D5 80 01 FF 84 11|4/4 begin struct; 9/4 'name'@8: true; 10/4 end; end|
D5 FE 01 FF 84 11|4/4 begin struct; 9/4 'name'@8: true; 10/4 end; end|
D3 8A 21 05|4/4 begin struct; BadSymbol at 5|
D3 80 21 05|4/4 begin struct; 6/4 0@5: int 5; 8/4 end; end|
E4 81 84 21 05|7/4 'name'@6:: int 5; end|
E5 82 84 8A 71 0B|BadSymbol at 7|
# A field comes before an annotation, and that before the symbol itself.
D6 8A E4 81 8B 71 0C|4/4 begin struct; BadSymbol at 5|
D6 84 E4 81 8B 71 0C|4/4 begin struct; BadSymbol at 8|
D6 84 E4 81 85 71 0C|4/4 begin struct; BadSymbol at 9|
# Not at top level, no struct, or not the first annotation.
B4 E3 81 83 D0|4/4 begin list; 8/4 '$ion_symbol_table'@7:: begin struct; 9/4 end; 9/4 end; end|
E4 81 83 21 05|7/4 '$ion_symbol_table'@6:: int 5; end|
E3 81 83 DF|7/4 '$ion_symbol_table'@6:: null.struct; end|
E3 81 83 B0|7/4 '$ion_symbol_table'@6:: begin list; 8/4 end; end|
E4 82 84 83 D0|8/4 'name'@6:: '$ion_symbol_table'@7:: begin struct; 9/4 end; end|
E4 82 83 84 D0 71 04|9/9 symbol 'name'@9; end|
# A marker brings the system table back.
EA 81 83 D7 87 B2 81 61 86 71 03 E0 01 00 EA 71 0A|BadSymbol at 19|
E7 81 83 D4 87 B2 81 61 71 0A E0 01 00 EA 71 04 71 0A|12/12 symbol 'a'@12; 18/18 symbol 'name'@18; BadSymbol at 20|
";

/// Declarations that are refused.
pub const REFUSED: &str = "
E7 81 83 D4 87 B0 87 B0|BadTable at 10|
E7 81 83 D4 86 B0 86 B0|BadTable at 10|
E9 81 83 D6 87 21 05 87 21 05|BadTable at 11|
# The ids of a declaration are those of the table before it.
E8 81 83 D5 87 B3 B2 71 0B|BadSymbol at 11|
EA 81 83 D7 87 B5 E4 81 8A 81 62|BadSymbol at 12|
E7 81 83 D4 8A B2 81 61|BadSymbol at 8|
E4 82 83 8A D0|BadSymbol at 7|
# An id comes before what the field means.
E8 81 83 D5 87 B0 87 71 63|BadSymbol at 11|
# What the raw reader refuses in one.
E7 81 83 D4 87 B2 81 FF|BadText at 10|
E6 81 83 D3 87 B1 40|Float at 10|
E7 81 83 D4 87 B2 82 61|Overrun at 10|
EA 81 83 D7 87 B2 81 61 86 71|Truncated at 13|
EA 81 83 D7 87 B2 81 61|Truncated at 12|
";

/// Limits on symbol tables and on depth.
pub const LIMITED: &str = "
EA 81 83 D7 87 B2 81 61 86 71 03 EA 81 83 D7 87 B2 81 62 86 71 03 71 0A 71 0B|SymbolLimit at 24|symbols=33|
# The second `imports` is refused as such, and not since the two tables cost too much.
E7 81 83 D4 87 B2 81 61 EC 81 83 D9 87 B2 81 62 86 B0 86 71 03|BadTable at 22|symbols=33|
EA 81 83 D7 87 B2 81 61 86 71 03 EA 81 83 D7 87 B2 81 62 86 71 03 71 0A 71 0B|26/26 symbol 'a'@26; 28/28 symbol 'b'@28; end|symbols=34|
EA 81 83 D7 87 B2 81 61 86 71 03 EA 81 83 D7 87 B2 81 62 86 71 03 71 0A 71 0B|SymbolLimit at 10|symbols=16|
# A string after its annotation, whose place is its own.
EA 81 83 D7 87 B5 E4 81 84 81 62|SymbolLimit at 13|symbols=16|
# One without a text costs 16.
E7 81 83 D4 87 B2 21 05|end|symbols=16|
EA 81 83 D7 87 B5 E4 81 84 81 62|end|symbols=17|
E7 81 83 D4 87 B2 21 05|SymbolLimit at 10|symbols=15|
# The containers of a declaration count like others.
E9 81 83 D6 87 B4 B3 B2 21 05 71 0A|DepthLimit at 7|depth=0|
E9 81 83 D6 87 B4 B3 B2 21 05 71 0A|DepthLimit at 9|depth=1|
E9 81 83 D6 87 B4 B3 B2 21 05 71 0A|DepthLimit at 10|depth=2|
E9 81 83 D6 87 B4 B3 B2 21 05 71 0A|DepthLimit at 11|depth=3|
E9 81 83 D6 87 B4 B3 B2 21 05 71 0A|14/14 symbol 10@14; end|depth=4|
";
