//! Imports of shared tables, each row after a version marker.

/// Imports, where there are no shared tables.
pub const NOT_FOUND: &str = "
# Version 1 of x with two slots, then a local symbol; and the ids of it and of the first slot.
EE 94 81 83 DE 90 86 BA D9 84 81 78 85 21 01 88 21 02 87 B2 81 61 71 0C 71 0A|26/26 symbol 'a'@26; UnknownSymbol at 28|
# A declaration may itself use a slot without text, but not as its first annotation.
EC 81 83 D9 86 B7 D6 84 81 78 88 21 04 E8 82 83 8D D4 87 B2 81 65 71 0A|26/26 symbol 'e'@26; end|
EC 81 83 D9 86 B7 D6 84 81 78 88 21 04 E4 82 8D 83 D0|UnknownSymbol at 19|
EC 81 83 D9 86 B7 D6 84 81 78 88 21 04 E4 82 8E 83 D0|BadSymbol at 19|
# A field comes before a value.
EC 81 83 D9 86 B7 D6 84 81 78 88 21 02 D3 8B 71 63|17/17 begin struct; UnknownSymbol at 18|
EC 81 83 D9 86 B7 D6 84 81 78 88 21 02 E4 81 8B 71 0A|UnknownSymbol at 19|
# Without a table that has the name, `max_id` has to stand.
E9 81 83 D6 86 B4 D3 84 81 78|BadTable at 10|
";

/// Imports, where there is the one table.
pub const FOUND: &str = "
EE 94 81 83 DE 90 86 BA D9 84 81 78 85 21 01 88 21 02 87 B2 81 61 71 0C 71 0A|26/26 symbol 'a'@26; 28/28 symbol 'p'@28; end|
# Without a version it is 1, and with it `max_id` need not stand.
E9 81 83 D6 86 B4 D3 84 81 78 71 0A 71 0B 71 0C|14/14 symbol 'p'@14; 16/16 symbol 'q'@16; BadSymbol at 18|
# Version 0, and version -3, are as none.
EE 93 81 83 DE 8F 86 BD D5 84 81 78 85 20 D6 84 81 78 85 31 03 71 0A 71 0C|25/25 symbol 'p'@25; 27/27 symbol 'p'@27; end|
# A `max_id` of -1 or of null is as none; what is no struct is no import.
EE 99 81 83 DE 95 86 BE 92 D6 84 81 78 88 31 01 21 05 B2 21 01 D5 84 81 78 88 2F 71 0A 71 0D 71 0E|31/31 symbol 'p'@31; 33/33 symbol 'q'@33; BadSymbol at 35|
# A million slots in front of one more, and a local symbol.
EE 9B 81 83 DE 97 86 BE 90 D8 84 81 78 88 23 0F 42 40 D6 84 81 78 88 21 01 87 B2 81 6C 71 0A 71 0B 73 0F 42 4A 73 0F 42 4B 73 0F 42 49|33/33 symbol 'p'@33; 35/35 symbol 'q'@35; 37/37 symbol 'p'@37; 41/41 symbol 'l'@41; UnknownSymbol at 45|
# A table that is kept keeps its imports.
EC 81 83 D9 86 B7 D6 84 81 78 88 21 01 EA 81 83 D7 87 B2 81 62 86 71 03 71 0A 71 0B|28/28 symbol 'p'@28; 30/30 symbol 'b'@30; end|
# The order of the fields is ignored.
EE 94 81 83 DE 90 87 B2 81 61 86 BA D9 88 21 02 85 21 01 84 81 78 71 0C 71 0A|26/26 symbol 'a'@26; 28/28 symbol 'p'@28; end|
# Fewer slots than the table has.
EC 81 83 D9 86 B7 D6 84 81 78 88 21 01 71 0A 71 0B|17/17 symbol 'p'@17; BadSymbol at 19|
# None at all.
EB 81 83 D8 86 B6 D5 84 81 78 88 20 71 0A|BadSymbol at 16|
";

// No import is made of what has the name of the system table, an empty one or none.
pub const IGNORED: &str = "
EC 81 83 D9 86 B7 D6 84 84 24 69 6F 6E 71 0A|BadSymbol at 17|
E8 81 83 D5 86 B3 D2 84 80 71 0A|BadSymbol at 13|
E9 81 83 D6 86 B4 D3 88 21 05 71 0A|BadSymbol at 14|
EC 81 83 D9 86 B7 D6 84 71 04 88 21 05 71 0A|BadSymbol at 17|
E6 81 83 D3 86 B1 D0 71 0A|BadSymbol at 11|
";

pub const DOUBLED: &str = "
EC 81 83 D9 86 B7 D6 84 81 78 84 81 78|BadTable at 14|
EC 81 83 D9 86 B7 D6 84 21 05 84 81 78|BadTable at 14|
EC 81 83 D9 86 B7 D6 85 21 01 85 21 01|BadTable at 14|
EC 81 83 D9 86 B7 D6 88 21 01 88 21 01|BadTable at 14|
# Another field may stand twice.
EC 81 83 D9 86 B7 D6 87 21 01 87 21 01|end|
";

/// Limits on symbol tables, where there is the one table: the name of the system table counts while
/// it is read, and an import costs 32.
pub const LIMITED: &str = "
EC 81 83 D9 86 B7 D6 84 84 24 69 6F 6E 20|SymbolLimit at 12|symbols=3|
EC 81 83 D9 86 B7 D6 84 84 24 69 6F 6E 20|17/17 int 0; end|symbols=4|
# With the local symbol after it, it is 49.
EE 94 81 83 DE 90 86 BA D9 84 81 78 85 21 01 88 21 02 87 B2 81 61 71 0C 71 0A|SymbolLimit at 24|symbols=48|
EE 94 81 83 DE 90 86 BA D9 84 81 78 85 21 01 88 21 02 87 B2 81 61 71 0C 71 0A|26/26 symbol 'a'@26; 28/28 symbol 'p'@28; end|symbols=49|
# Ids end at 2,147,483,647.
EE 8F 81 83 DC 86 BA D9 84 81 78 88 24 7F FF FF F6 74 7F FF FF FF|UnknownSymbol at 21|
EE 8F 81 83 DC 86 BA D9 84 81 78 88 24 7F FF FF F7 20|SymbolLimit at 11|
";

/// Imports, where there are both tables. The greatest version stands in.
pub const GREATEST: &str = "
# Version 2 of x with four slots, and the ids of three of them.
EE 8F 81 83 DC 86 BA D9 84 81 78 85 21 02 88 21 04 71 0A 71 0C 71 0D|21/21 symbol 'r'@21; 23/23 symbol 't'@23; UnknownSymbol at 25|
EC 81 83 D9 86 B7 D6 84 81 78 85 21 02|BadTable at 10|
# The first slot of x.
EC 81 83 D9 86 B7 D6 84 81 78 88 21 01|SymbolLimit at 10|symbols=31|
EC 81 83 D9 86 B7 D6 84 81 78 88 21 01|end|symbols=32|
";
