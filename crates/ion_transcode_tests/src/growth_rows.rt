//! Streams with what is read and written of them. They are run with each growth refused.

/// Texts, their verdicts, what is shown of them, their verdicts where they are written as binary, what is written of
/// them then, and the catalogue.
pub const TEXTS: &str = r#"
|0||0|%E0%01%00%EA||
null.int 5 -0 'a b'|4|null.int%0A5%0A0%0A'a b'%0A|4|%E0%01%00%EA%2F%21%05%20%EC%81%83%D9%86%71%03%87%B4%83%61%20%62%71%0A||
{name:[1,2]}|1|{name:[1,2]}%0A|1|%E0%01%00%EA%D6%84%B4%21%01%21%02||
"abcdefghijklmn"|1|"abcdefghijklmn"%0A|1|%E0%01%00%EA%8E%8E%61%62%63%64%65%66%67%68%69%6A%6B%6C%6D%6E||
2011-02-20T11:30:59.100-08:00|1|2011-02-20T11:30:59.100-08:00%0A|1|%E0%01%00%EA%6B%43%E0%0F%DB%82%94%93%9E%BB%C3%64||
-0.|1|-0.%0A|1|%E0%01%00%EA%52%80%80||
'''a''' /*x*/ '''b'''|1|"ab"%0A|1|%E0%01%00%EA%82%61%62||
340282366920938463463374607431768211455|1|340282366920938463463374607431768211455%0A|1|%E0%01%00%EA%2E%90%FF%FF%FF%FF%FF%FF%FF%FF%FF%FF%FF%FF%FF%FF%FF%FF||
340282366920938463463374607431768211456|Range 0||Range 0|%E0%01%00%EA||
1e0|Float 0||Float 0|%E0%01%00%EA||
[1,{a:|Truncated 6|[1,{|Truncated 6|%E0%01%00%EA||
{{aGVsbG8=}}|1|{{aGVsbG8=}}%0A|1|%E0%01%00%EA%A5%68%65%6C%6C%6F||
{{aGVsbG9=}}|BadLob 0||BadLob 0|%E0%01%00%EA||
{{}}|1|{{}}%0A|1|%E0%01%00%EA%A0||
"\xe9"|1|"%C3%A9"%0A|1|%E0%01%00%EA%82%C3%A9||
"\uD83D\uDE00"|1|"%F0%9F%98%80"%0A|1|%E0%01%00%EA%84%F0%9F%98%80||
"\uD83D"|BadText 0||BadText 0|%E0%01%00%EA||
"ab |Truncated 0||Truncated 0|%E0%01%00%EA||
{$99:1}|BadSymbol 1|{|BadSymbol 1|%E0%01%00%EA||
{$99:1_}|BadToken 5|{|BadToken 5|%E0%01%00%EA||
(--1 a.b -2 /*c*/ +)|1|('--' 1 a '.' b -2 '+')%0A|1|%E0%01%00%EA%EE%94%81%83%DE%90%86%71%03%87%BB%82%2D%2D%81%61%81%2E%81%62%81%2B%CE%8E%71%0A%21%01%71%0B%71%0C%71%0D%31%02%71%0E||
$ion_1_1 5|BadVersion 0||BadVersion 0|%E0%01%00%EA||
'$ion_1_0'|1|'$ion_1_0'%0A|1|%E0%01%00%EA%71%02||
%EF%BB%BF5|BadToken 0||BadToken 0|%E0%01%00%EA||
!%05|BadToken 0||BadToken 0|%E0%01%00%EA||
2007T 2007-01-02T|2|2007T%0A2007-01-02%0A|2|%E0%01%00%EA%63%C0%0F%D7%65%C0%0F%D7%81%82||
2007-13T|BadTimestamp 0||BadTimestamp 0|%E0%01%00%EA||
[1 2]|BadToken 3|[1|BadToken 3|%E0%01%00%EA||
[1,]|1|[1]%0A|1|%E0%01%00%EA%B2%21%01||
[,]|BadToken 1|[|BadToken 1|%E0%01%00%EA||
{a::1}|BadToken 2|{|BadToken 2|%E0%01%00%EA||
[1/*x*/,2]|1|[1,2]%0A|1|%E0%01%00%EA%B4%21%01%21%02||
[1/2]|BadToken 1|[|BadToken 1|%E0%01%00%EA||
a /*x*/ :: /*y*/ b|1|a::b%0A|1|%E0%01%00%EA%EC%81%83%D9%86%71%03%87%B4%81%61%81%62%E4%81%8A%71%0B||
null.nul|BadToken 0||BadToken 0|%E0%01%00%EA||
(1_ a)|BadToken 1|(|BadToken 1|%E0%01%00%EA||
a::|Truncated 3||Truncated 3|%E0%01%00%EA||
[1 "a|BadToken 3|[1|BadToken 3|%E0%01%00%EA||
{nan:1}|BadToken 1|{|BadToken 1|%E0%01%00%EA||
2000-02-30T|BadTimestamp 0||BadTimestamp 0|%E0%01%00%EA||
a /*|Truncated 2|a%0A|Truncated 2|%E0%01%00%EA%EA%81%83%D7%86%71%03%87%B2%81%61%71%0A||
'''a''' '''b|Truncated 0||Truncated 0|%E0%01%00%EA||
[[[[[[[[[[[[[[[[[[[[[[[[[[[[[[[[[[[[[[[[[[[[[[[[[[[[[[[[[[[[[[[[[|DepthLimit 64|[[[[[[[[[[[[[[[[[[[[[[[[[[[[[[[[[[[[[[[[[[[[[[[[[[[[[[[[[[[[[[[[|DepthLimit 64|%E0%01%00%EA||
a [b,|Truncated 5|a%0A[b|Truncated 5|%E0%01%00%EA%EA%81%83%D7%86%71%03%87%B2%81%61%71%0A||
15d-1|1|1.5%0A|1|%E0%01%00%EA%52%C1%0F||
5d-3|1|0.005%0A|1|%E0%01%00%EA%52%C3%05||
-0d0|1|-0.%0A|1|%E0%01%00%EA%52%80%80||
0d-2|1|0.00%0A|1|%E0%01%00%EA%51%C2||
15d1|1|15d1%0A|1|%E0%01%00%EA%52%81%0F||
1d-39|1|1d-39%0A|1|%E0%01%00%EA%52%E7%01||
(15. -0. a)|1|(15. -0. a)%0A|1|%E0%01%00%EA%EA%81%83%D7%86%71%03%87%B2%81%61%C8%52%80%0F%52%80%80%71%0A||
340282366920938463463374607431768211455d-38|1|3.40282366920938463463374607431768211455%0A|1|%E0%01%00%EA%5E%92%E6%00%FF%FF%FF%FF%FF%FF%FF%FF%FF%FF%FF%FF%FF%FF%FF%FF||
"#;

/// Texts under a limit, with the same fields.
pub const LIMITED: &str = r#"
"abcdefghijklmn"|1|"abcdefghijklmn"%0A|1|%E0%01%00%EA%8E%8E%61%62%63%64%65%66%67%68%69%6A%6B%6C%6D%6E||value=16|
"abcdefghijklmn"|1|"abcdefghijklmn"%0A|ValueLimit 0|%E0%01%00%EA||value=15|
"abcdefghijklmn"|1|"abcdefghijklmn"%0A|1|%E0%01%00%EA%8E%8E%61%62%63%64%65%66%67%68%69%6A%6B%6C%6D%6E||scalar=14|
"abcdefghijklmn"|ScalarLimit 0||ScalarLimit 0|%E0%01%00%EA||scalar=13|
[[["x"|Truncated 6|[[["x"|ValueLimit 0|%E0%01%00%EA||value=4|
[[["x"|Truncated 6|[[["x"|Truncated 6|%E0%01%00%EA||value=5|
a b|2|a%0Ab%0A|2|%E0%01%00%EA%EA%81%83%D7%86%71%03%87%B2%81%61%71%0A%E0%01%00%EA%EA%81%83%D7%86%71%03%87%B2%81%62%71%0A||symbols=17|
[[]]|DepthLimit 1|[|DepthLimit 1|%E0%01%00%EA||depth=1|
[[true,true,true,true,true,true,true,true,true,true,true,true,true]]|1|[[true,true,true,true,true,true,true,true,true,true,true,true,true]]%0A|1|%E0%01%00%EA%BE%8E%BD%11%11%11%11%11%11%11%11%11%11%11%11%11||value=16|
[[true,true,true,true,true,true,true,true,true,true,true,true,true]]|1|[[true,true,true,true,true,true,true,true,true,true,true,true,true]]%0A|ValueLimit 0|%E0%01%00%EA||value=15|
[a,b]|1|[a,b]%0A|SymbolLimit 3|%E0%01%00%EA||symbols=33|
[a,b]|1|[a,b]%0A|1|%E0%01%00%EA%EC%81%83%D9%86%71%03%87%B4%81%61%81%62%B4%71%0A%71%0B||symbols=34|
a b a|3|a%0Ab%0Aa%0A|3|%E0%01%00%EA%EA%81%83%D7%86%71%03%87%B2%81%61%71%0A%EA%81%83%D7%86%71%03%87%B2%81%62%71%0B%E0%01%00%EA%EA%81%83%D7%86%71%03%87%B2%81%61%71%0A||symbols=40|
"#;

/// Texts that import tables of a catalogue, with the same fields.
pub const IMPORTS: &str = r#"
$ion_symbol_table::{imports:[{name:"x",version:1,max_id:2}],symbols:["a"]} $12 $10|UnknownSymbol 79|a%0A|UnknownSymbol 79|%E0%01%00%EA%EA%81%83%D7%86%71%03%87%B2%81%61%71%0A||
$ion_symbol_table::{imports:[{name:"x",version:1,max_id:2}],symbols:["a"]} $12 $10|2|a%0Ap%0A|2|%E0%01%00%EA%EA%81%83%D7%86%71%03%87%B2%81%61%71%0A%EA%81%83%D7%86%71%03%87%B2%81%70%71%0B|$ion_shared_symbol_table::{name:"x",version:1,symbols:["p","q"]}|
$ion_symbol_table::{imports:[{name:"x",version:2,max_id:4}]} $10 $12 $13|UnknownSymbol 69|r%0At%0A|UnknownSymbol 69|%E0%01%00%EA%EA%81%83%D7%86%71%03%87%B2%81%72%71%0A%EA%81%83%D7%86%71%03%87%B2%81%74%71%0B|$ion_shared_symbol_table::{name:"x",version:1,symbols:["p","q"]} $ion_shared_symbol_table::{name:"x",version:3,symbols:["r","s","t"]}|
$ion_symbol_table::{imports:[{name:"x",version:2}]}|BadTable 29||BadTable 29|%E0%01%00%EA|$ion_shared_symbol_table::{name:"x",version:1,symbols:["p","q"]} $ion_shared_symbol_table::{name:"x",version:3,symbols:["r","s","t"]}|
$ion_symbol_table::{imports:[{name:"x",max_id:1}]}|SymbolLimit 29||SymbolLimit 29|%E0%01%00%EA|$ion_shared_symbol_table::{name:"x",version:1,symbols:["p","q"]} $ion_shared_symbol_table::{name:"x",version:3,symbols:["r","s","t"]}|symbols=31|
$ion_symbol_table::{imports:[{name:"x",max_id:1}]}|0||0|%E0%01%00%EA|$ion_shared_symbol_table::{name:"x",version:1,symbols:["p","q"]} $ion_shared_symbol_table::{name:"x",version:3,symbols:["r","s","t"]}|symbols=32|
"#;

/// Binary, with the same fields.
pub const OCTETS: &str = r#"
%E0%01%00%EA%69%80%0F%D0%81%81%80%80%80%80|1|2000-01-01T00:00:00Z%0A|SameForm 0|||
%E0%01%00%EA%69%80%0F%D0%81%81%80%80%80%C1|1|2000-01-01T00:00:00.0Z%0A|SameForm 0|||
%E0%01%00%EA%D5%80%01%FF%84%11|1|{name:true}%0A|SameForm 0|||
%E0%01%00%EA%D5%FE%01%FF%84%11|1|{name:true}%0A|SameForm 0|||
%E0%01%00%EA|0||SameForm 0|||
%E0%01%00%EA%EA%81%83%D7%87%B2%81%61%86%71%03%EA%81%83%D7%87%B2%81%62%86%71%03%71%0A%71%0B|2|a%0Ab%0A|SameForm 0|||
%E0%01%00%EA%40|Float 4||SameForm 0|||
%E0%01%00%EA%31%00|BadNumber 4||SameForm 0|||
%E0%01%00%EA%21%00|1|0%0A|SameForm 0|||
%E0%01%00%EA%21%05%82%61|Truncated 6|5%0A|SameForm 0|||
%E0%01%00%EA%E6%81%84%E3%81%84%11|BadAnnotation 7||SameForm 0|||
%E0%01%00%EA%0F%11%21%05%31%07%2F%10|6|null%0Atrue%0A5%0A-7%0Anull.int%0Afalse%0A|SameForm 0|||
%E0%01%01%EA|BadVersion 0||SameForm 0|||
%E0%01|Truncated 0||SameForm 0|||
%E0%01%00%EA%71%0A|BadSymbol 4||SameForm 0|||
%E0%01%00%EA%70|1|$0%0A|SameForm 0|||
%E0%01%00%EA%B1%21%05|Overrun 5|[|SameForm 0|||
%E0%01%00%EA%D1%80|BadDescriptor 4||SameForm 0|||
%E0%01%00%EA%E4%81%84%01%00|BadAnnotation 7||SameForm 0|||
%E0%01%00%EA%21|Truncated 4||SameForm 0|||
%E0%01%00%EA%2E%91%00%FF%FF%FF%FF%FF%FF%FF%FF%FF%FF%FF%FF%FF%FF%FF%FF|1|340282366920938463463374607431768211455%0A|SameForm 0|||
%E0%01%00%EA%2E%91%01%FF%FF%FF%FF%FF%FF%FF%FF%FF%FF%FF%FF%FF%FF%FF%FF|Range 4||SameForm 0|||
%E0%01%00%EA%2E%91%00%FF%FF%FF%FF%FF%FF%FF%FF%FF%FF%FF%FF%FF%FF%FF%FF|ScalarLimit 4||SameForm 0|||scalar=16|
%E0%01%00%EA%2E%91%01%FF%FF%FF%FF%FF%FF%FF%FF%FF%FF%FF%FF%FF%FF%FF%FF|ScalarLimit 4||SameForm 0|||scalar=16|
%E0%01%00%EA%52%C1%0F|1|1.5%0A|SameForm 0|||
%E0%01%00%EA%52%80%80|1|-0.%0A|SameForm 0|||
%E0%01%00%EA%E4%81%84%21%05|AnnotationLimit 6||SameForm 0|||scalar=15|
%E0%01%00%EA%E4%81%84%21%05|1|name::5%0A|SameForm 0|||scalar=16|
%E0%01%00%EA%67%80%0F%D0%81%81%98%80|BadTimestamp 4||SameForm 0|||
%E0%01%00%EA%65%C0%0F%D1%82%9D|BadTimestamp 4||SameForm 0|||
%E0%01%00%EA%68%0B%A0%0F%D0%81%81%80%80|BadTimestamp 4||SameForm 0|||
%E0%01%00%EA%69%80%0F%D0%81%81%80%80%80%E7|Range 4||SameForm 0|||
%E0%01%00%EA%B1%B0|DepthLimit 5|[|SameForm 0|||depth=1|
%E0%01%00%EA%EA%81%83%D7%87%B2%81%61%86%71%03%EA%81%83%D7%87%B2%81%62%86%71%03%71%0A%71%0B|SymbolLimit 24||SameForm 0|||symbols=33|
%E0%01%00%EA%EA%81%83%D7%86%71%03%87%B2%21%05%71%0A|1|$0%0A|SameForm 0|||
%E0%01%00%EA%E7%81%83%D4%87%B0%87%B0|BadTable 10||SameForm 0|||
%E0%01%00%EA%EA%81%83%D7%87%B2%81%61%86%71%03%E0%01%00%EA%71%0A|BadSymbol 19||SameForm 0|||
%E0%01%00%EA%BE%7F%7F%7F%7F%7F%7F%7F%7F%FF|Truncated 14|[|SameForm 0|||
%E0%01%00%EA%BE%7F%7F%7F%7F%7F%7F%7F%7F%7F|BadVar 4||SameForm 0|||
%E0%01%00%EA%8E%7F%7F%7F%7F%7F%7F%7F%7F%FF|ScalarLimit 4||SameForm 0|||
%E0%01%00%EA%0E%7F%7F%7F%7F%7F%7F%7F%7F%FF|Truncated 4||SameForm 0|||
%E0%01%00%EA%B2%B3%10|Overrun 5|[|SameForm 0|||
"#;

/// Catalogues, and what they hold when they are loaded, or why they are refused.
pub const CATALOGS: &str = r#"
|0|
$ion_shared_symbol_table::{name:"x",version:1,symbols:["p","q"]}|67|
$ion_shared_symbol_table::{symbols:["p","q"],version:1,name:"x"}|67|
$ion_shared_symbol_table::{name:"x",version:1,symbols:["p","q"]} $ion_shared_symbol_table::{name:"x",version:3,symbols:["r","s","t"]}|151|
5|CatalogEntry 0|
$ion_shared_symbol_table::{name:"x",version:1} $ion_shared_symbol_table::{name:"x"}|CatalogEntry 47|
"#;
