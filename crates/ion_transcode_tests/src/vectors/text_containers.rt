//! Of the text encoding: containers and annotations. Written by tests/vectors/make.py.

pub const ROWS: &str = r#"
~ A list stands in [ and ], with commas between its values, and may have one at its end.
[1,2] [1,] []|3|[1,2]%0A[1]%0A[]%0A|%E0%01%00%EA%B4!%01!%02%B2!%01%B0|34109A2857690E82|.XQ)0?RNB9U>N|
[1 2]|BadToken 3|[1|%E0%01%00%EA|715A7BDA2DD7D5B9|.XQ)A|
[,]|BadToken 1|[|%E0%01%00%EA|D780118B0C09607E|.X+|
[1,,2]|BadToken 3|[1|%E0%01%00%EA|93F729E1441CC24D|.XQ)AA|
[1|Truncated 2|[1|%E0%01%00%EA|F79E8BC401102DC5|.X|
]|BadToken 0||%E0%01%00%EA|45CF7FAA53416536|.|
[1}|BadToken 2|[1|%E0%01%00%EA|07A3A3BEA0FDAD05|.XQ|
~ A struct stands in { and }, with commas between its fields, and may have one at its end.
{a:1,b:2,} {}|2|{a:1,b:2}%0A{}%0A|%E0%01%00%EA%EC%81%83%D9%86q%03%87%B4%81a%81b%D6%8A!%01%8B!%02%D0|6ACA6AB86521EBB6|.Y,;@@0V$BN?T|
{a:1 b:2}|BadToken 5|{a:1|%E0%01%00%EA|806D65DB9473751C|.Y,;@@AAA|
{,}|BadToken 1|{|%E0%01%00%EA|A96148B5C8EB2D73|.YF|
{a:1|Truncated 4|{a:1|%E0%01%00%EA|4997E151D72F7DC7|.Y,;|
{a}|BadToken 2|{|%E0%01%00%EA|016BD298DF29D6C6|.Y,|
{a:}|BadToken 3|{|%E0%01%00%EA|4997E151D72F7DC7|.Y,;|
{a:1)|BadToken 4|{a:1|%E0%01%00%EA|A57092FCE48F1FE9|.Y,;@|
~ An S-expression stands in ( and ), without commas.
(1 2) () (a())|3|(1 2)%0A()%0A(a ())%0A|%E0%01%00%EA%C4!%01!%02%C0%EA%81%83%D7%86q%03%87%B2%81a%C3q%0A%C0|F7703D4A667F5B58|...A$>ZY-+6+=#|
(1,2)|BadToken 2|(1|%E0%01%00%EA|88EFF9C9C95B7C09|...((|
(1|Truncated 2|(1|%E0%01%00%EA|8D040D0CA2FAC734|..|
(]|BadToken 1|(|%E0%01%00%EA|8D040D0CA2FAC734|..|
~ A field's name is a symbol, a string or a long string.
{a:1,'b':2,$4:3,"c":4,'''d''' '''e''':5}|1|{a:1,b:2,name:3,c:4,de:5}%0A|%E0%01%00%EA%EE%92%81%83%DE%8E%86q%03%87%B9%81a%81b%81c%82de%DE%8F%8A!%01%8B!%02%84!%03%8C!%04%8D!%05|9914439BF7EDF0F2|.Y,;@@2%L.XGLE/RC;#P3K#7V&>>>[FFFZ555>HU|
{1:2}|BadToken 1|{|%E0%01%00%EA|AE11B11F9004A183|.YFFF|
{null:1}|BadToken 1|{|%E0%01%00%EA|5DC29DFF06457DDB|.Y,;%FFF|
{[]:1}|BadToken 1|{|%E0%01%00%EA|BEA075278F81B7F5|.YFFFF|
{$10:1}|BadSymbol 1|{|%E0%01%00%EA|F4AEB1DB72A6F7A3|.Y,;%'G|
~ After it stands a colon.
{a : 1,b/**/:2}|1|{a:1,b:2}%0A|%E0%01%00%EA%EC%81%83%D9%86q%03%87%B4%81a%81b%D6%8A!%01%8B!%02|AB5495445140DDFF|.Y,;%'9VL100*Z[|
{a 1}|BadToken 3|{|%E0%01%00%EA|3B46FB86CC9FE239|.Y,;V|
{a::1}|BadToken 2|{|%E0%01%00%EA|595118CDBCA7A52B|.Y,;--|
{a|Truncated 2|{|%E0%01%00%EA|51612AB8E76545D5|.Y|
~ An annotation is a symbol and two colons.
a::'b'::$4::1 a::[]|2|a::b::name::1%0Aa::[]%0A|%E0%01%00%EA%EC%81%83%D9%86q%03%87%B4%81a%81b%E6%83%8A%8B%84!%01%E3%81%8A%B0|FC4FDC52C66E8B81|.RW0,((&D4UE:#Y7-R8|
"a"::1|BadToken 3|"a"%0A|%E0%01%00%EA%81a|5558D9F2431F4BFB|.<@J66|
1::2|BadToken 0||%E0%01%00%EA|584A00A894CB3249|.B88|
a::|Truncated 3||%E0%01%00%EA|8479B37C6534A95B|.RW|
$10::1|BadSymbol 0||%E0%01%00%EA|BF65568959D1BDBF|.$:VVW|
~ White space and comments may stand before the colons and after them.
a /*x*/ :: //y%0A b|1|a::b%0A|%E0%01%00%EA%EC%81%83%D9%86q%03%87%B4%81a%81b%E4%81%8Aq%0B|CD11B9E65BEADE8F|.RD;QZZ#E.,A6A6EO|
a : : b|BadToken 2|a%0A|%E0%01%00%EA%EA%81%83%D7%86q%03%87%B2%81aq%0A|8F5B7294AFCAAB20|.RD;;;;|
a :/**/: b|BadToken 2|a%0A|%E0%01%00%EA%EA%81%83%D7%86q%03%87%B2%81aq%0A|3FAFD2F8FB9567E3|.RD;;;;;;;|
~ Two colons together are one token.
{a:b::c}|1|{a:b::c}%0A|%E0%01%00%EA%EE%8E%81%83%DB%86q%03%87%B6%81a%81b%81c%D6%8A%E4%81%8Bq%0C|4AB812D2AA422FD4|.Y,;;+S0|
{a::b}|BadToken 2|{|%E0%01%00%EA|595118CDBCA7A52B|.Y,;--|
{a:b:c}|BadToken 4|{a:b|%E0%01%00%EA|7D01FC538E345232|.Y,;;++|
{a: :b}|BadToken 4|{|%E0%01%00%EA|A205164540408F8D|.Y,;%VV|
"#;
