//! Of the text encoding: strings and quoted symbols. Written by tests/vectors/make.py.

pub const ROWS: &str = r#"
~ A string stands between double quotes.
"a'b" ""|2|"a'b"%0A""%0A|%E0%01%00%EA%83a'b%80|A2347E955221C668|.VYU;LDQ|
"a|Truncated 0||%E0%01%00%EA|1E49C91526902ADD|.@|
a"|Truncated 1|a%0A|%E0%01%00%EA%EA%81%83%D7%86q%03%87%B2%81aq%0A|0AA12D3E66EE1909|.R|
~ Long strings stand between three single quotes, and neighbours are one.
'''a''' '''b''''''c'''|1|"abc"%0A|%E0%01%00%EA%83abc|909F4A91E28CF426|.<Y2'X[F1J07I=B9&=[@@@|
'''a''' '''b|Truncated 0||%E0%01%00%EA|4C09506CF2869481|.NYMCKSF140@|
'''a''|Truncated 0||%E0%01%00%EA|135A277072112C5D|.&Y@@@|
~ White space and comments may stand between them.
'''a''' /*x*/ //y%0A '''b''' 'c'|2|"ab"%0Ac%0A|%E0%01%00%EA%82ab%EA%81%83%D7%86q%03%87%B2%81cq%0A|D3D329946BB6C8B1|.*YYAESF1M?33-EXO'D/UOT@@@;')K|
'''a''' /*x|Truncated 8|"a"%0A|%E0%01%00%EA%81a|DFD8ED01430BC9CB|.*Y-@@@F1M3|
~ A quoted symbol stands between single quotes.
'a"b' 'null'|2|'a"b'%0A'null'%0A|%E0%01%00%EA%EC%81%83%D9%86q%03%87%B4%83a"bq%0A%ED%81%83%DA%86q%03%87%B5%84nullq%0B|5A50E515A587E0D6|.26[/:7H0<O#|
'a|Truncated 0||%E0%01%00%EA|1E49C91526902ADD|.@|
'a%0A'|BadText 0||%E0%01%00%EA|A55570EEB3609678|.[,D|
~ Two single quotes without a third are the empty symbol.
'' ['',a]|2|''%0A['',a]%0A|%E0%01%00%EA%E9%81%83%D6%86q%03%87%B1%80q%0A%EA%81%83%D7%86q%03%87%B2%81a%B4q%0Aq%0B|32AF357CF5F801E6|.=YZ+SJ@-|
'''|Truncated 0||%E0%01%00%EA|9CC8C50D816AE74C|.<Y|
''''|Truncated 0||%E0%01%00%EA|2D27999EC57170EE|.-Y@|
~ Escapes are a b t n f r v 0 ? " ' \ / after a backslash.
"\a\b\t\n\f\r\v\0\?\"\'\\\/"|1|"\a\b\t\n\f\r\v\x00?\"'\\/"%0A|%E0%01%00%EA%8D%07%08%09%0A%0C%0D%0B%00?"'\/|4B0BBC0008D66705|.#[G[2[X[G[5['[([*[P[F[N[=[@|
"\e"|BadText 0||%E0%01%00%EA|E769058582011FE1|.$[D|
"\1"|BadText 0||%E0%01%00%EA|E09052F11A426DA8|.P[D|
'\N'|BadText 0||%E0%01%00%EA|B8DFE264F51AB47F|.S[D|
~ \x has two hexadecimal digits, of a character.
"\x41\xe9"|1|"A%C3%A9"%0A|%E0%01%00%EA%83A%C3%A9|AF00CB34BD4A63A8|.0[[[B[[[@|
"\x4"|BadText 0||%E0%01%00%EA|245E786AB21D7A0B|.F[[[|
"\xg0"|BadText 0||%E0%01%00%EA|5E1D5B904E4E3D2B|.H[[DD|
~ \u has four, of a character.
"\u00E9" '\u0041'|2|"%C3%A9"%0AA%0A|%E0%01%00%EA%82%C3%A9%EA%81%83%D7%86q%03%87%B2%81Aq%0A|4D18BFD70338ED3E|.E[[[[[@-6LYYYYYQ|
"\u00E"|BadText 0||%E0%01%00%EA|FF66B8530B8AD767|.@[[[[[|
"\u00Eg"|BadText 0||%E0%01%00%EA|021BFD4209937A73|.=[[[[[D|
~ \U has eight, of a character.
"\U0001F600"|1|"%F0%9F%98%80"%0A|%E0%01%00%EA%84%F0%9F%98%80|18A9F04547CE9863|.J[[[[[[[[[@|
"\U00110000"|BadText 0||%E0%01%00%EA|D1F4F9F17B504AD8|.Z[[[[[[[[[D|
"\U0000D800"|BadText 0||%E0%01%00%EA|F3CA1F143F9612FF|.U[[[[[[[[[D|
"\U1F600"|BadText 0||%E0%01%00%EA|726C25053C4263C6|.X[[[[[[[|
~ A backslash before LF, CR or CR LF vanishes with it.
"a\%0Ab\%0Dc\%0D%0Ad"|1|"abcd"%0A|%E0%01%00%EA%84abcd|D2AB471FCA93DFED|.'[[3[[*[[;J@|
"a\ %0Ab"|BadText 0||%E0%01%00%EA|E35FFE2802AD7378|.[[[DDD|
~ Bytes below 20 are illegal, but for tab, VT and FF.
"%09%0B%0C" '%09'|2|"\t\v\f"%0A'\t'%0A|%E0%01%00%EA%83%09%0B%0C%EA%81%83%D7%86q%03%87%B2%81%09q%0A|25159F0282F7C1F3|.+6Q@O=LH|
"%01"|BadText 0||%E0%01%00%EA|83D180CCF10C6F40|.HD|
'%00'|BadText 0||%E0%01%00%EA|F08E972A894403E3|.<D|
'''%1F'''|BadText 0||%E0%01%00%EA|AD58B04004BB43B4|.6YHDDD|
~ Line ends are illegal, but for long strings.
'''a%0Ab'''|1|"a\nb"%0A|%E0%01%00%EA%83a%0Ab|4F1669637755E2EB|.UY)E/@@@|
"a%0Ab"|BadText 0||%E0%01%00%EA|DCCDE26E5B6D69B7|.[EDD|
"a%0Db"|BadText 0||%E0%01%00%EA|DCCDE26E5B6D69B7|.[EDD|
'a%0Ab'|BadText 0||%E0%01%00%EA|B4720EB50A704B7E|.[4DD|
~ CR and CR LF in long strings are LF.
'''a%0Db%0D%0Ac%0A%0Dd'''|1|"a\nb\nc\n\nd"%0A|%E0%01%00%EA%88a%0Ab%0Ac%0A%0Ad|A0A437E6F6C92FDE|.-YL-:$5FE(T@@@|
"a%0D%0A"|BadText 0||%E0%01%00%EA|3388DD58B7D8B716|.[[DD|
~ A high surrogate joins with the low one after it, both by \u.
"\uD83D\uDE00"|1|"%F0%9F%98%80"%0A|%E0%01%00%EA%84%F0%9F%98%80|46F8AE5C18C68D5D|.[[[[[[[[[[[[@|
"\uD83D"|BadText 0||%E0%01%00%EA|1F1F6D91A87E119C|.K[[[[[[|
"\uDE00"|BadText 0||%E0%01%00%EA|315895AE57CF7E4F|.C[[[[[D|
"\uD83D \uDE00"|BadText 0||%E0%01%00%EA|F836CF0124B62138|.[[[[[[[DDDDDDD|
"\uD83D\U0000DE00"|BadText 0||%E0%01%00%EA|27938476630F10D2|.[[[[[[[[DDDDDDDDD|
~ The bytes of each segment are UTF-8.
'''%C3%A9'''|1|"%C3%A9"%0A|%E0%01%00%EA%82%C3%A9|0A0D7E4B067B4979|.6Y[B@@@|
'''%C3''' '''%A9'''|BadText 0||%E0%01%00%EA|3D4CDB39650AA9F8|.6Y[B[[DDDDDDDD|
"%ED%A0%80"|BadText 0||%E0%01%00%EA|947F45635408C419|.['[@|
~ An escaped line end leaves the bytes around it together.
"%C3\%0A%A9"|1|"%C3%A9"%0A|%E0%01%00%EA%82%C3%A9|B0F6479EBC24EEF5|.[[[B@|
"%C3%0A%A9"|BadText 0||%E0%01%00%EA|3388DD58B7D8B716|.[[DD|
"#;
