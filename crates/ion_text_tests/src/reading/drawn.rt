//! Texts drawn at random, and what another program reads of them (`diff/cases/cut_texts.py`).

use super::Row;

/// Texts that were drawn.
pub const TEXTS: &[Row] = &[
    (
        1048576,
        b"$ion_symbol_table::{imports:[{name:{{\\u00",
        "19/0 '$ion_symbol_table'@0:: begin struct; 28/0 'imports'@20: begin list; 29/0 begin struct; BadLob at 35",
    ),
    (
        1048576,
        b"[($4[]\"s\"),2]",
        "0/0 begin list; 1/0 begin sexp; 2/0 symbol 4@2; 4/0 begin list; 5/0 end; 6/0 string 73; 9/0 end; 11/0 int 2; 12/0 end; over",
    ),
    (
        1048576,
        b"/*x*/1.\n\"x\"'\\uDE00",
        "5/5 decimal 1d0; 8/8 string 78; BadText at 11",
    ),
    (
        1048576,
        b"([]_$4-inf:x-1) 1",
        "0/0 begin sexp; 1/0 begin list; 2/0 end; 3/0 symbol '_$4'@3; Float at 6",
    ),
    (
        1048576,
        b"[1,0000-12T",
        "0/0 begin list; 1/0 int 1; BadTimestamp at 3",
    ),
    (
        1048576,
        b"{//\r'\\n':null.struct,\x0b//\r} ",
        "0/0 begin struct; 9/0 '\n'@4: null.struct; 25/0 end; over",
    ),
    (
        1048576,
        b"(a::(::/$10.1..))",
        "0/0 begin sexp; 4/0 'a'@1:: begin sexp; BadToken at 5",
    ),
    (
        1048576,
        b"'' //*\n::\t0 {{\x0b\x0c1MSnlA+t3os09+aNH1Ac\n6g==}} ",
        "10/0 ''@0:: int 0; 12/12 blob d4c4a7940fadde8b34f7e68d1f501cea; over",
    ),
    (1048576, b"x::0.0_1e0", "Float at 3"),
    (
        1048576,
        b"[nul::{{\t\r\"\"\n}}\r\n]\x0b''::false ",
        "0/0 begin list; 6/0 'nul'@1:: clob ; 17/0 end; 23/19 ''@19:: false; over",
    ),
    (1048576, b"1_0.0d2147483649", "Range at 0"),
    (
        1048576,
        b"(--1 a.b -2 /*c*/ +)",
        "0/0 begin sexp; 1/0 symbol '--'@1; 3/0 int 1; 5/0 symbol 'a'@5; 6/0 symbol '.'@6; 7/0 symbol 'b'@7; 9/0 int -2; 18/0 symbol '+'@18; 19/0 end; over",
    ),
    (
        1,
        b"(a::(*:_1//\n'!))",
        "0/0 begin sexp; AnnotationLimit at 1",
    ),
    (
        1048576,
        b"abcdefghijklmnop::\x0c'a'\r//y\n::$000//*\n::\"\\f0\" ",
        "39/0 'abcdefghijklmnop'@0:: 'a'@19:: 0@29:: string 0c30; over",
    ),
    (
        33,
        b"((''+'))",
        "0/0 begin sexp; 1/0 begin sexp; 2/0 symbol ''@2; 4/0 symbol '+'@4; Truncated at 5",
    ),
    (
        1048576,
        b"e1/**/::max_id::/* \xff\x00 */\t{{\x0b\x0c+7ESh1h6\r\n\tjWr5dmw5qc1/0g==}} ",
        "25/0 'e1'@0:: 'max_id'@8:: blob fbb11287587a8d6af9766c39a9cd7fd2; over",
    ),
    (
        1048576,
        b"$0$\"a\"{{}}aGVsint*--{\taaGVs",
        "0/0 symbol '$0$'@0; 3/3 string 61; 6/6 blob ; 10/10 symbol 'aGVsint'@10; BadToken at 17",
    ),
    (
        1048576,
        b"$9::{name:\"y\",symbols:[\"p\",\"b\"],version:1}",
        "4/0 9@0:: begin struct; 10/0 'name'@5: string 79; 22/0 'symbols'@14: begin list; 23/0 string 70; 27/0 string 62; 30/0 end; 40/0 'version'@32: int 1; 41/0 end; over",
    ),
    (33, b"{a {{\x80\x80Q}}", "0/0 begin struct; BadToken at 3"),
    (
        1048576,
        b"[(1''nan)]",
        "0/0 begin list; 1/0 begin sexp; 2/0 int 1; 3/0 symbol ''@3; Float at 5",
    ),
    (1048576, b"'\xc3\xc3D83D'", "BadText at 0"),
    (
        1048576,
        b"[( )\t//\r,\r 2000T\r,] ",
        "0/0 begin list; 1/0 begin sexp; 3/0 end; 11/0 timestamp year 2000 1 1 0 0 0 0 none; 18/0 end; over",
    ),
    (10, b"{0000-12T", "0/0 begin struct; BadToken at 1"),
    (
        1048576,
        b"//\ra::$\x0c::[_:://*\n\"\x0c\xf0\x9f\x98\x80q\\\\\xc2\x80/k\\xffbk\x7f'{\\/\"]/*x*/",
        "10/3 'a'@3:: '$'@6:: begin list; 18/3 '_'@11:: string 0cf09f9880715cc2802f6bc3bf626b7f277b2f; 43/3 end; over",
    ),
    (
        1048576,
        b"{{\"\"}}$99//y\n//y\n,]$10{{}}-00:00",
        "0/0 clob ; 6/6 symbol 99@6; BadToken at 17",
    ),
    (
        1048576,
        b"\"\\nk\xe2\x82\xac/\\\\\"$2 ",
        "0/0 string 0a6be282ac2f5c; 11/11 symbol 2@11; over",
    ),
    (1048576, b"{a:17E0}", "0/0 begin struct; Float at 3"),
    (
        1048576,
        b"[1,(+[]null)",
        "0/0 begin list; 1/0 int 1; 3/0 begin sexp; 4/0 symbol '+'@4; 5/0 begin list; 6/0 end; 7/0 null.null; 11/0 end; Truncated at 12",
    ),
    (
        1048576,
        b"[12.5d-2147483647,2]",
        "0/0 begin list; Range at 1",
    ),
    (1048576, b"{{ regtIQ== }} ", "0/0 blob ade82d21; over"),
    (0, b"(.!-'$10", "0/0 begin sexp; ScalarLimit at 1"),
    (
        1048576,
        b"null.null _::'\t\xef\xbf\xbf\"z\\u20AC'::\r1900-11-01T02:01Z \"\\f\"//y\n",
        "0/0 null.null; 30/10 '_'@10:: '\t\u{ef}\u{bf}\u{bf}\"z\u{e2}\u{82}\u{ac}'@13:: timestamp minute 1900 11 1 2 1 0 0 0; 48/48 string 0c; over",
    ),
    (1048576, b"  '\xe0\xa0\x80", "Truncated at 2"),
    (1048576, b"null.float ", "0/0 null.float; over"),
    (
        1048576,
        b"\x85\x01\x00\xea\x02\x80\xff\x91",
        "BadToken at 0",
    ),
    (
        1048576,
        b"/*//*/$ion_1_0::5 {{fH4bOOnRJzmSC2DjpuVmFg==}}\n'\xc3\xa9'/*//*/",
        "16/6 '$ion_1_0'@6:: int 5; 18/18 blob 7c7e1b38e9d12739920b60e3a6e56616; 47/47 symbol '\u{c3}\u{a9}'@47; over",
    ),
];

/// What stands after a fault in some of them.
pub const AFTER: &[Row] = &[
    (
        1048576,
        b"([]_$4 :x-1) 1",
        "0/0 begin sexp; 1/0 begin list; 2/0 end; 3/0 symbol '_$4'@3; BadToken at 7",
    ),
    (
        1048576,
        b"([]_$4 x-1) 1",
        "0/0 begin sexp; 1/0 begin list; 2/0 end; 3/0 symbol '_$4'@3; 7/0 symbol 'x'@7; 8/0 int -1; 10/0 end; 12/12 int 1; over",
    ),
    (
        1048576,
        b"(a::(/$10.1..))",
        "0/0 begin sexp; 4/0 'a'@1:: begin sexp; 5/0 symbol '/'@5; 6/0 symbol 10@6; 9/0 symbol '.'@9; BadToken at 10",
    ),
    (
        1,
        b"((*:_1//\n'!))",
        "0/0 begin sexp; 1/0 begin sexp; 2/0 symbol '*'@2; BadToken at 3",
    ),
    (
        1,
        b"((*_1//\n'!))",
        "0/0 begin sexp; 1/0 begin sexp; 2/0 symbol '*'@2; ScalarLimit at 3",
    ),
    (33, b"{a:{{\x80\x80Q}}", "0/0 begin struct; BadLob at 3"),
    (
        1048576,
        b"[(1'')]",
        "0/0 begin list; 1/0 begin sexp; 2/0 int 1; 3/0 symbol ''@3; 5/0 end; 6/0 end; over",
    ),
    (10, b"{a:0000-12T", "0/0 begin struct; BadTimestamp at 3"),
    (
        1048576,
        b"{{\"\"}}[$99//y\n//y\n,]$10{{}}-00:00",
        "0/0 clob ; 6/6 begin list; 7/6 symbol 99@7; 19/6 end; 20/20 symbol 10@20; 23/23 blob ; BadToken at 27",
    ),
];
