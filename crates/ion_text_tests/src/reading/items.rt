//! Items, and faults of where they stand.

use super::Row;

/// Items.
pub const ITEMS: &[Row] = &[
    (64, b"", "over"),
    (64, b" /*x*/ // y", "over"),
    (
        64,
        b"$ion_1_0 '$ion_1_0'",
        "0/0 marker; 9/9 symbol '$ion_1_0'@9; over",
    ),
    (
        64,
        b"{a:[1,'b'::\"c\",],$5:null.int}",
        "0/0 begin struct; 3/0 'a'@1: begin list; 4/0 int 1; 11/0 'b'@6:: string 63; 15/0 end; 20/0 5@17: null.int; 28/0 end; over",
    ),
    (
        64,
        b"(--1 a.b -2 /*c*/ +)",
        "0/0 begin sexp; 1/0 symbol '--'@1; 3/0 int 1; 5/0 symbol 'a'@5; 6/0 symbol '.'@6; 7/0 symbol 'b'@7; 9/0 int -2; 18/0 symbol '+'@18; 19/0 end; over",
    ),
    (
        64,
        b"x :: /**/ '''a''' /**/ '''b''' {{YWI=}}",
        "10/0 'x'@0:: string 6162; 31/31 blob 6162; over",
    ),
    (
        64,
        b"1.5 2007T {{'''a''' '''b'''}} true",
        "0/0 decimal 15d-1; 4/4 timestamp year 2007 1 1 0 0 0 0 none; 10/10 clob 6162; 30/30 true; over",
    ),
    (
        64,
        b"{'''a''' '''b''':$7::()}",
        "0/0 begin struct; 21/0 'ab'@1: 7@17:: begin sexp; 22/0 end; 23/0 end; over",
    ),
];

/// Faults.
pub const FAULTS: &[Row] = &[
    (64, b"[1 2]", "0/0 begin list; 1/0 int 1; BadToken at 3"),
    (64, b"[,]", "0/0 begin list; BadToken at 1"),
    (64, b"{a::1}", "0/0 begin struct; BadToken at 2"),
    (64, b"{null:1}", "0/0 begin struct; BadToken at 1"),
    (64, b"a /*", "0/0 symbol 'a'@0; Truncated at 2"),
    (64, b"'''a''' /*", "0/0 string 61; Truncated at 8"),
    (64, b"{'''a''' /*", "0/0 begin struct; Truncated at 9"),
    (64, b"a:: ", "Truncated at 4"),
    (64, b"{a:]", "0/0 begin struct; BadToken at 3"),
    (64, b"[1}", "0/0 begin list; 1/0 int 1; BadToken at 2"),
    (
        64,
        b"[[[[[[[[[",
        "0/0 begin list; 1/0 begin list; 2/0 begin list; 3/0 begin list; 4/0 begin list; 5/0 begin list; 6/0 begin list; 7/0 begin list; DepthLimit at 8",
    ),
    (64, b"a::b::c::dddddddddddddddd::1", "AnnotationLimit at 9"),
    (64, b"$ion_1_1 5", "BadVersion at 0"),
    (64, b"nan::1", "Float at 0"),
    (
        64,
        b"(a +inf)",
        "0/0 begin sexp; 1/0 symbol 'a'@1; Float at 3",
    ),
];
