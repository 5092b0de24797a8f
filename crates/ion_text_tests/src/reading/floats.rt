//! Floats, by their bits in hex digits.

use super::Row;

pub(super) const FLOATS: &[Row] = &[
    (64, b"1.5e0", "0/0 float 3ff8000000000000; over"),
    (
        64,
        b"-0e0 0E5",
        "0/0 float 8000000000000000; 5/5 float 0; over",
    ),
    (
        64,
        b"[1_0.2_5e1]",
        "0/0 begin list; 1/0 float 4059a00000000000; 10/0 end; over",
    ),
    (
        64,
        b"{a:x::-2.5e0}",
        "0/0 begin struct; 6/0 'a'@1: 'x'@3:: float c004000000000000; 12/0 end; over",
    ),
    (64, b"nan", "0/0 float 7ff8000000000000; over"),
    (
        64,
        b"(+inf -inf)",
        "0/0 begin sexp; 1/0 float 7ff0000000000000; 6/0 float fff0000000000000; 10/0 end; over",
    ),
    (
        64,
        b"5e-324 1_7976931348623157e292",
        "0/0 float 1; 7/7 float 7fefffffffffffff; over",
    ),
    (64, b"1e400", "Range at 0"),
    (64, b"[1_0e309]", "0/0 begin list; Range at 1"),
    (64, b"1e1_0 ", "BadToken at 0"),
    (
        4,
        b"1e10 1.5e0",
        "0/0 float 4202a05f20000000; ScalarLimit at 5",
    ),
    (64, b"{nan:1}", "0/0 begin struct; BadToken at 1"),
    (64, b"nan::1", "0/0 float 7ff8000000000000; BadToken at 3"),
];
