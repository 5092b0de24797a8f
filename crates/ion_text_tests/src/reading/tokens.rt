//! Numbers, words, operators and punctuation.

use super::Row;

/// Numbers and timestamps.
pub const NUMBERS: &[Row] = &[
    (1024, b"7 ", "0/0 int 7; over"),
    (1024, b"-7", "0/0 int -7; over"),
    (1024, b"1_000]", "0/0 int 1000; BadToken at 5"),
    (1024, b"0x1F//", "0/0 int 31; over"),
    (1024, b"12/**/", "0/0 int 12; over"),
    (1024, b"1.50,", "0/0 decimal 150d-2; BadToken at 4"),
    (1024, b"-2d3", "0/0 decimal -2d3; over"),
    (1024, b"12;", "BadToken at 0"),
    (1024, b"1/2 ", "BadToken at 0"),
    (1024, b"01 ", "BadToken at 0"),
    (1024, b"1e0 ", "Float at 0"),
    (1024, b"2007-02-30 ", "BadTimestamp at 0"),
    (8, b"123456789", "ScalarLimit at 0"),
    (8, b"12", "0/0 int 12; over"),
    (1, b"12,", "ScalarLimit at 0"),
    (1024, b"12/", "BadToken at 0"),
];

/// Words.
pub const WORDS: &[Row] = &[
    (1024, b"null ", "0/0 null.null; over"),
    (1024, b"null.int,", "0/0 null.int; BadToken at 8"),
    (1024, b"null.nul ", "BadToken at 0"),
    (1024, b"null.", "BadToken at 0"),
    (1024, b"true", "0/0 true; over"),
    (1024, b"false]", "0/0 false; BadToken at 5"),
    (1024, b"nan ", "Float at 0"),
    (1024, b"$10 ", "0/0 symbol 10@0; over"),
    (
        1024,
        b"$99999999999:",
        "0/0 symbol 2147483648@0; BadToken at 12",
    ),
    (1024, b"$ ", "0/0 symbol '$'@0; over"),
    (1024, b"nulls ", "0/0 symbol 'nulls'@0; over"),
    (1024, b"a.b", "0/0 symbol 'a'@0; BadToken at 1"),
    (8, b"abcdefghi ", "ScalarLimit at 0"),
    (8, b"null.nul,", "BadToken at 0"),
    (8, b"null.", "BadToken at 0"),
];

/// Operators and punctuation.
pub const MARKS: &[Row] = &[
    (
        1024,
        b"(+ ",
        "0/0 begin sexp; 1/0 symbol '+'@1; Truncated at 3",
    ),
    (
        1024,
        b"(<=/x",
        "0/0 begin sexp; 1/0 symbol '<=/'@1; 4/0 symbol 'x'@4; Truncated at 5",
    ),
    (
        1024,
        b"(<=//",
        "0/0 begin sexp; 1/0 symbol '<='@1; Truncated at 5",
    ),
    (1024, b"<= ", "BadToken at 0"),
    (1024, b"+inf ", "Float at 0"),
    (1024, b"(-inf", "0/0 begin sexp; Float at 1"),
    (
        1024,
        b"(+info",
        "0/0 begin sexp; 1/0 symbol '+'@1; 2/0 symbol 'info'@2; Truncated at 6",
    ),
    (1024, b"+in", "BadToken at 0"),
    (1024, b"::", "BadToken at 0"),
    (1024, b":", "BadToken at 0"),
    (1024, b"{", "0/0 begin struct; Truncated at 1"),
    (1024, b"{{", "Truncated at 0"),
    (1024, b"''", "0/0 symbol ''@0; over"),
    (1024, b"'''", "Truncated at 0"),
    (1024, b")", "BadToken at 0"),
    (1024, b"()", "0/0 begin sexp; 1/0 end; over"),
    (1024, b"\\", "BadToken at 0"),
    (1024, b"(\\", "0/0 begin sexp; BadToken at 1"),
    (
        8,
        b"(+ ",
        "0/0 begin sexp; 1/0 symbol '+'@1; Truncated at 3",
    ),
];
