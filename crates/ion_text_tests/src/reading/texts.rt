//! Texts between quotes.

use super::Row;

/// Strings and symbols between one quote.
pub const SHORT: &[Row] = &[
    (64, b" \"\" 1", "1/1 string ; 4/4 int 1; over"),
    (
        64,
        b" \"it's one run\",",
        "1/1 string 69742773206f6e652072756e; BadToken at 15",
    ),
    (
        64,
        b" \"\\a\\b\\t\\n\\f\\r\\v\\0\\?\\\"\\'\\\\\\/\"]",
        "1/1 string 0708090a0c0d0b003f22275c2f; BadToken at 29",
    ),
    (
        64,
        b" \"\\x41\\u00e9\\U0001F600\\uD83D\\uDE00\" ",
        "1/1 string 41c3a9f09f9880f09f9880; over",
    ),
    (64, b" \"a\\\r\nb\\\nc\\\rd\" ", "1/1 string 61626364; over"),
    (
        64,
        b" \"0123456789abcdef0123456789abcdef0123456789\xc3\xa9\"",
        "1/1 string 303132333435363738396162636465663031323334353637383961626364656630313233343536373839c3a9; over",
    ),
    (4, b" 'it\\'s'::", "AnnotationLimit at 1"),
    (4, b" 'it\\'s' ", "1/1 symbol 'it's'@1; over"),
    (3, b" 'it\\'s' ", "ScalarLimit at 1"),
    (20, b" 'it\\'s'::", "Truncated at 10"),
];

/// Long strings.
pub const LONG: &[Row] = &[
    (64, b" '''a''' 1", "1/1 string 61; 9/9 int 1; over"),
    (
        64,
        b" '''a''' '''b'''/*c*/'''''',",
        "1/1 string 6162; BadToken at 27",
    ),
    (
        64,
        b" '''a\r\nb\rc\nd\\\r\ne'''//f",
        "1/1 string 610a620a630a6465; over",
    ),
    (
        64,
        b" '''it's ''one'''''",
        "1/1 string 697427732027276f6e65; 17/17 symbol ''@17; over",
    ),
    (64, b" '''a''' /*b", "1/1 string 61; Truncated at 9"),
    (64, b" '''a''' ''", "1/1 string 61; 9/9 symbol ''@9; over"),
    (
        64,
        b" '''a'''\n'''\\uD83D\\uDE00'''",
        "1/1 string 61f09f9880; over",
    ),
    (2, b"{{'''a'''\n'''\\xff''' }}", "0/0 clob 61ff; over"),
];

/// Texts that are refused.
pub const REFUSED: &[Row] = &[
    (2, b" \"ab", "Truncated at 1"),
    (1, b" \"ab", "ScalarLimit at 1"),
    (1, b" \"ab\"", "ScalarLimit at 1"),
    (1, b" \"a\\n\"", "ScalarLimit at 1"),
    (9, b" \"a\nb\"", "BadText at 1"),
    (9, b" \"\\q\"", "BadText at 1"),
    (9, b" \"\\uD83D\"", "BadText at 1"),
    (9, b" \"\\uD83D\\u0041\"", "BadText at 1"),
    (9, b" \"\\U00110000\"", "BadText at 1"),
    (9, b" \"\\u12", "Truncated at 1"),
    (9, b" \"\xc3\"", "BadText at 1"),
    (9, b" '''\xc3''' '''\xa9'''", "BadText at 1"),
    (2, b" '''a''", "ScalarLimit at 1"),
    (9, b" {{'''\xc3\xa9'''}}", "BadLob at 1"),
];

/// Texts whose last bytes tell what the ones before them are.
pub const CUT: &[Row] = &[
    (3, b"\"abc\"d", "0/0 string 616263; 5/5 symbol 'd'@5; over"),
    (2, b"\"abc\"d", "ScalarLimit at 0"),
    (9, b"'\xc3'", "BadText at 0"),
    (9, b"{{'''ab\xc3'''}}", "BadLob at 0"),
    (9, b"{{\"a\\n\"}}", "0/0 clob 610a; over"),
    (9, b"\"\\n\"", "0/0 string 0a; over"),
    (9, b"'''''", "Truncated at 0"),
    (9, b"'''''a'''", "0/0 string 272761; over"),
    (9, b"'''\r", "Truncated at 0"),
    (9, b"'''\r'''", "0/0 string 0a; over"),
    (9, b"'''\r\na'''", "0/0 string 0a61; over"),
];
