//! Values without members, each at top level.

use super::Part;
use ion_value::ion_type::IonType;

/// A value and its line.
type Row = (Part<'static>, &'static [u8]);

/// Nulls and bools.
pub const NULLS_AND_BOOLS: &[Row] = &[
    (Part::Null(IonType::Null), b"null\n"),
    (Part::Null(IonType::Bool), b"null.bool\n"),
    (Part::Null(IonType::Int), b"null.int\n"),
    (Part::Null(IonType::Float), b"null.float\n"),
    (Part::Null(IonType::Decimal), b"null.decimal\n"),
    (Part::Null(IonType::Timestamp), b"null.timestamp\n"),
    (Part::Null(IonType::Symbol), b"null.symbol\n"),
    (Part::Null(IonType::String), b"null.string\n"),
    (Part::Null(IonType::Clob), b"null.clob\n"),
    (Part::Null(IonType::Blob), b"null.blob\n"),
    (Part::Null(IonType::List), b"null.list\n"),
    (Part::Null(IonType::Sexp), b"null.sexp\n"),
    (Part::Null(IonType::Struct), b"null.struct\n"),
    (Part::Bool(true), b"true\n"),
    (Part::Bool(false), b"false\n"),
];

/// Ints, floats and decimals.
pub const NUMBERS: &[Row] = &[
    (Part::Int(b"0"), b"0\n"),
    (Part::Int(b"-0"), b"0\n"),
    (Part::Int(b"-7"), b"-7\n"),
    (
        Part::Int(b"-340282366920938463463374607431768211455"),
        b"-340282366920938463463374607431768211455\n",
    ),
    (Part::Int(b"0xff"), b"255\n"),
    (Part::Float(b""), b"0e0\n"),
    (Part::Float(&[0x80, 0, 0, 0]), b"-0e0\n"),
    (Part::Float(&[0x3F, 0xC0, 0, 0]), b"1.5e0\n"),
    (
        Part::Float(&[0x3F, 0xB9, 0x99, 0x99, 0x99, 0x99, 0x99, 0x9A]),
        b"1e-1\n",
    ),
    (
        Part::Float(&[0x44, 0xDF, 0xE1, 0x85, 0xCA, 0x57, 0xC5, 0x17]),
        b"6.02214076e23\n",
    ),
    (Part::Float(&[0xFF, 0xC0, 0, 0]), b"nan\n"),
    (Part::Float(&[0x7F, 0x80, 0, 0]), b"+inf\n"),
    (Part::Float(&[0xFF, 0x80, 0, 0]), b"-inf\n"),
    (Part::Decimal(b"0."), b"0.\n"),
    (Part::Decimal(b"-0."), b"-0.\n"),
    (Part::Decimal(b"12d-1"), b"1.2\n"),
    (Part::Decimal(b"-1d5"), b"-1d5\n"),
];

/// Timestamps.
pub const TIMESTAMPS: &[Row] = &[
    (Part::Timestamp(b"2001T"), b"2001T\n"),
    (Part::Timestamp(b"0001-02T"), b"0001-02T\n"),
    (Part::Timestamp(b"2001-02-03T"), b"2001-02-03\n"),
    (
        Part::Timestamp(b"2001-02-03T04:05-00:00"),
        b"2001-02-03T04:05-00:00\n",
    ),
    (
        Part::Timestamp(b"2001-02-03T04:05+00:00"),
        b"2001-02-03T04:05Z\n",
    ),
    (
        Part::Timestamp(b"2001-02-03T04:05+01:30"),
        b"2001-02-03T04:05+01:30\n",
    ),
    (
        Part::Timestamp(b"2001-02-03T04:05:06Z"),
        b"2001-02-03T04:05:06Z\n",
    ),
    (
        Part::Timestamp(b"2001-02-03T04:05:06.070-08:00"),
        b"2001-02-03T04:05:06.070-08:00\n",
    ),
];

/// Symbols.
pub const SYMBOLS: &[Row] = &[
    (Part::Symbol(b"abc"), b"abc\n"),
    (Part::Symbol(b"_a$1"), b"_a$1\n"),
    (Part::Symbol(b"nulls"), b"nulls\n"),
    (Part::Symbol(b"$"), b"$\n"),
    (Part::Symbol(b"$a10"), b"$a10\n"),
    (Part::Symbol(b"$ion_1_x"), b"$ion_1_x\n"),
    (Part::Symbol(b"null"), b"'null'\n"),
    (Part::Symbol(b"true"), b"'true'\n"),
    (Part::Symbol(b"false"), b"'false'\n"),
    (Part::Symbol(b"nan"), b"'nan'\n"),
    (Part::Symbol(b"$10"), b"'$10'\n"),
    (Part::Symbol(b"$ion_1_0"), b"'$ion_1_0'\n"),
    (Part::Symbol(b""), b"''\n"),
    (Part::Symbol(b"a b"), b"'a b'\n"),
    (Part::Symbol(b"+"), b"'+'\n"),
    (Part::Symbol(b"1a"), b"'1a'\n"),
    (Part::Symbol(b"it's"), b"'it\\'s'\n"),
    (Part::Symbol(b"\"\xc3\xa9\""), b"'\"\xc3\xa9\"'\n"),
    (Part::Symbol(b"it's \"x\""), b"'it\\'s \"x\"'\n"),
    (Part::Unknown, b"$0\n"),
];

/// Strings.
pub const TEXTS: &[Row] = &[
    (Part::Text(b""), b"\"\"\n"),
    (Part::Text(b"it's"), b"\"it's\"\n"),
    (Part::Text(b"a\"b\\"), b"\"a\\\"b\\\\\"\n"),
    (
        Part::Text(b"\n\t\0\x7f\x1b"),
        b"\"\\n\\t\\x00\\x7f\\x1b\"\n",
    ),
    (Part::Text(b"\xc3\xa9"), b"\"\xc3\xa9\"\n"),
    (Part::Text(b"it's one run"), b"\"it's one run\"\n"),
    (Part::Text(b"a \"b\" c"), b"\"a \\\"b\\\" c\"\n"),
    (Part::Text(b"\xc3\xa9\x7f"), b"\"\xc3\xa9\\x7f\"\n"),
    (
        Part::Text(b"\x07\x08\t\n\x0c\r\x0b\\\0\x1f"),
        b"\"\\a\\b\\t\\n\\f\\r\\v\\\\\\x00\\x1f\"\n",
    ),
    (
        Part::Text(b"0123456789abcdef0123456789abcdef\n0123456789abcdef0123456789abcdef0"),
        b"\"0123456789abcdef0123456789abcdef\\n0123456789abcdef0123456789abcdef0\"\n",
    ),
    (
        Part::Text(b"0123456789abcdef0123456789abcde\""),
        b"\"0123456789abcdef0123456789abcde\\\"\"\n",
    ),
];

/// Lobs.
pub const LOBS: &[Row] = &[
    (Part::Clob(b"\xc3\xa9~"), b"{{\"\\xc3\\xa9~\"}}\n"),
    (Part::Clob(b""), b"{{\"\"}}\n"),
    (
        Part::Clob(b"'\"\xff\x80\n~"),
        b"{{\"'\\\"\\xff\\x80\\n~\"}}\n",
    ),
    (Part::Blob(b""), b"{{}}\n"),
    (Part::Blob(b"a"), b"{{YQ==}}\n"),
    (Part::Blob(b"ab"), b"{{YWI=}}\n"),
    (Part::Blob(b"abc"), b"{{YWJj}}\n"),
    (Part::Blob(b"\xfb\xff\xbfa"), b"{{+/+/YQ==}}\n"),
];
