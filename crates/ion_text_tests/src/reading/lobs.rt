//! Lobs.

use super::Row;

/// Blobs.
pub const BLOBS: &[Row] = &[
    (4096, b"{{}},", "0/0 blob ; BadToken at 4"),
    (4096, b"{{ \n}},", "0/0 blob ; BadToken at 6"),
    (4096, b"{{AQID}},", "0/0 blob 010203; BadToken at 8"),
    (4096, b"{{ AQ\nI D }},", "0/0 blob 010203; BadToken at 12"),
    (4096, b"{{AQIDBA==}},", "0/0 blob 01020304; BadToken at 12"),
    (
        4096,
        b"{{A Q I D +/8=}},",
        "0/0 blob 010203fbff; BadToken at 16",
    ),
    (
        4096,
        b"{{SGVsbG8sIHdvcmxkISBTb21lIHRleHQu}},",
        "0/0 blob 48656c6c6f2c20776f726c642120536f6d6520746578742e; BadToken at 36",
    ),
];

/// Clobs.
pub const CLOBS: &[Row] = &[
    (4096, b"{{\"\"}},", "0/0 clob ; BadToken at 6"),
    (4096, b"{{ \"a\\xff\" }},", "0/0 clob 61ff; BadToken at 13"),
    (
        4096,
        b"{{'''a''' '''b''' }},",
        "0/0 clob 6162; BadToken at 20",
    ),
    (
        4096,
        b"{{\n'''a\r\nb'''}},",
        "0/0 clob 610a62; BadToken at 15",
    ),
];

/// Lobs that are refused.
pub const REFUSED: &[Row] = &[
    (8, b"{{", "Truncated at 0"),
    (8, b"{{}", "Truncated at 0"),
    (8, b"{{AQID", "Truncated at 0"),
    (8, b"{{AQ", "Truncated at 0"),
    (8, b"{{AQ}}", "BadLob at 0"),
    (8, b"{{AQID} }", "BadLob at 0"),
    (8, b"{{AQ==AQID}}", "BadLob at 0"),
    (8, b"{{AQ==AQ==}}", "BadLob at 0"),
    (8, b"{{AQI*}}", "BadLob at 0"),
    (8, b"{{AR==}}", "BadLob at 0"),
    (8, b"{{ /**/ }}", "BadLob at 0"),
    (8, b"{{AQIDBAUGBwgJ}}", "ScalarLimit at 0"),
    (8, b"{{AQIDBAUGBwgJ*", "ScalarLimit at 0"),
    (8, b"{{AQIDBAUG***", "Truncated at 0"),
    (8, b"{{\"a\"", "Truncated at 0"),
    (8, b"{{\"a\" x", "BadLob at 0"),
    (8, b"{{'''a''' '", "Truncated at 0"),
    (8, b"{{'''a''' ''", "Truncated at 0"),
    (8, b"{{'''a''' 'x", "BadLob at 0"),
    (8, b"{{\"123456789\"}}", "ScalarLimit at 0"),
];

/// White space in lobs, where no comment is passed over.
pub const WHITE: &[Row] = &[
    (4096, b"{{ \n\t // x8}},", "0/0 blob fffc7c; BadToken at 13"),
    (4096, b"{{\"a\" \n\t // x", "BadLob at 0"),
    (
        4096,
        b"{{ \n\t \"a\" \n\t }},",
        "0/0 clob 61; BadToken at 15",
    ),
];
