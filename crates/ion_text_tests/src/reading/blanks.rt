//! Blanks.

use super::Row;

/// Blanks, and what stands after them.
pub const BLANKS: &[Row] = &[
    (4096, b"", "over"),
    (4096, b"x", "0/0 symbol 'x'@0; over"),
    (4096, b" \t\r\n\x0b\x0cx", "6/6 symbol 'x'@6; over"),
    (4096, b"  \x1f", "BadToken at 2"),
    (4096, b"/x", "BadToken at 0"),
    (4096, b" /", "BadToken at 1"),
    (4096, b"// a\rb", "5/5 symbol 'b'@5; over"),
    (4096, b"// a\r\n\nb", "7/7 symbol 'b'@7; over"),
    (4096, b"// a", "over"),
    (4096, b"/**/x", "4/4 symbol 'x'@4; over"),
    (
        4096,
        b" /* * / ** */ //*\n/***/x",
        "23/23 symbol 'x'@23; over",
    ),
    (4096, b" /*/", "Truncated at 1"),
    (4096, b"/* a *", "Truncated at 0"),
    (4096, b"/**/ /*", "Truncated at 5"),
];
