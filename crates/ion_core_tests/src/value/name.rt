//! How texts are written as symbols.

use crate::same::same;
use ion_value::name::{is_plain, is_simple, quoting_of};
use ion_value::quoting::Quoting;

/// Texts, whether they are written without quotes, and how they are.
const TEXTS: &[(&str, bool, Quoting)] = &[
    ("a", true, Quoting::Bare),
    ("_", true, Quoting::Bare),
    ("Zz09_$", true, Quoting::Bare),
    ("nulls", true, Quoting::Bare),
    ("inf", true, Quoting::Bare),
    // Identifiers that begin with a dollar sign.
    ("$", true, Quoting::Any),
    ("$a", true, Quoting::Any),
    ("$1a", true, Quoting::Any),
    ("$ion", true, Quoting::Any),
    ("$ion_1", true, Quoting::Any),
    ("$ion_1_", true, Quoting::Any),
    ("$ion_symbol_table", true, Quoting::Any),
    // Those that mean something else.
    ("null", false, Quoting::Quoted),
    ("true", false, Quoting::Quoted),
    ("false", false, Quoting::Quoted),
    ("nan", false, Quoting::Quoted),
    ("$1", false, Quoting::Quoted),
    ("$10", false, Quoting::Quoted),
    ("$ion_1_0", false, Quoting::Quoted),
    ("$ion_12_34", false, Quoting::Quoted),
    // No identifiers.
    ("", false, Quoting::Quoted),
    ("1a", false, Quoting::Quoted),
    ("a b", false, Quoting::Quoted),
    ("a.b", false, Quoting::Quoted),
    ("-", false, Quoting::Quoted),
    ("~", false, Quoting::Quoted),
    ("\u{e9}", false, Quoting::Quoted),
    // Those with a byte that has an escape.
    ("a'", false, Quoting::Any),
    ("a\\b", false, Quoting::Any),
    ("\u{1f}", false, Quoting::Any),
    ("a\n", false, Quoting::Any),
    ("\u{7f}", false, Quoting::Any),
];

#[test]
fn plain_texts_and_quotings_are_told(rt: HostRuntime) {
    for (text, plain, quoting) in TEXTS {
        let bytes = text.as_bytes();
        same(&rt, (*text, is_plain(bytes)), (*text, *plain));
        same(&rt, (*text, quoting_of(bytes)), (*text, *quoting));
        same(
            &rt,
            (*text, is_simple(bytes)),
            (*text, matches!(quoting, Quoting::Bare)),
        );
    }
}
