//! Tokens that are gathered, in heaps too small for them: each growth of their text is refused in turn.

use super::pieces::Pieces;
use super::{LIMITS, Told, read_by};
use ion_meter::profile::Profile;
use linked_list_allocator::LocalHeap;
use std::alloc::Global;
use std::process::Abort;
use std::test::Fail;

/// How many bytes a read gives at most, a text, the words of its items and of how it ends, and how
/// often what a reader holds beside its window grows.
type Row = (usize, &'static [u8], &'static str, usize);

const RUNS: &[Row] = &[
    (
        1,
        b"abcdefghijabcdefghijabcdefghijabcdefghijabcdefghijabcdefghijabcdefghijabcdefghijabcdefghijabcdefghijabcdefghijabcdefghijabcdefghij ",
        "0/0 symbol 'abcdefghijabcdefghijabcdefghijabcdefghijabcdefghijabcdefghijabcdefghijabcdefghijabcdefghijabcdefghijabcdefghijabcdefghijabcdefghij'@0; over",
        3,
    ),
    (
        1,
        b"123456789012345678 ",
        "0/0 int 123456789012345678; over",
        1,
    ),
    (
        1,
        b"abcdefghijklmnopqr ",
        "0/0 symbol 'abcdefghijklmnopqr'@0; over",
        1,
    ),
    (1, b"null.timestamp ", "0/0 null.timestamp; over", 1),
    (
        32,
        b"abcdefghijklmnopqr ",
        "0/0 symbol 'abcdefghijklmnopqr'@0; over",
        1,
    ),
    (
        1,
        b"(+-*/<=>!#%&^|~@;. ",
        "0/0 begin sexp; 1/0 symbol '+-*/<=>!#%&^|~@;.'@1; Truncated at 19",
        2,
    ),
];

const TEXTS: &[Row] = &[
    (
        1,
        b"'abcdefgh\\nabcdefghijabcdefghijabcdefghijabcdefghijabcdefghijabcdefghijabcdefghijabcdefghijabcdefghijabcdefghijabcdefghijabcdefghijabcdefghij' ",
        "0/0 symbol 'abcdefgh\nabcdefghijabcdefghijabcdefghijabcdefghijabcdefghijabcdefghijabcdefghijabcdefghijabcdefghijabcdefghijabcdefghijabcdefghijabcdefghij'@0; over",
        3,
    ),
    (
        1,
        b"'abcdefgh\\njklmnopqr' ",
        "0/0 symbol 'abcdefgh\njklmnopqr'@0; over",
        1,
    ),
    (
        1,
        b"\"abcdefgh\\njklmnopqr\" ",
        "0/0 string 61626364656667680a6a6b6c6d6e6f707172; over",
        1,
    ),
    (
        32,
        b"\"abcdefghijklmnopqr\" ",
        "0/0 string 6162636465666768696a6b6c6d6e6f707172; over",
        1,
    ),
    (
        1,
        b"'''abcdefgh''' '''ijklmnopqr''' ",
        "0/0 string 6162636465666768696a6b6c6d6e6f707172; over",
        1,
    ),
    (
        1,
        b"{{\"abcdefgh\\njklmnopqr\"}}",
        "0/0 clob 61626364656667680a6a6b6c6d6e6f707172; over",
        1,
    ),
    (
        1,
        b"{{'''abcdefgh''' '''ijklmnopqr'''}}",
        "0/0 clob 6162636465666768696a6b6c6d6e6f707172; over",
        1,
    ),
    (
        1,
        b"{{YWJjZGVmZ2hpamtsbW5vcHFy}}",
        "0/0 blob 6162636465666768696a6b6c6d6e6f707172; over",
        1,
    ),
];

/// Whether a text was read to its end. Where it was not, a growth was refused once, and the items
/// before that are the first of the text's.
fn is_whole(rt: &impl Abort, told: &Told, words: &str) -> bool {
    if let Some(items) = told.words.as_str().strip_suffix("no memory") {
        assert!(rt; words.starts_with(items));
        assert!(rt; told.refused == 1);
        return false;
    }
    assert_eq!(rt; told.words.as_str(), words);
    assert!(rt; told.refused == 0);
    true
}

/// Reads a text in heaps that are greater each time, until what is held of it fits. Each growth is
/// refused, and more is held at each later one.
fn expect(rt: &impl Abort, alloc: Global, row: Row) -> Result<(), Fail> {
    let (most, text, words, growths) = row;
    let mut last = None;
    let mut refused = 0usize;
    for more in 0..64usize {
        let heap = LocalHeap::new(alloc, 4096 + 8 * more)?;
        let told = read_by(
            rt,
            &heap,
            LIMITS,
            Profile::strict(),
            Pieces::new(text, most, most),
            alloc,
        )?;
        if is_whole(rt, &told, words) {
            assert_eq!(rt; refused, growths);
            return Ok(());
        }
        if last != Some(told.held) {
            assert!(rt; last < Some(told.held));
            last = Some(told.held);
            refused = refused.saturating_add(1);
        }
    }
    panic!(rt; "each heap was too small")
}

#[test]
fn gathers_past_each_refusal(rt: HostRuntime) -> Result<(), Fail> {
    for rows in [RUNS, TEXTS] {
        for row in rows {
            expect(&rt, rt.alloc(), *row)?;
        }
    }
    Ok(())
}
