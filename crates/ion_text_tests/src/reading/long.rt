//! Texts longer than a window, comments that end about its end, and faults of the device.

use super::pieces::Pieces;
use super::{LIMITS, WHOLE, expect_pieces};
use ion_meter::limits::Limits;
use ion_meter::profile::Profile;
use std::alloc::Global;
use std::fmt::Write;
use std::process::Abort;
use std::test::Fail;

/// A front, a part so many times, and an end.
type Parts = (&'static str, &'static str, usize, &'static str);

/// The limit on scalars, a text, its words, and how much is held at its end where that is told.
type Row = (u64, Parts, Parts, Option<u64>);

/// The words of a scalar that passes the limit at the place 0.
const OVER: Parts = ("ScalarLimit at 0", "", 0, "");

/// The words of the blob that each text of one has.
const BLOB: Parts = ("0/0 blob ", "000102", 2_000, "03; over");

const ROWS: &[Row] = &[
    (
        9_000,
        (" \"", "abc", 3_000, "\" "),
        ("1/1 string ", "616263", 3_000, "; over"),
        Some(9_000),
    ),
    (
        8_999,
        (" \"", "abc", 3_000, "\" "),
        ("ScalarLimit at 1", "", 0, ""),
        None,
    ),
    (8_192, ("{{", "AAEC", 2_000, "Aw==}}"), BLOB, Some(6_001)),
    (8_192, ("{{ ", "AAEC", 2_000, "Aw==}}"), BLOB, Some(6_001)),
    (8_192, ("{{  ", "AAEC", 2_000, "Aw==}}"), BLOB, Some(6_001)),
    (8_192, ("{{   ", "AAEC", 2_000, "Aw==}}"), BLOB, Some(6_001)),
    (
        8_192,
        ("{{    ", "AAEC", 2_000, "Aw==}}"),
        BLOB,
        Some(6_001),
    ),
    (
        8_192,
        ("{{     ", "AAEC", 2_000, "Aw==}}"),
        BLOB,
        Some(6_001),
    ),
    (6_000, ("{{", "AAEC", 2_000, "Aw==}}"), OVER, Some(6_000)),
    (6_000, ("{{ ", "AAEC", 2_000, "Aw==}}"), OVER, Some(6_000)),
    (6_000, ("{{  ", "AAEC", 2_000, "Aw==}}"), OVER, Some(6_000)),
    (6_000, ("{{   ", "AAEC", 2_000, "Aw==}}"), OVER, Some(6_000)),
    (
        6_000,
        ("{{    ", "AAEC", 2_000, "Aw==}}"),
        OVER,
        Some(6_000),
    ),
    (
        6_000,
        ("{{     ", "AAEC", 2_000, "Aw==}}"),
        OVER,
        Some(6_000),
    ),
];

/// The text that these parts make.
fn text_of(alloc: Global, parts: Parts) -> Result<String, Fail> {
    let (front, part, count, end) = parts;
    let mut text = String::new(alloc);
    text.push_str(front)?;
    for _ in 0..count {
        text.push_str(part)?;
    }
    text.push_str(end)?;
    Ok(text)
}

#[test]
fn reads_long_texts(rt: HostRuntime) -> Result<(), Fail> {
    let alloc = rt.alloc();
    for (scalar, text, words, held) in ROWS {
        let limits = Limits {
            scalar: *scalar,
            ..LIMITS
        };
        let text = text_of(alloc, *text)?;
        let words = text_of(alloc, *words)?;
        let pieces = Pieces::new(text.as_bytes(), WHOLE, WHOLE);
        let left = expect_pieces(
            &rt,
            alloc,
            limits,
            Profile::strict(),
            pieces,
            words.as_str(),
        )?;
        if let Some(held) = held {
            assert!(&rt; left == *held);
        }
    }
    Ok(())
}

#[test]
fn passes_long_comments(rt: HostRuntime) -> Result<(), Fail> {
    let alloc = rt.alloc();
    for end in 4080..4110usize {
        let count = end.saturating_sub(2);
        let place = end.saturating_add(8);
        let text = text_of(alloc, ("/*", ".", count, "*/ // .\nx"))?;
        let mut words = String::new(alloc);
        write!(words, "{place}/{place} symbol 'x'@{place}; over")?;
        let pieces = Pieces::new(text.as_bytes(), WHOLE, WHOLE);
        expect_pieces(
            &rt,
            alloc,
            LIMITS,
            Profile::strict(),
            pieces,
            words.as_str(),
        )?;
        let text = text_of(alloc, ("/*", ".", count, ""))?;
        let pieces = Pieces::new(text.as_bytes(), WHOLE, WHOLE);
        expect_pieces(
            &rt,
            alloc,
            LIMITS,
            Profile::strict(),
            pieces,
            "Truncated at 0",
        )?;
    }
    Ok(())
}

#[test]
fn tells_faults_in_blanks(rt: HostRuntime) -> Result<(), Fail> {
    let alloc = rt.alloc();
    let text = b" /* . */ // .\nx";
    for reads in 0..text.len() as u32 {
        let mut pieces = Pieces::new(text, 1, 1);
        pieces.fails_at = Some(reads);
        expect_pieces(&rt, alloc, LIMITS, Profile::strict(), pieces, "read fault")?;
    }
    for input in 0..text.len() {
        let limits = Limits {
            input: input as u64,
            ..LIMITS
        };
        expect_pieces(
            &rt,
            alloc,
            limits,
            Profile::strict(),
            Pieces::new(text, 3, 3),
            "input limit",
        )?;
    }
    Ok(())
}
