//! What stands between tokens and is passed over: white space and comments (Ion specification,
//! "Text Encoding").
ghost use Rattle.std.specs.Prelude.{◌≡◌, ◌≢◌, ◌+◌, ◌<◌, ◌≤◌, ℕ, [], true, false, Ok, Err, not, map, length, take, drop, None, OnOk, IfOk, IfSome};
ghost use Rattle.std.specs.Simd.Lanes.{mask_l};
ghost use Rattle.ion_meter.specs.Windows.{left, lent};
ghost use Rattle.ion_meter.specs.Sources.{cursor, Stands};
ghost use Rattle.ion_value.specs.Calls.{Reads};
ghost use Rattle.ion_value.specs.Digits.{first_is};
ghost use Rattle.ion_text_in.specs.Blanks.{is_white, blanks};
ghost use Rattle.ion_text_in.specs.Places.{after_run};
ghost use Rattle.ion_text_in.specs.Overrun.{begun, cut_at, EndsWhite, ends_blanks, is_neither, stays_in, overrun, turned, IsRun};

use ion_meter::device::Input;
use ion_meter::fault::{Fault, Reason};
use ion_meter::source::Source;
use std::alloc::Allocator;
use std::simd::prelude::*;

// The comment within which a byte stands, if any.
#[derive(Clone, Copy)]
pub(crate) enum Comment {
    // None.
    None,
    // One up to the end of its line.
    Line,
    // One up to `*/`.
    Block,
}

/// Passes over blanks, which are white space and comments.
///
/// It stops at the first byte where none begins, or at the input's end. `Some` is the place where
/// a comment begins that no `*/` ends: then all of the input was passed over.
#[inline(always)]
pub(crate) fn pass_blanks<I: Input, A: Allocator + Copy>(
    source: &mut Source<I, A>,
) -> Result<Option<u64>, Fault>
    requires stands { Stands source.old }
    ensures gives { I.observable source.old.device → IfOk result (λ start.
        blanks (cursor I.Input source.old) ≡ overrun start (cursor I.Input source.new)) }
    ensures used_up { I.observable source.old.device → IfOk result (λ start.
        IfSome start (λ _. left I.rest source.new ≡ [])) }
    ensures shown { (n : ℕ) → EndsWhite (lent source.old) n
        → (source.new.device ≡ source.old.device)
        × (lent source.new ≡ drop n (lent source.old)) }
    ensures plain { (r : Reason) (p : ℕ) → result ≢ Err (Fault.Refused r p) }
    ensures reads { Reads I.Input source.old source.new result }
{
    let bytes = source.buffer();
    let run = white_run(bytes);
    if run < bytes.len() && bytes[run] != b'/' {
        source.consume(run);
        return Ok(None);
    }
    pass_comments(source)
}

// `pass_blanks` where a comment may begin, or the window ends.
#[inline(never)]
fn pass_comments<I: Input, A: Allocator + Copy>(
    source: &mut Source<I, A>,
) -> Result<Option<u64>, Fault>
    requires stands { Stands source.old }
    ensures gives { I.observable source.old.device → IfOk result (λ start.
        blanks (cursor I.Input source.old) ≡ overrun start (cursor I.Input source.new)) }
    ensures used_up { I.observable source.old.device → IfOk result (λ start.
        IfSome start (λ _. left I.rest source.new ≡ [])) }
    ensures plain { (r : Reason) (p : ℕ) → result ≢ Err (Fault.Refused r p) }
    ensures reads { Reads I.Input source.old source.new result }
{
    let mut comment = Comment::None;
    let mut start = source.place();
    'blanks: loop {
        pass_run(source, comment)?;
        let Some(first) = source.peek(0)? else {
            return Ok(cut_at(comment, start));
        };
        if ends_blanks(comment, first) {
            return Ok(None);
        }
        let Some((next, count)) = turn(comment, source.peek(1)?) else {
            return Ok(None);
        };
        start = begun(comment, start, source.place());
        comment = next;
        source.consume(count);
    }
}

/// Passes over white space, up to the first byte that is none or to the input's end.
#[inline]
pub(crate) fn pass_white<I: Input, A: Allocator + Copy>(
    source: &mut Source<I, A>,
) -> Result<(), Fault>
    requires stands { Stands source.old }
    ensures after { I.observable source.old.device → OnOk result (cursor I.Input source.new
        ≡ after_run (first_is is_white) (cursor I.Input source.old)) }
    ensures plain { (r : Reason) (p : ℕ) → result ≢ Err (Fault.Refused r p) }
    ensures reads { Reads I.Input source.old source.new result }
{
    pass_run(source, Comment::None)
}

// Passes over the bytes that go on with a comment, or with white space where there is none.
#[inline]
fn pass_run<I: Input, A: Allocator + Copy>(
    source: &mut Source<I, A>,
    comment: Comment,
) -> Result<(), Fault>
    requires stands { Stands source.old }
    ensures after { I.observable source.old.device → OnOk result (cursor I.Input source.new
        ≡ after_run (first_is (stays_in comment)) (cursor I.Input source.old)) }
    ensures plain { (r : Reason) (p : ℕ) → result ≢ Err (Fault.Refused r p) }
    ensures reads { Reads I.Input source.old source.new result }
{
    'run: loop {
        let Some(_) = source.peek(0)? else {
            return Ok(());
        };
        let bytes = source.buffer();
        let count = run_in(comment, bytes);
        let ends = count < bytes.len();
        source.consume(count);
        if ends {
            return Ok(());
        }
    }
}

// How many bytes at the front of these go on with a comment, or with white space where there is
// none.
#[inline(always)]
fn run_in(comment: Comment, bytes: &[u8]) -> usize
    ensures { IsRun (stays_in comment) bytes.now result }
{
    match comment {
        Comment::None => white_run(bytes),
        Comment::Line => run_without(b'\n', b'\r', bytes),
        Comment::Block => run_without(b'*', b'*', bytes),
    }
}

// Whether blanks end before this byte after such a run, whatever follows it.
#[inline(always)]
fn ends_blanks(comment: Comment, first: u8) -> bool
    ensures { result ≡ ends_blanks comment first }
{
    matches!(comment, Comment::None) && first != b'/'
}

// What the second of two bytes after such a run tells: within which comment the bytes after them
// stand, and how many of the two to consume. None where blanks end before them.
#[inline(always)]
fn turn(comment: Comment, second: Option<u8>) -> Option<(Comment, usize)>
    ensures is { result ≡ turned comment second }
    ensures few { IfSome result (λ next. (0 < next.1) × (next.1 ≤ 2)
        × (second ≡ None → next.1 ≡ 1)) }
{
    match comment {
        Comment::None => match second {
            Some(b'/') => Some((Comment::Line, 2)),
            Some(b'*') => Some((Comment::Block, 2)),
            _ => None,
        },
        Comment::Line => Some((Comment::None, 1)),
        Comment::Block => match second {
            Some(b'/') => Some((Comment::None, 2)),
            _ => Some((Comment::Block, 1)),
        },
    }
}

// Where the comment begins that may go on after a place.
fn begun(comment: Comment, start: u64, place: u64) -> u64
    ensures { result ≡ begun comment start place }
{
    match comment {
        Comment::None => place,
        _ => start,
    }
}

// Where the comment begins that the end of the input cuts off.
fn cut_at(comment: Comment, start: u64) -> Option<u64>
    ensures { result ≡ cut_at comment start }
{
    match comment {
        Comment::Block => Some(start),
        _ => None,
    }
}

// How many bytes are looked at together.
const BLOCK: usize = 32;

/// How many bytes at the front of these are neither of two.
#[inline(always)]
pub(crate) fn run_without(first: u8, second: u8, bytes: &[u8]) -> usize
    ensures { IsRun (is_neither first second) bytes.now result }
{
    let mut at = 0;
    'skip: while bytes.len() - at >= BLOCK {
        let found = found(first, second, u8x32::from_slice(&bytes[at..]));
        if found != 0 {
            return at + found.trailing_zeros() as usize;
        }
        at += BLOCK;
    }
    at + few_without(first, second, &bytes[at..])
}

// Which of these bytes are one of two: a bit for each, the lowest for the first.
#[inline(always)]
fn found(first: u8, second: u8, bytes: u8x32) -> u64
    ensures { result ≡ mask_l (map (λ b. not (is_neither first second b)) bytes) }
{
    (bytes.simd_eq(u8x32::splat(first)) | bytes.simd_eq(u8x32::splat(second))).to_bitmask()
}

// How many bytes at the front of these are neither of two, one after the other.
#[inline(always)]
fn few_without(first: u8, second: u8, bytes: &[u8]) -> usize
    ensures { IsRun (is_neither first second) bytes.now result }
{
    for (i, byte) in bytes.iter().enumerate() {
        if *byte == first || *byte == second {
            return i;
        }
    }
    bytes.len()
}

// How many bytes are looked at together where white space may stand.
const FEW: usize = 16;

/// How many bytes at the front of these are white space.
#[inline(always)]
pub(crate) fn white_run(bytes: &[u8]) -> usize
    ensures { IsRun is_white bytes.now result }
{
    let mut at = 0;
    'skip: while bytes.len() - at >= FEW {
        let others = no_white(u8x16::from_slice(&bytes[at..]));
        if others != 0 {
            return at + others.trailing_zeros() as usize;
        }
        at += FEW;
    }
    at + few_white(&bytes[at..])
}

// Which of these bytes are no white space: a bit for each, the lowest for the first.
#[inline(always)]
fn no_white(bytes: u8x16) -> u64
    ensures { result ≡ mask_l (map (λ b. not (is_white b)) bytes) }
{
    let no_control = bytes.simd_lt(u8x16::splat(9)) | bytes.simd_gt(u8x16::splat(13));
    (no_control & bytes.simd_ne(u8x16::splat(b' '))).to_bitmask()
}

// How many bytes at the front of these are white space, one after the other.
#[inline(always)]
fn few_white(bytes: &[u8]) -> usize
    ensures { IsRun is_white bytes.now result }
{
    for (i, byte) in bytes.iter().enumerate() {
        if !is_white(*byte) {
            return i;
        }
    }
    bytes.len()
}

/// Whether a byte is white space: space, tab, LF, VT, FF or CR. Most are told by one comparison.
#[inline(always)]
pub(crate) fn is_white(byte: u8) -> bool
    ensures { result ≡ is_white byte }
{
    byte <= b' ' && (byte == b' ' || (9..=13).contains(&byte))
}
