//! White space and comments that end within a slice.
ghost use Rattle.std.specs.Prelude.{◌<◌, ℕ, length};
ghost use Rattle.ion_text_in.specs.Blanks.{blanks_at, in_block};
ghost use Rattle.ion_text_in.specs.Feeding.{LeadsTo, PassesBlanks};

use crate::blank::{run_without, white_run};
use crate::slice::after;

/// After blanks; nothing where the bytes show no end of them.
#[inline(always)]
pub(crate) fn after_blanks(bytes: &[u8]) -> &[u8]
    ensures { 0 < length result.now → PassesBlanks bytes.now result.now }
{
    let white = white_run(bytes);
    if white == bytes.len() {
        return &[];
    }
    if bytes[white] == b'/' {
        return after_comments(bytes);
    }
    after(white, bytes)
}

// After blanks among which a comment may begin; nothing where the bytes show no end of them.
#[inline(never)]
fn after_comments(bytes: &[u8]) -> &[u8]
    ensures { 0 < length result.now → PassesBlanks bytes.now result.now }
{
    let mut rest = bytes;
    'blanks: loop {
        let white = white_run(rest);
        if white == rest.len() {
            return &[];
        }
        let next = after(white, rest);
        if next[0] != b'/' {
            return next;
        }
        let last = after_comment(next);
        if last.is_empty() {
            return &[];
        }
        rest = last;
    }
}

// After the comment that begins here; nothing where none does, or the bytes show no end of it.
#[inline(always)]
fn after_comment(bytes: &[u8]) -> &[u8]
    ensures leads { 0 < length result.now
        → LeadsTo blanks_at blanks_at bytes.now result.now }
    ensures falls { 0 < length result.now → length result.now < length bytes.now }
{
    if bytes.len() < 2 || bytes[0] != b'/' {
        return &[];
    }
    if bytes[1] == b'/' {
        let line = after(2, bytes);
        let end = run_without(b'\n', b'\r', line);
        if end == line.len() {
            return &[];
        }
        return after(end + 1, line);
    }
    if bytes[1] == b'*' {
        return after_block(after(2, bytes));
    }
    &[]
}

// After the star and the slash that end a block; nothing where the bytes show none.
#[inline(always)]
fn after_block(bytes: &[u8]) -> &[u8]
    ensures { 0 < length result.now → (start : ℕ)
        → LeadsTo (in_block start) blanks_at bytes.now result.now }
{
    let mut rest = bytes;
    'block: loop {
        let star = after(run_without(b'*', b'*', rest), rest);
        if star.len() < 2 {
            return &[];
        }
        if star[1] == b'/' {
            return after(2, star);
        }
        rest = after(1, star);
    }
}
