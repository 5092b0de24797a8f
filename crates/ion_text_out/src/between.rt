//! What stands between values.
ghost use Rattle.std.specs.Prelude.{◌≡◌, Bool};
ghost use Rattle.ion_text_out.specs.Text.{before_item, after_value, opener};
ghost use Rattle.ion_text_out.specs.Writing.{after_end, before_end, closing, gap_text, innermost, shown};

use crate::layout::{Gap, Layout};
use ion_value::ion_type::Kind;

/// The innermost of the open containers, of which the outermost stands first.
#[inline]
fn innermost(kinds: &[Kind]) -> Option<Kind>
    ensures { result ≡ innermost kinds.now }
{
    kinds.last().copied()
}

/// The bracket that opens a container.
#[inline]
pub fn opener(kind: Kind) -> &'static [u8]
    ensures { result.now ≡ opener kind }
{
    match kind {
        Kind::List => b"[",
        Kind::Sexp => b"(",
        Kind::Struct => b"{",
    }
}

/// What stands before the next value, where these containers are open and the innermost is empty
/// or not.
#[inline(always)]
pub fn before<L: Layout>(kinds: &[Kind], empty: bool) -> Gap
    ensures { gap_text result ≡ before_item L.layout (shown kinds.now empty) }
{
    match innermost(kinds) {
        Some(kind) => L::before_member(kind, empty, kinds.len()),
        None => Gap {
            mark: None,
            line: None,
        },
    }
}

/// What stands before the bracket that closes the innermost container, which is empty or not.
#[inline(always)]
pub fn before_end<L: Layout>(kinds: &[Kind], empty: bool) -> Gap
    ensures { gap_text result ≡ before_end L.layout (shown kinds.now empty) }
{
    if kinds.is_empty() {
        return Gap {
            mark: None,
            line: None,
        };
    }
    L::before_closer(empty, kinds.len() - 1)
}

/// What stands after a value: at top level, the end of its line.
#[inline]
pub fn after(kinds: &[Kind]) -> &'static [u8]
    ensures { (empty : Bool) → result.now ≡ after_value (shown kinds.now empty) }
{
    if kinds.is_empty() { b"\n" } else { b"" }
}

/// The bracket that closes the innermost container.
#[inline]
pub fn closing(kinds: &[Kind]) -> &'static [u8]
    ensures { (empty : Bool) → result.now ≡ closing (shown kinds.now empty) }
{
    match innermost(kinds) {
        Some(Kind::List) => b"]",
        Some(Kind::Sexp) => b")",
        Some(Kind::Struct) => b"}",
        None => b"",
    }
}

/// What stands after that bracket.
#[inline]
pub fn after_end(kinds: &[Kind]) -> &'static [u8]
    ensures { (empty : Bool) → result.now ≡ after_end (shown kinds.now empty) }
{
    if kinds.len() == 1 { b"\n" } else { b"" }
}
