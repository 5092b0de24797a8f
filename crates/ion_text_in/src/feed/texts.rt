//! Texts of plain bytes alone, between quotes.
ghost use Rattle.std.specs.Prelude.{◌≡◌, ◌<◌, length, IfSome};
ghost use Rattle.ion_value.specs.PlainItems.{IsRightlyQuoted};
ghost use Rattle.ion_text_in.specs.Feeding.{IsBetween};
ghost use Rattle.ion_text_in.specs.Quotes.{quote_of};

use crate::quoted::{Quote, scan_text};
use crate::scanned::Scanned;
use crate::slice::{after, front};
use ion_value::plain_item::TextAt;
use ion_value::quoting::{Quoting, code_of};

/// A text, and the bytes after its closing quote.
#[derive(Clone, Copy)]
pub(crate) struct Between<'a> {
    pub(super) text: &'a [u8],
    pub(super) rest: &'a [u8],
}

/// The text whose opening quote stands here, where it has plain bytes alone.
#[inline(always)]
pub(super) fn text_between(quote: Quote, limit: u64, bytes: &[u8]) -> Option<Between<'_>>
    requires { 0 < length bytes.now }
    ensures { IfSome result (IsBetween (quote_of quote) limit bytes.now) }
{
    let inside = after(1, bytes);
    match scan_text(quote, limit, inside) {
        Scanned::Whole(plain, count) => Some(Between {
            text: front(plain, inside),
            rest: after(count, inside),
        }),
        _ => None,
    }
}

/// A text that stands between quotes, with the place of the first one: nothing else is known of it.
#[inline(always)]
pub(super) fn quoted_text<'a>(text: &'a [u8], place: u64) -> TextAt<'a>
    ensures text { result.text.now ≡ text.now }
    ensures place { result.place ≡ place }
    ensures says { IsRightlyQuoted result }
{
    TextAt {
        text,
        code: code_of(Quoting::Any),
        place,
    }
}
