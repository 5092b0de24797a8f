//! Where bytes may be cut, whatever stands before them.
ghost use Rattle.std.specs.Prelude.{◌≡◌, List};
ghost use Rattle.ion_value.specs.Value.{PlacedItem};
ghost use Rattle.ion_text_in.specs.Firm.{ends_line, ends_firmly, cannot_go_on};
ghost use Rattle.ion_transcode.specs.InParts.{is_cut};

use crate::to::Form;

/// Whether the last of some bytes is a line feed, or there is none.
fn ends_line(bytes: &[u8]) -> bool
    ensures { result ≡ ends_line bytes.now }
{
    match bytes.last() {
        None => true,
        Some(byte) => *byte == b'\n',
    }
}

/// Whether a value begins with the first of some bytes, which what stands before them cannot go on
/// with.
fn cannot_go_on(bytes: &[u8]) -> bool
    ensures { result ≡ cannot_go_on bytes.now }
{
    match bytes.first() {
        None => false,
        Some(byte) => {
            let is_white = *byte == b' ' || (9 <= *byte && *byte <= 13);
            let goes_on = *byte == b'\'' || *byte == b'/' || *byte == b':';
            !(is_white || goes_on)
        }
    }
}

/// Whether bytes may be cut before others, where the last of their items is firm or not.
pub(crate) fn is_cut(form: Form, is_firm: bool, part: &[u8], next: &[u8]) -> bool
    ensures { (items : List PlacedItem) → is_firm ≡ ends_firmly items
        → result ≡ is_cut form items part.now next.now }
{
    match form {
        Form::Binary => true,
        Form::Text => ends_line(part) && (is_firm || cannot_go_on(next)),
    }
}
