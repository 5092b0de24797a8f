//! Whether the bytes of a window show the next item, so that its reader need not read more.
ghost use Rattle.std.specs.Prelude.{◌≡◌, ◌<◌, ◌≤◌, false, length, IfSome};
ghost use Rattle.ion_text_in.specs.Firsts.{first_of, width};
ghost use Rattle.ion_text_in.specs.Waiting.{NoneIsDeclared, PassesSome};

use crate::blank::{run_without, white_run};
use crate::comments::after_blanks;
use crate::first::{First, scan_first};
use crate::quoted::Quote;
use crate::run::{Run, token_extent};
use crate::scanned::Scanned;
use crate::word::{Word, scan_word};
use ion_value::ion_type::Kind;

/// What the front of some bytes shows of the next item, where it shows a whole token of it and what
/// has to be seen after that.
#[derive(Clone, Copy)]
pub(crate) enum Part<'a> {
    /// The rest of it.
    Item,
    /// A comma, a field's name or an annotation, after which it goes on with these bytes.
    Passed(&'a [u8]),
}

/// Whether these bytes show the next item in a container of this kind, or at top level, so that it
/// is taken without a byte more.
///
/// False may be wrong. It is answered of what may be a version marker or a declaration of a symbol
/// table, since what stands after them is read in the same call.
pub(crate) fn shows_item(inside: Option<Kind>, bytes: &[u8]) -> bool {
    let mut rest = bytes;
    'parts: loop {
        match next_part(inside, rest) {
            None => return false,
            Some(Part::Item) => return true,
            Some(Part::Passed(after)) => rest = after,
        }
    }
}

// What the next token is, with what has to be seen after it.
fn next_part(inside: Option<Kind>, bytes: &[u8]) -> Option<Part<'_>>
    ensures { IfSome result (PassesSome bytes.now) }
{
    let in_sexp = matches!(inside, Some(Kind::Sexp));
    let (first, bytes) = first_after(in_sexp, bytes)?;
    if inside.is_none() && may_be_declaration(bytes) {
        return None;
    }
    match first {
        First::Comma | First::Colon => Some(Part::Passed(&bytes[1..])),
        First::Colons => Some(Part::Passed(&bytes[2..])),
        First::Number => token_extent(Run::Number, bytes).and(Some(Part::Item)),
        First::Operator => token_extent(Run::Operator, bytes).and(Some(Part::Item)),
        First::Word => match scan_word(u64::MAX, bytes) {
            Scanned::Cut => None,
            Scanned::Whole(Word::Name | Word::Id(_), count) => {
                after_name(in_sexp, &bytes[count..])
            }
            _ => Some(Part::Item),
        },
        First::QuotedSymbol => after_name(in_sexp, after_text(Quote::Symbol, &bytes[1..])?),
        First::String => {
            let after = after_text(Quote::Short, &bytes[1..])?;
            match inside {
                Some(Kind::Struct) => after_name(in_sexp, after),
                _ => Some(Part::Item),
            }
        }
        First::LongString => {
            let after = after_text(Quote::Long, &bytes[3..])?;
            match first_after(in_sexp, after)? {
                // A further segment.
                (First::LongString, next) => Some(Part::Passed(next)),
                _ => after_name(in_sexp, after),
            }
        }
        First::Lob => lob_part(&bytes[2..]),
        First::Begin(_) | First::End(_) | First::Infinity | First::Nothing => Some(Part::Item),
    }
}

// Whether a value at top level that so begins may be a version marker or a declaration. The first word
// of these is `$3`, or a name of no more bytes than `$ion_symbol_table`; in quotes it is not read here.
fn may_be_declaration(bytes: &[u8]) -> bool
    ensures { result ≡ false → 2 ≤ length bytes.now → NoneIsDeclared bytes.now }
{
    match bytes {
        [b'\'', b'$' | b'\\', ..] => true,
        [b'$', ..] => match scan_word(u64::MAX, bytes) {
            Scanned::Whole(Word::Id(id), _) => id == 3,
            Scanned::Whole(Word::Name, count) => count <= b"$ion_symbol_table".len(),
            _ => true,
        },
        _ => false,
    }
}

// What stands after a symbol or a text: with a colon after it, it is a field's name or an
// annotation.
fn after_name(in_sexp: bool, bytes: &[u8]) -> Option<Part<'_>>
    ensures { IfSome result (PassesSome bytes.now) }
{
    match first_after(in_sexp, bytes)? {
        (First::Colon | First::Colons, after) => Some(Part::Passed(&after[1..])),
        _ => Some(Part::Item),
    }
}

// Which token begins after blanks, and the bytes from there on.
fn first_after(in_sexp: bool, bytes: &[u8]) -> Option<(First, &[u8])>
    ensures wide { IfSome result (λ found. width (first_of found.0) ≤ length found.1.now) }
    ensures within { IfSome result (λ found. length found.1.now ≤ length bytes.now) }
{
    let rest = after_blanks(bytes);
    let first = scan_first(in_sexp, rest)?;
    Some((first, rest))
}

// What stands after the quotes that close a text.
fn after_text(quote: Quote, bytes: &[u8]) -> Option<&[u8]>
    ensures { IfSome result (λ rest. length rest.now < length bytes.now) }
{
    let mut rest = bytes;
    'text: loop {
        let found = &rest[run_without(quote.mark(), b'\\', rest)..];
        match (quote, found) {
            (_, [] | [b'\\']) => return None,
            (Quote::Long, [b'\'', b'\'', b'\'', after @ ..]) => return Some(after),
            (_, [b'\\', _, others @ ..]) | (Quote::Long, [_, others @ ..]) => rest = others,
            (_, [_, after @ ..]) => return Some(after),
        }
    }
}

// A blob or a clob in short quotes, from after its opening braces.
fn lob_part(bytes: &[u8]) -> Option<Part<'_>>
    ensures { IfSome result (PassesSome bytes.now) }
{
    let rest = match &bytes[white_run(bytes)..] {
        [b'"', text @ ..] => {
            let after = after_text(Quote::Short, text)?;
            &after[white_run(after)..]
        }
        [b'\'', ..] => return None,
        groups => &groups[run_without(b'}', b'}', groups)..],
    };
    match rest {
        [b'}', b'}', ..] => Some(Part::Item),
        _ => None,
    }
}
