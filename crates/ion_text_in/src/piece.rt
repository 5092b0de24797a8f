//! The pieces of a text between quotes that are no plain bytes: closing quotes, escapes and ends of
//! lines (Ion specification, "Strings", "Clobs" and "Escape Characters").
ghost use Rattle.std.specs.Prelude.{◌≡◌, ◌<◌, ◌≤◌, ◌||◌, ◌==◌, nat_lt, length};
ghost use Rattle.ion_value.specs.Digits.{is_hex_digit, digit_value};
ghost use Rattle.ion_value.specs.Name.{begins_with};
ghost use Rattle.ion_text_in.specs.Quoted as quoted;
ghost use Rattle.ion_text_in.specs.Quoted.{piece_at};
ghost use Rattle.ion_text_in.specs.Quotes.{quote_of};
ghost use Rattle.ion_text_in.specs.Pieces.{piece_of, HexIs, ShowsPiece, may_go_on};
ghost use Rattle.ion_text_in.specs.Scanning.{PieceTakes};

use crate::quoted::Quote;

/// What a piece of a text means.
#[derive(Clone, Copy)]
pub(crate) enum Meant {
    Char(char),
    Byte(u8),
    /// Nothing, as an end of a line after a backslash does.
    Nothing,
}

/// What stands at a place between quotes, with how many bytes it has.
#[derive(Clone, Copy)]
pub(crate) enum Piece {
    Text(Meant, usize),
    Close(usize),
    /// Nothing that may stand in a text.
    Illegal,
    /// What the end of the bytes cuts.
    Cut,
}

// Hex digits at the front of some bytes.
#[derive(Clone, Copy)]
enum HexDigits {
    // All of them, and their number.
    Number(u32),
    // A byte that is none.
    NoDigit,
    // The bytes end before.
    Cut,
}

/// The closing quote of a text that is not long, or an escape that no CR ends, which stand most often
/// after plain bytes. `Cut` for any other piece, and where the bytes end before.
#[inline(always)]
pub(crate) fn quick_piece(quote: Quote, bytes: &[u8]) -> Piece
    ensures shows { ShowsPiece (quote_of quote) bytes.now result }
    ensures takes { PieceTakes bytes.now (piece_of result) }
{
    match bytes {
        [b'\\', byte, ..] if *byte != b'\r' => escape(quote.in_clob(), &bytes[1..]),
        [byte, ..] if *byte == quote.mark() && !quote.is_long() => Piece::Close(1),
        _ => Piece::Cut,
    }
}

/// The piece at the front of some bytes that more may follow, or `Cut` where what follows may
/// change it.
#[inline]
pub(crate) fn scan_piece(quote: Quote, bytes: &[u8]) -> Piece
    ensures shows { ShowsPiece (quote_of quote) bytes.now result }
    ensures takes { PieceTakes bytes.now (piece_of result) }
    ensures few { result ≡ Piece.Cut → length bytes.now < 12 }
{
    match bytes {
        [b'\'', b'\''] | [b'\''] | [13] if quote.is_long() => Piece::Cut,
        [b'\\', 13] => Piece::Cut,
        _ => last_piece(quote, bytes),
    }
}

/// The piece at the front of some bytes that no more follow.
#[tactic(auto, unfolding(crate::specs::Quoted::piece_at))]
#[inline]
pub(crate) fn last_piece(quote: Quote, bytes: &[u8]) -> Piece
    ensures { piece_of result ≡ piece_at (quote_of quote) bytes.now }
{
    if closes(quote, bytes) {
        return Piece::Close(if quote.is_long() { 3 } else { 1 });
    }
    match bytes {
        [] => Piece::Cut,
        [b'\\', after @ ..] => escape(quote.in_clob(), after),
        [byte, after @ ..] => raw(quote, *byte, after),
    }
}

// Whether these bytes begin with the closing quotes.
#[inline]
fn closes(quote: Quote, bytes: &[u8]) -> bool
    ensures { result ≡ begins_with (quote_of quote).closer bytes.now }
{
    match quote {
        Quote::Short | Quote::ShortClob => matches!(bytes, [b'"', ..]),
        Quote::Symbol => matches!(bytes, [b'\'', ..]),
        _ => matches!(bytes, [b'\'', b'\'', b'\'', ..]),
    }
}

// A byte that stands for itself, or an end of a line.
#[inline]
fn raw(quote: Quote, byte: u8, after: &[u8]) -> Piece
    ensures { piece_of result ≡ quoted.raw (quote_of quote) byte after.now }
{
    if quote.is_long() && (byte == 10 || byte == 13) {
        return Piece::Text(Meant::Byte(10), line_end_length(byte, after));
    }
    let is_plain = byte >= b' ' || byte == 9 || byte == 11 || byte == 12;
    if is_plain && (!quote.in_clob() || byte < 128) {
        Piece::Text(Meant::Byte(byte), 1)
    } else {
        Piece::Illegal
    }
}

// How many bytes an end of a line has: CR and LF are one.
#[inline]
fn line_end_length(byte: u8, after: &[u8]) -> usize
    ensures exact { result ≡ quoted.line_end_length byte after.now }
    ensures few { result ≤ 2 }
{
    if byte == 13 && matches!(after, [10, ..]) {
        2
    } else {
        1
    }
}

// What stands after a backslash.
#[inline]
fn escape(in_clob: bool, bytes: &[u8]) -> Piece
    ensures { piece_of result ≡ quoted.escape in_clob bytes.now }
{
    match bytes {
        [] => Piece::Cut,
        [byte, after @ ..] => {
            if *byte == 10 || *byte == 13 {
                return Piece::Text(Meant::Nothing, 1 + line_end_length(*byte, after));
            }
            let meant = LETTERS[*byte as usize];
            if meant == NO_LETTER {
                return coded(in_clob, *byte, after);
            }
            Piece::Text(Meant::Byte(meant), 2)
        }
    }
}

// Which byte each letter after a backslash means, where it means one.
static LETTERS: [u8; 256] = [
    1, 1, 1, 1, 1, 1, 1, 1, 1, 1, 1, 1, 1, 1, 1, 1, 1, 1, 1, 1, 1, 1, 1, 1, 1, 1, 1, 1, 1, 1, 1, 1,
    1, 1, 34, 1, 1, 1, 1, 39, 1, 1, 1, 1, 1, 1, 1, 47, 0, 1, 1, 1, 1, 1, 1, 1, 1, 1, 1, 1, 1, 1, 1,
    63, 1, 1, 1, 1, 1, 1, 1, 1, 1, 1, 1, 1, 1, 1, 1, 1, 1, 1, 1, 1, 1, 1, 1, 1, 1, 1, 1, 1, 92, 1,
    1, 1, 1, 7, 8, 1, 1, 1, 12, 1, 1, 1, 1, 1, 1, 1, 10, 1, 1, 1, 13, 1, 9, 1, 11, 1, 1, 1, 1, 1,
    1, 1, 1, 1, 1, 1, 1, 1, 1, 1, 1, 1, 1, 1, 1, 1, 1, 1, 1, 1, 1, 1, 1, 1, 1, 1, 1, 1, 1, 1, 1, 1,
    1, 1, 1, 1, 1, 1, 1, 1, 1, 1, 1, 1, 1, 1, 1, 1, 1, 1, 1, 1, 1, 1, 1, 1, 1, 1, 1, 1, 1, 1, 1, 1,
    1, 1, 1, 1, 1, 1, 1, 1, 1, 1, 1, 1, 1, 1, 1, 1, 1, 1, 1, 1, 1, 1, 1, 1, 1, 1, 1, 1, 1, 1, 1, 1,
    1, 1, 1, 1, 1, 1, 1, 1, 1, 1, 1, 1, 1, 1, 1, 1, 1, 1, 1, 1, 1, 1, 1, 1, 1, 1, 1, 1, 1, 1, 1, 1,
    1, 1, 1, 1,
];

// What stands there for the others, since no letter means it.
const NO_LETTER: u8 = 1;

// A character by its code, after the letter that says how many digits this has: two of a byte in a
// clob, and else of a character, four of this or of one of a pair of surrogates, or eight.
#[inline]
fn coded(in_clob: bool, letter: u8, digits: &[u8]) -> Piece
    ensures { piece_of result ≡ quoted.coded in_clob letter digits.now }
{
    let count = match letter {
        b'x' => 2,
        b'u' if !in_clob => 4,
        b'U' if !in_clob => 8,
        _ => return Piece::Illegal,
    };
    match hex_digits(count, digits) {
        HexDigits::Number(number) if in_clob => Piece::Text(Meant::Byte(number as u8), 4),
        HexDigits::Number(number) if count == 4 && 0xd800 <= number && number <= 0xdbff => {
            low_after(number, &digits[4..])
        }
        HexDigits::Number(number) => by_code(number, count + 2),
        HexDigits::NoDigit => Piece::Illegal,
        HexDigits::Cut => Piece::Cut,
    }
}

// What stands after the escape of a high surrogate: that of a low one.
fn low_after(high: u32, bytes: &[u8]) -> Piece
    requires { (0xD800 ≤ high) × (high ≤ 0xDBFF) }
    ensures { piece_of result ≡ quoted.low_after high bytes.now }
{
    match bytes {
        [] | [b'\\'] => Piece::Cut,
        [b'\\', b'u', digits @ ..] => match hex_digits(4, digits) {
            HexDigits::Number(low) if 0xdc00 <= low && low <= 0xdfff => {
                by_code(0x10000 + (high - 0xd800) * 1024 + (low - 0xdc00), 12)
            }
            HexDigits::Cut => Piece::Cut,
            _ => Piece::Illegal,
        },
        _ => Piece::Illegal,
    }
}

// The character of a code, where it has one.
fn by_code(code: u32, taken: usize) -> Piece
    ensures { piece_of result ≡ quoted.by_code code taken }
{
    match char::from_u32(code) {
        Some(character) => Piece::Text(Meant::Char(character), taken),
        None => Piece::Illegal,
    }
}

// So many hex digits at the front of some bytes.
fn hex_digits(count: usize, bytes: &[u8]) -> HexDigits
    requires { count ≤ 8 }
    ensures { HexIs count bytes.now result }
{
    let mut number = 0;
    for i in 0..count {
        if bytes.len() <= i {
            return HexDigits::Cut;
        }
        let value = hex_value(bytes[i]);
        if value >= 16 {
            return HexDigits::NoDigit;
        }
        number = number * 16 + value;
    }
    HexDigits::Number(number)
}

// What a byte counts as a hex digit, and 99 for one that is none.
#[inline]
fn hex_value(byte: u8) -> u32
    ensures digit { is_hex_digit byte ≡ nat_lt result 16 }
    ensures value { result < 16 → result ≡ digit_value byte }
{
    match byte {
        b'0'..=b'9' => (byte - b'0') as u32,
        b'A'..=b'F' => (byte - b'A') as u32 + 10,
        b'a'..=b'f' => (byte - b'a') as u32 + 10,
        _ => 99,
    }
}
