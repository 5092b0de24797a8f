//! Texts between quotes: strings, long strings, symbols in quotes, and the texts of clobs (Ion
//! specification, "Strings", "Symbols" and "Clobs").
ghost use Rattle.std.specs.Prelude.{◌≡◌, ◌≢◌, ◌+◌, ◌<◌, ◌≤◌, List, [], ◌∷◌, ◌*◌, ℕ, true, false, Some, Ok, Err, length, OnOk, IfOk};
ghost use Rattle.ion_meter.specs.Windows.{left, lent, IsGiven};
ghost use Rattle.ion_meter.specs.Sources.{skip, cursor, Stands};
ghost use Rattle.ion_meter.specs.Sources.{Reads as Looks};
ghost use Rattle.ion_value.specs.Calls.{CanRead, Reads, passed_over};
ghost use Rattle.ion_value.specs.Name.{begins_with};
ghost use Rattle.ion_text_in.specs.Overrun.{overrun};
ghost use Rattle.ion_text_in.specs.Quoted.{piece_at, text_at};
ghost use Rattle.ion_text_in.specs.Quotes.{quote_of};
ghost use Rattle.ion_text_in.specs.Pieces.{piece_of, bytes_of, after_piece, Advances};
ghost use Rattle.ion_text_in.specs.Scanning.{PieceTakes};
ghost use Rattle.ion_text_in.specs.Gathered.{CanGather, CanGrow, Continues, Gathers, Puts, onward, passed, with_segment, Overruns};

use crate::blank::{pass_blanks, pass_white};
use crate::piece::{Meant, Piece, last_piece, quick_piece, scan_piece};
use crate::quoted::{Quote, is_text, plain_length, scan_text};
use crate::scanned::Scanned;
use ion_meter::buf::Buf;
use ion_meter::device::Input;
use ion_meter::fault::{Fault, Reason};
use ion_meter::meter::Meter;
use ion_meter::profile::Rules;
use ion_meter::source::Source;
use std::alloc::Allocator;

/// Reads a text that is not long from after its opening quote into `text`.
///
/// Faults stand at `place`: `Truncated`, `ScalarLimit`, and `BadText` or `BadLob`.
#[inline(always)]
pub(crate) fn next_short_text<I: Input, A: Allocator + Copy>(
    source: &mut Source<I, A>,
    text: &mut Buf<A>,
    quote: Quote,
    place: u64,
    limits: Rules,
    meter: &mut Meter<A>,
) -> Result<(), Fault>
    requires can_read { CanRead limits limits.scalar source.old text.old meter.old }
    requires short { (quote_of quote).is_long ≡ false }
    ensures gives { I.observable source.old.device → Continues result place
        (text_at (quote_of quote) (Some limits.scalar) (cursor I.Input source.old))
        (λ _. Ok (text.new, cursor I.Input source.new)) }
    ensures gathers { Gathers I.Input limits source.old source.new meter.old meter.new
        text.old text.new result }
    ensures fresh { OnOk result (length text.new ≤ 8 * passed_over source.old source.new) }
{
    text.clear(meter);
    let bytes = source.buffer();
    match scan_text(quote, limits.scalar, bytes) {
        Scanned::Whole(plain, taken) => {
            text.extend(meter, &bytes[..plain])?;
            source.consume(taken);
            Ok(())
        }
        Scanned::Fault(reason) => Err(Fault::Refused(reason, place)),
        Scanned::Cut => next_segment(source, text, quote, place, limits, meter),
    }
}

/// Reads a long text from after its three opening quotes into `text`, and passes over the blanks
/// after it, to see whether a segment follows: in a clob over white space alone.
///
/// `Some` is the place where a comment after the text begins that does not end. Faults stand at
/// `place`: `Truncated`, `ScalarLimit`, and `BadText` or `BadLob`.
pub(crate) fn next_long_text<I: Input, A: Allocator + Copy>(
    source: &mut Source<I, A>,
    text: &mut Buf<A>,
    quote: Quote,
    place: u64,
    limits: Rules,
    meter: &mut Meter<A>,
) -> Result<Option<u64>, Fault>
    requires can_read { CanRead limits limits.scalar source.old text.old meter.old }
    requires long { (quote_of quote).is_long ≡ true }
    ensures gives { I.observable source.old.device
        → Overruns (quote_of quote).in_clob text.new result (cursor I.Input source.new) place
        (text_at (quote_of quote) (Some limits.scalar) (cursor I.Input source.old)) }
    ensures gathers { Gathers I.Input limits source.old source.new meter.old meter.new
        text.old text.new result }
{
    text.clear(meter);
    'segments: loop {
        next_segment(source, text, quote, place, limits, meter)?;
        if let Some(start) = pass_between(source, quote)? {
            return Ok(Some(start));
        }
        if !pass_quotes(source)? {
            return Ok(None);
        }
    }
}

// Passes over what may stand between segments: white space in a clob, and comments too else.
fn pass_between<I: Input, A: Allocator + Copy>(
    source: &mut Source<I, A>,
    quote: Quote,
) -> Result<Option<u64>, Fault>
    requires stands { Stands source.old }
    ensures gives { I.observable source.old.device → IfOk result (λ start.
        passed (quote_of quote).in_clob (cursor I.Input source.old)
        ≡ overrun start (cursor I.Input source.new)) }
    ensures plain { (r : Reason) (p : ℕ) → result ≢ Err (Fault.Refused r p) }
    ensures reads { Reads I.Input source.old source.new result }
{
    if quote.in_clob() {
        pass_white(source)?;
        return Ok(None);
    }
    pass_blanks(source)
}

// Passes over three quotes, where they stand here.
pub(crate) fn pass_quotes<I: Input, A: Allocator + Copy>(
    source: &mut Source<I, A>,
) -> Result<bool, Fault>
    requires stands { Stands source.old }
    ensures some { I.observable source.old.device → result ≡ Ok true
        → (begins_with (39 ∷ 39 ∷ 39 ∷ []) (left I.rest source.old) ≡ true)
        × (cursor I.Input source.new ≡ skip 3 (cursor I.Input source.old)) }
    ensures none { I.observable source.old.device → result ≡ Ok false
        → (begins_with (39 ∷ 39 ∷ 39 ∷ []) (left I.rest source.old) ≡ false)
        × (cursor I.Input source.new ≡ cursor I.Input source.old) }
    ensures shown { IsGiven source.old 2 → source.new.device ≡ source.old.device }
    ensures plain { (r : Reason) (p : ℕ) → result ≢ Err (Fault.Refused r p) }
    ensures reads { Reads I.Input source.old source.new result }
{
    if source.peek(0)? != Some(b'\'')
        || source.peek(1)? != Some(b'\'')
        || source.peek(2)? != Some(b'\'')
    {
        return Ok(false);
    }
    source.consume(3);
    Ok(true)
}

/// Reads a segment from after its opening quotes to after the closing ones, and puts the bytes
/// that it spells after those that stand in `text`.
///
/// Answers faults at `place`: `Truncated` where the input ends before the segment does,
/// `ScalarLimit` before `text` grows above `Rules::scalar`, `BadText`, or `BadLob` in a clob, for
/// what may not stand in a text, and `BadText` for a segment that is no UTF-8, but in a clob.
#[inline(never)]
pub(crate) fn next_segment<I: Input, A: Allocator + Copy>(
    source: &mut Source<I, A>,
    text: &mut Buf<A>,
    quote: Quote,
    place: u64,
    limits: Rules,
    meter: &mut Meter<A>,
) -> Result<(), Fault>
    requires can_gather { CanGather limits source.old text.old meter.old }
    ensures gives { I.observable source.old.device → Continues result place
        (with_segment (quote_of quote) limits.scalar text.old (cursor I.Input source.old))
        (λ _. Ok (text.new, cursor I.Input source.new)) }
    ensures further { OnOk result (source.old.place < source.new.place) }
    ensures gathers { Gathers I.Input limits source.old source.new meter.old meter.new
        text.old text.new result }
{
    let start = text.as_slice().len();
    gather_pieces(source, text, quote, place, limits, meter)?;
    if !quote.in_clob() && !is_text(&text.as_slice()[start..]) {
        return Err(Fault::Refused(Reason::BadText, place));
    }
    Ok(())
}

// Reads the pieces of a segment up to and with its closing quotes.
fn gather_pieces<I: Input, A: Allocator + Copy>(
    source: &mut Source<I, A>,
    text: &mut Buf<A>,
    quote: Quote,
    place: u64,
    limits: Rules,
    meter: &mut Meter<A>,
) -> Result<(), Fault>
    requires can_gather { CanGather limits source.old text.old meter.old }
    ensures gives { I.observable source.old.device → Continues result place
        (onward (quote_of quote) limits.scalar text.old (cursor I.Input source.old))
        (λ _. Ok (text.new, cursor I.Input source.new)) }
    ensures further { OnOk result (source.old.place < source.new.place) }
    ensures longer { OnOk result (length text.old ≤ length text.new) }
    ensures gathers { Gathers I.Input limits source.old source.new meter.old meter.new
        text.old text.new result }
{
    'pieces: loop {
        take_plain(source, text, quote, place, limits, meter)?;
        match next_piece(source, quote)? {
            Piece::Text(meant, _) => put_meant(text, meant, place, limits, meter)?,
            Piece::Close(_) => return Ok(()),
            Piece::Illegal if quote.in_clob() => {
                return Err(Fault::Refused(Reason::BadLob, place));
            }
            Piece::Illegal => return Err(Fault::Refused(Reason::BadText, place)),
            Piece::Cut => return Err(Fault::Refused(Reason::Truncated, place)),
        }
    }
}

// Takes the plain bytes that stand in the window.
#[inline]
fn take_plain<I: Input, A: Allocator + Copy>(
    source: &mut Source<I, A>,
    text: &mut Buf<A>,
    quote: Quote,
    place: u64,
    limits: Rules,
    meter: &mut Meter<A>,
) -> Result<(), Fault>
    requires can_gather { CanGather limits source.old text.old meter.old }
    ensures gives { I.observable source.old.device → Continues result place
        (onward (quote_of quote) limits.scalar text.old (cursor I.Input source.old))
        (λ _. onward (quote_of quote) limits.scalar text.new (cursor I.Input source.new)) }
    ensures longer { OnOk result (length text.old ≤ length text.new) }
    ensures gathers { Gathers I.Input limits source.old source.new meter.old meter.new
        text.old text.new result }
{
    let bytes = source.buffer();
    let plain = plain_length(quote, bytes);
    put(text, &bytes[..plain], place, limits, meter)?;
    source.consume(plain);
    Ok(())
}

#[inline]
pub(crate) fn put<A: Allocator + Copy>(
    text: &mut Buf<A>,
    bytes: &[u8],
    place: u64,
    limits: Rules,
    meter: &mut Meter<A>,
) -> Result<(), Fault>
    requires can_grow { CanGrow limits text.old meter.old }
    ensures { Puts limits meter.old meter.new text.old text.new bytes.now place result }
{
    if limits.scalar - (text.as_slice().len() as u64) < bytes.len() as u64 {
        return Err(Fault::Refused(Reason::ScalarLimit, place));
    }
    text.extend(meter, bytes)
}

// Puts what a piece means after a text.
#[inline]
fn put_meant<A: Allocator + Copy>(
    text: &mut Buf<A>,
    meant: Meant,
    place: u64,
    limits: Rules,
    meter: &mut Meter<A>,
) -> Result<(), Fault>
    requires can_grow { CanGrow limits text.old meter.old }
    ensures { Puts limits meter.old meter.new text.old text.new (bytes_of meant) place result }
{
    match meant {
        Meant::Char(character) => {
            let mut room = [0; 4];
            let bytes = character.encode_utf8(&mut room).as_bytes();
            put(text, bytes, place, limits, meter)
        }
        Meant::Byte(byte) => {
            if limits.scalar <= text.as_slice().len() as u64 {
                return Err(Fault::Refused(Reason::ScalarLimit, place));
            }
            text.push(meter, byte)
        }
        Meant::Nothing => Ok(()),
    }
}

// Passes over the piece at the present place, unless it is `Illegal` or `Cut`.
#[inline]
fn next_piece<I: Input, A: Allocator + Copy>(
    source: &mut Source<I, A>,
    quote: Quote,
) -> Result<Piece, Fault>
    requires stands { Stands source.old }
    ensures gives { I.observable source.old.device → (limit : ℕ) (text : List ℕ)
        → IfOk result (λ piece. onward (quote_of quote) limit text (cursor I.Input source.old)
        ≡ after_piece (quote_of quote) limit text (cursor I.Input source.new) piece) }
    ensures further { IfOk result (Advances source.old.place source.new.place) }
    ensures plain { (r : Reason) (p : ℕ) → result ≢ Err (Fault.Refused r p) }
    ensures reads { Reads I.Input source.old source.new result }
{
    let piece = show_piece(source, quote)?;
    let taken = match piece {
        Piece::Text(_, taken) | Piece::Close(taken) => taken,
        Piece::Illegal | Piece::Cut => 0,
    };
    source.consume(taken);
    Ok(piece)
}

// The piece at the present place, for which no more of the device is read than it needs.
#[inline]
fn show_piece<I: Input, A: Allocator + Copy>(
    source: &mut Source<I, A>,
    quote: Quote,
) -> Result<Piece, Fault>
    requires stands { Stands source.old }
    ensures gives { I.observable source.old.device → IfOk result (λ piece.
        piece_of piece ≡ piece_at (quote_of quote) (left I.rest source.old)) }
    ensures takes { IfOk result (λ piece. PieceTakes (lent source.new) (piece_of piece)) }
    ensures shown { 12 ≤ length (lent source.old)
        → source.new.device ≡ source.old.device }
    ensures looks { Looks I.Input source.old source.new result }
    ensures limit { result ≡ Err Fault.InputLimit → I.observable source.old.device
        → source.old.limit < source.old.place + length (left I.rest source.old) }
{
    match quick_piece(quote, source.buffer()) {
        Piece::Cut => {}
        piece => return Ok(piece),
    }
    'more: loop {
        let bytes = source.buffer();
        let shown = bytes.len();
        match scan_piece(quote, bytes) {
            Piece::Cut => {}
            piece => return Ok(piece),
        }
        let Some(_) = source.peek(shown)? else {
            return Ok(last_piece(quote, source.buffer()));
        };
    }
}
