//! Blobs and clobs (Ion specification, "Blobs" and "Clobs").
ghost use Rattle.std.specs.Prelude.{◌≡◌, ◌≢◌, ◌+◌, ◌<◌, ◌≤◌, ◌*◌, ℕ, Option, All, None, Some, Ok, Err, false, length, take, OnOk, IfOk, IfSome, IfNone};
ghost use Rattle.base64.specs.Decode.{decoded_estimate};
ghost use Rattle.base64.specs.Engines.{standard};
ghost use Rattle.base64.specs.GeneralPurpose.{decoded_of, encode_of};
ghost use Rattle.ion_meter.specs.Sources.{cursor, Stands};
ghost use Rattle.ion_meter.specs.Windows.{left, lent, IsGiven};
ghost use Rattle.ion_value.specs.Calls.{AnswersBy, CanRead, Reads, ReadsInto, passed_over};
ghost use Rattle.ion_value.specs.Shares.{GrowsWithin};
ghost use Rattle.ion_text_in.specs.Lob.{are_cut_quotes, closed_at, group_of, lob_in};
ghost use Rattle.ion_text_in.specs.Gathered.{CanGather, Continues, Gathers};
ghost use Rattle.ion_text_in.specs.Lobs.{with_groups_after, blob_from, closed_after, TakesGroups};
ghost use Rattle.ion_text_in.specs.Scanning.{groups};
ghost use Rattle.ion_text_in.specs.Token.{a_lob, plain, token_of};
ghost use Rattle.ion_text_in.specs.Tokens.{as_scalar, BodyInRange};

use crate::blank::pass_white;
use crate::quoted::Quote;
use crate::text::{next_long_text, next_short_text, pass_quotes, put};
use crate::token::Body;
use base64::engine::general_purpose::STANDARD;
use ion_meter::buf::Buf;
use ion_meter::device::Input;
use ion_meter::fault::{Fault, Reason};
use ion_meter::meter::Meter;
use ion_meter::profile::Rules;
use ion_meter::source::Source;
use std::alloc::Allocator;

/// Reads a lob, at whose two opening braces the source stands, and puts its bytes into `text`.
///
/// Faults stand at the first brace: `Truncated` where the input ends before the lob does,
/// `ScalarLimit` before `text` grows above `Rules::scalar`, and `BadLob` for what may not stand in
/// a lob.
pub(crate) fn next_lob<I: Input, A: Allocator + Copy>(
    source: &mut Source<I, A>,
    text: &mut Buf<A>,
    limits: Rules,
    meter: &mut Meter<A>,
) -> Result<Body, Fault>
    requires can_read { CanRead limits limits.scalar source.old text.old meter.old }
    requires braces { IsGiven source.old 1 }
    ensures gives { AnswersBy I.Input (λ lob. plain (as_scalar text.new source.old.place lob))
        source.old source.new source.old.place result (token_of (Some limits.scalar) a_lob) }
    ensures range { IfOk result BodyInRange }
    ensures further { 1 ≤ length (lent source.old)
        → OnOk result (source.old.place < source.new.place) }
    ensures reads { ReadsInto I.Input source.old source.new meter.old meter.new
        (length text.old) (length text.new) limits.scalar result }
    ensures goes { GrowsWithin meter.old meter.new (length text.old) (length text.new)
        (8 * passed_over source.old source.new) }
{
    let place = source.place();
    source.consume(2);
    pass_white(source)?;
    next_opened(source, text, place, limits, meter)
}

// The text of a lob that begins at a place, from after its opening braces and white space, and what
// closes the lob.
fn next_opened<I: Input, A: Allocator + Copy>(
    source: &mut Source<I, A>,
    text: &mut Buf<A>,
    place: u64,
    limits: Rules,
    meter: &mut Meter<A>,
) -> Result<Body, Fault>
    requires can_read { CanRead limits limits.scalar source.old text.old meter.old }
    ensures gives { I.observable source.old.device → Continues result place
        (lob_in (Some limits.scalar) (cursor I.Input source.old))
        (λ lob. Ok (as_scalar text.new place lob, cursor I.Input source.new)) }
    ensures range { IfOk result BodyInRange }
    ensures gathers { Gathers I.Input limits source.old source.new meter.old meter.new
        text.old text.new result }
{
    if source.peek(0)? == Some(b'"') {
        source.advance();
        next_short_text(source, text, Quote::ShortClob, place, limits, meter)?;
        pass_white(source)?;
        pass_braces(source, place)?;
        return Ok(Body::Clob);
    }
    if pass_quotes(source)? {
        next_long_text(source, text, Quote::LongClob, place, limits, meter)?;
        if are_cut_quotes(source)? {
            return Err(Fault::Refused(Reason::Truncated, place));
        }
        pass_braces(source, place)?;
        return Ok(Body::Clob);
    }
    next_blob(source, text, place, limits, meter)?;
    Ok(Body::Blob)
}

// Whether one quote or two are all that is left of the input: a further segment may begin there.
fn are_cut_quotes<I: Input, A: Allocator + Copy>(source: &mut Source<I, A>) -> Result<bool, Fault>
    requires stands { Stands source.old }
    ensures gives { I.observable source.old.device → IfOk result (λ cut.
        cut ≡ are_cut_quotes (left I.rest source.old)) }
    ensures still { I.observable source.old.device
        → cursor I.Input source.new ≡ cursor I.Input source.old }
    ensures shown { IsGiven source.old 2 → source.new.device ≡ source.old.device }
    ensures plain { (r : Reason) (p : ℕ) → result ≢ Err (Fault.Refused r p) }
    ensures reads { Reads I.Input source.old source.new result }
{
    if source.peek(0)? != Some(b'\'') {
        return Ok(false);
    }
    match source.peek(1)? {
        None => Ok(true),
        Some(b'\'') => Ok(source.peek(2)?.is_none()),
        Some(_) => Ok(false),
    }
}

// How many characters of a blob are decoded at once: whole groups of four. Half a window costs
// `base64` nothing beside all of it, and its room less to make.
const BLOCK: usize = 2048;

// How many characters of a line or a short blob are decoded at once, for which much less room is
// made.
const LINE: usize = 256;

// The bytes of a blob after its opening braces and white space, read up to and with the closing
// braces of a lob that begins at a place.
fn next_blob<I: Input, A: Allocator + Copy>(
    source: &mut Source<I, A>,
    text: &mut Buf<A>,
    place: u64,
    limits: Rules,
    meter: &mut Meter<A>,
) -> Result<(), Fault>
    requires can_read { CanRead limits limits.scalar source.old text.old meter.old }
    ensures gives { I.observable source.old.device → Continues result place
        (groups (Some limits.scalar) 0 false (cursor I.Input source.old))
        (λ _. Ok (text.new, cursor I.Input source.new)) }
    ensures gathers { Gathers I.Input limits source.old source.new meter.old meter.new
        text.old text.new result }
{
    text.clear(meter);
    let mut padded = false;
    'groups: loop {
        padded = take_blocks(source, text, padded, limits, meter)?;
        match take_group(source, text, padded, place, limits, meter)? {
            None => return Ok(()),
            Some(last) => padded = last,
        }
    }
}

// Takes groups of the window in blocks, as far as they stand without white space between them and
// are well formed, and none after a padded one; true where the last of them is padded.
fn take_blocks<I: Input, A: Allocator + Copy>(
    source: &mut Source<I, A>,
    text: &mut Buf<A>,
    padded: bool,
    limits: Rules,
    meter: &mut Meter<A>,
) -> Result<bool, Fault>
    requires can_gather { CanGather limits source.old text.old meter.old }
    ensures gives { I.observable source.old.device → IfOk result (λ last.
        with_groups_after limits.scalar text.old padded (cursor I.Input source.old)
        ≡ with_groups_after limits.scalar text.new last (cursor I.Input source.new)) }
    ensures plain { (r : Reason) (p : ℕ) → result ≢ Err (Fault.Refused r p) }
    ensures gathers { Gathers I.Input limits source.old source.new meter.old meter.new
        text.old text.new result }
{
    if padded {
        return Ok(true);
    }
    let mut run = solid_run(source.buffer());
    'pieces: while run >= 4 {
        let count = run.min(BLOCK).min(source.buffer().len()) / 4 * 4;
        if count == 0 {
            break;
        }
        match take_block(source, text, count, limits, meter)? {
            None => break,
            Some(true) => return Ok(true),
            Some(false) => {}
        }
        run -= count;
    }
    Ok(false)
}

// Takes so many characters of the window, where they are well formed and their bytes are within the
// limit; true where the last group of them is padded.
fn take_block<I: Input, A: Allocator + Copy>(
    source: &mut Source<I, A>,
    text: &mut Buf<A>,
    count: usize,
    limits: Rules,
    meter: &mut Meter<A>,
) -> Result<Option<bool>, Fault>
    requires can_gather { CanGather limits source.old text.old meter.old }
    requires few { count ≤ BLOCK }
    requires some { 0 < count }
    requires there { count ≤ length (lent source.old) }
    ensures { TakesGroups I.Input limits source.old source.new meter.old meter.new
        text.old text.new result }
{
    if count <= LINE {
        return take_groups(source, text, count, &mut [0; LINE / 4 * 3], limits, meter);
    }
    take_groups(source, text, count, &mut [0; BLOCK / 4 * 3], limits, meter)
}

// Takes so many characters of the window, with this room for their bytes.
fn take_groups<I: Input, A: Allocator + Copy>(
    source: &mut Source<I, A>,
    text: &mut Buf<A>,
    count: usize,
    room: &mut [u8],
    limits: Rules,
    meter: &mut Meter<A>,
) -> Result<Option<bool>, Fault>
    requires can_gather { CanGather limits source.old text.old meter.old }
    requires room { decoded_estimate count ≤ length room.old }
    requires some { 0 < count }
    requires there { count ≤ length (lent source.old) }
    ensures { TakesGroups I.Input limits source.old source.new meter.old meter.new
        text.old text.new result }
{
    let Some(n) = decode(&source.buffer()[..count], room) else {
        return Ok(None);
    };
    let left = limits.scalar - (text.as_slice().len() as u64);
    if left < n as u64 {
        return Ok(None);
    }
    text.extend(meter, &room[..n])?;
    source.consume(count);
    Ok(Some(n % 3 != 0))
}

// Takes a group of four characters, with white space among them, or the closing braces.
#[inline(never)]
fn take_group<I: Input, A: Allocator + Copy>(
    source: &mut Source<I, A>,
    text: &mut Buf<A>,
    padded: bool,
    place: u64,
    limits: Rules,
    meter: &mut Meter<A>,
) -> Result<Option<bool>, Fault>
    requires can_gather { CanGather limits source.old text.old meter.old }
    ensures gives { I.observable source.old.device → Continues result place
        (with_groups_after limits.scalar text.old padded (cursor I.Input source.old))
        (blob_from limits.scalar text.new (cursor I.Input source.new)) }
    ensures taken { IfOk result (λ found. IfSome found (λ _.
        source.old.place < source.new.place)) }
    ensures gathers { Gathers I.Input limits source.old source.new meter.old meter.new
        text.old text.new result }
{
    let mut group = [0; 4];
    let count = next_characters(source, &mut group)?;
    if count < 4 {
        end_groups(source, count, place)?;
        return Ok(None);
    }
    let mut bytes = [0; 3];
    let Some(n) = decode(&group, &mut bytes) else {
        return Err(Fault::Refused(Reason::BadLob, place));
    };
    if padded {
        return Err(Fault::Refused(Reason::BadLob, place));
    }
    put(text, &bytes[..n], place, limits, meter)?;
    Ok(Some(n < 3))
}

// Passes over the braces after fewer than four characters, which may be none alone.
fn end_groups<I: Input, A: Allocator + Copy>(
    source: &mut Source<I, A>,
    count: usize,
    place: u64,
) -> Result<(), Fault>
    requires stands { Stands source.old }
    ensures gives { I.observable source.old.device → Continues result place
        (closed_after count (cursor I.Input source.old)) (λ _. Ok (cursor I.Input source.new)) }
    ensures reads { Reads I.Input source.old source.new result }
{
    pass_braces(source, place)?;
    if count > 0 {
        return Err(Fault::Refused(Reason::BadLob, place));
    }
    Ok(())
}

// Passes over the braces that close a lob which begins at a place.
fn pass_braces<I: Input, A: Allocator + Copy>(
    source: &mut Source<I, A>,
    place: u64,
) -> Result<(), Fault>
    requires stands { Stands source.old }
    ensures gives { I.observable source.old.device → Continues result place
        (closed_at (cursor I.Input source.old)) (λ _. Ok (cursor I.Input source.new)) }
    ensures shown { IsGiven source.old 1 → source.new.device ≡ source.old.device }
    ensures reads { Reads I.Input source.old source.new result }
{
    match source.peek(0)? {
        None => return Err(Fault::Refused(Reason::Truncated, place)),
        Some(b'}') => {}
        Some(_) => return Err(Fault::Refused(Reason::BadLob, place)),
    }
    match source.peek(1)? {
        None => return Err(Fault::Refused(Reason::Truncated, place)),
        Some(b'}') => {}
        Some(_) => return Err(Fault::Refused(Reason::BadLob, place)),
    }
    source.consume(2);
    Ok(())
}

// Passes over up to four characters, white space apart, and stops before a brace or the input's end.
// It answers how many there are.
fn next_characters<I: Input, A: Allocator + Copy>(
    source: &mut Source<I, A>,
    group: &mut [u8; 4],
) -> Result<usize, Fault>
    requires stands { Stands source.old }
    ensures gives { I.observable source.old.device → IfOk result (λ n.
        group_of 4 (left I.rest source.old) ≡ (take n group.new, left I.rest source.new)) }
    ensures few { IfOk result (λ n. n ≤ 4) }
    ensures taken { IfOk result (λ n. source.old.place + n ≤ source.new.place) }
    ensures plain { (r : Reason) (p : ℕ) → result ≢ Err (Fault.Refused r p) }
    ensures reads { Reads I.Input source.old source.new result }
{
    for i in 0..4 {
        pass_white(source)?;
        let Some(byte) = source.peek(0)? else {
            return Ok(i);
        };
        if byte == b'}' {
            return Ok(i);
        }
        group[i] = byte;
        source.advance();
    }
    Ok(4)
}

// Decodes whole groups of characters to the front of some room; none where they are not well formed.
#[inline]
fn decode(chars: &[u8], room: &mut [u8]) -> Option<usize>
    requires room { decoded_estimate (length chars.now) ≤ length room.old }
    ensures some { IfSome result (λ n. chars.now ≡ encode_of standard (take n room.new)) }
    ensures octets { IfSome result (λ n. All (λ octet. octet < 256) (take n room.new)) }
    ensures within { IfSome result (λ n. n ≤ length room.new) }
    ensures none { IfNone result (decoded_of standard chars.now ≡ None) }
    ensures length { length room.new ≡ length room.old }
{
    STANDARD.decode_slice_unchecked(chars, room).ok()
}

// How many bytes are looked at together.
const STEP: usize = 32;

// How many bytes at the front of these are no white space and no brace, at most; what they are is
// seen as they are decoded.
#[inline]
fn solid_run(bytes: &[u8]) -> usize
    ensures within { result ≤ length bytes.now }
{
    let mut at = 0;
    'skip: while bytes.len() - at >= STEP {
        let mut solid = true;
        // No byte ends this loop, so that it can look at many of them at once.
        for byte in &bytes[at..at + STEP] {
            solid &= is_solid(*byte);
        }
        if !solid {
            break;
        }
        at += STEP;
    }
    for (i, byte) in bytes[at..].iter().enumerate() {
        if !is_solid(*byte) {
            return at + i;
        }
    }
    bytes.len()
}

#[inline]
fn is_solid(byte: u8) -> bool {
    byte > b' ' && byte != b'}'
}
