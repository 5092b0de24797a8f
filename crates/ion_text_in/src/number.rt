//! Numbers, timestamps, floats and operators (Ion specification, "Text Encoding").
ghost use Rattle.std.specs.Prelude.{◌≡◌, ◌≤◌, ◌<◌, ◌*◌, ◌==◌, not, Some, Ok, Err, length, filter, take, option_map, IfOk, IfSome, MatchResult, OnOk};
ghost use Rattle.std.specs.Float.{inf};
ghost use Rattle.ion_meter.specs.Sources.{Stands};
ghost use Rattle.ion_meter.specs.Windows.{lent};
ghost use Rattle.ion_value.specs.Calls.{AnswersBy, CanRead, Reads, ReadsInto, passed_over};
ghost use Rattle.ion_value.specs.Decimal.{decimal_of_text};
ghost use Rattle.ion_value.specs.Digits.{has_minus};
ghost use Rattle.ion_value.specs.Float.{IsFloat, value_of, values_of};
ghost use Rattle.ion_value.specs.FloatText.{float_of_text};
ghost use Rattle.ion_value.specs.Scalar.{scalar_of_run};
ghost use Rattle.ion_value.specs.Standing.{InRange};
ghost use Rattle.ion_value.specs.Shares.{GrowsWithin};
ghost use Rattle.ion_value.specs.Value.{SymbolAt};
ghost use Rattle.ion_text_in.specs.Scanners.{Shows};
ghost use Rattle.ion_text_in.specs.Token as tokens;
ghost use Rattle.ion_text_in.specs.Token.{a_run, an_infinity, an_operator, found_float, token_of};
ghost use Rattle.ion_text_in.specs.Views.{IfWhole, IsWithin, NumeralInRange, as_number, infinity_token, numeral_token, shown_text};

use crate::blank::run_without;
use crate::gather::{copy, gather_token};
use crate::run::{Run, token_extent};
use crate::scanned::Scanned;
use ion_float::text::nearest_float;
use ion_meter::buf::Buf;
use ion_meter::device::Input;
use ion_meter::fault::{Fault, Reason};
use ion_meter::meter::Meter;
use ion_meter::profile::Rules;
use ion_meter::source::Source;
use ion_value::decimal::{Decimal, decimal_from_text};
use ion_value::float::Float64;
use ion_value::int::{Int, int_from_text};
use ion_value::timestamp::{Timestamp, timestamp_from_text};
use std::alloc::Allocator;

/// A number or a timestamp.
#[derive(Clone, Copy)]
pub(crate) enum Number {
    /// An int.
    Int(Int),
    /// A decimal.
    Decimal(Decimal),
    /// A timestamp in local time.
    Timestamp(Timestamp),
}

/// What a run is that begins as a number does.
#[derive(Clone, Copy)]
pub(crate) enum Numeral {
    /// A number or a timestamp.
    Number(Number),
    /// A float, or none where its digits round to infinity.
    Float(Option<Float64>),
}

/// What a slice shows of the number, timestamp or float that begins at the front of it, where that is
/// no float with underscores.
///
/// Answers `ScalarLimit` where it has more bytes than the limit, and then what is wrong in it:
/// `BadToken`, `Range` or `BadTimestamp`.
#[inline(always)]
pub(crate) fn scan_number(limit: u64, bytes: &[u8]) -> Scanned<Numeral>
    ensures shows { Shows numeral_token bytes.now result (token_of (Some limit) a_run) }
    ensures range { IfWhole result NumeralInRange }
{
    let Some(count) = token_extent(Run::Number, bytes) else {
        return Scanned::Cut;
    };
    if limit < count as u64 {
        return Scanned::Fault(Reason::ScalarLimit);
    }
    match number_of(&bytes[..count]) {
        Ok(number) => Scanned::Whole(Numeral::Number(number), count),
        Err(Reason::Float) => match plain_float(&bytes[..count]) {
            Some(float) => Scanned::Whole(Numeral::Float(float), count),
            None => Scanned::Cut,
        },
        Err(reason) => Scanned::Fault(reason),
    }
}

/// The number, timestamp or float that begins here, where nothing stands before it.
///
/// Only one that the window's end cuts, and a float with underscores, is copied, to `text`. Answers
/// `ScalarLimit` where it has more bytes than the limit, and then what is wrong in it: `BadToken`,
/// `Range` or `BadTimestamp`, each at the place of its first byte.
#[inline(always)]
pub(crate) fn next_number<I: Input, A: Allocator + Copy>(
    source: &mut Source<I, A>,
    text: &mut Buf<A>,
    limits: Rules,
    meter: &mut Meter<A>,
) -> Result<Numeral, Fault>
    requires can_read { CanRead limits limits.scalar source.old text.old meter.old }
    requires there { 1 ≤ length (lent source.old) }
    ensures gives { AnswersBy I.Input numeral_token source.old source.new source.old.place result
        (token_of (Some limits.scalar) a_run) }
    ensures range { IfOk result NumeralInRange }
    ensures further { OnOk result (source.old.place < source.new.place) }
    ensures reads { ReadsInto I.Input source.old source.new meter.old meter.new
        (length text.old) (length text.new) limits.scalar result }
    ensures goes { GrowsWithin meter.old meter.new (length text.old) (length text.new)
        (8 * passed_over source.old source.new) }
{
    match scan_number(limits.scalar, source.buffer()) {
        Scanned::Whole(number, count) => {
            source.consume(count);
            Ok(number)
        }
        Scanned::Fault(reason) => Err(Fault::Refused(reason, source.place())),
        Scanned::Cut => gather_number(source, text, limits, meter),
    }
}

// The number, timestamp or float that begins here, where it is gathered.
#[cold]
#[inline(never)]
fn gather_number<I: Input, A: Allocator + Copy>(
    source: &mut Source<I, A>,
    text: &mut Buf<A>,
    limits: Rules,
    meter: &mut Meter<A>,
) -> Result<Numeral, Fault>
    requires can_read { CanRead limits limits.scalar source.old text.old meter.old }
    requires there { 1 ≤ length (lent source.old) }
    ensures gives { AnswersBy I.Input numeral_token source.old source.new source.old.place result
        (token_of (Some limits.scalar) a_run) }
    ensures range { IfOk result NumeralInRange }
    ensures further { OnOk result (source.old.place < source.new.place) }
    ensures reads { ReadsInto I.Input source.old source.new meter.old meter.new
        (length text.old) (length text.new) limits.scalar result }
    ensures goes { GrowsWithin meter.old meter.new (length text.old) (length text.new)
        (8 * passed_over source.old source.new) }
{
    let place = source.place();
    gather_token(source, text, Run::Number, limits, meter)?;
    match number_of(text.as_slice()) {
        Ok(number) => Ok(Numeral::Number(number)),
        Err(Reason::Float) => Ok(Numeral::Float(closed_float(text))),
        Err(reason) => Err(Fault::Refused(reason, place)),
    }
}

// The number or timestamp of a run.
#[tactic(auto, unfolding(ion_value::specs::Scalar::scalar_of_run))]
#[inline(always)]
fn number_of(run: &[u8]) -> Result<Number, Reason>
    ensures gives { MatchResult result (λ x. scalar_of_run run.now ≡ Ok (as_number x))
        (λ reason. scalar_of_run {S = SymbolAt} run.now ≡ Err reason) }
    ensures float { result ≡ Err Reason.Float → decimal_of_text run.now ≡ Err Reason.Float }
    ensures range { IfOk result (λ x. InRange (as_number x)) }
{
    if let [_, _, _, _, b'-' | b'T', ..] = run {
        match timestamp_from_text(run) {
            Ok(timestamp) => return Ok(Number::Timestamp(timestamp)),
            Err(Reason::BadToken) => {}
            Err(reason) => return Err(reason),
        }
    }
    match int_from_text(run) {
        Ok(int) => return Ok(Number::Int(int)),
        Err(Reason::BadToken) => {}
        Err(reason) => return Err(reason),
    }
    match decimal_from_text(run) {
        Ok(decimal) => return Ok(Number::Decimal(decimal)),
        Err(Reason::BadToken) => {}
        Err(reason) => return Err(reason),
    }
    Ok(Number::Timestamp(timestamp_from_text(run)?))
}

// The float of a run that has the shape of one, where there is no underscore in it.
#[inline(never)]
fn plain_float(run: &[u8]) -> Option<Option<Float64>>
    requires { decimal_of_text run.now ≡ Err Reason.Float }
    ensures is { IfSome result
        (λ x. option_map value_of x ≡ found_float (float_of_text run.now)) }
    ensures range { IfSome result (λ x. IfSome x (λ f. IsFloat (value_of f))) }
{
    if run_without(b'_', b'_', run) < run.len() {
        return None;
    }
    Some(found(nearest_float(run)))
}

// The float of a run that has the shape of one. Its underscores are closed up in place, so its bytes
// mean nothing afterwards.
#[inline(never)]
fn closed_float<A: Allocator + Copy>(text: &mut Buf<A>) -> Option<Float64>
    requires { decimal_of_text text.old ≡ Err Reason.Float }
    ensures is { option_map value_of result ≡ found_float (float_of_text text.old) }
    ensures range { IfSome result (λ f. IsFloat (value_of f)) }
    ensures length { length text.new ≡ length text.old }
{
    let count = close_up(text);
    found(nearest_float(&text.as_slice()[..count]))
}

// Moves all bytes but the underscores to the front, and returns how many they are.
fn close_up<A: Allocator + Copy>(text: &mut Buf<A>) -> usize
    ensures within { result ≤ length text.new }
    ensures closed { take result text.new ≡ filter (λ b. not (b == 95)) text.old }
    ensures length { length text.new ≡ length text.old }
{
    let mut count = 0;
    for place in 0..text.as_slice().len() {
        let byte = text.as_slice()[place];
        if byte != b'_' {
            text.set(count, byte);
            count += 1;
        }
    }
    count
}

// A float that was read, or none.
#[inline(always)]
fn found(read: Result<Float64, Reason>) -> Option<Float64>
    ensures { option_map value_of result ≡ found_float (values_of read) }
{
    match read {
        Ok(float) => Some(float),
        Err(_) => None,
    }
}

/// What a slice shows of the operator that begins at the front of it.
///
/// Its bytes are those at the front of the slice. Answers `ScalarLimit` where it has more than the
/// limit.
#[inline(always)]
pub(crate) fn scan_operator(limit: u64, bytes: &[u8]) -> Scanned<()>
    ensures shows { Shows (λ _. tokens.operator (shown_text bytes.now result)) bytes.now result
        (token_of (Some limit) an_operator) }
    ensures within { IsWithin limit result }
{
    let Some(count) = token_extent(Run::Operator, bytes) else {
        return Scanned::Cut;
    };
    if limit < count as u64 {
        return Scanned::Fault(Reason::ScalarLimit);
    }
    Scanned::Whole((), count)
}

/// The operator that begins here: its bytes are copied to `text`.
///
/// Answers `ScalarLimit` where it has more bytes than the limit.
#[inline(always)]
pub(crate) fn next_operator<I: Input, A: Allocator + Copy>(
    source: &mut Source<I, A>,
    text: &mut Buf<A>,
    limits: Rules,
    meter: &mut Meter<A>,
) -> Result<(), Fault>
    requires can_read { CanRead limits limits.scalar source.old text.old meter.old }
    requires there { 1 ≤ length (lent source.old) }
    ensures gives { AnswersBy I.Input (λ _. tokens.operator text.new) source.old source.new
        source.old.place result (token_of (Some limits.scalar) an_operator) }
    ensures further { OnOk result (source.old.place < source.new.place) }
    ensures reads { ReadsInto I.Input source.old source.new meter.old meter.new
        (length text.old) (length text.new) limits.scalar result }
    ensures goes { GrowsWithin meter.old meter.new (length text.old) (length text.new)
        (8 * passed_over source.old source.new) }
{
    match scan_operator(limits.scalar, source.buffer()) {
        Scanned::Whole((), count) => copy(source, text, count, limits, meter),
        Scanned::Fault(reason) => Err(Fault::Refused(reason, source.place())),
        Scanned::Cut => gather_token(source, text, Run::Operator, limits, meter),
    }
}

/// Passes over `+inf` or `-inf`, whose four bytes stand in the window, and tells which it is.
///
/// Answers `ScalarLimit` where the limit is below 4.
#[tactic(auto, unfolding(crate::specs::Token::token_of))]
#[inline]
pub(crate) fn next_infinity<I: Input, A: Allocator + Copy>(
    source: &mut Source<I, A>,
    limits: Rules,
) -> Result<Float64, Fault>
    requires stands { Stands source.old }
    requires there { 4 ≤ length (lent source.old) }
    ensures gives { AnswersBy I.Input infinity_token source.old source.new
        source.old.place result (token_of (Some limits.scalar) an_infinity) }
    ensures range { IfOk result (λ x. IsFloat (value_of x)) }
    ensures further { OnOk result (source.old.place < source.new.place) }
    ensures reads { Reads I.Input source.old source.new result }
{
    if limits.scalar < 4 {
        return Err(Fault::Refused(Reason::ScalarLimit, source.place()));
    }
    let infinity = infinity(source.buffer());
    source.consume(4);
    Ok(infinity)
}

// The infinity above zero, or the one below it where there is a minus in front.
#[inline(always)]
fn infinity(bytes: &[u8]) -> Float64
    ensures is { value_of result ≡ inf (has_minus bytes.now) }
    ensures range { IsFloat (value_of result) }
{
    Float64::infinite(matches!(bytes, [b'-', ..]))
}
