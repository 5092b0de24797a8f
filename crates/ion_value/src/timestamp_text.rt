//! Timestamps in text.
ghost use Rattle.std.specs.Prelude.{◌≡◌, ℕ, ◌⊎◌, ◌↔◌, ◌+◌, ◌*◌, ◌^◌, ◌<◌, ◌≤◌, pos, ◌≤ℤ◌, true, false, ◌&&◌, nat_le, IsTrue, List, [], ◌∷◌, ◌++◌, length, take, drop, map, IfOk, IfErr, IfSome, MatchOption, codes};
ghost use Rattle.jiff_core.specs.Calendar.{IsCivilDate};
ghost use Rattle.ion_value.specs.Number.{number};
ghost use Rattle.ion_value.specs.Digits.{digit_value, first_is, all_are, is_digit, fixed_digits};
ghost use Rattle.ion_value.specs.Timestamp.{IsTimestamp, IsMoment, IsOffset, date_in_range, digits_at, has_offset_shape, looks_like, time_in_range, timestamp_of_text, day_text, minute_text, second_text, minutes_text, offset_text, timestamp_text};
ghost use Rattle.ion_value.specs.TimestampRuns.{outcome, with_offset, with_fraction, after_second, begins_time, to_the_minute, unread, after_minute, after_day, after_month, after_year, from_year, offset_in_range, offset_of, IsOffsetOf, AreDigits, AreLeading, month_text};
ghost use Rattle.ion_value.specs.TimestampRuns as spec;
ghost use Rattle.arrayvec.specs.ArrayString.{array_string_len};

use crate::digit_text::{push_byte, push_fraction};
use crate::timestamp::{Precision, Timestamp};
use arrayvec::ArrayString;
use ion_meter::fault::Reason;
use jiff::civil::Date;
use std::simd::prelude::*;

/// The most digits that a fraction may have.
const MOST_DIGITS: usize = 38;

/// So many digits 64 bits hold, whichever they are.
const DIGITS_IN_64_BITS: usize = 19;

/// Reads a timestamp in text (Ion specification, "Timestamps").
#[inline]
pub fn timestamp_from_text(run: &[u8]) -> Result<Timestamp, Reason>
    ensures read { result ≡ timestamp_of_text run.now }
    ensures valid { IfOk result IsTimestamp }
    ensures refused { IfErr result (λ e. (e ≡ Reason.BadToken)
        ⊎ ((e ≡ Reason.Range) ⊎ (e ≡ Reason.BadTimestamp))) }
{
    let mut timestamp = Timestamp {
        precision: Precision::Year,
        year: 0,
        month: 1,
        day: 1,
        hour: 0,
        minute: 0,
        second: 0,
        fraction: 0,
        offset: None,
    };
    if let Err(reason) = read_run(&mut timestamp, run) {
        return Err(reason);
    }
    Ok(timestamp)
}

// Reads a time or a date.
#[inline]
fn read_run(timestamp: &mut Timestamp, run: &[u8]) -> Result<(), Reason>
    requires { timestamp.old ≡ unread }
    ensures { outcome result timestamp.new ≡ timestamp_of_text run.now }
{
    if run.len() >= 16 && is_minute(u8x16::from_slice(run)) {
        read_time(timestamp, run)
    } else {
        read_year(timestamp, run)
    }
}

// The number of two bytes, where they are digits.
#[inline]
fn two_digits(first: u8, second: u8) -> Option<u8>
    ensures value { result ≡ spec.two_digits first second }
    ensures small { IfSome result (λ n. n < 100) }
{
    let tens = first.wrapping_sub(b'0');
    let ones = second.wrapping_sub(b'0');
    if tens < 10 && ones < 10 {
        Some(tens * 10 + ones)
    } else {
        None
    }
}

// The number of four bytes, where they are digits.
#[inline]
fn four_digits(first: u8, second: u8, third: u8, fourth: u8) -> Option<u16>
    ensures { result ≡ spec.four_digits first second third fourth }
{
    match (two_digits(first, second), two_digits(third, fourth)) {
        (Some(hundreds), Some(ones)) => Some(hundreds as u16 * 100 + ones as u16),
        _ => None,
    }
}

// Reads the year and what stands after it.
#[inline]
fn read_year(timestamp: &mut Timestamp, run: &[u8]) -> Result<(), Reason>
    ensures { outcome result timestamp.new ≡ from_year timestamp.old run.now }
{
    match run {
        [y1, y2, y3, y4, rest @ ..] => match four_digits(*y1, *y2, *y3, *y4) {
            Some(year) => {
                timestamp.year = year;
                read_month(timestamp, rest)
            }
            None => Err(Reason::BadToken),
        },
        _ => Err(Reason::BadToken),
    }
}

// Reads what stands after the year.
#[inline]
fn read_month(timestamp: &mut Timestamp, bytes: &[u8]) -> Result<(), Reason>
    ensures { outcome result timestamp.new ≡ after_year timestamp.old bytes.now }
{
    match bytes {
        [b'T'] => check(timestamp),
        [b'-', m1, m2, rest @ ..] => match two_digits(*m1, *m2) {
            Some(month) => {
                timestamp.precision = Precision::Month;
                timestamp.month = month;
                read_day(timestamp, rest)
            }
            None => Err(Reason::BadToken),
        },
        _ => Err(Reason::BadToken),
    }
}

// Reads what stands after the month.
#[inline]
fn read_day(timestamp: &mut Timestamp, bytes: &[u8]) -> Result<(), Reason>
    ensures { outcome result timestamp.new ≡ after_month timestamp.old bytes.now }
{
    match bytes {
        [b'T'] => check(timestamp),
        [b'-', d1, d2, rest @ ..] => match two_digits(*d1, *d2) {
            Some(day) => {
                timestamp.precision = Precision::Day;
                timestamp.day = day;
                read_end(timestamp, rest)
            }
            None => Err(Reason::BadToken),
        },
        _ => Err(Reason::BadToken),
    }
}

// Reads what stands after the day.
#[inline]
fn read_end(timestamp: &Timestamp, bytes: &[u8]) -> Result<(), Reason>
    ensures { outcome result timestamp.now ≡ after_day timestamp.now bytes.now }
{
    match bytes {
        [] | [b'T'] => check(timestamp),
        _ => Err(Reason::BadToken),
    }
}

// Whether these bytes are a date and a time to the minute.
#[inline(always)]
fn is_minute(bytes: u8x16) -> bool
    ensures { result ≡ looks_like (codes "0000-00-00T00:00") bytes }
{
    let low = bytes.simd_lt(u8x16::from_slice(b"0000-00-00T00:00"));
    let high = bytes.simd_gt(u8x16::from_slice(b"9999-99-99T99:99"));
    (low | high).to_bitmask() == 0
}

// Reads a time, which begins with a date, an hour and a minute.
#[inline]
fn read_time(timestamp: &mut Timestamp, run: &[u8]) -> Result<(), Reason>
    requires long { 16 ≤ length run.now }
    requires minute { begins_time run.now ≡ true }
    ensures { outcome result timestamp.new
        ≡ after_minute (to_the_minute timestamp.old run.now) (drop 16 run.now) }
{
    timestamp.precision = Precision::Minute;
    timestamp.year = of_digits(run[0], run[1]) as u16 * 100 + of_digits(run[2], run[3]) as u16;
    timestamp.month = of_digits(run[5], run[6]);
    timestamp.day = of_digits(run[8], run[9]);
    timestamp.hour = of_digits(run[11], run[12]);
    timestamp.minute = of_digits(run[14], run[15]);
    read_second(timestamp, &run[16..])
}

// The number of two digits.
#[inline(always)]
fn of_digits(tens: u8, ones: u8) -> u8
    ensures { is_digit tens ≡ true → is_digit ones ≡ true
        → result ≡ digits_at 0 2 (tens ∷ ones ∷ []) }
{
    let tens = tens.wrapping_sub(b'0');
    let ones = ones.wrapping_sub(b'0');
    tens.wrapping_mul(10).wrapping_add(ones)
}

// Reads what stands after the minute.
#[inline]
fn read_second(timestamp: &mut Timestamp, bytes: &[u8]) -> Result<(), Reason>
    ensures { outcome result timestamp.new ≡ after_minute timestamp.old bytes.now }
{
    match bytes {
        [b':', s1, s2, rest @ ..] => match two_digits(*s1, *s2) {
            Some(second) => {
                timestamp.precision = Precision::Second;
                timestamp.second = second;
                read_fraction(timestamp, rest)
            }
            None => Err(Reason::BadToken),
        },
        _ => read_offset(timestamp, bytes),
    }
}

// Reads what stands after the second.
#[inline]
fn read_fraction(timestamp: &mut Timestamp, bytes: &[u8]) -> Result<(), Reason>
    ensures { outcome result timestamp.new ≡ after_second timestamp.old bytes.now }
{
    match bytes {
        [b'.', fraction @ ..] => read_after_digits(timestamp, leading_digits(fraction)),
        _ => read_offset(timestamp, bytes),
    }
}

// Takes these digits for the fraction, and reads the offset after them.
#[inline]
fn read_after_digits(timestamp: &mut Timestamp, digits: Digits<'_>) -> Result<(), Reason>
    ensures { outcome result timestamp.new
        ≡ with_fraction timestamp.old digits.entry.count digits.entry.number digits.entry.rest.now }
{
    if digits.count == 0 {
        return Err(Reason::BadToken);
    }
    if digits.count > MOST_DIGITS {
        return Err(too_long(digits.rest));
    }
    timestamp.precision = Precision::Fraction(digits.count as u8);
    timestamp.fraction = digits.number;
    read_offset(timestamp, digits.rest)
}

// Why a timestamp is none whose fraction is too long, by its offset.
#[cold]
fn too_long(bytes: &[u8]) -> Reason
    ensures { result ≡ spec.too_long bytes.now }
{
    match text_offset(bytes) {
        Some(_) => Reason::Range,
        None => Reason::BadToken,
    }
}

// Reads the offset.
#[inline]
fn read_offset(timestamp: &mut Timestamp, bytes: &[u8]) -> Result<(), Reason>
    ensures { outcome result timestamp.new ≡ with_offset timestamp.old bytes.now }
{
    match text_offset(bytes) {
        Some(offset) => take_offset(timestamp, offset),
        None => Err(Reason::BadToken),
    }
}

// The sign, hours and minutes of an offset.
#[derive(Clone, Copy)]
struct TextOffset {
    negative: bool,
    hours: u8,
    minutes: u8,
}

// The offset in these bytes, where they have its shape.
#[inline]
fn text_offset(bytes: &[u8]) -> Option<TextOffset>
    ensures { MatchOption result (has_offset_shape bytes.now ≡ false)
        (λ offset. (has_offset_shape bytes.now ≡ true) × IsOffsetOf bytes.now offset) }
{
    match bytes {
        [b'Z'] => Some(TextOffset {
            negative: false,
            hours: 0,
            minutes: 0,
        }),
        [sign, h1, h2, b':', m1, m2] if *sign == b'+' || *sign == b'-' => {
            match (two_digits(*h1, *h2), two_digits(*m1, *m2)) {
                (Some(hours), Some(minutes)) => Some(TextOffset {
                    negative: *sign == b'-',
                    hours,
                    minutes,
                }),
                _ => None,
            }
        }
        _ => None,
    }
}

// Takes this offset, if there is such an offset, such a date and time, and its year in UTC is one of
// 1 to 9999.
#[inline]
fn take_offset(timestamp: &mut Timestamp, offset: TextOffset) -> Result<(), Reason>
    ensures { (bytes : List ℕ) → IsOffsetOf bytes offset
        → outcome result timestamp.new ≡ offset_in_range timestamp.old bytes }
{
    if offset.hours > 23 || offset.minutes > 59 {
        return Err(Reason::BadTimestamp);
    }
    let minutes = offset.hours as i16 * 60 + offset.minutes as i16;
    timestamp.offset = signed_minutes(offset.negative, minutes);
    check_in_utc(timestamp)
}

// The offset of this sign and so many minutes, unknown where they are minus zero.
#[inline]
fn signed_minutes(negative: bool, minutes: i16) -> Option<i16>
    requires { pos 0 ≤ℤ minutes }
    ensures { (n : ℕ) → minutes ≡ pos n → result ≡ offset_of negative n }
{
    if !negative {
        Some(minutes)
    } else if minutes > 0 {
        Some(-minutes)
    } else {
        None
    }
}

// Whether there is such a date and time, and its year in UTC is one of 1 to 9999.
#[inline]
fn check_in_utc(timestamp: &Timestamp) -> Result<(), Reason>
    requires { IsOffset timestamp.now.offset }
    ensures { outcome result timestamp.now ≡ time_in_range true timestamp.now }
{
    match check(timestamp) {
        // An offset has less than a day, so from these years it leads to none but 1 to 9999.
        Ok(()) if timestamp.year >= 2 && timestamp.year <= 9998 => Ok(()),
        Ok(()) => match timestamp.to_utc() {
            Ok(_) => Ok(()),
            Err(reason) => Err(reason),
        },
        Err(reason) => Err(reason),
    }
}

// Whether the calendar has its date, in the years 1 to 9999, and the day its time.
#[inline]
fn check(timestamp: &Timestamp) -> Result<(), Reason>
    ensures { outcome result timestamp.now ≡ date_in_range timestamp.now }
{
    let time = timestamp.hour < 24 && timestamp.minute < 60 && timestamp.second < 60;
    if time && is_date(timestamp.year, timestamp.month, timestamp.day) {
        Ok(())
    } else {
        Err(Reason::BadTimestamp)
    }
}

// Whether the calendar has this date, in the years 1 to 9999.
#[inline]
fn is_date(year: u16, month: u8, day: u8) -> bool
    ensures { IsTrue result ↔ ((1 ≤ year) × (year ≤ 9999) × IsCivilDate (pos year) month day) }
{
    if year < 1 || year > 9999 || month < 1 || month > 12 || day < 1 || day > 31 {
        return false;
    }
    // Each month has these days.
    if day <= 28 {
        return true;
    }
    Date::new(year as i16, month as i8, day as i8).is_ok()
}

// The digits at the front of bytes.
#[derive(Clone, Copy)]
struct Digits<'a> {
    // Their number, where there are at most 38.
    number: u128,
    // How many there are.
    count: usize,
    // The bytes after them.
    rest: &'a [u8],
}

// The digits at the front of these bytes.
#[inline]
fn leading_digits(bytes: &[u8]) -> Digits<'_>
    ensures { AreLeading bytes.now result }
{
    let (number, count) = few_digits(bytes);
    if count < DIGITS_IN_64_BITS {
        return Digits {
            number: number as u128,
            count,
            rest: &bytes[count..],
        };
    }
    more_digits(number, &bytes[count..])
}

// The digits at the front, after nineteen that spell this number.
#[cold]
fn more_digits(high: u64, bytes: &[u8]) -> Digits<'_>
    ensures { (prefix : List ℕ) → length prefix ≡ DIGITS_IN_64_BITS → all_are is_digit prefix ≡ true
        → number 10 (map digit_value prefix) ≡ high → AreLeading (prefix ++ bytes.now) result }
{
    let (low, count) = few_digits(bytes);
    let number = high as u128 * 10u64.pow(count as u32) as u128 + low as u128;
    let rest = &bytes[count..];
    let others = digit_count(rest);
    Digits {
        number,
        count: DIGITS_IN_64_BITS + count + others,
        rest: &rest[others..],
    }
}

// The number of the digits at the front of these bytes, at most nineteen, and how many they are.
#[inline]
fn few_digits(bytes: &[u8]) -> (u64, usize)
    ensures digits { AreDigits DIGITS_IN_64_BITS bytes.now result.1 }
    ensures value { result.0 ≡ number 10 (map digit_value (take result.1 bytes.now)) }
{
    let prefix = &bytes[..bytes.len().min(DIGITS_IN_64_BITS)];
    let mut number: u64 = 0;
    for (i, byte) in prefix.iter().enumerate() {
        let digit = byte.wrapping_sub(b'0');
        if digit > 9 {
            return (number, i);
        }
        number = number * 10 + digit as u64;
    }
    (number, prefix.len())
}

// How many digits there are at the front of these bytes.
#[inline]
fn digit_count(bytes: &[u8]) -> usize
    ensures { AreDigits (length bytes.now) bytes.now result }
{
    for (i, byte) in bytes.iter().enumerate() {
        if !byte.is_ascii_digit() {
            return i;
        }
    }
    bytes.len()
}

/// The text of a timestamp (Ion specification, "Timestamps").
pub fn timestamp_to_text(timestamp: Timestamp) -> ArrayString<64>
    requires { IsTimestamp timestamp }
    ensures { result.bytes ≡ timestamp_text timestamp }
{
    let mut text = ArrayString::new();
    match timestamp.precision {
        Precision::Year => {
            push_four(&mut text, timestamp.year);
            push_byte(&mut text, b'T');
        }
        Precision::Month => {
            push_month(&mut text, &timestamp);
            push_byte(&mut text, b'T');
        }
        Precision::Day => push_day(&mut text, &timestamp),
        Precision::Minute => {
            push_minute(&mut text, &timestamp);
            push_offset(&mut text, timestamp.offset);
        }
        Precision::Second => {
            push_second(&mut text, &timestamp);
            push_offset(&mut text, timestamp.offset);
        }
        Precision::Fraction(count) => {
            push_second(&mut text, &timestamp);
            push_byte(&mut text, b'.');
            push_fraction(&mut text, count, timestamp.fraction);
            push_offset(&mut text, timestamp.offset);
        }
    }
    text
}

// Adds two digits.
#[inline]
fn push_two(text: &mut ArrayString<64>, number: u8)
    requires small { number < 100 }
    requires room { array_string_len text.old + 2 ≤ 64 }
    ensures text { text.new.bytes ≡ text.old.bytes ++ fixed_digits 2 number }
    ensures len { array_string_len text.new ≡ array_string_len text.old + 2 }
{
    push_byte(text, b'0' + number / 10);
    push_byte(text, b'0' + number % 10);
}

// Adds four digits.
#[inline]
fn push_four(text: &mut ArrayString<64>, number: u16)
    requires small { number < 10000 }
    requires room { array_string_len text.old + 4 ≤ 64 }
    ensures text { text.new.bytes ≡ text.old.bytes ++ fixed_digits 4 number }
    ensures len { array_string_len text.new ≡ array_string_len text.old + 4 }
{
    push_two(text, (number / 100) as u8);
    push_two(text, (number % 100) as u8);
}

// Adds the year and the month.
#[inline]
fn push_month(text: &mut ArrayString<64>, timestamp: &Timestamp)
    requires moment { IsMoment timestamp.now }
    requires room { array_string_len text.old + 7 ≤ 64 }
    ensures text { text.new.bytes ≡ text.old.bytes ++ month_text timestamp.now }
    ensures len { array_string_len text.new ≡ array_string_len text.old + 7 }
{
    push_four(text, timestamp.year);
    push_byte(text, b'-');
    push_two(text, timestamp.month);
}

// Adds the date.
#[inline]
fn push_day(text: &mut ArrayString<64>, timestamp: &Timestamp)
    requires moment { IsMoment timestamp.now }
    requires room { array_string_len text.old + 10 ≤ 64 }
    ensures text { text.new.bytes ≡ text.old.bytes ++ day_text timestamp.now }
    ensures len { array_string_len text.new ≡ array_string_len text.old + 10 }
{
    push_month(text, timestamp);
    push_byte(text, b'-');
    push_two(text, timestamp.day);
}

// Adds the date, hour and minute.
#[inline]
fn push_minute(text: &mut ArrayString<64>, timestamp: &Timestamp)
    requires moment { IsMoment timestamp.now }
    requires room { array_string_len text.old + 16 ≤ 64 }
    ensures text { text.new.bytes ≡ text.old.bytes ++ minute_text timestamp.now }
    ensures len { array_string_len text.new ≡ array_string_len text.old + 16 }
{
    push_day(text, timestamp);
    push_byte(text, b'T');
    push_two(text, timestamp.hour);
    push_byte(text, b':');
    push_two(text, timestamp.minute);
}

// Adds the date, hour, minute and second.
#[inline]
fn push_second(text: &mut ArrayString<64>, timestamp: &Timestamp)
    requires moment { IsMoment timestamp.now }
    requires room { array_string_len text.old + 19 ≤ 64 }
    ensures text { text.new.bytes ≡ text.old.bytes ++ second_text timestamp.now }
    ensures len { array_string_len text.new ≡ array_string_len text.old + 19 }
{
    push_minute(text, timestamp);
    push_byte(text, b':');
    push_two(text, timestamp.second);
}

// Adds an offset.
#[inline]
fn push_offset(text: &mut ArrayString<64>, offset: Option<i16>)
    requires offset { IsOffset offset }
    requires room { array_string_len text.old + 6 ≤ 64 }
    ensures { text.new.bytes ≡ text.old.bytes ++ offset_text offset }
{
    match offset {
        None => text.push_str("-00:00"),
        Some(0) => push_byte(text, b'Z'),
        Some(minutes) => {
            let sign = if minutes < 0 { b'-' } else { b'+' };
            push_byte(text, sign);
            push_minutes(text, minutes.unsigned_abs());
        }
    }
}

// Adds the hours and minutes of an offset.
#[inline]
fn push_minutes(text: &mut ArrayString<64>, minutes: u16)
    requires small { minutes < 1440 }
    requires room { array_string_len text.old + 5 ≤ 64 }
    ensures text { text.new.bytes ≡ text.old.bytes ++ minutes_text minutes }
    ensures len { array_string_len text.new ≡ array_string_len text.old + 5 }
{
    push_two(text, (minutes / 60) as u8);
    push_byte(text, b':');
    push_two(text, (minutes % 60) as u8);
}
