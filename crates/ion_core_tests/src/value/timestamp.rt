//! Timestamps in octets and as text, that texts spell, and in their time and UTC.
ghost use Rattle.ion_value.specs.Timestamp.{IsMoment, IsOffset};

use crate::same::{holds, same};
use arrayvec::ArrayVec;
use ion_meter::fault::Reason;
use ion_value::timestamp::{
    Precision, Timestamp, timestamp_from_bytes, timestamp_from_text, timestamp_to_bytes,
    timestamp_to_text,
};
use std::process::Abort;

/// A year, month and day, and an hour and minute.
type Minute = ((u16, u8, u8), (u8, u8));

fn at(minute: Minute, offset: Option<i16>) -> Timestamp {
    let (date, (hour, minute)) = minute;
    told(Precision::Minute, date, (hour, minute, 0), 0, offset)
}

/// A minute, read from its body, since a call that moves it asks that there be such a day.
fn moment(rt: &impl Abort, minute: Minute, offset: Option<i16>) -> Timestamp
    ensures moment { IsMoment result }
    ensures offset { IsOffset result.offset }
{
    let ((year, month, day), (hour, minute_of_hour)) = minute;
    let body = [
        0x80,
        (year / 128 % 128) as u8,
        (year % 128) as u8 | 0x80,
        month | 0x80,
        day | 0x80,
        hour | 0x80,
        minute_of_hour | 0x80,
    ];
    let read = timestamp_from_bytes(&body).expect(rt, "a date and time");
    let minutes = offset.unwrap_or(0);
    holds(rt, -1_440 < minutes && minutes < 1_440);
    let moment = Timestamp { offset, ..read };
    same(rt, moment, at(minute, offset));
    moment
}

/// Minutes in UTC, in local time, and the offset.
const MOVED: &[(Minute, Minute, Option<i16>)] = &[
    // On the same day, and at an unknown offset.
    (((2007, 1, 1), (23, 30)), ((2007, 1, 1), (23, 59)), Some(29)),
    (((2007, 1, 1), (23, 30)), ((2007, 1, 1), (23, 30)), None),
    // Over new year.
    (
        ((2000, 12, 31), (23, 30)),
        ((2001, 1, 1), (0, 15)),
        Some(45),
    ),
    (
        ((2001, 1, 1), (0, 15)),
        ((2000, 12, 31), (0, 16)),
        Some(-1439),
    ),
    // Over leap days.
    (
        ((2000, 2, 28), (23, 30)),
        ((2000, 2, 29), (0, 15)),
        Some(45),
    ),
    (
        ((2000, 3, 1), (0, 15)),
        ((2000, 2, 29), (23, 30)),
        Some(-45),
    ),
    (((1900, 2, 28), (23, 30)), ((1900, 3, 1), (0, 15)), Some(45)),
];

#[test]
fn goes_to_local_time_and_back(rt: HostRuntime) {
    for (utc, local, offset) in MOVED {
        let utc = moment(&rt, *utc, *offset);
        let local = moment(&rt, *local, *offset);
        same(&rt, (utc.to_local(), local.to_utc()), (Ok(local), Ok(utc)));
    }
}

/// The first minute and the last, an offset, and the same from UTC to local time and from local time to UTC, where it is a
/// minute of the years 1 to 9999.
const ENDS: &[(Minute, i16, Option<Minute>, Option<Minute>)] = &[
    (((1, 1, 1), (0, 0)), -1, None, Some(((1, 1, 1), (0, 1)))),
    (((1, 1, 1), (0, 0)), 1, Some(((1, 1, 1), (0, 1))), None),
    (
        ((9999, 12, 31), (23, 59)),
        1,
        None,
        Some(((9999, 12, 31), (23, 58))),
    ),
    (
        ((9999, 12, 31), (23, 59)),
        -1,
        Some(((9999, 12, 31), (23, 58))),
        None,
    ),
];

fn if_there(minute: Option<Minute>, offset: Option<i16>) -> Result<Timestamp, Reason> {
    match minute {
        Some(minute) => Ok(at(minute, offset)),
        None => Err(Reason::BadTimestamp),
    }
}

#[test]
fn ends_with_the_years(rt: HostRuntime) {
    for (end, offset, local, utc) in ENDS {
        let offset = Some(*offset);
        let end = moment(&rt, *end, offset);
        let want = (if_there(*local, offset), if_there(*utc, offset));
        same(&rt, (end.to_local(), end.to_utc()), want);
    }
}

fn told(
    precision: Precision,
    date: (u16, u8, u8),
    time: (u8, u8, u8),
    fraction: u128,
    offset: Option<i16>,
) -> Timestamp {
    Timestamp {
        precision,
        year: date.0,
        month: date.1,
        day: date.2,
        hour: time.0,
        minute: time.1,
        second: time.2,
        fraction,
        offset,
    }
}

// The body of the timestamp that this body tells.
fn written(body: &[u8]) -> Result<ArrayVec<u8, 26>, Reason> {
    match timestamp_from_bytes(body) {
        Ok(timestamp) => Ok(timestamp_to_bytes(timestamp)),
        Err(reason) => Err(reason),
    }
}

// Asserts that the body is written as it was read.
fn is_kept(rt: &impl Abort, body: &[u8]) {
    match written(body) {
        Ok(again) => same(rt, again.as_slice(), body),
        Err(_) => assert!(rt; false),
    }
}

// Asserts that the run is read as this timestamp, which is written as this text.
fn reads(rt: &impl Abort, run: &[u8], want: Timestamp, text: &[u8]) {
    let timestamp = timestamp_from_text(run).expect(rt, "a timestamp");
    same(rt, timestamp, want);
    same(rt, timestamp_to_text(timestamp).as_str().as_bytes(), text);
}

/// A call, and what it answers.
#[derive(Clone, Copy)]
enum Call<'a> {
    /// A body, and what it tells: precision, date, time, fraction and offset.
    Read(&'a [u8], Precision, (u16, u8, u8), (u8, u8, u8), u128, Option<i16>),
    /// A body of midnight of 1 January 2000 in UTC, the precision, and the fraction.
    Fraction(&'a [u8], Precision, u128),
    /// A body that tells no timestamp, and why.
    Refused(&'a [u8], Reason),
    /// A body that is written as it is read.
    Kept(&'a [u8]),
    /// A text, what is read of it: precision, date, time, fraction and offset, and the text that is written.
    Spelled(&'a [u8], Precision, (u16, u8, u8), (u8, u8, u8), u128, Option<i16>, &'a [u8]),
    /// A text of the second 7 of 2000 in UTC that is written as it is read, the number of digits after its point, and these
    /// as one number.
    Digits(&'a [u8], u8, u128),
    /// A run that spells no timestamp, and why.
    NoText(&'a [u8], Reason),
}

// Asserts what the call answers.
fn expect(rt: &impl Abort, call: Call) {
    match call {
        Call::Read(body, precision, date, time, fraction, offset) => {
            let want = told(precision, date, time, fraction, offset);
            same(rt, timestamp_from_bytes(body), Ok(want));
        }
        Call::Fraction(body, precision, fraction) => {
            let want = told(precision, (2000, 1, 1), (0, 0, 0), fraction, Some(0));
            same(rt, timestamp_from_bytes(body), Ok(want));
        }
        Call::Refused(body, reason) => same(rt, timestamp_from_bytes(body), Err(reason)),
        Call::Kept(body) => is_kept(rt, body),
        Call::Spelled(run, precision, date, time, fraction, offset, text) => {
            let want = told(precision, date, time, fraction, offset);
            reads(rt, run, want, text);
        }
        Call::Digits(run, digits, fraction) => {
            let precision = Precision::Fraction(digits);
            let want = told(precision, (2000, 1, 1), (0, 0, 7), fraction, Some(0));
            reads(rt, run, want, run);
        }
        Call::NoText(run, reason) => same(rt, timestamp_from_text(run), Err(reason)),
    }
}

const BODIES: &[Call] = &[
    Call::Read(
        &[0xC0, 0x0F, 0xD7],
        Precision::Year,
        (2007, 1, 1),
        (0, 0, 0),
        0,
        None,
    ),
    Call::Read(
        &[0xC0, 0x0F, 0xD7, 0x8C],
        Precision::Month,
        (2007, 12, 1),
        (0, 0, 0),
        0,
        None,
    ),
    Call::Read(
        &[0xC0, 0x0F, 0xD7, 0x81, 0x82],
        Precision::Day,
        (2007, 1, 2),
        (0, 0, 0),
        0,
        None,
    ),
    // Whatever offset is written.
    Call::Read(
        &[0x0B, 0xA0, 0x0F, 0xD7],
        Precision::Year,
        (2007, 1, 1),
        (0, 0, 0),
        0,
        None,
    ),
    Call::Read(
        &[0xC0, 0x0F, 0xD7, 0x81, 0x82, 0x83, 0x84],
        Precision::Minute,
        (2007, 1, 2),
        (3, 4, 0),
        0,
        None,
    ),
    Call::Read(
        &[0xBC, 0x0F, 0xD7, 0x81, 0x81, 0x97, 0x9E],
        Precision::Minute,
        (2007, 1, 2),
        (0, 30, 0),
        0,
        Some(60),
    ),
    Call::Read(
        &[
            0x43, 0xE0, 0x0F, 0xDB, 0x82, 0x94, 0x93, 0x9E, 0xBB, 0xC3, 0x64,
        ],
        Precision::Fraction(3),
        (2011, 2, 20),
        (11, 30, 59),
        100,
        Some(-480),
    ),
    // No exponent, an exponent of zero, one digit, and minus zero as a digit.
    Call::Fraction(
        &[0x80, 0x0F, 0xD0, 0x81, 0x81, 0x80, 0x80, 0x80],
        Precision::Second,
        0,
    ),
    Call::Fraction(
        &[0x80, 0x0F, 0xD0, 0x81, 0x81, 0x80, 0x80, 0x80, 0x80],
        Precision::Second,
        0,
    ),
    Call::Fraction(
        &[0x80, 0x0F, 0xD0, 0x81, 0x81, 0x80, 0x80, 0x80, 0xC1],
        Precision::Fraction(1),
        0,
    ),
    Call::Fraction(
        &[0x80, 0x0F, 0xD0, 0x81, 0x81, 0x80, 0x80, 0x80, 0xC1, 0x80],
        Precision::Fraction(1),
        0,
    ),
    Call::Fraction(
        &[0x80, 0x0F, 0xD0, 0x81, 0x81, 0x80, 0x80, 0x80, 0xC1, 0x09],
        Precision::Fraction(1),
        9,
    ),
    // One, less than zero, and more than a second.
    Call::Refused(
        &[0x80, 0x0F, 0xD0, 0x81, 0x81, 0x80, 0x80, 0x80, 0xC1, 0x0A],
        Reason::BadTimestamp,
    ),
    Call::Refused(
        &[0x80, 0x0F, 0xD0, 0x81, 0x81, 0x80, 0x80, 0x80, 0xC1, 0x81],
        Reason::BadTimestamp,
    ),
    Call::Refused(
        &[0x80, 0x0F, 0xD0, 0x81, 0x81, 0x80, 0x80, 0x80, 0x80, 0x01],
        Reason::BadTimestamp,
    ),
    // 38 digits, and one more, also in the hour 24.
    Call::Fraction(
        &[0x80, 0x0F, 0xD0, 0x81, 0x81, 0x80, 0x80, 0x80, 0xE6, 0x01],
        Precision::Fraction(38),
        1,
    ),
    Call::Refused(
        &[0x80, 0x0F, 0xD0, 0x81, 0x81, 0x80, 0x80, 0x80, 0xE7, 0x01],
        Reason::Range,
    ),
    Call::Refused(
        &[0x80, 0x0F, 0xD0, 0x81, 0x81, 0x98, 0x80, 0x80, 0xE7, 0x01],
        Reason::Range,
    ),
    // Bodies that tell no timestamp.
    // Nothing, the offset alone, and an hour without its minute.
    Call::Refused(&[], Reason::BadTimestamp),
    Call::Refused(&[0x80], Reason::BadTimestamp),
    Call::Refused(&[0x80, 0x0F, 0xD0, 0x81, 0x81, 0x80], Reason::BadTimestamp),
    // The year 0, 29 February 2001 and hour 24.
    Call::Refused(&[0x80, 0x80], Reason::BadTimestamp),
    Call::Refused(&[0x80, 0x0F, 0xD1, 0x82, 0x9D], Reason::BadTimestamp),
    Call::Refused(
        &[0x80, 0x0F, 0xD0, 0x81, 0x81, 0x98, 0x80],
        Reason::BadTimestamp,
    ),
    // Second 60, and an offset of a day.
    Call::Refused(
        &[0x80, 0x0F, 0xD0, 0x81, 0x81, 0x80, 0x80, 0xBC],
        Reason::BadTimestamp,
    ),
    Call::Refused(
        &[0x0B, 0xA0, 0x0F, 0xD0, 0x81, 0x81, 0x80, 0x80],
        Reason::BadTimestamp,
    ),
    // Local time in the year 0.
    Call::Refused(&[0xFF, 0x81, 0x81, 0x81, 0x80, 0x80], Reason::BadTimestamp),
    // Fields that do not end.
    Call::Refused(&[0x80, 0x0F], Reason::BadVar),
    Call::Refused(
        &[0x80, 0x0F, 0xD0, 0x81, 0x81, 0x98, 0x80, 0x80, 0x67],
        Reason::BadVar,
    ),
    Call::Kept(&[0xC0, 0x0F, 0xD7]),
    Call::Kept(&[0xC0, 0x0F, 0xD7, 0x8C]),
    Call::Kept(&[0xC0, 0x0F, 0xD7, 0x81, 0x82]),
    Call::Kept(&[0xC0, 0x0F, 0xD7, 0x81, 0x82, 0x83, 0x84]),
    Call::Kept(&[0xBC, 0x0F, 0xD7, 0x81, 0x81, 0x97, 0x9E]),
    Call::Kept(&[
        0x43, 0xE0, 0x0F, 0xDB, 0x82, 0x94, 0x93, 0x9E, 0xBB, 0xC3, 0x64,
    ]),
    Call::Kept(&[0x80, 0x0F, 0xD0, 0x81, 0x81, 0x80, 0x80, 0x80]),
    Call::Kept(&[0x80, 0x0F, 0xD0, 0x81, 0x81, 0x80, 0x80, 0x80, 0xC1]),
    // 38 digits, at an offset of -1439 minutes.
    Call::Read(
        &LONGEST,
        Precision::Fraction(38),
        (9998, 12, 29),
        (1, 0, 59),
        99999999999999999999999999999999999999,
        Some(-1439),
    ),
    Call::Kept(&LONGEST),
];

const LONGEST: [u8; 26] = [
    0x4B, 0x9F, 0x4E, 0x8E, 0x8C, 0x9E, 0x80, 0xBB, 0xBB, 0xE6, 0x4B, 0x3B, 0x4C, 0xA8, 0x5A, 0x86,
    0xC4, 0x7A, 0x09, 0x8A, 0x22, 0x3F, 0xFF, 0xFF, 0xFF, 0xFF,
];

const TEXTS: &[Call] = &[
    Call::Spelled(
        b"2007T",
        Precision::Year,
        (2007, 1, 1),
        (0, 0, 0),
        0,
        None,
        b"2007T",
    ),
    Call::Spelled(
        b"2007-12T",
        Precision::Month,
        (2007, 12, 1),
        (0, 0, 0),
        0,
        None,
        b"2007-12T",
    ),
    Call::Spelled(
        b"2007-01-02",
        Precision::Day,
        (2007, 1, 2),
        (0, 0, 0),
        0,
        None,
        b"2007-01-02",
    ),
    Call::Spelled(
        b"2007-01-02T00:30+01:00",
        Precision::Minute,
        (2007, 1, 2),
        (0, 30, 0),
        0,
        Some(60),
        b"2007-01-02T00:30+01:00",
    ),
    Call::Spelled(
        b"2000-01-01T00:00:00Z",
        Precision::Second,
        (2000, 1, 1),
        (0, 0, 0),
        0,
        Some(0),
        b"2000-01-01T00:00:00Z",
    ),
    Call::Spelled(
        b"2000-01-01T00:00:00.0Z",
        Precision::Fraction(1),
        (2000, 1, 1),
        (0, 0, 0),
        0,
        Some(0),
        b"2000-01-01T00:00:00.0Z",
    ),
    Call::Spelled(
        b"2011-02-20T11:30:59.100-08:00",
        Precision::Fraction(3),
        (2011, 2, 20),
        (11, 30, 59),
        100,
        Some(-480),
        b"2011-02-20T11:30:59.100-08:00",
    ),
    // Offsets.
    Call::Spelled(
        b"2007-01-02T03:04+23:59",
        Precision::Minute,
        (2007, 1, 2),
        (3, 4, 0),
        0,
        Some(1439),
        b"2007-01-02T03:04+23:59",
    ),
    Call::Spelled(
        b"2007-01-02T03:04-23:59",
        Precision::Minute,
        (2007, 1, 2),
        (3, 4, 0),
        0,
        Some(-1439),
        b"2007-01-02T03:04-23:59",
    ),
    Call::Spelled(
        b"2007-01-02T03:04+00:01",
        Precision::Minute,
        (2007, 1, 2),
        (3, 4, 0),
        0,
        Some(1),
        b"2007-01-02T03:04+00:01",
    ),
    Call::Spelled(
        b"2007-01-02T03:04-00:01",
        Precision::Minute,
        (2007, 1, 2),
        (3, 4, 0),
        0,
        Some(-1),
        b"2007-01-02T03:04-00:01",
    ),
    Call::Spelled(
        b"2007-01-02T03:04-00:00",
        Precision::Minute,
        (2007, 1, 2),
        (3, 4, 0),
        0,
        None,
        b"2007-01-02T03:04-00:00",
    ),
    Call::Spelled(
        b"2007-01-02T03:04Z",
        Precision::Minute,
        (2007, 1, 2),
        (3, 4, 0),
        0,
        Some(0),
        b"2007-01-02T03:04Z",
    ),
    // The ends of the years.
    Call::Spelled(
        b"0001-01-01T00:00-00:01",
        Precision::Minute,
        (1, 1, 1),
        (0, 0, 0),
        0,
        Some(-1),
        b"0001-01-01T00:00-00:01",
    ),
    Call::Spelled(
        b"0001-01-01T00:00Z",
        Precision::Minute,
        (1, 1, 1),
        (0, 0, 0),
        0,
        Some(0),
        b"0001-01-01T00:00Z",
    ),
    Call::Spelled(
        b"9999-12-31T23:59+00:01",
        Precision::Minute,
        (9999, 12, 31),
        (23, 59, 0),
        0,
        Some(1),
        b"9999-12-31T23:59+00:01",
    ),
    Call::Spelled(
        b"9999-12-31T23:59:59.9-00:00",
        Precision::Fraction(1),
        (9999, 12, 31),
        (23, 59, 59),
        9,
        None,
        b"9999-12-31T23:59:59.9-00:00",
    ),
    // Other spellings: all are of 2 January 2007.
    Call::Spelled(
        b"2007-01-02T",
        Precision::Day,
        (2007, 1, 2),
        (0, 0, 0),
        0,
        None,
        b"2007-01-02",
    ),
    Call::Spelled(
        b"2007-01-02T03:04+00:00",
        Precision::Minute,
        (2007, 1, 2),
        (3, 4, 0),
        0,
        Some(0),
        b"2007-01-02T03:04Z",
    ),
    Call::Digits(b"2000-01-01T00:00:07.0Z", 1, 0),
    Call::Digits(b"2000-01-01T00:00:07.10Z", 2, 10),
    Call::Digits(b"2000-01-01T00:00:07.100Z", 3, 100),
    Call::Digits(b"2000-01-01T00:00:07.0000000000000000001Z", 19, 1),
    Call::Digits(
        b"2000-01-01T00:00:07.9999999999999999999Z",
        19,
        9999999999999999999,
    ),
    Call::Digits(
        b"2000-01-01T00:00:07.99999999999999999999Z",
        20,
        99999999999999999999,
    ),
    Call::Digits(
        b"2000-01-01T00:00:07.00000000000000000000000000000000000001Z",
        38,
        1,
    ),
    Call::Digits(
        b"2000-01-01T00:00:07.99999999999999999999999999999999999999Z",
        38,
        99999999999999999999999999999999999999,
    ),
    // Runs that spell no timestamp.
    // Other shapes.
    Call::NoText(b"", Reason::BadToken),
    Call::NoText(b"-", Reason::BadToken),
    Call::NoText(b"2007", Reason::BadToken),
    Call::NoText(b"207T", Reason::BadToken),
    Call::NoText(b"2007-", Reason::BadToken),
    Call::NoText(b"2007-1T", Reason::BadToken),
    Call::NoText(b"2007-01", Reason::BadToken),
    Call::NoText(b"2007-01-2T", Reason::BadToken),
    Call::NoText(b"2007-01-02Z", Reason::BadToken),
    Call::NoText(b"2007-01-02TZ", Reason::BadToken),
    Call::NoText(b"2007-01-02T03Z", Reason::BadToken),
    Call::NoText(b"2007-01-02T3:04Z", Reason::BadToken),
    Call::NoText(b"2007-01-02T03:04", Reason::BadToken),
    Call::NoText(b"2007-01-02T03:04:05", Reason::BadToken),
    Call::NoText(b"2007-01-02T03:04:05.", Reason::BadToken),
    Call::NoText(b"2007-01-02T03:04:05.Z", Reason::BadToken),
    Call::NoText(b"2007-01-02T03:04:05.1x", Reason::BadToken),
    Call::NoText(b"2007-01-02T03:04:5Z", Reason::BadToken),
    Call::NoText(b"2007-01-02T03:04:Z", Reason::BadToken),
    Call::NoText(b"2007-01-02T03:04.5Z", Reason::BadToken),
    Call::NoText(b"2007-01-02T03:04Zx", Reason::BadToken),
    Call::NoText(b"2007-01-02T03:04+1:00", Reason::BadToken),
    Call::NoText(b"2007-01-02T03:04+01", Reason::BadToken),
    Call::NoText(b"2007-01-02T03:04+01:000", Reason::BadToken),
    Call::NoText(b"2007-01-02T03:04 01:00", Reason::BadToken),
    Call::NoText(b"2007-01-02t03:04Z", Reason::BadToken),
    Call::NoText(b"2007/01/02", Reason::BadToken),
    Call::NoText(b"x007T", Reason::BadToken),
    Call::NoText(b"2007-0:T", Reason::BadToken),
    Call::NoText(b"9999-99-99T99:99:99.9+99:9/", Reason::BadToken),
    // Dates and times that there are not.
    Call::NoText(b"0000T", Reason::BadTimestamp),
    Call::NoText(b"2007-00T", Reason::BadTimestamp),
    Call::NoText(b"2007-13T", Reason::BadTimestamp),
    Call::NoText(b"2000-02-30T", Reason::BadTimestamp),
    Call::NoText(b"2001-02-29", Reason::BadTimestamp),
    Call::NoText(b"2007-01-00", Reason::BadTimestamp),
    Call::NoText(b"2000-01-01T24:00Z", Reason::BadTimestamp),
    Call::NoText(b"2000-01-01T00:60Z", Reason::BadTimestamp),
    Call::NoText(b"2000-01-01T00:00:60Z", Reason::BadTimestamp),
    Call::NoText(b"2000-01-01T00:00+24:00", Reason::BadTimestamp),
    Call::NoText(b"2000-01-01T00:00+00:60", Reason::BadTimestamp),
    Call::NoText(b"0001-01-01T00:00+00:01", Reason::BadTimestamp),
    Call::NoText(b"9999-12-31T23:59-00:01", Reason::BadTimestamp),
    // 39 digits after the point.
    Call::NoText(
        b"2000-01-01T00:00:00.000000000000000000000000000000000000001Z",
        Reason::Range,
    ),
    Call::NoText(
        b"2000-01-01T24:00:00.000000000000000000000000000000000000001+99:99",
        Reason::Range,
    ),
];

// Asserts what each call answers.
fn expect_all(rt: &impl Abort, calls: &[Call]) {
    for call in calls {
        expect(rt, *call);
    }
}

#[test]
fn timestamps_are_read_and_written(rt: HostRuntime) {
    expect_all(&rt, BODIES);
    expect_all(&rt, TEXTS);
}

#[test]
fn refuses_long_fractions(rt: HostRuntime) {
    let mut run = [b'0'; 1000];
    run[..20].copy_from_slice(b"2000-01-01T24:00:00.");
    run[999] = b'Z';
    same(&rt, timestamp_from_text(&run), Err(Reason::Range));
    run[500] = b'x';
    same(&rt, timestamp_from_text(&run), Err(Reason::BadToken));
    run[500] = b'Z';
    same(&rt, timestamp_from_text(&run), Err(Reason::BadToken));
}
