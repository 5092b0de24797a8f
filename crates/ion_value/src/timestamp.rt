//! Timestamps: a date, or a date and a time, to a precision and with an offset from UTC.
ghost use Rattle.std.specs.Prelude.{◌≡◌, ℕ, ◌+◌, ◌^◌, ◌<◌, ◌≤◌, ◌⊎◌, ◌↔◌, pos, neg_ℤ, ◌≤ℤ◌, not, ◌&&◌, ◌||◌, ◌==◌, nat_lt, true, false, IsTrue, List, [], ◌∷◌, ◌++◌, length, map, All, Some, None, option_and_then, IfOk, IfErr};
ghost use Rattle.jiff.specs.Words.{IsYmd};
ghost use Rattle.jiff_core.specs.Calendar.{IsCivilDate};
ghost use Rattle.ion_value.specs.Number.{var_uint, var_int_octets, coefficient_octets};
ghost use Rattle.ion_value.specs.Timestamp.{IsMoment, IsOffset, IsMoved, offset_minutes, next_day, day_before, on_day, at_minute, moved, in_years, local_of, utc_of, is_date, IsTimestamp, fields_cut, fields, second_precision, offset_in, timestamp_of_bytes, offset_octets, timestamp_body};
ghost use Rattle.ion_value.specs.Timestamp as spec;
ghost use Rattle.ion_value.specs.TimestampFields.{Spells, first_field, utc_of_numbers, if_moment, timestamp_of_parts, parts_told, whole_octets};

use crate::int_field::{coefficient_write, int_field_read};
pub use crate::timestamp_text::{timestamp_from_text, timestamp_to_text};
use crate::var::{Signed, var_int_read, var_int_write, var_uint_read, var_uint_write};
use arrayvec::ArrayVec;
use ion_meter::fault::Reason;
use jiff::civil::Date;

/// How much of a moment a timestamp tells (Ion specification, "Timestamps").
#[derive(Clone, Copy, Debug, PartialEq, Eq)]
pub enum Precision {
    /// The year alone.
    Year,
    /// Year and month.
    Month,
    /// A date.
    Day,
    /// A date, hour and minute.
    Minute,
    /// A date, hour, minute and second.
    Second,
    /// A date, hour, minute, second and so many digits after the second's point, 1 to 38.
    Fraction(u8),
}

/// A value of Ion's type `timestamp` (Ion specification, "Timestamps").
///
/// The fields are those of local time, but for what `to_utc` answers. Fields past the precision
/// are the least that there are: month and day 1, and 0 for all others.
#[derive(Clone, Copy, Debug, PartialEq, Eq)]
pub struct Timestamp {
    /// Which fields count.
    pub precision: Precision,
    /// 1 to 9999.
    pub year: u16,
    /// 1 to 12.
    pub month: u8,
    /// 1 to the last of the month.
    pub day: u8,
    /// 0 to 23.
    pub hour: u8,
    /// 0 to 59.
    pub minute: u8,
    /// 0 to 59, since there are no leap seconds.
    pub second: u8,
    /// The digits after the second's point as one number.
    pub fraction: u128,
    /// Local time less UTC in minutes, -1439 to 1439, or none where it is unknown.
    pub offset: Option<i16>,
}

impl Precision {
    // Whether it tells no time of the day.
    fn is_date(self) -> bool
        ensures { result ≡ is_date self }
    {
        matches!(self, Precision::Year | Precision::Month | Precision::Day)
    }

    // How many of the month, day, hour, minute and second it tells.
    fn parts(self) -> usize
        ensures { result ≡ parts_told self }
    {
        match self {
            Precision::Year => 0,
            Precision::Month => 1,
            Precision::Day => 2,
            Precision::Minute => 4,
            Precision::Second | Precision::Fraction(_) => 5,
        }
    }
}

impl Timestamp {
    /// This moment with its fields in local time, where they are in UTC (Ion specification,
    /// "Timestamps"). An offset that is unknown counts as 0.
    ///
    /// It is a `BadTimestamp` where the local year is not one of 1 to 9999.
    pub fn to_local(self) -> Result<Timestamp, Reason>
        requires moment { IsMoment self }
        requires offset { IsOffset self.offset }
        ensures local { result ≡ local_of self }
        ensures moved { IfOk result (λ t. IsMoment t × IsMoved (offset_minutes self) self t) }
        ensures refused { IfErr result (λ e. (e ≡ Reason.BadTimestamp)
            × ((t : Timestamp) → IsMoment t → IsMoved (offset_minutes self) self t → ⊥)) }
    {
        self.moved_by(self.offset.unwrap_or(0))
    }

    /// This moment with its fields in UTC, where they are in local time (Ion specification,
    /// "Timestamps"). An offset that is unknown counts as 0.
    ///
    /// It is a `BadTimestamp` where the year in UTC is not one of 1 to 9999.
    pub fn to_utc(self) -> Result<Timestamp, Reason>
        requires moment { IsMoment self }
        requires offset { IsOffset self.offset }
        ensures utc { result ≡ utc_of self }
        ensures moved { IfOk result (λ t. IsMoment t
            × IsMoved (neg_ℤ (offset_minutes self)) self t) }
        ensures refused { IfErr result (λ e. (e ≡ Reason.BadTimestamp)
            × ((t : Timestamp) → IsMoment t → IsMoved (neg_ℤ (offset_minutes self)) self t → ⊥)) }
    {
        self.moved_by(-self.offset.unwrap_or(0))
    }

    // So many minutes later, or earlier where they are below zero: fewer than a day has.
    fn moved_by(self, minutes: i16) -> Result<Timestamp, Reason>
        requires moment { IsMoment self }
        requires earliest { neg_ℤ (pos 1439) ≤ℤ minutes }
        requires latest { minutes ≤ℤ pos 1439 }
        ensures { result ≡ in_years (moved minutes self) }
    {
        let sum = self.hour as i16 * 60 + self.minute as i16 + minutes;
        if sum < 0 {
            self.on_the_day_before((sum + 1440) as u16)
        } else if sum < 1440 {
            Ok(self.at(sum as u16))
        } else {
            self.on_the_next_day((sum - 1440) as u16)
        }
    }

    // At this minute of the next day.
    fn on_the_next_day(self, minute: u16) -> Result<Timestamp, Reason>
        requires moment { IsMoment self }
        requires minute { minute < 1440 }
        ensures { result ≡ in_years (at_minute (next_day self) minute) }
    {
        match self.date().tomorrow() {
            Ok(date) => Ok(self.on(date).at(minute)),
            Err(_) => Err(Reason::BadTimestamp),
        }
    }

    // At this minute of the day before.
    fn on_the_day_before(self, minute: u16) -> Result<Timestamp, Reason>
        requires moment { IsMoment self }
        requires minute { minute < 1440 }
        ensures { result ≡ in_years (at_minute (day_before self) minute) }
    {
        match self.date().yesterday() {
            Ok(date) if date.year() > 0 => Ok(self.on(date).at(minute)),
            _ => Err(Reason::BadTimestamp),
        }
    }

    // These fields at this minute of the day.
    fn at(self, minute: u16) -> Timestamp
        requires { minute < 1440 }
        ensures { result ≡ at_minute self minute }
    {
        Timestamp {
            hour: (minute / 60) as u8,
            minute: (minute % 60) as u8,
            ..self
        }
    }

    // These fields on this day, of a year from 1 on.
    fn on(self, date: Date) -> Timestamp
        requires { pos 1 ≤ℤ date.year }
        ensures same { result ≡ on_day self result.year result.month result.day }
        ensures date { IsYmd (pos result.year) (pos result.month) (pos result.day) date }
    {
        Timestamp {
            year: date.year() as u16,
            month: date.month() as u8,
            day: date.day() as u8,
            ..self
        }
    }

    // Its day in the calendar.
    fn date(self) -> Date
        requires { IsMoment self }
        ensures { IsYmd (pos self.year) (pos self.month) (pos self.day) result }
    {
        Date::new(self.year as i16, self.month as i8, self.day as i8).unwrap()
    }
}

/// Reads the body of a timestamp (binary encoding, "6: timestamp").
///
/// Any VarUInts and VarInts of at most nine octets are allowed as fields, and a date may have any
/// offset. It is a `BadVar` where a field does not end. Else it is out of `Range` where the
/// fraction's coefficient has more than 128 bits, or more than 38 digits stand after the point. Else
/// it is a `BadTimestamp` where the fields end before the year or after the hour, where the calendar
/// has no such date or the day no such time, where the fraction is below 0 or not below 1, where the
/// offset has a day or more, and where the local year is not one of 1 to 9999.
#[inline(never)]
pub fn timestamp_from_bytes(body: &[u8]) -> Result<Timestamp, Reason>
    ensures read { result ≡ timestamp_of_bytes body.now }
    ensures valid { IfOk result IsTimestamp }
    ensures refused { IfErr result (λ e. (e ≡ Reason.BadVar)
        ⊎ ((e ≡ Reason.Range) ⊎ (e ≡ Reason.BadTimestamp))) }
{
    let (offset, rest) = match signed_field(body) {
        Ok(read) => read,
        Err(reason) => return Err(reason),
    };
    let (numbers, rest) = match number_fields(rest) {
        Ok(read) => read,
        Err(reason) => return Err(reason),
    };
    let (exponent, coefficient) = match signed_field(rest) {
        Ok(read) => read,
        Err(reason) => return Err(reason),
    };
    from_parts(offset, numbers.as_slice(), exponent, coefficient)
}

// The VarInt at the front of these bytes, if there are any, and the bytes after it.
fn signed_field(bytes: &[u8]) -> Result<(Signed, &[u8]), Reason>
    ensures read { IfOk result (λ r. (f : List (List ℕ))
        × (fields_cut 1 bytes.now ≡ Some (f, r.1.now)) × Spells r.0 (first_field f)) }
    ensures refused { IfErr result (λ e. (e ≡ Reason.BadVar) × (fields_cut 1 bytes.now ≡ None)) }
{
    if bytes.is_empty() {
        let zero = Signed {
            negative: false,
            magnitude: 0,
        };
        return Ok((zero, bytes));
    }
    match var_int_read(bytes) {
        Ok((signed, count)) => Ok((signed, &bytes[count..])),
        Err(reason) => Err(reason),
    }
}

// The VarUInts at the front of these bytes, at most six, and the bytes after them.
fn number_fields(bytes: &[u8]) -> Result<(ArrayVec<u64, 6>, &[u8]), Reason>
    ensures read { IfOk result (λ r. (f : List (List ℕ))
        × (fields_cut 6 bytes.now ≡ Some (f, r.1.now)) × (r.0.items ≡ map var_uint f)) }
    ensures refused { IfErr result (λ e. (e ≡ Reason.BadVar) × (fields_cut 6 bytes.now ≡ None)) }
{
    let mut numbers = ArrayVec::new();
    let mut rest = bytes;
    while !rest.is_empty() && !numbers.is_full() {
        match var_uint_read(rest) {
            Ok((number, count)) => {
                numbers.push(number);
                rest = &rest[count..];
            }
            Err(reason) => return Err(reason),
        }
    }
    Ok((numbers, rest))
}

// The timestamp that an offset, the numbers after it, an exponent and a coefficient tell.
fn from_parts(
    offset: Signed,
    numbers: &[u64],
    exponent: Signed,
    coefficient: &[u8],
) -> Result<Timestamp, Reason>
    ensures { (o e : List ℕ) → Spells offset o → Spells exponent e
        → result ≡ timestamp_of_parts o numbers.now e coefficient.now }
{
    let digits = digits_after_point(exponent);
    match int_field_read(coefficient) {
        Some((negative, fraction)) if digits <= 38 => {
            if !is_fraction(negative, fraction, digits as u8) {
                return Err(Reason::BadTimestamp);
            }
            match in_utc(numbers, digits as u8, fraction) {
                Some(utc) => in_local_time(utc, offset),
                None => Err(Reason::BadTimestamp),
            }
        }
        _ => Err(Reason::Range),
    }
}

// The digits after the point that an exponent tells: none where it is not below zero.
fn digits_after_point(exponent: Signed) -> u64
    ensures { (e : List ℕ) → Spells exponent e → result ≡ spec.digits_after_point e }
{
    if exponent.negative {
        exponent.magnitude
    } else {
        0
    }
}

// Whether so many digits after the point can have this coefficient.
fn is_fraction(negative: bool, coefficient: u128, digits: u8) -> bool
    requires { digits ≤ 38 }
    ensures { result ≡ ((coefficient == 0) || (not negative && nat_lt coefficient (10 ^ digits))) }
{
    if coefficient == 0 {
        return true;
    }
    !negative && coefficient < power_of_ten(digits)
}

// 10 to this power.
fn power_of_ten(digits: u8) -> u128
    requires { digits ≤ 38 }
    ensures { result ≡ 10 ^ digits }
{
    if digits < 20 {
        return 10u64.pow(digits as u32) as u128;
    }
    10u128.pow(digits as u32)
}

// The timestamp in UTC that these numbers tell, if the calendar has it.
fn in_utc(numbers: &[u64], digits: u8, fraction: u128) -> Option<Timestamp>
    ensures { result ≡ option_and_then if_moment (utc_of_numbers numbers.now digits fraction) }
{
    match numbers {
        [year] => moment(Precision::Year, [*year, 1, 1, 0, 0, 0], 0),
        [year, month] => moment(Precision::Month, [*year, *month, 1, 0, 0, 0], 0),
        [year, month, day] => moment(Precision::Day, [*year, *month, *day, 0, 0, 0], 0),
        [year, month, day, hour, minute] => moment(
            Precision::Minute,
            [*year, *month, *day, *hour, *minute, 0],
            0,
        ),
        [year, month, day, hour, minute, second] => moment(
            to_digits(digits),
            [*year, *month, *day, *hour, *minute, *second],
            fraction,
        ),
        _ => None,
    }
}

// To the second, or to so many digits after its point.
fn to_digits(digits: u8) -> Precision
    ensures { result ≡ second_precision digits }
{
    if digits == 0 {
        Precision::Second
    } else {
        Precision::Fraction(digits)
    }
}

// The timestamp in UTC of this year, month, day, hour, minute and second, if the calendar has the
// date, in the years 1 to 9999, and the day has the time.
fn moment(precision: Precision, numbers: [u64; 6], fraction: u128) -> Option<Timestamp>
    ensures { (y m d h i s : ℕ) → numbers ≡ y ∷ m ∷ d ∷ h ∷ i ∷ s ∷ []
        → result ≡ if_moment (fields precision y m d h i s fraction) }
{
    let [year, month, day, hour, minute, second] = numbers;
    if !calendar_has(year, month, day) || hour > 23 || minute > 59 || second > 59 {
        return None;
    }
    Some(Timestamp {
        precision,
        year: year as u16,
        month: month as u8,
        day: day as u8,
        hour: hour as u8,
        minute: minute as u8,
        second: second as u8,
        fraction,
        offset: None,
    })
}

// Whether the calendar has this date, in the years 1 to 9999.
fn calendar_has(year: u64, month: u64, day: u64) -> bool
    ensures { IsTrue result ↔ ((1 ≤ year) × IsCivilDate (pos year) month day) }
{
    if year < 1 || year > 9999 || month > 12 || day > 31 {
        return false;
    }
    Date::new(year as i16, month as i8, day as i8).is_ok()
}

// The timestamp in local time that this offset gives one in UTC. A date has none.
fn in_local_time(utc: Timestamp, offset: Signed) -> Result<Timestamp, Reason>
    requires { IsMoment utc }
    ensures { (o : List ℕ) → Spells offset o → result ≡ spec.in_local_time o utc }
{
    if utc.precision.is_date() {
        return Ok(utc);
    }
    if offset.magnitude > 1439 {
        return Err(Reason::BadTimestamp);
    }
    let offset = minutes(offset);
    Timestamp { offset, ..utc }.to_local()
}

// The offset of so many minutes, or none where they are minus zero.
fn minutes(offset: Signed) -> Option<i16>
    requires { offset.magnitude ≤ 1439 }
    ensures minutes { (o : List ℕ) → Spells offset o → result ≡ offset_in o }
    ensures bound { IsOffset result }
{
    if !offset.negative {
        return Some(offset.magnitude as i16);
    }
    if offset.magnitude == 0 {
        return None;
    }
    Some(-(offset.magnitude as i16))
}

/// The shortest body of a timestamp: its offset, and its fields in UTC (binary encoding,
/// "6: timestamp"). It has each digit of the fraction.
pub fn timestamp_to_bytes(timestamp: Timestamp) -> ArrayVec<u8, 26>
    requires { IsTimestamp timestamp }
    ensures body { result.items ≡ timestamp_body timestamp }
    ensures octets { All (λ octet. octet < 256) result.items }
{
    let utc = timestamp.to_utc().unwrap();
    let body = whole_body(utc);
    match utc.precision {
        Precision::Fraction(digits) => with_fraction(body, digits, utc.fraction),
        _ => body,
    }
}

// The body of a timestamp in UTC without its fraction.
fn whole_body(utc: Timestamp) -> ArrayVec<u8, 26>
    requires moment { IsMoment utc }
    requires offset { IsOffset utc.offset }
    ensures body { result.items ≡ whole_octets utc }
    ensures room { length result.items ≤ 9 }
{
    let mut body = ArrayVec::new();
    append(&mut body, offset_write(utc.offset).as_slice());
    append(&mut body, var_uint_write(utc.year as u64).as_slice());
    let parts = [utc.month, utc.day, utc.hour, utc.minute, utc.second];
    for part in &parts[..utc.precision.parts()] {
        // Each is below 128, so its VarUInt has one octet.
        body.push(*part + 128);
    }
    body
}

// The offset's VarInt: minus zero where it is unknown.
fn offset_write(offset: Option<i16>) -> ArrayVec<u8, 9>
    requires { IsOffset offset }
    ensures { result.items ≡ offset_octets offset }
{
    match offset {
        Some(minutes) => var_int_write(Signed {
            negative: minutes < 0,
            magnitude: minutes.unsigned_abs() as u64,
        }),
        None => var_int_write(Signed {
            negative: true,
            magnitude: 0,
        }),
    }
}

// A body with a fraction of so many digits after it: the exponent, and the coefficient.
fn with_fraction(mut body: ArrayVec<u8, 26>, digits: u8, fraction: u128) -> ArrayVec<u8, 26>
    requires room { length body.items ≤ 9 }
    requires digits { digits ≤ 38 }
    requires fraction { fraction < 10 ^ digits }
    ensures { result.items ≡ body.items
        ++ (var_int_octets true digits ++ coefficient_octets false fraction) }
{
    let exponent = Signed {
        negative: true,
        magnitude: digits as u64,
    };
    append(&mut body, var_int_write(exponent).as_slice());
    append(&mut body, coefficient_write(false, fraction).as_slice());
    body
}

// Writes octets after a body.
fn append(body: &mut ArrayVec<u8, 26>, octets: &[u8])
    requires { length body.old.items + length octets.now ≤ 26 }
    ensures { body.new.items ≡ body.old.items ++ octets.now }
{
    body.try_extend_from_slice(octets).unwrap();
}
