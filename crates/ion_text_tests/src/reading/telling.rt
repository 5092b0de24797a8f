//! Items in words, field by field.

use ion_meter::fault::Fault;
use ion_value::ion_type::{IonType, Kind};
use ion_value::item::{Head, Item, Sym, SymAt};
use ion_value::names::NoNames;
use ion_value::timestamp::{Precision, Timestamp};
use std::alloc::AllocError;
use std::fmt::Write;

fn type_name(kind: IonType) -> &'static str {
    match kind {
        IonType::Null => "null",
        IonType::Bool => "bool",
        IonType::Int => "int",
        IonType::Float => "float",
        IonType::Decimal => "decimal",
        IonType::Timestamp => "timestamp",
        IonType::Symbol => "symbol",
        IonType::String => "string",
        IonType::Clob => "clob",
        IonType::Blob => "blob",
        IonType::List => "list",
        IonType::Sexp => "sexp",
        IonType::Struct => "struct",
    }
}

fn sign(negative: bool) -> &'static str {
    if negative { "-" } else { "" }
}

// A symbol's id, or its text in quotes, each byte as a letter of its own; and its place.
fn tell_symbol(words: &mut String, at: SymAt<'_>) -> Result<(), AllocError> {
    let place = at.place;
    match at.sym {
        Sym::Id(id) => write!(words, "{id}@{place}"),
        Sym::Text(text) => {
            words.push('\'')?;
            for octet in text {
                words.push(*octet as char)?;
            }
            write!(words, "'@{place}")
        }
    }
}

fn tell_octets(words: &mut String, name: &str, octets: &[u8]) -> Result<(), AllocError> {
    words.push_str(name)?;
    for octet in octets {
        write!(words, "{:02x}", *octet)?;
    }
    Ok(())
}

// The precision, the fields from the year to the fraction's digits, and the offset.
fn tell_timestamp(words: &mut String, moment: Timestamp) -> Result<(), AllocError> {
    words.push_str("timestamp ")?;
    match moment.precision {
        Precision::Year => words.push_str("year")?,
        Precision::Month => words.push_str("month")?,
        Precision::Day => words.push_str("day")?,
        Precision::Minute => words.push_str("minute")?,
        Precision::Second => words.push_str("second")?,
        Precision::Fraction(digits) => write!(words, "fraction({digits})")?,
    }
    let year = moment.year;
    let month = moment.month;
    let day = moment.day;
    let hour = moment.hour;
    let minute = moment.minute;
    let second = moment.second;
    let fraction = moment.fraction;
    write!(
        words,
        " {year} {month} {day} {hour} {minute} {second} {fraction} "
    )?;
    match moment.offset {
        Some(offset) => write!(words, "{offset}"),
        None => words.push_str("none"),
    }
}

fn tell_head(words: &mut String, head: Head<'_>) -> Result<(), AllocError> {
    match head {
        Head::Null(kind) => {
            let name = type_name(kind);
            write!(words, "null.{name}")
        }
        Head::Bool(truth) => write!(words, "{truth}"),
        Head::Int(int) => {
            let sign = sign(int.negative);
            let magnitude = int.magnitude;
            write!(words, "int {sign}{magnitude}")
        }
        Head::Float(float) => {
            let bits = float.bits();
            write!(words, "float {bits:x}")
        }
        Head::Decimal(decimal) => {
            let sign = sign(decimal.negative);
            let coefficient = decimal.coefficient;
            let exponent = decimal.exponent;
            write!(words, "decimal {sign}{coefficient}d{exponent}")
        }
        Head::Timestamp(moment) => tell_timestamp(words, moment),
        Head::Symbol(at) => {
            words.push_str("symbol ")?;
            tell_symbol(words, at)
        }
        Head::String(text) => tell_octets(words, "string ", text),
        Head::Clob(octets) => tell_octets(words, "clob ", octets),
        Head::Blob(octets) => tell_octets(words, "blob ", octets),
        Head::Begin(Kind::List) => words.push_str("begin list"),
        Head::Begin(Kind::Sexp) => words.push_str("begin sexp"),
        Head::Begin(Kind::Struct) => words.push_str("begin struct"),
        Head::End => words.push_str("end"),
        Head::Marker => words.push_str("marker"),
    }
}

/// Adds an item's words: its place and that of its top-level value, its field's id or text and place
/// after which is a colon, those of each annotation after which are two, and its head.
///
/// A number is told by its sign and digits, a decimal's exponent after a `d`; octets in
/// hexadecimal.
pub fn tell_item(words: &mut String, item: &Item<'_, NoNames>) -> Result<(), AllocError> {
    let place = item.place();
    let top = item.top();
    write!(words, "{place}/{top} ")?;
    if let Some(field) = item.field() {
        tell_symbol(words, field)?;
        words.push_str(": ")?;
    }
    let annotations = item.annotations();
    for index in 0..annotations.len() {
        if let Some(annotation) = annotations.get(index) {
            tell_symbol(words, annotation)?;
            words.push_str(":: ")?;
        }
    }
    tell_head(words, item.head())?;
    words.push_str("; ")
}

/// Adds the words of an ending: the reason and the place of a refusal, or what fails the run.
pub fn tell_ending(words: &mut String, ending: Result<bool, Fault>) -> Result<(), AllocError> {
    match ending {
        Ok(_) => words.push_str("over"),
        Err(Fault::Refused(reason, place)) => {
            let name = reason.name();
            write!(words, "{name} at {place}")
        }
        Err(Fault::Memory) => words.push_str("no memory"),
        Err(Fault::ReadFault) => words.push_str("read fault"),
        Err(Fault::WriteFault) => words.push_str("write fault"),
        Err(Fault::InputLimit) => words.push_str("input limit"),
    }
}
