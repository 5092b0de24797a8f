//! Items in words, field by field.

use ion_value::ion_type::{IonType, Kind};
use ion_value::item::{Head, Item, Sym, SymAt};
use ion_value::names::Names;
use ion_value::timestamp::{Precision, Timestamp};
use std::alloc::AllocError;
use std::fmt::Write;

fn type_name(kind: IonType) -> &'static str {
    match kind {
        IonType::Null => "null",
        IonType::Bool => "bool",
        IonType::Int => "int",
        IonType::Float => "float",
        IonType::Decimal => "decimal",
        IonType::Timestamp => "timestamp",
        IonType::Symbol => "symbol",
        IonType::String => "string",
        IonType::Clob => "clob",
        IonType::Blob => "blob",
        IonType::List => "list",
        IonType::Sexp => "sexp",
        IonType::Struct => "struct",
    }
}

fn kind_name(kind: Kind) -> &'static str {
    match kind {
        Kind::List => "list",
        Kind::Sexp => "sexp",
        Kind::Struct => "struct",
    }
}

fn precision_name(precision: Precision) -> &'static str {
    match precision {
        Precision::Year => "year",
        Precision::Month => "month",
        Precision::Day => "day",
        Precision::Minute => "minute",
        Precision::Second => "second",
        Precision::Fraction(_) => "fraction",
    }
}

// A symbol's id or text, and its place.
fn tell_symbol(words: &mut String, at: SymAt<'_>, from: u64) -> Result<(), AllocError> {
    let place = at.place.saturating_sub(from);
    match at.sym {
        Sym::Id(id) => write!(words, "{id}@{place}"),
        Sym::Text(text) => {
            let Ok(text) = str::from_utf8(text) else {
                return words.push_str("no text");
            };
            write!(words, "'{text}'@{place}")
        }
    }
}

fn tell_octets(words: &mut String, name: &str, octets: &[u8]) -> Result<(), AllocError> {
    words.push_str(name)?;
    for octet in octets {
        write!(words, " {:02X}", *octet)?;
    }
    Ok(())
}

// A name, a sign and digits.
fn tell_number(
    words: &mut String,
    name: &str,
    negative: bool,
    digits: u128,
) -> Result<(), AllocError> {
    let sign = if negative { "-" } else { "" };
    write!(words, "{name} {sign}{digits}")
}

// The precision, the fields from the year to the fraction's digits, and the offset.
fn tell_timestamp(words: &mut String, moment: Timestamp) -> Result<(), AllocError> {
    let name = precision_name(moment.precision);
    write!(words, "timestamp {name}")?;
    if let Precision::Fraction(digits) = moment.precision {
        write!(words, "({digits})")?;
    }
    let year = moment.year;
    let month = moment.month;
    let day = moment.day;
    let hour = moment.hour;
    let minute = moment.minute;
    let second = moment.second;
    let fraction = moment.fraction;
    write!(
        words,
        " {year} {month} {day} {hour} {minute} {second} {fraction} "
    )?;
    match moment.offset {
        Some(offset) => write!(words, "{offset}"),
        None => words.push_str("none"),
    }
}

fn tell_head(words: &mut String, head: Head<'_>, from: u64) -> Result<(), AllocError> {
    match head {
        Head::Null(kind) => {
            let name = type_name(kind);
            write!(words, "null.{name}")
        }
        Head::Bool(truth) => write!(words, "{truth}"),
        Head::Int(int) => tell_number(words, "int", int.negative, int.magnitude),
        Head::Float(float) => {
            let bits = float.bits();
            write!(words, "float {bits}")
        }
        Head::Decimal(decimal) => {
            tell_number(words, "decimal", decimal.negative, decimal.coefficient)?;
            let exponent = decimal.exponent;
            write!(words, "d{exponent}")
        }
        Head::Timestamp(moment) => tell_timestamp(words, moment),
        Head::Symbol(at) => {
            words.push_str("symbol ")?;
            tell_symbol(words, at, from)
        }
        Head::String(text) => tell_octets(words, "string", text),
        Head::Clob(octets) => tell_octets(words, "clob", octets),
        Head::Blob(octets) => tell_octets(words, "blob", octets),
        Head::Begin(kind) => {
            let name = kind_name(kind);
            write!(words, "begin {name}")
        }
        Head::End => words.push_str("end"),
        Head::Marker => words.push_str("marker"),
    }
}

/// Adds an item's words, with "; " after them: its place and that of its top-level value, its
/// field's id or text and place after which is a colon, those of each annotation after which are
/// two, and its head.
///
/// A number is told by its sign and digits, a decimal's exponent after a `d`; octets in
/// hexadecimal. Places are told from this one, and those before it as 0.
pub fn tell_item<N: Names>(
    words: &mut String,
    item: &Item<'_, N>,
    from: u64,
) -> Result<(), AllocError> {
    let place = item.place().saturating_sub(from);
    let top = item.top().saturating_sub(from);
    write!(words, "{place}/{top} ")?;
    if let Some(field) = item.field() {
        tell_symbol(words, field, from)?;
        words.push_str(": ")?;
    }
    let annotations = item.annotations();
    for index in 0..annotations.len() {
        if let Some(annotation) = annotations.get(index) {
            tell_symbol(words, annotation, from)?;
            words.push_str(":: ")?;
        }
    }
    tell_head(words, item.head(), from)?;
    words.push_str("; ")
}
