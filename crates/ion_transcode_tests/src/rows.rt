//! What the fields of a row are: bytes, checksums and verdicts.

use ion_meter::fault::{Fault, Reason};
use ion_test_support::fields::Fields;
use ion_transcode::to::{Form, Summary};
use percent_encoding::percent_decode;
use std::alloc::Global;
use std::process::Abort;

/// How many values a stream has, or why it is refused.
pub type Verdict = Result<u64, Fault>;

/// The bytes of the next field, in which `%` and two hexadecimal digits are a byte.
pub fn next_bytes(rt: &impl Abort, alloc: Global, fields: &mut Fields) -> Vec<u8> {
    let mut bytes = Vec::new(alloc);
    let field = fields.text().as_bytes();
    assert!(rt; percent_decode(field).append_to(&mut bytes).is_ok());
    bytes
}

/// The checksum in the next field, in hexadecimal.
pub fn next_checksum(rt: &impl Abort, fields: &mut Fields) -> u64 {
    match u64::from_str_radix(fields.text(), 16) {
        Ok(sum) => sum,
        Err(_) => panic!(rt; "no checksum"),
    }
}

/// The verdict in the next field: how many values, or a fault.
pub fn next_verdict(rt: &impl Abort, fields: &mut Fields) -> Verdict {
    let words = fields.text();
    match words.split_once(' ') {
        Some((name, place)) => Err(Fault::Refused(reason_of(rt, name), number_of(rt, place))),
        None if words == "InputLimit" => Err(Fault::InputLimit),
        None => Ok(number_of(rt, words)),
    }
}

/// A number in digits.
fn number_of(rt: &impl Abort, digits: &str) -> u64 {
    match digits.parse::<u64>() {
        Ok(number) => number,
        Err(_) => panic!(rt; "no number"),
    }
}

/// All reasons.
const REASONS: [Reason; 23] = [
    Reason::Truncated,
    Reason::BadDescriptor,
    Reason::BadVar,
    Reason::Overrun,
    Reason::BadVersion,
    Reason::BadAnnotation,
    Reason::BadNumber,
    Reason::BadTimestamp,
    Reason::Range,
    Reason::BadText,
    Reason::Float,
    Reason::BadToken,
    Reason::BadLob,
    Reason::DepthLimit,
    Reason::ScalarLimit,
    Reason::AnnotationLimit,
    Reason::BadSymbol,
    Reason::UnknownSymbol,
    Reason::BadTable,
    Reason::SymbolLimit,
    Reason::ValueLimit,
    Reason::SameForm,
    Reason::CatalogEntry,
];

/// The reason of a name.
fn reason_of(rt: &impl Abort, name: &str) -> Reason {
    for reason in REASONS {
        if reason.name() == name {
            return reason;
        }
    }
    panic!(rt; "no reason")
}

/// The form of a stream.
pub fn form_of(input: &[u8]) -> Form {
    if input.starts_with(b"\xE0") {
        Form::Binary
    } else {
        Form::Text
    }
}

/// What a run over a stream answers.
pub fn answer_of(input: &[u8], verdict: Verdict) -> Result<Summary, Fault> {
    match verdict {
        Ok(values) => Ok(Summary {
            form: form_of(input),
            values,
        }),
        Err(fault) => Err(fault),
    }
}
