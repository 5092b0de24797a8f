//! Octets as the tables write them.

use crate::same::holds;
use ion_test_support::fields::Fields;
use std::alloc::Global;
use std::process::Abort;

/// A version marker.
pub const MARKER: &[u8] = b"\xE0\x01\x00\xEA";

/// The octets of a text after some others: two hexadecimal digits each, with spaces between them.
pub fn octets(rt: &impl Abort, alloc: Global, front: &[u8], text: &str) -> Vec<u8> {
    let mut octets = Vec::new(alloc);
    add(rt, &mut octets, front);
    add_digits(rt, &mut octets, text);
    octets
}

/// The octets of a row's first field after some others.
pub fn row_octets(rt: &impl Abort, alloc: Global, front: &[u8], row: &str) -> Vec<u8> {
    let mut fields = Fields::of(row);
    let text = fields.text();
    holds(rt, fields.is_right());
    octets(rt, alloc, front, text)
}

/// Adds the octets of a text.
pub fn add_digits(rt: &impl Abort, octets: &mut Vec<u8>, text: &str) {
    for digits in text.split_whitespace() {
        add(rt, octets, &[octet_of(rt, digits)]);
    }
}

// The octet of two digits.
fn octet_of(rt: &impl Abort, digits: &str) -> u8 {
    u8::from_str_radix(digits, 16).ok().expect(rt, digits)
}

/// Adds octets.
pub fn add(rt: &impl Abort, octets: &mut Vec<u8>, more: &[u8]) {
    holds(rt, octets.extend_from_slice(more).is_ok());
}
