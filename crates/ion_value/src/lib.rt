//! The values of Amazon Ion 1.0, their items, and the traits of what reads and writes items.
//!
//! Ints, decimals, timestamps and the variable-length fields of the binary encoding are read from
//! octets and written as octets; ints, decimals and timestamps also from text and as text. An
//! `Item` is a field, annotations and a head, lent; `Names` gives symbol ids their texts.
//! `RawReader` gives items and `ValueWriter` takes them, by laws that all crates above rest on.
//! Nothing here takes memory.
#![tactic(auto)]

pub mod decimal;
mod decimal_text;
mod digit_text;
mod digits;
pub mod float;
pub mod int;
mod int_field;
mod int_text;
pub mod ion_type;
pub mod item;
pub mod laws;
pub mod name;
pub mod names;
pub mod plain_item;
pub mod quoting;
pub mod reader;
pub mod timestamp;
mod timestamp_text;
pub mod var;
pub mod writer;
