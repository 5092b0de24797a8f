//! The binary encoding of Amazon Ion 1.0: its grammar, its reading, and `BinReader`, which reads a
//! stream one item at a time. The laws tie the reading to the grammar.
//!
//! `BinWriter` writes the canonical form, one item at a time. The definition of that form and its
//! laws are here too.
#![tactic(auto)]

mod body;
mod declaration;
mod descriptor;
mod few;
mod front;
mod header;
mod headers;
mod held_octets;
pub mod laws;
mod noted;
mod open_value;
mod opening;
mod put;
pub mod reader;
mod scalar;
mod scan;
mod value;
mod waiting;
mod window;
mod wrapper;
pub mod writer;
