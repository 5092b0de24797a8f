//! Floats of Amazon Ion 1.0: a double, its text and its octets.
//!
//! A float is read from text and from octets, and written with the fewest digits that read as it and
//! as its fewest octets. Nothing here takes memory.
#![tactic(auto)]

mod bounds;
mod exact;
mod guess;
pub mod laws;
pub mod octets;
pub mod shortest;
pub mod text;
mod text_reading;
