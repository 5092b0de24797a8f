//! The text encoding of Amazon Ion 1.0: its grammar, its reading, and `TextReader`, which reads a
//! text one item at a time. The laws tie the reading to the grammar.
#![tactic(auto)]

mod blank;
mod comments;
mod expected;
mod feed;
mod first;
mod gather;
pub mod laws;
mod lob;
mod number;
mod piece;
mod quick;
mod quick_float;
mod quoted;
pub mod reader;
mod run;
mod scanned;
mod slice;
mod text;
mod token;
mod waiting;
mod word;
