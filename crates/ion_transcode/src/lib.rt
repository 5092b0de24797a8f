//! A stream of Amazon Ion 1.0, read in its form and written as asked, or only checked.
//!
//! `run` reads text and binary and writes text as binary, both as canonical or pretty text, or nothing,
//! and `bound` is the most that it may hold. The laws say that each stream has one verdict, and that
//! what is written of its values is read again as these values.
#![tactic(auto)]

mod copy_items;
mod copy_stream;
pub mod in_parts;
pub mod laws;
pub mod load;
mod nothing;
pub mod run;
pub mod to;
mod write;
