//! What several crates of tests share: an allocator that refuses, and the fields of a row.
//!
//! It asserts nothing, since only a test may end the process.
#![tactic(auto)]

pub mod fields;
pub mod refusing;
