//! Counted growth, faults, limits, and windows on input and output.
//!
//! `Meter` has the one allocator and counts what is held; `Buf`, `Stack` and `Table` are all that
//! grows. `Input` and `Output` are devices, which `FromRead` and `ToWrite` make of std's readers
//! and writers; `Source` and `Sink` are windows of 4,096 bytes on them. `Limits` and `Fault`, with
//! the 23 reasons of a refusal, are those of the whole workspace.
#![tactic(auto)]

pub mod buf;
mod copy;
pub mod device;
pub mod fault;
pub mod limits;
pub mod meter;
pub mod profile;
mod roomy;
pub mod sink;
pub mod source;
pub mod stack;
pub mod stream;
pub mod table;
