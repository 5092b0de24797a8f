//! The text of Amazon Ion 1.0 by a layout: its definition, and writers of items as they come. That
//! of canonical text is `TextWriter`. The laws tie the text of items to that of whole values.
#![tactic(auto)]

mod bare;
mod between;
mod blob;
mod front;
mod item;
pub mod laws;
pub mod layout;
mod put;
mod quote;
mod scalar;
pub mod writer;
