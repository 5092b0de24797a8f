//! Symbol tables of Amazon Ion 1.0.
//!
//! `SharedTable` and `Catalog` are shared symbol tables; `Symbols` is the symbol table at a place
//! of a stream. `SymbolBuffer` reads one declaration of a local symbol table, and `UserReader` the
//! user values of whatever a `RawReader` reads, with their symbols resolved. `OutSymbols` has the
//! ids of the texts of an output; it is for a writer of binary.
#![tactic(auto)]

pub mod buffer;
pub mod catalog;
pub mod catalog_builder;
mod checks;
mod entry_view;
mod hash;
mod item_view;
mod known_text;
pub mod laws;
mod lookup;
mod ordered;
mod out_texts;
pub mod output;
mod ranks;
mod same;
pub mod search;
pub mod shared;
mod slots;
pub mod symbols;
mod system;
mod texts;
pub mod user;
