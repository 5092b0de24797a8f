//! Tests of `ion_binary` through its public calls: what is read of worked streams, in whatever
//! pieces they come, how reading ends, and what is written; and, with the readers and writers of text,
//! which items go from a window to a writer.
//!
//! A crate with tests is proved once without and once with them, so these stand in a crate of their
//! own, over the library that they test. It has nothing else.
#![tactic(auto)]

#[cfg(test)]
mod containers;
#[cfg(test)]
mod cut_short;
#[cfg(test)]
mod declarations;
#[cfg(test)]
mod drawn;
#[cfg(test)]
mod endings;
#[cfg(test)]
mod ends;
#[cfg(test)]
mod fast_path;
#[cfg(test)]
mod hex;
#[cfg(test)]
mod imports;
#[cfg(test)]
mod laws;
#[cfg(test)]
mod limits;
#[cfg(test)]
mod long;
#[cfg(test)]
mod new_texts;
#[cfg(test)]
mod one_declaration;
#[cfg(test)]
mod pieces;
#[cfg(test)]
mod plainly;
#[cfg(test)]
mod reading;
#[cfg(test)]
mod same;
#[cfg(test)]
mod scalars;
#[cfg(test)]
mod streams;
#[cfg(test)]
mod tables;
#[cfg(test)]
mod telling;
#[cfg(test)]
mod user_endings;
#[cfg(test)]
mod wrappers;
#[cfg(test)]
mod written;
#[cfg(test)]
mod written_again;
#[cfg(test)]
mod written_items;
#[cfg(test)]
mod written_rows;
