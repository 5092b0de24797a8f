//! Tests of `ion_text_in` and `ion_text_out` through their public calls.
//!
//! A crate with tests is proved once without and once with them, so these stand in a crate of their
//! own, over the libraries that they test. It has nothing else.
#![tactic(auto)]

#[cfg(test)]
mod reading;
#[cfg(test)]
mod writing;
