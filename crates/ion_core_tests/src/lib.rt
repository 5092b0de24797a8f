//! Tests of `ion_meter`, `ion_float`, `ion_value` and `ion_symbols` through their public calls.
//!
//! A crate with tests is proved once without and once with them, so these stand in a crate of their
//! own, over the libraries that they test. It has nothing else.
#![tactic(auto)]

#[cfg(test)]
mod float;
#[cfg(test)]
mod float_forms;
#[cfg(test)]
mod float_laws;
#[cfg(test)]
mod meter;
#[cfg(test)]
mod same;
#[cfg(test)]
mod symbols;
#[cfg(test)]
mod value;
