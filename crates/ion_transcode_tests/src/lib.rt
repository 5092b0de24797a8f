//! Tests of `ion_transcode` through its public calls: what runs write of worked streams, in whatever
//! pieces they come, and how they end.
//!
//! A crate with tests is proved once without and once with them, so these stand in a crate of their
//! own, over the library that they test. It has nothing else.
#![tactic(auto)]

#[cfg(test)]
mod catalogs;
#[cfg(test)]
mod devices;
#[cfg(test)]
mod failing_devices;
#[cfg(test)]
mod floats;
#[cfg(test)]
mod growth_rows;
#[cfg(test)]
mod growths;
#[cfg(test)]
mod heaps;
#[cfg(test)]
mod laws;
#[cfg(test)]
mod parts;
#[cfg(test)]
mod pretty;
#[cfg(test)]
mod round_trip;
#[cfg(test)]
mod rows;
#[cfg(test)]
mod runs;
#[cfg(test)]
mod same;
#[cfg(test)]
mod tables;
#[cfg(test)]
mod to_binary;
#[cfg(test)]
mod vectors;
