//! Numbers, timestamps and items.

mod decimal;
mod int;
mod item;
mod laws;
mod name;
mod timestamp;
mod var;
