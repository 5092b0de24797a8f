//! What each call on a table leaves, and what it costs.

mod catalogs;
mod growths;
mod laws;
mod outputs;
mod shared_tables;
mod system_table;
