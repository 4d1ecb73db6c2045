//! The change type that puts the rows of a file of separated fields into a table.
#![tactic(auto)]

mod inserts;
mod load_data;
mod load_keys;
mod records;
mod rows;
mod written;

pub use load_data::LoadData;
pub use load_keys::LoadKeys;
