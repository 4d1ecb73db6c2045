//! The values, names, columns, constraints, tests and queries of a database, written as bytes and read
//! back.
#![tactic(auto)]

mod coded;
mod kinds;
mod levels;
mod numbers;
mod queries;
mod query;
mod tables;
mod texts;
mod values;

pub use coded::{Coded, append_each, append_list, read_each};
pub use queries::append_names;
