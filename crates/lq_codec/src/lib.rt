//! The bytes of a database: how each part of it is written; and the numbers in them, in code.
#![tactic(auto)]

mod whole;

pub use whole::{append_number, count, number};
