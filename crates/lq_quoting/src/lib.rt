//! Names and strings of SQL as they stand in quotes: what is doubled there.
#![tactic(auto)]

mod quoting;

pub use quoting::{Twice, push_doubled};
