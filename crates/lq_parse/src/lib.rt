//! SQL text of both dialects read as tests and queries.
#![tactic(auto)]

pub mod cursor;
pub mod laws;
pub mod lexing;
pub mod list;
mod number;
pub mod parse;
pub mod part;
pub mod query;
mod quoted;
mod spelling;
pub mod test;

pub use parse::{parse_query, parse_test};
