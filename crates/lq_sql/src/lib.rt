//! SQL text of both profiles.
#![tactic(auto)]

mod alteration;
mod column;
mod constraint;
mod literal;
mod name;
mod object;
mod printer;
mod query;
mod rows;
mod spell;
mod statement;
mod table;
mod test;

pub use printer::{print, print_query, print_test};
