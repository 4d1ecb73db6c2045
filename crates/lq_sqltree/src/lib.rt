//! Formatted SQL as the tree that changesets are read from.
#![tactic(auto)]

mod attributes;
mod change_set;
mod entries;
mod fault;
pub mod laws;
mod reading;

pub use fault::SqlTreeFault;
pub use reading::read_sql_tree;
