//! What the statements of a table's columns do.
#![tactic(auto)]

mod asked;
mod change;
mod changing;
mod columns;
mod needs;
mod rows;

pub use changing::{drop_default, drop_not_null, modify, set_default, set_not_null};
pub use columns::{add_column, drop_column};
