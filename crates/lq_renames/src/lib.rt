//! What the statements that rename a table or a column do.
#![tactic(auto)]

mod aims;
mod asked;
mod column;
mod lists;
mod names;
mod shapes;
mod table;

pub use column::rename_column;
pub use table::rename_table;
