//! What the statements of tables do.
#![tactic(auto)]

mod aims;
mod clashes;
mod creating;
mod dropping;
mod naming;
mod needs;

pub use creating::create_table;
pub use dropping::drop_table;
pub use lq_shapes::NewTable;
