//! Tables of tests: each line of a table is a row, a kind with what a call is given and what must
//! come of it, with tabs between them.
#![tactic(auto)]

mod fields;
mod row;

pub use fields::{bytes, count, text};
pub use row::{Kinds, no_kind, told};
