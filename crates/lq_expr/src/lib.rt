//! Expressions over names: the contexts of a changeset and the filters by label.
#![tactic(auto)]

mod expr;
pub mod laws;
mod names;
mod options;
mod reading;
mod words;

pub use expr::{Expr, ExprFault};
pub use names::parse_names;
pub use options::Options;
pub use reading::parse;
