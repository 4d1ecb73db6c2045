//! The calls of a turn up to its row's, laid down the last first.
#![tactic(auto)]

mod marking;
mod turn;

pub use marking::Marking;
pub use turn::{push, push_parts};
