//! Going back by single changes, for all that keeps what it was before each of them.
#![tactic(auto)]

mod numbered;
mod undo;

pub use numbered::Numbered;
pub use undo::{Undo, undo_to};
