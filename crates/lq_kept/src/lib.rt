//! How many rows stay in a rollback to a target, and how the others are taken back.
#![tactic(auto)]

mod kept_rows;
mod undoing;
mod way;

pub use kept_rows::{NoTag, suffix};
pub use undoing::{UndoesRows, undo_all};
pub use way::{TakenBack, way_of};
