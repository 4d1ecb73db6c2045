//! What takes several things back, the last one first.
#![tactic(auto)]

mod inverting;
mod undoing;

pub use inverting::{Inverts, inverses};
pub use undoing::{TakesBack, push_undoing};
