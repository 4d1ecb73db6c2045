//! undo-unrecorded on a store: its checks, and its calls, which take back the part of a changeset that
//! a stop left without a row.
#![tactic(auto)]

mod all;
pub mod laws;
mod outcome;
mod part;
mod repairing;
mod taking_back;
mod undoing;

pub use outcome::{RepairFault, Repaired};
pub use undoing::undo_unrecorded;
