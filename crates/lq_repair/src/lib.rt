//! The calls that take back the part of a changeset that a stop left without a row.
#![tactic(auto)]

mod counting;
mod laying;
mod order;

pub use counting::standing;
pub use laying::{Unrecorded, back_hand};
pub use order::next_back;
