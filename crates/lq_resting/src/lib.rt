//! Whether another call of a command is to come.
#![tactic(auto)]

mod asking;
mod resting;

pub use asking::asks_open;
pub use resting::{last_fault, lock_stands};
