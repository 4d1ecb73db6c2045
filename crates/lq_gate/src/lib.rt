//! The gate before each entry of a journal: an entry counts once the gate before it is open.
#![tactic(auto)]

mod reading;
mod writing;

pub use reading::behind_gate;
pub use writing::{Ending, write_entry, write_synced};
