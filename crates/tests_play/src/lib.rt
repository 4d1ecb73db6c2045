//! What tests of databases play on a disk in memory: scripts of calls, and what is told of them.
#![tactic(auto)]

mod calls;
mod opened;
mod script;

pub use opened::{acted, entries, show_refusal};
pub use script::{play, show_fault};
