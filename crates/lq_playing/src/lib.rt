//! Any command as a player: its checks at its first step, then its one call, or its turns, one call a step.
#![tactic(auto)]

mod calls;
mod came;
mod checks;
mod hindering;
mod playing;

pub use calls::{answer_at, call_once, fault_of, judge};
pub use came::{Came, Report};
pub use checks::{Checks, OneCall, Verdict};
pub use hindering::{after_fault, hindrance};
pub use playing::Playing;
