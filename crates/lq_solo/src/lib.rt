//! A command of any kind that is run by itself.
#![tactic(auto)]

mod laws;
mod solo;

pub use laws::{scripts_close, works_answer_own};
pub use solo::run_by_itself;
