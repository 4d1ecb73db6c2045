//! A command's calls from its first to its last.
#![tactic(auto)]

mod breaking;
mod command;
mod running;

pub use command::run_command;
pub use running::run_on;
