//! The top call: one command, from its words to its status.
#![tactic(auto)]

mod top;
mod work;

pub use lq_cli::database_path;
pub use lq_tell::Status;
pub use top::{Ended, run};
