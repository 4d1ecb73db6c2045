//! How a command ends: its status, and what it writes to its output and to the log.
#![tactic(auto)]

mod done;
mod lines;
mod log;
mod soak_log;
mod status;
mod told;
mod writing;

pub use done::Done;
pub use lines::has_moment;
pub use soak_log::{SOAK_PATH, soak_changelog, table_name};
pub use status::Status;
pub use writing::tell;
