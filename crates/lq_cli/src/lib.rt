//! The words of a command line, and what they ask for.
#![tactic(auto)]

mod building;
mod chosen;
mod fault;
mod form;
mod job;
pub mod laws;
mod line;
mod reading;
mod target;
mod values;
mod verb;

pub use fault::WordsFault;
pub use line::{Job, Line};
pub use reading::{database_path, read_words};
