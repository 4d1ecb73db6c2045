//! A database as bytes: the state of an engine, written and read.
#![tactic(auto)]

mod again;
mod objects;
mod reading;
mod snap;
mod tables;
mod writing;

pub use again::reopened;
pub use reading::read;
pub use snap::Snap;
pub use writing::write;
