//! undo-unrecorded as a command on a store: how it ends, and what it writes.
#![tactic(auto)]

mod command;

pub use command::undo;
