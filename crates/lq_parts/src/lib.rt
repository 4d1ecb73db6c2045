//! The tables, views and sequences of a catalogue, with what is needed to undo their changes.
#![tactic(auto)]

mod entries;
mod object;
mod part;
mod parts;
mod shelf;
mod slot;
mod step;
mod tables;
mod taken;
mod targets;

pub use lq_rows::RunFault;
pub use object::{Sequence, View};
pub use parts::Parts;
