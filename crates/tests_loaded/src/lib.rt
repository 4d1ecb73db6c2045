//! What tests of changelogs load from files in memory, and what is told of that.
#![tactic(auto)]

mod given;
mod loaded;
mod shown;

pub use given::{File, Held, held_of, hold};
pub use loaded::{sums_of, told, told_by};
