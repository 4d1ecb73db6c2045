//! From the entries of a journal to an engine that holds what they stand for.
#![tactic(auto)]

mod loading;
mod twins;

pub use loading::{Raised, raise};
