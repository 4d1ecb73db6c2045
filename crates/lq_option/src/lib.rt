//! The options of a command line, as `clap` takes them.
#![tactic(auto)]

mod rules;

pub use rules::{define, option};
