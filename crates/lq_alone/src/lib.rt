//! A command that takes its steps by itself until it answers.
#![tactic(auto)]

mod laws;
mod stepping;

pub use laws::{
    one_ends, one_frees, one_is_full, one_leaves, one_rests, one_stands, one_steps, one_stops,
};
pub use stepping::{alone, run_alone};
