//! The only row of a table that a test takes, found by its first value.
#![tactic(auto)]

mod only;

pub use only::{front_of, only_taken};
