//! The first turn of an update that a rollback could not take back.
#![tactic(auto)]

mod bound;

pub use bound::first_bound;
