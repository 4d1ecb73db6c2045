//! An update that is rehearsed: run, taken back, and run again. Jobs of a store, this one among them.
#![tactic(auto)]

mod bound;
mod copies;
mod job;
mod rehearsal;
mod told;

pub use job::run_job;
pub use rehearsal::update_testing_rollback;
