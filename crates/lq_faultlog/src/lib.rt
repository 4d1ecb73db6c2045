//! The lines of the log for the faults of a changelog's loading.
#![tactic(auto)]

mod load_fault;

pub use load_fault::append_load_fault;
