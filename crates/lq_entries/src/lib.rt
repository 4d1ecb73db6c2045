//! The entries of a journal as a store sees them, and the adding of more, all of them or none.
#![tactic(auto)]

mod writing;

pub use writing::{append_all, append_both, append_one, append_open, size_of_all};
