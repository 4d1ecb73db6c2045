//! The journal of a database: the list of its committed transactions, on a disk that may stop at any
//! write.
#![tactic(auto)]

mod fault;
mod journal;
mod reading;

pub use fault::{AppendFault, LoadFault};
pub use journal::Journal;
