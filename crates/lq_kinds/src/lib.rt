//! The changesets that changes of any type stand in.
#![tactic(auto)]

mod change_set;
mod changes;
mod context;
mod fault;
mod heading;
mod joined;
mod label;
mod loads;
mod readers;
mod reading;
mod rollback;
mod sum;

pub use change_set::{ChangeSet, Changelog};
pub use changes::here_at;
pub use fault::SetFault;
pub use label::is_label;
pub use lq_any::{AnyChange, statement_count};
pub use sum::{Sums, sums_of};
