//! How far the part of a changelog goes that an update runs: which turns count, and what stays of a
//! list up to a place.
#![tactic(auto)]

mod front;
mod turn;

pub use front::keep_through;
pub use turn::is_to_run;
