//! What a statement that was tried leaves: all its changes, or none.
#![tactic(auto)]

mod tried;

pub use tried::keep_or_undo;
