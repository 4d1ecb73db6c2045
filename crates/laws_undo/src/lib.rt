//! What undo-unrecorded leaves, run once or again and again: laws, and no code.
#![tactic(auto)]

pub mod laws;
