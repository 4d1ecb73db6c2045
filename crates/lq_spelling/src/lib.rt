//! How the text of a statement may be spelled.
#![tactic(auto)]

pub mod laws;
