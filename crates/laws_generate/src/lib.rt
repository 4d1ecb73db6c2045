//! A generated changelog is read, and makes the objects: laws, and no code.
#![tactic(auto)]

pub mod laws;
