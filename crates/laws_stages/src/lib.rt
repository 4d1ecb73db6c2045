//! The statements that make the objects of a sound catalogue are accepted one after another: laws, and
//! no code.
#![tactic(auto)]

pub mod laws;
