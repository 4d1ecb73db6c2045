//! How a part of any change is taken back: a law, and no code.
#![tactic(auto)]

pub mod laws;
