//! What is written of a database is read back: laws, and no code.
#![tactic(auto)]

pub mod laws;
