//! What an update, its rollback and the update again leave: laws, and no code.
#![tactic(auto)]

pub mod laws;
