//! The preconditions of several files, joined.
#![tactic(auto)]

mod joined;

pub use joined::Joined;
