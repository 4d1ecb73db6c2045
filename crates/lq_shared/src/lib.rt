//! A value with several owners, which contracts see as the value itself.
#![tactic(auto)]

mod shared;

pub use shared::Shared;
