//! A database with sessions that commits to a journal, and what it needs to run statements: the two
//! traits, and what their calls mean.
#![tactic(auto)]

mod executor;
mod fault;
mod states;
mod store;

pub use executor::Executor;
pub use fault::{RunFault, SnapFault};
pub use states::States;
pub use store::Store;
