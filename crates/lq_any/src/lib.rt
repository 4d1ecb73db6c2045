//! Changes of any type.
#![tactic(auto)]

mod any_change;
mod count;
mod named;

pub use any_change::AnyChange;
pub use count::statement_count;
