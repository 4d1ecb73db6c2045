//! The change types of unique constraints.
#![tactic(auto)]

mod add_unique;
mod drop_unique;
mod drops;

pub use add_unique::AddUniqueConstraint;
pub use drop_unique::DropUniqueConstraint;
