//! The change types that set whether a column takes null.
#![tactic(auto)]

mod add_not_null;
mod drop_not_null;
mod nullable;

pub use add_not_null::AddNotNullConstraint;
pub use drop_not_null::DropNotNullConstraint;
