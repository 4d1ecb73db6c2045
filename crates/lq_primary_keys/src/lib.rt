//! The change types of primary keys.
#![tactic(auto)]

mod add_primary_key;
mod drop_primary_key;
mod drops;

pub use add_primary_key::AddPrimaryKey;
pub use drop_primary_key::DropPrimaryKey;
