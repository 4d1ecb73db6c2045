//! The change types of a table's columns.
#![tactic(auto)]

mod add_default_value;
mod drop_column;
mod drop_default_value;

pub use add_default_value::AddDefaultValue;
pub use drop_column::DropColumn;
pub use drop_default_value::DropDefaultValue;
