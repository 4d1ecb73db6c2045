//! The change type that renames a column.
#![tactic(auto)]

mod rename_column;

pub use rename_column::RenameColumn;
