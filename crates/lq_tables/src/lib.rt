//! The change types of tables, and the one that adds columns to them.
#![tactic(auto)]

mod add_column;
mod constraints;
mod create_table;
mod drop_table;
mod rename_table;

pub use add_column::{AddColumn, AddedColumn, AddedConstraints};
pub use constraints::Reference;
pub use create_table::{CreateTable, CreatedColumn, CreatedConstraints};
pub use drop_table::DropTable;
pub use rename_table::RenameTable;
