//! The change types of foreign keys and indexes.
#![tactic(auto)]

mod add_foreign_key;
mod create_index;
mod drop_foreign_key;
mod drop_index;
mod index_column;
mod on_delete;

pub use add_foreign_key::AddForeignKeyConstraint;
pub use create_index::CreateIndex;
pub use drop_foreign_key::DropForeignKeyConstraint;
pub use drop_index::DropIndex;
pub use index_column::IndexColumn;
pub use on_delete::OnDelete;
