//! The change types of rows and of SQL texts, and the two that run nothing.
#![tactic(auto)]

mod column_value;
mod copied;
mod delete;
mod empty;
mod given_test;
mod insert;
mod script;
mod sql;
mod tag_database;
mod update;

pub use column_value::ColumnValue;
pub use delete::Delete;
pub use empty::Empty;
pub use given_test::GivenTest;
pub use insert::Insert;
pub use sql::Sql;
pub use tag_database::TagDatabase;
pub use update::Update;
