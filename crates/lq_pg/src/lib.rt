//! SQL text of PostgreSQL.
#![tactic(auto)]

mod sql;

pub use sql::Pg;
