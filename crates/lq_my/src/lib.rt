//! SQL text of MySQL.
#![tactic(auto)]

mod sql;

pub use sql::My;
