//! SQL text of both dialects read as statements.
#![tactic(auto)]

mod alter;
mod alter_column;
mod column;
mod constraint;
mod create;
mod drop_object;
mod gather;
mod given;
mod inline;
mod kind;
pub mod laws;
mod name;
mod rows;
mod statement;
mod table;

pub use statement::parse;
