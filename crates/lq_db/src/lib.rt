//! A database in a journal: sessions, and what they commit.
#![tactic(auto)]

mod alone;
mod db;
mod itself;
mod last_texts;
mod locking;
mod running;
mod snapshot;
mod taking;

pub use db::Db;
