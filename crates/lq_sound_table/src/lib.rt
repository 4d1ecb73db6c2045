//! The test whether a table by itself is sound, over the table as the engine keeps it.
#![tactic(auto)]

mod columns;
mod key;
mod lists;
mod own;
mod rows;
mod table;

pub use lists::{are_some_of, push_names};
pub use own::{one_elsewhere, push_indexes};
pub use rows::{has_null, has_twins, is_full};
pub use table::is_sound_table;
