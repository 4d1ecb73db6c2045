//! Columns, constraints and names as statements give them, and what of a column or a table names them.
#![tactic(auto)]

mod columns;
mod defined;
mod kinds;
mod named;
mod names;
mod new_table;
mod own;
mod stated;
mod targets;
mod tested;

pub use columns::{Columns, kinds_agree, own_kinds_agree};
pub use defined::{one_depends, one_numbers_wrongly, repeats_number};
pub use kinds::same_kind;
pub use named::{push_foreign, push_key, push_targets, push_uniques};
pub use names::{Names, repeats};
pub use new_table::{Defined, NewTable, define, new_shape};
pub use own::{lacks_own, lists_twice};
pub use stated::{NewColumn, Stated, convert, new_column};
pub use targets::targets_table;
pub use tested::{is_in, shows};
