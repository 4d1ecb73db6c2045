//! Statements, queries and tests as plain data, what they mean, and the laws of taking them back.
#![tactic(auto)]

mod append;
mod by_program;
mod caller;
mod canon;
mod canon_laws;
mod change;
mod column;
mod constraint;
mod default_name;
mod fault;
mod field;
mod index;
mod keeps_sound;
mod kinds;
mod look;
mod no_row;
mod phrase;
mod query;
mod sql_text;
mod statement;
mod table_item;
mod takes_back;
mod test;
mod view_queries;
mod word;
mod written;

pub use append::append_all;
pub use by_program::program_may_do_what_users_may;
pub use caller::{By, ByText, Room};
pub use canon::{Begun, Canon, Mark};
pub use canon_laws::{
    atoms_are_read_one_way, text_tells_change, text_tells_changes, text_tells_value,
};
pub use change::{Change, Undo};
pub use column::{Column, ColumnDef};
pub use constraint::{ForeignKey, Key, Unique};
pub use default_name::{default_names_are_names, foreign_name, index_name, key_name, unique_name};
pub use fault::{AskFault, KindFault, ParseFault, StoreFault};
pub use field::{Field, kind_field, name_field, schema_field, text_field, truth_field};
pub use index::Index;
pub use keeps_sound::statement_keeps_sound;
pub use kinds::are_equal;
pub use look::Look;
pub use no_row::update_of_no_row_changes_nothing;
pub use phrase::Phrase;
pub use query::{Answered, Query, Wanted};
pub use sql_text::SqlText;
pub use statement::Statement;
pub use table_item::{ColumnClause, StatedColumn, TableConstraint, TableItem, Target};
pub use takes_back::{
    drop_column_takes_back, drop_column_takes_back_widened, drop_constraint_takes_back_foreign_key,
    drop_constraint_takes_back_key, drop_constraint_takes_back_unique, drop_default_takes_back,
    drop_foreign_key_takes_back, drop_index_takes_back, drop_not_null_takes_back,
    drop_primary_key_takes_back, drop_sequence_takes_back, drop_table_takes_back,
    drop_unique_takes_back, drop_view_takes_back, modify_takes_back, rename_column_takes_back,
    rename_sequence_takes_back, rename_table_takes_back, rename_view_takes_back,
    set_not_null_takes_back, stays_widened,
};
pub use test::{Op, Operand, Test};
pub use view_queries::views_answer;
pub use word::{SPELLINGS, Word, WordKind};
pub use written::{Fields, MapAt, MapsAt, NameAt, TextAt, Written, write_change, write_change_of};
