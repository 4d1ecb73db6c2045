ghost use Rattle.std.specs.List.{list_any};
ghost use Rattle.std.specs.Option.{option_copied};
ghost use Rattle.std.specs.Ordering.{int_eq};
ghost use Rattle.std.specs.Prelude.{◌==◌, ◌≡◌, is_some, pos};
ghost use Rattle.lq_model.specs.Catalogue.{sequence_of, table_of, view_of, column_at, foreign_key_at, index_at, key_at, unique_at};
ghost use Rattle.lq_model.specs.Views.{answer};
ghost use Rattle.lq_model.specs.declared.caller.By.TheVariants.{User};
ghost use Rattle.lq_cond.specs.Told.{count_of, has, is_answered, key_named, one_value, tells, tracks};
ghost use Rattle.lq_verdicts.specs.Verdict.{IsTold, map_told};

use crate::condition::Condition;
use crate::dialects::is_meant;
use crate::printed::is_printed;
use crate::tracking::is_tracking;
use lq_base::{Dialect, Items, Name, Reason, Text, Tracked, Value};
use lq_model::{AskFault, By, Key, Look, Query};
use lq_verdicts::{CondFault, is_count, is_zero};
use std::alloc::Global;

fn is_key_named(name: &Option<Name>, key: Option<&Key>) -> bool
    ensures { result ≡ is_some (key_named name.now (option_copied key.entry)) }
{
    match (name, key) {
        (_, None) => false,
        (None, Some(_)) => true,
        (Some(name), Some(key)) => *name == key.name,
    }
}

fn tracks(id: &Text, author: &Text, file: &Text, row: &Tracked) -> bool
    ensures { result ≡ tracks id.now author.now file.now row.now }
{
    *id == row.id && *author == row.author && *file == row.filename
}

fn is_tracked(id: &Text, author: &Text, file: &Text, rows: &[Tracked]) -> bool
    ensures { result ≡ list_any (tracks id.now author.now file.now) rows.now }
{
    rows.iter().any(|row| tracks(id, author, file, row))
}

fn count_of<K: Look>(look: &K, table: &Name) -> Result<u64, Reason>
    ensures { result ≡ count_of (K.catalogue look.now) table.now }
{
    if is_tracking(table) {
        return Err(Reason::Missing);
    }
    match look.rows(table) {
        Some(count) => Ok(count),
        None => Err(Reason::Missing),
    }
}

fn one_value(rows: &[Items<Value>]) -> Result<&Value, Reason>
    ensures { map_told (λ value. value.now) result ≡ one_value rows.now }
{
    match rows {
        [row] => match row.as_slice() {
            [value] => Ok(value),
            _ => Err(Reason::NotOne),
        },
        _ => Err(Reason::NotOne),
    }
}

fn is_answered<K: Look>(
    alloc: Global,
    look: &K,
    text: &Text,
    query: &Query,
) -> Result<bool, CondFault>
    ensures { IsTold (is_answered text.now (answer User query.now (K.catalogue look.now))) result }
{
    let answered = match look.ask(alloc, By::User, query) {
        Ok(answered) => answered,
        Err(AskFault::Refused(reason)) => return Err(CondFault::Error(reason)),
        Err(AskFault::OutOfMemory) => return Err(CondFault::OutOfMemory),
    };
    match one_value(answered.rows.as_slice()) {
        Ok(value) => Ok(is_printed(alloc, value, text.as_str())?),
        Err(reason) => Err(CondFault::Error(reason)),
    }
}

fn has_count<K: Look>(look: &K, table: &Name, expected: i128) -> Result<bool, CondFault>
    ensures { IsTold
        (map_told (λ count. int_eq (pos count) expected)
        (count_of (K.catalogue look.now) table.now)) result }
{
    is_count(count_of(look, table), expected)
}

fn has_table<K: Look>(look: &K, table: &Name) -> bool
    ensures { result ≡ has table.now (table_of (K.catalogue look.now) table.now) }
{
    !is_tracking(table) && look.is_table(table)
}

fn has_view<K: Look>(look: &K, view: &Name) -> bool
    ensures { result ≡ has view.now (view_of (K.catalogue look.now) view.now) }
{
    !is_tracking(view) && look.is_view(view)
}

fn has_sequence<K: Look>(look: &K, sequence: &Name) -> bool
    ensures { result ≡ has sequence.now (sequence_of (K.catalogue look.now) sequence.now) }
{
    !is_tracking(sequence) && look.is_sequence(sequence)
}

fn has_column<K: Look>(look: &K, table: &Name, column: &Name) -> bool
    ensures { result ≡ has table.now (column_at (K.catalogue look.now) table.now column.now) }
{
    !is_tracking(table) && look.column(table, column).is_some()
}

fn has_index<K: Look>(look: &K, table: &Name, index: &Name) -> bool
    ensures { result ≡ has table.now (index_at (K.catalogue look.now) table.now index.now) }
{
    !is_tracking(table) && look.index(table, index).is_some()
}

fn has_unique<K: Look>(look: &K, table: &Name, unique: &Name) -> bool
    ensures { result ≡ has table.now (unique_at (K.catalogue look.now) table.now unique.now) }
{
    !is_tracking(table) && look.unique(table, unique).is_some()
}

fn has_foreign_key<K: Look>(look: &K, table: &Name, foreign: &Name) -> bool
    ensures { result ≡ has table.now (foreign_key_at (K.catalogue look.now) table.now
        foreign.now) }
{
    !is_tracking(table) && look.foreign_key(table, foreign).is_some()
}

fn has_key<K: Look>(look: &K, table: &Name, name: &Option<Name>) -> bool
    ensures { result
        ≡ has table.now (key_named name.now (key_at (K.catalogue look.now) table.now)) }
{
    !is_tracking(table) && is_key_named(name, look.key(table))
}

fn is_empty<K: Look>(look: &K, table: &Name) -> Result<bool, CondFault>
    ensures { IsTold (map_told (λ count. count == 0) (count_of (K.catalogue look.now) table.now))
        result }
{
    is_zero(count_of(look, table))
}

/// What a condition of one kind tells.
pub(crate) fn tells<K: Look>(
    alloc: Global,
    condition: &Condition,
    dialect: Dialect,
    look: &K,
    rows: &[Tracked],
) -> Result<bool, CondFault>
    ensures { IsTold (tells dialect (K.catalogue look.now) rows.now condition.now) result }
{
    match condition {
        Condition::Dbms { names } => Ok(is_meant(dialect, names.as_slice())),
        Condition::TableExists { table_name } => Ok(has_table(look, table_name)),
        Condition::ViewExists { view_name } => Ok(has_view(look, view_name)),
        Condition::ColumnExists {
            table_name,
            column_name,
        } => Ok(has_column(look, table_name, column_name)),
        Condition::SequenceExists { sequence_name } => Ok(has_sequence(look, sequence_name)),
        Condition::IndexExists {
            table_name,
            index_name,
        } => Ok(has_index(look, table_name, index_name)),
        Condition::UniqueConstraintExists {
            table_name,
            constraint_name,
        } => Ok(has_unique(look, table_name, constraint_name)),
        Condition::ForeignKeyConstraintExists {
            foreign_key_table_name,
            foreign_key_name,
        } => Ok(has_foreign_key(look, foreign_key_table_name, foreign_key_name)),
        Condition::PrimaryKeyExists {
            table_name,
            primary_key_name,
        } => Ok(has_key(look, table_name, primary_key_name)),
        Condition::ChangeSetExecuted {
            id,
            author,
            change_log_file,
        } => Ok(is_tracked(id, author, change_log_file, rows)),
        Condition::SqlCheck {
            expected_result,
            sql,
        } => is_answered(alloc, look, expected_result, sql),
        Condition::RowCount {
            table_name,
            expected_rows,
        } => has_count(look, table_name, *expected_rows),
        Condition::TableIsEmpty { table_name } => is_empty(look, table_name),
    }
}
