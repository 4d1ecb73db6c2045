ghost use Rattle.std.specs.Prelude.{◌≡◌, map, IfOk};
ghost use Rattle.lq_model.specs.Catalogue.{table_of};
ghost use Rattle.lq_track.specs.Statements.{answered_rows, rows_asked, rows_query};
ghost use Rattle.lq_model.specs.Views.{answer};
ghost use Rattle.lq_model.specs.declared.caller.By.TheVariants.{Program};
ghost use Rattle.lq_track.specs.Database.{is_log, rows_in, rows_of, Gives, passes};
ghost use Rattle.lq_track.specs.Log.{log_column, log_order};

use crate::fault::TrackFault;
use crate::log_column::LogColumn;
use crate::log_table::{log_defs, log_table, row_test};
use crate::row_reading::row_in;
use crate::run_order::in_run_order;
use crate::stored::{all_rows, are_made, has_no_more};
use lq_base::{Dialect, Items, Name, NoMemory, Text, Tracked, Value, both};
use lq_model::{AskFault, By, ColumnDef, Look, Query, Wanted};
use std::alloc::Global;

/// The rows that the table DATABASECHANGELOG holds, in run order: none where the table is missing.
/// `NotTables` exactly where the table is there and is not as it is made, or a row of it cannot be
/// read, as one whose order is below 1. Both dialects have the same table.
pub fn read_rows<K: Look>(
    alloc: Global,
    _dialect: Dialect,
    look: &K,
) -> Result<Items<Tracked>, TrackFault>
    ensures { Gives (rows_of (K.catalogue look.now)) result }
{
    let table = log_table(alloc)?;
    if !look.is_table(&table) {
        return Ok(Items::new(alloc));
    }
    if !is_log(alloc, look, &table)? {
        return Err(TrackFault::NotTables);
    }
    let stored = all_rows(alloc, look, table)?;
    let Some(rows) = rows_in(alloc, stored.as_slice())? else {
        return Err(TrackFault::NotTables);
    };
    let ran = in_run_order(alloc, rows)?;
    Ok(ran)
}

/// The rows of one changeset, which the table DATABASECHANGELOG is asked for: none where the table is
/// missing. `NotTables` exactly where it cannot be asked, or a row of them cannot be read.
pub fn read_rows_of<K: Look>(
    alloc: Global,
    look: &K,
    id: &Text,
    author: &Text,
    file: &Text,
) -> Result<Items<Tracked>, TrackFault>
    ensures { Gives
        (rows_asked (record { file = file.now; id = id.now; author = author.now })
        (K.catalogue look.now)) result }
{
    let query = rows_query(alloc, id, author, file)?;
    if !look.is_table(&query.table) {
        return Ok(Items::new(alloc));
    }
    let Some(stored) = answered_rows(alloc, look, &query)? else {
        return Err(TrackFault::NotTables);
    };
    let Some(rows) = rows_in(alloc, stored.as_slice())? else {
        return Err(TrackFault::NotTables);
    };
    let ran = in_run_order(alloc, rows)?;
    Ok(ran)
}

fn rows_query(alloc: Global, id: &Text, author: &Text, file: &Text) -> Result<Query, NoMemory>
    ensures { IfOk result
        (λ query. query ≡ rows_query (record
        { file = file.now; id = id.now; author = author.now })) }
{
    let (table, test) = both(log_table(alloc), row_test(alloc, id, author, file))?;
    Ok(Query {
        wanted: Wanted::All,
        table,
        test: Some(test),
    })
}

/// The rows that a query is answered, or None where it is refused.
fn answered_rows<K: Look>(
    alloc: Global,
    look: &K,
    query: &Query,
) -> Result<Option<Items<Items<Value>>>, NoMemory>
    ensures { IfOk result
        (λ rows. rows ≡ answered_rows (answer Program query.now (K.catalogue look.now))) }
{
    match look.ask(alloc, By::Program, query) {
        Ok(answered) => Ok(Some(answered.rows)),
        Err(AskFault::Refused(_)) => Ok(None),
        Err(AskFault::OutOfMemory) => Err(NoMemory),
    }
}

/// Whether the table is there as it is made.
fn is_log<K: Look>(alloc: Global, look: &K, table: &Name) -> Result<bool, NoMemory>
    ensures { IfOk result (λ is. is
        ≡ passes is_log (table_of (K.catalogue look.now) table.now)) }
{
    let Some(columns) = look.columns(table) else {
        return Ok(false);
    };
    let defs = made_columns(alloc)?;
    if !are_made(defs.as_slice(), columns) {
        return Ok(false);
    }
    if look.key(table).is_some() {
        return Ok(false);
    }
    Ok(has_no_more(look, table))
}

#[tactic(auto, unfolding(crate::specs::Log::log_order))]
fn made_columns(alloc: Global) -> Result<Items<ColumnDef>, NoMemory>
    ensures { IfOk result (λ defs. defs ≡ map log_column log_order) }
{
    log_defs(alloc, &LogColumn::ALL)
}

fn rows_in(alloc: Global, stored: &[Items<Value>]) -> Result<Option<Items<Tracked>>, NoMemory>
    ensures { IfOk result (λ rows. rows ≡ rows_in stored.now) }
{
    let mut rows = Items::new(alloc);
    for values in stored {
        let Some(row) = row_in(alloc, values.as_slice())? else {
            return Ok(None);
        };
        rows.push(row)?;
    }
    Ok(Some(rows))
}
