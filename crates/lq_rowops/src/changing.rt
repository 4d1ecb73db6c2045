ghost use Rattle.std.specs.Option.{option_and_then};
ghost use Rattle.std.specs.Prelude.{◌≡◌, ◌<◌, IfOk, IfSome, OnErr, OnOk, is_some, length, map, slice_get, true};
ghost use Rattle.lq_chain.specs.History.{changed};
ghost use Rattle.lq_model.specs.Catalogue.{table_of, the_table, with_table};
ghost use Rattle.lq_model.specs.Rows.{edited};
ghost use Rattle.lq_one_row.specs.Only.{IsOnly};
ghost use Rattle.lq_rows.specs.Stored.{with_row_at};
ghost use Rattle.lq_rowops.specs.InsertTests.{edit, value_set};
ghost use Rattle.lq_rowops.specs.Updated.{AreChanges, AreNewRows};

use crate::edit::{count, edit, edits, has_null, is_null_in};
use crate::stray::is_stray_by;
use crate::updating::columns_of;
use lq_base::{Literal, Name, NoMemory, Value};
use lq_model::Test;
use lq_one_row::only_taken;
use lq_parts::Parts;
use lq_rows::Row;
use std::alloc::Global;
use std::slice;

/// What is known of the new rows of an UPDATE.
#[derive(Clone, Copy)]
pub struct Changes {
    pub count: usize,
    /// A NOT NULL column of a new row holds null.
    pub has_null: bool,
    /// A new row has no parent by a foreign key of which a column is set, and that does not aim at
    /// a set column.
    pub is_stray: bool,
}

/// For each row of the table the new one in its place, where the test takes it.
#[derive(Drop)]
pub struct NewRows {
    pub rows: Vec<Option<Row>>,
    pub count: usize,
    pub has_null: bool,
}

fn new_rows(
    alloc: Global,
    parts: &Parts,
    table: &Name,
    sets: &[(Name, Literal)],
    values: &[Value],
    test: &Option<Test>,
) -> Result<NewRows, NoMemory>
    requires { values.now ≡ map (value_set (the_table parts.now.now table.now).columns) sets.now }
    ensures { IfOk result
        (λ new. AreNewRows sets.now test.now (the_table parts.now.now table.now) new) }
{
    let Some(held) = parts.table(table) else {
        return Ok(NewRows {
            rows: Vec::new(alloc),
            count: 0,
            has_null: false,
        });
    };
    let columns = held.columns();
    let rows = edits(alloc, columns, test, sets, values, held.rows())?;
    let count = count(&rows);
    let has_null = has_null(columns, &rows);
    Ok(NewRows {
        rows,
        count,
        has_null,
    })
}

fn change_all(
    parts: &mut Parts,
    alloc: Global,
    table: &Name,
    sets: &[(Name, Literal)],
    values: &[Value],
    test: &Option<Test>,
) -> Result<Changes, NoMemory>
    requires there { is_some (table_of parts.old.now table.now) ≡ true }
    requires values { values.now
        ≡ map (value_set (the_table parts.old.now table.now).columns) sets.now }
    ensures ok { OnOk result
        (parts.new
        ≡ changed parts.old
        (with_table parts.old.now table.now
        (edited sets.now test.now (the_table parts.old.now table.now)))) }
    ensures are { IfOk result (AreChanges table.now sets.now test.now parts.old.now) }
    ensures err { OnErr result (parts.new ≡ parts.old) }
{
    let new = new_rows(alloc, parts, table, sets, values, test)?;
    let is_stray = is_stray_by(parts, alloc, table, sets, &new.rows)?;
    parts.replace_some(alloc, table, new.rows)?;
    Ok(Changes {
        count: new.count,
        has_null: new.has_null,
        is_stray,
    })
}

/// The new row in place of the one at the place, where the test takes it.
fn edit_at(
    alloc: Global,
    parts: &Parts,
    table: &Name,
    sets: &[(Name, Literal)],
    values: &[Value],
    test: &Option<Test>,
    at: usize,
) -> Result<Option<Row>, NoMemory>
    requires { values.now ≡ map (value_set (the_table parts.now.now table.now).columns) sets.now }
    ensures { IfOk result (λ new.
        new
        ≡ option_and_then (edit sets.now test.now (the_table parts.now.now table.now).columns)
        (slice_get (the_table parts.now.now table.now).rows at)) }
{
    let Some(held) = parts.table(table) else {
        return Ok(None);
    };
    match held.row(at) {
        Some(row) => edit(alloc, held.columns(), test, sets, values, row),
        None => Ok(None),
    }
}

/// Puts the new row, where there is one, in place of the one at the place.
fn put_at(parts: &mut Parts, table: &Name, at: usize, new: Option<Row>) -> Result<(), NoMemory>
    requires there { is_some (table_of parts.old.now table.now) ≡ true }
    requires within { at < length (the_table parts.old.now table.now).rows }
    ensures ok { OnOk result
        (IfSome new (λ row.
        parts.new
        ≡ changed parts.old
        (with_table parts.old.now table.now
        (with_row_at at row (the_table parts.old.now table.now))))) }
    ensures err { OnErr result (parts.new ≡ parts.old) }
{
    match new {
        Some(row) => parts.replace(table, at, row),
        None => Ok(()),
    }
}

/// Changes the row at the place, the only one that the test takes.
fn change_one(
    parts: &mut Parts,
    alloc: Global,
    table: &Name,
    sets: &[(Name, Literal)],
    values: &[Value],
    test: &Option<Test>,
    at: usize,
) -> Result<Changes, NoMemory>
    requires there { is_some (table_of parts.old.now table.now) ≡ true }
    requires values { values.now
        ≡ map (value_set (the_table parts.old.now table.now).columns) sets.now }
    requires only { IsOnly test.now (the_table parts.old.now table.now) at }
    ensures ok { OnOk result
        (parts.new
        ≡ changed parts.old
        (with_table parts.old.now table.now
        (edited sets.now test.now (the_table parts.old.now table.now)))) }
    ensures are { IfOk result (AreChanges table.now sets.now test.now parts.old.now) }
    ensures err { OnErr result (parts.new ≡ parts.old) }
{
    let new = edit_at(alloc, parts, table, sets, values, test, at)?;
    let has_null = is_null_in(columns_of(parts, table), &new);
    let is_stray = is_stray_by(parts, alloc, table, sets, slice::from_ref(&new))?;
    put_at(parts, table, at, new)?;
    Ok(Changes {
        count: 1,
        has_null,
        is_stray,
    })
}

/// Puts the new rows in place of those that the test takes, or changes nothing. Where the test
/// tells a single row by its first value, that row alone is replaced.
pub fn change(
    parts: &mut Parts,
    alloc: Global,
    table: &Name,
    sets: &[(Name, Literal)],
    values: &[Value],
    test: &Option<Test>,
) -> Result<Changes, NoMemory>
    requires there { is_some (table_of parts.old.now table.now) ≡ true }
    requires values { values.now
        ≡ map (value_set (the_table parts.old.now table.now).columns) sets.now }
    ensures ok { OnOk result
        (parts.new
        ≡ changed parts.old
        (with_table parts.old.now table.now
        (edited sets.now test.now (the_table parts.old.now table.now)))) }
    ensures are { IfOk result (AreChanges table.now sets.now test.now parts.old.now) }
    ensures err { OnErr result (parts.new ≡ parts.old) }
{
    match only_taken(parts, alloc, table, test)? {
        Some(at) => change_one(parts, alloc, table, sets, values, test, at),
        None => change_all(parts, alloc, table, sets, values, test),
    }
}
