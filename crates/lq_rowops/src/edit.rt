ghost use Rattle.std.specs.List.{filter, list_any, position};
ghost use Rattle.std.specs.Prelude.{◌≡◌, IfOk, OnOk, length, map};
ghost use Rattle.lq_base.specs.Name.{is_named};
ghost use Rattle.lq_model.specs.Catalogue.{has_bad_null};
ghost use Rattle.lq_model.specs.Rows as spec;
ghost use Rattle.std.specs.Option.{is_some};
ghost use Rattle.lq_rowops.specs.InsertTests.{edit, is_some_such, value_set};

use crate::row::has_bad_null;
use lq_base::{Duplicate, Literal, Name, NoMemory, Value};
use lq_chain::Chain;
use lq_model::{Column, Test};
use lq_query::is_taken;
use lq_rows::Row;
use std::alloc::Global;

fn place_in(columns: &[Column], name: &Name) -> Option<usize>
    ensures { result ≡ position (λ c. is_named name.now c.name) columns.now }
{
    columns.iter().position(|column| *name == column.name)
}

/// Puts a value in the place of the column of the name.
#[tactic(auto, using(crate::proofs::EditLemmas::none_set, crate::proofs::EditLemmas::some_set, crate::proofs::EditLemmas::short_set))]
fn set_in(row: &mut Row, columns: &[Column], name: &Name, value: Value)
    ensures { row.new ≡ spec.set_in name.now value columns.now row.old }
{
    let Some(at) = place_in(columns, name) else {
        return;
    };
    if at < row.len() {
        row.set(at, value);
    }
}

/// Puts all values that are set in the places of their columns.
fn set_all(
    alloc: Global,
    row: &mut Row,
    columns: &[Column],
    sets: &[(Name, Literal)],
    values: &[Value],
) -> Result<(), NoMemory>
    requires { values.now ≡ map (value_set columns.now) sets.now }
    ensures { OnOk result (row.new ≡ spec.set_all sets.now columns.now row.old) }
{
    let mut left = sets;
    let mut given = values;
    while let [set, more @ ..] = left {
        let [value, others @ ..] = given else {
            return Ok(());
        };
        set_in(row, columns, &set.0, value.duplicate(alloc)?);
        left = more;
        given = others;
    }
    Ok(())
}

/// The new row, where the test takes the old one.
pub fn edit(
    alloc: Global,
    columns: &[Column],
    test: &Option<Test>,
    sets: &[(Name, Literal)],
    values: &[Value],
    row: &Row,
) -> Result<Option<Row>, NoMemory>
    requires { values.now ≡ map (value_set columns.now) sets.now }
    ensures { IfOk result (λ new. new ≡ edit sets.now test.now columns.now row.now) }
{
    if !is_taken(test, columns, row.as_slice()) {
        return Ok(None);
    }
    let mut new = row.duplicate(alloc)?;
    set_all(alloc, &mut new, columns, sets, values)?;
    Ok(Some(new))
}

/// For each row the new one in its place, where the test takes it.
pub fn edits(
    alloc: Global,
    columns: &[Column],
    test: &Option<Test>,
    sets: &[(Name, Literal)],
    values: &[Value],
    rows: &Chain<Row>,
) -> Result<Vec<Option<Row>>, NoMemory>
    requires { values.now ≡ map (value_set columns.now) sets.now }
    ensures { IfOk result (λ by. by.items
        ≡ map (edit sets.now test.now columns.now) rows.now.now) }
{
    let mut by = Vec::new(alloc);
    for row in rows.iter() {
        by.push(edit(alloc, columns, test, sets, values, row)?)?;
    }
    Ok(by)
}

/// The number of new rows.
pub fn count(by: &[Option<Row>]) -> usize
    ensures { result ≡ length (filter is_some by.now) }
{
    by.iter().filter(|new| new.is_some()).count()
}

/// Whether a NOT NULL column of a new row holds null.
pub fn has_null(columns: &[Column], by: &[Option<Row>]) -> bool
    ensures { result ≡ list_any (is_some_such (has_bad_null columns.now)) by.now }
{
    by.iter().any(|new| is_null_in(columns, new))
}

/// Whether a NOT NULL column of the new row, where there is one, holds null.
pub fn is_null_in(columns: &[Column], new: &Option<Row>) -> bool
    ensures { result ≡ is_some_such (has_bad_null columns.now) new.now }
{
    match new {
        Some(row) => has_bad_null(columns, row.as_slice()),
        None => false,
    }
}
