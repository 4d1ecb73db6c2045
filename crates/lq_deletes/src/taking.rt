ghost use Rattle.std.specs.List.{flat_map};
ghost use Rattle.std.specs.Prelude.{◌≡◌, ◌&&◌, ◌++◌, IfOk, OnOk, map};
ghost use Rattle.lq_model.specs.Catalogue.{the_table};
ghost use Rattle.lq_model.specs.Truth.{takes};
ghost use Rattle.lq_parts.specs.Steps.{tables_of};
ghost use Rattle.lq_deletes.specs.Places.{taken_in};

use lq_base::{Name, NoMemory, Value};
use lq_chain::Chain;
use lq_model::{Column, Test};
use lq_parts::Parts;
use lq_query::is_taken;
use lq_rows::{Held, Row};
use std::alloc::Global;

/// The columns of the table of the name; none where there is none.
pub fn columns_of<'a>(parts: &'a Parts, table: &Name) -> &'a [Column]
    ensures { result.now ≡ (the_table parts.now.now table.now).columns }
{
    match parts.table(table) {
        Some(held) => held.columns(),
        None => &[],
    }
}

fn is_row_taken(is_its: bool, test: &Option<Test>, columns: &[Column], row: &[Value]) -> bool
    ensures { result ≡ (is_its && takes test.now columns.now row.now) }
{
    is_its && is_taken(test, columns, row)
}

fn take_rows(
    marks: &mut Vec<bool>,
    is_its: bool,
    test: &Option<Test>,
    columns: &[Column],
    rows: &Chain<Row>,
) -> Result<(), NoMemory>
    ensures { OnOk result
        (marks.new.items
        ≡ marks.old.items
        ++ map (λ row. is_its && takes test.now columns.now row) rows.now.now) }
{
    for row in rows.iter() {
        marks.push(is_row_taken(is_its, test, columns, row.as_slice()))?;
    }
    Ok(())
}

/// Adds for each row of a table whether it is of the named one and the test takes it.
fn take_in(
    marks: &mut Vec<bool>,
    table: &Name,
    test: &Option<Test>,
    columns: &[Column],
    name: &Name,
    held: &Held,
) -> Result<(), NoMemory>
    ensures { OnOk result
        (marks.new.items
        ≡ marks.old.items ++ taken_in table.now test.now columns.now (name.now, held.now.now)) }
{
    let is_its = *table == *name;
    take_rows(marks, is_its, test, columns, held.rows())?;
    Ok(())
}

/// For each row of all tables whether the statement takes it, by the columns of its table.
pub fn taken(
    alloc: Global,
    entries: &[(Name, Held)],
    table: &Name,
    test: &Option<Test>,
    columns: &[Column],
) -> Result<Vec<bool>, NoMemory>
    ensures { IfOk result (λ marks.
        marks.items ≡ flat_map (taken_in table.now test.now columns.now)
        (tables_of entries.now)) }
{
    let mut marks = Vec::new(alloc);
    for entry in entries {
        take_in(&mut marks, table, test, columns, &entry.0, &entry.1)?;
    }
    Ok(marks)
}
