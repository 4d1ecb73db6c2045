//! The statements that put rows into a table.
ghost use Rattle.std.specs.Prelude.{◌≡◌, ◌++◌, ◌∷◌, [], IfOk, OnErr, OnOk, map};
ghost use Rattle.lq_load.specs.LoadData.{insert_of};

use lq_base::{Duplicate, Items, Name, NoMemory, Text, both, cut};
use lq_fields::literals_of;
use lq_model::Statement;
use std::alloc::Global;

fn insert_of(
    alloc: Global,
    table: &Name,
    columns: &Items<Name>,
    row: &[Text],
) -> Result<Statement, NoMemory>
    ensures { IfOk result (λ made. made ≡ insert_of table.now columns.now row.now) }
{
    let (table, columns) = both(table.duplicate(alloc), columns.duplicate(alloc))?;
    let values = literals_of(alloc, row)?;
    Ok(Statement::Insert {
        table,
        columns,
        values,
    })
}

/// Adds the statement of a row, or changes nothing.
fn push_insert(
    alloc: Global,
    table: &Name,
    columns: &Items<Name>,
    row: &[Text],
    to: &mut Items<Statement>,
) -> Result<(), NoMemory>
    ensures ok { OnOk result (to.new ≡ to.old ++ insert_of table.now columns.now row.now ∷ []) }
    ensures err { OnErr result (to.new ≡ to.old) }
{
    let statement = insert_of(alloc, table, columns, row)?;
    to.push(statement)?;
    Ok(())
}

/// Adds the statement of each row, in order, or changes nothing.
pub fn push_inserts(
    alloc: Global,
    table: &Name,
    columns: &Items<Name>,
    rows: &[Items<Text>],
    to: &mut Items<Statement>,
) -> Result<(), NoMemory>
    ensures ok { OnOk result (to.new ≡ to.old ++ map (insert_of table.now columns.now) rows.now) }
    ensures err { OnErr result (to.new ≡ to.old) }
{
    let before = to.len();
    for row in rows {
        if push_insert(alloc, table, columns, row.as_slice(), to).is_err() {
            cut(to, before);
            return Err(NoMemory);
        }
    }
    Ok(())
}
