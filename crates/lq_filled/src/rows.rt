ghost use Rattle.std.specs.Prelude.{◌≡◌, ◌++◌, IfOk, OnOk, reverse};
ghost use Rattle.lq_rows.specs.Stored.{shape_of, table_as};

use crate::turned::turned;
use lq_base::{Items, NoMemory};
use lq_rows::{Held, Row, Shape};
use lq_state::Table;
use std::alloc::Global;

/// Adds rows, the last of these first. The next number stays.
fn append_rows(alloc: Global, held: &mut Held, rows: Items<Row>) -> Result<(), NoMemory>
    ensures { OnOk result
        (held.new.now
        ≡ table_as (shape_of held.old.now) held.old.now.next
        (held.old.now.rows ++ reverse rows)) }
{
    let mut left = rows;
    let next = held.next();
    while let Some(row) = left.pop() {
        held.append(alloc, row, next)?;
    }
    Ok(())
}

/// A table of the shape with this next number, and with these rows, the last of them first.
fn filled(alloc: Global, shape: Shape, next: u64, rows: Items<Row>) -> Result<Held, NoMemory>
    ensures { IfOk result (λ held. held.now ≡ table_as shape next (reverse rows)) }
{
    let mut held = Held::new(alloc, shape)?;
    held.go_back(0, next);
    append_rows(alloc, &mut held, rows)?;
    held.forget();
    Ok(held)
}

/// The table as the engine keeps it.
pub fn held_of(alloc: Global, table: Table) -> Result<Held, NoMemory>
    ensures { IfOk result (λ held. held.now ≡ table) }
{
    let parts = table.into_parts();
    let ((columns, key, uniques, foreign, indexes), next, rows) = parts;
    let shape = Shape {
        columns,
        key,
        uniques,
        foreign,
        indexes,
    };
    let last_first = turned(alloc, rows)?;
    let held = filled(alloc, shape, next, last_first)?;
    Ok(held)
}
