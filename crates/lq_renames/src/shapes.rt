ghost use Rattle.std.specs.Prelude.{◌≡◌, ◌<◌, ◌||◌, IfOk, OnOk, length, map};
ghost use Rattle.std.specs.List.Sorted.{IsStrictlySortedBy};
ghost use Rattle.std.specs.Map.{keys_of};
ghost use Rattle.lq_base.specs.Name.{is_named, name_cmp};
ghost use Rattle.lq_model.specs.Tables.{with_column_renamed};
ghost use Rattle.lq_parts.specs.Steps.{edit_at};
ghost use Rattle.lq_rows.specs.Stored.{Continues, with_shape};

use crate::lists::{columns, foreign_keys, indexes, key, uniques};
use lq_base::{Duplicate, Name, NoMemory, both};
use lq_parts::Parts;
use lq_rows::{Held, Shape};
use lq_shapes::targets_table;
use std::alloc::Global;

/// What is left of a table but for its rows when a column of the table `table` has another name; `own`
/// where it is that table itself.
fn with_column_renamed(
    alloc: Global,
    table: &Name,
    own: bool,
    from: &Name,
    to: &Name,
    held: &Held,
) -> Result<Shape, NoMemory>
    ensures { IfOk result (λ shape.
        with_shape shape held.now.now
        ≡ with_column_renamed table.now own from.now to.now held.now.now) }
{
    let shape = held.shape();
    let (((columns, key), uniques), (foreign, indexes)) = both(
        both(
            both(
                columns(alloc, own, from, to, shape.columns.as_slice()),
                key(alloc, own, from, to, &shape.key),
            ),
            uniques(alloc, own, from, to, shape.uniques.as_slice()),
        ),
        both(
            foreign_keys(alloc, table, own, from, to, shape.foreign.as_slice()),
            indexes(alloc, own, from, to, shape.indexes.as_slice()),
        ),
    )?;
    Ok(Shape {
        columns,
        key,
        uniques,
        foreign,
        indexes,
    })
}

/// Renames the column in the table at a place, and in its foreign keys that aim at the column.
fn rename_at(
    parts: &mut Parts,
    alloc: Global,
    at: usize,
    table: &Name,
    from: &Name,
    to: &Name,
) -> Result<(), NoMemory>
    requires within { at < length parts.old.now.tables }
    requires ordered { IsStrictlySortedBy name_cmp (keys_of parts.old.now.tables) }
    ensures ok { OnOk result
        (parts.new.now
        ≡ record parts.old.now {
          tables = edit_at at (λ e. (
            e.0,
            with_column_renamed table.now (is_named table.now e.0) from.now
                to.now e.1,
          )) parts.old.now.tables;
        }) }
    ensures goes { Continues parts.old parts.new }
{
    let entry = &parts.tables()[at];
    let own = *table == entry.0;
    if !own && !targets_table(table, &entry.1) {
        return Ok(());
    }
    let shape = with_column_renamed(alloc, table, own, from, to, &entry.1)?;
    let name = entry.0.duplicate(alloc)?;
    parts.shape_table(&name, shape)?;
    Ok(())
}

/// Renames the column in all tables.
pub fn rename_in_all(
    parts: &mut Parts,
    alloc: Global,
    table: &Name,
    from: &Name,
    to: &Name,
) -> Result<(), NoMemory>
    requires { IsStrictlySortedBy name_cmp (keys_of parts.old.now.tables) }
    ensures ok { OnOk result
        (parts.new.now
        ≡ record parts.old.now {
          tables = map (λ e. (
            e.0,
            with_column_renamed table.now (is_named table.now e.0) from.now
                to.now e.1,
          )) parts.old.now.tables;
        }) }
    ensures goes { Continues parts.old parts.new }
{
    for at in 0..parts.tables().len() {
        rename_at(parts, alloc, at, table, from, to)?;
    }
    Ok(())
}
