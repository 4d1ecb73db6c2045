ghost use Rattle.std.specs.FinMap.Entries.{is_sorted};
ghost use Rattle.std.specs.Prelude.{◌≡◌, ◌++◌, None, OnOk, reverse, true};
ghost use Rattle.lq_base.specs.Name.{name_cmp};
ghost use Rattle.lq_model.specs.Catalogue.{table_of, with_new};
ghost use Rattle.lq_filled.specs.With.{with_tables};

use crate::rows::held_of;
use crate::turned::turned;
use lq_base::{Items, Name, NoMemory};
use lq_parts::Parts;
use lq_state::Table;
use std::alloc::Global;

fn put(alloc: Global, parts: &mut Parts, name: Name, table: Table) -> Result<(), NoMemory>
    requires { table_of parts.old.now name ≡ None }
    ensures { OnOk result (parts.new.now ≡ with_new parts.old.now name table) }
{
    let held = held_of(alloc, table)?;
    parts.put_table(name, held)?;
    Ok(())
}

/// Puts tables behind those that are there, the last of these first.
fn put_all(alloc: Global, parts: &mut Parts, tables: Items<(Name, Table)>) -> Result<(), NoMemory>
    requires { is_sorted name_cmp (parts.old.now.tables ++ reverse tables) ≡ true }
    ensures { OnOk result
        (parts.new.now ≡ with_tables (parts.old.now.tables ++ reverse tables) parts.old.now) }
{
    let mut left = tables;
    while let Some((name, table)) = left.pop() {
        put(alloc, parts, name, table)?;
    }
    Ok(())
}

/// Puts tables behind those that are there.
pub fn put_tables(
    alloc: Global,
    parts: &mut Parts,
    tables: Items<(Name, Table)>,
) -> Result<(), NoMemory>
    requires { is_sorted name_cmp (parts.old.now.tables ++ tables) ≡ true }
    ensures { OnOk result
        (parts.new.now ≡ with_tables (parts.old.now.tables ++ tables) parts.old.now) }
{
    let last_first = turned(alloc, tables)?;
    put_all(alloc, parts, last_first)?;
    Ok(())
}
