ghost use Rattle.std.specs.List.{list_any};
ghost use Rattle.std.specs.List.Sorted.{IsStrictlySortedBy};
ghost use Rattle.std.specs.Map.{keys_of};
ghost use Rattle.std.specs.Option.{option_copied};
ghost use Rattle.std.specs.Prelude.{◌≡◌, IfOk, None, OnErr, OnOk, is_some, true};
ghost use Rattle.lq_base.specs.Name.{name_cmp};
ghost use Rattle.lq_chain.specs.History.{changed};
ghost use Rattle.lq_decide.specs.Faults.{no_faults};
ghost use Rattle.lq_arm.specs.Verdict.{tests_of, verdict_of};
ghost use Rattle.lq_model.specs.Catalogue.{table_of, the_table, with_table};
ghost use Rattle.lq_model.specs.Constraints as spec;
ghost use Rattle.lq_model.specs.Plan.{decide};
ghost use Rattle.lq_model.specs.Sound.{IsSound};
ghost use Rattle.lq_rows.specs.Stored.{Answers, Continues, with_shape};
ghost use Rattle.lq_keyops.specs.Targets.{Finds, all_without};

use crate::dropping::drop_index_of;
use crate::lists::indexes_without_in;
use crate::names::no_tests;
use lq_arm::{Tests, is_index_inside};
use lq_base::{Dialect, Duplicate, Name, NoMemory};
use lq_model::By;
use lq_parts::{Parts, RunFault};
use lq_query::is_reserved;
use lq_rows::{Held, Shape};
use std::alloc::Global;

/// Whether the table has an index of the name in its schema.
fn is_on(entry: &(Name, Held), name: &Name) -> bool
    ensures { result ≡ spec.has_index_in name.now entry.now.0 entry.now.1.now }
{
    is_index_inside(&entry.0, &entry.1, name)
}

/// The name of a table that has an index of the name in its schema.
fn table_with<'a>(tables: &'a [(Name, Held)], name: &Name) -> Option<&'a Name>
    ensures { Finds name.now tables.now (option_copied result) }
{
    for entry in tables {
        if is_on(entry, name) {
            return Some(&entry.0);
        }
    }
    None
}

/// The table's shape without the indexes that count by the name.
fn without_index_in(
    alloc: Global,
    table: &Name,
    held: &Held,
    name: &Name,
) -> Result<Shape, NoMemory>
    ensures { IfOk result (λ shape.
        with_shape shape held.now.now ≡ spec.without_index_in name.now table.now held.now.now) }
{
    let mut shape = held.shape().duplicate(alloc)?;
    shape.indexes = indexes_without_in(alloc, table, held.indexes(), name)?;
    Ok(shape)
}

/// Takes the indexes of the name away from a table that is there.
fn drop_there(parts: &mut Parts, alloc: Global, table: &Name, name: &Name) -> Result<(), NoMemory>
    requires { is_some (table_of parts.old.now table.now) ≡ true }
    ensures ok { OnOk result
        (parts.new
        ≡ changed parts.old
        (with_table parts.old.now table.now
        (spec.without_index_in name.now table.now (the_table parts.old.now table.now)))) }
    ensures err { OnErr result (parts.new ≡ parts.old) }
{
    let Some(held) = parts.table(table) else {
        unreachable!();
    };
    let shape = without_index_in(alloc, table, held, name)?;
    parts.shape_table(table, shape)?;
    Ok(())
}

/// Takes the indexes of the name away from all tables.
fn drop_everywhere(parts: &mut Parts, alloc: Global, name: &Name) -> Result<(), NoMemory>
    requires { IsStrictlySortedBy name_cmp (keys_of parts.old.now.tables) }
    ensures now { OnOk result (parts.new.now ≡ all_without name.now parts.old.now) }
    ensures goes { Continues parts.old parts.new }
{
    while let Some(table) = table_with(parts.tables(), name) {
        let table = table.duplicate(alloc)?;
        drop_there(parts, alloc, &table, name)?;
    }
    Ok(())
}

fn anywhere_tests(parts: &Parts, by: By, dialect: Dialect, name: &Name) -> Tests
    ensures { verdict_of result
        ≡ verdict_of (tests_of (spec.drop_index by dialect name.now None parts.now.now)
        no_faults) }
{
    let _ = dialect;
    Tests {
        reserved: is_reserved(by, name),
        missing: table_with(parts.tables(), name).is_none(),
        ..no_tests()
    }
}

/// Drops the index of that name, on whichever table of its schema it is.
fn drop_index_anywhere(
    parts: &mut Parts,
    alloc: Global,
    by: By,
    dialect: Dialect,
    name: &Name,
) -> Result<u64, RunFault>
    requires { IsSound dialect parts.old.now }
    ensures { Answers (decide (spec.drop_index by dialect name.now None parts.old.now)) parts.old
        parts.new result }
{
    let tests = anywhere_tests(parts, by, dialect, name);
    match tests.verdict() {
        Ok(()) => {}
        Err(fault) => return Err(fault),
    }
    drop_everywhere(parts, alloc, name)?;
    Ok(0)
}

/// DROP INDEX on a sound catalogue, on someone's behalf: of a table's index, or without a table of the
/// index of that name, on whichever table of its schema it is.
pub fn drop_index(
    parts: &mut Parts,
    alloc: Global,
    by: By,
    dialect: Dialect,
    name: &Name,
    table: &Option<Name>,
) -> Result<u64, RunFault>
    requires { IsSound dialect parts.old.now }
    ensures { Answers (decide (spec.drop_index by dialect name.now table.now parts.old.now))
        parts.old parts.new result }
{
    match table {
        Some(table) => drop_index_of(parts, alloc, by, dialect, name, table),
        None => drop_index_anywhere(parts, alloc, by, dialect, name),
    }
}
