ghost use Rattle.std.specs.List.Sorted.{IsStrictlySortedBy};
ghost use Rattle.std.specs.Map.{keys_of};
ghost use Rattle.std.specs.Prelude.{◌≡◌, ◌&&◌, IfOk, None, OnOk, Some, cond, false, is_none, is_some, true};
ghost use Rattle.lq_arm.specs.Verdict.{tests_of, verdict_of};
ghost use Rattle.lq_base.specs.Name.{name_cmp};
ghost use Rattle.lq_decide.specs.Faults.{no_faults};
ghost use Rattle.lq_model.specs.Catalogue.{table_of, view_of, without_view};
ghost use Rattle.lq_model.specs.Plan.{decide};
ghost use Rattle.lq_model.specs.Tables as spec;
ghost use Rattle.lq_model.specs.Sound.{IsSound};
ghost use Rattle.lq_rows.specs.Stored.{Answers, Continues};

use crate::aims::retarget_all;
use crate::names::{are_reserved, is_taken_to, is_viewed};
use lq_arm::Tests;
use lq_base::{Dialect, Duplicate, Name, NoMemory};
use lq_model::By;
use lq_parts::{Parts, RunFault, View};
use std::alloc::Global;

fn has_table(parts: &Parts, name: &Name) -> bool
    ensures { result ≡ is_some (table_of parts.now.now name.now) }
{
    match parts.table(name) {
        None => false,
        Some(_) => true,
    }
}

/// Whether neither a table nor a view has the name.
fn is_missing(parts: &Parts, name: &Name) -> bool
    ensures { result
        ≡ (is_none (table_of parts.now.now name.now) && is_none
        (view_of parts.now.now name.now)) }
{
    match parts.table(name) {
        Some(_) => false,
        None => match parts.view(name) {
            Some(_) => false,
            None => true,
        },
    }
}

fn rename_tests(parts: &Parts, by: By, dialect: Dialect, table: &Name, to: &Name) -> Tests
    ensures { verdict_of result
        ≡ verdict_of
        (tests_of (spec.rename_table by dialect table.now to.now parts.now.now) no_faults) }
{
    Tests {
        reserved: are_reserved(by, table, to),
        missing: is_missing(parts, table),
        exists: is_taken_to(parts, by, dialect, table, to),
        depends: is_viewed(parts, table),
        wrong: false,
        wide: false,
        nulls: false,
        twins: false,
        orphans: false,
        children: false,
        full: false,
    }
}

/// Gives a table that is there another name, in the foreign keys that aim at it too.
fn move_table(parts: &mut Parts, alloc: Global, table: &Name, to: &Name) -> Result<(), NoMemory>
    requires there { is_some (table_of parts.old.now table.now) ≡ true }
    requires absent { table_of parts.old.now to.now ≡ None }
    requires ordered { IsStrictlySortedBy name_cmp (keys_of parts.old.now.tables) }
    ensures ok { OnOk result (parts.new.now ≡ spec.table_renamed table.now to.now parts.old.now) }
    ensures goes { Continues parts.old parts.new }
{
    let name = to.duplicate(alloc)?;
    parts.rename_table(table, name)?;
    retarget_all(parts, alloc, table, to)?;
    Ok(())
}

/// A copy of a view that is there.
fn again(alloc: Global, parts: &Parts, view: &Name) -> Result<View, NoMemory>
    requires { is_some (view_of parts.now.now view.now) ≡ true }
    ensures { IfOk result (λ copy. view_of parts.now.now view.now ≡ Some copy) }
{
    match parts.view(view) {
        Some(view) => view.duplicate(alloc),
        None => unreachable!(),
    }
}

/// Gives a view that is there another name.
fn move_view(parts: &mut Parts, alloc: Global, view: &Name, to: &Name) -> Result<(), NoMemory>
    requires there { is_some (view_of parts.old.now view.now) ≡ true }
    requires absent { view_of (without_view parts.old.now view.now) to.now ≡ None }
    ensures ok { OnOk result (parts.new.now ≡ spec.view_renamed view.now to.now parts.old.now) }
    ensures goes { Continues parts.old parts.new }
{
    let copy = again(alloc, parts, view)?;
    let name = to.duplicate(alloc)?;
    parts.take_view(view)?;
    parts.put_view(name, copy)?;
    Ok(())
}

/// Gives the table of the name another one, or the view where there is no table.
fn rename_there(parts: &mut Parts, alloc: Global, table: &Name, to: &Name) -> Result<(), NoMemory>
    requires there { (is_none (table_of parts.old.now table.now)
        && is_none (view_of parts.old.now table.now))
        ≡ false }
    requires absent { table_of parts.old.now to.now ≡ None }
    requires free { view_of (without_view parts.old.now table.now) to.now ≡ None }
    requires ordered { IsStrictlySortedBy name_cmp (keys_of parts.old.now.tables) }
    ensures ok { OnOk result
        (parts.new.now
        ≡ cond (is_some (table_of parts.old.now table.now))
        (spec.table_renamed table.now to.now parts.old.now)
        (spec.view_renamed table.now to.now parts.old.now)) }
    ensures goes { Continues parts.old parts.new }
{
    if has_table(parts, table) {
        move_table(parts, alloc, table, to)?;
        return Ok(());
    }
    move_view(parts, alloc, table, to)?;
    Ok(())
}

/// RENAME TABLE on a sound catalogue, on someone's behalf. It renames a view where the name is one's.
pub fn rename_table(
    parts: &mut Parts,
    alloc: Global,
    by: By,
    dialect: Dialect,
    table: &Name,
    to: &Name,
) -> Result<u64, RunFault>
    requires { IsSound dialect parts.old.now }
    ensures { Answers (decide (spec.rename_table by dialect table.now to.now parts.old.now))
        parts.old parts.new result }
{
    let tests = rename_tests(parts, by, dialect, table, to);
    match tests.verdict() {
        Ok(()) => {}
        Err(fault) => return Err(fault),
    }
    rename_there(parts, alloc, table, to)?;
    Ok(0)
}
