ghost use Rattle.std.specs.Prelude.{◌≡◌};
ghost use Rattle.lq_arm.specs.Verdict.{tests_of, verdict_of};
ghost use Rattle.lq_base.specs.declared.dialect.Dialect as kinds;
ghost use Rattle.lq_decide.specs.Faults.{no_faults};
ghost use Rattle.lq_model.specs.Plan.{decide};
ghost use Rattle.lq_model.specs.Tables as spec;
ghost use Rattle.lq_model.specs.Sound.{IsSound};
ghost use Rattle.lq_rows.specs.Stored.{Answers};

use crate::asked::{has_column_of, is_column_missing};
use crate::names::is_shown;
use crate::shapes::rename_in_all;
use lq_arm::Tests;
use lq_base::{Dialect, Name};
use lq_model::By;
use lq_parts::{Parts, RunFault};
use lq_query::is_reserved;
use std::alloc::Global;

fn rename_tests(parts: &Parts, by: By, table: &Name, column: &Name, to: &Name) -> Tests
    ensures { (d : kinds.Dialect)
        → verdict_of result
        ≡ verdict_of
        (tests_of (spec.rename_column by d table.now column.now to.now parts.now.now)
        no_faults) }
{
    Tests {
        reserved: is_reserved(by, table),
        missing: is_column_missing(parts, table, column),
        exists: has_column_of(parts, table, to),
        depends: is_shown(parts, table, column),
        wrong: false,
        wide: false,
        nulls: false,
        twins: false,
        orphans: false,
        children: false,
        full: false,
    }
}

/// RENAME COLUMN on a sound catalogue, on someone's behalf.
pub fn rename_column(
    parts: &mut Parts,
    alloc: Global,
    by: By,
    dialect: Dialect,
    table: &Name,
    column: &Name,
    to: &Name,
) -> Result<u64, RunFault>
    requires { IsSound dialect parts.old.now }
    ensures { Answers
        (decide (spec.rename_column by dialect table.now column.now to.now parts.old.now)) parts.old
        parts.new result }
{
    let tests = rename_tests(parts, by, table, column, to);
    match tests.verdict() {
        Ok(()) => {}
        Err(fault) => return Err(fault),
    }
    rename_in_all(parts, alloc, table, column, to)?;
    Ok(0)
}
