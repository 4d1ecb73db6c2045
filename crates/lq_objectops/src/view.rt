ghost use Rattle.std.specs.Prelude.{◌≡◌, IfOk, Some, is_some, true};
ghost use Rattle.lq_decide.specs.Faults.{no_faults};
ghost use Rattle.lq_arm.specs.Verdict.{tests_of, verdict_of};
ghost use Rattle.lq_model.specs.Catalogue.{view_of};
ghost use Rattle.lq_model.specs.Plan.{decide};
ghost use Rattle.lq_model.specs.Tables as renaming;
ghost use Rattle.lq_model.specs.Sound.{IsSound};
ghost use Rattle.lq_model.specs.Views as spec;
ghost use Rattle.lq_rows.specs.Stored.{Answers};

use crate::names::{are_reserved, is_taken_to, no_tests};
use lq_arm::Tests;
use lq_base::{Dialect, Duplicate, Name, NoMemory};
use lq_model::By;
use lq_parts::{Parts, RunFault, View};
use lq_query::is_reserved;
use std::alloc::Global;

fn drop_tests(parts: &Parts, by: By, dialect: Dialect, view: &Name) -> Tests
    ensures { verdict_of result
        ≡ verdict_of (tests_of (spec.drop_view by dialect view.now parts.now.now) no_faults) }
{
    let _ = dialect;
    Tests {
        reserved: is_reserved(by, view),
        missing: parts.view(view).is_none(),
        ..no_tests()
    }
}

/// DROP VIEW on a sound catalogue, on someone's behalf.
pub fn drop_view(parts: &mut Parts, by: By, dialect: Dialect, view: &Name) -> Result<u64, RunFault>
    requires { IsSound dialect parts.old.now }
    ensures { Answers (decide (spec.drop_view by dialect view.now parts.old.now)) parts.old
        parts.new result }
{
    let tests = drop_tests(parts, by, dialect, view);
    match tests.verdict() {
        Ok(()) => {}
        Err(fault) => return Err(fault),
    }
    parts.take_view(view)?;
    Ok(0)
}

fn rename_tests(parts: &Parts, by: By, dialect: Dialect, view: &Name, to: &Name) -> Tests
    ensures { verdict_of result
        ≡ verdict_of
        (tests_of (renaming.rename_view by dialect view.now to.now parts.now.now) no_faults) }
{
    Tests {
        reserved: are_reserved(by, view, to),
        missing: parts.view(view).is_none(),
        exists: is_taken_to(parts, by, dialect, view, to),
        ..no_tests()
    }
}

/// A copy of a view that is there.
fn again(alloc: Global, parts: &Parts, view: &Name) -> Result<View, NoMemory>
    requires { is_some (view_of parts.now.now view.now) ≡ true }
    ensures { IfOk result (λ copy. view_of parts.now.now view.now ≡ Some copy) }
{
    match parts.view(view) {
        Some(view) => view.duplicate(alloc),
        None => unreachable!(),
    }
}

/// Renames a view on a sound catalogue, on someone's behalf.
pub fn rename_view(
    parts: &mut Parts,
    alloc: Global,
    by: By,
    dialect: Dialect,
    view: &Name,
    to: &Name,
) -> Result<u64, RunFault>
    requires { IsSound dialect parts.old.now }
    ensures { Answers (decide (renaming.rename_view by dialect view.now to.now parts.old.now))
        parts.old parts.new result }
{
    let tests = rename_tests(parts, by, dialect, view, to);
    match tests.verdict() {
        Ok(()) => {}
        Err(fault) => return Err(fault),
    }
    let copy = again(alloc, parts, view)?;
    let to = to.duplicate(alloc)?;
    parts.take_view(view)?;
    parts.put_view(to, copy)?;
    Ok(0)
}
