ghost use Rattle.std.specs.Prelude.{◌≡◌, Some, is_some, true, ℤ};
ghost use Rattle.lq_model.specs.Catalogue.{sequence_of};
ghost use Rattle.lq_model.specs.Plan.{decide};
ghost use Rattle.lq_model.specs.Views as spec;
ghost use Rattle.lq_model.specs.Sound.{IsSound};
ghost use Rattle.lq_decide.specs.Faults.{no_faults};
ghost use Rattle.lq_arm.specs.Verdict.{tests_of, verdict_of};
ghost use Rattle.lq_rows.specs.Stored.{Answers};

use crate::names::{are_reserved, is_taken, is_taken_to, no_tests};
use lq_arm::Tests;
use lq_base::{Dialect, Duplicate, Name};
use lq_model::By;
use lq_parts::{Parts, RunFault, Sequence};
use lq_query::is_reserved;
use std::alloc::Global;

fn create_tests(parts: &Parts, by: By, dialect: Dialect, name: &Name) -> Tests
    ensures { (start step : ℤ)
        → verdict_of result
        ≡ verdict_of
        (tests_of (spec.create_sequence by dialect name.now start step parts.now.now)
        no_faults) }
{
    Tests {
        reserved: is_reserved(by, name),
        exists: is_taken(parts, by, dialect, name),
        ..no_tests()
    }
}

/// CREATE SEQUENCE on a sound catalogue, on someone's behalf.
pub fn create_sequence(
    parts: &mut Parts,
    alloc: Global,
    by: By,
    dialect: Dialect,
    name: &Name,
    start: i128,
    step: i128,
) -> Result<u64, RunFault>
    requires { IsSound dialect parts.old.now }
    ensures { Answers (decide (spec.create_sequence by dialect name.now start step parts.old.now))
        parts.old parts.new result }
{
    let tests = create_tests(parts, by, dialect, name);
    match tests.verdict() {
        Ok(()) => {}
        Err(fault) => return Err(fault),
    }
    let name = name.duplicate(alloc)?;
    parts.put_sequence(name, Sequence::new(start, step))?;
    Ok(0)
}

fn drop_tests(parts: &Parts, by: By, dialect: Dialect, name: &Name) -> Tests
    ensures { verdict_of result
        ≡ verdict_of (tests_of (spec.drop_sequence by dialect name.now parts.now.now) no_faults) }
{
    let _ = dialect;
    Tests {
        reserved: is_reserved(by, name),
        missing: parts.sequence(name).is_none(),
        ..no_tests()
    }
}

/// DROP SEQUENCE on a sound catalogue, on someone's behalf.
pub fn drop_sequence(
    parts: &mut Parts,
    by: By,
    dialect: Dialect,
    name: &Name,
) -> Result<u64, RunFault>
    requires { IsSound dialect parts.old.now }
    ensures { Answers (decide (spec.drop_sequence by dialect name.now parts.old.now)) parts.old
        parts.new result }
{
    let tests = drop_tests(parts, by, dialect, name);
    match tests.verdict() {
        Ok(()) => {}
        Err(fault) => return Err(fault),
    }
    parts.take_sequence(name)?;
    Ok(0)
}

fn rename_tests(parts: &Parts, by: By, dialect: Dialect, name: &Name, to: &Name) -> Tests
    ensures { verdict_of result
        ≡ verdict_of
        (tests_of (spec.rename_sequence by dialect name.now to.now parts.now.now) no_faults) }
{
    Tests {
        reserved: are_reserved(by, name, to),
        missing: parts.sequence(name).is_none(),
        exists: is_taken_to(parts, by, dialect, name, to),
        ..no_tests()
    }
}

/// A sequence that is there, again.
fn again(parts: &Parts, name: &Name) -> Sequence
    requires { is_some (sequence_of parts.now.now name.now) ≡ true }
    ensures { sequence_of parts.now.now name.now ≡ Some result }
{
    match parts.sequence(name) {
        Some(sequence) => Sequence::new(sequence.start(), sequence.step()),
        None => unreachable!(),
    }
}

/// Renames a sequence on a sound catalogue, on someone's behalf.
pub fn rename_sequence(
    parts: &mut Parts,
    alloc: Global,
    by: By,
    dialect: Dialect,
    name: &Name,
    to: &Name,
) -> Result<u64, RunFault>
    requires { IsSound dialect parts.old.now }
    ensures { Answers (decide (spec.rename_sequence by dialect name.now to.now parts.old.now))
        parts.old parts.new result }
{
    let tests = rename_tests(parts, by, dialect, name, to);
    match tests.verdict() {
        Ok(()) => {}
        Err(fault) => return Err(fault),
    }
    let sequence = again(parts, name);
    let to = to.duplicate(alloc)?;
    parts.take_sequence(name)?;
    parts.put_sequence(to, sequence)?;
    Ok(0)
}
