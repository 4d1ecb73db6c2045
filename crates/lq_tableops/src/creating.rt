ghost use Rattle.std.specs.Prelude.{◌≡◌, IfOk};
ghost use Rattle.lq_model.specs.Tables as spec;
ghost use Rattle.lq_model.specs.Plan.{decide};
ghost use Rattle.lq_model.specs.Sound.{IsSound};
ghost use Rattle.lq_decide.specs.Faults.{create_table_faults};
ghost use Rattle.lq_arm.specs.Verdict.{tests_of, verdict_of};
ghost use Rattle.lq_rows.specs.Stored.{Answers};
ghost use Rattle.lq_shapes.specs.Created.{IsDefined};

use crate::aims::aims;
use crate::naming::{clashes, names_lock_key, names_reserved};
use lq_arm::Tests;
use lq_base::{Dialect, Duplicate, NoMemory};
use lq_model::By;
use lq_parts::{Parts, RunFault};
use lq_rows::Held;
use lq_shapes::{
    Columns, Defined, NewTable, define, lacks_own, lists_twice, new_shape, one_depends,
    one_numbers_wrongly, repeats_number,
};
use std::alloc::Global;

fn create_tests(
    parts: &mut Parts,
    alloc: Global,
    by: By,
    dialect: Dialect,
    new: &NewTable<'_>,
    made: &Defined,
) -> Result<Tests, NoMemory>
    requires { IsDefined new.now.key.now new.now.columns.now made.now }
    ensures tests { IfOk result (λ tests.
        verdict_of tests
        ≡ verdict_of
        (tests_of
        (spec.create_table by dialect new.now.name.now new.now.columns.now new.now.key.now
        new.now.uniques.now new.now.foreign.now parts.old.now)
        (create_table_faults new.now.name.now new.now.columns.now new.now.key.now
        new.now.uniques.now new.now.foreign.now parts.old.now))) }
    ensures same { parts.new ≡ parts.old }
{
    let columns = made.columns.as_slice();
    let own = Columns::new(alloc, columns)?;
    let aims = aims(parts, alloc, &own, new)?;
    let reserved = names_reserved(alloc, by, new)?;
    let clash = clashes(parts, alloc, dialect, new)?;
    let lock_key = names_lock_key(alloc, by, dialect, new)?;
    let twice = lists_twice(alloc, columns, new)?;
    Ok(Tests {
        reserved,
        missing: lacks_own(&own, new) | aims.missing,
        exists: clash | (lock_key | twice),
        depends: one_depends(new.key, new.columns) | aims.loose,
        wrong: made.is_wrong
            | (aims.differ | (one_numbers_wrongly(new.columns) | repeats_number(new.columns))),
        wide: made.is_wide,
        nulls: false,
        twins: false,
        orphans: false,
        children: false,
        full: false,
    })
}

/// CREATE TABLE on a sound catalogue, on someone's behalf.
#[tactic(auto, using(lq_rows::proofs::Continued::stays))]
pub fn create_table(
    parts: &mut Parts,
    alloc: Global,
    by: By,
    dialect: Dialect,
    new: &NewTable<'_>,
) -> Result<u64, RunFault>
    requires { IsSound dialect parts.old.now }
    ensures { Answers
        (decide
        (spec.create_table by dialect new.now.name.now new.now.columns.now new.now.key.now
        new.now.uniques.now new.now.foreign.now parts.old.now)) parts.old parts.new result }
{
    let made = define(alloc, new.columns, new.key)?;
    let tests = create_tests(parts, alloc, by, dialect, new, &made)?;
    match tests.verdict() {
        Ok(()) => {}
        Err(fault) => return Err(fault),
    }
    let shape = new_shape(alloc, new, made.columns)?;
    let held = Held::new(alloc, shape)?;
    let name = new.name.duplicate(alloc)?;
    parts.put_table(name, held)?;
    Ok(0)
}
