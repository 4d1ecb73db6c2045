ghost use Rattle.std.specs.Prelude.{◌≡◌, false};
ghost use Rattle.lq_base.specs.declared.dialect.Dialect as kinds;
ghost use Rattle.lq_model.specs.Tables as spec;
ghost use Rattle.lq_model.specs.Plan.{decide, is_loose};
ghost use Rattle.lq_model.specs.Sound.{IsSound};
ghost use Rattle.lq_decide.specs.Faults.{no_faults};
ghost use Rattle.lq_arm.specs.Verdict.{tests_of, verdict_of};
ghost use Rattle.lq_rows.specs.Stored.{Answers};

use crate::needs::{has_targets, is_targeted, is_viewed};
use lq_arm::Tests;
use lq_base::{Dialect, Name, NoMemory};
use lq_model::By;
use lq_parts::{Parts, RunFault};
use lq_query::is_reserved;

/// DROP TABLE on a sound catalogue, on someone's behalf.
#[tactic(auto, using(lq_rows::proofs::Continued::stays))]
pub fn drop_table(
    parts: &mut Parts,
    by: By,
    dialect: Dialect,
    table: &Name,
) -> Result<u64, RunFault>
    requires { IsSound dialect parts.old.now }
    ensures { Answers (decide (spec.drop_table by dialect table.now parts.old.now)) parts.old
        parts.new result }
{
    learn_targets(parts, table)?;
    drop_tested(parts, by, dialect, table)
}

fn drop_tested(parts: &mut Parts, by: By, dialect: Dialect, table: &Name) -> Result<u64, RunFault>
    requires { IsSound dialect parts.old.now }
    ensures { Answers (decide (spec.drop_table by dialect table.now parts.old.now)) parts.old
        parts.new result }
{
    let tests = drop_tests(parts, by, table);
    match tests.verdict() {
        Ok(()) => {}
        Err(fault) => return Err(fault),
    }
    parts.take_table(table)?;
    Ok(0)
}

// What is asked of the other tables gets known once, for all statements.
fn learn_targets(parts: &mut Parts, table: &Name) -> Result<(), NoMemory>
    ensures { parts.new ≡ parts.old }
{
    if has_targets(parts, table) {
        parts.see_targets()?;
    }
    Ok(())
}

fn drop_tests(parts: &Parts, by: By, table: &Name) -> Tests
    requires { is_loose parts.now.now ≡ false }
    ensures { (d : kinds.Dialect)
        → verdict_of result
        ≡ verdict_of (tests_of (spec.drop_table by d table.now parts.now.now) no_faults) }
{
    Tests {
        reserved: is_reserved(by, table),
        missing: parts.table(table).is_none(),
        exists: false,
        depends: is_viewed(parts, table) | is_targeted(parts, table),
        wrong: false,
        wide: false,
        nulls: false,
        twins: false,
        orphans: false,
        children: false,
        full: false,
    }
}
