ghost use Rattle.std.specs.Prelude.{◌≡◌, cond, is_some, true};
ghost use Rattle.lq_base.specs.declared.reason.Reason.TheVariants as reason;
ghost use Rattle.lq_decide.specs.Faults.{Faults, judged};
ghost use Rattle.lq_arm.specs.Verdict.{tests_of, verdict_of};
ghost use Rattle.lq_model.specs.Catalogue.{table_of, the_table, with_table};
ghost use Rattle.lq_model.specs.Plan.{Plan, decide};
ghost use Rattle.lq_rows.specs.Stored.{Answers, with_shape};
ghost use Rattle.lq_rows.specs.declared.fault.RunFault.TheVariants.{Refused};
ghost use Rattle.lq_keyops.specs.Targets.{Reshapes};

use lq_arm::Tests;
use lq_base::{Name, Reason};
use lq_parts::{Parts, RunFault};
use lq_rows::Shape;

/// Why a statement is refused whose table is not there.
pub fn nothing_there(reserved: bool) -> RunFault
    ensures { result ≡ Refused (cond reserved reason.Reserved reason.Missing) }
{
    if reserved {
        return RunFault::Refused(Reason::Reserved);
    }
    RunFault::Refused(Reason::Missing)
}

/// Ends a statement that gives a table another shape: with the reason of the first test that holds, or
/// with the shape.
pub fn reshape(parts: &mut Parts, table: &Name, tests: Tests, shape: Shape) -> Result<u64, RunFault>
    requires { is_some (table_of parts.old.now table.now) ≡ true }
    ensures { (p : Plan) (x : Faults)
        → Reshapes p x tests table.now shape parts.old.now
        → Answers (decide p) parts.old parts.new result }
{
    match tests.verdict() {
        Ok(()) => {}
        Err(fault) => return Err(fault),
    }
    parts.shape_table(table, shape)?;
    Ok(0)
}
