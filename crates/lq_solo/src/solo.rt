ghost use Rattle.std.specs.Prelude.{◌≡◌, ◌≤◌, Err, IsTrue, None, is_some, true, ℕ};
ghost use Rattle.lq_alone.specs.Plain.{EndsAlone};
ghost use Rattle.lq_drill.specs.Player.{MakesNone};
ghost use Rattle.lq_drill.specs.declared.fault.DrillFault.TheVariants as fault;
ghost use Rattle.lq_outside.specs.Forms.{Rose};
ghost use Rattle.lq_players.specs.AnyCommand.{IsUnstarted, command_stands};
ghost use Rattle.lq_run.specs.Crashes.{LeftBehind, LeftInCommand};
ghost use Rattle.lq_run.specs.Left.{RestsIn};
ghost use Rattle.lq_solo.specs.Solo.{OnFitting, OnWork};
ghost use Rattle.lq_store.specs.Journal.{CrashesLeave};

use crate::laws::{scripts_close, works_answer_own};
use lq_alone::run_alone;
use lq_drill::DrillFault;
use lq_model::SqlText;
use lq_players::AnyCommand;
use lq_store::Store;

/// Runs a command of any kind by itself, on the database of a store. It ends by the first of its checks
/// that fails, and has made no call; or its whole script is done. However else it ends, what a stop of
/// the script may leave is left, and so it is by a crash.
pub fn run_by_itself<S: Store, P: SqlText>(
    command: &mut AnyCommand,
    store: &mut S,
    sql: &P,
) -> Result<(), DrillFault>
    requires valid { S.valid store.old }
    requires live { IsTrue (S.state store.old).live }
    requires closed { (S.state store.old).begun ≡ None }
    requires sql { P.dialect ≡ (S.state store.old).dialect }
    requires unstarted { IsUnstarted P.dialect command.old }
    ensures valid { S.valid store.new }
    ensures idle { OnWork command.old (S.state store.old)
        (λ work database. MakesNone work database → store.new ≡ store.old) }
    ensures ends { OnWork command.old (S.state store.old)
        (λ work database. EndsAlone work (S.state store.old) database
        (command_stands command.new).answer result (S.state store.new)) }
    ensures behind { OnFitting command.old (S.state store.old)
        (λ work database. LeftBehind (S.state store.old).dialect (work.script database) database
        (S.state store.old) (S.state store.new)) }
    ensures any_moment { OnFitting command.old (S.state store.old)
        (λ work database. CrashesLeave (S.state store.old).entries
        (LeftInCommand (S.state store.old).dialect (work.script database) database)
        (S.crashes store.old) (S.crashes store.new)) }
    ensures rests { OnFitting command.old (S.state store.old)
        (λ work database. (used next : ℕ)
        → result ≡ Err (fault.Full used next)
        → RestsIn (S.state store.old).dialect (work.script database) database
        (S.state store.old) (S.state store.new) used next) }
    ensures shut { is_some (command_stands command.new).answer ≡ true
        → (S.state store.new).live ≡ true
        → (S.state store.new).begun ≡ None }
    ensures later { S.faults store.old ≤ S.faults store.new }
    ensures rose { result ≡ Err fault.Disk → Rose (S.faults store.old) (S.faults store.new) }
{
    scripts_close();
    works_answer_own();
    run_alone(command, store, sql)
}
