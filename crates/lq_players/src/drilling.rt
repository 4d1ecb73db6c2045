ghost use Rattle.std.specs.Prelude.{◌≡◌, ◌≤◌, All, Err, IfErr, IsTrue, None, Ok, length, true, ℕ};
ghost use Rattle.lq_players.specs.AnyCommand.{IsUnstarted, command_stands, BeginInTurn, HaveTasks, NoneReleases, works};
ghost use Rattle.lq_drill.specs.Drill.{Each, EndsAs, FailsBy, IsDrilled, IsDrilledUntil, IsFaultless, IsSerialDrill, LeftAtEnd, LeftInDrill};
ghost use Rattle.lq_drill.specs.Player.{HasMet};
ghost use Rattle.lq_drill.specs.declared.fault.DrillFault.TheVariants as fault;
ghost use Rattle.lq_any.specs.declared.any_change.AnyChange.{AnyChange};
ghost use Rattle.lq_outside.specs.Forms.{Rose};
ghost use Rattle.lq_playing.specs.Answers.{as_failed};
ghost use Rattle.lq_store.specs.Journal.{CrashesLeave};
ghost use Rattle.lq_track.specs.Database.{Database};
ghost use Rattle.lq_turns.specs.Schedule.{StandsFor};
ghost use Rattle.lq_turns.specs.Jobs.{Task};

use crate::any_command::AnyCommand;
use crate::laws::names_are_apart;
use lq_drill::{DrillFault, drill};
use lq_model::SqlText;
use lq_store::Store;

/// Takes the steps of a schedule, each a command's number from 1: one step of that command, or none where
/// it has answered. The command's number is its session. The first that answers a fault of the store ends
/// the drill. Then what is open is taken back.
pub fn drill_commands<S: Store, P: SqlText>(
    players: &mut Vec<AnyCommand>,
    store: &mut S,
    sql: &P,
    steps: &[u32],
) -> Result<(), DrillFault>
    requires valid { S.valid store.old }
    requires live { IsTrue (S.state store.old).live }
    requires closed { (S.state store.old).begun ≡ None }
    requires sql { P.dialect ≡ (S.state store.old).dialect }
    requires unstarted { All (IsUnstarted P.dialect) players.old.items }
    requires steps { All (λ n. (1 ≤ n) × (n ≤ length players.old.items)) steps.now }
    ensures valid { S.valid store.new }
    ensures live { result ≡ Ok tt → IsTrue (S.state store.new).live }
    ensures closed { (S.state store.new).live ≡ true → (S.state store.new).begun ≡ None }
    ensures count { length players.new.items ≡ length players.old.items }
    ensures met { Each command_stands (HasMet as_failed) players.new.items }
    ensures ends { EndsAs command_stands as_failed players.new.items result }
    ensures clean { (tasks : ℕ → Task AnyChange) (database : Database)
        → StandsFor (S.state store.old).dialect (S.state store.old).committed database
        → HaveTasks (S.state store.old).dialect tasks players.old.items
        → Each command_stands IsFaultless players.new.items
        → IsDrilled command_stands (works (S.state store.old).dialect tasks) (S.state store.old)
        database steps.now players.new.items (S.state store.new) }
    ensures until { (tasks : ℕ → Task AnyChange) (database : Database)
        → StandsFor (S.state store.old).dialect (S.state store.old).committed database
        → HaveTasks (S.state store.old).dialect tasks players.old.items
        → IsDrilledUntil command_stands (works (S.state store.old).dialect tasks)
        (S.state store.old) database as_failed steps.now players.new.items (S.state store.new) }
    ensures serial { (tasks : ℕ → Task AnyChange) (database : Database)
        → StandsFor (S.state store.old).dialect (S.state store.old).committed database
        → HaveTasks (S.state store.old).dialect tasks players.old.items
        → Each command_stands IsFaultless players.new.items → NoneReleases tasks steps.now
        → IsSerialDrill command_stands (works (S.state store.old).dialect tasks)
        (S.state store.old) database steps.now players.new.items (S.state store.new) }
    ensures in_turn { (tasks : ℕ → Task AnyChange) (database : Database)
        → StandsFor (S.state store.old).dialect (S.state store.old).committed database
        → HaveTasks (S.state store.old).dialect tasks players.old.items
        → Each command_stands IsFaultless players.new.items
        → BeginInTurn (S.state store.old).dialect tasks database steps.now
        → IsSerialDrill command_stands (works (S.state store.old).dialect tasks)
        (S.state store.old) database steps.now players.new.items (S.state store.new) }
    ensures crash { (tasks : ℕ → Task AnyChange) (database : Database)
        → StandsFor (S.state store.old).dialect (S.state store.old).committed database
        → HaveTasks (S.state store.old).dialect tasks players.old.items
        → CrashesLeave (S.state store.old).entries
        (LeftInDrill command_stands (works (S.state store.old).dialect tasks) (S.state store.old)
        database as_failed steps.now players.new.items) (S.crashes store.old)
        (S.crashes store.new) }
    ensures left { (tasks : ℕ → Task AnyChange) (database : Database)
        → StandsFor (S.state store.old).dialect (S.state store.old).committed database
        → HaveTasks (S.state store.old).dialect tasks players.old.items
        → LeftAtEnd command_stands (works (S.state store.old).dialect tasks) (S.state store.old)
        database as_failed steps.now players.new.items (S.state store.new) }
    ensures cause { (tasks : ℕ → Task AnyChange) (database : Database)
        → StandsFor (S.state store.old).dialect (S.state store.old).committed database
        → HaveTasks (S.state store.old).dialect tasks players.old.items
        → IfErr result (FailsBy command_stands (works (S.state store.old).dialect tasks)
        (S.state store.old) database as_failed steps.now players.new.items (S.state store.new)) }
    ensures later { S.faults store.old ≤ S.faults store.new }
    ensures rose { result ≡ Err fault.Disk → Rose (S.faults store.old) (S.faults store.new) }
{
    names_are_apart();
    drill(players, store, sql, steps)
}
