ghost use Rattle.std.specs.Prelude.{◌≡◌, ◌≤◌, Err, IsTrue, None, Ok, is_some, true, ℕ};
ghost use Rattle.lq_drill.specs.Drill.{IsNew, IsReady};
ghost use Rattle.lq_drill.specs.declared.fault.DrillFault.TheVariants as fault;
ghost use Rattle.lq_alone.specs.One.{AnswersOwn, LeftAlone, RanAlone};
ghost use Rattle.lq_alone.specs.Stopped.{MayStop};
ghost use Rattle.lq_alone.specs.Plain.{EndsAlone, IsLeftBehind, LeavesLock};
ghost use Rattle.lq_drill.specs.Player.{MakesNone};
ghost use Rattle.lq_outside.specs.Forms.{Rose};
ghost use Rattle.lq_run.specs.Crashes.{LeftBehind, LeftInCommand};
ghost use Rattle.lq_run.specs.Left.{RestsIn};
ghost use Rattle.lq_store.specs.Journal.{CrashesLeave};
ghost use Rattle.lq_track.specs.Database.{Database};
ghost use Rattle.lq_turns.specs.Schedule.{StandsFor};

use lq_drill::{DrillFault, Player};
use lq_model::SqlText;
use lq_statement::laws::statements_read_back;
use lq_store::Store;

/// Takes a command's steps until it answers. After 2^64 - 1 of them it gives up.
pub fn alone<R: Player, S: Store, P: SqlText>(
    player: &mut R,
    store: &mut S,
    sql: &P,
) -> Result<(), DrillFault>
    requires valid { S.valid store.old }
    requires live { IsTrue (S.state store.old).live }
    requires closed { (S.state store.old).begun ≡ None }
    requires sql { P.dialect ≡ (S.state store.old).dialect }
    requires ready { IsReady P.dialect (S.state store.old) 1 (R.standing player.old) }
    requires new { IsNew 1 (R.standing player.old) }
    ensures valid { S.valid store.new }
    ensures idle { (database : Database)
        → StandsFor (S.state store.old).dialect (S.state store.old).committed database
        → MakesNone (R.standing player.old).job database
        → store.new ≡ store.old }
    ensures runs { (database : Database)
        → StandsFor (S.state store.old).dialect (S.state store.old).committed database
        → RanAlone R.failed (R.standing player.old).job (S.state store.old) database
        (R.standing player.new) result (S.state store.new) }
    ensures crash { (database : Database)
        → StandsFor (S.state store.old).dialect (S.state store.old).committed database
        → CrashesLeave (S.state store.old).entries
        (LeftAlone R.failed (R.standing player.old).job (S.state store.old) database
        ((R.standing player.new).faulted ≡ true)) (S.crashes store.old) (S.crashes store.new) }
    ensures shut { is_some (R.standing player.new).answer ≡ true
        → (S.state store.new).live ≡ true
        → (S.state store.new).begun ≡ None }
    ensures later { S.faults store.old ≤ S.faults store.new }
    ensures rose { result ≡ Err fault.Disk → Rose (S.faults store.old) (S.faults store.new) }
{
    for _ in 0..u64::MAX {
        if player.has_answered() {
            return Ok(());
        }
        player.step(1, store, sql)?;
    }
    Err(DrillFault::OutOfMemory)
}

/// Runs a command by itself. It ends by the first of its checks that fails, and has made no call; or its
/// whole script is done. A fault leaves what a stop of the script may leave, and so does a crash; run
/// again, that leads to a database. After a full journal no transaction is open, and the lock is let go,
/// or nothing was written, or what had no room is the entry that frees it.
pub fn run_alone<R: Player, S: Store, P: SqlText>(
    player: &mut R,
    store: &mut S,
    sql: &P,
) -> Result<(), DrillFault>
    requires valid { S.valid store.old }
    requires live { IsTrue (S.state store.old).live }
    requires closed { (S.state store.old).begun ≡ None }
    requires sql { P.dialect ≡ (S.state store.old).dialect }
    requires ready { IsReady P.dialect (S.state store.old) 1 (R.standing player.old) }
    requires new { IsNew 1 (R.standing player.old) }
    ensures valid { S.valid store.new }
    ensures idle { (database : Database)
        → StandsFor (S.state store.old).dialect (S.state store.old).committed database
        → MakesNone (R.standing player.old).job database
        → store.new ≡ store.old }
    ensures ends { (database : Database)
        → StandsFor (S.state store.old).dialect (S.state store.old).committed database
        → EndsAlone (R.standing player.old).job (S.state store.old) database
        (R.standing player.new).answer result (S.state store.new) }
    ensures behind { (database : Database)
        → StandsFor (S.state store.old).dialect (S.state store.old).committed database
        → MayStop (S.state store.old).dialect ((R.standing player.old).job.script database) database
        → LeftBehind (S.state store.old).dialect ((R.standing player.old).job.script database)
        database (S.state store.old) (S.state store.new) }
    ensures any_moment { (database : Database)
        → StandsFor (S.state store.old).dialect (S.state store.old).committed database
        → MayStop (S.state store.old).dialect ((R.standing player.old).job.script database) database
        → CrashesLeave (S.state store.old).entries
        (LeftInCommand (S.state store.old).dialect ((R.standing player.old).job.script database)
        database) (S.crashes store.old) (S.crashes store.new) }
    ensures rests { (database : Database)
        → StandsFor (S.state store.old).dialect (S.state store.old).committed database
        → MayStop (S.state store.old).dialect ((R.standing player.old).job.script database) database
        → AnswersOwn R.failed (R.standing player.old).job database
        → (used next : ℕ)
        → result ≡ Err (fault.Full used next)
        → RestsIn (S.state store.old).dialect ((R.standing player.old).job.script database) database
        (S.state store.old) (S.state store.new) used next }
    ensures lock { (database : Database)
        → StandsFor (S.state store.old).dialect (S.state store.old).committed database
        → (used next : ℕ)
        → result ≡ Err (fault.Full used next)
        → LeavesLock (S.state store.old) database (S.state store.new) used next }
    ensures crash { (database : Database)
        → StandsFor (S.state store.old).dialect (S.state store.old).committed database
        → CrashesLeave (S.state store.old).entries
        (IsLeftBehind (S.state store.old).dialect
        ((R.standing player.old).job.script database) database) (S.crashes store.old)
        (S.crashes store.new) }
    ensures shut { is_some (R.standing player.new).answer ≡ true
        → (S.state store.new).live ≡ true
        → (S.state store.new).begun ≡ None }
    ensures later { S.faults store.old ≤ S.faults store.new }
    ensures rose { result ≡ Err fault.Disk → Rose (S.faults store.old) (S.faults store.new) }
{
    statements_read_back();
    alone(player, store, sql)
}
