ghost use Rattle.std.specs.Prelude.{◌≡◌, ◌≤◌, true};
ghost use Rattle.lq_run.specs.Commands.{IsNew, LeavesAll, RunsWhole, SomeMayRun, TellsAll};
ghost use Rattle.lq_run.specs.Crashes.{BehindAll, CrashesAll};
ghost use Rattle.lq_run.specs.Left.{LeftAll};
ghost use Rattle.lq_outside.specs.Forms.{Rose};
ghost use Rattle.lq_run.specs.Beside.{is_disk_end};
ghost use Rattle.lq_run.specs.Steps.{standing};

use crate::running::run_on;
use lq_hand::Source;
use lq_model::SqlText;
use lq_run::{End, Runner, end_of, take_lock};
use lq_statement::laws::statements_read_back;
use lq_store::Store;

/// Takes the lock, makes all calls that a command has still to make, and frees the lock. The command
/// has made none.
///
/// Where it is done, or a statement was refused, the store stands for what the whole script leaves. A
/// fault of the store before the lock is taken leaves it as it was, but for what a fault of the disk
/// has written; after that it stands for what a front of the script leaves. A full journal is told as
/// full as it was when a call had no room. Where there was no fault the source has told what it was on
/// its way to tell. A crash at any moment leaves the entries before, followed by those that a stop of
/// the script may leave.
pub fn run_command<T: Source + Drop, S: Store, P: SqlText>(
    runner: &mut Runner<T>,
    session: u32,
    store: &mut S,
    sql: &P,
) -> End
    requires valid { S.valid store.old }
    requires reads { T.reads runner.old.source runner.old.dialect }
    requires sql { P.dialect ≡ runner.old.dialect }
    requires moment { runner.old.stamp.reading ≤ 253402300799999 }
    requires new { IsNew runner.old.dialect T.meaning runner.old.stamp
        (standing T.left T.way runner.old) }
    requires may_run { SomeMayRun runner.old.dialect T.meaning runner.old.stamp session
        (standing T.left T.way runner.old) (S.state store.old) }
    ensures valid { S.valid store.new }
    ensures ends { RunsWhole runner.old.dialect T.meaning runner.old.stamp session
        (standing T.left T.way runner.old) (S.state store.old) result (S.state store.new) }
    ensures leaves { LeavesAll runner.old.dialect T.meaning runner.old.stamp
        (standing T.left T.way runner.old) (S.state store.old) result (S.state store.new) }
    ensures left { LeftAll runner.old.dialect T.meaning runner.old.stamp
        (standing T.left T.way runner.old) (S.state store.old) result (S.state store.new) }
    ensures behind { BehindAll runner.old.dialect T.meaning runner.old.stamp
        (standing T.left T.way runner.old) (S.state store.old) (S.state store.new) }
    ensures any_moment { CrashesAll runner.old.dialect T.meaning runner.old.stamp
        (standing T.left T.way runner.old) (S.state store.old) (S.crashes store.old)
        (S.crashes store.new) }
    ensures tells { TellsAll runner.old.dialect T.meaning runner.old.stamp
        (standing T.left T.way runner.old) (S.state store.old) result (T.way runner.new.source) }
    ensures later { S.faults store.old ≤ S.faults store.new }
    ensures rose { is_disk_end result ≡ true → Rose (S.faults store.old) (S.faults store.new) }
{
    statements_read_back();
    match take_lock(
        runner.alloc,
        session,
        store,
        sql,
        runner.dialect,
        &runner.stamp,
    ) {
        Ok(()) => run_on(runner, session, store, sql),
        Err(fault) => end_of(fault),
    }
}
