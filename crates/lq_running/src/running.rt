ghost use Rattle.std.specs.Prelude.{◌≡◌, ◌≤◌, false, true};
ghost use Rattle.lq_run.specs.Crashing.{CrashesOn};
ghost use Rattle.lq_run.specs.Ends.{Runs, RunsOn, TellsOn};
ghost use Rattle.lq_outside.specs.Forms.{Rose};
ghost use Rattle.lq_run.specs.Beside.{is_disk_end};
ghost use Rattle.lq_run.specs.Steps.{is_over, standing};

use crate::breaking::break_off;
use lq_hand::Source;
use lq_model::SqlText;
use lq_run::{End, Runner, Step};
use lq_store::Store;

/// Makes all calls that a command has still to make. After 2^64 - 1 of them it is broken off.
///
/// Where it is done, or a statement was refused, the store stands for what the whole script leaves.
/// After a fault of the store it stands for what a front of the script leaves, and the lock may be free
/// again, where it had no mark. A full journal is told as full as it was when a call had no room. Where
/// there was no fault the source has told what it was on its way to tell. A crash at any moment leaves a
/// front of what the script writes, or of what was written when the lock was freed after a fault.
pub fn run_on<T: Source + Drop, S: Store, P: SqlText>(
    runner: &mut Runner<T>,
    session: u32,
    store: &mut S,
    sql: &P,
) -> End
    requires valid { S.valid store.old }
    requires reads { T.reads runner.old.source runner.old.dialect }
    requires sql { P.dialect ≡ runner.old.dialect }
    requires moment { runner.old.stamp.reading ≤ 253402300799999 }
    requires begun { is_over runner.old.hand.phase ≡ false }
    requires runs { Runs runner.old.dialect T.meaning runner.old.stamp session
        (standing T.left T.way runner.old) (S.state store.old) }
    ensures valid { S.valid store.new }
    ensures ends { RunsOn runner.old.dialect T.meaning runner.old.stamp session
        (standing T.left T.way runner.old) (S.state store.old) result (S.state store.new) }
    ensures crash { CrashesOn runner.old.dialect T.meaning runner.old.stamp session
        (standing T.left T.way runner.old) (S.state store.old) (S.crashes store.old)
        (S.crashes store.new) }
    ensures tells { TellsOn runner.old.dialect T.meaning runner.old.stamp session
        (standing T.left T.way runner.old) (S.state store.old) result (T.way runner.new.source) }
    ensures later { S.faults store.old ≤ S.faults store.new }
    ensures rose { is_disk_end result ≡ true → Rose (S.faults store.old) (S.faults store.new) }
    ensures over { is_over runner.new.hand.phase ≡ true }
{
    for _ in 0..u64::MAX {
        match runner.step(session, store, sql) {
            Step::Going => {}
            Step::Ended(end) => return end,
        }
    }
    break_off(runner, session, store, sql)
}
