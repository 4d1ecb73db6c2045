ghost use Rattle.std.specs.Prelude.{◌≡◌, ◌≤◌, IsTrue, Some, false, true};
ghost use Rattle.lq_model.specs.declared.fault.StoreFault.TheVariants as fault;
ghost use Rattle.lq_outside.specs.Forms.{Rose};
ghost use Rattle.lq_resting.specs.Asking.{asks_open};
ghost use Rattle.lq_run.specs.Beside.{is_disk_end};
ghost use Rattle.lq_run.specs.Crashing.{LeftAlone};
ghost use Rattle.lq_run.specs.Ends.{Runs, TellsOn};
ghost use Rattle.lq_run.specs.Steps.{is_over, no_turn, standing};
ghost use Rattle.lq_running.specs.Breaking.{BreaksOff, CrashesOff, TakenBack};
ghost use Rattle.lq_store.specs.Journal.{CrashesLeave, is_open};

use lq_hand::Source;
use lq_model::{SqlText, StoreFault};
use lq_resting::asks_open;
use lq_run::{End, Runner, Step, abort, no_turn};
use lq_store::Store;

/// No other turn comes: the transaction that is open is taken back, and the last call is made.
pub fn break_off<T: Source + Drop, S: Store, P: SqlText>(
    runner: &mut Runner<T>,
    session: u32,
    store: &mut S,
    sql: &P,
) -> End
    requires valid { S.valid store.old }
    requires reads { T.reads runner.old.source runner.old.dialect }
    requires sql { P.dialect ≡ runner.old.dialect }
    requires moment { runner.old.stamp.reading ≤ 253402300799999 }
    requires begun { is_over runner.old.hand.phase ≡ false }
    requires runs { Runs runner.old.dialect T.meaning runner.old.stamp session
        (standing T.left T.way runner.old) (S.state store.old) }
    ensures valid { S.valid store.new }
    ensures ends { BreaksOff runner.old.dialect T.meaning runner.old.stamp session
        (standing T.left T.way runner.old) (S.state store.old) result (S.state store.new) }
    ensures crash { CrashesOff runner.old.dialect T.meaning runner.old.stamp session
        (standing T.left T.way runner.old) (S.state store.old) (S.crashes store.old)
        (S.crashes store.new) }
    ensures tells { TellsOn runner.old.dialect T.meaning runner.old.stamp session
        (standing T.left T.way runner.old) (S.state store.old) result (T.way runner.new.source) }
    ensures later { S.faults store.old ≤ S.faults store.new }
    ensures rose { is_disk_end result ≡ true → Rose (S.faults store.old) (S.faults store.new) }
    ensures over { is_over runner.new.hand.phase ≡ true }
{
    take_back(runner, session, store);
    match runner.step(session, store, sql) {
        Step::Ended(end) => end,
        Step::Going => unreachable!(),
    }
}

/// The transaction that is open is taken back, and only the last call is to come.
fn take_back<T: Source + Drop, S: Store>(runner: &mut Runner<T>, session: u32, store: &mut S)
    requires valid { S.valid store.old }
    requires live { IsTrue (S.state store.old).live }
    requires opens { is_open session (S.state store.old).begun ≡ asks_open runner.old.hand }
    ensures valid { S.valid store.new }
    ensures same { (runner.new.dialect ≡ runner.old.dialect)
        × (runner.new.stamp ≡ runner.old.stamp) }
    ensures source { runner.new.source ≡ runner.old.source }
    ensures fault { runner.new.fault ≡ Some fault.OutOfMemory }
    ensures hand { runner.new.hand ≡ no_turn }
    ensures taken_back { TakenBack runner.old.dialect session (asks_open runner.old.hand)
        (S.state store.old) (S.state store.new) }
    ensures crash { CrashesLeave (S.state store.old).entries LeftAlone (S.crashes store.old)
        (S.crashes store.new) }
    ensures faults { S.faults store.new ≡ S.faults store.old }
{
    if asks_open(&runner.hand) {
        abort(session, store, runner.dialect);
    }
    runner.fault = Some(StoreFault::OutOfMemory);
    runner.hand = no_turn(runner.alloc);
}
