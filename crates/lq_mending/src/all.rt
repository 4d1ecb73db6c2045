ghost use Rattle.std.specs.Prelude.{◌≡◌, ◌≤◌};
ghost use Rattle.lq_hand.specs.declared.hand.Phase.TheVariants as phase;
ghost use Rattle.lq_mending.specs.Comes.{Comes, CrashesAll, Ends, made_of};
ghost use Rattle.lq_outside.specs.Forms.{Rose};
ghost use Rattle.lq_mending.specs.declared.all.Made.TheVariants as made;

use lq_base::{Dialect, Reason};
use lq_hand::Hand;
use lq_model::{SqlText, StoreFault};
use lq_run::{Moved, NoTurns, take};
use lq_store::Store;
use std::alloc::Global;

/// What became of calls that are made one after another.
#[derive(Clone, Copy)]
pub enum Made {
    All,
    /// One was refused.
    Refused(Reason),
    Disk,
    /// The bytes of the journal, and those of the call's entries.
    Full { used: u64, next: u64 },
    OutOfMemory,
}

fn made_of(fault: StoreFault) -> Made
    ensures { result ≡ made_of fault }
{
    match fault {
        StoreFault::Disk => Made::Disk,
        StoreFault::Full { used, next } => Made::Full { used, next },
        StoreFault::Refused(_) => Made::OutOfMemory,
        StoreFault::NotSql => Made::OutOfMemory,
        StoreFault::Busy(_) => Made::OutOfMemory,
        StoreFault::OutOfMemory => Made::OutOfMemory,
    }
}

/// Makes the calls in hand, up to one that is refused, or fails.
pub fn make_all<S: Store, P: SqlText>(
    hand: &mut Hand,
    alloc: Global,
    session: u32,
    store: &mut S,
    sql: &P,
    dialect: Dialect,
) -> Made
    requires valid { S.valid store.old }
    requires sql { P.dialect ≡ dialect }
    requires inside { hand.old.phase ≡ phase.Inside }
    requires comes { Comes dialect session hand.old (S.state store.old) }
    ensures valid { S.valid store.new }
    ensures ends { Ends dialect session hand.old (S.state store.old) result hand.new
        (S.state store.new) }
    ensures crash { CrashesAll dialect session hand.old (S.state store.old)
        (S.crashes store.old) (S.crashes store.new) }
    ensures later { S.faults store.old ≤ S.faults store.new }
    ensures rose { result ≡ made.Disk → Rose (S.faults store.old) (S.faults store.new) }
{
    while !hand.calls.is_empty() {
        match take::<NoTurns, S, P>(hand, alloc, session, store, sql, dialect) {
            Moved::On => {}
            Moved::Refused(reason) => return Made::Refused(reason),
            Moved::Failed(fault) => return made_of(fault),
            Moved::Lack => return Made::OutOfMemory,
        }
    }
    Made::All
}
