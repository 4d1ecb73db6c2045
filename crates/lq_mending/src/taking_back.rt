ghost use Rattle.std.specs.Prelude.{◌≡◌, ◌≤◌, Err, true};
ghost use Rattle.laws_repair.specs.Repair.{back_calls};
ghost use Rattle.lq_mending.specs.Mends.{CrashesTaking, SomeRests, Takes, Tells};
ghost use Rattle.lq_mending.specs.Comes.{refusal_of};
ghost use Rattle.lq_model.specs.Step.{is_statement};
ghost use Rattle.lq_outside.specs.Forms.{Rose};
ghost use Rattle.lq_reverse.specs.Back.{back};
ghost use Rattle.lq_run.specs.declared.runner.End.TheVariants.{Disk};

use crate::all::{Made, make_all};
use lq_base::Reason;
use lq_model::{SqlText, Statement};
use lq_repair::{Unrecorded, back_hand};
use lq_run::{End, abort};
use lq_store::Store;
use lq_turns::Refusal;
use std::alloc::Global;

/// Takes the statement of this number back, in a transaction with its mark. Where that is refused, or
/// meets a fault that is not the disk's, the transaction is taken back.
pub fn take_back<S: Store, P: SqlText>(
    alloc: Global,
    of: &Unrecorded<'_>,
    number: usize,
    statement: &Statement,
    session: u32,
    store: &mut S,
    sql: &P,
) -> Result<(), End>
    requires valid { S.valid store.old }
    requires sql { P.dialect ≡ of.now.dialect }
    requires statement { is_statement of.now.dialect statement.now ≡ true }
    requires rests { SomeRests of.now.dialect session (S.state store.old) }
    ensures valid { S.valid store.new }
    ensures takes { Takes of.now.dialect session
        (back_calls of.now.who.now of.now.identity.now number (back of.now.dialect statement.now))
        (S.state store.old) result (S.state store.new) }
    ensures tells { Tells of.now.dialect session number (back of.now.dialect statement.now)
        (S.state store.old) result }
    ensures crash { CrashesTaking of.now.dialect session
        (back_calls of.now.who.now of.now.identity.now number (back of.now.dialect statement.now))
        (S.state store.old) (S.crashes store.old) (S.crashes store.new) }
    ensures later { S.faults store.old ≤ S.faults store.new }
    ensures rose { result ≡ Err Disk → Rose (S.faults store.old) (S.faults store.new) }
{
    let Ok(mut hand) = back_hand(alloc, of, number, statement) else {
        return Err(End::OutOfMemory);
    };
    match make_all(&mut hand, alloc, session, store, sql, of.dialect) {
        Made::All => Ok(()),
        Made::Refused(reason) => {
            abort(session, store, of.dialect);
            Err(End::Refused(refusal_of(number, reason)))
        }
        Made::Disk => Err(End::Disk),
        Made::Full { used, next } => {
            abort(session, store, of.dialect);
            Err(End::Full { used, next })
        }
        Made::OutOfMemory => {
            abort(session, store, of.dialect);
            Err(End::OutOfMemory)
        }
    }
}

// The statement is not taken back, and stands with those before it.
fn refusal_of(number: usize, reason: Reason) -> Refusal
    ensures { result ≡ refusal_of number reason }
{
    Refusal {
        statement: number as u64,
        kept: number as u64,
        reason,
    }
}
