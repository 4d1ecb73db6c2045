ghost use Rattle.std.specs.List.{list_all};
ghost use Rattle.std.specs.Prelude.{◌≡◌, ◌≤◌, true};
ghost use Rattle.laws_repair.specs.Repair.{repair_calls};
ghost use Rattle.lq_mending.specs.Mends.{CrashesFreeing, Frees, MayRepair, OnLocked, OnMarked, SomeRests, TellsEnd, TellsFull};
ghost use Rattle.lq_mending.specs.Comes.{back_refused};
ghost use Rattle.lq_model.specs.Step.{is_statement};
ghost use Rattle.lq_outside.specs.Forms.{Rose};
ghost use Rattle.lq_run.specs.Commands.{LeavesAs};
ghost use Rattle.lq_run.specs.Crashes.{CrashesLeave, LeftBehind, LeftInCommand};
ghost use Rattle.lq_run.specs.Beside.{is_disk_end};
ghost use Rattle.lq_run.specs.Steps.{end_of};

use crate::taking_back::take_back;
use lq_model::{SqlText, Statement, StoreFault};
use lq_repair::{Unrecorded, next_back};
use lq_run::{End, free_lock};
use lq_statement::laws::statements_read_back;
use lq_store::Store;
use std::alloc::Global;

/// Takes the first statements of a changeset back, the last of them first, each in a transaction with
/// its mark; then it frees the lock. A statement that nothing takes back is passed over.
///
/// What takes a statement back may be refused: then that statement and those before it stand still, and
/// the lock stays held. So it does after a full journal, want of memory or a fault of the disk; then the
/// store holds what a stop of these calls may leave.
pub fn repair<S: Store, P: SqlText>(
    alloc: Global,
    of: &Unrecorded<'_>,
    statements: &[Statement],
    session: u32,
    store: &mut S,
    sql: &P,
) -> End
    requires valid { S.valid store.old }
    requires sql { P.dialect ≡ of.now.dialect }
    requires statements { list_all (is_statement of.now.dialect) statements.now ≡ true }
    requires may { MayRepair of.now.dialect (S.state store.old) }
    ensures valid { S.valid store.new }
    ensures leaves { OnLocked of.now.dialect (S.state store.old) (λ database.
        LeavesAs of.now.dialect
        (repair_calls of.now.dialect of.now.who.now of.now.identity.now statements.now database)
        database (S.state store.old) result (S.state store.new)) }
    ensures behind { OnLocked of.now.dialect (S.state store.old) (λ database.
        LeftBehind of.now.dialect
        (repair_calls of.now.dialect of.now.who.now of.now.identity.now statements.now database)
        database (S.state store.old) (S.state store.new)) }
    ensures full { OnMarked of.now.dialect (S.state store.old) (λ database.
        TellsFull of.now.dialect
        (repair_calls of.now.dialect of.now.who.now of.now.identity.now statements.now database)
        database (S.state store.old) result (S.state store.new)) }
    ensures any_moment { OnLocked of.now.dialect (S.state store.old) (λ database.
        CrashesLeave (S.state store.old).entries
        (LeftInCommand of.now.dialect
        (repair_calls of.now.dialect of.now.who.now of.now.identity.now statements.now
        database)
        database)
        (S.crashes store.old) (S.crashes store.new)) }
    ensures tells { OnLocked of.now.dialect (S.state store.old) (λ database.
        TellsEnd (back_refused of.now.dialect statements.now database.users) result) }
    ensures later { S.faults store.old ≤ S.faults store.new }
    ensures rose { is_disk_end result ≡ true → Rose (S.faults store.old) (S.faults store.new) }
{
    statements_read_back();
    let _count = statements.len();
    let mut rest = statements;
    while let Some((statement, before)) = next_back(rest) {
        let number = rest.len();
        match take_back(alloc, of, number, statement, session, store, sql) {
            Ok(()) => rest = before,
            Err(end) => return end,
        }
    }
    free(alloc, of, session, store, sql)
}

// Nothing is left to take back: the lock is freed.
fn free<S: Store, P: SqlText>(
    alloc: Global,
    of: &Unrecorded<'_>,
    session: u32,
    store: &mut S,
    sql: &P,
) -> End
    requires valid { S.valid store.old }
    requires sql { P.dialect ≡ of.now.dialect }
    requires rests { SomeRests of.now.dialect session (S.state store.old) }
    ensures valid { S.valid store.new }
    ensures frees { Frees of.now.dialect session (S.state store.old) result (S.state store.new) }
    ensures crash { CrashesFreeing of.now.dialect session (S.state store.old)
        (S.crashes store.old) (S.crashes store.new) }
    ensures later { S.faults store.old ≤ S.faults store.new }
    ensures rose { is_disk_end result ≡ true → Rose (S.faults store.old) (S.faults store.new) }
{
    match free_lock(alloc, session, store, sql, of.dialect) {
        Ok(()) => End::Done,
        Err(fault) => end_of(fault),
    }
}

// How a call ends that met a fault.
fn end_of(fault: StoreFault) -> End
    ensures { result ≡ end_of fault }
{
    match fault {
        StoreFault::Disk => End::Disk,
        StoreFault::Full { used, next } => End::Full { used, next },
        StoreFault::Refused(_)
        | StoreFault::NotSql
        | StoreFault::Busy(_)
        | StoreFault::OutOfMemory => End::OutOfMemory,
    }
}
