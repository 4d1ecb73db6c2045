ghost use Rattle.std.specs.Prelude.{◌≡◌, ◌≤◌, Err, IfErr, IfOk, None, false, true};
ghost use Rattle.lq_commands.specs.Outputs.{TellsText};
ghost use Rattle.lq_commands.specs.Refusals.{ends};
ghost use Rattle.lq_commands.specs.Works.{IsQuiet, IsReady};
ghost use Rattle.lq_kinds.specs.ReadFor.{AreFor};
ghost use Rattle.lq_outside.specs.Forms.{Rose};
ghost use Rattle.lq_report.specs.Output.{undone_text};
ghost use Rattle.lq_tell.specs.Texts.{status_done};
ghost use Rattle.lq_tell.specs.declared.status.Status.TheVariants as status;
ghost use Rattle.lq_undoing.specs.Undid.{Undid, status_of};

use lq_base::{Items, Text};
use lq_expr::Options;
use lq_kinds::Changelog;
use lq_mending::{RepairFault, Repaired, undo_unrecorded};
use lq_model::SqlText;
use lq_report::undone_text;
use lq_store::Store;
use lq_tell::{Done, Status};
use std::alloc::Global;

/// Takes back the part of a changeset that a stop left without a row, and frees the lock. `last` is
/// the last text of the journal.
///
/// It writes the changeset and how many statements that part had. Where what takes one of them back is
/// refused it writes nothing, and the lock stays held.
pub fn undo<S: Store, P: SqlText>(
    alloc: Global,
    options: &Options,
    changelog: &Changelog,
    last: &Option<Text>,
    store: &mut S,
    sql: &P,
) -> Result<Done, Status>
    requires valid { S.valid store.old }
    requires ready { IsReady options.now.dialect (S.state store.old) }
    requires sql { P.dialect ≡ options.now.dialect }
    requires read { AreFor options.now.dialect changelog.now }
    ensures valid { S.valid store.new }
    ensures did { Undid S.state S.crashes options.now changelog.now last.now store.old result
        store.new }
    ensures later { S.faults store.old ≤ S.faults store.new }
    ensures disk { result ≡ Err status.DiskFault
        → Rose (S.faults store.old) (S.faults store.new) }
{
    match undo_unrecorded(alloc, options, changelog, last, store, sql) {
        Ok(done) => undone(alloc, &done),
        Err(fault) => ended(alloc, fault),
    }
}

// It came to its end.
fn undone(alloc: Global, of: &Repaired) -> Result<Done, Status>
    ensures tells { IfOk result (TellsText (undone_text of.now.identity of.now.count)) }
    ensures no_memory { IfErr result (λ s. s ≡ status.OutOfMemory) }
{
    let text = undone_text(alloc, &of.identity, of.count)?;
    Ok(Done::with(alloc, text))
}

// It met this fault.
fn ended(alloc: Global, fault: RepairFault) -> Result<Done, Status>
    ensures status { status_done result ≡ status_of fault }
    ensures ends { IfOk result (λ done. ends done.status ≡ true) }
    ensures out { IfOk result (λ done. done.out ≡ None) }
    ensures quiet { IfOk result IsQuiet }
    ensures fails { IfErr result (λ s. ends s ≡ false) }
{
    match fault {
        RepairFault::NothingToUndo => Err(Status::NothingToUndo),
        RepairFault::Invalid(found) => Err(Status::Invalid(found)),
        RepairFault::NotReversible(of) => Err(Status::NotReversible(of)),
        RepairFault::Refused(identity, refusal) => Ok(without_text(
            alloc,
            Status::Refused {
                identity,
                statement: refusal.statement,
                kept: refusal.kept,
                reason: refusal.reason,
            },
        )),
        RepairFault::Disk => Err(Status::DiskFault),
        RepairFault::Full { used, next } => { Ok(without_text(alloc, Status::Full { used, next })) }
        RepairFault::OutOfMemory => Err(Status::OutOfMemory),
    }
}

fn without_text(alloc: Global, status: Status) -> Done
    ensures status { result.status ≡ status }
    ensures out { result.out ≡ None }
    ensures quiet { IsQuiet result }
{
    Done {
        status,
        out: None,
        own: None,
        warned: Items::new(alloc),
    }
}
