ghost use Rattle.std.specs.Prelude.{◌≡◌, ◌≤◌, Err, IfErr, IfOk, OnOk};
ghost use Rattle.lq_base.specs.declared.command.Command.TheVariants as command;
ghost use Rattle.lq_outside.specs.Forms.{Rose};
ghost use Rattle.lq_run.specs.Commands.{Leaves};
ghost use Rattle.lq_run.specs.Crashes.{LeftBehind};
ghost use Rattle.lq_store.specs.Calls.{CountsDisk};
ghost use Rattle.lq_tell.specs.declared.status.Status.TheVariants.{DiskFault};
ghost use Rattle.lq_commands.specs.Outputs.{EndsText, released_text};
ghost use Rattle.lq_commands.specs.Refusals.{Answers, fault_status, refusal};
ghost use Rattle.lq_commands.specs.Works.{CrashesIn, IsKept, IsReady, OnIts, RestsFull, Works};
ghost use Rattle.lq_turns.specs.Script.{release_calls};

use crate::given::{Given, SESSION};
use crate::running::fault_answer;
use lq_base::{Dialect, Lock, NoMemory, Text};
use lq_model::{SqlText, StoreFault};
use lq_report::release_text;
use lq_run::free_lock;
use lq_store::Store;
use lq_tell::{Done, Status, has_moment};
use std::alloc::Global;

/// Frees a lock that is held (Liquibase's documentation, "release-locks").
pub fn release<S: Store, P: SqlText>(
    alloc: Global,
    given: &Given,
    store: &mut S,
    sql: &P,
) -> Result<Done, Status>
    requires valid { S.valid store.old }
    requires ready { IsReady given.now.options.dialect (S.state store.old) }
    requires sql { P.dialect ≡ given.now.options.dialect }
    ensures valid { S.valid store.new }
    ensures tells { IfOk result (λ done.
        OnIts given.now.options.dialect (S.state store.old)
        (λ database. EndsText (released_text database.lock) done)) }
    ensures answers { OnIts given.now.options.dialect (S.state store.old)
        (λ database. Answers (refusal command.Release given.now database) result) }
    ensures refused { OnIts given.now.options.dialect (S.state store.old)
        (λ database. IsKept (refusal command.Release given.now database) store.old store.new) }
    ensures works { OnIts given.now.options.dialect (S.state store.old) (λ database.
        Works given.now.options.dialect (release_calls database) database (S.state store.old) result
        (S.state store.new)) }
    ensures any_moment { OnIts given.now.options.dialect (S.state store.old) (λ database.
        CrashesIn given.now.options.dialect (release_calls database) database (S.state store.old)
        (S.crashes store.old) (S.crashes store.new)) }
    ensures later { S.faults store.old ≤ S.faults store.new }
    ensures disk { result ≡ Err DiskFault → Rose (S.faults store.old) (S.faults store.new) }
{
    let text = text_of(alloc, store.lock())?;
    match free(alloc, given, store, sql) {
        Ok(()) => Ok(Done::with(alloc, text)),
        Err(fault) => fault_answer(alloc, fault),
    }
}

/// Frees the lock where it is held.
pub fn free<S: Store, P: SqlText>(
    alloc: Global,
    given: &Given,
    store: &mut S,
    sql: &P,
) -> Result<(), StoreFault>
    requires valid { S.valid store.old }
    requires ready { IsReady given.now.options.dialect (S.state store.old) }
    requires sql { P.dialect ≡ given.now.options.dialect }
    ensures valid { S.valid store.new }
    ensures leaves { OnOk result
        (OnIts given.now.options.dialect (S.state store.old) (λ database.
        Leaves given.now.options.dialect (release_calls database) database (S.state store.old)
        (S.state store.new))) }
    ensures behind { OnIts given.now.options.dialect (S.state store.old) (λ database.
        LeftBehind given.now.options.dialect (release_calls database) database (S.state store.old)
        (S.state store.new)) }
    ensures full { IfErr result (λ fault.
        OnIts given.now.options.dialect (S.state store.old) (λ database.
        RestsFull given.now.options.dialect (release_calls database) database (S.state store.old)
        (fault_status fault) (S.state store.new))) }
    ensures any_moment { OnIts given.now.options.dialect (S.state store.old) (λ database.
        CrashesIn given.now.options.dialect (release_calls database) database (S.state store.old)
        (S.crashes store.old) (S.crashes store.new)) }
    ensures faults { CountsDisk result (S.faults store.old) (S.faults store.new) }
{
    let dialect = given.options.dialect;
    if is_held(dialect, store) {
        free_lock(alloc, SESSION, store, sql, dialect)
    } else {
        Ok(())
    }
}

// The lock is held.
fn is_held<S: Store>(dialect: Dialect, store: &S) -> bool
    requires valid { S.valid store.now }
    requires ready { IsReady dialect (S.state store.now) }
    ensures { OnIts dialect (S.state store.now) (λ database. database.lock.locked ≡ result) }
{
    store.lock().locked
}

fn text_of(alloc: Global, lock: &Lock) -> Result<Text, NoMemory>
    ensures { IfOk result (λ text. text ≡ released_text lock.now) }
{
    if !lock.locked {
        return release_text(alloc, None);
    }
    if !has_moment(lock) {
        return Err(NoMemory);
    }
    release_text(alloc, Some(lock))
}
