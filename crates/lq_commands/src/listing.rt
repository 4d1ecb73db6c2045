ghost use Rattle.std.specs.Prelude.{◌≡◌, [], Err, IfErr, IfOk, None, Some};
ghost use Rattle.lq_report.specs.Output.{history_text, status_text, validated_text};
ghost use Rattle.lq_tell.specs.declared.status.Status.TheVariants.{DiskFault, Done as Whole, OutOfMemory};
ghost use Rattle.lq_commands.specs.Outputs.{TellsText};
ghost use Rattle.lq_commands.specs.Refusals.{Answers, invalid};
ghost use Rattle.lq_commands.specs.Scripts.{sets_in};
ghost use Rattle.lq_commands.specs.Works.{IsQuiet, IsReady, OnIts, Works};
ghost use Rattle.lq_turns.specs.Printed.{pending};

use crate::checks::{rows_in, valid_rows};
use crate::given::Given;
use lq_base::{Dialect, Text, Tracked};
use lq_report::{history_text, status_text, validated_text};
use lq_sets::pending_of;
use lq_store::Store;
use lq_tell::{Done, Status};
use std::alloc::Global;

/// Tells that the changelog goes with the database.
pub fn validate<S: Store>(alloc: Global, given: &Given, store: &S) -> Result<Done, Status>
    requires valid { S.valid store.now }
    requires ready { IsReady given.now.options.dialect (S.state store.now) }
    ensures answers { OnIts given.now.options.dialect (S.state store.now)
        (λ database. Answers (invalid given.now database.rows) result) }
    ensures works { OnIts given.now.options.dialect (S.state store.now) (λ database.
        Works given.now.options.dialect [] database (S.state store.now) result
        (S.state store.now)) }
    ensures sure { result ≡ Err DiskFault → ⊥ }
    ensures tells { IfOk result (λ done. TellsText validated_text done) }
{
    valid_rows(alloc, given, store)?;
    validated(alloc)
}

fn validated(alloc: Global) -> Result<Done, Status>
    ensures out { IfOk result (λ done. done.out ≡ Some validated_text) }
    ensures done { IfOk result (λ done. done.status ≡ Whole) }
    ensures quiet { IfOk result IsQuiet }
    ensures fault { IfErr result (λ s. s ≡ OutOfMemory) }
{
    let text = Text::new(alloc, validated_text())?;
    Ok(Done::with(alloc, text))
}

/// Lists the changesets that an update would run.
pub fn status<S: Store>(alloc: Global, given: &Given, store: &S) -> Result<Done, Status>
    requires valid { S.valid store.now }
    requires ready { IsReady given.now.options.dialect (S.state store.now) }
    ensures answers { OnIts given.now.options.dialect (S.state store.now)
        (λ database. Answers (invalid given.now database.rows) result) }
    ensures works { OnIts given.now.options.dialect (S.state store.now) (λ database.
        Works given.now.options.dialect [] database (S.state store.now) result
        (S.state store.now)) }
    ensures sure { result ≡ Err DiskFault → ⊥ }
    ensures tells { IfOk result (λ done.
        OnIts given.now.options.dialect (S.state store.now)
        (λ database. TellsText (status_text (pending (sets_in given.now) database.rows)) done)) }
{
    let rows = valid_rows(alloc, given, store)?;
    listed(alloc, given, rows.as_slice())
}

fn listed(alloc: Global, given: &Given, rows: &[Tracked]) -> Result<Done, Status>
    ensures out { IfOk result
        (λ done. done.out ≡ Some (status_text (pending (sets_in given.now) rows.now))) }
    ensures done { IfOk result (λ done. done.status ≡ Whole) }
    ensures quiet { IfOk result IsQuiet }
    ensures fault { IfErr result (λ s. s ≡ OutOfMemory) }
{
    let found = pending_of(alloc, &given.options, given.changelog.get(), rows)?;
    let text = status_text(alloc, found.as_slice())?;
    Ok(Done::with(alloc, text))
}

/// Lists the rows in run order, whatever holds the lock (Liquibase's documentation, "history").
pub fn history<S: Store>(alloc: Global, dialect: Dialect, store: &S) -> Result<Done, Status>
    requires valid { S.valid store.now }
    requires ready { IsReady dialect (S.state store.now) }
    ensures answers { Answers None result }
    ensures works { OnIts dialect (S.state store.now)
        (λ database. Works dialect [] database (S.state store.now) result (S.state store.now)) }
    ensures sure { result ≡ Err DiskFault → ⊥ }
    ensures tells { IfOk result (λ done.
        OnIts dialect (S.state store.now)
        (λ database. TellsText (history_text database.rows) done)) }
{
    let rows = rows_in(alloc, dialect, store)?;
    told_rows(alloc, rows.as_slice())
}

fn told_rows(alloc: Global, rows: &[Tracked]) -> Result<Done, Status>
    ensures out { IfOk result (λ done. done.out ≡ Some (history_text rows.now)) }
    ensures done { IfOk result (λ done. done.status ≡ Whole) }
    ensures quiet { IfOk result IsQuiet }
    ensures fault { IfErr result (λ s. s ≡ OutOfMemory) }
{
    let text = history_text(alloc, rows)?;
    Ok(Done::with(alloc, text))
}
