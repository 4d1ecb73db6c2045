ghost use Rattle.std.specs.List.{All};
ghost use Rattle.std.specs.Prelude.{◌≡◌, ◌≤◌, ◌-◌, Err, None, false, length};
ghost use Rattle.lq_changelog.specs.Gathers.{HasShortTexts};
ghost use Rattle.lq_cli.specs.declared.line.Job.TheVariants as job;
ghost use Rattle.lq_commands.specs.Jobs.{DidJob};
ghost use Rattle.lq_commands.specs.Refusals.{unready};
ghost use Rattle.lq_commands.specs.Rehearsal.{after_update, takes_back, unrehearsed, updates_again};
ghost use Rattle.lq_rehearsal.specs.Returns.{DidRun};
ghost use Rattle.lq_commands.specs.Works.{IsReady, OnIts};
ghost use Rattle.lq_kinds.specs.ReadFor.{AreFor};
ghost use Rattle.lq_outside.specs.Forms.{Rose};
ghost use Rattle.lq_tell.specs.declared.status.Status.TheVariants.{DiskFault};
ghost use Rattle.lq_turns.specs.Stops.{is_mark};

use crate::bound::check_bound;
use crate::copies::once_more;
use crate::told::{fault_of, is_done, joined};
use lq_base::{Target, Tracked};
use lq_commands::rollback::rollback;
use lq_commands::update::{update, update_on};
use lq_commands::{Given, checked_rows, rows_in, valid_rows};
use lq_model::SqlText;
use lq_store::Store;
use lq_tell::{Done, Status};
use std::alloc::Global;

/// Updates, takes back what ran or was marked, and updates again, each on what the run before left
/// (Liquibase's documentation, "update-testing-rollback"). All three have one reading of the clock. A
/// run that stops is the last, and gives the status. The changelog's own precondition is tested once.
pub fn update_testing_rollback<S: Store, P: SqlText>(
    alloc: Global,
    given: Given,
    store: &mut S,
    sql: &P,
) -> Result<Done, Status>
    requires valid { S.valid store.old }
    requires ready { IsReady given.options.dialect (S.state store.old) }
    requires sql { P.dialect ≡ given.options.dialect }
    requires read { AreFor given.options.dialect given.changelog }
    requires short { All HasShortTexts given.changelog.sets }
    requires moment { given.stamp.reading ≤ 253402300799999 }
    requires name { is_mark given.stamp.who ≡ false }
    ensures valid { S.valid store.new }
    ensures did { DidJob S.state S.crashes job.UpdateTestingRollback given store.old result
        store.new }
    ensures later { S.faults store.old ≤ S.faults store.new }
    ensures disk { result ≡ Err DiskFault → Rose (S.faults store.old) (S.faults store.new) }
{
    let rows = checked_rows(alloc, &given, store)?;
    check_bound(alloc, &given, rows.as_slice())?;
    rehearse(alloc, given, rows.len(), store, sql)
}

// The other checks are passed, and so many rows were read.
fn rehearse<S: Store, P: SqlText>(
    alloc: Global,
    given: Given,
    stay: usize,
    store: &mut S,
    sql: &P,
) -> Result<Done, Status>
    requires valid { S.valid store.old }
    requires ready { IsReady given.options.dialect (S.state store.old) }
    requires sql { P.dialect ≡ given.options.dialect }
    requires read { AreFor given.options.dialect given.changelog }
    requires short { All HasShortTexts given.changelog.sets }
    requires moment { given.stamp.reading ≤ 253402300799999 }
    requires name { is_mark given.stamp.who ≡ false }
    requires rows { OnIts given.options.dialect (S.state store.old)
        (λ database. length database.rows ≡ stay) }
    requires passed { OnIts given.options.dialect (S.state store.old)
        (λ database. unready given database ≡ None) }
    requires free { OnIts given.options.dialect (S.state store.old)
        (λ database. unrehearsed given database.rows ≡ None) }
    ensures valid { S.valid store.new }
    ensures did { DidJob S.state S.crashes job.UpdateTestingRollback given store.old result
        store.new }
    ensures later { S.faults store.old ≤ S.faults store.new }
    ensures disk { result ≡ Err DiskFault → Rose (S.faults store.old) (S.faults store.new) }
{
    let later = once_more(alloc, &given)?;
    let done = update(alloc, given, store, sql, false)?;
    if !is_done(&done.status) {
        return Ok(done);
    }
    let more = back_and_again(alloc, later, stay, store, sql)?;
    let whole = joined(done, more)?;
    Ok(whole)
}

// The update is done: takes back the rows that came behind so many, and updates again.
fn back_and_again<S: Store, P: SqlText>(
    alloc: Global,
    given: Given,
    stay: usize,
    store: &mut S,
    sql: &P,
) -> Result<Done, Status>
    requires valid { S.valid store.old }
    requires ready { IsReady given.options.dialect (S.state store.old) }
    requires sql { P.dialect ≡ given.options.dialect }
    requires read { AreFor given.options.dialect given.changelog }
    requires short { All HasShortTexts given.changelog.sets }
    requires moment { given.stamp.reading ≤ 253402300799999 }
    requires name { is_mark given.stamp.who ≡ false }
    ensures valid { S.valid store.new }
    ensures did { DidRun S.state S.crashes given.options.dialect (after_update given stay) store.old
        result store.new }
    ensures later { S.faults store.old ≤ S.faults store.new }
    ensures disk { result ≡ Err DiskFault → Rose (S.faults store.old) (S.faults store.new) }
{
    let later = once_more(alloc, &given)?;
    let done = take_back(alloc, given, stay, store, sql)?;
    if !is_done(&done.status) {
        return Ok(done);
    }
    let more = update_again(alloc, later, store, sql)?;
    let whole = joined(done, more)?;
    Ok(whole)
}

// Takes back the rows that came behind so many.
fn take_back<S: Store, P: SqlText>(
    alloc: Global,
    given: Given,
    stay: usize,
    store: &mut S,
    sql: &P,
) -> Result<Done, Status>
    requires valid { S.valid store.old }
    requires ready { IsReady given.options.dialect (S.state store.old) }
    requires sql { P.dialect ≡ given.options.dialect }
    requires read { AreFor given.options.dialect given.changelog }
    requires moment { given.stamp.reading ≤ 253402300799999 }
    requires name { is_mark given.stamp.who ≡ false }
    ensures valid { S.valid store.new }
    ensures did { DidRun S.state S.crashes given.options.dialect (takes_back given stay) store.old
        result store.new }
    ensures later { S.faults store.old ≤ S.faults store.new }
    ensures disk { result ≡ Err DiskFault → Rose (S.faults store.old) (S.faults store.new) }
{
    let rows = rows_in(alloc, given.options.dialect, store)?;
    let target = Target::Count(came(rows.as_slice(), stay));
    match rollback(alloc, given, &target, store, sql, false) {
        Ok(done) => Ok(done),
        Err(status) => Err(fault_of(status)),
    }
}

// How many rows came behind so many.
fn came(rows: &[Tracked], stay: usize) -> u32
    requires few { length rows.now ≤ 100000 }
    ensures { result ≡ length rows.now - stay }
{
    rows.len().saturating_sub(stay) as u32
}

// Updates again. The changelog goes with the rows, as it did before.
fn update_again<S: Store, P: SqlText>(
    alloc: Global,
    given: Given,
    store: &mut S,
    sql: &P,
) -> Result<Done, Status>
    requires valid { S.valid store.old }
    requires ready { IsReady given.options.dialect (S.state store.old) }
    requires sql { P.dialect ≡ given.options.dialect }
    requires read { AreFor given.options.dialect given.changelog }
    requires short { All HasShortTexts given.changelog.sets }
    requires moment { given.stamp.reading ≤ 253402300799999 }
    requires name { is_mark given.stamp.who ≡ false }
    ensures valid { S.valid store.new }
    ensures did { DidRun S.state S.crashes given.options.dialect (updates_again given) store.old
        result store.new }
    ensures later { S.faults store.old ≤ S.faults store.new }
    ensures disk { result ≡ Err DiskFault → Rose (S.faults store.old) (S.faults store.new) }
{
    let rows = match valid_rows(alloc, &given, store) {
        Ok(rows) => rows,
        Err(_) => return Err(Status::OutOfMemory),
    };
    update_on(alloc, given, rows.as_slice(), store, sql, false)
}
