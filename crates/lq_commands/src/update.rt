ghost use Rattle.std.specs.List.{All};
ghost use Rattle.std.specs.Prelude.{◌≡◌, ◌≤◌, [], Err, IfErr, IfOk, None, Some, false, true};
ghost use Rattle.lq_changelog.specs.Gathers.{HasShortTexts};
ghost use Rattle.lq_kinds.specs.ReadFor.{AreFor};
ghost use Rattle.lq_outside.specs.Forms.{Rose};
ghost use Rattle.lq_tell.specs.declared.status.Status.TheVariants as status;
ghost use Rattle.lq_run.specs.Beside.{is_disk_end};
ghost use Rattle.lq_commands.specs.Refusals.{Answers, IsFault, ends, refusal};
ghost use Rattle.lq_commands.specs.Scripts.{sets_in, sets_script, settled_in, update_script, updated_in, NamesStop};
ghost use Rattle.lq_seen.specs.Telling.{Account, of_sets};
ghost use Rattle.lq_commands.specs.Works.{HasTold, EndsUpdate, update_output, CrashesIn, IsKept, IsReady, KeptLock, OnIts, TellsFull, Works, is_finished, is_whole};
ghost use Rattle.lq_base.specs.declared.command.Command.TheVariants as command;
ghost use Rattle.lq_base.specs.declared.dialect.Dialect.{Dialect as Spoken};
ghost use Rattle.lq_seen.specs.View.{view_log};
ghost use Rattle.lq_sets.specs.SetTurns.{IsReadFor, Knows, sets_left};
ghost use Rattle.lq_turns.specs.Deed.{Contents};
ghost use Rattle.lq_turns.specs.Faults.{faults};
ghost use Rattle.lq_turns.specs.Settle.{greatest};
ghost use Rattle.lq_turns.specs.declared.stamp.Stamp.{Stamp as Clocked};
ghost use Rattle.lq_turns.specs.Script.{has_work};
ghost use Rattle.lq_turns.specs.Stops.{is_mark};

use crate::checks::{check_own, checked_rows};
use crate::given::Given;
use crate::running::{Ran, run_status, run_turns};
use lq_base::{Happened, NoMemory, Printed, Text, Tracked, Why};
use lq_expr::Options;
use lq_kinds::Changelog;
use lq_model::SqlText;
use lq_report::{sql_text, update_text};
use lq_run::End;
use lq_seen::Outcome;
use lq_sets::{SetTurns, work_of};
use lq_shared::Shared;
use lq_store::Store;
use lq_tell::{Done, Status};
use std::alloc::Global;

/// Runs the changesets that have a turn (Liquibase's documentation, "update"). Where `prints`, the
/// output is the statements that were run.
pub fn update<S: Store, P: SqlText>(
    alloc: Global,
    given: Given,
    store: &mut S,
    sql: &P,
    prints: bool,
) -> Result<Done, Status>
    requires valid { S.valid store.old }
    requires ready { IsReady given.options.dialect (S.state store.old) }
    requires sql { P.dialect ≡ given.options.dialect }
    requires read { AreFor given.options.dialect given.changelog }
    requires short { All HasShortTexts given.changelog.sets }
    requires moment { given.stamp.reading ≤ 253402300799999 }
    requires name { is_mark given.stamp.who ≡ false }
    ensures valid { S.valid store.new }
    ensures tells { IfOk result (λ done.
        OnIts given.options.dialect (S.state store.old) (λ database.
        EndsUpdate prints (updated_in prints given database) done)) }
    ensures answers { OnIts given.options.dialect (S.state store.old)
        (λ database. Answers (refusal command.Update given database) result) }
    ensures refused { OnIts given.options.dialect (S.state store.old)
        (λ database. IsKept (refusal command.Update given database) store.old store.new) }
    ensures works { OnIts given.options.dialect (S.state store.old) (λ database.
        Works given.options.dialect (update_script given database) database (S.state store.old)
        result (S.state store.new)) }
    ensures any_moment { OnIts given.options.dialect (S.state store.old) (λ database.
        CrashesIn given.options.dialect (update_script given database) database (S.state store.old)
        (S.crashes store.old) (S.crashes store.new)) }
    ensures later { S.faults store.old ≤ S.faults store.new }
    ensures disk { result ≡ Err status.DiskFault
        → Rose (S.faults store.old) (S.faults store.new) }
{
    let rows = checked_rows(alloc, &given, store)?;
    let own = check_own(alloc, &given, store, rows.as_slice())?;
    let done = update_on(alloc, given, rows.as_slice(), store, sql, prints)?;
    Ok(with_own(done, own))
}

/// Runs the changesets that have a turn on these rows, whatever the changelog's own precondition tells.
/// The changelog goes with the rows.
pub fn update_on<S: Store, P: SqlText>(
    alloc: Global,
    given: Given,
    rows: &[Tracked],
    store: &mut S,
    sql: &P,
    prints: bool,
) -> Result<Done, Status>
    requires valid { S.valid store.old }
    requires ready { IsReady given.options.dialect (S.state store.old) }
    requires sql { P.dialect ≡ given.options.dialect }
    requires read { AreFor given.options.dialect given.changelog }
    requires short { All HasShortTexts given.changelog.sets }
    requires moment { given.stamp.reading ≤ 253402300799999 }
    requires name { is_mark given.stamp.who ≡ false }
    requires rows { OnIts given.options.dialect (S.state store.old)
        (λ database. database.rows ≡ rows.now) }
    requires faultless { faults (sets_in given) rows.now ≡ [] }
    ensures valid { S.valid store.new }
    ensures tells { IfOk result (λ done.
        OnIts given.options.dialect (S.state store.old) (λ database.
        EndsUpdate prints (settled_in prints given database) done)) }
    ensures own { IfOk result (λ done. done.own ≡ None) }
    ensures answers { Answers None result }
    ensures works { OnIts given.options.dialect (S.state store.old) (λ database.
        Works given.options.dialect (sets_script given database) database (S.state store.old) result
        (S.state store.new)) }
    ensures any_moment { OnIts given.options.dialect (S.state store.old) (λ database.
        CrashesIn given.options.dialect (sets_script given database) database (S.state store.old)
        (S.crashes store.old) (S.crashes store.new)) }
    ensures later { S.faults store.old ≤ S.faults store.new }
    ensures disk { result ≡ Err status.DiskFault
        → Rose (S.faults store.old) (S.faults store.new) }
{
    let work = work_of(alloc, &given.options, given.changelog.get(), rows)?;
    if work.is_empty() {
        return no_turns(alloc, prints);
    }
    run(alloc, given, rows, store, sql, prints)
}

// There is nothing to run.
fn no_turns(alloc: Global, prints: bool) -> Result<Done, Status>
    ensures out { IfOk result (λ done. done.out ≡ Some (update_output prints [] 0 [])) }
    ensures done { IfOk result (λ done. done.status ≡ status.Done) }
    ensures own { IfOk result (λ done. done.own ≡ None) }
    ensures warned { IfOk result (λ done. done.warned ≡ []) }
    ensures fault { IfErr result (λ s. s ≡ status.OutOfMemory) }
{
    let text = output(alloc, prints, &[], 0, &[])?;
    Ok(Done::with(alloc, text))
}

fn run<S: Store, P: SqlText>(
    alloc: Global,
    given: Given,
    rows: &[Tracked],
    store: &mut S,
    sql: &P,
    prints: bool,
) -> Result<Done, Status>
    requires valid { S.valid store.old }
    requires ready { IsReady given.options.dialect (S.state store.old) }
    requires sql { P.dialect ≡ given.options.dialect }
    requires read { AreFor given.options.dialect given.changelog }
    requires short { All HasShortTexts given.changelog.sets }
    requires moment { given.stamp.reading ≤ 253402300799999 }
    requires name { is_mark given.stamp.who ≡ false }
    requires rows { OnIts given.options.dialect (S.state store.old)
        (λ database. database.rows ≡ rows.now) }
    requires faultless { faults (sets_in given) rows.now ≡ [] }
    requires work { has_work (sets_in given) rows.now ≡ true }
    ensures valid { S.valid store.new }
    ensures tells { IfOk result (λ done.
        OnIts given.options.dialect (S.state store.old) (λ database.
        EndsUpdate prints (settled_in prints given database) done)) }
    ensures own { IfOk result (λ done. done.own ≡ None) }
    ensures answers { Answers None result }
    ensures works { OnIts given.options.dialect (S.state store.old) (λ database.
        Works given.options.dialect (sets_script given database) database (S.state store.old) result
        (S.state store.new)) }
    ensures any_moment { OnIts given.options.dialect (S.state store.old) (λ database.
        CrashesIn given.options.dialect (sets_script given database) database (S.state store.old)
        (S.crashes store.old) (S.crashes store.new)) }
    ensures later { S.faults store.old ≤ S.faults store.new }
    ensures disk { result ≡ Err status.DiskFault
        → Rose (S.faults store.old) (S.faults store.new) }
{
    let Given {
        changelog,
        options,
        stamp,
    } = given;
    let dialect = options.dialect;
    let source = turns_of(alloc, changelog, options, rows, prints)?;
    let Ran { source, end } = run_turns(alloc, dialect, stamp, source, store, sql);
    ended(alloc, source.outcome, end, prints)
}

// The turns that the changelog has on these rows.
fn turns_of(
    alloc: Global,
    changelog: Shared<Changelog>,
    options: Options,
    rows: &[Tracked],
    prints: bool,
) -> Result<SetTurns, NoMemory>
    requires read { AreFor options.dialect changelog }
    requires faultless { faults (view_log options changelog).sets rows.now ≡ [] }
    ensures reads { IfOk result (λ source. IsReadFor source options.dialect) }
    ensures left { IfOk result (λ source. sets_left source ≡ (view_log options changelog).sets) }
    ensures knows { IfOk result (λ source. (d : Spoken) (stamp : Clocked) (c : Contents)
        → c.rows ≡ rows.now
        → greatest rows.now ≤ 2147483647
        → Knows source d stamp
        (of_sets prints d stamp.reading (view_log options changelog).sets c) c) }
{
    let shared = Shared::new(alloc, options)?;
    let source = SetTurns::of_shared(alloc, changelog, shared, rows, prints)?;
    Ok(source)
}

// What an update that had the lock did.
fn ended(alloc: Global, outcome: Outcome, end: End, prints: bool) -> Result<Done, Status>
    requires lock { KeptLock end }
    requires stopped { NamesStop end outcome.halted outcome.stopped_at }
    ensures tells { (account : Account)
        → HasTold outcome account end
        → IfOk result (λ done. EndsUpdate prints account done) }
    ensures own { IfOk result (λ done. done.own ≡ None) }
    ensures fault { IfErr result IsFault }
    ensures ends { IfOk result (λ done. ends done.status ≡ true) }
    ensures whole { IfOk result (λ done. is_finished done.status ≡ true
        → is_whole end ≡ true) }
    ensures full { IfOk result (λ done. TellsFull end done.status) }
    ensures disk { result ≡ Err status.DiskFault → is_disk_end end ≡ true }
{
    let Outcome {
        happened,
        not_fresh,
        warned,
        printed,
        halted,
        stopped_at,
    } = outcome;
    let status = run_status(end, halted, stopped_at)?;
    let lines = happened.as_slice();
    let texts = printed.as_slice();
    let out = text_of(alloc, &status, prints, lines, not_fresh, texts)?;
    Ok(Done {
        status,
        out,
        own: None,
        warned,
    })
}

// What is printed of a run that came to this status.
fn text_of(
    alloc: Global,
    by: &Status,
    prints: bool,
    happened: &[Happened],
    not_fresh: u64,
    printed: &[Printed],
) -> Result<Option<Text>, NoMemory>
    requires ends { ends by.now ≡ true }
    ensures { IfOk result (λ text.
        is_finished by.now ≡ true
        → text ≡ Some (update_output prints happened.now not_fresh printed.now)) }
{
    if by.has_output() {
        let text = output(alloc, prints, happened, not_fresh, printed)?;
        Ok(Some(text))
    } else {
        Ok(None)
    }
}

fn output(
    alloc: Global,
    prints: bool,
    happened: &[Happened],
    not_fresh: u64,
    printed: &[Printed],
) -> Result<Text, NoMemory>
    ensures { IfOk result (λ text. text
        ≡ update_output prints happened.now not_fresh printed.now) }
{
    if prints {
        sql_text(alloc, false, printed)
    } else {
        update_text(alloc, happened, not_fresh)
    }
}

// The warning of the changelog's own precondition comes first.
fn with_own(done: Done, own: Option<Why>) -> Done
    ensures status { result.status ≡ done.status }
    ensures out { result.out ≡ done.out }
    ensures own { result.own ≡ own }
    ensures warned { result.warned ≡ done.warned }
{
    let Done {
        status,
        out,
        own: _,
        warned,
    } = done;
    Done {
        status,
        out,
        own,
        warned,
    }
}
