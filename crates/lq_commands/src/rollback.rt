ghost use Rattle.std.specs.List.{list_all};
ghost use Rattle.std.specs.Prelude.{◌≡◌, ◌≤◌, [], Err, IfErr, IfOk, None, Some, ◌≢◌, false, reverse, true};
ghost use Rattle.lq_kinds.specs.ReadFor.{AreFor};
ghost use Rattle.lq_outside.specs.Forms.{Rose};
ghost use Rattle.lq_tell.specs.declared.status.Status.TheVariants as status;
ghost use Rattle.lq_run.specs.Beside.{is_disk_end};
ghost use Rattle.lq_back.specs.Reversal.{AreWays, LeadsBack, goes_back};
ghost use Rattle.lq_commands.specs.Refusals.{Answers, IsFault, ends, no_way_back, refusal};
ghost use Rattle.lq_commands.specs.Scripts.{rollback_script, rolled_back, rolled_to, taking_back, NamesStop};
ghost use Rattle.lq_seen.specs.Telling.{Account, of_turns};
ghost use Rattle.lq_commands.specs.Works.{HasTold, IsQuiet, EndsRollback, rollback_output, CrashesIn, IsKept, IsReady, KeptLock, OnIts, TellsFull, Works, is_finished, is_whole};
ghost use Rattle.lq_base.specs.declared.command.Command.TheVariants as command;
ghost use Rattle.lq_turns.specs.Script.{rollback_of, rows_kept};
ghost use Rattle.lq_turns.specs.Deed.{Contents, contents_of};
ghost use Rattle.lq_turns.specs.Stops.{is_mark};

use crate::checks::{check_target, check_ways, checked_rows};
use crate::given::Given;
use crate::running::{Ran, run_status, run_turns};
use lq_back::{RowTurns, TakenBack};
use lq_base::{Happened, NoMemory, Printed, Target, Text, Tracked};
use lq_model::SqlText;
use lq_report::{rollback_text, sql_text};
use lq_run::End;
use lq_seen::Outcome;
use lq_store::Store;
use lq_tell::{Done, Status};
use std::alloc::Global;

/// Takes back what ran after the target (Liquibase's documentation, "rollback", "rollback-count",
/// "rollback-to-date"). Where `prints`, the output is the statements that were run.
pub fn rollback<S: Store, P: SqlText>(
    alloc: Global,
    given: Given,
    target: &Target,
    store: &mut S,
    sql: &P,
    prints: bool,
) -> Result<Done, Status>
    requires valid { S.valid store.old }
    requires ready { IsReady given.options.dialect (S.state store.old) }
    requires sql { P.dialect ≡ given.options.dialect }
    requires read { AreFor given.options.dialect given.changelog }
    requires moment { given.stamp.reading ≤ 253402300799999 }
    requires name { is_mark given.stamp.who ≡ false }
    ensures valid { S.valid store.new }
    ensures tells { IfOk result (λ done.
        OnIts given.options.dialect (S.state store.old) (λ database.
        EndsRollback prints (rolled_to prints given (rows_kept target.now database.rows) database)
        done)) }
    ensures answers { OnIts given.options.dialect (S.state store.old)
        (λ database. Answers (refusal (command.Rollback target.now) given database) result) }
    ensures refused { OnIts given.options.dialect (S.state store.old) (λ database.
        IsKept (refusal (command.Rollback target.now) given database) store.old store.new) }
    ensures works { OnIts given.options.dialect (S.state store.old) (λ database.
        Works given.options.dialect (rollback_script given target.now database) database
        (S.state store.old) result (S.state store.new)) }
    ensures any_moment { OnIts given.options.dialect (S.state store.old) (λ database.
        CrashesIn given.options.dialect (rollback_script given target.now database) database
        (S.state store.old) (S.crashes store.old) (S.crashes store.new)) }
    ensures later { S.faults store.old ≤ S.faults store.new }
    ensures disk { result ≡ Err status.DiskFault
        → Rose (S.faults store.old) (S.faults store.new) }
{
    let rows = checked_rows(alloc, &given, store)?;
    rollback_rows(alloc, given, target, rows.as_slice(), store, sql, prints)
}

// The lock is free, and the changelog goes with the rows.
fn rollback_rows<S: Store, P: SqlText>(
    alloc: Global,
    given: Given,
    target: &Target,
    rows: &[Tracked],
    store: &mut S,
    sql: &P,
    prints: bool,
) -> Result<Done, Status>
    requires valid { S.valid store.old }
    requires ready { IsReady given.options.dialect (S.state store.old) }
    requires sql { P.dialect ≡ given.options.dialect }
    requires read { AreFor given.options.dialect given.changelog }
    requires moment { given.stamp.reading ≤ 253402300799999 }
    requires name { is_mark given.stamp.who ≡ false }
    requires rows { OnIts given.options.dialect (S.state store.old)
        (λ database. database.rows ≡ rows.now) }
    ensures valid { S.valid store.new }
    ensures tells { IfOk result (λ done.
        OnIts given.options.dialect (S.state store.old) (λ database.
        EndsRollback prints (rolled_to prints given (rows_kept target.now database.rows) database)
        done)) }
    ensures answers { Answers (no_way_back given target.now rows.now) result }
    ensures refused { IsKept (no_way_back given target.now rows.now) store.old store.new }
    ensures works { OnIts given.options.dialect (S.state store.old) (λ database.
        Works given.options.dialect (rollback_script given target.now database) database
        (S.state store.old) result (S.state store.new)) }
    ensures any_moment { OnIts given.options.dialect (S.state store.old) (λ database.
        CrashesIn given.options.dialect (rollback_script given target.now database) database
        (S.state store.old) (S.crashes store.old) (S.crashes store.new)) }
    ensures later { S.faults store.old ≤ S.faults store.new }
    ensures disk { result ≡ Err status.DiskFault
        → Rose (S.faults store.old) (S.faults store.new) }
{
    let undone = check_target(rows, target)?;
    let ways = check_ways(alloc, &given, undone)?;
    take_back(alloc, given, ways.as_slice(), undone, store, sql, prints)
}

// Takes these rows back, each in its way.
fn take_back<S: Store, P: SqlText>(
    alloc: Global,
    given: Given,
    ways: &[TakenBack],
    undone: &[Tracked],
    store: &mut S,
    sql: &P,
    prints: bool,
) -> Result<Done, Status>
    requires valid { S.valid store.old }
    requires ready { IsReady given.options.dialect (S.state store.old) }
    requires sql { P.dialect ≡ given.options.dialect }
    requires read { AreFor given.options.dialect given.changelog }
    requires moment { given.stamp.reading ≤ 253402300799999 }
    requires name { is_mark given.stamp.who ≡ false }
    requires ways { AreWays given.changelog.sets undone.now ways.now }
    ensures valid { S.valid store.new }
    ensures tells { IfOk result (λ done.
        OnIts given.options.dialect (S.state store.old) (λ database.
        EndsRollback prints (rolled_back prints given (reverse undone.now) database) done)) }
    ensures answers { Answers None result }
    ensures works { OnIts given.options.dialect (S.state store.old) (λ database.
        Works given.options.dialect (taking_back given (reverse undone.now) database) database
        (S.state store.old) result (S.state store.new)) }
    ensures any_moment { OnIts given.options.dialect (S.state store.old) (λ database.
        CrashesIn given.options.dialect (taking_back given (reverse undone.now) database) database
        (S.state store.old) (S.crashes store.old) (S.crashes store.new)) }
    ensures later { S.faults store.old ≤ S.faults store.new }
    ensures disk { result ≡ Err status.DiskFault
        → Rose (S.faults store.old) (S.faults store.new) }
{
    if undone.is_empty() {
        return no_turns(alloc, prints);
    }
    let source = RowTurns::new(
        alloc,
        given.options.dialect,
        given.changelog.get(),
        ways,
        undone,
        prints,
    )?;
    run(alloc, given, source, store, sql, prints)
}

// There is nothing to take back.
fn no_turns(alloc: Global, prints: bool) -> Result<Done, Status>
    ensures out { IfOk result (λ done. done.out ≡ Some (rollback_output prints [] [])) }
    ensures done { IfOk result (λ done. done.status ≡ status.Done) }
    ensures quiet { IfOk result IsQuiet }
    ensures fault { IfErr result (λ s. s ≡ status.OutOfMemory) }
{
    let text = output(alloc, prints, &[], &[])?;
    Ok(Done::with(alloc, text))
}

fn run<S: Store, P: SqlText>(
    alloc: Global,
    given: Given,
    source: RowTurns,
    store: &mut S,
    sql: &P,
    prints: bool,
) -> Result<Done, Status>
    requires valid { S.valid store.old }
    requires ready { IsReady given.options.dialect (S.state store.old) }
    requires sql { P.dialect ≡ given.options.dialect }
    requires back { list_all (goes_back given.options.dialect) (reverse source.turns) ≡ true }
    requires knows { (c : Contents)
        → LeadsBack source given.options.dialect
        (of_turns prints given.options.dialect (reverse source.turns) c) c }
    requires some { reverse source.turns ≢ [] }
    requires moment { given.stamp.reading ≤ 253402300799999 }
    requires name { is_mark given.stamp.who ≡ false }
    ensures valid { S.valid store.new }
    ensures tells { IfOk result (λ done.
        OnIts given.options.dialect (S.state store.old) (λ database.
        EndsRollback prints
        (of_turns prints given.options.dialect (reverse source.turns) (contents_of database))
        done)) }
    ensures answers { Answers None result }
    ensures works { OnIts given.options.dialect (S.state store.old) (λ database.
        Works given.options.dialect
        (rollback_of given.options.dialect given.stamp (reverse source.turns) database) database
        (S.state store.old) result (S.state store.new)) }
    ensures any_moment { OnIts given.options.dialect (S.state store.old) (λ database.
        CrashesIn given.options.dialect
        (rollback_of given.options.dialect given.stamp (reverse source.turns) database) database
        (S.state store.old) (S.crashes store.old) (S.crashes store.new)) }
    ensures later { S.faults store.old ≤ S.faults store.new }
    ensures disk { result ≡ Err status.DiskFault
        → Rose (S.faults store.old) (S.faults store.new) }
{
    let dialect = given.options.dialect;
    let Ran { source, end } = run_turns(alloc, dialect, given.stamp, source, store, sql);
    ended(alloc, source.outcome, end, prints)
}

// What a rollback that had the lock did.
fn ended(alloc: Global, outcome: Outcome, end: End, prints: bool) -> Result<Done, Status>
    requires lock { KeptLock end }
    requires stopped { NamesStop end outcome.halted outcome.stopped_at }
    ensures tells { (account : Account)
        → HasTold outcome account end
        → IfOk result (λ done. EndsRollback prints account done) }
    ensures fault { IfErr result IsFault }
    ensures ends { IfOk result (λ done. ends done.status ≡ true) }
    ensures whole { IfOk result (λ done. is_finished done.status ≡ true
        → is_whole end ≡ true) }
    ensures full { IfOk result (λ done. TellsFull end done.status) }
    ensures disk { result ≡ Err status.DiskFault → is_disk_end end ≡ true }
{
    let Outcome {
        happened,
        printed,
        warned,
        halted,
        stopped_at,
        ..
    } = outcome;
    let status = run_status(end, halted, stopped_at)?;
    let lines = happened.as_slice();
    let texts = printed.as_slice();
    let out = text_of(alloc, &status, prints, lines, texts)?;
    Ok(Done {
        status,
        out,
        own: None,
        warned,
    })
}

// What is printed of a run that came to this status.
fn text_of(
    alloc: Global,
    by: &Status,
    prints: bool,
    happened: &[Happened],
    printed: &[Printed],
) -> Result<Option<Text>, NoMemory>
    requires ends { ends by.now ≡ true }
    ensures { IfOk result (λ text.
        is_finished by.now ≡ true
        → text ≡ Some (rollback_output prints happened.now printed.now)) }
{
    if by.has_output() {
        let text = output(alloc, prints, happened, printed)?;
        Ok(Some(text))
    } else {
        Ok(None)
    }
}

fn output(
    alloc: Global,
    prints: bool,
    happened: &[Happened],
    printed: &[Printed],
) -> Result<Text, NoMemory>
    ensures { IfOk result (λ text. text ≡ rollback_output prints happened.now printed.now) }
{
    if prints {
        sql_text(alloc, true, printed)
    } else {
        rollback_text(alloc, happened)
    }
}
