ghost use Rattle.std.specs.List.{All};
ghost use Rattle.std.specs.Option.{option_copied};
ghost use Rattle.std.specs.Prelude.{◌≡◌, ◌≤◌, ◌≢◌, [], Err, IfErr, IfOk, None, Some, false, option_map, true};
ghost use Rattle.lq_base.specs.declared.command.Command.TheVariants as command;
ghost use Rattle.lq_changelog.specs.Gathers.{HasShortTexts};
ghost use Rattle.lq_kinds.specs.ReadFor.{AreFor};
ghost use Rattle.lq_outside.specs.Forms.{Rose};
ghost use Rattle.lq_report.specs.Output.{sync_text};
ghost use Rattle.lq_run.specs.Commands.{LeavesAs};
ghost use Rattle.lq_run.specs.Crashes.{LeftBehind};
ghost use Rattle.lq_run.specs.Beside.{is_disk_end};
ghost use Rattle.lq_back.specs.Reversal.{AreDated};
ghost use Rattle.lq_tell.specs.declared.status.Status.TheVariants as status;
ghost use Rattle.lq_commands.specs.Works.{EndsWithRows, EndsSync, goes_in, sync_out, synced_in, IsQuiet, status_by, stop_by, CrashesIn, FullAs, IsKept, IsReady, KeptLock, OnIts, TellsFull, Works, is_finished, is_whole};
ghost use Rattle.lq_commands.specs.Refusals.{Answers, IsFault, ends, refusal};
ghost use Rattle.lq_commands.specs.Scripts.{sets_in, sync_script, NamesStop, refused_at};
ghost use Rattle.lq_track.specs.Log.{identity_of};
ghost use Rattle.lq_turns.specs.Script.{rows_to_sync};
ghost use Rattle.lq_turns.specs.Stops.{is_mark};
ghost use Rattle.lq_turns.specs.Laws.{insert_stop};

use crate::checks::{checked_rows, identity_of};
use crate::given::Given;
use crate::running::{run_hand, run_status};
use lq_back::{marked, rows_to_sync, sync_hand};
use lq_base::{Happened, Identity, Items, NoMemory, Text, Tracked};
use lq_model::SqlText;
use lq_report::sync_text;
use lq_run::End;
use lq_store::Store;
use lq_tell::{Done, Status};
use std::alloc::Global;

/// The most rows of a table.
const MOST_ROWS: usize = 100_000;

/// The last place in run order.
const LAST_PLACE: u32 = 2_147_483_647;

/// Writes a row for each selected changeset without one (Liquibase's documentation,
/// "changelog-sync").
pub fn sync<S: Store, P: SqlText>(
    alloc: Global,
    given: Given,
    store: &mut S,
    sql: &P,
) -> Result<Done, Status>
    requires valid { S.valid store.old }
    requires ready { IsReady given.options.dialect (S.state store.old) }
    requires sql { P.dialect ≡ given.options.dialect }
    requires read { AreFor given.options.dialect given.changelog }
    requires short { All HasShortTexts given.changelog.sets }
    requires moment { given.stamp.reading ≤ 253402300799999 }
    requires name { is_mark given.stamp.who ≡ false }
    ensures valid { S.valid store.new }
    ensures tells { IfOk result (λ done.
        OnIts given.options.dialect (S.state store.old)
        (λ database. EndsSync (synced_in given database) done)) }
    ensures answers { OnIts given.options.dialect (S.state store.old)
        (λ database. Answers (refusal command.Sync given database) result) }
    ensures refused { OnIts given.options.dialect (S.state store.old)
        (λ database. IsKept (refusal command.Sync given database) store.old store.new) }
    ensures works { OnIts given.options.dialect (S.state store.old) (λ database.
        Works given.options.dialect (sync_script given database) database (S.state store.old) result
        (S.state store.new)) }
    ensures any_moment { OnIts given.options.dialect (S.state store.old) (λ database.
        CrashesIn given.options.dialect (sync_script given database) database (S.state store.old)
        (S.crashes store.old) (S.crashes store.new)) }
    ensures later { S.faults store.old ≤ S.faults store.new }
    ensures disk { result ≡ Err status.DiskFault
        → Rose (S.faults store.old) (S.faults store.new) }
{
    let rows = checked_rows(alloc, &given, store)?;
    let before = rows.as_slice();
    let made = new_rows(alloc, &given, before)?;
    insert(alloc, given, before, made, store, sql)
}

fn new_rows(alloc: Global, given: &Given, rows: &[Tracked]) -> Result<Items<Tracked>, NoMemory>
    requires moment { given.now.stamp.reading ≤ 253402300799999 }
    ensures rows { IfOk result
        (λ made. made ≡ rows_to_sync given.now.stamp.reading (sets_in given.now) rows.now) }
    ensures dated { IfOk result (λ made. AreDated made) }
{
    let reading = given.stamp.reading;
    rows_to_sync(alloc, given.changelog.get(), &given.options, rows, reading)
}

// The checks are passed: inserts the rows beside those before.
fn insert<S: Store, P: SqlText>(
    alloc: Global,
    given: Given,
    before: &[Tracked],
    made: Items<Tracked>,
    store: &mut S,
    sql: &P,
) -> Result<Done, Status>
    requires valid { S.valid store.old }
    requires ready { IsReady given.options.dialect (S.state store.old) }
    requires sql { P.dialect ≡ given.options.dialect }
    requires short { All HasShortTexts given.changelog.sets }
    requires moment { given.stamp.reading ≤ 253402300799999 }
    requires name { is_mark given.stamp.who ≡ false }
    requires before { OnIts given.options.dialect (S.state store.old)
        (λ database. database.rows ≡ before.now) }
    requires rows { made ≡ rows_to_sync given.stamp.reading (sets_in given) before.now }
    requires dated { AreDated made }
    ensures valid { S.valid store.new }
    ensures tells { IfOk result (λ done.
        OnIts given.options.dialect (S.state store.old)
        (λ database. EndsSync (synced_in given database) done)) }
    ensures answers { Answers None result }
    ensures works { OnIts given.options.dialect (S.state store.old) (λ database.
        Works given.options.dialect (sync_script given database) database (S.state store.old) result
        (S.state store.new)) }
    ensures any_moment { OnIts given.options.dialect (S.state store.old) (λ database.
        CrashesIn given.options.dialect (sync_script given database) database (S.state store.old)
        (S.crashes store.old) (S.crashes store.new)) }
    ensures later { S.faults store.old ≤ S.faults store.new }
    ensures disk { result ≡ Err status.DiskFault
        → Rose (S.faults store.old) (S.faults store.new) }
{
    if made.is_empty() {
        return no_rows(alloc);
    }
    insert_some(alloc, given, before, made, store, sql)
}

// There is nothing to insert.
fn no_rows(alloc: Global) -> Result<Done, Status>
    ensures out { IfOk result (λ done. done.out ≡ Some (sync_text [])) }
    ensures done { IfOk result (λ done. done.status ≡ status.Done) }
    ensures quiet { IfOk result IsQuiet }
    ensures fault { IfErr result (λ s. s ≡ status.OutOfMemory) }
{
    let text = sync_text(alloc, &[])?;
    Ok(Done::with(alloc, text))
}

fn insert_some<S: Store, P: SqlText>(
    alloc: Global,
    given: Given,
    before: &[Tracked],
    made: Items<Tracked>,
    store: &mut S,
    sql: &P,
) -> Result<Done, Status>
    requires valid { S.valid store.old }
    requires ready { IsReady given.options.dialect (S.state store.old) }
    requires sql { P.dialect ≡ given.options.dialect }
    requires short { All HasShortTexts given.changelog.sets }
    requires moment { given.stamp.reading ≤ 253402300799999 }
    requires name { is_mark given.stamp.who ≡ false }
    requires before { OnIts given.options.dialect (S.state store.old)
        (λ database. database.rows ≡ before.now) }
    requires rows { made ≡ rows_to_sync given.stamp.reading (sets_in given) before.now }
    requires dated { AreDated made }
    requires some { made ≢ [] }
    ensures valid { S.valid store.new }
    ensures tells { IfOk result (λ done.
        OnIts given.options.dialect (S.state store.old)
        (λ database. EndsSync (synced_in given database) done)) }
    ensures answers { Answers None result }
    ensures works { OnIts given.options.dialect (S.state store.old) (λ database.
        Works given.options.dialect (sync_script given database) database (S.state store.old) result
        (S.state store.new)) }
    ensures any_moment { OnIts given.options.dialect (S.state store.old) (λ database.
        CrashesIn given.options.dialect (sync_script given database) database (S.state store.old)
        (S.crashes store.old) (S.crashes store.new)) }
    ensures later { S.faults store.old ≤ S.faults store.new }
    ensures disk { result ≡ Err status.DiskFault
        → Rose (S.faults store.old) (S.faults store.new) }
{
    let rows = made.as_slice();
    let happened = marked(alloc, rows)?;
    let of = refused_row(alloc, before, rows)?;
    let end = run(alloc, given, before, made, store, sql)?;
    ended(alloc, happened.as_slice(), of, end)
}

// Inserts the rows, of which there are some, in one turn.
fn run<S: Store, P: SqlText>(
    alloc: Global,
    given: Given,
    before: &[Tracked],
    made: Items<Tracked>,
    store: &mut S,
    sql: &P,
) -> Result<End, NoMemory>
    requires valid { S.valid store.old }
    requires ready { IsReady given.options.dialect (S.state store.old) }
    requires sql { P.dialect ≡ given.options.dialect }
    requires short { All HasShortTexts given.changelog.sets }
    requires moment { given.stamp.reading ≤ 253402300799999 }
    requires name { is_mark given.stamp.who ≡ false }
    requires before { OnIts given.options.dialect (S.state store.old)
        (λ database. database.rows ≡ before.now) }
    requires rows { made ≡ rows_to_sync given.stamp.reading (sets_in given) before.now }
    requires dated { AreDated made }
    requires some { made ≢ [] }
    ensures valid { S.valid store.new }
    ensures leaves { IfOk result (λ e.
        OnIts given.options.dialect (S.state store.old) (λ database.
        LeavesAs given.options.dialect (sync_script given database) database (S.state store.old) e
        (S.state store.new))) }
    ensures left { OnIts given.options.dialect (S.state store.old) (λ database.
        LeftBehind given.options.dialect (sync_script given database) database (S.state store.old)
        (S.state store.new)) }
    ensures full { IfOk result (λ e.
        OnIts given.options.dialect (S.state store.old) (λ database.
        FullAs given.options.dialect (sync_script given database) database (S.state store.old) e
        (S.state store.new))) }
    ensures any_moment { OnIts given.options.dialect (S.state store.old) (λ database.
        CrashesIn given.options.dialect (sync_script given database) database (S.state store.old)
        (S.crashes store.old) (S.crashes store.new)) }
    ensures tells { IfOk result (EndsWithRows made before.now) }
    ensures later { S.faults store.old ≤ S.faults store.new }
    ensures rose { IfOk result
        (λ e. is_disk_end e ≡ true → Rose (S.faults store.old) (S.faults store.new)) }
{
    let hand = sync_hand(alloc, made)?;
    let dialect = given.options.dialect;
    Ok(run_hand(alloc, dialect, given.stamp, hand, store, sql))
}

// What a changelog-sync that had the lock did. Where a row was refused this is its changeset.
fn ended(
    alloc: Global,
    happened: &[Happened],
    of: Option<Identity>,
    end: End,
) -> Result<Done, Status>
    requires lock { KeptLock end }
    requires stopped { NamesStop end None of }
    ensures fault { IfErr result IsFault }
    ensures ends { IfOk result (λ done. ends done.status ≡ true) }
    ensures whole { IfOk result (λ done. is_finished done.status ≡ true
        → is_whole end ≡ true) }
    ensures full { IfOk result (λ done. TellsFull end done.status) }
    ensures tells { IfOk result
        (λ done. is_finished done.status ≡ true
        → done.status ≡ status_by (stop_by None of end)) }
    ensures out { IfOk result (λ done. done.out ≡ sync_out done.status happened.now) }
    ensures quiet { IfOk result IsQuiet }
    ensures disk { result ≡ Err status.DiskFault → is_disk_end end ≡ true }
{
    let status = run_status(end, None, of)?;
    let out = text_of(alloc, &status, happened)?;
    Ok(Done {
        status,
        out,
        own: None,
        warned: Items::new(alloc),
    })
}

fn text_of(alloc: Global, how: &Status, happened: &[Happened]) -> Result<Option<Text>, NoMemory>
    ensures { IfOk result (λ out. out ≡ sync_out how.now happened.now) }
{
    match how {
        Status::Done => Ok(Some(sync_text(alloc, happened)?)),
        Status::Refused { .. } => Ok(Some(sync_text(alloc, &[])?)),
        _ => Ok(None),
    }
}

// The changeset of the first of these rows that does not go in behind those before.
fn refused_row(
    alloc: Global,
    before: &[Tracked],
    rows: &[Tracked],
) -> Result<Option<Identity>, NoMemory>
    ensures { IfOk result (λ of. of ≡ refused_at (insert_stop rows.now before.now)) }
{
    match first_out(before, rows) {
        Some(row) => {
            let of = identity_of(alloc, row)?;
            Ok(Some(of))
        }
        None => Ok(None),
    }
}

// The first of these rows that does not go in behind those before.
fn first_out<'a>(before: &[Tracked], rows: &'a [Tracked]) -> Option<&'a Tracked>
    ensures { option_map identity_of (option_copied result)
        ≡ refused_at (insert_stop rows.now before.now) }
{
    let mut count = before.len();
    let mut rest = rows;
    while let Some((row, after)) = rest.split_first() {
        if !goes_in(count, row) {
            return Some(row);
        }
        count += 1;
        rest = after;
    }
    None
}

// The row has a place in run order, and there is room for it in the table.
fn goes_in(count: usize, row: &Tracked) -> bool
    ensures { result ≡ goes_in count row.now }
{
    row.order <= LAST_PLACE && count < MOST_ROWS
}
