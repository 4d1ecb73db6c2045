ghost use Rattle.std.specs.Option.{option_copied};
ghost use Rattle.std.specs.Prelude.{◌≡◌, ◌≤◌, IfOk, Some, false, option_map};
ghost use Rattle.lq_back.specs.Reversal.{AreDated};
ghost use Rattle.lq_players.specs.Syncing.{PlansFor, PlansOn, PlansRows, goes_in, planned, refused_at, stop_at, verdict_of};
ghost use Rattle.lq_players.specs.Tasks.{answer_by};
ghost use Rattle.lq_playing.specs.Answers.{is_failure};
ghost use Rattle.lq_seen.specs.View.{view_log};
ghost use Rattle.lq_track.specs.Log.{identity_of};
ghost use Rattle.lq_turns.specs.Laws.{insert_stop};

use crate::at_end::refusal_answer;
use crate::in_tables::{identity_of, rows_in};
use lq_back::{marked, rows_to_sync, sync_hand};
use lq_base::{Dialect, Happened, Identity, Items, NoMemory, Tracked};
use lq_expr::Options;
use lq_hand::{Entered, Hand, Source};
use lq_kinds::Changelog;
use lq_model::{Look, SqlText};
use lq_playing::{Checks, Report, Verdict};
use lq_sets::faults_of;
use lq_turns::{Answer, Refusal, Stamp};
use std::alloc::Global;

/// The most rows of a table.
const MOST_ROWS: usize = 100_000;

/// The last place in run order.
const LAST_PLACE: u32 = 2_147_483_647;

/// A changelog-sync (Liquibase's documentation, "changelog-sync"). The texts of the changesets go into
/// the columns of their rows.
#[derive(Drop)]
pub struct Syncing {
    pub alloc: Global,
    pub changelog: Changelog,
    pub options: Options,
    /// The changeset of the first row that does not go in, where one does not.
    pub stops_at: Option<Identity>,
    /// What it marks, unless one does not.
    pub marked: Items<Happened>,
}

/// What a changelog-sync does.
#[derive(Drop)]
pub enum Plan {
    /// It makes no call, and answers so.
    Answer(Answer),
    /// It inserts rows in this turn, and so marks these changesets. The first that does not go in is of
    /// this one.
    Turn(Hand, Option<Identity>, Items<Happened>),
}

impl Syncing {
    /// A changelog-sync that has made no step.
    pub fn new(alloc: Global, changelog: Changelog, options: Options) -> Syncing
        ensures changelog { result.changelog ≡ changelog }
        ensures options { result.options ≡ options }
    {
        Syncing {
            alloc,
            changelog,
            options,
            stops_at: None,
            marked: Items::new(alloc),
        }
    }

    // Keeps in mind where the rows of the plan stop, and what they mark.
    fn follow(&mut self, plan: Plan) -> Verdict
        ensures verdict { result ≡ verdict_of plan }
        ensures planned { self.new ≡ planned plan self.old }
    {
        match plan {
            Plan::Answer(answer) => {
                self.marked = Items::new(self.alloc);
                Verdict::Answer(answer)
            }
            Plan::Turn(hand, of, marked) => {
                self.stops_at = of;
                self.marked = marked;
                Verdict::Turns(hand)
            }
        }
    }
}

// What it does on what is seen.
fn seen_plan<K: Look>(
    alloc: Global,
    dialect: Dialect,
    reading: u64,
    options: &Options,
    changelog: &Changelog,
    look: &K,
) -> Result<Plan, NoMemory>
    requires { reading ≤ 253402300799999 }
    ensures { IfOk result (λ plan.
        PlansOn dialect reading (view_log options.now changelog.now).sets (K.catalogue look.now)
        plan) }
{
    let rows = rows_in(alloc, dialect, look)?;
    rows_plan(alloc, reading, options, changelog, rows.as_slice())
}

// What it does beside these rows.
fn rows_plan(
    alloc: Global,
    reading: u64,
    options: &Options,
    changelog: &Changelog,
    rows: &[Tracked],
) -> Result<Plan, NoMemory>
    requires { reading ≤ 253402300799999 }
    ensures { IfOk result
        (λ plan. PlansFor reading (view_log options.now changelog.now).sets rows.now plan) }
{
    let found = faults_of(alloc, options, changelog, rows)?;
    if !found.is_empty() {
        return Ok(Plan::Answer(Answer::Invalid(found)));
    }
    let made = rows_to_sync(alloc, changelog, options, rows, reading)?;
    insert(alloc, rows, made)
}

// Inserts the rows, if there are any, beside those before.
fn insert(alloc: Global, before: &[Tracked], made: Items<Tracked>) -> Result<Plan, NoMemory>
    requires { AreDated made }
    ensures { IfOk result (λ plan. PlansRows made before.now plan) }
{
    if made.is_empty() {
        return Ok(Plan::Answer(Answer::Done));
    }
    let of = refused_row(alloc, before, made.as_slice())?;
    let marked = marked(alloc, made.as_slice())?;
    let hand = sync_hand(alloc, made)?;
    Ok(Plan::Turn(hand, of, marked))
}

// The changeset of the first of these rows that does not go in behind those before.
fn refused_row(
    alloc: Global,
    before: &[Tracked],
    rows: &[Tracked],
) -> Result<Option<Identity>, NoMemory>
    ensures { IfOk result (λ of. of ≡ refused_at (insert_stop rows.now before.now)) }
{
    match first_out(before, rows) {
        Some(row) => {
            let of = identity_of(alloc, row)?;
            Ok(Some(of))
        }
        None => Ok(None),
    }
}

// The first of these rows that does not go in behind those before.
fn first_out<'a>(before: &[Tracked], rows: &'a [Tracked]) -> Option<&'a Tracked>
    ensures { option_map identity_of (option_copied result)
        ≡ refused_at (insert_stop rows.now before.now) }
{
    let mut count = before.len();
    let mut rest = rows;
    while let Some((row, after)) = rest.split_first() {
        if !goes_in(count, row) {
            return Some(row);
        }
        count += 1;
        rest = after;
    }
    None
}

// The row has a place in run order, and there is room for it in the table.
fn goes_in(count: usize, row: &Tracked) -> bool
    ensures { result ≡ goes_in count row.now }
{
    row.order <= LAST_PLACE && count < MOST_ROWS
}

// The answer at the end. A refusal is of this changeset.
fn answer_at(
    alloc: Global,
    refused: Option<Refusal>,
    of: &Option<Identity>,
) -> Result<Answer, NoMemory>
    ensures own { IfOk result (λ a. is_failure a ≡ false) }
    ensures ends { IfOk result (λ a. a ≡ answer_by (stop_at refused of.now)) }
{
    match refused {
        None => Ok(Answer::Done),
        Some(refusal) => refusal_answer(alloc, refusal, of),
    }
}

impl Source for Syncing {
    ghost use Rattle.lq_any.specs.declared.any_change.AnyChange.{AnyChange};
    ghost use Rattle.lq_players.specs.Syncing.{FitColumns, sync_way};
    ghost use Rattle.lq_seen.specs.View.{any_meaning};
    ghost use Rattle.lq_turns.specs.Rest.{NoMore};
    ghost use Rattle.lq_turns.specs.Settle.{Settled};

    ghost Key = { AnyChange };

    ghost meaning = { any_meaning };

    ghost left = { λ source. NoMore };

    ghost Told = { Settled };

    ghost way = { sync_way };

    ghost reads = { λ source dialect. FitColumns source };

    fn enter<K: Look, P: SqlText>(
        &mut self,
        _alloc: Global,
        _dialect: Dialect,
        _stamp: &Stamp,
        _look: &K,
        _sql: &P,
    ) -> Entered {
        Entered::NoTurn
    }

    fn looks<K: Look>(&mut self, _dialect: Dialect, _look: &K) {}

    fn finished(&mut self) {}

    fn refused(&mut self) {
        self.marked = Items::new(self.alloc);
    }
}

impl Checks for Syncing {
    ghost use Rattle.lq_players.specs.Syncing.{sync_ends, sync_job, sync_reports};

    ghost job = { sync_job };

    ghost ends = { sync_ends };

    ghost reports = { sync_reports };

    fn needs_lock(&self) -> bool {
        true
    }

    fn check<K: Look, P: SqlText>(
        &mut self,
        alloc: Global,
        dialect: Dialect,
        stamp: &Stamp,
        look: &K,
        _sql: &P,
    ) -> Verdict {
        match seen_plan(
            alloc,
            dialect,
            stamp.reading,
            &self.options,
            &self.changelog,
            look,
        ) {
            Ok(plan) => self.follow(plan),
            Err(_) => Verdict::Lack,
        }
    }

    fn answer(&self, refused: Option<Refusal>) -> Result<Answer, NoMemory> {
        answer_at(self.alloc, refused, &self.stops_at)
    }

    fn into_report(self) -> Report {
        let mut report = Report::new(self.alloc);
        report.happened = self.marked;
        report
    }
}
