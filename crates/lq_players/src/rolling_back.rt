ghost use Rattle.std.specs.Prelude.{◌≡◌, IfErr, IfOk, None, Some, option_map, reverse};
ghost use Rattle.lq_back.specs.Reversal.{AreWays};
ghost use Rattle.lq_base.specs.declared.command.Command.TheVariants.{Rollback};
ghost use Rattle.lq_base.specs.declared.dialect.Dialect.{Dialect as Kind};
ghost use Rattle.lq_players.specs.RollingBack.{AreNew, IsRead, ComesTo, Plans, back_job, back_turns, turns_in, IsRefusal, Passes};
ghost use Rattle.lq_players.specs.Tasks.{if_not, task_for, unreachable_by, work_of};
ghost use Rattle.lq_expr.specs.declared.options.Options.{Options as Asked};
ghost use Rattle.lq_kinds.specs.ReadFor.{AreFor};
ghost use Rattle.lq_playing.specs.declared.checks.Verdict.TheVariants as verdict;
ghost use Rattle.lq_seen.specs.View.{any_meaning, view_log, views};
ghost use Rattle.lq_track.specs.Database.{Database};
ghost use Rattle.lq_turns.specs.Schedule.{StandsFor};
ghost use Rattle.lq_turns.specs.Script.{not_reversible, rows_kept, rows_undone, undo_turns};
ghost use Rattle.lq_turns.specs.declared.answer.Answer.TheVariants.{NoTarget};
ghost use Rattle.lq_turns.specs.declared.stamp.Stamp.{Stamp as Clocked};

use crate::at_end::{answer_at_end, report_of};
use crate::hands::no_turn;
use crate::in_tables::rows_in;
use crate::row_checks::check_faults;
use lq_back::{ReverseFault, RowTurns, TakenBack, reversible, rows_to_undo};
use lq_base::{Dialect, Items, NoMemory, Target, Tracked};
use lq_expr::Options;
use lq_hand::{Entered, Source};
use lq_kinds::Changelog;
use lq_model::{Look, SqlText};
use lq_playing::{Checks, Report, Verdict};
use lq_turns::{Answer, Refusal, Stamp};
use std::alloc::Global;

/// A rollback (Liquibase's documentation, "rollback", "rollback-count", "rollback-to-date").
#[derive(Drop)]
pub struct RollingBack {
    /// The memory of its answer.
    alloc: Global,
    options: Options,
    changelog: Changelog,
    target: Target,
    /// Whether the statements' texts are wanted.
    prints: bool,
    /// None until its checks find rows to take back.
    turns: Option<RowTurns>,
}

impl RollingBack {
    /// A rollback to the target, of which nothing is checked. The changelog was read for the dialect of
    /// the options. Where `prints`, it keeps the statements' texts.
    pub fn new(
        alloc: Global,
        changelog: Changelog,
        options: Options,
        target: Target,
        prints: bool,
    ) -> RollingBack
        requires read { AreFor options.dialect changelog }
        ensures read { IsRead result options.dialect }
        ensures job { (dialect : Kind) (stamp : Clocked)
            → back_job result dialect stamp
            ≡ work_of prints dialect (task_for (Rollback target) options changelog stamp) }
    {
        RollingBack {
            alloc,
            options,
            changelog,
            target,
            prints,
            turns: None,
        }
    }

    // Its turns, where there are rows to take back, or what it is refused for.
    fn plan<K: Look>(
        &self,
        alloc: Global,
        dialect: Dialect,
        look: &K,
    ) -> Result<Option<RowTurns>, Verdict>
        requires read { IsRead self.now dialect }
        ensures plans { (database : Database)
            → StandsFor dialect (K.catalogue look.now) database
            → Plans self.now dialect database.rows result }
        ensures new { IfOk result (AreNew self.now.prints dialect) }
        ensures refusal { IfErr result IsRefusal }
    {
        match rows_in(alloc, dialect, look) {
            Ok(rows) => self.plan_on(alloc, dialect, rows.as_slice()),
            Err(_) => Err(Verdict::Lack),
        }
    }

    // The same on these rows.
    fn plan_on(
        &self,
        alloc: Global,
        dialect: Dialect,
        rows: &[Tracked],
    ) -> Result<Option<RowTurns>, Verdict>
        requires read { IsRead self.now dialect }
        ensures plans { Plans self.now dialect rows.now result }
        ensures new { IfOk result (AreNew self.now.prints dialect) }
        ensures refusal { IfErr result IsRefusal }
    {
        check_faults(alloc, &self.options, &self.changelog, rows)?;
        self.plan_back(alloc, dialect, rows)
    }

    // The changelog goes with these rows.
    fn plan_back(
        &self,
        alloc: Global,
        dialect: Dialect,
        rows: &[Tracked],
    ) -> Result<Option<RowTurns>, Verdict>
        requires read { IsRead self.now dialect }
        ensures passes { Passes
            (unreachable_by dialect (view_log self.now.options self.now.changelog)
            (rows_kept self.now.target rows.now) rows.now) result }
        ensures turns { IfOk result
            (λ turns. back_turns self.now dialect rows.now ≡ Some (turns_in turns)) }
        ensures new { IfOk result (AreNew self.now.prints dialect) }
        ensures refusal { IfErr result IsRefusal }
    {
        let undone = rows_behind(rows, &self.target)?;
        let ways = ways_of(alloc, &self.changelog, undone)?;
        turns_of(
            alloc,
            dialect,
            &self.changelog,
            ways.as_slice(),
            undone,
            self.prints,
        )
    }
}

// The rows that a rollback to the target takes back.
fn rows_behind<'a>(rows: &'a [Tracked], target: &Target) -> Result<&'a [Tracked], Verdict>
    ensures undone { IfOk result (λ left.
        option_map (λ stay. rows_undone stay rows.now) (rows_kept target.now rows.now)
        ≡ Some (reverse left.now)) }
    ensures missing { IfErr result
        (λ v. (v ≡ verdict.Answer NoTarget) × (rows_kept target.now rows.now ≡ None)) }
{
    match rows_to_undo(rows, target) {
        Ok(undone) => Ok(undone),
        Err(_) => Err(Verdict::Answer(Answer::NoTarget)),
    }
}

// How these rows are taken back.
fn ways_of(
    alloc: Global,
    changelog: &Changelog,
    rows: &[Tracked],
) -> Result<Items<TakenBack>, Verdict>
    ensures ways { IfOk result (λ ways. AreWays changelog.now.sets rows.now ways) }
    ensures passes { (options : Asked)
        → Passes
        (if_not
        (not_reversible options.dialect any_meaning (views options changelog.now.sets)
        (reverse rows.now))) result }
    ensures refusal { IfErr result IsRefusal }
{
    match reversible(alloc, changelog, rows) {
        Ok(ways) => Ok(ways),
        Err(ReverseFault::Not(of)) => Err(Verdict::Answer(Answer::NotReversible(of))),
        Err(ReverseFault::OutOfMemory) => Err(Verdict::Lack),
    }
}

// The turns that take these rows back, each in its way, where there are any.
fn turns_of(
    alloc: Global,
    dialect: Dialect,
    changelog: &Changelog,
    ways: &[TakenBack],
    rows: &[Tracked],
    prints: bool,
) -> Result<Option<RowTurns>, Verdict>
    requires read { AreFor dialect changelog.now }
    requires ways { AreWays changelog.now.sets rows.now ways.now }
    ensures turns { IfOk result (λ turns.
        (options : Asked)
        → undo_turns dialect any_meaning (views options changelog.now.sets) (reverse rows.now)
        ≡ Some (turns_in turns)) }
    ensures new { IfOk result (AreNew prints dialect) }
    ensures lack { IfErr result (λ v. v ≡ verdict.Lack) }
{
    if rows.is_empty() {
        return Ok(None);
    }
    match RowTurns::new(alloc, dialect, changelog, ways, rows, prints) {
        Ok(source) => Ok(Some(source)),
        Err(_) => Err(Verdict::Lack),
    }
}

// A command without turns is done.
fn first_verdict(alloc: Global, turns: &Option<RowTurns>) -> Verdict
    ensures { ComesTo turns.now result }
{
    match turns {
        Some(_) => Verdict::Turns(no_turn(alloc)),
        None => Verdict::Answer(Answer::Done),
    }
}

impl Source for RollingBack {
    ghost use Rattle.lq_any.specs.declared.any_change.AnyChange.{AnyChange};
    ghost use Rattle.lq_players.specs.RollingBack.{IsRead, back_way, turns_left};
    ghost use Rattle.lq_seen.specs.Telling.{Account};
    ghost use Rattle.lq_seen.specs.View.{any_meaning};

    ghost Key = { AnyChange };

    ghost meaning = { any_meaning };

    ghost left = { λ it. turns_left it.turns };

    ghost Told = { Account };

    ghost way = { back_way };

    ghost reads = { IsRead };

    fn enter<K: Look, P: SqlText>(
        &mut self,
        alloc: Global,
        dialect: Dialect,
        stamp: &Stamp,
        look: &K,
        sql: &P,
    ) -> Entered {
        match &mut self.turns {
            Some(turns) => turns.enter(alloc, dialect, stamp, look, sql),
            None => Entered::NoTurn,
        }
    }

    fn looks<K: Look>(&mut self, dialect: Dialect, look: &K) {
        match &mut self.turns {
            Some(turns) => turns.looks(dialect, look),
            None => {}
        }
    }

    fn finished(&mut self) {
        match &mut self.turns {
            Some(turns) => turns.finished(),
            None => {}
        }
    }

    fn refused(&mut self) {
        match &mut self.turns {
            Some(turns) => turns.refused(),
            None => {}
        }
    }
}

impl Checks for RollingBack {
    ghost use Rattle.lq_players.specs.RollingBack.{back_ends, back_job, back_reports};

    ghost job = { back_job };

    ghost ends = { back_ends };

    ghost reports = { back_reports };

    fn needs_lock(&self) -> bool {
        true
    }

    fn check<K: Look, P: SqlText>(
        &mut self,
        alloc: Global,
        dialect: Dialect,
        _stamp: &Stamp,
        look: &K,
        _sql: &P,
    ) -> Verdict {
        match self.plan(alloc, dialect, look) {
            Ok(turns) => {
                let first = first_verdict(alloc, &turns);
                self.turns = turns;
                first
            }
            Err(refusal) => refusal,
        }
    }

    fn answer(&self, refused: Option<Refusal>) -> Result<Answer, NoMemory> {
        match &self.turns {
            Some(turns) => answer_at_end(self.alloc, &turns.outcome, refused),
            None => Ok(Answer::Done),
        }
    }

    fn into_report(self) -> Report {
        let RollingBack { alloc, turns, .. } = self;
        match turns {
            Some(turns) => report_of(alloc, turns.outcome),
            None => Report::new(alloc),
        }
    }
}
