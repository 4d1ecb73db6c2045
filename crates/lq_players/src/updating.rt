ghost use Rattle.std.specs.List.{All};
ghost use Rattle.std.specs.Prelude.{◌≡◌};
ghost use Rattle.lq_base.specs.declared.command.Command.TheVariants as command;
ghost use Rattle.lq_base.specs.declared.dialect.Dialect.{Dialect as Kind};
ghost use Rattle.lq_beside.specs.Replays.{HasTexts};
ghost use Rattle.lq_players.specs.Tasks.{task_for, work_of};
ghost use Rattle.lq_players.specs.Updating.{Follows, IsUpdateFor, TakesTurns, update_job};
ghost use Rattle.lq_kinds.specs.ReadFor.{AreFor};
ghost use Rattle.lq_seen.specs.View.{view_log};
ghost use Rattle.lq_turns.specs.declared.stamp.Stamp.{Stamp as Clocked};

use crate::at_end::{answer_at_end, report_of};
use crate::hands::no_turn;
use crate::update_checks::{Asked, Planned, plan};
use lq_base::{Dialect, NoMemory};
use lq_expr::Options;
use lq_hand::{Entered, Source};
use lq_kinds::Changelog;
use lq_model::{Look, SqlText};
use lq_playing::{Checks, Report, Verdict};
use lq_sets::SetTurns;
use lq_turns::{Answer, Refusal, Stamp};
use std::alloc::Global;

/// An update (Liquibase's documentation, "update"), and the source of its turns once it has passed its
/// checks.
#[derive(Drop)]
pub struct Updating {
    alloc: Global,
    /// What it is asked for, until it is checked.
    asked: Option<Asked>,
    /// Its turns, from then on.
    turns: Option<SetTurns>,
    /// What it did without turns.
    report: Report,
}

impl Updating {
    /// An update by a changelog that was read for the dialect of the options. The texts of its
    /// changesets go into the columns of their rows. Where `prints`, it keeps the statements' texts.
    pub fn new(alloc: Global, changelog: Changelog, options: Options, prints: bool) -> Updating
        requires read { AreFor options.dialect changelog }
        requires texts { All HasTexts (view_log options changelog).sets }
        ensures reads { IsUpdateFor result options.dialect }
        ensures job { (d : Kind) (stamp : Clocked)
            → update_job result d stamp
            ≡ work_of prints d (task_for command.Update options changelog stamp) }
    {
        Updating {
            alloc,
            asked: Some(Asked {
                changelog,
                options,
                prints,
            }),
            turns: None,
            report: Report::new(alloc),
        }
    }

    /// Does what its checks came to.
    fn take_turns(&mut self, planned: Result<Planned, Verdict>) -> Verdict
        ensures { TakesTurns planned self.old self.new result }
    {
        match planned {
            Ok(planned) => self.follow(planned),
            Err(refusal) => refusal,
        }
    }

    fn follow(&mut self, planned: Planned) -> Verdict
        ensures { Follows planned self.old self.new result }
    {
        match planned {
            Planned::Turns(source) => {
                self.turns = Some(source);
                Verdict::Turns(no_turn(self.alloc))
            }
            Planned::Idle(report) => {
                self.turns = None;
                self.report = report;
                Verdict::Answer(Answer::Done)
            }
        }
    }
}

impl Source for Updating {
    ghost use Rattle.lq_any.specs.declared.any_change.AnyChange.{AnyChange};
    ghost use Rattle.lq_players.specs.Updating.{IsUpdateFor, update_left, update_way};
    ghost use Rattle.lq_seen.specs.Telling.{Account};
    ghost use Rattle.lq_seen.specs.View.{any_meaning};

    ghost Key = { AnyChange };

    ghost meaning = { any_meaning };

    ghost left = { update_left };

    ghost Told = { Account };

    ghost way = { update_way };

    ghost reads = { IsUpdateFor };

    fn enter<K: Look, P: SqlText>(
        &mut self,
        alloc: Global,
        dialect: Dialect,
        stamp: &Stamp,
        look: &K,
        sql: &P,
    ) -> Entered {
        match &mut self.turns {
            Some(source) => source.enter(alloc, dialect, stamp, look, sql),
            None => Entered::Lack,
        }
    }

    fn looks<K: Look>(&mut self, dialect: Dialect, look: &K) {
        match &mut self.turns {
            Some(source) => source.looks(dialect, look),
            None => {}
        }
    }

    fn finished(&mut self) {
        match &mut self.turns {
            Some(source) => source.finished(),
            None => {}
        }
    }

    fn refused(&mut self) {
        match &mut self.turns {
            Some(source) => source.refused(),
            None => {}
        }
    }
}

impl Checks for Updating {
    ghost use Rattle.lq_players.specs.Updating.{update_ends, update_job, update_reports};

    ghost job = { update_job };

    ghost ends = { update_ends };

    ghost reports = { update_reports };

    fn needs_lock(&self) -> bool {
        true
    }

    fn check<K: Look, P: SqlText>(
        &mut self,
        alloc: Global,
        dialect: Dialect,
        _stamp: &Stamp,
        look: &K,
        _sql: &P,
    ) -> Verdict {
        match self.asked.take() {
            Some(asked) => {
                let planned = plan(alloc, asked, dialect, look);
                self.take_turns(planned)
            }
            None => Verdict::Lack,
        }
    }

    fn answer(&self, refused: Option<Refusal>) -> Result<Answer, NoMemory> {
        match &self.turns {
            Some(source) => answer_at_end(self.alloc, &source.outcome, refused),
            None => Ok(Answer::Done),
        }
    }

    fn into_report(self) -> Report {
        let Updating {
            alloc,
            turns,
            report,
            ..
        } = self;
        match turns {
            Some(source) => report_of(alloc, source.outcome),
            None => report,
        }
    }
}
