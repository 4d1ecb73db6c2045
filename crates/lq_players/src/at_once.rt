ghost use Rattle.std.specs.Prelude.{◌≡◌, ◌≤◌, IfOk, true};
ghost use Rattle.lq_base.specs.Number.{char_count};
ghost use Rattle.lq_players.specs.AtOnce.{HasShortTag, OnceChecked, answer_to, call_of, command_of, freeing, listed_by, listing, only_looks, releasing, sets_of, tagging};
ghost use Rattle.lq_players.specs.Reports.{if_held};
ghost use Rattle.lq_players.specs.declared.at_once.OneStep.TheVariants as step;
ghost use Rattle.lq_turns.specs.Jobs.{needs_lock};
ghost use Rattle.lq_turns.specs.Script.{last_row};
ghost use Rattle.lq_turns.specs.declared.stamp.Stamp.{Stamp as Clocked};

use crate::in_tables::{identity_of, lock_in, rows_in};
use lq_base::{Dialect, Identity, Items, Lock, NoMemory, Text, Tracked};
use lq_expr::Options;
use lq_hand::{Entered, Source};
use lq_kinds::Changelog;
use lq_model::{Look, Room, SqlText};
use lq_playing::{Checks, OneCall, Report, Verdict};
use lq_sets::{faults_of, pending_of};
use lq_turns::{Answer, Deed, Fault, OnLock, OnRows, Refusal, Stamp};
use std::alloc::Global;

/// What a command does that ends with its first step.
#[derive(Drop)]
pub enum OneStep {
    Validate,
    Status,
    /// The last row gets this tag.
    Tag(Text),
    Release,
}

/// A command that ends with its first step. A tag has at most 255 characters.
#[derive(Drop)]
pub struct AtOnce {
    pub command: OneStep,
    pub changelog: Changelog,
    pub options: Options,
    /// What it found, once it is checked.
    pub report: Report,
}

/// What its checks come to, and what it found.
#[derive(Drop)]
pub struct Found {
    pub verdict: Verdict,
    pub report: Report,
}

impl AtOnce {
    /// What it comes to on what is seen.
    fn outcome<K: Look>(&self, alloc: Global, dialect: Dialect, look: &K) -> Result<Found, NoMemory>
        requires { HasShortTag (command_of self.now.command) }
        ensures { IfOk result (λ found.
            (stamp : Clocked)
            → OnceChecked dialect stamp self.now (K.catalogue look.now) found) }
    {
        match &self.command {
            OneStep::Validate | OneStep::Status => self.compare(alloc, dialect, look),
            OneStep::Tag(name) => self.tag(alloc, dialect, look, name),
            OneStep::Release => self.release(alloc, dialect, look),
        }
    }

    /// Compares the changelog with the rows.
    fn compare<K: Look>(&self, alloc: Global, dialect: Dialect, look: &K) -> Result<Found, NoMemory>
        requires { only_looks self.now.command ≡ true }
        ensures { IfOk result (λ found.
            (stamp : Clocked)
            → OnceChecked dialect stamp self.now (K.catalogue look.now) found) }
    {
        let rows = rows_in(alloc, dialect, look)?;
        let faults = faults_of(alloc, &self.options, &self.changelog, rows.as_slice())?;
        let pending = self.listed(alloc, rows.as_slice())?;
        Ok(Found {
            verdict: Verdict::Answer(answer_to(faults)),
            report: listing(alloc, pending),
        })
    }

    /// What a status lists.
    fn listed(&self, alloc: Global, rows: &[Tracked]) -> Result<Items<Identity>, NoMemory>
        ensures { IfOk result
            (λ list. list ≡ listed_by self.now.command (sets_of self.now) rows.now) }
    {
        match &self.command {
            OneStep::Status => pending_of(alloc, &self.options, &self.changelog, rows),
            OneStep::Validate => Ok(Items::new(alloc)),
            OneStep::Tag(_) => Ok(Items::new(alloc)),
            OneStep::Release => Ok(Items::new(alloc)),
        }
    }

    /// Gives the last row the tag.
    fn tag<K: Look>(
        &self,
        alloc: Global,
        dialect: Dialect,
        look: &K,
        name: &Text,
    ) -> Result<Found, NoMemory>
        requires command { self.now.command ≡ step.Tag name.now }
        requires short { char_count name.now ≤ 255 }
        ensures { IfOk result (λ found.
            (stamp : Clocked)
            → OnceChecked dialect stamp self.now (K.catalogue look.now) found) }
    {
        let rows = rows_in(alloc, dialect, look)?;
        let verdict = tagging(alloc, rows.as_slice(), name)?;
        Ok(Found {
            verdict,
            report: Report::new(alloc),
        })
    }

    /// Frees the lock where it is held.
    fn release<K: Look>(&self, alloc: Global, dialect: Dialect, look: &K) -> Result<Found, NoMemory>
        requires { self.now.command ≡ step.Release }
        ensures { IfOk result (λ found.
            (stamp : Clocked)
            → OnceChecked dialect stamp self.now (K.catalogue look.now) found) }
    {
        let lock = lock_in(alloc, dialect, look)?;
        let verdict = releasing(alloc, lock.locked)?;
        Ok(Found {
            verdict,
            report: freeing(alloc, lock),
        })
    }
}

// The answer where these faults were found, or none.
fn answer_to(found: Items<Fault>) -> Answer
    ensures { result ≡ answer_to found }
{
    if found.is_empty() {
        return Answer::Done;
    }
    Answer::Invalid(found)
}

// It found these changesets.
fn listing(alloc: Global, pending: Items<Identity>) -> Report
    ensures { result ≡ listing pending }
{
    let mut report = Report::new(alloc);
    report.pending = pending;
    report
}

// It found this lock.
fn freeing(alloc: Global, lock: Lock) -> Report
    ensures { result ≡ freeing lock }
{
    let mut report = Report::new(alloc);
    report.freed = if_held(lock);
    report
}

fn if_held(lock: Lock) -> Option<Lock>
    ensures { result ≡ if_held lock }
{
    if lock.locked { Some(lock) } else { None }
}

// Tags the last of the rows.
fn tagging(alloc: Global, rows: &[Tracked], name: &Text) -> Result<Verdict, NoMemory>
    ensures { IfOk result (λ v. v ≡ tagging name.now (last_row rows.now)) }
{
    match rows.split_last() {
        Some((row, _before)) => tag_row(alloc, row, name),
        None => Ok(Verdict::Answer(Answer::NoTarget)),
    }
}

// Tags the row.
fn tag_row(alloc: Global, row: &Tracked, name: &Text) -> Result<Verdict, NoMemory>
    ensures { IfOk result (λ v. v ≡ tagging name.now (Some row.now)) }
{
    let of = identity_of(alloc, row)?;
    let tag = name.copy(alloc)?;
    let call = call_of(alloc, Deed::Rows(OnRows::Tagged(of, tag)), Room::Ordinary)?;
    Ok(Verdict::OneCall(call))
}

// Frees the lock, unless it is free.
fn releasing(alloc: Global, held: bool) -> Result<Verdict, NoMemory>
    ensures { IfOk result (λ v. v ≡ releasing held) }
{
    if !held {
        return Ok(Verdict::Answer(Answer::Done));
    }
    let call = call_of(alloc, Deed::Locks(OnLock::Freed), Room::Release)?;
    Ok(Verdict::OneCall(call))
}

// A call of one deed, after which the command is done.
fn call_of(alloc: Global, deed: Deed, room: Room) -> Result<OneCall, NoMemory>
    ensures { IfOk result (λ call. call ≡ call_of deed room) }
{
    let mut deeds = Items::new(alloc);
    deeds.push(deed)?;
    Ok(OneCall {
        deeds,
        room,
        answer: Answer::Done,
    })
}

// A lock that is held keeps it out.
fn asks_for_lock(command: &OneStep) -> bool
    ensures { result ≡ needs_lock (command_of command.now) }
{
    matches!(command, OneStep::Tag(_))
}

impl Source for AtOnce {
    ghost use Rattle.lq_any.specs.declared.any_change.AnyChange.{AnyChange};
    ghost use Rattle.lq_players.specs.AtOnce.{HasShortTag, command_of, once_way};
    ghost use Rattle.lq_seen.specs.View.{any_meaning};
    ghost use Rattle.lq_turns.specs.Rest.{NoMore};

    ghost Key = { AnyChange };

    ghost meaning = { any_meaning };

    ghost left = { λ source. NoMore };

    ghost Told = { Unit {0} };

    ghost way = { once_way };

    ghost reads = { λ source dialect. HasShortTag (command_of source.command) };

    fn enter<K: Look, P: SqlText>(
        &mut self,
        _alloc: Global,
        _dialect: Dialect,
        _stamp: &Stamp,
        _look: &K,
        _sql: &P,
    ) -> Entered {
        Entered::NoTurn
    }

    fn looks<K: Look>(&mut self, _dialect: Dialect, _look: &K) {}

    fn finished(&mut self) {}

    fn refused(&mut self) {}
}

impl Checks for AtOnce {
    ghost use Rattle.lq_players.specs.AtOnce.{once_ends, once_job, once_reports};

    ghost job = { once_job };

    ghost ends = { once_ends };

    ghost reports = { once_reports };

    fn needs_lock(&self) -> bool {
        asks_for_lock(&self.command)
    }

    fn check<K: Look, P: SqlText>(
        &mut self,
        alloc: Global,
        dialect: Dialect,
        _stamp: &Stamp,
        look: &K,
        _sql: &P,
    ) -> Verdict {
        match self.outcome(alloc, dialect, look) {
            Ok(found) => {
                let Found { verdict, report } = found;
                self.report = report;
                verdict
            }
            Err(_) => Verdict::Lack,
        }
    }

    fn answer(&self, _refused: Option<Refusal>) -> Result<Answer, NoMemory> {
        Ok(Answer::Done)
    }

    fn into_report(self) -> Report {
        self.report
    }
}
