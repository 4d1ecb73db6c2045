ghost use Rattle.std.specs.Prelude.{◌≡◌, Bool, IfOk, Result, Some, false};
ghost use Rattle.lq_base.specs.declared.reason.Reason.{Reason};
ghost use Rattle.lq_cond.specs.declared.cond.Cond.{Cond};
ghost use Rattle.lq_expr.specs.declared.options.Options.{Options};
ghost use Rattle.lq_sets.specs.Counting.{IsSeen, Suffice, is_fill};
ghost use Rattle.lq_seen.specs.View.{condition_of, view, view_log};
ghost use Rattle.lq_track.specs.Database.{Database};
ghost use Rattle.lq_turns.specs.Deed.{contents_of};
ghost use Rattle.lq_turns.specs.Schedule.{StandsFor};
ghost use Rattle.lq_turns.specs.Settle.{choice_of, own_choice, reacted, tested};
ghost use Rattle.lq_verdicts.specs.Verdict.{IsTold};

use crate::condition::holds;
use lq_base::{Dialect, NoMemory, OnFail, Tracked, Why};
use lq_cond::CondFault;
use lq_kinds::{ChangeSet, Changelog};
use lq_model::Look;
use lq_turns::{Choice, What};
use std::alloc::Global;

fn reacted(what: What, reaction: OnFail, why: Why) -> Choice
    ensures { result ≡ reacted what reaction why }
{
    match reaction {
        OnFail::Halt => Choice::Halts(why),
        OnFail::Continue => Choice::Skips,
        OnFail::MarkRan => Choice::Marks(what),
        OnFail::Warn => Choice::Runs(what, Some(why)),
    }
}

/// What comes of what a condition told.
fn tested(
    what: What,
    on_fail: OnFail,
    on_error: OnFail,
    answer: Result<bool, CondFault>,
) -> Result<Choice, NoMemory>
    ensures { IfOk result (λ made.
        (meant : Result Bool Reason) (d : Dialect) (asked : Cond)
        → IsTold meant answer
        → made ≡ tested what (condition_of d asked on_fail on_error) meant) }
{
    match answer {
        Ok(true) => Ok(Choice::Runs(what, None)),
        Ok(false) => Ok(reacted(what, on_fail, Why::Failed)),
        Err(CondFault::Error(reason)) => Ok(reacted(what, on_error, Why::Error(reason))),
        Err(CondFault::OutOfMemory) => Err(NoMemory),
    }
}

/// What comes of a changeset's precondition at a turn in which its changes run.
fn by_condition<K: Look>(
    alloc: Global,
    what: What,
    set: &ChangeSet,
    dialect: Dialect,
    look: &K,
    rows: &[Tracked],
) -> Result<Choice, NoMemory>
    requires { is_fill what ≡ false }
    ensures { IfOk result (λ made.
        (options : Options) (database : Database)
        → options.dialect ≡ dialect
        → StandsFor dialect (K.catalogue look.now) database
        → Suffice dialect set.now.cond database rows.now
        → made ≡ choice_of (view options set.now) (contents_of database) (Some what)) }
{
    let answer = holds(alloc, &set.cond, dialect, look, rows);
    let made = tested(what, set.on_fail, set.on_error, answer)?;
    Ok(made)
}

/// What a changeset does whose turn, by its row, is this (Liquibase's documentation,
/// "Preconditions"): by what its precondition tells of the database that is seen, where these rows
/// tell it as much as the database's own. A checksum is filled in without a look at the precondition.
pub fn choice<K: Look>(
    alloc: Global,
    what: What,
    set: &ChangeSet,
    dialect: Dialect,
    look: &K,
    rows: &[Tracked],
) -> Result<Choice, NoMemory>
    ensures { IfOk result (λ made.
        (options : Options) (database : Database)
        → options.dialect ≡ dialect
        → StandsFor dialect (K.catalogue look.now) database
        → Suffice dialect set.now.cond database rows.now
        → made ≡ choice_of (view options set.now) (contents_of database) (Some what)) }
{
    match what {
        What::Fill => Ok(Choice::Fills),
        What::New | What::Again => by_condition(alloc, what, set, dialect, look, rows),
    }
}

/// What an update does by the changelog's own precondition, before its first turn: it runs, perhaps
/// after a warning, or it halts; another reaction is none.
pub fn own_choice<K: Look>(
    alloc: Global,
    changelog: &Changelog,
    dialect: Dialect,
    look: &K,
    rows: &[Tracked],
) -> Result<Choice, NoMemory>
    ensures { IfOk result (λ made.
        (options : Options) (database : Database)
        → options.dialect ≡ dialect
        → IsSeen dialect (K.catalogue look.now) rows.now database
        → made ≡ own_choice (view_log options changelog.now) (contents_of database)) }
{
    let answer = holds(alloc, &changelog.cond, dialect, look, rows);
    let made = tested(What::New, changelog.on_fail, changelog.on_error, answer)?;
    Ok(made)
}
