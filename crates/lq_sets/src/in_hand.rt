ghost use Rattle.std.specs.List.{list_all};
ghost use Rattle.std.specs.Prelude.{◌≡◌, ◌+◌, IfOk, Some, slice_get, true};
ghost use Rattle.lq_any.specs.AnyChange.{is_for};
ghost use Rattle.lq_seen.specs.Telling.{bounded};
ghost use Rattle.lq_sets.specs.Counting.{HasLooked, changes_run, runs, stale_at, stale_one};
ghost use Rattle.lq_sets.specs.SetTurns.{IsOf};

use crate::beginnings::{beginnings, next_beginning};
use lq_base::{Dialect, Duplicate, Identity, Items, NoMemory};
use lq_kinds::{AnyChange, ChangeSet};
use lq_model::{Change, Look};
use lq_turns::Choice;
use std::alloc::Global;

/// The turn of a changeset that is in hand.
#[derive(Drop)]
pub struct InHand {
    pub identity: Identity,
    /// What the changeset does.
    pub choice: Choice,
    /// Whether the command stops where a statement of it is refused.
    pub stops: bool,
    /// Of each statement to come, the next one last, the place of the change that begins with it,
    /// from 0, where one does.
    pub beginnings: Items<Option<usize>>,
    /// How many changes were not fresh at their place.
    pub not_fresh: u64,
}

impl InHand {
    /// No statement of the turn has come. The changes were read for the dialect.
    pub fn new(
        alloc: Global,
        dialect: Dialect,
        set: &ChangeSet,
        choice: Choice,
    ) -> Result<InHand, NoMemory>
        requires read { list_all (is_for dialect) set.now.changes ≡ true }
        ensures { IfOk result (λ turn. IsOf dialect set.now choice turn) }
    {
        let identity = set.identity.duplicate(alloc)?;
        let beginnings = beginnings(alloc, dialect, changes_run(set, choice))?;
        Ok(InHand {
            identity,
            choice,
            stops: set.fail_on_error,
            beginnings,
            not_fresh: 0,
        })
    }

    /// A statement of the changeset comes next, and this is what it will see.
    pub fn looks<K: Look>(&mut self, dialect: Dialect, set: &ChangeSet, look: &K)
        requires read { list_all (is_for dialect) set.now.changes ≡ true }
        ensures same { (self.new.identity ≡ self.old.identity)
            × (self.new.choice ≡ self.old.choice)
            × (self.new.stops ≡ self.old.stops) }
        ensures looked { HasLooked dialect set.now.changes (K.catalogue look.now) self.old
            self.new }
    {
        let beginning = next_beginning(&mut self.beginnings);
        let stale = stale_at(dialect, set, beginning, look);
        self.not_fresh = counted(self.not_fresh, stale);
    }
}

/// Whether its changes run.
pub fn runs(choice: Choice) -> bool
    ensures { result ≡ runs choice }
{
    match choice {
        Choice::Passes => false,
        Choice::Fills => false,
        Choice::Skips => false,
        Choice::Marks(_) => false,
        Choice::Runs(_, _) => true,
        Choice::Halts(_) => false,
    }
}

/// The changes that run: only a changeset that runs has statements.
fn changes_run(set: &ChangeSet, choice: Choice) -> &[AnyChange]
    ensures { result.now ≡ changes_run choice set.now.changes }
{
    if runs(choice) {
        set.changes.as_slice()
    } else {
        &[]
    }
}

/// 1 where a change of the changeset begins with the statement that comes next and is not fresh on
/// what that sees, else 0.
fn stale_at<K: Look>(dialect: Dialect, set: &ChangeSet, beginning: Option<usize>, look: &K) -> u64
    requires read { list_all (is_for dialect) set.now.changes ≡ true }
    ensures { result ≡ stale_at dialect set.now.changes beginning (K.catalogue look.now) }
{
    match beginning {
        Some(place) => stale_one(dialect, set, place, look),
        None => 0,
    }
}

/// The same of the change at this place, if there is one.
fn stale_one<K: Look>(dialect: Dialect, set: &ChangeSet, place: usize, look: &K) -> u64
    requires read { list_all (is_for dialect) set.now.changes ≡ true }
    ensures { result ≡ stale_one dialect (slice_get set.now.changes place)
        (K.catalogue look.now) }
{
    match set.changes.get(place) {
        Some(change) => stale_change(dialect, change, look),
        None => 0,
    }
}

fn stale_change<K: Look>(dialect: Dialect, change: &AnyChange, look: &K) -> u64
    requires read { is_for dialect change.now ≡ true }
    ensures { result ≡ stale_one dialect (Some change.now) (K.catalogue look.now) }
{
    if change.is_fresh(dialect, look) { 0 } else { 1 }
}

/// So many more. At the greatest u64 a count stays.
pub fn counted(count: u64, more: u64) -> u64
    ensures { result ≡ bounded (count + more) }
{
    count.saturating_add(more)
}
