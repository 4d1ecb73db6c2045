ghost use Rattle.std.specs.Option.{unwrap_or};
ghost use Rattle.std.specs.Prelude.{◌≡◌, [], IfOk};
ghost use Rattle.lq_kinds.specs.ChangeSets.{no_context, no_labels, no_reaction, old_sum_of, set_with, sum_of};

use crate::change_set::ChangeSet;
use crate::context::{Context, LabelNames};
use crate::heading::{Heading, Notes, Running, Selection};
use crate::sum::{Sums, sums_of};
use lq_base::{Identity, Items, NoMemory, OnFail, Text};
use lq_cond::{Cond, Reaction};
use std::alloc::Global;

pub fn context_or(alloc: Global, context: Option<Context>) -> Result<Context, NoMemory>
    ensures { IfOk result (λ found. found ≡ unwrap_or context no_context) }
{
    match context {
        Some(context) => Ok(context),
        None => Ok(Context {
            text: Text::new(alloc, "")?,
            expression: None,
        }),
    }
}

pub fn labels_or(alloc: Global, labels: Option<LabelNames>) -> Result<LabelNames, NoMemory>
    ensures { IfOk result (λ found. found ≡ unwrap_or labels no_labels) }
{
    match labels {
        Some(labels) => Ok(labels),
        None => Ok(LabelNames {
            text: Text::new(alloc, "")?,
            names: Items::new(alloc),
        }),
    }
}

pub fn comment_or(alloc: Global, comment: Option<Text>) -> Result<Text, NoMemory>
    ensures { IfOk result (λ found. found ≡ unwrap_or comment []) }
{
    match comment {
        Some(comment) => Ok(comment),
        None => Text::new(alloc, ""),
    }
}

pub fn reaction_or(alloc: Global, reaction: Option<Reaction>) -> Reaction
    ensures { result ≡ unwrap_or reaction no_reaction }
{
    match reaction {
        Some(reaction) => reaction,
        None => Reaction {
            cond: Cond::And(Items::new(alloc)),
            on_fail: OnFail::Halt,
            on_error: OnFail::Halt,
        },
    }
}

/// The changeset of what was read of its keys, with its checksums.
#[tactic(auto, unfolding(crate::specs::ChangeSets::set_with))]
fn joined_with(
    heading: Heading,
    selection: Selection,
    running: Running,
    path: Text,
    notes: Notes,
    sums: Sums,
) -> ChangeSet
    ensures { sums.sum ≡ sum_of heading.changes
        → sums.old_sum ≡ old_sum_of heading.changes
        → result ≡ set_with heading selection running path notes }
{
    let here = selection.here;
    let (id, author, changes) = heading.into_parts();
    let (context, labels) = selection.into_parts();
    let (valid_sums, comment, reaction, rollback) = notes.into_parts();
    ChangeSet {
        identity: Identity {
            file: path,
            id,
            author,
        },
        here,
        changes,
        rollback,
        context: context.expression,
        labels: labels.names,
        context_text: context.text,
        labels_text: labels.text,
        comment,
        run_always: running.run_always,
        run_on_change: running.run_on_change,
        fail_on_error: running.fail_on_error,
        in_transaction: running.in_transaction,
        valid_sums,
        cond: reaction.cond,
        on_fail: reaction.on_fail,
        on_error: reaction.on_error,
        sum: sums.sum,
        old_sum: sums.old_sum,
    }
}

/// The changeset of what was read of its keys.
pub fn set_with(
    alloc: Global,
    heading: Heading,
    selection: Selection,
    running: Running,
    path: Text,
    notes: Notes,
) -> Result<ChangeSet, NoMemory>
    ensures { IfOk result (λ set. set ≡ set_with heading selection running path notes) }
{
    let sums = sums_of(alloc, heading.changes.as_slice())?;
    Ok(joined_with(heading, selection, running, path, notes, sums))
}
