ghost use Rattle.std.specs.Prelude.{◌≡◌};

use crate::context::{Context, LabelNames};
use lq_any::AnyChange;
use lq_base::{Items, Text};
use lq_cond::Reaction;

/// What names a changeset in its file, and its changes.
pub struct Heading {
    pub id: Text,
    pub author: Text,
    pub changes: Items<AnyChange>,
}

/// For which runs a changeset is.
pub struct Selection {
    pub context: Context,
    pub labels: LabelNames,
    pub here: bool,
}

/// How a changeset runs.
#[derive(Clone, Copy)]
pub struct Running {
    pub run_always: bool,
    pub run_on_change: bool,
    pub fail_on_error: bool,
    pub in_transaction: bool,
    pub ignored: bool,
}

/// By which sums a changeset is known, and what is said of it.
pub struct Notes {
    pub valid_sums: Items<Text>,
    pub comment: Text,
    pub reaction: Reaction,
    pub rollback: Option<Items<AnyChange>>,
}

// Written out, so that each place that lets one go is one call.
impl Drop for Heading {
    fn drop(self) {
        let Heading {
            id,
            author,
            changes,
        } = self;
        drop(id);
        drop(author);
        drop(changes);
    }
}

// Written out, so that each place that lets one go is one call.
impl Drop for Selection {
    fn drop(self) {
        let Selection {
            context,
            labels,
            here: _,
        } = self;
        drop(context);
        drop(labels);
    }
}

// Written out, so that each place that lets one go is one call.
impl Drop for Notes {
    fn drop(self) {
        let Notes {
            valid_sums,
            comment,
            reaction,
            rollback,
        } = self;
        drop(valid_sums);
        drop(comment);
        drop(reaction);
        drop(rollback);
    }
}

impl Heading {
    /// The id, the author and the changes.
    pub fn into_parts(self) -> (Text, Text, Items<AnyChange>)
        ensures { result ≡ (self.id, self.author, self.changes) }
    {
        let Heading {
            id,
            author,
            changes,
        } = self;
        (id, author, changes)
    }
}

impl Selection {
    /// The context and the labels.
    pub fn into_parts(self) -> (Context, LabelNames)
        ensures { result ≡ (self.context, self.labels) }
    {
        let Selection {
            context,
            labels,
            here: _,
        } = self;
        (context, labels)
    }
}

impl Notes {
    /// The sums, the comment, the reaction and what takes the changeset back.
    pub fn into_parts(self) -> (Items<Text>, Text, Reaction, Option<Items<AnyChange>>)
        ensures { result ≡ (self.valid_sums, self.comment, self.reaction, self.rollback) }
    {
        let Notes {
            valid_sums,
            comment,
            reaction,
            rollback,
        } = self;
        (valid_sums, comment, reaction, rollback)
    }
}
