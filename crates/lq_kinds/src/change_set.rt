use lq_any::AnyChange;
use lq_base::{Identity, Items, OnFail, Text};
use lq_cond::Cond;
use lq_expr::Expr;

/// A changeset, as it is read for one dialect (Liquibase's documentation, "Changeset").
pub struct ChangeSet {
    pub identity: Identity,
    /// Whether its `dbms` means the dialect. Otherwise its changes and its rollback are not read.
    pub here: bool,
    pub changes: Items<AnyChange>,
    /// What takes it back, where it says so itself.
    pub rollback: Option<Items<AnyChange>>,
    pub context: Option<Expr>,
    pub labels: Items<Text>,
    /// The context and the labels as they are written.
    pub context_text: Text,
    pub labels_text: Text,
    pub comment: Text,
    pub run_always: bool,
    pub run_on_change: bool,
    pub fail_on_error: bool,
    /// Whether all of it is one transaction.
    pub in_transaction: bool,
    /// The texts of `validCheckSum`.
    pub valid_sums: Items<Text>,
    pub cond: Cond,
    pub on_fail: OnFail,
    pub on_error: OnFail,
    /// The checksum of its changes.
    pub sum: Text,
    /// The one of the old form, by which rows from before the new form are known.
    pub old_sum: Text,
}

// Written out, so that crates above call it and need not be proved for each type again.
impl Drop for ChangeSet {
    fn drop(self) {
        let ChangeSet {
            identity,
            here: _,
            changes,
            rollback,
            context,
            labels,
            context_text,
            labels_text,
            comment,
            run_always: _,
            run_on_change: _,
            fail_on_error: _,
            in_transaction: _,
            valid_sums,
            cond,
            on_fail: _,
            on_error: _,
            sum,
            old_sum,
        } = self;
        drop(identity);
        drop(changes);
        drop(rollback);
        drop(context);
        drop(labels);
        drop(context_text);
        drop(labels_text);
        drop(comment);
        drop(valid_sums);
        drop(cond);
        drop(sum);
        drop(old_sum);
    }
}

/// The changesets of a changelog in order, with its own precondition.
pub struct Changelog {
    pub cond: Cond,
    pub on_fail: OnFail,
    pub on_error: OnFail,
    pub sets: Items<ChangeSet>,
}

// Written out, so that crates above call it and need not be proved for each type again.
impl Drop for Changelog {
    fn drop(self) {
        let Changelog {
            cond,
            on_fail: _,
            on_error: _,
            sets,
        } = self;
        drop(cond);
        drop(sets);
    }
}
