use lq_base::{Identity, Text};

/// What of a changeset tells whether it has a turn, and what is wrong with it.
#[derive(Clone, Copy)]
pub struct Head<'a> {
    pub identity: &'a Identity,
    /// Whether its `dbms` means the command's dialect.
    pub here: bool,
    /// Whether the command selects it.
    pub selected: bool,
    pub run_always: bool,
    pub run_on_change: bool,
    /// The checksum of its changes.
    pub sum: &'a Text,
    /// The one of the old form.
    pub old_sum: &'a Text,
    /// The texts of `validCheckSum`.
    pub valid_sums: &'a [Text],
}
