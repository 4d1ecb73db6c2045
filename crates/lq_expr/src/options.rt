use crate::expr::Expr;
use lq_base::{Dialect, Items, Text};

/// What a run is asked for besides its command.
#[derive(Drop)]
pub struct Options {
    /// The profile of the engine that the database is of.
    pub dialect: Dialect,
    /// The names that contexts hold for. Without any, each context holds.
    pub contexts: Items<Text>,
    /// The expression that a changeset's labels have to meet.
    pub labels: Option<Expr>,
}
