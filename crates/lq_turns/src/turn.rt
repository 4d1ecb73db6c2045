use crate::deed::OnRows;
use lq_base::{Identity, Items};
use lq_model::Statement;

/// What a changeset runs at its turn, or what takes a row back.
#[derive(Drop)]
pub struct Turn {
    pub identity: Identity,
    pub statements: Items<Statement>,
    /// Whether all of it is one transaction; otherwise each statement is one of its own.
    pub in_transaction: bool,
    /// Whether it takes a row back.
    pub is_undo: bool,
    /// What becomes of its row.
    pub row: OnRows,
}
