ghost use Rattle.std.specs.Prelude.{◌≡◌};

use crate::rollback::undoing;
use lq_any::AnyChange;
use lq_base::{Dialect, KindFault};
use lq_model::SqlText;
use lq_tree::{Node, Reader};
use std::alloc::Global;

/// Reads the items of a rollback block.
#[derive(Drop)]
pub struct Undoings<'a, P: SqlText> {
    pub dialect: Dialect,
    pub sql: &'a P,
    ghost same: { P.dialect ≡ dialect },
}

impl<'a, P: SqlText> Reader for Undoings<'a, P> {
    ghost use Rattle.lq_any.specs.AnyChange.{is_for};
    ghost use Rattle.lq_kinds.specs.Changes.{undoing};

    type Read = AnyChange;

    ghost of = { λ reader. undoing reader.dialect };

    ghost fits = { λ reader. is_for reader.dialect };

    fn read(&self, alloc: Global, node: &Node) -> Result<AnyChange, KindFault> {
        undoing(alloc, node, self.dialect, self.sql)
    }
}
