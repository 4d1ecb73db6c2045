//! What the change types of sequences share.
ghost use Rattle.std.specs.Prelude.{◌≡◌, IfOk, true};
ghost use Rattle.lq_model.specs.Step.{is_pg};
ghost use Rattle.lq_tree.specs.Look.{Reads};
ghost use Rattle.lq_views.specs.QueryText.{for_postgresql};

use lq_base::{Dialect, KindFault};
use lq_tree::not_for;
use std::alloc::Global;

/// Tests that the dialect has sequences: PostgreSQL has them (its documentation, CREATE SEQUENCE),
/// MySQL has not, where the change is `NotFor`.
pub(crate) fn for_postgresql(alloc: Global, dialect: Dialect) -> Result<(), KindFault>
    ensures read { Reads (for_postgresql dialect) result }
    ensures right { IfOk result (λ _. is_pg dialect ≡ true) }
{
    match dialect {
        Dialect::Postgresql => Ok(()),
        Dialect::Mysql => Err(not_for(alloc, dialect)),
    }
}
