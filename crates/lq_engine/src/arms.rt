ghost use Rattle.lq_model.specs.Sound.{IsSound};
ghost use Rattle.lq_model.specs.Step.{step};
ghost use Rattle.lq_rows.specs.Stored.{Carries};

use crate::definition::define;
use lq_base::Dialect;
use lq_deletes::delete_from;
use lq_model::{By, Statement};
use lq_parts::{Parts, RunFault};
use lq_rowops::{insert_into, update};
use std::alloc::Global;

/// Carries a statement out on a sound catalogue. It may change first and test its result afterwards:
/// at a fault it may leave changes, which the caller undoes.
pub fn carry_out(
    alloc: Global,
    parts: &mut Parts,
    dialect: Dialect,
    by: By,
    statement: &Statement,
) -> Result<u64, RunFault>
    requires { IsSound dialect parts.old.now }
    ensures { Carries (step by dialect statement.now parts.old.now) parts.old parts.new result }
{
    match statement {
        Statement::Insert {
            table,
            columns,
            values,
        } => insert_into(
            parts,
            alloc,
            by,
            dialect,
            table,
            columns.as_slice(),
            values.as_slice(),
        ),
        Statement::Update { table, sets, test } => {
            update(parts, alloc, by, dialect, table, sets.as_slice(), test)
        }
        Statement::Delete { table, test } => delete_from(parts, alloc, by, dialect, table, test),
        _ => define(alloc, parts, dialect, by, statement),
    }
}
