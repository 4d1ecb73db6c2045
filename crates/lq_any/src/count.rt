//! How many statements a change gives.
ghost use Rattle.std.specs.Prelude.{◌≡◌, IfOk, length, true};
ghost use Rattle.lq_any.specs.AnyChange.{gives, is_for};

use crate::any_change::AnyChange;
use lq_base::{Dialect, Items, NoMemory};
use lq_model::Change;
use std::alloc::Global;

fn made_count(alloc: Global, dialect: Dialect, change: &AnyChange) -> Result<usize, NoMemory>
    requires { is_for dialect change.now ≡ true }
    ensures { IfOk result (λ count. count ≡ length (gives dialect change.now)) }
{
    let mut statements = Items::new(alloc);
    change.statements(alloc, dialect, &mut statements)?;
    Ok(statements.len())
}

/// How many statements a change gives. Those of a text or of a file are not made for it.
pub fn statement_count(
    alloc: Global,
    dialect: Dialect,
    change: &AnyChange,
) -> Result<usize, NoMemory>
    requires { is_for dialect change.now ≡ true }
    ensures { IfOk result (λ count. count ≡ length (gives dialect change.now)) }
{
    match change {
        AnyChange::Sql(sql) => Ok(sql.count()),
        AnyChange::LoadData(load) => Ok(load.rows.len()),
        _ => made_count(alloc, dialect, change),
    }
}
