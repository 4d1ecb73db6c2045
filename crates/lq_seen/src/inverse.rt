ghost use Rattle.std.specs.List.{list_all};
ghost use Rattle.std.specs.Prelude.{◌≡◌, IfOk, true};
ghost use Rattle.lq_expr.specs.declared.options.Options.{Options};
ghost use Rattle.lq_any.specs.AnyChange.{is_for};
ghost use Rattle.lq_kinds.specs.ReadFor.{is_read_for};
ghost use Rattle.lq_turns.specs.Set.{inverses, undoing};
ghost use Rattle.lq_seen.specs.View.{any_meaning, view};

use crate::turn::statements_of;
use lq_base::{Dialect, Items, NoMemory};
use lq_kinds::{AnyChange, ChangeSet};
use lq_last_first::{Inverts, inverses};
use lq_model::{Change, Statement, Undo};
use std::alloc::Global;

// Takes changes back that were read for the dialect.
#[derive(Clone, Copy)]
struct Generating {
    dialect: Dialect,
}

impl Inverts for Generating {
    ghost use Rattle.lq_any.specs.AnyChange.{inverse, is_for};

    type Thing = AnyChange;

    type Step = Statement;

    ghost knows = { λ by. is_for by.dialect };

    ghost inverse = { λ by. inverse by.dialect };

    fn invert(
        &self,
        alloc: Global,
        change: &AnyChange,
    ) -> Result<Option<Items<Statement>>, NoMemory> {
        let Undo::Generated(more) = change.undo(alloc, self.dialect)? else {
            return Ok(None);
        };
        Ok(Some(more))
    }
}

/// What is generated to take the changes back, the last change first. `None` where nothing is
/// generated for one of them.
fn generated(
    alloc: Global,
    dialect: Dialect,
    changes: &[AnyChange],
) -> Result<Option<Items<Statement>>, NoMemory>
    requires read { list_all (is_for dialect) changes.now ≡ true }
    ensures { IfOk result (λ made. made ≡ inverses dialect any_meaning changes.now) }
{
    let made = inverses(alloc, &Generating { dialect }, changes)?;
    Ok(made)
}

/// The statements that take back the changeset, which was read for the dialect (Liquibase's
/// documentation, "rollback"): those of its rollback block, or else what is generated for its
/// changes, the last change first. `None` where it has no rollback block, and nothing is generated
/// for one of its changes.
pub fn undoing(
    alloc: Global,
    dialect: Dialect,
    set: &ChangeSet,
) -> Result<Option<Items<Statement>>, NoMemory>
    requires read { is_read_for dialect set.now ≡ true }
    ensures { IfOk result
        (λ made. (options : Options)
        → made ≡ undoing dialect any_meaning (view options set.now)) }
{
    match &set.rollback {
        Some(block) => {
            let statements = statements_of(alloc, dialect, block.as_slice())?;
            Ok(Some(statements))
        }
        None => {
            let statements = generated(alloc, dialect, set.changes.as_slice())?;
            Ok(statements)
        }
    }
}
