ghost use Rattle.std.specs.List.{list_all};
ghost use Rattle.std.specs.Prelude.{◌≡◌, ◌≤◌, IfOk, List, true};
ghost use Rattle.lq_base.specs.declared.tracking.Tracked.{Tracked as Row};
ghost use Rattle.lq_expr.specs.declared.options.Options.{Options};
ghost use Rattle.lq_any.specs.AnyChange.{is_for};
ghost use Rattle.lq_turns.specs.Set.{statements_of};
ghost use Rattle.lq_turns.specs.Settle.{exec_of, fill_turn, greatest, mark_turn, row_turn, run_turn};
ghost use Rattle.lq_seen.specs.View.{turn_of, any_meaning, view};

use crate::turn_row::recorded_row;
use lq_base::{Dialect, Duplicate, Exec, Items, NoMemory};
use lq_kinds::{AnyChange, ChangeSet};
use lq_model::{Change, Statement};
use lq_turns::{OnRows, Turn, What};
use std::alloc::Global;

/// The statements of the changes, which were read for the dialect, in order.
pub fn statements_of(
    alloc: Global,
    dialect: Dialect,
    changes: &[AnyChange],
) -> Result<Items<Statement>, NoMemory>
    requires read { list_all (is_for dialect) changes.now ≡ true }
    ensures { IfOk result (λ made. made ≡ statements_of dialect any_meaning changes.now) }
{
    let mut statements = Items::new(alloc);
    let mut rest = changes;
    while let Some((change, after)) = rest.split_first() {
        change.statements(alloc, dialect, &mut statements)?;
        rest = after;
    }
    Ok(statements)
}

/// The statements of the changeset's changes.
fn own_statements(
    alloc: Global,
    dialect: Dialect,
    set: &ChangeSet,
) -> Result<Items<Statement>, NoMemory>
    requires read { list_all (is_for dialect) set.now.changes ≡ true }
    ensures { IfOk result (λ made. made ≡ statements_of dialect any_meaning set.now.changes) }
{
    let statements = statements_of(alloc, dialect, set.changes.as_slice())?;
    Ok(statements)
}

fn exec_of(what: What) -> Exec
    ensures { result ≡ exec_of what }
{
    match what {
        What::New => Exec::Executed,
        What::Again | What::Fill => Exec::Reran,
    }
}

/// A turn of the changeset that runs these statements, and this for its row.
fn turn_of(
    alloc: Global,
    set: &ChangeSet,
    statements: Items<Statement>,
    in_transaction: bool,
    row: OnRows,
) -> Result<Turn, NoMemory>
    ensures { IfOk result (λ turn. turn ≡ turn_of set.now statements in_transaction row) }
{
    let identity = set.identity.duplicate(alloc)?;
    Ok(Turn {
        identity,
        statements,
        in_transaction,
        is_undo: false,
        row,
    })
}

/// The turn of a changeset that runs: its changes' statements, and then its row. The changes were
/// read for the dialect. The row is for a reading of the clock in milliseconds since 1970-01-01 UTC,
/// and goes behind the rows, of which the last one in run order stands at `last`, 0 without a row.
pub fn run_turn(
    alloc: Global,
    dialect: Dialect,
    set: &ChangeSet,
    what: What,
    reading: u64,
    last: u32,
) -> Result<Turn, NoMemory>
    requires read { list_all (is_for dialect) set.now.changes ≡ true }
    requires moment { reading ≤ 253402300799999 }
    requires room { last ≤ 2147483647 }
    ensures { IfOk result (λ turn.
        (options : Options) (rows : List Row)
        → greatest rows ≡ last
        → turn ≡ run_turn dialect any_meaning reading what (view options set.now) rows) }
{
    let row = recorded_row(alloc, set, what, exec_of(what), reading, last)?;
    let statements = own_statements(alloc, dialect, set)?;
    let turn = turn_of(alloc, set, statements, set.in_transaction, row)?;
    Ok(turn)
}

/// The turn of a changeset in which only its row changes.
fn row_turn(alloc: Global, set: &ChangeSet, row: OnRows) -> Result<Turn, NoMemory>
    ensures { IfOk result
        (λ turn. (options : Options) → turn ≡ row_turn (view options set.now) row) }
{
    let turn = turn_of(alloc, set, Items::new(alloc), true, row)?;
    Ok(turn)
}

/// The turn of a changeset that is marked as run: its row alone, for a reading of the clock in
/// milliseconds since 1970-01-01 UTC. It goes behind the rows, of which the last one in run order
/// stands at `last`, 0 without a row.
pub fn mark_turn(
    alloc: Global,
    set: &ChangeSet,
    what: What,
    reading: u64,
    last: u32,
) -> Result<Turn, NoMemory>
    requires moment { reading ≤ 253402300799999 }
    requires room { last ≤ 2147483647 }
    ensures { IfOk result (λ turn.
        (options : Options) (rows : List Row)
        → greatest rows ≡ last
        → turn ≡ mark_turn reading what (view options set.now) rows) }
{
    let row = recorded_row(alloc, set, what, Exec::MarkRan, reading, last)?;
    let turn = row_turn(alloc, set, row)?;
    Ok(turn)
}

/// The turn of a changeset whose row gets its checksum.
pub fn fill_turn(alloc: Global, set: &ChangeSet) -> Result<Turn, NoMemory>
    ensures { IfOk result (λ turn. (options : Options)
        → turn ≡ fill_turn (view options set.now)) }
{
    let identity = set.identity.duplicate(alloc)?;
    let sum = set.sum.copy(alloc)?;
    let turn = row_turn(alloc, set, OnRows::Filled(identity, sum))?;
    Ok(turn)
}
