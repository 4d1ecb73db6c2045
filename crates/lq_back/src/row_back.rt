ghost use Rattle.std.specs.Prelude.{◌≡◌, IfOk, Some, reverse, true};
ghost use Rattle.lq_expr.specs.declared.options.Options.{Options};
ghost use Rattle.lq_kinds.specs.ReadFor.{AreFor, is_read_for};
ghost use Rattle.lq_track.specs.Log.{identity_of};
ghost use Rattle.lq_turns.specs.Script.{undo_by, undo_turn, undo_turns};
ghost use Rattle.lq_back.specs.Reversal.{AreWays, is_undoable, taken_back, turn_back};
ghost use Rattle.lq_seen.specs.View.{any_meaning, view, views};
ghost use Rattle.lq_kept.specs.declared.way.TakenBack.TheVariants.{By};

use crate::reversal::identity_of;
use lq_base::{Dialect, Items, NoMemory, Tracked};
use lq_kept::{TakenBack, UndoesRows, undo_all};
use lq_kinds::{ChangeSet, Changelog};
use lq_model::Statement;
use lq_seen::undoing;
use lq_turns::{OnRows, Turn};
use std::alloc::Global;

/// The turn that runs the statements and deletes the row.
fn turn_back(
    alloc: Global,
    row: &Tracked,
    statements: Items<Statement>,
    in_transaction: bool,
) -> Result<Turn, NoMemory>
    ensures { IfOk result (λ turn. turn ≡ turn_back row.now statements in_transaction) }
{
    let identity = identity_of(alloc, row)?;
    let deleted = identity_of(alloc, row)?;
    Ok(Turn {
        identity,
        statements,
        in_transaction,
        is_undo: true,
        row: OnRows::Deleted(deleted),
    })
}

/// The turn by which the changeset takes the row back.
fn turn_by(
    alloc: Global,
    dialect: Dialect,
    set: &ChangeSet,
    row: &Tracked,
) -> Result<Turn, NoMemory>
    requires read { is_read_for dialect set.now ≡ true }
    requires undoable { is_undoable set.now ≡ true }
    ensures { IfOk result (λ turn.
        (options : Options)
        → undo_by dialect any_meaning (identity_of row.now) (view options set.now)
        ≡ Some turn) }
{
    let made = undoing(alloc, dialect, set)?;
    let Some(statements) = made else {
        unreachable!()
    };
    let turn = turn_back(alloc, row, statements, set.in_transaction)?;
    Ok(turn)
}

/// The turn by which the changeset at this place takes the row back.
fn turn_at(
    alloc: Global,
    dialect: Dialect,
    changelog: &Changelog,
    row: &Tracked,
    place: usize,
) -> Result<Turn, NoMemory>
    requires read { AreFor dialect changelog.now }
    requires way { taken_back changelog.now.sets row.now ≡ Some (By place) }
    ensures { IfOk result (λ turn.
        (options : Options)
        → undo_turn dialect any_meaning (views options changelog.now.sets) row.now
        ≡ Some turn) }
{
    let Some(set) = changelog.sets.get(place) else {
        unreachable!()
    };
    let turn = turn_by(alloc, dialect, set, row)?;
    Ok(turn)
}

/// The turn that takes the row back in this way.
fn undo_turn(
    alloc: Global,
    dialect: Dialect,
    changelog: &Changelog,
    row: &Tracked,
    way: TakenBack,
) -> Result<Turn, NoMemory>
    requires read { AreFor dialect changelog.now }
    requires way { taken_back changelog.now.sets row.now ≡ Some way }
    ensures { IfOk result (λ turn.
        (options : Options)
        → undo_turn dialect any_meaning (views options changelog.now.sets) row.now
        ≡ Some turn) }
{
    match way {
        TakenBack::Alone => {
            let turn = turn_back(alloc, row, Items::new(alloc), true)?;
            Ok(turn)
        }
        TakenBack::By(place) => turn_at(alloc, dialect, changelog, row, place),
    }
}

/// What takes rows back by the changesets of a changelog that was read for the dialect.
#[derive(Drop)]
struct Changesets<'a> {
    dialect: Dialect,
    changelog: &'a Changelog,
    ghost read: { AreFor dialect changelog.now },
}

impl<'a> UndoesRows for Changesets<'a> {
    ghost use Rattle.lq_back.specs.Reversal.{IsTurn, IsWay};

    type Row = Tracked;

    type Way = TakenBack;

    type Turn = Turn;

    ghost is_way = { λ by. IsWay by.changelog.now.sets };

    ghost is_turn = { λ by. IsTurn by.dialect by.changelog.now.sets };

    fn undo(&self, alloc: Global, row: &Tracked, way: &TakenBack) -> Result<Turn, NoMemory> {
        undo_turn(alloc, self.dialect, self.changelog, row, *way)
    }
}

/// The turns that take these rows back, the next one last, so that the last row's turn is popped
/// first. The changelog was read for the dialect, and `ways` is what `reversible` gives for the rows.
pub fn undo_turns(
    alloc: Global,
    dialect: Dialect,
    changelog: &Changelog,
    rows: &[Tracked],
    ways: &[TakenBack],
) -> Result<Items<Turn>, NoMemory>
    requires read { AreFor dialect changelog.now }
    requires ways { AreWays changelog.now.sets rows.now ways.now }
    ensures { IfOk result (λ turns.
        (options : Options)
        → undo_turns dialect any_meaning (views options changelog.now.sets) (reverse rows.now)
        ≡ Some (reverse turns)) }
{
    let by = Changesets { dialect, changelog };
    let turns = undo_all(alloc, &by, rows, ways)?;
    Ok(turns)
}
