ghost use Rattle.std.specs.List.{list_any};
ghost use Rattle.std.specs.Prelude.{◌≡◌, ◌++◌, ◌∷◌, [], IfOk, OnOk, reverse};
ghost use Rattle.lq_laying.specs.Laying.{Lays, calls_to_row, if_wanted};
ghost use Rattle.lq_turns.specs.Turn.{is_marked, turn_calls, unmark};
ghost use Rattle.lq_turns.specs.declared.call.Call.TheVariants as call;
ghost use Rattle.lq_turns.specs.declared.deed.Deed.TheVariants as deed;
ghost use Rattle.lq_turns.specs.declared.deed.OnLock.TheVariants as on_lock;

use lq_base::{Dialect, Items, NoMemory, Text};
use lq_laying::{Marking, push, push_parts};
use lq_model::Statement;
use lq_turns::{Call, Deed, OnLock, Turn};
use std::alloc::Global;

/// The calls of a turn, the last first: each statement, after its mark where it has one, and then
/// its row. They are in one transaction, or each statement is in one of its own.
pub fn turn_calls(
    alloc: Global,
    dialect: Dialect,
    who: &Text,
    turn: Turn,
) -> Result<Items<Call>, NoMemory>
    ensures { IfOk result (λ calls. reverse calls ≡ turn_calls dialect who.now turn) }
{
    let mut calls = Items::new(alloc);
    push_end(alloc, dialect, who, &turn, &mut calls)?;
    push_turn(alloc, dialect, who, turn, &mut calls)?;
    Ok(calls)
}

/// Lays down all but the turn's end.
#[tactic(none)]
fn push_turn(
    alloc: Global,
    dialect: Dialect,
    who: &Text,
    turn: Turn,
    calls: &mut Items<Call>,
) -> Result<(), NoMemory>
    ensures { OnOk result (Lays (calls_to_row dialect who.now turn) calls.old calls.new) }
{
    let Turn {
        identity,
        mut statements,
        in_transaction,
        is_undo,
        row,
    } = turn;
    let marking = Marking {
        dialect,
        who,
        identity: &identity,
        in_transaction,
        is_undo,
    };
    push_parts(alloc, &marking, row, &mut statements, calls)
}

/// The commit, and the mark's end before it where there is a mark.
#[tactic(none)]
fn push_end(
    alloc: Global,
    dialect: Dialect,
    who: &Text,
    turn: &Turn,
    calls: &mut Items<Call>,
) -> Result<(), NoMemory>
    ensures { OnOk result
        (Lays (unmark dialect who.now turn.now ++ call.Commit ∷ []) calls.old calls.new) }
{
    push(calls, Call::Commit)?;
    push_unmark(alloc, who, has_marks(dialect, turn), calls)
}

#[tactic(none)]
fn push_unmark(
    alloc: Global,
    who: &Text,
    has_marks: bool,
    calls: &mut Items<Call>,
) -> Result<(), NoMemory>
    ensures { OnOk result
        (Lays (if_wanted has_marks (call.Execute (deed.Locks (on_lock.Marked who.now)))) calls.old
        calls.new) }
{
    if has_marks {
        let name = who.copy(alloc)?;
        push(calls, Call::Execute(Deed::Locks(OnLock::Marked(name))))
    } else {
        Ok(())
    }
}

/// Whether a statement of the turn is marked.
fn has_marks(dialect: Dialect, turn: &Turn) -> bool
    ensures { result ≡ list_any (is_marked dialect turn.now) turn.now.statements }
{
    turn.statements
        .as_slice()
        .iter()
        .any(|statement| is_marked(dialect, turn, statement))
}

fn is_marked(dialect: Dialect, turn: &Turn, statement: &Statement) -> bool
    ensures { result ≡ is_marked dialect turn.now statement.now }
{
    !turn.in_transaction || statement.commits_itself(dialect)
}
