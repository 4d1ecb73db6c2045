ghost use Rattle.std.specs.Prelude.{◌≡◌, ◌≢◌, ◌++◌, ◌∷◌, [], IfOk, OnOk, false, true};
ghost use Rattle.lq_laying.specs.Laying.{Lays, LaysLast, LaysOne, begun_calls, marked_calls, turn_of};
ghost use Rattle.lq_turns.specs.Turn.{mark};
ghost use Rattle.lq_turns.specs.declared.call.Call.TheVariants as call;
ghost use Rattle.lq_turns.specs.declared.deed.Deed.TheVariants as deed;

use crate::marking::{Marking, mark_text};
use lq_base::{Dialect, Items, NoMemory};
use lq_model::Statement;
use lq_turns::{Call, Deed, OnLock, OnRows};
use std::alloc::Global;

/// Lays down the row, and the statements before it.
#[tactic(none)]
pub fn push_parts(
    alloc: Global,
    marking: &Marking<'_>,
    row: OnRows,
    statements: &mut Items<Statement>,
    calls: &mut Items<Call>,
) -> Result<(), NoMemory>
    ensures { OnOk result
        (Lays (begun_calls marking.now statements.old ++ call.Execute (deed.Rows row) ∷ [])
        calls.old calls.new) }
{
    push(calls, Call::Execute(Deed::Rows(row)))?;
    push_statements(alloc, marking, statements, calls)
}

/// Lays down the statements, and the beginning of the row's transaction.
#[tactic(none)]
fn push_statements(
    alloc: Global,
    marking: &Marking<'_>,
    statements: &mut Items<Statement>,
    calls: &mut Items<Call>,
) -> Result<(), NoMemory>
    ensures { OnOk result (Lays (begun_calls marking.now statements.old) calls.old calls.new) }
{
    if marking.in_transaction {
        push_all(alloc, marking, statements, calls)?;
        push(calls, Call::Begin)
    } else {
        push(calls, Call::Begin)?;
        push_all(alloc, marking, statements, calls)
    }
}

fn push_all(
    alloc: Global,
    marking: &Marking<'_>,
    statements: &mut Items<Statement>,
    calls: &mut Items<Call>,
) -> Result<(), NoMemory>
    ensures { OnOk result (Lays (marked_calls marking.now statements.old) calls.old calls.new) }
{
    while !statements.is_empty() {
        push_one(alloc, marking, statements, calls)?;
    }
    Ok(())
}

/// Lays down the last statement.
#[tactic(none)]
fn push_one(
    alloc: Global,
    marking: &Marking<'_>,
    statements: &mut Items<Statement>,
    calls: &mut Items<Call>,
) -> Result<(), NoMemory>
    requires some { statements.old ≢ [] }
    ensures { OnOk result (LaysOne marking.now statements.old calls.old statements.new calls.new) }
{
    if marking.in_transaction {
        push_within(alloc, marking, statements, calls)
    } else {
        push_apart(alloc, marking, statements, calls)
    }
}

/// After its mark, where it commits by itself.
#[tactic(none)]
fn push_within(
    alloc: Global,
    marking: &Marking<'_>,
    statements: &mut Items<Statement>,
    calls: &mut Items<Call>,
) -> Result<(), NoMemory>
    requires some { statements.old ≢ [] }
    requires whole { marking.now.in_transaction ≡ true }
    ensures { OnOk result (LaysOne marking.now statements.old calls.old statements.new calls.new) }
{
    let number = statements.len();
    let commits = push_last(marking.dialect, statements, calls)?;
    if commits {
        push_mark(alloc, marking, number, calls)
    } else {
        Ok(())
    }
}

/// After its mark, and in a transaction of its own.
#[tactic(none)]
fn push_apart(
    alloc: Global,
    marking: &Marking<'_>,
    statements: &mut Items<Statement>,
    calls: &mut Items<Call>,
) -> Result<(), NoMemory>
    requires some { statements.old ≢ [] }
    requires apart { marking.now.in_transaction ≡ false }
    ensures { OnOk result (LaysOne marking.now statements.old calls.old statements.new calls.new) }
{
    let number = statements.len();
    push(calls, Call::Commit)?;
    push_last(marking.dialect, statements, calls)?;
    push_mark(alloc, marking, number, calls)?;
    push(calls, Call::Begin)
}

/// Moves the last statement to the calls, and tells whether it commits by itself.
fn push_last(
    dialect: Dialect,
    statements: &mut Items<Statement>,
    calls: &mut Items<Call>,
) -> Result<bool, NoMemory>
    requires some { statements.old ≢ [] }
    ensures { IfOk result
        (λ commits. LaysLast dialect statements.old calls.old statements.new calls.new commits) }
{
    let Some(statement) = statements.pop() else {
        unreachable!();
    };
    let commits = statement.commits_itself(dialect);
    push(calls, Call::Execute(Deed::Users(statement)))?;
    Ok(commits)
}

fn push_mark(
    alloc: Global,
    marking: &Marking<'_>,
    number: usize,
    calls: &mut Items<Call>,
) -> Result<(), NoMemory>
    ensures { OnOk result
        (Lays (mark marking.now.who.now (turn_of marking.now) number ∷ []) calls.old calls.new) }
{
    let text = mark_text(alloc, marking, number)?;
    push(calls, Call::Execute(Deed::Locks(OnLock::Marked(text))))
}

/// Lays down a call.
pub fn push(calls: &mut Items<Call>, call: Call) -> Result<(), NoMemory>
    ensures { OnOk result (Lays (call ∷ []) calls.old calls.new) }
{
    calls.push(call)?;
    Ok(())
}
