ghost use Rattle.std.specs.Prelude.{◌≡◌, ◌∷◌, [], IfOk, OnOk, Some, false, true};
ghost use Rattle.laws_repair.specs.Repair.{back_calls, marked_text};
ghost use Rattle.lq_hand.specs.Hand.{AreTurns, calls_left};
ghost use Rattle.lq_laying.specs.Laying.{Lays};
ghost use Rattle.lq_hand.specs.declared.hand.Phase.TheVariants.{Inside};
ghost use Rattle.lq_model.specs.Step.{is_statement};
ghost use Rattle.lq_reverse.specs.Back.{back};
ghost use Rattle.lq_turns.specs.declared.call.Call.TheVariants as call;
ghost use Rattle.lq_turns.specs.declared.deed.Deed.TheVariants as deed;
ghost use Rattle.lq_turns.specs.declared.deed.OnLock.TheVariants as on_lock;

use lq_base::{Dialect, Identity, Items, NoMemory, Text, append_whole};
use lq_hand::{Hand, Phase};
use lq_model::Statement;
use lq_reverse::back;
use lq_turns::{Call, Deed, OnLock};
use std::alloc::Global;

/// A changeset of which a part stands without a row.
#[derive(Clone, Copy)]
pub struct Unrecorded<'a> {
    pub dialect: Dialect,
    /// Who holds the lock, as the lock's mark has it.
    pub who: &'a Text,
    pub identity: &'a Identity,
}

/// The calls that take back a changeset's statement of this number, in a transaction with its mark;
/// none where nothing takes it back.
pub fn back_hand(
    alloc: Global,
    of: &Unrecorded<'_>,
    number: usize,
    statement: &Statement,
) -> Result<Hand, NoMemory>
    requires statement { is_statement of.now.dialect statement.now ≡ true }
    ensures inside { IfOk result (λ hand. hand.phase ≡ Inside) }
    ensures calls { IfOk result (λ hand. calls_left hand
        ≡ back_calls of.now.who.now of.now.identity.now number
        (back of.now.dialect statement.now)) }
    ensures turns { IfOk result (λ hand. AreTurns of.now.dialect false (calls_left hand)) }
{
    let mut calls = Items::new(alloc);
    push_back(alloc, of, number, statement, &mut calls)?;
    Ok(Hand {
        phase: Phase::Inside,
        calls,
        goes_on: false,
    })
}

// What takes the statement back, where something does.
#[tactic(none)]
fn push_back(
    alloc: Global,
    of: &Unrecorded<'_>,
    number: usize,
    statement: &Statement,
    calls: &mut Items<Call>,
) -> Result<(), NoMemory>
    ensures { OnOk result
        (Lays
        (back_calls of.now.who.now of.now.identity.now number
        (back of.now.dialect statement.now)) calls.old calls.new) }
{
    let undoing = back(alloc, of.dialect, statement)?;
    push_undoing(alloc, of, number, undoing, calls)
}

fn push_undoing(
    alloc: Global,
    of: &Unrecorded<'_>,
    number: usize,
    undoing: Option<Statement>,
    calls: &mut Items<Call>,
) -> Result<(), NoMemory>
    ensures { OnOk result
        (Lays (back_calls of.now.who.now of.now.identity.now number undoing) calls.old calls.new) }
{
    match undoing {
        Some(undoing) => push_transaction(alloc, of, number, undoing, calls),
        None => Ok(()),
    }
}

// In a transaction with its mark.
#[tactic(none)]
fn push_transaction(
    alloc: Global,
    of: &Unrecorded<'_>,
    number: usize,
    undoing: Statement,
    calls: &mut Items<Call>,
) -> Result<(), NoMemory>
    ensures { OnOk result
        (Lays (back_calls of.now.who.now of.now.identity.now number (Some undoing)) calls.old
        calls.new) }
{
    push(calls, Call::Commit)?;
    push(calls, Call::Execute(Deed::Users(undoing)))?;
    push_mark(alloc, of, number, calls)?;
    push(calls, Call::Begin)
}

#[tactic(none)]
fn push_mark(
    alloc: Global,
    of: &Unrecorded<'_>,
    number: usize,
    calls: &mut Items<Call>,
) -> Result<(), NoMemory>
    ensures { OnOk result
        (Lays
        (call.Execute
        (deed.Locks
        (on_lock.Marked
        (marked_text true of.now.who.now of.now.identity.now number)))
        ∷ []) calls.old calls.new) }
{
    let text = back_mark(alloc, of, number)?;
    push(calls, Call::Execute(Deed::Locks(OnLock::Marked(text))))
}

// `WHO|IDENTITY|back NUMBER`.
fn back_mark(alloc: Global, of: &Unrecorded<'_>, number: usize) -> Result<Text, NoMemory>
    ensures { IfOk result
        (λ text. text ≡ marked_text true of.now.who.now of.now.identity.now number) }
{
    let mut text = of.who.copy(alloc)?;
    text.push_str("|")?;
    of.identity.append_to(&mut text)?;
    text.push_str("|")?;
    text.push_str("back ")?;
    append_whole(number as i128, &mut text)?;
    Ok(text)
}

// Lays down a call.
fn push(calls: &mut Items<Call>, call: Call) -> Result<(), NoMemory>
    ensures { OnOk result (Lays (call ∷ []) calls.old calls.new) }
{
    calls.push(call)?;
    Ok(())
}
