ghost use Rattle.std.specs.Prelude.{◌≡◌, ◌++◌, ◌∷◌, [], IfOk, None, OnOk, false, map, reverse};
ghost use Rattle.lq_hand.specs.Way.{IsTurn};
ghost use Rattle.lq_hand.specs.Hand.{calls_left};
ghost use Rattle.lq_laying.specs.Laying.{Lays};
ghost use Rattle.lq_back.specs.Reversal.{AreDated, insert_call, mark_of, sync_calls};
ghost use Rattle.lq_turns.specs.Laws.{marked_by};
ghost use Rattle.lq_turns.specs.declared.call.Call.TheVariants.{Begin, Commit};

use crate::reversal::identity_of;
use lq_base::{Dialect, Did, Happened, Items, NoMemory, Tracked};
use lq_hand::{Hand, Phase};
use lq_turns::{Call, Deed, OnRows};
use std::alloc::Global;

/// The one turn of a changelog-sync, which inserts these rows in one transaction: all of them, or none
/// where one is refused. Each row counts as one statement, so the changeset of a row that is refused
/// stands in `marked` at the number of the rows that were accepted; it is refused as its changeset's
/// first statement, and nothing is kept.
pub fn sync_hand(alloc: Global, rows: Items<Tracked>) -> Result<Hand, NoMemory>
    requires dated { AreDated rows }
    ensures turn { IfOk result (λ hand. (d : Dialect) → IsTurn d hand) }
    ensures calls { IfOk result (λ hand. calls_left hand ≡ sync_calls rows) }
    ensures goes_on { IfOk result (λ hand. hand.goes_on ≡ false) }
{
    let calls = calls_of(alloc, rows)?;
    Ok(Hand {
        phase: Phase::Inside,
        calls,
        goes_on: false,
    })
}

/// The calls of the turn, the last first.
fn calls_of(alloc: Global, rows: Items<Tracked>) -> Result<Items<Call>, NoMemory>
    ensures { IfOk result (λ calls. reverse calls ≡ sync_calls rows) }
{
    let mut left = rows;
    let mut calls = Items::new(alloc);
    push_turn(&mut left, &mut calls)?;
    Ok(calls)
}

fn push_turn(rows: &mut Items<Tracked>, calls: &mut Items<Call>) -> Result<(), NoMemory>
    ensures { OnOk result (Lays (sync_calls rows.old) calls.old calls.new) }
{
    push(calls, Call::Commit)?;
    push_inserts(rows, calls)?;
    push(calls, Call::Begin)?;
    Ok(())
}

fn push_inserts(rows: &mut Items<Tracked>, calls: &mut Items<Call>) -> Result<(), NoMemory>
    ensures { OnOk result (Lays (map insert_call rows.old) calls.old calls.new) }
{
    while let Some(row) = rows.pop() {
        push(calls, Call::Execute(Deed::Rows(OnRows::Inserted(row))))?;
    }
    Ok(())
}

/// Lays down a call.
fn push(calls: &mut Items<Call>, call: Call) -> Result<(), NoMemory>
    ensures { OnOk result (Lays (call ∷ []) calls.old calls.new) }
{
    calls.push(call)?;
    Ok(())
}

/// What a changelog-sync that finishes tells: the changeset of each of these rows was marked.
pub fn marked(alloc: Global, rows: &[Tracked]) -> Result<Items<Happened>, NoMemory>
    ensures { IfOk result (λ happened. happened ≡ marked_by None rows.now) }
{
    let mut happened = Items::new(alloc);
    let mut rest = rows;
    while let Some((row, after)) = rest.split_first() {
        happened.push(marked_of(alloc, row)?)?;
        rest = after;
    }
    Ok(happened)
}

fn marked_of(alloc: Global, row: &Tracked) -> Result<Happened, NoMemory>
    ensures { IfOk result (λ happened. happened ≡ mark_of row.now) }
{
    Ok(Happened {
        what: Did::Marked,
        identity: identity_of(alloc, row)?,
    })
}
