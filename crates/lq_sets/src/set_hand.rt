ghost use Rattle.std.specs.List.{list_all};
ghost use Rattle.std.specs.Prelude.{◌≡◌, ◌≤◌, ◌++◌, ◌&&◌, ◌∷◌, [], IfOk, List, OnOk, Some, if◌then◌else◌, not, true};
ghost use Rattle.lq_base.specs.declared.tracking.Tracked.{Tracked as Row};
ghost use Rattle.lq_expr.specs.declared.options.Options.{Options};
ghost use Rattle.lq_hand.specs.Hand.{IsWritable};
ghost use Rattle.lq_any.specs.AnyChange.{is_for};
ghost use Rattle.lq_model.specs.Step.{is_statement};
ghost use Rattle.lq_seen.specs.Telling.{with_texts};
ghost use Rattle.lq_sets.specs.Counting.{runs};
ghost use Rattle.lq_sets.specs.SetTurns.{IsInHand, has_turn, last_after, texts_by};
ghost use Rattle.lq_seen.specs.View.{any_meaning, view};
ghost use Rattle.lq_turns.specs.Script.{turn_by};
ghost use Rattle.lq_turns.specs.Settle.{greatest};
ghost use Rattle.lq_turns.specs.declared.deed.Deed.TheVariants.{Rows};

use crate::in_hand::runs;
use lq_base::{Dialect, Identity, Items, NoMemory, Printed};
use lq_hand::Hand;
use lq_kinds::ChangeSet;
use lq_model::{SqlText, Statement};
use lq_seen::{fill_turn, mark_turn, print, run_turn};
use lq_turns::{Choice, Stamp, Turn};
use std::alloc::Global;

/// For what a turn is made.
#[derive(Clone, Copy)]
pub struct Making<'a> {
    pub dialect: Dialect,
    pub stamp: &'a Stamp,
    /// The last place in run order, 0 without a row.
    pub last: u32,
    /// Whether the statements' texts are wanted.
    pub prints: bool,
}

/// The turn of a changeset by its choice, in hand. Where it runs and that is wanted, its statements'
/// texts are kept. The changes were read for the dialect.
pub fn hand_for<P: SqlText>(
    alloc: Global,
    making: &Making<'_>,
    sql: &P,
    set: &ChangeSet,
    choice: Choice,
    texts: &mut Items<Printed>,
) -> Result<Hand, NoMemory>
    requires sql { P.dialect ≡ making.now.dialect }
    requires read { list_all (is_for making.now.dialect) set.now.changes ≡ true }
    requires moment { making.now.stamp.now.reading ≤ 253402300799999 }
    requires room { making.now.last ≤ 2147483647 }
    requires turn { has_turn choice ≡ true }
    ensures hand { IfOk result (λ hand.
        IsInHand making.now.dialect making.now.stamp.now set.now making.now.last choice hand) }
    ensures texts { OnOk result
        (texts.new ≡ texts.old ++ texts_by making.now.prints making.now.dialect set.now choice) }
{
    let turn = turn_for(alloc, making, set, choice)?;
    keep_texts(
        alloc,
        sql,
        &set.identity,
        turn.statements.as_slice(),
        keeps(making.prints, choice),
        texts,
    )?;
    let goes_on = !set.fail_on_error;
    let hand = Hand::of_turn(alloc, making.dialect, &making.stamp.who, turn, goes_on)?;
    Ok(hand)
}

fn keep_texts<P: SqlText>(
    alloc: Global,
    sql: &P,
    identity: &Identity,
    statements: &[Statement],
    prints: bool,
    texts: &mut Items<Printed>,
) -> Result<(), NoMemory>
    requires { list_all (is_statement P.dialect) statements.now ≡ true }
    ensures { OnOk result
        (texts.new
        ≡ texts.old
        ++
        (if prints then with_texts P.dialect (identity.now, statements.now)
        ∷ [] else [])) }
{
    if prints {
        print(alloc, sql, identity, statements, texts)?;
    }
    Ok(())
}

/// Whether the texts of a turn by this choice are kept, where they are wanted.
pub fn keeps(prints: bool, choice: Choice) -> bool
    ensures { result ≡ (prints && runs choice) }
{
    prints && runs(choice)
}

/// The turn of a changeset whose choice has one.
fn turn_for(
    alloc: Global,
    making: &Making<'_>,
    set: &ChangeSet,
    choice: Choice,
) -> Result<Turn, NoMemory>
    requires read { list_all (is_for making.now.dialect) set.now.changes ≡ true }
    requires moment { making.now.stamp.now.reading ≤ 253402300799999 }
    requires room { making.now.last ≤ 2147483647 }
    requires turn { has_turn choice ≡ true }
    ensures made { IfOk result (λ turn.
        (options : Options) (rows : List Row)
        → greatest rows ≡ making.now.last
        → turn_by making.now.dialect any_meaning making.now.stamp.now (view options set.now) rows
        choice
        ≡ Some turn) }
{
    let reading = making.stamp.reading;
    match choice {
        Choice::Fills => {
            let turn = fill_turn(alloc, set)?;
            Ok(turn)
        }
        Choice::Marks(what) => {
            let turn = mark_turn(alloc, set, what, reading, making.last)?;
            Ok(turn)
        }
        Choice::Runs(what, _) => {
            let turn = run_turn(alloc, making.dialect, set, what, reading, making.last)?;
            Ok(turn)
        }
        Choice::Passes => unreachable!(),
        Choice::Skips => unreachable!(),
        Choice::Halts(_) => unreachable!(),
    }
}

/// The last place in run order once the turn has finished.
pub fn last_after(choice: Choice, last: u32) -> u32
    requires { last ≤ 2147483647 }
    ensures { result ≡ last_after choice last }
{
    match choice {
        Choice::Marks(_) => last + 1,
        Choice::Runs(_, _) => last + 1,
        _ => last,
    }
}
