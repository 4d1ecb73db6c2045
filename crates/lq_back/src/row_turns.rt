ghost use Rattle.std.specs.List.{list_all};
ghost use Rattle.std.specs.Prelude.{◌≡◌, ◌++◌, ◌∷◌, [], IfOk, List, OnOk, Some, if◌then◌else◌, reverse, true};
ghost use Rattle.lq_base.specs.declared.run.Happened.{Happened as Event};
ghost use Rattle.lq_base.specs.declared.run.Printed.{Printed as Shown};
ghost use Rattle.lq_expr.specs.declared.options.Options.{Options};
ghost use Rattle.lq_kinds.specs.ReadFor.{AreFor};
ghost use Rattle.lq_model.specs.Step.{is_statement};
ghost use Rattle.lq_turns.specs.Deed.{Contents};
ghost use Rattle.lq_turns.specs.Script.{undo_turns};
ghost use Rattle.lq_back.specs.Reversal.{AreWays, LeadsBack, goes_back, printed, rolled_back};
ghost use Rattle.lq_seen.specs.Telling.{of_turns};
ghost use Rattle.lq_seen.specs.View.{any_meaning, views};

use crate::row_back::undo_turns;
use lq_base::{Dialect, Did, Duplicate, Happened, Items, NoMemory, Printed, Tracked};
use lq_hand::{Entered, Hand, Source};
use lq_kept::TakenBack;
use lq_kinds::Changelog;
use lq_model::{Look, SqlText};
use lq_seen::{Outcome, print};
use lq_turns::{Stamp, Turn};
use std::alloc::Global;

/// The turns of a rollback, row after row from the last on (Liquibase's documentation, "rollback").
/// Where memory ran out the outcome may tell one row more than was taken back.
#[derive(Drop)]
pub struct RowTurns {
    /// The next one last.
    turns: Items<Turn>,
    /// Whether the statements' texts are wanted.
    prints: bool,
    pub outcome: Outcome,
}

impl RowTurns {
    /// The turns that take these rows back, of which the last row goes first. The changelog was read
    /// for the dialect, and `ways` is what `reversible` gives for the rows.
    pub fn new(
        alloc: Global,
        dialect: Dialect,
        changelog: &Changelog,
        ways: &[TakenBack],
        rows: &[Tracked],
        prints: bool,
    ) -> Result<RowTurns, NoMemory>
        requires read { AreFor dialect changelog.now }
        requires ways { AreWays changelog.now.sets rows.now ways.now }
        ensures turns { IfOk result (λ source.
            (options : Options)
            → undo_turns dialect any_meaning (views options changelog.now.sets) (reverse rows.now)
            ≡ Some (reverse source.turns)) }
        ensures reads { IfOk result
            (λ source. list_all (goes_back dialect) (reverse source.turns) ≡ true) }
        ensures knows { IfOk result (λ source.
            (c : Contents)
            → LeadsBack source dialect (of_turns prints dialect (reverse source.turns) c) c) }
    {
        let turns = undo_turns(alloc, dialect, changelog, rows, ways)?;
        let outcome = Outcome::new(alloc);
        Ok(RowTurns {
            turns,
            prints,
            outcome,
        })
    }
}

impl Source for RowTurns {
    ghost use Rattle.std.specs.List.{list_all};
    ghost use Rattle.std.specs.Prelude.{◌≡◌, reverse, true};
    ghost use Rattle.lq_any.specs.declared.any_change.AnyChange.{AnyChange};
    ghost use Rattle.lq_back.specs.Reversal.{goes_back, row_way};
    ghost use Rattle.lq_seen.specs.Telling.{Account};
    ghost use Rattle.lq_seen.specs.View.{any_meaning};
    ghost use Rattle.lq_turns.specs.Rest.{OfRows};

    ghost Key = { AnyChange };

    ghost meaning = { any_meaning };

    ghost left = { λ source. OfRows (reverse source.turns) };

    ghost Told = { Account };

    ghost way = { row_way };

    ghost reads = { λ source dialect. list_all (goes_back dialect) (reverse source.turns) ≡ true };

    fn enter<K: Look, P: SqlText>(
        &mut self,
        alloc: Global,
        dialect: Dialect,
        stamp: &Stamp,
        _look: &K,
        sql: &P,
    ) -> Entered {
        let Some(turn) = self.turns.pop() else {
            return Entered::NoTurn;
        };
        let Ok(()) = tell(alloc, sql, &turn, self.prints, &mut self.outcome) else {
            return Entered::Lack;
        };
        match Hand::of_turn(alloc, dialect, &stamp.who, turn, false) {
            Ok(hand) => Entered::Turn(hand),
            Err(_) => Entered::Lack,
        }
    }

    fn looks<K: Look>(&mut self, _dialect: Dialect, _look: &K) {}

    fn finished(&mut self) {}

    fn refused(&mut self) {
        take_back(self.prints, &mut self.outcome);
    }
}

/// Writes down what is done where the turn finishes.
fn tell<P: SqlText>(
    alloc: Global,
    sql: &P,
    turn: &Turn,
    prints: bool,
    outcome: &mut Outcome,
) -> Result<(), NoMemory>
    requires spelled { list_all (is_statement P.dialect) turn.now.statements ≡ true }
    ensures happened { OnOk result
        (outcome.new.happened ≡ outcome.old.happened ++ rolled_back turn.now ∷ []) }
    ensures printed { OnOk result
        (outcome.new.printed
        ≡ outcome.old.printed ++ (if prints then printed P.dialect turn.now ∷ [] else [])) }
    ensures not_fresh { OnOk result (outcome.new.not_fresh ≡ outcome.old.not_fresh) }
    ensures warned { outcome.new.warned ≡ outcome.old.warned }
    ensures others { OnOk result
        ((outcome.new.halted ≡ outcome.old.halted)
        × (outcome.new.stopped_at ≡ outcome.old.stopped_at)) }
{
    if prints {
        print_turn(alloc, sql, turn, &mut outcome.printed)?;
    }
    outcome.happened.push(rolled_back(alloc, turn)?)?;
    Ok(())
}

fn rolled_back(alloc: Global, turn: &Turn) -> Result<Happened, NoMemory>
    ensures { IfOk result (λ happened. happened ≡ rolled_back turn.now) }
{
    Ok(Happened {
        what: Did::RolledBack,
        identity: turn.identity.duplicate(alloc)?,
    })
}

fn print_turn<P: SqlText>(
    alloc: Global,
    sql: &P,
    turn: &Turn,
    to: &mut Items<Printed>,
) -> Result<(), NoMemory>
    requires spelled { list_all (is_statement P.dialect) turn.now.statements ≡ true }
    ensures { OnOk result (to.new ≡ to.old ++ printed P.dialect turn.now ∷ []) }
{
    print(alloc, sql, &turn.identity, turn.statements.as_slice(), to)?;
    Ok(())
}

/// The turn that was told last stops the command, and is not done.
fn take_back(prints: bool, outcome: &mut Outcome)
    ensures told { (before : List Event) (last : Event)
        → outcome.old.happened ≡ before ++ last ∷ []
        → (outcome.new.happened ≡ before) × (outcome.new.stopped_at ≡ Some last.identity) }
    ensures printed { (before : List Shown) (last : Shown)
        → outcome.old.printed ≡ before ++ (if prints then last ∷ [] else [])
        → outcome.new.printed ≡ before }
    ensures not_fresh { outcome.new.not_fresh ≡ outcome.old.not_fresh }
    ensures others { (outcome.new.warned ≡ outcome.old.warned)
        × (outcome.new.halted ≡ outcome.old.halted) }
{
    forget_texts(prints, &mut outcome.printed);
    if let Some(happened) = outcome.happened.pop() {
        outcome.stopped_at = Some(happened.identity);
    }
}

/// The texts that were kept last were those of a turn that is not done.
fn forget_texts(prints: bool, texts: &mut Items<Printed>)
    ensures { (before : List Shown) (last : Shown)
        → texts.old ≡ before ++ (if prints then last ∷ [] else [])
        → texts.new ≡ before }
{
    if prints {
        texts.pop();
    }
}
