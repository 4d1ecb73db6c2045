use lq_base::Dialect;
use lq_hand::{Entered, Source};
use lq_model::{Look, SqlText};
use lq_turns::Stamp;
use std::alloc::Global;

/// The turns to come of a command that has none but the one in hand, whose refusal is told.
#[derive(Clone, Copy)]
pub struct OneTurn;

impl Source for OneTurn {
    ghost use Rattle.std.specs.Prelude.{Option};
    ghost use Rattle.lq_run.specs.Stands.{no_changes};
    ghost use Rattle.lq_commands.specs.Scripts.{one_way};
    ghost use Rattle.lq_turns.specs.Rest.{NoMore};
    ghost use Rattle.lq_turns.specs.declared.stop.Refusal.{Refusal};

    ghost Key = { Unit {0} };

    ghost meaning = { no_changes };

    ghost left = { λ source. NoMore };

    ghost Told = { Option Refusal };

    ghost way = { λ source dialect stamp told. one_way told };

    ghost reads = { λ source dialect. Unit {0} };

    fn enter<K: Look, P: SqlText>(
        &mut self,
        _alloc: Global,
        _dialect: Dialect,
        _stamp: &Stamp,
        _look: &K,
        _sql: &P,
    ) -> Entered {
        Entered::NoTurn
    }

    fn looks<K: Look>(&mut self, _dialect: Dialect, _look: &K) {}

    fn finished(&mut self) {}

    fn refused(&mut self) {}
}
