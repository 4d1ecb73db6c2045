use lq_base::Dialect;
use lq_hand::{Entered, Source};
use lq_model::{Look, SqlText};
use lq_turns::Stamp;
use std::alloc::Global;

/// The turns to come of a command that has none but the one in hand.
#[derive(Clone, Copy)]
pub struct NoTurns;

impl Source for NoTurns {
    ghost use Rattle.lq_run.specs.Stands.{no_changes, nothing_told};
    ghost use Rattle.lq_turns.specs.Rest.{NoMore};

    ghost Key = { Unit {0} };

    ghost meaning = { no_changes };

    ghost left = { λ source. NoMore };

    ghost Told = { Unit {0} };

    ghost way = { λ source dialect stamp told. nothing_told };

    ghost reads = { λ source dialect. Unit {0} };

    fn enter<K: Look, P: SqlText>(
        &mut self,
        _alloc: Global,
        _dialect: Dialect,
        _stamp: &Stamp,
        _look: &K,
        _sql: &P,
    ) -> Entered {
        Entered::NoTurn
    }

    fn looks<K: Look>(&mut self, _dialect: Dialect, _look: &K) {}

    fn finished(&mut self) {}

    fn refused(&mut self) {}
}
