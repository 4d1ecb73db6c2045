use lq_base::Dialect;
use lq_hand::{Entered, Source};
use lq_model::{Look, SqlText};
use lq_turns::Stamp;
use std::alloc::Global;

/// The turns of a source. At its end it also tells to what it yielded, so that a refusal which ends a
/// run is known to be one at which the source stops.
#[derive(Drop)]
pub struct Stopping<T: Source + Drop> {
    pub source: T,
}

impl<T: Source + Drop> Source for Stopping<T> {
    ghost use Rattle.lq_commands.specs.Scripts.{stopping_way};

    ghost Key = { T.Key };

    ghost meaning = { T.meaning };

    ghost left = { λ it. T.left it.source };

    ghost Told = { T.Told };

    ghost way = { λ it. stopping_way T.way it.source };

    ghost reads = { λ it dialect. T.reads it.source dialect };

    fn enter<K: Look, P: SqlText>(
        &mut self,
        alloc: Global,
        dialect: Dialect,
        stamp: &Stamp,
        look: &K,
        sql: &P,
    ) -> Entered {
        self.source.enter(alloc, dialect, stamp, look, sql)
    }

    fn looks<K: Look>(&mut self, dialect: Dialect, look: &K) {
        self.source.looks(dialect, look);
    }

    fn finished(&mut self) {
        self.source.finished();
    }

    fn refused(&mut self) {
        self.source.refused();
    }
}
