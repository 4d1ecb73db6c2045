//! What holds of a rehearsal. The functions are empty: their contracts are the laws.

ghost use Rattle.laws_rehearsal.specs.Rehearsed.{RehearsalReturns};
ghost use Rattle.lq_turns.specs.Set.{meaning};

use lq_model::Change;

/// Where every turn of an update is a first one, none is refused, and what ran can be taken back, an
/// update, the rollback of the rows that came, and the update again leave what the update leaves; and
/// none of the three is refused or halts.
pub fn rehearsal_returns<C: Change>()
    ensures { RehearsalReturns (meaning C.is_for C.gives C.effect C.fresh C.inverse) }
{}
