//! What holds of undo-unrecorded. The functions are empty: their contracts are the laws.

ghost use Rattle.laws_repair.specs.Repair.{LastTextTells, UpdateMends, PartsReturn, RepairLeaves, RepairResumes, UpdateRepairs};
ghost use Rattle.lq_turns.specs.Set.{meaning};

use lq_model::Change;

/// The first statements of fresh changes are taken back by what takes each of them back.
pub fn parts_return<C: Change>()
    ensures { PartsReturn (meaning C.is_for C.gives C.effect C.fresh C.inverse) }
{}

/// Where a part of a turn's statements stands, its repair leaves what stood before the turn, with a
/// free lock. Wherever the repair is stopped, that is left already or a part of them stands still.
pub fn repair_leaves()
    ensures { RepairLeaves }
{}

/// Wherever an update is stopped with the mark of a changeset that runs for the first time, whole
/// turns stand, and a part of that changeset's statements.
pub fn update_repairs<C: Change>()
    ensures { UpdateRepairs (meaning C.is_for C.gives C.effect C.fresh C.inverse) }
{}

/// A repair that was stopped any number of times leaves, once it is run to its end, what stood
/// before the turn.
pub fn repair_resumes()
    ensures { RepairResumes }
{}

/// An update in MySQL that was stopped any number of times, each time taken back or released, and
/// is then run to its end, leaves what it would have left.
pub fn update_mends<C: Change>()
    ensures { UpdateMends (meaning C.is_for C.gives C.effect C.fresh C.inverse) }
{}

/// The last text of a journal sets a mark exactly where its last deed does.
pub fn last_text_tells()
    ensures { LastTextTells }
{}
