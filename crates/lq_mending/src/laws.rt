//! What holds of undo-unrecorded. The functions are empty: their contracts are the laws.

ghost use Rattle.lq_mending.specs.Laws.{CallsRepair, UndoLeaves};

/// Where the mark of a held lock names a changeset, the calls of undo-unrecorded are those of which
/// laws_repair says what they leave, and what any number of stops of them leaves.
pub fn calls_repair()
    ensures { CallsRepair }
{}

/// Where a part of a changeset stands without a row, undo-unrecorded leaves what stood before its turn,
/// with a free lock.
pub fn undo_leaves()
    ensures { UndoLeaves }
{}
