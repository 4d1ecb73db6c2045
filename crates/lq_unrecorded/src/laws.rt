//! What holds of the definitions. The function is empty: its contract is the law.

ghost use Rattle.lq_unrecorded.specs.Laws.{MarksAreParts};

/// A held lock with the mark of a statement that was run, or taken back without a row, is read as that
/// mark: who holds it, the changeset's printed identity, and the statement's number.
pub fn marks_are_parts()
    ensures { MarksAreParts }
{}
