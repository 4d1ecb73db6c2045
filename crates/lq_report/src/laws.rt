//! What holds of the definitions that the contracts cite. Each function is empty: its contract is
//! the law.

ghost use Rattle.lq_report.specs.Laws.{MarksAreRead, NoMarkWithoutBars};

/// A mark is read as what was written: the identity, whether its statement takes something back, and
/// the statement's number.
pub fn marks_are_read()
    ensures { MarksAreRead }
{}

/// What has no `|` behind its first one has no mark.
pub fn no_mark_without_bars()
    ensures { NoMarkWithoutBars }
{}
