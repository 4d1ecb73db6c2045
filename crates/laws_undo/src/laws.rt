//! What holds of undo-unrecorded's own calls. The functions are call laws: their contracts are the
//! laws.

ghost use Rattle.laws_undo.specs.Undone.{PartsAreTakenBack, UndoMends};

use laws_any_partial::laws::parts_of_any;
use laws_repair::laws::{last_text_tells, update_mends};
use lq_kinds::AnyChange;
use lq_statement::laws::statements_read_back;

/// Where an update was stopped within the statements of a changeset that runs for the first time:
/// however often undo-unrecorded is stopped with the lock held, once it is run to its end it leaves what
/// stood before the changeset, with a free lock. No check and no statement refuses it.
pub fn parts_are_taken_back()
    ensures { PartsAreTakenBack }
{
    parts_of_any();
    last_text_tells();
    statements_read_back();
}

/// A steady update in MySQL that is stopped any number of times, each time followed by undo-unrecorded
/// where the lock is held with the mark of a part, and by release-locks where it has none, leaves once it
/// is run to its end what it would have left without a stop.
pub fn undo_mends()
    ensures { UndoMends }
{
    parts_of_any();
    update_mends::<AnyChange>();
    last_text_tells();
    statements_read_back();
}
