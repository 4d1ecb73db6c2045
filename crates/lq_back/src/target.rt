ghost use Rattle.std.specs.Prelude.{◌≡◌, IfOk, None, OnErr, Some, option_map, reverse};
ghost use Rattle.lq_turns.specs.Script.{rows_kept, rows_undone};

use lq_base::{Target, Tracked};
use lq_kept::{NoTag, suffix};

/// The rows that a rollback to the target takes back: those after the ones that stay. The rows are in
/// run order.
pub fn rows_to_undo<'a>(rows: &'a [Tracked], target: &Target) -> Result<&'a [Tracked], NoTag>
    ensures undone { IfOk result (λ left.
        option_map (λ stay. rows_undone stay rows.now) (rows_kept target.now rows.now)
        ≡ Some (reverse left.now)) }
    ensures missing { OnErr result (rows_kept target.now rows.now ≡ None) }
{
    let stay = suffix(rows, target)?;
    let (_, left) = rows.split_at(stay);
    Ok(left)
}
