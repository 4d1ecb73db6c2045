ghost use Rattle.std.specs.Option.{option_copied};
ghost use Rattle.std.specs.Prelude.{◌≡◌, List};
ghost use Rattle.lq_base.specs.declared.tracking.Tracked.{Tracked as Row};
ghost use Rattle.lq_back.specs.Bound.{first_bound};
ghost use Rattle.lq_bound.specs.Turns.{bound_at, bound_in, is_bound};
ghost use Rattle.lq_expr.specs.declared.options.Options.{Options};
ghost use Rattle.lq_plan.specs.Told.{work};
ghost use Rattle.lq_seen.specs.View.{views};

use lq_back::is_undoable;
use lq_base::Identity;
use lq_kinds::ChangeSet;
use lq_plan::Item;
use lq_turns::What;

/// The first changeset whose turn is again, or whose turn is new while it has neither a rollback block
/// nor an inverse for each change. The turns are those that the changesets have.
pub fn first_bound<'a>(turns: &[Item], sets: &'a [ChangeSet]) -> Option<&'a Identity>
    ensures { (options : Options) (rows : List Row)
        → turns.now ≡ work (views options sets.now) rows
        → option_copied result ≡ first_bound options.dialect (views options sets.now) rows }
{
    match bound_in(turns, sets) {
        Some(set) => Some(&set.identity),
        None => None,
    }
}

fn bound_in<'a>(turns: &[Item], sets: &'a [ChangeSet]) -> Option<&'a ChangeSet>
    ensures { option_copied result ≡ bound_in sets.now turns.now }
{
    for item in turns {
        if let Some(set) = bound_at(item, sets) {
            return Some(set);
        }
    }
    None
}

fn bound_at<'a>(item: &Item, sets: &'a [ChangeSet]) -> Option<&'a ChangeSet>
    ensures { option_copied result ≡ bound_at sets.now item.now }
{
    match sets.get(item.index) {
        Some(set) => {
            if is_bound(set, item.what) {
                Some(set)
            } else {
                None
            }
        }
        None => None,
    }
}

fn is_bound(set: &ChangeSet, what: What) -> bool
    ensures { result ≡ is_bound set.now what }
{
    match what {
        What::New => !is_undoable(set),
        What::Again => true,
        What::Fill => false,
    }
}
