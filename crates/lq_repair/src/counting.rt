ghost use Rattle.std.specs.Prelude.{◌≡◌};
ghost use Rattle.laws_repair.specs.Repair.{standing};

/// How many of a changeset's statements are still to be taken back, where the lock's mark has this
/// number: the mark of a statement stands before the statement runs, and that of a `back` before
/// the statement is taken back. So the last text tells: where it sets the mark, the statement that
/// the mark names did not run, or was not yet taken back.
#[tactic(auto, using(crate::proofs::LessOne::all, crate::proofs::LessOne::less))]
pub fn standing(is_back: bool, is_mark_last: bool, number: u64) -> u64
    ensures { result ≡ standing is_back is_mark_last number }
{
    if is_back == is_mark_last {
        number
    } else {
        number.saturating_sub(1)
    }
}
