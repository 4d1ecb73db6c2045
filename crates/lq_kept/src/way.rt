ghost use Rattle.std.specs.Prelude.{◌≡◌, Some, if◌then◌else◌, option_map};
ghost use Rattle.lq_turns.specs.Script.{is_mark_ran};
ghost use Rattle.lq_kept.specs.declared.way.TakenBack.TheVariants.{Alone, By};

use lq_base::{Exec, Tracked};

/// How a row is taken back.
#[derive(Clone, Copy, PartialEq, Eq)]
pub enum TakenBack {
    /// The row goes alone, since its changeset was marked and did not run.
    Alone,
    /// By the changeset at this place of the changelog, from 0.
    By(usize),
}

fn is_marked(row: &Tracked) -> bool
    ensures { result ≡ is_mark_ran row.now.exec }
{
    row.exec == Exec::MarkRan
}

/// How the row is taken back, where its changeset stands at this place and says what takes it back,
/// or at no place.
pub fn way_of(row: &Tracked, place: Option<usize>) -> Option<TakenBack>
    ensures { result ≡ (if is_mark_ran row.now.exec then Some Alone else option_map By place) }
{
    if is_marked(row) {
        return Some(TakenBack::Alone);
    }
    match place {
        Some(place) => Some(TakenBack::By(place)),
        None => None,
    }
}
