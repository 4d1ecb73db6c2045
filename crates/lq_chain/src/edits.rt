//! What is done over the whole record of steps.
ghost use Rattle.std.specs.Prelude.{◌≡◌, ◌<◌, [], ◌∷◌, length, reverse};
ghost use Rattle.lq_links.specs.State.{rows, state_of, Ties, IsList, IsSound, AllUndo, spots, pasts};

use crate::moves::undo;
use lq_links::{Done, Links, next};

/// Undoes the last changing call.
pub fn undo_call<T: Drop>(links: &mut Links<T>, done: &mut Vec<Done>)
    requires ties { Ties links.old }
    requires sound { IsSound (state_of links.old) (reverse done.old.items) }
    requires undo { AllUndo (state_of links.old) (reverse done.old.items) }
    requires begun { 0 < length (pasts (state_of links.old) (reverse done.old.items)) }
    ensures ties { Ties links.new }
    ensures sound { IsSound (state_of links.new) (reverse done.new.items) }
    ensures undo { AllUndo (state_of links.new) (reverse done.new.items) }
    ensures past { rows (spots (state_of links.new))
        ∷ pasts (state_of links.new) (reverse done.new.items)
        ≡ pasts (state_of links.old) (reverse done.old.items) }
{
    while let Some(step) = done.pop() {
        if let Done::Begun = step {
            return;
        }
        undo(links, step);
    }
}

/// Frees the nodes that were taken out of the list, and forgets the steps.
pub fn free_gone<T: Drop>(links: &mut Links<T>, done: &mut Vec<Done>)
    requires ties { Ties links.old }
    requires sound { IsSound (state_of links.old) (reverse done.old.items) }
    ensures ties { Ties links.new }
    ensures list { IsList (state_of links.new) (spots (state_of links.old)) }
    ensures done { done.new.items ≡ [] }
{
    while let Some(step) = done.pop() {
        match step {
            Done::Begun | Done::Pushed { .. } => {}
            Done::Unlinked { spot } | Done::Replaced { spot, .. } => links.free(spot),
        }
    }
}

/// Frees the nodes of the list.
pub fn free_list<T: Drop>(links: &mut Links<T>)
    requires ties { Ties links.old }
    requires list { IsList (state_of links.old) (spots (state_of links.old)) }
{
    let mut cur = links.head;
    for _ in 0..links.len {
        let Some(spot) = cur else {
            return;
        };
        cur = next(&links.arena, spot);
        links.free(spot);
    }
}
