//! What the steps do to linked nodes.
ghost use Rattle.std.specs.Prelude.{◌≡◌, ◌<◌, ◌^◌, length, IfErr, OnErr, IfOk};
ghost use Rattle.lq_links.specs.State.{Has, IsThereIf, state_of, Ties, pushed, unlinked, replaced_by, before, CanUndo, CanRelink};
ghost use Rattle.lq_links.specs.declared.node.Node.{Node};

use lq_links::{Done, Links, Refused, Spot};

/// Puts a row behind the last one, or hands it back.
pub fn push_back<T: Drop>(links: &mut Links<T>, row: T) -> Result<Spot, Refused<T>>
    requires ties { Ties links.old }
    requires tail { IsThereIf (state_of links.old).slots (state_of links.old).tail }
    ensures ties { Ties links.new }
    ensures state { IfOk result (λ s. state_of links.new ≡ pushed (state_of links.old) s row) }
    ensures id { IfOk result (λ s. s.id ≡ length (state_of links.old).slots) }
    ensures err { OnErr result (links.new ≡ links.old) }
    ensures value { IfErr result (λ refused. refused.value ≡ row) }
{
    if links.len == usize::MAX {
        return Err(Refused { value: row });
    }
    let last = links.tail;
    let spot = links.make(last, None, row)?;
    links.join(last, None, Some(spot), Some(spot));
    links.len += 1;
    Ok(spot)
}

/// Takes a node out of the list, and gives the one behind it.
pub fn unlink<T: Drop>(links: &mut Links<T>, at: Spot) -> Option<Spot>
    requires ties { Ties links.old }
    requires there { CanRelink (state_of links.old) at }
    requires some { 0 < (state_of links.old).len }
    ensures ties { Ties links.new }
    ensures state { state_of links.new ≡ unlinked (state_of links.old) at }
    ensures fits { (state_of links.old).len < 2 ^ 64 }
    ensures next { (n : Node T) → Has (state_of links.old).slots at n → result ≡ n.next }
{
    let node = links.arena.at(at.place, at.id);
    let prev = node.prev;
    let next = node.next;
    links.join(prev, next, next, prev);
    links.len -= 1;
    next
}

/// Puts a row in place of a node's, which is taken out of the list, or hands the row back.
pub fn replace<T: Drop>(links: &mut Links<T>, at: Spot, row: T) -> Result<Spot, Refused<T>>
    requires ties { Ties links.old }
    requires there { CanRelink (state_of links.old) at }
    ensures ties { Ties links.new }
    ensures state { IfOk result (λ by. state_of links.new
        ≡ replaced_by (state_of links.old) at by row) }
    ensures id { IfOk result (λ by. by.id ≡ length (state_of links.old).slots) }
    ensures err { OnErr result (links.new ≡ links.old) }
    ensures value { IfErr result (λ refused. refused.value ≡ row) }
{
    let node = links.arena.at(at.place, at.id);
    let prev = node.prev;
    let next = node.next;
    let by = links.make(prev, next, row)?;
    links.join(prev, next, Some(by), Some(by));
    Ok(by)
}

/// Gives the list before a step.
pub fn undo<T: Drop>(links: &mut Links<T>, step: Done)
    requires ties { Ties links.old }
    requires can { CanUndo step (state_of links.old) }
    ensures ties { Ties links.new }
    ensures state { state_of links.new ≡ before step (state_of links.old) }
{
    match step {
        Done::Begun => {}
        Done::Pushed { spot, last } => {
            links.rejoin(last, None, None, last);
            links.len -= 1;
            links.free_last(spot);
        }
        Done::Unlinked { spot } => {
            links.relink(spot);
            links.len += 1;
        }
        Done::Replaced { spot, by } => {
            links.relink(spot);
            links.free_last(by);
        }
    }
}
