//! Steps from node to node.
ghost use Rattle.std.specs.Prelude.{◌≡◌, Option};
ghost use Rattle.lq_links.specs.State.{Has, IsThere, with_next, with_prev};
ghost use Rattle.lq_links.specs.declared.node.Node.{Node};

use crate::node::{Node, Spot};
use lq_nodes::Arena;
use std::alloc::Global;

pub fn next<T>(arena: &Arena<Node<T>, Global>, at: Spot) -> Option<Spot>
    requires { IsThere arena.now.slots at }
    ensures { (n : Node T) → Has arena.now.slots at n → result ≡ n.next }
{
    arena.at(at.place, at.id).next
}

pub fn prev<T>(arena: &Arena<Node<T>, Global>, at: Spot) -> Option<Spot>
    requires { IsThere arena.now.slots at }
    ensures { (n : Node T) → Has arena.now.slots at n → result ≡ n.prev }
{
    arena.at(at.place, at.id).prev
}

pub fn set_next<T>(arena: &mut Arena<Node<T>, Global>, at: Spot, to: Option<Spot>)
    requires { IsThere arena.old.slots at }
    ensures slots { arena.new.slots ≡ with_next arena.old.slots at to }
    ensures alloc { arena.new.alloc ≡ arena.old.alloc }
{
    arena.at_mut(at.place, at.id).next = to;
}

pub fn set_prev<T>(arena: &mut Arena<Node<T>, Global>, at: Spot, to: Option<Spot>)
    requires { IsThere arena.old.slots at }
    ensures slots { arena.new.slots ≡ with_prev arena.old.slots at to }
    ensures alloc { arena.new.alloc ≡ arena.old.alloc }
{
    arena.at_mut(at.place, at.id).prev = to;
}
