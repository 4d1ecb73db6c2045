//! Nodes made, freed, and joined to one another.
ghost use Rattle.std.specs.Prelude.{◌≡◌, length, IfErr, OnErr, IfOk};
ghost use Rattle.lq_nodes.specs.Slots.{without_node};
ghost use Rattle.lq_links.specs.State.{IsThere, IsThereIf, node, state_of, nothing, Ties, led_on, led_back, joined, rejoined, grown, popped, CanRelink, CanPop, relinked};

use crate::Refused;
use crate::node::{Links, Node, Spot};
use crate::steps::{set_next, set_prev};
use lq_nodes::{Arena, Held};
use std::alloc::Global;

impl<T: Drop> Links<T> {
    pub fn new(alloc: Global) -> Links<T>
        ensures ties { Ties result }
        ensures state { state_of result ≡ nothing }
    {
        Links {
            arena: Arena::new(&alloc),
            head: None,
            tail: None,
            len: 0,
            made: 0,
            alloc,
        }
    }

    /// The node before, or the head, leads on to another one.
    fn lead_on(&mut self, prev: Option<Spot>, to: Option<Spot>)
        requires ties { Ties self.old }
        requires there { IsThereIf (state_of self.old).slots prev }
        ensures ties { Ties self.new }
        ensures state { state_of self.new ≡ led_on (state_of self.old) prev to }
    {
        match prev {
            None => self.head = to,
            Some(at) => set_next(&mut self.arena, at, to),
        }
    }

    /// The node behind, or the tail, leads back to another one.
    fn lead_back(&mut self, next: Option<Spot>, to: Option<Spot>)
        requires ties { Ties self.old }
        requires there { IsThereIf (state_of self.old).slots next }
        ensures ties { Ties self.new }
        ensures state { state_of self.new ≡ led_back (state_of self.old) next to }
    {
        match next {
            None => self.tail = to,
            Some(at) => set_prev(&mut self.arena, at, to),
        }
    }

    /// Makes a node that is not linked yet, or hands the row back.
    pub fn make(
        &mut self,
        prev: Option<Spot>,
        next: Option<Spot>,
        row: T,
    ) -> Result<Spot, Refused<T>>
        requires ties { Ties self.old }
        ensures ties { Ties self.new }
        ensures state { IfOk result (λ s. state_of self.new
            ≡ grown (state_of self.old) s (node prev next row)) }
        ensures id { IfOk result (λ s. s.id ≡ length (state_of self.old).slots) }
        ensures err { OnErr result (self.new ≡ self.old) }
        ensures value { IfErr result (λ refused. refused.value ≡ row) }
    {
        if self.made == usize::MAX {
            return Err(Refused { value: row });
        }
        match Box::new(self.alloc, Node { prev, next, row }) {
            Err(refused) => {
                let Node {
                    prev: _,
                    next: _,
                    row,
                } = refused.value;
                Err(Refused { value: row })
            }
            Ok(node) => {
                let (held, _) = Held::of(node);
                let spot = Spot {
                    place: self.arena.put(held),
                    id: self.made,
                };
                self.made += 1;
                Ok(spot)
            }
        }
    }

    /// Frees a node.
    pub fn free(&mut self, at: Spot)
        requires ties { Ties self.old }
        requires there { IsThere (state_of self.old).slots at }
        ensures ties { Ties self.new }
        ensures state { state_of self.new
            ≡ record (state_of self.old)
            { slots = without_node (state_of self.old).slots at.id at.place.ptr } }
    {
        drop(self.arena.take(at.place, at.id).into_box(self.alloc));
    }

    /// Frees the node that was made last.
    pub fn free_last(&mut self, at: Spot)
        requires ties { Ties self.old }
        requires last { CanPop (state_of self.old) at }
        ensures ties { Ties self.new }
        ensures state { state_of self.new ≡ popped (state_of self.old) }
    {
        drop(self.arena.pop(at.place, at.id).into_box(self.alloc));
        self.made -= 1;
    }

    /// Both sides of a gap lead elsewhere.
    pub fn join(
        &mut self,
        prev: Option<Spot>,
        next: Option<Spot>,
        on: Option<Spot>,
        back: Option<Spot>,
    )
        requires ties { Ties self.old }
        requires prev { IsThereIf (state_of self.old).slots prev }
        requires next { IsThereIf (state_of self.old).slots next }
        ensures ties { Ties self.new }
        ensures state { state_of self.new ≡ joined (state_of self.old) prev next on back }
    {
        self.lead_on(prev, on);
        self.lead_back(next, back);
    }

    /// The same the other way round, which undoes it.
    pub fn rejoin(
        &mut self,
        prev: Option<Spot>,
        next: Option<Spot>,
        on: Option<Spot>,
        back: Option<Spot>,
    )
        requires ties { Ties self.old }
        requires prev { IsThereIf (state_of self.old).slots prev }
        requires next { IsThereIf (state_of self.old).slots next }
        ensures ties { Ties self.new }
        ensures state { state_of self.new ≡ rejoined (state_of self.old) prev next on back }
    {
        self.lead_back(next, back);
        self.lead_on(prev, on);
    }

    /// Puts a node that was taken out between its neighbours again.
    pub fn relink(&mut self, at: Spot)
        requires ties { Ties self.old }
        requires there { CanRelink (state_of self.old) at }
        ensures ties { Ties self.new }
        ensures state { state_of self.new ≡ relinked (state_of self.old) at }
    {
        let node = self.arena.at(at.place, at.id);
        let prev = node.prev;
        let next = node.next;
        self.rejoin(prev, next, Some(at), Some(at));
    }
}
