//! The functions that make or follow a pointer.
ghost use Rattle.std.specs.Prelude.{◌≡◌, ℕ, ◌+◌, length, take, List, [], ◌∷◌, ◌++◌, Option, Some, None};
ghost use Rattle.std.specs.Borrow.{sem};
ghost use Rattle.std_alloc.specs.Box.{box_allocator};
ghost use Rattle.lq_nodes.specs.Slots.{IsAt, with_node, without_node, lends_node};

use crate::arena::{Arena, Held, Place};
use std::alloc::Allocator;

impl<N, A: Allocator> Arena<N, A> {
    pub fn put(&mut self, node: Held<N, A>) -> Place
        requires { node.alloc ≡ self.old.alloc }
        ensures { (self.new.slots ≡ self.old.slots ++ (result.ptr, Some node.value) ∷ [])
            × (self.new.alloc ≡ self.old.alloc) }
    {
        let Held { ptr } = node;
        Place {
            ptr: ptr as *mut u8,
        }
    }

    pub fn at(&self, at: Place, id: usize) -> &N
        requires { (x : N) × IsAt self.now.slots id at.ptr x }
        ensures { (x : N) → IsAt self.now.slots id at.ptr x → result.now ≡ x }
    {
        unsafe { &*(at.ptr as *mut N) }
    }

    pub fn at_mut(&mut self, at: Place, id: usize) -> &mut N
        requires { (x : N) × IsAt self.old.slots id at.ptr x }
        ensures* writes_back { sem 𝓛 (lends_node N.row A.row A.Allocator self.entry id at.ptr
            result) }
        ensures value { (x : N) → IsAt self.old.slots id at.ptr x → result.now ≡ x }
    {
        unsafe { &mut *(at.ptr as *mut N) }
    }

    pub fn take(&mut self, at: Place, id: usize) -> Held<N, A>
        requires { (x : N) × IsAt self.old.slots id at.ptr x }
        ensures { ((x : N) → IsAt self.old.slots id at.ptr x → result.value ≡ x)
            × (result.alloc ≡ self.old.alloc)
            × (self.new.slots ≡ without_node self.old.slots id at.ptr)
            × (self.new.alloc ≡ self.old.alloc) }
    {
        Held {
            ptr: at.ptr as *mut Box<N, A>,
        }
    }

    /// Takes out the node of the last slot, and the slot with it.
    pub fn pop(&mut self, at: Place, id: usize) -> Held<N, A>
        requires { ((x : N) × IsAt self.old.slots id at.ptr x)
            × (id + 1 ≡ length self.old.slots) }
        ensures { ((x : N) → IsAt self.old.slots id at.ptr x → result.value ≡ x)
            × (result.alloc ≡ self.old.alloc) × (self.new.slots ≡ take id self.old.slots)
            × (self.new.alloc ≡ self.old.alloc) }
    {
        Held {
            ptr: at.ptr as *mut Box<N, A>,
        }
    }
}
