//! The owner of the nodes, and a box as its pointer.
ghost use Rattle.std.specs.Prelude.{◌≡◌, List, [], Option};
ghost use Rattle.std_alloc.specs.Box.{box_allocator};
ghost use denote.RawPtr.{Ptr};
ghost use Rattle.std_alloc.specs.Box.Ownership.{box_owns};
ghost use Rattle.lq_nodes.specs.Ownership.{slots_own, slots_lent};

use std::alloc::Allocator;
use std::marker::{Model, PhantomData};

/// A box as its pointer. The handle that frees it is kept elsewhere.
pub struct Held<N, A: Allocator> {
    pub(crate) ptr: *mut Box<N, A>,
    pub ghost value: { N },
    pub ghost alloc: { A },
}

impl<N, A: Allocator> Model for Held<N, A> {
    ghost also_owns = { λ h. box_owns (A.dealloc_token h.alloc) N.row h.ptr h.value };
}

/// Where a node lies. It owns nothing.
#[derive(Clone, Copy)]
pub struct Place {
    pub(crate) ptr: *mut u8,
}

/// The owner of the nodes' memory. It takes no space. To drop it frees nothing: each node is taken out first.
#[derive(Drop)]
pub struct Arena<N, A: Allocator> {
    mark: PhantomData<*mut Box<N, A>>,
    pub ghost slots: { List (Ptr × Option N) },
    pub ghost alloc: { A },
}

impl<N, A: Allocator> Model for Arena<N, A> {
    ghost also_owns = { λ a. slots_own (A.dealloc_token a.alloc) N.row a.slots };

    ghost also_shares = { λ a _ κ. slots_lent N.row a.slots κ };
}

impl<N: Drop, A: Allocator> Held<N, A> {
    pub fn of(value: Box<N, A>) -> (Held<N, A>, A)
        ensures { (result.0.value ≡ value.value) × (result.0.alloc ≡ box_allocator value)
            × (result.1 ≡ box_allocator value) }
    {
        let (ptr, alloc) = Box::into_raw_with_allocator(value);
        (
            Held {
                ptr: ptr as *mut Box<N, A>,
            },
            alloc,
        )
    }

    pub fn into_box(self, alloc: A) -> Box<N, A>
        requires { self.alloc ≡ alloc }
        ensures { (result.value ≡ self.value) × (box_allocator result ≡ alloc) }
    {
        let Held { ptr } = self;
        unsafe { Box::from_raw(alloc, ptr as *mut N) }
    }
}

impl<N, A: Allocator> Arena<N, A> {
    pub fn new(alloc: &A) -> Arena<N, A>
        ensures { (result.slots ≡ []) × (result.alloc ≡ alloc.now) }
    {
        Arena { mark: PhantomData }
    }
}
