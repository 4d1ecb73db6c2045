//! The nodes of a list, and where they lie.
use lq_nodes::{Arena, Place};
use std::alloc::Global;

/// Where a node lies, with its number.
#[derive(Clone, Copy)]
pub struct Spot {
    pub place: Place,
    pub id: usize,
}

/// A row between its neighbours. A node that is taken out of the list keeps them.
#[derive(Drop)]
pub struct Node<T> {
    pub prev: Option<Spot>,
    pub next: Option<Spot>,
    pub row: T,
}

/// A list of linked nodes, and the owner of these and of the nodes that were taken out of it.
#[derive(Drop)]
pub struct Links<T> {
    pub arena: Arena<Node<T>, Global>,
    pub head: Option<Spot>,
    pub tail: Option<Spot>,
    pub len: usize,
    /// The number of the next node.
    pub made: usize,
    pub alloc: Global,
}

/// A place in the list whose node is known.
#[derive(Clone, Copy)]
pub struct Finger {
    pub at: usize,
    pub spot: Spot,
}
