ghost use Rattle.std.specs.Prelude.{◌≡◌};
ghost use Rattle.lq_tree.specs.declared.node.TreeFault.TheVariants.{OutOfMemory};

use lq_base::{Items, NoMemory, Text};
use std::alloc::{AllocError, AllocFailed};
use thiserror::Error;

/// What a file holds, whatever it is written in. The maps of a tree that was read have each key once,
/// in the order of the keys' bytes (`IsTree`).
pub enum Node {
    Text(Text),
    Whole(i128),
    Truth(bool),
    Null,
    List(Items<Node>),
    Map(Items<(Text, Node)>),
}

// Written out, so that each place that lets one go is one call.
impl Drop for Node {
    fn drop(self) {
        match self {
            Node::Text(it) => drop(it),
            Node::Whole(_) => (),
            Node::Truth(_) => (),
            Node::Null => (),
            Node::List(it) => drop(it),
            Node::Map(it) => drop(it),
        }
    }
}

/// Why bytes are no tree.
#[derive(Clone, Copy, Debug, PartialEq, Eq, Error)]
pub enum TreeFault {
    /// No UTF-8, no JSON, deeper than 127 levels, or with a number too large for a float.
    #[error("not JSON")]
    NotJson,
    /// A number that neither an i64 nor a u64 holds.
    #[error("float number")]
    FloatNumber,
    #[error("out of memory")]
    OutOfMemory,
}

impl From<NoMemory> for TreeFault {
    ghost from_gives = { λ _ e. e ≡ OutOfMemory };

    fn from(_: NoMemory) -> TreeFault {
        TreeFault::OutOfMemory
    }
}

impl From<AllocError> for TreeFault {
    ghost from_gives = { λ _ e. e ≡ OutOfMemory };

    fn from(_: AllocError) -> TreeFault {
        TreeFault::OutOfMemory
    }
}

impl<T: Drop> From<AllocFailed<T>> for TreeFault {
    ghost from_gives = { λ _ e. e ≡ OutOfMemory };

    fn from(_: AllocFailed<T>) -> TreeFault {
        TreeFault::OutOfMemory
    }
}
