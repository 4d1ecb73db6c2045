use crate::node::Spot;

/// A step of a changing call, with what is needed to undo it.
#[derive(Clone, Copy)]
pub enum Done {
    /// A changing call begins.
    Begun,
    /// The new node, and the one that was the last.
    Pushed { spot: Spot, last: Option<Spot> },
    /// The node that was taken out.
    Unlinked { spot: Spot },
    /// The node that was taken out, and the one in its place.
    Replaced { spot: Spot, by: Spot },
}
