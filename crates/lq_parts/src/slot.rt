use lq_base::Name;

/// A change of a list of entries, with what is needed to undo it. Places are those after the change.
#[derive(Drop)]
pub enum Slot<T> {
    /// An entry came to the place.
    Put { at: usize },
    /// The entry stood at the place.
    Taken { at: usize, name: Name, item: T },
}
