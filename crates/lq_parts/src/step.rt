use lq_base::Name;
use lq_rows::{Held, Shape};

/// A change of the tables, with what is needed to undo it. Places are those after the change.
#[derive(Drop)]
pub enum Step {
    /// A table came to the place.
    Put { at: usize },
    /// The table stood at the place.
    Taken { at: usize, name: Name, held: Held },
    /// The table at the place stood at another, `from`, under this name.
    Renamed { at: usize, from: usize, name: Name },
    /// The table at the place had this shape.
    Shaped { at: usize, shape: Shape },
    /// The rows of the table at the place changed; its mark and next number before.
    Rows { at: usize, mark: u64, next: u64 },
}
