use crate::deed::Deed;
use lq_base::Items;
use lq_model::Room;

/// A writing call of a command on the database.
pub enum Call {
    /// Begins, executes each deed and commits, and may fill so much of the journal.
    Alone(Items<Deed>, Room),
    Begin,
    Execute(Deed),
    Commit,
    Abort,
}

// Written out, so that each place that lets one go is one call.
impl Drop for Call {
    fn drop(self) {
        match self {
            Call::Alone(a, _) => drop(a),
            Call::Begin => (),
            Call::Execute(it) => drop(it),
            Call::Commit => (),
            Call::Abort => (),
        }
    }
}
