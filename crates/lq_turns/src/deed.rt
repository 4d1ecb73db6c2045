use lq_base::{Identity, Text, Tracked};
use lq_model::Statement;

/// What the program does to the table of rows.
pub enum OnRows {
    /// A new row, after all others.
    Inserted(Tracked),
    /// The row of a changeset that runs again, or is marked again, goes after all others.
    Renewed(Tracked),
    Deleted(Identity),
    /// The row gets this checksum.
    Filled(Identity, Text),
    /// The row gets this tag.
    Tagged(Identity, Text),
    /// Each row loses its checksum.
    Cleared,
}

// Written out, so that each place that lets one go is one call.
impl Drop for OnRows {
    fn drop(self) {
        match self {
            OnRows::Inserted(it) => drop(it),
            OnRows::Renewed(it) => drop(it),
            OnRows::Deleted(it) => drop(it),
            OnRows::Filled(a, b) => {
                drop(a);
                drop(b);
            }
            OnRows::Tagged(a, b) => {
                drop(a);
                drop(b);
            }
            OnRows::Cleared => (),
        }
    }
}

/// What the program does to the lock, and to make the tracking tables.
pub enum OnLock {
    LogMade,
    LockMade,
    LockRowMade,
    /// When, in milliseconds since 1970-01-01 UTC, and by whom.
    Taken(u64, Text),
    /// The mark that the lock has from then on, or the bare name of who holds it.
    Marked(Text),
    Freed,
}

// Written out, so that each place that lets one go is one call.
impl Drop for OnLock {
    fn drop(self) {
        match self {
            OnLock::LogMade => (),
            OnLock::LockMade => (),
            OnLock::LockRowMade => (),
            OnLock::Taken(_, b) => drop(b),
            OnLock::Marked(it) => drop(it),
            OnLock::Freed => (),
        }
    }
}

/// A statement of a command: a user's, or the program's own on the tracking tables.
pub enum Deed {
    Users(Statement),
    Rows(OnRows),
    Locks(OnLock),
}

// Written out, so that each place that lets one go is one call.
impl Drop for Deed {
    fn drop(self) {
        match self {
            Deed::Users(it) => drop(it),
            Deed::Rows(it) => drop(it),
            Deed::Locks(it) => drop(it),
        }
    }
}
