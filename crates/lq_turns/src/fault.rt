use lq_base::{Identity, Text};

/// Why a changelog does not go with the rows of a database.
#[derive(Drop)]
pub enum Fault {
    /// A changeset that is here has the identity of an earlier one.
    Twice(Identity),
    /// The row of a changeset has another checksum.
    Changed {
        identity: Identity,
        was: Text,
        is: Text,
    },
}
