use crate::status::Status;
use lq_base::{Identity, Items, Text, Why};
use std::alloc::Global;

/// What a command did, as far as it came.
#[derive(Drop)]
pub struct Done {
    pub status: Status,
    /// Its text for the output.
    pub out: Option<Text>,
    /// Why the changelog's own precondition only warns.
    pub own: Option<Why>,
    /// Preconditions that did not hold, and that only warn, with their changesets.
    pub warned: Items<(Option<Identity>, Why)>,
}

impl Done {
    ghost use Rattle.std.specs.Prelude.{◌≡◌, [], None, Some};

    /// Its work is done, and this is its output. There are no warnings.
    pub fn with(alloc: Global, out: Text) -> Done
        ensures status { result.status ≡ Status.Done }
        ensures out { result.out ≡ Some out }
        ensures own { result.own ≡ None }
        ensures warned { result.warned ≡ [] }
    {
        Done {
            status: Status::Done,
            out: Some(out),
            own: None,
            warned: Items::new(alloc),
        }
    }
}
