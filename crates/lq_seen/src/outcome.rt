ghost use Rattle.std.specs.Prelude.{◌≡◌, [], None};

use lq_base::{Happened, Identity, Items, Printed, Why};
use std::alloc::Global;

/// What a command did, as far as it came.
#[derive(Drop)]
pub struct Outcome {
    pub happened: Items<Happened>,
    /// How many changes, of changesets that ran, were not fresh at their place.
    pub not_fresh: u64,
    /// Preconditions that did not hold, and that only warn. The changelog's own has no identity.
    pub warned: Items<(Option<Identity>, Why)>,
    /// The statements' texts of each changeset that ran, or row that was taken back; kept only where
    /// they are wanted.
    pub printed: Items<Printed>,
    /// The precondition that halted it.
    pub halted: Option<Halt>,
    /// The changeset of which a statement was refused, so that the command stopped.
    pub stopped_at: Option<Identity>,
}

/// A precondition that halted a command, with its changeset. The changelog's own has no identity.
#[derive(Drop)]
pub struct Halt {
    pub identity: Option<Identity>,
    pub why: Why,
}

impl Outcome {
    /// That of a command that has done nothing.
    pub fn new(alloc: Global) -> Outcome
        ensures done { (result.happened ≡ []) × (result.warned ≡ [])
            × (result.not_fresh ≡ 0) }
        ensures unstopped { (result.halted ≡ None) × (result.stopped_at ≡ None) }
        ensures unprinted { result.printed ≡ [] }
    {
        Outcome {
            happened: Items::new(alloc),
            not_fresh: 0,
            warned: Items::new(alloc),
            printed: Items::new(alloc),
            halted: None,
            stopped_at: None,
        }
    }
}
