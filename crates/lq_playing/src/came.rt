ghost use Rattle.std.specs.Prelude.{◌≡◌};
ghost use Rattle.lq_playing.specs.Answers.{nothing};

use lq_base::{Happened, Identity, Items, Lock, Printed, Why};
use lq_turns::Answer;
use std::alloc::Global;

/// What a command did, as far as it came.
pub struct Report {
    pub happened: Items<Happened>,
    /// How many changes, of changesets that ran, were not fresh at their place.
    pub not_fresh: u64,
    /// Preconditions that did not hold, and that only warn. The changelog's own has no identity, and
    /// comes first.
    pub warned: Items<(Option<Identity>, Why)>,
    /// The statements' texts of each changeset that ran, or row that was taken back; kept only where
    /// they are wanted.
    pub printed: Items<Printed>,
    /// The changesets that an update would run, where they were asked for.
    pub pending: Items<Identity>,
    /// The held lock that was freed.
    pub freed: Option<Lock>,
}

impl Report {
    /// That of a command that has done nothing.
    pub fn new(alloc: Global) -> Report
        ensures { result ≡ nothing }
    {
        Report {
            happened: Items::new(alloc),
            not_fresh: 0,
            warned: Items::new(alloc),
            printed: Items::new(alloc),
            pending: Items::new(alloc),
            freed: None,
        }
    }
}

// Written out, so that each place that lets one go is one call.
impl Drop for Report {
    fn drop(self) {
        let Report {
            happened,
            not_fresh: _,
            warned,
            printed,
            pending,
            freed,
        } = self;
        drop(happened);
        drop(warned);
        drop(printed);
        drop(pending);
        drop(freed);
    }
}

/// What a command came to: its answer, and what it did, where it came to its end.
#[derive(Drop)]
pub struct Came {
    pub answer: Answer,
    pub report: Option<Report>,
}
