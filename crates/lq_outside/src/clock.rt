ghost use Rattle.std.specs.Prelude.{◌≡◌, ℕ, List, Option, Some, IfSome, slice_get};
ghost use Rattle.std.specs.Option.{option_map};
ghost use Rattle.lq_outside.specs.Forms.{after_first};

/// A clock, which has no fault.
pub trait Clock {
    /// The last answer.
    ghost last: { Self → ℕ };

    /// The answers to come, where the clock tells them. The last one repeats.
    ghost to_come: { Self → Option (List ℕ) };

    /// Milliseconds since 1970-01-01 UTC.
    fn now(&mut self) -> u64
        ensures last { last self.new ≡ result }
        ensures first { IfSome (to_come self.old)
            (λ answers. slice_get answers 0 ≡ Some result) }
        ensures rest { to_come self.new ≡ option_map after_first (to_come self.old) };
}
