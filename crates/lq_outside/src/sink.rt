ghost use Rattle.std.specs.Prelude.{◌≡◌, ◌<◌, ◌≤◌, ◌++◌, ℕ, List, Option, length, take, IfOk, OnErr};
ghost use Rattle.std.specs.Option.{option_map};
ghost use Rattle.lq_outside.specs.Forms.{CountsFault};

use thiserror::Error;

/// A write to a sink failed.
#[derive(Clone, Copy, Debug, PartialEq, Eq, Error)]
#[error("the output cannot be written")]
pub struct SinkFailed;

/// An output that takes bytes one piece after another.
pub trait Sink {
    /// What was written, where the sink tells it.
    ghost told: { Self → Option (List ℕ) };

    /// How many calls have failed. At the greatest u64 it stays.
    ghost faults: { Self → ℕ };

    /// Takes some of the piece from its front, and says how many bytes. Of a piece that is not empty
    /// it takes at least one.
    fn write(&mut self, piece: &[u8]) -> Result<usize, SinkFailed>
        ensures some { IfOk result (λ taken. 0 < length piece.now → 0 < taken) }
        ensures fits { IfOk result (λ taken. taken ≤ length piece.now) }
        ensures told { IfOk result (λ taken.
            told self.new
            ≡ option_map (λ before. before ++ take taken piece.now) (told self.old)) }
        ensures failed { OnErr result (told self.new ≡ told self.old) }
        ensures faults { CountsFault result (faults self.old) (faults self.new) };
}
