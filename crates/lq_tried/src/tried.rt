ghost use Rattle.std.specs.Prelude.{◌≡◌, ◌≤◌, MatchResult};
ghost use Rattle.lq_chain.specs.History.{marked, undone_to};

use lq_parts::{Parts, RunFault};

/// Keeps what a statement changed since the mark, or undoes it where it met a fault, whichever that
/// is. Gives what came of the statement.
pub fn keep_or_undo(
    parts: &mut Parts,
    mark: u64,
    outcome: Result<u64, RunFault>,
) -> Result<u64, RunFault>
    requires { mark ≤ marked parts.old }
    ensures outcome { result ≡ outcome }
    ensures parts { MatchResult result (λ _. parts.new ≡ parts.old)
        (λ _. parts.new ≡ undone_to parts.old mark) }
{
    match outcome {
        Ok(count) => Ok(count),
        Err(fault) => {
            parts.undo_to(mark);
            Err(fault)
        }
    }
}
