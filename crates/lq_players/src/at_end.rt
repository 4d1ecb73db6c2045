ghost use Rattle.std.specs.Prelude.{◌≡◌, IfOk, false};
ghost use Rattle.lq_players.specs.Updating.{end_answer, halt_answer, refusal_answer};
ghost use Rattle.lq_players.specs.Reports.{of_outcome};
ghost use Rattle.lq_playing.specs.Answers.{is_failure};

use lq_base::{Duplicate, Identity, Items, NoMemory};
use lq_playing::Report;
use lq_seen::{Halt, Outcome};
use lq_turns::{Answer, Refusal};
use std::alloc::Global;

/// What a command answers that came to its end, by what the source of its turns has noted: it may
/// have halted, or a statement of a changeset was refused.
pub fn answer_at_end(
    alloc: Global,
    outcome: &Outcome,
    refused: Option<Refusal>,
) -> Result<Answer, NoMemory>
    ensures own { IfOk result (λ a. is_failure a ≡ false) }
    ensures ends { IfOk result (λ a. a ≡ end_answer outcome.now refused) }
{
    match refused {
        Some(refusal) => refusal_answer(alloc, refusal, &outcome.stopped_at),
        None => halt_answer(alloc, &outcome.halted),
    }
}

/// What a command did, by what the source of its turns has noted.
pub fn report_of(alloc: Global, outcome: Outcome) -> Report
    ensures { result ≡ of_outcome outcome }
{
    let Outcome {
        happened,
        not_fresh,
        warned,
        printed,
        ..
    } = outcome;
    Report {
        happened,
        not_fresh,
        warned,
        printed,
        pending: Items::new(alloc),
        freed: None,
    }
}

fn halt_answer(alloc: Global, halted: &Option<Halt>) -> Result<Answer, NoMemory>
    ensures own { IfOk result (λ a. is_failure a ≡ false) }
    ensures ends { IfOk result (λ a. a ≡ halt_answer halted.now) }
{
    match halted {
        Some(halt) => {
            let identity = halt.identity.duplicate(alloc)?;
            Ok(Answer::Halted {
                identity,
                why: halt.why,
            })
        }
        None => Ok(Answer::Done),
    }
}

/// What a command answers that a refusal stopped. A source notes the changeset of each refusal that stops
/// it.
pub fn refusal_answer(
    alloc: Global,
    refusal: Refusal,
    stopped_at: &Option<Identity>,
) -> Result<Answer, NoMemory>
    ensures own { IfOk result (λ a. is_failure a ≡ false) }
    ensures ends { IfOk result (λ a. a ≡ refusal_answer refusal stopped_at.now) }
{
    match stopped_at {
        Some(of) => {
            let identity = of.duplicate(alloc)?;
            Ok(Answer::Refused {
                identity,
                statement: refusal.statement,
                kept: refusal.kept,
                reason: refusal.reason,
            })
        }
        None => Ok(Answer::Done),
    }
}
