ghost use Rattle.std.specs.List.{list_all};
ghost use Rattle.std.specs.Prelude.{◌≡◌, IfOk, true};
ghost use Rattle.lq_hand.specs.Way.{no_progress, IsTurn, refusal_at_end, refused_in, seen_along, sights};
ghost use Rattle.lq_hand.specs.Hand.{calls_left, IsWritable};
ghost use Rattle.lq_model.specs.Step.{is_statement};
ghost use Rattle.lq_turns.specs.Deed.{Contents};
ghost use Rattle.lq_turns.specs.Turn.{ending, turn_calls};
ghost use Rattle.lq_turns.specs.declared.deed.Deed.TheVariants.{Rows};

use crate::turn::turn_calls;
use lq_base::{Dialect, Items, NoMemory, Text};
use lq_turns::{Call, Turn};
use std::alloc::Global;

/// Where a command stands that has begun.
#[derive(Clone, Copy)]
pub enum Phase {
    Inside,
    /// A statement of the turn was refused.
    GivingUp,
    /// The lock is free again.
    Over,
}

/// The turn in hand.
#[derive(Drop)]
pub struct Hand {
    pub phase: Phase,
    /// Its calls that are still to be made, the next of them last.
    pub calls: Items<Call>,
    /// Whether the command goes on where one of them is refused.
    pub goes_on: bool,
}

impl Hand {
    /// A turn of which no call is made. Its statements are of the dialect, and its row's date is one
    /// of the calendar. Where a call is refused, its refusal is the one in how the turn ends.
    #[tactic(none)]
    pub fn of_turn(
        alloc: Global,
        dialect: Dialect,
        who: &Text,
        turn: Turn,
        goes_on: bool,
    ) -> Result<Hand, NoMemory>
        requires statements { list_all (is_statement dialect) turn.statements ≡ true }
        requires row { IsWritable dialect (Rows turn.row) }
        ensures turn { IfOk result (λ hand. IsTurn dialect hand) }
        ensures calls { IfOk result (λ hand. calls_left hand ≡ turn_calls dialect who.now turn) }
        ensures goes_on { IfOk result (λ hand. hand.goes_on ≡ goes_on) }
        ensures refused { IfOk result (λ hand.
            (c : Contents)
            → refused_in dialect (calls_left hand) no_progress c
            ≡ refusal_at_end (ending dialect turn c)) }
        ensures seen { IfOk result (λ hand.
            (c : Contents)
            → sights dialect (calls_left hand) c ≡ seen_along dialect turn.statements c.users) }
    {
        let calls = turn_calls(alloc, dialect, who, turn)?;
        let _count = calls.len();
        Ok(Hand {
            phase: Phase::Inside,
            calls,
            goes_on,
        })
    }
}
