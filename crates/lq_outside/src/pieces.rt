ghost use Rattle.std.specs.Prelude.{◌≡◌, ◌++◌, ◌<◌, OnOk, OnErr, IfOk, length};
ghost use Rattle.std.specs.Option.{option_map};
ghost use Rattle.lq_outside.specs.Forms.{CountsFault, IsPart, Took};

use crate::{Sink, SinkFailed};

// One call: writes some of the piece, and gives what is left of it.
#[tactic(auto, using(crate::proofs::Taking::took_some))]
fn write_some<'a, S: Sink>(to: &mut S, piece: &'a [u8]) -> Result<&'a [u8], SinkFailed>
    requires { 0 < length piece.now }
    ensures took { IfOk result (λ rest. Took piece.now rest.now (S.told to.old) (S.told to.new)) }
    ensures less { IfOk result (λ rest. length rest.now < length piece.now) }
    ensures failed { OnErr result (S.told to.new ≡ S.told to.old) }
    ensures faults { CountsFault result (S.faults to.old) (S.faults to.new) }
{
    let taken = to.write(piece)?;
    let (_, rest) = piece.split_at(taken);
    Ok(rest)
}

/// Writes the whole piece, in as many calls as it takes. Where one fails, a front of the piece is
/// written.
#[tactic(auto, using(crate::proofs::Taking::took_more, crate::proofs::Taking::took_all, crate::proofs::Taking::took_part))]
pub fn write_all<S: Sink>(to: &mut S, piece: &[u8]) -> Result<(), SinkFailed>
    ensures whole { OnOk result
        (S.told to.new ≡ option_map (λ before. before ++ piece.now) (S.told to.old)) }
    ensures part { IsPart piece.now (S.told to.old) (S.told to.new) }
    ensures faults { CountsFault result (S.faults to.old) (S.faults to.new) }
{
    let mut rest = piece;
    while !rest.is_empty() {
        rest = write_some(to, rest)?;
    }
    Ok(())
}
