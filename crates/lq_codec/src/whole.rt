ghost use Rattle.std.specs.Prelude.{◌≡◌, Some, None, MatchOption, OnOk, ◌++◌, true};
ghost use Rattle.lq_codec.specs.Words as words;

use lq_base::NoMemory;
use std::alloc::Global;

// The number that sixteen bytes spell.
#[tactic(auto, using(crate::proofs::Sixteen::front_bytes))]
fn spelled(front: [u8; 16]) -> i128
    ensures { words.number_bytes result ≡ front }
{
    i128::from_be_bytes(front)
}

/// The number at the front, and what follows it.
#[tactic(auto, unfolding(crate::specs::Words::number), using(crate::proofs::Sixteen::short_number, crate::proofs::Sixteen::whole_number))]
pub fn number(bytes: &[u8]) -> Option<(i128, &[u8])>
    ensures { MatchOption result (words.number.read bytes.now ≡ None)
        (λ next. words.number.read bytes.now ≡ Some (next.0, next.1.now)) }
{
    if bytes.len() < 16 {
        return None;
    }
    match <[u8; 16]>::try_from(&bytes[..16]) {
        Ok(front) => Some((spelled(front), &bytes[16..])),
        Err(_) => None,
    }
}

/// How many there are.
#[tactic(auto, unfolding(crate::specs::Words::count))]
pub fn count(bytes: &[u8]) -> Option<(u64, &[u8])>
    ensures { MatchOption result (words.count.read bytes.now ≡ None)
        (λ next. words.count.read bytes.now ≡ Some (next.0, next.1.now)) }
{
    let Some((n, rest)) = number(bytes) else {
        return None;
    };
    match u64::try_from(n) {
        Ok(n) => Some((n, rest)),
        Err(_) => None,
    }
}

/// Appends a number's bytes.
#[tactic(auto, unfolding(crate::specs::Words::number), using(crate::proofs::Sixteen::number_fits))]
pub fn append_number(n: i128, to: &mut Vec<u8>) -> Result<(), NoMemory>
    ensures bytes { OnOk result (to.new.items ≡ to.old.items ++ words.number.write n) }
    ensures fits { words.number.ok n ≡ true }
{
    to.extend_from_slice(&n.to_be_bytes())?;
    Ok(())
}
