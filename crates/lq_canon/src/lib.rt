//! The checksums by which a changeset that was run is known again.
#![tactic(auto)]

mod reading;
mod rewriting;

ghost use Rattle.std.specs.Prelude.{◌≡◌, ◌++◌, IfOk, List, map};
ghost use Rattle.hex.specs.Hex.{encode_lower};
ghost use Rattle.md5.specs.Md5.{md5};
ghost use Rattle.lq_canon.specs.Sums.{old_sum_of, sum_of, uniformed};
ghost use Rattle.lq_model.specs.Changes.{CanonicalChange, IsFinished, canonical_changes};

use crate::rewriting::{is_uniform, rewritten};
use lq_base::{NoMemory, Text};
use lq_model::Canon;
use md5::{Digest, Md5};
use std::alloc::Global;

/// The checksum of a changeset, and the one of the old form.
#[derive(Drop)]
pub struct BothSums {
    pub new: Text,
    pub old: Text,
}

fn digest_of(text: &[u8]) -> [u8; 16]
    ensures { result ≡ md5 text.now }
{
    <Md5 as Digest>::digest(text)
}

/// The digest of the text in which the texts of SQL are uniform, by that of the text as it is.
fn uniform_digest(alloc: Global, text: &[u8], digest: [u8; 16]) -> Result<[u8; 16], NoMemory>
    requires { digest ≡ md5 text.now }
    ensures { (cs : List CanonicalChange)
        → text.now ≡ canonical_changes cs
        → IfOk result (λ uniform. uniform ≡ md5 (canonical_changes (map uniformed cs))) }
{
    if is_uniform(text) {
        return Ok(digest);
    }
    let uniform = rewritten(alloc, text)?;
    Ok(digest_of(uniform.as_slice()))
}

fn digits_behind(alloc: Global, form: &str, digest: &[u8]) -> Result<Text, NoMemory>
    ensures { IfOk result (λ sum. sum ≡ form.now ++ encode_lower digest.now) }
{
    let digits = hex::encode(alloc, digest)?;
    let mut sum = Text::new(alloc, form)?;
    sum.push_str(digits.as_str())?;
    Ok(sum)
}

/// The checksums of a changeset. The new one is `P2:` and the 32 lower-case hex digits of the MD5 of
/// its canonical text, in which the texts of SQL are uniform: `sql` of a sql change (but for one whose
/// end delimiter holds a blank or a quote), `selectQuery` of createView, and `where` of update and
/// delete. The old one is `P1:` and the digits of the MD5 of the canonical text as it is.
///
/// The writer holds one whole list of changes, with nothing left open.
pub fn checksums(alloc: Global, changes: &Canon) -> Result<BothSums, NoMemory>
    requires { IsFinished changes.now }
    ensures new { (cs : List CanonicalChange)
        → changes.now.written ≡ canonical_changes cs
        → IfOk result (λ sums. sums.new ≡ sum_of cs) }
    ensures old { (cs : List CanonicalChange)
        → changes.now.written ≡ canonical_changes cs
        → IfOk result (λ sums. sums.old ≡ old_sum_of cs) }
{
    let digest = digest_of(changes.written());
    let uniform = uniform_digest(alloc, changes.written(), digest)?;
    let new = digits_behind(alloc, "P2:", uniform.as_slice())?;
    let old = digits_behind(alloc, "P1:", digest.as_slice())?;
    Ok(BothSums { new, old })
}

/// The checksum of a changeset, the new one of both.
pub fn checksum(alloc: Global, changes: &Canon) -> Result<Text, NoMemory>
    requires { IsFinished changes.now }
    ensures { (cs : List CanonicalChange)
        → changes.now.written ≡ canonical_changes cs
        → IfOk result (λ sum. sum ≡ sum_of cs) }
{
    let BothSums { new, old: _ } = checksums(alloc, changes)?;
    Ok(new)
}

/// The checksum of the old form.
pub fn old_checksum(alloc: Global, changes: &Canon) -> Result<Text, NoMemory>
    requires { IsFinished changes.now }
    ensures { (cs : List CanonicalChange)
        → changes.now.written ≡ canonical_changes cs
        → IfOk result (λ sum. sum ≡ old_sum_of cs) }
{
    let BothSums { new: _, old } = checksums(alloc, changes)?;
    Ok(old)
}
