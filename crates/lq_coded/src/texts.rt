ghost use Rattle.std.specs.Prelude.{◌≡◌, Some, None, MatchOption, OnOk, ◌++◌, true};
ghost use Rattle.lq_codec.specs.Words as words;

use crate::coded::Coded;
use lq_base::{Name, NameFault, NoMemory, Text};
use lq_codec::count;
use std::alloc::Global;

// What bytes have a text at the front is said by the lemmas of Rattle.lq_codec.proofs.Sixteen.
/// The text at the front, where there is one.
#[tactic(auto, unfolding(lq_codec::specs::Words::text), using(lq_codec::proofs::Sixteen::text_few, lq_codec::proofs::Sixteen::text_there, lq_codec::proofs::Sixteen::text_bad, lq_codec::proofs::Sixteen::utf8_is, lq_codec::proofs::Sixteen::utf8_not))]
fn text_in(bytes: &[u8]) -> Option<(&str, &[u8])>
    ensures { MatchOption result (words.text.read bytes.now ≡ None)
        (λ next. words.text.read bytes.now ≡ Some (next.0.now, next.1.now)) }
{
    let Some((n, rest)) = count(bytes) else {
        return None;
    };
    if n > rest.len() as u64 {
        return None;
    }
    let (front, after) = rest.split_at(n as usize);
    match str::from_utf8(front) {
        Ok(text) => Some((text, after)),
        Err(_) => None,
    }
}

// Appends a text's bytes.
#[tactic(auto, using(crate::proofs::Written::text_bytes, crate::proofs::Written::text_fits))]
fn append_text(text: &str, to: &mut Vec<u8>) -> Result<(), NoMemory>
    ensures bytes { OnOk result (to.new.items ≡ to.old.items ++ words.text.write text.now) }
    ensures fits { OnOk result (words.text.ok text.now ≡ true) }
{
    let n = text.len() as u64;
    n.write(to)?;
    to.extend_from_slice(text.as_bytes())?;
    Ok(())
}

impl Coded for Text {
    ghost use Rattle.lq_codec.specs.State.{free};
    ghost use Rattle.lq_codec.specs.Words.{text};

    ghost codec = { text };

    ghost within = { free };

    fn read(alloc: Global, bytes: &[u8]) -> Result<Option<(Text, &[u8])>, NoMemory> {
        let Some((text, rest)) = text_in(bytes) else {
            return Ok(None);
        };
        let made = Text::new(alloc, text)?;
        Ok(Some((made, rest)))
    }

    fn write(&self, to: &mut Vec<u8>) -> Result<(), NoMemory> {
        append_text(self.as_str(), to)?;
        Ok(())
    }
}

#[tactic(auto, unfolding(lq_codec::specs::Words::name))]
impl Coded for Name {
    ghost use Rattle.lq_codec.specs.State.{free};
    ghost use Rattle.lq_codec.specs.Words.{name};

    ghost codec = { name };

    ghost within = { free };

    fn read(alloc: Global, bytes: &[u8]) -> Result<Option<(Name, &[u8])>, NoMemory> {
        let Some((text, rest)) = text_in(bytes) else {
            return Ok(None);
        };
        match Name::from_key(alloc, text) {
            Ok(name) => Ok(Some((name, rest))),
            Err(NameFault::BadName) => Ok(None),
            Err(NameFault::OutOfMemory) => Err(NoMemory),
        }
    }

    fn write(&self, to: &mut Vec<u8>) -> Result<(), NoMemory> {
        append_text(self.as_key(), to)?;
        Ok(())
    }
}
