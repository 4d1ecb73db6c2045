ghost use Rattle.std.specs.Prelude.{◌≡◌, OnOk, ◌++◌, true};
ghost use Rattle.lq_codec.specs.Words as words;

use crate::coded::Coded;
use lq_base::NoMemory;
use lq_codec::{append_number, count, number};
use std::alloc::Global;

impl Coded for i128 {
    ghost use Rattle.lq_codec.specs.State.{free};
    ghost use Rattle.lq_codec.specs.Words.{number};

    ghost codec = { number };

    ghost within = { free };

    fn read(_: Global, bytes: &[u8]) -> Result<Option<(i128, &[u8])>, NoMemory> {
        match number(bytes) {
            Some((n, rest)) => Ok(Some((n, rest))),
            None => Ok(None),
        }
    }

    fn write(&self, to: &mut Vec<u8>) -> Result<(), NoMemory> {
        append_number(*self, to)?;
        Ok(())
    }
}

#[tactic(auto, unfolding(lq_codec::specs::Words::small_number))]
impl Coded for i64 {
    ghost use Rattle.lq_codec.specs.State.{free};
    ghost use Rattle.lq_codec.specs.Words.{small_number};

    ghost codec = { small_number };

    ghost within = { free };

    fn read(_: Global, bytes: &[u8]) -> Result<Option<(i64, &[u8])>, NoMemory> {
        let Some((n, rest)) = number(bytes) else {
            return Ok(None);
        };
        match i64::try_from(n) {
            Ok(n) => Ok(Some((n, rest))),
            Err(_) => Ok(None),
        }
    }

    fn write(&self, to: &mut Vec<u8>) -> Result<(), NoMemory> {
        append_small(*self, to)?;
        Ok(())
    }
}

#[tactic(auto, unfolding(lq_codec::specs::Words::small_number), using(crate::proofs::Written::small_fits))]
fn append_small(n: i64, to: &mut Vec<u8>) -> Result<(), NoMemory>
    ensures bytes { OnOk result (to.new.items ≡ to.old.items ++ words.small_number.write n) }
    ensures fits { words.small_number.ok n ≡ true }
{
    append_number(n as i128, to)?;
    Ok(())
}

#[tactic(auto, unfolding(lq_codec::specs::Words::count), using(crate::proofs::Written::count_fits))]
fn append_natural(n: u64, to: &mut Vec<u8>) -> Result<(), NoMemory>
    ensures bytes { OnOk result (to.new.items ≡ to.old.items ++ words.count.write n) }
    ensures fits { words.count.ok n ≡ true }
{
    append_number(n as i128, to)?;
    Ok(())
}

#[tactic(auto, unfolding(lq_codec::specs::Words::width), using(crate::proofs::Written::width_fits))]
fn append_width(n: u32, to: &mut Vec<u8>) -> Result<(), NoMemory>
    ensures bytes { OnOk result (to.new.items ≡ to.old.items ++ words.width.write n) }
    ensures fits { words.width.ok n ≡ true }
{
    append_number(n as i128, to)?;
    Ok(())
}

#[tactic(auto, unfolding(lq_codec::specs::Words::digits), using(crate::proofs::Written::digits_fit))]
fn append_digits(n: u8, to: &mut Vec<u8>) -> Result<(), NoMemory>
    ensures bytes { OnOk result (to.new.items ≡ to.old.items ++ words.digits.write n) }
    ensures fits { words.digits.ok n ≡ true }
{
    append_number(n as i128, to)?;
    Ok(())
}

impl Coded for u64 {
    ghost use Rattle.lq_codec.specs.State.{free};
    ghost use Rattle.lq_codec.specs.Words.{count};

    ghost codec = { count };

    ghost within = { free };

    fn read(_: Global, bytes: &[u8]) -> Result<Option<(u64, &[u8])>, NoMemory> {
        match count(bytes) {
            Some((n, rest)) => Ok(Some((n, rest))),
            None => Ok(None),
        }
    }

    fn write(&self, to: &mut Vec<u8>) -> Result<(), NoMemory> {
        append_natural(*self, to)?;
        Ok(())
    }
}

#[tactic(auto, unfolding(lq_codec::specs::Words::width))]
impl Coded for u32 {
    ghost use Rattle.lq_codec.specs.State.{free};
    ghost use Rattle.lq_codec.specs.Words.{width};

    ghost codec = { width };

    ghost within = { free };

    fn read(_: Global, bytes: &[u8]) -> Result<Option<(u32, &[u8])>, NoMemory> {
        let Some((n, rest)) = number(bytes) else {
            return Ok(None);
        };
        match u32::try_from(n) {
            Ok(n) => Ok(Some((n, rest))),
            Err(_) => Ok(None),
        }
    }

    fn write(&self, to: &mut Vec<u8>) -> Result<(), NoMemory> {
        append_width(*self, to)?;
        Ok(())
    }
}

#[tactic(auto, unfolding(lq_codec::specs::Words::digits))]
impl Coded for u8 {
    ghost use Rattle.lq_codec.specs.State.{free};
    ghost use Rattle.lq_codec.specs.Words.{digits};

    ghost codec = { digits };

    ghost within = { free };

    fn read(_: Global, bytes: &[u8]) -> Result<Option<(u8, &[u8])>, NoMemory> {
        let Some((n, rest)) = number(bytes) else {
            return Ok(None);
        };
        match u8::try_from(n) {
            Ok(n) => Ok(Some((n, rest))),
            Err(_) => Ok(None),
        }
    }

    fn write(&self, to: &mut Vec<u8>) -> Result<(), NoMemory> {
        append_digits(*self, to)?;
        Ok(())
    }
}

#[tactic(auto, unfolding(lq_codec::specs::Words::truth))]
impl Coded for bool {
    ghost use Rattle.lq_codec.specs.State.{free};
    ghost use Rattle.lq_codec.specs.Words.{truth};

    ghost codec = { truth };

    ghost within = { free };

    fn read(_: Global, bytes: &[u8]) -> Result<Option<(bool, &[u8])>, NoMemory> {
        match bytes {
            [0, rest @ ..] => Ok(Some((false, rest))),
            [1, rest @ ..] => Ok(Some((true, rest))),
            _ => Ok(None),
        }
    }

    fn write(&self, to: &mut Vec<u8>) -> Result<(), NoMemory> {
        if *self {
            to.push(1)?;
        } else {
            to.push(0)?;
        }
        Ok(())
    }
}
