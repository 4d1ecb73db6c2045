ghost use Rattle.std.specs.Prelude.{◌≡◌, ◌++◌, ◌∷◌, ◌&&◌, Bool, Some, None, MatchOption, IfOk, OnOk, true};
ghost use Rattle.std.specs.List.{list_all};
ghost use Rattle.lq_codec.specs.Codec.{Codec, counted, each, one, write_each};
ghost use Rattle.lq_codec.specs.State.{OnTrue};
ghost use Rattle.lq_codec.specs.Words.{count};

use lq_base::{Items, NoMemory};
use lq_codec::count;
use std::alloc::Global;

/// What can be written as bytes and read back from them.
pub trait Coded: Sized {
    ghost codec: { Codec Self };

    /// Whether it keeps to the limits of what is written, as far as the type does not set them.
    ghost within: { Self → Bool };

    /// What stands at the front, and what follows it. None where nothing is written so.
    fn read(alloc: Global, bytes: &[u8]) -> Result<Option<(Self, &[u8])>, NoMemory>
        ensures { IfOk result (λ found. MatchOption found (codec.read bytes.now ≡ None)
            (λ next. codec.read bytes.now ≡ Some (next.0, next.1.now))) };

    /// Appends its bytes. Within the limits they can be read back.
    fn write(&self, to: &mut Vec<u8>) -> Result<(), NoMemory>
        ensures bytes { OnOk result (to.new.items ≡ to.old.items ++ codec.write self.now) }
        ensures fits { OnOk result (OnTrue (within self.now) (codec.ok self.now ≡ true)) };
}

/// So many, one after the other. Each takes a byte at least, so that a count that is too large ends
/// with the bytes.
#[tactic(auto, using(crate::proofs::Each::each_start, crate::proofs::Each::each_end, crate::proofs::Each::each_more, crate::proofs::Each::each_none))]
pub fn read_each<T: Coded + Drop>(
    alloc: Global,
    bytes: &[u8],
    n: u64,
) -> Result<Option<(Items<T>, &[u8])>, NoMemory>
    ensures { IfOk result (λ found. MatchOption found ((each n T.codec).read bytes.now ≡ None)
        (λ next. (each n T.codec).read bytes.now ≡ Some (next.0, next.1.now))) }
{
    let mut items = Items::new(alloc);
    let mut rest = bytes;
    for _i in 0..n {
        match T::read(alloc, rest)? {
            Some((item, after)) => {
                items.push(item)?;
                rest = after;
            }
            None => return Ok(None),
        }
    }
    Ok(Some((items, rest)))
}

/// Appends the bytes of each.
#[tactic(auto, using(crate::proofs::Each::one_written, crate::proofs::Each::all_written, crate::proofs::Each::one_fits, crate::proofs::Each::all_fit))]
pub fn append_each<T: Coded>(items: &[T], to: &mut Vec<u8>) -> Result<(), NoMemory>
    ensures bytes { OnOk result (to.new.items ≡ to.old.items ++ write_each T.codec items.now) }
    ensures fits { OnOk result
        (OnTrue (list_all T.within items.now) (list_all T.codec.ok items.now ≡ true)) }
{
    let mut rest = items;
    while let Some((item, after)) = rest.split_first() {
        item.write(to)?;
        rest = after;
    }
    Ok(())
}

/// Appends their count, and the bytes of each.
#[tactic(auto, using(crate::proofs::Each::list_fits))]
pub fn append_list<T: Coded>(items: &[T], to: &mut Vec<u8>) -> Result<(), NoMemory>
    ensures bytes { OnOk result
        (to.new.items ≡ to.old.items ++ (counted count T.codec).write items.now) }
    ensures fits { OnOk result
        (OnTrue (list_all T.within items.now) ((counted count T.codec).ok items.now ≡ true)) }
{
    let n = items.len() as u64;
    n.write(to)?;
    append_each(items, to)?;
    Ok(())
}

/// Appends a place where nothing stands.
pub fn append_place(place: u8, to: &mut Vec<u8>) -> Result<(), NoMemory>
    ensures bytes { OnOk result (to.new.items ≡ to.old.items ++ place ∷ one.write tt) }
    ensures fits { OnOk result (one.ok tt ≡ true) }
{
    to.push(place)?;
    Ok(())
}

/// Appends a place, and then the bytes of what stands there.
pub fn append_at<T: Coded>(place: u8, value: &T, to: &mut Vec<u8>) -> Result<(), NoMemory>
    ensures bytes { OnOk result
        (to.new.items ≡ to.old.items ++ place ∷ T.codec.write value.now) }
    ensures fits { OnOk result (OnTrue (T.within value.now) (T.codec.ok value.now ≡ true)) }
{
    to.push(place)?;
    value.write(to)?;
    Ok(())
}

/// Appends a place, and then the bytes of two.
#[tactic(auto, using(crate::proofs::Each::pair_fits))]
pub fn append_two_at<A: Coded, B: Coded>(
    place: u8,
    a: &A,
    b: &B,
    to: &mut Vec<u8>,
) -> Result<(), NoMemory>
    ensures bytes { OnOk result
        (to.new.items ≡ to.old.items ++ place ∷ (A.codec.write a.now ++ B.codec.write b.now)) }
    ensures fits { OnOk result
        (OnTrue (A.within a.now && B.within b.now)
        (A.codec.ok a.now && B.codec.ok b.now ≡ true)) }
{
    to.push(place)?;
    a.write(to)?;
    b.write(to)?;
    Ok(())
}

impl<T: Coded + Drop> Coded for Items<T> {
    ghost use Rattle.std.specs.List.{list_all};
    ghost use Rattle.lq_codec.specs.Codec.{counted};
    ghost use Rattle.lq_codec.specs.Words.{count};

    ghost codec = { counted count T.codec };

    ghost within = { list_all T.within };

    fn read(alloc: Global, bytes: &[u8]) -> Result<Option<(Items<T>, &[u8])>, NoMemory> {
        let Some((n, rest)) = count(bytes) else {
            return Ok(None);
        };
        match read_each(alloc, rest, n)? {
            Some((items, rest)) => Ok(Some((items, rest))),
            None => Ok(None),
        }
    }

    fn write(&self, to: &mut Vec<u8>) -> Result<(), NoMemory> {
        append_list(self.as_slice(), to)?;
        Ok(())
    }
}

impl<T: Coded + Drop> Coded for Option<T> {
    ghost use Rattle.lq_codec.specs.Codec.{optional};
    ghost use Rattle.lq_codec.specs.State.{if_any};

    ghost codec = { optional T.codec };

    ghost within = { if_any T.within };

    fn read(alloc: Global, bytes: &[u8]) -> Result<Option<(Option<T>, &[u8])>, NoMemory> {
        match bytes {
            [0, rest @ ..] => Ok(Some((None, rest))),
            [1, rest @ ..] => match T::read(alloc, rest)? {
                Some((value, rest)) => Ok(Some((Some(value), rest))),
                None => Ok(None),
            },
            _ => Ok(None),
        }
    }

    fn write(&self, to: &mut Vec<u8>) -> Result<(), NoMemory> {
        match self {
            None => append_place(0, to),
            Some(value) => append_at(1, value, to),
        }
    }
}

impl<A: Coded + Drop, B: Coded + Drop> Coded for (A, B) {
    ghost use Rattle.lq_codec.specs.Codec.{both};
    ghost use Rattle.lq_codec.specs.State.{if_both};

    ghost codec = { both A.codec B.codec };

    ghost within = { if_both A.within B.within };

    fn read(alloc: Global, bytes: &[u8]) -> Result<Option<((A, B), &[u8])>, NoMemory> {
        let Some((a, rest)) = A::read(alloc, bytes)? else {
            return Ok(None);
        };
        match B::read(alloc, rest)? {
            Some((b, rest)) => Ok(Some(((a, b), rest))),
            None => Ok(None),
        }
    }

    #[tactic(auto, using(crate::proofs::Each::pair_fits))]
    fn write(&self, to: &mut Vec<u8>) -> Result<(), NoMemory> {
        self.0.write(to)?;
        self.1.write(to)?;
        Ok(())
    }
}
