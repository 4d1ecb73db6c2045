ghost use Rattle.std.specs.Prelude.{◌≡◌, ◌++◌, ◌∷◌, OnOk, true};
ghost use Rattle.lq_codec.specs.Queries.{names};

use crate::coded::{Coded, append_at, append_place};
use lq_base::{Items, Literal, Name, NoMemory};
use lq_model::{Op, Operand, Wanted};
use std::alloc::Global;

/// Appends the bytes of names.
#[tactic(auto, using(crate::proofs::Each::list_free))]
pub fn append_names(items: &Items<Name>, to: &mut Vec<u8>) -> Result<(), NoMemory>
    ensures bytes { OnOk result (to.new.items ≡ to.old.items ++ names.write items.now) }
    ensures fits { OnOk result (names.ok items.now ≡ true) }
{
    items.write(to)?;
    Ok(())
}

// Appends a place, and then the bytes of names.
#[tactic(auto, using(crate::proofs::Each::list_free))]
fn append_names_at(place: u8, items: &Items<Name>, to: &mut Vec<u8>) -> Result<(), NoMemory>
    ensures bytes { OnOk result (to.new.items ≡ to.old.items ++ place ∷ names.write items.now) }
    ensures fits { OnOk result (names.ok items.now ≡ true) }
{
    append_at(place, items, to)?;
    Ok(())
}

#[tactic(auto, unfolding(lq_codec::specs::Queries::op_codec))]
impl Coded for Op {
    ghost use Rattle.lq_codec.specs.State.{free};
    ghost use Rattle.lq_codec.specs.Queries.{op_codec};

    ghost codec = { op_codec };

    ghost within = { free };

    fn read(_: Global, bytes: &[u8]) -> Result<Option<(Op, &[u8])>, NoMemory> {
        match bytes {
            [0, rest @ ..] => Ok(Some((Op::Eq, rest))),
            [1, rest @ ..] => Ok(Some((Op::Ne, rest))),
            [2, rest @ ..] => Ok(Some((Op::Lt, rest))),
            [3, rest @ ..] => Ok(Some((Op::Le, rest))),
            [4, rest @ ..] => Ok(Some((Op::Gt, rest))),
            [5, rest @ ..] => Ok(Some((Op::Ge, rest))),
            _ => Ok(None),
        }
    }

    fn write(&self, to: &mut Vec<u8>) -> Result<(), NoMemory> {
        match self {
            Op::Eq => append_place(0, to),
            Op::Ne => append_place(1, to),
            Op::Lt => append_place(2, to),
            Op::Le => append_place(3, to),
            Op::Gt => append_place(4, to),
            Op::Ge => append_place(5, to),
        }
    }
}

#[tactic(auto, unfolding(lq_codec::specs::Queries::operand_codec))]
impl Coded for Operand {
    ghost use Rattle.lq_codec.specs.State.{free};
    ghost use Rattle.lq_codec.specs.Queries.{operand_codec};

    ghost codec = { operand_codec };

    ghost within = { free };

    fn read(alloc: Global, bytes: &[u8]) -> Result<Option<(Operand, &[u8])>, NoMemory> {
        match bytes {
            [0, rest @ ..] => match Name::read(alloc, rest)? {
                Some((name, rest)) => Ok(Some((Operand::Column(name), rest))),
                None => Ok(None),
            },
            [1, rest @ ..] => match Literal::read(alloc, rest)? {
                Some((literal, rest)) => Ok(Some((Operand::Literal(literal), rest))),
                None => Ok(None),
            },
            _ => Ok(None),
        }
    }

    fn write(&self, to: &mut Vec<u8>) -> Result<(), NoMemory> {
        match self {
            Operand::Column(name) => append_at(0, name, to),
            Operand::Literal(literal) => append_at(1, literal, to),
        }
    }
}

#[tactic(auto, unfolding(lq_codec::specs::Queries::wanted_codec))]
impl Coded for Wanted {
    ghost use Rattle.lq_codec.specs.State.{free};
    ghost use Rattle.lq_codec.specs.Queries.{wanted_codec};

    ghost codec = { wanted_codec };

    ghost within = { free };

    fn read(alloc: Global, bytes: &[u8]) -> Result<Option<(Wanted, &[u8])>, NoMemory> {
        match bytes {
            [0, rest @ ..] => Ok(Some((Wanted::All, rest))),
            [1, rest @ ..] => Ok(Some((Wanted::Count, rest))),
            [2, rest @ ..] => match Items::<Name>::read(alloc, rest)? {
                Some((names, rest)) => Ok(Some((Wanted::Columns(names), rest))),
                None => Ok(None),
            },
            _ => Ok(None),
        }
    }

    fn write(&self, to: &mut Vec<u8>) -> Result<(), NoMemory> {
        match self {
            Wanted::All => append_place(0, to),
            Wanted::Count => append_place(1, to),
            Wanted::Columns(names) => append_names_at(2, names, to),
        }
    }
}
