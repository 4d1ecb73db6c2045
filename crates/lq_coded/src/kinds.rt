use crate::coded::{Coded, append_at, append_place, append_two_at};
use lq_base::{Kind, NoMemory};
use std::alloc::Global;

#[tactic(auto, unfolding(lq_codec::specs::Values::kind_codec))]
impl Coded for Kind {
    ghost use Rattle.lq_codec.specs.State.{free};
    ghost use Rattle.lq_codec.specs.Values.{kind_codec};

    ghost codec = { kind_codec };

    ghost within = { free };

    fn read(alloc: Global, bytes: &[u8]) -> Result<Option<(Kind, &[u8])>, NoMemory> {
        match bytes {
            [0, rest @ ..] => Ok(Some((Kind::Int, rest))),
            [1, rest @ ..] => Ok(Some((Kind::BigInt, rest))),
            [2, rest @ ..] => Ok(Some((Kind::Boolean, rest))),
            [3, rest @ ..] => match u32::read(alloc, rest)? {
                Some((most, rest)) => Ok(Some((Kind::Varchar(most), rest))),
                None => Ok(None),
            },
            [4, rest @ ..] => Ok(Some((Kind::Text, rest))),
            [5, rest @ ..] => Ok(Some((Kind::Moment, rest))),
            [6, rest @ ..] => match <(u8, u8)>::read(alloc, rest)? {
                Some(((digits, scale), rest)) => Ok(Some((Kind::Decimal(digits, scale), rest))),
                None => Ok(None),
            },
            _ => Ok(None),
        }
    }

    fn write(&self, to: &mut Vec<u8>) -> Result<(), NoMemory> {
        match self {
            Kind::Int => append_place(0, to),
            Kind::BigInt => append_place(1, to),
            Kind::Boolean => append_place(2, to),
            Kind::Varchar(most) => append_at(3, most, to),
            Kind::Text => append_place(4, to),
            Kind::Moment => append_place(5, to),
            Kind::Decimal(digits, scale) => append_two_at(6, digits, scale, to),
        }
    }
}
