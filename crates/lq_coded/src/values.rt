use crate::coded::{Coded, append_at, append_place, append_two_at};
use lq_base::{Literal, NoMemory, Text, Value};
use std::alloc::Global;

#[tactic(auto, unfolding(lq_codec::specs::Values::value_codec))]
impl Coded for Value {
    ghost use Rattle.lq_codec.specs.State.{free};
    ghost use Rattle.lq_codec.specs.Values.{value_codec};

    ghost codec = { value_codec };

    ghost within = { free };

    fn read(alloc: Global, bytes: &[u8]) -> Result<Option<(Value, &[u8])>, NoMemory> {
        match bytes {
            [0, rest @ ..] => Ok(Some((Value::Null, rest))),
            [1, rest @ ..] => match i64::read(alloc, rest)? {
                Some((n, rest)) => Ok(Some((Value::Int(n), rest))),
                None => Ok(None),
            },
            [2, rest @ ..] => match Text::read(alloc, rest)? {
                Some((text, rest)) => Ok(Some((Value::Text(text), rest))),
                None => Ok(None),
            },
            [3, rest @ ..] => match bool::read(alloc, rest)? {
                Some((truth, rest)) => Ok(Some((Value::Bool(truth), rest))),
                None => Ok(None),
            },
            [4, rest @ ..] => match i64::read(alloc, rest)? {
                Some((ms, rest)) => Ok(Some((Value::Moment(ms), rest))),
                None => Ok(None),
            },
            [5, rest @ ..] => match <(i128, u8)>::read(alloc, rest)? {
                Some(((units, scale), rest)) => Ok(Some((Value::Fixed { units, scale }, rest))),
                None => Ok(None),
            },
            _ => Ok(None),
        }
    }

    fn write(&self, to: &mut Vec<u8>) -> Result<(), NoMemory> {
        match self {
            Value::Null => append_place(0, to),
            Value::Int(n) => append_at(1, n, to),
            Value::Text(text) => append_at(2, text, to),
            Value::Bool(truth) => append_at(3, truth, to),
            Value::Moment(ms) => append_at(4, ms, to),
            Value::Fixed { units, scale } => append_two_at(5, units, scale, to),
        }
    }
}

#[tactic(auto, unfolding(lq_codec::specs::Values::literal_codec))]
impl Coded for Literal {
    ghost use Rattle.lq_codec.specs.State.{free};
    ghost use Rattle.lq_codec.specs.Values.{literal_codec};

    ghost codec = { literal_codec };

    ghost within = { free };

    fn read(alloc: Global, bytes: &[u8]) -> Result<Option<(Literal, &[u8])>, NoMemory> {
        match bytes {
            [0, rest @ ..] => Ok(Some((Literal::Null, rest))),
            [1, rest @ ..] => match i128::read(alloc, rest)? {
                Some((n, rest)) => Ok(Some((Literal::Int(n), rest))),
                None => Ok(None),
            },
            [2, rest @ ..] => match <(i128, u8)>::read(alloc, rest)? {
                Some(((units, scale), rest)) => Ok(Some((Literal::Fixed { units, scale }, rest))),
                None => Ok(None),
            },
            [3, rest @ ..] => match Text::read(alloc, rest)? {
                Some((text, rest)) => Ok(Some((Literal::Text(text), rest))),
                None => Ok(None),
            },
            [4, rest @ ..] => match bool::read(alloc, rest)? {
                Some((truth, rest)) => Ok(Some((Literal::Bool(truth), rest))),
                None => Ok(None),
            },
            _ => Ok(None),
        }
    }

    fn write(&self, to: &mut Vec<u8>) -> Result<(), NoMemory> {
        match self {
            Literal::Null => append_place(0, to),
            Literal::Int(n) => append_at(1, n, to),
            Literal::Fixed { units, scale } => append_two_at(2, units, scale, to),
            Literal::Text(text) => append_at(3, text, to),
            Literal::Bool(truth) => append_at(4, truth, to),
        }
    }
}
