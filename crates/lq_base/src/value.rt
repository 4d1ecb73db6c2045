ghost use Rattle.std.specs.Prelude.{◌≡◌};
ghost use Rattle.lq_base.specs.Value.{is_value_of};
ghost use Rattle.lq_base.specs.declared.value.Value.TheVariants.{Int};

use crate::character::char_count;
use crate::duplicate::{Duplicate, Same};
use crate::kind::Kind;
use crate::memory::NoMemory;
use crate::moment::is_moment;
use crate::number::has_digits;
use crate::text::Text;
use std::alloc::Global;

/// What a row holds in one column.
pub enum Value {
    Null,
    Int(i64),
    Text(Text),
    Bool(bool),
    /// Milliseconds since 1970-01-01 00:00:00.
    Moment(i64),
    /// A decimal number: `units` divided by ten to the power `scale`.
    Fixed { units: i128, scale: u8 },
}

// Written out, so that each place that lets one go is one call.
impl Drop for Value {
    fn drop(self) {
        match self {
            Value::Null => (),
            Value::Int(_) => (),
            Value::Text(it) => drop(it),
            Value::Bool(_) => (),
            Value::Moment(_) => (),
            Value::Fixed { units: _, scale: _ } => (),
        }
    }
}

impl Value {
    /// Whether the value is null or one of the kind.
    #[tactic(auto, unfolding(crate::specs::Value::is_value_of))]
    pub fn is_of(&self, kind: Kind) -> bool
        ensures { result ≡ is_value_of kind self.now }
    {
        match self {
            Value::Null => true,
            Value::Int(number) => is_int_of(*number, kind),
            Value::Text(text) => match kind {
                Kind::Varchar(most) => char_count(text.as_str()) <= most as usize,
                Kind::Text => true,
                _ => false,
            },
            Value::Bool(_) => matches!(kind, Kind::Boolean),
            Value::Moment(ms) => match kind {
                Kind::Moment => is_moment(*ms),
                _ => false,
            },
            Value::Fixed { units, scale } => match kind {
                Kind::Decimal(digits, places) => {
                    *scale == places && has_digits(digits, units.unsigned_abs())
                }
                _ => false,
            },
        }
    }
}

#[tactic(auto, unfolding(crate::specs::Value::is_value_of))]
fn is_int_of(number: i64, kind: Kind) -> bool
    ensures { result ≡ is_value_of kind (Int number) }
{
    match kind {
        Kind::Int => number >= -2_147_483_648 && number <= 2_147_483_647,
        Kind::BigInt => true,
        _ => false,
    }
}

impl Duplicate for Value {
    fn duplicate(&self, alloc: Global) -> Result<Value, NoMemory> {
        Ok(match self {
            Value::Null => Value::Null,
            Value::Int(n) => Value::Int(*n),
            Value::Text(text) => Value::Text(text.duplicate(alloc)?),
            Value::Bool(b) => Value::Bool(*b),
            Value::Moment(ms) => Value::Moment(*ms),
            Value::Fixed { units, scale } => Value::Fixed {
                units: *units,
                scale: *scale,
            },
        })
    }
}

impl Same for Value {
    fn same(&self, other: &Value) -> bool {
        match (self, other) {
            (Value::Null, Value::Null) => true,
            (Value::Int(a), Value::Int(b)) => a == b,
            (Value::Text(a), Value::Text(b)) => a.same(b),
            (Value::Bool(a), Value::Bool(b)) => a == b,
            (Value::Moment(a), Value::Moment(b)) => a == b,
            (
                Value::Fixed { units, scale },
                Value::Fixed {
                    units: other_units,
                    scale: other_scale,
                },
            ) => units == other_units && scale == other_scale,
            _ => false,
        }
    }
}
