use crate::duplicate::{Duplicate, Same};
use crate::memory::NoMemory;
use crate::text::Text;
use std::alloc::Global;

/// What a statement states as a value, before a column gives it a kind.
pub enum Literal {
    Null,
    Int(i128),
    /// A decimal number: `units` divided by ten to the power `scale`.
    Fixed { units: i128, scale: u8 },
    Text(Text),
    Bool(bool),
}

// Written out, so that each place that lets one go is one call.
impl Drop for Literal {
    fn drop(self) {
        match self {
            Literal::Null => (),
            Literal::Int(_) => (),
            Literal::Fixed { units: _, scale: _ } => (),
            Literal::Text(it) => drop(it),
            Literal::Bool(_) => (),
        }
    }
}

impl Duplicate for Literal {
    fn duplicate(&self, alloc: Global) -> Result<Literal, NoMemory> {
        Ok(match self {
            Literal::Null => Literal::Null,
            Literal::Int(n) => Literal::Int(*n),
            Literal::Fixed { units, scale } => Literal::Fixed {
                units: *units,
                scale: *scale,
            },
            Literal::Text(text) => Literal::Text(text.duplicate(alloc)?),
            Literal::Bool(b) => Literal::Bool(*b),
        })
    }
}

impl Same for Literal {
    fn same(&self, other: &Literal) -> bool {
        match (self, other) {
            (Literal::Null, Literal::Null) => true,
            (Literal::Int(a), Literal::Int(b)) => a == b,
            (
                Literal::Fixed { units, scale },
                Literal::Fixed {
                    units: other_units,
                    scale: other_scale,
                },
            ) => units == other_units && scale == other_scale,
            (Literal::Text(a), Literal::Text(b)) => a.same(b),
            (Literal::Bool(a), Literal::Bool(b)) => a == b,
            _ => false,
        }
    }
}
