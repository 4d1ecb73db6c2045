use lq_base::{Boxed, Duplicate, Literal, Name, NoMemory};
use std::alloc::Global;

/// A comparison's operator.
#[derive(Clone, Copy, PartialEq, Eq)]
pub enum Op {
    Eq,
    Ne,
    Lt,
    Le,
    Gt,
    Ge,
}

/// One side of a comparison.
pub enum Operand {
    Column(Name),
    Literal(Literal),
}

// Written out, so that each place that lets one go is one call.
impl Drop for Operand {
    fn drop(self) {
        match self {
            Operand::Column(it) => drop(it),
            Operand::Literal(it) => drop(it),
        }
    }
}

/// What a WHERE clause asks of a row.
pub enum Test {
    Compare { op: Op, x: Operand, y: Operand },
    IsNull(Operand),
    NotNull(Operand),
    And(Boxed<Test>, Boxed<Test>),
    Or(Boxed<Test>, Boxed<Test>),
    Not(Boxed<Test>),
}

// Written out, so that each place that lets one go is one call.
impl Drop for Test {
    fn drop(self) {
        match self {
            Test::Compare { op: _, x, y } => {
                drop(x);
                drop(y);
            }
            Test::IsNull(it) => drop(it),
            Test::NotNull(it) => drop(it),
            Test::And(a, b) => {
                drop(a);
                drop(b);
            }
            Test::Or(a, b) => {
                drop(a);
                drop(b);
            }
            Test::Not(it) => drop(it),
        }
    }
}

impl Duplicate for Operand {
    fn duplicate(&self, alloc: Global) -> Result<Operand, NoMemory> {
        Ok(match self {
            Operand::Column(name) => Operand::Column(name.duplicate(alloc)?),
            Operand::Literal(literal) => Operand::Literal(literal.duplicate(alloc)?),
        })
    }
}

impl Duplicate for Test {
    fn duplicate(&self, alloc: Global) -> Result<Test, NoMemory> {
        Ok(match self {
            Test::Compare { op, x, y } => Test::Compare {
                op: *op,
                x: x.duplicate(alloc)?,
                y: y.duplicate(alloc)?,
            },
            Test::IsNull(x) => Test::IsNull(x.duplicate(alloc)?),
            Test::NotNull(x) => Test::NotNull(x.duplicate(alloc)?),
            Test::And(a, b) => Test::And(
                Boxed::new(alloc, a.get().duplicate(alloc)?)?,
                Boxed::new(alloc, b.get().duplicate(alloc)?)?,
            ),
            Test::Or(a, b) => Test::Or(
                Boxed::new(alloc, a.get().duplicate(alloc)?)?,
                Boxed::new(alloc, b.get().duplicate(alloc)?)?,
            ),
            Test::Not(a) => Test::Not(Boxed::new(alloc, a.get().duplicate(alloc)?)?),
        })
    }
}
