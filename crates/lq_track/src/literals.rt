ghost use Rattle.std.specs.Prelude.{◌≡◌, IfOk};
ghost use Rattle.lq_base.specs.declared.literal.Literal.TheVariants as literal;
ghost use Rattle.lq_track.specs.Lock.{text_or_null};
ghost use Rattle.lq_base.specs.Moment.{IsMoment, moment_text};
ghost use Rattle.lq_track.specs.Statements.{holds};

use lq_base::{Literal, Name, NoMemory, Text, print_moment};
use lq_model::{Op, Operand, Test};
use std::alloc::Global;

pub fn text_literal(alloc: Global, text: &Text) -> Result<Literal, NoMemory>
    ensures { IfOk result (λ made. made ≡ literal.Text text.now) }
{
    Ok(Literal::Text(text.copy(alloc)?))
}

pub fn text_or_null(alloc: Global, text: &Option<Text>) -> Result<Literal, NoMemory>
    ensures { IfOk result (λ made. made ≡ text_or_null text.now) }
{
    match text {
        Some(text) => text_literal(alloc, text),
        None => Ok(Literal::Null),
    }
}

pub fn moment_literal(alloc: Global, ms: i64) -> Result<Literal, NoMemory>
    requires { IsMoment ms }
    ensures { IfOk result (λ made. made ≡ literal.Text (moment_text ms)) }
{
    let mut text = Text::new(alloc, "")?;
    print_moment(ms, &mut text)?;
    Ok(Literal::Text(text))
}

/// That the column holds the value.
pub fn holds(column: Name, value: Literal) -> Test
    ensures { result ≡ holds column value }
{
    Test::Compare {
        op: Op::Eq,
        x: Operand::Column(column),
        y: Operand::Literal(value),
    }
}
