ghost use Rattle.std.specs.Prelude.{◌≡◌, ◌++◌, OnOk};
ghost use Rattle.lq_model.specs.TestText.{op_text, operand_text, test_text, where_text};

use crate::spell::{Spell, Style, say};
use lq_base::{NoMemory, Text};
use lq_model::{Op, Operand, Phrase, Test};

fn say_op(to: &mut Text, op: Op) -> Result<(), NoMemory>
    ensures { OnOk result (to.new ≡ to.old ++ op_text op) }
{
    match op {
        Op::Eq => say(to, Phrase::Equal),
        Op::Ne => say(to, Phrase::Unequal),
        Op::Lt => say(to, Phrase::Less),
        Op::Le => say(to, Phrase::AtMost),
        Op::Gt => say(to, Phrase::More),
        Op::Ge => say(to, Phrase::AtLeast),
    }
}

impl Spell for Operand {
    ghost text = { operand_text };

    fn spell(&self, style: Style, to: &mut Text) -> Result<(), NoMemory> {
        match self {
            Operand::Column(name) => name.spell(style, to),
            Operand::Literal(literal) => literal.spell(style, to),
        }
    }
}

impl Spell for Test {
    ghost text = { test_text };

    #[tactic(auto, using(lq_model::specs::TestText::test_text_of_not, lq_model::specs::TestText::test_text_of_and, lq_model::specs::TestText::test_text_of_or), unfolding(lq_model::specs::TestText::test_text))]
    fn spell(&self, style: Style, to: &mut Text) -> Result<(), NoMemory> {
        match self {
            Test::Compare { op, x, y } => {
                x.spell(style, to)?;
                say_op(to, *op)?;
                y.spell(style, to)
            }
            Test::IsNull(x) => {
                x.spell(style, to)?;
                say(to, Phrase::IsNull)
            }
            Test::NotNull(x) => {
                x.spell(style, to)?;
                say(to, Phrase::IsNotNull)
            }
            Test::And(a, b) => {
                say(to, Phrase::Open)?;
                a.get().spell(style, to)?;
                say(to, Phrase::And)?;
                b.get().spell(style, to)?;
                say(to, Phrase::Close)
            }
            Test::Or(a, b) => {
                say(to, Phrase::Open)?;
                a.get().spell(style, to)?;
                say(to, Phrase::Or)?;
                b.get().spell(style, to)?;
                say(to, Phrase::Close)
            }
            Test::Not(a) => {
                say(to, Phrase::Not)?;
                a.get().spell(style, to)?;
                say(to, Phrase::Close)
            }
        }
    }
}

/// The WHERE clause, if there is a test.
pub fn spell_where(style: Style, to: &mut Text, test: &Option<Test>) -> Result<(), NoMemory>
    ensures { OnOk result (to.new ≡ to.old ++ where_text style.dialect test.now) }
{
    match test {
        None => Ok(()),
        Some(test) => {
            say(to, Phrase::Where)?;
            test.spell(style, to)
        }
    }
}
