ghost use Rattle.std.specs.Prelude.{◌≡◌, ◌++◌, OnOk};
ghost use Rattle.lq_model.specs.TestText.{string_text, literal_text};

use crate::spell::{Spell, Style, say};
use lq_base::{Dialect, Literal, NoMemory, Text, append_fixed, append_whole};
use lq_model::Phrase;
use lq_quoting::{Twice, push_doubled};

#[tactic(auto, unfolding(lq_model::specs::TestText::string_text))]
fn push_string(dialect: Dialect, to: &mut Text, text: &str) -> Result<(), NoMemory>
    ensures { OnOk result (to.new ≡ to.old ++ string_text dialect text.now) }
{
    say(to, Phrase::Apostrophe)?;
    push_doubled(to, Twice::InString(dialect), text)?;
    say(to, Phrase::Apostrophe)
}

impl Spell for Literal {
    ghost text = { literal_text };

    #[tactic(auto, unfolding(lq_model::specs::TestText::literal_text))]
    fn spell(&self, style: Style, to: &mut Text) -> Result<(), NoMemory> {
        match self {
            Literal::Null => say(to, Phrase::Null),
            Literal::Bool(true) => say(to, Phrase::True),
            Literal::Bool(false) => say(to, Phrase::False),
            Literal::Int(n) => append_whole(*n, to),
            Literal::Fixed { units, scale } => append_fixed(style.alloc, *units, *scale, to),
            Literal::Text(text) => push_string(style.dialect, to, text.as_str()),
        }
    }
}
