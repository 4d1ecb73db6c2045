ghost use Rattle.std.specs.Prelude.{◌≡◌, ◌++◌, OnOk};
ghost use Rattle.lq_model.specs.TestText.{words, name_quote, name_text, quoted_text};
ghost use Rattle.lq_model.specs.StatementText.{to_text};

use crate::spell::{Spell, Style, say};
use lq_base::{Dialect, Name, NoMemory, Text};
use lq_model::Phrase;
use lq_quoting::{Twice, push_doubled};

fn name_quote(dialect: Dialect) -> &'static str
    ensures { result.now ≡ name_quote dialect }
{
    match dialect {
        Dialect::Postgresql => Phrase::DoubleQuote.text(),
        Dialect::Mysql => Phrase::GraveAccent.text(),
    }
}

#[tactic(auto, unfolding(lq_model::specs::TestText::quoted_text))]
fn spell_quoted(style: Style, to: &mut Text, text: &str) -> Result<(), NoMemory>
    ensures { OnOk result (to.new ≡ to.old ++ quoted_text style.dialect text.now) }
{
    to.push_str(name_quote(style.dialect))?;
    push_doubled(to, Twice::InName(style.dialect), text)?;
    to.push_str(name_quote(style.dialect))
}

impl Spell for Name {
    ghost text = { name_text };

    #[tactic(auto, unfolding(lq_model::specs::TestText::name_text))]
    fn spell(&self, style: Style, to: &mut Text) -> Result<(), NoMemory> {
        if self.is_elsewhere() {
            spell_quoted(style, to, self.schema())?;
            say(to, Phrase::Dot)?;
            spell_quoted(style, to, self.text())
        } else {
            spell_quoted(style, to, self.as_key())
        }
    }
}

/// The words, and a name.
pub fn spell_name(style: Style, to: &mut Text, first: Phrase, name: &Name) -> Result<(), NoMemory>
    ensures { OnOk result (to.new ≡ to.old ++ (words first ++ name_text style.dialect name.now)) }
{
    say(to, first)?;
    name.spell(style, to)
}

/// Two names, with words before each.
pub fn spell_names(
    style: Style,
    to: &mut Text,
    first: Phrase,
    name: &Name,
    second: Phrase,
    other: &Name,
) -> Result<(), NoMemory>
    ensures { OnOk result
        (to.new
        ≡ to.old
        ++
        (words first
        ++ name_text style.dialect name.now
        ++ words second
        ++ name_text style.dialect other.now)) }
{
    spell_name(style, to, first, name)?;
    spell_name(style, to, second, other)
}

/// The new name of what is renamed, which stays in its schema.
pub fn spell_text(style: Style, to: &mut Text, name: &Name) -> Result<(), NoMemory>
    ensures { OnOk result (to.new ≡ to.old ++ to_text style.dialect name.now) }
{
    spell_quoted(style, to, name.text())
}

/// The words, and such a name.
pub fn spell_new_name(
    style: Style,
    to: &mut Text,
    first: Phrase,
    name: &Name,
) -> Result<(), NoMemory>
    ensures { OnOk result (to.new ≡ to.old ++ (words first ++ to_text style.dialect name.now)) }
{
    say(to, first)?;
    spell_text(style, to, name)
}
