ghost use Rattle.std.specs.Prelude.{◌≡◌, ◌++◌, OnOk};
ghost use Rattle.lq_model.specs.StatementText.{column_text, default_text, numbering};

use crate::spell::{Spell, Style, say, say_if};
use lq_base::{Dialect, Literal, NoMemory, Text};
use lq_model::{ColumnDef, Phrase};

fn numbering(dialect: Dialect) -> Phrase
    ensures { result ≡ numbering dialect }
{
    match dialect {
        Dialect::Postgresql => Phrase::Identity,
        Dialect::Mysql => Phrase::AutoIncrement,
    }
}

fn spell_default(style: Style, to: &mut Text, default: &Option<Literal>) -> Result<(), NoMemory>
    ensures { OnOk result (to.new ≡ to.old ++ default_text style.dialect default.now) }
{
    match default {
        None => Ok(()),
        Some(literal) => {
            say(to, Phrase::Default)?;
            literal.spell(style, to)
        }
    }
}

impl Spell for ColumnDef {
    ghost text = { column_text };

    #[tactic(auto, unfolding(lq_model::specs::StatementText::column_text))]
    fn spell(&self, style: Style, to: &mut Text) -> Result<(), NoMemory> {
        self.name.spell(style, to)?;
        say(to, Phrase::Blank)?;
        self.kind.append_to(style.dialect, to)?;
        say_if(to, self.numbered, numbering(style.dialect))?;
        say_if(to, !self.nullable, Phrase::NotNull)?;
        spell_default(style, to, &self.default)
    }
}
