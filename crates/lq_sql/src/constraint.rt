ghost use Rattle.std.specs.Prelude.{◌≡◌, ◌++◌, OnOk};
ghost use Rattle.lq_model.specs.StatementText.{foreign_text, key_text, targets_text, unique_text};

use crate::spell::{Spell, Style, say, say_if, spell_listed};
use lq_base::{Dialect, NoMemory, Text};
use lq_model::{ForeignKey, Key, Phrase, Unique};

impl Spell for Key {
    ghost text = { key_text };

    #[tactic(auto, unfolding(lq_model::specs::StatementText::key_text))]
    fn spell(&self, style: Style, to: &mut Text) -> Result<(), NoMemory> {
        match style.dialect {
            Dialect::Postgresql => {
                say(to, Phrase::Constraint)?;
                self.name.spell(style, to)?;
                say(to, Phrase::Blank)?;
                say(to, Phrase::PrimaryKey)?;
                spell_listed(style, to, self.columns.as_slice())?;
                say(to, Phrase::Close)
            }
            Dialect::Mysql => {
                say(to, Phrase::PrimaryKey)?;
                spell_listed(style, to, self.columns.as_slice())?;
                say(to, Phrase::Close)
            }
        }
    }
}

impl Spell for Unique {
    ghost text = { unique_text };

    #[tactic(auto, unfolding(lq_model::specs::StatementText::unique_text))]
    fn spell(&self, style: Style, to: &mut Text) -> Result<(), NoMemory> {
        say(to, Phrase::Constraint)?;
        self.name.spell(style, to)?;
        say(to, Phrase::Unique)?;
        spell_listed(style, to, self.columns.as_slice())?;
        say(to, Phrase::Close)
    }
}

fn spell_targets(style: Style, to: &mut Text, foreign: &ForeignKey) -> Result<(), NoMemory>
    ensures { OnOk result (to.new ≡ to.old ++ targets_text style.dialect foreign.now) }
{
    say(to, Phrase::References)?;
    foreign.table.spell(style, to)?;
    say(to, Phrase::OpenNext)?;
    spell_listed(style, to, foreign.targets.as_slice())?;
    say(to, Phrase::Close)
}

impl Spell for ForeignKey {
    ghost text = { foreign_text };

    #[tactic(auto, unfolding(lq_model::specs::StatementText::foreign_text))]
    fn spell(&self, style: Style, to: &mut Text) -> Result<(), NoMemory> {
        say(to, Phrase::Constraint)?;
        self.name.spell(style, to)?;
        say(to, Phrase::ForeignKey)?;
        spell_listed(style, to, self.columns.as_slice())?;
        spell_targets(style, to, self)?;
        say_if(to, self.cascade, Phrase::OnDeleteCascade)
    }
}
