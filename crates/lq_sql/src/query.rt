ghost use Rattle.lq_model.specs.TestText.{query_text, wanted_text};

use crate::spell::{Spell, Style, say, spell_listed};
use crate::test::spell_where;
use lq_base::{NoMemory, Text};
use lq_model::{Phrase, Query, Wanted};

impl Spell for Wanted {
    ghost text = { wanted_text };

    fn spell(&self, style: Style, to: &mut Text) -> Result<(), NoMemory> {
        match self {
            Wanted::All => say(to, Phrase::SelectAll),
            Wanted::Count => say(to, Phrase::SelectCount),
            Wanted::Columns(names) => {
                say(to, Phrase::Select)?;
                spell_listed(style, to, names.as_slice())?;
                say(to, Phrase::From)
            }
        }
    }
}

impl Spell for Query {
    ghost text = { query_text };

    #[tactic(auto, unfolding(lq_model::specs::TestText::query_text))]
    fn spell(&self, style: Style, to: &mut Text) -> Result<(), NoMemory> {
        self.wanted.spell(style, to)?;
        self.table.spell(style, to)?;
        spell_where(style, to, &self.test)
    }
}
