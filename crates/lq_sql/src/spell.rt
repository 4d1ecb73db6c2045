ghost use Rattle.std.specs.Prelude.{◌≡◌, ◌++◌, map, OnOk};
ghost use Rattle.lq_model.specs.TestText.{words, after_commas, listed};
ghost use Rattle.lq_model.specs.StatementText.{words_if};

use lq_base::{Dialect, NoMemory, Text};
use lq_model::Phrase;
use std::alloc::Global;

/// Where and how a text is written: memory and dialect.
#[derive(Clone, Copy)]
pub struct Style {
    pub alloc: Global,
    pub dialect: Dialect,
}

/// A part of a statement, which has a canonical text in each dialect.
pub trait Spell {
    ghost use Rattle.std.specs.Prelude.{List, ℕ};
    ghost use Rattle.lq_base.specs.declared.dialect.Dialect.{Dialect};

    ghost text: { Dialect → Self → List ℕ };

    fn spell(&self, style: Style, to: &mut Text) -> Result<(), NoMemory>
        ensures { OnOk result (to.new ≡ to.old ++ text style.dialect self.now) };
}

/// Appends the words.
pub fn say(to: &mut Text, phrase: Phrase) -> Result<(), NoMemory>
    ensures { OnOk result (to.new ≡ to.old ++ words phrase) }
{
    to.push_str(phrase.text())
}

/// Appends the words where they are wanted.
pub fn say_if(to: &mut Text, said: bool, phrase: Phrase) -> Result<(), NoMemory>
    ensures { OnOk result (to.new ≡ to.old ++ words_if said phrase) }
{
    if said { say(to, phrase) } else { Ok(()) }
}

/// The items with commas between them.
pub fn spell_listed<T: Spell>(style: Style, to: &mut Text, items: &[T]) -> Result<(), NoMemory>
    ensures { OnOk result (to.new ≡ to.old ++ listed (map (T.text style.dialect) items.now)) }
{
    let [first, others @ ..] = items else {
        return Ok(());
    };
    first.spell(style, to)?;
    spell_after_commas(style, to, others)
}

/// The items with a comma before each.
pub fn spell_after_commas<T: Spell>(
    style: Style,
    to: &mut Text,
    items: &[T],
) -> Result<(), NoMemory>
    ensures { OnOk result (to.new
        ≡ to.old ++ after_commas (map (T.text style.dialect) items.now)) }
{
    let mut rest = items;
    while let [item, others @ ..] = rest {
        say(to, Phrase::Comma)?;
        item.spell(style, to)?;
        rest = others;
    }
    Ok(())
}
