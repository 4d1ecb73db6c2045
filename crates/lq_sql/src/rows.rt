ghost use Rattle.std.specs.Prelude.{◌≡◌, ◌++◌, OnOk};
ghost use Rattle.lq_model.specs.StatementText.{columns_text, set_text, text_of};
ghost use Rattle.lq_model.specs.declared.statement.Statement.TheVariants as made;

use crate::name::spell_name;
use crate::spell::{Spell, Style, say, spell_listed};
use crate::test::spell_where;
use lq_base::{Items, Literal, Name, NoMemory, Text};
use lq_model::{Phrase, Test};

impl Spell for (Name, Literal) {
    ghost text = { set_text };

    fn spell(&self, style: Style, to: &mut Text) -> Result<(), NoMemory> {
        self.0.spell(style, to)?;
        say(to, Phrase::Equal)?;
        self.1.spell(style, to)
    }
}

fn spell_columns(style: Style, to: &mut Text, columns: &[Name]) -> Result<(), NoMemory>
    ensures { OnOk result (to.new ≡ to.old ++ columns_text style.dialect columns.now) }
{
    let [_, ..] = columns else {
        return Ok(());
    };
    say(to, Phrase::OpenNext)?;
    spell_listed(style, to, columns)?;
    say(to, Phrase::Close)
}

/// A row put in.
pub fn insert(
    style: Style,
    to: &mut Text,
    table: &Name,
    columns: &Items<Name>,
    values: &Items<Literal>,
) -> Result<(), NoMemory>
    ensures { OnOk result
        (to.new ≡ to.old
        ++ text_of style.dialect (made.Insert table.now columns.now values.now)) }
{
    spell_name(style, to, Phrase::InsertInto, table)?;
    spell_columns(style, to, columns.as_slice())?;
    say(to, Phrase::Values)?;
    spell_listed(style, to, values.as_slice())?;
    say(to, Phrase::Close)
}

/// The rows that pass the test, changed.
pub fn update(
    style: Style,
    to: &mut Text,
    table: &Name,
    sets: &Items<(Name, Literal)>,
    test: &Option<Test>,
) -> Result<(), NoMemory>
    ensures { OnOk result
        (to.new ≡ to.old ++ text_of style.dialect (made.Update table.now sets.now test.now)) }
{
    spell_name(style, to, Phrase::Update, table)?;
    say(to, Phrase::Set)?;
    spell_listed(style, to, sets.as_slice())?;
    spell_where(style, to, test)
}

/// The rows that pass the test, taken out.
pub fn delete(
    style: Style,
    to: &mut Text,
    table: &Name,
    test: &Option<Test>,
) -> Result<(), NoMemory>
    ensures { OnOk result
        (to.new ≡ to.old ++ text_of style.dialect (made.Delete table.now test.now)) }
{
    spell_name(style, to, Phrase::DeleteFrom, table)?;
    spell_where(style, to, test)
}
