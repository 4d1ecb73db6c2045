ghost use Rattle.std.specs.Prelude.{◌≡◌, ◌++◌, OnOk};
ghost use Rattle.lq_model.specs.StatementText.{key_in_table, table_text, text_of};
ghost use Rattle.lq_model.specs.declared.statement.Statement.TheVariants as made;

use crate::alteration::alter_by;
use crate::name::{spell_name, spell_new_name, spell_text};
use crate::spell::{Spell, Style, say, spell_after_commas, spell_listed};
use lq_base::{Dialect, Items, Name, NoMemory, Text};
use lq_model::{ColumnDef, ForeignKey, Key, Phrase, Unique};

fn spell_key(style: Style, to: &mut Text, key: &Option<Key>) -> Result<(), NoMemory>
    ensures { OnOk result (to.new ≡ to.old ++ key_in_table style.dialect key.now) }
{
    match key {
        None => Ok(()),
        Some(key) => {
            say(to, Phrase::Comma)?;
            key.spell(style, to)
        }
    }
}

// What stands in the parentheses of a table's creation.
fn spell_table(
    style: Style,
    to: &mut Text,
    columns: &Items<ColumnDef>,
    key: &Option<Key>,
    uniques: &Items<Unique>,
    foreign: &Items<ForeignKey>,
) -> Result<(), NoMemory>
    ensures { OnOk result
        (to.new ≡ to.old
        ++ table_text style.dialect columns.now key.now uniques.now foreign.now) }
{
    spell_listed(style, to, columns.as_slice())?;
    spell_key(style, to, key)?;
    spell_after_commas(style, to, uniques.as_slice())?;
    spell_after_commas(style, to, foreign.as_slice())
}

/// The creation of a table.
pub fn create_table(
    style: Style,
    to: &mut Text,
    table: &Name,
    columns: &Items<ColumnDef>,
    key: &Option<Key>,
    uniques: &Items<Unique>,
    foreign: &Items<ForeignKey>,
) -> Result<(), NoMemory>
    ensures { OnOk result
        (to.new
        ≡ to.old
        ++ text_of style.dialect
        (made.CreateTable table.now columns.now key.now uniques.now foreign.now)) }
{
    spell_name(style, to, Phrase::CreateTable, table)?;
    say(to, Phrase::OpenNext)?;
    spell_table(style, to, columns, key, uniques, foreign)?;
    say(to, Phrase::Close)
}

/// A table under another name.
pub fn rename_table(style: Style, to: &mut Text, table: &Name, name: &Name) -> Result<(), NoMemory>
    ensures { OnOk result
        (to.new ≡ to.old ++ text_of style.dialect (made.RenameTable table.now name.now)) }
{
    match style.dialect {
        Dialect::Postgresql => {
            alter_by(style, to, table, Phrase::RenameTo)?;
            spell_text(style, to, name)
        }
        Dialect::Mysql => {
            spell_name(style, to, Phrase::RenameTable, table)?;
            spell_new_name(style, to, Phrase::To, name)
        }
    }
}
