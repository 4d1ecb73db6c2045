ghost use Rattle.std.specs.Prelude.{◌≡◌, ◌++◌, OnOk, Option, Some};
ghost use Rattle.lq_model.specs.TestText.{words, name_text};
ghost use Rattle.lq_model.specs.StatementText.{create_index, create_view, text_of, to_text};
ghost use Rattle.lq_model.specs.declared.phrase.Phrase.TheVariants as phrase;
ghost use Rattle.lq_model.specs.declared.statement.Statement.TheVariants as made;

use crate::name::{spell_name, spell_names, spell_new_name};
use crate::spell::{Spell, Style, say, spell_listed};
use lq_base::{Dialect, Name, NoMemory, Text, append_whole};
use lq_model::{Index, Phrase, Query};

fn create_index_words(unique: bool) -> Phrase
    ensures { result ≡ create_index unique }
{
    if unique {
        Phrase::CreateUniqueIndex
    } else {
        Phrase::CreateIndex
    }
}

/// The creation of an index.
pub fn create_index(
    style: Style,
    to: &mut Text,
    table: &Name,
    index: &Index,
) -> Result<(), NoMemory>
    ensures { OnOk result
        (to.new ≡ to.old ++ text_of style.dialect (made.CreateIndex table.now index.now)) }
{
    spell_name(style, to, create_index_words(index.unique), &index.name)?;
    spell_name(style, to, Phrase::On, table)?;
    say(to, Phrase::OpenNext)?;
    spell_listed(style, to, index.columns.as_slice())?;
    say(to, Phrase::Close)
}

/// An index dropped, in MySQL from its table.
pub fn drop_index(
    style: Style,
    to: &mut Text,
    name: &Name,
    table: &Option<Name>,
) -> Result<(), NoMemory>
    ensures { OnOk result
        (to.new ≡ to.old ++ text_of style.dialect (made.DropIndex name.now table.now)) }
{
    let drops = Phrase::DropIndex;
    match (style.dialect, table) {
        (Dialect::Mysql, Some(table)) => spell_names(style, to, drops, name, Phrase::On, table),
        _ => spell_name(style, to, drops, name),
    }
}

fn create_view_words(replace: bool) -> Phrase
    ensures { result ≡ create_view replace }
{
    if replace {
        Phrase::CreateOrReplaceView
    } else {
        Phrase::CreateView
    }
}

/// The creation of a view.
pub fn create_view(
    style: Style,
    to: &mut Text,
    view: &Name,
    query: &Query,
    replace: bool,
) -> Result<(), NoMemory>
    ensures { OnOk result
        (to.new ≡ to.old ++ text_of style.dialect (made.CreateView view.now query.now replace)) }
{
    spell_name(style, to, create_view_words(replace), view)?;
    say(to, Phrase::As)?;
    query.spell(style, to)
}

/// The creation of a sequence.
pub fn create_sequence(
    style: Style,
    to: &mut Text,
    name: &Name,
    start: i128,
    step: i128,
) -> Result<(), NoMemory>
    ensures { OnOk result
        (to.new ≡ to.old ++ text_of style.dialect (made.CreateSequence name.now start step)) }
{
    spell_name(style, to, Phrase::CreateSequence, name)?;
    say(to, Phrase::StartWith)?;
    append_whole(start, to)?;
    say(to, Phrase::IncrementBy)?;
    append_whole(step, to)
}

/// What is altered, and its other name.
pub fn rename(
    style: Style,
    to: &mut Text,
    altered: Phrase,
    name: &Name,
    new: &Name,
) -> Result<(), NoMemory>
    ensures { OnOk result
        (to.new
        ≡ to.old
        ++
        (words altered
        ++ name_text style.dialect name.now
        ++ words phrase.RenameTo
        ++ to_text style.dialect new.now)) }
{
    spell_name(style, to, altered, name)?;
    spell_new_name(style, to, Phrase::RenameTo, new)
}
