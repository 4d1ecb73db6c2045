ghost use Rattle.std.specs.Prelude.{◌≡◌, ◌++◌, OnOk};
ghost use Rattle.lq_model.specs.TestText.{words};
ghost use Rattle.lq_model.specs.StatementText.{alter_column, alter_table, null_allowed, text_of};
ghost use Rattle.lq_model.specs.declared.statement.Statement.TheVariants as made;

use crate::name::spell_name;
use crate::spell::{Spell, Style, say};
use lq_base::{Kind, Literal, Name, NoMemory, Text};
use lq_model::Phrase;

// `ALTER TABLE q`.
fn alter_table(style: Style, to: &mut Text, table: &Name) -> Result<(), NoMemory>
    ensures { OnOk result (to.new ≡ to.old ++ alter_table style.dialect table.now) }
{
    say(to, Phrase::AlterTable)?;
    table.spell(style, to)
}

/// `ALTER TABLE q` and what is done.
pub fn alter_by(style: Style, to: &mut Text, table: &Name, action: Phrase) -> Result<(), NoMemory>
    ensures { OnOk result
        (to.new ≡ to.old ++ (alter_table style.dialect table.now ++ words action)) }
{
    alter_table(style, to, table)?;
    say(to, action)
}

/// `ALTER TABLE q`, what is done, and to what.
pub fn alter<T: Spell>(
    style: Style,
    to: &mut Text,
    table: &Name,
    action: Phrase,
    part: &T,
) -> Result<(), NoMemory>
    ensures { OnOk result
        (to.new
        ≡ to.old
        ++
        (alter_table style.dialect table.now
        ++ words action
        ++ T.text style.dialect part.now)) }
{
    alter_table(style, to, table)?;
    say(to, action)?;
    part.spell(style, to)
}

/// `ALTER TABLE q ALTER COLUMN q` and what is done.
pub fn alter_at(
    style: Style,
    to: &mut Text,
    table: &Name,
    column: &Name,
    action: Phrase,
) -> Result<(), NoMemory>
    ensures { OnOk result
        (to.new ≡ to.old ++ (alter_column style.dialect table.now column.now ++ words action)) }
{
    alter(style, to, table, Phrase::AlterColumn, column)?;
    say(to, action)
}

/// A column under another name.
pub fn rename_column(
    style: Style,
    to: &mut Text,
    table: &Name,
    column: &Name,
    name: &Name,
) -> Result<(), NoMemory>
    ensures { OnOk result
        (to.new
        ≡ to.old ++ text_of style.dialect (made.RenameColumn table.now column.now name.now)) }
{
    alter(style, to, table, Phrase::RenameColumn, column)?;
    spell_name(style, to, Phrase::To, name)
}

fn null_allowed(nullable: bool) -> Phrase
    ensures { result ≡ null_allowed nullable }
{
    if nullable {
        Phrase::Nullable
    } else {
        Phrase::NotNull
    }
}

/// A column of another kind.
pub fn modify(
    style: Style,
    to: &mut Text,
    table: &Name,
    column: &Name,
    kind: Kind,
    nullable: bool,
) -> Result<(), NoMemory>
    ensures { OnOk result
        (to.new
        ≡ to.old ++ text_of style.dialect (made.Modify table.now column.now kind nullable)) }
{
    alter(style, to, table, Phrase::Modify, column)?;
    say(to, Phrase::Blank)?;
    kind.append_to(style.dialect, to)?;
    say(to, null_allowed(nullable))
}

/// A column with a default.
pub fn set_default(
    style: Style,
    to: &mut Text,
    table: &Name,
    column: &Name,
    value: &Literal,
) -> Result<(), NoMemory>
    ensures { OnOk result
        (to.new
        ≡ to.old ++ text_of style.dialect (made.SetDefault table.now column.now value.now)) }
{
    alter_at(style, to, table, column, Phrase::SetDefault)?;
    value.spell(style, to)
}
