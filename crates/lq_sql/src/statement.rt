ghost use Rattle.lq_model.specs.StatementText.{text_of};

use crate::alteration::{alter, alter_at, alter_by, modify, rename_column, set_default};
use crate::name::spell_name;
use crate::object::{create_index, create_sequence, create_view, drop_index, rename};
use crate::rows::{delete, insert, update};
use crate::spell::{Spell, Style};
use crate::table::{create_table, rename_table};
use lq_base::{NoMemory, Text};
use lq_model::Phrase::{
    Add, AddColumn, AlterSequence, AlterView, DropColumn, DropConstraint, DropDefault,
    DropForeignKey, DropNotNull, DropPrimaryKey, DropSequence, DropTable, DropUnique, DropView,
    SetNotNull,
};
use lq_model::Statement;

impl Spell for Statement {
    ghost text = { text_of };

    fn spell(&self, style: Style, to: &mut Text) -> Result<(), NoMemory> {
        match self {
            Self::CreateTable {
                table,
                columns,
                key,
                uniques,
                foreign,
            } => create_table(style, to, table, columns, key, uniques, foreign),
            Self::DropTable { table } => spell_name(style, to, DropTable, table),
            Self::RenameTable { table, to: new } => rename_table(style, to, table, new),
            Self::AddColumn { table, column } => alter(style, to, table, AddColumn, column),
            Self::DropColumn { table, column } => alter(style, to, table, DropColumn, column),
            Self::RenameColumn {
                table,
                column,
                to: new,
            } => rename_column(style, to, table, column, new),
            Self::SetNotNull { table, column } => alter_at(style, to, table, column, SetNotNull),
            Self::DropNotNull { table, column } => alter_at(style, to, table, column, DropNotNull),
            Self::Modify {
                table,
                column,
                kind,
                nullable,
            } => modify(style, to, table, column, *kind, *nullable),
            Self::SetDefault {
                table,
                column,
                value,
            } => set_default(style, to, table, column, value),
            Self::DropDefault { table, column } => alter_at(style, to, table, column, DropDefault),
            Self::AddPrimaryKey { table, key } => alter(style, to, table, Add, key),
            Self::AddUnique { table, unique } => alter(style, to, table, Add, unique),
            Self::AddForeignKey { table, foreign } => alter(style, to, table, Add, foreign),
            Self::DropConstraint { table, name } => alter(style, to, table, DropConstraint, name),
            Self::DropPrimaryKey { table } => alter_by(style, to, table, DropPrimaryKey),
            Self::DropUnique { table, name } => alter(style, to, table, DropUnique, name),
            Self::DropForeignKey { table, name } => alter(style, to, table, DropForeignKey, name),
            Self::CreateIndex { table, index } => create_index(style, to, table, index),
            Self::DropIndex { name, table } => drop_index(style, to, name, table),
            Self::CreateView {
                view,
                query,
                replace,
            } => create_view(style, to, view, query, *replace),
            Self::DropView { view } => spell_name(style, to, DropView, view),
            Self::RenameView { view, to: new } => rename(style, to, AlterView, view, new),
            Self::CreateSequence { name, start, step } => create_sequence(
                style, to, name, *start, *step,
            ),
            Self::DropSequence { name } => spell_name(style, to, DropSequence, name),
            Self::RenameSequence { name, to: new } => rename(style, to, AlterSequence, name, new),
            Self::Insert {
                table,
                columns,
                values,
            } => insert(style, to, table, columns, values),
            Self::Update { table, sets, test } => update(style, to, table, sets, test),
            Self::Delete { table, test } => delete(style, to, table, test),
        }
    }
}
