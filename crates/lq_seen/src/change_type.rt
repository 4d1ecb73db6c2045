ghost use Rattle.std.specs.Prelude.{◌≡◌};
ghost use Rattle.lq_seen.specs.View.{type_name};

use lq_kinds::AnyChange;

/// The name of the change's type, as changelogs spell it.
pub fn type_name(change: &AnyChange) -> &'static str
    ensures { result.now ≡ type_name change.now }
{
    match change {
        AnyChange::CreateTable(_) => "createTable",
        AnyChange::DropTable(_) => "dropTable",
        AnyChange::RenameTable(_) => "renameTable",
        AnyChange::AddColumn(_) => "addColumn",
        AnyChange::DropColumn(_) => "dropColumn",
        AnyChange::RenameColumn(_) => "renameColumn",
        AnyChange::AddPrimaryKey(_) => "addPrimaryKey",
        AnyChange::DropPrimaryKey(_) => "dropPrimaryKey",
        AnyChange::AddForeignKeyConstraint(_) => "addForeignKeyConstraint",
        AnyChange::DropForeignKeyConstraint(_) => "dropForeignKeyConstraint",
        AnyChange::AddUniqueConstraint(_) => "addUniqueConstraint",
        AnyChange::DropUniqueConstraint(_) => "dropUniqueConstraint",
        AnyChange::AddNotNullConstraint(_) => "addNotNullConstraint",
        AnyChange::DropNotNullConstraint(_) => "dropNotNullConstraint",
        AnyChange::AddDefaultValue(_) => "addDefaultValue",
        AnyChange::DropDefaultValue(_) => "dropDefaultValue",
        AnyChange::CreateIndex(_) => "createIndex",
        AnyChange::DropIndex(_) => "dropIndex",
        AnyChange::CreateView(_) => "createView",
        AnyChange::DropView(_) => "dropView",
        AnyChange::RenameView(_) => "renameView",
        AnyChange::CreateSequence(_) => "createSequence",
        AnyChange::DropSequence(_) => "dropSequence",
        AnyChange::RenameSequence(_) => "renameSequence",
        AnyChange::Insert(_) => "insert",
        AnyChange::Update(_) => "update",
        AnyChange::Delete(_) => "delete",
        AnyChange::LoadData(_) => "loadData",
        AnyChange::Sql(_) => "sql",
        AnyChange::TagDatabase(_) => "tagDatabase",
        AnyChange::Empty(_) => "empty",
    }
}
