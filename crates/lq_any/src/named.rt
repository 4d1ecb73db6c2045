ghost use Rattle.std.specs.Prelude.{◌≡◌, IfOk, codes, true};
ghost use Rattle.lq_tree.specs.Look.{Reads, map_found, within};
ghost use Rattle.lq_any.specs.AnyChange.{is_for, named, named_key, named_other};
ghost use Rattle.lq_any.specs.declared.any_change.AnyChange.TheVariants as any;
ghost use Rattle.lq_columns.specs.AddDefaultValue as add_default_value;
ghost use Rattle.lq_nullable.specs.AddNotNull as add_not_null;
ghost use Rattle.lq_columns.specs.DropColumn as drop_column;
ghost use Rattle.lq_columns.specs.DropDefaultValue as drop_default_value;
ghost use Rattle.lq_nullable.specs.DropNotNull as drop_not_null;
ghost use Rattle.lq_rename_column.specs.RenameColumn as rename_column;
ghost use Rattle.lq_data.specs.Delete as delete;
ghost use Rattle.lq_data.specs.Empty as empty;
ghost use Rattle.lq_data.specs.Insert as insert;
ghost use Rattle.lq_data.specs.Sql as sql_text;
ghost use Rattle.lq_data.specs.TagDatabase as tag_database;
ghost use Rattle.lq_data.specs.Update as update;
ghost use Rattle.lq_keys.specs.AddForeignKey as add_foreign_key;
ghost use Rattle.lq_primary_keys.specs.AddPrimaryKey as add_primary_key;
ghost use Rattle.lq_uniques.specs.AddUnique as add_unique;
ghost use Rattle.lq_keys.specs.CreateIndex as create_index;
ghost use Rattle.lq_keys.specs.DropForeignKey as drop_foreign_key;
ghost use Rattle.lq_keys.specs.DropIndex as drop_index;
ghost use Rattle.lq_primary_keys.specs.DropPrimaryKey as drop_primary_key;
ghost use Rattle.lq_uniques.specs.DropUnique as drop_unique;
ghost use Rattle.lq_tables.specs.AddColumn as add_column;
ghost use Rattle.lq_tables.specs.CreateTable as create_table;
ghost use Rattle.lq_tables.specs.DropTable as drop_table;
ghost use Rattle.lq_tables.specs.RenameTable as rename_table;
ghost use Rattle.lq_views.specs.CreateSequence as create_sequence;
ghost use Rattle.lq_views.specs.CreateView as create_view;
ghost use Rattle.lq_views.specs.DropSequence as drop_sequence;
ghost use Rattle.lq_views.specs.DropView as drop_view;
ghost use Rattle.lq_views.specs.RenameSequence as rename_sequence;
ghost use Rattle.lq_views.specs.RenameView as rename_view;

use crate::any_change::AnyChange;
use lq_base::{Dialect, KindFault};
use lq_columns::{AddDefaultValue, DropColumn, DropDefaultValue};
use lq_data::{Delete, Empty, Insert, Sql, TagDatabase, Update};
use lq_keys::{AddForeignKeyConstraint, CreateIndex, DropForeignKeyConstraint, DropIndex};
use lq_model::SqlText;
use lq_nullable::{AddNotNullConstraint, DropNotNullConstraint};
use lq_primary_keys::{AddPrimaryKey, DropPrimaryKey};
use lq_rename_column::RenameColumn;
use lq_tables::{AddColumn, CreateTable, DropTable, RenameTable};
use lq_tree::{Node, placed, unknown};
use lq_uniques::{AddUniqueConstraint, DropUniqueConstraint};
use lq_views::{CreateSequence, CreateView, DropSequence, DropView, RenameSequence, RenameView};
use std::alloc::Global;

fn create_table<P: SqlText>(
    alloc: Global,
    node: &Node,
    dialect: Dialect,
    sql: &P,
) -> Result<AnyChange, KindFault>
    ensures read { Reads
        (within (codes "createTable")
        (map_found (λ x. any.CreateTable x) (create_table.create_table dialect node.now))) result }
    ensures right { IfOk result (λ x. is_for dialect x ≡ true) }
{
    match CreateTable::read(alloc, node, dialect, sql) {
        Ok(change) => Ok(AnyChange::CreateTable(change)),
        Err(fault) => Err(placed(alloc, "createTable", fault)),
    }
}

fn drop_table<P: SqlText>(
    alloc: Global,
    node: &Node,
    dialect: Dialect,
    sql: &P,
) -> Result<AnyChange, KindFault>
    ensures read { Reads
        (within (codes "dropTable")
        (map_found (λ x. any.DropTable x) (drop_table.drop_table dialect node.now))) result }
    ensures right { IfOk result (λ x. is_for dialect x ≡ true) }
{
    match DropTable::read(alloc, node, dialect, sql) {
        Ok(change) => Ok(AnyChange::DropTable(change)),
        Err(fault) => Err(placed(alloc, "dropTable", fault)),
    }
}

fn rename_table<P: SqlText>(
    alloc: Global,
    node: &Node,
    dialect: Dialect,
    sql: &P,
) -> Result<AnyChange, KindFault>
    ensures read { Reads
        (within (codes "renameTable")
        (map_found (λ x. any.RenameTable x) (rename_table.rename_table dialect node.now))) result }
    ensures right { IfOk result (λ x. is_for dialect x ≡ true) }
{
    match RenameTable::read(alloc, node, dialect, sql) {
        Ok(change) => Ok(AnyChange::RenameTable(change)),
        Err(fault) => Err(placed(alloc, "renameTable", fault)),
    }
}

fn add_column<P: SqlText>(
    alloc: Global,
    node: &Node,
    dialect: Dialect,
    sql: &P,
) -> Result<AnyChange, KindFault>
    ensures read { Reads
        (within (codes "addColumn")
        (map_found (λ x. any.AddColumn x) (add_column.add_column dialect node.now))) result }
    ensures right { IfOk result (λ x. is_for dialect x ≡ true) }
{
    match AddColumn::read(alloc, node, dialect, sql) {
        Ok(change) => Ok(AnyChange::AddColumn(change)),
        Err(fault) => Err(placed(alloc, "addColumn", fault)),
    }
}

fn drop_column<P: SqlText>(
    alloc: Global,
    node: &Node,
    dialect: Dialect,
    sql: &P,
) -> Result<AnyChange, KindFault>
    ensures read { Reads
        (within (codes "dropColumn")
        (map_found (λ x. any.DropColumn x) (drop_column.drop_column dialect node.now))) result }
    ensures right { IfOk result (λ x. is_for dialect x ≡ true) }
{
    match DropColumn::read(alloc, node, dialect, sql) {
        Ok(change) => Ok(AnyChange::DropColumn(change)),
        Err(fault) => Err(placed(alloc, "dropColumn", fault)),
    }
}

fn rename_column<P: SqlText>(
    alloc: Global,
    node: &Node,
    dialect: Dialect,
    sql: &P,
) -> Result<AnyChange, KindFault>
    ensures read { Reads
        (within (codes "renameColumn")
        (map_found (λ x. any.RenameColumn x) (rename_column.rename_column dialect node.now)))
        result }
    ensures right { IfOk result (λ x. is_for dialect x ≡ true) }
{
    match RenameColumn::read(alloc, node, dialect, sql) {
        Ok(change) => Ok(AnyChange::RenameColumn(change)),
        Err(fault) => Err(placed(alloc, "renameColumn", fault)),
    }
}

fn add_primary_key<P: SqlText>(
    alloc: Global,
    node: &Node,
    dialect: Dialect,
    sql: &P,
) -> Result<AnyChange, KindFault>
    ensures read { Reads
        (within (codes "addPrimaryKey")
        (map_found (λ x. any.AddPrimaryKey x) (add_primary_key.add_primary_key dialect node.now)))
        result }
    ensures right { IfOk result (λ x. is_for dialect x ≡ true) }
{
    match AddPrimaryKey::read(alloc, node, dialect, sql) {
        Ok(change) => Ok(AnyChange::AddPrimaryKey(change)),
        Err(fault) => Err(placed(alloc, "addPrimaryKey", fault)),
    }
}

fn drop_primary_key<P: SqlText>(
    alloc: Global,
    node: &Node,
    dialect: Dialect,
    sql: &P,
) -> Result<AnyChange, KindFault>
    ensures read { Reads
        (within (codes "dropPrimaryKey")
        (map_found (λ x. any.DropPrimaryKey x)
        (drop_primary_key.drop_primary_key dialect node.now))) result }
    ensures right { IfOk result (λ x. is_for dialect x ≡ true) }
{
    match DropPrimaryKey::read(alloc, node, dialect, sql) {
        Ok(change) => Ok(AnyChange::DropPrimaryKey(change)),
        Err(fault) => Err(placed(alloc, "dropPrimaryKey", fault)),
    }
}

fn add_foreign_key<P: SqlText>(
    alloc: Global,
    node: &Node,
    dialect: Dialect,
    sql: &P,
) -> Result<AnyChange, KindFault>
    ensures read { Reads
        (within (codes "addForeignKeyConstraint")
        (map_found (λ x. any.AddForeignKeyConstraint x)
        (add_foreign_key.add_foreign_key dialect node.now))) result }
    ensures right { IfOk result (λ x. is_for dialect x ≡ true) }
{
    match AddForeignKeyConstraint::read(alloc, node, dialect, sql) {
        Ok(change) => Ok(AnyChange::AddForeignKeyConstraint(change)),
        Err(fault) => Err(placed(alloc, "addForeignKeyConstraint", fault)),
    }
}

fn drop_foreign_key<P: SqlText>(
    alloc: Global,
    node: &Node,
    dialect: Dialect,
    sql: &P,
) -> Result<AnyChange, KindFault>
    ensures read { Reads
        (within (codes "dropForeignKeyConstraint")
        (map_found (λ x. any.DropForeignKeyConstraint x)
        (drop_foreign_key.drop_foreign_key dialect node.now))) result }
    ensures right { IfOk result (λ x. is_for dialect x ≡ true) }
{
    match DropForeignKeyConstraint::read(alloc, node, dialect, sql) {
        Ok(change) => Ok(AnyChange::DropForeignKeyConstraint(change)),
        Err(fault) => Err(placed(alloc, "dropForeignKeyConstraint", fault)),
    }
}

fn add_unique<P: SqlText>(
    alloc: Global,
    node: &Node,
    dialect: Dialect,
    sql: &P,
) -> Result<AnyChange, KindFault>
    ensures read { Reads
        (within (codes "addUniqueConstraint")
        (map_found (λ x. any.AddUniqueConstraint x) (add_unique.add_unique dialect node.now)))
        result }
    ensures right { IfOk result (λ x. is_for dialect x ≡ true) }
{
    match AddUniqueConstraint::read(alloc, node, dialect, sql) {
        Ok(change) => Ok(AnyChange::AddUniqueConstraint(change)),
        Err(fault) => Err(placed(alloc, "addUniqueConstraint", fault)),
    }
}

fn drop_unique<P: SqlText>(
    alloc: Global,
    node: &Node,
    dialect: Dialect,
    sql: &P,
) -> Result<AnyChange, KindFault>
    ensures read { Reads
        (within (codes "dropUniqueConstraint")
        (map_found (λ x. any.DropUniqueConstraint x) (drop_unique.drop_unique dialect node.now)))
        result }
    ensures right { IfOk result (λ x. is_for dialect x ≡ true) }
{
    match DropUniqueConstraint::read(alloc, node, dialect, sql) {
        Ok(change) => Ok(AnyChange::DropUniqueConstraint(change)),
        Err(fault) => Err(placed(alloc, "dropUniqueConstraint", fault)),
    }
}

fn add_not_null<P: SqlText>(
    alloc: Global,
    node: &Node,
    dialect: Dialect,
    sql: &P,
) -> Result<AnyChange, KindFault>
    ensures read { Reads
        (within (codes "addNotNullConstraint")
        (map_found (λ x. any.AddNotNullConstraint x)
        (add_not_null.add_not_null dialect node.now))) result }
    ensures right { IfOk result (λ x. is_for dialect x ≡ true) }
{
    match AddNotNullConstraint::read(alloc, node, dialect, sql) {
        Ok(change) => Ok(AnyChange::AddNotNullConstraint(change)),
        Err(fault) => Err(placed(alloc, "addNotNullConstraint", fault)),
    }
}

fn drop_not_null<P: SqlText>(
    alloc: Global,
    node: &Node,
    dialect: Dialect,
    sql: &P,
) -> Result<AnyChange, KindFault>
    ensures read { Reads
        (within (codes "dropNotNullConstraint")
        (map_found (λ x. any.DropNotNullConstraint x)
        (drop_not_null.drop_not_null dialect node.now))) result }
    ensures right { IfOk result (λ x. is_for dialect x ≡ true) }
{
    match DropNotNullConstraint::read(alloc, node, dialect, sql) {
        Ok(change) => Ok(AnyChange::DropNotNullConstraint(change)),
        Err(fault) => Err(placed(alloc, "dropNotNullConstraint", fault)),
    }
}

fn add_default_value<P: SqlText>(
    alloc: Global,
    node: &Node,
    dialect: Dialect,
    sql: &P,
) -> Result<AnyChange, KindFault>
    ensures read { Reads
        (within (codes "addDefaultValue")
        (map_found (λ x. any.AddDefaultValue x)
        (add_default_value.add_default_value dialect node.now))) result }
    ensures right { IfOk result (λ x. is_for dialect x ≡ true) }
{
    match AddDefaultValue::read(alloc, node, dialect, sql) {
        Ok(change) => Ok(AnyChange::AddDefaultValue(change)),
        Err(fault) => Err(placed(alloc, "addDefaultValue", fault)),
    }
}

fn drop_default_value<P: SqlText>(
    alloc: Global,
    node: &Node,
    dialect: Dialect,
    sql: &P,
) -> Result<AnyChange, KindFault>
    ensures read { Reads
        (within (codes "dropDefaultValue")
        (map_found (λ x. any.DropDefaultValue x)
        (drop_default_value.drop_default_value dialect node.now))) result }
    ensures right { IfOk result (λ x. is_for dialect x ≡ true) }
{
    match DropDefaultValue::read(alloc, node, dialect, sql) {
        Ok(change) => Ok(AnyChange::DropDefaultValue(change)),
        Err(fault) => Err(placed(alloc, "dropDefaultValue", fault)),
    }
}

fn create_index<P: SqlText>(
    alloc: Global,
    node: &Node,
    dialect: Dialect,
    sql: &P,
) -> Result<AnyChange, KindFault>
    ensures read { Reads
        (within (codes "createIndex")
        (map_found (λ x. any.CreateIndex x) (create_index.create_index dialect node.now))) result }
    ensures right { IfOk result (λ x. is_for dialect x ≡ true) }
{
    match CreateIndex::read(alloc, node, dialect, sql) {
        Ok(change) => Ok(AnyChange::CreateIndex(change)),
        Err(fault) => Err(placed(alloc, "createIndex", fault)),
    }
}

fn drop_index<P: SqlText>(
    alloc: Global,
    node: &Node,
    dialect: Dialect,
    sql: &P,
) -> Result<AnyChange, KindFault>
    ensures read { Reads
        (within (codes "dropIndex")
        (map_found (λ x. any.DropIndex x) (drop_index.drop_index dialect node.now))) result }
    ensures right { IfOk result (λ x. is_for dialect x ≡ true) }
{
    match DropIndex::read(alloc, node, dialect, sql) {
        Ok(change) => Ok(AnyChange::DropIndex(change)),
        Err(fault) => Err(placed(alloc, "dropIndex", fault)),
    }
}

fn create_view<P: SqlText>(
    alloc: Global,
    node: &Node,
    dialect: Dialect,
    sql: &P,
) -> Result<AnyChange, KindFault>
    requires same { P.dialect ≡ dialect }
    ensures read { Reads
        (within (codes "createView")
        (map_found (λ x. any.CreateView x) (create_view.create_view dialect node.now))) result }
    ensures right { IfOk result (λ x. is_for dialect x ≡ true) }
{
    match CreateView::read(alloc, node, dialect, sql) {
        Ok(change) => Ok(AnyChange::CreateView(change)),
        Err(fault) => Err(placed(alloc, "createView", fault)),
    }
}

fn drop_view<P: SqlText>(
    alloc: Global,
    node: &Node,
    dialect: Dialect,
    sql: &P,
) -> Result<AnyChange, KindFault>
    ensures read { Reads
        (within (codes "dropView") (map_found (λ x. any.DropView x)
        (drop_view.drop_view node.now)))
        result }
    ensures right { IfOk result (λ x. is_for dialect x ≡ true) }
{
    match DropView::read(alloc, node, dialect, sql) {
        Ok(change) => Ok(AnyChange::DropView(change)),
        Err(fault) => Err(placed(alloc, "dropView", fault)),
    }
}

fn rename_view<P: SqlText>(
    alloc: Global,
    node: &Node,
    dialect: Dialect,
    sql: &P,
) -> Result<AnyChange, KindFault>
    ensures read { Reads
        (within (codes "renameView")
        (map_found (λ x. any.RenameView x) (rename_view.rename_view node.now))) result }
    ensures right { IfOk result (λ x. is_for dialect x ≡ true) }
{
    match RenameView::read(alloc, node, dialect, sql) {
        Ok(change) => Ok(AnyChange::RenameView(change)),
        Err(fault) => Err(placed(alloc, "renameView", fault)),
    }
}

fn create_sequence<P: SqlText>(
    alloc: Global,
    node: &Node,
    dialect: Dialect,
    sql: &P,
) -> Result<AnyChange, KindFault>
    ensures read { Reads
        (within (codes "createSequence")
        (map_found (λ x. any.CreateSequence x)
        (create_sequence.create_sequence dialect node.now))) result }
    ensures right { IfOk result (λ x. is_for dialect x ≡ true) }
{
    match CreateSequence::read(alloc, node, dialect, sql) {
        Ok(change) => Ok(AnyChange::CreateSequence(change)),
        Err(fault) => Err(placed(alloc, "createSequence", fault)),
    }
}

fn drop_sequence<P: SqlText>(
    alloc: Global,
    node: &Node,
    dialect: Dialect,
    sql: &P,
) -> Result<AnyChange, KindFault>
    ensures read { Reads
        (within (codes "dropSequence")
        (map_found (λ x. any.DropSequence x) (drop_sequence.drop_sequence dialect node.now)))
        result }
    ensures right { IfOk result (λ x. is_for dialect x ≡ true) }
{
    match DropSequence::read(alloc, node, dialect, sql) {
        Ok(change) => Ok(AnyChange::DropSequence(change)),
        Err(fault) => Err(placed(alloc, "dropSequence", fault)),
    }
}

fn rename_sequence<P: SqlText>(
    alloc: Global,
    node: &Node,
    dialect: Dialect,
    sql: &P,
) -> Result<AnyChange, KindFault>
    ensures read { Reads
        (within (codes "renameSequence")
        (map_found (λ x. any.RenameSequence x)
        (rename_sequence.rename_sequence dialect node.now))) result }
    ensures right { IfOk result (λ x. is_for dialect x ≡ true) }
{
    match RenameSequence::read(alloc, node, dialect, sql) {
        Ok(change) => Ok(AnyChange::RenameSequence(change)),
        Err(fault) => Err(placed(alloc, "renameSequence", fault)),
    }
}

fn insert<P: SqlText>(
    alloc: Global,
    node: &Node,
    dialect: Dialect,
    sql: &P,
) -> Result<AnyChange, KindFault>
    ensures read { Reads
        (within (codes "insert") (map_found (λ x. any.Insert x) (insert.an_insert node.now)))
        result }
    ensures right { IfOk result (λ x. is_for dialect x ≡ true) }
{
    match Insert::read(alloc, node, dialect, sql) {
        Ok(change) => Ok(AnyChange::Insert(change)),
        Err(fault) => Err(placed(alloc, "insert", fault)),
    }
}

fn update<P: SqlText>(
    alloc: Global,
    node: &Node,
    dialect: Dialect,
    sql: &P,
) -> Result<AnyChange, KindFault>
    requires same { P.dialect ≡ dialect }
    ensures read { Reads
        (within (codes "update")
        (map_found (λ x. any.Update x) (update.an_update dialect node.now))) result }
    ensures right { IfOk result (λ x. is_for dialect x ≡ true) }
{
    match Update::read(alloc, node, dialect, sql) {
        Ok(change) => Ok(AnyChange::Update(change)),
        Err(fault) => Err(placed(alloc, "update", fault)),
    }
}

fn delete<P: SqlText>(
    alloc: Global,
    node: &Node,
    dialect: Dialect,
    sql: &P,
) -> Result<AnyChange, KindFault>
    requires same { P.dialect ≡ dialect }
    ensures read { Reads
        (within (codes "delete") (map_found (λ x. any.Delete x)
        (delete.a_delete dialect node.now)))
        result }
    ensures right { IfOk result (λ x. is_for dialect x ≡ true) }
{
    match Delete::read(alloc, node, dialect, sql) {
        Ok(change) => Ok(AnyChange::Delete(change)),
        Err(fault) => Err(placed(alloc, "delete", fault)),
    }
}

fn sql_text<P: SqlText>(
    alloc: Global,
    node: &Node,
    dialect: Dialect,
    sql: &P,
) -> Result<AnyChange, KindFault>
    requires same { P.dialect ≡ dialect }
    ensures read { Reads
        (within (codes "sql") (map_found (λ x. any.Sql x) (sql_text.a_sql dialect node.now)))
        result }
    ensures right { IfOk result (λ x. is_for dialect x ≡ true) }
{
    match Sql::read(alloc, node, dialect, sql) {
        Ok(change) => Ok(AnyChange::Sql(change)),
        Err(fault) => Err(placed(alloc, "sql", fault)),
    }
}

fn tag_database<P: SqlText>(
    alloc: Global,
    node: &Node,
    dialect: Dialect,
    sql: &P,
) -> Result<AnyChange, KindFault>
    ensures read { Reads
        (within (codes "tagDatabase")
        (map_found (λ x. any.TagDatabase x) (tag_database.a_tag_database node.now))) result }
    ensures right { IfOk result (λ x. is_for dialect x ≡ true) }
{
    match TagDatabase::read(alloc, node, dialect, sql) {
        Ok(change) => Ok(AnyChange::TagDatabase(change)),
        Err(fault) => Err(placed(alloc, "tagDatabase", fault)),
    }
}

fn empty<P: SqlText>(
    alloc: Global,
    node: &Node,
    dialect: Dialect,
    sql: &P,
) -> Result<AnyChange, KindFault>
    ensures read { Reads
        (within (codes "empty") (map_found (λ x. any.Empty x) (empty.an_empty node.now))) result }
    ensures right { IfOk result (λ x. is_for dialect x ≡ true) }
{
    match Empty::read(alloc, node, dialect, sql) {
        Ok(change) => Ok(AnyChange::Empty(change)),
        Err(fault) => Err(placed(alloc, "empty", fault)),
    }
}

#[tactic(auto, unfolding(crate::specs::AnyChange::named_other))]
fn named_other<P: SqlText>(
    alloc: Global,
    name: &str,
    node: &Node,
    dialect: Dialect,
    sql: &P,
) -> Result<AnyChange, KindFault>
    requires same { P.dialect ≡ dialect }
    ensures read { Reads (named_other dialect name.now node.now) result }
    ensures right { IfOk result (λ x. is_for dialect x ≡ true) }
{
    match name {
        "createView" => create_view(alloc, node, dialect, sql),
        "dropView" => drop_view(alloc, node, dialect, sql),
        "renameView" => rename_view(alloc, node, dialect, sql),
        "createSequence" => create_sequence(alloc, node, dialect, sql),
        "dropSequence" => drop_sequence(alloc, node, dialect, sql),
        "renameSequence" => rename_sequence(alloc, node, dialect, sql),
        "insert" => insert(alloc, node, dialect, sql),
        "update" => update(alloc, node, dialect, sql),
        "delete" => delete(alloc, node, dialect, sql),
        "sql" => sql_text(alloc, node, dialect, sql),
        "tagDatabase" => tag_database(alloc, node, dialect, sql),
        "empty" => empty(alloc, node, dialect, sql),
        _ => Err(unknown(alloc, name)),
    }
}

#[tactic(auto, unfolding(crate::specs::AnyChange::named_key))]
fn named_key<P: SqlText>(
    alloc: Global,
    name: &str,
    node: &Node,
    dialect: Dialect,
    sql: &P,
) -> Result<AnyChange, KindFault>
    requires same { P.dialect ≡ dialect }
    ensures read { Reads (named_key dialect name.now node.now) result }
    ensures right { IfOk result (λ x. is_for dialect x ≡ true) }
{
    match name {
        "addPrimaryKey" => add_primary_key(alloc, node, dialect, sql),
        "dropPrimaryKey" => drop_primary_key(alloc, node, dialect, sql),
        "addForeignKeyConstraint" => add_foreign_key(alloc, node, dialect, sql),
        "dropForeignKeyConstraint" => drop_foreign_key(alloc, node, dialect, sql),
        "addUniqueConstraint" => add_unique(alloc, node, dialect, sql),
        "dropUniqueConstraint" => drop_unique(alloc, node, dialect, sql),
        "createIndex" => create_index(alloc, node, dialect, sql),
        "dropIndex" => drop_index(alloc, node, dialect, sql),
        _ => named_other(alloc, name, node, dialect, sql),
    }
}

/// The change of the type of a name.
#[tactic(auto, unfolding(crate::specs::AnyChange::named))]
pub fn named<P: SqlText>(
    alloc: Global,
    name: &str,
    node: &Node,
    dialect: Dialect,
    sql: &P,
) -> Result<AnyChange, KindFault>
    requires same { P.dialect ≡ dialect }
    ensures read { Reads (named dialect name.now node.now) result }
    ensures right { IfOk result (λ x. is_for dialect x ≡ true) }
{
    match name {
        "createTable" => create_table(alloc, node, dialect, sql),
        "dropTable" => drop_table(alloc, node, dialect, sql),
        "renameTable" => rename_table(alloc, node, dialect, sql),
        "addColumn" => add_column(alloc, node, dialect, sql),
        "dropColumn" => drop_column(alloc, node, dialect, sql),
        "renameColumn" => rename_column(alloc, node, dialect, sql),
        "addNotNullConstraint" => add_not_null(alloc, node, dialect, sql),
        "dropNotNullConstraint" => drop_not_null(alloc, node, dialect, sql),
        "addDefaultValue" => add_default_value(alloc, node, dialect, sql),
        "dropDefaultValue" => drop_default_value(alloc, node, dialect, sql),
        _ => named_key(alloc, name, node, dialect, sql),
    }
}
