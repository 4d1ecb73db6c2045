ghost use Rattle.std.specs.Prelude.{◌≡◌, IfOk, true};
ghost use Rattle.lq_tree.specs.Look.{Reads};
ghost use Rattle.lq_any.specs.AnyChange.{any_change, is_for};

use crate::named::named;
use lq_base::{Dialect, Items, KindFault, NoMemory};
use lq_columns::{AddDefaultValue, DropColumn, DropDefaultValue};
use lq_data::{Delete, Empty, Insert, Sql, TagDatabase, Update};
use lq_keys::{AddForeignKeyConstraint, CreateIndex, DropForeignKeyConstraint, DropIndex};
use lq_load::LoadData;
use lq_model::{Canon, Change, Look, SqlText, Statement, Undo};
use lq_nullable::{AddNotNullConstraint, DropNotNullConstraint};
use lq_primary_keys::{AddPrimaryKey, DropPrimaryKey};
use lq_rename_column::RenameColumn;
use lq_tables::{AddColumn, CreateTable, DropTable, RenameTable};
use lq_tree::{Node, bad};
use lq_uniques::{AddUniqueConstraint, DropUniqueConstraint};
use lq_views::{CreateSequence, CreateView, DropSequence, DropView, RenameSequence, RenameView};
use std::alloc::Global;

/// A change of any type (Liquibase's documentation, "Change Types").
pub enum AnyChange {
    CreateTable(CreateTable),
    DropTable(DropTable),
    RenameTable(RenameTable),
    AddColumn(AddColumn),
    DropColumn(DropColumn),
    RenameColumn(RenameColumn),
    AddPrimaryKey(AddPrimaryKey),
    DropPrimaryKey(DropPrimaryKey),
    AddForeignKeyConstraint(AddForeignKeyConstraint),
    DropForeignKeyConstraint(DropForeignKeyConstraint),
    AddUniqueConstraint(AddUniqueConstraint),
    DropUniqueConstraint(DropUniqueConstraint),
    AddNotNullConstraint(AddNotNullConstraint),
    DropNotNullConstraint(DropNotNullConstraint),
    AddDefaultValue(AddDefaultValue),
    DropDefaultValue(DropDefaultValue),
    CreateIndex(CreateIndex),
    DropIndex(DropIndex),
    CreateView(CreateView),
    DropView(DropView),
    RenameView(RenameView),
    CreateSequence(CreateSequence),
    DropSequence(DropSequence),
    RenameSequence(RenameSequence),
    Insert(Insert),
    Update(Update),
    Delete(Delete),
    /// Read by a changeset alone, since its file is needed.
    LoadData(LoadData),
    Sql(Sql),
    TagDatabase(TagDatabase),
    Empty(Empty),
}

// Written out, so that crates above call it and need not be proved for each type again.
impl Drop for AnyChange {
    fn drop(self) {
        match self {
            AnyChange::CreateTable(change) => drop(change),
            AnyChange::DropTable(change) => drop(change),
            AnyChange::RenameTable(change) => drop(change),
            AnyChange::AddColumn(change) => drop(change),
            AnyChange::DropColumn(change) => drop(change),
            AnyChange::RenameColumn(change) => drop(change),
            AnyChange::AddPrimaryKey(change) => drop(change),
            AnyChange::DropPrimaryKey(change) => drop(change),
            AnyChange::AddForeignKeyConstraint(change) => drop(change),
            AnyChange::DropForeignKeyConstraint(change) => drop(change),
            AnyChange::AddUniqueConstraint(change) => drop(change),
            AnyChange::DropUniqueConstraint(change) => drop(change),
            AnyChange::AddNotNullConstraint(change) => drop(change),
            AnyChange::DropNotNullConstraint(change) => drop(change),
            AnyChange::AddDefaultValue(change) => drop(change),
            AnyChange::DropDefaultValue(change) => drop(change),
            AnyChange::CreateIndex(change) => drop(change),
            AnyChange::DropIndex(change) => drop(change),
            AnyChange::CreateView(change) => drop(change),
            AnyChange::DropView(change) => drop(change),
            AnyChange::RenameView(change) => drop(change),
            AnyChange::CreateSequence(change) => drop(change),
            AnyChange::DropSequence(change) => drop(change),
            AnyChange::RenameSequence(change) => drop(change),
            AnyChange::Insert(change) => drop(change),
            AnyChange::Update(change) => drop(change),
            AnyChange::Delete(change) => drop(change),
            AnyChange::LoadData(change) => drop(change),
            AnyChange::Sql(change) => drop(change),
            AnyChange::TagDatabase(change) => drop(change),
            AnyChange::Empty(change) => drop(change),
        }
    }
}

impl AnyChange {
    /// The change of a map with one key, the name of its type: another node is `Bad` with the empty
    /// path, and a name of no type is `Unknown`, as is `loadData`, which needs its file. A fault's path
    /// begins with the type's name.
    #[tactic(auto, unfolding(crate::specs::AnyChange::any_change))]
    pub fn read<P: SqlText>(
        alloc: Global,
        node: &Node,
        dialect: Dialect,
        sql: &P,
    ) -> Result<AnyChange, KindFault>
        requires same { P.dialect ≡ dialect }
        ensures read { Reads (any_change dialect node.now) result }
        ensures right { IfOk result (λ x. is_for dialect x ≡ true) }
    {
        match node.as_map() {
            Some([entry]) => named(alloc, entry.0.as_str(), &entry.1, dialect, sql),
            _ => Err(bad(alloc)),
        }
    }
}

impl Change for AnyChange {
    ghost use Rattle.lq_any.specs.AnyChange.{canonical_of, effect, gives, inverse, is_for, is_fresh};
    ghost use Rattle.lq_any.specs.AnyChangeLaws.{does, restores, returned, spelled, told};
    ghost use Rattle.lq_any.specs.declared.any_change.AnyChange.{AnyChange};

    ghost Key = { AnyChange };

    ghost key = { λ change. change };

    ghost is_for = { is_for };

    ghost effect = { effect };

    ghost fresh = { is_fresh };

    ghost gives = { gives };

    ghost inverse = { inverse };

    ghost canonical = { canonical_of };

    fn statements(
        &self,
        alloc: Global,
        dialect: Dialect,
        to: &mut Items<Statement>,
    ) -> Result<(), NoMemory> {
        match self {
            AnyChange::CreateTable(change) => change.statements(alloc, dialect, to),
            AnyChange::DropTable(change) => change.statements(alloc, dialect, to),
            AnyChange::RenameTable(change) => change.statements(alloc, dialect, to),
            AnyChange::AddColumn(change) => change.statements(alloc, dialect, to),
            AnyChange::DropColumn(change) => change.statements(alloc, dialect, to),
            AnyChange::RenameColumn(change) => change.statements(alloc, dialect, to),
            AnyChange::AddPrimaryKey(change) => change.statements(alloc, dialect, to),
            AnyChange::DropPrimaryKey(change) => change.statements(alloc, dialect, to),
            AnyChange::AddForeignKeyConstraint(change) => change.statements(alloc, dialect, to),
            AnyChange::DropForeignKeyConstraint(change) => change.statements(alloc, dialect, to),
            AnyChange::AddUniqueConstraint(change) => change.statements(alloc, dialect, to),
            AnyChange::DropUniqueConstraint(change) => change.statements(alloc, dialect, to),
            AnyChange::AddNotNullConstraint(change) => change.statements(alloc, dialect, to),
            AnyChange::DropNotNullConstraint(change) => change.statements(alloc, dialect, to),
            AnyChange::AddDefaultValue(change) => change.statements(alloc, dialect, to),
            AnyChange::DropDefaultValue(change) => change.statements(alloc, dialect, to),
            AnyChange::CreateIndex(change) => change.statements(alloc, dialect, to),
            AnyChange::DropIndex(change) => change.statements(alloc, dialect, to),
            AnyChange::CreateView(change) => change.statements(alloc, dialect, to),
            AnyChange::DropView(change) => change.statements(alloc, dialect, to),
            AnyChange::RenameView(change) => change.statements(alloc, dialect, to),
            AnyChange::CreateSequence(change) => change.statements(alloc, dialect, to),
            AnyChange::DropSequence(change) => change.statements(alloc, dialect, to),
            AnyChange::RenameSequence(change) => change.statements(alloc, dialect, to),
            AnyChange::Insert(change) => change.statements(alloc, dialect, to),
            AnyChange::Update(change) => change.statements(alloc, dialect, to),
            AnyChange::Delete(change) => change.statements(alloc, dialect, to),
            AnyChange::LoadData(change) => change.statements(alloc, dialect, to),
            AnyChange::Sql(change) => change.statements(alloc, dialect, to),
            AnyChange::TagDatabase(change) => change.statements(alloc, dialect, to),
            AnyChange::Empty(change) => change.statements(alloc, dialect, to),
        }
    }

    fn undo(&self, alloc: Global, dialect: Dialect) -> Result<Undo, NoMemory> {
        match self {
            AnyChange::CreateTable(change) => change.undo(alloc, dialect),
            AnyChange::DropTable(change) => change.undo(alloc, dialect),
            AnyChange::RenameTable(change) => change.undo(alloc, dialect),
            AnyChange::AddColumn(change) => change.undo(alloc, dialect),
            AnyChange::DropColumn(change) => change.undo(alloc, dialect),
            AnyChange::RenameColumn(change) => change.undo(alloc, dialect),
            AnyChange::AddPrimaryKey(change) => change.undo(alloc, dialect),
            AnyChange::DropPrimaryKey(change) => change.undo(alloc, dialect),
            AnyChange::AddForeignKeyConstraint(change) => change.undo(alloc, dialect),
            AnyChange::DropForeignKeyConstraint(change) => change.undo(alloc, dialect),
            AnyChange::AddUniqueConstraint(change) => change.undo(alloc, dialect),
            AnyChange::DropUniqueConstraint(change) => change.undo(alloc, dialect),
            AnyChange::AddNotNullConstraint(change) => change.undo(alloc, dialect),
            AnyChange::DropNotNullConstraint(change) => change.undo(alloc, dialect),
            AnyChange::AddDefaultValue(change) => change.undo(alloc, dialect),
            AnyChange::DropDefaultValue(change) => change.undo(alloc, dialect),
            AnyChange::CreateIndex(change) => change.undo(alloc, dialect),
            AnyChange::DropIndex(change) => change.undo(alloc, dialect),
            AnyChange::CreateView(change) => change.undo(alloc, dialect),
            AnyChange::DropView(change) => change.undo(alloc, dialect),
            AnyChange::RenameView(change) => change.undo(alloc, dialect),
            AnyChange::CreateSequence(change) => change.undo(alloc, dialect),
            AnyChange::DropSequence(change) => change.undo(alloc, dialect),
            AnyChange::RenameSequence(change) => change.undo(alloc, dialect),
            AnyChange::Insert(change) => change.undo(alloc, dialect),
            AnyChange::Update(change) => change.undo(alloc, dialect),
            AnyChange::Delete(change) => change.undo(alloc, dialect),
            AnyChange::LoadData(change) => change.undo(alloc, dialect),
            AnyChange::Sql(change) => change.undo(alloc, dialect),
            AnyChange::TagDatabase(change) => change.undo(alloc, dialect),
            AnyChange::Empty(change) => change.undo(alloc, dialect),
        }
    }

    fn is_fresh<K: Look>(&self, dialect: Dialect, look: &K) -> bool {
        match self {
            AnyChange::CreateTable(change) => change.is_fresh(dialect, look),
            AnyChange::DropTable(change) => change.is_fresh(dialect, look),
            AnyChange::RenameTable(change) => change.is_fresh(dialect, look),
            AnyChange::AddColumn(change) => change.is_fresh(dialect, look),
            AnyChange::DropColumn(change) => change.is_fresh(dialect, look),
            AnyChange::RenameColumn(change) => change.is_fresh(dialect, look),
            AnyChange::AddPrimaryKey(change) => change.is_fresh(dialect, look),
            AnyChange::DropPrimaryKey(change) => change.is_fresh(dialect, look),
            AnyChange::AddForeignKeyConstraint(change) => change.is_fresh(dialect, look),
            AnyChange::DropForeignKeyConstraint(change) => change.is_fresh(dialect, look),
            AnyChange::AddUniqueConstraint(change) => change.is_fresh(dialect, look),
            AnyChange::DropUniqueConstraint(change) => change.is_fresh(dialect, look),
            AnyChange::AddNotNullConstraint(change) => change.is_fresh(dialect, look),
            AnyChange::DropNotNullConstraint(change) => change.is_fresh(dialect, look),
            AnyChange::AddDefaultValue(change) => change.is_fresh(dialect, look),
            AnyChange::DropDefaultValue(change) => change.is_fresh(dialect, look),
            AnyChange::CreateIndex(change) => change.is_fresh(dialect, look),
            AnyChange::DropIndex(change) => change.is_fresh(dialect, look),
            AnyChange::CreateView(change) => change.is_fresh(dialect, look),
            AnyChange::DropView(change) => change.is_fresh(dialect, look),
            AnyChange::RenameView(change) => change.is_fresh(dialect, look),
            AnyChange::CreateSequence(change) => change.is_fresh(dialect, look),
            AnyChange::DropSequence(change) => change.is_fresh(dialect, look),
            AnyChange::RenameSequence(change) => change.is_fresh(dialect, look),
            AnyChange::Insert(change) => change.is_fresh(dialect, look),
            AnyChange::Update(change) => change.is_fresh(dialect, look),
            AnyChange::Delete(change) => change.is_fresh(dialect, look),
            AnyChange::LoadData(change) => change.is_fresh(dialect, look),
            AnyChange::Sql(change) => change.is_fresh(dialect, look),
            AnyChange::TagDatabase(change) => change.is_fresh(dialect, look),
            AnyChange::Empty(change) => change.is_fresh(dialect, look),
        }
    }

    fn canon(&self, to: &mut Canon) -> Result<(), NoMemory> {
        match self {
            AnyChange::CreateTable(change) => change.canon(to),
            AnyChange::DropTable(change) => change.canon(to),
            AnyChange::RenameTable(change) => change.canon(to),
            AnyChange::AddColumn(change) => change.canon(to),
            AnyChange::DropColumn(change) => change.canon(to),
            AnyChange::RenameColumn(change) => change.canon(to),
            AnyChange::AddPrimaryKey(change) => change.canon(to),
            AnyChange::DropPrimaryKey(change) => change.canon(to),
            AnyChange::AddForeignKeyConstraint(change) => change.canon(to),
            AnyChange::DropForeignKeyConstraint(change) => change.canon(to),
            AnyChange::AddUniqueConstraint(change) => change.canon(to),
            AnyChange::DropUniqueConstraint(change) => change.canon(to),
            AnyChange::AddNotNullConstraint(change) => change.canon(to),
            AnyChange::DropNotNullConstraint(change) => change.canon(to),
            AnyChange::AddDefaultValue(change) => change.canon(to),
            AnyChange::DropDefaultValue(change) => change.canon(to),
            AnyChange::CreateIndex(change) => change.canon(to),
            AnyChange::DropIndex(change) => change.canon(to),
            AnyChange::CreateView(change) => change.canon(to),
            AnyChange::DropView(change) => change.canon(to),
            AnyChange::RenameView(change) => change.canon(to),
            AnyChange::CreateSequence(change) => change.canon(to),
            AnyChange::DropSequence(change) => change.canon(to),
            AnyChange::RenameSequence(change) => change.canon(to),
            AnyChange::Insert(change) => change.canon(to),
            AnyChange::Update(change) => change.canon(to),
            AnyChange::Delete(change) => change.canon(to),
            AnyChange::LoadData(change) => change.canon(to),
            AnyChange::Sql(change) => change.canon(to),
            AnyChange::TagDatabase(change) => change.canon(to),
            AnyChange::Empty(change) => change.canon(to),
        }
    }

    ghost spelled = { spelled };

    ghost returned = { returned };

    ghost does = { does };

    ghost restores = { restores };

    ghost told = { told };
}
