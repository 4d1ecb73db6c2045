ghost use Rattle.std.specs.Prelude.{◌≡◌, IfOk, true};
ghost use Rattle.lq_tree.specs.Look.{Reads};
ghost use Rattle.lq_keys.specs.CreateIndex.{create_index, index_of, is_for, name_of};

use crate::index_column::{IndexColumn, names_of};
use lq_base::{Dialect, Duplicate, Items, KindFault, Name, NoMemory};
use lq_drops::index_drop;
use lq_model::{
    Canon, Change, Field, Fields, Index, Look, MapsAt, SqlText, Statement, Undo, index_name,
    name_field, schema_field, truth_field, write_change_of,
};
use lq_tree::{Node, catalogue, in_schema, known, optional, required, required_columns, schema};
use std::alloc::Global;

/// An index is made (Liquibase's documentation, "createIndex").
pub struct CreateIndex {
    pub index_name: Option<Name>,
    pub table_name: Name,
    pub columns: Items<IndexColumn>,
    pub unique: Option<bool>,
}

// Written out, so that each place that lets one go is one call.
impl Drop for CreateIndex {
    fn drop(self) {
        let CreateIndex {
            index_name,
            table_name,
            columns,
            unique: _,
        } = self;
        drop(index_name);
        drop(table_name);
        drop(columns);
    }
}

const KEYS: [&str; 7] = [
    "indexName",
    "tableName",
    "columns",
    "unique",
    "schemaName",
    "catalogName",
    "remarks",
];

impl CreateIndex {
    /// What a node states, or the first fault in the order of the keys.
    #[tactic(auto, unfolding(crate::specs::CreateIndex::create_index))]
    pub fn read<P: SqlText>(
        alloc: Global,
        node: &Node,
        dialect: Dialect,
        _sql: &P,
    ) -> Result<CreateIndex, KindFault>
        ensures read { Reads (create_index dialect node.now) result }
        ensures right { IfOk result (λ x. is_for dialect x ≡ true) }
    {
        known(alloc, node, &KEYS)?;
        let index_name = optional(alloc, node, "indexName")?;
        let table: Name = required(alloc, node, "tableName")?;
        let columns = required_columns(alloc, node, "columns")?;
        let unique = optional(alloc, node, "unique")?;
        let schema = schema(alloc, node, dialect, "schemaName")?;
        catalogue(alloc, node)?;
        let table_name = in_schema(alloc, dialect, &schema, &table)?;
        Ok(CreateIndex {
            index_name,
            table_name,
            columns,
            unique,
        })
    }

    fn name(&self, alloc: Global) -> Result<Name, NoMemory>
        ensures { IfOk result (λ name. name ≡ name_of self.now) }
    {
        match &self.index_name {
            Some(name) => name.duplicate(alloc),
            None => {
                let columns = names_of(alloc, self.columns.as_slice())?;
                index_name(alloc, &self.table_name, columns.as_slice())
            }
        }
    }

    fn index(&self, alloc: Global) -> Result<Index, NoMemory>
        ensures { IfOk result (λ index. index ≡ index_of self.now) }
    {
        Ok(Index {
            name: self.name(alloc)?,
            columns: names_of(alloc, self.columns.as_slice())?,
            unique: self.unique.unwrap_or(false),
        })
    }
}

impl Change for CreateIndex {
    ghost use Rattle.lq_keys.specs.CreateIndex.{canonical_of, effect, gives, inverse, is_for, is_fresh, does, restores, returned, spelled, told};
    ghost use Rattle.lq_keys.specs.declared.create_index.CreateIndex.{CreateIndex};

    ghost Key = { CreateIndex };

    ghost key = { λ change. change };

    ghost is_for = { is_for };

    ghost effect = { effect };

    ghost fresh = { is_fresh };

    ghost gives = { gives };

    ghost inverse = { inverse };

    ghost canonical = { canonical_of };

    fn statements(
        &self,
        alloc: Global,
        _dialect: Dialect,
        to: &mut Items<Statement>,
    ) -> Result<(), NoMemory> {
        to.push(Statement::CreateIndex {
            table: self.table_name.duplicate(alloc)?,
            index: self.index(alloc)?,
        })?;
        Ok(())
    }

    fn undo(&self, alloc: Global, dialect: Dialect) -> Result<Undo, NoMemory> {
        let name = self.name(alloc)?;
        let mut statements = Items::new(alloc);
        statements.push(index_drop(alloc, dialect, &name, &self.table_name)?)?;
        Ok(Undo::Generated(statements))
    }

    fn is_fresh<K: Look>(&self, _dialect: Dialect, _look: &K) -> bool {
        true
    }

    fn canon(&self, to: &mut Canon) -> Result<(), NoMemory> {
        let names = [
            ("indexName", name_field(&self.index_name)),
            ("tableName", Some(Field::Text(self.table_name.text()))),
        ];
        let columns = MapsAt {
            key: "columns",
            maps: self.columns.as_slice(),
        };
        let last = [
            ("unique", truth_field(self.unique)),
            ("schemaName", schema_field(&self.table_name)),
        ];
        write_change_of(to, "createIndex", &(Fields(&names), columns, Fields(&last)))
    }

    ghost spelled = { spelled };

    ghost returned = { returned };

    ghost does = { does };

    ghost restores = { restores };

    ghost told = { told };
}
