ghost use Rattle.std.specs.Prelude.{◌≡◌, IfOk, true};
ghost use Rattle.lq_tree.specs.Look.{Reads};
ghost use Rattle.lq_keys.specs.DropIndex.{drop_index, is_for};

use lq_base::{Dialect, Items, KindFault, Name, NoMemory};
use lq_drops::index_drop;
use lq_model::{Canon, Change, Field, Look, SqlText, Statement, Undo, schema_field, write_change};
use lq_tree::{Node, catalogue, in_schema, known, required, schema};
use std::alloc::Global;

/// An index is dropped (Liquibase's documentation, "dropIndex").
#[derive(Drop)]
pub struct DropIndex {
    pub index_name: Name,
    /// Without effect under PostgreSQL, where an index is found by its name.
    pub table_name: Name,
}

const KEYS: [&str; 5] = [
    "indexName",
    "tableName",
    "schemaName",
    "catalogName",
    "remarks",
];

impl DropIndex {
    /// What a node states, or the first fault in the order of the keys.
    #[tactic(auto, unfolding(crate::specs::DropIndex::drop_index))]
    pub fn read<P: SqlText>(
        alloc: Global,
        node: &Node,
        dialect: Dialect,
        _sql: &P,
    ) -> Result<DropIndex, KindFault>
        ensures read { Reads (drop_index dialect node.now) result }
        ensures right { IfOk result (λ x. is_for dialect x ≡ true) }
    {
        known(alloc, node, &KEYS)?;
        let index_name = required(alloc, node, "indexName")?;
        let table: Name = required(alloc, node, "tableName")?;
        let schema = schema(alloc, node, dialect, "schemaName")?;
        catalogue(alloc, node)?;
        let table_name = in_schema(alloc, dialect, &schema, &table)?;
        Ok(DropIndex {
            index_name,
            table_name,
        })
    }
}

impl Change for DropIndex {
    ghost use Rattle.lq_keys.specs.DropIndex.{canonical_of, effect, gives, inverse, is_for, is_fresh, does, restores, returned, spelled, told};
    ghost use Rattle.lq_keys.specs.declared.drop_index.DropIndex.{DropIndex};

    ghost Key = { DropIndex };

    ghost key = { λ change. change };

    ghost is_for = { is_for };

    ghost effect = { effect };

    ghost fresh = { is_fresh };

    ghost gives = { gives };

    ghost inverse = { inverse };

    ghost canonical = { canonical_of };

    fn statements(
        &self,
        alloc: Global,
        dialect: Dialect,
        to: &mut Items<Statement>,
    ) -> Result<(), NoMemory> {
        to.push(index_drop(alloc, dialect, &self.index_name, &self.table_name)?)?;
        Ok(())
    }

    fn undo(&self, _alloc: Global, _dialect: Dialect) -> Result<Undo, NoMemory> {
        Ok(Undo::Absent)
    }

    fn is_fresh<K: Look>(&self, _dialect: Dialect, _look: &K) -> bool {
        true
    }

    fn canon(&self, to: &mut Canon) -> Result<(), NoMemory> {
        write_change(
            to,
            "dropIndex",
            &[
                ("indexName", Some(Field::Text(self.index_name.as_key()))),
                ("tableName", Some(Field::Text(self.table_name.text()))),
                ("schemaName", schema_field(&self.table_name)),
            ],
        )
    }

    ghost spelled = { spelled };

    ghost returned = { returned };

    ghost does = { does };

    ghost restores = { restores };

    ghost told = { told };
}
