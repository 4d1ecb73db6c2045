ghost use Rattle.std.specs.Prelude.{◌≡◌, IfOk, true};
ghost use Rattle.lq_tree.specs.Look.{Reads};
ghost use Rattle.lq_primary_keys.specs.DropPrimaryKey.{drop_primary_key, is_for, name_of};
ghost use Rattle.lq_primary_keys.specs.Drops.{drops_key};

use crate::drops::key_drop;
use lq_base::{Dialect, Duplicate, Items, KindFault, Name, NoMemory};
use lq_model::{
    Canon, Change, Field, Look, SqlText, Statement, Undo, key_name, name_field, schema_field,
    write_change,
};
use lq_tree::{Node, catalogue, in_schema, known, optional, required, schema};
use std::alloc::Global;

/// The primary key of a table is dropped (Liquibase's documentation, "dropPrimaryKey").
#[derive(Drop)]
pub struct DropPrimaryKey {
    pub table_name: Name,
    /// Without effect under MySQL.
    pub constraint_name: Option<Name>,
}

const KEYS: [&str; 5] = [
    "tableName",
    "constraintName",
    "schemaName",
    "catalogName",
    "remarks",
];

impl DropPrimaryKey {
    /// What a node states, or the first fault in the order of the keys.
    #[tactic(auto, unfolding(crate::specs::DropPrimaryKey::drop_primary_key))]
    pub fn read<P: SqlText>(
        alloc: Global,
        node: &Node,
        dialect: Dialect,
        _sql: &P,
    ) -> Result<DropPrimaryKey, KindFault>
        ensures read { Reads (drop_primary_key dialect node.now) result }
        ensures right { IfOk result (λ x. is_for dialect x ≡ true) }
    {
        known(alloc, node, &KEYS)?;
        let table: Name = required(alloc, node, "tableName")?;
        let constraint_name = optional(alloc, node, "constraintName")?;
        let schema = schema(alloc, node, dialect, "schemaName")?;
        catalogue(alloc, node)?;
        let table_name = in_schema(alloc, dialect, &schema, &table)?;
        Ok(DropPrimaryKey {
            table_name,
            constraint_name,
        })
    }

    fn name(&self, alloc: Global, dialect: Dialect) -> Result<Name, NoMemory>
        ensures { IfOk result (λ name. name ≡ name_of dialect self.now) }
    {
        match &self.constraint_name {
            Some(name) => name.duplicate(alloc),
            None => key_name(alloc, dialect, &self.table_name),
        }
    }

    // Drops the key.
    fn dropped(&self, alloc: Global, dialect: Dialect) -> Result<Statement, NoMemory>
        ensures { IfOk result
            (λ made. made ≡ drops_key dialect self.now.table_name (name_of dialect self.now)) }
    {
        let name = self.name(alloc, dialect)?;
        key_drop(alloc, dialect, &self.table_name, &name)
    }
}

impl Change for DropPrimaryKey {
    ghost use Rattle.lq_primary_keys.specs.DropPrimaryKey.{canonical_of, effect, gives, inverse, is_for, is_fresh, does, restores, returned, spelled, told};
    ghost use Rattle.lq_primary_keys.specs.declared.drop_primary_key.DropPrimaryKey.{DropPrimaryKey};

    ghost Key = { DropPrimaryKey };

    ghost key = { λ change. change };

    ghost is_for = { is_for };

    ghost effect = { effect };

    ghost fresh = { is_fresh };

    ghost gives = { gives };

    ghost inverse = { inverse };

    ghost canonical = { canonical_of };

    fn statements(
        &self,
        alloc: Global,
        dialect: Dialect,
        to: &mut Items<Statement>,
    ) -> Result<(), NoMemory> {
        to.push(self.dropped(alloc, dialect)?)?;
        Ok(())
    }

    fn undo(&self, _alloc: Global, _dialect: Dialect) -> Result<Undo, NoMemory> {
        Ok(Undo::Absent)
    }

    fn is_fresh<K: Look>(&self, _dialect: Dialect, _look: &K) -> bool {
        true
    }

    fn canon(&self, to: &mut Canon) -> Result<(), NoMemory> {
        write_change(
            to,
            "dropPrimaryKey",
            &[
                ("tableName", Some(Field::Text(self.table_name.text()))),
                ("constraintName", name_field(&self.constraint_name)),
                ("schemaName", schema_field(&self.table_name)),
            ],
        )
    }

    ghost spelled = { spelled };

    ghost returned = { returned };

    ghost does = { does };

    ghost restores = { restores };

    ghost told = { told };
}
