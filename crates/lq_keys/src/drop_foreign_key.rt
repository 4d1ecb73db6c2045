ghost use Rattle.std.specs.Prelude.{◌≡◌, IfOk, true};
ghost use Rattle.lq_tree.specs.Look.{Reads};
ghost use Rattle.lq_keys.specs.DropForeignKey.{is_for, drop_foreign_key};

use lq_base::{Dialect, Items, KindFault, Name, NoMemory};
use lq_drops::foreign_drop;
use lq_model::{Canon, Change, Field, Look, SqlText, Statement, Undo, schema_field, write_change};
use lq_tree::{Node, catalogue, in_schema, known, required, schema};
use std::alloc::Global;

/// A foreign key of a table is dropped (Liquibase's documentation, "dropForeignKeyConstraint").
#[derive(Drop)]
pub struct DropForeignKeyConstraint {
    pub base_table_name: Name,
    pub constraint_name: Name,
}

const KEYS: [&str; 5] = [
    "baseTableName",
    "constraintName",
    "baseTableSchemaName",
    "catalogName",
    "remarks",
];

impl DropForeignKeyConstraint {
    /// What a node states, or the first fault in the order of the keys.
    #[tactic(auto, unfolding(crate::specs::DropForeignKey::drop_foreign_key))]
    pub fn read<P: SqlText>(
        alloc: Global,
        node: &Node,
        dialect: Dialect,
        _sql: &P,
    ) -> Result<DropForeignKeyConstraint, KindFault>
        ensures read { Reads (drop_foreign_key dialect node.now) result }
        ensures right { IfOk result (λ x. is_for dialect x ≡ true) }
    {
        known(alloc, node, &KEYS)?;
        let table: Name = required(alloc, node, "baseTableName")?;
        let constraint_name = required(alloc, node, "constraintName")?;
        let schema = schema(alloc, node, dialect, "baseTableSchemaName")?;
        catalogue(alloc, node)?;
        let base_table_name = in_schema(alloc, dialect, &schema, &table)?;
        Ok(DropForeignKeyConstraint {
            base_table_name,
            constraint_name,
        })
    }
}

impl Change for DropForeignKeyConstraint {
    ghost use Rattle.lq_keys.specs.DropForeignKey.{canonical_of, effect, gives, inverse, is_for, is_fresh, does, restores, returned, spelled, told};
    ghost use Rattle.lq_keys.specs.declared.drop_foreign_key.DropForeignKeyConstraint.{DropForeignKeyConstraint};

    ghost Key = { DropForeignKeyConstraint };

    ghost key = { λ change. change };

    ghost is_for = { is_for };

    ghost effect = { effect };

    ghost fresh = { is_fresh };

    ghost gives = { gives };

    ghost inverse = { inverse };

    ghost canonical = { canonical_of };

    fn statements(
        &self,
        alloc: Global,
        dialect: Dialect,
        to: &mut Items<Statement>,
    ) -> Result<(), NoMemory> {
        to.push(foreign_drop(alloc, dialect, &self.base_table_name, &self.constraint_name)?)?;
        Ok(())
    }

    fn undo(&self, _alloc: Global, _dialect: Dialect) -> Result<Undo, NoMemory> {
        Ok(Undo::Absent)
    }

    fn is_fresh<K: Look>(&self, _dialect: Dialect, _look: &K) -> bool {
        true
    }

    fn canon(&self, to: &mut Canon) -> Result<(), NoMemory> {
        write_change(
            to,
            "dropForeignKeyConstraint",
            &[
                (
                    "baseTableName",
                    Some(Field::Text(self.base_table_name.text())),
                ),
                (
                    "constraintName",
                    Some(Field::Text(self.constraint_name.as_key())),
                ),
                ("baseTableSchemaName", schema_field(&self.base_table_name)),
            ],
        )
    }

    ghost spelled = { spelled };

    ghost returned = { returned };

    ghost does = { does };

    ghost restores = { restores };

    ghost told = { told };
}
