ghost use Rattle.std.specs.Prelude.{◌≡◌, IfOk, true};
ghost use Rattle.lq_tree.specs.Look.{Reads};
ghost use Rattle.lq_uniques.specs.DropUnique.{is_for, drop_unique};

use crate::drops::unique_drop;
use lq_base::{Dialect, Items, KindFault, Name, NoMemory};
use lq_model::{Canon, Change, Field, Look, SqlText, Statement, Undo, schema_field, write_change};
use lq_tree::{Node, catalogue, in_schema, known, required, schema};
use std::alloc::Global;

/// A unique constraint of a table is dropped (Liquibase's documentation, "dropUniqueConstraint").
#[derive(Drop)]
pub struct DropUniqueConstraint {
    pub table_name: Name,
    pub constraint_name: Name,
}

const KEYS: [&str; 5] = [
    "tableName",
    "constraintName",
    "schemaName",
    "catalogName",
    "remarks",
];

impl DropUniqueConstraint {
    /// What a node states, or the first fault in the order of the keys.
    #[tactic(auto, unfolding(crate::specs::DropUnique::drop_unique))]
    pub fn read<P: SqlText>(
        alloc: Global,
        node: &Node,
        dialect: Dialect,
        _sql: &P,
    ) -> Result<DropUniqueConstraint, KindFault>
        ensures read { Reads (drop_unique dialect node.now) result }
        ensures right { IfOk result (λ x. is_for dialect x ≡ true) }
    {
        known(alloc, node, &KEYS)?;
        let table: Name = required(alloc, node, "tableName")?;
        let constraint_name = required(alloc, node, "constraintName")?;
        let schema = schema(alloc, node, dialect, "schemaName")?;
        catalogue(alloc, node)?;
        let table_name = in_schema(alloc, dialect, &schema, &table)?;
        Ok(DropUniqueConstraint {
            table_name,
            constraint_name,
        })
    }
}

impl Change for DropUniqueConstraint {
    ghost use Rattle.lq_uniques.specs.DropUnique.{canonical_of, effect, gives, inverse, is_for, is_fresh, does, restores, returned, spelled, told};
    ghost use Rattle.lq_uniques.specs.declared.drop_unique.DropUniqueConstraint.{DropUniqueConstraint};

    ghost Key = { DropUniqueConstraint };

    ghost key = { λ change. change };

    ghost is_for = { is_for };

    ghost effect = { effect };

    ghost fresh = { is_fresh };

    ghost gives = { gives };

    ghost inverse = { inverse };

    ghost canonical = { canonical_of };

    fn statements(
        &self,
        alloc: Global,
        dialect: Dialect,
        to: &mut Items<Statement>,
    ) -> Result<(), NoMemory> {
        to.push(unique_drop(alloc, dialect, &self.table_name, &self.constraint_name)?)?;
        Ok(())
    }

    fn undo(&self, _alloc: Global, _dialect: Dialect) -> Result<Undo, NoMemory> {
        Ok(Undo::Absent)
    }

    fn is_fresh<K: Look>(&self, _dialect: Dialect, _look: &K) -> bool {
        true
    }

    fn canon(&self, to: &mut Canon) -> Result<(), NoMemory> {
        write_change(
            to,
            "dropUniqueConstraint",
            &[
                ("tableName", Some(Field::Text(self.table_name.text()))),
                (
                    "constraintName",
                    Some(Field::Text(self.constraint_name.as_key())),
                ),
                ("schemaName", schema_field(&self.table_name)),
            ],
        )
    }

    ghost spelled = { spelled };

    ghost returned = { returned };

    ghost does = { does };

    ghost restores = { restores };

    ghost told = { told };
}
