ghost use Rattle.std.specs.Prelude.{◌≡◌, IfOk, true};
ghost use Rattle.lq_tree.specs.Look.{Reads};
ghost use Rattle.lq_nullable.specs.DropNotNull.{drop_not_null, is_for, sets};

use crate::nullable::{allowing, is_new, is_pg};
use lq_base::{Dialect, Items, Kind, KindFault, Name, NoMemory};
use lq_model::{
    Canon, Change, Field, Look, SqlText, Statement, Undo, kind_field, schema_field, write_change,
};
use lq_tree::{Node, catalogue, in_schema, known, required, required_unless, schema};
use std::alloc::Global;

/// A column takes null (Liquibase's documentation, "dropNotNullConstraint").
#[derive(Drop)]
pub struct DropNotNullConstraint {
    pub table_name: Name,
    pub column_name: Name,
    /// There is one under MySQL, where the column gets it.
    pub column_data_type: Option<Kind>,
}

const KEYS: [&str; 6] = [
    "tableName",
    "columnName",
    "columnDataType",
    "schemaName",
    "catalogName",
    "remarks",
];

impl DropNotNullConstraint {
    /// What a node states, or the first fault in the order of the keys.
    #[tactic(auto, unfolding(crate::specs::DropNotNull::drop_not_null))]
    pub fn read<P: SqlText>(
        alloc: Global,
        node: &Node,
        dialect: Dialect,
        _sql: &P,
    ) -> Result<DropNotNullConstraint, KindFault>
        ensures read { Reads (drop_not_null dialect node.now) result }
        ensures right { IfOk result (λ x. is_for dialect x ≡ true) }
    {
        known(alloc, node, &KEYS)?;
        let table: Name = required(alloc, node, "tableName")?;
        let column_name = required(alloc, node, "columnName")?;
        let column_data_type = required_unless(alloc, node, is_pg(dialect), "columnDataType")?;
        let schema = schema(alloc, node, dialect, "schemaName")?;
        catalogue(alloc, node)?;
        let table_name = in_schema(alloc, dialect, &schema, &table)?;
        Ok(DropNotNullConstraint {
            table_name,
            column_name,
            column_data_type,
        })
    }

    // Sets whether the column takes null.
    fn set(&self, alloc: Global, dialect: Dialect, nullable: bool) -> Result<Statement, NoMemory>
        ensures { IfOk result (λ made. made ≡ sets dialect self.now nullable) }
    {
        allowing(
            alloc,
            dialect,
            &self.table_name,
            &self.column_name,
            self.column_data_type,
            nullable,
        )
    }
}

impl Change for DropNotNullConstraint {
    ghost use Rattle.lq_nullable.specs.DropNotNull.{canonical_of, effect, gives, inverse, is_for, is_fresh, does, restores, returned, spelled, told};
    ghost use Rattle.lq_nullable.specs.declared.drop_not_null.DropNotNullConstraint.{DropNotNullConstraint};

    ghost Key = { DropNotNullConstraint };

    ghost key = { λ change. change };

    ghost is_for = { is_for };

    ghost effect = { effect };

    ghost fresh = { is_fresh };

    ghost gives = { gives };

    ghost inverse = { inverse };

    ghost canonical = { canonical_of };

    fn statements(
        &self,
        alloc: Global,
        dialect: Dialect,
        to: &mut Items<Statement>,
    ) -> Result<(), NoMemory> {
        to.push(self.set(alloc, dialect, true)?)?;
        Ok(())
    }

    fn undo(&self, alloc: Global, dialect: Dialect) -> Result<Undo, NoMemory> {
        let set = self.set(alloc, dialect, false)?;
        let mut statements = Items::new(alloc);
        statements.push(set)?;
        Ok(Undo::Generated(statements))
    }

    fn is_fresh<K: Look>(&self, dialect: Dialect, look: &K) -> bool {
        match look.column(&self.table_name, &self.column_name) {
            Some(column) => is_new(dialect, self.column_data_type, true, column),
            None => true,
        }
    }

    fn canon(&self, to: &mut Canon) -> Result<(), NoMemory> {
        write_change(
            to,
            "dropNotNullConstraint",
            &[
                ("tableName", Some(Field::Text(self.table_name.text()))),
                ("columnName", Some(Field::Text(self.column_name.as_key()))),
                ("columnDataType", kind_field(self.column_data_type)),
                ("schemaName", schema_field(&self.table_name)),
            ],
        )
    }

    ghost spelled = { spelled };

    ghost returned = { returned };

    ghost does = { does };

    ghost restores = { restores };

    ghost told = { told };
}
