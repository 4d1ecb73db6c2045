ghost use Rattle.std.specs.Prelude.{◌≡◌, IfOk, true};
ghost use Rattle.lq_tree.specs.Look.{Reads};
ghost use Rattle.lq_columns.specs.DropDefaultValue.{is_for, drop_default_value};

use lq_base::{Dialect, Duplicate, Items, Kind, KindFault, Name, NoMemory};
use lq_model::{
    Canon, Change, Field, Look, SqlText, Statement, Undo, kind_field, schema_field, write_change,
};
use lq_tree::{Node, catalogue, in_schema, known, optional, required, schema};
use std::alloc::Global;

/// A column has no default any more (Liquibase's documentation, "dropDefaultValue").
#[derive(Drop)]
pub struct DropDefaultValue {
    pub table_name: Name,
    pub column_name: Name,
    /// Without effect.
    pub column_data_type: Option<Kind>,
}

const KEYS: [&str; 6] = [
    "tableName",
    "columnName",
    "columnDataType",
    "schemaName",
    "catalogName",
    "remarks",
];

impl DropDefaultValue {
    /// What a node states. The order of faults is that of the keys.
    #[tactic(auto, unfolding(crate::specs::DropDefaultValue::drop_default_value))]
    pub fn read<P: SqlText>(
        alloc: Global,
        node: &Node,
        dialect: Dialect,
        _sql: &P,
    ) -> Result<DropDefaultValue, KindFault>
        ensures read { Reads (drop_default_value dialect node.now) result }
        ensures right { IfOk result (λ x. is_for dialect x ≡ true) }
    {
        known(alloc, node, &KEYS)?;
        let table: Name = required(alloc, node, "tableName")?;
        let column_name = required(alloc, node, "columnName")?;
        let column_data_type = optional(alloc, node, "columnDataType")?;
        let schema = schema(alloc, node, dialect, "schemaName")?;
        catalogue(alloc, node)?;
        let table_name = in_schema(alloc, dialect, &schema, &table)?;
        Ok(DropDefaultValue {
            table_name,
            column_name,
            column_data_type,
        })
    }
}

impl Change for DropDefaultValue {
    ghost use Rattle.lq_columns.specs.DropDefaultValue.{canonical_of, effect, gives, inverse, is_for, is_fresh, does, restores, returned, spelled, told};
    ghost use Rattle.lq_columns.specs.declared.drop_default_value.DropDefaultValue.{DropDefaultValue};

    ghost Key = { DropDefaultValue };

    ghost key = { λ change. change };

    ghost is_for = { is_for };

    ghost effect = { effect };

    ghost fresh = { is_fresh };

    ghost gives = { gives };

    ghost inverse = { inverse };

    ghost canonical = { canonical_of };

    fn statements(
        &self,
        alloc: Global,
        _dialect: Dialect,
        to: &mut Items<Statement>,
    ) -> Result<(), NoMemory> {
        to.push(Statement::DropDefault {
            table: self.table_name.duplicate(alloc)?,
            column: self.column_name.duplicate(alloc)?,
        })?;
        Ok(())
    }

    fn undo(&self, _alloc: Global, _dialect: Dialect) -> Result<Undo, NoMemory> {
        Ok(Undo::Absent)
    }

    fn is_fresh<K: Look>(&self, _dialect: Dialect, _look: &K) -> bool {
        true
    }

    fn canon(&self, to: &mut Canon) -> Result<(), NoMemory> {
        write_change(
            to,
            "dropDefaultValue",
            &[
                ("tableName", Some(Field::Text(self.table_name.text()))),
                ("columnName", Some(Field::Text(self.column_name.as_key()))),
                ("columnDataType", kind_field(self.column_data_type)),
                ("schemaName", schema_field(&self.table_name)),
            ],
        )
    }

    ghost spelled = { spelled };

    ghost returned = { returned };

    ghost does = { does };

    ghost restores = { restores };

    ghost told = { told };
}
