ghost use Rattle.std.specs.Prelude.{◌≡◌, IfOk, true};
ghost use Rattle.lq_tree.specs.Look.{Reads};
ghost use Rattle.lq_columns.specs.AddDefaultValue.{add_default_value, is_for};

use lq_base::{Dialect, Duplicate, Items, Kind, KindFault, Name, NoMemory};
use lq_model::{
    Canon, Change, Field, Fields, Look, SqlText, Statement, Undo, kind_field, schema_field,
    write_change_of,
};
use lq_tree::{GivenValue, Node, catalogue, in_schema, known, missing, optional, required, schema};
use lq_value_keys::{default_at, default_value};
use std::alloc::Global;

/// A column gets a default (Liquibase's documentation, "addDefaultValue").
pub struct AddDefaultValue {
    pub table_name: Name,
    pub column_name: Name,
    /// Without effect.
    pub column_data_type: Option<Kind>,
    pub default_value: GivenValue,
}

// Written out, so that each place that lets one go is one call.
impl Drop for AddDefaultValue {
    fn drop(self) {
        let AddDefaultValue {
            table_name,
            column_name,
            column_data_type: _,
            default_value,
        } = self;
        drop(table_name);
        drop(column_name);
        drop(default_value);
    }
}

const KEYS: [&str; 10] = [
    "tableName",
    "columnName",
    "columnDataType",
    "defaultValue",
    "defaultValueNumeric",
    "defaultValueBoolean",
    "defaultValueDate",
    "schemaName",
    "catalogName",
    "remarks",
];

impl AddDefaultValue {
    /// What a node states, or the first fault in the order of the keys. That no default is given is
    /// told last.
    #[tactic(auto, unfolding(crate::specs::AddDefaultValue::add_default_value))]
    pub fn read<P: SqlText>(
        alloc: Global,
        node: &Node,
        dialect: Dialect,
        _sql: &P,
    ) -> Result<AddDefaultValue, KindFault>
        ensures read { Reads (add_default_value dialect node.now) result }
        ensures right { IfOk result (λ x. is_for dialect x ≡ true) }
    {
        known(alloc, node, &KEYS)?;
        let table: Name = required(alloc, node, "tableName")?;
        let column_name = required(alloc, node, "columnName")?;
        let column_data_type = optional(alloc, node, "columnDataType")?;
        let stated = default_value(alloc, node)?;
        let schema = schema(alloc, node, dialect, "schemaName")?;
        catalogue(alloc, node)?;
        let table_name = in_schema(alloc, dialect, &schema, &table)?;
        let Some(default_value) = stated else {
            return Err(missing(alloc, "defaultValue"));
        };
        Ok(AddDefaultValue {
            table_name,
            column_name,
            column_data_type,
            default_value,
        })
    }
}

impl Change for AddDefaultValue {
    ghost use Rattle.lq_columns.specs.AddDefaultValue.{canonical_of, effect, gives, inverse, is_for, is_fresh, does, restores, returned, spelled, told};
    ghost use Rattle.lq_columns.specs.declared.add_default_value.AddDefaultValue.{AddDefaultValue};

    ghost Key = { AddDefaultValue };

    ghost key = { λ change. change };

    ghost is_for = { is_for };

    ghost effect = { effect };

    ghost fresh = { is_fresh };

    ghost gives = { gives };

    ghost inverse = { inverse };

    ghost canonical = { canonical_of };

    fn statements(
        &self,
        alloc: Global,
        _dialect: Dialect,
        to: &mut Items<Statement>,
    ) -> Result<(), NoMemory> {
        to.push(Statement::SetDefault {
            table: self.table_name.duplicate(alloc)?,
            column: self.column_name.duplicate(alloc)?,
            value: self.default_value.literal(alloc)?,
        })?;
        Ok(())
    }

    fn undo(&self, alloc: Global, _dialect: Dialect) -> Result<Undo, NoMemory> {
        let mut statements = Items::new(alloc);
        statements.push(Statement::DropDefault {
            table: self.table_name.duplicate(alloc)?,
            column: self.column_name.duplicate(alloc)?,
        })?;
        Ok(Undo::Generated(statements))
    }

    fn is_fresh<K: Look>(&self, _dialect: Dialect, look: &K) -> bool {
        match look.column(&self.table_name, &self.column_name) {
            Some(column) => column.default.is_none(),
            None => true,
        }
    }

    fn canon(&self, to: &mut Canon) -> Result<(), NoMemory> {
        let fields = [
            ("tableName", Some(Field::Text(self.table_name.text()))),
            ("columnName", Some(Field::Text(self.column_name.as_key()))),
            ("columnDataType", kind_field(self.column_data_type)),
        ];
        let default = default_at(Some(&self.default_value));
        let place = [("schemaName", schema_field(&self.table_name))];
        write_change_of(
            to,
            "addDefaultValue",
            &(Fields(&fields), default, Fields(&place)),
        )
    }

    ghost spelled = { spelled };

    ghost returned = { returned };

    ghost does = { does };

    ghost restores = { restores };

    ghost told = { told };
}
