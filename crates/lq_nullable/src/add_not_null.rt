ghost use Rattle.std.specs.Prelude.{◌≡◌, ◌∷◌, [], IfOk, Some, true};
ghost use Rattle.lq_base.specs.declared.literal.Literal.TheVariants as literal;
ghost use Rattle.lq_tree.specs.Look.{Reads};
ghost use Rattle.lq_nullable.specs.AddNotNull.{add_not_null, fills, gives, is_for, sets};

use crate::nullable::{allowing, is_new, is_pg};
use lq_base::{Dialect, Duplicate, Items, Kind, KindFault, Literal, Name, NoMemory, Text, both};
use lq_model::{
    Canon, Change, Field, Look, Operand, SqlText, Statement, Test, Undo, append_all, kind_field,
    schema_field, text_field, write_change,
};
use lq_tree::{Node, catalogue, in_schema, known, optional, required, required_unless, schema};
use std::alloc::Global;

/// A column takes null no more (Liquibase's documentation, "addNotNullConstraint").
pub struct AddNotNullConstraint {
    pub table_name: Name,
    pub column_name: Name,
    /// There is one under MySQL, where the column gets it.
    pub column_data_type: Option<Kind>,
    /// What stands in the place of the column's nulls.
    pub default_null_value: Option<Text>,
}

// Written out, so that each place that lets one go is one call.
impl Drop for AddNotNullConstraint {
    fn drop(self) {
        let AddNotNullConstraint {
            table_name,
            column_name,
            column_data_type: _,
            default_null_value,
        } = self;
        drop(table_name);
        drop(column_name);
        drop(default_null_value);
    }
}

const KEYS: [&str; 7] = [
    "tableName",
    "columnName",
    "columnDataType",
    "defaultNullValue",
    "schemaName",
    "catalogName",
    "remarks",
];

impl AddNotNullConstraint {
    /// What a node states, or the first fault in the order of the keys.
    #[tactic(auto, unfolding(crate::specs::AddNotNull::add_not_null))]
    pub fn read<P: SqlText>(
        alloc: Global,
        node: &Node,
        dialect: Dialect,
        _sql: &P,
    ) -> Result<AddNotNullConstraint, KindFault>
        ensures read { Reads (add_not_null dialect node.now) result }
        ensures right { IfOk result (λ x. is_for dialect x ≡ true) }
    {
        known(alloc, node, &KEYS)?;
        let table: Name = required(alloc, node, "tableName")?;
        let column_name = required(alloc, node, "columnName")?;
        let column_data_type = required_unless(alloc, node, is_pg(dialect), "columnDataType")?;
        let default_null_value = optional(alloc, node, "defaultNullValue")?;
        let schema = schema(alloc, node, dialect, "schemaName")?;
        catalogue(alloc, node)?;
        let table_name = in_schema(alloc, dialect, &schema, &table)?;
        Ok(AddNotNullConstraint {
            table_name,
            column_name,
            column_data_type,
            default_null_value,
        })
    }

    // Fills the nulls with the value.
    fn fill(&self, alloc: Global, value: &Text) -> Result<Statement, NoMemory>
        ensures { IfOk result
            (λ made. fills self.now.table_name self.now.column_name (Some value.now)
            ≡ made ∷ []) }
    {
        let names = both(
            self.table_name.duplicate(alloc),
            self.column_name.duplicate(alloc),
        );
        let (sets, (table, column)) = both(self.filled(alloc, value), names)?;
        Ok(Statement::Update {
            table,
            sets,
            test: Some(Test::IsNull(Operand::Column(column))),
        })
    }

    // The column with the value.
    fn filled(&self, alloc: Global, value: &Text) -> Result<Items<(Name, Literal)>, NoMemory>
        ensures { IfOk result (λ sets. sets
            ≡ (self.now.column_name, literal.Text value.now) ∷ []) }
    {
        let (column, value) = both(self.column_name.duplicate(alloc), value.copy(alloc))?;
        let mut sets = Items::new(alloc);
        sets.push((column, Literal::Text(value)))?;
        Ok(sets)
    }

    // Sets whether the column takes null.
    fn set(&self, alloc: Global, dialect: Dialect, nullable: bool) -> Result<Statement, NoMemory>
        ensures { IfOk result (λ made. made ≡ sets dialect self.now nullable) }
    {
        allowing(
            alloc,
            dialect,
            &self.table_name,
            &self.column_name,
            self.column_data_type,
            nullable,
        )
    }

    fn made(&self, alloc: Global, dialect: Dialect) -> Result<Items<Statement>, NoMemory>
        ensures { IfOk result (λ made. made ≡ gives dialect self.now) }
    {
        let mut made = Items::new(alloc);
        if let Some(value) = &self.default_null_value {
            made.push(self.fill(alloc, value)?)?;
        }
        made.push(self.set(alloc, dialect, false)?)?;
        Ok(made)
    }
}

impl Change for AddNotNullConstraint {
    ghost use Rattle.lq_nullable.specs.AddNotNull.{canonical_of, effect, gives, inverse, is_for, is_fresh, does, restores, returned, spelled, told};
    ghost use Rattle.lq_nullable.specs.declared.add_not_null.AddNotNullConstraint.{AddNotNullConstraint};

    ghost Key = { AddNotNullConstraint };

    ghost key = { λ change. change };

    ghost is_for = { is_for };

    ghost effect = { effect };

    ghost fresh = { is_fresh };

    ghost gives = { gives };

    ghost inverse = { inverse };

    ghost canonical = { canonical_of };

    fn statements(
        &self,
        alloc: Global,
        dialect: Dialect,
        to: &mut Items<Statement>,
    ) -> Result<(), NoMemory> {
        let made = self.made(alloc, dialect)?;
        append_all(to, made)
    }

    fn undo(&self, alloc: Global, dialect: Dialect) -> Result<Undo, NoMemory> {
        let set = self.set(alloc, dialect, true)?;
        let mut statements = Items::new(alloc);
        statements.push(set)?;
        Ok(Undo::Generated(statements))
    }

    fn is_fresh<K: Look>(&self, dialect: Dialect, look: &K) -> bool {
        let is_only_change = match look.column(&self.table_name, &self.column_name) {
            Some(column) => is_new(dialect, self.column_data_type, false, column),
            None => true,
        };
        let is_full = self.default_null_value.is_none()
            || !look.has_null(&self.table_name, &self.column_name);
        is_only_change && is_full
    }

    fn canon(&self, to: &mut Canon) -> Result<(), NoMemory> {
        write_change(
            to,
            "addNotNullConstraint",
            &[
                ("tableName", Some(Field::Text(self.table_name.text()))),
                ("columnName", Some(Field::Text(self.column_name.as_key()))),
                ("columnDataType", kind_field(self.column_data_type)),
                ("defaultNullValue", text_field(&self.default_null_value)),
                ("schemaName", schema_field(&self.table_name)),
            ],
        )
    }

    ghost spelled = { spelled };

    ghost returned = { returned };

    ghost does = { does };

    ghost restores = { restores };

    ghost told = { told };
}
