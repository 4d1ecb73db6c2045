ghost use Rattle.std.specs.Prelude.{◌≡◌, IfOk, true};
ghost use Rattle.lq_tree.specs.Look.{Reads};
ghost use Rattle.lq_rename_column.specs.RenameColumn.{is_for, rename_column, renames};

use lq_base::{Dialect, Duplicate, Items, Kind, KindFault, Name, NoMemory, both};
use lq_model::{
    Canon, Change, Field, Look, SqlText, Statement, Undo, kind_field, schema_field, write_change,
};
use lq_tree::{Node, catalogue, in_schema, known, optional, required, schema};
use std::alloc::Global;

/// A column gets another name (Liquibase's documentation, "renameColumn").
pub struct RenameColumn {
    pub table_name: Name,
    pub old_column_name: Name,
    pub new_column_name: Name,
    /// Without effect.
    pub column_data_type: Option<Kind>,
}

// Written out, so that each place that lets one go is one call.
impl Drop for RenameColumn {
    fn drop(self) {
        let RenameColumn {
            table_name,
            old_column_name,
            new_column_name,
            column_data_type: _,
        } = self;
        drop(table_name);
        drop(old_column_name);
        drop(new_column_name);
    }
}

const KEYS: [&str; 7] = [
    "tableName",
    "oldColumnName",
    "newColumnName",
    "columnDataType",
    "schemaName",
    "catalogName",
    "remarks",
];

impl RenameColumn {
    /// What a node states. The order of faults is that of the keys.
    #[tactic(auto, unfolding(crate::specs::RenameColumn::rename_column))]
    pub fn read<P: SqlText>(
        alloc: Global,
        node: &Node,
        dialect: Dialect,
        _sql: &P,
    ) -> Result<RenameColumn, KindFault>
        ensures read { Reads (rename_column dialect node.now) result }
        ensures right { IfOk result (λ x. is_for dialect x ≡ true) }
    {
        known(alloc, node, &KEYS)?;
        let table: Name = required(alloc, node, "tableName")?;
        let old_column_name = required(alloc, node, "oldColumnName")?;
        let new_column_name = required(alloc, node, "newColumnName")?;
        let column_data_type = optional(alloc, node, "columnDataType")?;
        let schema = schema(alloc, node, dialect, "schemaName")?;
        catalogue(alloc, node)?;
        let table_name = in_schema(alloc, dialect, &schema, &table)?;
        Ok(RenameColumn {
            table_name,
            old_column_name,
            new_column_name,
            column_data_type,
        })
    }

    fn renames(&self, alloc: Global, column: &Name, to: &Name) -> Result<Statement, NoMemory>
        ensures { IfOk result (λ made. made ≡ renames self.now.table_name column.now to.now) }
    {
        let names = both(column.duplicate(alloc), to.duplicate(alloc));
        let (table, (column, to)) = both(self.table_name.duplicate(alloc), names)?;
        Ok(Statement::RenameColumn { table, column, to })
    }
}

impl Change for RenameColumn {
    ghost use Rattle.lq_rename_column.specs.RenameColumn.{canonical_of, effect, gives, inverse, is_for, is_fresh, does, restores, returned, spelled, told};
    ghost use Rattle.lq_rename_column.specs.declared.rename_column.RenameColumn.{RenameColumn};

    ghost Key = { RenameColumn };

    ghost key = { λ change. change };

    ghost is_for = { is_for };

    ghost effect = { effect };

    ghost fresh = { is_fresh };

    ghost gives = { gives };

    ghost inverse = { inverse };

    ghost canonical = { canonical_of };

    fn statements(
        &self,
        alloc: Global,
        _dialect: Dialect,
        to: &mut Items<Statement>,
    ) -> Result<(), NoMemory> {
        to.push(self.renames(alloc, &self.old_column_name, &self.new_column_name)?)?;
        Ok(())
    }

    fn undo(&self, alloc: Global, _dialect: Dialect) -> Result<Undo, NoMemory> {
        let renames = self.renames(alloc, &self.new_column_name, &self.old_column_name)?;
        let mut statements = Items::new(alloc);
        statements.push(renames)?;
        Ok(Undo::Generated(statements))
    }

    fn is_fresh<K: Look>(&self, _dialect: Dialect, _look: &K) -> bool {
        true
    }

    fn canon(&self, to: &mut Canon) -> Result<(), NoMemory> {
        write_change(
            to,
            "renameColumn",
            &[
                ("tableName", Some(Field::Text(self.table_name.text()))),
                (
                    "oldColumnName",
                    Some(Field::Text(self.old_column_name.as_key())),
                ),
                (
                    "newColumnName",
                    Some(Field::Text(self.new_column_name.as_key())),
                ),
                ("columnDataType", kind_field(self.column_data_type)),
                ("schemaName", schema_field(&self.table_name)),
            ],
        )
    }

    ghost spelled = { spelled };

    ghost returned = { returned };

    ghost does = { does };

    ghost restores = { restores };

    ghost told = { told };
}
