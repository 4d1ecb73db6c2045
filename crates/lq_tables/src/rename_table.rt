ghost use Rattle.std.specs.Prelude.{◌≡◌, IfOk, true};
ghost use Rattle.lq_tree.specs.Look.{Reads};
ghost use Rattle.lq_tables.specs.RenameTable.{is_for, rename_table};

use lq_base::{Dialect, Duplicate, Items, KindFault, Name, NoMemory};
use lq_model::{Canon, Change, Field, Look, SqlText, Statement, Undo, schema_field, write_change};
use lq_tree::{Node, catalogue, in_schema, known, required, schema};
use std::alloc::Global;

/// A table gets another name (Liquibase's documentation, "renameTable").
#[derive(Drop)]
pub struct RenameTable {
    pub old_table_name: Name,
    pub new_table_name: Name,
}

const KEYS: [&str; 5] = [
    "oldTableName",
    "newTableName",
    "schemaName",
    "catalogName",
    "remarks",
];

impl RenameTable {
    /// What a node states. The order of faults is that of the keys.
    #[tactic(auto, unfolding(crate::specs::RenameTable::rename_table))]
    pub fn read<P: SqlText>(
        alloc: Global,
        node: &Node,
        dialect: Dialect,
        _sql: &P,
    ) -> Result<RenameTable, KindFault>
        ensures read { Reads (rename_table dialect node.now) result }
        ensures right { IfOk result (λ x. is_for dialect x ≡ true) }
    {
        known(alloc, node, &KEYS)?;
        let old: Name = required(alloc, node, "oldTableName")?;
        let new_table_name = required(alloc, node, "newTableName")?;
        let schema = schema(alloc, node, dialect, "schemaName")?;
        catalogue(alloc, node)?;
        let old_table_name = in_schema(alloc, dialect, &schema, &old)?;
        Ok(RenameTable {
            old_table_name,
            new_table_name,
        })
    }
}

impl Change for RenameTable {
    ghost use Rattle.lq_tables.specs.RenameTable.{canonical_of, effect, gives, inverse, is_for, is_fresh, does, restores, returned, spelled, told};
    ghost use Rattle.lq_tables.specs.declared.rename_table.RenameTable.{RenameTable};

    ghost Key = { RenameTable };

    ghost key = { λ change. change };

    ghost is_for = { is_for };

    ghost effect = { effect };

    ghost fresh = { is_fresh };

    ghost gives = { gives };

    ghost inverse = { inverse };

    ghost canonical = { canonical_of };

    fn statements(
        &self,
        alloc: Global,
        _dialect: Dialect,
        to: &mut Items<Statement>,
    ) -> Result<(), NoMemory> {
        to.push(Statement::RenameTable {
            table: self.old_table_name.duplicate(alloc)?,
            to: self.new_table_name.beside(alloc, &self.old_table_name)?,
        })?;
        Ok(())
    }

    fn undo(&self, alloc: Global, _dialect: Dialect) -> Result<Undo, NoMemory> {
        let mut statements = Items::new(alloc);
        statements.push(Statement::RenameTable {
            table: self.new_table_name.beside(alloc, &self.old_table_name)?,
            to: self.old_table_name.duplicate(alloc)?,
        })?;
        Ok(Undo::Generated(statements))
    }

    fn is_fresh<K: Look>(&self, _dialect: Dialect, _look: &K) -> bool {
        true
    }

    fn canon(&self, to: &mut Canon) -> Result<(), NoMemory> {
        write_change(
            to,
            "renameTable",
            &[
                (
                    "oldTableName",
                    Some(Field::Text(self.old_table_name.text())),
                ),
                (
                    "newTableName",
                    Some(Field::Text(self.new_table_name.as_key())),
                ),
                ("schemaName", schema_field(&self.old_table_name)),
            ],
        )
    }

    ghost spelled = { spelled };

    ghost returned = { returned };

    ghost does = { does };

    ghost restores = { restores };

    ghost told = { told };
}
