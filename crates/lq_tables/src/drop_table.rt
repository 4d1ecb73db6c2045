ghost use Rattle.std.specs.Prelude.{◌≡◌, IfOk, true};
ghost use Rattle.lq_tree.specs.Look.{Reads};
ghost use Rattle.lq_tables.specs.DropTable.{is_for, drop_table};

use lq_base::{Dialect, Duplicate, Items, KindFault, Name, NoMemory};
use lq_model::{Canon, Change, Field, Look, SqlText, Statement, Undo, schema_field, write_change};
use lq_tree::{Node, catalogue, in_schema, known, required, schema};
use std::alloc::Global;

/// A table is dropped (Liquibase's documentation, "dropTable").
#[derive(Drop)]
pub struct DropTable {
    pub table_name: Name,
}

const KEYS: [&str; 4] = ["tableName", "schemaName", "catalogName", "remarks"];

impl DropTable {
    /// What a node states. The order of faults is that of the keys.
    #[tactic(auto, unfolding(crate::specs::DropTable::drop_table))]
    pub fn read<P: SqlText>(
        alloc: Global,
        node: &Node,
        dialect: Dialect,
        _sql: &P,
    ) -> Result<DropTable, KindFault>
        ensures read { Reads (drop_table dialect node.now) result }
        ensures right { IfOk result (λ x. is_for dialect x ≡ true) }
    {
        known(alloc, node, &KEYS)?;
        let table: Name = required(alloc, node, "tableName")?;
        let schema = schema(alloc, node, dialect, "schemaName")?;
        catalogue(alloc, node)?;
        let table_name = in_schema(alloc, dialect, &schema, &table)?;
        Ok(DropTable { table_name })
    }
}

impl Change for DropTable {
    ghost use Rattle.lq_tables.specs.DropTable.{canonical_of, effect, gives, inverse, is_for, is_fresh, does, restores, returned, spelled, told};
    ghost use Rattle.lq_tables.specs.declared.drop_table.DropTable.{DropTable};

    ghost Key = { DropTable };

    ghost key = { λ change. change };

    ghost is_for = { is_for };

    ghost effect = { effect };

    ghost fresh = { is_fresh };

    ghost gives = { gives };

    ghost inverse = { inverse };

    ghost canonical = { canonical_of };

    fn statements(
        &self,
        alloc: Global,
        _dialect: Dialect,
        to: &mut Items<Statement>,
    ) -> Result<(), NoMemory> {
        to.push(Statement::DropTable {
            table: self.table_name.duplicate(alloc)?,
        })?;
        Ok(())
    }

    fn undo(&self, _alloc: Global, _dialect: Dialect) -> Result<Undo, NoMemory> {
        Ok(Undo::Absent)
    }

    fn is_fresh<K: Look>(&self, _dialect: Dialect, _look: &K) -> bool {
        true
    }

    fn canon(&self, to: &mut Canon) -> Result<(), NoMemory> {
        write_change(
            to,
            "dropTable",
            &[
                ("tableName", Some(Field::Text(self.table_name.text()))),
                ("schemaName", schema_field(&self.table_name)),
            ],
        )
    }

    ghost spelled = { spelled };

    ghost returned = { returned };

    ghost does = { does };

    ghost restores = { restores };

    ghost told = { told };
}
