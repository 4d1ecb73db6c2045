ghost use Rattle.std.specs.Prelude.{◌≡◌, IfOk, true};
ghost use Rattle.lq_tree.specs.Look.{Reads};
ghost use Rattle.lq_data.specs.Insert.{an_insert, is_for};

use crate::column_value::{ColumnValue, literals_of, names_of};
use lq_base::{Dialect, Duplicate, Items, KindFault, Name, NoMemory};
use lq_model::{
    Canon, Change, Field, Fields, Look, MapsAt, SqlText, Statement, Undo, write_change_of,
};
use lq_tree::{Node, known, public, required, required_columns};
use std::alloc::Global;

/// A row is put into a table (Liquibase's documentation, "insert").
#[derive(Drop)]
pub struct Insert {
    pub table_name: Name,
    pub columns: Items<ColumnValue>,
}

const KEYS: [&str; 5] = [
    "tableName",
    "columns",
    "schemaName",
    "catalogName",
    "remarks",
];

impl Insert {
    /// What a node states, or the first fault in the order of the keys.
    #[tactic(auto, unfolding(crate::specs::Insert::an_insert))]
    pub fn read<P: SqlText>(
        alloc: Global,
        node: &Node,
        dialect: Dialect,
        _sql: &P,
    ) -> Result<Insert, KindFault>
        ensures read { Reads (an_insert node.now) result }
        ensures right { IfOk result (λ x. is_for dialect x ≡ true) }
    {
        known(alloc, node, &KEYS)?;
        let table_name = required(alloc, node, "tableName")?;
        let columns = required_columns(alloc, node, "columns")?;
        public(alloc, node)?;
        Ok(Insert {
            table_name,
            columns,
        })
    }
}

impl Change for Insert {
    ghost use Rattle.lq_data.specs.Insert.{canonical_of, effect, gives, inverse, is_for, is_fresh, does, restores, returned, spelled, told};
    ghost use Rattle.lq_data.specs.declared.insert.Insert.{Insert};

    ghost Key = { Insert };

    ghost key = { λ change. change };

    ghost is_for = { is_for };

    ghost effect = { effect };

    ghost fresh = { is_fresh };

    ghost gives = { gives };

    ghost inverse = { inverse };

    ghost canonical = { canonical_of };

    fn statements(
        &self,
        alloc: Global,
        _dialect: Dialect,
        to: &mut Items<Statement>,
    ) -> Result<(), NoMemory> {
        to.push(Statement::Insert {
            table: self.table_name.duplicate(alloc)?,
            columns: names_of(alloc, self.columns.as_slice())?,
            values: literals_of(alloc, self.columns.as_slice())?,
        })?;
        Ok(())
    }

    fn undo(&self, _alloc: Global, _dialect: Dialect) -> Result<Undo, NoMemory> {
        Ok(Undo::Absent)
    }

    fn is_fresh<K: Look>(&self, _dialect: Dialect, _look: &K) -> bool {
        true
    }

    fn canon(&self, to: &mut Canon) -> Result<(), NoMemory> {
        let fields = [("tableName", Some(Field::Name(&self.table_name)))];
        let columns = MapsAt {
            key: "columns",
            maps: self.columns.as_slice(),
        };
        write_change_of(to, "insert", &(Fields(&fields), columns))
    }

    ghost spelled = { spelled };

    ghost returned = { returned };

    ghost does = { does };

    ghost restores = { restores };

    ghost told = { told };
}
