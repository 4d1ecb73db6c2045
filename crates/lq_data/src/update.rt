ghost use Rattle.std.specs.Prelude.{◌≡◌, IfOk, true};
ghost use Rattle.lq_tree.specs.Look.{Reads};
ghost use Rattle.lq_data.specs.Update.{an_update, is_for};

use crate::column_value::{ColumnValue, sets_of};
use crate::given_test::{GivenTest, test_of, where_field, where_test};
use lq_base::{Dialect, Duplicate, Items, KindFault, Name, NoMemory};
use lq_model::{
    Canon, Change, Field, Fields, Look, MapsAt, SqlText, Statement, Undo, write_change_of,
};
use lq_tree::{Node, known, public, required, required_columns};
use std::alloc::Global;

/// Rows get other values: all of a table, or those that a test takes (Liquibase's documentation, "update").
pub struct Update {
    pub table_name: Name,
    pub columns: Items<ColumnValue>,
    /// The key `where`.
    pub test: Option<GivenTest>,
}

// Written out, so that each place that lets one go is one call.
impl Drop for Update {
    fn drop(self) {
        let Update {
            table_name,
            columns,
            test,
        } = self;
        drop(table_name);
        drop(columns);
        drop(test);
    }
}

const KEYS: [&str; 6] = [
    "tableName",
    "columns",
    "where",
    "schemaName",
    "catalogName",
    "remarks",
];

impl Update {
    /// What a node states, or the first fault in the order of the keys.
    #[tactic(auto, unfolding(crate::specs::Update::an_update))]
    pub fn read<P: SqlText>(
        alloc: Global,
        node: &Node,
        dialect: Dialect,
        sql: &P,
    ) -> Result<Update, KindFault>
        requires same { dialect ≡ P.dialect }
        ensures read { Reads (an_update dialect node.now) result }
        ensures right { IfOk result (λ x. is_for dialect x ≡ true) }
    {
        known(alloc, node, &KEYS)?;
        let table_name = required(alloc, node, "tableName")?;
        let columns = required_columns(alloc, node, "columns")?;
        let test = where_test(alloc, node, dialect, sql)?;
        public(alloc, node)?;
        Ok(Update {
            table_name,
            columns,
            test,
        })
    }
}

impl Change for Update {
    ghost use Rattle.lq_data.specs.Update.{canonical_of, effect, gives, inverse, is_for, is_fresh, does, restores, returned, spelled, told};
    ghost use Rattle.lq_data.specs.declared.update.Update.{Update};

    ghost Key = { Update };

    ghost key = { λ change. change };

    ghost is_for = { is_for };

    ghost effect = { effect };

    ghost fresh = { is_fresh };

    ghost gives = { gives };

    ghost inverse = { inverse };

    ghost canonical = { canonical_of };

    fn statements(
        &self,
        alloc: Global,
        _dialect: Dialect,
        to: &mut Items<Statement>,
    ) -> Result<(), NoMemory> {
        to.push(Statement::Update {
            table: self.table_name.duplicate(alloc)?,
            sets: sets_of(alloc, self.columns.as_slice())?,
            test: test_of(alloc, &self.test)?,
        })?;
        Ok(())
    }

    fn undo(&self, _alloc: Global, _dialect: Dialect) -> Result<Undo, NoMemory> {
        Ok(Undo::Absent)
    }

    fn is_fresh<K: Look>(&self, _dialect: Dialect, _look: &K) -> bool {
        true
    }

    fn canon(&self, to: &mut Canon) -> Result<(), NoMemory> {
        let fields = [("tableName", Some(Field::Name(&self.table_name)))];
        let columns = MapsAt {
            key: "columns",
            maps: self.columns.as_slice(),
        };
        let test = [("where", where_field(&self.test))];
        write_change_of(to, "update", &(Fields(&fields), columns, Fields(&test)))
    }

    ghost spelled = { spelled };

    ghost returned = { returned };

    ghost does = { does };

    ghost restores = { restores };

    ghost told = { told };
}
