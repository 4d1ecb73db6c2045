ghost use Rattle.std.specs.Prelude.{◌≡◌, IfOk, true};
ghost use Rattle.lq_tree.specs.Look.{Reads};
ghost use Rattle.lq_data.specs.Delete.{a_delete, is_for};

use crate::given_test::{GivenTest, test_of, where_field, where_test};
use lq_base::{Dialect, Duplicate, Items, KindFault, Name, NoMemory};
use lq_model::{Canon, Change, Field, Look, SqlText, Statement, Undo, write_change};
use lq_tree::{Node, known, public, required};
use std::alloc::Global;

/// Rows are deleted: all of a table, or those that a test takes (Liquibase's documentation, "delete").
#[derive(Drop)]
pub struct Delete {
    pub table_name: Name,
    /// The key `where`.
    pub test: Option<GivenTest>,
}

const KEYS: [&str; 5] = ["tableName", "where", "schemaName", "catalogName", "remarks"];

impl Delete {
    /// What a node states, or the first fault in the order of the keys.
    #[tactic(auto, unfolding(crate::specs::Delete::a_delete))]
    pub fn read<P: SqlText>(
        alloc: Global,
        node: &Node,
        dialect: Dialect,
        sql: &P,
    ) -> Result<Delete, KindFault>
        requires same { dialect ≡ P.dialect }
        ensures read { Reads (a_delete dialect node.now) result }
        ensures right { IfOk result (λ x. is_for dialect x ≡ true) }
    {
        known(alloc, node, &KEYS)?;
        let table_name = required(alloc, node, "tableName")?;
        let test = where_test(alloc, node, dialect, sql)?;
        public(alloc, node)?;
        Ok(Delete { table_name, test })
    }
}

impl Change for Delete {
    ghost use Rattle.lq_data.specs.Delete.{canonical_of, effect, gives, inverse, is_for, is_fresh, does, restores, returned, spelled, told};
    ghost use Rattle.lq_data.specs.declared.delete.Delete.{Delete};

    ghost Key = { Delete };

    ghost key = { λ change. change };

    ghost is_for = { is_for };

    ghost effect = { effect };

    ghost fresh = { is_fresh };

    ghost gives = { gives };

    ghost inverse = { inverse };

    ghost canonical = { canonical_of };

    fn statements(
        &self,
        alloc: Global,
        _dialect: Dialect,
        to: &mut Items<Statement>,
    ) -> Result<(), NoMemory> {
        to.push(Statement::Delete {
            table: self.table_name.duplicate(alloc)?,
            test: test_of(alloc, &self.test)?,
        })?;
        Ok(())
    }

    fn undo(&self, _alloc: Global, _dialect: Dialect) -> Result<Undo, NoMemory> {
        Ok(Undo::Absent)
    }

    fn is_fresh<K: Look>(&self, _dialect: Dialect, _look: &K) -> bool {
        true
    }

    fn canon(&self, to: &mut Canon) -> Result<(), NoMemory> {
        write_change(
            to,
            "delete",
            &[
                ("tableName", Some(Field::Name(&self.table_name))),
                ("where", where_field(&self.test)),
            ],
        )
    }

    ghost spelled = { spelled };

    ghost returned = { returned };

    ghost does = { does };

    ghost restores = { restores };

    ghost told = { told };
}
