ghost use Rattle.std.specs.Prelude.{◌≡◌, IfOk, true};
ghost use Rattle.lq_tree.specs.Look.{Reads};
ghost use Rattle.lq_data.specs.Empty.{an_empty, is_for};

use lq_base::{Dialect, Items, KindFault, NoMemory};
use lq_model::{Canon, Change, Look, SqlText, Statement, Undo, write_change};
use lq_tree::{Node, known, public};
use std::alloc::Global;

/// Nothing is done (Liquibase's documentation, "empty").
#[derive(Drop)]
pub struct Empty;

const KEYS: [&str; 3] = ["schemaName", "catalogName", "remarks"];

impl Empty {
    /// What a node states, or the first fault in the order of the keys.
    #[tactic(auto, unfolding(crate::specs::Empty::an_empty))]
    pub fn read<P: SqlText>(
        alloc: Global,
        node: &Node,
        dialect: Dialect,
        _sql: &P,
    ) -> Result<Empty, KindFault>
        ensures read { Reads (an_empty node.now) result }
        ensures right { IfOk result (λ x. is_for dialect x ≡ true) }
    {
        known(alloc, node, &KEYS)?;
        public(alloc, node)?;
        Ok(Empty)
    }
}

impl Change for Empty {
    ghost use Rattle.lq_data.specs.Empty.{canonical_of, effect, gives, inverse, is_for, is_fresh, does, restores, returned, spelled, told};
    ghost use Rattle.lq_data.specs.declared.empty.Empty.{Empty};

    ghost Key = { Empty };

    ghost key = { λ change. change };

    ghost is_for = { is_for };

    ghost effect = { effect };

    ghost fresh = { is_fresh };

    ghost gives = { gives };

    ghost inverse = { inverse };

    ghost canonical = { canonical_of };

    fn statements(
        &self,
        _alloc: Global,
        _dialect: Dialect,
        _to: &mut Items<Statement>,
    ) -> Result<(), NoMemory> {
        Ok(())
    }

    fn undo(&self, alloc: Global, _dialect: Dialect) -> Result<Undo, NoMemory> {
        Ok(Undo::Generated(Items::new(alloc)))
    }

    fn is_fresh<K: Look>(&self, _dialect: Dialect, _look: &K) -> bool {
        true
    }

    fn canon(&self, to: &mut Canon) -> Result<(), NoMemory> {
        write_change(to, "empty", &[])
    }

    ghost spelled = { spelled };

    ghost returned = { returned };

    ghost does = { does };

    ghost restores = { restores };

    ghost told = { told };
}
