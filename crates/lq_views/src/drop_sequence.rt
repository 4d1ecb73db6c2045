ghost use Rattle.std.specs.Prelude.{◌≡◌, IfOk, true};
ghost use Rattle.lq_tree.specs.Look.{Reads};
ghost use Rattle.lq_views.specs.DropSequence.{drop_sequence, is_for};

use crate::sequences::for_postgresql;
use lq_base::{Dialect, Duplicate, Items, KindFault, Name, NoMemory};
use lq_model::{Canon, Change, Field, Look, SqlText, Statement, Undo, write_change};
use lq_tree::{Node, known, public, required};
use std::alloc::Global;

/// A sequence is dropped (Liquibase's documentation, "dropSequence").
#[derive(Drop)]
pub struct DropSequence {
    pub sequence_name: Name,
}

const KEYS: [&str; 4] = ["sequenceName", "schemaName", "catalogName", "remarks"];

impl DropSequence {
    /// What a node states, or the first fault: first `NotFor` under MySQL, then in the order of the
    /// keys.
    #[tactic(auto, unfolding(crate::specs::DropSequence::drop_sequence))]
    pub fn read<P: SqlText>(
        alloc: Global,
        node: &Node,
        dialect: Dialect,
        _sql: &P,
    ) -> Result<DropSequence, KindFault>
        ensures read { Reads (drop_sequence dialect node.now) result }
        ensures right { IfOk result (λ x. is_for dialect x ≡ true) }
    {
        for_postgresql(alloc, dialect)?;
        known(alloc, node, &KEYS)?;
        let sequence_name = required(alloc, node, "sequenceName")?;
        public(alloc, node)?;
        Ok(DropSequence { sequence_name })
    }
}

impl Change for DropSequence {
    ghost use Rattle.lq_views.specs.DropSequence.{canonical_of, effect, gives, inverse, is_for, is_fresh, does, restores, returned, spelled, told};
    ghost use Rattle.lq_views.specs.declared.drop_sequence.DropSequence.{DropSequence};

    ghost Key = { DropSequence };

    ghost key = { λ change. change };

    ghost is_for = { is_for };

    ghost effect = { effect };

    ghost fresh = { is_fresh };

    ghost gives = { gives };

    ghost inverse = { inverse };

    ghost canonical = { canonical_of };

    fn statements(
        &self,
        alloc: Global,
        _dialect: Dialect,
        to: &mut Items<Statement>,
    ) -> Result<(), NoMemory> {
        to.push(Statement::DropSequence {
            name: self.sequence_name.duplicate(alloc)?,
        })?;
        Ok(())
    }

    fn undo(&self, _alloc: Global, _dialect: Dialect) -> Result<Undo, NoMemory> {
        Ok(Undo::Absent)
    }

    fn is_fresh<K: Look>(&self, _dialect: Dialect, _look: &K) -> bool {
        true
    }

    fn canon(&self, to: &mut Canon) -> Result<(), NoMemory> {
        write_change(
            to,
            "dropSequence",
            &[("sequenceName", Some(Field::Name(&self.sequence_name)))],
        )
    }

    ghost spelled = { spelled };

    ghost returned = { returned };

    ghost does = { does };

    ghost restores = { restores };

    ghost told = { told };
}
