ghost use Rattle.std.specs.Prelude.{◌≡◌, IfOk, true};
ghost use Rattle.lq_tree.specs.Look.{Reads};
ghost use Rattle.lq_views.specs.RenameSequence.{is_for, rename_sequence};

use crate::sequences::for_postgresql;
use lq_base::{Dialect, Duplicate, Items, KindFault, Name, NoMemory};
use lq_model::{Canon, Change, Field, Look, SqlText, Statement, Undo, write_change};
use lq_tree::{Node, known, public, required};
use std::alloc::Global;

/// A sequence gets another name (Liquibase's documentation, "renameSequence").
#[derive(Drop)]
pub struct RenameSequence {
    pub old_sequence_name: Name,
    pub new_sequence_name: Name,
}

const KEYS: [&str; 5] = [
    "oldSequenceName",
    "newSequenceName",
    "schemaName",
    "catalogName",
    "remarks",
];

impl RenameSequence {
    /// What a node states, or the first fault: first `NotFor` under MySQL, then in the order of the
    /// keys.
    #[tactic(auto, unfolding(crate::specs::RenameSequence::rename_sequence))]
    pub fn read<P: SqlText>(
        alloc: Global,
        node: &Node,
        dialect: Dialect,
        _sql: &P,
    ) -> Result<RenameSequence, KindFault>
        ensures read { Reads (rename_sequence dialect node.now) result }
        ensures right { IfOk result (λ x. is_for dialect x ≡ true) }
    {
        for_postgresql(alloc, dialect)?;
        known(alloc, node, &KEYS)?;
        let old_sequence_name = required(alloc, node, "oldSequenceName")?;
        let new_sequence_name = required(alloc, node, "newSequenceName")?;
        public(alloc, node)?;
        Ok(RenameSequence {
            old_sequence_name,
            new_sequence_name,
        })
    }
}

impl Change for RenameSequence {
    ghost use Rattle.lq_views.specs.RenameSequence.{canonical_of, effect, gives, inverse, is_for, is_fresh, does, restores, returned, spelled, told};
    ghost use Rattle.lq_views.specs.declared.rename_sequence.RenameSequence.{RenameSequence};

    ghost Key = { RenameSequence };

    ghost key = { λ change. change };

    ghost is_for = { is_for };

    ghost effect = { effect };

    ghost fresh = { is_fresh };

    ghost gives = { gives };

    ghost inverse = { inverse };

    ghost canonical = { canonical_of };

    fn statements(
        &self,
        alloc: Global,
        _dialect: Dialect,
        to: &mut Items<Statement>,
    ) -> Result<(), NoMemory> {
        to.push(Statement::RenameSequence {
            name: self.old_sequence_name.duplicate(alloc)?,
            to: self.new_sequence_name.duplicate(alloc)?,
        })?;
        Ok(())
    }

    fn undo(&self, alloc: Global, _dialect: Dialect) -> Result<Undo, NoMemory> {
        let mut statements = Items::new(alloc);
        statements.push(Statement::RenameSequence {
            name: self.new_sequence_name.duplicate(alloc)?,
            to: self.old_sequence_name.duplicate(alloc)?,
        })?;
        Ok(Undo::Generated(statements))
    }

    fn is_fresh<K: Look>(&self, _dialect: Dialect, _look: &K) -> bool {
        true
    }

    fn canon(&self, to: &mut Canon) -> Result<(), NoMemory> {
        write_change(
            to,
            "renameSequence",
            &[
                (
                    "oldSequenceName",
                    Some(Field::Name(&self.old_sequence_name)),
                ),
                (
                    "newSequenceName",
                    Some(Field::Name(&self.new_sequence_name)),
                ),
            ],
        )
    }

    ghost spelled = { spelled };

    ghost returned = { returned };

    ghost does = { does };

    ghost restores = { restores };

    ghost told = { told };
}
