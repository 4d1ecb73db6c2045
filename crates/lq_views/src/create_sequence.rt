ghost use Rattle.std.specs.Option.{option_map};
ghost use Rattle.std.specs.Prelude.{◌≡◌, IfOk, Some, true};
ghost use Rattle.lq_model.specs.Changes.{number};
ghost use Rattle.lq_model.specs.TakesBack.{field_value};
ghost use Rattle.lq_tree.specs.Look.{Reads};
ghost use Rattle.lq_views.specs.CreateSequence.{create_sequence, is_for};

use crate::sequences::for_postgresql;
use lq_base::{Dialect, Duplicate, Items, KindFault, Name, NoMemory};
use lq_model::{Canon, Change, Field, Look, SqlText, Statement, Undo, write_change};
use lq_tree::{Given, Node, Reader, bad, known, optional, optional_by, public, required};
use std::alloc::Global;

/// A sequence is made (Liquibase's documentation, "createSequence").
#[derive(Drop)]
pub struct CreateSequence {
    pub sequence_name: Name,
    /// Its first number, 1 where none is stated.
    pub start_value: i128,
    /// By how much each number is above the one before: not 0, and 1 where none is stated.
    pub increment_by: i128,
}

const KEYS: [&str; 6] = [
    "sequenceName",
    "startValue",
    "incrementBy",
    "schemaName",
    "catalogName",
    "remarks",
];

/// Reads by how much the numbers of a sequence rise.
#[derive(Drop)]
struct Increment;

impl Reader for Increment {
    ghost use Rattle.lq_views.specs.CreateSequence.{an_increment, is_increment};

    type Read = i128;

    ghost of = { λ _. an_increment };

    ghost fits = { λ _. is_increment };

    fn read(&self, alloc: Global, node: &Node) -> Result<i128, KindFault> {
        let increment = i128::given(alloc, node)?;
        if increment == 0 {
            return Err(bad(alloc));
        }
        Ok(increment)
    }
}

/// What a key with a number has.
fn number_field(found: i128) -> Option<Field<'static>>
    ensures { option_map field_value result ≡ Some (number found) }
{
    Some(Field::Number(found))
}

impl CreateSequence {
    /// What a node states, or the first fault: first `NotFor` under MySQL, then in the order of the
    /// keys.
    #[tactic(auto, unfolding(crate::specs::CreateSequence::create_sequence))]
    pub fn read<P: SqlText>(
        alloc: Global,
        node: &Node,
        dialect: Dialect,
        _sql: &P,
    ) -> Result<CreateSequence, KindFault>
        ensures read { Reads (create_sequence dialect node.now) result }
        ensures right { IfOk result (λ x. is_for dialect x ≡ true) }
    {
        for_postgresql(alloc, dialect)?;
        known(alloc, node, &KEYS)?;
        let sequence_name = required(alloc, node, "sequenceName")?;
        let start_value: Option<i128> = optional(alloc, node, "startValue")?;
        let increment_by = optional_by(alloc, node, "incrementBy", &Increment)?;
        public(alloc, node)?;
        Ok(CreateSequence {
            sequence_name,
            start_value: start_value.unwrap_or(1),
            increment_by: increment_by.unwrap_or(1),
        })
    }
}

impl Change for CreateSequence {
    ghost use Rattle.lq_views.specs.CreateSequence.{canonical_of, effect, gives, inverse, is_for, is_fresh, does, restores, returned, spelled, told};
    ghost use Rattle.lq_views.specs.declared.create_sequence.CreateSequence.{CreateSequence};

    ghost Key = { CreateSequence };

    ghost key = { λ change. change };

    ghost is_for = { is_for };

    ghost effect = { effect };

    ghost fresh = { is_fresh };

    ghost gives = { gives };

    ghost inverse = { inverse };

    ghost canonical = { canonical_of };

    fn statements(
        &self,
        alloc: Global,
        _dialect: Dialect,
        to: &mut Items<Statement>,
    ) -> Result<(), NoMemory> {
        to.push(Statement::CreateSequence {
            name: self.sequence_name.duplicate(alloc)?,
            start: self.start_value,
            step: self.increment_by,
        })?;
        Ok(())
    }

    fn undo(&self, alloc: Global, _dialect: Dialect) -> Result<Undo, NoMemory> {
        let mut statements = Items::new(alloc);
        statements.push(Statement::DropSequence {
            name: self.sequence_name.duplicate(alloc)?,
        })?;
        Ok(Undo::Generated(statements))
    }

    fn is_fresh<K: Look>(&self, _dialect: Dialect, _look: &K) -> bool {
        true
    }

    fn canon(&self, to: &mut Canon) -> Result<(), NoMemory> {
        write_change(
            to,
            "createSequence",
            &[
                ("sequenceName", Some(Field::Name(&self.sequence_name))),
                ("startValue", number_field(self.start_value)),
                ("incrementBy", number_field(self.increment_by)),
            ],
        )
    }

    ghost spelled = { spelled };

    ghost returned = { returned };

    ghost does = { does };

    ghost restores = { restores };

    ghost told = { told };
}
