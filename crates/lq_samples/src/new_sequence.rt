use lq_base::{Dialect, Duplicate, Items, Name, NoMemory};
use lq_model::{Canon, Change, Field, Look, Statement, Undo, write_change};
use std::alloc::Global;

/// A change that makes a sequence which counts from 1 by 1 (Liquibase's documentation, "createSequence").
#[derive(Drop)]
pub struct NewSequence {
    pub name: Name,
}

impl Change for NewSequence {
    ghost use Rattle.lq_base.specs.declared.name.Name.{Name};
    ghost use Rattle.lq_samples.specs.NewSequence.{canonical_of, effect, gives, inverse, is_for, is_fresh};
    ghost use Rattle.lq_samples.specs.NewSequenceLaws.{does, restores, returned, spelled, told};

    ghost Key = { Name };

    ghost key = { λ change. change.name };

    ghost is_for = { is_for };

    ghost effect = { effect };

    ghost fresh = { is_fresh };

    ghost gives = { gives };

    ghost inverse = { inverse };

    ghost canonical = { canonical_of };

    fn statements(
        &self,
        alloc: Global,
        _dialect: Dialect,
        to: &mut Items<Statement>,
    ) -> Result<(), NoMemory> {
        to.push(Statement::CreateSequence {
            name: self.name.duplicate(alloc)?,
            start: 1,
            step: 1,
        })?;
        Ok(())
    }

    fn undo(&self, alloc: Global, _dialect: Dialect) -> Result<Undo, NoMemory> {
        let mut statements = Items::new(alloc);
        statements.push(Statement::DropSequence {
            name: self.name.duplicate(alloc)?,
        })?;
        Ok(Undo::Generated(statements))
    }

    fn is_fresh<K: Look>(&self, _dialect: Dialect, _look: &K) -> bool {
        true
    }

    fn canon(&self, to: &mut Canon) -> Result<(), NoMemory> {
        write_change(
            to,
            "createSequence",
            &[("sequenceName", Some(Field::Name(&self.name)))],
        )
    }

    ghost spelled = { spelled };

    ghost returned = { returned };

    ghost does = { does };

    ghost restores = { restores };

    ghost told = { told };
}
