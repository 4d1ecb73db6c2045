ghost use Rattle.std.specs.Prelude.{◌≡◌};

use lq_base::{Duplicate, Items, Name, NoMemory};
use lq_model::Query;
use std::alloc::Global;
use std::marker::Model;

/// A view: its query, and the columns that it has.
#[derive(Drop)]
pub struct View {
    query: Query,
    columns: Items<Name>,
}

impl Model for View {
    ghost use Rattle.lq_model.specs.Catalogue as catalogue;
    ghost use Rattle.lq_model.specs.contracts.test.Test as test;
    ghost use Rattle.std.specs.Coded.{codes};

    ghost Value = { catalogue.View };

    ghost coded = { Prim.hlevel (codes, test.the_row.coded) };

    ghost view = { λ v. record { query = v.query; columns = v.columns } };
}

impl View {
    ghost use Rattle.lq_parts.specs.Taken.{the_view};

    pub fn new(query: Query, columns: Items<Name>) -> View
        ensures { result ≡ the_view query columns }
    {
        View { query, columns }
    }

    pub fn query(&self) -> &Query
        ensures { result.now ≡ self.now.query }
    {
        &self.query
    }

    pub fn columns(&self) -> &[Name]
        ensures { result.now ≡ self.now.columns }
    {
        self.columns.as_slice()
    }
}

impl Duplicate for View {
    fn duplicate(&self, alloc: Global) -> Result<View, NoMemory> {
        let query = self.query.duplicate(alloc)?;
        let columns = self.columns.duplicate(alloc)?;
        Ok(View { query, columns })
    }
}

/// A sequence: where it starts, and by how much each number is above the one before.
#[derive(Drop)]
pub struct Sequence {
    start: i128,
    step: i128,
}

impl Model for Sequence {
    ghost use Rattle.lq_model.specs.Catalogue as catalogue;

    ghost Value = { catalogue.Sequence };

    ghost view = { λ s. record { start = s.start; step = s.step } };
}

impl Sequence {
    ghost use Rattle.lq_parts.specs.Taken.{the_sequence};

    pub fn new(start: i128, step: i128) -> Sequence
        ensures { result ≡ the_sequence start step }
    {
        Sequence { start, step }
    }

    pub fn start(&self) -> i128
        ensures { result ≡ self.now.start }
    {
        self.start
    }

    pub fn step(&self) -> i128
        ensures { result ≡ self.now.step }
    {
        self.step
    }
}
