use crate::coded::Coded;
use lq_base::{Name, NoMemory};
use lq_model::{Query, Test, Wanted};
use std::alloc::Global;

#[tactic(auto, unfolding(lq_codec::specs::Queries::query_codec))]
impl Coded for Query {
    ghost use Rattle.lq_codec.specs.State.{has_levels};
    ghost use Rattle.lq_codec.specs.Queries.{query_codec};

    ghost codec = { query_codec };

    ghost within = { has_levels };

    fn read(alloc: Global, bytes: &[u8]) -> Result<Option<(Query, &[u8])>, NoMemory> {
        match <(Wanted, (Name, Option<Test>))>::read(alloc, bytes)? {
            Some(((wanted, (table, test)), rest)) => {
                let query = Query {
                    wanted,
                    table,
                    test,
                };
                Ok(Some((query, rest)))
            }
            None => Ok(None),
        }
    }

    #[tactic(auto, unfolding(lq_codec::specs::Queries::query_codec), using(crate::proofs::Each::query_fits))]
    fn write(&self, to: &mut Vec<u8>) -> Result<(), NoMemory> {
        self.wanted.write(to)?;
        self.table.write(to)?;
        self.test.write(to)?;
        Ok(())
    }
}
