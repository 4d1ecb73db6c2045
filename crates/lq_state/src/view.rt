use lq_base::{Items, Name, NoMemory};
use lq_coded::{Coded, append_names};
use lq_model::Query;
use std::alloc::Global;
use std::marker::Model;

/// A view: its query, and the columns that it has.
#[derive(Drop)]
pub struct View {
    pub query: Query,
    pub columns: Items<Name>,
}

impl Model for View {
    ghost use Rattle.lq_model.specs.Catalogue as catalogue;
    ghost use Rattle.lq_model.specs.contracts.test.Test as test;
    ghost use Rattle.std.specs.Coded.{codes};

    ghost Value = { catalogue.View };

    ghost coded = { Prim.hlevel (codes, test.the_row.coded) };

    ghost view = { λ v. record { query = v.query; columns = v.columns } };
}

#[tactic(auto, unfolding(lq_codec::specs::Tables::view_codec))]
impl Coded for View {
    ghost use Rattle.lq_codec.specs.Tables.{view_codec};
    ghost use Rattle.lq_state.specs.Shaped.{is_shaped_view};

    ghost codec = { view_codec };

    ghost within = { is_shaped_view };

    fn read(alloc: Global, bytes: &[u8]) -> Result<Option<(View, &[u8])>, NoMemory> {
        match <(Query, Items<Name>)>::read(alloc, bytes)? {
            Some(((query, columns), rest)) => Ok(Some((View { query, columns }, rest))),
            None => Ok(None),
        }
    }

    #[tactic(auto, unfolding(lq_codec::specs::Tables::view_codec), using(crate::proofs::ShapedLemmas::first_fits))]
    fn write(&self, to: &mut Vec<u8>) -> Result<(), NoMemory> {
        self.query.write(to)?;
        append_names(&self.columns, to)?;
        Ok(())
    }
}
