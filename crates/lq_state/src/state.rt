ghost use Rattle.std.specs.Prelude.{◌≡◌, ◌++◌, Some, None, MatchOption, IfOk, OnOk, true};
ghost use Rattle.lq_codec.specs.Tables.{bytes_of, can_be_written, catalogue_of};
ghost use Rattle.lq_codec.specs.State.{OnTrue};
ghost use Rattle.lq_state.specs.Shaped.{is_shaped_whole};

use crate::sequence::Sequence;
use crate::table::Table;
use crate::view::View;
use lq_base::{Items, Name, NoMemory};
use lq_coded::Coded;
use std::alloc::Global;
use std::marker::Model;

/// The tables, views and sequences of a database, each list in the order in which it is written.
#[derive(Drop)]
pub struct State {
    pub tables: Items<(Name, Table)>,
    pub views: Items<(Name, View)>,
    pub sequences: Items<(Name, Sequence)>,
}

impl Model for State {
    ghost use Rattle.lq_model.specs.Catalogue as catalogue;
    ghost use Rattle.lq_model.specs.contracts.test.Test as test;
    ghost use Rattle.std.specs.Coded.{codes};

    ghost Value = { catalogue.Catalogue };

    ghost coded = { Prim.hlevel (codes, test.the_row.coded) };

    ghost view = { λ s. record {
      tables = s.tables;
      views = s.views;
      sequences = s.sequences;
    } };
}

impl Coded for State {
    ghost use Rattle.lq_codec.specs.Tables.{catalogue_codec};
    ghost use Rattle.lq_state.specs.Shaped.{is_shaped_whole};

    ghost codec = { catalogue_codec };

    ghost within = { is_shaped_whole };

    fn read(alloc: Global, bytes: &[u8]) -> Result<Option<(State, &[u8])>, NoMemory> {
        match <(
            Items<(Name, Table)>,
            (Items<(Name, View)>, Items<(Name, Sequence)>),
        )>::read(alloc, bytes)?
        {
            Some(((tables, (views, sequences)), rest)) => {
                let state = State {
                    tables,
                    views,
                    sequences,
                };
                Ok(Some((state, rest)))
            }
            None => Ok(None),
        }
    }

    fn write(&self, to: &mut Vec<u8>) -> Result<(), NoMemory> {
        self.tables.write(to)?;
        self.views.write(to)?;
        self.sequences.write(to)?;
        Ok(())
    }
}

impl State {
    /// The state whose bytes these are, all of them. None where they are no state's.
    #[tactic(auto, unfolding(lq_codec::specs::Tables::catalogue_of))]
    pub fn of_bytes(alloc: Global, bytes: &[u8]) -> Result<Option<State>, NoMemory>
        ensures { IfOk result (λ found. MatchOption found (catalogue_of bytes.now ≡ None)
            (λ state. catalogue_of bytes.now ≡ Some state)) }
    {
        match State::read(alloc, bytes)? {
            Some((state, rest)) => {
                if rest.is_empty() {
                    Ok(Some(state))
                } else {
                    Ok(None)
                }
            }
            None => Ok(None),
        }
    }

    /// Its bytes.
    #[tactic(auto, unfolding(lq_codec::specs::Tables::bytes_of, lq_codec::specs::Tables::can_be_written))]
    pub fn bytes(&self, alloc: Global) -> Result<Vec<u8>, NoMemory>
        ensures bytes { IfOk result (λ bytes. bytes.items ≡ bytes_of self.now) }
        ensures fits { OnOk result
            (OnTrue (is_shaped_whole self.now) (can_be_written self.now ≡ true)) }
    {
        let mut bytes = Vec::new(alloc);
        self.write(&mut bytes)?;
        Ok(bytes)
    }
}
