ghost use Rattle.std.specs.Prelude.{◌≡◌, IfOk, true};
ghost use Rattle.lq_codec.specs.State.{are_in_order};

use crate::order::rise;
use crate::tables::put_tables;
use crate::views::{put_sequences, put_views};
use lq_base::NoMemory;
use lq_parts::Parts;
use lq_state::State;
use std::alloc::Global;

/// Whether tables, views and sequences stand in the order of their names.
pub fn are_in_order(state: &State) -> bool
    ensures { result ≡ are_in_order state.now }
{
    rise(state.tables.as_slice())
        && (rise(state.views.as_slice()) && rise(state.sequences.as_slice()))
}

/// The objects of a state whose names rise, as the engine keeps them.
pub fn filled(alloc: Global, state: State) -> Result<Parts, NoMemory>
    requires { are_in_order state ≡ true }
    ensures { IfOk result (λ parts. parts.now ≡ state) }
{
    let State {
        tables,
        views,
        sequences,
    } = state;
    let mut parts = Parts::new(alloc);
    put_tables(alloc, &mut parts, tables)?;
    put_views(alloc, &mut parts, views)?;
    put_sequences(alloc, &mut parts, sequences)?;
    Ok(parts)
}
