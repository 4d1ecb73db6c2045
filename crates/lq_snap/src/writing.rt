ghost use Rattle.std.specs.List.{list_all};
ghost use Rattle.std.specs.Prelude.{◌≡◌, ◌++◌, IfOk, OnOk, Some, true};
ghost use Rattle.lq_codec.specs.Codec.{both, counted};
ghost use Rattle.lq_codec.specs.Tables.{bytes_of, can_be_written, sequence_codec, view_codec, table_codec};
ghost use Rattle.lq_codec.specs.State.{OnTrue, free, if_both, state_of};
ghost use Rattle.lq_codec.specs.Words.{count, name};
ghost use Rattle.lq_parts.specs.Steps.{tables_of};
ghost use Rattle.lq_state.specs.Shaped.{is_shaped, is_shaped_view, is_shaped_whole};

use crate::objects::{append_sequences, append_views};
use crate::tables::append_tables;
use lq_base::{Name, NoMemory};
use lq_coded::Coded;
use lq_engine::Engine;
use lq_parts::{Parts, Sequence, View};
use lq_rows::Held;
use std::alloc::Global;

fn append_all_tables(entries: &[(Name, Held)], to: &mut Vec<u8>) -> Result<(), NoMemory>
    ensures bytes { OnOk result
        (to.new.items
        ≡ to.old.items ++ (counted count (both name table_codec)).write (tables_of entries.now)) }
    ensures fits { OnOk result
        (OnTrue (list_all (if_both free is_shaped) (tables_of entries.now))
        ((counted count (both name table_codec)).ok (tables_of entries.now) ≡ true)) }
{
    let n = entries.len() as u64;
    n.write(to)?;
    append_tables(entries, to)?;
    Ok(())
}

#[tactic(auto, using(lq_coded::proofs::Each::list_fits))]
fn append_all_views(entries: &[(Name, View)], to: &mut Vec<u8>) -> Result<(), NoMemory>
    ensures bytes { OnOk result
        (to.new.items
        ≡ to.old.items ++ (counted count (both name view_codec)).write entries.now) }
    ensures fits { OnOk result
        (OnTrue (list_all (if_both free is_shaped_view) entries.now)
        ((counted count (both name view_codec)).ok entries.now ≡ true)) }
{
    let n = entries.len() as u64;
    n.write(to)?;
    append_views(entries, to)?;
    Ok(())
}

#[tactic(auto, using(lq_codec::proofs::Laws::both_true))]
fn append_all_sequences(entries: &[(Name, Sequence)], to: &mut Vec<u8>) -> Result<(), NoMemory>
    ensures bytes { OnOk result
        (to.new.items
        ≡ to.old.items ++ (counted count (both name sequence_codec)).write entries.now) }
    ensures fits { OnOk result
        ((counted count (both name sequence_codec)).ok entries.now ≡ true) }
{
    let n = entries.len() as u64;
    n.write(to)?;
    append_sequences(entries, to)?;
    Ok(())
}

fn written(alloc: Global, parts: &Parts) -> Result<Vec<u8>, NoMemory>
    ensures bytes { IfOk result (λ bytes. bytes.items ≡ bytes_of parts.now.now) }
    ensures fits { OnOk result
        (OnTrue (is_shaped_whole parts.now.now) (can_be_written parts.now.now ≡ true)) }
{
    let mut bytes = Vec::new(alloc);
    append_all_tables(parts.tables(), &mut bytes)?;
    append_all_views(parts.views(), &mut bytes)?;
    append_all_sequences(parts.sequences(), &mut bytes)?;
    Ok(bytes)
}

/// The bytes of the engine's catalogue, which are read as the state that it is.
pub fn write(alloc: Global, engine: &Engine) -> Result<Vec<u8>, NoMemory>
    ensures bytes { IfOk result (λ bytes. bytes.items ≡ bytes_of engine.now.now) }
    ensures reads { IfOk result
        (λ bytes. state_of engine.now.dialect bytes.items ≡ Some engine.now.now) }
{
    engine.sound();
    let bytes = written(alloc, engine.parts())?;
    Ok(bytes)
}
