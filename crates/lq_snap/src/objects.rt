ghost use Rattle.std.specs.List.{list_all};
ghost use Rattle.std.specs.Prelude.{◌≡◌, ◌++◌, OnOk, true};
ghost use Rattle.lq_codec.specs.Codec.{both, write_each};
ghost use Rattle.lq_codec.specs.Tables.{sequence_codec, view_codec};
ghost use Rattle.lq_codec.specs.State.{OnTrue, free, if_both};
ghost use Rattle.lq_codec.specs.Queries.{names};
ghost use Rattle.lq_codec.specs.Words.{name};
ghost use Rattle.lq_state.specs.Shaped.{is_shaped_view};

use lq_base::{Name, NoMemory};
use lq_coded::{Coded, append_list};
use lq_parts::{Sequence, View};

#[tactic(auto, using(lq_coded::proofs::Each::list_free))]
fn append_names(items: &[Name], to: &mut Vec<u8>) -> Result<(), NoMemory>
    ensures bytes { OnOk result (to.new.items ≡ to.old.items ++ names.write items.now) }
    ensures fits { OnOk result (names.ok items.now ≡ true) }
{
    append_list(items, to)?;
    Ok(())
}

#[tactic(auto, unfolding(lq_codec::specs::Tables::view_codec), using(lq_state::proofs::ShapedLemmas::first_fits))]
fn append_view(view: &View, to: &mut Vec<u8>) -> Result<(), NoMemory>
    ensures bytes { OnOk result (to.new.items ≡ to.old.items ++ view_codec.write view.now) }
    ensures fits { OnOk result
        (OnTrue (is_shaped_view view.now) (view_codec.ok view.now ≡ true)) }
{
    view.query().write(to)?;
    append_names(view.columns(), to)?;
    Ok(())
}

// Appends the name and the view of an entry.
#[tactic(auto, using(crate::proofs::EntryLemmas::second_fits))]
fn append_view_entry(entry: &(Name, View), to: &mut Vec<u8>) -> Result<(), NoMemory>
    ensures bytes { OnOk result
        (to.new.items ≡ to.old.items ++ (both name view_codec).write entry.now) }
    ensures fits { OnOk result (OnTrue (if_both free is_shaped_view entry.now)
        ((both name view_codec).ok entry.now ≡ true)) }
{
    entry.0.write(to)?;
    append_view(&entry.1, to)?;
    Ok(())
}

/// Appends the views with their names.
#[tactic(auto, using(lq_coded::proofs::Each::one_written, lq_coded::proofs::Each::all_written, lq_coded::proofs::Each::one_fits, lq_coded::proofs::Each::all_fit))]
pub fn append_views(entries: &[(Name, View)], to: &mut Vec<u8>) -> Result<(), NoMemory>
    ensures bytes { OnOk result
        (to.new.items ≡ to.old.items ++ write_each (both name view_codec) entries.now) }
    ensures fits { OnOk result (OnTrue (list_all (if_both free is_shaped_view) entries.now)
        (list_all (both name view_codec).ok entries.now ≡ true)) }
{
    let mut rest = entries;
    while let Some((entry, after)) = rest.split_first() {
        append_view_entry(entry, to)?;
        rest = after;
    }
    Ok(())
}

#[tactic(auto, unfolding(lq_codec::specs::Tables::sequence_codec))]
fn append_sequence(sequence: &Sequence, to: &mut Vec<u8>) -> Result<(), NoMemory>
    ensures bytes { OnOk result
        (to.new.items ≡ to.old.items ++ sequence_codec.write sequence.now) }
    ensures fits { OnOk result (sequence_codec.ok sequence.now ≡ true) }
{
    sequence.start().write(to)?;
    sequence.step().write(to)?;
    Ok(())
}

// Appends the name and the sequence of an entry.
fn append_sequence_entry(entry: &(Name, Sequence), to: &mut Vec<u8>) -> Result<(), NoMemory>
    ensures bytes { OnOk result
        (to.new.items ≡ to.old.items ++ (both name sequence_codec).write entry.now) }
    ensures fits { OnOk result ((both name sequence_codec).ok entry.now ≡ true) }
{
    entry.0.write(to)?;
    append_sequence(&entry.1, to)?;
    Ok(())
}

/// Appends the sequences with their names.
#[tactic(auto, using(lq_coded::proofs::Each::one_written, lq_coded::proofs::Each::all_written, crate::proofs::EntryLemmas::next_fits, crate::proofs::EntryLemmas::all_fit))]
pub fn append_sequences(entries: &[(Name, Sequence)], to: &mut Vec<u8>) -> Result<(), NoMemory>
    ensures bytes { OnOk result
        (to.new.items ≡ to.old.items ++ write_each (both name sequence_codec) entries.now) }
    ensures fits { OnOk result
        (list_all (both name sequence_codec).ok entries.now ≡ true) }
{
    let mut rest = entries;
    while let Some((entry, after)) = rest.split_first() {
        append_sequence_entry(entry, to)?;
        rest = after;
    }
    Ok(())
}
