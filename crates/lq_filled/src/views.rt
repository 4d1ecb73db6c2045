ghost use Rattle.std.specs.FinMap.Entries.{is_sorted};
ghost use Rattle.std.specs.Prelude.{◌≡◌, ◌++◌, None, OnOk, reverse, true};
ghost use Rattle.lq_base.specs.Name.{name_cmp};
ghost use Rattle.lq_model.specs.Catalogue.{sequence_of, view_of, with_sequence, with_view};
ghost use Rattle.lq_filled.specs.With.{with_sequences, with_views};

use crate::turned::turned;
use lq_base::{Items, Name, NoMemory};
use lq_parts::{Parts, Sequence as KeptSequence, View as KeptView};
use lq_state::{Sequence, View};
use std::alloc::Global;

fn put_view(parts: &mut Parts, name: Name, view: View) -> Result<(), NoMemory>
    requires { view_of parts.old.now name ≡ None }
    ensures { OnOk result (parts.new.now ≡ with_view parts.old.now name view) }
{
    let View { query, columns } = view;
    parts.put_view(name, KeptView::new(query, columns))?;
    Ok(())
}

/// Puts views behind those that are there, the last of these first.
fn put_all_views(parts: &mut Parts, views: Items<(Name, View)>) -> Result<(), NoMemory>
    requires { is_sorted name_cmp (parts.old.now.views ++ reverse views) ≡ true }
    ensures { OnOk result
        (parts.new.now ≡ with_views (parts.old.now.views ++ reverse views) parts.old.now) }
{
    let mut left = views;
    while let Some((name, view)) = left.pop() {
        put_view(parts, name, view)?;
    }
    Ok(())
}

/// Puts views behind those that are there.
pub fn put_views(
    alloc: Global,
    parts: &mut Parts,
    views: Items<(Name, View)>,
) -> Result<(), NoMemory>
    requires { is_sorted name_cmp (parts.old.now.views ++ views) ≡ true }
    ensures { OnOk result
        (parts.new.now ≡ with_views (parts.old.now.views ++ views) parts.old.now) }
{
    let last_first = turned(alloc, views)?;
    put_all_views(parts, last_first)?;
    Ok(())
}

fn put_sequence(parts: &mut Parts, name: Name, sequence: Sequence) -> Result<(), NoMemory>
    requires { sequence_of parts.old.now name ≡ None }
    ensures { OnOk result (parts.new.now ≡ with_sequence parts.old.now name sequence) }
{
    let Sequence { start, step } = sequence;
    parts.put_sequence(name, KeptSequence::new(start, step))?;
    Ok(())
}

/// Puts sequences behind those that are there, the last of these first.
fn put_all_sequences(parts: &mut Parts, sequences: Items<(Name, Sequence)>) -> Result<(), NoMemory>
    requires { is_sorted name_cmp (parts.old.now.sequences ++ reverse sequences) ≡ true }
    ensures { OnOk result
        (parts.new.now
        ≡ with_sequences (parts.old.now.sequences ++ reverse sequences) parts.old.now) }
{
    let mut left = sequences;
    while let Some((name, sequence)) = left.pop() {
        put_sequence(parts, name, sequence)?;
    }
    Ok(())
}

/// Puts sequences behind those that are there.
pub fn put_sequences(
    alloc: Global,
    parts: &mut Parts,
    sequences: Items<(Name, Sequence)>,
) -> Result<(), NoMemory>
    requires { is_sorted name_cmp (parts.old.now.sequences ++ sequences) ≡ true }
    ensures { OnOk result
        (parts.new.now
        ≡ with_sequences (parts.old.now.sequences ++ sequences) parts.old.now) }
{
    let last_first = turned(alloc, sequences)?;
    put_all_sequences(parts, last_first)?;
    Ok(())
}
