ghost use Rattle.std.specs.List.{list_all};
ghost use Rattle.std.specs.Prelude.{◌≡◌, ◌++◌, OnOk, true};
ghost use Rattle.lq_codec.specs.Codec.{both, write_each};
ghost use Rattle.lq_codec.specs.State.{OnTrue, free, if_both};
ghost use Rattle.lq_codec.specs.Tables.{row_codec, table_codec};
ghost use Rattle.lq_codec.specs.Words.{name};
ghost use Rattle.lq_parts.specs.Steps.{tables_of};
ghost use Rattle.lq_state.specs.Shaped.{has_width, is_shaped};

use lq_base::{Name, NoMemory};
use lq_chain::Chain;
use lq_codec::append_number;
use lq_coded::Coded;
use lq_model::Column;
use lq_rows::{Held, Row};
use lq_state::{append_head, append_row};

// Appends the values of all rows.
#[tactic(auto, using(lq_coded::proofs::Each::one_written, lq_coded::proofs::Each::all_written, lq_coded::proofs::Each::one_fits, lq_coded::proofs::Each::all_fit))]
fn append_rows(columns: &[Column], rows: &Chain<Row>, to: &mut Vec<u8>) -> Result<(), NoMemory>
    ensures bytes { OnOk result
        (to.new.items ≡ to.old.items ++ write_each (row_codec columns.now) rows.now.now) }
    ensures fits { OnOk result (OnTrue (list_all (has_width columns.now) rows.now.now)
        (list_all (row_codec columns.now).ok rows.now.now ≡ true)) }
{
    for row in rows.iter() {
        append_row(columns, row, to)?;
    }
    Ok(())
}

#[tactic(auto, unfolding(lq_codec::specs::Tables::table_codec), using(lq_state::proofs::ShapedLemmas::table_fits))]
fn append_table(held: &Held, to: &mut Vec<u8>) -> Result<(), NoMemory>
    ensures bytes { OnOk result
        (to.new.items ≡ to.old.items ++ table_codec.write held.now.now) }
    ensures fits { OnOk result
        (OnTrue (is_shaped held.now.now) (table_codec.ok held.now.now ≡ true)) }
{
    append_head(
        held.columns(),
        &held.shape().key,
        held.uniques(),
        held.foreign_keys(),
        held.indexes(),
        held.next(),
        to,
    )?;
    append_number(held.len() as i128, to)?;
    append_rows(held.columns(), held.rows(), to)?;
    Ok(())
}

// Appends the name and the table of an entry.
#[tactic(auto, using(crate::proofs::EntryLemmas::second_fits))]
fn append_entry(entry: &(Name, Held), to: &mut Vec<u8>) -> Result<(), NoMemory>
    ensures bytes { OnOk result
        (to.new.items
        ≡ to.old.items ++ (both name table_codec).write (entry.now.0, entry.now.1.now)) }
    ensures fits { OnOk result
        (OnTrue (is_shaped entry.now.1.now)
        ((both name table_codec).ok (entry.now.0, entry.now.1.now) ≡ true)) }
{
    entry.0.write(to)?;
    append_table(&entry.1, to)?;
    Ok(())
}

/// Appends the tables with their names.
#[tactic(auto, using(crate::proofs::EntryLemmas::table_written, crate::proofs::EntryLemmas::tables_written, crate::proofs::EntryLemmas::table_entry_fits, crate::proofs::EntryLemmas::tables_fit))]
pub fn append_tables(entries: &[(Name, Held)], to: &mut Vec<u8>) -> Result<(), NoMemory>
    ensures bytes { OnOk result
        (to.new.items
        ≡ to.old.items ++ write_each (both name table_codec) (tables_of entries.now)) }
    ensures fits { OnOk result
        (OnTrue (list_all (if_both free is_shaped) (tables_of entries.now))
        (list_all (both name table_codec).ok (tables_of entries.now) ≡ true)) }
{
    let mut rest = entries;
    while let Some((entry, after)) = rest.split_first() {
        append_entry(entry, to)?;
        rest = after;
    }
    Ok(())
}
