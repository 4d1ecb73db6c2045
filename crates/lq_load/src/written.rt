//! Rows in canonical text.
ghost use Rattle.std.specs.Prelude.{◌≡◌, ◌++◌, OnErr, OnOk};
ghost use Rattle.lq_model.specs.Changes.{GoesOn, canonical, canonical_values, list};
ghost use Rattle.lq_model.specs.TakesBack.{texts};
ghost use Rattle.lq_load.specs.LoadData.{lists};

use lq_base::{Items, NoMemory, Text};
use lq_model::{Canon, Written};

/// The key `rows`, which has a list of lists of texts.
#[derive(Drop)]
pub struct RowsAt<'a> {
    pub rows: &'a [Items<Text>],
}

// A loop, as below: a record may have as many fields.
fn write_texts(to: &mut Canon, row: &[Text]) -> Result<(), NoMemory>
    ensures written { OnOk result
        (to.new.written ≡ to.old.written ++ canonical_values (texts row.now)) }
    ensures begun { OnOk result (to.new.begun ≡ to.old.begun) }
    ensures front { OnErr result (GoesOn to.old to.new) }
{
    for field in row {
        to.text(field.as_str())?;
    }
    Ok(())
}

fn write_row(to: &mut Canon, row: &[Text]) -> Result<(), NoMemory>
    ensures written { OnOk result
        (to.new.written ≡ to.old.written ++ canonical (list (texts row.now))) }
    ensures begun { OnOk result (to.new.begun ≡ to.old.begun) }
    ensures front { OnErr result (GoesOn to.old to.new) }
{
    to.begin_list()?;
    write_texts(to, row)?;
    to.end_list()
}

// A loop, since a file may have more rows than a stack has room for calls.
fn write_rows(to: &mut Canon, rows: &[Items<Text>]) -> Result<(), NoMemory>
    ensures written { OnOk result
        (to.new.written ≡ to.old.written ++ canonical_values (lists rows.now)) }
    ensures begun { OnOk result (to.new.begun ≡ to.old.begun) }
    ensures front { OnErr result (GoesOn to.old to.new) }
{
    for row in rows {
        write_row(to, row.as_slice())?;
    }
    Ok(())
}

fn write_list(to: &mut Canon, rows: &[Items<Text>]) -> Result<(), NoMemory>
    ensures written { OnOk result
        (to.new.written ≡ to.old.written ++ canonical (list (lists rows.now))) }
    ensures begun { OnOk result (to.new.begun ≡ to.old.begun) }
    ensures front { OnErr result (GoesOn to.old to.new) }
{
    to.begin_list()?;
    write_rows(to, rows)?;
    to.end_list()
}

impl Written for RowsAt<'_> {
    ghost use Rattle.std.specs.Prelude.{◌∷◌, [], Some, codes};
    ghost use Rattle.lq_model.specs.Changes.{list};
    ghost use Rattle.lq_load.specs.LoadData.{lists};

    ghost rows = { λ at. (codes "rows", Some (list (lists at.rows.now))) ∷ [] };

    fn write(&self, to: &mut Canon) -> Result<(), NoMemory> {
        to.key("rows")?;
        write_list(to, self.rows)
    }
}
