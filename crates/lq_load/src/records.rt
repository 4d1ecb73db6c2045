//! The records of a text of separated fields.
ghost use Rattle.std.specs.Prelude.{◌≡◌, IfOk, map};
ghost use Rattle.csv.specs.Reading.{AreRecords, strip_bom};
ghost use Rattle.csv.specs.Records.{fields_of};
ghost use Rattle.csv.specs.declared.parser.State.TheVariants as st;
ghost use Rattle.lq_load.specs.LoadKeys.{config, records_in};

use csv::{ByteRecord, Error, ReaderBuilder};
use lq_base::NoMemory;
use std::alloc::Global;

/// All records of the bytes, whatever their lengths and their bytes.
pub fn all_records(alloc: Global, separator: u8, bytes: &[u8]) -> Result<Vec<ByteRecord>, NoMemory>
    ensures { IfOk result (λ found. map fields_of found.items ≡ records_in separator bytes.now) }
{
    match records_of(alloc, separator, bytes) {
        Ok(found) => Ok(found),
        Err(_) => Err(NoMemory),
    }
}

// Bytes in memory are read without a fault but want of memory.
fn records_of(alloc: Global, separator: u8, bytes: &[u8]) -> Result<Vec<ByteRecord>, Error>
    ensures { IfOk result (λ v.
        AreRecords (config separator) st.StartRecord (strip_bom bytes.now)
        (map fields_of v.items)) }
{
    let rdr = ReaderBuilder::new()
        .has_headers(false)
        .flexible(true)
        .delimiter(separator)
        .from_reader(alloc, bytes);
    let mut rows = Vec::new(alloc);
    for row in rdr.into_byte_records() {
        if rows.push(row?).is_err() {
            return Err(Error::out_of_memory());
        }
    }
    Ok(rows)
}
