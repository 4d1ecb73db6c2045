ghost use Rattle.std.specs.Prelude.{◌≡◌, IfOk, map, true};
ghost use Rattle.csv.specs.Records.{fields_of};
ghost use Rattle.lq_base.specs.Name.{is_name};
ghost use Rattle.lq_tree.specs.Look.{Reads};
ghost use Rattle.lq_load.specs.LoadData.{is_for, load_data, rows_found};

use crate::inserts::push_inserts;
use crate::load_keys::LoadKeys;
use crate::records::all_records;
use crate::rows::{columns_of, rows_of};
use crate::written::RowsAt;
use csv::ByteRecord;
use lq_base::{Dialect, Items, KindFault, Name, NoMemory, Text};
use lq_model::{Canon, Change, Field, Fields, Look, Statement, Undo, write_change_of};
use lq_tree::{Node, bad_key};
use std::alloc::Global;

/// The rows of a file of separated fields are put into a table (Liquibase's documentation, "loadData").
pub struct LoadData {
    pub table_name: Name,
    /// The file's heading.
    pub columns: Items<Name>,
    /// The file's other records, each with a field for each column.
    pub rows: Items<Items<Text>>,
}

// Written out, so that each place that lets one go is one call.
impl Drop for LoadData {
    fn drop(self) {
        let LoadData {
            table_name,
            columns,
            rows,
        } = self;
        drop(table_name);
        drop(columns);
        drop(rows);
    }
}

fn rows_found(
    alloc: Global,
    table_name: Name,
    records: &[ByteRecord],
) -> Result<LoadData, KindFault>
    ensures { Reads (rows_found table_name (map fields_of records.now)) result }
{
    let [heading, others @ ..] = records else {
        return Err(bad_key(alloc, "file"));
    };
    let Some(columns) = columns_of(alloc, heading)? else {
        return Err(bad_key(alloc, "file"));
    };
    match rows_of(alloc, others, heading.len())? {
        Some(rows) => Ok(LoadData {
            table_name,
            columns,
            rows,
        }),
        None => Err(bad_key(alloc, "file")),
    }
}

impl LoadData {
    /// What the node states of a file of these bytes, or the first fault in the order of the keys.
    /// `file` is `Bad` after all of these where the bytes are no table: there is no first record, a
    /// record has another length than the first, a field is not UTF-8, or a heading is no name.
    #[tactic(auto, unfolding(crate::specs::LoadData::load_data))]
    pub fn read(
        alloc: Global,
        node: &Node,
        dialect: Dialect,
        bytes: &[u8],
    ) -> Result<LoadData, KindFault>
        ensures read { Reads (load_data bytes.now node.now) result }
        ensures right { IfOk result (λ x. is_for dialect x ≡ true) }
    {
        let _ = dialect;
        let keys = LoadKeys::read(alloc, node)?;
        let LoadKeys {
            table_name,
            file: _,
            is_relative: _,
            separator,
        } = keys;
        let records = all_records(alloc, separator, bytes)?;
        rows_found(alloc, table_name, records.as_slice())
    }
}

impl Change for LoadData {
    ghost use Rattle.lq_load.specs.LoadData.{canonical_of, effect, gives, inverse, is_for, is_fresh, does, restores, returned, spelled, told};
    ghost use Rattle.lq_load.specs.declared.load_data.LoadData.{LoadData};

    ghost Key = { LoadData };

    ghost key = { λ change. change };

    ghost is_for = { is_for };

    ghost effect = { effect };

    ghost fresh = { is_fresh };

    ghost gives = { gives };

    ghost inverse = { inverse };

    ghost canonical = { canonical_of };

    fn statements(
        &self,
        alloc: Global,
        _dialect: Dialect,
        to: &mut Items<Statement>,
    ) -> Result<(), NoMemory> {
        push_inserts(
            alloc,
            &self.table_name,
            &self.columns,
            self.rows.as_slice(),
            to,
        )
    }

    fn undo(&self, _alloc: Global, _dialect: Dialect) -> Result<Undo, NoMemory> {
        Ok(Undo::Absent)
    }

    fn is_fresh<K: Look>(&self, _dialect: Dialect, _look: &K) -> bool {
        true
    }

    fn canon(&self, to: &mut Canon) -> Result<(), NoMemory> {
        let fields = [
            ("tableName", Some(Field::Name(&self.table_name))),
            ("columns", Some(Field::NamesOf(&self.columns))),
        ];
        let rows = RowsAt {
            rows: self.rows.as_slice(),
        };
        write_change_of(to, "loadData", &(Fields(&fields), rows))
    }

    ghost spelled = { spelled };

    ghost returned = { returned };

    ghost does = { does };

    ghost restores = { restores };

    ghost told = { told };
}
