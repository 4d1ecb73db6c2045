ghost use Rattle.std.specs.Prelude.{◌≡◌, ◌||◌, is_none, not};
ghost use Rattle.lq_model.specs.Catalogue.{table_of, the_table, has_column};
ghost use Rattle.lq_columnops.specs.OnColumn.{on_column, on_table};

use lq_arm::Tests;
use lq_base::Name;
use lq_model::By;
use lq_parts::Parts;
use lq_query::is_reserved;
use lq_rows::has_column;

fn is_missing(parts: &Parts, table: &Name) -> bool
    ensures { result ≡ is_none (table_of parts.now.now table.now) }
{
    match parts.table(table) {
        None => true,
        Some(_) => false,
    }
}

/// Whether the table is not there, or lacks the column.
fn is_column_missing(parts: &Parts, table: &Name, column: &Name) -> bool
    ensures { result
        ≡
        (is_none (table_of parts.now.now table.now)
        || not (has_column (the_table parts.now.now table.now) column.now)) }
{
    match parts.table(table) {
        None => true,
        Some(held) => !has_column(held.columns(), column),
    }
}

/// What is asked of every statement on a table.
pub fn table_tests(parts: &Parts, by: By, table: &Name) -> Tests
    ensures { result ≡ on_table by table.now parts.now.now }
{
    Tests {
        reserved: is_reserved(by, table),
        missing: is_missing(parts, table),
        exists: false,
        depends: false,
        wrong: false,
        wide: false,
        nulls: false,
        twins: false,
        orphans: false,
        children: false,
        full: false,
    }
}

/// What is asked of every statement on a column.
pub fn column_tests(parts: &Parts, by: By, table: &Name, column: &Name) -> Tests
    ensures { result ≡ on_column by table.now column.now parts.now.now }
{
    Tests {
        missing: is_column_missing(parts, table, column),
        ..table_tests(parts, by, table)
    }
}
