ghost use Rattle.std.specs.Prelude.{◌≡◌, ◌||◌, is_none, not};
ghost use Rattle.lq_model.specs.Catalogue.{table_of, the_table, has_column};

use lq_base::Name;
use lq_parts::Parts;
use lq_rows::has_column;

/// Whether the table is not there, or lacks the column.
pub fn is_column_missing(parts: &Parts, table: &Name, column: &Name) -> bool
    ensures { result
        ≡
        (is_none (table_of parts.now.now table.now)
        || not (has_column (the_table parts.now.now table.now) column.now)) }
{
    match parts.table(table) {
        None => true,
        Some(held) => !has_column(held.columns(), column),
    }
}

/// Whether the table has a column of the name.
pub fn has_column_of(parts: &Parts, table: &Name, column: &Name) -> bool
    ensures { result ≡ has_column (the_table parts.now.now table.now) column.now }
{
    match parts.table(table) {
        None => false,
        Some(held) => has_column(held.columns(), column),
    }
}
