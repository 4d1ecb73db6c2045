ghost use Rattle.std.specs.Option.{option_copied};
ghost use Rattle.std.specs.Prelude.{◌≡◌, false, is_some, length, option_map, unwrap_or};
ghost use Rattle.lq_model.specs.Catalogue.{Catalogue, sequence_of, table_of, view_of, IsAnswer, at_table, column_at, foreign_key_at, has_null_in, index_at, key_at, unique_at};
ghost use Rattle.lq_model.specs.Views.{answer};

use crate::caller::By;
use crate::column::Column;
use crate::constraint::{ForeignKey, Key, Unique};
use crate::fault::AskFault;
use crate::index::Index;
use crate::query::{Answered, Query};
use lq_base::Name;
use std::alloc::Global;

/// A catalogue that can be looked at, in which the tracking tables are tables.
///
/// A call that gives one thing answers `None` exactly where there is no such table, or the table has no
/// such thing. One that gives a slice answers `None` exactly where there is no such table.
pub trait Look {
    /// The catalogue that is seen.
    ghost catalogue: { Self → Catalogue };

    fn is_table(&self, table: &Name) -> bool
        ensures { result ≡ is_some (table_of (catalogue self.now) table.now) };

    fn is_view(&self, view: &Name) -> bool
        ensures { result ≡ is_some (view_of (catalogue self.now) view.now) };

    fn is_sequence(&self, sequence: &Name) -> bool
        ensures { result ≡ is_some (sequence_of (catalogue self.now) sequence.now) };

    fn column(&self, table: &Name, column: &Name) -> Option<&Column>
        ensures { option_copied result ≡ column_at (catalogue self.now) table.now column.now };

    fn key(&self, table: &Name) -> Option<&Key>
        ensures { option_copied result ≡ key_at (catalogue self.now) table.now };

    fn unique(&self, table: &Name, name: &Name) -> Option<&Unique>
        ensures { option_copied result ≡ unique_at (catalogue self.now) table.now name.now };

    fn foreign_key(&self, table: &Name, name: &Name) -> Option<&ForeignKey>
        ensures { option_copied result ≡ foreign_key_at (catalogue self.now) table.now name.now };

    fn index(&self, table: &Name, name: &Name) -> Option<&Index>
        ensures { option_copied result ≡ index_at (catalogue self.now) table.now name.now };

    fn columns(&self, table: &Name) -> Option<&[Column]>
        ensures { option_map (λ columns. columns.now) result
            ≡ at_table (λ it. it.columns) (catalogue self.now) table.now };

    fn uniques(&self, table: &Name) -> Option<&[Unique]>
        ensures { option_map (λ uniques. uniques.now) result
            ≡ at_table (λ it. it.uniques) (catalogue self.now) table.now };

    fn foreign_keys(&self, table: &Name) -> Option<&[ForeignKey]>
        ensures { option_map (λ keys. keys.now) result
            ≡ at_table (λ it. it.foreign) (catalogue self.now) table.now };

    fn indexes(&self, table: &Name) -> Option<&[Index]>
        ensures { option_map (λ indexes. indexes.now) result
            ≡ at_table (λ it. it.indexes) (catalogue self.now) table.now };

    /// Whether a row of the table has a null in that column.
    fn has_null(&self, table: &Name, column: &Name) -> bool
        ensures { result ≡ unwrap_or (at_table (has_null_in column.now) (catalogue self.now)
            table.now) false };

    /// How many rows the table has.
    fn rows(&self, table: &Name) -> Option<u64>
        ensures { result ≡ at_table (λ it. length it.rows) (catalogue self.now) table.now };

    /// The answer to a query on someone's behalf, or the first reason against it (`answer`).
    fn ask(&self, alloc: Global, by: By, query: &Query) -> Result<Answered, AskFault>
        ensures { IsAnswer (answer by query.now (catalogue self.now)) result };
}
