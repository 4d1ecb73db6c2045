ghost use Rattle.std.specs.List.{find};
ghost use Rattle.std.specs.Option.{option_copied};
ghost use Rattle.std.specs.Prelude.{◌≡◌, length, option_map};
ghost use Rattle.lq_base.specs.Name.{is_named};
ghost use Rattle.lq_engine.specs.State.{State};
ghost use Rattle.lq_model.specs.Catalogue.{sequence_of, view_of, at_table};

use crate::engine::Engine;
use crate::source::{answer_of, source_at};
use lq_base::Name;
use lq_chain::Iter;
use lq_model::{Answered, AskFault, By, Column, ForeignKey, Index, Key, Look, Query, Unique};
use lq_parts::View;
use lq_query::answer;
use lq_rows::Row;
use std::alloc::Global;

impl Look for Engine {
    ghost use Rattle.lq_engine.specs.State.{State};

    ghost catalogue = { λ e. e.now };

    fn is_table(&self, table: &Name) -> bool {
        self.parts.table(table).is_some()
    }

    fn is_view(&self, view: &Name) -> bool {
        self.parts.view(view).is_some()
    }

    fn is_sequence(&self, sequence: &Name) -> bool {
        self.parts.sequence(sequence).is_some()
    }

    fn column(&self, table: &Name, column: &Name) -> Option<&Column> {
        match self.parts.table(table) {
            None => None,
            Some(held) => find_column(held.columns(), column),
        }
    }

    fn key(&self, table: &Name) -> Option<&Key> {
        match self.parts.table(table) {
            None => None,
            Some(held) => held.key(),
        }
    }

    fn unique(&self, table: &Name, name: &Name) -> Option<&Unique> {
        match self.parts.table(table) {
            None => None,
            Some(held) => find_unique(held.uniques(), name),
        }
    }

    fn foreign_key(&self, table: &Name, name: &Name) -> Option<&ForeignKey> {
        match self.parts.table(table) {
            None => None,
            Some(held) => find_foreign_key(held.foreign_keys(), name),
        }
    }

    fn index(&self, table: &Name, name: &Name) -> Option<&Index> {
        match self.parts.table(table) {
            None => None,
            Some(held) => find_index(held.indexes(), name),
        }
    }

    fn columns(&self, table: &Name) -> Option<&[Column]> {
        match self.parts.table(table) {
            None => None,
            Some(held) => Some(held.columns()),
        }
    }

    fn uniques(&self, table: &Name) -> Option<&[Unique]> {
        match self.parts.table(table) {
            None => None,
            Some(held) => Some(held.uniques()),
        }
    }

    fn foreign_keys(&self, table: &Name) -> Option<&[ForeignKey]> {
        match self.parts.table(table) {
            None => None,
            Some(held) => Some(held.foreign_keys()),
        }
    }

    fn indexes(&self, table: &Name) -> Option<&[Index]> {
        match self.parts.table(table) {
            None => None,
            Some(held) => Some(held.indexes()),
        }
    }

    fn has_null(&self, table: &Name, column: &Name) -> bool {
        match self.parts.table(table) {
            None => false,
            Some(held) => held.has_null(column),
        }
    }

    fn rows(&self, table: &Name) -> Option<u64> {
        match self.parts.table(table) {
            None => None,
            Some(held) => Some(held.len() as u64),
        }
    }

    fn ask(&self, alloc: Global, by: By, query: &Query) -> Result<Answered, AskFault> {
        match self.parts.table(&query.table) {
            Some(held) => answer_of(alloc, by, query, held),
            None => answer(alloc, by, query, source_at(&self.parts, &query.table)),
        }
    }
}

impl Engine {
    /// The rows of the table, in order.
    pub fn rows_of(&self, table: &Name) -> Option<Iter<'_, Row>>
        ensures { result ≡ at_table (λ it. it.rows) self.now.now table.now }
    {
        match self.parts.table(table) {
            None => None,
            Some(held) => Some(held.rows().iter()),
        }
    }

    /// What the next row of the table gets in a numbered column.
    pub fn next_number(&self, table: &Name) -> Option<u64>
        ensures { result ≡ at_table (λ it. it.next) self.now.now table.now }
    {
        match self.parts.table(table) {
            None => None,
            Some(held) => Some(held.next()),
        }
    }

    /// The view of the name.
    pub fn view(&self, view: &Name) -> Option<&View>
        ensures { option_copied result ≡ view_of self.now.now view.now }
    {
        self.parts.view(view)
    }

    /// Where the sequence of the name starts, and its step.
    pub fn sequence(&self, sequence: &Name) -> Option<(i128, i128)>
        ensures { result
            ≡ option_map (λ it. (it.start, it.step)) (sequence_of self.now.now sequence.now) }
    {
        match self.parts.sequence(sequence) {
            None => None,
            Some(it) => Some((it.start(), it.step())),
        }
    }
}

fn find_column<'a>(columns: &'a [Column], name: &Name) -> Option<&'a Column>
    ensures { option_copied result ≡ find (λ column. is_named name.now column.name) columns.now }
{
    columns.iter().find(|column| *name == column.name)
}

fn find_unique<'a>(uniques: &'a [Unique], name: &Name) -> Option<&'a Unique>
    ensures { option_copied result ≡ find (λ unique. is_named name.now unique.name) uniques.now }
{
    uniques.iter().find(|unique| *name == unique.name)
}

fn find_foreign_key<'a>(keys: &'a [ForeignKey], name: &Name) -> Option<&'a ForeignKey>
    ensures { option_copied result ≡ find (λ key. is_named name.now key.name) keys.now }
{
    keys.iter().find(|key| *name == key.name)
}

fn find_index<'a>(indexes: &'a [Index], name: &Name) -> Option<&'a Index>
    ensures { option_copied result ≡ find (λ index. is_named name.now index.name) indexes.now }
{
    indexes.iter().find(|index| *name == index.name)
}
