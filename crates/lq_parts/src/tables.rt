ghost use Rattle.std.specs.BTreeMap.{insert_entry};
ghost use Rattle.std.specs.List.{insert, remove};
ghost use Rattle.std.specs.Map.{lookup, remove_entry, set_value};
ghost use Rattle.std.specs.Option.{unwrap_or};
ghost use Rattle.std.specs.Prelude.{◌≡◌, ◌+◌, ◌<◌, ◌≤◌, None, [], IfOk, OnErr, OnOk, is_some, length, option_map, true, vec_len};
ghost use Rattle.std.specs.Vec.{vec_capacity};
ghost use Rattle.lq_base.specs.Name.{is_named, name_cmp};
ghost use Rattle.lq_chain.specs.History.{back, changed, history, undone_to};
ghost use Rattle.lq_chain.specs.Marks.{kept_rows, replaced};
ghost use Rattle.lq_model.specs.Catalogue.{no_table};
ghost use Rattle.lq_parts.specs.Taken.{IsOrdered, position_of};
ghost use Rattle.lq_parts.specs.Steps.{HasMark, HasPlace, before, edit_at, moved, tables_of};
ghost use Rattle.lq_rows.specs.Stored.{ArePlaces, has_values_in, reshaped, rows_of, with_all, with_row, with_row_at, with_rows, with_shape, without_row};
ghost use Rattle.lq_model.specs.Plan.{is_twin};

use crate::entries::{find, place, standing};
use crate::step::Step;
use lq_base::{Name, NoMemory, Value};
use lq_rows::{Held, Row, Shape, Values};
use std::alloc::Global;
use std::marker::Model;

/// The tables of a catalogue in the order of their names, with what is needed to undo their changes
/// since the last `forget`.
#[derive(Drop)]
pub struct Tables {
    entries: Vec<(Name, Held)>,
    /// The changes since the last `forget`, the newest last.
    done: Vec<Step>,
}

impl Model for Tables {
    ghost use Rattle.lq_chain.specs.History.{History, history};
    ghost use Rattle.lq_base.specs.declared.name.Name.{Name};
    ghost use Rattle.lq_model.specs.Catalogue.{Table};
    ghost use Rattle.std.specs.Prelude.{List, reverse};

    ghost Value = { History (List (Name × Table)) };

    ghost use Rattle.std.specs.Vec.{vec_capacity};
    ghost use Rattle.lq_parts.specs.Taken.{IsOrdered};
    ghost use Rattle.lq_parts.specs.Steps.{CanUndo, past_tables, tables_of};

    ghost view = { λ t. history (tables_of t.entries.items) (past_tables t.entries.items (reverse t.done.items)) };

    ghost invariant = { λ t. IsOrdered t.entries.items × CanUndo (vec_capacity t.entries) t.entries.items (reverse t.done.items) };
}

impl Tables {
    /// No tables, and nothing to undo.
    pub fn new(alloc: Global) -> Tables
        ensures { result ≡ history [] [] }
    {
        Tables {
            entries: Vec::new(alloc),
            done: Vec::new(alloc),
        }
    }

    /// The table of the name.
    #[tactic(auto, using(crate::proofs::StepLemmas::table_found))]
    pub fn get(&self, name: &Name) -> Option<&Held>
        ensures { option_map (λ held. held.now.now) result
            ≡ lookup (is_named name.now) self.now.now }
    {
        find(&self.entries, name)
    }

    /// All in the order of their names.
    pub fn entries(&self) -> &[(Name, Held)]
        ensures { tables_of result.now ≡ self.now.now }
    {
        self.entries.as_slice()
    }

    /// Whether a row of the table has these values in these columns.
    pub fn has_row(
        &mut self,
        alloc: Global,
        table: &Name,
        columns: &[Name],
        values: &Values,
    ) -> Result<bool, NoMemory>
        ensures found { IfOk result (λ found.
            found
            ≡ has_values_in columns.now values.now
            (unwrap_or (lookup (is_named table.now) self.old.now) no_table)) }
        ensures same { self.new ≡ self.old }
    {
        if self.get(table).is_none() {
            return Ok(false);
        }
        has_row_in(&mut self.entries, alloc, table, columns, values)
    }

    /// Places of rows of the table, rising, among which each row stands that begins with the text.
    pub fn places(
        &mut self,
        alloc: Global,
        table: &Name,
        first: &str,
    ) -> Result<Vec<usize>, NoMemory>
        requires { is_some (lookup (is_named table.now) self.old.now) ≡ true }
        ensures places { IfOk result (λ places.
            ArePlaces first.now
            (unwrap_or (lookup (is_named table.now) self.old.now) no_table).rows places.items) }
        ensures same { self.new ≡ self.old }
    {
        places_in(&mut self.entries, alloc, table, first)
    }

    /// Whether a row of the table is equal to this one in a key, a unique constraint or a unique index.
    pub fn is_twin(&mut self, alloc: Global, table: &Name, row: &[Value]) -> Result<bool, NoMemory>
        requires { is_some (lookup (is_named table.now) self.old.now) ≡ true }
        ensures found { IfOk result (λ found.
            found
            ≡ is_twin (unwrap_or (lookup (is_named table.now) self.old.now) no_table) row.now) }
        ensures same { self.new ≡ self.old }
    {
        is_twin_of(&mut self.entries, alloc, table, row)
    }

    /// Puts a new table at its name, or changes nothing.
    #[tactic(auto, using(crate::proofs::StepLemmas::newest_first, crate::proofs::StepLemmas::step_undone, crate::proofs::StepLemmas::step_past, crate::proofs::StepLemmas::undo_with_more))]
    pub fn put(&mut self, name: Name, held: Held) -> Result<(), NoMemory>
        requires { lookup (is_named name) self.old.now ≡ None }
        ensures ok { OnOk result
            (self.new ≡ changed self.old (insert_entry name_cmp self.old.now name held.now)) }
        ensures err { OnErr result (self.new ≡ self.old) }
    {
        self.done.reserve(1)?;
        let step = put_in(&mut self.entries, name, held)?;
        self.done.push_reserved(step);
        Ok(())
    }

    /// Takes the table of the name away, or changes nothing.
    #[tactic(auto, using(crate::proofs::StepLemmas::newest_first, crate::proofs::StepLemmas::step_undone, crate::proofs::StepLemmas::step_past, crate::proofs::StepLemmas::undo_with_more))]
    pub fn take(&mut self, name: &Name) -> Result<(), NoMemory>
        requires { is_some (lookup (is_named name.now) self.old.now) ≡ true }
        ensures ok { OnOk result
            (self.new ≡ changed self.old (remove_entry (is_named name.now) self.old.now)) }
        ensures err { OnErr result (self.new ≡ self.old) }
    {
        self.done.reserve(1)?;
        let step = take_out(&mut self.entries, name);
        self.done.push_reserved(step);
        Ok(())
    }

    /// Gives the table of a name another one, or changes nothing.
    #[tactic(auto, using(crate::proofs::StepLemmas::newest_first, crate::proofs::StepLemmas::step_undone, crate::proofs::StepLemmas::step_past, crate::proofs::StepLemmas::undo_with_more))]
    pub fn rename(&mut self, name: &Name, to: Name) -> Result<(), NoMemory>
        requires there { is_some (lookup (is_named name.now) self.old.now) ≡ true }
        requires absent { lookup (is_named to) self.old.now ≡ None }
        ensures ok { OnOk result
            (self.new
            ≡ changed self.old
            (insert_entry name_cmp (remove_entry (is_named name.now) self.old.now) to
            (unwrap_or (lookup (is_named name.now) self.old.now) no_table))) }
        ensures err { OnErr result (self.new ≡ self.old) }
    {
        self.done.reserve(1)?;
        let step = rename_in(&mut self.entries, name, to);
        self.done.push_reserved(step);
        Ok(())
    }

    /// Gives the table another shape, its rows as they are, or changes nothing.
    #[tactic(auto, using(crate::proofs::StepLemmas::newest_first, crate::proofs::StepLemmas::step_undone, crate::proofs::StepLemmas::step_past, crate::proofs::StepLemmas::undo_with_more))]
    pub fn shape(&mut self, name: &Name, shape: Shape) -> Result<(), NoMemory>
        requires { is_some (lookup (is_named name.now) self.old.now) ≡ true }
        ensures ok { OnOk result
            (self.new
            ≡ changed self.old
            (set_value (is_named name.now) self.old.now
            (with_shape shape
            (unwrap_or (lookup (is_named name.now) self.old.now) no_table)))) }
        ensures err { OnErr result (self.new ≡ self.old) }
    {
        self.done.reserve(1)?;
        let step = shape_in(&mut self.entries, name, shape);
        self.done.push_reserved(step);
        Ok(())
    }

    /// Adds a row to the table, or changes nothing.
    #[tactic(auto, using(crate::proofs::StepLemmas::newest_first, crate::proofs::StepLemmas::step_undone, crate::proofs::StepLemmas::step_past, crate::proofs::StepLemmas::undo_with_more))]
    pub fn append(
        &mut self,
        alloc: Global,
        name: &Name,
        row: Row,
        next: u64,
    ) -> Result<(), NoMemory>
        requires { is_some (lookup (is_named name.now) self.old.now) ≡ true }
        ensures ok { OnOk result
            (self.new
            ≡ changed self.old
            (set_value (is_named name.now) self.old.now
            (with_row row next
            (unwrap_or (lookup (is_named name.now) self.old.now) no_table)))) }
        ensures err { OnErr result (self.new ≡ self.old) }
    {
        self.done.reserve(1)?;
        let step = append_in(&mut self.entries, alloc, name, row, next)?;
        self.done.push_reserved(step);
        Ok(())
    }

    /// Puts other rows of the table in place of those where there is one, or changes nothing.
    #[tactic(auto, using(crate::proofs::StepLemmas::newest_first, crate::proofs::StepLemmas::step_undone, crate::proofs::StepLemmas::step_past, crate::proofs::StepLemmas::undo_with_more))]
    pub fn replace_some(
        &mut self,
        alloc: Global,
        name: &Name,
        by: Vec<Option<Row>>,
    ) -> Result<(), NoMemory>
        requires there { is_some (lookup (is_named name.now) self.old.now) ≡ true }
        requires each { length by.items
            ≡ length (unwrap_or (lookup (is_named name.now) self.old.now) no_table).rows }
        ensures ok { OnOk result
            (self.new
            ≡ changed self.old
            (set_value (is_named name.now) self.old.now
            (with_all (replaced by.items)
            (unwrap_or (lookup (is_named name.now) self.old.now) no_table)))) }
        ensures err { OnErr result (self.new ≡ self.old) }
    {
        self.done.reserve(1)?;
        let step = replace_in(&mut self.entries, alloc, name, by)?;
        self.done.push_reserved(step);
        Ok(())
    }

    /// Keeps the rows of the table whose mark stands and takes the others out, or changes nothing.
    #[tactic(auto, using(crate::proofs::StepLemmas::newest_first, crate::proofs::StepLemmas::step_undone, crate::proofs::StepLemmas::step_past, crate::proofs::StepLemmas::undo_with_more))]
    pub fn keep(&mut self, alloc: Global, name: &Name, marks: Vec<bool>) -> Result<(), NoMemory>
        requires there { is_some (lookup (is_named name.now) self.old.now) ≡ true }
        requires each { length marks.items
            ≡ length (unwrap_or (lookup (is_named name.now) self.old.now) no_table).rows }
        ensures ok { OnOk result
            (self.new
            ≡ changed self.old
            (set_value (is_named name.now) self.old.now
            (with_all (kept_rows marks.items)
            (unwrap_or (lookup (is_named name.now) self.old.now) no_table)))) }
        ensures err { OnErr result (self.new ≡ self.old) }
    {
        self.done.reserve(1)?;
        let step = keep_in(&mut self.entries, alloc, name, marks)?;
        self.done.push_reserved(step);
        Ok(())
    }

    /// Takes the row of the table at the place out, or changes nothing.
    #[tactic(auto, using(crate::proofs::StepLemmas::newest_first, crate::proofs::StepLemmas::step_undone, crate::proofs::StepLemmas::step_past, crate::proofs::StepLemmas::undo_with_more))]
    pub fn take_out(&mut self, name: &Name, at: usize) -> Result<(), NoMemory>
        requires there { is_some (lookup (is_named name.now) self.old.now) ≡ true }
        requires within { at
            < length (unwrap_or (lookup (is_named name.now) self.old.now) no_table).rows }
        ensures ok { OnOk result
            (self.new
            ≡ changed self.old
            (set_value (is_named name.now) self.old.now
            (without_row at
            (unwrap_or (lookup (is_named name.now) self.old.now) no_table)))) }
        ensures err { OnErr result (self.new ≡ self.old) }
    {
        self.done.reserve(1)?;
        let step = take_row_in(&mut self.entries, name, at)?;
        self.done.push_reserved(step);
        Ok(())
    }

    /// Puts another row of the table in place of the one at the place, or changes nothing.
    #[tactic(auto, using(crate::proofs::StepLemmas::newest_first, crate::proofs::StepLemmas::step_undone, crate::proofs::StepLemmas::step_past, crate::proofs::StepLemmas::undo_with_more))]
    pub fn replace(&mut self, name: &Name, at: usize, row: Row) -> Result<(), NoMemory>
        requires there { is_some (lookup (is_named name.now) self.old.now) ≡ true }
        requires within { at
            < length (unwrap_or (lookup (is_named name.now) self.old.now) no_table).rows }
        ensures ok { OnOk result
            (self.new
            ≡ changed self.old
            (set_value (is_named name.now) self.old.now
            (with_row_at at row
            (unwrap_or (lookup (is_named name.now) self.old.now) no_table)))) }
        ensures err { OnErr result (self.new ≡ self.old) }
    {
        self.done.reserve(1)?;
        let step = put_row_in(&mut self.entries, name, at, row)?;
        self.done.push_reserved(step);
        Ok(())
    }

    /// Undoes the last change, if there is one.
    pub fn step_back(&mut self)
        ensures { self.new ≡ back 1 self.old.now self.old.past }
    {
        if let Some(step) = self.done.pop() {
            go_back(&mut self.entries, step);
        }
    }

    /// Keeps the tables as they are: nothing can be undone.
    pub fn forget(&mut self)
        ensures { self.new ≡ history self.old.now [] }
    {
        if moves_behind_rows(&self.done) {
            forget_all(&mut self.entries);
        } else {
            forget_changed(&mut self.entries, &self.done);
        }
        self.done.clear();
    }
}

#[tactic(auto, using(crate::proofs::StepLemmas::put_tables, crate::proofs::StepLemmas::put_back, crate::proofs::StepLemmas::put_place, crate::proofs::StepLemmas::put_ordered))]
fn put_in(entries: &mut Vec<(Name, Held)>, name: Name, held: Held) -> Result<Step, NoMemory>
    requires ordered { IsOrdered entries.old.items }
    requires absent { lookup (is_named name) (tables_of entries.old.items) ≡ None }
    ensures back { IfOk result (λ step. before step entries.new.items ≡ entries.old.items) }
    ensures place { IfOk result (λ step. HasPlace step entries.new.items) }
    ensures tables { OnOk result
        (tables_of entries.new.items
        ≡ insert_entry name_cmp (tables_of entries.old.items) name held.now) }
    ensures ordered { OnOk result (IsOrdered entries.new.items) }
    ensures err { OnErr result (entries.new.items ≡ entries.old.items) }
    ensures capacity { vec_capacity entries.old ≤ vec_capacity entries.new }
    ensures room { length entries.old.items ≤ vec_capacity entries.new }
{
    entries.reserve(1)?;
    let at = place(entries, &name);
    entries.insert(at, (name, held))?;
    Ok(Step::Put { at })
}

#[tactic(auto, using(crate::proofs::StepLemmas::take_tables, crate::proofs::StepLemmas::table_there, crate::proofs::StepLemmas::take_back, crate::proofs::StepLemmas::take_place, crate::proofs::EntryLemmas::ordered_less))]
fn take_out(entries: &mut Vec<(Name, Held)>, name: &Name) -> Step
    requires ordered { IsOrdered entries.old.items }
    requires there { is_some (lookup (is_named name.now) (tables_of entries.old.items)) ≡ true }
    ensures back { before result entries.new.items ≡ entries.old.items }
    ensures place { HasPlace result entries.new.items }
    ensures tables { tables_of entries.new.items
        ≡ remove_entry (is_named name.now) (tables_of entries.old.items) }
    ensures ordered { IsOrdered entries.new.items }
    ensures capacity { vec_capacity entries.old ≡ vec_capacity entries.new }
    ensures room { length entries.old.items ≤ vec_capacity entries.new }
{
    let at = standing(entries, name);
    let (name, held) = entries.remove(at);
    Step::Taken { at, name, held }
}

#[tactic(auto, using(crate::proofs::StepLemmas::table_there, crate::proofs::StepLemmas::rename_back, crate::proofs::StepLemmas::rename_place, crate::proofs::StepLemmas::rename_tables, crate::proofs::StepLemmas::rename_ordered))]
fn rename_in(entries: &mut Vec<(Name, Held)>, name: &Name, to: Name) -> Step
    requires ordered { IsOrdered entries.old.items }
    requires there { is_some (lookup (is_named name.now) (tables_of entries.old.items)) ≡ true }
    requires absent { lookup (is_named to) (tables_of entries.old.items) ≡ None }
    ensures back { before result entries.new.items ≡ entries.old.items }
    ensures place { HasPlace result entries.new.items }
    ensures tables { tables_of entries.new.items
        ≡ insert_entry name_cmp (remove_entry (is_named name.now) (tables_of entries.old.items))
        to
        (unwrap_or (lookup (is_named name.now) (tables_of entries.old.items)) no_table) }
    ensures ordered { IsOrdered entries.new.items }
    ensures capacity { vec_capacity entries.old ≡ vec_capacity entries.new }
    ensures room { length entries.old.items ≤ vec_capacity entries.new }
{
    let from = standing(entries, name);
    let (name, held) = entries.remove(from);
    let at = place(entries, &to);
    put_again(entries, at, to, held);
    Step::Renamed { at, from, name }
}

#[tactic(auto, using(crate::proofs::StepLemmas::table_there, crate::proofs::StepLemmas::shape_back, crate::proofs::StepLemmas::shape_place, crate::proofs::EntryLemmas::ordered_set))]
fn shape_in(entries: &mut Vec<(Name, Held)>, name: &Name, shape: Shape) -> Step
    requires ordered { IsOrdered entries.old.items }
    requires there { is_some (lookup (is_named name.now) (tables_of entries.old.items)) ≡ true }
    ensures back { before result entries.new.items ≡ entries.old.items }
    ensures place { HasPlace result entries.new.items }
    ensures tables { tables_of entries.new.items
        ≡ set_value (is_named name.now) (tables_of entries.old.items)
        (with_shape shape
        (unwrap_or (lookup (is_named name.now) (tables_of entries.old.items)) no_table)) }
    ensures ordered { IsOrdered entries.new.items }
    ensures capacity { vec_capacity entries.old ≡ vec_capacity entries.new }
    ensures room { length entries.old.items ≤ vec_capacity entries.new }
{
    let at = standing(entries, name);
    let held = &mut entries[at].1;
    let old = held.reshape(shape);
    Step::Shaped { at, shape: old }
}

#[tactic(auto, using(crate::proofs::StepLemmas::table_there, crate::proofs::EntryLemmas::ordered_set))]
fn append_in(
    entries: &mut Vec<(Name, Held)>,
    alloc: Global,
    name: &Name,
    row: Row,
    next: u64,
) -> Result<Step, NoMemory>
    requires ordered { IsOrdered entries.old.items }
    requires there { is_some (lookup (is_named name.now) (tables_of entries.old.items)) ≡ true }
    ensures back { IfOk result (λ step. before step entries.new.items ≡ entries.old.items) }
    ensures place { IfOk result (λ step. HasPlace step entries.new.items) }
    ensures tables { OnOk result
        (tables_of entries.new.items
        ≡ set_value (is_named name.now) (tables_of entries.old.items)
        (with_row row next
        (unwrap_or (lookup (is_named name.now) (tables_of entries.old.items))
        no_table))) }
    ensures ordered { OnOk result (IsOrdered entries.new.items) }
    ensures err { OnErr result (entries.new.items ≡ entries.old.items) }
    ensures capacity { vec_capacity entries.old ≡ vec_capacity entries.new }
    ensures room { length entries.old.items ≤ vec_capacity entries.new }
{
    let at = standing(entries, name);
    let held = &mut entries[at].1;
    let mark = held.mark();
    let before = held.next();
    held.append(alloc, row, next)?;
    Ok(Step::Rows {
        at,
        mark,
        next: before,
    })
}

#[tactic(auto, using(crate::proofs::StepLemmas::table_there, crate::proofs::EntryLemmas::ordered_set))]
fn replace_in(
    entries: &mut Vec<(Name, Held)>,
    alloc: Global,
    name: &Name,
    by: Vec<Option<Row>>,
) -> Result<Step, NoMemory>
    requires ordered { IsOrdered entries.old.items }
    requires there { is_some (lookup (is_named name.now) (tables_of entries.old.items)) ≡ true }
    requires each { length by.items
        ≡ length
        (unwrap_or (lookup (is_named name.now) (tables_of entries.old.items)) no_table).rows }
    ensures back { IfOk result (λ step. before step entries.new.items ≡ entries.old.items) }
    ensures place { IfOk result (λ step. HasPlace step entries.new.items) }
    ensures tables { OnOk result
        (tables_of entries.new.items
        ≡ set_value (is_named name.now) (tables_of entries.old.items)
        (with_all (replaced by.items)
        (unwrap_or (lookup (is_named name.now) (tables_of entries.old.items))
        no_table))) }
    ensures ordered { OnOk result (IsOrdered entries.new.items) }
    ensures err { OnErr result (entries.new.items ≡ entries.old.items) }
    ensures capacity { vec_capacity entries.old ≡ vec_capacity entries.new }
    ensures room { length entries.old.items ≤ vec_capacity entries.new }
{
    let at = standing(entries, name);
    let held = &mut entries[at].1;
    let mark = held.mark();
    let next = held.next();
    held.replace_some(alloc, by)?;
    Ok(Step::Rows { at, mark, next })
}

#[tactic(auto, using(crate::proofs::StepLemmas::table_there, crate::proofs::EntryLemmas::ordered_set))]
fn keep_in(
    entries: &mut Vec<(Name, Held)>,
    alloc: Global,
    name: &Name,
    marks: Vec<bool>,
) -> Result<Step, NoMemory>
    requires ordered { IsOrdered entries.old.items }
    requires there { is_some (lookup (is_named name.now) (tables_of entries.old.items)) ≡ true }
    requires each { length marks.items
        ≡ length
        (unwrap_or (lookup (is_named name.now) (tables_of entries.old.items)) no_table).rows }
    ensures back { IfOk result (λ step. before step entries.new.items ≡ entries.old.items) }
    ensures place { IfOk result (λ step. HasPlace step entries.new.items) }
    ensures tables { OnOk result
        (tables_of entries.new.items
        ≡ set_value (is_named name.now) (tables_of entries.old.items)
        (with_all (kept_rows marks.items)
        (unwrap_or (lookup (is_named name.now) (tables_of entries.old.items))
        no_table))) }
    ensures ordered { OnOk result (IsOrdered entries.new.items) }
    ensures err { OnErr result (entries.new.items ≡ entries.old.items) }
    ensures capacity { vec_capacity entries.old ≡ vec_capacity entries.new }
    ensures room { length entries.old.items ≤ vec_capacity entries.new }
{
    let at = standing(entries, name);
    let held = &mut entries[at].1;
    let mark = held.mark();
    let next = held.next();
    held.keep(alloc, marks)?;
    Ok(Step::Rows { at, mark, next })
}

#[tactic(auto, using(crate::proofs::StepLemmas::table_there, crate::proofs::EntryLemmas::ordered_set))]
fn take_row_in(entries: &mut Vec<(Name, Held)>, name: &Name, at: usize) -> Result<Step, NoMemory>
    requires ordered { IsOrdered entries.old.items }
    requires there { is_some (lookup (is_named name.now) (tables_of entries.old.items)) ≡ true }
    requires within { at
        < length
        (unwrap_or (lookup (is_named name.now) (tables_of entries.old.items)) no_table).rows }
    ensures back { IfOk result (λ step. before step entries.new.items ≡ entries.old.items) }
    ensures place { IfOk result (λ step. HasPlace step entries.new.items) }
    ensures tables { OnOk result
        (tables_of entries.new.items
        ≡ set_value (is_named name.now) (tables_of entries.old.items)
        (without_row at
        (unwrap_or (lookup (is_named name.now) (tables_of entries.old.items))
        no_table))) }
    ensures ordered { OnOk result (IsOrdered entries.new.items) }
    ensures err { OnErr result (entries.new.items ≡ entries.old.items) }
    ensures capacity { vec_capacity entries.old ≡ vec_capacity entries.new }
    ensures room { length entries.old.items ≤ vec_capacity entries.new }
{
    let place = standing(entries, name);
    let held = &mut entries[place].1;
    let mark = held.mark();
    let next = held.next();
    held.take_out(at)?;
    Ok(Step::Rows {
        at: place,
        mark,
        next,
    })
}

#[tactic(auto, using(crate::proofs::StepLemmas::table_there, crate::proofs::EntryLemmas::ordered_set))]
fn put_row_in(
    entries: &mut Vec<(Name, Held)>,
    name: &Name,
    at: usize,
    row: Row,
) -> Result<Step, NoMemory>
    requires ordered { IsOrdered entries.old.items }
    requires there { is_some (lookup (is_named name.now) (tables_of entries.old.items)) ≡ true }
    requires within { at
        < length
        (unwrap_or (lookup (is_named name.now) (tables_of entries.old.items)) no_table).rows }
    ensures back { IfOk result (λ step. before step entries.new.items ≡ entries.old.items) }
    ensures place { IfOk result (λ step. HasPlace step entries.new.items) }
    ensures tables { OnOk result
        (tables_of entries.new.items
        ≡ set_value (is_named name.now) (tables_of entries.old.items)
        (with_row_at at row
        (unwrap_or (lookup (is_named name.now) (tables_of entries.old.items))
        no_table))) }
    ensures ordered { OnOk result (IsOrdered entries.new.items) }
    ensures err { OnErr result (entries.new.items ≡ entries.old.items) }
    ensures capacity { vec_capacity entries.old ≡ vec_capacity entries.new }
    ensures room { length entries.old.items ≤ vec_capacity entries.new }
{
    let place = standing(entries, name);
    let held = &mut entries[place].1;
    let mark = held.mark();
    let next = held.next();
    held.replace(at, row)?;
    Ok(Step::Rows {
        at: place,
        mark,
        next,
    })
}

#[tactic(auto, using(crate::proofs::StepLemmas::table_there))]
fn places_in(
    entries: &mut Vec<(Name, Held)>,
    alloc: Global,
    table: &Name,
    first: &str,
) -> Result<Vec<usize>, NoMemory>
    requires ordered { IsOrdered entries.old.items }
    requires there { is_some (lookup (is_named table.now) (tables_of entries.old.items)) ≡ true }
    ensures places { IfOk result (λ places.
        ArePlaces first.now
        (unwrap_or (lookup (is_named table.now) (tables_of entries.old.items)) no_table).rows
        places.items) }
    ensures items { entries.new.items ≡ entries.old.items }
    ensures capacity { vec_capacity entries.old ≡ vec_capacity entries.new }
{
    let at = standing(entries, table);
    let held = &mut entries[at].1;
    held.places(alloc, first)
}

#[tactic(auto, using(crate::proofs::StepLemmas::table_there))]
fn has_row_in(
    entries: &mut Vec<(Name, Held)>,
    alloc: Global,
    table: &Name,
    columns: &[Name],
    values: &Values,
) -> Result<bool, NoMemory>
    requires ordered { IsOrdered entries.old.items }
    requires there { is_some (lookup (is_named table.now) (tables_of entries.old.items)) ≡ true }
    ensures found { IfOk result (λ found.
        found
        ≡ has_values_in columns.now values.now
        (unwrap_or (lookup (is_named table.now) (tables_of entries.old.items)) no_table)) }
    ensures items { entries.new.items ≡ entries.old.items }
    ensures capacity { vec_capacity entries.old ≡ vec_capacity entries.new }
{
    let at = standing(entries, table);
    let held = &mut entries[at].1;
    held.has_row(alloc, columns, values)
}

#[tactic(auto, using(crate::proofs::StepLemmas::table_there))]
fn is_twin_of(
    entries: &mut Vec<(Name, Held)>,
    alloc: Global,
    table: &Name,
    row: &[Value],
) -> Result<bool, NoMemory>
    requires ordered { IsOrdered entries.old.items }
    requires there { is_some (lookup (is_named table.now) (tables_of entries.old.items)) ≡ true }
    ensures found { IfOk result (λ found.
        found
        ≡ is_twin (unwrap_or (lookup (is_named table.now) (tables_of entries.old.items)) no_table)
        row.now) }
    ensures items { entries.new.items ≡ entries.old.items }
    ensures capacity { vec_capacity entries.old ≡ vec_capacity entries.new }
{
    let at = standing(entries, table);
    let held = &mut entries[at].1;
    held.is_twin(alloc, row)
}

/// Gives the entries before the change. There is room for them.
fn go_back(entries: &mut Vec<(Name, Held)>, step: Step)
    requires place { HasPlace step entries.old.items }
    requires room { length (before step entries.old.items) ≤ vec_capacity entries.old }
    ensures items { entries.new.items ≡ before step entries.old.items }
    ensures capacity { vec_capacity entries.new ≡ vec_capacity entries.old }
{
    match step {
        Step::Put { at } => {
            let _ = entries.remove(at);
        }
        Step::Taken { at, name, held } => {
            let _ = entries.insert(at, (name, held));
        }
        Step::Renamed { at, from, name } => move_back(entries, at, from, name),
        Step::Shaped { at, shape } => shape_back(entries, at, shape),
        Step::Rows { at, mark, next } => rows_back(entries, at, mark, next),
    }
}

fn move_back(entries: &mut Vec<(Name, Held)>, at: usize, from: usize, name: Name)
    requires place { at < vec_len entries.old }
    requires from { from < vec_len entries.old }
    ensures items { entries.new.items ≡ moved at from name entries.old.items }
    ensures len { vec_len entries.new ≡ vec_len entries.old }
    ensures capacity { vec_capacity entries.new ≡ vec_capacity entries.old }
{
    let (_, held) = entries.remove(at);
    put_again(entries, from, name, held);
}

fn put_again(entries: &mut Vec<(Name, Held)>, at: usize, name: Name, held: Held)
    requires place { at ≤ vec_len entries.old }
    requires room { vec_len entries.old < vec_capacity entries.old }
    ensures items { entries.new.items ≡ insert entries.old.items at (name, held) }
    ensures len { vec_len entries.new ≡ vec_len entries.old + 1 }
    ensures capacity { vec_capacity entries.new ≡ vec_capacity entries.old }
{
    // There is room, since there were as many before.
    let _ = entries.insert(at, (name, held));
}

fn shape_back(entries: &mut Vec<(Name, Held)>, at: usize, shape: Shape)
    requires place { at < vec_len entries.old }
    ensures items { entries.new.items
        ≡ edit_at at (λ e. (e.0, reshaped shape e.1)) entries.old.items }
    ensures len { vec_len entries.new ≡ vec_len entries.old }
    ensures capacity { vec_capacity entries.new ≡ vec_capacity entries.old }
{
    let held = &mut entries[at].1;
    let _ = held.reshape(shape);
}

fn rows_back(entries: &mut Vec<(Name, Held)>, at: usize, mark: u64, next: u64)
    requires place { at < vec_len entries.old }
    requires mark { HasMark at mark entries.old.items }
    ensures items { entries.new.items
        ≡ edit_at at (λ e. (e.0, with_rows (undone_to (rows_of e.1) mark) next e.1))
        entries.old.items }
    ensures len { vec_len entries.new ≡ vec_len entries.old }
    ensures capacity { vec_capacity entries.new ≡ vec_capacity entries.old }
{
    let held = &mut entries[at].1;
    held.go_back(mark, next);
}

/// Whether a table came, went or got another name after rows were changed, so that those are perhaps
/// no longer at the place that the step tells.
fn moves_behind_rows(done: &[Step]) -> bool {
    let mut has_rows = false;
    for step in done {
        match step {
            Step::Rows { .. } => has_rows = true,
            Step::Shaped { .. } => {}
            Step::Put { .. } | Step::Taken { .. } | Step::Renamed { .. } => {
                if has_rows {
                    return true;
                }
            }
        }
    }
    false
}

/// Only tables whose rows were changed have something to forget.
fn forget_changed(entries: &mut Vec<(Name, Held)>, done: &[Step])
    ensures tables { tables_of entries.new.items ≡ tables_of entries.old.items }
    ensures ordered { IsOrdered entries.old.items → IsOrdered entries.new.items }
{
    for step in done {
        forget_rows(entries, step);
    }
}

fn forget_rows(entries: &mut Vec<(Name, Held)>, step: &Step)
    ensures tables { tables_of entries.new.items ≡ tables_of entries.old.items }
    ensures ordered { IsOrdered entries.old.items → IsOrdered entries.new.items }
{
    match step {
        Step::Rows { at, .. } => forget_there(entries, *at),
        _ => {}
    }
}

fn forget_there(entries: &mut Vec<(Name, Held)>, at: usize)
    ensures tables { tables_of entries.new.items ≡ tables_of entries.old.items }
    ensures ordered { IsOrdered entries.old.items → IsOrdered entries.new.items }
{
    if at < entries.len() {
        forget_at(entries, at);
    }
}

fn forget_all(entries: &mut Vec<(Name, Held)>)
    ensures tables { tables_of entries.new.items ≡ tables_of entries.old.items }
    ensures ordered { IsOrdered entries.old.items → IsOrdered entries.new.items }
{
    for at in 0..entries.len() {
        forget_at(entries, at);
    }
}

fn forget_at(entries: &mut Vec<(Name, Held)>, at: usize)
    requires { at < vec_len entries.old }
    ensures tables { tables_of entries.new.items ≡ tables_of entries.old.items }
    ensures ordered { IsOrdered entries.old.items → IsOrdered entries.new.items }
    ensures len { vec_len entries.new ≡ vec_len entries.old }
{
    let held = &mut entries[at].1;
    held.forget();
}
