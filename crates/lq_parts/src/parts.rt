ghost use Rattle.std.specs.Bool.{OnTrue};
ghost use Rattle.std.specs.List.{flat_map};
ghost use Rattle.std.specs.Map.{lookup, remove_entry, set_value};
ghost use Rattle.std.specs.Option.{option_copied};
ghost use Rattle.std.specs.Prelude.{◌≡◌, ◌≤◌, ◌<◌, None, [], IfOk, IfSome, OnErr, OnOk, is_some, false, length, option_map, true};
ghost use Rattle.lq_base.specs.Name.{is_named};
ghost use Rattle.lq_chain.specs.History.{back, changed, history, marked, step_shorter, undone_to};
ghost use Rattle.lq_chain.specs.Marks.{kept_rows, replaced};
ghost use Rattle.lq_model.specs.Catalogue.{Table, no_objects, sequence_of, table_of, the_table, view_of, with_new, with_sequence, with_table, with_view, without_sequence, without_table, without_view, is_in};
ghost use Rattle.lq_model.specs.NameSpaces.{all_foreign_names, names_inside, object_names, shared_names};
ghost use Rattle.lq_model.specs.Plan.{is_twin};
ghost use Rattle.lq_model.specs.Tables.{is_targeted};
ghost use Rattle.lq_parts.specs.Taken.{with_renamed, AreKnown};
ghost use Rattle.lq_parts.specs.Steps.{tables_of};
ghost use Rattle.lq_rows.specs.Stored.{ArePlaces, has_values_in, shape_of, with_all, with_row, with_row_at, with_shape, without_row};

use crate::object::{Sequence, View};
use crate::part::Part;
use crate::shelf::Shelf;
use crate::tables::Tables;
use crate::taken::TakenNames;
use crate::targets::aiming;
use lq_base::{Name, NoMemory, Value};
use lq_rows::{Held, Row, Shape, Values};
use lq_undo::{Undo, undo_to};
use std::alloc::Global;
use std::marker::Model;

/// The tables, views and sequences of a catalogue, with what is needed to undo their changes since the
/// last `forget`. Contracts see the catalogue, and what it was before each changing call since then.
///
/// The changing calls are the `put_`, `take_`, `rename_` and `shape_` calls and those on rows:
/// `append`, `replace`, `replace_some`, `take_out` and `keep`. Each changes nothing where memory is wanting, and makes the
/// room that undoing it needs.
#[derive(Drop)]
pub struct Parts {
    tables: Tables,
    views: Shelf<View>,
    sequences: Shelf<Sequence>,
    names: TakenNames,
    /// What each change since the last `forget` was of, the newest last.
    done: Vec<Part>,
}

impl Model for Parts {
    ghost use Rattle.lq_chain.specs.History.{History, history};
    ghost use Rattle.lq_model.specs.Catalogue.{Catalogue};
    ghost use Rattle.lq_model.specs.contracts.test.Test as test;
    ghost use Rattle.std.specs.Coded.{codes};
    ghost use Rattle.std.specs.Prelude.{reverse};

    ghost Value = { History Catalogue };

    ghost coded = { Prim.hlevel (codes, test.the_row.coded) };

    ghost use Rattle.lq_parts.specs.Taken.{catalogue_of, kept_as, past_catalogues};

    ghost view = { λ p. history (catalogue_of (kept_as p.tables p.views p.sequences)) (past_catalogues (kept_as p.tables p.views p.sequences) (reverse p.done.items)) };

    ghost use Rattle.lq_parts.specs.Taken.{AreKnown};

    ghost invariant = { λ p. AreKnown p.tables.now p.names };
}

impl Undo for Parts {
    ghost changes = { marked };

    ghost before = { λ h. back 1 h.now h.past };

    fn mark(&self) -> u64 {
        Parts::mark(self)
    }

    fn step_back(&mut self) {
        Parts::step_back(self);
    }

    ghost one_less = { λ h. step_shorter h.now h.past };
}

impl Parts {
    /// No objects, and nothing to undo.
    pub fn new(alloc: Global) -> Parts
        ensures { result ≡ history no_objects [] }
    {
        Parts {
            tables: Tables::new(alloc),
            views: Shelf::new(alloc),
            sequences: Shelf::new(alloc),
            names: TakenNames::new(alloc),
            done: Vec::new(alloc),
        }
    }

    /// The number of changes since the last `forget` that are not undone.
    #[tactic(auto, using(crate::proofs::PartLemmas::length_past))]
    pub fn mark(&self) -> u64
        ensures { result ≡ marked self.now }
    {
        self.done.len() as u64
    }

    /// The table of the name.
    pub fn table(&self, name: &Name) -> Option<&Held>
        ensures { option_map (λ held. held.now.now) result ≡ table_of self.now.now name.now }
    {
        self.tables.get(name)
    }

    /// The view of the name.
    pub fn view(&self, name: &Name) -> Option<&View>
        ensures { option_copied result ≡ view_of self.now.now name.now }
    {
        self.views.get(name)
    }

    /// The sequence of the name.
    pub fn sequence(&self, name: &Name) -> Option<&Sequence>
        ensures { option_copied result ≡ sequence_of self.now.now name.now }
    {
        self.sequences.get(name)
    }

    /// The tables in the order of their names.
    pub fn tables(&self) -> &[(Name, Held)]
        ensures { tables_of result.now ≡ self.now.now.tables }
    {
        self.tables.entries()
    }

    /// The views in the order of their names.
    pub fn views(&self) -> &[(Name, View)]
        ensures { result.now ≡ self.now.now.views }
    {
        self.views.entries()
    }

    /// The sequences in the order of their names.
    pub fn sequences(&self) -> &[(Name, Sequence)]
        ensures { result.now ≡ self.now.now.sequences }
    {
        self.sequences.entries()
    }

    /// Whether a row of the table has these values in these columns. What gets known for it stays known.
    pub fn has_row(
        &mut self,
        alloc: Global,
        table: &Name,
        columns: &[Name],
        values: &Values,
    ) -> Result<bool, NoMemory>
        ensures found { IfOk result (λ found.
            found ≡ has_values_in columns.now values.now (the_table self.old.now table.now)) }
        ensures same { self.new ≡ self.old }
    {
        self.tables.has_row(alloc, table, columns, values)
    }

    /// Places of rows of the table, rising, among which each row stands that begins with the text.
    /// What gets known for it stays known.
    pub fn places(
        &mut self,
        alloc: Global,
        table: &Name,
        first: &str,
    ) -> Result<Vec<usize>, NoMemory>
        requires { is_some (table_of self.old.now table.now) ≡ true }
        ensures places { IfOk result
            (λ places. ArePlaces first.now (the_table self.old.now table.now).rows places.items) }
        ensures same { self.new ≡ self.old }
    {
        self.tables.places(alloc, table, first)
    }

    /// Whether a row of the table is equal to this one in a key, a unique constraint or a unique index.
    pub fn is_twin(&mut self, alloc: Global, table: &Name, row: &[Value]) -> Result<bool, NoMemory>
        requires { is_some (table_of self.old.now table.now) ≡ true }
        ensures found { IfOk result
            (λ found. found ≡ is_twin (the_table self.old.now table.now) row.now) }
        ensures same { self.new ≡ self.old }
    {
        self.tables.is_twin(alloc, table, row)
    }

    /// Whether a table, view or sequence has the name.
    #[tactic(auto, using(crate::proofs::PartLemmas::object_is))]
    pub fn has_object(&self, name: &Name) -> bool
        ensures { result ≡ is_in name.now (object_names self.now.now) }
    {
        self.table(name).is_some() || self.view(name).is_some() || self.sequence(name).is_some()
    }

    /// Whether the key, a unique constraint or an index of one of the tables has the name.
    fn has_inner_name(&mut self, name: &Name) -> Result<bool, NoMemory>
        ensures found { IfOk result (λ found.
            found ≡ is_in name.now (flat_map names_inside self.old.now.tables)) }
        ensures same { self.new ≡ self.old }
    {
        self.names.has_inner(self.tables.entries(), name)
    }

    /// Whether the name stands in one of PostgreSQL's shared spaces: in O(log n) once the names
    /// inside the tables are known, which they get by the first call.
    pub fn has_shared_name(&mut self, name: &Name) -> Result<bool, NoMemory>
        ensures found { IfOk result (λ found. found
            ≡ is_in name.now (shared_names self.old.now)) }
        ensures same { self.new ≡ self.old }
    {
        let has_object = self.has_object(name);
        let has_inner = self.has_inner_name(name)?;
        Ok(has_object | has_inner)
    }

    /// Whether a foreign key of one of the tables has the name, as fast.
    pub fn has_foreign_name(&mut self, name: &Name) -> Result<bool, NoMemory>
        ensures found { IfOk result
            (λ found. found ≡ is_in name.now (all_foreign_names self.old.now)) }
        ensures same { self.new ≡ self.old }
    {
        self.names.has_foreign(self.tables.entries(), name)
    }

    /// Makes known how many foreign keys target each table.
    pub fn see_targets(&mut self) -> Result<(), NoMemory>
        ensures { self.new ≡ self.old }
    {
        self.names.see_targets(self.tables.entries())
    }

    /// Whether it is known that no other table's foreign key targets the table, without a look at all
    /// tables.
    pub fn is_untargeted(&self, table: &Name) -> bool
        ensures { OnTrue result (is_targeted self.now.now table.now ≡ false) }
    {
        let Some(held) = self.tables.get(table) else {
            return false;
        };
        let own = aiming(held.foreign_keys(), table);
        match self.names.knows_targets(table) {
            Some(all) if all <= own => true,
            _ => false,
        }
    }

    fn knows_inner_name(&self, name: &Name) -> Option<bool>
        ensures { IfSome result (λ found.
            found ≡ is_in name.now (flat_map names_inside self.now.now.tables)) }
    {
        self.names.knows_inner(name)
    }

    /// Whether the name stands in one of PostgreSQL's shared spaces, where that is known without a
    /// look at all tables.
    pub fn knows_shared_name(&self, name: &Name) -> Option<bool>
        ensures { IfSome result (λ found. found ≡ is_in name.now (shared_names self.now.now)) }
    {
        let has_object = self.has_object(name);
        match self.knows_inner_name(name) {
            None => None,
            Some(has_inner) => Some(has_object | has_inner),
        }
    }

    /// Whether a foreign key has the name, where that is known without a look at all tables.
    pub fn knows_foreign_name(&self, name: &Name) -> Option<bool>
        ensures { IfSome result (λ found. found
            ≡ is_in name.now (all_foreign_names self.now.now)) }
    {
        self.names.knows_foreign(name)
    }
}

#[tactic(auto, using(crate::proofs::PartLemmas::newest_first))]
impl Parts {
    /// Puts a new table at its name, or changes nothing.
    pub fn put_table(&mut self, name: Name, held: Held) -> Result<(), NoMemory>
        requires { table_of self.old.now name ≡ None }
        ensures ok { OnOk result
            (self.new ≡ changed self.old (with_new self.old.now name held.now)) }
        ensures err { OnErr result (self.new ≡ self.old) }
    {
        self.done.reserve(1)?;
        self.names.add(&name, held.shape());
        match self.tables.put(name, held) {
            Ok(()) => {
                self.done.push_reserved(Part::Tables);
                Ok(())
            }
            Err(NoMemory) => {
                self.names.forget();
                Err(NoMemory)
            }
        }
    }

    /// Takes the table of the name away, or changes nothing.
    pub fn take_table(&mut self, name: &Name) -> Result<(), NoMemory>
        requires { is_some (table_of self.old.now name.now) ≡ true }
        ensures ok { OnOk result
            (self.new ≡ changed self.old (without_table self.old.now name.now)) }
        ensures err { OnErr result (self.new ≡ self.old) }
    {
        self.done.reserve(1)?;
        unlearn_table(&mut self.names, &self.tables, name);
        match self.tables.take(name) {
            Ok(()) => {
                self.done.push_reserved(Part::Tables);
                Ok(())
            }
            Err(NoMemory) => {
                self.names.forget();
                Err(NoMemory)
            }
        }
    }

    /// Gives the table of a name another one, or changes nothing. Foreign keys that aim at it are as
    /// they were.
    pub fn rename_table(&mut self, name: &Name, to: Name) -> Result<(), NoMemory>
        requires there { is_some (table_of self.old.now name.now) ≡ true }
        requires absent { table_of self.old.now to ≡ None }
        ensures ok { OnOk result
            (self.new ≡ changed self.old (with_renamed self.old.now name.now to)) }
        ensures err { OnErr result (self.new ≡ self.old) }
    {
        self.done.reserve(1)?;
        self.tables.rename(name, to)?;
        self.names.forget();
        self.done.push_reserved(Part::Tables);
        Ok(())
    }

    /// Gives the table other columns, constraints and indexes, its rows as they are, or changes nothing.
    pub fn shape_table(&mut self, name: &Name, shape: Shape) -> Result<(), NoMemory>
        requires { is_some (table_of self.old.now name.now) ≡ true }
        ensures ok { OnOk result
            (self.new
            ≡ changed self.old
            (with_table self.old.now name.now
            (with_shape shape (the_table self.old.now name.now)))) }
        ensures err { OnErr result (self.new ≡ self.old) }
    {
        self.done.reserve(1)?;
        learn_shape(&mut self.names, &self.tables, name, &shape);
        match self.tables.shape(name, shape) {
            Ok(()) => {
                self.done.push_reserved(Part::Tables);
                Ok(())
            }
            Err(NoMemory) => {
                self.names.forget();
                Err(NoMemory)
            }
        }
    }

    /// Adds a row to the table at the end, and gives it another next number, or changes nothing.
    pub fn append(
        &mut self,
        alloc: Global,
        name: &Name,
        row: Row,
        next: u64,
    ) -> Result<(), NoMemory>
        requires { is_some (table_of self.old.now name.now) ≡ true }
        ensures ok { OnOk result
            (self.new
            ≡ changed self.old
            (with_table self.old.now name.now
            (with_row row next (the_table self.old.now name.now)))) }
        ensures err { OnErr result (self.new ≡ self.old) }
    {
        self.done.reserve(1)?;
        self.tables.append(alloc, name, row, next)?;
        self.done.push_reserved(Part::Tables);
        Ok(())
    }

    /// Puts other rows of the table in place of those where there is one, or changes nothing.
    pub fn replace_some(
        &mut self,
        alloc: Global,
        name: &Name,
        by: Vec<Option<Row>>,
    ) -> Result<(), NoMemory>
        requires there { is_some (table_of self.old.now name.now) ≡ true }
        requires each { length by.items ≡ length (the_table self.old.now name.now).rows }
        ensures ok { OnOk result
            (self.new
            ≡ changed self.old
            (with_table self.old.now name.now
            (with_all (replaced by.items) (the_table self.old.now name.now)))) }
        ensures err { OnErr result (self.new ≡ self.old) }
    {
        self.done.reserve(1)?;
        self.tables.replace_some(alloc, name, by)?;
        self.done.push_reserved(Part::Tables);
        Ok(())
    }

    /// Keeps the rows of the table whose mark stands and takes the others out, or changes nothing.
    pub fn keep(&mut self, alloc: Global, name: &Name, marks: Vec<bool>) -> Result<(), NoMemory>
        requires there { is_some (table_of self.old.now name.now) ≡ true }
        requires each { length marks.items ≡ length (the_table self.old.now name.now).rows }
        ensures ok { OnOk result
            (self.new
            ≡ changed self.old
            (with_table self.old.now name.now
            (with_all (kept_rows marks.items) (the_table self.old.now name.now)))) }
        ensures err { OnErr result (self.new ≡ self.old) }
    {
        self.done.reserve(1)?;
        self.tables.keep(alloc, name, marks)?;
        self.done.push_reserved(Part::Tables);
        Ok(())
    }

    /// Takes the row of the table at the place out, or changes nothing.
    pub fn take_out(&mut self, name: &Name, at: usize) -> Result<(), NoMemory>
        requires there { is_some (table_of self.old.now name.now) ≡ true }
        requires within { at < length (the_table self.old.now name.now).rows }
        ensures ok { OnOk result
            (self.new
            ≡ changed self.old
            (with_table self.old.now name.now
            (without_row at (the_table self.old.now name.now)))) }
        ensures err { OnErr result (self.new ≡ self.old) }
    {
        self.done.reserve(1)?;
        self.tables.take_out(name, at)?;
        self.done.push_reserved(Part::Tables);
        Ok(())
    }

    /// Puts another row of the table in place of the one at the place, or changes nothing.
    pub fn replace(&mut self, name: &Name, at: usize, row: Row) -> Result<(), NoMemory>
        requires there { is_some (table_of self.old.now name.now) ≡ true }
        requires within { at < length (the_table self.old.now name.now).rows }
        ensures ok { OnOk result
            (self.new
            ≡ changed self.old
            (with_table self.old.now name.now
            (with_row_at at row (the_table self.old.now name.now)))) }
        ensures err { OnErr result (self.new ≡ self.old) }
    {
        self.done.reserve(1)?;
        self.tables.replace(name, at, row)?;
        self.done.push_reserved(Part::Tables);
        Ok(())
    }

    /// Puts a new view at its name, or changes nothing.
    pub fn put_view(&mut self, name: Name, view: View) -> Result<(), NoMemory>
        requires { view_of self.old.now name ≡ None }
        ensures ok { OnOk result (self.new
            ≡ changed self.old (with_view self.old.now name view)) }
        ensures err { OnErr result (self.new ≡ self.old) }
    {
        self.done.reserve(1)?;
        self.views.put(name, view)?;
        self.done.push_reserved(Part::Views);
        Ok(())
    }

    /// Takes the view of the name away, or changes nothing.
    pub fn take_view(&mut self, name: &Name) -> Result<(), NoMemory>
        requires { is_some (view_of self.old.now name.now) ≡ true }
        ensures ok { OnOk result
            (self.new ≡ changed self.old (without_view self.old.now name.now)) }
        ensures err { OnErr result (self.new ≡ self.old) }
    {
        self.done.reserve(1)?;
        self.views.take(name)?;
        self.done.push_reserved(Part::Views);
        Ok(())
    }

    /// Puts a new sequence at its name, or changes nothing.
    pub fn put_sequence(&mut self, name: Name, sequence: Sequence) -> Result<(), NoMemory>
        requires { sequence_of self.old.now name ≡ None }
        ensures ok { OnOk result
            (self.new ≡ changed self.old (with_sequence self.old.now name sequence)) }
        ensures err { OnErr result (self.new ≡ self.old) }
    {
        self.done.reserve(1)?;
        self.sequences.put(name, sequence)?;
        self.done.push_reserved(Part::Sequences);
        Ok(())
    }

    /// Takes the sequence of the name away, or changes nothing.
    pub fn take_sequence(&mut self, name: &Name) -> Result<(), NoMemory>
        requires { is_some (sequence_of self.old.now name.now) ≡ true }
        ensures ok { OnOk result
            (self.new ≡ changed self.old (without_sequence self.old.now name.now)) }
        ensures err { OnErr result (self.new ≡ self.old) }
    {
        self.done.reserve(1)?;
        self.sequences.take(name)?;
        self.done.push_reserved(Part::Sequences);
        Ok(())
    }
}

impl Parts {
    /// Gives the catalogue as it was when `mark` answered this number. It takes no memory.
    pub fn undo_to(&mut self, mark: u64)
        requires { mark ≤ marked self.old }
        ensures { self.new ≡ undone_to self.old mark }
    {
        undo_to(self, mark);
    }

    /// Keeps the catalogue as it is: nothing can be undone.
    pub fn forget(&mut self)
        ensures { self.new ≡ history self.old.now [] }
    {
        self.done.clear();
        self.tables.forget();
        self.views.forget();
        self.sequences.forget();
    }

    /// Undoes the last change, if there is one.
    #[tactic(auto, using(crate::proofs::PartLemmas::newest_first))]
    fn step_back(&mut self)
        ensures { self.new ≡ back 1 self.old.now self.old.past }
    {
        match self.done.pop() {
            None => {}
            Some(Part::Tables) => {
                self.tables.step_back();
                self.names.forget();
            }
            Some(Part::Views) => self.views.step_back(),
            Some(Part::Sequences) => self.sequences.step_back(),
        }
    }
}

/// What is known of the names inside the tables, after the table got the shape.
fn learn_shape(names: &mut TakenNames, tables: &Tables, name: &Name, shape: &Shape)
    requires { is_some (lookup (is_named name.now) tables.now.now) ≡ true }
    ensures { (it : Table)
        → shape.now ≡ shape_of it
        → AreKnown tables.now.now names.old
        → AreKnown (set_value (is_named name.now) tables.now.now it) names.new }
{
    match tables.get(name) {
        Some(held) => names.reshape(name, held.shape(), shape),
        None => unreachable!(),
    }
}

/// What is known of the names inside the tables, after the table was taken away.
fn unlearn_table(names: &mut TakenNames, tables: &Tables, name: &Name)
    requires { is_some (lookup (is_named name.now) tables.now.now) ≡ true }
    ensures { AreKnown tables.now.now names.old
        → AreKnown (remove_entry (is_named name.now) tables.now.now) names.new }
{
    match tables.get(name) {
        Some(held) => names.take(held.shape()),
        None => unreachable!(),
    }
}
