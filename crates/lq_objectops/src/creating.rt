ghost use Rattle.std.specs.List.{list_any};
ghost use Rattle.std.specs.Map.{keys_of};
ghost use Rattle.std.specs.List.Sorted.{IsStrictlySortedBy};
ghost use Rattle.std.specs.Prelude.{◌≡◌, ◌&&◌, ◌||◌, ◌∷◌, [], IfOk, OnErr, OnOk, Some, false, is_some, map, not, true};
ghost use Rattle.lq_base.specs.Name.{name_cmp};
ghost use Rattle.lq_decide.specs.Faults.{no_faults};
ghost use Rattle.lq_arm.specs.Verdict.{tests_of, verdict_of};
ghost use Rattle.lq_model.specs.Catalogue.{table_of, the_table, view_of, with_view};
ghost use Rattle.lq_model.specs.Comparison as comparison;
ghost use Rattle.lq_model.specs.NameSpaces as spaces;
ghost use Rattle.lq_model.specs.Catalogue as names;
ghost use Rattle.lq_model.specs.Plan.{decide};
ghost use Rattle.lq_model.specs.Views as spec;
ghost use Rattle.lq_model.specs.Sound.{IsSound};
ghost use Rattle.lq_model.specs.Truth.{names_in};
ghost use Rattle.lq_rows.specs.Stored.{Answers, Continues};
ghost use Rattle.lq_objectops.specs.Quiet.{view_over};

use crate::names::{are_reserved, is_taken, no_tests};
use lq_arm::{Tests, lacks_column, repeats};
use lq_base::{Dialect, Duplicate, Items, Name, NoMemory};
use lq_model::{By, Column, Query, Test, Wanted};
use lq_parts::{Parts, RunFault, View};
use lq_query::{kinds_agree, lacks_column as lacks_tested_column};
use std::alloc::Global;

/// Whether a column that a view lists is not there.
#[tactic(auto, using(lq_query::proofs::Listed::lacks_none))]
fn lacks_listed(alloc: Global, columns: &[Column], wanted: &Wanted) -> Result<bool, NoMemory>
    ensures { IfOk result
        (λ lacks. lacks ≡ spec.lacks_column columns.now (spec.listed wanted.now columns.now)) }
{
    match wanted {
        Wanted::All => Ok(false),
        Wanted::Count => Ok(false),
        Wanted::Columns(names) => lacks_column(alloc, columns, names.as_slice()),
    }
}

/// Whether a view lists a column twice.
fn repeats_listed(alloc: Global, columns: &[Column], wanted: &Wanted) -> Result<bool, NoMemory>
    requires { names.repeats (map (λ c. c.name) columns.now) ≡ false }
    ensures { IfOk result (λ found. found ≡ names.repeats (spec.listed wanted.now columns.now)) }
{
    match wanted {
        Wanted::All => Ok(false),
        Wanted::Count => Ok(false),
        Wanted::Columns(names) => repeats(alloc, names.as_slice()),
    }
}

/// Whether a view's test names a column that is not there.
fn lacks_tested(columns: &[Column], test: &Option<Test>) -> bool
    ensures { result ≡ spec.lacks_column columns.now (names_in test.now) }
{
    match test {
        Some(test) => lacks_tested_column(columns, test),
        None => false,
    }
}

/// Whether a view counts, or its test compares what may not be compared.
fn is_wrong(columns: &[Column], query: &Query) -> bool
    ensures { result
        ≡
        (spec.is_count query.now.wanted
        || comparison.compares_wrongly columns.now query.now.test) }
{
    if matches!(query.wanted, Wanted::Count) {
        return true;
    }
    match &query.test {
        Some(test) => !kinds_agree(columns, test),
        None => false,
    }
}

/// Whether a statement may not make the view: over a view that it replaces it makes no name.
fn is_taken_view(parts: &Parts, by: By, dialect: Dialect, view: &Name, replace: bool) -> bool
    ensures { result
        ≡
        (not (replace && is_some (view_of parts.now.now view.now))
        &&
        (spaces.is_taken dialect view.now parts.now.now
        || spaces.takes_lock_key by dialect (view.now ∷ []))) }
{
    if replace && parts.view(view).is_some() {
        return false;
    }
    is_taken(parts, by, dialect, view)
}

fn create_tests(
    parts: &Parts,
    alloc: Global,
    by: By,
    dialect: Dialect,
    view: &Name,
    query: &Query,
    replace: bool,
) -> Result<Tests, NoMemory>
    requires { IsSound dialect parts.now.now }
    ensures { IfOk result (λ tests.
        verdict_of tests
        ≡ verdict_of
        (tests_of (spec.create_view by dialect view.now query.now replace parts.now.now)
        no_faults)) }
{
    let reserved = are_reserved(by, view, &query.table);
    let Some(held) = parts.table(&query.table) else {
        return Ok(Tests {
            reserved,
            missing: true,
            ..no_tests()
        });
    };
    let columns = held.columns();
    let lacks = lacks_listed(alloc, columns, &query.wanted)?;
    let twice = repeats_listed(alloc, columns, &query.wanted)?;
    Ok(Tests {
        reserved,
        missing: lacks | lacks_tested(columns, &query.test),
        exists: is_taken_view(parts, by, dialect, view, replace) | twice,
        wrong: is_wrong(columns, query),
        ..no_tests()
    })
}

/// The names of the columns that a view lists.
fn listed(alloc: Global, columns: &[Column], wanted: &Wanted) -> Result<Items<Name>, NoMemory>
    ensures { IfOk result (λ names. names ≡ spec.listed wanted.now columns.now) }
{
    match wanted {
        Wanted::All => all_names(alloc, columns),
        Wanted::Count => Ok(Items::new(alloc)),
        Wanted::Columns(names) => names.duplicate(alloc),
    }
}

fn all_names(alloc: Global, columns: &[Column]) -> Result<Items<Name>, NoMemory>
    ensures { IfOk result (λ all. all ≡ map (λ c. c.name) columns.now) }
{
    let mut all = Items::new(alloc);
    for column in columns {
        all.push(column.name.duplicate(alloc)?)?;
    }
    Ok(all)
}

/// The view that the query makes of a table of these columns.
fn view_on(alloc: Global, columns: &[Column], query: &Query) -> Result<View, NoMemory>
    ensures { IfOk result (λ view. view ≡ view_over query.now columns.now) }
{
    let columns = listed(alloc, columns, &query.wanted)?;
    let query = Query {
        wanted: Wanted::Columns(columns.duplicate(alloc)?),
        table: query.table.duplicate(alloc)?,
        test: query.test.duplicate(alloc)?,
    };
    Ok(View::new(query, columns))
}

/// The view that the query makes.
fn new_view(alloc: Global, parts: &Parts, query: &Query) -> Result<View, NoMemory>
    requires { is_some (table_of parts.now.now query.now.table) ≡ true }
    ensures { IfOk result
        (λ view. view ≡ spec.new_view query.now (the_table parts.now.now query.now.table)) }
{
    match parts.table(&query.table) {
        Some(held) => view_on(alloc, held.columns(), query),
        None => unreachable!(),
    }
}

/// Puts a view at its name, in place of what stands there.
fn set_view(parts: &mut Parts, name: Name, view: View) -> Result<(), NoMemory>
    requires { IsStrictlySortedBy name_cmp (keys_of parts.old.now.views) }
    ensures now { OnOk result (parts.new.now ≡ with_view parts.old.now name view) }
    ensures goes { Continues parts.old parts.new }
{
    if parts.view(&name).is_none() {
        parts.put_view(name, view)?;
        return Ok(());
    }
    parts.take_view(&name)?;
    parts.put_view(name, view)?;
    Ok(())
}

/// CREATE VIEW, or CREATE OR REPLACE VIEW, on a sound catalogue, on someone's behalf.
pub fn create_view(
    parts: &mut Parts,
    alloc: Global,
    by: By,
    dialect: Dialect,
    view: &Name,
    query: &Query,
    replace: bool,
) -> Result<u64, RunFault>
    requires { IsSound dialect parts.old.now }
    ensures { Answers
        (decide (spec.create_view by dialect view.now query.now replace parts.old.now)) parts.old
        parts.new result }
{
    let tests = create_tests(parts, alloc, by, dialect, view, query, replace)?;
    match tests.verdict() {
        Ok(()) => {}
        Err(fault) => return Err(fault),
    }
    let made = new_view(alloc, parts, query)?;
    let name = view.duplicate(alloc)?;
    set_view(parts, name, made)?;
    Ok(0)
}
