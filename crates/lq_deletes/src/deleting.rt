ghost use Rattle.std.specs.Bool.{OnFalse};
ghost use Rattle.std.specs.List.{list_any};
ghost use Rattle.std.specs.Prelude.{◌≡◌, ◌&&◌, IfOk, OnErr, OnOk, false, is_some, length, map, not, true};
ghost use Rattle.lq_base.specs.Name.{is_named};
ghost use Rattle.lq_chain.specs.History.{changed};
ghost use Rattle.lq_model.specs.Catalogue.{table_of, the_table, with_table};
ghost use Rattle.lq_model.specs.Rows as spec;
ghost use Rattle.lq_model.specs.Plan.{decide, has_orphans, is_loose};
ghost use Rattle.lq_model.specs.Sound.{IsSound};
ghost use Rattle.lq_model.specs.Truth.{takes};
ghost use Rattle.lq_parts.specs.Steps.{tables_of};
ghost use Rattle.lq_rows.specs.Stored.{Carries, Continues};
ghost use Rattle.lq_deletes.specs.Places.{cascades_at, has_targets, is_aimed_at, stated_tests, IsLinked};

use crate::cascade::cascade;
use crate::orphan::has_orphans;
use crate::taking::columns_of;
use crate::tested::{compares_wrongly, lacks_tested};
use lq_arm::Tests;
use lq_base::{Dialect, Name, NoMemory, Reason};
use lq_chain::Chain;
use lq_model::{By, Column, ForeignKey, Test};
use lq_one_row::only_taken;
use lq_parts::{Parts, RunFault};
use lq_query::{is_reserved, is_taken};
use lq_rows::{Held, Row};
use std::alloc::Global;

/// The number of rows of the table of the name.
fn len_of(parts: &Parts, table: &Name) -> usize
    ensures { result ≡ length (the_table parts.now.now table.now).rows }
{
    match parts.table(table) {
        Some(held) => held.len(),
        None => 0,
    }
}

/// What a DELETE says is tested for.
fn stated(parts: &Parts, by: By, table: &Name, test: &Option<Test>) -> Tests
    ensures { result ≡ stated_tests by table.now test.now parts.now.now }
{
    let columns = columns_of(parts, table);
    Tests {
        reserved: is_reserved(by, table),
        missing: parts.table(table).is_none() | lacks_tested(columns, test),
        exists: false,
        depends: false,
        wrong: compares_wrongly(columns, test),
        wide: false,
        nulls: false,
        twins: false,
        orphans: false,
        children: false,
        full: false,
    }
}

fn left(
    alloc: Global,
    test: &Option<Test>,
    columns: &[Column],
    rows: &Chain<Row>,
) -> Result<Vec<bool>, NoMemory>
    ensures { IfOk result
        (λ marks. marks.items
        ≡ map (λ row. not (takes test.now columns.now row)) rows.now.now) }
{
    let mut marks = Vec::new(alloc);
    for row in rows.iter() {
        marks.push(!is_taken(test, columns, row.as_slice()))?;
    }
    Ok(marks)
}

/// For each row of the table whether the test does not take it.
fn left_in(
    alloc: Global,
    parts: &Parts,
    table: &Name,
    test: &Option<Test>,
) -> Result<Vec<bool>, NoMemory>
    ensures { IfOk result (λ marks.
        marks.items
        ≡ map (λ row. not (takes test.now (the_table parts.now.now table.now).columns row))
        (the_table parts.now.now table.now).rows) }
{
    match parts.table(table) {
        Some(held) => left(alloc, test, held.columns(), held.rows()),
        None => Ok(Vec::new(alloc)),
    }
}

/// Takes the rows out that the test takes.
#[tactic(auto, using(crate::proofs::Thinned::kept_by_marks, crate::proofs::Thinned::as_many, crate::proofs::OnlyLemmas::without_only))]
fn take(parts: &mut Parts, alloc: Global, table: &Name, test: &Option<Test>) -> Result<(), NoMemory>
    requires { is_some (table_of parts.old.now table.now) ≡ true }
    ensures ok { OnOk result
        (parts.new
        ≡ changed parts.old
        (with_table parts.old.now table.now
        (spec.without_taken test.now (the_table parts.old.now table.now)))) }
    ensures err { OnErr result (parts.new ≡ parts.old) }
{
    if let Some(at) = only_taken(parts, alloc, table, test)? {
        return parts.take_out(table, at);
    }
    let marks = left_in(alloc, parts, table, test)?;
    parts.keep(alloc, table, marks)
}

/// Whether a foreign key may aim at the table: it has a key or a unique constraint.
fn is_target(held: &Held) -> bool
    ensures { result ≡ has_targets held.now.now }
{
    held.key().is_some() || !held.uniques().is_empty()
}

/// The same of the table of the name; nothing may aim where there is none.
fn has_targets(parts: &Parts, table: &Name) -> bool
    ensures { result ≡ has_targets (the_table parts.now.now table.now) }
{
    match parts.table(table) {
        Some(held) => is_target(held),
        None => false,
    }
}

fn aim_at(table: &Name, keys: &[ForeignKey]) -> bool
    ensures { result ≡ list_any (λ f. is_named table.now f.table) keys.now }
{
    keys.iter().any(|key| *table == key.table)
}

/// Whether a foreign key of one of these tables aims at the table.
fn one_aims(entries: &[(Name, Held)], table: &Name) -> bool
    ensures { result
        ≡ list_any (λ e. list_any (λ f. is_named table.now f.table) e.1.foreign)
        (tables_of entries.now) }
{
    for entry in entries {
        if aim_at(table, entry.1.foreign_keys()) {
            return true;
        }
    }
    false
}

/// Whether a foreign key aims at the table. No other table is looked at where none may.
fn is_aimed_at(parts: &Parts, table: &Name) -> bool
    requires { is_loose parts.now.now ≡ false }
    ensures { result ≡ is_aimed_at table.now parts.now.now }
{
    if !has_targets(parts, table) {
        return false;
    }
    one_aims(parts.tables(), table)
}

fn cascade_at(table: &Name, keys: &[ForeignKey]) -> bool
    ensures { result ≡ list_any (λ f. f.cascade && is_named table.now f.table) keys.now }
{
    keys.iter().any(|key| key.cascade & (*table == key.table))
}

/// Whether a foreign key of one of these tables aims at the table and cascades.
fn one_cascades(entries: &[(Name, Held)], table: &Name) -> bool
    ensures { result
        ≡ list_any (λ e. list_any (λ f. f.cascade && is_named table.now f.table) e.1.foreign)
        (tables_of entries.now) }
{
    for entry in entries {
        if cascade_at(table, entry.1.foreign_keys()) {
            return true;
        }
    }
    false
}

/// Whether a foreign key that cascades aims at the table. No other table is looked at where none may.
fn cascades_at(parts: &Parts, table: &Name) -> bool
    requires { is_loose parts.now.now ≡ false }
    ensures { result ≡ cascades_at table.now parts.now.now }
{
    if !has_targets(parts, table) {
        return false;
    }
    one_cascades(parts.tables(), table)
}

/// Takes the rows out that the test takes, and those that go with them. At a fault some may be gone.
#[tactic(auto, using(lq_rows::proofs::Continued::stays, lq_rows::proofs::Continued::goes_on))]
fn remove(
    parts: &mut Parts,
    alloc: Global,
    table: &Name,
    test: &Option<Test>,
) -> Result<(), NoMemory>
    requires linked { IsLinked parts.old.now }
    requires there { is_some (table_of parts.old.now table.now) ≡ true }
    ensures ok { OnOk result (parts.new.now ≡ spec.deleted table.now test.now parts.old.now) }
    ensures goes { Continues parts.old parts.new }
{
    if cascades_at(parts, table) {
        cascade(parts, alloc, table, test)?;
        return Ok(());
    }
    take(parts, alloc, table, test)?;
    Ok(())
}

/// Whether a row has no parent. Where no foreign key aims at the table nothing is looked at.
fn leaves_orphans(alloc: Global, parts: &Parts, is_aimed: bool) -> Result<bool, NoMemory>
    requires { OnFalse is_aimed (has_orphans parts.now.now ≡ false) }
    ensures { IfOk result (λ found. found ≡ has_orphans parts.now.now) }
{
    if !is_aimed {
        return Ok(false);
    }
    let found = has_orphans(alloc, parts, parts.tables())?;
    Ok(found)
}

/// DELETE on a sound catalogue, on someone's behalf: it answers how many rows of the table are gone,
/// with those that went by a cascade. A refusal after the change leaves the change to be undone.
#[tactic(auto, using(lq_rows::proofs::Continued::stays, lq_rows::proofs::Continued::goes_on))]
pub fn delete_from(
    parts: &mut Parts,
    alloc: Global,
    by: By,
    dialect: Dialect,
    table: &Name,
    test: &Option<Test>,
) -> Result<u64, RunFault>
    requires { IsSound dialect parts.old.now }
    ensures { Carries (decide (spec.delete by dialect table.now test.now parts.old.now)) parts.old
        parts.new result }
{
    let tests = stated(parts, by, table, test);
    match tests.verdict() {
        Ok(()) => {}
        Err(fault) => return Err(fault),
    }
    let before = len_of(parts, table);
    let is_aimed = is_aimed_at(parts, table);
    remove(parts, alloc, table, test)?;
    if leaves_orphans(alloc, parts, is_aimed)? {
        return Err(RunFault::Refused(Reason::HasChildren));
    }
    Ok(before.saturating_sub(len_of(parts, table)) as u64)
}
