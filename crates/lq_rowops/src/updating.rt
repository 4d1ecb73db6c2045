ghost use Rattle.std.specs.List.{list_any};
ghost use Rattle.std.specs.Prelude.{◌≡◌, IfOk, false};
ghost use Rattle.lq_model.specs.Catalogue.{the_table};
ghost use Rattle.lq_model.specs.Plan.{decide, is_loose};
ghost use Rattle.lq_model.specs.Sound.{IsSound};
ghost use Rattle.lq_model.specs.Rows as spec;
ghost use Rattle.lq_rows.specs.Stored.{Carries};
ghost use Rattle.lq_rowops.specs.Updated.{IsStated, result_tests};

use crate::changing::change;
use crate::orphan::{children_lost, loses_one};
use crate::setting::{lacks_set, repeats_set, set_values};
use crate::tested::{compares_wrongly, lacks_tested};
use crate::twins::has_twins;
use lq_arm::Tests;
use lq_base::{Dialect, Items, Literal, Name, NoMemory, Value};
use lq_model::{By, Column, Test};
use lq_parts::{Parts, RunFault};
use lq_query::is_reserved;
use std::alloc::Global;

/// The columns of the table of the name; none where there is none.
pub fn columns_of<'a>(parts: &'a Parts, table: &Name) -> &'a [Column]
    ensures { result.now ≡ (the_table parts.now.now table.now).columns }
{
    match parts.table(table) {
        Some(held) => held.columns(),
        None => &[],
    }
}

/// What an UPDATE says is tested for, and the values that it sets.
#[derive(Drop)]
pub struct Stated {
    pub tests: Tests,
    pub values: Items<Value>,
}

fn stated_by(
    alloc: Global,
    parts: &Parts,
    by: By,
    table: &Name,
    sets: &[(Name, Literal)],
    test: &Option<Test>,
) -> Result<Stated, NoMemory>
    ensures { IfOk result (λ stated. IsStated by table.now sets.now test.now parts.now.now
        stated) }
{
    let columns = columns_of(parts, table);
    let set = set_values(alloc, columns, sets)?;
    let tests = Tests {
        reserved: is_reserved(by, table),
        missing: parts.table(table).is_none()
            | (lacks_set(columns, sets) | lacks_tested(columns, test)),
        exists: repeats_set(sets),
        depends: false,
        wrong: set.is_wrong | compares_wrongly(columns, test),
        wide: set.is_wide,
        nulls: false,
        twins: false,
        orphans: false,
        children: false,
        full: false,
    };
    Ok(Stated {
        tests,
        values: set.values,
    })
}

/// What is asked of the catalogue after the change, where it is known whether a new row has a null in
/// a NOT NULL column or no parent.
fn tested(
    alloc: Global,
    parts: &Parts,
    table: &Name,
    sets: &[(Name, Literal)],
    nulls: bool,
    is_stray: bool,
) -> Result<Tests, NoMemory>
    requires { is_loose parts.now.now ≡ false }
    ensures { IfOk result (λ tests.
        tests
        ≡ result_tests table.now sets.now nulls is_stray (the_table parts.now.now table.now)
        parts.now.now) }
{
    let children = children_lost(alloc, parts, table, sets)?;
    let (twins, orphans) = match parts.table(table) {
        Some(held) => (
            has_twins(alloc, sets, held)?,
            is_stray || loses_one(alloc, parts, table, sets, held, held.foreign_keys())?,
        ),
        None => (false, is_stray),
    };
    Ok(Tests {
        reserved: false,
        missing: false,
        exists: false,
        depends: false,
        wrong: false,
        wide: false,
        nulls,
        twins,
        orphans,
        children,
        full: false,
    })
}

/// UPDATE on a sound catalogue, on someone's behalf: it answers how many rows its test takes. A refusal
/// after the change leaves the change to be undone.
#[tactic(auto, using(lq_rows::proofs::Continued::stays, lq_rows::proofs::Continued::goes_on))]
pub fn update(
    parts: &mut Parts,
    alloc: Global,
    by: By,
    dialect: Dialect,
    table: &Name,
    sets: &[(Name, Literal)],
    test: &Option<Test>,
) -> Result<u64, RunFault>
    requires { IsSound dialect parts.old.now }
    ensures { Carries (decide (spec.update by dialect table.now sets.now test.now parts.old.now))
        parts.old parts.new result }
{
    let stated = stated_by(alloc, parts, by, table, sets, test)?;
    match stated.tests.verdict() {
        Ok(()) => {}
        Err(fault) => return Err(fault),
    }
    let changes = change(parts, alloc, table, sets, stated.values.as_slice(), test)?;
    let tests = tested(
        alloc,
        parts,
        table,
        sets,
        changes.has_null,
        changes.is_stray,
    )?;
    match tests.verdict() {
        Ok(()) => Ok(changes.count as u64),
        Err(fault) => Err(fault),
    }
}
