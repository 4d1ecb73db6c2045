ghost use Rattle.lq_model.specs.Sound.{IsSound};
ghost use Rattle.lq_model.specs.Step.{step};
ghost use Rattle.lq_rows.specs.Stored.{Carries};

use lq_base::Dialect;
use lq_columnops::{
    add_column, drop_column, drop_default, drop_not_null, modify, set_default, set_not_null,
};
use lq_keyops::{
    add_foreign_key, add_primary_key, add_unique, create_index, drop_constraint, drop_foreign_key,
    drop_index, drop_primary_key, drop_unique,
};
use lq_model::{By, Statement};
use lq_objectops::{
    create_sequence, create_view, drop_sequence, drop_view, rename_sequence, rename_view,
};
use lq_parts::{Parts, RunFault};
use lq_renames::{rename_column, rename_table};
use lq_tableops::{NewTable, create_table, drop_table};
use std::alloc::Global;

/// Carries a statement of data definition out on a sound catalogue.
pub fn define(
    alloc: Global,
    parts: &mut Parts,
    dialect: Dialect,
    by: By,
    statement: &Statement,
) -> Result<u64, RunFault>
    requires { IsSound dialect parts.old.now }
    ensures { Carries (step by dialect statement.now parts.old.now) parts.old parts.new result }
{
    match statement {
        Statement::CreateTable {
            table,
            columns,
            key,
            uniques,
            foreign,
        } => {
            let new = NewTable {
                name: table,
                columns: columns.as_slice(),
                key,
                uniques: uniques.as_slice(),
                foreign: foreign.as_slice(),
            };
            create_table(parts, alloc, by, dialect, &new)
        }
        Statement::DropTable { table } => drop_table(parts, by, dialect, table),
        Statement::RenameTable { table, to } => rename_table(parts, alloc, by, dialect, table, to),
        _ => define_column(alloc, parts, dialect, by, statement),
    }
}

/// Carries a new, dropped or renamed column out, and hands the others on.
fn define_column(
    alloc: Global,
    parts: &mut Parts,
    dialect: Dialect,
    by: By,
    statement: &Statement,
) -> Result<u64, RunFault>
    requires { IsSound dialect parts.old.now }
    ensures { Carries (step by dialect statement.now parts.old.now) parts.old parts.new result }
{
    match statement {
        Statement::AddColumn { table, column } => add_column(
            parts, alloc, by, dialect, table, column,
        ),
        Statement::DropColumn { table, column } => drop_column(
            parts, alloc, by, dialect, table, column,
        ),
        Statement::RenameColumn { table, column, to } => rename_column(
            parts, alloc, by, dialect, table, column, to,
        ),
        _ => change_column(alloc, parts, dialect, by, statement),
    }
}

/// Carries a change of a column out, and hands the others on.
fn change_column(
    alloc: Global,
    parts: &mut Parts,
    dialect: Dialect,
    by: By,
    statement: &Statement,
) -> Result<u64, RunFault>
    requires { IsSound dialect parts.old.now }
    ensures { Carries (step by dialect statement.now parts.old.now) parts.old parts.new result }
{
    match statement {
        Statement::SetNotNull { table, column } => set_not_null(
            parts, alloc, by, dialect, table, column,
        ),
        Statement::DropNotNull { table, column } => drop_not_null(
            parts, alloc, by, dialect, table, column,
        ),
        Statement::Modify {
            table,
            column,
            kind,
            nullable,
        } => modify(parts, alloc, by, dialect, table, column, *kind, *nullable),
        Statement::SetDefault {
            table,
            column,
            value,
        } => set_default(parts, alloc, by, dialect, table, column, value),
        Statement::DropDefault { table, column } => drop_default(
            parts, alloc, by, dialect, table, column,
        ),
        _ => define_constraint(alloc, parts, dialect, by, statement),
    }
}

/// Carries a statement of a key or constraint out, and hands the others on.
fn define_constraint(
    alloc: Global,
    parts: &mut Parts,
    dialect: Dialect,
    by: By,
    statement: &Statement,
) -> Result<u64, RunFault>
    requires { IsSound dialect parts.old.now }
    ensures { Carries (step by dialect statement.now parts.old.now) parts.old parts.new result }
{
    match statement {
        Statement::AddPrimaryKey { table, key } => add_primary_key(
            parts, alloc, by, dialect, table, key,
        ),
        Statement::AddUnique { table, unique } => add_unique(
            parts, alloc, by, dialect, table, unique,
        ),
        Statement::AddForeignKey { table, foreign } => add_foreign_key(
            parts, alloc, by, dialect, table, foreign,
        ),
        Statement::DropConstraint { table, name } => drop_constraint(
            parts, alloc, by, dialect, table, name,
        ),
        Statement::DropPrimaryKey { table } => drop_primary_key(parts, alloc, by, dialect, table),
        Statement::DropUnique { table, name } => drop_unique(
            parts, alloc, by, dialect, table, name,
        ),
        Statement::DropForeignKey { table, name } => drop_foreign_key(
            parts, alloc, by, dialect, table, name,
        ),
        _ => define_object(alloc, parts, dialect, by, statement),
    }
}

/// Carries a statement of an index, view or sequence out.
#[tactic(auto, using(lq_rows::proofs::Continued::stays))]
fn define_object(
    alloc: Global,
    parts: &mut Parts,
    dialect: Dialect,
    by: By,
    statement: &Statement,
) -> Result<u64, RunFault>
    requires { IsSound dialect parts.old.now }
    ensures { Carries (step by dialect statement.now parts.old.now) parts.old parts.new result }
{
    match statement {
        Statement::CreateIndex { table, index } => create_index(
            parts, alloc, by, dialect, table, index,
        ),
        Statement::DropIndex { name, table } => drop_index(parts, alloc, by, dialect, name, table),
        Statement::CreateView {
            view,
            query,
            replace,
        } => create_view(parts, alloc, by, dialect, view, query, *replace),
        Statement::DropView { view } => drop_view(parts, by, dialect, view),
        Statement::RenameView { view, to } => rename_view(parts, alloc, by, dialect, view, to),
        Statement::CreateSequence { name, start, step } => create_sequence(
            parts, alloc, by, dialect, name, *start, *step,
        ),
        Statement::DropSequence { name } => drop_sequence(parts, by, dialect, name),
        Statement::RenameSequence { name, to } => rename_sequence(
            parts, alloc, by, dialect, name, to,
        ),
        // Statements of rows are carried out before, and do not come here.
        _ => Err(RunFault::OutOfMemory),
    }
}
