ghost use Rattle.std.specs.Prelude.{◌≡◌, IfOk, Some};
ghost use Rattle.lq_model.specs.declared.statement.Statement.TheVariants.{AddForeignKey, AddPrimaryKey, AddUnique, CreateIndex, DropConstraint, Modify};
ghost use Rattle.lq_reverse.specs.Back.{back};

use lq_base::{Dialect, Duplicate, Kind, Name, NoMemory, both, placed};
use lq_model::{ForeignKey, Index, Key, Statement, Unique};
use std::alloc::Global;

fn two(alloc: Global, first: &Name, second: &Name) -> Result<(Name, Name), NoMemory>
    ensures { IfOk result (λ made. (made.0 ≡ first.now) × (made.1 ≡ second.now)) }
{
    both(first.duplicate(alloc), second.duplicate(alloc))
}

fn three(
    alloc: Global,
    first: &Name,
    second: &Name,
    third: &Name,
) -> Result<(Name, (Name, Name)), NoMemory>
    ensures { IfOk result
        (λ made. (made.0 ≡ first.now) × ((made.1.0 ≡ second.now)
        × (made.1.1 ≡ third.now))) }
{
    both(first.duplicate(alloc), two(alloc, second, third))
}

/// What takes the statement back, where there is such a statement.
pub fn back(
    alloc: Global,
    dialect: Dialect,
    statement: &Statement,
) -> Result<Option<Statement>, NoMemory>
    ensures { IfOk result (λ made. made ≡ back dialect statement.now) }
{
    match statement {
        Statement::CreateTable { table, .. } => Ok(Some(Statement::DropTable {
            table: table.duplicate(alloc)?,
        })),
        Statement::CreateView { view, .. } => Ok(Some(Statement::DropView {
            view: view.duplicate(alloc)?,
        })),
        Statement::CreateSequence { name, .. } => Ok(Some(Statement::DropSequence {
            name: name.duplicate(alloc)?,
        })),
        Statement::AddColumn { table, column } => {
            let (table, column) = two(alloc, table, &column.name)?;
            Ok(Some(Statement::DropColumn { table, column }))
        }
        Statement::RenameTable { table, to } => {
            let (table, to) = two(alloc, to, table)?;
            Ok(Some(Statement::RenameTable { table, to }))
        }
        Statement::RenameColumn { table, column, to } => {
            let (table, (column, to)) = three(alloc, table, to, column)?;
            Ok(Some(Statement::RenameColumn { table, column, to }))
        }
        Statement::RenameView { view, to } => {
            let (view, to) = two(alloc, to, view)?;
            Ok(Some(Statement::RenameView { view, to }))
        }
        Statement::RenameSequence { name, to } => {
            let (name, to) = two(alloc, to, name)?;
            Ok(Some(Statement::RenameSequence { name, to }))
        }
        Statement::SetNotNull { table, column } => {
            let (table, column) = two(alloc, table, column)?;
            Ok(Some(Statement::DropNotNull { table, column }))
        }
        Statement::DropNotNull { table, column } => {
            let (table, column) = two(alloc, table, column)?;
            Ok(Some(Statement::SetNotNull { table, column }))
        }
        Statement::Modify {
            table,
            column,
            kind,
            nullable,
        } => modified(alloc, table, column, *kind, !*nullable),
        Statement::SetDefault { table, column, .. } => {
            let (table, column) = two(alloc, table, column)?;
            Ok(Some(Statement::DropDefault { table, column }))
        }
        Statement::CreateIndex { table, index } => index_dropped(alloc, dialect, table, index),
        Statement::AddPrimaryKey { table, key } => key_dropped(alloc, dialect, table, key),
        Statement::AddUnique { table, unique } => unique_dropped(alloc, dialect, table, unique),
        Statement::AddForeignKey { table, foreign } => {
            foreign_dropped(alloc, dialect, table, foreign)
        }
        _ => Ok(None),
    }
}

fn modified(
    alloc: Global,
    table: &Name,
    column: &Name,
    kind: Kind,
    nullable: bool,
) -> Result<Option<Statement>, NoMemory>
    ensures { IfOk result (λ made. made ≡ Some (Modify table.now column.now kind nullable)) }
{
    let (table, column) = two(alloc, table, column)?;
    Ok(Some(Statement::Modify {
        table,
        column,
        kind,
        nullable,
    }))
}

fn index_dropped(
    alloc: Global,
    dialect: Dialect,
    table: &Name,
    index: &Index,
) -> Result<Option<Statement>, NoMemory>
    ensures { IfOk result (λ made. made ≡ back dialect (CreateIndex table.now index.now)) }
{
    match dialect {
        Dialect::Postgresql => Ok(Some(Statement::DropIndex {
            name: placed(alloc, table, &index.name)?,
            table: None,
        })),
        Dialect::Mysql => {
            let (name, table) = two(alloc, &index.name, table)?;
            Ok(Some(Statement::DropIndex {
                name,
                table: Some(table),
            }))
        }
    }
}

fn constraint_dropped(
    alloc: Global,
    table: &Name,
    name: &Name,
) -> Result<Option<Statement>, NoMemory>
    ensures { IfOk result (λ made. made ≡ Some (DropConstraint table.now name.now)) }
{
    let (table, name) = two(alloc, table, name)?;
    Ok(Some(Statement::DropConstraint { table, name }))
}

fn key_dropped(
    alloc: Global,
    dialect: Dialect,
    table: &Name,
    key: &Key,
) -> Result<Option<Statement>, NoMemory>
    ensures { IfOk result (λ made. made ≡ back dialect (AddPrimaryKey table.now key.now)) }
{
    match dialect {
        Dialect::Postgresql => constraint_dropped(alloc, table, &key.name),
        Dialect::Mysql => Ok(Some(Statement::DropPrimaryKey {
            table: table.duplicate(alloc)?,
        })),
    }
}

fn unique_dropped(
    alloc: Global,
    dialect: Dialect,
    table: &Name,
    unique: &Unique,
) -> Result<Option<Statement>, NoMemory>
    ensures { IfOk result (λ made. made ≡ back dialect (AddUnique table.now unique.now)) }
{
    match dialect {
        Dialect::Postgresql => constraint_dropped(alloc, table, &unique.name),
        Dialect::Mysql => {
            let (table, name) = two(alloc, table, &unique.name)?;
            Ok(Some(Statement::DropUnique { table, name }))
        }
    }
}

fn foreign_dropped(
    alloc: Global,
    dialect: Dialect,
    table: &Name,
    foreign: &ForeignKey,
) -> Result<Option<Statement>, NoMemory>
    ensures { IfOk result (λ made. made ≡ back dialect (AddForeignKey table.now foreign.now)) }
{
    match dialect {
        Dialect::Postgresql => constraint_dropped(alloc, table, &foreign.name),
        Dialect::Mysql => {
            let (table, name) = two(alloc, table, &foreign.name)?;
            Ok(Some(Statement::DropForeignKey { table, name }))
        }
    }
}
