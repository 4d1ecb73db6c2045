ghost use Rattle.std.specs.Prelude.{◌≡◌, map, IfOk, Some};
ghost use Rattle.lq_track.specs.Log.{log_column, log_name, log_table, log_value, log_set};
ghost use Rattle.lq_base.specs.Moment.{IsMoment};
ghost use Rattle.lq_track.specs.Statements.{log_holds, row_test, row_inserted, row_again, row_deleted, row_set, tag_set, sum_filled, sums_cleared};
ghost use Rattle.lq_model.specs.declared.test.Test.TheVariants.{And};

use crate::literals::{holds, moment_literal, text_literal, text_or_null};
use crate::log_column::LogColumn;
use crate::name::fixed_name;
use lq_base::{Boxed, Identity, Items, Literal, Name, NoMemory, Text, Tracked, both};
use lq_model::{ColumnDef, Statement, Test};
use std::alloc::Global;

/// Writes the row of a changeset that has none.
#[tactic(auto, unfolding(crate::specs::Log::log_order))]
pub fn insert_row(alloc: Global, row: &Tracked) -> Result<Statement, NoMemory>
    requires { IsMoment row.now.date }
    ensures { IfOk result (λ s. s ≡ row_inserted row.now) }
{
    let said = both(
        log_names(alloc, &LogColumn::ALL),
        log_values(alloc, row, &LogColumn::ALL),
    );
    let (table, (columns, values)) = both(log_table(alloc), said)?;
    Ok(Statement::Insert {
        table,
        columns,
        values,
    })
}

/// Writes the date, order, way, checksum and deployment of a changeset that has a row.
#[tactic(auto, unfolding(crate::specs::Log::again_order))]
pub fn again_row(alloc: Global, row: &Tracked) -> Result<Statement, NoMemory>
    requires { IsMoment row.now.date }
    ensures { IfOk result (λ s. s ≡ row_again row.now) }
{
    let test = row_test(alloc, &row.id, &row.author, &row.filename);
    let made = both(log_sets(alloc, row, &LogColumn::AGAIN), test);
    let (table, (sets, test)) = both(log_table(alloc), made)?;
    Ok(Statement::Update {
        table,
        sets,
        test: Some(test),
    })
}

/// Deletes the row of a changeset.
pub fn delete_row(alloc: Global, of: &Identity) -> Result<Statement, NoMemory>
    ensures { IfOk result (λ s. s ≡ row_deleted of.now) }
{
    Ok(Statement::Delete {
        table: log_table(alloc)?,
        test: Some(row_test(alloc, &of.id, &of.author, &of.file)?),
    })
}

/// Writes the tag of a row.
pub fn set_tag(alloc: Global, of: &Identity, tag: &Text) -> Result<Statement, NoMemory>
    ensures { IfOk result (λ s. s ≡ tag_set of.now tag.now) }
{
    set_text(alloc, of, LogColumn::Tag, tag)
}

/// Writes the checksum of a row that has none.
pub fn fill_sum(alloc: Global, of: &Identity, sum: &Text) -> Result<Statement, NoMemory>
    ensures { IfOk result (λ s. s ≡ sum_filled of.now sum.now) }
{
    set_text(alloc, of, LogColumn::Md5Sum, sum)
}

/// Takes the checksum of every row: a later update fills each in (Liquibase's documentation,
/// "clear-checksums").
pub fn clear_sums(alloc: Global) -> Result<Statement, NoMemory>
    ensures { IfOk result (λ s. s ≡ sums_cleared) }
{
    let mut sets = Items::new(alloc);
    sets.push((LogColumn::Md5Sum.name(alloc)?, Literal::Null))?;
    Ok(Statement::Update {
        table: log_table(alloc)?,
        sets,
        test: None,
    })
}

fn set_text(
    alloc: Global,
    of: &Identity,
    column: LogColumn,
    text: &Text,
) -> Result<Statement, NoMemory>
    ensures { IfOk result (λ s. s ≡ row_set column text.now of.now) }
{
    let set = both(column.name(alloc), text_literal(alloc, text))?;
    let mut sets = Items::new(alloc);
    sets.push(set)?;
    let (table, test) = both(
        log_table(alloc),
        row_test(alloc, &of.id, &of.author, &of.file),
    )?;
    Ok(Statement::Update {
        table,
        sets,
        test: Some(test),
    })
}

/// That a row is the changeset's.
pub fn row_test(alloc: Global, id: &Text, author: &Text, file: &Text) -> Result<Test, NoMemory>
    ensures { IfOk result
        (λ test. test ≡ row_test (record
        { file = file.now; id = id.now; author = author.now })) }
{
    let id = log_holds(alloc, LogColumn::Id, id);
    let author = log_holds(alloc, LogColumn::Author, author);
    let file = log_holds(alloc, LogColumn::Filename, file);
    let ((id, author), file) = both(both(id, author), file)?;
    let of_author = and(alloc, id, author)?;
    and(alloc, of_author, file)
}

fn and(alloc: Global, one: Test, other: Test) -> Result<Test, NoMemory>
    ensures { IfOk result (λ test. test ≡ And one other) }
{
    let one = Boxed::new(alloc, one)?;
    let other = Boxed::new(alloc, other)?;
    Ok(Test::And(one, other))
}

fn log_holds(alloc: Global, column: LogColumn, text: &Text) -> Result<Test, NoMemory>
    ensures { IfOk result (λ test. test ≡ log_holds column text.now) }
{
    let value = text_literal(alloc, text)?;
    Ok(holds(column.name(alloc)?, value))
}

#[tactic(auto, using(crate::proofs::Names::log_table_is_name), unfolding(crate::specs::Log::log_table))]
pub fn log_table(alloc: Global) -> Result<Name, NoMemory>
    ensures { IfOk result (λ name. name ≡ log_table) }
{
    fixed_name(alloc, "DATABASECHANGELOG")
}

#[tactic(auto, unfolding(crate::specs::Log::log_value))]
fn log_value(alloc: Global, row: &Tracked, column: LogColumn) -> Result<Literal, NoMemory>
    requires { IsMoment row.now.date }
    ensures { IfOk result (λ value. value ≡ log_value row.now column) }
{
    match column {
        LogColumn::Id => text_literal(alloc, &row.id),
        LogColumn::Author => text_literal(alloc, &row.author),
        LogColumn::Filename => text_literal(alloc, &row.filename),
        LogColumn::DateExecuted => moment_literal(alloc, row.date),
        LogColumn::OrderExecuted => Ok(Literal::Int(row.order as i128)),
        LogColumn::ExecType => Ok(Literal::Text(Text::new(alloc, row.exec.text())?)),
        LogColumn::Md5Sum => text_or_null(alloc, &row.md5sum),
        LogColumn::Description => text_literal(alloc, &row.description),
        LogColumn::Comments => text_literal(alloc, &row.comments),
        LogColumn::Tag => text_or_null(alloc, &row.tag),
        LogColumn::Liquibase => text_literal(alloc, &row.tool),
        LogColumn::Contexts => text_literal(alloc, &row.contexts),
        LogColumn::Labels => text_literal(alloc, &row.labels),
        LogColumn::DeploymentId => text_literal(alloc, &row.deployment),
    }
}

pub fn log_defs(alloc: Global, columns: &[LogColumn]) -> Result<Items<ColumnDef>, NoMemory>
    ensures { IfOk result (λ defs. defs ≡ map log_column columns.now) }
{
    let mut defs = Items::new(alloc);
    for column in columns {
        defs.push(column.def(alloc)?)?;
    }
    Ok(defs)
}

fn log_names(alloc: Global, columns: &[LogColumn]) -> Result<Items<Name>, NoMemory>
    ensures { IfOk result (λ names. names ≡ map log_name columns.now) }
{
    let mut names = Items::new(alloc);
    for column in columns {
        names.push(column.name(alloc)?)?;
    }
    Ok(names)
}

fn log_values(
    alloc: Global,
    row: &Tracked,
    columns: &[LogColumn],
) -> Result<Items<Literal>, NoMemory>
    requires { IsMoment row.now.date }
    ensures { IfOk result (λ values. values ≡ map (log_value row.now) columns.now) }
{
    let mut values = Items::new(alloc);
    for column in columns {
        values.push(log_value(alloc, row, *column)?)?;
    }
    Ok(values)
}

fn log_sets(
    alloc: Global,
    row: &Tracked,
    columns: &[LogColumn],
) -> Result<Items<(Name, Literal)>, NoMemory>
    requires { IsMoment row.now.date }
    ensures { IfOk result (λ sets. sets ≡ map (log_set row.now) columns.now) }
{
    let mut sets = Items::new(alloc);
    for column in columns {
        sets.push(log_set(alloc, row, *column)?)?;
    }
    Ok(sets)
}

fn log_set(alloc: Global, row: &Tracked, column: LogColumn) -> Result<(Name, Literal), NoMemory>
    requires { IsMoment row.now.date }
    ensures { IfOk result (λ set. set ≡ log_set row.now column) }
{
    let name = column.name(alloc)?;
    Ok((name, log_value(alloc, row, column)?))
}
