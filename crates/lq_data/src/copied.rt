//! Statements copied.
ghost use Rattle.std.specs.Prelude.{◌≡◌, ◌++◌, ◌∷◌, [], IfOk, OnErr, OnOk, true};
ghost use Rattle.lq_model.specs.declared.statement.Statement.TheVariants as statement;
ghost use Rattle.lq_data.specs.ColumnValue.{is_of_object};

use lq_base::{Duplicate, Items, Kind, Name, NoMemory, cut};
use lq_model::{ColumnDef, ForeignKey, Key, Query, Statement, Unique};
use std::alloc::Global;

fn two<A: Duplicate + Drop, B: Duplicate + Drop>(
    alloc: Global,
    a: &A,
    b: &B,
) -> Result<(A, B), NoMemory>
    ensures { IfOk result (λ made. made ≡ (a.now, b.now)) }
{
    let first = a.duplicate(alloc)?;
    let second = b.duplicate(alloc)?;
    Ok((first, second))
}

fn three<A: Duplicate + Drop, B: Duplicate + Drop, C: Duplicate + Drop>(
    alloc: Global,
    a: &A,
    b: &B,
    c: &C,
) -> Result<(A, B, C), NoMemory>
    ensures { IfOk result (λ made. made ≡ (a.now, b.now, c.now)) }
{
    let first = a.duplicate(alloc)?;
    let (second, third) = two(alloc, b, c)?;
    Ok((first, second, third))
}

// A statement whose fields are copies of the variables with their names.
macro_rules! copied {
    ($alloc:expr, $variant:ident { $a:ident }) => {{
        let $a = $a.duplicate($alloc)?;
        Ok(Statement::$variant { $a })
    }};
    ($alloc:expr, $variant:ident { $a:ident, $b:ident }) => {{
        let ($a, $b) = two($alloc, $a, $b)?;
        Ok(Statement::$variant { $a, $b })
    }};
    ($alloc:expr, $variant:ident { $a:ident, $b:ident, $c:ident }) => {{
        let ($a, $b, $c) = three($alloc, $a, $b, $c)?;
        Ok(Statement::$variant { $a, $b, $c })
    }};
}

fn create_table(
    alloc: Global,
    table: &Name,
    columns: &Items<ColumnDef>,
    key: &Option<Key>,
    uniques: &Items<Unique>,
    foreign: &Items<ForeignKey>,
) -> Result<Statement, NoMemory>
    ensures { IfOk result (λ made.
        made ≡ statement.CreateTable table.now columns.now key.now uniques.now foreign.now) }
{
    let (columns, key) = two(alloc, columns, key)?;
    let (table, uniques, foreign) = three(alloc, table, uniques, foreign)?;
    Ok(Statement::CreateTable {
        table,
        columns,
        key,
        uniques,
        foreign,
    })
}

fn modify(
    alloc: Global,
    table: &Name,
    column: &Name,
    kind: Kind,
    nullable: bool,
) -> Result<Statement, NoMemory>
    ensures { IfOk result (λ made. made ≡ statement.Modify table.now column.now kind nullable) }
{
    let (table, column) = two(alloc, table, column)?;
    Ok(Statement::Modify {
        table,
        column,
        kind,
        nullable,
    })
}

fn create_view(
    alloc: Global,
    view: &Name,
    query: &Query,
    replace: bool,
) -> Result<Statement, NoMemory>
    ensures { IfOk result (λ made. made ≡ statement.CreateView view.now query.now replace) }
{
    let (view, query) = two(alloc, view, query)?;
    Ok(Statement::CreateView {
        view,
        query,
        replace,
    })
}

fn create_sequence(
    alloc: Global,
    name: &Name,
    start: i128,
    step: i128,
) -> Result<Statement, NoMemory>
    ensures { IfOk result (λ made. made ≡ statement.CreateSequence name.now start step) }
{
    let name = name.duplicate(alloc)?;
    Ok(Statement::CreateSequence { name, start, step })
}

// A copy of a statement of a constraint, an index, a view or a sequence.
fn copy_of_object(alloc: Global, statement: &Statement) -> Result<Statement, NoMemory>
    requires { is_of_object statement.now ≡ true }
    ensures { IfOk result (λ copy. copy ≡ statement.now) }
{
    match statement {
        Statement::AddPrimaryKey { table, key } => copied!(alloc, AddPrimaryKey { table, key }),
        Statement::AddUnique { table, unique } => copied!(alloc, AddUnique { table, unique }),
        Statement::AddForeignKey { table, foreign } => copied!(
            alloc,
            AddForeignKey { table, foreign }
        ),
        Statement::DropConstraint { table, name } => copied!(alloc, DropConstraint { table, name }),
        Statement::DropPrimaryKey { table } => copied!(alloc, DropPrimaryKey { table }),
        Statement::DropUnique { table, name } => copied!(alloc, DropUnique { table, name }),
        Statement::DropForeignKey { table, name } => copied!(alloc, DropForeignKey { table, name }),
        Statement::CreateIndex { table, index } => copied!(alloc, CreateIndex { table, index }),
        Statement::DropIndex { name, table } => copied!(alloc, DropIndex { name, table }),
        Statement::CreateView {
            view,
            query,
            replace,
        } => create_view(alloc, view, query, *replace),
        Statement::DropView { view } => copied!(alloc, DropView { view }),
        Statement::RenameView { view, to } => copied!(alloc, RenameView { view, to }),
        Statement::CreateSequence { name, start, step } => create_sequence(
            alloc, name, *start, *step,
        ),
        Statement::DropSequence { name } => copied!(alloc, DropSequence { name }),
        Statement::RenameSequence { name, to } => copied!(alloc, RenameSequence { name, to }),
        _ => unreachable!(),
    }
}

fn copy_of(alloc: Global, statement: &Statement) -> Result<Statement, NoMemory>
    ensures { IfOk result (λ copy. copy ≡ statement.now) }
{
    match statement {
        Statement::CreateTable {
            table,
            columns,
            key,
            uniques,
            foreign,
        } => create_table(alloc, table, columns, key, uniques, foreign),
        Statement::DropTable { table } => copied!(alloc, DropTable { table }),
        Statement::RenameTable { table, to } => copied!(alloc, RenameTable { table, to }),
        Statement::AddColumn { table, column } => copied!(alloc, AddColumn { table, column }),
        Statement::DropColumn { table, column } => copied!(alloc, DropColumn { table, column }),
        Statement::RenameColumn { table, column, to } => copied!(
            alloc,
            RenameColumn { table, column, to }
        ),
        Statement::SetNotNull { table, column } => copied!(alloc, SetNotNull { table, column }),
        Statement::DropNotNull { table, column } => copied!(alloc, DropNotNull { table, column }),
        Statement::Modify {
            table,
            column,
            kind,
            nullable,
        } => modify(alloc, table, column, *kind, *nullable),
        Statement::SetDefault {
            table,
            column,
            value,
        } => copied!(
            alloc,
            SetDefault {
                table,
                column,
                value
            }
        ),
        Statement::DropDefault { table, column } => copied!(alloc, DropDefault { table, column }),
        Statement::Insert {
            table,
            columns,
            values,
        } => copied!(
            alloc,
            Insert {
                table,
                columns,
                values
            }
        ),
        Statement::Update { table, sets, test } => copied!(alloc, Update { table, sets, test }),
        Statement::Delete { table, test } => copied!(alloc, Delete { table, test }),
        _ => copy_of_object(alloc, statement),
    }
}

/// Adds a copy of the statement, or changes nothing.
fn push_copy(
    alloc: Global,
    statement: &Statement,
    to: &mut Items<Statement>,
) -> Result<(), NoMemory>
    ensures ok { OnOk result (to.new ≡ to.old ++ statement.now ∷ []) }
    ensures err { OnErr result (to.new ≡ to.old) }
{
    let copy = copy_of(alloc, statement)?;
    to.push(copy)?;
    Ok(())
}

/// Adds a copy of each statement, in order, or changes nothing.
pub(crate) fn push_copies(
    alloc: Global,
    statements: &[Statement],
    to: &mut Items<Statement>,
) -> Result<(), NoMemory>
    ensures ok { OnOk result (to.new ≡ to.old ++ statements.now) }
    ensures err { OnErr result (to.new ≡ to.old) }
{
    let before = to.len();
    for statement in statements {
        if push_copy(alloc, statement, to).is_err() {
            cut(to, before);
            return Err(NoMemory);
        }
    }
    Ok(())
}
