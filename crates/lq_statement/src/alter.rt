ghost use Rattle.std.specs.Prelude.{◌≡◌};
ghost use Rattle.lq_model.specs.SqlParser.{Reads};
ghost use Rattle.lq_model.specs.SqlAlter as spec;

use crate::alter_column::alter_column;
use crate::column::added_column;
use crate::constraint::{begins_constraint, table_constraint};
use crate::kind::column_kind;
use lq_base::{Dialect, Name};
use lq_model::{ParseFault, Statement, TableConstraint, WordKind};
use lq_parse::cursor::Words;
use lq_parse::part::{name, object};
use std::alloc::Global;

// `TO q`: a name of an object in the schema that it is in.
#[tactic(auto, unfolding(lq_model::specs::SqlAlter::new_name))]
fn new_name(alloc: Global, words: &mut Words<'_>, old: &Name) -> Result<Name, ParseFault>
    ensures { Reads (spec.new_name old.now words.old) result words.new }
{
    words.expect(WordKind::To)?;
    let to = name(alloc, words)?;
    Ok(to.beside(alloc, old)?)
}

fn constraint_added(table: Name, constraint: TableConstraint) -> Statement
    ensures { result ≡ spec.constraint_added table constraint }
{
    match constraint {
        TableConstraint::Key(key) => Statement::AddPrimaryKey { table, key },
        TableConstraint::Unique(unique) => Statement::AddUnique { table, unique },
        TableConstraint::Foreign(foreign) => Statement::AddForeignKey { table, foreign },
    }
}

#[tactic(auto, unfolding(lq_model::specs::SqlAlter::add_constraint))]
fn add_constraint(
    alloc: Global,
    dialect: Dialect,
    words: &mut Words<'_>,
    table: Name,
) -> Result<Statement, ParseFault>
    ensures { Reads (spec.add_constraint dialect table words.old) result words.new }
{
    let constraint = table_constraint(alloc, dialect, words, &table)?;
    Ok(constraint_added(table, constraint))
}

#[tactic(auto, unfolding(lq_model::specs::SqlAlter::add_column))]
fn add_column(
    alloc: Global,
    dialect: Dialect,
    words: &mut Words<'_>,
    table: Name,
) -> Result<Statement, ParseFault>
    ensures { Reads (spec.add_column dialect table words.old) result words.new }
{
    words.eat(WordKind::Column);
    let column = added_column(alloc, dialect, words)?;
    Ok(Statement::AddColumn { table, column })
}

#[tactic(auto, unfolding(lq_model::specs::SqlAlter::add))]
fn add(
    alloc: Global,
    dialect: Dialect,
    words: &mut Words<'_>,
    table: Name,
) -> Result<Statement, ParseFault>
    ensures { Reads (spec.add dialect table words.old) result words.new }
{
    if begins_constraint(words.peek()) {
        add_constraint(alloc, dialect, words, table)
    } else {
        add_column(alloc, dialect, words, table)
    }
}

// What follows DROP.
#[tactic(auto, unfolding(lq_model::specs::SqlAlter::drop_part))]
fn drop_part(
    alloc: Global,
    dialect: Dialect,
    words: &mut Words<'_>,
    table: Name,
) -> Result<Statement, ParseFault>
    ensures { Reads (spec.drop_part dialect table words.old) result words.new }
{
    let part = words.peek();
    words.skip();
    match (dialect, part) {
        (_, WordKind::Column) => {
            let column = name(alloc, words)?;
            Ok(Statement::DropColumn { table, column })
        }
        (Dialect::Postgresql, WordKind::Constraint) => {
            let name = name(alloc, words)?;
            Ok(Statement::DropConstraint { table, name })
        }
        (Dialect::Mysql, WordKind::Primary) => {
            words.expect(WordKind::Key)?;
            Ok(Statement::DropPrimaryKey { table })
        }
        (Dialect::Mysql, WordKind::Index) => {
            let name = name(alloc, words)?;
            Ok(Statement::DropUnique { table, name })
        }
        (Dialect::Mysql, WordKind::Foreign) => {
            words.expect(WordKind::Key)?;
            let name = name(alloc, words)?;
            Ok(Statement::DropForeignKey { table, name })
        }
        _ => Err(ParseFault::NotSql),
    }
}

#[tactic(auto, unfolding(lq_model::specs::SqlAlter::rename_column))]
fn rename_column(alloc: Global, words: &mut Words<'_>, table: Name) -> Result<Statement, ParseFault>
    ensures { Reads (spec.rename_column table words.old) result words.new }
{
    let column = name(alloc, words)?;
    words.expect(WordKind::To)?;
    let to = name(alloc, words)?;
    Ok(Statement::RenameColumn { table, column, to })
}

/// `TO q` after a table's name.
#[tactic(auto, unfolding(lq_model::specs::SqlAlter::rename_table_to))]
pub fn rename_table_to(
    alloc: Global,
    words: &mut Words<'_>,
    table: Name,
) -> Result<Statement, ParseFault>
    ensures { Reads (spec.rename_table_to table words.old) result words.new }
{
    let to = new_name(alloc, words, &table)?;
    Ok(Statement::RenameTable { table, to })
}

// What follows RENAME.
#[tactic(auto, unfolding(lq_model::specs::SqlAlter::rename_part))]
fn rename_part(alloc: Global, words: &mut Words<'_>, table: Name) -> Result<Statement, ParseFault>
    ensures { Reads (spec.rename_part table words.old) result words.new }
{
    if words.eat(WordKind::Column) {
        rename_column(alloc, words, table)
    } else {
        rename_table_to(alloc, words, table)
    }
}

// What follows MODIFY.
#[tactic(auto, unfolding(lq_model::specs::SqlAlter::modify))]
fn modify(alloc: Global, words: &mut Words<'_>, table: Name) -> Result<Statement, ParseFault>
    ensures { Reads (spec.modify table words.old) result words.new }
{
    let column = name(alloc, words)?;
    let kind = column_kind(words)?;
    let required = words.eat(WordKind::Not);
    words.expect(WordKind::Null)?;
    Ok(Statement::Modify {
        table,
        column,
        kind,
        nullable: !required,
    })
}

// What follows ALTER TABLE.
#[tactic(auto, unfolding(lq_model::specs::SqlAlter::alter_table))]
fn alter_table(
    alloc: Global,
    dialect: Dialect,
    words: &mut Words<'_>,
) -> Result<Statement, ParseFault>
    ensures { Reads (spec.alter_table dialect words.old) result words.new }
{
    let table = object(alloc, dialect, words)?;
    let part = words.peek();
    words.skip();
    match (dialect, part) {
        (_, WordKind::Add) => add(alloc, dialect, words, table),
        (_, WordKind::Alter) => alter_column(alloc, dialect, words, table),
        (_, WordKind::Drop) => drop_part(alloc, dialect, words, table),
        (_, WordKind::Rename) => rename_part(alloc, words, table),
        (Dialect::Mysql, WordKind::Modify) => modify(alloc, words, table),
        _ => Err(ParseFault::NotSql),
    }
}

#[tactic(auto, unfolding(lq_model::specs::SqlAlter::alter_view))]
fn alter_view(
    alloc: Global,
    dialect: Dialect,
    words: &mut Words<'_>,
) -> Result<Statement, ParseFault>
    ensures { Reads (spec.alter_view dialect words.old) result words.new }
{
    let view = object(alloc, dialect, words)?;
    words.expect(WordKind::Rename)?;
    let to = new_name(alloc, words, &view)?;
    Ok(Statement::RenameView { view, to })
}

#[tactic(auto, unfolding(lq_model::specs::SqlAlter::alter_sequence))]
fn alter_sequence(
    alloc: Global,
    dialect: Dialect,
    words: &mut Words<'_>,
) -> Result<Statement, ParseFault>
    ensures { Reads (spec.alter_sequence dialect words.old) result words.new }
{
    let name = object(alloc, dialect, words)?;
    words.expect(WordKind::Rename)?;
    let to = new_name(alloc, words, &name)?;
    Ok(Statement::RenameSequence { name, to })
}

/// What follows ALTER.
#[tactic(auto, unfolding(lq_model::specs::SqlAlter::alter))]
pub fn alter(
    alloc: Global,
    dialect: Dialect,
    words: &mut Words<'_>,
) -> Result<Statement, ParseFault>
    ensures { Reads (spec.alter dialect words.old) result words.new }
{
    let part = words.peek();
    words.skip();
    match (dialect, part) {
        (_, WordKind::Table) => alter_table(alloc, dialect, words),
        (Dialect::Postgresql, WordKind::View) => alter_view(alloc, dialect, words),
        (Dialect::Postgresql, WordKind::Sequence) => alter_sequence(alloc, dialect, words),
        _ => Err(ParseFault::NotSql),
    }
}
