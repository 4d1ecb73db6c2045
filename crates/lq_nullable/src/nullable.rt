//! What the two change types share that set whether a column takes null.
ghost use Rattle.std.specs.Prelude.{◌≡◌, IfOk};
ghost use Rattle.lq_model.specs.Step.{is_pg};
ghost use Rattle.lq_model.specs.TakesBack.{is_plain_of};
ghost use Rattle.lq_nullable.specs.Nullable.{allowing, is_new, is_turned, kind_stated};

use lq_base::{Dialect, Duplicate, Kind, Name, NoMemory, both};
use lq_model::{Column, Statement, are_equal};
use std::alloc::Global;

pub(crate) fn is_pg(dialect: Dialect) -> bool
    ensures { result ≡ is_pg dialect }
{
    match dialect {
        Dialect::Postgresql => true,
        Dialect::Mysql => false,
    }
}

/// The kind that is stated. Where none is, it is not used.
pub(crate) fn kind_stated(stated: Option<Kind>) -> Kind
    ensures { result ≡ kind_stated stated }
{
    stated.unwrap_or(Kind::Text)
}

/// The statement that sets whether the column takes null.
pub(crate) fn allowing(
    alloc: Global,
    dialect: Dialect,
    table: &Name,
    column: &Name,
    stated: Option<Kind>,
    nullable: bool,
) -> Result<Statement, NoMemory>
    ensures { IfOk result
        (λ made. made ≡ allowing dialect table.now column.now (kind_stated stated) nullable) }
{
    let (table, column) = both(table.duplicate(alloc), column.duplicate(alloc))?;
    match dialect {
        Dialect::Postgresql => if nullable {
            Ok(Statement::DropNotNull { table, column })
        } else {
            Ok(Statement::SetNotNull { table, column })
        },
        Dialect::Mysql => Ok(Statement::Modify {
            table,
            column,
            kind: kind_stated(stated),
            nullable,
        }),
    }
}

fn is_turned(nullable: bool, column: &Column) -> bool
    ensures { result ≡ is_turned nullable column.now }
{
    if nullable {
        !column.nullable
    } else {
        column.nullable
    }
}

fn is_plain_of(kind: Kind, column: &Column) -> bool
    ensures { result ≡ is_plain_of kind column.now }
{
    are_equal(column.kind, kind) && (column.default.is_none() && !column.numbered)
}

/// Whether nothing but whether it takes null would be new in the column.
pub(crate) fn is_new(
    dialect: Dialect,
    stated: Option<Kind>,
    nullable: bool,
    column: &Column,
) -> bool
    ensures { result ≡ is_new dialect (kind_stated stated) nullable column.now }
{
    match dialect {
        Dialect::Postgresql => is_turned(nullable, column),
        Dialect::Mysql => is_plain_of(kind_stated(stated), column) && is_turned(nullable, column),
    }
}
