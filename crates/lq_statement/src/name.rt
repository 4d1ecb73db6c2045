ghost use Rattle.lq_base.specs.declared.name.Name.{Name};
ghost use Rattle.lq_model.specs.Sound as spec;
ghost use Rattle.lq_model.specs.SqlParser.{Gives};
ghost use Rattle.lq_model.specs.SqlPart.{name_of};

use lq_base::{Dialect, Name};
use lq_model::ParseFault;
use std::alloc::Global;

/// The name of a primary key that is not named, or NotSql where that is no name.
#[tactic(auto, unfolding(lq_model::specs::SqlPart::name_of))]
pub fn key_name(alloc: Global, dialect: Dialect, table: &Name) -> Result<Name, ParseFault>
    ensures { Gives (name_of (spec.key_name dialect table.now)) result }
{
    Ok(lq_model::key_name(alloc, dialect, table)?)
}

/// The name of a unique constraint that is not named, or NotSql where that is no name.
#[tactic(auto, unfolding(lq_model::specs::SqlPart::name_of))]
pub fn unique_name(alloc: Global, table: &Name, columns: &[Name]) -> Result<Name, ParseFault>
    ensures { Gives (name_of (spec.unique_name table.now columns.now)) result }
{
    Ok(lq_model::unique_name(alloc, table, columns)?)
}

/// The name of a foreign key that is not named, or NotSql where that is no name.
#[tactic(auto, unfolding(lq_model::specs::SqlPart::name_of))]
pub fn foreign_name(alloc: Global, table: &Name, columns: &[Name]) -> Result<Name, ParseFault>
    ensures { Gives (name_of (spec.foreign_name table.now columns.now)) result }
{
    Ok(lq_model::foreign_name(alloc, table, columns)?)
}
