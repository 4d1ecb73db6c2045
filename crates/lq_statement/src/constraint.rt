ghost use Rattle.std.specs.Prelude.{◌≡◌};
ghost use Rattle.lq_base.specs.declared.dialect.Dialect.TheVariants.{Postgresql};
ghost use Rattle.lq_model.specs.SqlParser.{Reads};
ghost use Rattle.lq_model.specs.SqlConstraint as spec;
ghost use Rattle.lq_statement.specs.Clauses.{Settles};

use crate::name::{foreign_name, key_name, unique_name};
use lq_base::{Dialect, Name};
use lq_model::{ForeignKey, Key, ParseFault, TableConstraint, Unique, WordKind};
use lq_parse::cursor::Words;
use lq_parse::list::enclosed;
use lq_parse::part::{name, object};
use std::alloc::Global;

// The stated name of a key, which mysql passes over, or the one by default.
fn key_name_or(
    alloc: Global,
    dialect: Dialect,
    table: &Name,
    stated: Option<Name>,
) -> Result<Name, ParseFault>
    ensures { Settles (spec.key_name_or dialect table.now stated) result }
{
    match (dialect, stated) {
        (Dialect::Postgresql, Some(stated)) => Ok(stated),
        _ => key_name(alloc, dialect, table),
    }
}

#[tactic(auto, unfolding(lq_model::specs::SqlConstraint::key))]
fn key(
    alloc: Global,
    dialect: Dialect,
    words: &mut Words<'_>,
    table: &Name,
    stated: Option<Name>,
) -> Result<Key, ParseFault>
    ensures { Reads (spec.key dialect table.now stated words.old) result words.new }
{
    words.expect(WordKind::Primary)?;
    words.expect(WordKind::Key)?;
    let columns = enclosed(alloc, words, &name)?;
    let name = key_name_or(alloc, dialect, table, stated)?;
    Ok(Key { name, columns })
}

#[tactic(auto, unfolding(lq_model::specs::SqlConstraint::unique))]
fn unique(
    alloc: Global,
    words: &mut Words<'_>,
    table: &Name,
    stated: Option<Name>,
) -> Result<Unique, ParseFault>
    ensures { Reads (spec.unique table.now stated words.old) result words.new }
{
    words.expect(WordKind::Unique)?;
    let columns = enclosed(alloc, words, &name)?;
    let name = match stated {
        Some(stated) => stated,
        None => unique_name(alloc, table, columns.as_slice())?,
    };
    Ok(Unique { name, columns })
}

// Whether a row goes with the one that it names.
#[tactic(auto, unfolding(lq_model::specs::SqlConstraint::on_delete))]
fn on_delete(words: &mut Words<'_>) -> Result<bool, ParseFault>
    ensures { Reads (spec.on_delete words.old) result words.new }
{
    if !words.eat(WordKind::On) {
        return Ok(false);
    }
    words.expect(WordKind::Delete)?;
    let reaction = words.peek();
    words.skip();
    match reaction {
        WordKind::Cascade => Ok(true),
        WordKind::Restrict => Ok(false),
        WordKind::No => {
            words.expect(WordKind::Action)?;
            Ok(false)
        }
        _ => Err(ParseFault::NotSql),
    }
}

#[tactic(auto, unfolding(lq_model::specs::SqlConstraint::foreign))]
fn foreign(
    alloc: Global,
    dialect: Dialect,
    words: &mut Words<'_>,
    table: &Name,
    stated: Option<Name>,
) -> Result<ForeignKey, ParseFault>
    ensures { Reads (spec.foreign dialect table.now stated words.old) result words.new }
{
    words.expect(WordKind::Foreign)?;
    words.expect(WordKind::Key)?;
    let columns = enclosed(alloc, words, &name)?;
    words.expect(WordKind::References)?;
    let target = object(alloc, dialect, words)?;
    let targets = enclosed(alloc, words, &name)?;
    let cascade = on_delete(words)?;
    let name = match stated {
        Some(stated) => stated,
        None => foreign_name(alloc, table, columns.as_slice())?,
    };
    Ok(ForeignKey {
        name,
        columns,
        table: target,
        targets,
        cascade,
    })
}

/// Whether a constraint that stands apart from the columns begins so.
pub fn begins_constraint(kind: WordKind) -> bool
    ensures { result ≡ spec.begins_constraint kind }
{
    match kind {
        WordKind::Constraint | WordKind::Primary | WordKind::Unique | WordKind::Foreign => true,
        _ => false,
    }
}

// `CONSTRAINT q`, or nothing.
#[tactic(auto, unfolding(lq_model::specs::SqlConstraint::stated_name))]
fn stated_name(alloc: Global, words: &mut Words<'_>) -> Result<Option<Name>, ParseFault>
    ensures { Reads (spec.stated_name words.old) result words.new }
{
    if words.eat(WordKind::Constraint) {
        Ok(Some(name(alloc, words)?))
    } else {
        Ok(None)
    }
}

/// A constraint that stands apart from the columns, of this table.
#[tactic(auto, unfolding(lq_model::specs::SqlConstraint::table_constraint))]
pub fn table_constraint(
    alloc: Global,
    dialect: Dialect,
    words: &mut Words<'_>,
    table: &Name,
) -> Result<TableConstraint, ParseFault>
    ensures { Reads (spec.table_constraint dialect table.now words.old) result words.new }
{
    let stated = stated_name(alloc, words)?;
    match words.peek() {
        WordKind::Primary => Ok(TableConstraint::Key(key(alloc, dialect, words, table, stated)?)),
        WordKind::Unique => Ok(TableConstraint::Unique(unique(alloc, words, table, stated)?)),
        WordKind::Foreign => {
            Ok(TableConstraint::Foreign(foreign(alloc, dialect, words, table, stated)?))
        }
        _ => Err(ParseFault::NotSql),
    }
}
