ghost use Rattle.std.specs.Prelude.{◌≡◌, ◌++◌, IfOk, OnOk};
ghost use Rattle.lq_base.specs.declared.dialect.Dialect.{Dialect};
ghost use Rattle.lq_sets.specs.Counting.{Gathered, GatheredEach, Suffice, rows_for};
ghost use Rattle.lq_track.specs.Database.{Database};
ghost use Rattle.lq_turns.specs.Deed.{theirs};
ghost use Rattle.lq_turns.specs.Schedule.{StandsFor};

use lq_base::{Items, NoMemory, Text, Tracked};
use lq_cond::{Cond, Condition};
use lq_model::Look;
use lq_track::{TrackFault, read_rows_of};
use std::alloc::Global;

/// Adds the rows of a changeset, in a database in which the tracking tables, where they are there,
/// are as they are made.
fn add_theirs<K: Look>(
    alloc: Global,
    look: &K,
    id: &Text,
    author: &Text,
    file: &Text,
    rows: &mut Items<Tracked>,
) -> Result<(), NoMemory>
    ensures { OnOk result
        ((d : Dialect) (database : Database)
        → StandsFor d (K.catalogue look.now) database
        → rows.new
        ≡ rows.old
        ++ theirs (record { file = file.now; id = id.now; author = author.now })
        database.rows) }
{
    let found = match read_rows_of(alloc, look, id, author, file) {
        Ok(found) => found,
        Err(TrackFault::NotTables) => return Err(NoMemory),
        Err(TrackFault::OutOfMemory) => return Err(NoMemory),
    };
    rows.append(found)?;
    Ok(())
}

/// Adds the rows that a condition of one kind asks for.
fn add_for<K: Look>(
    alloc: Global,
    look: &K,
    condition: &Condition,
    rows: &mut Items<Tracked>,
) -> Result<(), NoMemory>
    ensures { OnOk result
        ((d : Dialect) (database : Database)
        → StandsFor d (K.catalogue look.now) database
        → rows.new ≡ rows.old ++ rows_for condition.now database.rows) }
{
    match condition {
        Condition::ChangeSetExecuted {
            id,
            author,
            change_log_file,
        } => {
            add_theirs(alloc, look, id, author, change_log_file, rows)?;
            Ok(())
        }
        Condition::Dbms { .. }
        | Condition::TableExists { .. }
        | Condition::ViewExists { .. }
        | Condition::ColumnExists { .. }
        | Condition::SequenceExists { .. }
        | Condition::IndexExists { .. }
        | Condition::UniqueConstraintExists { .. }
        | Condition::ForeignKeyConstraintExists { .. }
        | Condition::PrimaryKeyExists { .. }
        | Condition::SqlCheck { .. }
        | Condition::RowCount { .. }
        | Condition::TableIsEmpty { .. } => Ok(()),
    }
}

#[cycle(asked)]
fn add_each<K: Look>(
    alloc: Global,
    look: &K,
    conds: &[Cond],
    rows: &mut Items<Tracked>,
) -> Result<(), NoMemory>
    ensures { OnOk result
        ((d : Dialect) (database : Database)
        → StandsFor d (K.catalogue look.now) database
        → GatheredEach database.rows rows.old rows.new conds.now) }
{
    for cond in conds {
        add_asked(alloc, look, cond, rows)?;
    }
    Ok(())
}

/// Adds the rows that a condition asks for.
#[cycle(asked)]
fn add_asked<K: Look>(
    alloc: Global,
    look: &K,
    asked: &Cond,
    rows: &mut Items<Tracked>,
) -> Result<(), NoMemory>
    ensures { OnOk result
        ((d : Dialect) (database : Database)
        → StandsFor d (K.catalogue look.now) database
        → Gathered database.rows rows.old rows.new asked.now) }
{
    match asked {
        Cond::And(inside) => {
            add_each(alloc, look, inside.as_slice(), rows)?;
            Ok(())
        }
        Cond::Or(inside) => {
            add_each(alloc, look, inside.as_slice(), rows)?;
            Ok(())
        }
        Cond::Not(inside) => {
            add_each(alloc, look, inside.as_slice(), rows)?;
            Ok(())
        }
        Cond::Is(condition) => {
            add_for(alloc, look, condition, rows)?;
            Ok(())
        }
    }
}

/// The rows of the database that is seen which a condition asks for, each `changeSetExecuted` in it
/// for those of its changeset: they tell it as much as all rows.
pub fn rows_asked<K: Look>(
    alloc: Global,
    look: &K,
    asked: &Cond,
) -> Result<Items<Tracked>, NoMemory>
    ensures { IfOk result (λ rows.
        (d : Dialect) (database : Database)
        → StandsFor d (K.catalogue look.now) database
        → Suffice d asked.now database rows) }
{
    let mut rows = Items::new(alloc);
    add_asked(alloc, look, asked, &mut rows)?;
    Ok(rows)
}
