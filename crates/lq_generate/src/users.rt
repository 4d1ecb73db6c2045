ghost use Rattle.std.specs.Prelude.{◌≡◌, IfOk, map};
ghost use Rattle.lq_base.specs.Name.{is_named};
ghost use Rattle.lq_generate.specs.Faults.{table_in, tables_in};
ghost use Rattle.lq_generate.specs.Generated.{is_tracking_table, untracked};
ghost use Rattle.lq_parts.specs.Taken.{IsOrdered};
ghost use Rattle.lq_track.specs.Database.{users_of};
ghost use Rattle.lq_track.specs.Lock.{lock_table};
ghost use Rattle.lq_track.specs.Log.{log_table};

use lq_base::{Name, NoMemory};
use lq_parts::Parts;
use lq_rows::Held;
use std::alloc::Global;

#[tactic(auto, unfolding(lq_track::specs::Log::log_table))]
fn is_log_table(name: &Name) -> bool
    ensures { result ≡ is_named log_table name.now }
{
    "DATABASECHANGELOG".cmp(name.as_key()).is_eq()
}

#[tactic(auto, unfolding(lq_track::specs::Lock::lock_table))]
fn is_lock_table(name: &Name) -> bool
    ensures { result ≡ is_named lock_table name.now }
{
    "DATABASECHANGELOGLOCK".cmp(name.as_key()).is_eq()
}

fn is_tracking_table(name: &Name) -> bool
    ensures { result ≡ is_tracking_table name.now }
{
    is_log_table(name) | is_lock_table(name)
}

fn without_tracking<'a>(
    alloc: Global,
    entries: &'a [(Name, Held)],
) -> Result<Vec<&'a (Name, Held)>, NoMemory>
    ensures { IfOk result (λ found. tables_in found.items
        ≡ untracked (map table_in entries.now)) }
{
    let mut found = Vec::new(alloc);
    for entry in entries {
        if !is_tracking_table(&entry.0) {
            found.push(entry)?;
        }
    }
    Ok(found)
}

/// The tables other than the tracking tables, in the order of their names.
pub fn users_tables<'a>(alloc: Global, parts: &'a Parts) -> Result<Vec<&'a (Name, Held)>, NoMemory>
    requires { IsOrdered parts.now.now.tables }
    ensures { IfOk result (λ found. tables_in found.items ≡ (users_of parts.now.now).tables) }
{
    let found = without_tracking(alloc, parts.tables())?;
    Ok(found)
}
