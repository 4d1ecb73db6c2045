ghost use Rattle.std.specs.Prelude.{◌≡◌, IfOk};
ghost use Rattle.lq_players.specs.Syncing.{HasLock, HasRows};
ghost use Rattle.lq_track.specs.Log.{identity_of};

use lq_base::{Dialect, Identity, Items, Lock, NoMemory, Tracked};
use lq_model::Look;
use lq_track::{TrackFault, read_lock, read_rows};
use std::alloc::Global;

/// The rows of tracking in run order. Tables that are not as they are made are want of memory.
pub fn rows_in<K: Look>(
    alloc: Global,
    dialect: Dialect,
    look: &K,
) -> Result<Items<Tracked>, NoMemory>
    ensures { IfOk result (λ rows. HasRows dialect (K.catalogue look.now) rows) }
{
    match read_rows(alloc, dialect, look) {
        Ok(rows) => Ok(rows),
        Err(TrackFault::NotTables | TrackFault::OutOfMemory) => Err(NoMemory),
    }
}

/// The lock. Tables that are not as they are made are want of memory.
pub fn lock_in<K: Look>(alloc: Global, dialect: Dialect, look: &K) -> Result<Lock, NoMemory>
    ensures { IfOk result (λ lock. HasLock dialect (K.catalogue look.now) lock) }
{
    match read_lock(alloc, dialect, look) {
        Ok(lock) => Ok(lock),
        Err(TrackFault::NotTables | TrackFault::OutOfMemory) => Err(NoMemory),
    }
}

/// What names the changeset of the row.
pub fn identity_of(alloc: Global, row: &Tracked) -> Result<Identity, NoMemory>
    ensures { IfOk result (λ of. of ≡ identity_of row.now) }
{
    Ok(Identity {
        file: row.filename.copy(alloc)?,
        id: row.id.copy(alloc)?,
        author: row.author.copy(alloc)?,
    })
}
