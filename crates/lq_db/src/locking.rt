ghost use Rattle.std.specs.Prelude.{◌≡◌, IfOk};
ghost use Rattle.lq_db.specs.Db.{IsLockOf};

use lq_base::{Dialect, Lock, NoMemory};
use lq_store::Executor;
use lq_track::{TrackFault, read_lock};
use std::alloc::Global;

/// The lock that the engine's catalogue has; a free one where it has none that can be read.
pub fn lock_now<E: Executor>(alloc: Global, dialect: Dialect, engine: &E) -> Result<Lock, NoMemory>
    ensures { IfOk result (λ lock. IsLockOf dialect (E.held engine.now).now lock) }
{
    match read_lock(alloc, dialect, engine) {
        Ok(lock) => Ok(lock),
        Err(TrackFault::NotTables) => Ok(Lock {
            locked: false,
            granted: None,
            by: None,
        }),
        Err(TrackFault::OutOfMemory) => Err(NoMemory),
    }
}
