ghost use Rattle.lq_cond.specs.Told.{told};
ghost use Rattle.lq_track.specs.Database.{Database};
ghost use Rattle.lq_turns.specs.Schedule.{StandsFor};
ghost use Rattle.lq_verdicts.specs.Verdict.{IsTold};

use lq_base::{Dialect, Tracked};
use lq_cond::{Cond, CondFault, check};
use lq_model::Look;
use std::alloc::Global;

/// Whether a condition holds in the database that is seen, where these rows track what ran. The tables
/// that track it are none of the database's objects.
pub fn holds<K: Look>(
    alloc: Global,
    asked: &Cond,
    dialect: Dialect,
    look: &K,
    rows: &[Tracked],
) -> Result<bool, CondFault>
    ensures { (database : Database)
        → StandsFor dialect (K.catalogue look.now) database
        → IsTold (told dialect asked.now database.users rows.now) result }
{
    check(alloc, asked, dialect, look, rows)
}
