ghost use Rattle.std.specs.Prelude.{◌≡◌};

use crate::play::play;
use lq_base::Dialect;
use lq_db::Db;
use lq_engine::Engine;
use lq_journal::LoadFault;
use lq_model::SqlText;
use lq_my::My;
use lq_outside::{Disk, LoadRefused, MemDisk};
use lq_pg::Pg;
use lq_snap::Snap;
use lq_store::{Executor, States};
use std::alloc::Global;
use std::test::Fail;

// The answers to a script, and the disk afterwards.
fn answers<D: Disk + Drop, P: SqlText + Drop + Copy, E: Executor + Drop, W: States<Engine = E>>(
    alloc: Global,
    disk: D,
    dialect: Dialect,
    sql: P,
    states: &W,
    script: &str,
) -> Result<(D, String), Fail>
    requires sql { P.dialect ≡ dialect }
{
    let loaded: Result<Db<D, P, E>, LoadRefused<D, LoadFault>> = Db::load(
        alloc, disk, dialect, sql, 8192, states,
    );
    match loaded {
        Ok(mut db) => {
            let told = play(alloc, &mut db, &sql, dialect, script)?;
            Ok((db.into_disk(), told))
        }
        Err(refused) => Ok((refused.disk, String::from_str(alloc, "not loaded")?)),
    }
}

/// What a script answers on an empty disk of which one call fails, and the disk afterwards. The calls
/// are counted from 1; 0 for none. The journal may have 8,192 bytes.
pub fn acted(
    alloc: Global,
    dialect: Dialect,
    failing: u64,
    script: &str,
) -> Result<(MemDisk, String), Fail> {
    let fail = Vec::from_slice(alloc, &[failing])?;
    let disk = MemDisk::new(Vec::new(alloc), fail);
    match dialect {
        Dialect::Postgresql => answers::<MemDisk, Pg, Engine, Snap>(
            alloc, disk, dialect, Pg, &Snap, script,
        ),
        Dialect::Mysql => answers::<MemDisk, My, Engine, Snap>(
            alloc, disk, dialect, My, &Snap, script,
        ),
    }
}
