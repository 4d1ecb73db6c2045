ghost use Rattle.std.specs.Prelude.{◌≡◌, ◌≤◌, IsTrue, None, Ok};

use crate::alone::told_alone;
use crate::players::players;
use crate::shown::{show_fault, show_players};
use crate::steps::are_numbers;
use lq_base::Dialect;
use lq_db::Db;
use lq_drill::DrillFault;
use lq_engine::Engine;
use lq_journal::LoadFault;
use lq_model::{SqlText, StoreFault};
use lq_my::My;
use lq_outside::{Disk, LoadRefused, MemDisk};
use lq_pg::Pg;
use lq_players::drill_commands;
use lq_snap::Snap;
use lq_store::{Executor, States, Store};
use std::alloc::Global;
use std::process::Abort;

// After a drill that no fault ended no transaction is open.
fn show_open<S: Store>(rt: &impl Abort, out: &mut String, store: &S)
    requires valid { S.valid store.now }
    requires live { IsTrue (S.state store.now).live }
{
    if let Err(StoreFault::Busy(session)) = store.look(0) {
        write!(out, ", {session} has a transaction open").expect(rt, "memory");
    }
}

// How a drill ended.
fn show_end<S: Store>(rt: &impl Abort, out: &mut String, ended: Result<(), DrillFault>, store: &S)
    requires valid { S.valid store.now }
    requires live { ended ≡ Ok tt → IsTrue (S.state store.now).live }
{
    match ended {
        Ok(()) => show_open(rt, out, store),
        Err(fault) => show_fault(out, fault).expect(rt, "memory"),
    }
}

// What the commands of lines answer to the steps of a schedule.
fn told<S: Store, P: SqlText>(
    rt: &impl Abort,
    alloc: Global,
    store: &mut S,
    sql: &P,
    dialect: Dialect,
    lines: &str,
    steps: &[u32],
) -> String
    requires valid { S.valid store.old }
    requires live { IsTrue (S.state store.old).live }
    requires closed { (S.state store.old).begun ≡ None }
    requires sql { P.dialect ≡ dialect }
    requires dialect { (S.state store.old).dialect ≡ dialect }
{
    let mut players = players(rt, alloc, dialect, sql, lines);
    assert!(rt;
        are_numbers(steps, players.len()),
        "a number without a line"
    );
    let ended = drill_commands(&mut players, store, sql, steps);
    let mut out = String::new(alloc);
    show_players(&mut out, &players).expect(rt, "memory");
    show_end(rt, &mut out, ended, store);
    out
}

// The steps of a schedule; `0` stands for all steps of the only command, by itself.
fn told_by<S: Store, P: SqlText>(
    rt: &impl Abort,
    alloc: Global,
    store: &mut S,
    sql: &P,
    dialect: Dialect,
    lines: &str,
    steps: &[u32],
) -> String
    requires valid { S.valid store.old }
    requires live { IsTrue (S.state store.old).live }
    requires closed { (S.state store.old).begun ≡ None }
    requires sql { P.dialect ≡ dialect }
    requires dialect { (S.state store.old).dialect ≡ dialect }
{
    if matches!(steps, [0]) {
        told_alone(rt, alloc, store, sql, dialect, lines)
    } else {
        told(rt, alloc, store, sql, dialect, lines, steps)
    }
}

fn loaded<D: Disk + Drop, P: SqlText + Drop + Copy, E: Executor + Drop, W: States<Engine = E>>(
    rt: &impl Abort,
    alloc: Global,
    disk: D,
    sql: P,
    states: &W,
    dialect: Dialect,
    limit: u64,
    lines: &str,
    steps: &[u32],
) -> (D, String)
    requires sql { P.dialect ≡ dialect }
    requires limit { (8192 ≤ limit) × (limit ≤ 65536) }
{
    let loaded: Result<Db<D, P, E>, LoadRefused<D, LoadFault>> = Db::load(
        alloc, disk, dialect, sql, limit, states,
    );
    match loaded {
        Ok(mut db) => {
            let told = told_by(rt, alloc, &mut db, &sql, dialect, lines, steps);
            (db.into_disk(), told)
        }
        Err(refused) => {
            let told = String::from_str(alloc, "not loaded").expect(rt, "memory");
            (refused.disk, told)
        }
    }
}

fn drilled_on(
    rt: &impl Abort,
    alloc: Global,
    dialect: Dialect,
    limit: u64,
    disk: MemDisk,
    lines: &str,
    steps: &[u32],
) -> (MemDisk, String)
    requires limit { (8192 ≤ limit) × (limit ≤ 65536) }
{
    match dialect {
        Dialect::Postgresql => {
            loaded::<MemDisk, Pg, Engine, Snap>(
                rt, alloc, disk, Pg, &Snap, dialect, limit, lines, steps,
            )
        },
        Dialect::Mysql => {
            loaded::<MemDisk, My, Engine, Snap>(
                rt, alloc, disk, My, &Snap, dialect, limit, lines, steps,
            )
        },
    }
}

/// What the commands of lines answer to the steps of a schedule on an empty disk, and the disk
/// afterwards. One call of the disk fails, counted from 1; 0 for none.
pub fn drilled(
    rt: &impl Abort,
    alloc: Global,
    dialect: Dialect,
    failing: u64,
    lines: &str,
    steps: &[u32],
) -> (MemDisk, String) {
    let fail = Vec::from_slice(alloc, &[failing]).expect(rt, "memory");
    let disk = MemDisk::new(Vec::new(alloc), fail);
    drilled_on(rt, alloc, dialect, 65536, disk, lines, steps)
}

/// The same on a disk that does not fail, with a journal of at most 8,192 bytes, of which the last 4,096
/// are for what frees the lock.
pub fn drilled_in_little(
    rt: &impl Abort,
    alloc: Global,
    dialect: Dialect,
    lines: &str,
    steps: &[u32],
) -> (MemDisk, String) {
    let disk = MemDisk::new(Vec::new(alloc), Vec::new(alloc));
    drilled_on(rt, alloc, dialect, 8192, disk, lines, steps)
}
