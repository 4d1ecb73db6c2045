ghost use Rattle.std.specs.Prelude.{◌≡◌, ◌++◌, ◌∷◌, ◌≤◌, [], IfErr, IfOk, IsTrue, OnOk, false, is_some, map, nat_lt, option_map, true, unwrap_or};
ghost use Rattle.lq_model.specs.Catalogue.{table_of};
ghost use Rattle.lq_run.specs.Beside.{Beside, is_disk_result};
ghost use Rattle.lq_run.specs.Crashes.{BehindCleared, BehindOpened, BehindReleased, BehindTagged, CrashesCleared, CrashesOpened, CrashesReleased, CrashesTagged};
ghost use Rattle.lq_run.specs.Crashing.{CrashesFor, CrashesOpening};
ghost use Rattle.lq_store.specs.Journal.{CrashesLeave, Keeps, is_open, seen};
ghost use Rattle.lq_run.specs.Does.{AllWritable, AloneFor};
ghost use Rattle.lq_run.specs.Left.{LeavesCleared, LeavesOpened, LeavesReleased, LeavesTagged};
ghost use Rattle.lq_run.specs.Moves.{FailsFirst, OpensOn, TakesLock, opening_by};
ghost use Rattle.lq_store.specs.Calls.{CountsDisk};
ghost use Rattle.lq_track.specs.Database.{has_rows};
ghost use Rattle.lq_track.specs.Lock.{lock_table};
ghost use Rattle.lq_track.specs.Log.{log_table};
ghost use Rattle.lq_turns.specs.Script.{clearing, closing, if_missing};
ghost use Rattle.lq_model.specs.declared.caller.Room.TheVariants as room;
ghost use Rattle.lq_model.specs.declared.fault.StoreFault.TheVariants as fault;
ghost use Rattle.lq_turns.specs.declared.call.Call.TheVariants as call;
ghost use Rattle.lq_turns.specs.declared.deed.Deed.TheVariants as deed;
ghost use Rattle.lq_turns.specs.declared.deed.OnLock.TheVariants as on_lock;
ghost use Rattle.lq_turns.specs.declared.deed.OnRows.TheVariants as on_rows;

use crate::calls::do_alone;
use lq_base::{Dialect, Identity, Items, Name, NameFault, NoMemory, Text};
use lq_model::{Look, Room, SqlText, StoreFault};
use lq_statement::laws::statements_read_back;
use lq_store::Store;
use lq_turns::{Deed, OnLock, OnRows, Stamp};
use std::alloc::Global;

/// What of the tracking tables is there.
#[derive(Clone, Copy)]
pub struct Tables {
    pub log: bool,
    pub lock: bool,
    pub lock_row: bool,
}

/// Makes the tracking tables and the lock's row, each where it is missing, and takes the lock: all or
/// nothing, but for what MySQL has committed by then.
pub fn take_lock<S: Store, P: SqlText>(
    alloc: Global,
    session: u32,
    store: &mut S,
    sql: &P,
    dialect: Dialect,
    stamp: &Stamp,
) -> Result<(), StoreFault>
    requires valid { S.valid store.old }
    requires live { IsTrue (S.state store.old).live }
    requires closed { is_open session (S.state store.old).begun ≡ false }
    requires sql { P.dialect ≡ dialect }
    requires moment { stamp.now.reading ≤ 253402300799999 }
    ensures valid { S.valid store.new }
    ensures does { TakesLock dialect stamp.now session (S.state store.old) result
        (S.state store.new) }
    ensures leaves { LeavesOpened dialect stamp.now (S.state store.old) result (S.state store.new) }
    ensures behind { BehindOpened dialect stamp.now (S.state store.old) (S.state store.new) }
    ensures crash { CrashesOpening dialect stamp.now session (S.state store.old)
        (S.crashes store.old) (S.crashes store.new) }
    ensures any_moment { CrashesOpened dialect stamp.now (S.state store.old) (S.crashes store.old)
        (S.crashes store.new) }
    ensures faults { CountsDisk result (S.faults store.old) (S.faults store.new) }
    ensures beside { Beside session (is_disk_result result) (S.state store.old)
        (S.state store.new) }
    ensures keeps { CrashesLeave (S.state store.old).entries Keeps (S.crashes store.old)
        (S.crashes store.new) }
    ensures shuts { (S.state store.new).live ≡ true
        → is_open session (S.state store.new).begun ≡ false }
{
    statements_read_back();
    match first_deeds(alloc, session, store, dialect, stamp) {
        Ok(deeds) => do_alone(
            alloc,
            session,
            store,
            sql,
            dialect,
            deeds.as_slice(),
            Room::Ordinary,
        ),
        Err(fault) => Err(fault),
    }
}

/// Gives the row of a changeset a tag.
pub fn tag_row<S: Store, P: SqlText>(
    alloc: Global,
    session: u32,
    store: &mut S,
    sql: &P,
    dialect: Dialect,
    of: Identity,
    tag: Text,
) -> Result<(), StoreFault>
    requires valid { S.valid store.old }
    requires live { IsTrue (S.state store.old).live }
    requires closed { is_open session (S.state store.old).begun ≡ false }
    requires sql { P.dialect ≡ dialect }
    ensures valid { S.valid store.new }
    ensures does { AloneFor dialect session (deed.Rows (on_rows.Tagged of tag) ∷ []) room.Ordinary
        (S.state store.old) result (S.state store.new) }
    ensures leaves { LeavesTagged dialect of tag (S.state store.old) result (S.state store.new) }
    ensures behind { BehindTagged dialect of tag (S.state store.old) (S.state store.new) }
    ensures crash { CrashesFor dialect session
        (call.Alone (deed.Rows (on_rows.Tagged of tag) ∷ []) room.Ordinary) (S.state store.old)
        (S.crashes store.old) (S.crashes store.new) }
    ensures any_moment { CrashesTagged dialect of tag (S.state store.old) (S.crashes store.old)
        (S.crashes store.new) }
    ensures faults { CountsDisk result (S.faults store.old) (S.faults store.new) }
    ensures beside { Beside session (is_disk_result result) (S.state store.old)
        (S.state store.new) }
    ensures keeps { CrashesLeave (S.state store.old).entries Keeps (S.crashes store.old)
        (S.crashes store.new) }
    ensures shuts { (S.state store.new).live ≡ true
        → is_open session (S.state store.new).begun ≡ false }
{
    statements_read_back();
    do_alone(
        alloc,
        session,
        store,
        sql,
        dialect,
        &[Deed::Rows(OnRows::Tagged(of, tag))],
        Room::Ordinary,
    )
}

/// Takes the checksum of every row.
pub fn clear_rows<S: Store, P: SqlText>(
    alloc: Global,
    session: u32,
    store: &mut S,
    sql: &P,
    dialect: Dialect,
) -> Result<(), StoreFault>
    requires valid { S.valid store.old }
    requires live { IsTrue (S.state store.old).live }
    requires closed { is_open session (S.state store.old).begun ≡ false }
    requires sql { P.dialect ≡ dialect }
    ensures valid { S.valid store.new }
    ensures does { AloneFor dialect session (deed.Rows on_rows.Cleared ∷ []) room.Ordinary
        (S.state store.old) result (S.state store.new) }
    ensures leaves { LeavesCleared dialect (S.state store.old) result (S.state store.new) }
    ensures behind { BehindCleared dialect (S.state store.old) (S.state store.new) }
    ensures crash { CrashesFor dialect session clearing
        (S.state store.old) (S.crashes store.old) (S.crashes store.new) }
    ensures any_moment { CrashesCleared dialect
        (S.state store.old) (S.crashes store.old) (S.crashes store.new) }
    ensures faults { CountsDisk result (S.faults store.old) (S.faults store.new) }
    ensures beside { Beside session (is_disk_result result)
        (S.state store.old) (S.state store.new) }
    ensures keeps { CrashesLeave (S.state store.old).entries Keeps
        (S.crashes store.old) (S.crashes store.new) }
    ensures shuts { (S.state store.new).live ≡ true
        → is_open session (S.state store.new).begun ≡ false }
{
    statements_read_back();
    do_alone(
        alloc,
        session,
        store,
        sql,
        dialect,
        &[Deed::Rows(OnRows::Cleared)],
        Room::Ordinary,
    )
}

/// Frees the lock, whoever holds it.
pub fn free_lock<S: Store, P: SqlText>(
    alloc: Global,
    session: u32,
    store: &mut S,
    sql: &P,
    dialect: Dialect,
) -> Result<(), StoreFault>
    requires valid { S.valid store.old }
    requires live { IsTrue (S.state store.old).live }
    requires closed { is_open session (S.state store.old).begun ≡ false }
    requires sql { P.dialect ≡ dialect }
    ensures valid { S.valid store.new }
    ensures does { AloneFor dialect session (deed.Locks on_lock.Freed ∷ []) room.Release
        (S.state store.old) result (S.state store.new) }
    ensures leaves { LeavesReleased dialect (S.state store.old) result (S.state store.new) }
    ensures behind { BehindReleased dialect (S.state store.old) (S.state store.new) }
    ensures crash { CrashesFor dialect session closing (S.state store.old) (S.crashes store.old)
        (S.crashes store.new) }
    ensures any_moment { CrashesReleased dialect (S.state store.old) (S.crashes store.old)
        (S.crashes store.new) }
    ensures faults { CountsDisk result (S.faults store.old) (S.faults store.new) }
    ensures beside { Beside session (is_disk_result result) (S.state store.old)
        (S.state store.new) }
    ensures keeps { CrashesLeave (S.state store.old).entries Keeps (S.crashes store.old)
        (S.crashes store.new) }
    ensures shuts { (S.state store.new).live ≡ true
        → is_open session (S.state store.new).begun ≡ false }
{
    statements_read_back();
    do_alone(
        alloc,
        session,
        store,
        sql,
        dialect,
        &[Deed::Locks(OnLock::Freed)],
        Room::Release,
    )
}

fn first_deeds<S: Store>(
    alloc: Global,
    session: u32,
    store: &S,
    dialect: Dialect,
    stamp: &Stamp,
) -> Result<Items<Deed>, StoreFault>
    requires valid { S.valid store.now }
    requires live { IsTrue (S.state store.now).live }
    requires moment { stamp.now.reading ≤ 253402300799999 }
    ensures opens { IfOk result
        (λ deeds. OpensOn dialect stamp.now (seen session (S.state store.now)) deeds) }
    ensures writable { IfOk result (λ deeds. AllWritable dialect deeds) }
    ensures fails { IfErr result (λ why. FailsFirst session (S.state store.now) why) }
{
    match store.look(session) {
        Ok(view) => opening_seen(alloc, dialect, stamp, view),
        Err(fault) => Err(fault),
    }
}

fn opening_seen<K: Look>(
    alloc: Global,
    dialect: Dialect,
    stamp: &Stamp,
    look: &K,
) -> Result<Items<Deed>, StoreFault>
    requires moment { stamp.now.reading ≤ 253402300799999 }
    ensures opens { IfOk result (λ deeds. OpensOn dialect stamp.now (K.catalogue look.now) deeds) }
    ensures writable { IfOk result (λ deeds. AllWritable dialect deeds) }
    ensures fails { IfErr result (λ why. why ≡ fault.OutOfMemory) }
{
    match opening(alloc, dialect, stamp, look) {
        Ok(deeds) => Ok(deeds),
        Err(_) => Err(StoreFault::OutOfMemory),
    }
}

/// The deeds by which a command begins on the database that is seen: it makes the tracking tables and
/// the lock's row, each where it is missing, and takes the lock.
pub fn opening<K: Look>(
    alloc: Global,
    dialect: Dialect,
    stamp: &Stamp,
    look: &K,
) -> Result<Items<Deed>, NoMemory>
    requires moment { stamp.now.reading ≤ 253402300799999 }
    ensures opens { IfOk result (λ deeds. OpensOn dialect stamp.now (K.catalogue look.now) deeds) }
    ensures writable { IfOk result (λ deeds. AllWritable dialect deeds) }
{
    let there = seen_tables(alloc, look)?;
    let deeds = opening_by(alloc, stamp, there)?;
    Ok(deeds)
}

fn seen_tables<K: Look>(alloc: Global, look: &K) -> Result<Tables, NoMemory>
    ensures log { IfOk result
        (λ there. there.log ≡ is_some (table_of (K.catalogue look.now) log_table)) }
    ensures lock { IfOk result
        (λ there. there.lock ≡ is_some (table_of (K.catalogue look.now) lock_table)) }
    ensures lock_row { IfOk result
        (λ there. there.lock_row ≡ has_rows (table_of (K.catalogue look.now) lock_table)) }
{
    let log = has_log(alloc, look)?;
    let name = lock_name(alloc)?;
    Ok(Tables {
        log,
        lock: look.is_table(&name),
        lock_row: has_some(look.rows(&name)),
    })
}

fn has_log<K: Look>(alloc: Global, look: &K) -> Result<bool, NoMemory>
    ensures { IfOk result (λ is. is ≡ is_some (table_of (K.catalogue look.now) log_table)) }
{
    let name = log_name(alloc)?;
    Ok(look.is_table(&name))
}

fn has_some(rows: Option<u64>) -> bool
    ensures { result ≡ unwrap_or (option_map (λ count. nat_lt 0 count) rows) false }
{
    match rows {
        None => false,
        Some(count) => count > 0,
    }
}

#[tactic(auto, using(lq_track::proofs::Names::log_table_is_name), unfolding(lq_track::specs::Log::log_table))]
fn log_name(alloc: Global) -> Result<Name, NoMemory>
    ensures { IfOk result (λ name. name ≡ log_table) }
{
    match Name::new(alloc, "DATABASECHANGELOG") {
        Ok(name) => Ok(name),
        Err(NameFault::BadName) => unreachable!(),
        Err(NameFault::OutOfMemory) => Err(NoMemory),
    }
}

#[tactic(auto, using(lq_track::proofs::Names::lock_table_is_name), unfolding(lq_track::specs::Lock::lock_table))]
fn lock_name(alloc: Global) -> Result<Name, NoMemory>
    ensures { IfOk result (λ name. name ≡ lock_table) }
{
    match Name::new(alloc, "DATABASECHANGELOGLOCK") {
        Ok(name) => Ok(name),
        Err(NameFault::BadName) => unreachable!(),
        Err(NameFault::OutOfMemory) => Err(NoMemory),
    }
}

fn opening_by(alloc: Global, stamp: &Stamp, there: Tables) -> Result<Items<Deed>, NoMemory>
    requires moment { stamp.now.reading ≤ 253402300799999 }
    ensures deeds { IfOk result (λ deeds. deeds ≡ map deed.Locks (opening_by stamp.now there)) }
{
    let mut deeds = Items::new(alloc);
    push_missing(there.log, OnLock::LogMade, &mut deeds)?;
    push_missing(there.lock, OnLock::LockMade, &mut deeds)?;
    push_missing(there.lock_row, OnLock::LockRowMade, &mut deeds)?;
    push_taken(alloc, stamp, &mut deeds)?;
    Ok(deeds)
}

fn push_missing(is_there: bool, on: OnLock, deeds: &mut Items<Deed>) -> Result<(), NoMemory>
    ensures { OnOk result (deeds.new ≡ deeds.old ++ map deed.Locks (if_missing is_there on)) }
{
    if is_there {
        return Ok(());
    }
    push(Deed::Locks(on), deeds)
}

fn push_taken(alloc: Global, stamp: &Stamp, deeds: &mut Items<Deed>) -> Result<(), NoMemory>
    ensures { OnOk result
        (deeds.new ≡ deeds.old ++ deed.Locks (on_lock.Taken stamp.now.reading stamp.now.who)
        ∷ []) }
{
    let who = stamp.who.copy(alloc)?;
    push(Deed::Locks(OnLock::Taken(stamp.reading, who)), deeds)
}

fn push(next: Deed, deeds: &mut Items<Deed>) -> Result<(), NoMemory>
    ensures { OnOk result (deeds.new ≡ deeds.old ++ next ∷ []) }
{
    deeds.push(next)?;
    Ok(())
}
