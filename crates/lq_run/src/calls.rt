ghost use Rattle.std.specs.Prelude.{◌≡◌, ◌++◌, IfOk, IsTrue, None, OnOk, false, true};
ghost use Rattle.lq_hand.specs.Hand.{IsWritable};
ghost use Rattle.lq_run.specs.Beside.{Beside, is_disk_result, open_after};
ghost use Rattle.lq_store.specs.Journal.{CrashesLeave, Keeps, is_open, other};
ghost use Rattle.lq_run.specs.Crashing.{CrashesFor, LeftAlone};
ghost use Rattle.lq_run.specs.Does.{AbortFor, AllRead, AllWritable, AloneFor, BeginFor, CommitFor, DoesFor, IsRead, MayFill, Reads};
ghost use Rattle.lq_run.specs.Moves.{moved_of};
ghost use Rattle.lq_run.specs.Stands.{text_by, texts_of};
ghost use Rattle.lq_store.specs.Calls.{CountsDisk};
ghost use Rattle.lq_turns.specs.Deed.{made_of};
ghost use Rattle.lq_turns.specs.declared.call.Call.TheVariants as call;

use crate::deed::{caller, print};
use lq_base::{Dialect, Items, NoMemory};
use lq_model::{ByText, Room, SqlText, StoreFault};
use lq_store::Store;
use lq_turns::Deed;
use std::alloc::Global;

/// Does a deed in the session's transaction, by the text of its statement.
pub fn do_deed<S: Store>(
    session: u32,
    store: &mut S,
    dialect: Dialect,
    deed: &Deed,
    text: &str,
) -> Result<(), StoreFault>
    requires valid { S.valid store.old }
    requires live { IsTrue (S.state store.old).live }
    requires open_here { is_open session (S.state store.old).begun ≡ true }
    requires reads { Reads dialect (made_of dialect deed.now).1 text.now }
    ensures valid { S.valid store.new }
    ensures does { DoesFor dialect session deed.now (S.state store.old) result (S.state store.new) }
    ensures crash { CrashesFor dialect session (call.Execute deed.now) (S.state store.old)
        (S.crashes store.old) (S.crashes store.new) }
    ensures faults { CountsDisk result (S.faults store.old) (S.faults store.new) }
    ensures beside { Beside session (is_disk_result result) (S.state store.old)
        (S.state store.new) }
    ensures keeps { CrashesLeave (S.state store.old).entries Keeps (S.crashes store.old)
        (S.crashes store.new) }
    ensures leaves_open { (S.state store.new).live ≡ true
        → is_open session (S.state store.new).begun ≡ true }
{
    match store.execute(session, caller(deed), text) {
        Ok(_) => Ok(()),
        Err(fault) => Err(fault),
    }
}

/// Commits the session's transaction.
pub fn commit<S: Store>(session: u32, store: &mut S, dialect: Dialect) -> Result<(), StoreFault>
    requires valid { S.valid store.old }
    requires live { IsTrue (S.state store.old).live }
    requires open_here { is_open session (S.state store.old).begun ≡ true }
    ensures valid { S.valid store.new }
    ensures does { CommitFor dialect session (S.state store.old) result (S.state store.new) }
    ensures crash { CrashesFor dialect session call.Commit (S.state store.old) (S.crashes store.old)
        (S.crashes store.new) }
    ensures faults { CountsDisk result (S.faults store.old) (S.faults store.new) }
    ensures beside { Beside session (is_disk_result result) (S.state store.old)
        (S.state store.new) }
    ensures keeps { CrashesLeave (S.state store.old).entries Keeps (S.crashes store.old)
        (S.crashes store.new) }
    ensures leaves_open { (S.state store.new).live ≡ true
        → is_open session (S.state store.new).begun ≡ open_after (moved_of result) call.Commit }
{
    store.commit(session)
}

/// Opens a transaction of the session.
pub fn begin<S: Store>(session: u32, store: &mut S, dialect: Dialect) -> Result<(), StoreFault>
    requires valid { S.valid store.old }
    requires live { IsTrue (S.state store.old).live }
    requires closed { is_open session (S.state store.old).begun ≡ false }
    ensures valid { S.valid store.new }
    ensures does { BeginFor dialect session (S.state store.old) result (S.state store.new) }
    ensures crash { CrashesLeave (S.state store.old).entries LeftAlone (S.crashes store.old)
        (S.crashes store.new) }
    ensures faults { CountsDisk result (S.faults store.old) (S.faults store.new) }
    ensures beside { Beside session (is_disk_result result) (S.state store.old)
        (S.state store.new) }
    ensures keeps { CrashesLeave (S.state store.old).entries Keeps (S.crashes store.old)
        (S.crashes store.new) }
    ensures leaves_open { other session (S.state store.old) ≡ None
        → is_open session (S.state store.new).begun ≡ true }
{
    store.begin(session)
}

/// Takes the session's transaction back.
pub fn abort<S: Store>(session: u32, store: &mut S, dialect: Dialect)
    requires valid { S.valid store.old }
    requires live { IsTrue (S.state store.old).live }
    requires open_here { is_open session (S.state store.old).begun ≡ true }
    ensures valid { S.valid store.new }
    ensures does { AbortFor dialect session (S.state store.old) (S.state store.new) }
    ensures crash { CrashesLeave (S.state store.old).entries LeftAlone (S.crashes store.old)
        (S.crashes store.new) }
    ensures faults { S.faults store.new ≡ S.faults store.old }
    ensures beside { Beside session false (S.state store.old) (S.state store.new) }
    ensures keeps { CrashesLeave (S.state store.old).entries Keeps (S.crashes store.old)
        (S.crashes store.new) }
    ensures shuts { is_open session (S.state store.new).begun ≡ false }
{
    store.abort(session);
}

/// Does deeds in a transaction of their own.
#[tactic(auto, using(crate::proofs::Beside::stays))]
pub fn do_alone<S: Store, P: SqlText>(
    alloc: Global,
    session: u32,
    store: &mut S,
    sql: &P,
    dialect: Dialect,
    deeds: &[Deed],
    room: Room,
) -> Result<(), StoreFault>
    requires valid { S.valid store.old }
    requires live { IsTrue (S.state store.old).live }
    requires closed { is_open session (S.state store.old).begun ≡ false }
    requires sql { P.dialect ≡ dialect }
    requires writable { AllWritable dialect deeds.now }
    requires fills { MayFill room deeds.now }
    ensures valid { S.valid store.new }
    ensures does { AloneFor dialect session deeds.now room (S.state store.old) result
        (S.state store.new) }
    ensures crash { CrashesFor dialect session (call.Alone deeds.now room) (S.state store.old)
        (S.crashes store.old) (S.crashes store.new) }
    ensures faults { CountsDisk result (S.faults store.old) (S.faults store.new) }
    ensures beside { Beside session (is_disk_result result) (S.state store.old)
        (S.state store.new) }
    ensures keeps { CrashesLeave (S.state store.old).entries Keeps (S.crashes store.old)
        (S.crashes store.new) }
    ensures shuts { (S.state store.new).live ≡ true
        → is_open session (S.state store.new).begun ≡ false }
{
    let mut texts = Items::new(alloc);
    let Ok(()) = print_all(alloc, sql, dialect, deeds, &mut texts) else {
        return Err(StoreFault::OutOfMemory);
    };
    store.alone(session, texts.as_slice(), room)
}

fn print_all<P: SqlText>(
    alloc: Global,
    sql: &P,
    dialect: Dialect,
    deeds: &[Deed],
    texts: &mut Items<ByText>,
) -> Result<(), NoMemory>
    requires sql { P.dialect ≡ dialect }
    requires writable { AllWritable dialect deeds.now }
    ensures texts { OnOk result (texts.new ≡ texts.old ++ texts_of dialect deeds.now) }
    ensures read { OnOk result (AllRead dialect deeds.now) }
{
    for deed in deeds {
        texts.push(by_text(alloc, sql, dialect, deed)?)?;
    }
    Ok(())
}

fn by_text<P: SqlText>(
    alloc: Global,
    sql: &P,
    dialect: Dialect,
    deed: &Deed,
) -> Result<ByText, NoMemory>
    requires sql { P.dialect ≡ dialect }
    requires writable { IsWritable dialect deed.now }
    ensures text { IfOk result (λ text. text ≡ text_by dialect deed.now) }
    ensures read { IfOk result (λ text. IsRead dialect deed.now) }
{
    let by = caller(deed);
    let text = print(alloc, sql, dialect, deed)?;
    Ok(ByText { by, text })
}
