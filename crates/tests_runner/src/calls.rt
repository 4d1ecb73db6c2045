ghost use Rattle.std.specs.Prelude.{◌≡◌, ◌==◌, ◌≤◌, IfOk, IsTrue, None, false, true};
ghost use Rattle.lq_run.specs.Steps.{no_turn};
ghost use Rattle.lq_store.specs.Journal.{is_open, other};
ghost use Rattle.tests_runner.specs.Open.{is_its};

use lq_base::{Dialect, Duplicate, Identity, Lock, Text};
use lq_hand::Source;
use lq_model::{By, ByText, Room, SqlText, StoreFault};
use lq_run::{NoTurns, Runner, Step, free_lock, tag_row, take_lock};
use lq_store::Store;
use lq_turns::Stamp;
use std::alloc::Global;
use std::test::Fail;

/// What is asked of a store.
#[derive(Clone, Copy)]
pub enum Call<'a> {
    Begin,
    Abort,
    /// A text of the program's in a transaction of its own.
    Text(Room, &'a str),
    /// Takes the lock by this name, a second after 1970 began.
    Take(&'a str),
    Tag(&'a str),
    Free,
    /// The step of a command that has taken the lock by this name, and has no turns.
    Step(&'a str),
    /// The same of one that has taken it a second later.
    Later(&'a str),
    /// The committed lock.
    Lock,
}

#[derive(Drop)]
pub enum Told {
    Done,
    Fault(StoreFault),
    Stepped(Step),
    Shown(Lock),
    /// The store is dead.
    Dead,
    /// The session has a transaction open where the call needs none, or none where it needs one.
    OutOfTurn,
}

// The session that has a transaction open. No session of a test has the number 0.
fn open_session<S: Store>(store: &S) -> Option<u32>
    requires live { IsTrue (S.state store.now).live }
    requires valid { S.valid store.now }
    ensures { result ≡ other 0 (S.state store.now) }
{
    match store.look(0) {
        Ok(_) => None,
        Err(StoreFault::Busy(session)) => Some(session),
        Err(_) => None,
    }
}

fn is_its(session: u32, holder: Option<u32>) -> bool
    ensures { result ≡ is_its session holder }
{
    match holder {
        None => false,
        Some(number) => number == session,
    }
}

fn has_open<S: Store>(store: &S, session: u32) -> bool
    requires live { IsTrue (S.state store.now).live }
    requires valid { S.valid store.now }
    requires numbered { (0 == session) ≡ false }
    ensures { result ≡ is_open session (S.state store.now).begun }
{
    is_its(session, open_session(store))
}

fn told_of(done: Result<(), StoreFault>) -> Told {
    match done {
        Ok(()) => Told::Done,
        Err(fault) => Told::Fault(fault),
    }
}

fn run<S: Store>(
    alloc: Global,
    session: u32,
    store: &mut S,
    room: Room,
    text: &str,
) -> Result<Told, Fail>
    requires live { IsTrue (S.state store.old).live }
    requires valid { S.valid store.old }
    requires closed { is_open session (S.state store.old).begun ≡ false }
    ensures valid { S.valid store.new }
{
    let text = Text::new(alloc, text)?;
    let by = By::Program;
    Ok(told_of(store.alone(session, &[ByText { by, text }], room)))
}

fn stamp_of(alloc: Global, who: &str, reading: u64) -> Result<Stamp, Fail>
    requires moment { reading ≤ 253402300799999 }
    ensures moment { IfOk result (λ stamp. stamp.reading ≤ 253402300799999) }
{
    let who = Text::new(alloc, who)?;
    Ok(Stamp { who, reading })
}

fn take<S: Store, P: SqlText>(
    alloc: Global,
    session: u32,
    store: &mut S,
    sql: &P,
    dialect: Dialect,
    who: &str,
) -> Result<Told, Fail>
    requires live { IsTrue (S.state store.old).live }
    requires valid { S.valid store.old }
    requires closed { is_open session (S.state store.old).begun ≡ false }
    requires sql { P.dialect ≡ dialect }
    ensures valid { S.valid store.new }
{
    let stamp = stamp_of(alloc, who, 1000)?;
    Ok(told_of(take_lock(alloc, session, store, sql, dialect, &stamp)))
}

fn changeset(alloc: Global) -> Result<Identity, Fail> {
    Ok(Identity {
        file: Text::new(alloc, "f")?,
        id: Text::new(alloc, "1")?,
        author: Text::new(alloc, "ann")?,
    })
}

fn tag<S: Store, P: SqlText>(
    alloc: Global,
    session: u32,
    store: &mut S,
    sql: &P,
    dialect: Dialect,
    tag: &str,
) -> Result<Told, Fail>
    requires live { IsTrue (S.state store.old).live }
    requires valid { S.valid store.old }
    requires closed { is_open session (S.state store.old).begun ≡ false }
    requires sql { P.dialect ≡ dialect }
    ensures valid { S.valid store.new }
{
    let tag = Text::new(alloc, tag)?;
    let of = changeset(alloc)?;
    Ok(told_of(tag_row(alloc, session, store, sql, dialect, of, tag)))
}

fn first_step<T: Source + Drop, S: Store, P: SqlText>(
    runner: &mut Runner<T>,
    session: u32,
    store: &mut S,
    sql: &P,
) -> Step
    requires live { IsTrue (S.state store.old).live }
    requires valid { S.valid store.old }
    requires closed { is_open session (S.state store.old).begun ≡ false }
    requires sql { P.dialect ≡ runner.old.dialect }
    requires moment { runner.old.stamp.reading ≤ 253402300799999 }
    requires reads { T.reads runner.old.source runner.old.dialect }
    requires hand { runner.old.hand ≡ no_turn }
    requires unstopped { runner.old.fault ≡ None }
    ensures valid { S.valid store.new }
{
    runner.step(session, store, sql)
}

fn step<S: Store, P: SqlText>(
    alloc: Global,
    session: u32,
    store: &mut S,
    sql: &P,
    dialect: Dialect,
    stamp: Stamp,
) -> Told
    requires live { IsTrue (S.state store.old).live }
    requires valid { S.valid store.old }
    requires closed { is_open session (S.state store.old).begun ≡ false }
    requires sql { P.dialect ≡ dialect }
    requires moment { stamp.reading ≤ 253402300799999 }
    ensures valid { S.valid store.new }
{
    let mut runner = Runner::new(alloc, dialect, stamp, NoTurns);
    Told::Stepped(first_step(&mut runner, session, store, sql))
}

// Makes a call of a session that has a transaction open.
fn inside<S: Store>(session: u32, store: &mut S, call: Call<'_>) -> Told
    requires live { IsTrue (S.state store.old).live }
    requires valid { S.valid store.old }
    requires open_here { is_open session (S.state store.old).begun ≡ true }
    ensures valid { S.valid store.new }
{
    match call {
        Call::Abort => {
            store.abort(session);
            Told::Done
        }
        _ => Told::OutOfTurn,
    }
}

// Makes a call of a session that has none.
fn outside<S: Store, P: SqlText>(
    alloc: Global,
    session: u32,
    store: &mut S,
    sql: &P,
    dialect: Dialect,
    call: Call<'_>,
) -> Result<Told, Fail>
    requires live { IsTrue (S.state store.old).live }
    requires valid { S.valid store.old }
    requires closed { is_open session (S.state store.old).begun ≡ false }
    requires sql { P.dialect ≡ dialect }
    ensures valid { S.valid store.new }
{
    match call {
        Call::Begin => Ok(told_of(store.begin(session))),
        Call::Text(room, text) => run(alloc, session, store, room, text),
        Call::Step(who) => {
            let stamp = stamp_of(alloc, who, 1000)?;
            Ok(step(alloc, session, store, sql, dialect, stamp))
        }
        Call::Later(who) => {
            let stamp = stamp_of(alloc, who, 2000)?;
            Ok(step(alloc, session, store, sql, dialect, stamp))
        }
        call => on_lock(alloc, session, store, sql, dialect, call),
    }
}

fn on_lock<S: Store, P: SqlText>(
    alloc: Global,
    session: u32,
    store: &mut S,
    sql: &P,
    dialect: Dialect,
    call: Call<'_>,
) -> Result<Told, Fail>
    requires live { IsTrue (S.state store.old).live }
    requires valid { S.valid store.old }
    requires closed { is_open session (S.state store.old).begun ≡ false }
    requires sql { P.dialect ≡ dialect }
    ensures valid { S.valid store.new }
{
    match call {
        Call::Take(who) => take(alloc, session, store, sql, dialect, who),
        Call::Tag(text) => tag(alloc, session, store, sql, dialect, text),
        Call::Free => Ok(told_of(free_lock(alloc, session, store, sql, dialect))),
        Call::Lock => Ok(Told::Shown(store.lock().duplicate(alloc)?)),
        _ => Ok(Told::OutOfTurn),
    }
}

/// Makes a call where a session may.
pub fn make<S: Store, P: SqlText>(
    alloc: Global,
    session: u32,
    store: &mut S,
    sql: &P,
    dialect: Dialect,
    call: Call<'_>,
) -> Result<Told, Fail>
    requires valid { S.valid store.old }
    requires sql { P.dialect ≡ dialect }
    requires numbered { (0 == session) ≡ false }
    ensures valid { S.valid store.new }
{
    if !store.is_live() {
        return Ok(Told::Dead);
    }
    if has_open(store, session) {
        Ok(inside(session, store, call))
    } else {
        outside(alloc, session, store, sql, dialect, call)
    }
}
