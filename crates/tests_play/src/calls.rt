ghost use Rattle.std.specs.Prelude.{◌≡◌, IsTrue, false, true};
ghost use Rattle.lq_store.specs.Journal.{is_open};
ghost use Rattle.tests_play.specs.Noted.{IsNoted, is_noted};

use lq_base::{Items, Name, Text};
use lq_model::{By, ByText, Look, Room, StoreFault};
use lq_store::Store;
use std::alloc::Global;
use std::test::Fail;

/// What a session asks of a store. Several texts stand with `;` between.
#[derive(Clone, Copy)]
pub enum Call<'a> {
    Begin,
    Run(By, &'a str),
    Commit,
    Abort,
    Alone(Room, &'a str),
    /// How many rows of a table it sees.
    Rows(&'a str),
}

#[derive(Clone, Copy)]
pub enum Told {
    Done,
    Changed(u64),
    Rows(Option<u64>),
    Fault(StoreFault),
    /// The store is dead.
    Dead,
    /// The session has a transaction open where the call needs none, or none where it needs one.
    OutOfTurn,
}

fn holds(holder: &Option<u32>, session: u32) -> bool
    ensures { result ≡ is_noted session holder.now }
{
    match holder {
        None => false,
        Some(number) => *number == session,
    }
}

fn begin<S: Store>(store: &mut S, holder: &mut Option<u32>, session: u32) -> Told
    requires live { IsTrue (S.state store.old).live }
    requires valid { S.valid store.old }
    requires closed { is_open session (S.state store.old).begun ≡ false }
    requires noted { IsNoted holder.old (S.state store.old) }
    ensures valid { S.valid store.new }
    ensures noted { IsNoted holder.new (S.state store.new) }
{
    match store.begin(session) {
        Ok(()) => {
            *holder = Some(session);
            Told::Done
        }
        Err(fault) => Told::Fault(fault),
    }
}

fn run<S: Store>(store: &mut S, holder: &mut Option<u32>, session: u32, by: By, text: &str) -> Told
    requires live { IsTrue (S.state store.old).live }
    requires valid { S.valid store.old }
    requires open_here { is_open session (S.state store.old).begun ≡ true }
    requires noted { IsNoted holder.old (S.state store.old) }
    ensures valid { S.valid store.new }
    ensures noted { IsNoted holder.new (S.state store.new) }
{
    let _ = holder;
    match store.execute(session, by, text) {
        Ok(count) => Told::Changed(count),
        Err(fault) => Told::Fault(fault),
    }
}

fn commit<S: Store>(store: &mut S, holder: &mut Option<u32>, session: u32) -> Told
    requires live { IsTrue (S.state store.old).live }
    requires valid { S.valid store.old }
    requires open_here { is_open session (S.state store.old).begun ≡ true }
    requires noted { IsNoted holder.old (S.state store.old) }
    ensures valid { S.valid store.new }
    ensures noted { IsNoted holder.new (S.state store.new) }
{
    match store.commit(session) {
        Ok(()) => {
            *holder = None;
            Told::Done
        }
        Err(fault) => Told::Fault(fault),
    }
}

fn abort<S: Store>(store: &mut S, holder: &mut Option<u32>, session: u32) -> Told
    requires live { IsTrue (S.state store.old).live }
    requires valid { S.valid store.old }
    requires open_here { is_open session (S.state store.old).begun ≡ true }
    ensures valid { S.valid store.new }
    ensures noted { IsNoted holder.new (S.state store.new) }
{
    store.abort(session);
    *holder = None;
    Told::Done
}

fn alone<S: Store>(
    store: &mut S,
    holder: &mut Option<u32>,
    session: u32,
    texts: &[ByText],
    room: Room,
) -> Told
    requires live { IsTrue (S.state store.old).live }
    requires valid { S.valid store.old }
    requires closed { is_open session (S.state store.old).begun ≡ false }
    requires noted { IsNoted holder.old (S.state store.old) }
    ensures valid { S.valid store.new }
    ensures noted { IsNoted holder.new (S.state store.new) }
{
    match store.alone(session, texts, room) {
        Ok(()) => {
            *holder = None;
            Told::Done
        }
        Err(StoreFault::Refused(reason)) => {
            *holder = None;
            Told::Fault(StoreFault::Refused(reason))
        }
        Err(fault) => Told::Fault(fault),
    }
}

fn rows<S: Store>(store: &S, session: u32, table: &Name) -> Told
    requires live { IsTrue (S.state store.now).live }
    requires valid { S.valid store.now }
{
    match store.look(session) {
        Ok(view) => Told::Rows(view.rows(table)),
        Err(fault) => Told::Fault(fault),
    }
}

fn by_program(alloc: Global, texts: &str) -> Result<Items<ByText>, Fail> {
    let mut these = Items::new(alloc);
    for text in texts.split(';') {
        these.push(ByText {
            by: By::Program,
            text: Text::new(alloc, text)?,
        })?;
    }
    Ok(these)
}

// Makes a call of a session that has a transaction open.
fn inside<S: Store>(
    alloc: Global,
    store: &mut S,
    holder: &mut Option<u32>,
    session: u32,
    call: Call<'_>,
) -> Result<Told, Fail>
    requires live { IsTrue (S.state store.old).live }
    requires valid { S.valid store.old }
    requires open_here { is_open session (S.state store.old).begun ≡ true }
    requires noted { IsNoted holder.old (S.state store.old) }
    ensures valid { S.valid store.new }
    ensures noted { IsNoted holder.new (S.state store.new) }
{
    match call {
        Call::Run(by, text) => Ok(run(store, holder, session, by, text)),
        Call::Commit => Ok(commit(store, holder, session)),
        Call::Abort => Ok(abort(store, holder, session)),
        Call::Rows(table) => Ok(rows(store, session, &Name::new(alloc, table)?)),
        _ => Ok(Told::OutOfTurn),
    }
}

// Makes a call of a session that has none.
fn outside<S: Store>(
    alloc: Global,
    store: &mut S,
    holder: &mut Option<u32>,
    session: u32,
    call: Call<'_>,
) -> Result<Told, Fail>
    requires live { IsTrue (S.state store.old).live }
    requires valid { S.valid store.old }
    requires closed { is_open session (S.state store.old).begun ≡ false }
    requires noted { IsNoted holder.old (S.state store.old) }
    ensures valid { S.valid store.new }
    ensures noted { IsNoted holder.new (S.state store.new) }
{
    match call {
        Call::Begin => Ok(begin(store, holder, session)),
        Call::Alone(room, texts) => {
            let texts = by_program(alloc, texts)?;
            Ok(alone(store, holder, session, texts.as_slice(), room))
        }
        Call::Rows(table) => Ok(rows(store, session, &Name::new(alloc, table)?)),
        _ => Ok(Told::OutOfTurn),
    }
}

/// Makes a call where a session may, and notes who has a transaction open.
pub fn make<S: Store>(
    alloc: Global,
    store: &mut S,
    holder: &mut Option<u32>,
    session: u32,
    call: Call<'_>,
) -> Result<Told, Fail>
    requires valid { S.valid store.old }
    requires noted { IsNoted holder.old (S.state store.old) }
    ensures valid { S.valid store.new }
    ensures noted { IsNoted holder.new (S.state store.new) }
{
    if !store.is_live() {
        return Ok(Told::Dead);
    }
    if holds(holder, session) {
        inside(alloc, store, holder, session, call)
    } else {
        outside(alloc, store, holder, session, call)
    }
}
