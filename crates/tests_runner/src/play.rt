ghost use Rattle.std.specs.Prelude.{◌≡◌, ◌==◌, false};

use crate::calls::{Call, Told, make};
use lq_base::{Dialect, Lock};
use lq_model::{Room, SqlText, StoreFault};
use lq_run::{End, Step};
use lq_store::Store;
use std::alloc::{AllocError, Global};
use std::test::Fail;

fn read_call(call: &str) -> Call<'_> {
    match call.split_once(' ') {
        Some((word, text)) => read_text(word, text),
        None => read_word(call),
    }
}

fn read_word(word: &str) -> Call<'_> {
    match word {
        "begin" => Call::Begin,
        "abort" => Call::Abort,
        "free" => Call::Free,
        _ => Call::Lock,
    }
}

fn read_text<'a>(word: &str, text: &'a str) -> Call<'a> {
    match word {
        "text" => Call::Text(Room::Ordinary, text),
        "release" => Call::Text(Room::Release, text),
        "take" => Call::Take(text),
        "tag" => Call::Tag(text),
        "later" => Call::Later(text),
        _ => Call::Step(text),
    }
}

fn read_session(word: &str) -> u32
    ensures { (0 == result) ≡ false }
{
    if word == "1" { 1 } else { 2 }
}

fn show_fault(out: &mut String, fault: StoreFault) -> Result<(), AllocError> {
    match fault {
        StoreFault::Refused(reason) => out.push_str(reason.text()),
        StoreFault::NotSql => out.push_str("not sql"),
        StoreFault::Busy(session) => write!(out, "busy {session}"),
        StoreFault::Disk => out.push_str("disk"),
        StoreFault::Full { used, next } => write!(out, "full {used} + {next}"),
        StoreFault::OutOfMemory => out.push_str("out of memory"),
    }
}

fn show_lock(out: &mut String, lock: &Lock) -> Result<(), AllocError> {
    out.push_str(if lock.locked { "held" } else { "free" })?;
    if let Some(at) = lock.granted {
        write!(out, " since {at}")?;
    }
    if let Some(by) = &lock.by {
        write!(out, " by {}", by.as_str())?;
    }
    Ok(())
}

fn show_end(out: &mut String, end: End) -> Result<(), AllocError> {
    match end {
        End::Done => out.push_str("done"),
        End::Refused(_) => out.push_str("refused"),
        End::Locked(lock) => show_lock(out, &lock),
        End::Disk => out.push_str("disk"),
        End::Full { used, next } => write!(out, "full {used} + {next}"),
        End::OutOfMemory => out.push_str("out of memory"),
    }
}

fn show_told(out: &mut String, told: Told) -> Result<(), AllocError> {
    match told {
        Told::Done => out.push_str("ok"),
        Told::Fault(fault) => show_fault(out, fault),
        Told::Stepped(Step::Going) => out.push_str("going"),
        Told::Stepped(Step::Ended(end)) => {
            out.push_str("ended ")?;
            show_end(out, end)
        }
        Told::Shown(lock) => show_lock(out, &lock),
        Told::Dead => out.push_str("dead"),
        Told::OutOfTurn => out.push_str("out of turn"),
    }
}

fn play_line<S: Store, P: SqlText>(
    out: &mut String,
    alloc: Global,
    store: &mut S,
    sql: &P,
    dialect: Dialect,
    line: &str,
) -> Result<(), Fail>
    requires valid { S.valid store.old }
    requires sql { P.dialect ≡ dialect }
    ensures valid { S.valid store.new }
{
    let Some((session, call)) = line.split_once(' ') else {
        return Ok(());
    };
    let session = read_session(session);
    let told = make(alloc, session, store, sql, dialect, read_call(call))?;
    out.push_str(if out.is_empty() { "" } else { ", " })?;
    show_told(out, told)?;
    Ok(())
}

/// Makes the calls of a script, as `1 begin/2 take ann/1 abort`, and shows what they answer: a session's
/// number, and `begin`, `abort`, `free` or `lock`, or one of `text`, `release`, `take`, `tag`, `step` and
/// `later` with its text or its name.
pub fn play<S: Store, P: SqlText>(
    alloc: Global,
    store: &mut S,
    sql: &P,
    dialect: Dialect,
    script: &str,
) -> Result<String, Fail>
    requires valid { S.valid store.old }
    requires sql { P.dialect ≡ dialect }
{
    let mut out = String::new(alloc);
    for line in script.split('/') {
        play_line(&mut out, alloc, store, sql, dialect, line)?;
    }
    Ok(out)
}
