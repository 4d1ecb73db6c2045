ghost use Rattle.std.specs.Prelude.{None};
ghost use Rattle.tests_play.specs.Noted.{IsNoted};

use crate::calls::{Call, Told, make};
use lq_model::{By, Room, StoreFault};
use lq_store::Store;
use std::alloc::{AllocError, Global};
use std::test::Fail;

fn read_call(call: &str) -> Call<'_> {
    match call.split_once(": ") {
        Some((word, text)) => read_text(word, text),
        None => read_word(call),
    }
}

fn read_word(word: &str) -> Call<'_> {
    match word {
        "begin" => Call::Begin,
        "commit" => Call::Commit,
        _ => Call::Abort,
    }
}

fn read_text<'a>(word: &str, text: &'a str) -> Call<'a> {
    match word {
        "rows" => Call::Rows(text),
        "alone" => Call::Alone(Room::Ordinary, text),
        "release" => Call::Alone(Room::Release, text),
        "program" => Call::Run(By::Program, text),
        _ => Call::Run(By::User, text),
    }
}

/// A fault of a call.
pub fn show_fault(out: &mut String, fault: StoreFault) -> Result<(), AllocError> {
    match fault {
        StoreFault::Refused(reason) => out.push_str(reason.text()),
        StoreFault::NotSql => out.push_str("not sql"),
        StoreFault::Busy(session) => write!(out, "busy {session}"),
        StoreFault::Disk => out.push_str("disk"),
        StoreFault::Full { used, next } => write!(out, "full {used} + {next}"),
        StoreFault::OutOfMemory => out.push_str("out of memory"),
    }
}

fn show_told(out: &mut String, told: Told) -> Result<(), AllocError> {
    match told {
        Told::Done => out.push_str("ok"),
        Told::Changed(count) => write!(out, "{count}"),
        Told::Rows(None) => out.push_str("no table"),
        Told::Rows(Some(count)) => write!(out, "{count} rows"),
        Told::Fault(fault) => show_fault(out, fault),
        Told::Dead => out.push_str("dead"),
        Told::OutOfTurn => out.push_str("out of turn"),
    }
}

/// Makes the calls of a script, as `1 begin/1 user: DELETE FROM t/1 commit`, and shows what they answer:
/// a session's number, and `begin`, `commit`, `abort`, or one of `user`, `program`, `alone`, `release`
/// and `rows` with its texts or its table.
pub fn play<S: Store>(alloc: Global, store: &mut S, script: &str) -> Result<String, Fail>
    requires valid { S.valid store.old }
    requires noted { IsNoted None (S.state store.old) }
    ensures valid { S.valid store.new }
{
    let mut out = String::new(alloc);
    let mut holder = None;
    for line in script.split('/') {
        let Some((session, call)) = line.split_once(' ') else {
            return Ok(out);
        };
        let session = if session == "1" { 1 } else { 2 };
        let told = make(alloc, store, &mut holder, session, read_call(call))?;
        out.push_str(if out.is_empty() { "" } else { ", " })?;
        show_told(&mut out, told)?;
    }
    Ok(out)
}
