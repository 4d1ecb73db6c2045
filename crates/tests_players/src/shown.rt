use lq_base::Lock;
use lq_drill::DrillFault;
use lq_players::AnyCommand;
use lq_playing::Report;
use lq_turns::Answer;
use std::alloc::AllocError;

fn show_lock(out: &mut String, lock: &Lock) -> Result<(), AllocError> {
    if !lock.locked {
        return out.push_str("lock free");
    }
    match &lock.by {
        Some(by) => write!(out, "locked by {}", by.as_str()),
        None => out.push_str("locked"),
    }
}

fn show_answer(out: &mut String, answer: &Answer) -> Result<(), AllocError> {
    match answer {
        Answer::Done => out.push_str("done"),
        Answer::Locked(lock) => show_lock(out, lock),
        Answer::Invalid(_) => out.push_str("invalid"),
        Answer::Halted { .. } => out.push_str("halted"),
        Answer::Refused {
            statement,
            kept,
            ..
        } => { write!(out, "refused at {statement} with {kept} kept") }
        Answer::NoTarget => out.push_str("no target"),
        Answer::NotReversible(_) => out.push_str("not reversible"),
        Answer::Disk => out.push_str("disk"),
        Answer::Full { used, next } => write!(out, "full {used} + {next}"),
        Answer::Busy(session) => write!(out, "busy {session}"),
        Answer::OutOfMemory => out.push_str("out of memory"),
    }
}

/// What one answered.
pub fn show_player(out: &mut String, player: &AnyCommand) -> Result<(), AllocError> {
    match player.answer() {
        Some(answer) => show_answer(out, answer),
        None => out.push_str("unfinished"),
    }
}

/// What each command answered by its number, as `1 done, 2 locked by ann`.
pub fn show_players(out: &mut String, players: &[AnyCommand]) -> Result<(), AllocError> {
    for (place, player) in players.iter().enumerate() {
        out.push_str(if place == 0 { "" } else { ", " })?;
        write!(out, "{} ", place + 1)?;
        show_player(out, player)?;
    }
    Ok(())
}

fn show_count(out: &mut String, count: usize, what: &str) -> Result<(), AllocError> {
    if count == 0 {
        return Ok(());
    }
    write!(out, ", {count} {what}")
}

/// How much a command did, as `, 3 happened, 3 printed`.
pub fn show_report(out: &mut String, report: &Report) -> Result<(), AllocError> {
    show_count(out, report.happened.len(), "happened")?;
    show_count(out, report.warned.len(), "warned")?;
    show_count(out, report.printed.len(), "printed")?;
    show_count(out, report.pending.len(), "pending")
}

/// The fault of the store that ended a drill.
pub fn show_fault(out: &mut String, fault: DrillFault) -> Result<(), AllocError> {
    match fault {
        DrillFault::Disk => out.push_str(", ended by the disk"),
        DrillFault::Full { .. } => out.push_str(", ended by a full journal"),
        DrillFault::OutOfMemory => out.push_str(", ended by want of memory"),
    }
}
