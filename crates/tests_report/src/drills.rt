use lq_base::{Command, NoMemory, Target, Text};
use lq_report::{Drilled, drill_text};
use std::alloc::Global;
use std::test::Fail;

/// The commands that a drill may have, each with how it ended.
fn drilled(alloc: Global) -> Result<Vec<Drilled>, NoMemory> {
    let mut all = Vec::new(alloc);
    for (command, status) in [
        (Command::Update, Some(0)),
        (Command::Sync, Some(6)),
        (Command::Release, Some(16)),
        (Command::Validate, None),
        (Command::Status, Some(2)),
        (Command::Rollback(Target::Count(1)), Some(0)),
        (Command::Rollback(Target::Date(0)), None),
    ] {
        all.push(Drilled { command, status })?;
    }
    Ok(all)
}

fn with_tags(alloc: Global) -> Result<Vec<Drilled>, NoMemory> {
    let mut all = Vec::new(alloc);
    let tag = Text::new(alloc, "v1")?;
    all.push(Drilled {
        command: Command::Tag(tag),
        status: None,
    })?;
    let tag = Text::new(alloc, "v1")?;
    all.push(Drilled {
        command: Command::Rollback(Target::Tag(tag)),
        status: Some(9),
    })?;
    Ok(all)
}

#[test]
fn drills_write_a_line_for_each_command(rt: HostRuntime) -> Result<(), Fail> {
    let all = drilled(rt.alloc())?;
    let text = drill_text(rt.alloc(), &all)?;
    assert_eq!(rt;
        text.as_str(),
        "1 update: status 0\n2 changelog-sync: status 6\n3 release-locks: status 16\n4 validate: unfinished\n5 status: status 2\n6 rollback-count: status 0\n7 rollback-to-date: unfinished\n"
    );
    Ok(())
}

#[test]
fn drills_name_commands_with_tags(rt: HostRuntime) -> Result<(), Fail> {
    let all = with_tags(rt.alloc())?;
    let text = drill_text(rt.alloc(), &all)?;
    assert_eq!(rt; text.as_str(), "1 tag: unfinished\n2 rollback: status 9\n");
    Ok(())
}

#[test]
fn drills_without_commands_write_nothing(rt: HostRuntime) -> Result<(), Fail> {
    let text = drill_text(rt.alloc(), &[])?;
    assert_eq!(rt; text.as_str(), "");
    Ok(())
}
