use crate::made::{identity, lock};
use lq_base::{Identity, Lock, NoMemory, Reason, Text, Why};
use lq_report::{
    FixedLine, append_busy, append_changed, append_damaged, append_full, append_halted,
    append_locked, append_no_tag, append_not_reversible, append_refused, append_twice,
    append_warning,
};
use std::alloc::Global;
use std::test::Fail;

#[derive(Clone, Copy)]
enum Line {
    Fixed(FixedLine),
    Twice,
    Changed,
    Locked,
    LockedMarked,
    LockedMarkedBack,
    LockedBroken,
    LockedByNobody,
    Halted,
    HaltedAtChangelog,
    Refused,
    NoTag,
    NotReversible,
    NamesNothing,
    Damaged,
    Full,
    Busy,
    Warning,
    WarningAtChangelog,
}

fn append_lock(alloc: Global, by: &str, to: &mut Text) -> Result<(), NoMemory> {
    let held = lock(alloc, by)?;
    append_locked(alloc, &held, to)
}

fn append_lock_of_nobody(alloc: Global, to: &mut Text) -> Result<(), NoMemory> {
    let held = Lock {
        locked: true,
        granted: None,
        by: None,
    };
    append_locked(alloc, &held, to)
}

// A mark that names no changeset is an identity with its text for the file.
fn append_mark(alloc: Global, to: &mut Text) -> Result<(), NoMemory> {
    let of = Identity {
        file: Text::new(alloc, "db/a.json::1::ann, back statement 2")?,
        id: Text::new(alloc, "")?,
        author: Text::new(alloc, "")?,
    };
    append_not_reversible(alloc, &of, to)
}

fn append_of_changeset(alloc: Global, id: &str, line: Line, to: &mut Text) -> Result<(), NoMemory> {
    let at = identity(alloc, id)?;
    match line {
        Line::Twice => append_twice(alloc, &at, to),
        Line::Changed => append_changed(alloc, &at, "8:a", "9:b", to),
        Line::Halted => append_halted(alloc, Some(&at), Why::Failed, to),
        Line::Refused => append_refused(alloc, &at, 2, 1, Reason::NullFound, to),
        Line::NotReversible => append_not_reversible(alloc, &at, to),
        _ => append_warning(alloc, Some(&at), Why::Failed, to),
    }
}

fn made(alloc: Global, line: Line) -> Result<Text, NoMemory> {
    let mut to = Text::new(alloc, "")?;
    match line {
        Line::Fixed(fixed) => to.push_str(fixed.text())?,
        Line::Locked => append_lock(alloc, "bob", &mut to)?,
        Line::LockedMarked => append_lock(alloc, "bob|db/a.json::1::ann|undo 2", &mut to)?,
        Line::LockedMarkedBack => append_lock(alloc, "bob|db/a.json::1::ann|back 2", &mut to)?,
        Line::NamesNothing => append_mark(alloc, &mut to)?,
        Line::LockedBroken => append_lock(alloc, "bob\n|db/a.json::\r1::ann|2", &mut to)?,
        Line::LockedByNobody => append_lock_of_nobody(alloc, &mut to)?,
        Line::HaltedAtChangelog => append_halted(alloc, None, Why::Error(Reason::NotOne), &mut to)?,
        Line::NoTag => append_no_tag(alloc, "v1", &mut to)?,
        Line::Damaged => append_damaged(12, &mut to)?,
        Line::Full => append_full(5, 18_446_744_073_709_551_615, &mut to)?,
        Line::Busy => append_busy(3, &mut to)?,
        Line::WarningAtChangelog => append_warning(
            alloc,
            None,
            Why::Error(Reason::Missing),
            &mut to,
        )?,
        _ => append_of_changeset(alloc, "1", line, &mut to)?,
    }
    Ok(to)
}

#[test]
fn runs_write_their_lines(rt: HostRuntime) -> Result<(), Fail> {
    let cases = [
        (
            Line::Fixed(FixedLine::Usage),
            "liquibase: usage: liquibase COMMAND --url=DIALECT:FILE [options]\n",
        ),
        (
            Line::Fixed(FixedLine::ReadFault),
            "liquibase: cannot read the files\n",
        ),
        (
            Line::Fixed(FixedLine::NothingToTag),
            "liquibase: no changeset to tag\n",
        ),
        (
            Line::Fixed(FixedLine::NothingToUndo),
            "liquibase: nothing to undo\n",
        ),
        (
            Line::Fixed(FixedLine::DiskFault),
            "liquibase: database fault\n",
        ),
        (
            Line::Fixed(FixedLine::WriteFault),
            "liquibase: cannot write the output\n",
        ),
        (
            Line::Fixed(FixedLine::OutOfMemory),
            "liquibase: out of memory\n",
        ),
        (
            Line::Twice,
            "liquibase: duplicate changeset db/a.json::1::ann\n",
        ),
        (
            Line::Changed,
            "liquibase: checksum of db/a.json::1::ann was 8:a, is 9:b\n",
        ),
        (
            Line::Locked,
            "liquibase: locked by bob since 1970-01-01 00:00:01.000\n",
        ),
        (
            Line::LockedMarked,
            "liquibase: locked by bob since 1970-01-01 00:00:01.000\nliquibase: unrecorded: db/a.json::1::ann, undo statement 2\n",
        ),
        (
            Line::LockedMarkedBack,
            "liquibase: locked by bob since 1970-01-01 00:00:01.000\nliquibase: unrecorded: db/a.json::1::ann, back statement 2\n",
        ),
        (
            Line::LockedBroken,
            "liquibase: locked by bob_ since 1970-01-01 00:00:01.000\nliquibase: unrecorded: db/a.json::_1::ann, statement 2\n",
        ),
        (
            Line::LockedByNobody,
            "liquibase: locked by unknown since unknown\n",
        ),
        (
            Line::Halted,
            "liquibase: halted at db/a.json::1::ann: precondition failed\n",
        ),
        (
            Line::HaltedAtChangelog,
            "liquibase: halted at the changelog: precondition error: not one value\n",
        ),
        (
            Line::Refused,
            "liquibase: refused at db/a.json::1::ann, statement 2, 1 kept: null found\n",
        ),
        (Line::NoTag, "liquibase: no changeset has the tag v1\n"),
        (
            Line::NotReversible,
            "liquibase: no rollback for db/a.json::1::ann\n",
        ),
        (
            Line::NamesNothing,
            "liquibase: no rollback for db/a.json::1::ann, back statement 2\n",
        ),
        (Line::Damaged, "liquibase: database damaged at 12\n"),
        (
            Line::Full,
            "liquibase: database full: 5 and 18446744073709551615 bytes\n",
        ),
        (Line::Busy, "liquibase: busy: session 3\n"),
        (
            Line::Warning,
            "liquibase: warning: db/a.json::1::ann: precondition failed\n",
        ),
        (
            Line::WarningAtChangelog,
            "liquibase: warning: the changelog: precondition error: missing\n",
        ),
    ];
    for (line, want) in cases {
        let text = made(rt.alloc(), line)?;
        assert_eq!(rt; text.as_str(), want);
    }
    Ok(())
}

fn broken(alloc: Global, line: Line) -> Result<Text, NoMemory> {
    let mut to = Text::new(alloc, "")?;
    match line {
        Line::NoTag => append_no_tag(alloc, "v\n1", &mut to)?,
        _ => append_of_changeset(alloc, "\n1\t", line, &mut to)?,
    }
    Ok(to)
}

// What a database file holds begins no line of the log.
#[test]
fn lines_of_runs_are_one_each(rt: HostRuntime) -> Result<(), Fail> {
    let cases = [
        (
            Line::Twice,
            "liquibase: duplicate changeset db/a.json::_1_::ann\n",
        ),
        (
            Line::Changed,
            "liquibase: checksum of db/a.json::_1_::ann was 8:a, is 9:b\n",
        ),
        (
            Line::Halted,
            "liquibase: halted at db/a.json::_1_::ann: precondition failed\n",
        ),
        (
            Line::Refused,
            "liquibase: refused at db/a.json::_1_::ann, statement 2, 1 kept: null found\n",
        ),
        (Line::NoTag, "liquibase: no changeset has the tag v_1\n"),
        (
            Line::NotReversible,
            "liquibase: no rollback for db/a.json::_1_::ann\n",
        ),
        (
            Line::Warning,
            "liquibase: warning: db/a.json::_1_::ann: precondition failed\n",
        ),
    ];
    for (line, want) in cases {
        let text = broken(rt.alloc(), line)?;
        assert_eq!(rt; text.as_str(), want);
    }
    Ok(())
}
