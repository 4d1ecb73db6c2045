use crate::shown::append_line;
use lq_base::{Dialect, NoMemory, Text, append_whole};
use lq_lines::{Lines, LinesFault, read_lines};
use std::alloc::Global;
use std::process::Abort;
use std::test::Fail;

/// Appends each command line and a line feed, and then the numbers with a blank before each.
fn append_lines(lines: &Lines, to: &mut Text) -> Result<(), NoMemory> {
    for line in lines.lines.as_slice() {
        append_line(line, to)?;
        to.push_str("\n")?;
    }
    append_steps(lines, to)
}

fn append_steps(lines: &Lines, to: &mut Text) -> Result<(), NoMemory> {
    for step in lines.steps.as_slice() {
        to.push_str(" ")?;
        append_whole(i128::from(*step), to)?;
    }
    Ok(())
}

fn append_read(read: &Result<Lines, LinesFault>, to: &mut Text) -> Result<(), NoMemory> {
    match read {
        Ok(lines) => append_lines(lines, to),
        Err(LinesFault::Usage) => to.push_str("usage"),
        Err(LinesFault::OutOfMemory) => Err(NoMemory),
    }
}

/// What a file gives for the database `d=b`, or `usage`.
fn told(alloc: Global, dialect: Dialect, file: &[u8]) -> Result<Text, NoMemory> {
    let mut text = Text::new(alloc, "")?;
    append_read(&read_lines(alloc, dialect, "d=b", file), &mut text)?;
    Ok(text)
}

/// What these files give.
fn tell(rt: &impl Abort, alloc: Global, dialect: Dialect, rows: &[(&str, &str)]) {
    for row in rows {
        let text = told(alloc, dialect, row.0.as_bytes()).expect(rt, "memory");
        assert_eq!(rt; text.as_str(), row.1);
    }
}

/// None of these is a file of a drill.
fn refuse(rt: &impl Abort, alloc: Global, files: &[&[u8]]) {
    for file in files {
        let text = told(alloc, Dialect::Mysql, file).expect(rt, "memory");
        assert_eq!(rt; text.as_str(), "usage");
    }
}

const RELEASE: &str = "Run(Release) Postgresql d=b -\n";

#[test]
fn files_are_read(rt: HostRuntime) -> Result<(), Fail> {
    let rows: [(&str, &str); 5] = [
        ("release-locks\nsteps", RELEASE),
        ("release-locks\nsteps\n", RELEASE),
        (
            "release-locks\nsteps\n1",
            "Run(Release) Postgresql d=b -\n 1",
        ),
        (
            "update --changelog-file=db/a.json\nrelease-locks\nsteps\n1 2\n",
            "Run(Update) Postgresql d=b db/a.json\nRun(Release) Postgresql d=b -\n 1 2",
        ),
        (
            "release-locks\ntag --tag v1\nsteps\n\n 2\t1  2\n\t\n1\n\n",
            "Run(Release) Postgresql d=b -\nRun(Tag(v1)) Postgresql d=b -\n 2 1 2 1",
        ),
    ];
    tell(&rt, rt.alloc(), Dialect::Postgresql, &rows);
    Ok(())
}

#[test]
fn options_of_lines_are_read(rt: HostRuntime) -> Result<(), Fail> {
    let rows: [(&str, &str); 5] = [
        (
            "update -Dx=1 --changelog-file a.json --context-filter=a,b -Dy=\nsteps\n1 1",
            "Run(Update) Mysql d=b a.json @a @b x=1 y=\n 1 1",
        ),
        (
            "rollback-count --count=0 --changelog-file=a.json\nsteps\n1",
            "Run(Rollback(Count(0))) Mysql d=b a.json\n 1",
        ),
        (
            "status --changelog-file=steps\nvalidate --changelog-file=a\r\nsteps\n",
            "Run(Status) Mysql d=b steps\nRun(Validate) Mysql d=b a\r\n",
        ),
        (
            "changelog-sync --changelog-file=a\tb\nsteps\n",
            "Run(Sync) Mysql d=b a\tb\n",
        ),
        (
            "rollback --changelog-file=é.json --tag=ü\nsteps\n",
            "Run(Rollback(Tag(ü))) Mysql d=b é.json\n",
        ),
    ];
    tell(&rt, rt.alloc(), Dialect::Mysql, &rows);
    Ok(())
}

#[test]
fn wrong_lines_are_usage(rt: HostRuntime) -> Result<(), Fail> {
    let files: [&[u8]; 23] = [
        b"",
        b"\n",
        b"steps",
        b"steps\n1",
        b"release-locks",
        b"release-locks\n1\n",
        b"release-locks\nStep\n1\n",
        b"release-locks\nSteps\n1\n",
        b"release-locks\nsteps \n1\n",
        b"release-locks\n steps\n1\n",
        b"release-locks\nsteps\r\n1\n",
        b"release-locks\n\nsteps\n1\n",
        b"\nrelease-locks\nsteps\n1\n",
        b" release-locks\nsteps\n1\n",
        b"release-locks \nsteps\n1\n",
        b"release-locks\r\nsteps\n1\n",
        b"tag  --tag=v1\nsteps\n1\n",
        b"tag\t--tag=v1\nsteps\n1\n",
        b"tag --tag \nsteps\n1\n",
        b"release-locks --url=mysql:d=b\nsteps\n1\n",
        b"release-locks --url mysql:d=b\nsteps\n1\n",
        b"release-locks\nupdates\nsteps\n1\n",
        b"release-locks \xff\nsteps\n1\n",
    ];
    refuse(&rt, rt.alloc(), &files);
    Ok(())
}

#[test]
fn other_commands_are_usage(rt: HostRuntime) -> Result<(), Fail> {
    let files: [&[u8]; 15] = [
        b"update-count --changelog-file=a --count=1\nsteps\n1\n",
        b"update-to-tag --changelog-file=a --tag=t\nsteps\n1\n",
        b"history\nsteps\n1\n",
        b"release-locks\nhistory\nsteps\n1\n",
        b"update-sql --changelog-file=a\nsteps\n1\n",
        b"rollback-sql --changelog-file=a --count=1\nsteps\n1\n",
        b"drill --runs=r\nsteps\n1\n",
        b"drill --runs r\nsteps\n1\n",
        b"drill --runs=r\nsteps\n",
        b"release-locks\ndrill --runs=r\nsteps\n1\n",
        b"release-locks\nupdate-sql --changelog-file=a\nsteps\n1\n",
        b"soak --number=1 --sets=1\nsteps\n1\n",
        b"release-locks\nsoak --number=1 --sets=1\nsteps\n1\n",
        b"snapshot\nsteps\n1\n",
        b"release-locks\nsnapshot\nsteps\n1\n",
    ];
    refuse(&rt, rt.alloc(), &files);
    Ok(())
}

#[test]
fn wrong_numbers_are_usage(rt: HostRuntime) -> Result<(), Fail> {
    let files: [&[u8]; 15] = [
        b"release-locks\nsteps\n0\n",
        b"release-locks\nsteps\n2\n",
        b"release-locks\nrelease-locks\nsteps\n3\n",
        b"release-locks\nsteps\n1 2 1\n",
        b"release-locks\nsteps\n01\n",
        b"release-locks\nsteps\n+1\n",
        b"release-locks\nsteps\n-1\n",
        b"release-locks\nsteps\n1,1\n",
        b"release-locks\nsteps\n1\r\n1\n",
        b"release-locks\nsteps\n1\x0b1\n",
        b"release-locks\nsteps\n1 x\n",
        b"release-locks\nsteps\nsteps\n1\n",
        b"release-locks\nsteps\n1\nrelease-locks\n",
        b"release-locks\nsteps\n4294967297\n",
        b"release-locks\nsteps\n1 \xff\n",
    ];
    refuse(&rt, rt.alloc(), &files);
    Ok(())
}

/// So many command lines, `steps` and the numbers.
fn many_lines(alloc: Global, count: usize, numbers: &str) -> Result<String, NoMemory> {
    let mut file = String::new(alloc);
    for _ in 0..count {
        file.push_str("release-locks\n")?;
    }
    file.push_str("steps\n")?;
    file.push_str(numbers)?;
    Ok(file)
}

/// How many command lines and numbers a file gives, or none where it is none.
fn counted(alloc: Global, file: &str) -> Result<Option<(usize, usize)>, NoMemory> {
    match read_lines(alloc, Dialect::Mysql, "d", file.as_bytes()) {
        Ok(lines) => Ok(Some((lines.lines.len(), lines.steps.len()))),
        Err(LinesFault::Usage) => Ok(None),
        Err(LinesFault::OutOfMemory) => Err(NoMemory),
    }
}

#[test]
fn lines_are_64_at_most(rt: HostRuntime) -> Result<(), Fail> {
    let rows: [(usize, &str, Option<(usize, usize)>); 5] = [
        (0, "1", None),
        (1, "1", Some((1, 1))),
        (64, "64 1", Some((64, 2))),
        (64, "65", None),
        (65, "1", None),
    ];
    for (count, numbers, want) in rows {
        let file = many_lines(rt.alloc(), count, numbers)?;
        assert_eq!(rt; counted(rt.alloc(), file.as_str())?, want);
    }
    Ok(())
}

/// A file of one command line and so many numbers.
fn many_numbers(alloc: Global, count: usize) -> Result<String, NoMemory> {
    let mut file = many_lines(alloc, 1, "")?;
    for _ in 0..count {
        file.push_str("1 ")?;
    }
    Ok(file)
}

#[test]
fn numbers_are_a_million_at_most(rt: HostRuntime) -> Result<(), Fail> {
    let rows: [(usize, Option<(usize, usize)>); 3] = [
        (0, Some((1, 0))),
        (1_000_000, Some((1, 1_000_000))),
        (1_000_001, None),
    ];
    for (count, want) in rows {
        let file = many_numbers(rt.alloc(), count)?;
        assert_eq!(rt; counted(rt.alloc(), file.as_str())?, want);
    }
    Ok(())
}
