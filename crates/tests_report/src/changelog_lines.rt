use lq_base::{Dialect, NoMemory, Text};
use lq_report::{
    FixedLine, append_dialect_fault, append_file_fault, append_key_fault, append_line_fault,
    append_no_file,
};
use std::alloc::Global;
use std::test::Fail;

#[derive(Clone, Copy)]
enum Fault {
    NoFile,
    File(&'static str),
    Line,
    Key(&'static str),
    Dialect,
    TooMany,
}

fn append(
    alloc: Global,
    path: &str,
    place: &str,
    fault: Fault,
    to: &mut Text,
) -> Result<(), NoMemory> {
    match fault {
        Fault::NoFile => append_no_file(alloc, path, to),
        Fault::File(what) => append_file_fault(alloc, path, what, to),
        Fault::Line => append_line_fault(alloc, path, 3, to),
        Fault::Key(rule) => append_key_fault(alloc, path, place, rule, to),
        Fault::Dialect => append_dialect_fault(alloc, path, place, Dialect::Mysql, to),
        Fault::TooMany => to.push_str(FixedLine::TooMany.text()),
    }
}

fn made(alloc: Global, path: &str, place: &str, fault: Fault) -> Result<Text, NoMemory> {
    let mut to = Text::new(alloc, "")?;
    append(alloc, path, place, fault, &mut to)?;
    Ok(to)
}

#[test]
fn faults_of_a_changelog_write_their_lines(rt: HostRuntime) -> Result<(), Fail> {
    let cases = [
        (
            Fault::NoFile,
            "liquibase: changelog fault: no file db/a.json\n",
        ),
        (
            Fault::File("bad path"),
            "liquibase: changelog fault: db/a.json: bad path\n",
        ),
        (
            Fault::Line,
            "liquibase: changelog fault: db/a.json: line 3\n",
        ),
        (
            Fault::Key("missing"),
            "liquibase: changelog fault: db/a.json: changes[0].dropTable.tableName: missing\n",
        ),
        (
            Fault::Dialect,
            "liquibase: changelog fault: db/a.json: changes[0].dropTable.tableName: not for mysql\n",
        ),
        (
            Fault::TooMany,
            "liquibase: changelog fault: too many changesets or files\n",
        ),
    ];
    for (fault, want) in cases {
        let text = made(
            rt.alloc(),
            "db/a.json",
            "changes[0].dropTable.tableName",
            fault,
        )?;
        assert_eq!(rt; text.as_str(), want);
    }
    Ok(())
}

// Paths and places of files, with a line feed, the last control characters and one that is none.
#[test]
fn faults_of_a_changelog_are_one_line_each(rt: HostRuntime) -> Result<(), Fail> {
    let cases = [
        (
            Fault::NoFile,
            "liquibase: changelog fault: no file a_liquibase: b_\n",
        ),
        (
            Fault::File("bad path"),
            "liquibase: changelog fault: a_liquibase: b_: bad path\n",
        ),
        (
            Fault::Line,
            "liquibase: changelog fault: a_liquibase: b_: line 3\n",
        ),
        (
            Fault::Key("unknown"),
            "liquibase: changelog fault: a_liquibase: b_: _ _é\u{80}: unknown\n",
        ),
        (
            Fault::Dialect,
            "liquibase: changelog fault: a_liquibase: b_: _ _é\u{80}: not for mysql\n",
        ),
    ];
    for (fault, want) in cases {
        let text = made(
            rt.alloc(),
            "a\nliquibase: b\0",
            "\u{1f} \u{7f}é\u{80}",
            fault,
        )?;
        assert_eq!(rt; text.as_str(), want);
    }
    Ok(())
}
