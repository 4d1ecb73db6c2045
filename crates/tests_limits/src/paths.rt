use crate::asked::told_held;
use crate::made::between;
use lq_base::{Items, NoMemory, Text};
use std::alloc::Global;
use std::process::Abort;
use tests_loaded::{Held, hold};

/// The root's path, its one item, and what it is loaded as.
type Row<'a> = (&'a str, &'a str, &'a str);

const ONE: &str = r#"{"databaseChangeLog":[{"changeSet":{"id":1,"author":"ann"}}]}"#;

// A changelog in each of two folders and below them.
fn hold_ones(alloc: Global, to: &mut Held) -> Result<(), NoMemory> {
    for path in ["b.json", "db/b.json", "/b.json", "/db/b.json"] {
        hold(alloc, path, ONE.as_bytes(), to)?;
    }
    Ok(())
}

fn told_from(rt: &impl Abort, alloc: Global, root: &str, item: &str) -> Text {
    let mut held = Items::new(alloc);
    let text = between(alloc, r#"{"databaseChangeLog":["#, item, "]}").expect(rt, "memory");
    hold(alloc, root, text.as_bytes(), &mut held).expect(rt, "memory");
    hold_ones(alloc, &mut held).expect(rt, "memory");
    told_held(rt, alloc, root, held)
}

fn tell_from(rt: &impl Abort, alloc: Global, rows: &[Row<'_>]) {
    for row in rows {
        let told = told_from(rt, alloc, row.0, row.1);
        assert_eq!(rt; told.as_str(), row.2);
    }
}

// The root's path stays as it was given, and all others are made plain.
#[test]
fn paths_are_made_plain(rt: HostRuntime) {
    let rows = [
        (
            "./db/../a.json",
            r#"{"changeSet":{"id":1,"author":"ann"}}"#,
            "\n./db/../a.json::1::ann",
        ),
        (
            "db/a.json",
            r#"{"include":{"file":"b.json"}}"#,
            "\nb.json::1::ann",
        ),
        (
            "db/a.json",
            r#"{"include":{"file":"b.json","relativeToChangelogFile":"true"}}"#,
            "\ndb/b.json::1::ann",
        ),
        (
            "./db//a.json",
            r#"{"include":{"file":"/./b.json","relativeToChangelogFile":true}}"#,
            "\ndb/b.json::1::ann",
        ),
        (
            "db/a.json",
            r#"{"include":{"file":"/b.json"}}"#,
            "\n/b.json::1::ann",
        ),
        (
            "/db/a.json",
            r#"{"include":{"file":"../b.json","relativeToChangelogFile":true}}"#,
            "\n/b.json::1::ann",
        ),
        (
            "/db/a.json",
            r#"{"include":{"file":"../../b.json","relativeToChangelogFile":true}}"#,
            "liquibase: changelog fault: /db/../../b.json: bad path\n",
        ),
        (
            "../db/a.json",
            r#"{"include":{"file":"b.json","relativeToChangelogFile":true}}"#,
            "liquibase: changelog fault: ../db/b.json: bad path\n",
        ),
        (
            "a.json",
            r#"{"includeAll":{"path":"/db/"}}"#,
            "\n/db/b.json::1::ann",
        ),
        (
            "a.json",
            r#"{"includeAll":{"path":"db/../.."}}"#,
            "liquibase: changelog fault: db/../..: bad path\n",
        ),
    ];
    tell_from(&rt, rt.alloc(), &rows)
}
