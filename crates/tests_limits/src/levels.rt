use crate::asked::{told_bytes, told_held};
use crate::made::between;
use lq_base::{Items, Text};
use std::alloc::{AllocError, Global};
use std::process::Abort;
use tests_loaded::{Held, hold};

// The path of the file on a level of includes.
fn path_of(alloc: Global, level: usize) -> Result<String, AllocError> {
    format!(in alloc; "{level}.json")
}

// A changelog of one item.
fn hold_item(rt: &impl Abort, alloc: Global, level: usize, item: &str, to: &mut Held) {
    let path = path_of(alloc, level).expect(rt, "memory");
    let text = between(alloc, r#"{"databaseChangeLog":["#, item, "]}").expect(rt, "memory");
    hold(alloc, path.as_str(), text.as_bytes(), to).expect(rt, "memory");
}

// A changelog that includes the one below.
fn hold_link(rt: &impl Abort, alloc: Global, level: usize, to: &mut Held) {
    let below = path_of(alloc, level.saturating_add(1)).expect(rt, "memory");
    let item = between(alloc, r#"{"include":{"file":""#, below.as_str(), r#""}}"#);
    let item = item.expect(rt, "memory");
    hold_item(rt, alloc, level, item.as_str(), to);
}

// A root and 32 levels of includes below it, and what an item on the last is loaded as.
fn told_below(rt: &impl Abort, alloc: Global, item: &str) -> Text {
    let mut held = Items::new(alloc);
    for level in 0..32usize {
        hold_link(rt, alloc, level, &mut held);
    }
    hold_item(rt, alloc, 32, item, &mut held);
    told_held(rt, alloc, "0.json", held)
}

fn tell_below(rt: &impl Abort, alloc: Global, rows: &[(&str, &str)]) {
    for row in rows {
        let told = told_below(rt, alloc, row.0);
        assert_eq!(rt; told.as_str(), row.1);
    }
}

// What is wrong with a path is told before its level is, and its level before the file is looked for.
#[test]
fn includes_have_32_levels(rt: HostRuntime) {
    let rows = [
        (
            r#"{"changeSet":{"id":1,"author":"ann"}}"#,
            "\n32.json::1::ann",
        ),
        (
            r#"{"include":{"file":"0.json"}}"#,
            "liquibase: changelog fault: 0.json: includes too deep\n",
        ),
        (
            r#"{"include":{"file":"no.json"}}"#,
            "liquibase: changelog fault: no.json: includes too deep\n",
        ),
        (
            r#"{"includeAll":{"path":"."}}"#,
            "liquibase: changelog fault: 0.json: includes too deep\n",
        ),
        (
            r#"{"includeAll":{"path":"db"}}"#,
            "liquibase: changelog fault: no file db\n",
        ),
        (
            r#"{"include":{"file":"no.xml"}}"#,
            "liquibase: changelog fault: no.xml: XML is not read\n",
        ),
        (
            r#"{"include":{"file":"no.txt"}}"#,
            "liquibase: changelog fault: no.txt: unknown format\n",
        ),
        (
            r#"{"include":{"file":"../no.txt"}}"#,
            "liquibase: changelog fault: ../no.txt: bad path\n",
        ),
        (
            r#"{"include":{"file":"./"}}"#,
            "liquibase: changelog fault: : bad path\n",
        ),
        (
            r#"{"include":{"file":"a\u007f.xml"}}"#,
            "liquibase: changelog fault: a_.xml: bad path\n",
        ),
    ];
    tell_below(&rt, rt.alloc(), &rows)
}

#[test]
fn a_file_that_includes_itself_is_too_deep(rt: HostRuntime) {
    for text in [
        r#"{"databaseChangeLog":[{"include":{"file":"db/a.json"}}]}"#,
        r#"{"databaseChangeLog":[{"include":{"file":"a.json","relativeToChangelogFile":true}}]}"#,
        r#"{"databaseChangeLog":[{"includeAll":{"path":"db"}}]}"#,
    ] {
        let told = told_bytes(&rt, rt.alloc(), "db/a.json", text.as_bytes());
        assert_eq!(rt;
            told.as_str(),
            "liquibase: changelog fault: db/a.json: includes too deep\n"
        );
    }
}
