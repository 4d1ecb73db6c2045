use crate::asked::{told_bytes, told_held};
use crate::made::{changelog_of, push_times};
use lq_base::{Items, Text};
use std::alloc::Global;
use std::process::Abort;
use tests_loaded::hold;

/// An item of the root so many times and then another, and what these are loaded as.
#[derive(Clone, Copy)]
struct Many<'a> {
    item: &'a str,
    count: usize,
    last: &'a str,
    wanted: &'a str,
}

const TOO_MANY: &str = "liquibase: changelog fault: too many changesets or files\n";

// A file beside the root.
const BESIDE: &str = r#"{"databaseChangeLog":[{"changeSet":{"id":2,"author":"bob"}}]}"#;

const IGNORED: &str = r#"{"changeSet":{"id":1,"author":"ann","ignore":true}},"#;

const ELSEWHERE: &str = r#"{"changeSet":{"id":1,"author":"ann","dbms":"mysql"}},"#;

const INCLUDE: &str = r#"{"include":{"file":"none.json"}},"#;

fn told_many(rt: &impl Abort, alloc: Global, case: &Many<'_>) -> Text {
    let mut held = Items::new(alloc);
    let root = changelog_of(alloc, case.item, case.count, case.last).expect(rt, "memory");
    hold(alloc, "a.json", root.as_bytes(), &mut held).expect(rt, "memory");
    hold(alloc, "b.json", BESIDE.as_bytes(), &mut held).expect(rt, "memory");
    let none = b"{\"databaseChangeLog\":[]}";
    hold(alloc, "none.json", none, &mut held).expect(rt, "memory");
    told_held(rt, alloc, "a.json", held)
}

fn tell_many(rt: &impl Abort, alloc: Global, cases: &[Many<'_>]) {
    for case in cases {
        let told = told_many(rt, alloc, case);
        assert_eq!(rt; told.as_str(), case.wanted);
    }
}

// One too many is told before its keys are looked at, and in every file.
#[test]
fn changesets_are_ten_thousand(rt: HostRuntime) {
    let cases = [
        Many {
            item: IGNORED,
            count: 9_999,
            last: r#"{"include":{"file":"b.json"}}"#,
            wanted: "\nb.json::2::bob",
        },
        Many {
            item: IGNORED,
            count: 10_000,
            last: r#"{"property":{"name":"a","value":"b"}}"#,
            wanted: "",
        },
        Many {
            item: IGNORED,
            count: 10_000,
            last: r#"{"include":{"file":"b.json"}}"#,
            wanted: TOO_MANY,
        },
        Many {
            item: ELSEWHERE,
            count: 10_000,
            last: r#"{"changeSet":{"id":1,"author":"ann","dbms":"mysql"}}"#,
            wanted: TOO_MANY,
        },
        Many {
            item: IGNORED,
            count: 10_000,
            last: r#"{"changeSet":1}"#,
            wanted: TOO_MANY,
        },
        Many {
            item: IGNORED,
            count: 9_999,
            last: r#"{"changeSet":1}"#,
            wanted: "liquibase: changelog fault: a.json: databaseChangeLog[9999].changeSet: bad\n",
        },
        Many {
            item: IGNORED,
            count: 10_000,
            last: r#"{"changeset":1}"#,
            wanted: "liquibase: changelog fault: a.json: databaseChangeLog[10000].changeset: unknown\n",
        },
    ];
    tell_many(&rt, rt.alloc(), &cases)
}

// A file counts each time that it is read. What is wrong with a path is told first, and that there is
// no such file is not looked at.
#[test]
fn files_are_ten_thousand(rt: HostRuntime) {
    let cases = [
        Many {
            item: INCLUDE,
            count: 9_998,
            last: r#"{"include":{"file":"b.json"}}"#,
            wanted: "\nb.json::2::bob",
        },
        Many {
            item: INCLUDE,
            count: 9_999,
            last: r#"{"changeSet":{"id":1,"author":"ann"}}"#,
            wanted: "\na.json::1::ann",
        },
        Many {
            item: INCLUDE,
            count: 9_999,
            last: r#"{"include":{"file":"b.json"}}"#,
            wanted: TOO_MANY,
        },
        Many {
            item: INCLUDE,
            count: 9_999,
            last: r#"{"includeAll":{"path":"."}}"#,
            wanted: TOO_MANY,
        },
        Many {
            item: INCLUDE,
            count: 9_999,
            last: r#"{"include":{"file":"no.json"}}"#,
            wanted: TOO_MANY,
        },
        Many {
            item: INCLUDE,
            count: 9_999,
            last: r#"{"include":{"file":"no.xml"}}"#,
            wanted: "liquibase: changelog fault: no.xml: XML is not read\n",
        },
        Many {
            item: INCLUDE,
            count: 9_999,
            last: r#"{"includeAll":{"path":"no"}}"#,
            wanted: "liquibase: changelog fault: no file no\n",
        },
    ];
    tell_many(&rt, rt.alloc(), &cases)
}

fn told_sql(rt: &impl Abort, alloc: Global, heading: &str, count: usize) -> Text {
    let mut text = String::from_str(alloc, "--liquibase formatted sql\n").expect(rt, "memory");
    push_times(&mut text, heading, count).expect(rt, "memory");
    told_bytes(rt, alloc, "a.sql", text.as_bytes())
}

#[test]
fn changesets_of_formatted_sql_are_ten_thousand(rt: HostRuntime) {
    let most = told_sql(&rt, rt.alloc(), "--changeset ann:1 ignore:true\n", 10_000);
    assert_eq!(rt; most.as_str(), "");
    let many = told_sql(&rt, rt.alloc(), "--changeset ann:1 ignore:true\n", 10_001);
    assert_eq!(rt; many.as_str(), TOO_MANY);
}
