use lq_base::Text;
use lq_outside::MemFiles;
use std::alloc::Global;
use std::process::Abort;
use tests_loaded::{File, held_of, told_by};

/// Files, the first of which is the root, how many calls loading makes, and what they are loaded as
/// where none of these fails.
#[derive(Clone, Copy)]
struct Calls<'a> {
    files: &'a [File<'a>],
    made: u64,
    wanted: &'a str,
}

const ONE: &str = r#"{"databaseChangeLog":[{"changeSet":{"id":1,"author":"ann"}}]}"#;

const SQL: &str = "--liquibase formatted sql\n--changeset bob:2";

const TWICE: &str =
    r#"{"databaseChangeLog":[{"include":{"file":"one.json"}},{"include":{"file":"one.json"}}]}"#;

const YAML: &str =
    "databaseChangeLog:\n- include:\n    file: two.sql\n- include:\n    file: one.json\n";

const FOLDER: &str =
    r#"{"databaseChangeLog":[{"includeAll":{"path":"db"}},{"include":{"file":"one.json"}}]}"#;

const XML: &str =
    r#"{"databaseChangeLog":[{"include":{"file":"one.xml"}},{"include":{"file":"one.json"}}]}"#;

const ITSELF: &str = r#"{"databaseChangeLog":[{"include":{"file":"a.json"}}]}"#;

const ALL_OF_ITSELF: &str = r#"{"databaseChangeLog":[{"includeAll":{"path":"."}}]}"#;

// What the files are loaded as where the call of this number fails.
fn told_failing(rt: &impl Abort, alloc: Global, files: &[File<'_>], call: u64) -> Text {
    let held = held_of(alloc, files).expect(rt, "memory");
    let root = files.first().expect(rt, "a root").0;
    let mut fail = Vec::new(alloc);
    fail.push(call).expect(rt, "memory");
    let mut files = MemFiles::new(alloc, held, fail);
    told_by(alloc, root, &mut files).expect(rt, "memory")
}

// Each call in turn fails, and one behind the last is not made.
fn tell_each(rt: &impl Abort, alloc: Global, files: &[File<'_>], made: u64, wanted: &str) {
    for before in 0..made {
        let told = told_failing(rt, alloc, files, before.saturating_add(1));
        assert_eq!(rt; told.as_str(), "liquibase: cannot read the files\n");
    }
    let told = told_failing(rt, alloc, files, made.saturating_add(1));
    assert_eq!(rt; told.as_str(), wanted);
}

fn tell_calls(rt: &impl Abort, alloc: Global, cases: &[Calls<'_>]) {
    for case in cases {
        tell_each(rt, alloc, case.files, case.made, case.wanted);
    }
}

#[test]
fn each_call_that_fails_is_told(rt: HostRuntime) {
    let cases = [
        Calls {
            files: &[("a.json", ONE)],
            made: 1,
            wanted: "\na.json::1::ann",
        },
        Calls {
            files: &[("a.sql", SQL)],
            made: 1,
            wanted: "\na.sql::2::bob",
        },
        Calls {
            files: &[("a.json", TWICE), ("one.json", ONE)],
            made: 3,
            wanted: "\none.json::1::ann\none.json::1::ann",
        },
        Calls {
            files: &[("a.yaml", YAML), ("two.sql", SQL), ("one.json", ONE)],
            made: 3,
            wanted: "\ntwo.sql::2::bob\none.json::1::ann",
        },
        Calls {
            files: &[
                ("a.json", FOLDER),
                ("db/2.sql", SQL),
                ("db/sub/1.json", ONE),
                ("db/10.sql", SQL),
                ("db/notes.txt", ""),
                ("one.json", ONE),
            ],
            made: 6,
            wanted: "\ndb/10.sql::2::bob\ndb/2.sql::2::bob\ndb/sub/1.json::1::ann\none.json::1::ann",
        },
    ];
    tell_calls(&rt, rt.alloc(), &cases)
}

#[test]
fn no_call_is_made_behind_another_fault(rt: HostRuntime) {
    let cases = [
        Calls {
            files: &[("a.xml", "")],
            made: 0,
            wanted: "liquibase: changelog fault: a.xml: XML is not read\n",
        },
        Calls {
            files: &[("a", "")],
            made: 0,
            wanted: "liquibase: changelog fault: a: unknown format\n",
        },
        Calls {
            files: &[("a\n.json", ONE)],
            made: 0,
            wanted: "liquibase: changelog fault: a_.json: bad path\n",
        },
        Calls {
            files: &[("a.json", XML), ("one.json", ONE)],
            made: 1,
            wanted: "liquibase: changelog fault: one.xml: XML is not read\n",
        },
        Calls {
            files: &[("a.json", TWICE)],
            made: 2,
            wanted: "liquibase: changelog fault: no file one.json\n",
        },
        Calls {
            files: &[("a.json", TWICE), ("one.json", "{")],
            made: 2,
            wanted: "liquibase: changelog fault: one.json: not JSON\n",
        },
        Calls {
            files: &[("a.json", FOLDER), ("db/notes.txt", ""), ("one.json", ONE)],
            made: 2,
            wanted: "liquibase: changelog fault: no file db\n",
        },
        Calls {
            files: &[("a.json", FOLDER), ("db/2.sql", SQL), ("db/1.xml", "")],
            made: 2,
            wanted: "liquibase: changelog fault: db/1.xml: XML is not read\n",
        },
        Calls {
            files: &[("a.json", ITSELF)],
            made: 33,
            wanted: "liquibase: changelog fault: a.json: includes too deep\n",
        },
        Calls {
            files: &[("a.json", ALL_OF_ITSELF)],
            made: 66,
            wanted: "liquibase: changelog fault: a.json: includes too deep\n",
        },
    ];
    tell_calls(&rt, rt.alloc(), &cases)
}
