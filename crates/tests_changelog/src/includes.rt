use crate::asked::{Case, tell};

const ONE: &str = r#"{"databaseChangeLog":[{"changeSet":{"id":1,"author":"ann"}}]}"#;

const TWO: &str = r#"{"databaseChangeLog":[{"changeSet":{"id":2,"author":"ann"}}]}"#;

const TWICE: &str =
    r#"{"databaseChangeLog":[{"include":{"file":"db/one.json"}},{"include":{"file":"db/one.json"}}]}"#;

const BESIDE: &str =
    r#"{"databaseChangeLog":[{"include":{"file":"./sub//../two.json","relativeToChangelogFile":true}},{"changeSet":{"id":3,"author":"bob"}}]}"#;

const ABOVE: &str =
    r#"{"databaseChangeLog":[{"include":{"file":"../../two.json","relativeToChangelogFile":true}}]}"#;

const FOLDER: &str = r#"{"databaseChangeLog":[{"includeAll":{"path":"db"}}]}"#;

#[test]
fn files_are_included_in_place(rt: HostRuntime) {
    let cases = [
        Case {
            files: &[("a.json", r#"{"databaseChangeLog":[]}"#)],
            wanted: "",
        },
        Case {
            files: &[("a.json", ONE)],
            wanted: "\na.json::1::ann",
        },
        Case {
            files: &[("a.json", TWICE), ("db/one.json", ONE)],
            wanted: "\ndb/one.json::1::ann\ndb/one.json::1::ann",
        },
        Case {
            files: &[("db/a.json", BESIDE), ("db/two.json", TWO)],
            wanted: "\ndb/two.json::2::ann\ndb/a.json::3::bob",
        },
        Case {
            files: &[("db/a.json", ABOVE), ("two.json", TWO)],
            wanted: "liquibase: changelog fault: db/../../two.json: bad path\n",
        },
        Case {
            files: &[("a.json", TWICE)],
            wanted: "liquibase: changelog fault: no file db/one.json\n",
        },
    ];
    tell(&rt, rt.alloc(), &cases)
}

#[test]
fn folders_are_included_in_order(rt: HostRuntime) {
    let cases = [
        Case {
            files: &[
                ("a.json", FOLDER),
                ("db/b.json", TWO),
                ("db/a.json", ONE),
                ("db/sub/c.json", ONE),
                ("db/notes.txt", "no changelog"),
                ("dbs/d.json", ONE),
            ],
            wanted: "\ndb/a.json::1::ann\ndb/b.json::2::ann\ndb/sub/c.json::1::ann",
        },
        Case {
            files: &[("a.json", FOLDER), ("db/notes.txt", "no changelog")],
            wanted: "liquibase: changelog fault: no file db\n",
        },
        Case {
            files: &[("a.json", FOLDER), ("db/b.json", TWO), ("db/a.xml", "")],
            wanted: "liquibase: changelog fault: db/a.xml: XML is not read\n",
        },
    ];
    tell(&rt, rt.alloc(), &cases)
}
