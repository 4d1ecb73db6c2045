use crate::asked::{Case, summed, tell};

const LOADS: &str =
    r#"{"databaseChangeLog":[{"changeSet":{"id":1,"author":"ann","changes":[{"loadData":{"tableName":"team","file":"db/team.csv"}}]}}]}"#;

const BESIDE: &str =
    r#"{"databaseChangeLog":[{"changeSet":{"id":1,"author":"ann","changes":[{"loadData":{"tableName":"team","file":"data/../team.csv","relativeToChangelogFile":true}}]}}]}"#;

const TWICE: &str =
    r#"{"databaseChangeLog":[{"changeSet":{"id":1,"author":"ann","changes":[{"loadData":{"tableName":"a","file":"a.csv"}},{"empty":{}},{"loadData":{"tableName":"b","file":"${name}.csv"}}]}},{"changeSet":{"id":2,"author":"ann"}}]}"#;

const NAMED: &str =
    r#"{"databaseChangeLog":[{"property":{"name":"name","value":"b"}},{"include":{"file":"twice.json"}}]}"#;

const ABOVE: &str =
    r#"{"databaseChangeLog":[{"changeSet":{"id":1,"author":"ann","changes":[{"loadData":{"tableName":"a","file":"../a.csv"}}]}}]}"#;

const EMPTY_NAME: &str =
    r#"{"databaseChangeLog":[{"changeSet":{"id":1,"author":"ann","changes":[{"loadData":{"tableName":"a","file":""}}]}}]}"#;

const NO_TABLE: &str =
    r#"{"databaseChangeLog":[{"changeSet":{"id":1,"author":"ann","changes":[{"empty":{}},{"loadData":{"file":"none.csv"}}]}}]}"#;

const THEN_BAD: &str =
    r#"{"databaseChangeLog":[{"changeSet":{"id":1,"author":"ann","changes":[{"loadData":{"tableName":"a","file":"a.csv"}},{"dropTable":{}}]}}]}"#;

const BAD_FIRST: &str =
    r#"{"databaseChangeLog":[{"changeSet":{"id":1,"author":"ann","changes":[{"dropTable":{}},{"loadData":{"tableName":"a","file":"a.csv"}}]}}]}"#;

const AWAY: &str =
    r#"{"databaseChangeLog":[{"changeSet":{"id":1,"author":"ann","dbms":"mysql","changes":[{"loadData":{"tableName":"a","file":"a.csv"}}]}}]}"#;

const BACK: &str =
    r#"{"databaseChangeLog":[{"changeSet":{"id":1,"author":"ann","rollback":[{"loadData":{"tableName":"a","file":"a.csv"}}]}}]}"#;

#[test]
fn files_of_loads_are_read(rt: HostRuntime) {
    let cases = [
        Case {
            files: &[
                ("db/a.json", LOADS),
                ("db/team.csv", "id,name\n1,red\n2,NULL\n"),
            ],
            wanted: "\ndb/a.json::1::ann changes 1",
        },
        Case {
            files: &[("db/a.json", BESIDE), ("db/team.csv", "id\n1\n")],
            wanted: "\ndb/a.json::1::ann changes 1",
        },
        Case {
            files: &[
                ("a.json", NAMED),
                ("twice.json", TWICE),
                ("a.csv", "id\n1\n"),
                ("b.csv", "id,name\n1,red\n"),
            ],
            wanted: "\ntwice.json::1::ann changes 3\ntwice.json::2::ann",
        },
        Case {
            files: &[("a.json", AWAY)],
            wanted: "\na.json::1::ann elsewhere",
        },
    ];
    tell(&rt, rt.alloc(), &cases)
}

#[test]
fn first_faults_of_loads_are_told(rt: HostRuntime) {
    let cases = [
        Case {
            files: &[("db/a.json", LOADS), ("db/team.csv", "id,name\n1,red,x\n")],
            wanted: "liquibase: changelog fault: db/a.json: databaseChangeLog[0].changeSet.changes[0].loadData.file: bad\n",
        },
        Case {
            files: &[("db/a.json", LOADS)],
            wanted: "liquibase: changelog fault: no file db/team.csv\n",
        },
        Case {
            files: &[("a.json", NAMED), ("twice.json", TWICE), ("a.csv", "id\n")],
            wanted: "liquibase: changelog fault: no file b.csv\n",
        },
        Case {
            files: &[
                ("a.json", NAMED),
                ("twice.json", TWICE),
                ("a.csv", "id\n"),
                ("b.csv", ""),
            ],
            wanted: "liquibase: changelog fault: twice.json: databaseChangeLog[0].changeSet.changes[2].loadData.file: bad\n",
        },
        Case {
            files: &[("a.json", ABOVE)],
            wanted: "liquibase: changelog fault: ../a.csv: bad path\n",
        },
        Case {
            files: &[("a.json", EMPTY_NAME)],
            wanted: "liquibase: changelog fault: : bad path\n",
        },
        Case {
            files: &[("a.json", NO_TABLE)],
            wanted: "liquibase: changelog fault: a.json: databaseChangeLog[0].changeSet.changes[1].loadData.tableName: missing\n",
        },
        Case {
            files: &[("a.json", THEN_BAD)],
            wanted: "liquibase: changelog fault: no file a.csv\n",
        },
        Case {
            files: &[("a.json", THEN_BAD), ("a.csv", "a\n1\n")],
            wanted: "liquibase: changelog fault: a.json: databaseChangeLog[0].changeSet.changes[1].dropTable.tableName: missing\n",
        },
        Case {
            files: &[("a.json", BAD_FIRST)],
            wanted: "liquibase: changelog fault: a.json: databaseChangeLog[0].changeSet.changes[0].dropTable.tableName: missing\n",
        },
        Case {
            files: &[("a.json", BACK), ("a.csv", "a\n1\n")],
            wanted: "liquibase: changelog fault: a.json: databaseChangeLog[0].changeSet.rollback[0].loadData: unknown\n",
        },
    ];
    tell(&rt, rt.alloc(), &cases)
}

// A moved file keeps the checksum, an edited one changes it.
#[test]
fn sums_are_of_the_rows(rt: HostRuntime) {
    let first = summed(
        &rt,
        rt.alloc(),
        &[("db/a.json", LOADS), ("db/team.csv", "id,name\n1,red\n")],
    );
    let moved = summed(
        &rt,
        rt.alloc(),
        &[
            ("new/a.json", BESIDE),
            ("new/team.csv", "id,name\r\n\"1\",red"),
        ],
    );
    assert_eq!(rt; first.as_str(), moved.as_str());
    let edited = summed(
        &rt,
        rt.alloc(),
        &[("db/a.json", LOADS), ("db/team.csv", "id,name\n1,blue\n")],
    );
    assert!(rt; first.as_str() != edited.as_str());
}
