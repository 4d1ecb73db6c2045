use crate::asked::{Case, tell, tell_my};

const KEYS: &str =
    r#"{"databaseChangeLog":[{"changeSet":{"id":1,"author":"ann","logicalFilePath":"x","context":"a or b","labels":"c, d","comment":"why","runAlways":true,"runOnChange":"true","failOnError":false,"runInTransaction":false,"validCheckSum":["ANY","P1:0"],"preConditions":[{"onFail":"MARK_RAN"},{"onError":"WARN"},{"tableExists":{"tableName":"t"}}],"changes":[{"empty":{}},{"tagDatabase":{"tag":"v1"}}],"rollback":["DELETE FROM t",{"empty":{}}]}}]}"#;

const IGNORED: &str =
    r#"{"databaseChangeLog":[{"changeSet":{"id":1,"author":"ann","ignore":true}},{"changeSet":{"id":2,"author":"ann"}}]}"#;

const OF_PG: &str =
    r#"{"databaseChangeLog":[{"changeSet":{"id":1,"author":"ann","dbms":"postgresql","changes":[{"createSequence":{"sequenceName":"s"}}],"rollback":"DROP SEQUENCE s"}}]}"#;

const OF_ALL: &str =
    r#"{"databaseChangeLog":[{"changeSet":{"id":1,"author":"ann","changes":[{"createSequence":{"sequenceName":"s"}}]}}]}"#;

const ASKED: &str =
    r#"{"databaseChangeLog":[{"preConditions":[{"onFail":"WARN"},{"dbms":{"type":"postgresql"}}]},{"include":{"file":"b.json"}},{"preConditions":[{"onError":"WARN"},{"tableExists":{"tableName":"t"}}]}]}"#;

const ASKED_TOO: &str =
    r#"{"databaseChangeLog":[{"preConditions":[{"onFail":"HALT"},{"dbms":{"type":"mysql"}}]}]}"#;

#[test]
fn changesets_say_what_they_are(rt: HostRuntime) {
    let cases = [
        Case {
            files: &[("a.json", KEYS)],
            wanted: "\nx::1::ann changes 2 back 2 always onChange goesOn apart sums 2 context a or b labels c, d comment why asks 1 mark warn",
        },
        Case {
            files: &[("a.json", IGNORED)],
            wanted: "\na.json::2::ann",
        },
        Case {
            files: &[("a.json", OF_PG)],
            wanted: "\na.json::1::ann changes 1 back 1",
        },
        Case {
            files: &[("a.json", ASKED), ("b.json", ASKED_TOO)],
            wanted: " asks 3 warn",
        },
    ];
    tell(&rt, rt.alloc(), &cases)
}

#[test]
fn other_dialects_are_not_looked_at(rt: HostRuntime) {
    let cases = [
        Case {
            files: &[("a.json", OF_PG)],
            wanted: "\na.json::1::ann elsewhere",
        },
        Case {
            files: &[("a.json", OF_ALL)],
            wanted: "liquibase: changelog fault: a.json: databaseChangeLog[0].changeSet.changes[0].createSequence: not for mysql\n",
        },
    ];
    tell_my(&rt, rt.alloc(), &cases)
}
