use crate::asked::{summed, told_of};

const JSON: &str = r#"{"databaseChangeLog":[
{"changeSet":{"id":"1","author":"ann","logicalFilePath":"x","context":"c","labels":"l","comment":"why","runOnChange":true,
 "preConditions":[{"onFail":"MARK_RAN"},{"sqlCheck":{"expectedResult":0,"sql":"SELECT COUNT(*) FROM t"}}],
 "changes":[{"sql":{"sql":"DELETE FROM t;\nDELETE FROM u"}}],
 "rollback":"DELETE FROM u"}},
{"changeSet":{"id":"2","author":"bob","logicalFilePath":"x","changes":[{"sql":{"sql":"DELETE FROM t","endDelimiter":"/"}}],"rollback":[]}}]}"#;

const YAML: &str = "databaseChangeLog:
- changeSet:
    id: 1
    author: ann
    logicalFilePath: x
    context: c
    labels: l
    comment: why
    runOnChange: true
    preConditions:
    - onFail: MARK_RAN
    - sqlCheck:
        expectedResult: 0
        sql: SELECT COUNT(*) FROM t
    changes:
    - sql:
        sql: |-
          DELETE FROM t;
          DELETE FROM u
    rollback: DELETE FROM u
- changeSet:
    id: 2
    author: bob
    logicalFilePath: x
    changes:
    - sql:
        sql: DELETE FROM t
        endDelimiter: /
    rollback: []
";

const SQL: &str = "--liquibase formatted sql logicalFilePath:x
--changeset ann:1 context:c labels:l runOnChange:true
--comment why
--preconditions onFail:MARK_RAN
--precondition-sql-check expectedResult:0 SELECT COUNT(*) FROM t
DELETE FROM t;
DELETE FROM u
--rollback DELETE FROM u
--changeset bob:2 endDelimiter:/
DELETE FROM t
--rollback empty
";

#[test]
fn yaml_gives_the_changesets_of_json(rt: HostRuntime) {
    let json = told_of(&rt, rt.alloc(), &[("a.json", JSON)]);
    let yaml = told_of(&rt, rt.alloc(), &[("a.yaml", YAML)]);
    assert_eq!(rt;
        json.as_str(),
        "\nx::1::ann changes 1 back 1 onChange context c labels l comment why asks 1 mark\nx::2::bob changes 1 back 0"
    );
    assert_eq!(rt; yaml.as_str(), json.as_str());
}

#[test]
fn formatted_sql_gives_the_changesets_of_json(rt: HostRuntime) {
    let json = told_of(&rt, rt.alloc(), &[("a.json", JSON)]);
    let sql = told_of(&rt, rt.alloc(), &[("a.sql", SQL)]);
    assert_eq!(rt; sql.as_str(), json.as_str());
}

#[test]
fn all_formats_give_the_same_checksums(rt: HostRuntime) {
    let json = summed(&rt, rt.alloc(), &[("a.json", JSON)]);
    let yaml = summed(&rt, rt.alloc(), &[("a.yaml", YAML)]);
    let sql = summed(&rt, rt.alloc(), &[("a.sql", SQL)]);
    assert_eq!(rt; yaml.as_str(), json.as_str());
    assert_eq!(rt; sql.as_str(), json.as_str());
}
