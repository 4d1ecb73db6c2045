use crate::running::{FileText, Step, play};
use crate::shop::{BACK_ONE, UPDATE, UPDATE_MYSQL};

const DEFAULT_TWICE: FileText = (
    "db/a.json",
    r#"{"databaseChangeLog":[
{"changeSet":{"id":"1","author":"ann","changes":[
 {"createTable":{"tableName":"t","columns":[{"column":{"name":"a","type":"text","defaultValue":"a"}}]}},
 {"addDefaultValue":{"tableName":"t","columnName":"a","defaultValue":"b"}}]}}]}"#,
);

const ONE_NOT_FRESH: &str =
    "ran db/a.json::1::ann\nupdate: 1 ran, 0 ran again, 0 marked, 0 skipped, 1 not fresh\n";

#[test]
fn a_second_default_is_not_fresh(rt: HostRuntime) {
    let steps = [Step {
        words: UPDATE,
        code: 0,
        out: ONE_NOT_FRESH,
        log: "",
    }];
    let _left = play(&rt, rt.alloc(), &[DEFAULT_TWICE], b"", &steps);
}

const NULLABLE_KEY: FileText = (
    "db/a.json",
    r#"{"databaseChangeLog":[
{"changeSet":{"id":"1","author":"ann","changes":[
 {"createTable":{"tableName":"t","columns":[{"column":{"name":"a","type":"int"}}]}}]}},
{"changeSet":{"id":"2","author":"ann","changes":[
 {"addPrimaryKey":{"tableName":"t","columnNames":"a"}}]}}]}"#,
);

const KEY_STEPS: [Step; 2] = [
    Step {
        words: UPDATE,
        code: 0,
        out: "ran db/a.json::1::ann\nran db/a.json::2::ann\nupdate: 2 ran, 0 ran again, 0 marked, 0 skipped, 1 not fresh\n",
        log: "",
    },
    Step {
        words: BACK_ONE,
        code: 0,
        out: "rolled back db/a.json::2::ann\nrollback: 1 rolled back\n",
        log: "",
    },
];

#[test]
fn a_key_of_a_nullable_column_is_not_fresh(rt: HostRuntime) {
    let _left = play(&rt, rt.alloc(), &[NULLABLE_KEY], b"", &KEY_STEPS);
}

const NOT_NULLS: FileText = (
    "db/a.json",
    r#"{"databaseChangeLog":[
{"changeSet":{"id":"1","author":"ann","changes":[
 {"createTable":{"tableName":"t","columns":[
  {"column":{"name":"a","type":"int","defaultValueNumeric":7}},
  {"column":{"name":"b","type":"int"}}]}},
 {"addNotNullConstraint":{"tableName":"t","columnName":"a","columnDataType":"int"}},
 {"addNotNullConstraint":{"tableName":"t","columnName":"b","columnDataType":"bigint"}}]}}]}"#,
);

const TWO_NOT_FRESH: &str =
    "ran db/a.json::1::ann\nupdate: 1 ran, 0 ran again, 0 marked, 0 skipped, 2 not fresh\n";

const NONE_NOT_FRESH: &str =
    "ran db/a.json::1::ann\nupdate: 1 ran, 0 ran again, 0 marked, 0 skipped, 0 not fresh\n";

#[test]
fn a_column_that_changes_is_not_fresh_in_mysql(rt: HostRuntime) {
    let steps = [Step {
        words: UPDATE_MYSQL,
        code: 0,
        out: TWO_NOT_FRESH,
        log: "",
    }];
    let _left = play(&rt, rt.alloc(), &[NOT_NULLS], b"", &steps);
    let steps = [Step {
        words: UPDATE,
        code: 0,
        out: NONE_NOT_FRESH,
        log: "",
    }];
    let _other = play(&rt, rt.alloc(), &[NOT_NULLS], b"", &steps);
}
