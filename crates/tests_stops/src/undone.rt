use crate::running::{End, FileText, Ran, Span, Step, WHOLE, assert_told, play, run_for};
use crate::shop::{ALL_RAN, RELEASE, RELEASE_MYSQL, SHOP, UPDATE, UPDATE_MYSQL};
use crate::stops::{Stop, assert_stop};
use std::alloc::Global;
use std::process::Abort;

const UNDO: &str = "undo-unrecorded --url=postgresql:db --changelog-file=db/a.json";

const UNDO_MYSQL: &str = "undo-unrecorded --url=mysql:db --changelog-file=db/a.json";

const OBJECTS: &str = "generate-changelog --url=postgresql:db --author=ann";

const OBJECTS_MYSQL: &str = "generate-changelog --url=mysql:db --author=ann";

// Changes of two and more statements, each with an inverse: columns with a value, without nulls, unique
// and with a foreign key; tables one behind the other, and a view; a column without nulls.
const MANY: FileText = (
    "db/a.json",
    r#"{"databaseChangeLog":[
{"changeSet":{"id":"1","author":"ann","runInTransaction":false,"changes":[
 {"createTable":{"tableName":"team","columns":[
  {"column":{"name":"id","type":"int","constraints":{"primaryKey":true}}}]}},
 {"createTable":{"tableName":"player","columns":[
  {"column":{"name":"id","type":"int","constraints":{"primaryKey":true}}}]}},
 {"renameTable":{"oldTableName":"player","newTableName":"member"}},
 {"createView":{"viewName":"members","selectQuery":"SELECT id FROM member"}}]}},
{"changeSet":{"id":"2","author":"ann","runInTransaction":false,"changes":[
 {"addColumn":{"tableName":"member","columns":[
  {"column":{"name":"size","type":"int","valueNumeric":1,"constraints":{"nullable":false,"unique":true,"uniqueConstraintName":"uq_size"}}},
  {"column":{"name":"team_id","type":"int","constraints":{"foreignKeyName":"fk_team","references":"team(id)"}}}]}},
 {"addNotNullConstraint":{"tableName":"member","columnName":"team_id","columnDataType":"int","defaultNullValue":"1"}},
 {"createIndex":{"indexName":"ix_team","tableName":"member","columns":[{"column":{"name":"team_id"}}]}}]}}]}"#,
);

// An update in one profile, and what is called after a stop of it.
#[derive(Clone, Copy)]
struct Profile {
    update: &'static str,
    undo: &'static str,
    release: &'static str,
    objects: &'static str,
}

const PROFILES: [Profile; 2] = [
    Profile {
        update: UPDATE,
        undo: UNDO,
        release: RELEASE,
        objects: OBJECTS,
    },
    Profile {
        update: UPDATE_MYSQL,
        undo: UNDO_MYSQL,
        release: RELEASE_MYSQL,
        objects: OBJECTS_MYSQL,
    },
];

fn whole(rt: &impl Abort, alloc: Global, words: &str, bytes: &[u8]) -> Ran {
    run_for(rt, alloc, words, &[MANY], bytes, WHOLE)
}

// What was left is taken back, or released where there is nothing to take back; then the update runs.
fn assert_mended(rt: &impl Abort, alloc: Global, of: Profile, bytes: &[u8], objects: &[u8]) {
    let undone = whole(rt, alloc, of.undo, bytes);
    assert!(rt; undone.told.code == 0 || undone.told.code == 18);
    let freed = whole(rt, alloc, of.release, &undone.bytes);
    let again = whole(rt, alloc, of.update, &freed.bytes);
    assert_eq!(rt; again.told.code, 0);
    let made = whole(rt, alloc, of.objects, &again.bytes);
    assert!(rt; made.told.out.as_slice() == objects);
}

// False where it needed no more calls.
fn is_stopped(rt: &impl Abort, alloc: Global, of: Profile, calls: u64, objects: &[u8]) -> bool {
    let span = Span { calls, ..WHOLE };
    let ran = run_for(rt, alloc, of.update, &[MANY], b"", span);
    if ran.told.code == 0 {
        return false;
    }
    assert_mended(rt, alloc, of, &ran.bytes, objects);
    true
}

fn assert_profile(rt: &impl Abort, alloc: Global, of: Profile) {
    let ran = whole(rt, alloc, of.update, b"");
    assert_eq!(rt; ran.told.code, 0);
    let made = whole(rt, alloc, of.objects, &ran.bytes);
    let mut ended = 0;
    for calls in 0..1000 {
        if !is_stopped(rt, alloc, of, calls, &made.told.out) {
            ended = calls;
            break;
        }
    }
    assert!(rt; ended > 60);
}

#[test]
fn each_stop_of_an_update_is_mended(rt: HostRuntime) {
    for of in &PROFILES {
        assert_profile(&rt, rt.alloc(), *of);
    }
}

// Refusals: the mark is that of the first statement of the first changeset, which stands.

// Both print one identity.
const TWINS: FileText = (
    "db/a.json",
    r#"{"databaseChangeLog":[
{"changeSet":{"id":"1","author":"x::ann","changes":[
 {"createTable":{"tableName":"team","columns":[{"column":{"name":"id","type":"int"}}]}}]}},
{"changeSet":{"id":"1::x","author":"ann","changes":[
 {"createTable":{"tableName":"player","columns":[{"column":{"name":"id","type":"int"}}]}}]}}]}"#,
);

const NO_TWIN: End = (
    10,
    "",
    "liquibase: no rollback for db/a.json::1::x::ann, statement 1\n",
);

const BLOCK: FileText = (
    "db/a.json",
    r#"{"databaseChangeLog":[
{"changeSet":{"id":"1","author":"ann","changes":[
 {"createTable":{"tableName":"team","columns":[{"column":{"name":"id","type":"int"}}]}}],
 "rollback":[{"dropTable":{"tableName":"team"}}]}}]}"#,
);

const NO_WAY: End = (10, "", "liquibase: no rollback for db/a.json::1::ann\n");

const WITHOUT: FileText = (
    "db/a.json",
    r#"{"databaseChangeLog":[
{"changeSet":{"id":"1","author":"ann","changes":[
 {"createTable":{"tableName":"team","columns":[{"column":{"name":"id","type":"int"}}]}},
 {"dropTable":{"tableName":"team"}}]}}]}"#,
);

const GONE: FileText = ("db/a.json", r#"{"databaseChangeLog":[]}"#);

const NONE_SO: End = (
    10,
    "",
    "liquibase: no rollback for db/a.json::1::ann, statement 1\n",
);

// The files of the update that is stopped, those of what comes after it, and what that tells.
const REFUSED: [(FileText, FileText, End); 4] = [
    (TWINS, TWINS, NO_TWIN),
    (BLOCK, BLOCK, NO_WAY),
    (WITHOUT, WITHOUT, NO_WAY),
    (SHOP, GONE, NONE_SO),
];

fn assert_refused(rt: &impl Abort, alloc: Global, row: (FileText, FileText, End)) {
    let span = Span { calls: 24, ..WHOLE };
    let ran = run_for(rt, alloc, UPDATE_MYSQL, &[row.0], b"", span);
    assert_eq!(rt; ran.told.code, 11);
    let refused = run_for(rt, alloc, UNDO_MYSQL, &[row.1], &ran.bytes, WHOLE);
    assert_told(rt, &refused.told, row.2);
    assert!(rt; refused.bytes == ran.bytes);
}

#[test]
fn what_cannot_be_taken_back_is_refused(rt: HostRuntime) {
    for row in &REFUSED {
        assert_refused(&rt, rt.alloc(), *row);
    }
}

// A mark of the third form, which a rollback sets.

const NOTHING: End = (18, "", "liquibase: nothing to undo\n");

const FIRST_STEPS: [Step; 2] = [
    (UPDATE_MYSQL, ALL_RAN),
    ("tag --url=mysql:db --tag=v0", (0, "tagged v0\n", "")),
];

const SHOP_FILES: &[FileText] = &[SHOP];

const NOTHING_MORE: &[Step] = &[(UNDO_MYSQL, NOTHING)];

const ROLLBACK_COUNT: &str = "rollback-count --url=mysql:db --changelog-file=db/a.json --count=1";

#[test]
fn a_row_that_is_rolled_back_is_not_undone(rt: HostRuntime) {
    let first = play(&rt, rt.alloc(), SHOP_FILES, b"", &FIRST_STEPS);
    let stop = Stop {
        words: ROLLBACK_COUNT,
        files: SHOP_FILES,
        steps: NOTHING_MORE,
    };
    for calls in 8..20 {
        let left = assert_stop(&rt, rt.alloc(), &stop, calls, &first);
        let again = play(&rt, rt.alloc(), SHOP_FILES, &left, NOTHING_MORE);
        assert!(rt; again == left);
    }
}
