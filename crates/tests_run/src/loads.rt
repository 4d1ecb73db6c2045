use crate::running::{FileText, Step, play};
use crate::shop::{ALL_RAN, SHOP, UPDATE};

const LOADS: FileText = (
    "db/b.json",
    r#"{"databaseChangeLog":[{"changeSet":{"id":"1","author":"ann","changes":[
 {"loadData":{"tableName":"team","file":"team.csv","relativeToChangelogFile":true}}]}}]}"#,
);

// `name` is NOT NULL.
const WITH_NULL: FileText = ("db/team.csv", "id,name\n1,red\n2,NULL\n");

const TWO_TEAMS: FileText = (
    "db/team.csv",
    "id,name\n1,red\n2,\"o'neill, or \"\"x\"\"\"\n",
);

const EDITED: FileText = ("db/team.csv", "id,name\n1,red\n");

const LOAD: &str = "update --url=postgresql:db --changelog-file=db/b.json";

const REFUSED: [Step; 2] = [
    Step {
        words: UPDATE,
        code: 0,
        out: ALL_RAN,
        log: "",
    },
    Step {
        words: LOAD,
        code: 8,
        out: "update: 0 ran, 0 ran again, 0 marked, 0 skipped, 0 not fresh\n",
        log: "liquibase: refused at db/b.json::1::ann, statement 2, 0 kept: null found\n",
    },
];

const LOADED: [Step; 5] = [
    Step {
        words: "update-sql --url=postgresql:db --changelog-file=db/b.json",
        code: 0,
        out: "-- Changeset db/b.json::1::ann
INSERT INTO \"team\" (\"id\", \"name\") VALUES ('1', 'red');
INSERT INTO \"team\" (\"id\", \"name\") VALUES ('2', 'o''neill, or \"x\"');
",
        log: "",
    },
    Step {
        words: LOAD,
        code: 0,
        out: "ran db/b.json::1::ann\nupdate: 1 ran, 0 ran again, 0 marked, 0 skipped, 0 not fresh\n",
        log: "",
    },
    Step {
        words: LOAD,
        code: 0,
        out: "update: 0 ran, 0 ran again, 0 marked, 0 skipped, 0 not fresh\n",
        log: "",
    },
    Step {
        words: "rollback-count --url=postgresql:db --changelog-file=db/b.json --count=1",
        code: 10,
        out: "",
        log: "liquibase: no rollback for db/b.json::1::ann\n",
    },
    Step {
        words: UPDATE,
        code: 0,
        out: "update: 0 ran, 0 ran again, 0 marked, 0 skipped, 0 not fresh\n",
        log: "",
    },
];

const CHANGED: [Step; 1] = [Step {
    words: LOAD,
    code: 5,
    out: "",
    log: "liquibase: checksum of db/b.json::1::ann was P2:7bf2cefc4306131652d685ccfbf4bbfc, is P2:4a67fbe7a06ea00dbb151a08b03b08e6\n",
}];

// A null is refused, and nothing of the file is kept. Then the rows are there, once, and an edited file
// is told.
#[test]
fn rows_of_a_file_are_loaded(rt: HostRuntime) {
    let left = play(&rt, rt.alloc(), &[SHOP, LOADS, WITH_NULL], b"", &REFUSED);
    let left = play(
        &rt,
        rt.alloc(),
        &[SHOP, LOADS, TWO_TEAMS],
        left.as_slice(),
        &LOADED,
    );
    play(
        &rt,
        rt.alloc(),
        &[SHOP, LOADS, EDITED],
        left.as_slice(),
        &CHANGED,
    );
}

const UNEVEN: [FileText; 2] = [
    (
        "db/a.json",
        r#"{"databaseChangeLog":[{"changeSet":{"id":"1","author":"ann","changes":[
 {"loadData":{"tableName":"team","file":"db/team.csv"}}]}}]}"#,
    ),
    ("db/team.csv", "id,name\n1,red\n2,NULL,x\n"),
];

const NO_TABLE: [Step; 1] = [Step {
    words: UPDATE,
    code: 4,
    out: "",
    log: "liquibase: changelog fault: db/a.json: databaseChangeLog[0].changeSet.changes[0].loadData.file: bad\n",
}];

#[test]
fn an_uneven_file_is_bad(rt: HostRuntime) {
    play(&rt, rt.alloc(), &UNEVEN, b"", &NO_TABLE);
}
