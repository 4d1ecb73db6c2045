use crate::running::{
    By, FileText, NONE, Ran, Step, assert_step, files_of, play, run_by, run_over,
};
use crate::shop::{BACK_ONE, DRILL, DRILL_MYSQL, RELEASE, SHOP, STATUS, UPDATE, UPDATE_MYSQL};
use std::alloc::Global;
use std::process::Abort;

const NONE_PENDING: &str = "pending: 0\n";

const ALL_PENDING: &str = "pending: 3\ndb/a.json::1::ann\ndb/a.json::2::ann\ndb/a.json::3::bob\n";

const FREE: &str = "lock free\n";

const FIRST_HOLDS: &str = "lock released: held by ci#1 since 1970-01-01 00:00:01.000\n";

/// The file of a drill on an empty database, what the drill tells, and then `status` and
/// `release-locks`.
#[derive(Clone, Copy)]
struct Row {
    runs: &'static str,
    told: &'static str,
    pending: &'static str,
    lock: &'static str,
}

/// The three commands of a row in a dialect.
#[derive(Clone, Copy)]
struct Words {
    drill: &'static str,
    status: &'static str,
    release: &'static str,
}

const POSTGRESQL: Words = Words {
    drill: DRILL,
    status: STATUS,
    release: RELEASE,
};

const MYSQL: Words = Words {
    drill: DRILL_MYSQL,
    status: "status --url=mysql:db --changelog-file=db/a.json",
    release: "release-locks --url=mysql:db",
};

fn done(words: &'static str, out: &'static str) -> Step {
    Step {
        words,
        code: 0,
        out,
        log: "",
    }
}

fn assert_row(rt: &impl Abort, alloc: Global, words: Words, row: Row) {
    let steps = [
        done(words.drill, row.told),
        done(words.status, row.pending),
        done(words.release, row.lock),
    ];
    let _left = play(rt, alloc, &[SHOP, ("runs", row.runs)], b"", &steps);
}

fn assert_rows(rt: &impl Abort, alloc: Global, words: Words, rows: &[Row]) {
    for row in rows {
        assert_row(rt, alloc, words, *row);
    }
}

// An update of the three changesets takes fifteen steps.
const TWO_UPDATES: [Row; 5] = [
    Row {
        runs: "update --changelog-file=db/a.json
update --changelog-file=db/a.json
steps
1 2 1 1 1 1 1 1 1 1 1 1 1 1 1 1
",
        told: "1 update: status 0\n2 update: status 6\n",
        pending: NONE_PENDING,
        lock: FREE,
    },
    Row {
        runs: "update --changelog-file=db/a.json
update --changelog-file=db/a.json
steps
1 1 1 1 1 1 1 1 1 1 1 1 1 1 1
2",
        told: "1 update: status 0\n2 update: status 0\n",
        pending: NONE_PENDING,
        lock: FREE,
    },
    // The first has a transaction open, which is taken back at the end.
    Row {
        runs: "update --changelog-file=db/a.json
update --changelog-file=db/a.json
steps
1 1",
        told: "1 update: unfinished\n2 update: unfinished\n",
        pending: ALL_PENDING,
        lock: FIRST_HOLDS,
    },
    // The second begins, with its own reading of the clock.
    Row {
        runs: "update --changelog-file=db/a.json
update --changelog-file=db/a.json
steps
2 1
",
        told: "1 update: status 6\n2 update: unfinished\n",
        pending: ALL_PENDING,
        lock: "lock released: held by ci#2 since 1970-01-01 00:00:02.000\n",
    },
    Row {
        runs: "update --changelog-file=db/a.json
update --changelog-file=db/a.json
steps
",
        told: "1 update: unfinished\n2 update: unfinished\n",
        pending: ALL_PENDING,
        lock: FREE,
    },
];

const OTHERS: [Row; 5] = [
    Row {
        runs: "update --changelog-file=db/a.json
update --changelog-file=db/a.json
release-locks
steps
1 1 3
",
        told: "1 update: unfinished\n2 update: unfinished\n3 release-locks: status 16\n",
        pending: ALL_PENDING,
        lock: FIRST_HOLDS,
    },
    Row {
        runs: "update --changelog-file=db/a.json
tag --tag=v1
steps
1 2 1 1 1 1 1 1 1 1 1 1 1 1 1 1
",
        told: "1 update: status 0\n2 tag: status 6\n",
        pending: NONE_PENDING,
        lock: FREE,
    },
    // The lock is gone when the first looks at it again.
    Row {
        runs: "update --changelog-file=db/a.json
release-locks
steps
1 2 1
",
        told: "1 update: status 6\n2 release-locks: status 0\n",
        pending: ALL_PENDING,
        lock: FREE,
    },
    // Another one takes it in between.
    Row {
        runs: "update --changelog-file=db/a.json
release-locks
update --changelog-file=db/a.json
steps
1 2 3 1
",
        told: "1 update: status 6\n2 release-locks: status 0\n3 update: unfinished\n",
        pending: ALL_PENDING,
        lock: "lock released: held by ci#3 since 1970-01-01 00:00:03.000\n",
    },
    // One changeset is committed, and the second is begun.
    Row {
        runs: "update --changelog-file=db/a.json
status --changelog-file=db/a.json
validate --changelog-file=db/a.json
steps
1 1 1 1 1 1
2 1 3",
        told: "1 update: unfinished\n2 status: status 0\n3 validate: status 16\n",
        pending: "pending: 2\ndb/a.json::2::ann\ndb/a.json::3::bob\n",
        lock: FIRST_HOLDS,
    },
];

#[test]
fn one_update_of_two_runs(rt: HostRuntime) {
    assert_rows(&rt, rt.alloc(), POSTGRESQL, &TWO_UPDATES);
}

#[test]
fn commands_run_beside_an_update(rt: HostRuntime) {
    assert_rows(&rt, rt.alloc(), POSTGRESQL, &OTHERS);
}

// Under mysql it takes twenty-two. Before each statement of definitions the lock gets a note.
const IN_MYSQL: [Row; 5] = [
    Row {
        runs: "update --changelog-file=db/a.json
update --changelog-file=db/a.json
steps
1 2 1 1 1 1 1 1 1 1 1 1 1 1 1 1 1 1 1 1 1 1 1
",
        told: "1 update: status 0\n2 update: status 6\n",
        pending: NONE_PENDING,
        lock: FREE,
    },
    Row {
        runs: "update --changelog-file=db/a.json
update --changelog-file=db/a.json
steps
1 1 1 1 1 1 1 1 1 1 1 1 1 1 1 1 1 1 1 1 1 1
2
",
        told: "1 update: status 0\n2 update: status 0\n",
        pending: NONE_PENDING,
        lock: FREE,
    },
    Row {
        runs: "update --changelog-file=db/a.json
tag --tag=v1
steps
1 1 1 1
2 1
",
        told: "1 update: unfinished\n2 tag: status 6\n",
        pending: ALL_PENDING,
        lock: "lock released: held by ci#1 since 1970-01-01 00:00:01.000
unrecorded: db/a.json::1::ann, statement 1
",
    },
    Row {
        runs: "update --changelog-file=db/a.json
release-locks
steps
1 2 1
",
        told: "1 update: status 6\n2 release-locks: status 0\n",
        pending: ALL_PENDING,
        lock: FREE,
    },
    Row {
        runs: "update --changelog-file=db/a.json
update --changelog-file=db/a.json
release-locks
steps
1 1 3
",
        told: "1 update: unfinished\n2 update: unfinished\n3 release-locks: status 16\n",
        pending: ALL_PENDING,
        lock: FIRST_HOLDS,
    },
];

#[test]
fn commands_run_beside_others_in_mysql(rt: HostRuntime) {
    assert_rows(&rt, rt.alloc(), MYSQL, &IN_MYSQL);
}

const TWICE: FileText = (
    "db/twice.json",
    r#"{"databaseChangeLog":[
{"changeSet":{"id":"1","author":"ann","changes":[]}},
{"changeSet":{"id":"1","author":"ann","changes":[]}}]}"#,
);

const HALTS: FileText = (
    "db/halts.json",
    r#"{"databaseChangeLog":[
{"changeSet":{"id":"1","author":"ann","preConditions":[{"tableExists":{"tableName":"u"}}],"changes":[]}}]}"#,
);

const CLASHES: FileText = (
    "db/clashes.json",
    r#"{"databaseChangeLog":[
{"changeSet":{"id":"1","author":"ann","changes":[
 {"createTable":{"tableName":"team","columns":[{"column":{"name":"a","type":"int"}}]}}]}}]}"#,
);

const EMPTY: FileText = ("db/empty.json", r#"{"databaseChangeLog":[]}"#);

// A command that has answered takes no more steps.
const ALL_COMMANDS: FileText = (
    "runs",
    "update --changelog-file=db/a.json
tag --tag=v1
validate --changelog-file=db/twice.json
rollback-count --changelog-file=db/empty.json --count=1
rollback --changelog-file=db/a.json --tag=v2
update --changelog-file=db/halts.json
update --changelog-file=db/clashes.json
status --changelog-file=db/a.json
rollback-to-date --changelog-file=db/a.json --date=1970-01-01T00:00:00.999
changelog-sync --changelog-file=db/a.json --context-filter=dev
rollback-count --changelog-file=db/a.json --count=0
release-locks
steps
1 1 1 1 1 1 1 1 1 1 1 1 1 1 1 1 1 1 1 1
2 3 4 5
6 6 6 6 6 6 6 6
7 7 7 7 7 7 7 7
8
9 9 9 9 9 9 9 9 9 9 9 9 9 9 9 9 9 9 9 9
10 10 10 10 10 10 10 10
11 11
12
",
);

const ALL_TOLD: &str = "1 update: status 0
2 tag: status 0
3 validate: status 5
4 rollback-count: status 10
5 rollback: status 9
6 update: status 7
7 update: status 8
8 status: status 0
9 rollback-to-date: status 0
10 changelog-sync: status 0
11 rollback-count: status 0
12 release-locks: status 0
";

#[test]
fn each_command_has_its_status(rt: HostRuntime) {
    let files = [SHOP, TWICE, HALTS, CLASHES, EMPTY, ALL_COMMANDS];
    let steps = [
        done(DRILL, ALL_TOLD),
        done(STATUS, NONE_PENDING),
        done(RELEASE, FREE),
    ];
    let _left = play(&rt, rt.alloc(), &files, b"", &steps);
}

const IN_TURN: FileText = (
    "runs",
    "update --changelog-file=db/a.json
tag --tag=v1
rollback-count --changelog-file=db/a.json --count=1
update --changelog-file=db/a.json
steps
1 1 1 1 1 1 1 1 1 1 1 1 1 1 1 1 1 1 1 1 1 1 1 1
2
3 3 3 3 3 3 3 3 3 3 3 3
4 4 4 4 4 4 4 4 4 4 4 4
",
);

const ALL_DONE: &str =
    "1 update: status 0\n2 tag: status 0\n3 rollback-count: status 0\n4 update: status 0\n";

/// Commands of a drill that are run one by one.
type Alone = [(By, &'static str); 4];

const FIRST: By = By {
    who: "ci#1",
    reading: 1000,
};

const SECOND: By = By {
    who: "ci#2",
    reading: 2000,
};

const THIRD: By = By {
    who: "ci#3",
    reading: 3000,
};

const FOURTH: By = By {
    who: "ci#4",
    reading: 3000,
};

const ALONE: Alone = [
    (FIRST, UPDATE),
    (SECOND, "tag --url=postgresql:db --tag=v1"),
    (THIRD, BACK_ONE),
    (FOURTH, UPDATE),
];

const ALONE_IN_MYSQL: Alone = [
    (FIRST, UPDATE_MYSQL),
    (SECOND, "tag --url=mysql:db --tag=v1"),
    (
        THIRD,
        "rollback-count --url=mysql:db --changelog-file=db/a.json --count=1",
    ),
    (FOURTH, UPDATE_MYSQL),
];

fn alone(rt: &impl Abort, alloc: Global, commands: Alone) -> Vec<u8> {
    let mut bytes = Vec::new(alloc);
    for (by, words) in commands {
        let files = files_of(rt, alloc, &[SHOP], 0);
        let ran = run_by(rt, alloc, by, words, files, &bytes, NONE);
        assert_eq!(rt; ran.code, 0);
        bytes = ran.bytes;
    }
    bytes
}

fn assert_same(rt: &impl Abort, alloc: Global, drill: &'static str, commands: Alone) {
    let drilled = play(rt, alloc, &[SHOP, IN_TURN], b"", &[done(drill, ALL_DONE)]);
    let one_by_one = alone(rt, alloc, commands);
    assert!(rt; drilled == one_by_one);
}

#[test]
fn one_after_the_other_is_as_alone(rt: HostRuntime) {
    assert_same(&rt, rt.alloc(), DRILL, ALONE);
    assert_same(&rt, rt.alloc(), DRILL_MYSQL, ALONE_IN_MYSQL);
}

const ONE_STEP: FileText = ("runs", "update --changelog-file=db/a.json\nsteps\n1\n");

const BAR: By = By {
    who: "c|i\n",
    reading: 1000,
};

fn begun(rt: &impl Abort, alloc: Global) -> Ran {
    let files = files_of(rt, alloc, &[SHOP, ONE_STEP], 0);
    run_by(rt, alloc, BAR, DRILL, files, b"", NONE)
}

#[test]
fn a_name_has_no_bar_and_no_control_character(rt: HostRuntime) {
    let ran = begun(&rt, rt.alloc());
    assert_step(&rt, done(DRILL, "1 update: unfinished\n"), &ran);
    let held = run_over(&rt, rt.alloc(), RELEASE, &[], &ran.bytes, NONE);
    let lock = "lock released: held by c_i_#1 since 1970-01-01 00:00:01.000\n";
    assert_step(&rt, done(RELEASE, lock), &held);
}
