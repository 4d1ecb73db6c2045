use crate::running::{End, Step, play};
use crate::shop::{
    ALL_RAN, BACK_TO_TAG_MYSQL, FIRST, FIRST_RAN, LAST_RAN, LOOK, LOOKED, NONE_RAN, RELEASE_MYSQL,
    SHOP, TWO_RAN, UPDATE_MYSQL,
};
use crate::stops::{FREE, HELD, Left, Lock, Stops, assert_stops};

// The lock held with a mark.
const FIRST_ONE: Lock = (
    Some((
        6,
        "",
        "liquibase: locked by ci since 1970-01-01 00:00:01.000\nliquibase: unrecorded: db/a.json::1::ann, statement 1\n",
    )),
    (
        0,
        "lock released: held by ci since 1970-01-01 00:00:01.000\nunrecorded: db/a.json::1::ann, statement 1\n",
        "",
    ),
);

const FIRST_TWO: Lock = (
    Some((
        6,
        "",
        "liquibase: locked by ci since 1970-01-01 00:00:01.000\nliquibase: unrecorded: db/a.json::1::ann, statement 2\n",
    )),
    (
        0,
        "lock released: held by ci since 1970-01-01 00:00:01.000\nunrecorded: db/a.json::1::ann, statement 2\n",
        "",
    ),
);

const SECOND_ONE: Lock = (
    Some((
        6,
        "",
        "liquibase: locked by ci since 1970-01-01 00:00:01.000\nliquibase: unrecorded: db/a.json::2::ann, statement 1\n",
    )),
    (
        0,
        "lock released: held by ci since 1970-01-01 00:00:01.000\nunrecorded: db/a.json::2::ann, statement 1\n",
        "",
    ),
);

const THIRD_ONE: Lock = (
    Some((
        6,
        "",
        "liquibase: locked by ci since 1970-01-01 00:00:01.000\nliquibase: unrecorded: db/a.json::3::bob, statement 1\n",
    )),
    (
        0,
        "lock released: held by ci since 1970-01-01 00:00:01.000\nunrecorded: db/a.json::3::bob, statement 1\n",
        "",
    ),
);

const THIRD_UNDO: Lock = (
    Some((
        6,
        "",
        "liquibase: locked by ci since 1970-01-01 00:00:01.000\nliquibase: unrecorded: db/a.json::3::bob, undo statement 1\n",
    )),
    (
        0,
        "lock released: held by ci since 1970-01-01 00:00:01.000\nunrecorded: db/a.json::3::bob, undo statement 1\n",
        "",
    ),
);

const SECOND_UNDO: Lock = (
    Some((
        6,
        "",
        "liquibase: locked by ci since 1970-01-01 00:00:01.000\nliquibase: unrecorded: db/a.json::2::ann, undo statement 1\n",
    )),
    (
        0,
        "lock released: held by ci since 1970-01-01 00:00:01.000\nunrecorded: db/a.json::2::ann, undo statement 1\n",
        "",
    ),
);

const FIRST_THERE: End = (
    8,
    "update: 0 ran, 0 ran again, 0 marked, 0 skipped, 0 not fresh\n",
    "liquibase: refused at db/a.json::1::ann, statement 1, 0 kept: exists\n",
);

const SECOND_THERE: End = (
    8,
    "update: 0 ran, 0 ran again, 0 marked, 0 skipped, 0 not fresh\n",
    "liquibase: refused at db/a.json::2::ann, statement 1, 0 kept: exists\n",
);

const THIRD_THERE: End = (
    8,
    "update: 0 ran, 0 ran again, 0 marked, 0 skipped, 0 not fresh\n",
    "liquibase: refused at db/a.json::3::bob, statement 1, 0 kept: exists\n",
);

const THIRD_GONE: End = (
    8,
    "rollback: 0 rolled back\n",
    "liquibase: refused at db/a.json::3::bob, statement 1, 0 kept: missing\n",
);

const SECOND_GONE: End = (
    8,
    "rollback: 0 rolled back\n",
    "liquibase: refused at db/a.json::2::ann, statement 1, 0 kept: missing\n",
);

const BOTH_BACK: End = (
    0,
    "rolled back db/a.json::3::bob\nrolled back db/a.json::2::ann\nrollback: 2 rolled back\n",
    "",
);

const ONE_BACK: End = (
    0,
    "rolled back db/a.json::2::ann\nrollback: 1 rolled back\n",
    "",
);

const NONE_BACK: End = (0, "rollback: 0 rolled back\n", "");

// The entries: each tracking table; the lock; for each statement its mark and the statement; each row.
const UPDATE_LEFT: &[Left] = &[
    (FREE, ALL_RAN),
    (FREE, ALL_RAN),
    (FREE, ALL_RAN),
    (HELD, ALL_RAN),
    (FIRST_ONE, ALL_RAN),
    (FIRST_ONE, FIRST_THERE),
    (FIRST_TWO, FIRST_THERE),
    (FIRST_TWO, FIRST_THERE),
    (HELD, TWO_RAN),
    (SECOND_ONE, TWO_RAN),
    (SECOND_ONE, SECOND_THERE),
    (HELD, LAST_RAN),
    (THIRD_ONE, LAST_RAN),
    (THIRD_ONE, THIRD_THERE),
    (HELD, NONE_RAN),
    (FREE, NONE_RAN),
];

const UPDATED: &[Step] = &[
    (
        "status --url=mysql:db --changelog-file=db/a.json",
        (0, "pending: 0\n", ""),
    ),
    (
        "update-sql --url=mysql:db --changelog-file=db/look.json",
        LOOKED,
    ),
    (
        "rollback-count --url=mysql:db --changelog-file=db/a.json --count=3",
        (
            0,
            "rolled back db/a.json::3::bob\nrolled back db/a.json::2::ann\nrolled back db/a.json::1::ann\nrollback: 3 rolled back\n",
            "",
        ),
    ),
];

const UPDATE_STOPS: Stops = Stops {
    words: UPDATE_MYSQL,
    release: RELEASE_MYSQL,
    files: &[SHOP, LOOK],
    // sync, size, read; header, sync; two writes and two syncs for each entry.
    before: 5,
    calls: 65,
    left: UPDATE_LEFT,
    after: UPDATED,
};

#[test]
fn an_update_that_commits_each_statement_tells_its_mark(rt: HostRuntime) {
    assert_stops(&rt, rt.alloc(), &UPDATE_STOPS, b"");
}

const TAGGED: &[Step] = &[
    (UPDATE_MYSQL, FIRST_RAN),
    ("tag --url=mysql:db --tag=v1", (0, "tagged v1\n", "")),
];

// The entries: the lock; for each row its statement's mark, the statement and the row; the lock freed.
const BACK_LEFT: &[Left] = &[
    (FREE, BOTH_BACK),
    (HELD, BOTH_BACK),
    (THIRD_UNDO, BOTH_BACK),
    (THIRD_UNDO, THIRD_GONE),
    (HELD, ONE_BACK),
    (SECOND_UNDO, ONE_BACK),
    (SECOND_UNDO, SECOND_GONE),
    (HELD, NONE_BACK),
    (FREE, NONE_BACK),
];

const GONE_BACK: &[Step] = &[
    (
        "status --url=mysql:db --changelog-file=db/a.json",
        (0, "pending: 2\ndb/a.json::2::ann\ndb/a.json::3::bob\n", ""),
    ),
    (UPDATE_MYSQL, TWO_RAN),
];

const BACK_STOPS: Stops = Stops {
    words: BACK_TO_TAG_MYSQL,
    release: RELEASE_MYSQL,
    files: &[SHOP],
    // sync, size, read; two writes and two syncs for each entry.
    before: 3,
    calls: 35,
    left: BACK_LEFT,
    after: GONE_BACK,
};

#[test]
fn a_rollback_that_commits_each_statement_tells_its_mark(rt: HostRuntime) {
    let tagged = play(&rt, rt.alloc(), &[FIRST], b"", TAGGED);
    let update = [(UPDATE_MYSQL, TWO_RAN)];
    let updated = play(&rt, rt.alloc(), &[SHOP], &tagged, &update);
    assert_stops(&rt, rt.alloc(), &BACK_STOPS, &updated);
}
