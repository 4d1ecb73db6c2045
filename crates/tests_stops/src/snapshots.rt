use crate::running::{End, Step, play};
use crate::shop::{
    ALL_RAN, LOOK, LOOKED, RELEASE, RELEASE_MYSQL, SHOP, STATUS, UPDATE, UPDATE_MYSQL,
};
use crate::stops::{FREE, Left, Stops, assert_stops};

const SNAPSHOT: &str = "snapshot --url=postgresql:db";

const SNAPSHOT_MYSQL: &str = "snapshot --url=mysql:db";

const NOT_NEEDED: End = (0, "snapshot not needed\n", "");

// One entry: the state is not there, or it is, and then a second snapshot finds nothing to do.
const LEFT: &[Left] = &[
    (FREE, (0, "snapshot written: 2711 bytes\n", "")),
    (FREE, NOT_NEEDED),
];

const LEFT_MYSQL: &[Left] = &[
    (FREE, (0, "snapshot written: 2692 bytes\n", "")),
    (FREE, NOT_NEEDED),
];

const NONE_PENDING: End = (0, "pending: 0\n", "");

const SAME: &[Step] = &[
    (STATUS, NONE_PENDING),
    (
        "update-sql --url=postgresql:db --changelog-file=db/look.json",
        LOOKED,
    ),
    (SNAPSHOT, NOT_NEEDED),
];

const SAME_MYSQL: &[Step] = &[
    (
        "status --url=mysql:db --changelog-file=db/a.json",
        NONE_PENDING,
    ),
    (
        "update-sql --url=mysql:db --changelog-file=db/look.json",
        LOOKED,
    ),
    (SNAPSHOT_MYSQL, NOT_NEEDED),
];

#[test]
fn a_stopped_snapshot_leaves_the_same_database(rt: HostRuntime) {
    let first = play(&rt, rt.alloc(), &[SHOP], b"", &[(UPDATE, ALL_RAN)]);
    // sync, size, read; two writes and two syncs.
    let stops = Stops {
        words: SNAPSHOT,
        release: RELEASE,
        files: &[SHOP, LOOK],
        before: 3,
        calls: 7,
        left: LEFT,
        after: SAME,
    };
    assert_stops(&rt, rt.alloc(), &stops, &first);
}

#[test]
fn a_stopped_snapshot_leaves_the_same_database_in_mysql(rt: HostRuntime) {
    let first = play(&rt, rt.alloc(), &[SHOP], b"", &[(UPDATE_MYSQL, ALL_RAN)]);
    let stops = Stops {
        words: SNAPSHOT_MYSQL,
        release: RELEASE_MYSQL,
        files: &[SHOP, LOOK],
        before: 3,
        calls: 7,
        left: LEFT_MYSQL,
        after: SAME_MYSQL,
    };
    assert_stops(&rt, rt.alloc(), &stops, &first);
}
