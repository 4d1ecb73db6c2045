use crate::running::{End, Step, play};
use crate::shop::{
    ALL_RAN, BACK_TO_TAG, FIRST, FIRST_RAN, LAST_RAN, LOOK, LOOKED, NONE_RAN, RELEASE, SHOP,
    STATUS, TWO_RAN, UPDATE,
};
use crate::stops::{FREE, HELD, Left, Stops, assert_stops};

// The entries: the tracking tables with the lock, one for each changeset, and the lock freed.
const UPDATE_LEFT: &[Left] = &[
    (FREE, ALL_RAN),
    (HELD, ALL_RAN),
    (HELD, TWO_RAN),
    (HELD, LAST_RAN),
    (HELD, NONE_RAN),
    (FREE, NONE_RAN),
];

const UPDATED: &[Step] = &[
    (STATUS, (0, "pending: 0\n", "")),
    (
        "update-sql --url=postgresql:db --changelog-file=db/look.json",
        LOOKED,
    ),
    (
        "rollback-count --url=postgresql:db --changelog-file=db/a.json --count=3",
        (
            0,
            "rolled back db/a.json::3::bob\nrolled back db/a.json::2::ann\nrolled back db/a.json::1::ann\nrollback: 3 rolled back\n",
            "",
        ),
    ),
];

const UPDATE_STOPS: Stops = Stops {
    words: UPDATE,
    release: RELEASE,
    files: &[SHOP, LOOK],
    // sync, size, read; header, sync; two writes and two syncs for each entry.
    before: 5,
    calls: 25,
    left: UPDATE_LEFT,
    after: UPDATED,
};

#[test]
fn an_update_goes_on_after_a_stop_at_any_call(rt: HostRuntime) {
    assert_stops(&rt, rt.alloc(), &UPDATE_STOPS, b"");
}

const TAGGED: &[Step] = &[
    (UPDATE, FIRST_RAN),
    ("tag --url=postgresql:db --tag=v1", (0, "tagged v1\n", "")),
];

const BOTH_BACK: End = (
    0,
    "rolled back db/a.json::3::bob\nrolled back db/a.json::2::ann\nrollback: 2 rolled back\n",
    "",
);

const ONE_BACK: End = (
    0,
    "rolled back db/a.json::2::ann\nrollback: 1 rolled back\n",
    "",
);

const NONE_BACK: End = (0, "rollback: 0 rolled back\n", "");

// The entries: the lock, one for each row that is undone, and the lock freed.
const BACK_LEFT: &[Left] = &[
    (FREE, BOTH_BACK),
    (HELD, BOTH_BACK),
    (HELD, ONE_BACK),
    (HELD, NONE_BACK),
    (FREE, NONE_BACK),
];

const GONE_BACK: &[Step] = &[
    (
        STATUS,
        (0, "pending: 2\ndb/a.json::2::ann\ndb/a.json::3::bob\n", ""),
    ),
    (UPDATE, TWO_RAN),
];

const BACK_STOPS: Stops = Stops {
    words: BACK_TO_TAG,
    release: RELEASE,
    files: &[SHOP],
    // sync, size, read; two writes and two syncs for each entry.
    before: 3,
    calls: 19,
    left: BACK_LEFT,
    after: GONE_BACK,
};

#[test]
fn a_rollback_goes_on_after_a_stop_at_any_call(rt: HostRuntime) {
    let tagged = play(&rt, rt.alloc(), &[FIRST], b"", TAGGED);
    let updated = play(&rt, rt.alloc(), &[SHOP], &tagged, &[(UPDATE, TWO_RAN)]);
    assert_stops(&rt, rt.alloc(), &BACK_STOPS, &updated);
}
