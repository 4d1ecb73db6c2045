use crate::rows::{Row, assert_both, assert_rows};
use lq_base::Dialect;

const TAGS: [Row; 4] = [
    (
        ("update/tag v1", "1 2 1*40"),
        "1 done, 2 locked by ann",
        ("update", "1*40"),
    ),
    (
        ("update/tag v1", "2 1*40"),
        "1 done, 2 no target",
        ("update", "1*40"),
    ),
    (
        ("update first/tag v1/update", "1*40 3 2 3*40"),
        "1 done, 2 locked by cat, 3 done",
        ("update first/validate/update", "1*40 3*40"),
    ),
    // A tag names the row that is the last at its step.
    (
        ("update first/tag v1/update/rollback v1", "1*40 2 3*40 4*40"),
        "1 done, 2 done, 3 done, 4 done",
        (
            "update first/tag v1/update/rollback-count 2",
            "1*40 2 3*40 4*40",
        ),
    ),
];

#[test]
fn a_tag_waits_for_the_lock(rt: HostRuntime) {
    assert_both(&rt, rt.alloc(), &TAGS)
}

const ROLLBACKS: [Row; 7] = [
    (
        ("update/rollback-count 1", "1 2 1*40"),
        "1 done, 2 locked by ann",
        ("update", "1*40"),
    ),
    (
        ("update/rollback-count 1", "2 1*40"),
        "1 done, 2 done",
        ("update", "1*40"),
    ),
    (
        ("update/rollback-count 1/update", "1*40 2 3 2*40"),
        "1 done, 2 done, 3 locked by bob",
        ("update/rollback-count 1", "1*40 2*40"),
    ),
    // What was taken back runs again.
    (
        (
            "update/rollback-count 1/update/rollback-count 3",
            "1*40 2*40 3 4 3*40",
        ),
        "1 done, 2 done, 3 done, 4 locked by cat",
        ("update/rollback-count 1/update", "1*40 2*40 3*40"),
    ),
    // It goes back to what was there before the later reading.
    (
        (
            "update first/validate/update/rollback-to-date 2500",
            "1*40 3*40 4 2 4*40",
        ),
        "1 done, 2 done, 3 done, 4 done",
        (
            "update first/validate/update/rollback-count 2",
            "1*40 3*40 4*40",
        ),
    ),
    (
        ("update/rollback v1/tag v1", "1*40 2 3 2*40"),
        "1 done, 2 no target, 3 done",
        ("update/validate/tag v1", "1*40 3"),
    ),
    (
        ("update/rollback-count 1/release-locks", "1*40 2 3 2"),
        "1 done, 2 lock free, 3 done",
        ("update/rollback-count 1/release-locks", "1*40 2 3"),
    ),
];

#[test]
fn a_rollback_follows_an_update(rt: HostRuntime) {
    assert_both(&rt, rt.alloc(), &ROLLBACKS)
}

// A rollback of two changesets loses its lock between them. Then the first is taken back.
#[test]
fn a_rollback_that_lost_its_lock_stops(rt: HostRuntime) {
    let row: Row = (
        ("update/rollback-count 2/release-locks", "1*15 2*5 3 2"),
        "1 done, 2 lock free, 3 done",
        ("update/rollback-count 1", "1*15 2*6"),
    );
    assert_rows(&rt, rt.alloc(), Dialect::Postgresql, &[row])
}

// What is refused is taken back, and the lock is freed.
const REFUSED: [Row; 3] = [
    (
        ("update clash/update", "1*4 2 1*2"),
        "1 refused at 2 with 0 kept, 2 locked by ann",
        ("update/release-locks", "1 2"),
    ),
    (
        ("update clash/release-locks", "1*3 2 1*3"),
        "1 refused at 2 with 0 kept, 2 busy 1",
        ("update/release-locks", "1 2"),
    ),
    (
        ("update clash/update", "1*6 2*15"),
        "1 refused at 2 with 0 kept, 2 done",
        ("update/update/release-locks", "1 3 2*15"),
    ),
];

#[test]
fn an_update_follows_one_that_is_refused(rt: HostRuntime) {
    assert_rows(&rt, rt.alloc(), Dialect::Postgresql, &REFUSED)
}

// Under mysql the first table stays.
#[test]
fn what_was_committed_before_a_refusal_stays(rt: HostRuntime) {
    let row: Row = (
        ("update clash/update/validate", "1*40 2*40"),
        "1 refused at 2 with 1 kept, 2 refused at 1 with 0 kept, 3 unfinished",
        ("update clash/update/validate", "1*40 2*40 3"),
    );
    assert_rows(&rt, rt.alloc(), Dialect::Mysql, &[row])
}

const SYNCS: [Row; 5] = [
    (
        ("changelog-sync/update", "1 2 1*40"),
        "1 done, 2 locked by ann",
        ("changelog-sync", "1*40"),
    ),
    (
        ("changelog-sync/update", "1*7 2"),
        "1 done, 2 done",
        ("changelog-sync", "1*7"),
    ),
    (
        ("update/changelog-sync", "1 2 1*40"),
        "1 done, 2 locked by ann",
        ("update", "1*40"),
    ),
    (
        ("update/changelog-sync", "1*40 2"),
        "1 done, 2 done",
        ("update", "1*40"),
    ),
    // Its rows are one transaction.
    (
        ("changelog-sync/release-locks", "1*5 2"),
        "1 unfinished, 2 busy 1",
        ("changelog-sync", "1"),
    ),
];

#[test]
fn a_sync_has_the_lock(rt: HostRuntime) {
    assert_both(&rt, rt.alloc(), &SYNCS)
}

const LOOKS: [Row; 4] = [
    (
        ("update/status/validate", "1 2 3 1*40"),
        "1 done, 2 done, 3 done",
        ("update", "1*40"),
    ),
    (
        ("update/status/validate", "1 1 2 3 1*40"),
        "1 done, 2 busy 1, 3 busy 1",
        ("update", "1*40"),
    ),
    (
        ("update/status/validate", "1*40 2 3"),
        "1 done, 2 done, 3 done",
        ("update", "1*40"),
    ),
    (
        ("status/validate", "1 2 1 2"),
        "1 done, 2 done",
        ("update", ""),
    ),
];

#[test]
fn what_only_looks_answers_at_once(rt: HostRuntime) {
    assert_both(&rt, rt.alloc(), &LOOKS)
}
