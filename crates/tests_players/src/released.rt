use crate::rows::{Row, assert_both, assert_rows};
use lq_base::Dialect;

const BOTH: [Row; 5] = [
    (
        ("update/update/release-locks", "1 1 3"),
        "1 unfinished, 2 unfinished, 3 busy 1",
        ("update", "1"),
    ),
    (
        ("update/release-locks", "1 2 1"),
        "1 lock free, 2 done",
        ("update/release-locks", "1 2"),
    ),
    (
        ("update/release-locks/update", "1 2 3 1 3*40"),
        "1 locked by cat, 2 done, 3 done",
        ("update/release-locks/update", "1 2 3*40"),
    ),
    // A free lock is left as it is.
    (
        ("release-locks/release-locks", "1 2"),
        "1 done, 2 done",
        ("validate", "1"),
    ),
    (
        ("update/release-locks", "1*40 2"),
        "1 done, 2 done",
        ("update", "1*40"),
    ),
];

#[test]
fn a_lock_is_released_where_nothing_is_open(rt: HostRuntime) {
    assert_both(&rt, rt.alloc(), &BOTH)
}

// Between two transactions: what the update has written stays.
const POSTGRESQL: [Row; 8] = [
    (
        ("update/release-locks", "1*6 2 1*9"),
        "1 lock free, 2 done",
        ("update first", "1*7"),
    ),
    (
        ("update/release-locks/update", "1*6 2 3 1 3*9"),
        "1 locked by cat, 2 done, 3 done",
        ("update first/validate/update", "1*7 3*10"),
    ),
    (
        ("update/release-locks/changelog-sync", "1*6 2 3*6 1"),
        "1 lock free, 2 done, 3 done",
        ("update first/validate/changelog-sync", "1*7 3*6"),
    ),
    (
        ("update/release-locks/tag v1", "1*6 2 3 1"),
        "1 lock free, 2 done, 3 done",
        ("update first/validate/tag v1", "1*7 3"),
    ),
    // Inside one it waits for nothing, and frees nothing.
    (
        ("update/release-locks", "1*2 2 1*13"),
        "1 done, 2 busy 1",
        ("update", "1*15"),
    ),
    (
        ("update/release-locks", "1*5 2 1*10"),
        "1 done, 2 busy 1",
        ("update", "1*15"),
    ),
    // Before the last step nothing is open.
    (
        ("update/release-locks", "1*14 2 1"),
        "1 lock free, 2 done",
        ("update", "1*15"),
    ),
    (
        ("update/release-locks/update", "1*14 2 3 1"),
        "1 lock free, 2 done, 3 done",
        ("update", "1*15"),
    ),
];

#[test]
fn an_update_that_lost_its_lock_stops(rt: HostRuntime) {
    assert_rows(&rt, rt.alloc(), Dialect::Postgresql, &POSTGRESQL)
}

const MYSQL: [Row; 5] = [
    (
        ("update/release-locks", "1*9 2 1*13"),
        "1 lock free, 2 done",
        ("update first", "1*10"),
    ),
    (
        ("update/release-locks/update", "1*9 2 3 1 3*40"),
        "1 locked by cat, 2 done, 3 done",
        ("update first/validate/update", "1*10 3*40"),
    ),
    // A statement of definitions commits, and the transaction stays open.
    (
        ("update/release-locks", "1*4 2 1*18"),
        "1 done, 2 busy 1",
        ("update", "1*22"),
    ),
    (
        ("update/release-locks", "1*8 2 1*14"),
        "1 done, 2 busy 1",
        ("update", "1*22"),
    ),
    (
        ("update/release-locks", "1*21 2 1"),
        "1 lock free, 2 done",
        ("update", "1*22"),
    ),
];

#[test]
fn so_it_does_where_each_statement_is_noted(rt: HostRuntime) {
    assert_rows(&rt, rt.alloc(), Dialect::Mysql, &MYSQL)
}
