use crate::rows::{Row, assert_both, assert_rows};
use lq_base::Dialect;

// An update of three changesets takes 15 steps under postgresql: it takes the lock, makes five, four and
// four calls in three transactions, their beginnings and commits among them, and frees the lock.
const POSTGRESQL: [Row; 6] = [
    (
        ("update/update", "1 2 1*14"),
        "1 done, 2 locked by ann",
        ("update/update", "1*15"),
    ),
    (
        ("update/update", "1*15 2"),
        "1 done, 2 done",
        ("update/update", "1*15"),
    ),
    (
        ("update/update", "1*14 2"),
        "1 unfinished, 2 locked by ann",
        ("update/update", "1*14"),
    ),
    // What is open at the end is taken back.
    (
        ("update/update", "1 1"),
        "1 unfinished, 2 unfinished",
        ("update/update", "1"),
    ),
    (
        ("update/update", "1*5"),
        "1 unfinished, 2 unfinished",
        ("update/update", "1"),
    ),
    (
        ("update/update", "1*9"),
        "1 unfinished, 2 unfinished",
        ("update/update", "1*6"),
    ),
];

#[test]
fn one_update_of_two_runs(rt: HostRuntime) {
    assert_rows(&rt, rt.alloc(), Dialect::Postgresql, &POSTGRESQL)
}

// Under mysql it takes 22: before each statement it notes the statement in the lock, and before each
// commit it clears the note. A statement of definitions commits what is open, and then itself.
const MYSQL: [Row; 7] = [
    (
        ("update/update", "1 2 1*21"),
        "1 done, 2 locked by ann",
        ("update/update", "1*22"),
    ),
    (
        ("update/update", "1*22 2"),
        "1 done, 2 done",
        ("update/update", "1*22"),
    ),
    (
        ("update/update", "1*21 2"),
        "1 unfinished, 2 locked by ann",
        ("update/update", "1*21"),
    ),
    (
        ("update/update", "1 1 1 2"),
        "1 unfinished, 2 locked by ann",
        ("update/update", "1"),
    ),
    (
        ("update/update", "1*4 2 1"),
        "1 unfinished, 2 locked by ann|db/a.json::1::ann|1",
        ("update/update", "1*4"),
    ),
    (
        ("update/update", "1*6 2 1*2"),
        "1 unfinished, 2 locked by ann|db/a.json::1::ann|2",
        ("update/update", "1*6"),
    ),
    (
        ("update/update", "1*9 2 1*2"),
        "1 unfinished, 2 locked by ann",
        ("update/update", "1*9"),
    ),
];

#[test]
fn a_note_in_the_lock_keeps_others_out(rt: HostRuntime) {
    assert_rows(&rt, rt.alloc(), Dialect::Mysql, &MYSQL)
}

const BOTH: [Row; 6] = [
    (
        ("update/update", ""),
        "1 unfinished, 2 unfinished",
        ("update", ""),
    ),
    (
        ("update/update", "2 1 2*40"),
        "1 locked by bob, 2 done",
        ("update/update", "2*40"),
    ),
    (
        ("update/update/update", "2 3 2 1 2*40"),
        "1 locked by bob, 2 done, 3 locked by bob",
        ("update/update", "2*40"),
    ),
    // The second finds the first changeset done.
    (
        ("update first/update", "1*40 2*40"),
        "1 done, 2 done",
        ("update first/update/validate", "1*40 2*40 3"),
    ),
    // A command that has answered takes no step.
    (
        ("update first/update", "2 1 2*40 1*40"),
        "1 locked by bob, 2 done",
        ("update/update", "2*40"),
    ),
    (
        ("tag v1/update", "1 2*40 1 1"),
        "1 no target, 2 done",
        ("update/update", "2*40"),
    ),
];

#[test]
fn whoever_is_first_has_the_lock(rt: HostRuntime) {
    assert_both(&rt, rt.alloc(), &BOTH)
}
