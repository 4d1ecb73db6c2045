use crate::drilled::{drilled, drilled_in_little};
use crate::rows::Schedule;
use crate::steps::steps;
use lq_base::Dialect;
use std::alloc::Global;
use std::process::Abort;

// A schedule in a journal of 8,192 bytes, what is told, and one in a larger journal that leaves the same
// on the disk.
type Full = (Schedule, &'static str, Schedule);

fn assert_full(rt: &impl Abort, alloc: Global, dialect: Dialect, row: Full) {
    let (lines, schedule) = row.0;
    let (disk, told) = drilled_in_little(rt, alloc, dialect, lines, &steps(rt, alloc, schedule));
    assert_eq!(rt; told.as_str(), row.1, "{lines}: {schedule}");
    let (lines, schedule) = row.2;
    let (serial, _) = drilled(rt, alloc, dialect, 0, lines, &steps(rt, alloc, schedule));
    let same = disk.bytes() == serial.bytes();
    assert!(rt; same, "{lines}: {schedule} leaves something else");
}

fn assert_all(rt: &impl Abort, alloc: Global, dialect: Dialect, rows: &[Full]) {
    for row in rows {
        assert_full(rt, alloc, dialect, *row);
    }
}

// The commit of the third command's second changeset has no room. It takes that back, and frees the lock
// with the room that is kept for it; where another one has freed it, it answers so.
const POSTGRESQL: [Full; 3] = [
    (
        ("update/rollback-count 3/update", "1*40 2*40 3*40"),
        "1 done, 2 done, 3 full 4063 + 502, ended by a full journal",
        (
            "update/rollback-count 3/update/release-locks",
            "1*40 2*40 3*6 4",
        ),
    ),
    (
        (
            "update/rollback-count 3/update/release-locks",
            "1*40 2*40 3*10 4 3*2",
        ),
        "1 done, 2 done, 3 full 4063 + 502, 4 busy 3, ended by a full journal",
        (
            "update/rollback-count 3/update/release-locks",
            "1*40 2*40 3*6 4",
        ),
    ),
    (
        (
            "update/rollback-count 3/update/release-locks",
            "1*40 2*40 3*11 4 3",
        ),
        "1 done, 2 done, 3 lock free, 4 done",
        (
            "update/rollback-count 3/update/release-locks",
            "1*40 2*40 3*6 4",
        ),
    ),
];

#[test]
fn a_command_without_room_takes_its_turn_back(rt: HostRuntime) {
    assert_all(&rt, rt.alloc(), Dialect::Postgresql, &POSTGRESQL);
}

// A lock with a mark stays: of the changeset that is taken back one statement is undone.
const MYSQL: [Full; 1] = [(
    ("update/rollback-count 3/update", "1*60 2*60"),
    "1 done, 2 full 4079 + 130, 3 unfinished, ended by a full journal",
    ("update/rollback-count 3", "1*60 2*16"),
)];

#[test]
fn where_statements_are_noted_the_lock_stays_held(rt: HostRuntime) {
    assert_all(&rt, rt.alloc(), Dialect::Mysql, &MYSQL);
}
