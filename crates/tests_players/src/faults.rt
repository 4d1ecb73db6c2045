use crate::drilled::drilled;
use crate::steps::steps;
use lq_base::Dialect;
use std::alloc::Global;
use std::process::Abort;

// A call of the disk that fails, command lines, steps and what is told.
type Broken = (u64, &'static str, &'static str, &'static str);

// Loading an empty disk makes three calls, the first entry two before it, and each entry four. What takes
// the lock makes the tables: one entry under postgresql, three under mysql.
const POSTGRESQL: [Broken; 4] = [
    (
        6,
        "update/update",
        "1 2",
        "1 disk, 2 unfinished, ended by the disk",
    ),
    (
        10,
        "update/update",
        "1 2 1*40",
        "1 disk, 2 locked by ann, ended by the disk",
    ),
    (
        10,
        "update/release-locks/update",
        "1 2 3",
        "1 unfinished, 2 disk, 3 unfinished, ended by the disk",
    ),
    (1000, "update/update", "1*40 2", "1 done, 2 done"),
];

const MYSQL: [Broken; 4] = [
    (
        14,
        "update/update",
        "1 2",
        "1 disk, 2 unfinished, ended by the disk",
    ),
    (
        18,
        "update/update",
        "1 2 1*40",
        "1 disk, 2 locked by ann, ended by the disk",
    ),
    (
        18,
        "update/release-locks/update",
        "1 2 3",
        "1 unfinished, 2 disk, 3 unfinished, ended by the disk",
    ),
    (1000, "update/update", "1*40 2", "1 done, 2 done"),
];

fn assert_broken(rt: &impl Abort, alloc: Global, dialect: Dialect, broken: Broken) {
    let (failing, lines, schedule, wanted) = broken;
    let steps = steps(rt, alloc, schedule);
    let (_, told) = drilled(rt, alloc, dialect, failing, lines, &steps);
    assert_eq!(rt; told.as_str(), wanted, "{failing}");
}

fn assert_all(rt: &impl Abort, alloc: Global, dialect: Dialect, rows: &[Broken]) {
    for row in rows {
        assert_broken(rt, alloc, dialect, *row);
    }
}

#[test]
fn a_fault_of_the_disk_ends_a_drill(rt: HostRuntime) {
    assert_all(&rt, rt.alloc(), Dialect::Postgresql, &POSTGRESQL);
    assert_all(&rt, rt.alloc(), Dialect::Mysql, &MYSQL)
}
