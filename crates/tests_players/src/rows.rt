use crate::drilled::drilled;
use crate::steps::steps;
use lq_base::Dialect;
use lq_outside::MemDisk;
use std::alloc::Global;
use std::process::Abort;

/// Command lines and the steps of a schedule.
pub type Schedule = (&'static str, &'static str);

/// A schedule, what its commands answer, and a schedule of commands one after another that leaves the
/// same on the disk.
pub type Row = (Schedule, &'static str, Schedule);

fn played(
    rt: &impl Abort,
    alloc: Global,
    dialect: Dialect,
    schedule: Schedule,
) -> (MemDisk, String) {
    let steps = steps(rt, alloc, schedule.1);
    drilled(rt, alloc, dialect, 0, schedule.0, &steps)
}

fn assert_row(rt: &impl Abort, alloc: Global, dialect: Dialect, row: Row) {
    let (disk, told) = played(rt, alloc, dialect, row.0);
    assert_eq!(rt; told.as_str(), row.1, "{}: {}", row.0.0, row.0.1);
    let (serial, _) = played(rt, alloc, dialect, row.2);
    let same = disk.bytes() == serial.bytes();
    assert!(rt; same, "{}: {} leaves something else", row.0.0, row.0.1);
}

/// Each row is so, in this dialect.
pub fn assert_rows(rt: &impl Abort, alloc: Global, dialect: Dialect, rows: &[Row]) {
    for row in rows {
        assert_row(rt, alloc, dialect, *row);
    }
}

/// Each row is so, in both dialects.
pub fn assert_both(rt: &impl Abort, alloc: Global, rows: &[Row]) {
    assert_rows(rt, alloc, Dialect::Postgresql, rows);
    assert_rows(rt, alloc, Dialect::Mysql, rows);
}
