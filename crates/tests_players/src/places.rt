use crate::drilled::drilled;
use crate::steps::push_times;
use lq_base::Dialect;
use lq_outside::MemDisk;
use std::alloc::Global;
use std::process::Abort;

/// Two updates of three changesets.
const LINES: &str = "update/update";

/// More steps than such an update takes.
const ENOUGH: u32 = 24;

// The one makes so many steps before the other's first. Then each makes enough.
fn schedule(rt: &impl Abort, alloc: Global, lead: u32, other: u32, count: u32) -> Vec<u32> {
    let mut steps = Vec::new(alloc);
    push_times(rt, lead, count, &mut steps);
    push_times(rt, other, ENOUGH, &mut steps);
    push_times(rt, lead, ENOUGH, &mut steps);
    steps
}

// Until the one is over the other is kept out.
fn is_wanted(told: &str, lead: u32, is_over: bool) -> bool {
    if is_over {
        told == "1 done, 2 done"
    } else if lead == 1 {
        told.starts_with("1 done, 2 locked by ann")
    } else {
        told.starts_with("1 locked by bob") && told.ends_with(", 2 done")
    }
}

fn assert_place(
    rt: &impl Abort,
    alloc: Global,
    dialect: Dialect,
    lead: u32,
    other: u32,
    count: u32,
    takes: u32,
    serial: &MemDisk,
) {
    let steps = schedule(rt, alloc, lead, other, count);
    let (disk, told) = drilled(rt, alloc, dialect, 0, LINES, &steps);
    let is_wanted = is_wanted(told.as_str(), lead, count >= takes);
    assert!(rt; is_wanted, "{lead} {count}");
    let same = disk.bytes() == serial.bytes();
    assert!(rt; same, "{lead} {count}");
}

// What the other's later steps are makes no difference: it has answered, or the one has. So these are all
// schedules in which both have their steps.
fn assert_places(
    rt: &impl Abort,
    alloc: Global,
    dialect: Dialect,
    lead: u32,
    other: u32,
    takes: u32,
) {
    let steps = schedule(rt, alloc, lead, other, ENOUGH);
    let (serial, _) = drilled(rt, alloc, dialect, 0, LINES, &steps);
    for count in 1..ENOUGH {
        assert_place(rt, alloc, dialect, lead, other, count, takes, &serial);
    }
}

#[test]
fn updates_of_three_changesets_are_serial(rt: HostRuntime) {
    assert_places(&rt, rt.alloc(), Dialect::Postgresql, 1, 2, 15);
    assert_places(&rt, rt.alloc(), Dialect::Postgresql, 2, 1, 15);
}

#[test]
fn updates_of_three_changesets_are_serial_in_mysql(rt: HostRuntime) {
    assert_places(&rt, rt.alloc(), Dialect::Mysql, 1, 2, 22);
    assert_places(&rt, rt.alloc(), Dialect::Mysql, 2, 1, 22);
}
