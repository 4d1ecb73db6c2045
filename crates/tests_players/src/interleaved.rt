use crate::drilled::drilled;
use crate::steps::push_times;
use lq_base::Dialect;
use lq_outside::MemDisk;
use std::alloc::Global;
use std::process::Abort;

const LINES: &str = "update first/update first";

/// The first steps of a schedule are the bits of a number: so many of them.
const BITS: u32 = 10;

/// More steps than an update takes.
const ENOUGH: u32 = 12;

// The steps that a number's bits tell, from the lowest on: the first update's where a bit is 0. Then come
// enough of both.
fn schedule(rt: &impl Abort, alloc: Global, bits: u32) -> Vec<u32> {
    let mut steps = Vec::new(alloc);
    let mut left = bits;
    for _ in 0..BITS {
        steps
            .push(if left % 2 == 0 { 1 } else { 2 })
            .expect(rt, "memory");
        left /= 2;
    }
    push_times(rt, 1, ENOUGH, &mut steps);
    push_times(rt, 2, ENOUGH, &mut steps);
    steps
}

// The first of these updates takes the lock at its first step. The other one is kept out unless the first
// has made all its steps by then.
fn wanted(rt: &impl Abort, alloc: Global, steps: &[u32], notes: &[&str]) -> String {
    let leads = steps.first() == Some(&1);
    let before = steps
        .iter()
        .take_while(|step| (**step == 1) == leads)
        .count();
    match notes.get(before) {
        None => format!(in alloc; "1 done, 2 done"),
        Some(note) if leads => format!(in alloc; "1 done, 2 locked by ann{note}"),
        Some(note) => format!(in alloc; "1 locked by bob{note}, 2 done"),
    }
    .expect(rt, "memory")
}

// The disk where one update runs after the other.
fn serial(rt: &impl Abort, alloc: Global, dialect: Dialect, first: u32, second: u32) -> MemDisk {
    let mut steps = Vec::new(alloc);
    push_times(rt, first, ENOUGH, &mut steps);
    push_times(rt, second, ENOUGH, &mut steps);
    let (disk, _) = drilled(rt, alloc, dialect, 0, LINES, &steps);
    disk
}

fn assert_serial(
    rt: &impl Abort,
    alloc: Global,
    dialect: Dialect,
    notes: &[&str],
    bits: u32,
    serial: &MemDisk,
) {
    let steps = schedule(rt, alloc, bits);
    let (disk, told) = drilled(rt, alloc, dialect, 0, LINES, &steps);
    let wanted = wanted(rt, alloc, &steps, notes);
    assert_eq!(rt; told.as_str(), wanted.as_str(), "{bits}");
    let same = disk.bytes() == serial.bytes();
    assert!(rt; same, "{bits}");
}

// Two updates leave what one after the other leaves, whatever their schedule. The notes are what stands
// in the lock behind the name of the first one, after each number of its steps but the last.
fn assert_all(rt: &impl Abort, alloc: Global, dialect: Dialect, notes: &[&str]) {
    let one = serial(rt, alloc, dialect, 1, 2);
    let two = serial(rt, alloc, dialect, 2, 1);
    for bits in 0..1024 {
        let serial = if bits % 2 == 0 { &one } else { &two };
        assert_serial(rt, alloc, dialect, notes, bits, serial);
    }
}

const NONE: [&str; 7] = ["", "", "", "", "", "", ""];

#[test]
fn updates_are_serial(rt: HostRuntime) {
    assert_all(&rt, rt.alloc(), Dialect::Postgresql, &NONE)
}

// The statement that was begun last.
const ONE: &str = "|db/a.json::1::ann|1";

const TWO: &str = "|db/a.json::1::ann|2";

const NOTES: [&str; 10] = ["", "", "", "", ONE, ONE, TWO, TWO, TWO, ""];

#[test]
fn updates_with_notes_in_the_lock_are_serial(rt: HostRuntime) {
    assert_all(&rt, rt.alloc(), Dialect::Mysql, &NOTES)
}
