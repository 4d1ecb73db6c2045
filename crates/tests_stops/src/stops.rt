use crate::journal::{Which, bodies, torn};
use crate::running::{End, FileText, Ran, Span, Step, WHOLE, assert_told, copied, play, run_for};
use crate::shop::{LOCKED, RELEASED, RELEASED_NOTHING};
use std::alloc::Global;
use std::process::Abort;

/// What a command tells that finds the lock held, where it is held; and what `release-locks` tells.
pub type Lock = (Option<End>, End);

pub const FREE: Lock = (None, RELEASED_NOTHING);

pub const HELD: Lock = (Some(LOCKED), RELEASED);

/// What a stop leaves: the lock, and what the stopped command tells that is run again.
pub type Left = (Lock, End);

/// What a command tells that a fault of the disk ends.
pub const STOPPED: End = (11, "", "liquibase: database fault\n");

/// A command that is stopped at each call of the disk.
#[derive(Clone, Copy)]
pub struct Stops {
    pub words: &'static str,
    pub release: &'static str,
    pub files: &'static [FileText],
    /// How many calls it makes before it writes its first entry, and in all.
    pub before: u64,
    pub calls: u64,
    /// What it leaves by how many of its entries stand, from none to all.
    pub left: &'static [Left],
    /// What is told once it was run to its end.
    pub after: &'static [Step],
}

/// How many entries stand after so many calls: each is written, synced, opened by its gate and synced.
pub fn entries(before: u64, calls: u64) -> usize {
    (calls.saturating_add(1).saturating_sub(before) / 4) as usize
}

// Where the lock is held the command is refused, and writes nothing.
fn assert_locked(rt: &impl Abort, alloc: Global, stops: &Stops, lock: Lock, bytes: &[u8]) {
    if let Some(refused) = lock.0 {
        let same = play(rt, alloc, stops.files, bytes, &[(stops.words, refused)]);
        assert!(rt; same.as_slice() == bytes);
    }
}

// The command goes on once the lock is released. Where it comes to its end, all that was done is what is
// done without a stop.
fn assert_goes_on(
    rt: &impl Abort,
    alloc: Global,
    stops: &Stops,
    left: Left,
    bytes: &[u8],
    whole: &[u8],
) {
    let (lock, again) = left;
    let steps = [(stops.release, lock.1), (stops.words, again)];
    let now = play(rt, alloc, stops.files, bytes, &steps);
    if again.0 == 0 {
        let work = bodies(rt, alloc, &now, Which::Work);
        assert!(rt; work == bodies(rt, alloc, whole, Which::Work));
        let _last = play(rt, alloc, stops.files, &now, stops.after);
    }
}

fn assert_left(
    rt: &impl Abort,
    alloc: Global,
    stops: &Stops,
    calls: u64,
    bytes: &[u8],
    whole: &[u8],
) {
    let front = bodies(rt, alloc, bytes, Which::All);
    assert!(rt; bodies(rt, alloc, whole, Which::All).starts_with(&front));
    match stops.left.get(entries(stops.before, calls)) {
        Some(left) => {
            assert_locked(rt, alloc, stops, left.0, bytes);
            assert_goes_on(rt, alloc, stops, *left, bytes, whole);
        }
        None => assert!(rt; false, "{calls}"),
    }
}

fn stopped_after(rt: &impl Abort, alloc: Global, stops: &Stops, bytes: &[u8], calls: u64) -> Ran {
    let span = Span { calls, ..WHOLE };
    run_for(rt, alloc, stops.words, stops.files, bytes, span)
}

// What the stop left, with all that was written and with the last write in half. A call that wrote
// nothing left what the one before it did.
fn assert_both_left(
    rt: &impl Abort,
    alloc: Global,
    stops: &Stops,
    calls: u64,
    last: &[u8],
    now: &[u8],
    whole: &[u8],
) {
    if calls > 0 && now == last {
        return;
    }
    assert_left(rt, alloc, stops, calls, now, whole);
    let half = torn(rt, alloc, last, now);
    if half.as_slice() != now {
        assert_left(rt, alloc, stops, calls, &half, whole);
    }
}

/// Stops a command on these bytes after each number of calls, until one runs to its end.
pub fn assert_stops(rt: &impl Abort, alloc: Global, stops: &Stops, bytes: &[u8]) {
    let whole = stopped_after(rt, alloc, stops, bytes, WHOLE.calls);
    let mut last = copied(rt, alloc, bytes);
    for calls in 0..1000 {
        let ran = stopped_after(rt, alloc, stops, bytes, calls);
        if ran.told.code == 0 {
            assert!(rt; ran.bytes == whole.bytes);
            assert_eq!(rt; calls, stops.calls);
            return;
        }
        assert_told(rt, &ran.told, STOPPED);
        assert_both_left(rt, alloc, stops, calls, &last, &ran.bytes, &whole.bytes);
        last = ran.bytes;
    }
    assert!(rt; false);
}

/// A command that is stopped once, and what is told after that.
#[derive(Clone, Copy)]
pub struct Stop {
    pub words: &'static str,
    pub files: &'static [FileText],
    pub steps: &'static [Step],
}

/// Stops a command on these bytes after so many calls, and plays what comes after it. Gives the bytes that
/// it leaves.
pub fn assert_stop(
    rt: &impl Abort,
    alloc: Global,
    stop: &Stop,
    calls: u64,
    bytes: &[u8],
) -> Vec<u8> {
    let span = Span { calls, ..WHOLE };
    let ran = run_for(rt, alloc, stop.words, stop.files, bytes, span);
    assert_told(rt, &ran.told, STOPPED);
    play(rt, alloc, stop.files, &ran.bytes, stop.steps)
}
