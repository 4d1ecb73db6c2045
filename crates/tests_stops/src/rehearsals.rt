use crate::journal::{Which, bodies};
use crate::running::{Ran, Span, Step, WHOLE, assert_told, play, run_for};
use crate::shop::{
    ALL_RAN, LAST_RAN, LOOK, LOOKED, NONE_RAN, RELEASE, SHOP, STATUS, TWO_RAN, UPDATE,
};
use crate::stops::{FREE, HELD, Left, STOPPED, entries};
use std::alloc::Global;
use std::process::Abort;

const REHEARSE: &str = "update-testing-rollback --url=postgresql:db --changelog-file=db/a.json";

// sync, size, read; header, sync; two writes and two syncs for each entry.
const BEFORE: u64 = 5;

const CALLS: u64 = 65;

// The entries of an update, of a rollback, and of an update: the lock, one for each changeset, and the
// lock freed. What an update tells that goes on behind them.
const LEFT: &[Left] = &[
    (FREE, ALL_RAN),
    (HELD, ALL_RAN),
    (HELD, TWO_RAN),
    (HELD, LAST_RAN),
    (HELD, NONE_RAN),
    (FREE, NONE_RAN),
    (HELD, NONE_RAN),
    (HELD, LAST_RAN),
    (HELD, TWO_RAN),
    (HELD, ALL_RAN),
    (FREE, ALL_RAN),
    (HELD, ALL_RAN),
    (HELD, TWO_RAN),
    (HELD, LAST_RAN),
    (HELD, NONE_RAN),
    (FREE, NONE_RAN),
];

const UPDATED: &[Step] = &[
    (STATUS, (0, "pending: 0\n", "")),
    (
        "update-sql --url=postgresql:db --changelog-file=db/look.json",
        LOOKED,
    ),
];

fn stopped_after(rt: &impl Abort, alloc: Global, calls: u64) -> Ran {
    let span = Span { calls, ..WHOLE };
    run_for(rt, alloc, REHEARSE, &[SHOP], b"", span)
}

// Where the lock is held an update is refused. Once it is released an update goes on to its end.
fn assert_goes_on(rt: &impl Abort, alloc: Global, left: Left, bytes: &[u8]) {
    let (lock, again) = left;
    if let Some(refused) = lock.0 {
        let same = play(rt, alloc, &[SHOP], bytes, &[(UPDATE, refused)]);
        assert!(rt; same.as_slice() == bytes);
    }
    let steps = [(RELEASE, lock.1), (UPDATE, again)];
    let now = play(rt, alloc, &[SHOP], bytes, &steps);
    let _last = play(rt, alloc, &[SHOP, LOOK], &now, UPDATED);
}

fn assert_left(rt: &impl Abort, alloc: Global, calls: u64, bytes: &[u8], whole: &[u8]) {
    let front = bodies(rt, alloc, bytes, Which::All);
    assert!(rt; bodies(rt, alloc, whole, Which::All).starts_with(&front));
    match LEFT.get(entries(BEFORE, calls)) {
        Some(left) => assert_goes_on(rt, alloc, *left, bytes),
        None => assert!(rt; false, "{calls}"),
    }
}

#[test]
fn an_update_goes_on_after_a_rehearsal_that_stopped_at_any_call(rt: HostRuntime) {
    let whole = stopped_after(&rt, rt.alloc(), WHOLE.calls);
    for calls in 0..CALLS {
        let ran = stopped_after(&rt, rt.alloc(), calls);
        assert_told(&rt, &ran.told, STOPPED);
        assert_left(&rt, rt.alloc(), calls, &ran.bytes, &whole.bytes);
    }
    let last = stopped_after(&rt, rt.alloc(), CALLS);
    assert!(rt; last.told.code == 0 && last.bytes == whole.bytes);
}
