use crate::full::{append, journal as long_journal};
use crate::running::{Failing, FileText, NONE, Step, play, run_over};
use crate::shop::{
    ALL_RAN, BACK_THREE, DRILL, DRILL_MYSQL, RELEASE, SHOP, STATUS, UPDATE, UPDATE_MYSQL,
};
use std::alloc::Global;
use std::process::Abort;

const SNAPSHOT: &str = "snapshot --url=postgresql:db";

const SNAPSHOT_MYSQL: &str = "snapshot --url=mysql:db";

const OBJECTS: &str = "generate-changelog --url=postgresql:db --author=ann";

const OBJECTS_MYSQL: &str = "generate-changelog --url=mysql:db --author=ann";

const BACK_THREE_MYSQL: &str = "rollback-count --url=mysql:db --changelog-file=db/a.json --count=3";

const NOT_NEEDED: &str = "snapshot not needed\n";

const NO_OBJECTS: &str = "{\"databaseChangeLog\":[]}\n";

const THREE_BACK: &str =
    "rolled back db/a.json::3::bob\nrolled back db/a.json::2::ann\nrolled back db/a.json::1::ann\nrollback: 3 rolled back\n";

const NONE_RAN: &str = "update: 0 ran, 0 ran again, 0 marked, 0 skipped, 0 not fresh\n";

const NONE_PENDING: &str = "pending: 0\n";

fn done(words: &'static str, out: &'static str) -> Step {
    Step {
        words,
        code: 0,
        out,
        log: "",
    }
}

// The size of the entry follows by hand from the bytes of a state: two tables with a key, the two
// tracking tables, three rows.

#[test]
fn a_state_is_written_once(rt: HostRuntime) {
    let steps = [
        done(UPDATE, ALL_RAN),
        done(SNAPSHOT, "snapshot written: 2711 bytes\n"),
        done(SNAPSHOT, NOT_NEEDED),
        done(STATUS, NONE_PENDING),
        done(UPDATE, NONE_RAN),
        done(BACK_THREE, THREE_BACK),
        done(OBJECTS, NO_OBJECTS),
    ];
    let _left = play(&rt, rt.alloc(), &[SHOP], b"", &steps);
}

#[test]
fn a_state_is_written_once_in_mysql(rt: HostRuntime) {
    let steps = [
        done(UPDATE_MYSQL, ALL_RAN),
        done(SNAPSHOT_MYSQL, "snapshot written: 2692 bytes\n"),
        done(SNAPSHOT_MYSQL, NOT_NEEDED),
        done(BACK_THREE_MYSQL, THREE_BACK),
        done(OBJECTS_MYSQL, NO_OBJECTS),
    ];
    let _left = play(&rt, rt.alloc(), &[SHOP], b"", &steps);
}

// Three changesets that are taken back leave the tracking tables alone.
#[test]
fn a_second_state_stands_behind_what_ran(rt: HostRuntime) {
    let steps = [
        done(UPDATE, ALL_RAN),
        done(SNAPSHOT, "snapshot written: 2711 bytes\n"),
        done(BACK_THREE, THREE_BACK),
        done(SNAPSHOT, "snapshot written: 1105 bytes\n"),
        done(SNAPSHOT, NOT_NEEDED),
        done(UPDATE, ALL_RAN),
        done(SNAPSHOT, "snapshot written: 2711 bytes\n"),
    ];
    let _left = play(&rt, rt.alloc(), &[SHOP], b"", &steps);
}

#[test]
fn an_empty_file_needs_none(rt: HostRuntime) {
    for bytes in [b"".as_slice(), b"ten bytes.".as_slice()] {
        let left = play(&rt, rt.alloc(), &[], bytes, &[done(SNAPSHOT, NOT_NEEDED)]);
        assert!(rt; left.as_slice() == bytes);
    }
}

// Drills and held locks.

const ONE_STEP: FileText = ("runs", "update --changelog-file=db/a.json\nsteps\n1\n");

const ALL_STEPS: FileText = (
    "runs",
    "update --changelog-file=db/a.json\nrelease-locks\nsteps\n1 1 1 1 1 1 1 1 1 1 1 1 1 1 1 1 2\n",
);

const LOCKED: Step = Step {
    words: SNAPSHOT,
    code: 6,
    out: "",
    log: "liquibase: locked by ci#1 since 1970-01-01 00:00:01.000\n",
};

#[test]
fn a_held_lock_is_told(rt: HostRuntime) {
    let steps = [done(DRILL, "1 update: unfinished\n")];
    let held = play(&rt, rt.alloc(), &[SHOP, ONE_STEP], b"", &steps);
    let left = play(&rt, rt.alloc(), &[], &held, &[LOCKED]);
    assert!(rt; left == held);
}

#[test]
fn locks_are_taken_and_freed_behind_a_state(rt: HostRuntime) {
    let first = [
        done(UPDATE, ALL_RAN),
        done(BACK_THREE, THREE_BACK),
        done(SNAPSHOT, "snapshot written: 1105 bytes\n"),
        done(DRILL, "1 update: unfinished\n"),
        done(
            RELEASE,
            "lock released: held by ci#1 since 1970-01-01 00:00:01.000\n",
        ),
        done(SNAPSHOT, "snapshot written: 1105 bytes\n"),
    ];
    let left = play(&rt, rt.alloc(), &[SHOP, ONE_STEP], b"", &first);
    let then = [
        done(DRILL, "1 update: status 0\n2 release-locks: status 0\n"),
        done(STATUS, NONE_PENDING),
        done(SNAPSHOT, "snapshot written: 2711 bytes\n"),
    ];
    let _last = play(&rt, rt.alloc(), &[SHOP, ALL_STEPS], &left, &then);
}

const OTHER: Step = Step {
    words: DRILL_MYSQL,
    code: 12,
    out: "",
    log: "liquibase: database damaged at 0\n",
};

#[test]
fn a_state_is_of_one_profile(rt: HostRuntime) {
    let steps = [
        done(UPDATE, ALL_RAN),
        done(SNAPSHOT, "snapshot written: 2711 bytes\n"),
    ];
    let left = play(&rt, rt.alloc(), &[SHOP], b"", &steps);
    let same = play(&rt, rt.alloc(), &[SHOP, ALL_STEPS], &left, &[OTHER]);
    assert!(rt; same == left);
}

// Journals from elsewhere.

const TABLE: &[u8] = b"T\0\0\0\x1fCREATE TABLE \"t\" (\"id\" INTEGER)";

const NO_STATEMENT: &[u8] = b"T\0\0\0\x01x";

// A state without objects, and a byte less.
const EMPTY: &[u8] =
    b"S\0\0\0\0\0\0\0\0\0\0\0\0\0\0\0\0\0\0\0\0\0\0\0\0\0\0\0\0\0\0\0\0\0\0\0\0\0\0\0\0\0\0\0\0\0\0\0\0";

const NO_STATE: &[u8] =
    b"S\0\0\0\0\0\0\0\0\0\0\0\0\0\0\0\0\0\0\0\0\0\0\0\0\0\0\0\0\0\0\0\0\0\0\0\0\0\0\0\0\0\0\0\0\0\0\0";

// Adds entries with these bodies, and a closed gate.
fn add(rt: &impl Abort, bodies: &[&[u8]], to: &mut Vec<u8>) {
    for body in bodies {
        let size = body.len().min(1_000_000) as u32;
        append(rt, b"\x01", to);
        append(rt, &size.to_be_bytes(), to);
        append(rt, body, to);
    }
    append(rt, b"\0", to);
}

// A journal whose entries have these bodies.
fn journal(rt: &impl Abort, alloc: Global, bodies: &[&[u8]]) -> Vec<u8> {
    let mut bytes = Vec::new(alloc);
    append(rt, b"LQJOURNAL1 PGSQL", &mut bytes);
    add(rt, bodies, &mut bytes);
    bytes
}

// The last state counts, whatever stands before it: no statement has to stand there, nor a state.
#[test]
fn a_journal_begins_with_its_last_state(rt: HostRuntime) {
    let rows: [&[&[u8]]; 4] = [
        &[TABLE, EMPTY],
        &[NO_STATEMENT, EMPTY],
        &[NO_STATE, TABLE, EMPTY],
        &[EMPTY],
    ];
    let steps = [
        done(SNAPSHOT, NOT_NEEDED),
        done(OBJECTS, NO_OBJECTS),
        done(UPDATE, ALL_RAN),
        done(SNAPSHOT, "snapshot written: 2711 bytes\n"),
    ];
    for bodies in rows {
        let bytes = journal(&rt, rt.alloc(), bodies);
        let _left = play(&rt, rt.alloc(), &[SHOP], &bytes, &steps);
    }
}

fn damaged(log: &'static str) -> Step {
    Step {
        words: SNAPSHOT,
        code: 12,
        out: "",
        log,
    }
}

fn assert_damaged(rt: &impl Abort, alloc: Global, bodies: &[&[u8]], log: &'static str) {
    let bytes = journal(rt, alloc, bodies);
    let left = play(rt, alloc, &[], &bytes, &[damaged(log)]);
    assert!(rt; left == bytes);
}

#[test]
fn a_last_state_that_is_none_is_damage(rt: HostRuntime) {
    let first = "liquibase: database damaged at 17\n";
    let second = "liquibase: database damaged at 71\n";
    assert_damaged(&rt, rt.alloc(), &[NO_STATE], first);
    assert_damaged(&rt, rt.alloc(), &[b"S", TABLE], first);
    assert_damaged(&rt, rt.alloc(), &[b"U"], first);
    assert_damaged(&rt, rt.alloc(), &[b"T", EMPTY], first);
    assert_damaged(&rt, rt.alloc(), &[EMPTY, NO_STATE], second);
    assert_damaged(&rt, rt.alloc(), &[EMPTY, NO_STATEMENT], second);
}

// A hundred bytes below the 4,096 that are kept for freeing a lock there is no room for a state of one
// table. The long text before the last state does not run.
#[test]
fn a_full_journal_has_no_room_for_a_state(rt: HostRuntime) {
    let mut bytes = long_journal(&rt, rt.alloc(), 268_431_165);
    let _gate = bytes.pop();
    add(&rt, &[EMPTY, TABLE], &mut bytes);
    let step = Step {
        words: SNAPSHOT,
        code: 13,
        out: "",
        log: "liquibase: database full: 268431260 and 190 bytes\n",
    };
    let left = play(&rt, rt.alloc(), &[], &bytes, &[step]);
    assert!(rt; left == bytes);
}

// Faults of the outside.

#[test]
fn a_disk_or_an_output_that_fails_ends_it(rt: HostRuntime) {
    let first = run_over(&rt, rt.alloc(), UPDATE, &[SHOP], b"", NONE);
    let good = run_over(&rt, rt.alloc(), SNAPSHOT, &[], &first.bytes, NONE);
    let failing = Failing { out: 1, ..NONE };
    let ran = run_over(&rt, rt.alloc(), SNAPSHOT, &[], &first.bytes, failing);
    assert!(rt; ran.code == 14 && ran.bytes == good.bytes && ran.out.is_empty());
    // sync, size, read; two writes and two syncs.
    for disk in 1..8 {
        let failing = Failing { disk, ..NONE };
        let ran = run_over(&rt, rt.alloc(), SNAPSHOT, &[], &first.bytes, failing);
        assert!(rt; ran.code == 11 && ran.out.is_empty());
        let pending = play(
            &rt,
            rt.alloc(),
            &[SHOP],
            &ran.bytes,
            &[done(STATUS, NONE_PENDING)],
        );
        assert!(rt; pending == ran.bytes);
    }
    let last = Failing { disk: 8, ..NONE };
    let ran = run_over(&rt, rt.alloc(), SNAPSHOT, &[], &first.bytes, last);
    assert!(rt; ran.code == 0 && ran.bytes == good.bytes);
}
