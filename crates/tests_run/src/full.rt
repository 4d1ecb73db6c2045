use crate::running::{FileText, NONE, Step, play, run_over};
use crate::shop::{ALL_RAN, BACK_THREE, DRILL, REHEARSE, SHOP, UPDATE};
use std::alloc::Global;
use std::process::Abort;

const STATEMENT: &[u8] = b"CREATE TABLE \"t\" (\"a\" INT)";

pub fn append(rt: &impl Abort, part: &[u8], to: &mut Vec<u8>) {
    to.extend_from_slice(part).expect(rt, "memory");
}

// The header, an open gate, and the entry of one text, up to where its statement begins. The entry and
// its text have their lengths before them, and a shut gate stands behind them.
fn append_beginning(rt: &impl Abort, used: usize, to: &mut Vec<u8>) {
    let entry = used.saturating_sub(22).min(268_435_456) as u32;
    let text = entry.saturating_sub(5);
    append(rt, b"LQJOURNAL1 PGSQL\x01", to);
    append(rt, &entry.to_be_bytes(), to);
    append(rt, b"T", to);
    append(rt, &text.to_be_bytes(), to);
}

/// A journal of so many bytes with one entry, whose text has blanks behind its statement.
pub fn journal(rt: &impl Abort, alloc: Global, used: usize) -> Vec<u8> {
    let mut bytes = Vec::new(alloc);
    append_beginning(rt, used, &mut bytes);
    append(rt, STATEMENT, &mut bytes);
    bytes
        .resize(used.saturating_sub(1), b' ')
        .expect(rt, "memory");
    bytes.push(0).expect(rt, "memory");
    bytes
}

// Up to the 4,096 bytes that are kept for freeing a lock.
const MOST: usize = 268_431_360;

// A hundred bytes below them.
const USED: usize = 268_431_260;

const RUNS: FileText = ("runs", "update --changelog-file=db/a.json\nsteps\n1 1\n");

const STEPS: [Step; 4] = [
    Step {
        words: UPDATE,
        code: 13,
        out: "",
        log: "liquibase: database full: 268431260 and 871 bytes\n",
    },
    Step {
        words: "update-sql --url=postgresql:db --changelog-file=db/a.json",
        code: 13,
        out: "",
        log: "liquibase: database full: 268431260 and 871 bytes\n",
    },
    Step {
        words: DRILL,
        code: 13,
        out: "",
        log: "liquibase: database full: 268431260 and 873 bytes\n",
    },
    Step {
        words: "status --url=postgresql:db --changelog-file=db/a.json",
        code: 0,
        out: "pending: 3\ndb/a.json::1::ann\ndb/a.json::2::ann\ndb/a.json::3::bob\n",
        log: "",
    },
];

#[test]
fn a_full_journal_is_told(rt: HostRuntime) {
    let bytes = journal(&rt, rt.alloc(), USED);
    let left = play(&rt, rt.alloc(), &[SHOP, RUNS], &bytes, &STEPS);
    assert!(rt; left == bytes);
}

const UPDATED: Step = Step {
    words: UPDATE,
    code: 0,
    out: ALL_RAN,
    log: "",
};

const TAKEN_BACK: Step = Step {
    words: BACK_THREE,
    code: 0,
    out: "rolled back db/a.json::3::bob\nrolled back db/a.json::2::ann\nrolled back db/a.json::1::ann\nrollback: 3 rolled back\n",
    log: "",
};

// A rehearsal that has room for no more than its first runs leaves what these leave by themselves, here
// on a short journal: the gate behind the last entry is opened by the next.
fn assert_full_behind(rt: &impl Abort, alloc: Global, first: &[Step]) {
    let short = journal(rt, alloc, 200);
    let left = play(rt, alloc, &[SHOP], &short, first);
    let room = left.len().saturating_sub(200);
    let bytes = journal(rt, alloc, MOST.saturating_sub(room));
    let ran = run_over(rt, alloc, REHEARSE, &[SHOP], &bytes, NONE);
    assert!(rt; ran.code == 13 && ran.out.is_empty());
    let gate = bytes.len().saturating_sub(1);
    let before = bytes.get(..gate).unwrap_or(&[]);
    assert!(rt; ran.bytes.get(..gate).unwrap_or(&[]) == before);
    let written = left.get(199..).unwrap_or(&[]);
    assert!(rt; ran.bytes.get(gate..).unwrap_or(&[]) == written);
}

#[test]
fn a_rehearsal_has_no_room_for_its_update(rt: HostRuntime) {
    assert_full_behind(&rt, rt.alloc(), &[]);
}

#[test]
fn a_rehearsal_has_no_room_for_its_rollback(rt: HostRuntime) {
    assert_full_behind(&rt, rt.alloc(), &[UPDATED]);
}

#[test]
fn a_rehearsal_has_no_room_for_its_second_update(rt: HostRuntime) {
    assert_full_behind(&rt, rt.alloc(), &[UPDATED, TAKEN_BACK]);
}
