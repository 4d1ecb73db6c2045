use crate::running::{Failing, FileText, NONE, Step, play, run_over};
use crate::shop::{BACK_THREE, DRILL, REHEARSE, RELEASE, SHOP, UPDATE};
use std::alloc::Global;
use std::process::Abort;

// Two updates, of which the second finds the lock held.
const RUNS: FileText = (
    "runs",
    "update --changelog-file=db/a.json
update --changelog-file=db/a.json
steps
1 2 1 1 1 1 1 1 1 1 1 1 1 1 1 1
",
);

const FILES: [FileText; 2] = [SHOP, RUNS];

fn assert_faults(rt: &impl Abort, alloc: Global, words: &str, bytes: &[u8]) {
    let good = run_over(rt, alloc, words, &FILES, bytes, NONE);
    assert_eq!(rt; good.code, 0);
    let failing = Failing { files: 1, ..NONE };
    let ran = run_over(rt, alloc, words, &FILES, bytes, failing);
    assert_eq!(rt; ran.code, 3);
    assert!(rt; ran.bytes.as_slice() == bytes && ran.out.is_empty());
    let failing = Failing { out: 1, ..NONE };
    let ran = run_over(rt, alloc, words, &FILES, bytes, failing);
    assert_eq!(rt; ran.code, 14);
    assert!(rt; ran.bytes == good.bytes && ran.out.is_empty());
    let failing = Failing { log: 1, ..NONE };
    let ran = run_over(rt, alloc, words, &FILES, bytes, failing);
    assert!(rt; ran.code == 0 && ran.bytes == good.bytes && ran.out == good.out);
}

#[test]
fn failing_files_and_outputs(rt: HostRuntime) {
    let first = run_over(&rt, rt.alloc(), UPDATE, &FILES, b"", NONE);
    assert_faults(&rt, rt.alloc(), UPDATE, b"");
    assert_faults(&rt, rt.alloc(), REHEARSE, b"");
    assert_faults(&rt, rt.alloc(), BACK_THREE, &first.bytes);
    assert_faults(&rt, rt.alloc(), DRILL, b"");
}

#[test]
fn each_file_of_a_drill_is_read_first(rt: HostRuntime) {
    for files in 2..4 {
        let failing = Failing { files, ..NONE };
        let ran = run_over(&rt, rt.alloc(), DRILL, &FILES, b"", failing);
        assert!(rt; ran.code == 3 && ran.bytes.is_empty() && ran.out.is_empty());
    }
}

// Commands that write to the log, over no bytes: the words, a file that is no JSON, a file that is not
// there, and a tag that no changeset has.
const LOGGED: [(&str, u8); 4] = [
    ("update", 2),
    ("update --url=postgresql:db --changelog-file=runs.json", 4),
    ("update --url=postgresql:db --changelog-file=none.json", 4),
    ("tag --url=postgresql:db --tag=v1", 9),
];

const NO_JSON: [FileText; 1] = [("runs.json", "{")];

// Whichever write of the log fails, no more than the log is another.
fn assert_unlogged(rt: &impl Abort, alloc: Global, words: &str, code: u8) {
    let good = run_over(rt, alloc, words, &NO_JSON, b"", NONE);
    assert!(rt; good.code == code && !good.log.is_empty());
    for log in 1..4 {
        let ran = run_over(rt, alloc, words, &NO_JSON, b"", Failing { log, ..NONE });
        assert!(rt; ran.code == code && ran.bytes == good.bytes && ran.out == good.out);
    }
}

#[test]
fn a_log_that_fails_changes_no_status(rt: HostRuntime) {
    for logged in LOGGED {
        assert_unlogged(&rt, rt.alloc(), logged.0, logged.1);
    }
}

// How many calls of the disk a command makes: each that fails is a disk fault, and has no output.
fn calls_of(rt: &impl Abort, alloc: Global, words: &str, bytes: &[u8]) -> u64 {
    for disk in 1..200 {
        let ran = run_over(rt, alloc, words, &FILES, bytes, Failing { disk, ..NONE });
        if ran.code == 0 {
            return disk - 1;
        }
        assert!(rt; ran.code == 11 && ran.out.is_empty());
        assert!(rt; ran.log.as_slice() == b"liquibase: database fault\n".as_slice());
    }
    0
}

#[test]
fn failing_disk_calls(rt: HostRuntime) {
    // sync, size, read; header, sync; and for each of five entries two writes and two syncs.
    assert_eq!(rt; calls_of(&rt, rt.alloc(), UPDATE, b""), 25);
    // And so for each of three runs.
    assert_eq!(rt; calls_of(&rt, rt.alloc(), REHEARSE, b""), 65);
    let first = run_over(&rt, rt.alloc(), UPDATE, &FILES, b"", NONE);
    // sync, size, read; and for each of five entries two writes and two syncs.
    assert_eq!(rt; calls_of(&rt, rt.alloc(), BACK_THREE, &first.bytes), 23);
}

const HELD: [Step; 1] = [Step {
    words: RELEASE,
    code: 0,
    out: "lock released: held by ci#1 since 1970-01-01 00:00:01.000\n",
    log: "",
}];

#[test]
fn a_disk_that_fails_ends_a_drill(rt: HostRuntime) {
    // As many as the first of the two updates makes alone.
    assert_eq!(rt; calls_of(&rt, rt.alloc(), DRILL, b""), 25);
    let failing = Failing { disk: 10, ..NONE };
    let ran = run_over(&rt, rt.alloc(), DRILL, &FILES, b"", failing);
    let _left = play(&rt, rt.alloc(), &FILES, &ran.bytes, &HELD);
}

#[test]
fn printing_reads_the_disk_alone(rt: HostRuntime) {
    let words = "update-sql --url=postgresql:db --changelog-file=db/a.json";
    let first = run_over(&rt, rt.alloc(), UPDATE, &FILES, b"", NONE);
    assert_eq!(rt; calls_of(&rt, rt.alloc(), words, &first.bytes), 2);
    for disk in 1..4 {
        let failing = Failing { disk, ..NONE };
        let ran = run_over(&rt, rt.alloc(), words, &FILES, &first.bytes, failing);
        assert!(rt; ran.bytes == first.bytes);
    }
}
