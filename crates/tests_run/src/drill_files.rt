use crate::refusals::USAGE;
use crate::running::{CI, FileText, NONE, Ran, Step, assert_step, play, run_by, run_over};
use crate::shop::{DRILL, DRILL_MYSQL, SHOP, UPDATE};
use lq_base::{Items, Text};
use lq_outside::MemFiles;
use std::alloc::Global;
use std::process::Abort;

const FORMLESS: Step = Step {
    words: DRILL,
    code: 2,
    out: "",
    log: USAGE,
};

const NO_RUNS: [&str; 20] = [
    "",
    "steps\n1\n",
    "release-locks\n",
    "release-locks\nSteps\n1\n",
    "update --changelog-file=db/a.json\nrelease-locks\nsteps\n3\n",
    "release-locks\nsteps\n0\n",
    "release-locks\nsteps\none\n",
    "release-locks\nsteps\n1\nsteps\n1\n",
    "update-sql --changelog-file=db/a.json\nsteps\n1\n",
    "rollback-sql --changelog-file=db/a.json --count=1\nsteps\n1\n",
    "clear-checksums\nsteps\n1\n",
    "drill --runs=runs\nsteps\n1\n",
    "soak --number=1 --sets=1\nsteps\n1\n",
    "snapshot\nsteps\n1\n",
    "release-locks --url=postgresql:db\nsteps\n1\n",
    "update\nsteps\n1\n",
    "release\nsteps\n1\n",
    "release-locks \nsteps\n1\n",
    "tag  --tag=v1\nsteps\n1\n",
    "\nsteps\n1\n",
];

fn assert_formless(rt: &impl Abort, alloc: Global, runs: &'static str) {
    let bytes = b"no journal, but not read".as_slice();
    let left = play(rt, alloc, &[SHOP, ("runs", runs)], bytes, &[FORMLESS]);
    assert!(rt; left.as_slice() == bytes);
}

#[test]
fn a_file_without_the_form_is_usage(rt: HostRuntime) {
    for runs in NO_RUNS {
        assert_formless(&rt, rt.alloc(), runs);
    }
}

fn one_file(rt: &impl Abort, alloc: Global, bytes: &[u8]) -> MemFiles {
    let path = Text::new(alloc, "runs").expect(rt, "memory");
    let bytes = Items::from_slice(alloc, bytes).expect(rt, "memory");
    let mut files = Items::new(alloc);
    files.push((path, bytes)).expect(rt, "memory");
    MemFiles::new(alloc, files, Vec::new(alloc))
}

// A drill by a file of these bytes alone, on an empty database.
fn drilled(rt: &impl Abort, alloc: Global, bytes: &[u8]) -> Ran {
    let files = one_file(rt, alloc, bytes);
    run_by(rt, alloc, CI, DRILL, files, b"", NONE)
}

#[test]
fn other_bytes_are_usage(rt: HostRuntime) {
    let ran = drilled(&rt, rt.alloc(), b"tag --tag=\xff\nsteps\n1\n");
    assert_step(&rt, FORMLESS, &ran);
}

const TOO_LONG: Step = Step {
    words: DRILL,
    code: 4,
    out: "",
    log: "liquibase: changelog fault: runs: too long\n",
};

#[test]
fn a_file_has_at_most_16_mebibytes(rt: HostRuntime) {
    let bytes = vec![in rt.alloc(); b'1'; 16_777_217].expect(&rt, "memory");
    let ran = drilled(&rt, rt.alloc(), &bytes);
    assert_step(&rt, TOO_LONG, &ran);
    let most = drilled(&rt, rt.alloc(), &bytes[1..]);
    assert_step(&rt, FORMLESS, &most);
}

// So many command lines that free the lock, and one step of the last.
fn releases(rt: &impl Abort, alloc: Global, count: u32) -> Ran {
    let mut runs = String::new(alloc);
    for _ in 0..count {
        runs.push_str("release-locks\n").expect(rt, "memory");
    }
    write!(runs, "steps\n{count}\n").expect(rt, "memory");
    drilled(rt, alloc, runs.as_bytes())
}

#[test]
fn a_drill_has_at_most_64_commands(rt: HostRuntime) {
    let most = releases(&rt, rt.alloc(), 64);
    assert_eq!(rt; most.code, 0);
    assert!(rt; most.out.starts_with(b"1 release-locks: unfinished\n"));
    assert!(rt; most.out.ends_with(b"64 release-locks: status 0\n"));
    assert_step(&rt, FORMLESS, &releases(&rt, rt.alloc(), 65));
}

const NO_FILE: Step = Step {
    words: DRILL,
    code: 4,
    out: "",
    log: "liquibase: changelog fault: no file runs\n",
};

const NO_CHANGELOG: Step = Step {
    words: DRILL,
    code: 4,
    out: "",
    log: "liquibase: changelog fault: no file db/n.json\n",
};

const SECOND_IS_ABSENT: FileText = (
    "runs",
    "update --changelog-file=db/a.json
update --changelog-file=db/n.json
update --changelog-file=db/a.xml
steps
1 1 1 1 1
",
);

#[test]
fn a_file_that_is_absent_is_told(rt: HostRuntime) {
    let left = play(&rt, rt.alloc(), &[SHOP], b"", &[NO_FILE]);
    assert!(rt; left.is_empty());
    let files = [SHOP, SECOND_IS_ABSENT];
    let left = play(&rt, rt.alloc(), &files, b"", &[NO_CHANGELOG]);
    assert!(rt; left.is_empty());
}

const RELEASES: FileText = ("runs", "release-locks\nsteps\n1\n");

const DAMAGED: Step = Step {
    words: DRILL_MYSQL,
    code: 12,
    out: "",
    log: "liquibase: database damaged at 0\n",
};

#[test]
fn a_journal_of_the_other_dialect_is_left_alone(rt: HostRuntime) {
    let first = run_over(&rt, rt.alloc(), UPDATE, &[SHOP], b"", NONE);
    let left = play(&rt, rt.alloc(), &[RELEASES], &first.bytes, &[DAMAGED]);
    assert!(rt; left == first.bytes);
}
