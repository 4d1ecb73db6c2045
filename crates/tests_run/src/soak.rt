use crate::running::{NONE, Ran, run_over};
use std::alloc::Global;
use std::process::Abort;

const SEEDS: [(&str, &str, &str); 3] = [
    (
        "soak --url=postgresql:db --number=1 --sets=1",
        "soak: 1 changesets, 3 entries, ",
        "\nsoak: 6 entries, 0 rows, 0 tables\n",
    ),
    (
        "soak --url=postgresql:db --number=18446744073709551615 --sets=40",
        "soak: 40 changesets, 42 entries, ",
        "\nsoak: 84 entries, 0 rows, 0 tables\n",
    ),
    (
        "soak --url=mysql:db --number=7 --sets=1",
        "soak: 1 changesets, ",
        " entries, 0 rows, 0 tables\n",
    ),
];

fn soaked(rt: &impl Abort, alloc: Global, words: &str) -> Ran {
    let ran = run_over(rt, alloc, words, &[], b"no journal", NONE);
    assert_eq!(rt; ran.code, 0);
    assert!(rt; ran.bytes.as_slice() == b"no journal".as_slice());
    ran
}

fn assert_soaks(rt: &impl Abort, alloc: Global, seed: (&str, &str, &str)) {
    let (words, front, end) = seed;
    let ran = soaked(rt, alloc, words);
    assert!(rt; ran.out.starts_with(front.as_bytes()));
    assert!(rt; ran.out.ends_with(end.as_bytes()));
    let again = soaked(rt, alloc, words);
    assert!(rt; again.out == ran.out);
}

#[test]
fn a_made_changelog_runs_and_goes_back(rt: HostRuntime) {
    for seed in SEEDS {
        assert_soaks(&rt, rt.alloc(), seed);
    }
}
