use crate::rows::{rows, text};
use lq_base::{Target, Tracked};
use lq_kept::suffix;
use lq_plan::greatest;
use std::alloc::Global;
use std::process::Abort;

const TAGGED: &str = "1 ann db/a.json EXECUTED s1 null 1 1
2 ann db/a.json EXECUTED s2 v1 1 2
3 ann db/a.json RERAN s3 null 1 3
4 ann db/a.json MARK_RAN s4 v1 1 4
5 ann db/a.json EXECUTED s5 v2 1 5
6 ann db/a.json EXECUTED s6 null 1 6";

const DATED: &str = "1 ann db/a.json EXECUTED s1 null 1 1
2 ann db/a.json EXECUTED s2 null 5 2
3 ann db/a.json EXECUTED s3 null 2 3
4 ann db/a.json EXECUTED s4 null 6 4";

// How many rows stay.
fn stay(rows: &[Tracked], target: &Target) -> Option<usize> {
    suffix(rows, target).ok()
}

fn stay_by_tag(rt: &impl Abort, alloc: Global, script: &str, tag: &str) -> Option<usize> {
    let rows = rows(rt, alloc, script);
    let target = Target::Tag(text(rt, alloc, tag));
    stay(rows.as_slice(), &target)
}

fn stay_by_count(rt: &impl Abort, alloc: Global, script: &str, count: u32) -> Option<usize> {
    let rows = rows(rt, alloc, script);
    stay(rows.as_slice(), &Target::Count(count))
}

fn stay_by_date(rt: &impl Abort, alloc: Global, script: &str, at: i64) -> Option<usize> {
    let rows = rows(rt, alloc, script);
    stay(rows.as_slice(), &Target::Date(at))
}

fn greatest_of(rt: &impl Abort, alloc: Global, script: &str) -> u32 {
    let rows = rows(rt, alloc, script);
    greatest(rows.as_slice())
}

fn stay_by_tags(rt: &impl Abort, alloc: Global, cases: &[(&str, &str, Option<usize>)]) {
    for (script, tag, wanted) in cases {
        assert_eq!(rt; stay_by_tag(rt, alloc, script, tag), *wanted);
    }
}

fn stay_by_counts(rt: &impl Abort, alloc: Global, cases: &[(&str, u32, Option<usize>)]) {
    for (script, count, wanted) in cases {
        assert_eq!(rt; stay_by_count(rt, alloc, script, *count), *wanted);
    }
}

fn stay_by_dates(rt: &impl Abort, alloc: Global, cases: &[(&str, i64, Option<usize>)]) {
    for (script, at, wanted) in cases {
        assert_eq!(rt; stay_by_date(rt, alloc, script, *at), *wanted);
    }
}

fn are_greatest(rt: &impl Abort, alloc: Global, cases: &[(&str, u32)]) {
    for (script, wanted) in cases {
        assert_eq!(rt; greatest_of(rt, alloc, script), *wanted);
    }
}

// The newest row with the tag is the last that stays.
#[test]
fn rows_stay_up_to_a_tag(rt: HostRuntime) {
    let cases = [
        (TAGGED, "v1", Some(4)),
        (TAGGED, "v2", Some(5)),
        (TAGGED, "v", None),
        (TAGGED, "V1", None),
        ("1 ann db/a.json EXECUTED s1 v1 1 1", "v1", Some(1)),
        ("1 ann db/a.json EXECUTED s1 null 1 1", "v1", None),
        ("", "v1", None),
    ];
    stay_by_tags(&rt, rt.alloc(), &cases)
}

#[test]
fn rows_stay_but_for_a_count(rt: HostRuntime) {
    let cases = [
        (TAGGED, 0, Some(6)),
        (TAGGED, 1, Some(5)),
        (TAGGED, 6, Some(0)),
        (TAGGED, 7, Some(0)),
        (TAGGED, 4294967295, Some(0)),
        ("", 0, Some(0)),
        ("", 1, Some(0)),
    ];
    stay_by_counts(&rt, rt.alloc(), &cases)
}

// The rows that go are the fewest last ones that hold each later row.
#[test]
fn rows_stay_up_to_a_date(rt: HostRuntime) {
    let cases = [
        (DATED, -1, Some(0)),
        (DATED, 0, Some(0)),
        (DATED, 1, Some(1)),
        (DATED, 3, Some(1)),
        (DATED, 4, Some(1)),
        (DATED, 5, Some(3)),
        (DATED, 6, Some(4)),
        (DATED, 7, Some(4)),
        ("1 ann db/a.json EXECUTED s1 null -5 1", -6, Some(0)),
        ("1 ann db/a.json EXECUTED s1 null -5 1", -5, Some(1)),
        ("", 0, Some(0)),
    ];
    stay_by_dates(&rt, rt.alloc(), &cases)
}

#[test]
fn the_last_place_is_the_greatest(rt: HostRuntime) {
    let cases = [
        ("", 0),
        (DATED, 4),
        (
            "1 ann db/a.json EXECUTED s1 null 1 7
2 ann db/a.json EXECUTED s2 null 1 3
3 ann db/a.json EXECUTED s3 null 1 5",
            7,
        ),
    ];
    are_greatest(&rt, rt.alloc(), &cases)
}
