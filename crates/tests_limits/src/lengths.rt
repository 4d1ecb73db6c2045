use crate::asked::{told_bytes, told_held};
use crate::made::changelog_of;
use lq_base::{Items, Text};
use std::alloc::Global;
use std::process::Abort;
use tests_loaded::hold;

/// A file that is filled up, and the line of the log where it is too long.
#[derive(Clone, Copy)]
struct Long<'a> {
    path: &'a str,
    front: &'a str,
    filler: u8,
    back: &'a str,
    fault: &'a str,
}

// 16 MiB.
const MOST: usize = 16_777_216;

const EMPTY_FRONT: &str = r#"{"databaseChangeLog":["#;

fn filled_up(
    rt: &impl Abort,
    alloc: Global,
    front: &str,
    filler: u8,
    back: &str,
    length: usize,
) -> Vec<u8> {
    let own = front.len().saturating_add(back.len());
    let filling = vec![in alloc; filler; length.saturating_sub(own)].expect(rt, "memory");
    let mut bytes = Vec::from_slice(alloc, front.as_bytes()).expect(rt, "memory");
    bytes
        .extend_from_slice(filling.as_slice())
        .expect(rt, "memory");
    bytes
        .extend_from_slice(back.as_bytes())
        .expect(rt, "memory");
    bytes
}

fn told_long(rt: &impl Abort, alloc: Global, case: &Long<'_>) -> Text {
    let bytes = filled_up(rt, alloc, case.front, case.filler, case.back, MOST + 1);
    told_bytes(rt, alloc, case.path, bytes.as_slice())
}

fn tell_long(rt: &impl Abort, alloc: Global, cases: &[Long<'_>]) {
    for case in cases {
        let more = told_long(rt, alloc, case);
        assert_eq!(rt; more.as_str(), case.fault);
    }
}

#[test]
fn files_have_at_most_16_mebibytes(rt: HostRuntime) {
    let longest = filled_up(&rt, rt.alloc(), EMPTY_FRONT, b' ', "]}", MOST);
    let most = told_bytes(&rt, rt.alloc(), "a.json", longest.as_slice());
    assert_eq!(rt; most.as_str(), "");
}

#[test]
fn longer_files_are_too_long(rt: HostRuntime) {
    let cases = [
        Long {
            path: "a.json",
            front: EMPTY_FRONT,
            filler: b' ',
            back: "]}",
            fault: "liquibase: changelog fault: a.json: too long\n",
        },
        Long {
            path: "a.yaml",
            front: "databaseChangeLog: []\n#",
            filler: b'x',
            back: "",
            fault: "liquibase: changelog fault: a.yaml: too long\n",
        },
        Long {
            path: "a.sql",
            front: "--liquibase formatted sql\n--",
            filler: b'x',
            back: "",
            fault: "liquibase: changelog fault: a.sql: too long\n",
        },
    ];
    tell_long(&rt, rt.alloc(), &cases)
}

const EACH: &str = r#"{"include":{"file":"b.json"}},"#;

const LAST: &str = r#"{"include":{"file":"c.json"}},{"include":{"file":"d.json"}}"#;

// A root and the same file three times have 64 MiB but for the bytes of another, and then there is one
// of a single byte.
fn told_together(rt: &impl Abort, alloc: Global, another: &[u8]) -> Text {
    let mut held = Items::new(alloc);
    let root = changelog_of(alloc, EACH, 3, LAST).expect(rt, "memory");
    let length = MOST.saturating_sub(another.len());
    let root = filled_up(rt, alloc, root.as_str(), b' ', "", length);
    hold(alloc, "a.json", root.as_slice(), &mut held).expect(rt, "memory");
    let long = filled_up(rt, alloc, EMPTY_FRONT, b' ', "]}", MOST);
    hold(alloc, "b.json", long.as_slice(), &mut held).expect(rt, "memory");
    hold(alloc, "c.json", another, &mut held).expect(rt, "memory");
    hold(alloc, "d.json", b"{", &mut held).expect(rt, "memory");
    told_held(rt, alloc, "a.json", held)
}

// A file counts each time that it is read, and its length before what it holds.
#[test]
fn all_files_have_at_most_64_mebibytes(rt: HostRuntime) {
    let told = told_together(&rt, rt.alloc(), b"{\"databaseChangeLog\":[]}");
    assert_eq!(rt;
        told.as_str(),
        "liquibase: changelog fault: d.json: too long\n"
    );
}
