use crate::asked::told_bytes;
use crate::made::{between, times};
use lq_base::Text;
use std::alloc::Global;
use std::process::Abort;

const ID: &str = r#"{"databaseChangeLog":[{"changeSet":{"author":"a","ignore":true,"id":""#;

const AUTHOR: &str = r#"{"databaseChangeLog":[{"changeSet":{"id":"a","ignore":true,"author":""#;

const PATH: &str =
    r#"{"databaseChangeLog":[{"changeSet":{"id":"a","author":"a","ignore":true,"logicalFilePath":""#;

const BACK: &str = r#""}}]}"#;

const BAD_ID: &str = "liquibase: changelog fault: a.json: databaseChangeLog[0].changeSet.id: bad\n";

const BAD_AUTHOR: &str =
    "liquibase: changelog fault: a.json: databaseChangeLog[0].changeSet.author: bad\n";

const BAD_PATH: &str = "liquibase: changelog fault: a.json: bad path\n";

const GOOD: &[(&str, usize)] = &[("\u{e9}", 255), ("\u{1f600}", 1), ("\\u0080", 1), (" ", 1)];

const BAD: &[(&str, usize)] = &[("\u{e9}", 256), ("", 1), ("\\u001f", 1), ("\\u007f", 1)];

// What a changelog is loaded as with a text so many times behind this front.
fn told_named(rt: &impl Abort, alloc: Global, front: &str, part: &str, count: usize) -> Text {
    let inside = times(alloc, part, count).expect(rt, "memory");
    let text = between(alloc, front, inside.as_str(), BACK).expect(rt, "memory");
    told_bytes(rt, alloc, "a.json", text.as_bytes())
}

fn tell_named(rt: &impl Abort, alloc: Global, front: &str, rows: &[(&str, usize)], wanted: &str) {
    for row in rows {
        let told = told_named(rt, alloc, front, row.0, row.1);
        assert_eq!(rt; told.as_str(), wanted);
    }
}

// They have 1 to 255 characters, none of them a control character.
#[test]
fn ids_authors_and_paths_are_bounded(rt: HostRuntime) {
    tell_named(&rt, rt.alloc(), ID, GOOD, "");
    tell_named(&rt, rt.alloc(), ID, BAD, BAD_ID);
    tell_named(&rt, rt.alloc(), AUTHOR, GOOD, "");
    tell_named(&rt, rt.alloc(), AUTHOR, BAD, BAD_AUTHOR);
    tell_named(&rt, rt.alloc(), PATH, GOOD, "");
    tell_named(&rt, rt.alloc(), PATH, BAD, BAD_PATH);
}

fn told_at(rt: &impl Abort, alloc: Global, count: usize) -> Text {
    let front = times(alloc, "\u{e9}", count).expect(rt, "memory");
    let path = between(alloc, front.as_str(), ".json", "").expect(rt, "memory");
    told_bytes(rt, alloc, path.as_str(), b"{\"databaseChangeLog\":[]}")
}

#[test]
fn the_root_has_a_bounded_path(rt: HostRuntime) {
    let most = told_at(&rt, rt.alloc(), 250);
    assert_eq!(rt; most.as_str(), "");
    let more = told_at(&rt, rt.alloc(), 251);
    assert!(rt; more.as_str().ends_with(".json: bad path\n"));
}
