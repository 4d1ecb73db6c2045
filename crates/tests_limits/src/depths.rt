use crate::asked::told_bytes;
use crate::made::push_times;
use lq_base::Text;
use std::alloc::{AllocError, Global};
use std::process::Abort;

/// Collections in one another, what stands in the innermost, and what the file is loaded as.
#[derive(Clone, Copy)]
struct Deep<'a> {
    opening: &'a str,
    count: usize,
    inside: &'a str,
    closing: &'a str,
    wanted: &'a str,
}

// The changes of a changeset for another database may be any tree. Four levels are about them.
const JSON: &str =
    r#"{"databaseChangeLog":[{"changeSet":{"id":1,"author":"ann","dbms":"mysql","changes":"#;

const YAML: &str = "databaseChangeLog:
- changeSet:
    id: 1
    author: ann
    dbms: mysql
    changes:
    ";

fn nested(alloc: Global, front: &str, case: &Deep<'_>, back: &str) -> Result<String, AllocError> {
    let mut text = String::from_str(alloc, front)?;
    push_times(&mut text, case.opening, case.count)?;
    text.push_str(case.inside)?;
    push_times(&mut text, case.closing, case.count)?;
    text.push_str(back)?;
    Ok(text)
}

fn told_deep(
    rt: &impl Abort,
    alloc: Global,
    path: &str,
    front: &str,
    case: &Deep<'_>,
    back: &str,
) -> Text {
    let text = nested(alloc, front, case, back).expect(rt, "memory");
    told_bytes(rt, alloc, path, text.as_bytes())
}

fn tell_deep(
    rt: &impl Abort,
    alloc: Global,
    path: &str,
    front: &str,
    cases: &[Deep<'_>],
    back: &str,
) {
    for case in cases {
        let told = told_deep(rt, alloc, path, front, case, back);
        assert_eq!(rt; told.as_str(), case.wanted);
    }
}

#[test]
fn json_has_127_levels(rt: HostRuntime) {
    let cases = [
        Deep {
            opening: "[",
            count: 123,
            inside: "1",
            closing: "]",
            wanted: "\na.json::1::ann elsewhere",
        },
        Deep {
            opening: "[",
            count: 124,
            inside: "",
            closing: "]",
            wanted: "liquibase: changelog fault: a.json: not JSON\n",
        },
        Deep {
            opening: r#"{"a":"#,
            count: 123,
            inside: "null",
            closing: "}",
            wanted: "\na.json::1::ann elsewhere",
        },
        Deep {
            opening: r#"{"a":"#,
            count: 123,
            inside: "{}",
            closing: "}",
            wanted: "liquibase: changelog fault: a.json: not JSON\n",
        },
        Deep {
            opening: "[",
            count: 200_000,
            inside: "",
            closing: "",
            wanted: "liquibase: changelog fault: a.json: not JSON\n",
        },
    ];
    tell_deep(&rt, rt.alloc(), "a.json", JSON, &cases, "}}]}")
}

// A line that is wrong for more than its depth is told as such.
#[test]
fn yaml_has_64_levels(rt: HostRuntime) {
    let cases = [
        Deep {
            opening: "- ",
            count: 60,
            inside: "x",
            closing: "",
            wanted: "\na.yaml::1::ann elsewhere",
        },
        Deep {
            opening: "- ",
            count: 61,
            inside: "x",
            closing: "",
            wanted: "liquibase: changelog fault: a.yaml: too deep\n",
        },
        Deep {
            opening: "- ",
            count: 59,
            inside: "[]",
            closing: "",
            wanted: "\na.yaml::1::ann elsewhere",
        },
        Deep {
            opening: "- ",
            count: 60,
            inside: "{}",
            closing: "",
            wanted: "liquibase: changelog fault: a.yaml: too deep\n",
        },
        Deep {
            opening: "- ",
            count: 59,
            inside: "a: x",
            closing: "",
            wanted: "\na.yaml::1::ann elsewhere",
        },
        Deep {
            opening: "- ",
            count: 60,
            inside: "a:",
            closing: "",
            wanted: "liquibase: changelog fault: a.yaml: too deep\n",
        },
        Deep {
            opening: "- ",
            count: 61,
            inside: "x\n\t- y",
            closing: "",
            wanted: "liquibase: changelog fault: a.yaml: too deep\n",
        },
        Deep {
            opening: "- ",
            count: 61,
            inside: "\"x",
            closing: "",
            wanted: "liquibase: changelog fault: a.yaml: line 7\n",
        },
        Deep {
            opening: "- ",
            count: 20_000,
            inside: "x",
            closing: "",
            wanted: "liquibase: changelog fault: a.yaml: too deep\n",
        },
    ];
    tell_deep(&rt, rt.alloc(), "a.yaml", YAML, &cases, "\n")
}

#[test]
fn a_wrong_line_before_is_told(rt: HostRuntime) {
    let cases = [Deep {
        opening: "- ",
        count: 65,
        inside: "x",
        closing: "",
        wanted: "liquibase: changelog fault: a.yaml: line 2\n",
    }];
    tell_deep(&rt, rt.alloc(), "a.yaml", "a:\n\tb\n", &cases, "\n");
    tell_deep(&rt, rt.alloc(), "a.yaml", "a: 1\n b: 2\n", &cases, "\n")
}

// A file of nothing but lists is read to 127 levels, and then holds no changelog.
#[test]
fn lists_alone_have_127_levels(rt: HostRuntime) {
    let cases = [
        Deep {
            opening: "[",
            count: 127,
            inside: "",
            closing: "]",
            wanted: "liquibase: changelog fault: db/a.json: : bad\n",
        },
        Deep {
            opening: "[",
            count: 200,
            inside: "",
            closing: "]",
            wanted: "liquibase: changelog fault: db/a.json: not JSON\n",
        },
    ];
    tell_deep(&rt, rt.alloc(), "db/a.json", "", &cases, "")
}

const CONTEXT: &str = r#"{"databaseChangeLog":[{"changeSet":{"id":1,"author":"ann","context":""#;

#[test]
fn contexts_have_64_levels(rt: HostRuntime) {
    let cases = [
        Deep {
            opening: "(",
            count: 65,
            inside: "a",
            closing: ")",
            wanted: "liquibase: changelog fault: db/a.json: databaseChangeLog[0].changeSet.context: bad\n",
        },
        Deep {
            opening: "!",
            count: 65,
            inside: "a",
            closing: "",
            wanted: "liquibase: changelog fault: db/a.json: databaseChangeLog[0].changeSet.context: bad\n",
        },
        Deep {
            opening: "!",
            count: 8,
            inside: "a",
            closing: "",
            wanted: "\ndb/a.json::1::ann context !!!!!!!!a",
        },
    ];
    tell_deep(&rt, rt.alloc(), "db/a.json", CONTEXT, &cases, r#""}}]}"#)
}

const CONDITIONS: &str =
    r#"{"databaseChangeLog":[{"changeSet":{"id":1,"author":"ann","preConditions":["#;

// They end with the levels of JSON.
#[test]
fn conditions_are_read_in_one_another(rt: HostRuntime) {
    let cases = [
        Deep {
            opening: r#"{"not":["#,
            count: 60,
            inside: r#"{"tableExists":{"tableName":"t"}}"#,
            closing: "]}",
            wanted: "\na.json::1::ann asks 1",
        },
        Deep {
            opening: r#"{"not":["#,
            count: 61,
            inside: r#"{"tableExists":{"tableName":"t"}}"#,
            closing: "]}",
            wanted: "liquibase: changelog fault: a.json: not JSON\n",
        },
    ];
    tell_deep(&rt, rt.alloc(), "a.json", CONDITIONS, &cases, "]}}]}")
}

// Sequences in one another, one in a line and each two blanks deeper.
fn steps(alloc: Global, count: usize) -> Result<String, AllocError> {
    let mut text = String::new(alloc);
    for level in 0..count {
        push_times(&mut text, "  ", level)?;
        text.push_str("-\n")?;
    }
    Ok(text)
}

fn told_steps(rt: &impl Abort, alloc: Global, count: usize) -> Text {
    let text = steps(alloc, count).expect(rt, "memory");
    told_bytes(rt, alloc, "db/a.yaml", text.as_bytes())
}

#[test]
fn steps_have_64_levels(rt: HostRuntime) {
    for (count, wanted) in [
        (64, "liquibase: changelog fault: db/a.yaml: : bad\n"),
        (65, "liquibase: changelog fault: db/a.yaml: too deep\n"),
    ] {
        let told = told_steps(&rt, rt.alloc(), count);
        assert_eq!(rt; told.as_str(), wanted);
    }
}
