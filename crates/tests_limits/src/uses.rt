use crate::asked::told_bytes;
use crate::made::push_times;
use lq_base::Text;
use std::alloc::{AllocError, Global};
use std::process::Abort;

/// A use of the property `who` that stands so often and then once more in another form, and what
/// these become.
#[derive(Clone, Copy)]
struct Uses<'a> {
    each: &'a str,
    last: &'a str,
    each_made: &'a str,
    last_made: &'a str,
}

const JSON: &str =
    r#"{"databaseChangeLog":[{"property":{"name":"who","value":"ann"}},{"changeSet":{"id":1,"author":"bob","comment":""#;

const YAML: &str = "databaseChangeLog:
- property:
    name: who
    value: ann
- changeSet:
    id: 1
    author: bob
    comment: '";

const CASES: &[Uses<'static>] = &[
    Uses {
        each: "${who}",
        last: "${who}",
        each_made: "ann",
        last_made: "ann",
    },
    Uses {
        each: "${other}",
        last: "${who}",
        each_made: "${other}",
        last_made: "ann",
    },
    Uses {
        each: "${who",
        last: "${who}",
        each_made: "${who",
        last_made: "ann",
    },
    Uses {
        each: "$${who}}",
        last: "${who",
        each_made: "$ann}",
        last_made: "${who",
    },
];

// A text with the same 9,999 times in it, then another, and the rest.
fn many(
    alloc: Global,
    front: &str,
    each: &str,
    last: &str,
    back: &str,
) -> Result<String, AllocError> {
    let mut text = String::from_str(alloc, front)?;
    push_times(&mut text, each, 9_999)?;
    text.push_str(last)?;
    text.push_str(back)?;
    Ok(text)
}

fn told_uses(
    rt: &impl Abort,
    alloc: Global,
    path: &str,
    front: &str,
    case: &Uses<'_>,
    back: &str,
) -> Text {
    let text = many(alloc, front, case.each, case.last, back).expect(rt, "memory");
    told_bytes(rt, alloc, path, text.as_bytes())
}

fn wanted_of(rt: &impl Abort, alloc: Global, shown: &str, case: &Uses<'_>) -> String {
    many(alloc, shown, case.each_made, case.last_made, "").expect(rt, "memory")
}

fn tell_uses(
    rt: &impl Abort,
    alloc: Global,
    path: &str,
    front: &str,
    back: &str,
    shown: &str,
    cases: &[Uses<'_>],
) {
    for case in cases {
        let told = told_uses(rt, alloc, path, front, case, back);
        let wanted = wanted_of(rt, alloc, shown, case);
        assert_eq!(rt; told.as_str(), wanted.as_str());
    }
}

#[test]
fn a_property_is_used_ten_thousand_times(rt: HostRuntime) {
    let json = "\na.json::1::bob comment ";
    tell_uses(&rt, rt.alloc(), "a.json", JSON, r#""}}]}"#, json, CASES);
    let yaml = "\na.yaml::1::bob comment ";
    tell_uses(&rt, rt.alloc(), "a.yaml", YAML, "'\n", yaml, CASES);
}
