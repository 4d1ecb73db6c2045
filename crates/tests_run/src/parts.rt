use crate::running::{FileText, Step, play};
use crate::shop::SHOP;

const COUNT_0: &str = "update-count --url=postgresql:db --changelog-file=db/a.json --count=0";

const COUNT_1: &str = "update-count --url=postgresql:db --changelog-file=db/a.json --count=1";

const COUNT_2: &str = "update-count --url=postgresql:db --changelog-file=db/a.json --count=2";

const COUNT_9: &str = "update-count --url=postgresql:db --changelog-file=db/a.json --count=9";

const HISTORY: &str = "history --url=postgresql:db";

const NONE_RAN: &str = "update: 0 ran, 0 ran again, 0 marked, 0 skipped, 0 not fresh\n";

const NOTHING: [Step; 2] = [
    Step {
        words: COUNT_0,
        code: 0,
        out: NONE_RAN,
        log: "",
    },
    Step {
        words: HISTORY,
        code: 0,
        out: "",
        log: "",
    },
];

#[test]
fn none_are_counted(rt: HostRuntime) {
    let left = play(&rt, rt.alloc(), &[SHOP], b"", &NOTHING);
    assert!(rt; left.is_empty());
}

const COUNTED: [Step; 6] = [
    Step {
        words: COUNT_1,
        code: 0,
        out: "ran db/a.json::1::ann\nupdate: 1 ran, 0 ran again, 0 marked, 0 skipped, 0 not fresh\n",
        log: "",
    },
    Step {
        words: HISTORY,
        code: 0,
        out: "1 1970-01-01 00:00:01.000 EXECUTED db/a.json::1::ann\n",
        log: "",
    },
    Step {
        words: COUNT_1,
        code: 0,
        out: "ran db/a.json::2::ann\nupdate: 1 ran, 0 ran again, 0 marked, 0 skipped, 0 not fresh\n",
        log: "",
    },
    Step {
        words: COUNT_9,
        code: 0,
        out: "ran db/a.json::3::bob\nupdate: 1 ran, 0 ran again, 0 marked, 0 skipped, 0 not fresh\n",
        log: "",
    },
    Step {
        words: COUNT_1,
        code: 0,
        out: NONE_RAN,
        log: "",
    },
    Step {
        words: HISTORY,
        code: 0,
        out: "1 1970-01-01 00:00:01.000 EXECUTED db/a.json::1::ann\n2 1970-01-01 00:00:01.000 EXECUTED db/a.json::2::ann\n3 1970-01-01 00:00:01.000 EXECUTED db/a.json::3::bob\n",
        log: "",
    },
];

#[test]
fn changesets_are_counted(rt: HostRuntime) {
    let _left = play(&rt, rt.alloc(), &[SHOP], b"", &COUNTED);
}

const MANY: FileText = (
    "db/a.json",
    r#"{"databaseChangeLog":[
{"changeSet":{"id":"1","author":"ann","runAlways":true,"changes":[]}},
{"changeSet":{"id":"2","author":"ann","context":"test","changes":[]}},
{"changeSet":{"id":"3","author":"ann","preConditions":[{"onFail":"CONTINUE"},{"tableExists":{"tableName":"u"}}],"changes":[]}},
{"changeSet":{"id":"4","author":"ann","dbms":"mysql","changes":[]}},
{"changeSet":{"id":"5","author":"ann","preConditions":[{"onFail":"MARK_RAN"},{"tableExists":{"tableName":"u"}}],"changes":[]}},
{"changeSet":{"id":"6","author":"ann","changes":[]}}]}"#,
);

const MANY_1: &str =
    "update-count --url=postgresql:db --changelog-file=db/a.json --count=1 --context-filter=dev";

const MANY_2: &str =
    "update-count --url=postgresql:db --changelog-file=db/a.json --count=2 --context-filter=dev";

const MANY_3: &str =
    "update-count --url=postgresql:db --changelog-file=db/a.json --count=3 --context-filter=dev";

const MANY_COUNTED: [Step; 6] = [
    Step {
        words: MANY_1,
        code: 0,
        out: "ran db/a.json::1::ann\nupdate: 1 ran, 0 ran again, 0 marked, 0 skipped, 0 not fresh\n",
        log: "",
    },
    Step {
        words: MANY_1,
        code: 0,
        out: "ran again db/a.json::1::ann\nupdate: 0 ran, 1 ran again, 0 marked, 0 skipped, 0 not fresh\n",
        log: "",
    },
    Step {
        words: MANY_2,
        code: 0,
        out: "ran again db/a.json::1::ann\nskipped db/a.json::3::ann\nupdate: 0 ran, 1 ran again, 0 marked, 1 skipped, 0 not fresh\n",
        log: "",
    },
    Step {
        words: MANY_3,
        code: 0,
        out: "ran again db/a.json::1::ann\nskipped db/a.json::3::ann\nmarked db/a.json::5::ann\nupdate: 0 ran, 1 ran again, 1 marked, 1 skipped, 0 not fresh\n",
        log: "",
    },
    Step {
        words: MANY_3,
        code: 0,
        out: "ran again db/a.json::1::ann\nskipped db/a.json::3::ann\nran db/a.json::6::ann\nupdate: 1 ran, 1 ran again, 0 marked, 1 skipped, 0 not fresh\n",
        log: "",
    },
    Step {
        words: HISTORY,
        code: 0,
        out: "5 1970-01-01 00:00:01.000 MARK_RAN db/a.json::5::ann\n6 1970-01-01 00:00:01.000 RERAN db/a.json::1::ann\n7 1970-01-01 00:00:01.000 EXECUTED db/a.json::6::ann\n",
        log: "",
    },
];

#[test]
fn reruns_and_skips_are_counted(rt: HostRuntime) {
    let _left = play(&rt, rt.alloc(), &[MANY], b"", &MANY_COUNTED);
}

const TWICE: FileText = (
    "db/a.json",
    r#"{"databaseChangeLog":[
{"changeSet":{"id":"1","author":"ann","changes":[]}},
{"changeSet":{"id":"2","author":"ann","changes":[{"tagDatabase":{"tag":"v1"}}]}},
{"changeSet":{"id":"1","author":"ann","changes":[]}},
{"changeSet":{"id":"3","author":"ann","changes":[{"tagDatabase":{"tag":"v2"}}]}}]}"#,
);

const BEFORE_FAULT: [Step; 5] = [
    Step {
        words: COUNT_1,
        code: 0,
        out: "ran db/a.json::1::ann\nupdate: 1 ran, 0 ran again, 0 marked, 0 skipped, 0 not fresh\n",
        log: "",
    },
    Step {
        words: "update-to-tag --url=postgresql:db --changelog-file=db/a.json --tag=v1",
        code: 0,
        out: "ran db/a.json::2::ann\nupdate: 1 ran, 0 ran again, 0 marked, 0 skipped, 0 not fresh\n",
        log: "",
    },
    Step {
        words: "update-to-tag --url=postgresql:db --changelog-file=db/a.json --tag=v2",
        code: 5,
        out: "",
        log: "liquibase: duplicate changeset db/a.json::1::ann\n",
    },
    Step {
        words: COUNT_1,
        code: 5,
        out: "",
        log: "liquibase: duplicate changeset db/a.json::1::ann\n",
    },
    Step {
        words: COUNT_0,
        code: 0,
        out: NONE_RAN,
        log: "",
    },
];

#[test]
fn a_fault_behind_the_part_is_none(rt: HostRuntime) {
    let _left = play(&rt, rt.alloc(), &[TWICE], b"", &BEFORE_FAULT);
}

const NO_TAG: [Step; 1] = [Step {
    words: "update-to-tag --url=postgresql:db --changelog-file=db/a.json --tag=v9",
    code: 9,
    out: "",
    log: "liquibase: no changeset has the tag v9\n",
}];

#[test]
fn without_the_tag_no_database_is_opened(rt: HostRuntime) {
    let left = play(&rt, rt.alloc(), &[SHOP], b"", &NO_TAG);
    assert!(rt; left.is_empty());
    let bytes = b"no journal, but not read".as_slice();
    let left = play(&rt, rt.alloc(), &[SHOP], bytes, &NO_TAG);
    assert!(rt; left.as_slice() == bytes);
}

const TAGS: FileText = (
    "db/a.json",
    r#"{"databaseChangeLog":[
{"changeSet":{"id":"1","author":"ann","changes":[{"tagDatabase":{"tag":"first"}}]}},
{"changeSet":{"id":"2","author":"ann","dbms":"mysql","changes":[{"tagDatabase":{"tag":"mine"}}]}},
{"changeSet":{"id":"3","author":"ann","context":"test","changes":[{"tagDatabase":{"tag":"test"}}]}},
{"changeSet":{"id":"4","author":"ann","changes":[]}},
{"changeSet":{"id":"5","author":"ann","changes":[{"tagDatabase":{"tag":"twice"}}]}},
{"changeSet":{"id":"6","author":"ann","changes":[{"tagDatabase":{"tag":"twice"}}]}},
{"changeSet":{"id":"7","author":"ann","changes":[{"tagDatabase":{"tag":"last"}}]}}]}"#,
);

const TO_TAGS: [Step; 7] = [
    Step {
        words: "update-to-tag --url=postgresql:db --changelog-file=db/a.json --context-filter=dev --tag=first",
        code: 0,
        out: "ran db/a.json::1::ann\nupdate: 1 ran, 0 ran again, 0 marked, 0 skipped, 0 not fresh\n",
        log: "",
    },
    Step {
        words: "update-to-tag --url=postgresql:db --changelog-file=db/a.json --context-filter=dev --tag=mine",
        code: 9,
        out: "",
        log: "liquibase: no changeset has the tag mine\n",
    },
    Step {
        words: "update-to-tag --url=postgresql:db --changelog-file=db/a.json --context-filter=dev --tag=test",
        code: 0,
        out: NONE_RAN,
        log: "",
    },
    Step {
        words: "update-to-tag --url=postgresql:db --changelog-file=db/a.json --context-filter=dev --tag=twice",
        code: 0,
        out: "ran db/a.json::4::ann\nran db/a.json::5::ann\nupdate: 2 ran, 0 ran again, 0 marked, 0 skipped, 0 not fresh\n",
        log: "",
    },
    Step {
        words: "update-to-tag --url=postgresql:db --changelog-file=db/a.json --context-filter=dev --tag=firs",
        code: 9,
        out: "",
        log: "liquibase: no changeset has the tag firs\n",
    },
    Step {
        words: "update-to-tag --url=postgresql:db --changelog-file=db/a.json --context-filter=dev --tag=last",
        code: 0,
        out: "ran db/a.json::6::ann\nran db/a.json::7::ann\nupdate: 2 ran, 0 ran again, 0 marked, 0 skipped, 0 not fresh\n",
        log: "",
    },
    Step {
        words: HISTORY,
        code: 0,
        out: "1 1970-01-01 00:00:01.000 EXECUTED db/a.json::1::ann tag first\n2 1970-01-01 00:00:01.000 EXECUTED db/a.json::4::ann\n3 1970-01-01 00:00:01.000 EXECUTED db/a.json::5::ann tag twice\n4 1970-01-01 00:00:01.000 EXECUTED db/a.json::6::ann tag twice\n5 1970-01-01 00:00:01.000 EXECUTED db/a.json::7::ann tag last\n",
        log: "",
    },
];

#[test]
fn a_tag_is_updated_to(rt: HostRuntime) {
    let _left = play(&rt, rt.alloc(), &[TAGS], b"", &TO_TAGS);
}

const MINE: [Step; 1] = [Step {
    words: "update-to-tag --url=mysql:db --changelog-file=db/a.json --context-filter=dev --tag=mine",
    code: 0,
    out: "ran db/a.json::1::ann\nran db/a.json::2::ann\nupdate: 2 ran, 0 ran again, 0 marked, 0 skipped, 0 not fresh\n",
    log: "",
}];

#[test]
fn a_tag_counts_where_its_changeset_is_here(rt: HostRuntime) {
    let _left = play(&rt, rt.alloc(), &[TAGS], b"", &MINE);
}
