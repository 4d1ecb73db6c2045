use crate::asked::{Case, tell, tell_given};

const USED: &str =
    r#"{"databaseChangeLog":[{"property":{"name":"who","value":"ann"}},{"property":{"name":"who","value":"bob"}},{"changeSet":{"id":"${who}-${other}","author":"${who}"}}]}"#;

const FOR_OTHERS: &str =
    r#"{"databaseChangeLog":[{"property":{"name":"who","value":"ann","dbms":"mysql"}},{"changeSet":{"id":1,"author":"${who}"}}]}"#;

const LOCAL: &str =
    r#"{"databaseChangeLog":[{"property":{"name":"who","value":"ann","global":false}},{"include":{"file":"b.json"}},{"changeSet":{"id":1,"author":"${who}"}}]}"#;

const INCLUDED: &str = r#"{"databaseChangeLog":[{"changeSet":{"id":2,"author":"${who}"}}]}"#;

#[test]
fn properties_are_put_in(rt: HostRuntime) {
    let cases = [
        Case {
            files: &[("a.json", USED)],
            wanted: "\na.json::ann-${other}::ann",
        },
        Case {
            files: &[("a.json", FOR_OTHERS)],
            wanted: "\na.json::1::${who}",
        },
        Case {
            files: &[("a.json", LOCAL), ("b.json", INCLUDED)],
            wanted: "\nb.json::2::${who}\na.json::1::ann",
        },
    ];
    tell(&rt, rt.alloc(), &cases)
}

#[test]
fn those_of_the_command_line_come_first(rt: HostRuntime) {
    let given = [("who", "eve"), ("who", "kim"), ("other", "1")];
    let cases = [
        Case {
            files: &[("a.json", USED)],
            wanted: "\na.json::eve-1::eve",
        },
        Case {
            files: &[("a.json", LOCAL), ("b.json", INCLUDED)],
            wanted: "\nb.json::2::eve\na.json::1::eve",
        },
    ];
    tell_given(&rt, rt.alloc(), &given, &cases)
}
