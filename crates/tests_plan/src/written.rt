use crate::asked::{record, write};
use crate::recorded::Turn;
use lq_base::Exec;
use lq_turns::What;

// A new row is put in, and one that was there is renewed; each goes behind the last in run order.
#[test]
fn a_turn_makes_a_row(rt: HostRuntime) {
    let cases = [
        (
            r#"[{"id":1,"author":"ann"}]"#,
            Turn {
                what: What::New,
                exec: Exec::Executed,
                reading: 1000,
                last: 0,
            },
            "inserted 1|ann|db/a.json|1000|1|EXECUTED|P2:d751713988987e9331980363e24189ce|||null|profile-1|||0000001000",
        ),
        (
            r#"[{"id":1,"author":"ann"}]"#,
            Turn {
                what: What::New,
                exec: Exec::Executed,
                reading: 0,
                last: 3,
            },
            "inserted 1|ann|db/a.json|0|4|EXECUTED|P2:d751713988987e9331980363e24189ce|||null|profile-1|||0000000000",
        ),
        (
            r#"[{"id":1,"author":"ann"}]"#,
            Turn {
                what: What::New,
                exec: Exec::MarkRan,
                reading: 1,
                last: 7,
            },
            "inserted 1|ann|db/a.json|1|8|MARK_RAN|P2:d751713988987e9331980363e24189ce|||null|profile-1|||0000000001",
        ),
        (
            r#"[{"id":1,"author":"ann"}]"#,
            Turn {
                what: What::Again,
                exec: Exec::Reran,
                reading: 123456789012345,
                last: 9,
            },
            "renewed 1|ann|db/a.json|123456789012345|10|RERAN|P2:d751713988987e9331980363e24189ce|||null|profile-1|||6789012345",
        ),
        (
            r#"[{"id":1,"author":"ann"}]"#,
            Turn {
                what: What::Again,
                exec: Exec::MarkRan,
                reading: 9999999999,
                last: 41,
            },
            "renewed 1|ann|db/a.json|9999999999|42|MARK_RAN|P2:d751713988987e9331980363e24189ce|||null|profile-1|||9999999999",
        ),
        (
            r#"[{"id":1,"author":"ann"}]"#,
            Turn {
                what: What::Again,
                exec: Exec::Reran,
                reading: 10000000000,
                last: 41,
            },
            "renewed 1|ann|db/a.json|10000000000|42|RERAN|P2:d751713988987e9331980363e24189ce|||null|profile-1|||0000000000",
        ),
        (
            r#"[{"id":1,"author":"ann"}]"#,
            Turn {
                what: What::New,
                exec: Exec::Executed,
                reading: 253402300799999,
                last: 2147483647,
            },
            "inserted 1|ann|db/a.json|253402300799999|2147483648|EXECUTED|P2:d751713988987e9331980363e24189ce|||null|profile-1|||2300799999",
        ),
    ];
    record(&rt, rt.alloc(), &cases)
}

#[test]
fn a_row_tells_its_changeset(rt: HostRuntime) {
    let cases = [
        (
            r#"[{"id":1,"author":"ann"}]"#,
            1,
            "1|ann|db/a.json|1000|1|EXECUTED|P2:d751713988987e9331980363e24189ce|||null|profile-1|||0000001000",
        ),
        (
            r#"[{"id":1,"author":"ann"}]"#,
            4294967295,
            "1|ann|db/a.json|1000|4294967295|EXECUTED|P2:d751713988987e9331980363e24189ce|||null|profile-1|||0000001000",
        ),
        (
            r#"[{"id":"a b","author":"Zo\u00eb","logicalFilePath":"x/y.sql"}]"#,
            2,
            "a b|Zoë|x/y.sql|1000|2|EXECUTED|P2:d751713988987e9331980363e24189ce|||null|profile-1|||0000001000",
        ),
        (
            r#"[{"id":1,"author":"ann","changes":[{"dropTable":{"tableName":"t"}}]}]"#,
            1,
            "1|ann|db/a.json|1000|1|EXECUTED|P2:0f3ce696dcec492fb61d5b7e958b9a67|dropTable||null|profile-1|||0000001000",
        ),
        (
            r#"[{"id":1,"author":"ann","changes":[{"tagDatabase":{"tag":"v1"}},{"empty":{}}]}]"#,
            1,
            "1|ann|db/a.json|1000|1|EXECUTED|P2:715039b8ae31cad9070fcd353446c9fe|tagDatabase, empty||v1|profile-1|||0000001000",
        ),
        (
            r#"[{"id":1,"author":"ann","changes":[{"empty":{}},{"tagDatabase":{"tag":"v1"}}]}]"#,
            1,
            "1|ann|db/a.json|1000|1|EXECUTED|P2:d974aacf8a9cb78e44c3dc43ae097d1c|empty, tagDatabase||v1|profile-1|||0000001000",
        ),
        (
            r#"[{"id":1,"author":"ann","comment":" why ","context":"!test and (dev or qa), prod","labels":"v1 , v2"}]"#,
            1,
            "1|ann|db/a.json|1000|1|EXECUTED|P2:d751713988987e9331980363e24189ce|| why |null|profile-1|!test and (dev or qa), prod|v1 , v2|0000001000",
        ),
        (
            r#"[{"id":1,"author":"ann","changes":[{"dropTable":{"tableName":"t"}}],"rollback":[{"tagDatabase":{"tag":"v1"}},{"empty":{}}],"dbms":"postgresql"}]"#,
            1,
            "1|ann|db/a.json|1000|1|EXECUTED|P2:0f3ce696dcec492fb61d5b7e958b9a67|dropTable||null|profile-1|||0000001000",
        ),
    ];
    write(&rt, rt.alloc(), &cases)
}

#[test]
fn long_fields_are_cut_at_255_characters(rt: HostRuntime) {
    let cases = [
        (
            r#"[{"id":1,"author":"ann","comment":"aaaaaaaaaaaaaaaaaaaaaaaaaaaaaaaaaaaaaaaaaaaaaaaaaaaaaaaaaaaaaaaaaaaaaaaaaaaaaaaaaaaaaaaaaaaaaaaaaaaaaaaaaaaaaaaaaaaaaaaaaaaaaaaaaaaaaaaaaaaaaaaaaaaaaaaaaaaaaaaaaaaaaaaaaaaaaaaaaaaaaaaaaaaaaaaaaaaaaaaaaaaaaaaaaaaaaaaaaaaaaaaaaaaaaaaaaaaaaaaaaaaaaaaaaaaaaaa"}]"#,
            1,
            "1|ann|db/a.json|1000|1|EXECUTED|P2:d751713988987e9331980363e24189ce||aaaaaaaaaaaaaaaaaaaaaaaaaaaaaaaaaaaaaaaaaaaaaaaaaaaaaaaaaaaaaaaaaaaaaaaaaaaaaaaaaaaaaaaaaaaaaaaaaaaaaaaaaaaaaaaaaaaaaaaaaaaaaaaaaaaaaaaaaaaaaaaaaaaaaaaaaaaaaaaaaaaaaaaaaaaaaaaaaaaaaaaaaaaaaaaaaaaaaaaaaaaaaaaaaaaaaaaaaaaaaaaaaaaaaaaaaaaaaaaaaaaaaaaaaaaaaaa|null|profile-1|||0000001000",
        ),
        (
            r#"[{"id":1,"author":"ann","comment":"aaaaaaaaaaaaaaaaaaaaaaaaaaaaaaaaaaaaaaaaaaaaaaaaaaaaaaaaaaaaaaaaaaaaaaaaaaaaaaaaaaaaaaaaaaaaaaaaaaaaaaaaaaaaaaaaaaaaaaaaaaaaaaaaaaaaaaaaaaaaaaaaaaaaaaaaaaaaaaaaaaaaaaaaaaaaaaaaaaaaaaaaaaaaaaaaaaaaaaaaaaaaaaaaaaaaaaaaaaaaaaaaaaaaaaaaaaaaaaaaaaaaaaaaaaaaaaab"}]"#,
            1,
            "1|ann|db/a.json|1000|1|EXECUTED|P2:d751713988987e9331980363e24189ce||aaaaaaaaaaaaaaaaaaaaaaaaaaaaaaaaaaaaaaaaaaaaaaaaaaaaaaaaaaaaaaaaaaaaaaaaaaaaaaaaaaaaaaaaaaaaaaaaaaaaaaaaaaaaaaaaaaaaaaaaaaaaaaaaaaaaaaaaaaaaaaaaaaaaaaaaaaaaaaaaaaaaaaaaaaaaaaaaaaaaaaaaaaaaaaaaaaaaaaaaaaaaaaaaaaaaaaaaaaaaaaaaaaaaaaaaaaaaaaaaaaaaaaaaaaaaaaa|null|profile-1|||0000001000",
        ),
        (
            r#"[{"id":1,"author":"ann","comment":"éééééééééééééééééééééééééééééééééééééééééééééééééééééééééééééééééééééééééééééééééééééééééééééééééééééééééééééééééééééééééééééééééééééééééééééééééééééééééééééééééééééééééééééééééééééééééééééééééééééééééééééééééééééééééééééééééééééééééééééééééééééééééééééééb"}]"#,
            1,
            "1|ann|db/a.json|1000|1|EXECUTED|P2:d751713988987e9331980363e24189ce||ééééééééééééééééééééééééééééééééééééééééééééééééééééééééééééééééééééééééééééééééééééééééééééééééééééééééééééééééééééééééééééééééééééééééééééééééééééééééééééééééééééééééééééééééééééééééééééééééééééééééééééééééééééééééééééééééééééééééééééééééééééééééééééééé|null|profile-1|||0000001000",
        ),
        (
            r#"[{"id":1,"author":"ann","context":"dev or dev or dev or dev or dev or dev or dev or dev or dev or dev or dev or dev or dev or dev or dev or dev or dev or dev or dev or dev or dev or dev or dev or dev or dev or dev or dev or dev or dev or dev or dev or dev or dev or dev or dev or dev or qa1 or qa2"}]"#,
            1,
            "1|ann|db/a.json|1000|1|EXECUTED|P2:d751713988987e9331980363e24189ce|||null|profile-1|dev or dev or dev or dev or dev or dev or dev or dev or dev or dev or dev or dev or dev or dev or dev or dev or dev or dev or dev or dev or dev or dev or dev or dev or dev or dev or dev or dev or dev or dev or dev or dev or dev or dev or dev or dev or qa1||0000001000",
        ),
        (
            r#"[{"id":1,"author":"ann","labels":"v,v,v,v,v,v,v,v,v,v,v,v,v,v,v,v,v,v,v,v,v,v,v,v,v,v,v,v,v,v,v,v,v,v,v,v,v,v,v,v,v,v,v,v,v,v,v,v,v,v,v,v,v,v,v,v,v,v,v,v,v,v,v,v,v,v,v,v,v,v,v,v,v,v,v,v,v,v,v,v,v,v,v,v,v,v,v,v,v,v,v,v,v,v,v,v,v,v,v,v,v,v,v,v,v,v,v,v,v,v,v,v,v,v,v,v,v,v,v,v,v,v,v,v,v,v,v,v,v"}]"#,
            1,
            "1|ann|db/a.json|1000|1|EXECUTED|P2:d751713988987e9331980363e24189ce|||null|profile-1||v,v,v,v,v,v,v,v,v,v,v,v,v,v,v,v,v,v,v,v,v,v,v,v,v,v,v,v,v,v,v,v,v,v,v,v,v,v,v,v,v,v,v,v,v,v,v,v,v,v,v,v,v,v,v,v,v,v,v,v,v,v,v,v,v,v,v,v,v,v,v,v,v,v,v,v,v,v,v,v,v,v,v,v,v,v,v,v,v,v,v,v,v,v,v,v,v,v,v,v,v,v,v,v,v,v,v,v,v,v,v,v,v,v,v,v,v,v,v,v,v,v,v,v,v,v,v,v|0000001000",
        ),
        (
            r#"[{"id":1,"author":"ann","changes":[{"empty":{}},{"empty":{}},{"empty":{}},{"empty":{}},{"empty":{}},{"empty":{}},{"empty":{}},{"empty":{}},{"empty":{}},{"empty":{}},{"empty":{}},{"empty":{}},{"empty":{}},{"empty":{}},{"empty":{}},{"empty":{}},{"empty":{}},{"empty":{}},{"empty":{}},{"empty":{}},{"empty":{}},{"empty":{}},{"empty":{}},{"empty":{}},{"empty":{}},{"empty":{}},{"empty":{}},{"empty":{}},{"empty":{}},{"empty":{}},{"empty":{}},{"empty":{}},{"empty":{}},{"empty":{}},{"empty":{}},{"empty":{}},{"empty":{}}]}]"#,
            1,
            "1|ann|db/a.json|1000|1|EXECUTED|P2:176acf07b78c2732a60d0a4afe414fc5|empty, empty, empty, empty, empty, empty, empty, empty, empty, empty, empty, empty, empty, empty, empty, empty, empty, empty, empty, empty, empty, empty, empty, empty, empty, empty, empty, empty, empty, empty, empty, empty, empty, empty, empty, empty, emp||null|profile-1|||0000001000",
        ),
    ];
    write(&rt, rt.alloc(), &cases)
}

#[test]
fn ids_and_tags_of_255_characters_are_whole(rt: HostRuntime) {
    let cases = [
        (
            r#"[{"id":1,"author":"ann","changes":[{"tagDatabase":{"tag":"ttttttttttttttttttttttttttttttttttttttttttttttttttttttttttttttttttttttttttttttttttttttttttttttttttttttttttttttttttttttttttttttttttttttttttttttttttttttttttttttttttttttttttttttttttttttttttttttttttttttttttttttttttttttttttttttttttttttttttttttttttttttttttttttt"}}]}]"#,
            1,
            "1|ann|db/a.json|1000|1|EXECUTED|P2:cd249b453aa7eec1a8b5d84eee3e0163|tagDatabase||ttttttttttttttttttttttttttttttttttttttttttttttttttttttttttttttttttttttttttttttttttttttttttttttttttttttttttttttttttttttttttttttttttttttttttttttttttttttttttttttttttttttttttttttttttttttttttttttttttttttttttttttttttttttttttttttttttttttttttttttttttttttttttttttt|profile-1|||0000001000",
        ),
        (
            r#"[{"id":"ééééééééééééééééééééééééééééééééééééééééééééééééééééééééééééééééééééééééééééééééééééééééééééééééééééééééééééééééééééééééééééééééééééééééééééééééééééééééééééééééééééééééééééééééééééééééééééééééééééééééééééééééééééééééééééééééééééééééééééééééééééééééééééééé","author":"bbbbbbbbbbbbbbbbbbbbbbbbbbbbbbbbbbbbbbbbbbbbbbbbbbbbbbbbbbbbbbbbbbbbbbbbbbbbbbbbbbbbbbbbbbbbbbbbbbbbbbbbbbbbbbbbbbbbbbbbbbbbbbbbbbbbbbbbbbbbbbbbbbbbbbbbbbbbbbbbbbbbbbbbbbbbbbbbbbbbbbbbbbbbbbbbbbbbbbbbbbbbbbbbbbbbbbbbbbbbbbbbbbbbbbbbbbbbbbbbbbbbbbbbbbbbbbb","logicalFilePath":"ccccccccccccccccccccccccccccccccccccccccccccccccccccccccccccccccccccccccccccccccccccccccccccccccccccccccccccccccccccccccccccccccccccccccccccccccccccccccccccccccccccccccccccccccccccccccccccccccccccccccccccccccccccccccccccccccccccccccccccccccccccccccccccccc"}]"#,
            1,
            "ééééééééééééééééééééééééééééééééééééééééééééééééééééééééééééééééééééééééééééééééééééééééééééééééééééééééééééééééééééééééééééééééééééééééééééééééééééééééééééééééééééééééééééééééééééééééééééééééééééééééééééééééééééééééééééééééééééééééééééééééééééééééééééééé|bbbbbbbbbbbbbbbbbbbbbbbbbbbbbbbbbbbbbbbbbbbbbbbbbbbbbbbbbbbbbbbbbbbbbbbbbbbbbbbbbbbbbbbbbbbbbbbbbbbbbbbbbbbbbbbbbbbbbbbbbbbbbbbbbbbbbbbbbbbbbbbbbbbbbbbbbbbbbbbbbbbbbbbbbbbbbbbbbbbbbbbbbbbbbbbbbbbbbbbbbbbbbbbbbbbbbbbbbbbbbbbbbbbbbbbbbbbbbbbbbbbbbbbbbbbbbbb|ccccccccccccccccccccccccccccccccccccccccccccccccccccccccccccccccccccccccccccccccccccccccccccccccccccccccccccccccccccccccccccccccccccccccccccccccccccccccccccccccccccccccccccccccccccccccccccccccccccccccccccccccccccccccccccccccccccccccccccccccccccccccccccccc|1000|1|EXECUTED|P2:d751713988987e9331980363e24189ce|||null|profile-1|||0000001000",
        ),
    ];
    write(&rt, rt.alloc(), &cases)
}
