use crate::shown::{Load, each_load, load_fails};
use std::test::Fail;

const TEAM: &str = r#"{"tableName":"team","file":"team.csv"}"#;

#[test]
fn loads_say_their_statements(rt: HostRuntime) -> Result<(), Fail> {
    let cases = [
        Load {
            json: TEAM,
            bytes: b"id,name\n1,red\n2,NULL\n",
            canonical: "8:loadData{9:tableNamet4:team7:columns[t2:idt4:name]4:rows[[t1:1t3:red][t1:2t4:NULL]]}",
            postgresql: r#"
INSERT INTO "team" ("id", "name") VALUES ('1', 'red')
INSERT INTO "team" ("id", "name") VALUES ('2', NULL)
no undo"#,
            mysql: r#"
INSERT INTO `team` (`id`, `name`) VALUES ('1', 'red')
INSERT INTO `team` (`id`, `name`) VALUES ('2', NULL)
no undo"#,
        },
        Load {
            json: r#"{"tableName":"t","file":"a","separator":";","relativeToChangelogFile":"true","schemaName":"public","remarks":"x"}"#,
            bytes: b"a;b\n1,2;3",
            canonical: "8:loadData{9:tableNamet1:t7:columns[t1:at1:b]4:rows[[t3:1,2t1:3]]}",
            postgresql: r#"
INSERT INTO "t" ("a", "b") VALUES ('1,2', '3')
no undo"#,
            mysql: r#"
INSERT INTO `t` (`a`, `b`) VALUES ('1,2', '3')
no undo"#,
        },
        Load {
            json: r#"{"tableName":"t","file":"a","separator":"\t"}"#,
            bytes: b"a\tb\n1\t2\n",
            canonical: "8:loadData{9:tableNamet1:t7:columns[t1:at1:b]4:rows[[t1:1t1:2]]}",
            postgresql: r#"
INSERT INTO "t" ("a", "b") VALUES ('1', '2')
no undo"#,
            mysql: r#"
INSERT INTO `t` (`a`, `b`) VALUES ('1', '2')
no undo"#,
        },
        Load {
            json: r#"{"tableName":"t","file":"a","separator":"|"}"#,
            bytes: b"a|b\n|2\n",
            canonical: "8:loadData{9:tableNamet1:t7:columns[t1:at1:b]4:rows[[t0:t1:2]]}",
            postgresql: r#"
INSERT INTO "t" ("a", "b") VALUES ('', '2')
no undo"#,
            mysql: r#"
INSERT INTO `t` (`a`, `b`) VALUES ('', '2')
no undo"#,
        },
    ];
    each_load(&rt, rt.alloc(), &cases)
}

#[test]
fn files_are_read_as_tables(rt: HostRuntime) -> Result<(), Fail> {
    let cases = [
        Load {
            json: TEAM,
            bytes: b"a,b\r\n\"x,\"\"y\"\"\",\"two\nlines\"\r\n\r\n",
            canonical: "8:loadData{9:tableNamet4:team7:columns[t1:at1:b]4:rows[[t5:x,\"y\"t9:two\nlines]]}",
            postgresql: "\nINSERT INTO \"team\" (\"a\", \"b\") VALUES ('x,\"y\"', 'two\nlines')\nno undo",
            mysql: "\nINSERT INTO `team` (`a`, `b`) VALUES ('x,\"y\"', 'two\nlines')\nno undo",
        },
        Load {
            json: TEAM,
            bytes: b"\xef\xbb\xbfa\nNULL\n\n\"NULL\"\n\"\"\nnull\n",
            canonical: "8:loadData{9:tableNamet4:team7:columns[t1:a]4:rows[[t4:NULL][t4:NULL][t0:][t4:null]]}",
            postgresql: r#"
INSERT INTO "team" ("a") VALUES (NULL)
INSERT INTO "team" ("a") VALUES (NULL)
INSERT INTO "team" ("a") VALUES ('')
INSERT INTO "team" ("a") VALUES ('null')
no undo"#,
            mysql: r#"
INSERT INTO `team` (`a`) VALUES (NULL)
INSERT INTO `team` (`a`) VALUES (NULL)
INSERT INTO `team` (`a`) VALUES ('')
INSERT INTO `team` (`a`) VALUES ('null')
no undo"#,
        },
        Load {
            json: TEAM,
            bytes: b"\"a b\",c",
            canonical: "8:loadData{9:tableNamet4:team7:columns[t3:a bt1:c]4:rows[]}",
            postgresql: "\nno undo",
            mysql: "\nno undo",
        },
    ];
    each_load(&rt, rt.alloc(), &cases)
}

#[test]
fn files_that_are_no_tables_are_bad(rt: HostRuntime) -> Result<(), Fail> {
    let cases: [(&str, &[u8], &str); 8] = [
        (TEAM, b"", "file: bad"),
        (TEAM, b"\n\r\n", "file: bad"),
        (TEAM, b"a,\n1,2\n", "file: bad"),
        (TEAM, b"a,b\n1\n", "file: bad"),
        (TEAM, b"a,b\n1,2\n1,2,3\n", "file: bad"),
        (TEAM, b"a\n\xff\n", "file: bad"),
        (TEAM, b"\xff\n1\n", "file: bad"),
        (TEAM, b"a;b\n1\n2,3\n", "file: bad"),
    ];
    load_fails(&rt, rt.alloc(), &cases)
}

#[test]
fn keys_are_tested_before_the_file(rt: HostRuntime) -> Result<(), Fail> {
    let cases: [(&str, &[u8], &str); 8] = [
        (r#"{"file":"a"}"#, b"", "tableName: missing"),
        (r#"{"tableName":"t"}"#, b"", "file: missing"),
        (r#"{"tableName":"","file":"a"}"#, b"", "tableName: bad"),
        (r#"{"tableName":"t","file":[]}"#, b"", "file: bad"),
        (
            r#"{"tableName":"t","file":"a","separator":":"}"#,
            b"",
            "separator: bad",
        ),
        (
            r#"{"tableName":"t","file":"a","relativeToChangelogFile":1}"#,
            b"",
            "relativeToChangelogFile: bad",
        ),
        (
            r#"{"tableName":"t","file":"a","schemaName":"app"}"#,
            b"",
            "schemaName: bad",
        ),
        (
            r#"{"tableName":"t","file":"a","quotchar":"'"}"#,
            b"",
            "quotchar: unknown",
        ),
    ];
    load_fails(&rt, rt.alloc(), &cases)
}
