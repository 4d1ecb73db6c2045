use crate::shown::tell;
use std::test::Fail;

#[test]
fn conditions_are_joined(rt: HostRuntime) -> Result<(), Fail> {
    let cases = [
        ("[]", "holds"),
        ("[{}]", "holds"),
        (r#"[{"and":[]}]"#, "holds"),
        (r#"[{"or":[]}]"#, "fails"),
        (r#"[{"not":[]}]"#, "holds"),
        (
            r#"[{"tableExists":{"tableName":"t"}},{"tableExists":{"tableName":"t"}}]"#,
            "holds",
        ),
        (
            r#"[{"tableExists":{"tableName":"t"}},{"tableExists":{"tableName":"x"}}]"#,
            "fails",
        ),
        (
            r#"[{"tableExists":{"tableName":"x"}},{"tableExists":{"tableName":"t"}}]"#,
            "fails",
        ),
        (
            r#"[{"and":[{"tableExists":{"tableName":"t"}},{"tableExists":{"tableName":"t"}}]}]"#,
            "holds",
        ),
        (
            r#"[{"and":[{"tableExists":{"tableName":"x"}},{"tableExists":{"tableName":"t"}}]}]"#,
            "fails",
        ),
        (
            r#"[{"or":[{"tableExists":{"tableName":"x"}},{"tableExists":{"tableName":"t"}}]}]"#,
            "holds",
        ),
        (
            r#"[{"or":[{"tableExists":{"tableName":"t"}},{"tableExists":{"tableName":"x"}}]}]"#,
            "holds",
        ),
        (
            r#"[{"or":[{"tableExists":{"tableName":"x"}},{"tableExists":{"tableName":"x"}}]}]"#,
            "fails",
        ),
        (r#"[{"not":[{"tableExists":{"tableName":"t"}}]}]"#, "fails"),
        (r#"[{"not":[{"tableExists":{"tableName":"x"}}]}]"#, "holds"),
        (
            r#"[{"not":[{"tableExists":{"tableName":"x"}},{"tableExists":{"tableName":"x"}}]}]"#,
            "holds",
        ),
        (
            r#"[{"not":[{"tableExists":{"tableName":"x"}},{"tableExists":{"tableName":"t"}}]}]"#,
            "fails",
        ),
        (
            r#"[{"not":[{"tableExists":{"tableName":"t"}},{"tableExists":{"tableName":"t"}}]}]"#,
            "fails",
        ),
        (
            r#"[{"tableExists":{"tableName":"t"},"viewExists":{"viewName":"x"}}]"#,
            "fails",
        ),
        (
            r#"[{"or":[{"tableExists":{"tableName":"x"},"viewExists":{"viewName":"v"}}]}]"#,
            "holds",
        ),
        (
            r#"[{"not":[{"and":[{"tableExists":{"tableName":"t"}},{"or":[{"tableExists":{"tableName":"x"}},{"not":[{"tableExists":{"tableName":"x"}}]}]}]}]}]"#,
            "fails",
        ),
        (
            r#"[{"or":[{"not":[{"or":[{"tableExists":{"tableName":"x"}},{"tableExists":{"tableName":"x"}}]}]},{"tableExists":{"tableName":"x"}}]}]"#,
            "holds",
        ),
        (
            r#"[{"tableExists":{"tableName":"t"}},{"or":[{"and":[{"tableExists":{"tableName":"t"}},{"tableExists":{"tableName":"x"}}]},{"and":[]}]}]"#,
            "holds",
        ),
    ];
    tell(&rt, rt.alloc(), &cases)
}

// All conditions are tested in order, also behind one that decides; the keys of one item in the order of
// their bytes.
#[test]
fn the_first_error_is_the_answer(rt: HostRuntime) -> Result<(), Fail> {
    let cases = [
        (r#"[{"tableIsEmpty":{"tableName":"x"}}]"#, "missing"),
        (
            r#"[{"tableExists":{"tableName":"x"}},{"tableIsEmpty":{"tableName":"x"}}]"#,
            "missing",
        ),
        (
            r#"[{"tableIsEmpty":{"tableName":"x"}},{"tableExists":{"tableName":"x"}}]"#,
            "missing",
        ),
        (
            r#"[{"and":[{"tableExists":{"tableName":"x"}},{"tableIsEmpty":{"tableName":"x"}}]}]"#,
            "missing",
        ),
        (
            r#"[{"or":[{"tableExists":{"tableName":"t"}},{"tableIsEmpty":{"tableName":"x"}}]}]"#,
            "missing",
        ),
        (
            r#"[{"or":[{"tableIsEmpty":{"tableName":"x"}},{"tableExists":{"tableName":"t"}}]}]"#,
            "missing",
        ),
        (
            r#"[{"not":[{"tableExists":{"tableName":"t"}},{"tableIsEmpty":{"tableName":"x"}}]}]"#,
            "missing",
        ),
        (
            r#"[{"not":[{"tableIsEmpty":{"tableName":"x"}}]}]"#,
            "missing",
        ),
        (
            r#"[{"sqlCheck":{"expectedResult":"0","sql":"select count(*) from databasechangelog"}},{"tableIsEmpty":{"tableName":"x"}}]"#,
            "reserved",
        ),
        (
            r#"[{"tableIsEmpty":{"tableName":"x"}},{"sqlCheck":{"expectedResult":"0","sql":"select count(*) from databasechangelog"}}]"#,
            "missing",
        ),
        (
            r#"[{"or":[{"tableExists":{"tableName":"x"}},{"sqlCheck":{"expectedResult":"0","sql":"select count(*) from databasechangelog"}}]},{"tableIsEmpty":{"tableName":"x"}}]"#,
            "reserved",
        ),
        (
            r#"[{"tableExists":{"tableName":"x"}},{"not":[{"or":[{"tableExists":{"tableName":"t"}},{"and":[{"tableExists":{"tableName":"x"}},{"tableIsEmpty":{"tableName":"x"}}]}]}]},{"sqlCheck":{"expectedResult":"0","sql":"select count(*) from databasechangelog"}}]"#,
            "missing",
        ),
        (
            r#"[{"sqlCheck":{"expectedResult":"0","sql":"select count(*) from databasechangelog"},"rowCount":{"tableName":"x","expectedRows":0}}]"#,
            "missing",
        ),
    ];
    tell(&rt, rt.alloc(), &cases)
}
