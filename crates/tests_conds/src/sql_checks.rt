use crate::shown::tell;
use std::test::Fail;

#[test]
fn values_print_as_texts(rt: HostRuntime) -> Result<(), Fail> {
    let cases = [
        (
            r#"[{"sqlCheck":{"expectedResult":"7","sql":"select n from t where n = 7"}}]"#,
            "holds",
        ),
        (
            r#"[{"sqlCheck":{"expectedResult":7,"sql":"select n from t where n = 7"}}]"#,
            "holds",
        ),
        (
            r#"[{"sqlCheck":{"expectedResult":"07","sql":"select n from t where n = 7"}}]"#,
            "fails",
        ),
        (
            r#"[{"sqlCheck":{"expectedResult":"8","sql":"select n from t where n = 7"}}]"#,
            "fails",
        ),
        (
            r#"[{"sqlCheck":{"expectedResult":"2","sql":"select count(*) from t"}}]"#,
            "holds",
        ),
        (
            r#"[{"sqlCheck":{"expectedResult":"1","sql":"select count(*) from t"}}]"#,
            "fails",
        ),
        (
            r#"[{"sqlCheck":{"expectedResult":"seven","sql":"select s from t where n = 7"}}]"#,
            "holds",
        ),
        (
            r#"[{"sqlCheck":{"expectedResult":"Seven","sql":"select s from t where n = 7"}}]"#,
            "fails",
        ),
        (
            r#"[{"sqlCheck":{"expectedResult":"seven ","sql":"select s from t where n = 7"}}]"#,
            "fails",
        ),
        (
            r#"[{"sqlCheck":{"expectedResult":"true","sql":"select ok from t where n = 7"}}]"#,
            "holds",
        ),
        (
            r#"[{"sqlCheck":{"expectedResult":true,"sql":"select ok from t where n = 7"}}]"#,
            "holds",
        ),
        (
            r#"[{"sqlCheck":{"expectedResult":"TRUE","sql":"select ok from t where n = 7"}}]"#,
            "fails",
        ),
        (
            r#"[{"sqlCheck":{"expectedResult":"1","sql":"select ok from t where n = 7"}}]"#,
            "fails",
        ),
        (
            r#"[{"sqlCheck":{"expectedResult":"2024-02-29 10:00:00.007","sql":"select at from t where n = 7"}}]"#,
            "holds",
        ),
        (
            r#"[{"sqlCheck":{"expectedResult":"2024-02-29T10:00:00.007","sql":"select at from t where n = 7"}}]"#,
            "fails",
        ),
        (
            r#"[{"sqlCheck":{"expectedResult":"-7.50","sql":"select d from t where n = 7"}}]"#,
            "holds",
        ),
        (
            r#"[{"sqlCheck":{"expectedResult":"-7.5","sql":"select d from t where n = 7"}}]"#,
            "fails",
        ),
        (
            r#"[{"sqlCheck":{"expectedResult":"","sql":"select s from t where n is null"}}]"#,
            "holds",
        ),
        (
            r#"[{"sqlCheck":{"expectedResult":"null","sql":"select s from t where n is null"}}]"#,
            "fails",
        ),
        (
            r#"[{"sqlCheck":{"expectedResult":"seven","sql":"select s from v"}}]"#,
            "holds",
        ),
        (
            r#"[{"sqlCheck":{"expectedResult":"7","sql":"select * from p"}}]"#,
            "holds",
        ),
    ];
    tell(&rt, rt.alloc(), &cases)
}

#[test]
fn queries_answer_no_value(rt: HostRuntime) -> Result<(), Fail> {
    let cases = [
        (
            r#"[{"sqlCheck":{"expectedResult":"7","sql":"select n from t"}}]"#,
            "not one value",
        ),
        (
            r#"[{"sqlCheck":{"expectedResult":"","sql":"select a from e"}}]"#,
            "not one value",
        ),
        (
            r#"[{"sqlCheck":{"expectedResult":"7","sql":"select n, s from t where n = 7"}}]"#,
            "not one value",
        ),
        (
            r#"[{"sqlCheck":{"expectedResult":"7","sql":"select * from t where n = 7"}}]"#,
            "not one value",
        ),
        (
            r#"[{"sqlCheck":{"expectedResult":"7","sql":"select x from t"}}]"#,
            "missing",
        ),
        (
            r#"[{"sqlCheck":{"expectedResult":"0","sql":"select count(*) from x"}}]"#,
            "missing",
        ),
        (
            r#"[{"sqlCheck":{"expectedResult":"7","sql":"select n from t where n = 'a'"}}]"#,
            "wrong kind",
        ),
    ];
    tell(&rt, rt.alloc(), &cases)
}
