use crate::asked::plan;
use crate::shown::Case;

// The digits are those that an MD5 of another program gives of the canonical texts.

#[test]
fn blanks_of_sql_do_not_count(rt: HostRuntime) {
    let cases = [
        Case {
            sets: r#"[{"id":1,"author":"ann","changes":[{"sql":{"sql":"DELETE  FROM t"}}]}]"#,
            rows: "1 ann db/a.json EXECUTED P2:c8861b2452536943629c05b84c2ae3fe null 1 1",
            wanted: "",
        },
        Case {
            sets: r#"[{"id":1,"author":"ann","changes":[{"sql":{"sql":"DELETE FROM t"}}]}]"#,
            rows: "1 ann db/a.json EXECUTED P2:c8861b2452536943629c05b84c2ae3fe null 1 1",
            wanted: "",
        },
        Case {
            sets: r#"[{"id":1,"author":"ann","changes":[{"sql":{"sql":"DELETE\n\tFROM t"}}]}]"#,
            rows: "1 ann db/a.json EXECUTED P2:c8861b2452536943629c05b84c2ae3fe null 1 1",
            wanted: "",
        },
        Case {
            sets: r#"[{"id":1,"author":"ann","changes":[{"sql":{"sql":"DELETE FROM t WHERE a = 'a b'"}}]}]"#,
            rows: "1 ann db/a.json EXECUTED P2:f3d171f57a5654a1ac69e57052f5bf6a null 1 1",
            wanted: "\nchanged db/a.json::1::ann from P2:f3d171f57a5654a1ac69e57052f5bf6a to P2:af94c1b9a6fa2f1238500027e5f15ed2",
        },
        Case {
            sets: r#"[{"id":1,"author":"ann","changes":[{"sql":{"sql":"DELETE FROM t WHERE a = 'a  b'"}}]}]"#,
            rows: "1 ann db/a.json EXECUTED P2:f3d171f57a5654a1ac69e57052f5bf6a null 1 1",
            wanted: "",
        },
    ];
    plan(&rt, rt.alloc(), &cases)
}

// It is rewritten by the next update, and a status does not list it.
#[test]
fn a_sum_of_the_old_form_that_is_its_own_is_filled_in(rt: HostRuntime) {
    let cases = [
        Case {
            sets: r#"[{"id":1,"author":"ann","changes":[{"sql":{"sql":"DELETE  FROM t"}}]}]"#,
            rows: "1 ann db/a.json EXECUTED P1:09ffa62ad982bd26aab02d8405d86c7d null 1 1",
            wanted: "\n0 fill",
        },
        Case {
            sets: r#"[{"id":1,"author":"ann","changes":[{"sql":{"sql":"DELETE FROM t"}}]}]"#,
            rows: "1 ann db/a.json EXECUTED P1:c8861b2452536943629c05b84c2ae3fe null 1 1",
            wanted: "\n0 fill",
        },
        Case {
            sets: r#"[{"id":1,"author":"ann","runOnChange":true,"changes":[{"sql":{"sql":"DELETE  FROM t"}}]}]"#,
            rows: "1 ann db/a.json EXECUTED P1:09ffa62ad982bd26aab02d8405d86c7d null 1 1",
            wanted: "\n0 fill",
        },
        Case {
            sets: r#"[{"id":1,"author":"ann","validCheckSum":"ANY","changes":[{"sql":{"sql":"DELETE  FROM t"}}]}]"#,
            rows: "1 ann db/a.json EXECUTED P1:09ffa62ad982bd26aab02d8405d86c7d null 1 1",
            wanted: "\n0 fill",
        },
    ];
    plan(&rt, rt.alloc(), &cases)
}

#[test]
fn blanks_count_in_a_sum_of_the_old_form(rt: HostRuntime) {
    let cases = [
        Case {
            sets: r#"[{"id":1,"author":"ann","changes":[{"sql":{"sql":"DELETE FROM t"}}]}]"#,
            rows: "1 ann db/a.json EXECUTED P1:09ffa62ad982bd26aab02d8405d86c7d null 1 1",
            wanted: "\nchanged db/a.json::1::ann from P1:09ffa62ad982bd26aab02d8405d86c7d to P1:c8861b2452536943629c05b84c2ae3fe",
        },
        Case {
            sets: r#"[{"id":1,"author":"ann","changes":[{"sql":{"sql":"DELETE  FROM t"}}]}]"#,
            rows: "1 ann db/a.json EXECUTED P1:c8861b2452536943629c05b84c2ae3fe null 1 1",
            wanted: "\nchanged db/a.json::1::ann from P1:c8861b2452536943629c05b84c2ae3fe to P1:09ffa62ad982bd26aab02d8405d86c7d",
        },
        Case {
            sets: r#"[{"id":1,"author":"ann","runOnChange":true,"changes":[{"sql":{"sql":"DELETE FROM t"}}]}]"#,
            rows: "1 ann db/a.json EXECUTED P1:09ffa62ad982bd26aab02d8405d86c7d null 1 1",
            wanted: "\n0 again\npending db/a.json::1::ann",
        },
        Case {
            sets: r#"[{"id":1,"author":"ann","runAlways":true,"changes":[{"sql":{"sql":"DELETE FROM t"}}]}]"#,
            rows: "1 ann db/a.json EXECUTED P1:0 null 1 1",
            wanted: "\nchanged db/a.json::1::ann from P1:0 to P1:c8861b2452536943629c05b84c2ae3fe\n0 again\npending db/a.json::1::ann",
        },
        Case {
            sets: r#"[{"id":1,"author":"ann","validCheckSum":"P2:c8861b2452536943629c05b84c2ae3fe","changes":[{"sql":{"sql":"DELETE FROM t"}}]}]"#,
            rows: "1 ann db/a.json EXECUTED P1:09ffa62ad982bd26aab02d8405d86c7d null 1 1",
            wanted: "\nchanged db/a.json::1::ann from P1:09ffa62ad982bd26aab02d8405d86c7d to P1:c8861b2452536943629c05b84c2ae3fe",
        },
    ];
    plan(&rt, rt.alloc(), &cases)
}

// What is excused is neither rewritten nor told.
#[test]
fn a_sum_of_either_form_is_excused(rt: HostRuntime) {
    let cases = [
        Case {
            sets: r#"[{"id":1,"author":"ann","validCheckSum":"P1:09ffa62ad982bd26aab02d8405d86c7d","changes":[{"sql":{"sql":"DELETE FROM t"}}]}]"#,
            rows: "1 ann db/a.json EXECUTED P1:09ffa62ad982bd26aab02d8405d86c7d null 1 1",
            wanted: "",
        },
        Case {
            sets: r#"[{"id":1,"author":"ann","validCheckSum":"P2:0","changes":[{"sql":{"sql":"DELETE FROM t"}}]}]"#,
            rows: "1 ann db/a.json EXECUTED P2:0 null 1 1",
            wanted: "",
        },
        Case {
            sets: r#"[{"id":1,"author":"ann","validCheckSum":"ANY","changes":[{"sql":{"sql":"DELETE FROM t"}}]}]"#,
            rows: "1 ann db/a.json EXECUTED P1:09ffa62ad982bd26aab02d8405d86c7d null 1 1",
            wanted: "",
        },
        Case {
            sets: r#"[{"id":1,"author":"ann","runOnChange":true,"validCheckSum":["P2:0","P1:09ffa62ad982bd26aab02d8405d86c7d"],"changes":[{"sql":{"sql":"DELETE FROM t"}}]}]"#,
            rows: "1 ann db/a.json EXECUTED P1:09ffa62ad982bd26aab02d8405d86c7d null 1 1",
            wanted: "",
        },
    ];
    plan(&rt, rt.alloc(), &cases)
}

#[test]
fn what_runs_always_runs_again_in_place_of_a_rewriting(rt: HostRuntime) {
    let cases = [Case {
        sets: r#"[{"id":1,"author":"ann","runAlways":true,"changes":[{"sql":{"sql":"DELETE  FROM t"}}]}]"#,
        rows: "1 ann db/a.json EXECUTED P1:09ffa62ad982bd26aab02d8405d86c7d null 1 1",
        wanted: "\n0 again\npending db/a.json::1::ann",
    }];
    plan(&rt, rt.alloc(), &cases)
}

// A mark of another form is none of the old one.
#[test]
fn only_the_old_form_is_rewritten(rt: HostRuntime) {
    let cases = [
        Case {
            sets: r#"[{"id":1,"author":"ann","changes":[{"sql":{"sql":"DELETE FROM t"}}]}]"#,
            rows: "1 ann db/a.json EXECUTED p1:c8861b2452536943629c05b84c2ae3fe null 1 1",
            wanted: "\nchanged db/a.json::1::ann from p1:c8861b2452536943629c05b84c2ae3fe to P2:c8861b2452536943629c05b84c2ae3fe",
        },
        Case {
            sets: r#"[{"id":1,"author":"ann","changes":[{"sql":{"sql":"DELETE FROM t"}}]}]"#,
            rows: "1 ann db/a.json EXECUTED c8861b2452536943629c05b84c2ae3fe null 1 1",
            wanted: "\nchanged db/a.json::1::ann from c8861b2452536943629c05b84c2ae3fe to P2:c8861b2452536943629c05b84c2ae3fe",
        },
        Case {
            sets: r#"[{"id":1,"author":"ann","changes":[{"sql":{"sql":"DELETE FROM t"}}]}]"#,
            rows: "1 ann db/a.json EXECUTED P1 null 1 1",
            wanted: "\nchanged db/a.json::1::ann from P1 to P2:c8861b2452536943629c05b84c2ae3fe",
        },
    ];
    plan(&rt, rt.alloc(), &cases)
}
