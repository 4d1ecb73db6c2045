use crate::asked::select;

#[test]
fn contexts_hold_for_the_names_of_a_command(rt: HostRuntime) {
    let sets =
        r#"[{"id":1,"author":"ann","context":"!test and (dev or qa), prod"},{"id":2,"author":"ann"},{"id":3,"author":"ann","context":"  "},{"id":4,"author":"ann","contextFilter":"Test"},{"id":5,"author":"ann","context":"not dev"}]"#;
    let cases = [
        (("", ""), " 1 2 3 4 5"),
        (("QA", ""), " 1 2 3 5"),
        (("test", ""), " 2 3 4 5"),
        (("prod", ""), " 1 2 3 5"),
        (("dev", ""), " 1 2 3"),
        (("other", ""), " 2 3 5"),
        (("dev, TEST", ""), " 2 3 4"),
        (("test,prod", ""), " 1 2 3 4 5"),
    ];
    select(&rt, rt.alloc(), sets, &cases)
}

#[test]
fn label_filters_hold_for_the_labels_of_a_changeset(rt: HostRuntime) {
    let sets =
        r#"[{"id":1,"author":"ann","labels":"v1, V2"},{"id":2,"author":"ann"},{"id":3,"author":"ann","labels":" "},{"id":4,"author":"ann","labels":"v3"},{"id":5,"author":"ann","labels":"v1"}]"#;
    let cases = [
        (("", ""), " 1 2 3 4 5"),
        (("", "v2"), " 1 2 3"),
        (("", "v1"), " 1 2 3 5"),
        (("", "v1 and v2"), " 1 2 3"),
        (("", "!v1"), " 2 3 4"),
        (("", "v1 and !v2, v3"), " 2 3 4 5"),
        (("", "v4"), " 2 3"),
    ];
    select(&rt, rt.alloc(), sets, &cases)
}

#[test]
fn a_changeset_is_selected_by_all_that_it_says(rt: HostRuntime) {
    let sets =
        r#"[{"id":1,"author":"ann","context":"dev","labels":"v1"},{"id":2,"author":"ann","context":"dev","labels":"v1","dbms":"mysql"},{"id":3,"author":"ann","dbms":"mysql"},{"id":4,"author":"ann","dbms":"!mysql"},{"id":5,"author":"ann","dbms":"all"},{"id":6,"author":"ann","dbms":"none"},{"id":7,"author":"ann","dbms":"mysql, postgresql"}]"#;
    let cases = [
        (("", ""), " 1 4 5 7"),
        (("dev", "v1"), " 1 4 5 7"),
        (("dev", "v2"), " 4 5 7"),
        (("qa", "v1"), " 4 5 7"),
    ];
    select(&rt, rt.alloc(), sets, &cases)
}
