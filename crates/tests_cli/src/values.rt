use crate::shown::{Row, refuse, tell};

const URL: &str = "--url=postgresql:db";

const FILE: &str = "--changelog-file=a.json";

#[test]
fn databases_are_named(rt: HostRuntime) {
    let rows: [Row<'_>; 4] = [
        (
            &["release-locks", "--url=postgresql:a:b=c"],
            "Run(Release) Postgresql a:b=c -",
        ),
        (
            &["release-locks", "--url=mysql:postgresql:"],
            "Run(Release) Mysql postgresql: -",
        ),
        (
            &["release-locks", "--url", "mysql:-"],
            "Run(Release) Mysql - -",
        ),
        (
            &["release-locks", "--url=postgresql: "],
            "Run(Release) Postgresql   -",
        ),
    ];
    tell(&rt, rt.alloc(), &rows);
    let none: [&[&str]; 9] = [
        &["release-locks", "--url="],
        &["release-locks", "--url", ""],
        &["release-locks", "--url=mysql"],
        &["release-locks", "--url=:db"],
        &["release-locks", "--url=postgres:db"],
        &["release-locks", "--url=PostgreSQL:db"],
        &["release-locks", "--url= postgresql:db"],
        &["release-locks", "--url", "-postgresql:db"],
        &["release-locks", "--url", "mysql:"],
    ];
    refuse(&rt, rt.alloc(), &none);
}

// A value that stands apart does not begin with `-`.
#[test]
fn values_may_begin_with_a_dash_or_be_empty(rt: HostRuntime) {
    let rows: [Row<'_>; 10] = [
        (
            &["update", URL, "--changelog-file=-a.json"],
            "Run(Update) Postgresql db -a.json",
        ),
        (
            &["update", URL, "--changelog-file", ""],
            "Run(Update) Postgresql db ",
        ),
        (
            &["update", URL, FILE, "--context-filter", ""],
            "Run(Update) Postgresql db a.json",
        ),
        (
            &["update", URL, FILE, "--context-filter=-a, --b"],
            "Run(Update) Postgresql db a.json @-a @--b",
        ),
        (
            &["update", URL, FILE, "--label-filter=-l"],
            "Run(Update) Postgresql db a.json Name(-l)",
        ),
        (
            &["rollback", URL, FILE, "--tag=--tag=v1"],
            "Run(Rollback(Tag(--tag=v1))) Postgresql db a.json",
        ),
        (&["drill", URL, "--runs=-r"], "Drill(-r) Postgresql db -"),
        (
            &["drill", URL, "--runs=--runs=r"],
            "Drill(--runs=r) Postgresql db -",
        ),
        (&["drill", URL, "--runs="], "Drill() Postgresql db -"),
        (&["drill", URL, "--runs", ""], "Drill() Postgresql db -"),
    ];
    tell(&rt, rt.alloc(), &rows);
    let none: [&[&str]; 19] = [
        &["update", URL, "--changelog-file", "-a.json"],
        &["update", URL, "--changelog-file", "-Dx=1"],
        &["update", URL, FILE, "--context-filter", "-a"],
        &["update", URL, FILE, "--label-filter", "-l"],
        &["update", URL, FILE, "--label-filter", ""],
        &["rollback", URL, FILE, "--tag", "-v1"],
        &["rollback", URL, FILE, "--tag", ""],
        &["rollback-count", URL, FILE, "--count", "-1"],
        &["rollback-count", URL, FILE, "--count", ""],
        &["rollback-to-date", URL, FILE, "--date", "-0001-01-01"],
        &["rollback-to-date", URL, FILE, "--date", ""],
        &["tag", URL, "--tag", ""],
        &["drill", URL, "--runs", "-r"],
        &["drill", URL, "--runs", "--runs=r"],
        &["drill", "--url=", "--runs=r"],
        &["drill", "--url=mysql:", "--runs=r"],
        &["drill", "--url=oracle:db", "--runs=r"],
        &["soak", URL, "--sets=1", "--number", "-1"],
        &["soak", URL, "--sets=1", "--number="],
    ];
    refuse(&rt, rt.alloc(), &none);
}

#[test]
fn names_of_filters_are_read(rt: HostRuntime) {
    let rows: [Row<'_>; 3] = [
        (
            &["update", URL, FILE, "--context-filter= \t "],
            "Run(Update) Postgresql db a.json",
        ),
        (
            &["update", URL, FILE, "--context-filter=A,a,A"],
            "Run(Update) Postgresql db a.json @A @a @A",
        ),
        (
            &["update", URL, FILE, "--context-filter=a@b,\u{e9}"],
            "Run(Update) Postgresql db a.json @a@b @\u{e9}",
        ),
    ];
    tell(&rt, rt.alloc(), &rows);
    let none: [&[&str]; 12] = [
        &["update", URL, FILE, "--context-filter=,"],
        &["update", URL, FILE, "--context-filter=a,"],
        &["update", URL, FILE, "--context-filter=a,,b"],
        &["update", URL, FILE, "--context-filter=!a"],
        &["update", URL, FILE, "--context-filter=(a)"],
        &["update", URL, FILE, "--context-filter=a and b"],
        &["update", URL, FILE, "--context-filter=Or"],
        &["update", URL, FILE, "--label-filter= "],
        &["update", URL, FILE, "--label-filter=not"],
        &["update", URL, FILE, "--label-filter=a b"],
        &["update", URL, FILE, "--label-filter=(a"],
        &["update", URL, FILE, "--label-filter=@a"],
    ];
    refuse(&rt, rt.alloc(), &none);
}
