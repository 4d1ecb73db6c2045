use crate::shown::{Row, refuse, tell};

const URL: &str = "--url=postgresql:db";

const FILE: &str = "--changelog-file=a.json";

#[test]
fn options_stand_in_any_order(rt: HostRuntime) {
    let rows: [Row<'_>; 15] = [
        (
            &[
                "validate",
                "--changelog-file",
                "a.json",
                "--url",
                "mysql:db",
                "-Dx=1",
            ],
            "Run(Validate) Mysql db a.json x=1",
        ),
        (
            &["validate", "-Dx=1", "--url", "mysql:db", FILE],
            "Run(Validate) Mysql db a.json x=1",
        ),
        (
            &["status", "-Dx=1", "--context-filter", "a,b", FILE, URL],
            "Run(Status) Postgresql db a.json @a @b x=1",
        ),
        (
            &[
                "update-sql",
                "--changelog-file",
                "a.json",
                "-Dx=1",
                "--url",
                "mysql:db",
            ],
            "UpdateSql Mysql db a.json x=1",
        ),
        (
            &[
                "update-sql",
                "--label-filter=l",
                "--context-filter",
                "a",
                URL,
                FILE,
            ],
            "UpdateSql Postgresql db a.json @a Name(l)",
        ),
        (
            &[
                "update-sql",
                FILE,
                "--context-filter=a",
                URL,
                "--label-filter",
                "l",
            ],
            "UpdateSql Postgresql db a.json @a Name(l)",
        ),
        (
            &["changelog-sync", "--label-filter", "l", FILE, "-Dx=1", URL],
            "Run(Sync) Postgresql db a.json Name(l) x=1",
        ),
        (
            &[
                "changelog-sync",
                "--changelog-file",
                "a.json",
                "--url",
                "mysql:db",
            ],
            "Run(Sync) Mysql db a.json",
        ),
        (
            &[
                "rollback-count",
                "-Dx=1",
                FILE,
                "--count",
                "7",
                "--url",
                "mysql:db",
                "-Dy=2",
            ],
            "Run(Rollback(Count(7))) Mysql db a.json x=1 y=2",
        ),
        (
            &["tag", "--tag", "v1", "--url", "mysql:db"],
            "Run(Tag(v1)) Mysql db -",
        ),
        (
            &["release-locks", "--url", "postgresql:db"],
            "Run(Release) Postgresql db -",
        ),
        (
            &["drill", "--runs=r", "--url=mysql:db"],
            "Drill(r) Mysql db -",
        ),
        (
            &["drill", "--url=mysql:db", "--runs=r"],
            "Drill(r) Mysql db -",
        ),
        (
            &["drill", "--runs", "r", "--url", "mysql:db"],
            "Drill(r) Mysql db -",
        ),
        (
            &["drill", "--url", "mysql:db", "--runs", "r"],
            "Drill(r) Mysql db -",
        ),
    ];
    tell(&rt, rt.alloc(), &rows);
}

#[test]
fn options_that_are_missing_are_refused(rt: HostRuntime) {
    let none: [&[&str]; 29] = [
        &["validate"],
        &["validate", URL],
        &["validate", FILE],
        &["status", URL],
        &["status", FILE],
        &["update-sql", URL, "--context-filter=a"],
        &["update-sql", FILE],
        &["changelog-sync", URL, "-Dx=1"],
        &["changelog-sync", FILE],
        &["rollback", URL, "--tag=v1"],
        &["rollback", FILE, "--tag=v1"],
        &["rollback-count", URL, FILE],
        &["rollback-count", URL, "--count=1"],
        &["rollback-count", FILE, "--count=1"],
        &["rollback-to-date", URL, FILE],
        &["rollback-to-date", URL, "--date=1970-01-02"],
        &["rollback-to-date", FILE, "--date=1970-01-02"],
        &["rollback-sql", URL, "--tag=v1"],
        &["rollback-sql", FILE, "--tag=v1"],
        &["tag", URL],
        &["tag", "--tag=v1"],
        &["release-locks"],
        &["drill"],
        &["drill", URL],
        &["drill", "--runs=r"],
        &["drill", "--runs", "r"],
        &["soak", URL, "--number=1"],
        &["soak", URL, "--sets=1"],
        &["soak", "--number=1", "--sets=1"],
    ];
    refuse(&rt, rt.alloc(), &none);
}

#[test]
fn options_that_stand_twice_are_refused(rt: HostRuntime) {
    let none: [&[&str]; 19] = [
        &["validate", URL, FILE, URL],
        &["validate", FILE, URL, "--changelog-file", "a.json"],
        &["status", URL, FILE, "--url", "mysql:db"],
        &[
            "status",
            URL,
            FILE,
            "--context-filter=",
            "--context-filter=",
        ],
        &["update-sql", FILE, URL, FILE],
        &[
            "changelog-sync",
            URL,
            FILE,
            "--label-filter=l",
            "--label-filter=l",
        ],
        &["rollback", URL, FILE, "--tag", "v1", "--tag=v2"],
        &["rollback-count", "--count=1", URL, FILE, "--count", "2"],
        &[
            "rollback-to-date",
            "--date",
            "1970-01-02",
            URL,
            FILE,
            "--date=1970-01-03",
        ],
        &["rollback-sql", URL, FILE, "--tag=v1", "--tag=v1"],
        &["rollback-sql", URL, FILE, "--count=1", "--count=1"],
        &[
            "rollback-sql",
            URL,
            FILE,
            "--date=1970-01-02",
            "--date=1970-01-02",
        ],
        &["tag", URL, URL, "--tag=v1"],
        &["release-locks", URL, URL],
        &["drill", URL, "--runs=r", URL],
        &["drill", "--runs=r", URL, "--runs=r"],
        &["drill", URL, "--runs", "r", "--runs=s"],
        &["drill", URL, "--runs=r", "--runs", "s"],
        &["soak", URL, URL, "--number=1", "--sets=1"],
    ];
    refuse(&rt, rt.alloc(), &none);
}

#[test]
fn options_of_other_commands_are_refused(rt: HostRuntime) {
    let none: [&[&str]; 28] = [
        &["validate", URL, FILE, "--label-filter=l"],
        &["validate", URL, FILE, "--tag=v1"],
        &["status", URL, FILE, "--count=1"],
        &["update-sql", URL, FILE, "--tag=v1"],
        &["changelog-sync", URL, FILE, "--date=1970-01-02"],
        &["rollback", URL, FILE, "--tag=v1", "--count=1"],
        &["rollback", URL, FILE, "--tag=v1", "--context-filter=a"],
        &["rollback-count", URL, FILE, "--count=1", "--tag=v1"],
        &["rollback-count", URL, FILE, "--count=1", "--label-filter=l"],
        &[
            "rollback-to-date",
            URL,
            FILE,
            "--date=1970-01-02",
            "--count=1",
        ],
        &["rollback-sql", URL, FILE, "--tag=v1", "--context-filter=a"],
        &["tag", URL, "--tag=v1", "--count=1"],
        &["tag", URL, "--tag=v1", "-Dx=1"],
        &["release-locks", URL, "--tag=v1"],
        &["release-locks", URL, "-Dx=1"],
        &["release-locks", URL, FILE],
        &["drill", URL, "--runs=r", FILE],
        &["drill", URL, "--runs=r", "-Dx=1"],
        &["drill", URL, "--runs=r", "--context-filter=a"],
        &["drill", URL, "--runs=r", "--label-filter=l"],
        &["drill", URL, "--runs=r", "--tag=v1"],
        &["drill", URL, "--runs=r", "--count=1"],
        &["drill", URL, "--runs=r", "--sets=1"],
        &["update", URL, FILE, "--runs=r"],
        &["release-locks", URL, "--runs=r"],
        &["soak", URL, "--number=1", "--sets=1", "--runs=r"],
        &["soak", URL, "--number=1", "--sets=1", "-Dx=1"],
        &["soak", URL, "--number=1", "--sets=1", FILE],
    ];
    refuse(&rt, rt.alloc(), &none);
}

#[test]
fn words_that_are_no_option_are_refused(rt: HostRuntime) {
    let none: [&[&str]; 33] = [
        &[""],
        &[" update", URL, FILE],
        &["--url=postgresql:db", "update", FILE],
        &["update", "update", URL, FILE],
        &["update", URL, FILE, ""],
        &["update", URL, FILE, "--", "-Dx=1"],
        &["update", "-url=postgresql:db", FILE],
        &["update", "--URL=postgresql:db", FILE],
        &["update", "--ur=postgresql:db", FILE],
        &["update", "url=postgresql:db", FILE],
        &["update", URL, "--changelog_file=a.json"],
        &["update", URL, "--changelog-file"],
        &["update", URL, FILE, "--context-filter"],
        &["update", URL, FILE, "--label-filter"],
        &["tag", URL, "--tag"],
        &["drill", URL, "--runs"],
        &["drill", "--runs", URL],
        &["drill", URL, "-runs=r"],
        &["drill", URL, "--run=r"],
        &["drill", URL, "--Runs=r"],
        &["drill", URL, "r"],
        &["drill", URL, "--runs=r", "s"],
        &["drill", URL, "--runs=r", "--help"],
        &["update", URL, FILE, "--define=x=1"],
        &["update", URL, FILE, "--D=x=1"],
        &["update", URL, FILE, "-dx=1"],
        &["update", URL, FILE, "-D=x=1"],
        &["update", URL, FILE, "-D=="],
        &["update", URL, FILE, "-Dx"],
        &["update", URL, FILE, "-D "],
        &["update", URL, FILE, "-D", "x"],
        &["update", URL, FILE, "-Dx=1", "-D"],
        &["update", URL, FILE, "-Dx=1", "-D=1"],
    ];
    refuse(&rt, rt.alloc(), &none);
}

// The name goes to the first `=` and has at least one byte.
#[test]
fn properties_are_defined_as_often_as_wanted(rt: HostRuntime) {
    let rows: [Row<'_>; 8] = [
        (
            &["update", "-Dx=1", URL, "-Dx=2", FILE, "-Dx=1"],
            "Run(Update) Postgresql db a.json x=1 x=2 x=1",
        ),
        (
            &["validate", URL, FILE, "-Dx==", "-Dy=a=b=c"],
            "Run(Validate) Postgresql db a.json x== y=a=b=c",
        ),
        (
            &["status", URL, FILE, "-D x= 1 ", "-D-y=-1", "-DD=D"],
            "Run(Status) Postgresql db a.json  x= 1  -y=-1 D=D",
        ),
        (
            &["update-sql", URL, FILE, "-Dx=1,y=2", "-Da.b=${x}"],
            "UpdateSql Postgresql db a.json x=1,y=2 a.b=${x}",
        ),
        (
            &["changelog-sync", URL, FILE, "-D\u{e9}=\u{1f600}", "-Dx=\n"],
            "Run(Sync) Postgresql db a.json \u{e9}=\u{1f600} x=\n",
        ),
        (
            &["rollback", "-Dx=--tag=v2", URL, FILE, "--tag=v1"],
            "Run(Rollback(Tag(v1))) Postgresql db a.json x=--tag=v2",
        ),
        (
            &[
                "rollback-to-date",
                "-Dx=1",
                URL,
                FILE,
                "--date=1970-01-01",
                "-Dx=",
            ],
            "Run(Rollback(Date(0))) Postgresql db a.json x=1 x=",
        ),
        (
            &["rollback-sql", "-Dx=1", URL, FILE, "--count=1", "-Dy=2"],
            "RollbackSql(Count(1)) Postgresql db a.json x=1 y=2",
        ),
    ];
    tell(&rt, rt.alloc(), &rows);
}
