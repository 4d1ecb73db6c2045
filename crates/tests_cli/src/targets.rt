use crate::shown::{Row, refuse, tell};

const URL: &str = "--url=postgresql:db";

const FILE: &str = "--changelog-file=a.json";

#[test]
fn counts_are_decimal(rt: HostRuntime) {
    let rows: [Row<'_>; 3] = [
        (
            &["rollback-count", URL, FILE, "--count=10"],
            "Run(Rollback(Count(10))) Postgresql db a.json",
        ),
        (
            &["rollback-sql", URL, FILE, "--count", "4294967295"],
            "RollbackSql(Count(4294967295)) Postgresql db a.json",
        ),
        (
            &["soak", URL, "--sets=1", "--number=18446744073709551615"],
            "Soak(18446744073709551615)(1) Postgresql db -",
        ),
    ];
    tell(&rt, rt.alloc(), &rows);
    let none: [&[&str]; 22] = [
        &["rollback-count", URL, FILE, "--count=-0"],
        &["rollback-count", URL, FILE, "--count=00"],
        &["rollback-count", URL, FILE, "--count", "+1"],
        &["rollback-count", URL, FILE, "--count", "01"],
        &["rollback-count", URL, FILE, "--count= 1"],
        &["rollback-count", URL, FILE, "--count=1 "],
        &["rollback-count", URL, FILE, "--count=1.0"],
        &["rollback-count", URL, FILE, "--count=1e1"],
        &["rollback-count", URL, FILE, "--count=0x1"],
        &["rollback-count", URL, FILE, "--count=1_000"],
        &["rollback-count", URL, FILE, "--count=\u{661}"],
        &["rollback-count", URL, FILE, "--count=18446744073709551617"],
        &[
            "rollback-count",
            URL,
            FILE,
            "--count=340282366920938463463374607431768211457",
        ],
        &["rollback-sql", URL, FILE, "--count=-1"],
        &["rollback-sql", URL, FILE, "--count=+1"],
        &["rollback-sql", URL, FILE, "--count=01"],
        &["rollback-sql", URL, FILE, "--count=4294967296"],
        &["soak", URL, "--sets=0", "--number=1"],
        &["soak", URL, "--sets=01", "--number=1"],
        &["soak", URL, "--sets=10001", "--number=1"],
        &["soak", URL, "--sets=1", "--number=+1"],
        &["soak", URL, "--sets=1", "--number=18446744073709551616"],
    ];
    refuse(&rt, rt.alloc(), &none);
}

#[test]
fn dates_are_moments(rt: HostRuntime) {
    let rows: [Row<'_>; 9] = [
        (
            &[
                "rollback-to-date",
                "--date",
                "1970-01-01 00:00:01",
                FILE,
                URL,
            ],
            "Run(Rollback(Date(1000))) Postgresql db a.json",
        ),
        (
            &["rollback-to-date", FILE, "--date=1970-01-01T23:59:59", URL],
            "Run(Rollback(Date(86399000))) Postgresql db a.json",
        ),
        (
            &[
                "rollback-to-date",
                URL,
                FILE,
                "--date=1970-01-01T00:00:00.001",
            ],
            "Run(Rollback(Date(1))) Postgresql db a.json",
        ),
        (
            &["rollback-to-date", URL, FILE, "--date=1969-12-31"],
            "Run(Rollback(Date(-86400000))) Postgresql db a.json",
        ),
        (
            &["rollback-to-date", URL, FILE, "--date=2000-02-29"],
            "Run(Rollback(Date(951782400000))) Postgresql db a.json",
        ),
        (
            &["rollback-to-date", URL, FILE, "--date=0001-01-01"],
            "Run(Rollback(Date(-62135596800000))) Postgresql db a.json",
        ),
        (
            &[
                "rollback-to-date",
                URL,
                FILE,
                "--date=9999-12-31 23:59:59.999",
            ],
            "Run(Rollback(Date(253402300799999))) Postgresql db a.json",
        ),
        (
            &["rollback-sql", "--date=1970-01-02T00:00:00", URL, FILE],
            "RollbackSql(Date(86400000)) Postgresql db a.json",
        ),
        (
            &["rollback-sql", URL, "--date", "1970-01-02", FILE],
            "RollbackSql(Date(86400000)) Postgresql db a.json",
        ),
    ];
    tell(&rt, rt.alloc(), &rows);
    let none: [&[&str]; 25] = [
        &["rollback-to-date", URL, FILE, "--date=0000-12-31"],
        &["rollback-to-date", URL, FILE, "--date=10000-01-01"],
        &["rollback-to-date", URL, FILE, "--date=1900-02-29"],
        &["rollback-to-date", URL, FILE, "--date=1970-13-01"],
        &["rollback-to-date", URL, FILE, "--date=1970-00-01"],
        &["rollback-to-date", URL, FILE, "--date=1970-01-00"],
        &["rollback-to-date", URL, FILE, "--date=1970-04-31"],
        &["rollback-to-date", URL, FILE, "--date=1970-1-2"],
        &["rollback-to-date", URL, FILE, "--date=19700102"],
        &["rollback-to-date", URL, FILE, "--date=+1970-01-02"],
        &["rollback-to-date", URL, FILE, "--date= 1970-01-02"],
        &["rollback-to-date", URL, FILE, "--date=1970-01-02 "],
        &["rollback-to-date", URL, FILE, "--date=1970-01-02T"],
        &["rollback-to-date", URL, FILE, "--date=1970-01-02 24:00:00"],
        &["rollback-to-date", URL, FILE, "--date=1970-01-02 23:60:00"],
        &["rollback-to-date", URL, FILE, "--date=1970-01-02 23:59:60"],
        &["rollback-to-date", URL, FILE, "--date=1970-01-02 23:59"],
        &["rollback-to-date", URL, FILE, "--date=1970-01-02t23:59:59"],
        &["rollback-to-date", URL, FILE, "--date=1970-01-02  23:59:59"],
        &["rollback-to-date", URL, FILE, "--date=1970-01-02 23:59:59."],
        &[
            "rollback-to-date",
            URL,
            FILE,
            "--date=1970-01-02 23:59:59.1234",
        ],
        &[
            "rollback-to-date",
            URL,
            FILE,
            "--date=1970-01-02 23:59:59,123",
        ],
        &["rollback-to-date", URL, FILE, "--date=1970-01-02T23:59:59Z"],
        &["rollback-to-date", URL, FILE, "--date=now"],
        &["rollback-sql", URL, FILE, "--date=1970-02-30"],
    ];
    refuse(&rt, rt.alloc(), &none);
}

#[test]
fn one_target_is_given(rt: HostRuntime) {
    let rows: [Row<'_>; 2] = [
        (
            &["rollback-sql", FILE, "--tag", "v1", URL],
            "RollbackSql(Tag(v1)) Postgresql db a.json",
        ),
        (
            &["rollback-sql", "--count", "0", FILE, "--url", "mysql:db"],
            "RollbackSql(Count(0)) Mysql db a.json",
        ),
    ];
    tell(&rt, rt.alloc(), &rows);
    let none: [&[&str]; 8] = [
        &["rollback-sql", URL, FILE, "-Dx=1"],
        &["rollback-sql", URL, FILE, "--tag=v1", "--date=1970-01-02"],
        &[
            "rollback-sql",
            URL,
            FILE,
            "--date=1970-01-02",
            "--count",
            "1",
        ],
        &["rollback-sql", "--count=1", URL, FILE, "--tag", "v1"],
        &[
            "rollback-sql",
            URL,
            FILE,
            "--tag=v1",
            "--count=1",
            "--date=1970-01-02",
        ],
        &["rollback-sql", URL, FILE, "--tag="],
        &["rollback-sql", URL, FILE, "--tag=a\nb"],
        &["rollback-sql", URL, FILE, "--tag", "-v1"],
    ];
    refuse(&rt, rt.alloc(), &none);
}

#[test]
fn tags_have_no_control_character(rt: HostRuntime) {
    let rows: [Row<'_>; 2] = [
        (
            &["tag", URL, "--tag= \u{80}\u{e9}"],
            "Run(Tag( \u{80}\u{e9})) Postgresql db -",
        ),
        (
            &["rollback", URL, FILE, "--tag=\"'"],
            "Run(Rollback(Tag(\"'))) Postgresql db a.json",
        ),
    ];
    tell(&rt, rt.alloc(), &rows);
    let none: [&[&str]; 4] = [
        &["tag", URL, "--tag=a\tb"],
        &["tag", URL, "--tag=\u{7f}"],
        &["tag", URL, "--tag=\u{0}"],
        &["rollback", URL, FILE, "--tag=v1\n"],
    ];
    refuse(&rt, rt.alloc(), &none);
}
