use crate::shown::told;
use std::test::Fail;

const URL: &str = "--url=postgresql:db";

const MY: &str = "--url=mysql:a/b.db";

const FILE: &str = "--changelog-file=a.json";

#[test]
fn commands_are_read(rt: HostRuntime) -> Result<(), Fail> {
    let cases: [(&[&str], &str); 40] = [
        (
            &["validate", URL, FILE],
            "Run(Validate) Postgresql db a.json",
        ),
        (&["validate", FILE, MY], "Run(Validate) Mysql a/b.db a.json"),
        (
            &[
                "status",
                "--url",
                "postgresql:db",
                "--changelog-file",
                "a.json",
            ],
            "Run(Status) Postgresql db a.json",
        ),
        (
            &["update", URL, FILE, "--context-filter= a , b"],
            "Run(Update) Postgresql db a.json @a @b",
        ),
        (
            &["update", "--context-filter=", FILE, URL],
            "Run(Update) Postgresql db a.json",
        ),
        (
            &["update", "--label-filter", "l", URL, FILE],
            "Run(Update) Postgresql db a.json Name(l)",
        ),
        (
            &["update", URL, "-Dx=1", FILE, "-Dy=", "-Dx=a=b"],
            "Run(Update) Postgresql db a.json x=1 y= x=a=b",
        ),
        (
            &["update", URL, "--changelog-file="],
            "Run(Update) Postgresql db ",
        ),
        (&["update-sql", URL, FILE], "UpdateSql Postgresql db a.json"),
        (
            &["update-count", URL, FILE, "--count=0"],
            "UpdateCount(0) Postgresql db a.json",
        ),
        (
            &["update-count", "--count", "4294967295", "-Dx=1", FILE, MY],
            "UpdateCount(4294967295) Mysql a/b.db a.json x=1",
        ),
        (
            &[
                "update-count",
                "--label-filter=l",
                "--count=7",
                "--context-filter=a,b",
                URL,
                FILE,
            ],
            "UpdateCount(7) Postgresql db a.json @a @b Name(l)",
        ),
        (
            &["update-to-tag", URL, FILE, "--tag=v1", "-Dx=1"],
            "UpdateTo(v1) Postgresql db a.json x=1",
        ),
        (
            &[
                "update-to-tag",
                "--label-filter=l",
                "--tag",
                "v 1",
                "--context-filter=a,b",
                MY,
                FILE,
            ],
            "UpdateTo(v 1) Mysql a/b.db a.json @a @b Name(l)",
        ),
        (
            &["update-testing-rollback", URL, FILE, "-Dx=1"],
            "UpdateTestingRollback Postgresql db a.json x=1",
        ),
        (
            &[
                "update-testing-rollback",
                "--label-filter=l",
                "--context-filter=a,b",
                MY,
                FILE,
            ],
            "UpdateTestingRollback Mysql a/b.db a.json @a @b Name(l)",
        ),
        (&["clear-checksums", MY], "ClearSums Mysql a/b.db -"),
        (
            &["undo-unrecorded", FILE, MY],
            "UndoUnrecorded Mysql a/b.db a.json",
        ),
        (
            &["undo-unrecorded", "-Dx=1", URL, FILE],
            "UndoUnrecorded Postgresql db a.json x=1",
        ),
        (&["snapshot", MY], "Snapshot Mysql a/b.db -"),
        (&["history", MY], "History Mysql a/b.db -"),
        (
            &["generate-changelog", "--author", "ann b", MY],
            "Generate(ann b) Mysql a/b.db -",
        ),
        (
            &["changelog-sync", URL, FILE, "--context-filter=a"],
            "Run(Sync) Postgresql db a.json @a",
        ),
        (
            &["rollback", URL, FILE, "--tag=v1"],
            "Run(Rollback(Tag(v1))) Postgresql db a.json",
        ),
        (
            &["rollback", "--tag", "v 1", FILE, URL, "-Da=b"],
            "Run(Rollback(Tag(v 1))) Postgresql db a.json a=b",
        ),
        (
            &["rollback-count", URL, FILE, "--count=0"],
            "Run(Rollback(Count(0))) Postgresql db a.json",
        ),
        (
            &["rollback-count", "--count", "4294967295", FILE, URL],
            "Run(Rollback(Count(4294967295))) Postgresql db a.json",
        ),
        (
            &["rollback-to-date", URL, FILE, "--date=1970-01-02"],
            "Run(Rollback(Date(86400000))) Postgresql db a.json",
        ),
        (
            &[
                "rollback-to-date",
                URL,
                FILE,
                "--date=1970-01-01T00:00:01.5",
            ],
            "usage",
        ),
        (
            &[
                "rollback-to-date",
                URL,
                FILE,
                "--date=1970-01-01 00:00:01.500",
            ],
            "Run(Rollback(Date(1500))) Postgresql db a.json",
        ),
        (
            &["rollback-sql", URL, FILE, "--count=1"],
            "RollbackSql(Count(1)) Postgresql db a.json",
        ),
        (
            &["rollback-sql", "--tag=t", URL, FILE],
            "RollbackSql(Tag(t)) Postgresql db a.json",
        ),
        (&["tag", URL, "--tag=v1"], "Run(Tag(v1)) Postgresql db -"),
        (&["tag", "--tag=-v", URL], "Run(Tag(-v)) Postgresql db -"),
        (
            &["status", "--label-filter=l", FILE, URL],
            "Run(Status) Postgresql db a.json Name(l)",
        ),
        (
            &["drill", URL, "--runs=a/runs"],
            "Drill(a/runs) Postgresql db -",
        ),
        (&["drill", "--runs", "a b", MY], "Drill(a b) Mysql a/b.db -"),
        (
            &["soak", "--number", "7", "--sets", "1", URL],
            "Soak(7)(1) Postgresql db -",
        ),
        (&["release-locks", MY], "Run(Release) Mysql a/b.db -"),
        (
            &["soak", "--sets=10000", URL, "--number=0"],
            "Soak(0)(10000) Postgresql db -",
        ),
    ];
    for (words, want) in cases {
        let text = told(rt.alloc(), words)?;
        assert_eq!(rt; text.as_str(), want);
    }
    Ok(())
}

#[test]
fn other_words_are_usage(rt: HostRuntime) -> Result<(), Fail> {
    let cases: [&[&str]; 96] = [
        &[],
        &["updates", URL, FILE],
        &["Update", URL, FILE],
        &["update"],
        &["update", URL],
        &["update", FILE],
        &["update", URL, URL, FILE],
        &["update", URL, FILE, FILE],
        &["update", URL, FILE, "more"],
        &["update", URL, FILE, "--"],
        &["update", URL, FILE, "-"],
        &["update", URL, FILE, "--help"],
        &["update", URL, FILE, "--version"],
        &["update", URL, FILE, "-h"],
        &["update", URL, FILE, "--tag=v1"],
        &["update", URL, FILE, "--count=1"],
        &["update", URL, FILE, "-D"],
        &["update", URL, FILE, "-D=b"],
        &["update", URL, FILE, "-Dab"],
        &["update", URL, FILE, "-D", "a=b"],
        &["update", "--url=postgresql:", FILE],
        &["update", "--url=oracle:db", FILE],
        &["update", "--url=db", FILE],
        &["update", "--url", "--changelog-file=a.json"],
        &["update", URL, FILE, "--label-filter="],
        &["update", URL, FILE, "--label-filter=a and"],
        &["update", URL, FILE, "--context-filter=a b"],
        &["update", URL, FILE, "--context-filter=@a"],
        &[
            "update",
            URL,
            FILE,
            "--context-filter=a",
            "--context-filter=b",
        ],
        &[
            "update",
            URL,
            FILE,
            "--label-filter=a",
            "--label-filter",
            "a",
        ],
        &["rollback", URL, FILE, "--tag=t", "--tag=t"],
        &["tag", URL, "--tag", "t", "--tag", "t"],
        &["rollback-count", URL, FILE, "--count=1", "--count=1"],
        &[
            "rollback-to-date",
            URL,
            FILE,
            "--date=1970-01-02",
            "--date=1970-01-02",
        ],
        &["soak", URL, "--sets=1", "--sets=1", "--number=0"],
        &["soak", URL, "--sets=1", "--number=0", "--number=0"],
        &["tag", URL, "--tag", "-v"],
        &["rollback-count", URL, FILE, "--count="],
        &["rollback-count", URL, FILE, "--count=-1"],
        &["rollback-to-date", URL, FILE, "--date="],
        &["validate", URL, FILE, "--context-filter=a"],
        &["rollback", URL, FILE],
        &["rollback", URL, FILE, "--tag="],
        &["rollback-count", URL, FILE, "--count=+1"],
        &["rollback-count", URL, FILE, "--count=01"],
        &["rollback-count", URL, FILE, "--count=4294967296"],
        &["rollback-to-date", URL, FILE, "--date=1970-02-30"],
        &["rollback-sql", URL, FILE],
        &["rollback-sql", URL, FILE, "--tag=t", "--count=1"],
        &["tag", URL, "--tag=t", FILE],
        &["drill", URL],
        &["drill", "--runs=r"],
        &["drill", URL, "--runs=r", "--runs=r"],
        &["drill", URL, "--runs=r", FILE],
        &["drills", URL, "--runs=r"],
        &["Drill", URL, "--runs=r"],
        &["update-count"],
        &["update-count", URL, FILE],
        &["update-count", URL, "--count=1"],
        &["update-count", FILE, "--count=1"],
        &["update-count", URL, FILE, "--count="],
        &["update-count", URL, FILE, "--count=-1"],
        &["update-count", URL, FILE, "--count=+1"],
        &["update-count", URL, FILE, "--count=01"],
        &["update-count", URL, FILE, "--count=4294967296"],
        &["update-count", URL, FILE, "--count=1", "--count=1"],
        &["update-count", URL, FILE, "--count=1", "--tag=t"],
        &["update-to-tag", URL, FILE],
        &["update-to-tag", URL, "--tag=t"],
        &["update-to-tag", URL, FILE, "--tag="],
        &["update-to-tag", URL, FILE, "--tag=a\tb"],
        &["update-to-tag", URL, FILE, "--tag=t", "--tag=t"],
        &["update-to-tag", URL, FILE, "--tag=t", "--count=1"],
        &["clear-checksums"],
        &["clear-checksums", URL, FILE],
        &["undo-unrecorded", URL],
        &["undo-unrecorded", FILE],
        &["undo-unrecorded", URL, FILE, FILE],
        &["undo-unrecorded", URL, FILE, "--count=1"],
        &["undo-unrecorded", URL, FILE, "--context-filter=a"],
        &["undo-unrecorded", URL, FILE, "--label-filter=l"],
        &["undo", URL, FILE],
        &["snapshot"],
        &["snapshot", URL, URL],
        &["snapshot", URL, FILE],
        &["snapshot", URL, "-Dx=1"],
        &["snapshots", URL],
        &["history"],
        &["history", URL, URL],
        &["history", URL, FILE],
        &["history", URL, "-Dx=1"],
        &["generate-changelog", URL],
        &["generate-changelog", URL, "--author=a\tb"],
        &["generate-changelog", URL, "--author=a", FILE],
        &["history", URL, "--context-filter=a"],
        &["histories", URL],
    ];
    for words in cases {
        let text = told(rt.alloc(), words)?;
        assert_eq!(rt; text.as_str(), "usage");
    }
    Ok(())
}
