use crate::made::{happened, identities, identity, lock, printed, tracked};
use lq_base::{Did, Exec, Items, NoMemory, Text};
use lq_report::{
    Soaked, cleared_text, history_text, release_text, rollback_text, snapshot_text, soak_text,
    sql_text, status_text, sync_text, tagged_text, undone_text, update_text, validated_text,
};
use std::alloc::Global;
use std::test::Fail;

#[derive(Clone, Copy)]
enum Output {
    Validate,
    Status,
    Update,
    NoUpdate,
    UpdateSql,
    History,
    NoHistory,
    Cleared,
    Tag,
    Rollback,
    RollbackSql,
    Sync,
    Release,
    ReleaseMarked,
    ReleaseMarkedBack,
    ReleaseFree,
    Undone,
    NoneUndone,
    Snapshot,
    NoSnapshot,
    Soak,
}

// What each changeset came to, one of each.
const ALL: [(Did, &str); 5] = [
    (Did::Ran, "1"),
    (Did::RanAgain, "2"),
    (Did::Marked, "3"),
    (Did::Skipped, "4"),
    (Did::Ran, "5"),
];

fn soaked(alloc: Global) -> Result<Text, NoMemory> {
    let of = Soaked {
        sets: 1,
        entries: 3,
        bytes: 812,
        sum: Text::new(alloc, "d41d8cd98f00b204e9800998ecf8427e")?,
        later: 6,
        rows: 0,
        tables: 0,
    };
    soak_text(alloc, &of)
}

fn released(alloc: Global, by: &str) -> Result<Text, NoMemory> {
    let held = lock(alloc, by)?;
    release_text(alloc, Some(&held))
}

fn undone(alloc: Global, count: u64) -> Result<Text, NoMemory> {
    let of = identity(alloc, "1")?;
    undone_text(alloc, &of, count)
}

fn updated(alloc: Global, all: &[(Did, &str)], not_fresh: u64) -> Result<Text, NoMemory> {
    let made = happened(alloc, all)?;
    update_text(alloc, made.as_slice(), not_fresh)
}

fn back(alloc: Global) -> Result<Text, NoMemory> {
    let made = happened(alloc, &[(Did::RolledBack, "2"), (Did::RolledBack, "1")])?;
    rollback_text(alloc, made.as_slice())
}

fn synced(alloc: Global) -> Result<Text, NoMemory> {
    let made = happened(alloc, &[(Did::Marked, "1")])?;
    sync_text(alloc, made.as_slice())
}

fn pending(alloc: Global) -> Result<Text, NoMemory> {
    let made = identities(alloc, &["1", "2"])?;
    status_text(alloc, made.as_slice())
}

// The place, the moment, how it came to be, the id and the tag of each row.
const ROWS: [(u32, i64, Exec, &str, Option<&str>); 3] = [
    (1, 1000, Exec::Executed, "1", None),
    (2, 2500, Exec::Reran, "2", Some("v 1")),
    (12, -1, Exec::MarkRan, "3", Some("é")),
];

fn listed(alloc: Global, all: &[(u32, i64, Exec, &str, Option<&str>)]) -> Result<Text, NoMemory> {
    let mut rows = Items::new(alloc);
    for (order, date, exec, id, tag) in all {
        rows.push(tracked(alloc, id, *order, *date, *exec, *tag)?)?;
    }
    history_text(alloc, rows.as_slice())
}

fn sql(alloc: Global, undo: bool) -> Result<Text, NoMemory> {
    let made = printed(alloc, "1", &["DROP TABLE \"a\"", "DROP TABLE \"b\""])?;
    sql_text(alloc, undo, made.as_slice())
}

fn made(alloc: Global, output: Output) -> Result<Text, NoMemory> {
    match output {
        Output::Validate => Text::new(alloc, validated_text()),
        Output::Status => pending(alloc),
        Output::Update => updated(alloc, &ALL, 7),
        Output::NoUpdate => updated(alloc, &[], 0),
        Output::UpdateSql => sql(alloc, false),
        Output::History => listed(alloc, &ROWS),
        Output::NoHistory => listed(alloc, &[]),
        Output::Cleared => cleared_text(alloc, 12),
        Output::Tag => tagged_text(alloc, "v1"),
        Output::Rollback => back(alloc),
        Output::RollbackSql => sql(alloc, true),
        Output::Sync => synced(alloc),
        Output::Release => released(alloc, "bob"),
        Output::ReleaseMarked => released(alloc, "bob|db/a.json::1::ann|2"),
        Output::ReleaseMarkedBack => released(alloc, "bob|db/a.json::1::ann|back 2"),
        Output::ReleaseFree => release_text(alloc, None),
        Output::Undone => undone(alloc, 3),
        Output::NoneUndone => undone(alloc, 0),
        Output::Snapshot => snapshot_text(alloc, 54),
        Output::NoSnapshot => snapshot_text(alloc, 0),
        Output::Soak => soaked(alloc),
    }
}

#[test]
fn commands_write_their_texts(rt: HostRuntime) -> Result<(), Fail> {
    let cases = [
        (Output::Validate, "no validation faults\n"),
        (
            Output::Status,
            "pending: 2\ndb/a.json::1::ann\ndb/a.json::2::ann\n",
        ),
        (
            Output::Update,
            "ran db/a.json::1::ann\nran again db/a.json::2::ann\nmarked db/a.json::3::ann\nskipped db/a.json::4::ann\nran db/a.json::5::ann\nupdate: 2 ran, 1 ran again, 1 marked, 1 skipped, 7 not fresh\n",
        ),
        (
            Output::NoUpdate,
            "update: 0 ran, 0 ran again, 0 marked, 0 skipped, 0 not fresh\n",
        ),
        (
            Output::UpdateSql,
            "-- Changeset db/a.json::1::ann\nDROP TABLE \"a\";\nDROP TABLE \"b\";\n",
        ),
        (
            Output::History,
            "1 1970-01-01 00:00:01.000 EXECUTED db/a.json::1::ann\n2 1970-01-01 00:00:02.500 RERAN db/a.json::2::ann tag v 1\n12 1969-12-31 23:59:59.999 MARK_RAN db/a.json::3::ann tag é\n",
        ),
        (Output::NoHistory, ""),
        (Output::Cleared, "checksums cleared: 12\n"),
        (Output::Tag, "tagged v1\n"),
        (
            Output::Rollback,
            "rolled back db/a.json::2::ann\nrolled back db/a.json::1::ann\nrollback: 2 rolled back\n",
        ),
        (
            Output::RollbackSql,
            "-- Rollback db/a.json::1::ann\nDROP TABLE \"a\";\nDROP TABLE \"b\";\n",
        ),
        (
            Output::Sync,
            "marked db/a.json::1::ann\nchangelog-sync: 1 marked\n",
        ),
        (
            Output::Release,
            "lock released: held by bob since 1970-01-01 00:00:01.000\n",
        ),
        (
            Output::ReleaseMarked,
            "lock released: held by bob since 1970-01-01 00:00:01.000\nunrecorded: db/a.json::1::ann, statement 2\n",
        ),
        (
            Output::ReleaseMarkedBack,
            "lock released: held by bob since 1970-01-01 00:00:01.000\nunrecorded: db/a.json::1::ann, back statement 2\n",
        ),
        (Output::ReleaseFree, "lock free\n"),
        (Output::Undone, "undone db/a.json::1::ann, 3 statements\n"),
        (
            Output::NoneUndone,
            "undone db/a.json::1::ann, 0 statements\n",
        ),
        (Output::Snapshot, "snapshot written: 54 bytes\n"),
        (Output::NoSnapshot, "snapshot not needed\n"),
        (
            Output::Soak,
            "soak: 1 changesets, 3 entries, 812 bytes, md5 d41d8cd98f00b204e9800998ecf8427e\nsoak: 6 entries, 0 rows, 0 tables\n",
        ),
    ];
    for (output, want) in cases {
        let text = made(rt.alloc(), output)?;
        assert_eq!(rt; text.as_str(), want);
    }
    Ok(())
}
