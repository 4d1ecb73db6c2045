use crate::running::{FileText, Step, play};
use crate::shop::{ALL_RAN, BACK_ONE, BACK_THREE, FIRST, SHOP, STATUS, UPDATE};

const EMPTY: FileText = ("db/a.json", r#"{"databaseChangeLog":[]}"#);

const NOTHING: [Step; 5] = [
    Step {
        words: UPDATE,
        code: 0,
        out: "update: 0 ran, 0 ran again, 0 marked, 0 skipped, 0 not fresh\n",
        log: "",
    },
    Step {
        words: "validate --url=postgresql:db --changelog-file=db/a.json",
        code: 0,
        out: "no validation faults\n",
        log: "",
    },
    Step {
        words: STATUS,
        code: 0,
        out: "pending: 0\n",
        log: "",
    },
    Step {
        words: BACK_ONE,
        code: 0,
        out: "rollback: 0 rolled back\n",
        log: "",
    },
    Step {
        words: "release-locks --url=postgresql:db",
        code: 0,
        out: "lock free\n",
        log: "",
    },
];

#[test]
fn without_changesets_nothing_is_written(rt: HostRuntime) {
    let left = play(&rt, rt.alloc(), &[EMPTY], b"ten bytes.", &NOTHING);
    assert!(rt; left.as_slice() == b"ten bytes.".as_slice());
}

const THERE_AND_BACK: [Step; 7] = [
    Step {
        words: "update-sql --url=postgresql:db --changelog-file=db/a.json",
        code: 0,
        out: "-- Changeset db/a.json::1::ann
CREATE TABLE \"team\" (\"id\" INTEGER NOT NULL, \"name\" VARCHAR(40) NOT NULL, CONSTRAINT \"pk_team\" PRIMARY KEY (\"id\"));
CREATE TABLE \"player\" (\"id\" INTEGER NOT NULL, \"team_id\" INTEGER, CONSTRAINT \"pk_player\" PRIMARY KEY (\"id\"));
-- Changeset db/a.json::2::ann
ALTER TABLE \"player\" ADD CONSTRAINT \"fk_player_team\" FOREIGN KEY (\"team_id\") REFERENCES \"team\" (\"id\");
-- Changeset db/a.json::3::bob
CREATE INDEX \"ix_player_team\" ON \"player\" (\"team_id\");
",
        log: "",
    },
    Step {
        words: STATUS,
        code: 0,
        out: "pending: 3\ndb/a.json::1::ann\ndb/a.json::2::ann\ndb/a.json::3::bob\n",
        log: "",
    },
    Step {
        words: UPDATE,
        code: 0,
        out: ALL_RAN,
        log: "",
    },
    Step {
        words: STATUS,
        code: 0,
        out: "pending: 0\n",
        log: "",
    },
    Step {
        words: "rollback-sql --url=postgresql:db --changelog-file=db/a.json --count=3",
        code: 0,
        out: "-- Rollback db/a.json::3::bob
DROP INDEX \"ix_player_team\";
-- Rollback db/a.json::2::ann
ALTER TABLE \"player\" DROP CONSTRAINT \"fk_player_team\";
-- Rollback db/a.json::1::ann
DROP TABLE \"player\";
DROP TABLE \"team\";
",
        log: "",
    },
    Step {
        words: BACK_THREE,
        code: 0,
        out: "rolled back db/a.json::3::bob\nrolled back db/a.json::2::ann\nrolled back db/a.json::1::ann\nrollback: 3 rolled back\n",
        log: "",
    },
    Step {
        words: UPDATE,
        code: 0,
        out: ALL_RAN,
        log: "",
    },
];

#[test]
fn three_changesets_there_and_back(rt: HostRuntime) {
    let _left = play(&rt, rt.alloc(), &[SHOP], b"", &THERE_AND_BACK);
}

const TAGGED: [Step; 3] = [
    Step {
        words: UPDATE,
        code: 0,
        out: "ran db/a.json::1::ann\nupdate: 1 ran, 0 ran again, 0 marked, 0 skipped, 0 not fresh\n",
        log: "",
    },
    Step {
        words: "tag --url=postgresql:db --tag=v1",
        code: 0,
        out: "tagged v1\n",
        log: "",
    },
    Step {
        words: "history --url=postgresql:db",
        code: 0,
        out: "1 1970-01-01 00:00:01.000 EXECUTED db/a.json::1::ann tag v1\n",
        log: "",
    },
];

const BACK_TO_TAG: [Step; 4] = [
    Step {
        words: UPDATE,
        code: 0,
        out: "ran db/a.json::2::ann\nran db/a.json::3::bob\nupdate: 2 ran, 0 ran again, 0 marked, 0 skipped, 0 not fresh\n",
        log: "",
    },
    Step {
        words: "rollback --url=postgresql:db --changelog-file=db/a.json --tag=v1",
        code: 0,
        out: "rolled back db/a.json::3::bob\nrolled back db/a.json::2::ann\nrollback: 2 rolled back\n",
        log: "",
    },
    Step {
        words: "rollback --url=postgresql:db --changelog-file=db/a.json --tag=v1",
        code: 0,
        out: "rollback: 0 rolled back\n",
        log: "",
    },
    Step {
        words: "rollback --url=postgresql:db --changelog-file=db/a.json --tag=v2",
        code: 9,
        out: "",
        log: "liquibase: no changeset has the tag v2\n",
    },
];

#[test]
fn a_tag_is_gone_back_to(rt: HostRuntime) {
    let tagged = play(&rt, rt.alloc(), &[FIRST], b"", &TAGGED);
    let _left = play(&rt, rt.alloc(), &[SHOP], &tagged, &BACK_TO_TAG);
}

const SYNCED: [Step; 4] = [
    Step {
        words: "changelog-sync --url=postgresql:db --changelog-file=db/a.json",
        code: 0,
        out: "marked db/a.json::1::ann\nmarked db/a.json::2::ann\nmarked db/a.json::3::bob\nchangelog-sync: 3 marked\n",
        log: "",
    },
    Step {
        words: "changelog-sync --url=postgresql:db --changelog-file=db/a.json",
        code: 0,
        out: "changelog-sync: 0 marked\n",
        log: "",
    },
    Step {
        words: STATUS,
        code: 0,
        out: "pending: 0\n",
        log: "",
    },
    Step {
        words: BACK_ONE,
        code: 8,
        out: "rollback: 0 rolled back\n",
        log: "liquibase: refused at db/a.json::3::bob, statement 1, 0 kept: missing\n",
    },
];

#[test]
fn rows_are_written_alone(rt: HostRuntime) {
    let _left = play(&rt, rt.alloc(), &[SHOP], b"", &SYNCED);
}

const DATED: [Step; 2] = [
    Step {
        words: "rollback-to-date --url=postgresql:db --changelog-file=db/a.json --date=1970-01-01T00:00:01.000",
        code: 0,
        out: "rollback: 0 rolled back\n",
        log: "",
    },
    Step {
        words: "rollback-to-date --url=postgresql:db --changelog-file=db/a.json --date=1970-01-01T00:00:00.999",
        code: 0,
        out: "rolled back db/a.json::3::bob\nrolled back db/a.json::2::ann\nrolled back db/a.json::1::ann\nrollback: 3 rolled back\n",
        log: "",
    },
];

#[test]
fn later_rows_are_taken_back(rt: HostRuntime) {
    let ran = play(
        &rt,
        rt.alloc(),
        &[SHOP],
        b"",
        &[Step {
            words: UPDATE,
            code: 0,
            out: ALL_RAN,
            log: "",
        }],
    );
    let _left = play(&rt, rt.alloc(), &[SHOP], &ran, &DATED);
}
