use crate::asked::{Case, tell, tell_my};

// In this order a changeset's faults are told: its heading, its path, its body, checks and rollback.
const BAD_DELIMITER: &str =
    "--liquibase formatted sql\n--changeset ann:1 endDelimiter:\"\" dbms:mysql\nSELECT";

const BAD_REACTION: &str =
    "--liquibase formatted sql\n--changeset ann:1 logicalFilePath:\"\"\n--preconditions onFail:NO";

const BAD_PATH: &str =
    "--liquibase formatted sql\n\n--changeset ann:1 logicalFilePath:\"\"\nNO SQL\n--rollback NO SQL";

const BAD_PATH_OF_ALL: &str =
    "--liquibase formatted sql logicalFilePath:\"\"\n--changeset ann:1 dbms:mysql\nNO SQL";

const BAD_BODY: &str = "--liquibase formatted sql\n--changeset ann:1\n\n--changeset ann:2\nNO SQL";

const BAD_CHECK: &str =
    "--liquibase formatted sql\n--changeset ann:1\n--precondition-sql-check expectedResult:1 NO SQL";

const BAD_ROLLBACK: &str = "--liquibase formatted sql\n--changeset ann:1\n--rollback NO SQL";

const BAD_ELSEWHERE: &str =
    "--liquibase formatted sql\n--changeset ann:1 dbms:mysql\n--precondition-sql-check expectedResult:1 NO SQL\nNO SQL\n--rollback NO SQL";

const NO_STATEMENT: &str =
    "--liquibase formatted sql\n--changeset ann:1\n/* none */\n;\n--changeset ann:2\nDELETE FROM t";

const WHOLE: &str =
    "--liquibase formatted sql logicalFilePath:x\n--changeset ann:1 labels:l context:c runOnChange:true\n--comment why\n--preconditions onFail:CONTINUE\n--precondition-sql-check expectedResult:1 SELECT COUNT(*) FROM t\nDELETE FROM t;\nDELETE FROM u\n--rollback empty\n--changeset ann:2 ignore:true\n--changeset bob:3 logicalFilePath:y\n--rollback DELETE FROM t";

#[test]
fn faults_are_told_in_order(rt: HostRuntime) {
    let cases = [
        Case {
            files: &[("a.sql", BAD_DELIMITER)],
            wanted: "liquibase: changelog fault: a.sql: line 2\n",
        },
        Case {
            files: &[("a.sql", BAD_REACTION)],
            wanted: "liquibase: changelog fault: a.sql: line 2\n",
        },
        Case {
            files: &[("a.sql", BAD_PATH)],
            wanted: "liquibase: changelog fault: a.sql: bad path\n",
        },
        Case {
            files: &[("a.sql", BAD_PATH_OF_ALL)],
            wanted: "liquibase: changelog fault: a.sql: bad path\n",
        },
        Case {
            files: &[("a.sql", BAD_BODY)],
            wanted: "liquibase: changelog fault: a.sql: line 4\n",
        },
        Case {
            files: &[("a.sql", BAD_CHECK)],
            wanted: "liquibase: changelog fault: a.sql: line 2\n",
        },
        Case {
            files: &[("a.sql", BAD_ROLLBACK)],
            wanted: "liquibase: changelog fault: a.sql: line 2\n",
        },
    ];
    tell(&rt, rt.alloc(), &cases)
}

#[test]
fn only_what_is_here_is_looked_at(rt: HostRuntime) {
    let cases = [Case {
        files: &[("a.sql", BAD_ELSEWHERE)],
        wanted: "\na.sql::1::ann elsewhere",
    }];
    tell(&rt, rt.alloc(), &cases)
}

#[test]
fn the_same_is_at_fault_where_it_is_here(rt: HostRuntime) {
    let cases = [Case {
        files: &[("a.sql", BAD_ELSEWHERE)],
        wanted: "liquibase: changelog fault: a.sql: line 2\n",
    }];
    tell_my(&rt, rt.alloc(), &cases)
}

#[test]
fn bodies_are_changes(rt: HostRuntime) {
    let cases = [
        Case {
            files: &[("a.sql", NO_STATEMENT)],
            wanted: "\na.sql::1::ann\na.sql::2::ann changes 1",
        },
        Case {
            files: &[("a.sql", WHOLE)],
            wanted: "\nx::1::ann changes 1 back 0 onChange context c labels l comment why asks 1 continue\ny::3::bob back 1",
        },
    ];
    tell(&rt, rt.alloc(), &cases)
}
