ghost use Rattle.std.specs.Prelude.{◌≤◌, IfOk};
ghost use Rattle.lq_base.specs.Moment.{IsMoment};

use lq_base::{Dialect, Exec, Identity, Kind, Literal, Name, NoMemory, Text, Tracked, both};
use lq_model::{ColumnDef, Key, Operand, Statement, Test};
use lq_track::{
    Ran, again_row, clear_sums, delete_row, fill_sum, free_lock, insert_row, make_tables,
    mark_lock, row_of, set_tag, take_lock,
};
use std::alloc::{AllocError, Global};
use std::process::Abort;
use std::test::Fail;

// The statements that these tests meet, as PostgreSQL writes them.

fn write_literal(out: &mut String, literal: &Literal) -> Result<(), AllocError> {
    match literal {
        Literal::Null => out.push_str("NULL"),
        Literal::Int(n) => write!(out, "{n}"),
        Literal::Text(text) => {
            out.push_str("'")?;
            out.push_str(text.as_str())?;
            out.push_str("'")
        }
        Literal::Bool(true) => out.push_str("TRUE"),
        Literal::Bool(false) => out.push_str("FALSE"),
        Literal::Fixed { .. } => out.push_str("?"),
    }
}

fn write_name(out: &mut String, name: &Name) -> Result<(), AllocError> {
    out.push_str("\"")?;
    out.push_str(name.as_key())?;
    out.push_str("\"")
}

fn write_kind(out: &mut String, kind: Kind) -> Result<(), AllocError> {
    match kind {
        Kind::Int => out.push_str("INTEGER"),
        Kind::Boolean => out.push_str("BOOLEAN"),
        Kind::Varchar(most) => write!(out, "VARCHAR({most})"),
        Kind::Text => out.push_str("TEXT"),
        Kind::Moment => out.push_str("TIMESTAMP"),
        _ => out.push_str("?"),
    }
}

fn write_defs(out: &mut String, defs: &[ColumnDef]) -> Result<(), AllocError> {
    let mut between = "";
    for def in defs {
        out.push_str(between)?;
        write_name(out, &def.name)?;
        out.push_str(" ")?;
        write_kind(out, def.kind)?;
        out.push_str(if def.nullable { "" } else { " NOT NULL" })?;
        out.push_str(if def.numbered { " NUMBERED" } else { "" })?;
        out.push_str(if def.default.is_some() {
            " DEFAULT"
        } else {
            ""
        })?;
        between = ", ";
    }
    Ok(())
}

fn write_names(out: &mut String, names: &[Name]) -> Result<(), AllocError> {
    let mut between = "";
    for name in names {
        out.push_str(between)?;
        write_name(out, name)?;
        between = ", ";
    }
    Ok(())
}

fn write_key(out: &mut String, key: &Key) -> Result<(), AllocError> {
    out.push_str(", CONSTRAINT ")?;
    write_name(out, &key.name)?;
    out.push_str(" PRIMARY KEY (")?;
    write_names(out, key.columns.as_slice())?;
    out.push_str(")")
}

fn write_values(out: &mut String, values: &[Literal]) -> Result<(), AllocError> {
    let mut between = "";
    for value in values {
        out.push_str(between)?;
        write_literal(out, value)?;
        between = ", ";
    }
    Ok(())
}

fn write_sets(out: &mut String, sets: &[(Name, Literal)]) -> Result<(), AllocError> {
    let mut between = "";
    for set in sets {
        out.push_str(between)?;
        write_name(out, &set.0)?;
        out.push_str(" = ")?;
        write_literal(out, &set.1)?;
        between = ", ";
    }
    Ok(())
}

fn write_operand(out: &mut String, operand: &Operand) -> Result<(), AllocError> {
    match operand {
        Operand::Column(name) => write_name(out, name),
        Operand::Literal(literal) => write_literal(out, literal),
    }
}

fn write_test(out: &mut String, test: &Test) -> Result<(), AllocError> {
    match test {
        Test::Compare { x, y, .. } => {
            write_operand(out, x)?;
            out.push_str(" = ")?;
            write_operand(out, y)
        }
        Test::And(a, b) => {
            out.push_str("(")?;
            write_test(out, a.get())?;
            out.push_str(" AND ")?;
            write_test(out, b.get())?;
            out.push_str(")")
        }
        _ => out.push_str("?"),
    }
}

fn write_where(out: &mut String, test: &Option<Test>) -> Result<(), AllocError> {
    if let Some(test) = test {
        out.push_str(" WHERE ")?;
        write_test(out, test)?;
    }
    Ok(())
}

fn write_statement(out: &mut String, statement: &Statement) -> Result<(), AllocError> {
    match statement {
        Statement::CreateTable {
            table,
            columns,
            key,
            ..
        } => {
            out.push_str("CREATE TABLE ")?;
            write_name(out, table)?;
            out.push_str(" (")?;
            write_defs(out, columns.as_slice())?;
            if let Some(key) = key {
                write_key(out, key)?;
            }
            out.push_str(")")
        }
        Statement::Insert {
            table,
            columns,
            values,
        } => {
            out.push_str("INSERT INTO ")?;
            write_name(out, table)?;
            out.push_str(" (")?;
            write_names(out, columns.as_slice())?;
            out.push_str(") VALUES (")?;
            write_values(out, values.as_slice())?;
            out.push_str(")")
        }
        Statement::Update { table, sets, test } => {
            out.push_str("UPDATE ")?;
            write_name(out, table)?;
            out.push_str(" SET ")?;
            write_sets(out, sets.as_slice())?;
            write_where(out, test)
        }
        Statement::Delete { table, test } => {
            out.push_str("DELETE FROM ")?;
            write_name(out, table)?;
            write_where(out, test)
        }
        _ => out.push_str("?"),
    }
}

fn written(alloc: Global, statement: &Statement) -> Result<String, AllocError> {
    let mut out = String::new(alloc);
    write_statement(&mut out, statement)?;
    Ok(out)
}

fn identity(alloc: Global) -> Result<Identity, NoMemory> {
    let of = both(Text::new(alloc, "1"), Text::new(alloc, "ann"));
    let (file, (id, author)) = both(Text::new(alloc, "db/e.json"), of)?;
    Ok(Identity { file, id, author })
}

// The row of a changeset without changes, of which an update at the reading 1000 makes the first row.
#[tactic(auto, using(crate::proofs::Dates::is_moment))]
fn row(alloc: Global, exec: Exec, comments: &str, reading: u64) -> Result<Tracked, Fail>
    requires { reading ≤ 253402300799999 }
    ensures { IfOk result (λ row. IsMoment row.date) }
{
    let sum = Text::new(alloc, "P1:d751713988987e9331980363e24189ce");
    let texts = both(sum, both(Text::new(alloc, ""), Text::new(alloc, comments)));
    let (identity, (checksum, (empty, comments))) = both(identity(alloc), texts)?;
    Ok(row_of(
        alloc,
        Ran {
            identity: &identity,
            reading,
            order: 1,
            exec,
            checksum: &checksum,
            description: &empty,
            comments: &comments,
            tag: &None,
            contexts: &empty,
            labels: &empty,
        },
    )?)
}

fn is_written(alloc: Global, statement: &Statement, want: &str) -> Result<bool, AllocError> {
    let text = written(alloc, statement)?;
    Ok(text.as_str() == want)
}

// Whether these statements make the tables.
fn makes(alloc: Global, dialect: Dialect, wanted: &[&str]) -> Result<bool, Fail> {
    let made = make_tables(alloc, dialect)?;
    let mut all = made.len() == wanted.len();
    for (statement, want) in made.as_slice().iter().zip(wanted.iter()) {
        all = is_written(alloc, statement, want)? && all;
    }
    Ok(all)
}

#[test]
fn the_tables_are_made(rt: HostRuntime) -> Result<(), Fail> {
    let mut wanted = [
        "CREATE TABLE \"DATABASECHANGELOG\" (\"ID\" VARCHAR(255) NOT NULL, \"AUTHOR\" VARCHAR(255) NOT NULL, \"FILENAME\" VARCHAR(255) NOT NULL, \"DATEEXECUTED\" TIMESTAMP NOT NULL, \"ORDEREXECUTED\" INTEGER NOT NULL, \"EXECTYPE\" VARCHAR(10) NOT NULL, \"MD5SUM\" VARCHAR(35), \"DESCRIPTION\" VARCHAR(255), \"COMMENTS\" VARCHAR(255), \"TAG\" VARCHAR(255), \"LIQUIBASE\" VARCHAR(20), \"CONTEXTS\" VARCHAR(255), \"LABELS\" VARCHAR(255), \"DEPLOYMENT_ID\" VARCHAR(10))",
        "CREATE TABLE \"DATABASECHANGELOGLOCK\" (\"ID\" INTEGER NOT NULL, \"LOCKED\" BOOLEAN NOT NULL, \"LOCKGRANTED\" TIMESTAMP, \"LOCKEDBY\" TEXT, CONSTRAINT \"pk_DATABASECHANGELOGLOCK\" PRIMARY KEY (\"ID\"))",
        "INSERT INTO \"DATABASECHANGELOGLOCK\" (\"ID\", \"LOCKED\", \"LOCKGRANTED\", \"LOCKEDBY\") VALUES (1, FALSE, NULL, NULL)",
    ];
    for dialect in [Dialect::Postgresql, Dialect::Mysql] {
        assert!(rt; makes(rt.alloc(), dialect, &wanted)?);
        wanted[1] =
            "CREATE TABLE \"DATABASECHANGELOGLOCK\" (\"ID\" INTEGER NOT NULL, \"LOCKED\" BOOLEAN NOT NULL, \"LOCKGRANTED\" TIMESTAMP, \"LOCKEDBY\" TEXT, CONSTRAINT \"PRIMARY\" PRIMARY KEY (\"ID\"))";
    }
    Ok(())
}

fn assert_written(rt: &impl Abort, alloc: Global, statement: &Statement, want: &str) {
    let text = written(alloc, statement).expect(rt, "memory");
    assert_eq!(rt; text.as_str(), want);
}

fn inserted(alloc: Global, reading: u64) -> Result<Statement, Fail>
    requires { reading ≤ 253402300799999 }
{
    let row = row(alloc, Exec::Executed, "", reading)?;
    Ok(insert_row(alloc, &row)?)
}

fn written_again(alloc: Global, exec: Exec, reading: u64) -> Result<Statement, Fail>
    requires { reading ≤ 253402300799999 }
{
    let row = row(alloc, exec, "", reading)?;
    Ok(again_row(alloc, &row)?)
}

#[test]
fn rows_are_written(rt: HostRuntime) -> Result<(), Fail> {
    let alloc = rt.alloc();
    let first = inserted(alloc, 1000)?;
    assert_written(
        &rt,
        alloc,
        &first,
        "INSERT INTO \"DATABASECHANGELOG\" (\"ID\", \"AUTHOR\", \"FILENAME\", \"DATEEXECUTED\", \"ORDEREXECUTED\", \"EXECTYPE\", \"MD5SUM\", \"DESCRIPTION\", \"COMMENTS\", \"TAG\", \"LIQUIBASE\", \"CONTEXTS\", \"LABELS\", \"DEPLOYMENT_ID\") VALUES ('1', 'ann', 'db/e.json', '1970-01-01 00:00:01.000', 1, 'EXECUTED', 'P1:d751713988987e9331980363e24189ce', '', '', NULL, 'profile-1', '', '', '0000001000')",
    );
    let again = written_again(alloc, Exec::Reran, 20_000_000_002_000)?;
    assert_written(
        &rt,
        alloc,
        &again,
        "UPDATE \"DATABASECHANGELOG\" SET \"DATEEXECUTED\" = '2603-10-11 11:33:22.000', \"ORDEREXECUTED\" = 1, \"EXECTYPE\" = 'RERAN', \"MD5SUM\" = 'P1:d751713988987e9331980363e24189ce', \"DEPLOYMENT_ID\" = '0000002000' WHERE ((\"ID\" = '1' AND \"AUTHOR\" = 'ann') AND \"FILENAME\" = 'db/e.json')",
    );
    let marked = written_again(alloc, Exec::MarkRan, 253_402_300_799_999)?;
    assert_written(
        &rt,
        alloc,
        &marked,
        "UPDATE \"DATABASECHANGELOG\" SET \"DATEEXECUTED\" = '9999-12-31 23:59:59.999', \"ORDEREXECUTED\" = 1, \"EXECTYPE\" = 'MARK_RAN', \"MD5SUM\" = 'P1:d751713988987e9331980363e24189ce', \"DEPLOYMENT_ID\" = '2300799999' WHERE ((\"ID\" = '1' AND \"AUTHOR\" = 'ann') AND \"FILENAME\" = 'db/e.json')",
    );
    Ok(())
}

#[test]
fn rows_are_named(rt: HostRuntime) -> Result<(), Fail> {
    let alloc = rt.alloc();
    let of = identity(alloc)?;
    let text = Text::new(alloc, "v1")?;
    let deleted = delete_row(alloc, &of)?;
    assert_written(
        &rt,
        alloc,
        &deleted,
        "DELETE FROM \"DATABASECHANGELOG\" WHERE ((\"ID\" = '1' AND \"AUTHOR\" = 'ann') AND \"FILENAME\" = 'db/e.json')",
    );
    let tagged = set_tag(alloc, &of, &text)?;
    assert_written(
        &rt,
        alloc,
        &tagged,
        "UPDATE \"DATABASECHANGELOG\" SET \"TAG\" = 'v1' WHERE ((\"ID\" = '1' AND \"AUTHOR\" = 'ann') AND \"FILENAME\" = 'db/e.json')",
    );
    let filled = fill_sum(alloc, &of, &text)?;
    assert_written(
        &rt,
        alloc,
        &filled,
        "UPDATE \"DATABASECHANGELOG\" SET \"MD5SUM\" = 'v1' WHERE ((\"ID\" = '1' AND \"AUTHOR\" = 'ann') AND \"FILENAME\" = 'db/e.json')",
    );
    Ok(())
}

#[test]
fn all_rows_lose_their_sums(rt: HostRuntime) -> Result<(), Fail> {
    let alloc = rt.alloc();
    let cleared = clear_sums(alloc)?;
    assert_written(
        &rt,
        alloc,
        &cleared,
        "UPDATE \"DATABASECHANGELOG\" SET \"MD5SUM\" = NULL",
    );
    Ok(())
}

#[test]
fn the_lock_is_written(rt: HostRuntime) -> Result<(), Fail> {
    let alloc = rt.alloc();
    let who = Text::new(alloc, "ci")?;
    let taken = take_lock(alloc, 1000, &who)?;
    assert_written(
        &rt,
        alloc,
        &taken,
        "UPDATE \"DATABASECHANGELOGLOCK\" SET \"LOCKED\" = TRUE, \"LOCKGRANTED\" = '1970-01-01 00:00:01.000', \"LOCKEDBY\" = 'ci' WHERE \"ID\" = 1",
    );
    let marked = mark_lock(alloc, &who)?;
    assert_written(
        &rt,
        alloc,
        &marked,
        "UPDATE \"DATABASECHANGELOGLOCK\" SET \"LOCKEDBY\" = 'ci' WHERE \"ID\" = 1",
    );
    let freed = free_lock(alloc)?;
    assert_written(
        &rt,
        alloc,
        &freed,
        "UPDATE \"DATABASECHANGELOGLOCK\" SET \"LOCKED\" = FALSE, \"LOCKGRANTED\" = NULL, \"LOCKEDBY\" = NULL WHERE \"ID\" = 1",
    );
    Ok(())
}

fn repeated(alloc: Global, character: &str, count: usize) -> Result<String, AllocError> {
    let mut text = String::new(alloc);
    for _ in 0..count {
        text.push_str(character)?;
    }
    Ok(text)
}

#[test]
fn long_comments_are_cut(rt: HostRuntime) -> Result<(), Fail> {
    for (character, count, left) in [("a", 255, 255), ("a", 256, 255), ("\u{20ac}", 300, 765)] {
        let comments = repeated(rt.alloc(), character, count)?;
        let row = row(rt.alloc(), Exec::Executed, comments.as_str(), 1000)?;
        let kept = row.comments.as_str();
        assert_eq!(rt; kept.len(), left);
        assert!(rt; comments.as_str().starts_with(kept));
    }
    Ok(())
}
