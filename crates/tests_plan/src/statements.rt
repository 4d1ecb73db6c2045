ghost use Rattle.std.specs.Prelude.{◌≡◌, IfOk, true};
ghost use Rattle.lq_any.specs.AnyChange.{is_for};

use crate::asked::say;
use lq_base::{Dialect, Items, KindFault, NoMemory, Text};
use lq_kinds::AnyChange;
use lq_model::{SqlText, Statement};
use lq_seen::statements_of;
use lq_tree::read_json;
use std::alloc::Global;
use std::process::Abort;

fn change_of<P: SqlText>(
    rt: &impl Abort,
    alloc: Global,
    dialect: Dialect,
    sql: &P,
    json: &str,
) -> Result<AnyChange, KindFault>
    requires { P.dialect ≡ dialect }
    ensures { IfOk result (λ change. is_for dialect change ≡ true) }
{
    let node = read_json(alloc, json.as_bytes()).expect(rt, "JSON");
    AnyChange::read(alloc, &node, dialect, sql)
}

fn of_both(
    alloc: Global,
    dialect: Dialect,
    first: AnyChange,
    second: AnyChange,
) -> Result<Items<Statement>, NoMemory>
    requires first { is_for dialect first ≡ true }
    requires second { is_for dialect second ≡ true }
{
    statements_of(alloc, dialect, &[first, second])
}

// The sort of a statement, and its table.
fn append_statement(statement: &Statement, to: &mut Text) -> Result<(), NoMemory> {
    match statement {
        Statement::CreateTable { table, .. } => to.push_all(&["\ncreate ", table.as_key()]),
        Statement::DropTable { table } => to.push_all(&["\ndrop ", table.as_key()]),
        Statement::RenameTable { table, .. } => to.push_all(&["\nrename ", table.as_key()]),
        _ => to.push_str("\nanother statement"),
    }
}

fn append_statements(statements: &[Statement], to: &mut Text) -> Result<(), NoMemory> {
    for statement in statements {
        append_statement(statement, to)?;
    }
    Ok(())
}

fn shown(rt: &impl Abort, alloc: Global, statements: &[Statement]) -> Text {
    let mut told = Text::new(alloc, "").expect(rt, "memory");
    append_statements(statements, &mut told).expect(rt, "memory");
    told
}

fn said<P: SqlText>(
    rt: &impl Abort,
    alloc: Global,
    dialect: Dialect,
    sql: &P,
    first: &str,
    second: &str,
) -> Text
    requires { P.dialect ≡ dialect }
{
    let first = change_of(rt, alloc, dialect, sql, first).expect(rt, "a change");
    let second = change_of(rt, alloc, dialect, sql, second).expect(rt, "a change");
    let statements = of_both(alloc, dialect, first, second).expect(rt, "memory");
    shown(rt, alloc, statements.as_slice())
}

/// The sort and the table of each statement of two changes.
pub fn say_all<P: SqlText>(
    rt: &impl Abort,
    alloc: Global,
    dialect: Dialect,
    sql: &P,
    cases: &[(&str, &str, &str)],
)
    requires { P.dialect ≡ dialect }
{
    for (first, second, wanted) in cases {
        let told = said(rt, alloc, dialect, sql, first, second);
        assert_eq!(rt; told.as_str(), *wanted);
    }
}

#[test]
fn statements_of_changes_follow_one_another(rt: HostRuntime) {
    let cases = [
        (
            r#"{"sql":{"sql":"drop table b; create table a (n int)"}}"#,
            r#"{"renameTable":{"oldTableName":"c","newTableName":"d"}}"#,
            "\ndrop b\ncreate a\nrename c",
        ),
        (
            r#"{"renameTable":{"oldTableName":"c","newTableName":"d"}}"#,
            r#"{"sql":{"sql":"drop table b; create table a (n int)"}}"#,
            "\nrename c\ndrop b\ncreate a",
        ),
        (
            r#"{"tagDatabase":{"tag":"v1"}}"#,
            r#"{"dropTable":{"tableName":"a"}}"#,
            "\ndrop a",
        ),
        (r#"{"empty":{}}"#, r#"{"tagDatabase":{"tag":"v1"}}"#, ""),
    ];
    say(&rt, rt.alloc(), &cases)
}
