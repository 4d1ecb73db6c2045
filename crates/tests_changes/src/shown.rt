ghost use Rattle.std.specs.List.{list_all};
ghost use Rattle.std.specs.Prelude.{◌≡◌, IfOk, List, Some, true};
ghost use Rattle.lq_any.specs.AnyChange.{is_for};
ghost use Rattle.lq_load.specs.LoadData.{is_for as is_load_for};
ghost use Rattle.lq_model.specs.Changes.{undoing_of};
ghost use Rattle.lq_model.specs.Step.{is_statement};
ghost use Rattle.lq_model.specs.declared.statement.Statement.{Statement};

use lq_base::{Dialect, Items, KindFault, NoMemory, Text};
use lq_kinds::AnyChange;
use lq_load::LoadData;
use lq_model::{Canon, Change, SqlText, Statement, Undo};
use lq_my::My;
use lq_pg::Pg;
use lq_tree::{TreeFault, read_json};
use std::alloc::Global;
use std::process::Abort;
use std::test::Fail;

/// A change as JSON, its canonical text, and what it says in each dialect: after a line feed each
/// statement, then each one that takes it back behind `undo `, or `no undo`; or the change's fault.
#[derive(Clone, Copy)]
pub struct Case<'a> {
    pub json: &'a str,
    pub canonical: &'a str,
    pub postgresql: &'a str,
    pub mysql: &'a str,
}

/// What a load's node says, the bytes of its file, its canonical text, and what it says in each dialect.
#[derive(Clone, Copy)]
pub struct Load<'a> {
    pub json: &'a str,
    pub bytes: &'a [u8],
    pub canonical: &'a str,
    pub postgresql: &'a str,
    pub mysql: &'a str,
}

// A line for the statement.
fn append_statement<P: SqlText>(
    alloc: Global,
    sql: &P,
    mark: &str,
    statement: &Statement,
    to: &mut Text,
) -> Result<(), NoMemory>
    requires { is_statement P.dialect statement.now ≡ true }
{
    let text = sql.print(alloc, statement)?;
    to.push_all(&["\n", mark, text.as_str()])
}

fn append_statements<P: SqlText>(
    alloc: Global,
    sql: &P,
    mark: &str,
    statements: &[Statement],
    to: &mut Text,
) -> Result<(), NoMemory>
    requires { list_all (is_statement P.dialect) statements.now ≡ true }
{
    let [statement, statements @ ..] = statements else {
        return Ok(());
    };
    append_statement(alloc, sql, mark, statement, to)?;
    append_statements(alloc, sql, mark, statements, to)
}

fn statements_of<C: Change>(
    alloc: Global,
    dialect: Dialect,
    change: &C,
) -> Result<Items<Statement>, NoMemory>
    requires { C.is_for dialect (C.key change.now) ≡ true }
    ensures { IfOk result (λ statements. statements ≡ C.gives dialect (C.key change.now)) }
{
    let mut statements = Items::new(alloc);
    change.statements(alloc, dialect, &mut statements)?;
    Ok(statements)
}

fn append_done<C: Change, P: SqlText>(
    alloc: Global,
    dialect: Dialect,
    sql: &P,
    change: &C,
    to: &mut Text,
) -> Result<(), NoMemory>
    requires same { P.dialect ≡ dialect }
    requires right { C.is_for dialect (C.key change.now) ≡ true }
{
    let statements = statements_of(alloc, dialect, change)?;
    append_statements(alloc, sql, "", statements.as_slice(), to)
}

fn append_undo<P: SqlText>(
    alloc: Global,
    sql: &P,
    undo: &Undo,
    to: &mut Text,
) -> Result<(), NoMemory>
    requires { (undoing : List Statement) → undoing_of undo.now ≡ Some undoing
        → list_all (is_statement P.dialect) undoing ≡ true }
{
    match undo {
        Undo::Generated(statements) => {
            append_statements(alloc, sql, "undo ", statements.as_slice(), to)
        }
        Undo::Absent => to.push_str("\nno undo"),
    }
}

fn append_undone<C: Change, P: SqlText>(
    alloc: Global,
    dialect: Dialect,
    sql: &P,
    change: &C,
    to: &mut Text,
) -> Result<(), NoMemory>
    requires same { P.dialect ≡ dialect }
    requires right { C.is_for dialect (C.key change.now) ≡ true }
{
    let undo = change.undo(alloc, dialect)?;
    append_undo(alloc, sql, &undo, to)
}

// The canonical text, where it is another than the wanted one.
fn append_canonical<C: Change>(
    alloc: Global,
    change: &C,
    wanted: &str,
    to: &mut Text,
) -> Result<(), NoMemory> {
    let mut canon = Canon::new(alloc);
    change.canon(&mut canon)?;
    if canon.written() == wanted.as_bytes() {
        return Ok(());
    }
    let written = str::from_utf8(canon.written()).unwrap_or("no UTF-8");
    to.push_all(&["\ncanonical ", written])
}

fn append_change<C: Change, P: SqlText>(
    alloc: Global,
    dialect: Dialect,
    sql: &P,
    change: &C,
    canonical: &str,
    to: &mut Text,
) -> Result<(), NoMemory>
    requires same { P.dialect ≡ dialect }
    requires right { C.is_for dialect (C.key change.now) ≡ true }
{
    append_canonical(alloc, change, canonical, to)?;
    append_done(alloc, dialect, sql, change, to)?;
    append_undone(alloc, dialect, sql, change, to)
}

// `PLACE: RULE`.
fn append_fault(fault: &KindFault, to: &mut Text) -> Result<(), NoMemory> {
    match fault {
        KindFault::Missing(path) => to.push_all(&[path.as_str(), ": missing"]),
        KindFault::Unknown(path) => to.push_all(&[path.as_str(), ": unknown"]),
        KindFault::Bad(path) => to.push_all(&[path.as_str(), ": bad"]),
        KindFault::NotFor { path, dialect } => {
            to.push_all(&[path.as_str(), ": not for "])?;
            to.push_str(dialect.text())
        }
        KindFault::OutOfMemory => Err(NoMemory),
    }
}

// Generic, so that no proof here takes a change of any type apart.
fn append_read<C: Change + Drop, P: SqlText>(
    alloc: Global,
    dialect: Dialect,
    sql: &P,
    read: Result<C, KindFault>,
    canonical: &str,
    to: &mut Text,
) -> Result<(), NoMemory>
    requires same { P.dialect ≡ dialect }
    requires right { IfOk read (λ change. C.is_for dialect (C.key change) ≡ true) }
{
    match read {
        Ok(change) => append_change(alloc, dialect, sql, &change, canonical, to),
        Err(fault) => append_fault(&fault, to),
    }
}

fn shown<C: Change + Drop, P: SqlText>(
    alloc: Global,
    dialect: Dialect,
    sql: &P,
    read: Result<C, KindFault>,
    canonical: &str,
) -> Result<Text, NoMemory>
    requires same { P.dialect ≡ dialect }
    requires right { IfOk read (λ change. C.is_for dialect (C.key change) ≡ true) }
{
    let mut to = Text::new(alloc, "")?;
    append_read(alloc, dialect, sql, read, canonical, &mut to)?;
    Ok(to)
}

fn change_of<P: SqlText>(
    alloc: Global,
    dialect: Dialect,
    sql: &P,
    json: &str,
) -> Result<Result<AnyChange, KindFault>, TreeFault>
    requires { P.dialect ≡ dialect }
    ensures { IfOk result (λ read. IfOk read (λ change. is_for dialect change ≡ true)) }
{
    let node = read_json(alloc, json.as_bytes())?;
    Ok(AnyChange::read(alloc, &node, dialect, sql))
}

fn said<P: SqlText>(
    alloc: Global,
    dialect: Dialect,
    sql: &P,
    json: &str,
    canonical: &str,
) -> Result<Text, Fail>
    requires { P.dialect ≡ dialect }
{
    let read = change_of(alloc, dialect, sql, json)?;
    Ok(shown(alloc, dialect, sql, read, canonical)?)
}

fn load_of(
    alloc: Global,
    dialect: Dialect,
    json: &str,
    bytes: &[u8],
) -> Result<Result<LoadData, KindFault>, TreeFault>
    ensures { IfOk result (λ read. IfOk read (λ change. is_load_for dialect change ≡ true)) }
{
    let node = read_json(alloc, json.as_bytes())?;
    Ok(LoadData::read(alloc, &node, dialect, bytes))
}

fn loaded<P: SqlText>(
    alloc: Global,
    dialect: Dialect,
    sql: &P,
    json: &str,
    bytes: &[u8],
    canonical: &str,
) -> Result<Text, Fail>
    requires { P.dialect ≡ dialect }
{
    let read = load_of(alloc, dialect, json, bytes)?;
    Ok(shown(alloc, dialect, sql, read, canonical)?)
}

/// Each load says what is wanted of it, in both dialects.
pub fn each_load(rt: &impl Abort, alloc: Global, cases: &[Load<'_>]) -> Result<(), Fail> {
    for case in cases {
        let postgresql = loaded(
            alloc,
            Dialect::Postgresql,
            &Pg,
            case.json,
            case.bytes,
            case.canonical,
        )?;
        assert_eq!(rt; postgresql.as_str(), case.postgresql);
        let mysql = loaded(
            alloc,
            Dialect::Mysql,
            &My,
            case.json,
            case.bytes,
            case.canonical,
        )?;
        assert_eq!(rt; mysql.as_str(), case.mysql);
    }
    Ok(())
}

/// Each load has the fault that is wanted.
pub fn load_fails(
    rt: &impl Abort,
    alloc: Global,
    cases: &[(&str, &[u8], &str)],
) -> Result<(), Fail> {
    for (json, bytes, fault) in cases {
        let postgresql = loaded(alloc, Dialect::Postgresql, &Pg, json, bytes, "")?;
        assert_eq!(rt; postgresql.as_str(), *fault);
    }
    Ok(())
}

fn said_in_postgresql(alloc: Global, json: &str, canonical: &str) -> Result<Text, Fail> {
    said(alloc, Dialect::Postgresql, &Pg, json, canonical)
}

fn said_in_mysql(alloc: Global, json: &str, canonical: &str) -> Result<Text, Fail> {
    said(alloc, Dialect::Mysql, &My, json, canonical)
}

/// Each change says what is wanted of it, in both dialects.
pub fn say(rt: &impl Abort, alloc: Global, cases: &[Case<'_>]) -> Result<(), Fail> {
    for case in cases {
        let postgresql = said_in_postgresql(alloc, case.json, case.canonical)?;
        assert_eq!(rt; postgresql.as_str(), case.postgresql);
        let mysql = said_in_mysql(alloc, case.json, case.canonical)?;
        assert_eq!(rt; mysql.as_str(), case.mysql);
    }
    Ok(())
}

/// Each node has the fault that is wanted, in both dialects.
pub fn fail(rt: &impl Abort, alloc: Global, cases: &[(&str, &str)]) -> Result<(), Fail> {
    for (json, fault) in cases {
        let postgresql = said_in_postgresql(alloc, json, "")?;
        assert_eq!(rt; postgresql.as_str(), *fault);
        let mysql = said_in_mysql(alloc, json, "")?;
        assert_eq!(rt; mysql.as_str(), *fault);
    }
    Ok(())
}
