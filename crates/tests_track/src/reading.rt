use crate::one_table::OneTable;
use lq_base::{Dialect, Items, Kind, Lock, Name, Text, Tracked, Value};
use lq_model::{Column, Key};
use lq_track::{TrackFault, read_lock, read_rows};
use std::alloc::{AllocError, Global};
use std::test::Fail;

/// What stands in a column of a row.
#[derive(Clone, Copy)]
enum Cell {
    Null,
    Int(i64),
    Text(&'static str),
    Bool(bool),
    Moment(i64),
}

const LOG: &str = "DATABASECHANGELOG";

const LOCK: &str = "DATABASECHANGELOGLOCK";

const LOG_COLUMNS: [(&str, Kind, bool); 14] = [
    ("ID", Kind::Varchar(255), false),
    ("AUTHOR", Kind::Varchar(255), false),
    ("FILENAME", Kind::Varchar(255), false),
    ("DATEEXECUTED", Kind::Moment, false),
    ("ORDEREXECUTED", Kind::Int, false),
    ("EXECTYPE", Kind::Varchar(10), false),
    ("MD5SUM", Kind::Varchar(35), true),
    ("DESCRIPTION", Kind::Varchar(255), true),
    ("COMMENTS", Kind::Varchar(255), true),
    ("TAG", Kind::Varchar(255), true),
    ("LIQUIBASE", Kind::Varchar(20), true),
    ("CONTEXTS", Kind::Varchar(255), true),
    ("LABELS", Kind::Varchar(255), true),
    ("DEPLOYMENT_ID", Kind::Varchar(10), true),
];

const LOCK_COLUMNS: [(&str, Kind, bool); 4] = [
    ("ID", Kind::Int, false),
    ("LOCKED", Kind::Boolean, false),
    ("LOCKGRANTED", Kind::Moment, true),
    ("LOCKEDBY", Kind::Text, true),
];

fn column(alloc: Global, name: &str, kind: Kind, nullable: bool) -> Result<Column, Fail> {
    Ok(Column {
        name: Name::new(alloc, name)?,
        kind,
        nullable,
        default: None,
        numbered: false,
    })
}

fn columns(alloc: Global, defs: &[(&str, Kind, bool)]) -> Result<Items<Column>, Fail> {
    let mut columns = Items::new(alloc);
    for def in defs {
        let column = column(alloc, def.0, def.1, def.2)?;
        columns.push(column)?;
    }
    Ok(columns)
}

fn value(alloc: Global, cell: Cell) -> Result<Value, Fail> {
    Ok(match cell {
        Cell::Null => Value::Null,
        Cell::Int(number) => Value::Int(number),
        Cell::Text(text) => Value::Text(Text::new(alloc, text)?),
        Cell::Bool(flag) => Value::Bool(flag),
        Cell::Moment(ms) => Value::Moment(ms),
    })
}

fn values(alloc: Global, cells: &[Cell]) -> Result<Items<Value>, Fail> {
    let mut values = Items::new(alloc);
    for cell in cells {
        let value = value(alloc, *cell)?;
        values.push(value)?;
    }
    Ok(values)
}

// A row of DATABASECHANGELOG.
fn log_cells(id: &'static str, order: i64, exec: &'static str) -> [Cell; 14] {
    [
        Cell::Text(id),
        Cell::Text("ann"),
        Cell::Text("db/e.json"),
        Cell::Moment(1000),
        Cell::Int(order),
        Cell::Text(exec),
        Cell::Text("P1:d751713988987e9331980363e24189ce"),
        Cell::Text("createTable"),
        Cell::Text("first"),
        Cell::Text("v1"),
        Cell::Text("profile-1"),
        Cell::Text("test"),
        Cell::Text("a,b"),
        Cell::Text("0000001000"),
    ]
}

// A table of this name and these columns, without key and rows.
fn table_of(alloc: Global, name: &str, defs: &[(&str, Kind, bool)]) -> Result<OneTable, Fail> {
    let name = Name::new(alloc, name)?;
    let columns = columns(alloc, defs)?;
    Ok(OneTable {
        name,
        columns,
        key: None,
        rows: Items::new(alloc),
    })
}

fn log_of(alloc: Global, rows: Items<Items<Value>>) -> Result<OneTable, Fail> {
    match table_of(alloc, LOG, &LOG_COLUMNS) {
        Ok(table) => Ok(table.with_rows(rows)),
        Err(fault) => {
            drop(rows);
            Err(fault)
        }
    }
}

fn key_of(alloc: Global, name: &str, column: &str) -> Result<Key, Fail> {
    let name = Name::new(alloc, name)?;
    let column = Name::new(alloc, column)?;
    let mut columns = Items::new(alloc);
    columns.push(column)?;
    Ok(Key { name, columns })
}

// A lock table with a key of this name and of this column.
fn keyed_lock(alloc: Global, name: &str, column: &str) -> Result<OneTable, Fail> {
    let key = key_of(alloc, name, column)?;
    Ok(table_of(alloc, LOCK, &LOCK_COLUMNS)?.with_key(key))
}

fn lock_of(alloc: Global, rows: Items<Items<Value>>) -> Result<OneTable, Fail> {
    match keyed_lock(alloc, "pk_DATABASECHANGELOGLOCK", "ID") {
        Ok(table) => Ok(table.with_rows(rows)),
        Err(fault) => {
            drop(rows);
            Err(fault)
        }
    }
}

fn push_or_null(line: &mut String, text: &Option<Text>) -> Result<(), AllocError> {
    match text {
        Some(text) => line.push_str(text.as_str()),
        None => line.push_str("null"),
    }
}

fn push_words(line: &mut String, texts: &[&Text]) -> Result<(), AllocError> {
    for text in texts {
        line.push_str(" ")?;
        line.push_str(text.as_str())?;
    }
    Ok(())
}

// How it ran, its checksum and its tag.
fn push_run(line: &mut String, row: &Tracked) -> Result<(), AllocError> {
    line.push_str(" ")?;
    line.push_str(row.exec.text())?;
    line.push_str(" ")?;
    push_or_null(line, &row.md5sum)?;
    line.push_str(" ")?;
    push_or_null(line, &row.tag)
}

fn push_row(line: &mut String, row: &Tracked) -> Result<(), AllocError> {
    let (date, order) = (row.date, row.order);
    write!(line, "{order} {date}")?;
    push_words(line, &[&row.id, &row.author, &row.filename])?;
    push_run(line, row)?;
    push_words(
        line,
        &[
            &row.description,
            &row.comments,
            &row.tool,
            &row.contexts,
            &row.labels,
            &row.deployment,
        ],
    )?;
    line.push_str(";")
}

fn push_rows(line: &mut String, rows: &[Tracked]) -> Result<(), AllocError> {
    for row in rows {
        push_row(line, row)?;
    }
    Ok(())
}

fn push_read(alloc: Global, line: &mut String, look: &OneTable) -> Result<(), AllocError> {
    match read_rows(alloc, Dialect::Postgresql, look) {
        Ok(rows) => push_rows(line, rows.as_slice()),
        Err(TrackFault::NotTables) => line.push_str("not the tables"),
        Err(TrackFault::OutOfMemory) => line.push_str("out of memory"),
    }
}

// What is read of DATABASECHANGELOG, as one line.
fn rows_read(alloc: Global, look: &OneTable) -> Result<String, Fail> {
    let mut line = String::new(alloc);
    push_read(alloc, &mut line, look)?;
    Ok(line)
}

fn push_granted(line: &mut String, granted: Option<i64>) -> Result<(), AllocError> {
    match granted {
        Some(ms) => write!(line, "{ms} "),
        None => line.push_str("null "),
    }
}

fn push_lock(line: &mut String, lock: &Lock) -> Result<(), AllocError> {
    line.push_str(if lock.locked { "locked " } else { "free " })?;
    push_granted(line, lock.granted)?;
    push_or_null(line, &lock.by)
}

fn push_lock_read(
    alloc: Global,
    line: &mut String,
    dialect: Dialect,
    look: &OneTable,
) -> Result<(), AllocError> {
    match read_lock(alloc, dialect, look) {
        Ok(lock) => push_lock(line, &lock),
        Err(fault) => write!(line, "{fault}"),
    }
}

// What is read of DATABASECHANGELOGLOCK, as one line.
fn lock_read(alloc: Global, dialect: Dialect, look: &OneTable) -> Result<String, Fail> {
    let mut line = String::new(alloc);
    push_lock_read(alloc, &mut line, dialect, look)?;
    Ok(line)
}

const FIRST: &str =
    "1 1000 1 ann db/e.json EXECUTED P1:d751713988987e9331980363e24189ce v1 createTable first profile-1 test a,b 0000001000;";

fn rows_of(alloc: Global, cells: &[[Cell; 14]]) -> Result<Items<Items<Value>>, Fail> {
    let mut rows = Items::new(alloc);
    for row in cells {
        let values = values(alloc, row)?;
        rows.push(values)?;
    }
    Ok(rows)
}

// What is read of DATABASECHANGELOG with these rows.
fn log_read(alloc: Global, rows: Items<Items<Value>>) -> Result<String, Fail> {
    let table = log_of(alloc, rows)?;
    rows_read(alloc, &table)
}

// What is read of a row in which one cell is another one.
fn row_read(alloc: Global, place: usize, cell: Cell) -> Result<String, Fail> {
    let mut cells = log_cells("1", 1, "EXECUTED");
    if let Some(held) = cells.get_mut(place) {
        *held = cell;
    }
    let rows = rows_of(alloc, &[cells])?;
    log_read(alloc, rows)
}

#[test]
fn rows_come_in_run_order(rt: HostRuntime) -> Result<(), Fail> {
    let alloc = rt.alloc();
    let rows = rows_of(
        alloc,
        &[
            log_cells("c", 30, "RERAN"),
            log_cells("a", 1, "EXECUTED"),
            log_cells("b", 2, "MARK_RAN"),
        ],
    )?;
    let line = log_read(alloc, rows)?;
    let want =
        "1 1000 a ann db/e.json EXECUTED P1:d751713988987e9331980363e24189ce v1 createTable first profile-1 test a,b 0000001000;2 1000 b ann db/e.json MARK_RAN P1:d751713988987e9331980363e24189ce v1 createTable first profile-1 test a,b 0000001000;30 1000 c ann db/e.json RERAN P1:d751713988987e9331980363e24189ce v1 createTable first profile-1 test a,b 0000001000;";
    assert_eq!(rt; line.as_str(), want);
    Ok(())
}

#[test]
fn each_value_of_a_row_is_tested(rt: HostRuntime) -> Result<(), Fail> {
    let refused = "not the tables";
    for (place, cell, want) in [
        (0, Cell::Text("1"), FIRST),
        (0, Cell::Null, refused),
        (2, Cell::Int(1), refused),
        (3, Cell::Null, refused),
        (4, Cell::Int(0), refused),
        (4, Cell::Int(-1), refused),
        (4, Cell::Null, refused),
        (5, Cell::Text("RUN"), refused),
        (
            6,
            Cell::Null,
            "1 1000 1 ann db/e.json EXECUTED null v1 createTable first profile-1 test a,b 0000001000;",
        ),
        (7, Cell::Null, refused),
        (
            9,
            Cell::Null,
            "1 1000 1 ann db/e.json EXECUTED P1:d751713988987e9331980363e24189ce null createTable first profile-1 test a,b 0000001000;",
        ),
        (9, Cell::Bool(true), refused),
        (13, Cell::Null, refused),
    ] {
        let line = row_read(rt.alloc(), place, cell)?;
        assert_eq!(rt; line.as_str(), want, "{place}");
    }
    Ok(())
}

// What is read of DATABASECHANGELOG without rows, one of whose columns is another one.
fn read_with(alloc: Global, place: usize, def: (&'static str, Kind, bool)) -> Result<String, Fail> {
    let mut defs = LOG_COLUMNS;
    if let Some(held) = defs.get_mut(place) {
        *held = def;
    }
    let table = table_of(alloc, LOG, &defs)?;
    rows_read(alloc, &table)
}

#[test]
fn each_column_is_tested(rt: HostRuntime) -> Result<(), Fail> {
    for (place, name, kind, nullable, want) in [
        (0, "ID", Kind::Varchar(255), false, ""),
        (0, "ID", Kind::Varchar(254), false, "not the tables"),
        (0, "ID", Kind::Varchar(255), true, "not the tables"),
        (13, "DEPLOYMENT", Kind::Varchar(10), true, "not the tables"),
        (4, "ORDEREXECUTED", Kind::BigInt, false, "not the tables"),
    ] {
        let line = read_with(rt.alloc(), place, (name, kind, nullable))?;
        assert_eq!(rt; line.as_str(), want, "{name}");
    }
    Ok(())
}

fn keyed_log(alloc: Global) -> Result<OneTable, Fail> {
    let key = key_of(alloc, "k", "ID")?;
    Ok(table_of(alloc, LOG, &LOG_COLUMNS)?.with_key(key))
}

#[test]
fn a_log_has_no_key(rt: HostRuntime) -> Result<(), Fail> {
    let table = keyed_log(rt.alloc())?;
    let line = rows_read(rt.alloc(), &table)?;
    assert_eq!(rt; line.as_str(), "not the tables");
    Ok(())
}

#[test]
fn a_missing_log_has_no_rows(rt: HostRuntime) -> Result<(), Fail> {
    let other = lock_of(rt.alloc(), Items::new(rt.alloc()))?;
    assert_eq!(rt; rows_read(rt.alloc(), &other)?.as_str(), "");
    Ok(())
}

#[test]
fn a_missing_lock_is_free(rt: HostRuntime) -> Result<(), Fail> {
    let table = keyed_log(rt.alloc())?;
    let line = lock_read(rt.alloc(), Dialect::Mysql, &table)?;
    assert_eq!(rt; line.as_str(), "free null null");
    Ok(())
}

// So many rows of these cells.
fn times(alloc: Global, cells: &[Cell], count: usize) -> Result<Items<Items<Value>>, Fail> {
    let mut rows = Items::new(alloc);
    for _ in 0..count {
        let values = values(alloc, cells)?;
        rows.push(values)?;
    }
    Ok(rows)
}

// What is read of DATABASECHANGELOGLOCK with so many rows of these cells.
fn row_times(alloc: Global, cells: &[Cell], count: usize) -> Result<String, Fail> {
    let rows = times(alloc, cells, count)?;
    let table = lock_of(alloc, rows)?;
    lock_read(alloc, Dialect::Postgresql, &table)
}

#[test]
fn the_lock_is_read(rt: HostRuntime) -> Result<(), Fail> {
    let taken = [
        Cell::Int(1),
        Cell::Bool(true),
        Cell::Moment(1000),
        Cell::Text("ci"),
    ];
    let free = [Cell::Int(1), Cell::Bool(false), Cell::Null, Cell::Null];
    let second = [Cell::Int(2), Cell::Bool(false), Cell::Null, Cell::Null];
    let wrong = [Cell::Int(1), Cell::Bool(true), Cell::Int(1000), Cell::Null];
    for (cells, count, want) in [
        (taken, 0, "free null null"),
        (taken, 1, "locked 1000 ci"),
        (free, 1, "free null null"),
        (taken, 2, "not the tracking tables"),
        (second, 1, "not the tracking tables"),
        (wrong, 1, "not the tracking tables"),
    ] {
        let line = row_times(rt.alloc(), &cells, count)?;
        assert_eq!(rt; line.as_str(), want, "{count}");
    }
    Ok(())
}

// What is read of a lock table with a key of this name and of this column.
fn key_read(alloc: Global, dialect: Dialect, name: &str, column: &str) -> Result<String, Fail> {
    let table = keyed_lock(alloc, name, column)?;
    lock_read(alloc, dialect, &table)
}

#[test]
fn the_lock_has_its_key(rt: HostRuntime) -> Result<(), Fail> {
    for (dialect, name, column, want) in [
        (
            Dialect::Postgresql,
            "pk_DATABASECHANGELOGLOCK",
            "ID",
            "free null null",
        ),
        (
            Dialect::Postgresql,
            "PRIMARY",
            "ID",
            "not the tracking tables",
        ),
        (Dialect::Mysql, "PRIMARY", "ID", "free null null"),
        (
            Dialect::Mysql,
            "PRIMARY",
            "LOCKED",
            "not the tracking tables",
        ),
    ] {
        let line = key_read(rt.alloc(), dialect, name, column)?;
        assert_eq!(rt; line.as_str(), want, "{name}");
    }
    Ok(())
}

#[test]
fn the_lock_is_not_without_a_key(rt: HostRuntime) -> Result<(), Fail> {
    let without = table_of(rt.alloc(), LOCK, &LOCK_COLUMNS)?;
    let line = lock_read(rt.alloc(), Dialect::Postgresql, &without)?;
    assert_eq!(rt; line.as_str(), "not the tracking tables");
    Ok(())
}
