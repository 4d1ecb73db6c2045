use crate::tried::told_by;
use lq_base::{Dialect, Items, Kind, Name, Value};
use lq_engine::Engine;
use lq_model::Column;
use lq_pg::Pg;
use lq_state::{State, Table};
use std::alloc::Global;
use std::test::Fail;

// So many rows of one null.
fn rows_of(alloc: Global, count: u32) -> Result<Items<Items<Value>>, Fail> {
    let mut rows = Items::new(alloc);
    for _ in 0..count {
        let mut row = Items::new(alloc);
        row.push(Value::Null)?;
        rows.push(row)?;
    }
    Ok(rows)
}

// A table of one column without a constraint, with so many rows.
fn table_of(alloc: Global, count: u32) -> Result<Table, Fail> {
    let rows = rows_of(alloc, count)?;
    let mut columns = Items::new(alloc);
    columns.push(Column {
        name: Name::new(alloc, "a")?,
        kind: Kind::Int,
        nullable: true,
        default: None,
        numbered: false,
    })?;
    Ok(Table {
        columns,
        key: None,
        uniques: Items::new(alloc),
        foreign: Items::new(alloc),
        indexes: Items::new(alloc),
        next: 1,
        rows,
    })
}

// What a text answers where a table has so many rows.
fn told_on(alloc: Global, count: u32, text: &str) -> Result<String, Fail> {
    let table = table_of(alloc, count)?;
    let mut tables = Items::new(alloc);
    tables.push((Name::new(alloc, "t")?, table))?;
    let state = State {
        tables,
        views: Items::new(alloc),
        sequences: Items::new(alloc),
    };
    let mut engine = Engine::from_parts(alloc, Dialect::Postgresql, state)?;
    told_by(alloc, &Pg, &mut engine, text)
}

#[test]
fn a_table_has_room_for_100000_rows(rt: HostRuntime) -> Result<(), Fail> {
    let alloc = rt.alloc();
    for (count, text, want) in [
        (99_999, "INSERT INTO t (a) VALUES (1)", "1 changed"),
        (100_000, "INSERT INTO t (a) VALUES (1)", "too many rows"),
        (100_000, "UPDATE t SET a = 1", "100000 changed"),
    ] {
        let told = told_on(alloc, count, text)?;
        assert_eq!(rt; told.as_str(), want);
    }
    Ok(())
}
