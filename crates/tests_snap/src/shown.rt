use crate::notation::bytes;
use lq_base::{Dialect, Name, NoMemory};
use lq_engine::{Engine, Sort};
use lq_snap::read;
use lq_store::SnapFault;
use std::alloc::Global;

fn row_count(engine: &Engine, table: &Name) -> u64 {
    let mut count: u64 = 0;
    if let Some(rows) = engine.rows_of(table) {
        for _row in rows {
            count = count.saturating_add(1);
        }
    }
    count
}

fn append_table(engine: &Engine, table: &Name, to: &mut String) -> Result<(), NoMemory> {
    let next = engine.next_number(table).unwrap_or(0);
    let rows = row_count(engine, table);
    write!(to, "{} next {next} rows {rows}; ", table.as_key())?;
    Ok(())
}

fn append_tables(alloc: Global, engine: &Engine, to: &mut String) -> Result<(), NoMemory> {
    let names = engine.names(alloc, Sort::Table)?;
    for name in names.as_slice() {
        append_table(engine, name, to)?;
    }
    Ok(())
}

fn append_views(alloc: Global, engine: &Engine, to: &mut String) -> Result<(), NoMemory> {
    let names = engine.names(alloc, Sort::View)?;
    for name in names.as_slice() {
        if let Some(view) = engine.view(name) {
            let columns = view.columns().len();
            let of = view.query().table.as_key();
            write!(to, "{} of {of} columns {columns}; ", name.as_key())?;
        }
    }
    Ok(())
}

fn append_sequences(alloc: Global, engine: &Engine, to: &mut String) -> Result<(), NoMemory> {
    let names = engine.names(alloc, Sort::Sequence)?;
    for name in names.as_slice() {
        if let Some((start, step)) = engine.sequence(name) {
            write!(to, "{} from {start} by {step}; ", name.as_key())?;
        }
    }
    Ok(())
}

/// What stands in the engine of a state, and what stands at a name that nothing has.
pub fn shown(alloc: Global, dialect: Dialect, field: &str) -> Result<String, NoMemory> {
    let bytes = bytes(alloc, field)?;
    let engine = match read(alloc, dialect, bytes.as_slice()) {
        Ok(engine) => engine,
        Err(SnapFault::NotSnapshot) => return Ok(String::from_str(alloc, "none")?),
        Err(SnapFault::OutOfMemory) => return Err(NoMemory),
    };
    let mut to = String::new(alloc);
    append_tables(alloc, &engine, &mut to)?;
    append_views(alloc, &engine, &mut to)?;
    append_sequences(alloc, &engine, &mut to)?;
    Ok(to)
}
