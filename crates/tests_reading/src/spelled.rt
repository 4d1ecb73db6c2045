use crate::printed;
use lq_base::{Dialect, NoMemory};
use lq_model::{ParseFault, SqlText};
use lq_parse::{parse_query, parse_test};
use lq_statement::laws::statements_can_be_written;
use std::alloc::{AllocError, Global};
use tests_table::count;

fn told(alloc: Global, fault: ParseFault) -> Result<String, NoMemory> {
    match fault {
        ParseFault::NotSql => Ok(String::from_str(alloc, "no SQL")?),
        ParseFault::OutOfMemory => Err(NoMemory),
    }
}

/// The statement that a text spells, as it is printed.
pub fn statement<P: SqlText>(sql: &P, alloc: Global, text: &str) -> Result<String, NoMemory> {
    statements_can_be_written();
    match sql.parse(alloc, text) {
        Ok(statement) => printed::statement(sql, alloc, statement),
        Err(fault) => told(alloc, fault),
    }
}

/// The query that a text spells, as it is printed.
pub fn query<P: SqlText>(
    sql: &P,
    alloc: Global,
    dialect: Dialect,
    text: &str,
) -> Result<String, NoMemory> {
    match sql.parse_query(alloc, text) {
        Ok(query) => printed::query(alloc, dialect, query),
        Err(fault) => told(alloc, fault),
    }
}

/// The test that a text spells, as it is printed.
pub fn test<P: SqlText>(
    sql: &P,
    alloc: Global,
    dialect: Dialect,
    text: &str,
) -> Result<String, NoMemory> {
    match sql.parse_test(alloc, text) {
        Ok(test) => printed::test(alloc, dialect, test),
        Err(fault) => told(alloc, fault),
    }
}

fn repeated(out: &mut String, times: usize, part: &str) -> Result<(), AllocError> {
    for _time in 0..times {
        out.push_str(part)?;
    }
    Ok(())
}

fn nested(alloc: Global, times: usize, front: &str, back: &str) -> Result<String, AllocError> {
    let mut made = String::new(alloc);
    repeated(&mut made, times, front)?;
    made.push_str("a = 1")?;
    repeated(&mut made, times, back)?;
    Ok(made)
}

/// Whether a test with so many fronts before it, and as many backs behind it, is read.
pub fn nested_test(
    alloc: Global,
    times: &str,
    front: &str,
    back: &str,
) -> Result<String, NoMemory> {
    let text = nested(alloc, count(times), front, back)?;
    let word = match parse_test(alloc, Dialect::Postgresql, text.as_str()) {
        Ok(_) => "read",
        Err(ParseFault::NotSql) => "no SQL",
        Err(ParseFault::OutOfMemory) => return Err(NoMemory),
    };
    Ok(String::from_str(alloc, word)?)
}

/// Whether a word without quotes may be the name of a column.
pub fn plain_name(alloc: Global, dialect: Dialect, word: &str) -> Result<String, NoMemory> {
    let text = format!(in alloc; "SELECT {word} FROM t")?;
    let told = match parse_query(alloc, dialect, text.as_str()) {
        Ok(_) => "a name",
        Err(ParseFault::NotSql) => "reserved",
        Err(ParseFault::OutOfMemory) => return Err(NoMemory),
    };
    Ok(String::from_str(alloc, told)?)
}
