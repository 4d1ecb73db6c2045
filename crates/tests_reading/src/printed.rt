ghost use Rattle.std.specs.Prelude.{◌≡◌, true};
ghost use Rattle.lq_model.specs.Step.{is_statement};

use lq_base::{Dialect, NoMemory, Text};
use lq_model::{Query, SqlText, Statement, Test};
use lq_sql::{print_query, print_test};
use std::alloc::Global;

// What is printed goes where its text is made.

fn shown(alloc: Global, text: Result<Text, NoMemory>) -> Result<String, NoMemory> {
    let text = text?;
    Ok(String::from_str(alloc, text.as_str())?)
}

/// A statement's text.
pub fn statement<P: SqlText>(sql: &P, alloc: Global, it: Statement) -> Result<String, NoMemory>
    requires { is_statement P.dialect it ≡ true }
{
    shown(alloc, sql.print(alloc, &it))
}

/// A query's text.
pub fn query(alloc: Global, dialect: Dialect, it: Query) -> Result<String, NoMemory> {
    shown(alloc, print_query(alloc, dialect, &it))
}

/// A test's text.
pub fn test(alloc: Global, dialect: Dialect, it: Test) -> Result<String, NoMemory> {
    shown(alloc, print_test(alloc, dialect, &it))
}
