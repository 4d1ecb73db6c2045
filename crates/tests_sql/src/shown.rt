use lq_base::{Dialect, NoMemory, Text};
use lq_model::{Query, Statement, Test};
use lq_sql::{print, print_query, print_test};
use std::alloc::Global;

// What is printed goes where its text is made.

pub fn shown(alloc: Global, dialect: Dialect, statement: Statement) -> Result<Text, NoMemory> {
    print(alloc, dialect, &statement)
}

pub fn shown_query(alloc: Global, dialect: Dialect, query: Query) -> Result<Text, NoMemory> {
    print_query(alloc, dialect, &query)
}

pub fn shown_test(alloc: Global, dialect: Dialect, test: Test) -> Result<Text, NoMemory> {
    print_test(alloc, dialect, &test)
}
