use lq_base::{Dialect, NoMemory, Text};
use lq_model::{ParseFault, Query, SqlText, Statement, Test};
use lq_parse::{parse_query, parse_test};
use lq_sql::print;
use lq_statement::parse;
use std::alloc::Global;

/// SQL text of PostgreSQL.
#[derive(Clone, Copy)]
pub struct Pg;

impl SqlText for Pg {
    ghost use Rattle.lq_base.proofs.NumberSpelled.{number_of-spells};
    ghost use Rattle.lq_base.specs.declared.dialect.Dialect.TheVariants.{Postgresql};
    ghost use Rattle.lq_parse.proofs.CanWrite.{queries_can, tests_can};
    ghost use Rattle.lq_statement.proofs.StatementMakes.{statements_can};

    ghost dialect = { Postgresql };

    fn print(&self, alloc: Global, statement: &Statement) -> Result<Text, NoMemory> {
        print(alloc, Dialect::Postgresql, statement)
    }

    fn parse(&self, alloc: Global, text: &str) -> Result<Statement, ParseFault> {
        parse(alloc, Dialect::Postgresql, text)
    }

    fn parse_query(&self, alloc: Global, text: &str) -> Result<Query, ParseFault> {
        parse_query(alloc, Dialect::Postgresql, text)
    }

    fn parse_test(&self, alloc: Global, text: &str) -> Result<Test, ParseFault> {
        parse_test(alloc, Dialect::Postgresql, text)
    }

    ghost spelled = { statements_can number_of-spells Postgresql };

    ghost queries_spelled = { queries_can number_of-spells Postgresql };

    ghost tests_spelled = { tests_can number_of-spells Postgresql };
}
