ghost use Rattle.std.specs.Prelude.{◌≡◌, true, IfOk};
ghost use Rattle.lq_model.specs.SqlParser.{Gives};
ghost use Rattle.lq_model.specs.SqlText.{query_in, statement_in, test_in};
ghost use Rattle.lq_model.specs.Step.{is_statement};
ghost use Rattle.lq_model.specs.StatementText.{text_of};

use crate::fault::ParseFault;
use crate::query::Query;
use crate::statement::Statement;
use crate::test::Test;
use lq_base::{NoMemory, Text};
use std::alloc::Global;

/// How the statements, queries and tests of one dialect are written and read.
pub trait SqlText {
    ghost use Rattle.lq_base.specs.declared.dialect.Dialect.{Dialect};
    ghost use Rattle.lq_model.specs.SqlText.{QueriesAreSpelled, StatementsAreSpelled, TestsAreSpelled};

    ghost dialect: { Dialect };

    /// The canonical text of a statement of the dialect.
    fn print(&self, alloc: Global, statement: &Statement) -> Result<Text, NoMemory>
        requires { is_statement dialect statement.now ≡ true }
        ensures { IfOk result (λ text. text ≡ text_of dialect statement.now) };

    /// The statement that a text spells. `NotSql` exactly where it spells none.
    fn parse(&self, alloc: Global, text: &str) -> Result<Statement, ParseFault>
        ensures { Gives (statement_in dialect text.now) result };

    /// The query that a text spells. `NotSql` exactly where it spells none.
    fn parse_query(&self, alloc: Global, text: &str) -> Result<Query, ParseFault>
        ensures { Gives (query_in dialect text.now) result };

    /// The test that a text spells. `NotSql` exactly where it spells none.
    fn parse_test(&self, alloc: Global, text: &str) -> Result<Test, ParseFault>
        ensures { Gives (test_in dialect text.now) result };

    /// A statement that is read is one of the dialect, so it can be printed.
    ghost spelled: { StatementsAreSpelled dialect };

    /// A query that is read can be written.
    ghost queries_spelled: { QueriesAreSpelled dialect };

    /// A test that is read can be written.
    ghost tests_spelled: { TestsAreSpelled dialect };
}
