ghost use Rattle.std.specs.Prelude.{◌≡◌};
ghost use Rattle.lq_base.specs.declared.dialect.Dialect.{Dialect};
ghost use Rattle.lq_model.specs.SqlText.{query_in, statement_in, test_in};

use lq_base::{NoMemory, Text};
use lq_model::{ParseFault, Query, SqlText, Statement, Test};
use lq_sqllex::laws::lexemes_go_on;
use std::alloc::Global;

/// SQL text of a reader's dialect, handed to that reader without the spaces at its front.
#[derive(Clone, Copy)]
pub struct Trimmed<P> {
    pub reader: P,
}

/// The text behind the spaces at its front, which spells the same.
fn without_spaces(text: &str) -> &str
    ensures statement { (d : Dialect) → statement_in d result.now ≡ statement_in d text.now }
    ensures query { (d : Dialect) → query_in d result.now ≡ query_in d text.now }
    ensures test { (d : Dialect) → test_in d result.now ≡ test_in d text.now }
{
    lexemes_go_on();
    text.trim_start_matches(' ')
}

impl<P: SqlText> SqlText for Trimmed<P> {
    ghost dialect = { P.dialect };

    fn print(&self, alloc: Global, statement: &Statement) -> Result<Text, NoMemory> {
        self.reader.print(alloc, statement)
    }

    fn parse(&self, alloc: Global, text: &str) -> Result<Statement, ParseFault> {
        self.reader.parse(alloc, without_spaces(text))
    }

    fn parse_query(&self, alloc: Global, text: &str) -> Result<Query, ParseFault> {
        self.reader.parse_query(alloc, without_spaces(text))
    }

    fn parse_test(&self, alloc: Global, text: &str) -> Result<Test, ParseFault> {
        self.reader.parse_test(alloc, without_spaces(text))
    }

    ghost spelled = { P.spelled };

    ghost queries_spelled = { P.queries_spelled };

    ghost tests_spelled = { P.tests_spelled };
}
