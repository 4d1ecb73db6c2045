ghost use Rattle.lq_model.specs.SqlParser.{Gives, Reads};
ghost use Rattle.lq_model.specs.SqlParser as parser;
ghost use Rattle.lq_model.specs.SqlStatement as spec;
ghost use Rattle.lq_model.specs.SqlText.{statement_in};

use crate::alter::alter;
use crate::create::create;
use crate::drop_object::{drop_object, rename_table};
use crate::rows::{delete, insert, update};
use lq_base::Dialect;
use lq_model::{ParseFault, Statement, WordKind};
use lq_parse::cursor::Words;
use lq_parse::lexing::words;
use lq_parse::parse::ended;
use std::alloc::Global;

#[tactic(auto, unfolding(lq_model::specs::SqlStatement::statement))]
fn statement(
    alloc: Global,
    dialect: Dialect,
    words: &mut Words<'_>,
) -> Result<Statement, ParseFault>
    ensures { Reads (spec.statement dialect words.old) result words.new }
{
    let verb = words.peek();
    words.skip();
    match (dialect, verb) {
        (_, WordKind::Create) => create(alloc, dialect, words),
        (_, WordKind::Drop) => drop_object(alloc, dialect, words),
        (_, WordKind::Alter) => alter(alloc, dialect, words),
        (Dialect::Mysql, WordKind::Rename) => rename_table(alloc, words),
        (_, WordKind::Insert) => insert(alloc, dialect, words),
        (_, WordKind::Update) => update(alloc, dialect, words),
        (_, WordKind::Delete) => delete(alloc, dialect, words),
        _ => Err(ParseFault::NotSql),
    }
}

fn whole_statement(
    alloc: Global,
    dialect: Dialect,
    words: &mut Words<'_>,
) -> Result<Statement, ParseFault>
    ensures { Reads (parser.to_end (spec.statement dialect) words.old) result words.new }
{
    let statement = statement(alloc, dialect, words)?;
    ended(words, statement)
}

/// The statement that a text spells in a dialect. `NotSql` exactly where it spells none.
#[tactic(auto, unfolding(lq_model::specs::SqlText::statement_in))]
pub fn parse(alloc: Global, dialect: Dialect, text: &str) -> Result<Statement, ParseFault>
    ensures { Gives (statement_in dialect text.now) result }
{
    let words = words(alloc, dialect, text.as_bytes())?;
    whole_statement(alloc, dialect, &mut Words::new(&words))
}
