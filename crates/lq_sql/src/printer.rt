ghost use Rattle.std.specs.Prelude.{◌≡◌, IfOk};
ghost use Rattle.lq_model.specs.StatementText.{text_of};
ghost use Rattle.lq_model.specs.TestText.{query_text, test_text};

use crate::spell::{Spell, Style};
use lq_base::{Dialect, NoMemory, Text};
use lq_model::{Query, Statement, Test};
use std::alloc::Global;

/// The canonical text of the statement: the one spelling in which it is journaled and printed.
pub fn print(alloc: Global, dialect: Dialect, statement: &Statement) -> Result<Text, NoMemory>
    ensures { IfOk result (λ text. text ≡ text_of dialect statement.now) }
{
    whole(Style { alloc, dialect }, statement)
}

/// The canonical text of the query.
pub fn print_query(alloc: Global, dialect: Dialect, query: &Query) -> Result<Text, NoMemory>
    ensures { IfOk result (λ text. text ≡ query_text dialect query.now) }
{
    whole(Style { alloc, dialect }, query)
}

/// The canonical text of the test.
pub fn print_test(alloc: Global, dialect: Dialect, test: &Test) -> Result<Text, NoMemory>
    ensures { IfOk result (λ text. text ≡ test_text dialect test.now) }
{
    whole(Style { alloc, dialect }, test)
}

fn whole<T: Spell>(style: Style, it: &T) -> Result<Text, NoMemory>
    ensures { IfOk result (λ text. text ≡ T.text style.dialect it.now) }
{
    let mut text = Text::new(style.alloc, "")?;
    it.spell(style, &mut text)?;
    Ok(text)
}
