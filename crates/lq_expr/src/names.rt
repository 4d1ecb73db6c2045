ghost use Rattle.std.specs.Prelude.{◌≡◌, ◌⊎◌, Err};
ghost use Rattle.lq_expr.specs.Spelled.{Gives};
ghost use Rattle.lq_expr.specs.Grammar.{label_name, label_named, names_in, parsed_names};

use crate::expr::ExprFault;
use crate::reading::first_part;
use crate::words::words;
use lq_base::{Items, Text};
use lq_operators::{Operator, Word};
use std::alloc::Global;

/// The names that a text lists with commas between, as labels and the contexts of a command. Blanks
/// around a name are dropped, and a text of blanks alone lists none. A name is that of an expression.
///
/// The form is that of Liquibase's documentation, "Labels".
pub fn parse_names(alloc: Global, text: &str) -> Result<Items<Text>, ExprFault>
    ensures { (result ≡ Err ExprFault.OutOfMemory) ⊎ (result ≡ parsed_names text.now) }
{
    let words = words(alloc, text)?;
    names_in(alloc, words.as_slice())
}

fn names_in(alloc: Global, words: &[Word]) -> Result<Items<Text>, ExprFault>
    ensures { Gives (names_in words.now) result }
{
    let mut names = Items::new(alloc);
    let mut left = if words.is_empty() { None } else { Some(words) };
    while let Some(rest) = left {
        let (part, after) = first_part(Operator::Comma, rest);
        names.push(label_name(alloc, part)?)?;
        left = after;
    }
    Ok(names)
}

fn label_name(alloc: Global, words: &[Word]) -> Result<Text, ExprFault>
    ensures { Gives (label_name words.now) result }
{
    match words {
        [Word::Name(name)] => copied_name(alloc, name),
        _ => Err(ExprFault::NotExpr),
    }
}

fn copied_name(alloc: Global, name: &Text) -> Result<Text, ExprFault>
    ensures { Gives (label_named name.now) result }
{
    if name.as_str().starts_with('@') {
        return Err(ExprFault::NotExpr);
    }
    Ok(name.copy(alloc)?)
}
