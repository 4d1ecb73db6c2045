//! The statements that a text spells, piece by piece.
ghost use Rattle.std.specs.List.{list_all};
ghost use Rattle.std.specs.Prelude.{◌≡◌, ◌∷◌, [], IfOk, true};
ghost use Rattle.lq_model.specs.SqlParser.{Gives};
ghost use Rattle.lq_model.specs.Step.{is_statement};
ghost use Rattle.lq_sqllex.specs.Pieces.{kept};
ghost use Rattle.lq_data.specs.Script.{all_spelled, is_delimiter, pieces_of, script, statements_in};

use lq_base::{Dialect, Items, NoMemory, Text};
use lq_model::{ParseFault, SqlText, Statement};
use lq_sqllex::{SplitFault, is_trivia, split};
use std::alloc::Global;

// The text as one piece, unless it is of blanks and comments alone.
fn whole(alloc: Global, dialect: Dialect, text: &str) -> Result<Items<Text>, NoMemory>
    ensures { IfOk result (λ found. found ≡ kept dialect (text.now ∷ [])) }
{
    let mut found = Items::new(alloc);
    if !is_trivia(dialect, text.as_bytes()) {
        found.push(Text::new(alloc, text)?)?;
    }
    Ok(found)
}

fn pieces_of(
    alloc: Global,
    dialect: Dialect,
    text: &str,
    is_split: bool,
    delimiter: &str,
) -> Result<Items<Text>, ParseFault>
    requires { is_delimiter delimiter.now ≡ true }
    ensures { Gives (pieces_of (script dialect text.now is_split delimiter.now)) result }
{
    if !is_split {
        let found = whole(alloc, dialect, text)?;
        return Ok(found);
    }
    match split(alloc, dialect, text, delimiter) {
        Ok(found) => Ok(found),
        Err(SplitFault::Unclosed) => Err(ParseFault::NotSql),
        Err(SplitFault::OutOfMemory) => Err(ParseFault::OutOfMemory),
    }
}

fn each_statement<P: SqlText>(
    alloc: Global,
    sql: &P,
    pieces: &[Text],
) -> Result<Items<Statement>, ParseFault>
    ensures read { Gives (all_spelled P.dialect pieces.now) result }
    ensures fits { IfOk result (λ found. list_all (is_statement P.dialect) found ≡ true) }
{
    let mut found = Items::new(alloc);
    for piece in pieces {
        match sql.parse(alloc, piece.as_str()) {
            Ok(statement) => found.push(statement)?,
            Err(fault) => return Err(fault),
        }
    }
    Ok(found)
}

/// The statements that a text spells: that of each of its pieces, or of the whole where it is not
/// split. `NotSql` exactly where it is not cut, or a piece spells no statement.
pub(crate) fn statements_in<P: SqlText>(
    alloc: Global,
    dialect: Dialect,
    sql: &P,
    text: &str,
    is_split: bool,
    delimiter: &str,
) -> Result<Items<Statement>, ParseFault>
    requires same { dialect ≡ P.dialect }
    requires delimiter { is_delimiter delimiter.now ≡ true }
    ensures read { Gives (statements_in (script dialect text.now is_split delimiter.now)) result }
    ensures fits { IfOk result (λ found. list_all (is_statement dialect) found ≡ true) }
{
    match pieces_of(alloc, dialect, text, is_split, delimiter) {
        Ok(pieces) => each_statement(alloc, sql, pieces.as_slice()),
        Err(fault) => Err(fault),
    }
}
