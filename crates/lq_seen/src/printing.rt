ghost use Rattle.std.specs.List.{list_all};
ghost use Rattle.std.specs.Prelude.{◌≡◌, ◌++◌, ◌∷◌, [], IfOk, OnOk, map, true};
ghost use Rattle.lq_model.specs.Step.{is_statement};
ghost use Rattle.lq_model.specs.StatementText.{text_of};
ghost use Rattle.lq_seen.specs.Telling.{with_texts};

use lq_base::{Duplicate, Identity, Items, NoMemory, Printed, Text};
use lq_model::{SqlText, Statement};
use std::alloc::Global;

/// Keeps the canonical texts of the statements that run for a changeset, or that take it back.
pub fn print<P: SqlText>(
    alloc: Global,
    sql: &P,
    identity: &Identity,
    statements: &[Statement],
    to: &mut Items<Printed>,
) -> Result<(), NoMemory>
    requires spelled { list_all (is_statement P.dialect) statements.now ≡ true }
    ensures { OnOk result
        (to.new ≡ to.old ++ with_texts P.dialect (identity.now, statements.now) ∷ []) }
{
    let made = printed(alloc, sql, identity, statements)?;
    to.push(made)?;
    Ok(())
}

fn printed<P: SqlText>(
    alloc: Global,
    sql: &P,
    identity: &Identity,
    statements: &[Statement],
) -> Result<Printed, NoMemory>
    requires spelled { list_all (is_statement P.dialect) statements.now ≡ true }
    ensures { IfOk result (λ made. made ≡ with_texts P.dialect (identity.now, statements.now)) }
{
    let texts = texts_of(alloc, sql, statements)?;
    let own = identity.duplicate(alloc)?;
    Ok(Printed {
        identity: own,
        texts,
    })
}

/// The canonical text of each statement.
fn texts_of<P: SqlText>(
    alloc: Global,
    sql: &P,
    statements: &[Statement],
) -> Result<Items<Text>, NoMemory>
    requires spelled { list_all (is_statement P.dialect) statements.now ≡ true }
    ensures { IfOk result (λ texts. texts ≡ map (text_of P.dialect) statements.now) }
{
    let mut texts = Items::new(alloc);
    let mut rest = statements;
    while let Some((statement, after)) = rest.split_first() {
        texts.push(sql.print(alloc, statement)?)?;
        rest = after;
    }
    Ok(texts)
}
