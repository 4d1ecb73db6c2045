ghost use Rattle.std.specs.Prelude.{◌≡◌, IfOk, map};
ghost use Rattle.lq_fields.specs.Literals.{literal_in};

use lq_base::{Items, Literal, NoMemory, Text};
use std::alloc::Global;

/// The field `NULL` is null, and any other its text.
fn literal_of(alloc: Global, field: &str) -> Result<Literal, NoMemory>
    ensures { IfOk result (λ made. made ≡ literal_in field.now) }
{
    if field == "NULL" {
        return Ok(Literal::Null);
    }
    Ok(Literal::Text(Text::new(alloc, field)?))
}

/// The literals of a record's fields, in order (Liquibase's documentation, "loadData").
pub fn literals_of(alloc: Global, row: &[Text]) -> Result<Items<Literal>, NoMemory>
    ensures { IfOk result (λ literals. literals ≡ map literal_in row.now) }
{
    let mut literals = Items::new(alloc);
    for field in row {
        literals.push(literal_of(alloc, field.as_str())?)?;
    }
    Ok(literals)
}
